// Answers as replies.
ghost use Rattle.std.specs.Prelude.{◌≡◌, ◌++◌, [], OnOk, string_bytes};
ghost use Rattle.hx_model.specs.Bodies.{answer_code, answer_text};
ghost use Rattle.hx_model.specs.Serving.{IsLegalAnswer};
ghost use Rattle.hx_api.specs.Replies.{IsReplyTo};

use hx_discovery::push_document;
use hx_json::{push_deleted, push_events, push_list, push_object, push_status};
use hx_model::Answer;
use hx_object::{NoMemory, Text};
use std::alloc::Global;

/// A reply: an HTTP status and a body.
pub struct Reply {
    pub status: u16,
    pub body: Text,
}

impl Drop for Reply {
    fn drop(self) {
        let Reply { status: _, body: _ } = self;
    }
}

impl Reply {
    /// The reply where no memory is left: 503, and an empty body, for which callers write a fixed text. It takes no memory.
    pub fn no_memory(alloc: Global) -> Reply
        ensures status { result.status ≡ 503 }
        ensures body { result.body ≡ [] }
    {
        Reply {
            status: 503,
            body: Text::of_string(String::new(alloc)),
        }
    }
}

/// The HTTP status of an answer.
pub fn status_of(answer: &Answer) -> u16
    ensures { result ≡ answer_code answer.now }
{
    match answer {
        Answer::One { fresh, .. } => { if *fresh { 201 } else { 200 } }
        Answer::Many { .. } => 200,
        Answer::Deleted { .. } => 200,
        Answer::Document(_) => 200,
        Answer::Events { .. } => 200,
        Answer::Refused(refusal) => refusal.code(),
    }
}

/// Appends the body that says an answer. After an error the text may end with a part of it.
pub fn push_body(out: &mut String, answer: &Answer) -> Result<(), NoMemory>
    requires { IsLegalAnswer answer.now }
    ensures { OnOk result (string_bytes out.new ≡ string_bytes out.old ++ answer_text answer.now) }
{
    match answer {
        Answer::One { object, .. } => push_object(out, object.object()),
        Answer::Many {
            kind,
            objects,
            version,
        } => push_list(out, *kind, objects.as_slice(), *version),
        Answer::Deleted { version } => push_deleted(out, *version),
        Answer::Document(document) => push_document(out, *document),
        Answer::Events { events, version } => push_events(out, events.as_slice(), *version),
        Answer::Refused(refusal) => push_status(out, refusal),
    }
}

/// The reply that carries an answer, or the one for want of memory.
pub fn write_answer(alloc: Global, answer: &Answer) -> Reply
    requires { IsLegalAnswer answer.now }
    ensures { IsReplyTo answer.now result }
{
    let mut body = String::new(alloc);
    match push_body(&mut body, answer) {
        Ok(()) => Reply {
            status: status_of(answer),
            body: Text::of_string(body),
        },
        Err(NoMemory) => Reply::no_memory(alloc),
    }
}
