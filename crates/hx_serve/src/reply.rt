// The text of replies.
ghost use Rattle.std.specs.Prelude.{◌≡◌, ◌≢◌, OnOk, IfSome, IfNone, string_bytes};
ghost use Rattle.hx_model.specs.Serving.{IsLegalAnswer};
ghost use Rattle.hx_serve.specs.Exchanges.{reply_of};
ghost use Rattle.hx_serve.specs.Inside.{IsSaid};

use hx_api::{push_body, status_of};
use hx_http::{no_memory_reply, store_failed_reply, write_reply};
use hx_model::{Answer, Refusal};
use hx_object::NoMemory;
use hx_ports::empty;

/// The reply that says an answer: it is laid into `room`, or is a fixed text where no memory is left. Its body is made first, since its length stands before it.
pub fn reply_to<'a>(room: &'a mut String, body: &mut String, answer: &Answer, last: bool) -> &'a str
    requires { IsLegalAnswer answer.now }
    ensures { IsSaid last answer.now result.now }
{
    if let Answer::Refused(refusal) = answer {
        if let Some(text) = fixed_reply(refusal, last) {
            return text;
        }
    }
    let laid = lay_reply(room, body, answer, last);
    empty(body);
    match laid {
        Ok(()) => room.as_str(),
        Err(NoMemory) => no_memory_reply(last),
    }
}

/// The replies that need no memory.
fn fixed_reply(refusal: &Refusal, last: bool) -> Option<&'static str>
    ensures reply { IfSome result (λ text. text.now ≡ reply_of last (Answer.Refused refusal.now)) }
    ensures store_failed { IfNone result (refusal.now ≢ Refusal.StoreFailed) }
{
    match refusal {
        Refusal::StoreFailed => Some(store_failed(last)),
        Refusal::NoMemory => Some(no_memory(last)),
        _ => None,
    }
}

fn store_failed(last: bool) -> &'static str
    ensures { result.now ≡ reply_of last (Answer.Refused Refusal.StoreFailed) }
{
    store_failed_reply(last)
}

fn no_memory(last: bool) -> &'static str
    ensures { result.now ≡ reply_of last (Answer.Refused Refusal.NoMemory) }
{
    no_memory_reply(last)
}

/// Lays the reply to an answer into `room`.
#[tactic(auto, using(crate::proofs::Codes::is_code))]
fn lay_reply(
    room: &mut String,
    body: &mut String,
    answer: &Answer,
    last: bool,
) -> Result<(), NoMemory>
    requires { IsLegalAnswer answer.now }
    ensures { OnOk result (string_bytes room.new ≡ reply_of last answer.now) }
{
    body.clear();
    push_body(body, answer)?;
    write_reply(room, status_of(answer), body.as_str(), last)?;
    Ok(())
}
