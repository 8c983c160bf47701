// Events as compact JSON: lists of them, and lines of a log.
ghost use Rattle.std.specs.Prelude.{◌≡◌, ◌++◌, false, string_bytes, OnOk};
ghost use Rattle.std.specs.List.{AllByRecursion};
ghost use Rattle.serde_json.specs.Written.{items_text};
ghost use Rattle.hx_object.specs.Faults.{IsLegal};
ghost use Rattle.hx_model.specs.Json.{events_items, events_text, word_of};
ghost use Rattle.hx_json.specs.EventLines.{event_front, event_line, event_text};

use super::object::push_object;
use super::text::{push, push_comma_if, push_named, push_named_number};
use hx_model::{Event, What};
use hx_object::NoMemory;

/// Appends the text of a list of events, with the version that the store has.
pub fn push_events(out: &mut String, events: &[Event], version: u64) -> Result<(), NoMemory>
    requires { AllByRecursion (λ (e : Event). IsLegal e.object) events.now }
    ensures { OnOk result (string_bytes out.new ≡ string_bytes out.old ++ events_text events.now version) }
{
    push(out, r#"{"items":["#)?;
    push_items(out, events)?;
    push_named_number(
        out,
        r#","kind":"ChangeList","metadata":{"resourceVersion":"#,
        version,
    )?;
    push(out, "}}")
}

/// Appends an event as one line of JSON with its line feed, for a log: `{"object":OBJECT,"type":"ADDED","version":"7"}`. The type is `ADDED`, `MODIFIED` or `DELETED`, as in a Kubernetes watch, and the version that of the event's commit.
pub fn push_event_line(out: &mut String, event: &Event) -> Result<(), NoMemory>
    requires { IsLegal event.now.object }
    ensures { OnOk result (string_bytes out.new ≡ string_bytes out.old ++ event_line event.now) }
{
    push_front(out, event)?;
    push_named_number(out, r#","version":"#, event.version)?;
    push(out, "}\n")
}

/// Appends events and the bracket behind them.
#[tactic(auto, unfolding(crate::specs::EventLines::event_text))]
fn push_items(out: &mut String, events: &[Event]) -> Result<(), NoMemory>
    requires { AllByRecursion (λ (e : Event). IsLegal e.object) events.now }
    ensures { OnOk result (string_bytes out.new ≡ string_bytes out.old ++ items_text false (events_items events.now)) }
{
    let mut later = false;
    for event in events {
        push_comma_if(out, later)?;
        push_event(out, event)?;
        later = true;
    }
    push(out, "]")
}

fn push_event(out: &mut String, event: &Event) -> Result<(), NoMemory>
    requires { IsLegal event.now.object }
    ensures { OnOk result (string_bytes out.new ≡ string_bytes out.old ++ event_text event.now) }
{
    push_front(out, event)?;
    push(out, "}")
}

/// Appends an event up to the word of what was done.
fn push_front(out: &mut String, event: &Event) -> Result<(), NoMemory>
    requires { IsLegal event.now.object }
    ensures { OnOk result (string_bytes out.new ≡ string_bytes out.old ++ event_front event.now) }
{
    push(out, r#"{"object":"#)?;
    push_object(out, event.object.object())?;
    push_named(out, r#","type":"#, word_of(event.what))
}

/// The word of what a write did.
fn word_of(what: What) -> &'static str
    ensures { result.now ≡ word_of what }
{
    match what {
        What::Added => "ADDED",
        What::Changed => "MODIFIED",
        What::Removed => "DELETED",
    }
}
