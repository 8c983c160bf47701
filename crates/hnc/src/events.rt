// Events, printed as they happen.
ghost use Rattle.std.specs.Prelude.{◌≡◌, ◌++◌, [], ◌∷◌, true, None, IfOk, OnErr, OnOk, string_bytes};
ghost use Rattle.std.specs.Io.KnownBytes.{Appends};
ghost use Rattle.hx_model.specs.Counts.{Rose};
ghost use Rattle.hx_model.specs.Json.{word_of};
ghost use Rattle.hx_watch.specs.Watching.{Refuses, with_received};
ghost use Rattle.hnc.specs.Printed.{printed_line, told_text};

use hx_model::{Event, What};
use hx_object::NoMemory;
use hx_ports::{Sink, write_all};
use hx_watch::{Refused, Watcher};
use std::alloc::Global;

/// Prints a line of JSON for each event, as it happens, and tells no events. An event is refused for which no memory is left, or whose line isn't taken whole.
///
/// A line says what was done to which object, and not what the object holds: a log is no place for Secrets.
pub struct EventPrinter<W: Sink + Drop> {
    alloc: Global,
    sink: W,
    refusals: u64,
}

impl<W: Sink + Drop> Drop for EventPrinter<W> {
    fn drop(self) {
        let EventPrinter {
            alloc: _,
            sink: _,
            refusals: _,
        } = self;
    }
}

impl<W: Sink + Drop> EventPrinter<W> {
    pub fn new(alloc: Global, sink: W) -> EventPrinter<W>
        ensures { (result.sink ≡ sink) × (result.refusals ≡ 0) }
    {
        EventPrinter {
            alloc,
            sink,
            refusals: 0,
        }
    }

    /// Counts a refusal.
    fn count_refusal(&mut self, refused: Refused) -> Refused
        ensures result { result ≡ refused }
        ensures rest { self.new ≡ record self.old { refusals = self.new.refusals } }
        ensures rose { Rose self.old.refusals self.new.refusals }
    {
        self.refusals = self.refusals.saturating_add(1);
        refused
    }
}

/// The word of what was done, as a Kubernetes watch has it.
fn word_of(what: What) -> &'static str
    ensures { result.now ≡ word_of what }
{
    match what {
        What::Added => "ADDED",
        What::Changed => "MODIFIED",
        What::Removed => "DELETED",
    }
}

/// Appends what was done to an object.
#[tactic(auto, unfolding(crate::specs::Printed::told_text))]
fn push_told(
    out: &mut String,
    word: &str,
    version: u64,
    kind: &str,
    ns: &str,
    name: &str,
) -> Result<(), NoMemory>
    ensures { OnOk result (string_bytes out.new ≡ string_bytes out.old ++ told_text word.now version kind.now ns.now name.now) }
{
    Ok(write!(
        out,
        "{{\"type\":\"{word}\",\"version\":\"{version}\",\"kind\":\"{kind}\",\"namespace\":\"{ns}\",\"name\":\"{name}\"}}\n"
    )?)
}

/// The line of an event.
fn line_of(alloc: Global, event: &Event) -> Result<String, NoMemory>
    ensures { IfOk result (λ line. string_bytes line ≡ printed_line event.now) }
{
    let id = &event.object.object().id;
    let mut line = String::new(alloc);
    push_told(
        &mut line,
        word_of(event.what),
        event.version,
        id.kind.name(),
        id.ns.as_str(),
        id.name.as_str(),
    )?;
    Ok(line)
}

/// Prints the line of an event.
fn print<W: Sink>(alloc: Global, sink: &mut W, event: &Event) -> Result<(), Refused>
    ensures { OnOk result (Appends (W.shown sink.old).written (W.shown sink.new).written (printed_line event.now)) }
{
    let line = line_of(alloc, event)?;
    match write_all(sink, line.as_bytes()) {
        Ok(()) => Ok(()),
        Err(_) => Err(Refused::Chosen),
    }
}

impl<W: Sink + Drop> Watcher for EventPrinter<W> {
    ghost shown = { λ w. record { received = None; may_refuse = true; refusals = w.refusals } };

    fn push(&mut self, event: &Event) -> Result<(), Refused>
        ensures received { OnOk result (⟦<EventPrinter<W> as Watcher>⟧.shown self.new ≡ with_received (⟦<EventPrinter<W> as Watcher>⟧.shown self.old) (event.now ∷ [])) }
        ensures refused { OnErr result (Refuses (⟦<EventPrinter<W> as Watcher>⟧.shown self.old) (⟦<EventPrinter<W> as Watcher>⟧.shown self.new)) }
        ensures printed { OnOk result (Appends (W.shown self.old.sink).written (W.shown self.new.sink).written (printed_line event.now)) }
    {
        match print(self.alloc, &mut self.sink, event) {
            Ok(()) => Ok(()),
            Err(refused) => Err(self.count_refusal(refused)),
        }
    }
}
