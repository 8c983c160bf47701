// Doors in memory.
ghost use Rattle.std.specs.Prelude.{◌≡◌, ◌+◌, ◌≤◌, [], ◌∷◌, Some, IfNone, IfOk, IfSome, MatchOption, OnErr, map, vec_len, vec_capacity};
ghost use Rattle.std.specs.VecDeque.{deque_len};
ghost use Rattle.hx_ports.specs.Calls.{FailsByPlan};
ghost use Rattle.hx_ports.specs.Causes.{HasCause};
ghost use Rattle.hx_door.specs.Doors.{Closes, Hands, TakesBack};

use crate::door::{Door, DoorFault, Link};
use hx_object::NoMemory;
use hx_ports::{MemSink, MemSource, Sink, Source};
use std::collections::VecDeque;

/// A link in memory, of which nothing was read or written.
#[derive(Drop)]
pub struct MemLine {
    source: MemSource,
    sink: MemSink,
    ghost unread: { (⟦<MemSource as Source>⟧.shown source).faults ≡ 0 },
    ghost unwritten: { ⟦<MemSink as Sink>⟧.shown sink ≡ record { written = Some []; faults = 0; stalls = 0 } },
}

impl MemLine {
    ghost use Rattle.hx_door.specs.Shown.{ends_of};

    pub fn new(source: MemSource, sink: MemSink) -> Self
        requires unread { (⟦<MemSource as Source>⟧.shown source).faults ≡ 0 }
        requires unwritten { ⟦<MemSink as Sink>⟧.shown sink ≡ record { written = Some []; faults = 0; stalls = 0 } }
        ensures { ends_of result ≡ (source, sink) }
    {
        MemLine { source, sink }
    }
}

/// Links in memory, which are handed out in order. Then the door is closed.
pub struct MemDoor {
    coming: VecDeque<MemLine>,
    kept: Vec<MemSink>,
    fails: Vec<u64>,
    calls: u64,
    faults: u64,
    handed: u64,
    out: u64,
    ghost room: { vec_len kept + out + deque_len coming ≤ vec_capacity kept },
}

impl Drop for MemDoor {
    fn drop(self) {
        let MemDoor {
            coming: _,
            kept: _,
            fails: _,
            calls: _,
            faults: _,
            handed: _,
            out: _,
        } = self;
    }
}

impl MemDoor {
    ghost use Rattle.hx_door.specs.Shown.{calls_of, ends_of, is_over, lines_of, script_of, text_of};

    /// The calls of `listen` and `accept` whose numbers stand in `fails` fail. They are counted together, and the first one is number 1.
    pub fn new(lines: Vec<MemLine>, fails: Vec<u64>) -> Result<Self, NoMemory>
        ensures shown { IfOk result (λ door. ⟦<MemDoor as Door>⟧.shown door ≡ record { faults = 0; handed = 0; out = 0; closed = is_over lines.items; coming = Some (map script_of lines.items); written = Some [] }) }
        ensures lines { IfOk result (λ door. lines_of door ≡ map ends_of lines.items) }
        ensures plan { IfOk result (λ door. calls_of door ≡ record { numbers = fails; calls = 0 }) }
    {
        let kept = Vec::with_capacity(*lines.allocator(), lines.len())?;
        Ok(MemDoor {
            coming: VecDeque::from(lines),
            kept,
            fails,
            calls: 0,
            faults: 0,
            handed: 0,
            out: 0,
        })
    }

    /// The sinks that were taken back, in that order.
    pub fn sinks(&self) -> &[MemSink]
        ensures { (⟦<MemDoor as Door>⟧.shown self.now).written ≡ Some (map text_of result.now) }
    {
        self.kept.as_slice()
    }

    /// Counts a call, which may be one that fails.
    fn count_call(&mut self) -> Result<(), DoorFault>
        ensures plan { FailsByPlan (calls_of self.old) (calls_of self.new) result }
        ensures cause { HasCause self.old.faults self.new.faults result }
        ensures rest { self.new ≡ record self.old { calls = self.new.calls; faults = self.new.faults } }
    {
        self.calls = self.calls.saturating_add(1);
        if self.fails.contains(&self.calls) {
            self.faults = self.faults.saturating_add(1);
            return Err(DoorFault);
        }
        Ok(())
    }
}

impl Door for MemDoor {
    ghost use Rattle.hx_door.specs.Shown.{calls_of, ends_of, is_over, lines_of, script_of, text_of};

    type Input = MemSource;

    type Output = MemSink;

    ghost shown = { λ d. record { faults = d.faults; handed = d.handed; out = d.out; closed = is_over d.coming.items; coming = Some (map script_of d.coming.items); written = Some (map text_of d.kept.items) } };

    /// The address is not looked at.
    fn listen(&mut self, _address: &str) -> Result<(), DoorFault>
        ensures same { ⟦<MemDoor as Door>⟧.shown self.new ≡ record (⟦<MemDoor as Door>⟧.shown self.old) { faults = (⟦<MemDoor as Door>⟧.shown self.new).faults } }
        ensures cause { HasCause (⟦<MemDoor as Door>⟧.shown self.old).faults (⟦<MemDoor as Door>⟧.shown self.new).faults result }
        ensures kept { lines_of self.new ≡ lines_of self.old }
        ensures plan { FailsByPlan (calls_of self.old) (calls_of self.new) result }
    {
        self.count_call()
    }

    fn accept(&mut self) -> Result<Option<Link<MemSource, MemSink>>, DoorFault>
        ensures link { IfOk result (λ next. IfSome next (λ link. Hands (⟦<MemDoor as Door>⟧.shown self.old) (⟦<MemDoor as Door>⟧.shown self.new) (⟦<MemSource as Source>⟧.shown link.source) (⟦<MemSink as Sink>⟧.shown link.sink))) }
        ensures closed { IfOk result (λ next. IfNone next (Closes (⟦<MemDoor as Door>⟧.shown self.old) (⟦<MemDoor as Door>⟧.shown self.new))) }
        ensures fault { OnErr result (⟦<MemDoor as Door>⟧.shown self.new ≡ record (⟦<MemDoor as Door>⟧.shown self.old) { faults = (⟦<MemDoor as Door>⟧.shown self.new).faults }) }
        ensures cause { HasCause (⟦<MemDoor as Door>⟧.shown self.old).faults (⟦<MemDoor as Door>⟧.shown self.new).faults result }
        ensures lines { IfOk result (λ next. MatchOption next (lines_of self.old ≡ []) (λ link. lines_of self.old ≡ (link.source, link.sink) ∷ lines_of self.new)) }
        ensures kept { OnErr result (lines_of self.new ≡ lines_of self.old) }
        ensures plan { FailsByPlan (calls_of self.old) (calls_of self.new) result }
    {
        self.count_call()?;
        let Some(MemLine { source, sink }) = self.coming.pop_front() else {
            return Ok(None);
        };
        self.handed = self.handed.saturating_add(1);
        self.out = self.out.saturating_add(1);
        Ok(Some(Link { source, sink }))
    }

    fn take_back(&mut self, sink: MemSink) {
        if self.out == 0 {
            return;
        }
        self.out -= 1;
        self.kept.push_reserved(sink);
    }
}
