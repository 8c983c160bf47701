// A watcher in memory.
ghost use Rattle.std.specs.Prelude.{◌≡◌, [], ◌∷◌, ◌++◌, true, Some, IsErrOf, IsTrue, OnErr, OnOk, ◌↔◌};
ghost use Rattle.hx_model.specs.Counts.{Rose};
ghost use Rattle.hx_watch.specs.Shown.{after_push, is_chosen};
ghost use Rattle.hx_watch.specs.Watching.{Refuses, with_received};

use crate::watcher::{Refused, Watcher};
use hx_model::Event;
use hx_object::NoMemory;
use std::alloc::Global;

/// Keeps the events that it received, and refuses those that a test names.
pub struct MemWatcher {
    events: Vec<Event>,
    refuse: u64,
    pushes: u64,
    refusals: u64,
}

impl Drop for MemWatcher {
    fn drop(self) {
        let MemWatcher {
            events: _,
            refuse: _,
            pushes: _,
            refusals: _,
        } = self;
    }
}

impl MemWatcher {
    ghost use Rattle.hx_watch.specs.Shown.{choice_of};

    /// It refuses the event that has this number, counted from 1, and all later ones; with 0 it chooses none. It takes no memory, and an event for which none is left is refused too.
    pub fn new(alloc: Global, refuse: u64) -> MemWatcher
        ensures shown { ⟦<MemWatcher as Watcher>⟧.shown result ≡ record { received = Some []; may_refuse = true; refusals = 0 } }
        ensures choice { choice_of result ≡ record { refuse = refuse; pushes = 0 } }
    {
        MemWatcher {
            events: Vec::new(alloc),
            refuse,
            pushes: 0,
            refusals: 0,
        }
    }

    /// The events that it received.
    pub fn events(&self) -> &[Event]
        ensures { (⟦<MemWatcher as Watcher>⟧.shown self.now).received ≡ Some result.now }
    {
        self.events.as_slice()
    }

    /// Counts a refusal.
    fn count_refusal(&mut self, refused: Refused) -> Refused
        ensures result { result ≡ refused }
        ensures rest { self.new ≡ record self.old { refusals = self.new.refusals } }
        ensures rose { Rose self.old.refusals self.new.refusals }
    {
        self.refusals = self.refusals.saturating_add(1);
        refused
    }

    /// Counts an event that comes, and says whether it is one to refuse.
    fn chooses_next(&mut self) -> bool
        ensures chosen { result ≡ is_chosen (choice_of self.old) }
        ensures counted { choice_of self.new ≡ after_push (choice_of self.old) }
        ensures rest { self.new ≡ record self.old { pushes = self.new.pushes } }
    {
        self.pushes = self.pushes.saturating_add(1);
        self.refuse != 0 && self.refuse <= self.pushes
    }
}

/// Puts an event behind others.
fn keep(events: &mut Vec<Event>, event: &Event) -> Result<(), NoMemory>
    ensures ok { OnOk result (events.new.items ≡ events.old.items ++ event.now ∷ []) }
    ensures err { OnErr result (events.new.items ≡ events.old.items) }
{
    events.push(event.share()?)?;
    Ok(())
}

impl Watcher for MemWatcher {
    ghost use Rattle.hx_watch.specs.Shown.{choice_of};

    ghost shown = { λ w. record { received = Some w.events.items; may_refuse = true; refusals = w.refusals } };

    fn push(&mut self, event: &Event) -> Result<(), Refused>
        ensures received { OnOk result (⟦<MemWatcher as Watcher>⟧.shown self.new ≡ with_received (⟦<MemWatcher as Watcher>⟧.shown self.old) (event.now ∷ [])) }
        ensures refused { OnErr result (Refuses (⟦<MemWatcher as Watcher>⟧.shown self.old) (⟦<MemWatcher as Watcher>⟧.shown self.new)) }
        ensures chosen { IsErrOf result Refused.Chosen ↔ IsTrue (is_chosen (choice_of self.old)) }
        ensures counted { choice_of self.new ≡ after_push (choice_of self.old) }
    {
        if self.chooses_next() {
            return Err(self.count_refusal(Refused::Chosen));
        }
        match keep(&mut self.events, event) {
            Ok(()) => Ok(()),
            Err(_) => Err(self.count_refusal(Refused::NoMemory)),
        }
    }
}
