// What is told of writes.
ghost use Rattle.std.specs.Prelude.{◌≡◌, ◌+◌, ◌++◌, flat_map, option_copied, IfOk, OnOk};
ghost use Rattle.std.specs.Option.{option_to_list};
ghost use Rattle.hx_model.specs.State.{events_of, what_of, with_version};
ghost use Rattle.hx_state.specs.Happening.{cut_event, put_event, removal_of};

use crate::indexed_state::IndexedState;
use hx_model::{Event, What};
use hx_object::{NoMemory, Object, Shared};
use hx_store::Change;
use std::alloc::Global;

impl IndexedState {
    /// The events of writes, all with the next version: of the objects that are put at first, and then of those that are taken away.
    pub(crate) fn events_of(&self, writes: &[Change]) -> Result<Vec<Event>, NoMemory>
        ensures { IfOk result (λ events. events.items ≡ events_of self.now.state writes.now) }
    {
        let mut events = Vec::with_capacity(self.allocator(), writes.len())?;
        self.push_puts(&mut events, writes)?;
        self.push_cuts(&mut events, writes)?;
        Ok(events)
    }

    /// Adds the events of the writes that put objects.
    fn push_puts(&self, events: &mut Vec<Event>, writes: &[Change]) -> Result<(), NoMemory>
        ensures { OnOk result (events.new.items ≡ events.old.items ++ flat_map (λ w. option_to_list (put_event self.now.state w)) writes.now) }
    {
        for write in writes {
            push_event(events, self.put_event(write)?)?;
        }
        Ok(())
    }

    /// Adds the events of the writes that take objects away.
    fn push_cuts(&self, events: &mut Vec<Event>, writes: &[Change]) -> Result<(), NoMemory>
        ensures { OnOk result (events.new.items ≡ events.old.items ++ flat_map (λ w. option_to_list (cut_event self.now.state w)) writes.now) }
    {
        for write in writes {
            push_event(events, self.cut_event(write)?)?;
        }
        Ok(())
    }

    /// The event of a write that puts an object.
    fn put_event(&self, write: &Change) -> Result<Option<Event>, NoMemory>
        ensures { IfOk result (λ event. event ≡ put_event self.now.state write.now) }
    {
        match write.object() {
            Some(object) => Ok(Some(Event {
                version: self.next_version(),
                what: what_of(self.object_before(write).is_some()),
                object: object.share()?,
            })),
            None => Ok(None),
        }
    }

    /// The event of a write that takes an object away.
    fn cut_event(&self, write: &Change) -> Result<Option<Event>, NoMemory>
        ensures { IfOk result (λ event. event ≡ cut_event self.now.state write.now) }
    {
        match write.object() {
            Some(_) => Ok(None),
            None => self.removal_of(self.object_before(write)),
        }
    }

    /// The event of the removal of an object, where it is there.
    fn removal_of(&self, old: Option<&Object>) -> Result<Option<Event>, NoMemory>
        ensures { IfOk result (λ event. event ≡ removal_of (self.now.state.last + 1) (option_copied old.entry)) }
    {
        let version = self.next_version();
        match old {
            Some(old) => Ok(Some(Event {
                version,
                what: What::Removed,
                object: versioned(self.allocator(), old, version)?,
            })),
            None => Ok(None),
        }
    }

    /// The version of the next write.
    fn next_version(&self) -> u64
        ensures { result ≡ self.now.state.last + 1 }
    {
        self.store.version() + 1
    }
}

/// What the write of an object does, by whether one of its identity is there.
fn what_of(there: bool) -> What
    ensures { result ≡ what_of there }
{
    if there { What::Changed } else { What::Added }
}

/// A copy of an object with another version.
fn versioned(alloc: Global, object: &Object, version: u64) -> Result<Shared, NoMemory>
    ensures { IfOk result (λ copy. copy ≡ with_version object.now version) }
{
    let mut copy = object.copy()?;
    copy.version = version;
    Ok(Shared::new(alloc, copy)?)
}

/// Adds an event, where there is one.
fn push_event(events: &mut Vec<Event>, event: Option<Event>) -> Result<(), NoMemory>
    ensures { OnOk result (events.new.items ≡ events.old.items ++ option_to_list event) }
{
    if let Some(event) = event {
        events.push(event)?;
    }
    Ok(())
}
