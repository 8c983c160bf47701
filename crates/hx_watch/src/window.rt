// The latest events, in a ring that never grows.
ghost use Rattle.std.specs.Prelude.{◌≡◌, ◌≤◌, [], ◌∷◌, drop, slice_get, true, IfErr, IfOk, OnOk};
ghost use Rattle.std.specs.Option.{option_map_or};
ghost use Rattle.hx_model.specs.Windows.{Ascend, events_since, is_over, most_events, newest, opened, with_events};
ghost use Rattle.hx_watch.specs.Windows.{IsSinceFault};

use circular_buffer::HeapCircularBuffer;
use hx_model::Event;
use hx_object::{List, NoMemory};
use std::alloc::Global;
use std::marker::Model;

/// How many events a window keeps at most.
const MOST_EVENTS: usize = 8192;

/// Why a window gives no events.
#[derive(Clone, Copy, Debug)]
pub enum SinceFault {
    /// Of the events that were asked for some were pushed out. Those of versions over the floor are all there.
    Expired { floor: u64 },
    NoMemory,
}

impl From<NoMemory> for SinceFault {
    ghost use Rattle.hx_watch.specs.declared.window.SinceFault.TheVariants.{NoMemory};

    ghost from_gives = { λ _ fault. fault ≡ NoMemory };

    fn from(_fault: NoMemory) -> SinceFault {
        SinceFault::NoMemory
    }
}

/// The latest events, at most 8,192 of them, and the floor: the version of the newest event that was pushed out, or at first the version at which the window was opened.
///
/// What it keeps beside the objects, which it shares with the store, is taken once: 24 bytes an event.
pub struct Window {
    ring: HeapCircularBuffer<Event>,
    floor: u64,
}

impl Drop for Window {
    fn drop(self) {
        let Window { ring: _, floor: _ } = self;
    }
}

impl Model for Window {
    ghost use Rattle.std.specs.Prelude.{◌≡◌, ◌≤◌, length};
    ghost use Rattle.hx_model.specs.Windows.{Ascend, WindowView, most_events};
    ghost use Rattle.hx_watch.specs.Windows.{window_code};

    ghost Value = { WindowView };

    ghost coded = { window_code };

    ghost view = { λ w. record { events = w.ring.items; floor = w.floor } };

    ghost invariant = { λ w. (w.ring.capacity ≡ most_events) × (length w.ring.items ≤ most_events) × Ascend w.floor w.ring.items };
}

impl Window {
    /// A window without events, opened at a version.
    pub fn new(alloc: Global, floor: u64) -> Result<Window, NoMemory>
        ensures { IfOk result (λ window. window ≡ opened floor) }
    {
        Ok(Window {
            ring: HeapCircularBuffer::with_capacity(alloc, MOST_EVENTS)?,
            floor,
        })
    }

    /// Takes in the next event. It takes no memory: a full window pushes out its oldest event.
    pub fn push(&mut self, event: Event)
        requires { newest self.old ≤ event.version }
        ensures window { self.new ≡ with_events most_events self.old (event ∷ []) }
        ensures newest { newest self.new ≡ event.version }
    {
        if let Some(oldest) = self.ring.push_back(event) {
            self.floor = oldest.version;
        }
    }

    /// The events of versions over this one, the oldest first. Their objects are shared, so that memory is taken for the list alone.
    pub fn since(&self, version: u64) -> Result<List<Event>, SinceFault>
        ensures events { IfOk result (λ events. events ≡ events_since version self.now.events) }
        ensures there { OnOk result (self.now.floor ≤ version) }
        ensures fault { IfErr result (IsSinceFault self.now version) }
    {
        if version < self.floor {
            return Err(SinceFault::Expired { floor: self.floor });
        }
        Ok(events_from(&self.ring, first_over(&self.ring, version))?)
    }

    pub fn floor(&self) -> u64
        ensures { result ≡ self.now.floor }
    {
        self.floor
    }
}

/// Where the events of versions over this one begin.
fn first_over(ring: &HeapCircularBuffer<Event>, version: u64) -> usize
    requires { (floor : _) × Ascend floor ring.now.items }
    ensures { drop result ring.now.items ≡ events_since version ring.now.items }
{
    let mut low = 0;
    let mut high = ring.len();
    while low < high {
        let middle = low + (high - low) / 2;
        if is_over(ring, middle, version) {
            high = middle;
        } else {
            low = middle + 1;
        }
    }
    low
}

/// Whether the event at an index has a version over this one.
fn is_over(ring: &HeapCircularBuffer<Event>, index: usize, version: u64) -> bool
    ensures { result ≡ option_map_or (is_over version) (slice_get ring.now.items index) true }
{
    match ring.get(index) {
        Some(event) => event.version > version,
        None => true,
    }
}

/// The events from an index on.
fn events_from(ring: &HeapCircularBuffer<Event>, start: usize) -> Result<List<Event>, NoMemory>
    ensures { IfOk result (λ events. events ≡ drop start ring.now.items) }
{
    let count = ring.len().saturating_sub(start);
    let mut events = Vec::with_capacity(*ring.allocator(), count)?;
    for index in start..ring.len() {
        let Some(event) = ring.get(index) else {
            continue;
        };
        events.push(event.share()?)?;
    }
    Ok(List::of(events))
}
