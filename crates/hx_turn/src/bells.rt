// Where callers sleep until their turn comes.
use std::sync::Wait;
use std::sync::atomic::{AtomicU64, Ordering};

/// Places where callers sleep. A caller with a ticket sleeps at the place of its ticket, so that who passes the turn on wakes the next in line, and few others even where many sleep.
///
/// The place is looked at before the word that serves is, and rung behind a change of that word: whoever missed the change finds another count, and doesn't sleep.
#[derive(Drop)]
pub(crate) struct Bells {
    sleepers: AtomicU64,
    places: [AtomicU64; 16],
}

impl Bells {
    pub(crate) fn new() -> Bells {
        Bells {
            sleepers: AtomicU64::new(0),
            places: std::array::from_fn(|_| AtomicU64::new(0)),
        }
    }

    /// How often it rang at the place of a ticket.
    pub(crate) fn rings(&self, ticket: u64) -> u64 {
        self.place(ticket).load(Ordering::SeqCst)
    }

    /// Sleeps until it rings at the place of a ticket, where it hasn't rung since. It may also return for no reason.
    pub(crate) fn sleep<R: Wait>(&self, rt: &R, ticket: u64, rings: u64) {
        self.sleepers.fetch_add(1, Ordering::SeqCst);
        self.place(ticket).park(rt, (rings % 0x1_0000_0000) as u32);
        self.sleepers.fetch_sub(1, Ordering::SeqCst);
    }

    /// Rings at the place of a ticket, and wakes those that sleep there.
    pub(crate) fn ring(&self, ticket: u64) {
        let place = self.place(ticket);
        place.fetch_add(1, Ordering::SeqCst);
        if self.sleepers.load(Ordering::SeqCst) > 0 {
            place.wake_all();
        }
    }

    fn place(&self, ticket: u64) -> &AtomicU64 {
        &self.places[(ticket % 16) as usize]
    }
}
