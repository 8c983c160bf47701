// Where callers wait before they draw a ticket.
use crate::turn::Patience;
use std::sync::Wait;
use std::sync::atomic::{AtomicU64, Ordering};
use std::{hint, thread};

/// Nobody is through.
const FREE: u64 = 0;
/// A caller is through.
const TAKEN: u64 = 1;
/// A caller is through, and others may sleep.
const AWAITED: u64 = 2;

/// Lets one caller at a time through to the tickets, whichever comes first where it is free.
///
/// Tickets alone would pass the turn on to the next in line, also where that thread sleeps or has no processor, and all others would wait for it. Who is let through is served as soon as its ticket is drawn, and a thread that runs goes before those that sleep.
///
/// It is no lock, and no contract speaks of it: a caller whose patience ends goes through as well, so that nobody waits here without end, and tickets say who is served.
#[derive(Drop)]
pub(crate) struct Turnstile {
    state: AtomicU64,
}

impl Turnstile {
    pub(crate) fn new() -> Turnstile {
        Turnstile {
            state: AtomicU64::new(FREE),
        }
    }

    /// Waits until it is free, or patience ends, and goes through.
    pub(crate) fn enter<R: Wait>(&self, rt: &R, patience: &Patience) {
        if self.look(patience.looks, TAKEN) {
            return;
        }
        if self.look_between_others(patience.yields) {
            return;
        }
        self.sleep(rt, patience);
    }

    /// Makes it free for the next one, and wakes one of those that sleep.
    pub(crate) fn leave(&self) {
        if self.state.swap(FREE, Ordering::SeqCst) == AWAITED {
            self.state.wake_one();
        }
    }

    /// Looks so often, one look right behind the other, and answers whether it went through.
    fn look(&self, looks: u64, taken: u64) -> bool {
        for _ in 0..looks {
            if self.take(taken) {
                return true;
            }
            hint::spin_loop();
        }
        false
    }

    /// Looks so often, and lets other threads run between two looks. It answers whether it went through.
    fn look_between_others(&self, yields: u64) -> bool {
        for _ in 0..yields {
            if self.take(TAKEN) {
                return true;
            }
            thread::yield_now();
        }
        false
    }

    /// Sleeps until it is free, and so often at most. Whoever slept leaves it awaited, since others may sleep still.
    fn sleep<R: Wait>(&self, rt: &R, patience: &Patience) {
        for _ in 0..patience.sleeps {
            if self.state.swap(AWAITED, Ordering::SeqCst) == FREE {
                return;
            }
            self.state.park(rt, AWAITED as u32);
            if self.look(patience.looks, AWAITED) {
                return;
            }
        }
        if patience.sleeps > 0 {
            self.state.store(AWAITED, Ordering::SeqCst);
        }
    }

    /// Takes it where it is free.
    fn take(&self, taken: u64) -> bool {
        if self.state.load(Ordering::SeqCst) != FREE {
            return false;
        }
        self.state
            .compare_exchange(FREE, taken, Ordering::SeqCst, Ordering::SeqCst)
            .is_ok()
    }
}
