// A bell that workers sleep by while no key waits.
use std::sync::Wait;
use std::sync::atomic::{AtomicU64, Ordering};
use std::time::Duration;

/// How many milliseconds a worker sleeps at most, so that it sees what rings no bell.
const LONGEST_SLEEP: u64 = 100;

/// Is rung where work may have come. Contracts see nothing of it.
///
/// Whoever reads the count of rings first, then looks for work, and then waits by that count misses no ring.
#[derive(Drop)]
pub struct Bell {
    /// The low 32 bits tell rings apart.
    rings: AtomicU64,
    sleepers: AtomicU64,
}

impl Bell {
    pub fn new() -> Bell {
        Bell {
            rings: AtomicU64::new(0),
            sleepers: AtomicU64::new(0),
        }
    }

    /// How often it was rung.
    pub fn count(&self) -> u64 {
        self.rings.load(Ordering::SeqCst)
    }

    /// Wakes all who wait.
    pub fn ring(&self) {
        self.rings.fetch_add(1, Ordering::SeqCst);
        if self.sleepers.load(Ordering::SeqCst) > 0 {
            self.rings.wake_all();
        }
    }

    /// Sleeps until it is rung, where it wasn't since the count was read, or for a tenth of a second.
    pub fn wait<R: Wait>(&self, rt: &R, count: u64) {
        self.sleepers.fetch_add(1, Ordering::SeqCst);
        self.rings.park_timeout(
            rt,
            (count % 0x1_0000_0000) as u32,
            Duration::from_millis(LONGEST_SLEEP),
        );
        self.sleepers.fetch_sub(1, Ordering::SeqCst);
    }
}
