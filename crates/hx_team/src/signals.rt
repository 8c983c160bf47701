// What the threads tell one another. Contracts see nothing of it.
use hx_sessions::Bell;
use std::sync::atomic::{AtomicBool, AtomicU64, Ordering};

#[derive(Drop)]
pub(crate) struct Signals {
    pub(crate) bell: Bell,
    /// All sessions have ended.
    over: AtomicBool,
    /// The number of the worker that was found last to have no thread, or 0.
    lacking: AtomicU64,
}

impl Signals {
    pub(crate) fn new() -> Signals {
        Signals {
            bell: Bell::new(),
            over: AtomicBool::new(false),
            lacking: AtomicU64::new(0),
        }
    }

    /// Says that all sessions have ended, and wakes the workers.
    pub(crate) fn end(&self) {
        self.over.store(true, Ordering::SeqCst);
        self.bell.ring();
    }

    pub(crate) fn is_over(&self) -> bool {
        self.over.load(Ordering::SeqCst)
    }

    /// Says that this worker has no thread.
    pub(crate) fn lack(&self, number: u32) {
        self.lacking.store(u64::from(number), Ordering::SeqCst);
    }

    pub(crate) fn is_lacking(&self, number: u32) -> bool {
        self.lacking.load(Ordering::SeqCst) == u64::from(number)
    }

    /// Whether a worker has no thread.
    pub(crate) fn lacks_one(&self) -> bool {
        self.lacking.load(Ordering::SeqCst) != 0
    }
}
