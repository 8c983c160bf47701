// What workers are answered.
use hx_model::{Finish, Key};
use hx_reconcile::SharedBrief;

/// The answer to a worker that asks for work.
#[derive(Drop)]
pub enum Take {
    /// The worker holds the brief's key now.
    Job(SharedBrief),
    /// No key waits.
    Idle,
    /// The worker holds a key already, that of this brief.
    Already(SharedBrief),
    /// This other worker holds the key that was named.
    Other(u32),
    NoMemory,
}

/// A turn of a settle: the key that was taken, and how its turn ended.
pub struct Turned {
    pub key: Key,
    pub end: Finish,
}

impl Drop for Turned {
    fn drop(self) {
        let Turned { key: _, end: _ } = self;
    }
}

/// What a settle came to where it was to make a turn.
#[derive(Drop)]
pub enum Turn {
    Made(Turned),
    /// None was made, and the settle ends so.
    Over(Settle),
}

/// How a settle ended.
#[derive(Clone, Copy)]
pub enum Settle {
    /// No key waits, and none is held.
    Settled,
    /// The turns are used up and keys wait, or none waits and workers hold some.
    Unsettled { waiting: u64, held: u64 },
    /// No version is left.
    Spent,
    /// The store failed.
    Fault,
    NoMemory,
}
