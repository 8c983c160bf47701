// What a line orders.
use hx_model::{Ask, Key};

/// What a line of a script orders.
#[derive(Drop)]
pub enum Order {
    /// A request.
    Ask(Ask),
    /// A worker takes a key: one that waits, or the one that is named.
    Take { worker: u32, key: Option<Key> },
    /// A worker finishes what it holds.
    Finish { worker: u32 },
    /// A worker drops what it holds.
    Drop { worker: u32 },
    /// Worker 0 takes, plans and finishes, at most so many times.
    Settle { turns: u64 },
    /// How many keys wait, and how many are held.
    Check,
}
