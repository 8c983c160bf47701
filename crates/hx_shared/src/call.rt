// What a history of calls is made of.
use hx_core::Take;
use hx_model::{Answer, Ask, Finish, Key};

/// A call with its answer, as a history tells it. No value of it is made.
pub enum Call {
    Request { ask: Ask, answer: Answer },
    Take { worker: u32, take: Take },
    Finish { worker: u32, end: Finish },
    Drop { worker: u32, key: Option<Key> },
    Busy { waiting: u64, held: u64 },
}
