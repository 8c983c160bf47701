//! Bodies of requests read as objects, and objects, lists, events and refusals written as JSON.
#![tactic(auto)]

mod fault;
mod law;
mod read;
mod write;

pub use fault::{JsonFault, Read, RowFault};
pub use law::law_of_texts;
pub use read::{BodyReader, long_decimal};
pub use write::{
    push_deleted, push_event_line, push_events, push_list, push_object, push_status, write_object,
};
