// Objects, lists of objects and of events, refusals and removals as compact JSON, which is appended to a text.
mod details;
mod events;
mod list;
mod object;
mod payload;
mod plain;
mod status;
pub mod text;
mod usages;

pub use events::{push_event_line, push_events};
pub use list::push_list;
pub use object::{push_object, write_object};
pub use status::{push_deleted, push_status};
