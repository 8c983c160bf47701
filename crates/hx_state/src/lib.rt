//! The objects of a state, and beside them all that a request would else have to walk over: the tree of namespaces, which of them are subnamespaces of which, the running numbers of what is limited, and the window of the latest events.
//!
//! Writes of any number are staged and then made as one. Objects that were stored before are loaded one by one, under their own versions, and make no events. What those above look up is seen as the state's own, so that they say nothing of how it is kept.
#![tactic(auto)]

mod event_log;
mod events;
mod home;
mod indexed_state;
mod limits;
mod load;
mod lookups;
mod names;
mod plan;
mod tree;

pub use home::Home;
pub use indexed_state::IndexedState;
pub use limits::{GREATEST_VERSION, LimitCounts, bytes_of, counts};
pub use lookups::{mode_at, object_in};
pub use tree::{annotated_parent, given_parent};
