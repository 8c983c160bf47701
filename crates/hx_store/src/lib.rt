//! Versioned objects in memory, found by their identities.
//!
//! Contracts see a [`Store`] as its objects in ascending order of identities, its version, and the writes that are staged.
//! A [`Change`] is seen as the write that it is.
#![tactic(auto)]

mod by_name;
mod change;
mod kind_table;
mod map;
mod name_list;
mod name_map;
mod name_table;
mod object_table;
mod slot;
mod store;
mod writes;

pub use change::Change;
pub use store::Store;
