//! A database file and its log on the disk, which may go to another thread.
//!
//! Each call of the system is noted with its answer in a record that takes no memory: what a file holds is read off it.
#![tactic(auto)]

mod host;
mod opening;
mod record;

pub use host::Host;
pub use opening::{File, OpenError, open};
