//! A disk over a file that is only read: what is written to it lies in memory.
//!
//! An engine of databases that writes a few bytes where it opens a file, as at the end of a log, can so read one that is to stay as it is.
#![tactic(auto)]

mod change;
mod changing;
mod overlay;

pub use overlay::Overlay;
