//! Keys that wait in line: the one whose turn it is stands at the front.
#![tactic(auto)]

mod copy_of;
mod heap;
mod line;

pub use copy_of::CopyOf;
pub use line::Line;
