//! The keys of reconcilers' work: which wait, and which a worker holds, with the brief that it was given.
#![tactic(auto)]

mod queue;
mod slots;
mod spread;
mod workers;

pub use queue::Queue;
pub use workers::Workers;
