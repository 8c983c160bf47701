//! Which keys want a write: what their plans are made from, copied out of a state, and the keys that are marked when a cluster starts.
#![tactic(auto)]

mod briefs;
mod conditions;
mod facts;
mod guards;
mod lookups;
mod marking;
mod sources;
mod sums;

pub use briefs::brief_of;
pub use marking::mark_wanting;
