//! What a reconciler writes for a key: a plan, which is made from a small brief without the state that the brief was copied out of.
//!
//! Plans are made for the keys of copies, tree labels, reports, subnamespaces, statuses of anchors and of quotas, and removals. Which sources go where, and which labels a place prescribes, is told to others as well.
#![tactic(auto)]

mod brief;
mod copies;
mod exceptions;
mod planned;
mod planning;
mod reach;
mod removals;
mod reports;
mod sources;
mod subnamespaces;
mod tree_labels;
mod usage;

pub use brief::{Brief, Facts, SharedBrief};
pub use exceptions::exception;
pub use planned::Plan;
pub use planning::plan;
pub use reach::Reach;
pub use sources::{is_sent, stays_home};
pub use tree_labels::prescribed_labels;
pub use usage::law_of_sums;
