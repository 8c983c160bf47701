//! The order in which keys of reconcilers' work are written.
#![tactic(auto)]

mod law;
mod order;

pub use law::law_of_order;
pub use order::{compare_keys, rank};
