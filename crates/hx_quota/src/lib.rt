//! Running sums of what quotas limit.
//!
//! [`Counters`] keep, for each namespace, its parent and what it has of each resource by itself, and tell what it has with all below it. [`Counters::first_over`] says which limit of a quota a write would exceed. Amounts are in thousandths.
#![tactic(auto)]

mod change;
mod changing;
mod climbing;
mod counters;
mod entry;
mod ledger;
mod limiting;
mod place_table;
mod places;
mod planting;
mod shifting;
mod staging;
mod subtrees;
mod sum_table;
mod up_table;
mod walking;
mod walks;

pub use counters::Counters;
pub use entry::Delta;
pub use limiting::{Over, QuotaRow};
pub use subtrees::Usage;
