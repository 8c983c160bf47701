//! What objects are charged against quotas, in thousandths, as Kubernetes and HNC's HierarchicalResourceQuota count it.
//!
//! [`charge`] says how much an object adds to the usage of a resource in its namespace ([`charge_before`] what is found in a place does), and [`is_unstated`] whether a Pod leaves open what it asks of one. [`kind_for`] and [`resources_for`] say of which kind the objects are that a resource counts, [`is_running`] whether a Pod hasn't finished, and [`hard_of`] what a quota limits.
#![tactic(auto)]

mod asks;
mod charges;
mod payload;

pub use charges::{charge, charge_before, is_running, is_unstated, kind_for, resources_for};
pub use payload::hard_of;
