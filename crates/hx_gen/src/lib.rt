//! A cluster of a given size for trials and measurements: a tree of namespaces whose parents are drawn, and in each namespace a Role and a Pod.
//!
//! Contracts see of [`Generated`] the list of the asks that are left.
#![tactic(auto)]

mod asks;
mod generated;
mod step;

pub use generated::Generated;
