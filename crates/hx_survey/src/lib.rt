//! What a list of stored objects says of its tree, found by walking the list.
//!
//! A [`Survey`] answers by the definitions of `hx_model` over the plain list alone, with small tables of its own that are made once. It shares no code with what a cluster keeps beside its objects, so that it can tell whether that is right.
#![tactic(auto)]

mod ancestry;
mod building;
mod chains;
mod conditions;
mod order;
mod places;
mod reading;
mod seams;
mod search;
mod survey;
mod totals;
mod tree;
mod usage;
mod walks;

pub use survey::Survey;
