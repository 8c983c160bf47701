//! The tree of namespaces: chains, subtrees, and why a namespace is halted.
//!
//! Each answer is that of the definitions of `hx_model` for every graph of parents, with cycles and with parents that aren't there.
#![tactic(auto)]

mod chains;
mod change;
mod children;
mod descents;
mod forest;
mod halting;
mod names;
mod node_table;
mod nodes;
mod prepared;
mod walks;

pub use chains::{push_names, push_up_to};
pub use change::Change;
pub use forest::Forest;
pub use hx_model::{Halt, Node};
pub use walks::Ancestors;
