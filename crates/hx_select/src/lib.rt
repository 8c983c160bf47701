//! Selectors of labels, and the tree selectors of HNC's exceptions.
//!
//! [`Selector::read`] reads what the Kubernetes documentation has under "Labels and Selectors", equality-based and set-based requirements.
//! [`TreeSelect::read`] reads the value of the annotation `propagate.hnc.x-k8s.io/treeSelect`, as the HNC user guide has it under "Limit the propagation of an object to descendant namespaces".
#![tactic(auto)]

mod demand;
mod grammar;
mod matcher;
mod pieces;
mod selector;
mod texts;
mod token;
mod tokens;
mod tree_select;

pub use matcher::Matcher;
pub use selector::{Requirement, SelectFault, Selector, Test};
pub use tree_select::{TreeFault, TreeSelect};
