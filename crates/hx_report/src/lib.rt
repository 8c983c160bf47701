//! The texts of reports: the tree of namespaces, what is told of one of them, what is used of quotas, and what a whole cluster counts.
//!
//! Each is made of a [`Survey`](hx_survey::Survey), which reads a list of stored objects, and ends each of its lines with a line feed.
#![tactic(auto)]

mod describing;
mod laws;
mod outline;
mod quotas;
mod summing;
mod trees;
mod words;

pub use describing::describe;
pub use laws::law_of_lines;
pub use quotas::quota;
pub use summing::summary;
pub use trees::tree;
