//! The least key of reconcilers' work that wants a write, found by walking the stored rows.
//!
//! It is there to be compared with what a cluster finds by the tables that it keeps, and shares none of their code: only plans are made by the same rules.
//!
//! What it costs: a walk over the namespaces, and for each that takes part over the objects that may be copied in it and in the namespaces above it. A chain, and whether a namespace takes part, is read once for each namespace, and the mode of a kind once for each namespace and kind. A plan is made of each place where something lies, of each source from above whose place is empty, and of each anchor, quota and namespace; what it looks at is found by binary search, once for each namespace above.
#![tactic(auto)]

mod anchors;
mod copies;
mod first;
mod keep;
mod kinds;
mod law;
mod least;
mod lookups;
mod namespaces;
mod quotas;

pub use first::first_wanting;
pub use law::law_of_first;
