//! What a server of the Kubernetes API says of itself, for clients that ask it before they ask for objects: its groups, the resources of each, its release and the schemas of its paths.
//!
//! The texts come from the table of kinds: a kind that is added to it is added to them.
#![tactic(auto)]

mod document;
mod group;
mod groups;
mod kinds;
mod schemas;
mod text;
mod write;

pub use document::{Document, document_on};
pub use group::{ApiGroup, group_of};
pub use write::push_document;
