//! Requests, their answers, and the machine that gives them.
//!
//! The types here are what a cluster is asked and answers. The definitions in `specs/` say what it has to answer: states and their rows, the answer to each ask, the worlds and entries of the machine, and the texts of rows and replies.
#![tactic(auto)]

mod ask;
mod config;
mod denial;
mod event;
mod fields;
mod key;
mod law;
mod mode;
mod node;
pub mod plain;
mod reason;
mod refusal;
mod resource;
mod rule;
mod source;
mod status;
mod tree;

pub use ask::{Answer, Ask};
pub use config::RunConfig;
pub use denial::Denial;
pub use event::{Event, What};
pub use fields::Fields;
pub use key::{Finish, Guard, Key, Write};
pub use law::{
    law_of_events, law_of_excess, law_of_known_keys, law_of_parents, law_of_quotas, law_of_windows,
};
pub use mode::{entries_of, mode_in, names_kind};
pub use node::{Halt, Node};
pub use reason::Reason;
pub use refusal::Refusal;
pub use resource::{RESOURCES, Resource};
pub use rule::Rule;
pub use source::{COPIED_KINDS, is_copy, is_source};
pub use status::{Message, RefusalStatus};
pub use tree::{
    allows_cascade, is_owned_by, is_same_name, is_terminating, named_parent, parent_by,
    subnamespace_parent,
};
