//! Kubernetes objects as values: their kinds, names, identities and contents.
//!
//! Contracts see a [`Text`] and [`Members`] as their bytes, a [`List`] as the list of its items and [`Pairs`] as a list of pairs in ascending order of keys.
//! An [`Object`] and its parts are plain records of these, so that a clause compares two of them by `≡`.
#![tactic(auto)]

mod faults;
mod kind;
mod list;
mod members;
mod memory;
mod names;
mod object;
mod pairs;
mod quantity;
mod shared;
mod size;
mod text;
pub mod well_known;

pub use faults::is_tree_key;
pub use kind::Kind;
pub use list::List;
pub use members::{Members, Places};
pub use memory::NoMemory;
pub use names::{is_dns_label, is_label_key, is_label_value};
pub use object::{
    AnchorStatus, Condition, Container, Id, Limit, Mode, ModeEntry, Need, Object, ObjectFault,
    Payload, Usage,
};
pub use pairs::Pairs;
pub use quantity::QuantityFault;
pub use shared::Shared;
pub use text::Text;
