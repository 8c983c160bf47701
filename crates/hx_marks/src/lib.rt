//! Which keys of reconcilers' work a write marks, in proportion to what it can change.
//!
//! What is promised of them stands in `specs/Halves.antt`: any other key wants the same before and after the writes, and each of them is one that the writes may make wait. How that is kept is this crate's own: the law of marks in `specs/Law.antt` is a list of keys for each sort of write. The code gives that list, and looks at nothing that it doesn't need.
#![tactic(auto)]

mod anchors;
mod below;
mod current;
mod endings;
mod kinds;
mod law;
mod links;
mod live;
mod lookups;
mod modes;
mod moves;
mod name_set;
mod namespaces;
mod objects;
mod reports;
mod senders;
mod spread;
mod usage;
mod wants;
mod writes;

pub use below::open_below;
pub use law::{law_of_keys, law_of_settled};
pub use spread::{SpreadMarks, keeps_tree, spread_marks};
pub use wants::keys_of;
pub use writes::marks;
