//! Laws behind a bound on settling: in which order keys are written, and that few writes come.
#![tactic(auto)]

mod law;

pub use law::{law_of_keys, law_of_order, law_of_settling, law_of_turns, law_of_writes};
