//! What a request writes and is answered, or the first refusal that holds.
//!
//! [`review`] looks at an [`IndexedState`](hx_state::IndexedState) and changes nothing. Its answers are the machine's, which `hx_model` defines. What stands against a write is in checks.rt, what quotas refuse in quotas.rt, and what a removal takes with it in removal.rt.
#![tactic(auto)]

mod case;
mod checks;
mod conflicts;
mod family;
mod findings;
mod limits;
mod moves;
mod quotas;
mod removal;
mod requests;
mod reviewed;
mod rules;
mod update;

pub use requests::review;
pub use reviewed::Reviewed;
