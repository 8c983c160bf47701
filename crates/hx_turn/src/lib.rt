//! A lock whose callers take turns in the order of their tickets, over one history.
//!
//! The lock has one slot, in which the value lies while nobody has it. A caller comes with a *pass*, waits in no order until others are out or its patience ends, draws a *ticket*, and waits until the lock serves that ticket. Then it is *inside*: it has the value out of the slot, and has seen the whole *history*, the list of what all callers did before it. It puts the value back with one entry more behind that history, under the number of its pass, and the next ticket is served.
//!
//! A pass has no bytes. It is what a proof knows of a caller: what it has seen, and which entries are its own (`View`). The first pass comes with the lock, and other passes are split off it, one for each thread; it has a *right* for each pass that may still be split off, and one of its own. It joins them again, and closes the lock when it has all rights back.
//!
//! What an entry is, and what it means that a value stands for a history, is said by the type of the value (`Stands`).
#![tactic(auto)]

mod bells;
mod turn;
mod turnstile;
mod view;

pub use turn::{Entry, Pass, Patience, Stands, Turn, Turns};
pub use view::View;
