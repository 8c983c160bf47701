//! What changed, for whoever mirrors the service elsewhere: events, the window of the latest ones, and the hub of watchers.
//!
//! Contracts see a [`Window`] as the events that it keeps and its floor, the version up to which events are gone; a [`Watcher`] as the events that it received, where it tells them, whether it may refuse one, and its count of refusals; and a [`Hub`] as its watchers in the order of adding, each with whether it is set aside.
//!
//! A hub is generic in its watcher, which isn't boxed: of a box of any watcher no contract could say what it received, once it lies in a struct. A program with several kinds of watchers makes an enum of them.
#![tactic(auto)]

mod hub;
mod law;
mod mem;
mod watcher;
mod window;

pub use hub::Hub;
pub use law::law_of_hubs;
pub use mem::MemWatcher;
pub use watcher::{Refused, Watcher};
pub use window::{SinceFault, Window};
