//! Sessions that serve links beside one another.
#![tactic(auto)]

mod bell;
mod door;
mod law;
mod seat;
mod serving;

pub use bell::Bell;
pub use door::{DoorPass, HeldDoor, SharedDoor, Told};
pub use law::law_of_doors;
pub use seat::SeatService;
pub use serving::serve_seat;
