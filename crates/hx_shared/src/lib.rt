//! One cluster for several callers, each with a seat of its own, in one order.
//!
//! Each call waits for its turn, and is one event of the cluster's machine at that point. The calls of all seats, with their answers, are one legal history. A seat has seen a beginning of it, and the calls that carry the seat's number are its own; where two seats meet, what both had seen begins what the one has seen that stays.
//!
//! A reconciler holds no turn while it plans: what it reads (`take`) and what it writes (`finish`) are two events. A key that a seat took is finished or dropped by that seat alone.
#![tactic(auto)]

mod call;
mod gate;
mod held;
mod leaving;
mod shared;
mod work;

pub use call::Call;
pub use gate::{Gate, OpenGate};
pub use held::Held;
pub use shared::{Seat, Shared};
pub use work::{WorkEnd, Worked};
