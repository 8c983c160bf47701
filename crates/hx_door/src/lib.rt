//! Doors: each hands out links, one after the other, and a link is two ends, a source and a sink.
//!
//! Contracts see of a door what it shows: counts of its failures and of its links, whether it is closed, and, where it tells that, what comes on its links and what was written to them.
//!
//! A `TcpDoor` listens on a loopback address. A `MemDoor` has links in memory, and fails at the calls that a test names.
#![tactic(auto)]

mod door;
mod mem;
mod tcp;
mod tcp_link;

pub use door::{Door, DoorFault, Link};
pub use mem::{MemDoor, MemLine};
pub use tcp::{TcpDoor, TcpFault};
pub use tcp_link::{TcpReader, TcpWriter};
