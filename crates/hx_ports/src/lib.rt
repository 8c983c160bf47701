//! The outside as traits with meaning: sources and sinks of bytes, read and written in pieces, and keepers of rows.
//!
//! Contracts see of each port what it shows: what it holds, where it tells that, and counts of its own failures. A count rises where a call failed, and nowhere else.
//!
//! `Std..` ports stand on any reader and writer. `Sure..` ports are in memory and never fail by themselves, and `Mem..` ports fail at the calls that a test names.
#![tactic(auto)]

mod buffers;
mod followed;
mod given_rows;
mod held_row;
mod keeper;
mod mem;
mod pieces;
mod row_keys;
mod row_map;
mod std_stream;
mod stream;
mod sure;
mod sure_keeper;

pub use buffers::{MOST_ROOM, empty};
pub use followed::Followed;
pub use keeper::{Batch, KeepFault, Keeper, Meta, Row};
pub use mem::{FailCommit, MemKeeper, MemSink, MemSource};
pub use pieces::{MOST_STREAM_BYTES, Unwritten, piece_of, read_piece, write_all};
pub use row_keys::row_key;
pub use std_stream::{StdSink, StdSource, StreamFault};
pub use stream::{ReadFault, Sink, Source, WriteFault};
pub use sure::{SureSink, SureSource};
pub use sure_keeper::SureKeeper;
