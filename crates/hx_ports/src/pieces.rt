// Streams in pieces: all of some bytes are written, and the next ones are read.
ghost use Rattle.std.specs.Prelude.{◌≡◌, OnOk, OnErr, IfOk, length};
ghost use Rattle.std.specs.Io.{ReadsAtMost};
ghost use Rattle.std.specs.Io.KnownBytes.{Appends, ReadConsumes};
ghost use Rattle.hx_ports.specs.Causes.{HasCause};
ghost use Rattle.hx_ports.specs.Pieces.{WritesFront, WriteCause};

use crate::stream::{ReadFault, Sink, Source};
use hx_object::NoMemory;
use std::alloc::Global;

/// The most bytes that are read of a script or of a link.
pub const MOST_STREAM_BYTES: u64 = 1 << 40;

/// A write failed, or took nothing of a piece that wasn't empty.
#[derive(Clone, Copy, Debug, PartialEq, Eq)]
pub struct Unwritten;

/// Writes all bytes.
pub fn write_all<W: Sink>(sink: &mut W, bytes: &[u8]) -> Result<(), Unwritten>
    ensures whole { OnOk result (Appends (W.shown sink.old).written (W.shown sink.new).written bytes.now) }
    ensures cut { OnErr result (WritesFront bytes.now (W.shown sink.old).written (W.shown sink.new).written) }
    ensures cause { WriteCause (W.shown sink.old) (W.shown sink.new) result }
{
    let mut at = 0;
    while at < bytes.len() {
        match sink.write(&bytes[at..]) {
            Ok(0) => return Err(Unwritten),
            Ok(count) => at += count,
            Err(_) => return Err(Unwritten),
        }
    }
    Ok(())
}

/// A piece of so many bytes, to read into.
pub fn piece_of(alloc: Global, count: usize) -> Result<Vec<u8>, NoMemory>
    ensures { IfOk result (λ piece. length piece.items ≡ count) }
{
    Ok(vec![in alloc; 0; count]?)
}

/// Reads the next bytes into the front of a piece.
pub fn read_piece<S: Source>(source: &mut S, piece: &mut Vec<u8>) -> Result<usize, ReadFault>
    ensures same { length piece.new.items ≡ length piece.old.items }
    ensures bound { ReadsAtMost result piece.new.items }
    ensures bytes { ReadConsumes (S.shown source.old).left (S.shown source.new).left result piece.new.items }
    ensures cause { HasCause (S.shown source.old).faults (S.shown source.new).faults result }
{
    source.read(piece.as_mut_slice())
}
