// The run of a script.
ghost use Rattle.std.specs.Prelude.{◌≡◌, ◌≢◌, ◌≤◌, ◌<◌, [], ◌++◌, ◌⊎◌, OnOk, OnErr, IsErrOf, IfSome, IfNone, length, take};
ghost use Rattle.std.specs.Io.KnownBytes.{IsAtEnd};
ghost use Rattle.hx_ports.specs.Causes.{Rose};
ghost use Rattle.hx_ports.specs.Pieces.{OfBytes, most_stream_bytes, IsCalm};
ghost use Rattle.hx_script.specs.Inside.{IsIdle};
ghost use Rattle.hx_script.specs.Lines.{asking, script_lines};
ghost use Rattle.hx_script.specs.Running.{Does, Cuts, HasNoEnd, IsWaiting, EndsAt, most_kept, Feeds, CutsPiece, IsKept, ReadsFront};

use crate::responder::Responder;
use hx_core::Cluster;
use hx_object::NoMemory;
use hx_ports::{Keeper, MOST_STREAM_BYTES, Sink, Source, Unwritten, piece_of, read_piece};
use memchr::memchr;
use std::alloc::Global;

/// How the run of a script ended.
#[derive(Clone, Copy, Debug, PartialEq, Eq)]
pub enum RunEnd {
    /// The script was read to its end, and each line answered.
    Done,
    ReadFault,
    /// A write failed, or took nothing of a piece that wasn't empty.
    WriteFault,
    /// The script has more than 2^40 bytes.
    TooLong,
    NoMemory,
}

/// Why no more lines are answered.
#[derive(Clone, Copy, Debug, PartialEq, Eq)]
pub enum Stop {
    WriteFault,
    NoMemory,
}

impl From<Unwritten> for Stop {
    ghost use Rattle.hx_script.specs.declared.script.Stop.TheVariants.{WriteFault};

    ghost from_gives = { λ _ stop. stop ≡ WriteFault };

    fn from(_fault: Unwritten) -> Stop {
        Stop::WriteFault
    }
}

impl From<NoMemory> for Stop {
    ghost use Rattle.hx_script.specs.declared.script.Stop.TheVariants.{NoMemory};

    ghost from_gives = { λ _ stop. stop ≡ NoMemory };

    fn from(_fault: NoMemory) -> Stop {
        Stop::NoMemory
    }
}

impl Stop {
    fn end(self) -> RunEnd
        ensures write { self ≡ Stop.WriteFault → result ≡ RunEnd.WriteFault }
        ensures memory { self ≡ Stop.NoMemory → result ≡ RunEnd.NoMemory }
    {
        match self {
            Stop::WriteFault => RunEnd::WriteFault,
            Stop::NoMemory => RunEnd::NoMemory,
        }
    }
}

/// The most bytes that are kept of a line: two more than it may have.
const MOST_KEPT: usize = 131_074;

/// Keeps a stretch of a line that hasn't ended, up to the most bytes.
fn keep(waiting: &mut Vec<u8>, stretch: &[u8]) -> Result<(), NoMemory>
    requires { length waiting.old.items ≤ most_kept }
    ensures { OnOk result (waiting.new.items ≡ take most_kept (waiting.old.items ++ stretch.now)) }
{
    let room = MOST_KEPT - waiting.len();
    let count = stretch.len().min(room);
    waiting.extend_from_slice(&stretch[..count])?;
    Ok(())
}

/// Where the first line feed is.
fn first_end(piece: &[u8]) -> Option<usize>
    ensures found { IfSome result (λ end. EndsAt piece.now end) }
    ensures none { IfNone result (HasNoEnd piece.now) }
{
    memchr(b'\n', piece)
}

/// Answers the line that a stretch ends. Where nothing waits it is answered from where it lies.
fn end_line<W: Sink, K: Keeper>(
    responder: &mut Responder,
    cluster: &mut Cluster<K>,
    sink: &mut W,
    waiting: &mut Vec<u8>,
    stretch: &[u8],
) -> Result<(), Stop>
    requires few { length waiting.old.items ≤ most_kept }
    requires idle { IsIdle cluster.old }
    ensures idle { IsIdle cluster.new }
    ensures cleared { OnOk result (waiting.new.items ≡ []) }
    ensures does { OnOk result (Does (asking (waiting.old.items ++ stretch.now)) cluster.old cluster.new (W.shown sink.old).written (W.shown sink.new).written) }
    ensures cut { OnErr result (Cuts (asking (waiting.old.items ++ stretch.now)) cluster.old cluster.new (W.shown sink.old).written (W.shown sink.new).written) }
    ensures later { ((W.shown sink.old).faults ≤ (W.shown sink.new).faults) × ((W.shown sink.old).stalls ≤ (W.shown sink.new).stalls) }
    ensures still { OnOk result (IsCalm (W.shown sink.old) (W.shown sink.new)) }
    ensures cause { IsErrOf result Stop.WriteFault → Rose (W.shown sink.old).faults (W.shown sink.new).faults ⊎ Rose (W.shown sink.old).stalls (W.shown sink.new).stalls }
    ensures memory { IsErrOf result Stop.NoMemory → IsCalm (W.shown sink.old) (W.shown sink.new) }
{
    if waiting.is_empty() {
        responder.answer_part(cluster, sink, stretch)?;
        return Ok(());
    }
    keep(waiting, stretch)?;
    responder.answer_part(cluster, sink, waiting.as_slice())?;
    waiting.clear();
    Ok(())
}

/// Takes the next piece of the script: answers the lines that it ends, and keeps the rest.
fn feed<W: Sink, K: Keeper>(
    responder: &mut Responder,
    cluster: &mut Cluster<K>,
    sink: &mut W,
    waiting: &mut Vec<u8>,
    piece: &[u8],
) -> Result<(), Stop>
    requires waits { IsWaiting waiting.old.items }
    requires idle { IsIdle cluster.old }
    ensures idle { IsIdle cluster.new }
    ensures waits { OnOk result (IsWaiting waiting.new.items) }
    ensures kept { OnOk result (IsKept (waiting.old.items ++ piece.now) waiting.new.items) }
    ensures feeds { OnOk result (Feeds waiting.old.items piece.now waiting.new.items cluster.old cluster.new (W.shown sink.old).written (W.shown sink.new).written) }
    ensures cut { OnErr result (CutsPiece waiting.old.items piece.now cluster.old cluster.new (W.shown sink.old).written (W.shown sink.new).written) }
    ensures later { ((W.shown sink.old).faults ≤ (W.shown sink.new).faults) × ((W.shown sink.old).stalls ≤ (W.shown sink.new).stalls) }
    ensures still { OnOk result (IsCalm (W.shown sink.old) (W.shown sink.new)) }
    ensures cause { IsErrOf result Stop.WriteFault → Rose (W.shown sink.old).faults (W.shown sink.new).faults ⊎ Rose (W.shown sink.old).stalls (W.shown sink.new).stalls }
    ensures memory { IsErrOf result Stop.NoMemory → IsCalm (W.shown sink.old) (W.shown sink.new) }
{
    let mut at = 0;
    while let Some(end) = first_end(&piece[at..]) {
        end_line(responder, cluster, sink, waiting, &piece[at..at + end])?;
        at += end + 1;
    }
    keep(waiting, &piece[at..])?;
    Ok(())
}

/// How many bytes are read at a time.
const PIECE_BYTES: usize = 65_536;

/// Reads a script to its end, and answers its lines in order.
pub fn run_script<S: Source, W: Sink, K: Keeper>(
    alloc: Global,
    source: &mut S,
    sink: &mut W,
    cluster: &mut Cluster<K>,
) -> RunEnd
    requires { cluster.old.workers.hands ≡ [] }
    ensures done { result ≡ RunEnd.Done → OfBytes (S.shown source.old).left (λ script. (length script ≤ most_stream_bytes) × Does (script_lines script) cluster.old cluster.new (W.shown sink.old).written (W.shown sink.new).written) }
    ensures cut { result ≢ RunEnd.Done → OfBytes (S.shown source.old).left (λ script. Cuts (script_lines script) cluster.old cluster.new (W.shown sink.old).written (W.shown sink.new).written) }
    ensures too_long { result ≡ RunEnd.TooLong → OfBytes (S.shown source.old).left (λ script. (most_stream_bytes < length script) × Cuts (script_lines script) cluster.old cluster.new (W.shown sink.old).written (W.shown sink.new).written) }
    ensures unread { result ≡ RunEnd.ReadFault → ReadsFront (S.shown source.old).left (S.shown source.new).left cluster.old cluster.new (W.shown sink.old).written (W.shown sink.new).written }
    ensures end { result ≡ RunEnd.Done → IsAtEnd (S.shown source.new).left }
    ensures read_calm { result ≢ RunEnd.ReadFault → (S.shown source.new).faults ≡ (S.shown source.old).faults }
    ensures write_calm { result ≢ RunEnd.WriteFault → IsCalm (W.shown sink.old) (W.shown sink.new) }
    ensures read_fault { result ≡ RunEnd.ReadFault → Rose (S.shown source.old).faults (S.shown source.new).faults }
    ensures write_fault { result ≡ RunEnd.WriteFault → Rose (W.shown sink.old).faults (W.shown sink.new).faults ⊎ Rose (W.shown sink.old).stalls (W.shown sink.new).stalls }
{
    let Ok(mut piece) = piece_of(alloc, PIECE_BYTES) else {
        return RunEnd::NoMemory;
    };
    let mut responder = Responder::new(alloc);
    let mut waiting = Vec::new(alloc);
    let mut total = 0;
    'reading: loop {
        let count = match read_piece(source, &mut piece) {
            Ok(count) => count,
            Err(_) => return RunEnd::ReadFault,
        };
        if count == 0 {
            break;
        }
        if MOST_STREAM_BYTES - total < count as u64 {
            return RunEnd::TooLong;
        }
        total += count as u64;
        if let Err(stop) = feed(&mut responder, cluster, sink, &mut waiting, &piece[..count]) {
            return stop.end();
        }
    }
    match responder.answer_part(cluster, sink, waiting.as_slice()) {
        Ok(()) => RunEnd::Done,
        Err(Unwritten) => RunEnd::WriteFault,
    }
}
