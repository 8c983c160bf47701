// One link, from its first byte to its last.
ghost use Rattle.std.specs.Prelude.{◌≡◌, ◌≢◌, ◌≤◌, ◌<◌, ◌⊎◌};
ghost use Rattle.hx_http.specs.Streams.{stream_of};
ghost use Rattle.hx_ports.specs.Causes.{Rose};
ghost use Rattle.hx_ports.specs.Pieces.{IsCalm, OfBytes, most_stream_bytes};
ghost use Rattle.hx_link.specs.Inside.{EndsBy};
ghost use Rattle.hx_link.specs.Reading.{ReadsFront};
ghost use Rattle.hx_link.specs.Running.{Cuts, Does, HasRead, IsClosed, IsCutShort};

use crate::buffers::keep;
use crate::feeding::feed_waiting;
use crate::service::Service;
use hx_http::Search;
use hx_ports::{MOST_STREAM_BYTES, Sink, Source, Unwritten, piece_of, read_piece};
use std::alloc::Global;

/// How a link ended.
#[derive(Clone, Copy, Debug, PartialEq, Eq)]
pub enum LinkEnd {
    /// The input ended between two requests, or a reply closed the link.
    Closed,
    ReadFault,
    /// A write failed, or took nothing of a piece that wasn't empty.
    WriteFault,
    /// The input ended within a request.
    CutShort,
    /// More than 2^40 bytes came.
    TooLong,
    NoMemory,
}

/// How many bytes are read at a time.
const PIECE_BYTES: usize = 16_384;

/// The end of a link whose input ended.
fn end_of(waiting: &Vec<u8>) -> LinkEnd
    ensures { EndsBy waiting.now.items result }
{
    if waiting.is_empty() {
        LinkEnd::Closed
    } else {
        LinkEnd::CutShort
    }
}

/// Serves one link to its end: its messages are answered in order.
///
/// A reply is written before the next message is looked at, and every message that has come is answered before more is read.
pub fn serve_link<S: Source, W: Sink, V: Service>(
    alloc: Global,
    source: &mut S,
    sink: &mut W,
    service: &mut V,
) -> LinkEnd
    ensures closed { result ≡ LinkEnd.Closed → OfBytes (S.shown source.old).left (λ bytes. IsClosed (stream_of bytes) × Does V.does (stream_of bytes).questions service.old service.new (W.shown sink.old).written (W.shown sink.new).written) }
    ensures cut_short { result ≡ LinkEnd.CutShort → OfBytes (S.shown source.old).left (λ bytes. IsCutShort (stream_of bytes) × Does V.does (stream_of bytes).questions service.old service.new (W.shown sink.old).written (W.shown sink.new).written) }
    ensures cut { OfBytes (S.shown source.old).left (λ bytes. Cuts V.does (stream_of bytes).questions service.old service.new (W.shown sink.old).written (W.shown sink.new).written) }
    ensures unread { result ≡ LinkEnd.ReadFault → ReadsFront V.does (S.shown source.old).left (S.shown source.new).left service.old service.new (W.shown sink.old).written (W.shown sink.new).written }
    ensures too_long { result ≡ LinkEnd.TooLong → HasRead (S.shown source.old).left (S.shown source.new).left (λ count. most_stream_bytes < count) }
    ensures few { result ≢ LinkEnd.TooLong → HasRead (S.shown source.old).left (S.shown source.new).left (λ count. count ≤ most_stream_bytes) }
    ensures read_calm { result ≢ LinkEnd.ReadFault → (S.shown source.new).faults ≡ (S.shown source.old).faults }
    ensures write_calm { result ≢ LinkEnd.WriteFault → IsCalm (W.shown sink.old) (W.shown sink.new) }
    ensures read_fault { result ≡ LinkEnd.ReadFault → Rose (S.shown source.old).faults (S.shown source.new).faults }
    ensures write_fault { result ≡ LinkEnd.WriteFault → Rose (W.shown sink.old).faults (W.shown sink.new).faults ⊎ Rose (W.shown sink.old).stalls (W.shown sink.new).stalls }
{
    V::law_of_none();
    V::law_of_more();
    let Ok(mut piece) = piece_of(alloc, PIECE_BYTES) else {
        return LinkEnd::NoMemory;
    };
    let mut room = String::new(alloc);
    let mut waiting = Vec::new(alloc);
    let mut search = Search::new();
    let mut total = 0;
    'reading: loop {
        let count = match read_piece(source, &mut piece) {
            Ok(count) => count,
            Err(_) => return LinkEnd::ReadFault,
        };
        if count == 0 {
            return end_of(&waiting);
        }
        if MOST_STREAM_BYTES - total < count as u64 {
            return LinkEnd::TooLong;
        }
        total += count as u64;
        if let Err(_) = keep(&mut waiting, &piece[..count]) {
            return LinkEnd::NoMemory;
        }
        match feed_waiting(service, sink, &mut room, &mut search, &mut waiting) {
            Ok(true) => {}
            Ok(false) => return LinkEnd::Closed,
            Err(Unwritten) => return LinkEnd::WriteFault,
        }
    }
}
