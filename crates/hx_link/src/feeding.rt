// Messages that are answered one after the other.
ghost use Rattle.std.specs.Prelude.{◌≡◌, ◌≤◌, List, ℕ, [], ◌∷◌, ◌++◌, true, false, OnOk, OnErr, drop, length};
ghost use Rattle.hx_http.specs.Messages.{next_of, More};
ghost use Rattle.hx_http.specs.Searches.{IsSearched, message_seen};
ghost use Rattle.hx_http.specs.Streams.{Asked, Rejected};
ghost use Rattle.hx_ports.specs.Pieces.{WriteCause};
ghost use Rattle.hx_link.specs.Inside.{OnEnded, OnFed, OnTold};
ghost use Rattle.hx_link.specs.Running.{Cuts, CutsPiece, Does, Ends, Feeds};

use crate::buffers::discard;
use crate::service::Service;
use hx_http::{HeadFault, Message, Next, Search, next_request};
use hx_ports::{Sink, Unwritten, empty, write_all};

/// Answers one message. Head and body of the reply are written at once.
fn answer<W: Sink, V: Service>(
    service: &mut V,
    sink: &mut W,
    room: &mut String,
    message: &Message<'_>,
) -> Result<(), Unwritten>
    ensures does { OnOk result (Does V.does (Asked (message_seen message.now) ∷ []) service.old service.new (W.shown sink.old).written (W.shown sink.new).written) }
    ensures cut { OnErr result (Cuts V.does (Asked (message_seen message.now) ∷ []) service.old service.new (W.shown sink.old).written (W.shown sink.new).written) }
    ensures cause { WriteCause (W.shown sink.old) (W.shown sink.new) result }
{
    let text = service.answer(room, message);
    let written = write_all(sink, text.as_bytes());
    empty(room);
    written
}

/// Answers a head that is refused.
fn refuse<W: Sink, V: Service>(
    service: &mut V,
    sink: &mut W,
    fault: HeadFault,
) -> Result<(), Unwritten>
    ensures does { OnOk result (Does V.does (Rejected fault ∷ []) service.old service.new (W.shown sink.old).written (W.shown sink.new).written) }
    ensures cut { OnErr result (Cuts V.does (Rejected fault ∷ []) service.old service.new (W.shown sink.old).written (W.shown sink.new).written) }
    ensures cause { WriteCause (W.shown sink.old) (W.shown sink.new) result }
    ensures same { service.new ≡ service.old }
{
    V::law_of_refused();
    write_all(sink, fault.reply().as_bytes())
}

/// Whether a link goes on.
#[derive(Clone, Copy, Debug, PartialEq, Eq)]
pub enum Fed {
    /// More bytes are needed. So many were used.
    On(usize),
    /// A reply ended the link.
    Ended,
}

/// Answers the messages that bytes begin with, in order.
pub fn feed<W: Sink, V: Service>(
    service: &mut V,
    sink: &mut W,
    room: &mut String,
    search: &mut Search,
    bytes: &[u8],
) -> Result<Fed, Unwritten>
    requires searched { IsSearched bytes.now search.old }
    ensures within { OnFed result (λ at. at ≤ length bytes.now) }
    ensures feeds { OnFed result (λ at. Feeds V.does bytes.now (drop at bytes.now) service.old service.new (W.shown sink.old).written (W.shown sink.new).written) }
    ensures waits { OnFed result (λ at. next_of (drop at bytes.now) ≡ More) }
    ensures goes_on { OnFed result (λ at. (more : List ℕ) → IsSearched (drop at bytes.now ++ more) search.new) }
    ensures ends { OnEnded result (Ends V.does bytes.now service.old service.new (W.shown sink.old).written (W.shown sink.new).written) }
    ensures cut { OnErr result (CutsPiece V.does bytes.now service.old service.new (W.shown sink.old).written (W.shown sink.new).written) }
    ensures cause { WriteCause (W.shown sink.old) (W.shown sink.new) result }
{
    V::law_of_none();
    V::law_of_more();
    let mut at = 0;
    'messages: loop {
        match next_request(search, &bytes[at..]) {
            Next::More => return Ok(Fed::On(at)),
            Next::Refused(fault) => {
                refuse(service, sink, fault)?;
                return Ok(Fed::Ended);
            }
            Next::Whole { message, length } => {
                answer(service, sink, room, &message)?;
                at += length;
                if message.last {
                    return Ok(Fed::Ended);
                }
            }
        }
    }
}

/// Answers the messages that wait, in order, and says whether the link goes on.
pub fn feed_waiting<W: Sink, V: Service>(
    service: &mut V,
    sink: &mut W,
    room: &mut String,
    search: &mut Search,
    waiting: &mut Vec<u8>,
) -> Result<bool, Unwritten>
    requires searched { IsSearched waiting.old.items search.old }
    ensures feeds { OnTold result true (Feeds V.does waiting.old.items waiting.new.items service.old service.new (W.shown sink.old).written (W.shown sink.new).written) }
    ensures waits { OnTold result true (next_of waiting.new.items ≡ More) }
    ensures goes_on { OnTold result true ((more : List ℕ) → IsSearched (waiting.new.items ++ more) search.new) }
    ensures ends { OnTold result false (Ends V.does waiting.old.items service.old service.new (W.shown sink.old).written (W.shown sink.new).written) }
    ensures cut { OnErr result (CutsPiece V.does waiting.old.items service.old service.new (W.shown sink.old).written (W.shown sink.new).written) }
    ensures cause { WriteCause (W.shown sink.old) (W.shown sink.new) result }
{
    match feed(service, sink, room, search, waiting.as_slice()) {
        Ok(Fed::On(at)) => {
            discard(waiting, at);
            Ok(true)
        }
        Ok(Fed::Ended) => Ok(false),
        Err(Unwritten) => Err(Unwritten),
    }
}
