// Links that are served over a seat.
ghost use Rattle.std.specs.Prelude.{◌≡◌};
ghost use Rattle.hx_sessions.specs.Seats.{IsServedBy};

use crate::seat::SeatService;
use hx_link::{LinkEnd, serve_link};
use hx_ports::{Keeper, Sink, Source};
use std::alloc::Global;
use std::sync::Wait;

/// Serves one link to its end over a seat: each message is read, and asked of the cluster in its turn, and its reply says the answer.
pub fn serve_seat<R: Wait, K: Keeper, S: Source, W: Sink>(
    alloc: Global,
    source: &mut S,
    sink: &mut W,
    service: &mut SeatService<'_, R, K>,
) -> LinkEnd
    ensures serves { IsServedBy result (record { source = S.shown source.old; sink = W.shown sink.old }) (record { source = S.shown source.new; sink = W.shown sink.new }) service.old.seat.me.0 service.new.seat.me.0 }
    ensures own { service.new.seat.table_id ≡ service.old.seat.table_id }
{
    serve_link(alloc, source, sink, service)
}
