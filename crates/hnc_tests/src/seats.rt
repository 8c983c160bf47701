// Seats of one cluster that is shared, over a keeper that can't fail.
ghost use Rattle.std.specs.Prelude.{◌≡◌, true};
ghost use Rattle.hx_turn.specs.Passes.{IsOutside, all_rights};

use crate::memory::empty_cluster;
use hx_api::{Method, RequestReader, status_of};
use hx_ports::SureKeeper;
use hx_shared::{Gate, OpenGate, Seat, Shared, WorkEnd};
use std::alloc::{AllocError, Global};
use std::hash::RandomState;
use std::sync::Wait;
use std::test::Fail;

/// A gate that lets so many turns be made.
struct Few {
    turns: u64,
}

impl Gate for Few {
    ghost use Rattle.std.specs.Prelude.{◌≡◌, nat_lt};

    ghost may = { λ gate worker turn said. said ≡ nat_lt turn gate.turns };

    fn pass(&self, _worker: u32, turn: u64) -> bool {
        turn < self.turns
    }
}

/// The status of what a seat's request of namespaces is answered.
fn status<R: Wait>(
    rt: &R,
    shared: &Shared<SureKeeper>,
    seat: &mut Seat<SureKeeper>,
    alloc: Global,
    method: Method,
    target: &str,
) -> u16
    requires own { seat.old.table_id ≡ shared.now }
    requires outside { IsOutside seat.old.me }
    ensures own { seat.new.table_id ≡ shared.now }
    ensures outside { IsOutside seat.new.me }
    ensures rights { seat.new.me.0.rights ≡ seat.old.me.0.rights }
{
    let mut reader = RequestReader::new(alloc);
    let body = b"{\"apiVersion\":\"v1\",\"kind\":\"Namespace\",\"metadata\":{\"name\":\"a\"}}";
    match reader.read_ask(method, target, body) {
        Ok(ask) => {
            let answer = shared.request(rt, seat, ask);
            let status = status_of(&answer);
            drop(answer);
            status
        }
        Err(refusal) => refusal.code(),
    }
}

/// What two seats are answered that make the same namespace, and what the one that is left finds.
fn met<R: Wait>(
    rt: &R,
    shared: &Shared<SureKeeper>,
    seat: &mut Seat<SureKeeper>,
    alloc: Global,
) -> [u16; 3]
    requires own { seat.old.table_id ≡ shared.now }
    requires outside { IsOutside seat.old.me }
    requires first { seat.old.me.0.first ≡ true }
    requires rights { seat.old.me.0.rights ≡ all_rights }
    ensures own { seat.new.table_id ≡ shared.now }
    ensures outside { IsOutside seat.new.me }
    ensures rights { seat.new.me.0.rights ≡ all_rights }
{
    let mut other = shared.split(seat);
    let made = status(rt, shared, seat, alloc, Method::Post, "/api/v1/namespaces");
    let refused = status(
        rt,
        shared,
        &mut other,
        alloc,
        Method::Post,
        "/api/v1/namespaces",
    );
    shared.meet(seat, other);
    let found = status(rt, shared, seat, alloc, Method::Get, "/api/v1/namespaces/a");
    [made, refused, found]
}

/// Whether a gate stops a worker, whether it else makes as many turns as it was asked for, and what is left to do then.
fn worked<R: Wait>(
    rt: &R,
    shared: &Shared<SureKeeper>,
    seat: &mut Seat<SureKeeper>,
) -> (bool, bool, (u64, u64))
    requires own { seat.old.table_id ≡ shared.now }
    requires outside { IsOutside seat.old.me }
    requires rights { seat.old.me.0.rights ≡ all_rights }
    ensures own { seat.new.table_id ≡ shared.now }
    ensures outside { IsOutside seat.new.me }
    ensures rights { seat.new.me.0.rights ≡ all_rights }
{
    let stopped = shared.work(rt, seat, 7, &Few { turns: 1 }, 9);
    let used = shared.work(rt, seat, 7, &OpenGate, 9);
    let counts = shared.busy(rt, seat);
    (
        matches!(stopped.end, WorkEnd::Stopped),
        matches!(used.end, WorkEnd::Used),
        counts,
    )
}

#[test]
fn seats(rt: HostRuntime) -> Result<(), Fail> {
    let cluster = empty_cluster(rt.alloc(), RandomState::new(&rt)?)?;
    match Shared::make(rt.alloc(), cluster) {
        Err(cluster) => {
            drop(cluster.close());
            Err(AllocError.into())
        }
        Ok((shared, seat)) => {
            let mut seat = seat;
            let codes = met(&rt, &shared, &mut seat, rt.alloc());
            let turns = worked(&rt, &shared, &mut seat);
            drop(shared.close(seat).close());
            assert_eq!(rt; codes, [201, 409, 200]);
            assert_eq!(rt; turns, (true, true, (0, 0)));
            Ok(())
        }
    }
}
