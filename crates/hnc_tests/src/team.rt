// Sessions and workers in threads, which serve the links of a door in memory.
ghost use Rattle.std.specs.Prelude.{◌≡◌, true};
ghost use Rattle.hx_turn.specs.Passes.{IsOutside, all_rights};

use crate::memory::{Ends, WHOLE, door_of, empty_cluster};
use hx_door::MemDoor;
use hx_object::Shared as Row;
use hx_ports::SureKeeper;
use hx_shared::{OpenGate, Seat, Shared};
use hx_team::{ServePlan, Served, serve};
use std::alloc::{AllocError, Global};
use std::hash::RandomState;
use std::sync::Wait;
use std::test::Fail;
use std::thread::Threads;

/// What clients send. The last one ends within its second message.
const LINKS: [&str; 4] = [
    "POST /api/v1/namespaces HTTP/1.1\r\nContent-Length: 62\r\n\r\n{\"apiVersion\":\"v1\",\"kind\":\"Namespace\",\"metadata\":{\"name\":\"a\"}}",
    "POST /api/v1/namespaces HTTP/1.1\r\nContent-Length: 62\r\n\r\n{\"apiVersion\":\"v1\",\"kind\":\"Namespace\",\"metadata\":{\"name\":\"b\"}}",
    "POST /api/v1/namespaces HTTP/1.1\r\nContent-Length: 62\r\n\r\n{\"apiVersion\":\"v1\",\"kind\":\"Namespace\",\"metadata\":{\"name\":\"c\"}}",
    "POST /api/v1/namespaces HTTP/1.1\r\nContent-Length: 62\r\n\r\n{\"apiVersion\":\"v1\",\"kind\":\"Namespace\",\"metadata\":{\"name\":\"d\"}}GET / HT",
];

/// What they make.
const NAMES: [&str; 4] = ["a", "b", "c", "d"];

/// A door that was served.
#[derive(Drop)]
struct Visited {
    door: MemDoor,
    links: u64,
    /// How many links ended otherwise than closed.
    broken: u64,
}

/// Serves a door by two sessions, with two workers beside them.
fn serve_in_threads<R: Threads + Wait + Sync>(
    rt: &R,
    alloc: Global,
    shared: &Shared<SureKeeper>,
    seat: Seat<SureKeeper>,
    door: MemDoor,
) -> (Seat<SureKeeper>, Visited)
    requires own { seat.table_id ≡ shared.now }
    requires outside { IsOutside seat.me }
    requires first { seat.me.0.first ≡ true }
    requires whole { seat.me.0.rights ≡ all_rights }
    ensures own { result.0.table_id ≡ shared.now }
    ensures outside { IsOutside result.0.me }
    ensures whole { result.0.me.0.rights ≡ all_rights }
{
    let ends = Ends::new();
    let plan = ServePlan {
        sessions: 2,
        workers: 2,
        links: 9,
    };
    let Served { seat, door, end } = serve(rt, alloc, shared, seat, door, plan, &ends);
    let visited = Visited {
        door,
        links: end.unwrap_or(0),
        broken: ends.count(),
    };
    (seat, visited)
}

/// What is left to do behind 64 turns of a worker.
fn left<R: Wait>(rt: &R, shared: &Shared<SureKeeper>, seat: &mut Seat<SureKeeper>) -> (u64, u64)
    requires own { seat.old.table_id ≡ shared.now }
    requires outside { IsOutside seat.old.me }
    ensures own { seat.new.table_id ≡ shared.now }
    ensures outside { IsOutside seat.new.me }
    ensures rights { seat.new.me.0.rights ≡ seat.old.me.0.rights }
{
    shared.work(rt, seat, 0, &OpenGate, 64);
    shared.busy(rt, seat)
}

/// Whether an object has this name, and the label of a namespace that takes part in the tree.
fn is_settled(row: &Row, name: &str) -> bool {
    let object = row.object();
    let label = object.labels.get("hnc.x-k8s.io/included-namespace");
    object.id.name.as_str() == name && label.is_some()
}

/// Whether the rows of a cluster are the namespaces that were made, in order and settled.
fn are_settled(rows: &[Row]) -> bool {
    rows.len() == NAMES.len()
        && rows
            .iter()
            .zip(NAMES.as_slice())
            .all(|(row, name)| is_settled(row, name))
}

/// A door that was served, what was left to do behind that, and whether the rows are right.
fn serve_all<R: Threads + Wait + Sync>(
    rt: &R,
    alloc: Global,
    keys: RandomState,
) -> Result<(Visited, (u64, u64), bool), AllocError> {
    let door = door_of(alloc, LINKS.as_slice(), WHOLE)?;
    let cluster = empty_cluster(alloc, keys)?;
    match Shared::make(alloc, cluster) {
        Err(cluster) => {
            drop(cluster.close());
            Err(AllocError)
        }
        Ok((shared, seat)) => {
            let (mut seat, visited) = serve_in_threads(rt, alloc, &shared, seat, door);
            let counts = left(rt, &shared, &mut seat);
            let cluster = shared.close(seat);
            let settled = match cluster.rows() {
                Ok(rows) => are_settled(rows.as_slice()),
                Err(_) => false,
            };
            drop(cluster.close());
            Ok((visited, counts, settled))
        }
    }
}

#[test]
fn links_in_threads(rt: HostRuntime) -> Result<(), Fail> {
    let keys = RandomState::new(&rt)?;
    let (visited, counts, settled) = serve_all(&rt, rt.alloc(), keys)?;
    assert_eq!(rt; (visited.links, visited.broken), (4, 1));
    assert_eq!(rt; counts, (0, 0));
    assert!(rt; settled);
    let sinks = visited.door.sinks();
    assert_eq!(rt; sinks.len(), 4);
    for sink in sinks {
        assert!(rt; sink.bytes().starts_with(b"HTTP/1.1 201 Created\r\n"));
    }
    Ok(())
}
