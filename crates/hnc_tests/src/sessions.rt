// A link that is served over a seat of a shared cluster, from a door that is shared too.
ghost use Rattle.std.specs.Prelude.{◌≡◌};
ghost use Rattle.hx_turn.specs.Passes.{IsOutside};

use crate::links::{REPLIES, whole_door};
use crate::memory::empty_cluster;
use hx_door::{Link, MemDoor};
use hx_link::LinkEnd;
use hx_ports::SureKeeper;
use hx_sessions::{Bell, DoorPass, HeldDoor, SeatService, SharedDoor, serve_seat};
use hx_shared::{Seat, Shared};
use std::alloc::{AllocError, Global};
use std::hash::RandomState;
use std::sync::Wait;
use std::test::Fail;

/// Serves one link of a door over a seat, and gives it back to the door.
fn serve_link_of<R: Wait>(
    rt: &R,
    alloc: Global,
    shared: &Shared<SureKeeper>,
    seat: Seat<SureKeeper>,
    door: &SharedDoor<MemDoor>,
    pass: DoorPass<MemDoor>,
) -> (Seat<SureKeeper>, DoorPass<MemDoor>, bool)
    requires own { seat.table_id ≡ shared.now }
    requires outside { IsOutside seat.me }
    requires own_pass { pass.table_id ≡ door.now }
    requires outside_pass { IsOutside pass.me }
    ensures own { result.0.table_id ≡ shared.now }
    ensures outside { IsOutside result.0.me }
    ensures rights { result.0.me.0.rights ≡ seat.me.0.rights }
    ensures own_pass { result.1.table_id ≡ door.now }
    ensures outside_pass { IsOutside result.1.me }
    ensures rights_pass { result.1.me.0.rights ≡ pass.me.0.rights }
{
    let mut pass = pass;
    let Ok(Some(link)) = door.accept(rt, &mut pass) else {
        return (seat, pass, false);
    };
    let Link {
        mut source,
        mut sink,
    } = link;
    let bell = Bell::new();
    let mut service = SeatService::new(rt, alloc, shared, &bell, seat);
    let end = serve_seat(alloc, &mut source, &mut sink, &mut service);
    let seat = service.into_seat();
    drop(source);
    door.take_back(rt, &mut pass, sink);
    (seat, pass, end == LinkEnd::Closed)
}

/// The door that a link came from, how many it handed out, and whether the link ended closed.
#[derive(Drop)]
struct Visited {
    door: MemDoor,
    links: u64,
    closed: bool,
}

/// Shares a door for one link, and closes it again.
fn serve_from<R: Wait>(
    rt: &R,
    alloc: Global,
    shared: &Shared<SureKeeper>,
    seat: Seat<SureKeeper>,
    door: MemDoor,
) -> (Seat<SureKeeper>, Visited)
    requires own { seat.table_id ≡ shared.now }
    requires outside { IsOutside seat.me }
    ensures own { result.0.table_id ≡ shared.now }
    ensures outside { IsOutside result.0.me }
    ensures rights { result.0.me.0.rights ≡ seat.me.0.rights }
{
    match SharedDoor::make(alloc, HeldDoor::new(door, 1)) {
        Err(held) => {
            let (door, _none) = held.into_parts();
            (
                seat,
                Visited {
                    door,
                    links: 0,
                    closed: false,
                },
            )
        }
        Ok((entrance, pass)) => {
            let (seat, pass, closed) = serve_link_of(rt, alloc, shared, seat, &entrance, pass);
            let (door, links) = entrance.close(pass).into_parts();
            (
                seat,
                Visited {
                    door,
                    links: links.unwrap_or(0),
                    closed,
                },
            )
        }
    }
}

/// Shares a cluster for that, and closes it again.
fn serve_beside<R: Wait>(
    rt: &R,
    alloc: Global,
    keys: RandomState,
    door: MemDoor,
) -> Result<Visited, AllocError> {
    let cluster = empty_cluster(alloc, keys)?;
    match Shared::make(alloc, cluster) {
        Err(cluster) => {
            drop(cluster.close());
            Err(AllocError)
        }
        Ok((shared, seat)) => {
            let (seat, visited) = serve_from(rt, alloc, &shared, seat, door);
            drop(shared.close(seat).close());
            Ok(visited)
        }
    }
}

#[test]
fn one_link_over_a_seat(rt: HostRuntime) -> Result<(), Fail> {
    let keys = RandomState::new(&rt)?;
    let door = whole_door(rt.alloc())?;
    let visited = serve_beside(&rt, rt.alloc(), keys, door)?;
    assert_eq!(rt; (visited.links, visited.closed), (1, true));
    let sinks = visited.door.sinks();
    assert_eq!(rt; sinks.len(), 1);
    assert_eq!(rt; sinks[0].bytes(), REPLIES[0].as_bytes());
    Ok(())
}
