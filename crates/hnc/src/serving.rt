// Links that are served over a cluster that was started.
ghost use Rattle.std.specs.Prelude.{◌≡◌, ◌≢◌, ◌⊎◌, [], None, Some, IsErr, IsOk, min, true};
ghost use Rattle.hx_core.specs.Refinement.{ClusterView as cluster_of};
ghost use Rattle.hx_ports.specs.Causes.{Rose};
ghost use Rattle.hx_turn.specs.Passes.{IsOutside, all_rights};
ghost use Rattle.hnc.specs.Serving.{HasServed, HasServedAs, HasServedInTurn, is_alone};

use crate::top::{Ended, Status, end_with};
use hx_core::Cluster;
use hx_door::{Door, DoorFault};
use hx_ports::Keeper;
use hx_serve::{ClusterService, Notices, serve as serve_in_turn};
use hx_shared::{Seat, Shared};
use hx_team::{ServePlan, Served, serve};
use hx_words::Serving;
use std::alloc::Global;
use std::sync::Wait;
use std::thread::Threads;

/// Serves the links that a door gives at an address, over a cluster that was started.
pub(crate) fn serve_at<
    T: Threads + Wait + Sync,
    D: Door + Send,
    K: Keeper + Send,
    N: Notices + Sync,
>(
    threads: &T,
    alloc: Global,
    door: D,
    notices: &N,
    cluster: Cluster<K>,
    serving: &Serving,
) -> Ended<K, D>
where
    D::Input: Send,
    D::Output: Send,
    requires { cluster.workers.hands ≡ [] }
    ensures served { result.status ≡ Status.Done → HasServedAs IsOk serving.now cluster (D.shown door) (D.shown result.door) (K.shown result.keeper) }
    ensures left { result.status ≡ Status.DoorFault → (K.shown result.keeper ≡ cluster.keeper) ⊎ HasServedAs IsErr serving.now cluster (D.shown door) (D.shown result.door) (K.shown result.keeper) }
    ensures ends { (result.status ≡ Status.Done) ⊎ (result.status ≡ Status.DoorFault) }
    ensures whole { result.damaged ≡ None }
    ensures door_fault { result.status ≡ Status.DoorFault → Rose (D.shown door).faults (D.shown result.door).faults }
    ensures door_calm { result.status ≢ Status.DoorFault → (D.shown result.door).faults ≡ (D.shown door).faults }
{
    let mut door = door;
    if let Err(DoorFault) = door.listen(serving.listen.as_str()) {
        return end_with(Status::DoorFault, cluster.close(), door);
    }
    if is_alone(serving) {
        return serve_alone(alloc, door, notices, cluster, serving.links);
    }
    serve_links(threads, alloc, door, notices, cluster, plan_of(serving))
}

/// Whether one session is to serve, and no worker beside it.
fn is_alone(serving: &Serving) -> bool
    ensures { result ≡ is_alone serving.now }
{
    serving.sessions == 1 && serving.workers == 0
}

/// How many serve, as the words say.
fn plan_of(serving: &Serving) -> ServePlan
    ensures sessions { result.sessions ≡ min serving.now.sessions 65535 }
    ensures workers { result.workers ≡ min serving.now.workers 65535 }
    ensures links { result.links ≡ serving.now.links }
{
    ServePlan {
        sessions: as_u16(serving.sessions),
        workers: as_u16(serving.workers),
        links: serving.links,
    }
}

/// A number of threads. Words ask for few.
fn as_u16(number: u32) -> u16
    ensures { result ≡ min number 65535 }
{
    u16::try_from(number).unwrap_or(u16::MAX)
}

/// Serves the links of a door that listens: by several sessions with workers beside them or, where no memory is left for what they share, one after the other.
fn serve_links<T: Threads + Wait + Sync, D: Door + Send, K: Keeper + Send, N: Notices + Sync>(
    threads: &T,
    alloc: Global,
    door: D,
    notices: &N,
    cluster: Cluster<K>,
    plan: ServePlan,
) -> Ended<K, D>
where
    D::Input: Send,
    D::Output: Send,
    requires { cluster.workers.hands ≡ [] }
    ensures served { result.status ≡ Status.Done → HasServed IsOk plan.links cluster (D.shown door) (D.shown result.door) (K.shown result.keeper) }
    ensures left { result.status ≡ Status.DoorFault → HasServed IsErr plan.links cluster (D.shown door) (D.shown result.door) (K.shown result.keeper) }
    ensures ends { (result.status ≡ Status.Done) ⊎ (result.status ≡ Status.DoorFault) }
    ensures whole { result.damaged ≡ None }
    ensures door_fault { result.status ≡ Status.DoorFault → Rose (D.shown door).faults (D.shown result.door).faults }
    ensures door_calm { result.status ≢ Status.DoorFault → (D.shown result.door).faults ≡ (D.shown door).faults }
{
    match Shared::make(alloc, cluster) {
        Ok((shared, seat)) => serve_shared(threads, alloc, door, notices, shared, seat, plan),
        Err(cluster) => serve_alone(alloc, door, notices, cluster, plan.links),
    }
}

/// Serves the links of a door over a cluster that is shared, and closes it.
fn serve_shared<T: Threads + Wait + Sync, D: Door + Send, K: Keeper + Send, N: Notices + Sync>(
    threads: &T,
    alloc: Global,
    door: D,
    notices: &N,
    shared: Shared<K>,
    seat: Seat<K>,
    plan: ServePlan,
) -> Ended<K, D>
where
    D::Input: Send,
    D::Output: Send,
    requires own { seat.table_id ≡ shared }
    requires outside { IsOutside seat.me }
    requires first { seat.me.0.first ≡ true }
    requires whole { seat.me.0.rights ≡ all_rights }
    ensures served { result.status ≡ Status.Done → (c : cluster_of) → seat.me.0.opening ≡ Some c → HasServed IsOk plan.links c (D.shown door) (D.shown result.door) (K.shown result.keeper) }
    ensures left { result.status ≡ Status.DoorFault → (c : cluster_of) → seat.me.0.opening ≡ Some c → HasServed IsErr plan.links c (D.shown door) (D.shown result.door) (K.shown result.keeper) }
    ensures ends { (result.status ≡ Status.Done) ⊎ (result.status ≡ Status.DoorFault) }
    ensures whole { result.damaged ≡ None }
    ensures door_fault { result.status ≡ Status.DoorFault → Rose (D.shown door).faults (D.shown result.door).faults }
    ensures door_calm { result.status ≢ Status.DoorFault → (D.shown result.door).faults ≡ (D.shown door).faults }
{
    let Served { seat, door, end } = serve(threads, alloc, &shared, seat, door, plan, notices);
    let cluster = shared.close(seat);
    end_with(status_of_serving(end), cluster.close(), door)
}

/// Serves the links of a door one after the other, and settles behind each.
fn serve_alone<D: Door, K: Keeper, N: Notices>(
    alloc: Global,
    door: D,
    notices: &N,
    cluster: Cluster<K>,
    links: u64,
) -> Ended<K, D>
    requires { cluster.workers.hands ≡ [] }
    ensures served { result.status ≡ Status.Done → HasServedInTurn IsOk links cluster (D.shown door) (D.shown result.door) (K.shown result.keeper) }
    ensures left { result.status ≡ Status.DoorFault → HasServedInTurn IsErr links cluster (D.shown door) (D.shown result.door) (K.shown result.keeper) }
    ensures ends { (result.status ≡ Status.Done) ⊎ (result.status ≡ Status.DoorFault) }
    ensures whole { result.damaged ≡ None }
    ensures door_fault { result.status ≡ Status.DoorFault → Rose (D.shown door).faults (D.shown result.door).faults }
    ensures door_calm { result.status ≢ Status.DoorFault → (D.shown result.door).faults ≡ (D.shown door).faults }
{
    let mut door = door;
    let mut service = ClusterService::new(alloc, cluster);
    let end = serve_in_turn(alloc, &mut door, &mut service, notices, Some(links));
    end_with(status_of_serving(end), service.into_cluster().close(), door)
}

/// The status of a door that served.
fn status_of_serving(end: Result<u64, DoorFault>) -> Status
    ensures { (IsOk end × (result ≡ Status.Done)) ⊎ (IsErr end × (result ≡ Status.DoorFault)) }
{
    match end {
        Ok(_links) => Status::Done,
        Err(DoorFault) => Status::DoorFault,
    }
}
