// A door that is served by several sessions.
ghost use Rattle.std.specs.Prelude.{◌≡◌, ◌<◌, ℕ, Some, true, IsErr, IsOk};
ghost use Rattle.hx_door.specs.Doors.{DoorView};
ghost use Rattle.hx_ports.specs.Causes.{Rose};
ghost use Rattle.hx_turn.specs.Passes.{IsOutside, all_rights};
ghost use Rattle.hx_sessions.specs.Held.{ends_in, held_at};
ghost use Rattle.hx_team.specs.Team.{EndsServing, HasStayed, HaveGone, IsAt, IsServedOut};

use crate::session::serve_alone;
use crate::signals::Signals;
use crate::team::{Hands, Team, serve_with};
use hx_door::{Door, DoorFault};
use hx_ports::Keeper;
use hx_serve::Notices;
use hx_sessions::{HeldDoor, SharedDoor};
use hx_shared::{Seat, Shared};
use std::alloc::Global;
use std::sync::Wait;
use std::thread;
use std::thread::Threads;

/// How many serve a door.
#[derive(Clone, Copy)]
pub struct ServePlan {
    /// How many sessions serve links, each in a thread of its own. The calling thread is one of them, so there is one at least.
    pub sessions: u16,
    /// How many workers write what reconcilers want, each in a thread of its own. Where there is none, or a thread can't be started, sessions make up to 64 turns behind each link.
    pub workers: u16,
    /// How many links are served at most.
    pub links: u64,
}

/// What comes back where a door was served.
pub struct Served<K: Keeper, D: Door> {
    pub seat: Seat<K>,
    pub door: D,
    /// How many links were served, or that the door failed.
    pub end: Result<u64, DoorFault>,
}

/// Serves the links of a door by several sessions at a time, with workers beside them: so many links, or else until the door is closed. A fault of the door ends it too.
///
/// All threads have ended when it returns. Where one can't be started, the others do its work, and where no memory is left for what threads share of a door, the calling thread does all. That threads run at once, and that each gets on, isn't claimed.
pub fn serve<R: Threads + Wait + Sync, D: Door + Send, K: Keeper + Send, N: Notices + Sync>(
    rt: &R,
    alloc: Global,
    shared: &Shared<K>,
    seat: Seat<K>,
    door: D,
    plan: ServePlan,
    notices: &N,
) -> Served<K, D>
where
    D::Input: Send,
    D::Output: Send,
    requires own { seat.table_id ≡ shared.now }
    requires outside { IsOutside seat.me }
    requires first { seat.me.0.first ≡ true }
    requires whole { seat.me.0.rights ≡ all_rights }
    ensures own { result.seat.table_id ≡ shared.now }
    ensures outside { IsOutside result.seat.me }
    ensures stayed { HasStayed seat.me.0 result.seat.me.0 }
    ensures served { IsServedOut plan.links (D.shown door) result.end (D.shown result.door) }
    ensures ends { EndsServing plan.links result.end (D.shown result.door) }
    ensures failed { IsErr result.end → Rose (D.shown door).faults (D.shown result.door).faults }
    ensures calm { IsOk result.end → (D.shown result.door).faults ≡ (D.shown door).faults }
{
    let team = Team {
        rt,
        alloc,
        shared,
        notices,
        plan,
        signals: Signals::new(),
    };
    match SharedDoor::make(alloc, HeldDoor::new(door, plan.links)) {
        Ok((entrance, pass)) => serve_beside(&team, entrance, Hands { seat, pass }),
        Err(held) => serve_by_one(&team, seat, held),
    }
}

/// Serves a door that is shared, by threads of one scope, and closes it.
fn serve_beside<R: Threads + Wait + Sync, D: Door + Send, K: Keeper + Send, N: Notices + Sync>(
    team: &Team<'_, R, K, N>,
    door: SharedDoor<D>,
    hands: Hands<D, K>,
) -> Served<K, D>
where
    D::Input: Send,
    D::Output: Send,
    requires own { IsAt team.now.shared.now hands.seat.table_id hands.seat.me × IsAt door hands.pass.table_id hands.pass.me }
    requires first { (hands.seat.me.0.first ≡ true) × (hands.pass.me.0.first ≡ true) }
    requires whole { (hands.seat.me.0.rights ≡ all_rights) × (hands.pass.me.0.rights ≡ all_rights) }
    ensures own { IsAt team.now.shared.now result.seat.table_id result.seat.me }
    ensures stayed { HasStayed hands.seat.me.0 result.seat.me.0 }
    ensures served { (links : ℕ) (old : DoorView) → hands.pass.me.0.opening ≡ Some (held_at old links) → IsServedOut links old result.end (D.shown result.door) }
{
    let hands = serve_in_threads(team, &door, hands);
    let Hands { seat, pass } = hands;
    let (door, end) = door.close(pass).into_parts();
    Served { seat, door, end }
}

/// Serves a door that nobody shares, by the calling thread alone: each other one is lacking, and so is the last worker.
fn serve_by_one<R: Wait, D: Door, K: Keeper, N: Notices>(
    team: &Team<'_, R, K, N>,
    seat: Seat<K>,
    held: HeldDoor<D>,
) -> Served<K, D>
    requires own { IsAt team.now.shared.now seat.table_id seat.me }
    ensures own { IsAt team.now.shared.now result.seat.table_id result.seat.me }
    ensures stayed { HasStayed seat.me.0 result.seat.me.0 }
    ensures served { (links : ℕ) (old : DoorView) → held ≡ held_at old links → IsServedOut links old result.end (D.shown result.door) }
{
    team.lack(team.others());
    let (seat, held) = serve_alone(team, seat, held);
    let (door, end) = held.into_parts();
    Served { seat, door, end }
}

/// Serves by threads of one scope.
fn serve_in_threads<R: Threads + Wait + Sync, D: Door + Send, K: Keeper + Send, N: Notices + Sync>(
    team: &Team<'_, R, K, N>,
    door: &SharedDoor<D>,
    hands: Hands<D, K>,
) -> Hands<D, K>
where
    D::Input: Send,
    D::Output: Send,
    requires own { IsAt team.now.shared.now hands.seat.table_id hands.seat.me × IsAt door.now hands.pass.table_id hands.pass.me }
    requires first { (hands.seat.me.0.first ≡ true) × (hands.pass.me.0.first ≡ true) }
    requires whole { (hands.seat.me.0.rights ≡ all_rights) × (hands.pass.me.0.rights ≡ all_rights) }
    ensures own { IsAt team.now.shared.now result.seat.table_id result.seat.me × IsAt door.now result.pass.table_id result.pass.me }
    ensures gone { HaveGone hands.seat.me.0 result.seat.me.0 hands.pass.me.0 result.pass.me.0 }
    ensures over { ends_in result.pass.me.0.seen ≡ true }
{
    let others = team.others();
    thread::scope(
        thread::scope_env(),
        team.rt,
        |scope| -> Hands<D, K>
            requires { IsAt team.now.shared.now hands.seat.table_id hands.seat.me × IsAt door.now hands.pass.table_id hands.pass.me × (hands.seat.me.0.first ≡ true) × (hands.pass.me.0.first ≡ true) × (others < hands.seat.me.0.rights) × (others < hands.pass.me.0.rights) }
            ensures { IsAt team.entry.now.shared.now result.seat.table_id result.seat.me × IsAt door.entry.now result.pass.table_id result.pass.me × HaveGone hands.seat.me.0 result.seat.me.0 hands.pass.me.0 result.pass.me.0 × (ends_in result.pass.me.0.seen ≡ true) }
        { serve_with(scope, team, door, others, hands) },
    )
}
