// Threads that serve a door: sessions, and workers beside them.
ghost use Rattle.std.specs.Prelude.{◌≡◌, ◌<◌, ◌+◌, true, IfNone, IfSome};
ghost use Rattle.hx_shared.specs.Seats.{HasHistory};
ghost use Rattle.hx_sessions.specs.Held.{ends_in};
ghost use Rattle.hx_team.specs.Team.{HasLent, HasMet, HaveGone, IsAt};

use crate::session::serve_links;
use crate::signals::Signals;
use crate::threads::ServePlan;
use crate::worker::work_until_over;
use hx_door::Door;
use hx_ports::Keeper;
use hx_serve::Notices;
use hx_sessions::{DoorPass, SharedDoor};
use hx_shared::{Seat, Shared};
use std::alloc::Global;
use std::snapshot::Snapshot;
use std::sync::Wait;
use std::thread::{Promise, PromisedHandle, Scope, Threads};

/// How many turns a worker makes at most before it looks whether it is to go on, and a session behind a link where a worker is lacking.
pub(crate) const SLICE: u64 = 64;

/// What the threads share, but for the door.
#[derive(Drop)]
pub(crate) struct Team<'a, R: Wait, K: Keeper, N: Notices> {
    pub(crate) rt: &'a R,
    pub(crate) alloc: Global,
    pub(crate) shared: &'a Shared<K>,
    pub(crate) notices: &'a N,
    pub(crate) plan: ServePlan,
    pub(crate) signals: Signals,
}

/// What a thread does.
#[derive(Clone, Copy)]
enum Role {
    Session,
    Worker,
}

impl<'a, R: Wait, K: Keeper, N: Notices> Team<'a, R, K, N> {
    /// How many threads are wanted beside the calling one.
    pub(crate) fn others(&self) -> u32 {
        u32::from(self.plan.sessions.saturating_sub(1)) + u32::from(self.plan.workers)
    }

    /// How many turns of a worker a session makes behind a link: none, unless workers are lacking.
    pub(crate) fn turns_behind_links(&self) -> u64 {
        if self.plan.workers == 0 || self.signals.lacks_one() {
            SLICE
        } else {
            0
        }
    }

    /// What the thread of a number does. The calling thread has number 0, and sessions have the numbers before those of workers.
    fn role_of(&self, number: u32) -> Role {
        if number == 0 || number < u32::from(self.plan.sessions) {
            Role::Session
        } else {
            Role::Worker
        }
    }

    /// Says that a thread can't be started. A session is played in place then, and needs no word.
    pub(crate) fn lack(&self, number: u32) {
        match self.role_of(number) {
            Role::Session => {}
            Role::Worker => self.signals.lack(number),
        }
    }

    /// Sends a thread home that is waited for: a worker goes once it is told that all sessions have ended, and a session by itself.
    fn send_home(&self, number: u32) {
        match self.role_of(number) {
            Role::Session => {}
            Role::Worker => self.signals.end(),
        }
    }
}

/// A seat at the cluster and a pass to the door, which a thread is lent.
#[derive(Drop)]
pub(crate) struct Hands<D: Door, K: Keeper> {
    pub(crate) seat: Seat<K>,
    pub(crate) pass: DoorPass<D>,
}

/// What a thread gives back: a seat and a pass of these locks, outside, each with the one right that it was lent.
#[derive(Drop)]
pub(crate) struct Back<D: Door, K: Keeper> {
    shared: Snapshot<Shared<K>>,
    door: Snapshot<SharedDoor<D>>,
}

impl<D: Door, K: Keeper> Promise<Hands<D, K>> for Back<D, K> {
    ghost use Rattle.std.specs.Prelude.{◌≡◌};
    ghost use Rattle.hx_team.specs.Team.{IsAt};

    ghost kept_by = { λ p r. IsAt p.shared.value r.seat.table_id r.seat.me × IsAt p.door.value r.pass.table_id r.pass.me × (r.seat.me.0.rights ≡ 1) × (r.pass.me.0.rights ≡ 1) };
}

type Child<D, K> = PromisedHandle<Hands<D, K>, Back<D, K>>;

/// Does what the role of its number is, until it ends.
fn run_as<R: Wait, D: Door, K: Keeper, N: Notices>(
    team: &Team<'_, R, K, N>,
    door: &SharedDoor<D>,
    number: u32,
    hands: Hands<D, K>,
) -> Hands<D, K>
    requires seat { IsAt team.now.shared.now hands.seat.table_id hands.seat.me }
    requires pass { IsAt door.now hands.pass.table_id hands.pass.me }
    ensures seat { IsAt team.now.shared.now result.seat.table_id result.seat.me }
    ensures pass { IsAt door.now result.pass.table_id result.pass.me }
    ensures gone { HaveGone hands.seat.me.0 result.seat.me.0 hands.pass.me.0 result.pass.me.0 }
{
    match team.role_of(number) {
        Role::Session => serve_links(team, door, number, hands),
        Role::Worker => {
            let Hands { seat, pass } = hands;
            Hands {
                seat: work_until_over(team, number, seat),
                pass,
            }
        }
    }
}

/// Lends a thread a right of each. Where none can be started, what it was to do is done in place: a session serves, and of a worker it is only told that it is lacking.
fn lend<'s, 'a, E, R: Threads + Wait + Sync, D: Door + Send, K: Keeper + Send, N: Notices + Sync>(
    scope: &'s Scope<'s, E>,
    team: &'s Team<'a, R, K, N>,
    door: &'s SharedDoor<D>,
    number: u32,
    mine: &mut Hands<D, K>,
) -> Option<Child<D, K>>
where
    D::Input: Send,
    D::Output: Send,
    requires seat { IsAt team.now.shared.now mine.old.seat.table_id mine.old.seat.me }
    requires pass { IsAt door.now mine.old.pass.table_id mine.old.pass.me }
    requires first { (mine.old.seat.me.0.first ≡ true) × (mine.old.pass.me.0.first ≡ true) }
    requires room { (1 < mine.old.seat.me.0.rights) × (1 < mine.old.pass.me.0.rights) }
    ensures seat { IsAt team.now.shared.now mine.new.seat.table_id mine.new.seat.me }
    ensures pass { IsAt door.now mine.new.pass.table_id mine.new.pass.me }
    ensures lent { IfSome result (λ child. (child.promise.shared.value ≡ team.now.shared.now) × (child.promise.door.value ≡ door.now) × HasLent mine.old.seat.me.0 mine.new.seat.me.0 × HasLent mine.old.pass.me.0 mine.new.pass.me.0) }
    ensures alone { IfNone result (HaveGone mine.old.seat.me.0 mine.new.seat.me.0 mine.old.pass.me.0 mine.new.pass.me.0) }
{
    let hands = Hands {
        seat: team.shared.split(&mut mine.seat),
        pass: door.split(&mut mine.pass),
    };
    let promise = Back {
        shared: Snapshot::of(team.shared),
        door: Snapshot::of(door),
    };
    match scope.spawn_with(
        promise,
        move || -> Hands<D, K>
            requires { IsAt team.now.shared.now hands.seat.table_id hands.seat.me × IsAt door.now hands.pass.table_id hands.pass.me × (hands.seat.me.0.rights ≡ 1) × (hands.pass.me.0.rights ≡ 1) }
            ensures { IsAt team.entry.now.shared.now result.seat.table_id result.seat.me × IsAt door.entry.now result.pass.table_id result.pass.me × (result.seat.me.0.rights ≡ 1) × (result.pass.me.0.rights ≡ 1) }
        { run_as(team, door, number, hands) },
    ) {
        Ok(child) => Some(child),
        Err(refused) => {
            team.lack(number);
            meet(team, door, mine, (refused.value)());
            None
        }
    }
}

/// The first seat and pass meet those that were lent.
fn meet<R: Wait, D: Door, K: Keeper, N: Notices>(
    team: &Team<'_, R, K, N>,
    door: &SharedDoor<D>,
    mine: &mut Hands<D, K>,
    back: Hands<D, K>,
)
    requires seat { IsAt team.now.shared.now mine.old.seat.table_id mine.old.seat.me }
    requires pass { IsAt door.now mine.old.pass.table_id mine.old.pass.me }
    requires back { IsAt team.now.shared.now back.seat.table_id back.seat.me × IsAt door.now back.pass.table_id back.pass.me }
    requires rights { (back.seat.me.0.rights ≡ 1) × (back.pass.me.0.rights ≡ 1) }
    ensures seat { IsAt team.now.shared.now mine.new.seat.table_id mine.new.seat.me }
    ensures pass { IsAt door.now mine.new.pass.table_id mine.new.pass.me }
    ensures met { HasMet mine.old.seat.me.0 mine.new.seat.me.0 × HasMet mine.old.pass.me.0 mine.new.pass.me.0 }
    ensures legal { HasHistory mine.new.seat.me.0 }
{
    let Hands { seat, pass } = back;
    team.shared.meet(&mut mine.seat, seat);
    door.meet(&mut mine.pass, pass);
}

/// Waits for a thread, and meets what it was lent. All sessions have ended where a worker is waited for.
fn gather<R: Threads + Wait, D: Door, K: Keeper, N: Notices>(
    team: &Team<'_, R, K, N>,
    door: &SharedDoor<D>,
    number: u32,
    mine: &mut Hands<D, K>,
    child: Child<D, K>,
)
    requires seat { IsAt team.now.shared.now mine.old.seat.table_id mine.old.seat.me }
    requires pass { IsAt door.now mine.old.pass.table_id mine.old.pass.me }
    requires child { (child.promise.shared.value ≡ team.now.shared.now) × (child.promise.door.value ≡ door.now) }
    ensures seat { IsAt team.now.shared.now mine.new.seat.table_id mine.new.seat.me }
    ensures pass { IsAt door.now mine.new.pass.table_id mine.new.pass.me }
    ensures met { HasMet mine.old.seat.me.0 mine.new.seat.me.0 × HasMet mine.old.pass.me.0 mine.new.pass.me.0 }
    ensures legal { HasHistory mine.new.seat.me.0 }
{
    team.send_home(number);
    meet(team, door, mine, child.join(team.rt));
}

/// Serves with so many threads beside the calling one, which serves too. The last number is lent first and waited for last: workers begin before sessions, and go home behind them.
pub(crate) fn serve_with<
    's,
    'a,
    E,
    R: Threads + Wait + Sync,
    D: Door + Send,
    K: Keeper + Send,
    N: Notices + Sync,
>(
    scope: &'s Scope<'s, E>,
    team: &'s Team<'a, R, K, N>,
    door: &'s SharedDoor<D>,
    others: u32,
    mine: Hands<D, K>,
) -> Hands<D, K>
where
    D::Input: Send,
    D::Output: Send,
    requires seat { IsAt team.now.shared.now mine.seat.table_id mine.seat.me }
    requires pass { IsAt door.now mine.pass.table_id mine.pass.me }
    requires first { (mine.seat.me.0.first ≡ true) × (mine.pass.me.0.first ≡ true) }
    requires room { (others < mine.seat.me.0.rights) × (others < mine.pass.me.0.rights) }
    ensures seat { IsAt team.now.shared.now result.seat.table_id result.seat.me }
    ensures pass { IsAt door.now result.pass.table_id result.pass.me }
    ensures gone { HaveGone mine.seat.me.0 result.seat.me.0 mine.pass.me.0 result.pass.me.0 }
    ensures over { ends_in result.pass.me.0.seen ≡ true }
{
    if others == 0 {
        return serve_links(team, door, 0, mine);
    }
    let mut mine = mine;
    match lend(scope, team, door, others, &mut mine) {
        None => serve_with(scope, team, door, others - 1, mine),
        Some(child) => {
            let mut mine = serve_with(scope, team, door, others - 1, mine);
            gather(team, door, others, &mut mine, child);
            mine
        }
    }
}
