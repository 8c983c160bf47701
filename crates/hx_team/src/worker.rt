// Workers: threads that write what reconcilers want, and sleep while nothing is to be done.
ghost use Rattle.hx_team.specs.Team.{HasStayed, IsAt};

use crate::team::{SLICE, Team};
use hx_ports::Keeper;
use hx_serve::Notices;
use hx_shared::{OpenGate, Seat};
use std::sync::Wait;

/// A worker's turns, until all sessions have ended. One that has no thread of its own makes none.
pub(crate) fn work_until_over<R: Wait, K: Keeper, N: Notices>(
    team: &Team<'_, R, K, N>,
    number: u32,
    seat: Seat<K>,
) -> Seat<K>
    requires seat { IsAt team.now.shared.now seat.table_id seat.me }
    ensures seat { IsAt team.now.shared.now result.table_id result.me }
    ensures stayed { HasStayed seat.me.0 result.me.0 }
{
    let mut seat = seat;
    if team.signals.is_lacking(number) {
        return seat;
    }
    'working: for _ in team.rt.forever() {
        if !work_or_sleep(team, number, &mut seat) {
            return seat;
        }
    }
    unreachable!()
}

/// A slice of a worker's turns, and a sleep behind it where none got on: no key waits, or those that do can't be finished now. It answers whether the worker goes on.
///
/// Whoever writes rings or looks again itself, so a worker that sleeps misses nothing. One that got on wakes the others where more keys wait than it took: so workers don't wake one another for keys that can't be finished.
fn work_or_sleep<R: Wait, K: Keeper, N: Notices>(
    team: &Team<'_, R, K, N>,
    number: u32,
    seat: &mut Seat<K>,
) -> bool
    requires seat { IsAt team.now.shared.now seat.old.table_id seat.old.me }
    ensures seat { IsAt team.now.shared.now seat.new.table_id seat.new.me }
    ensures stayed { HasStayed seat.old.me.0 seat.new.me.0 }
{
    let bell = &team.signals.bell;
    let rings = bell.count();
    if team.signals.is_over() {
        return false;
    }
    let (waiting, _held) = team.shared.busy(team.rt, seat);
    if !work(team, number, waiting.min(SLICE), seat) {
        bell.wait(team.rt, rings);
    } else if waiting > SLICE {
        bell.ring();
    }
    true
}

/// So many turns of a worker. It answers whether one of them got on.
fn work<R: Wait, K: Keeper, N: Notices>(
    team: &Team<'_, R, K, N>,
    number: u32,
    turns: u64,
    seat: &mut Seat<K>,
) -> bool
    requires seat { IsAt team.now.shared.now seat.old.table_id seat.old.me }
    ensures seat { IsAt team.now.shared.now seat.new.table_id seat.new.me }
    ensures stayed { HasStayed seat.old.me.0 seat.new.me.0 }
{
    let worked = team.shared.work(team.rt, seat, number, &OpenGate, turns);
    worked.got_on
}
