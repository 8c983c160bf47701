// Sessions: links that one thread serves, one after the other.
ghost use Rattle.std.specs.Prelude.{◌≡◌, false, true};
ghost use Rattle.hx_sessions.specs.Held.{ends_in};
ghost use Rattle.hx_team.specs.Team.{HasLed, HasStayed, HaveGone, IsAt};

use crate::team::{Hands, Team};
use hx_door::{Door, Link};
use hx_link::LinkEnd;
use hx_ports::{Keeper, Sink, Source};
use hx_serve::Notices;
use hx_sessions::{DoorPass, HeldDoor, SeatService, SharedDoor, serve_seat};
use hx_shared::Seat;
use std::sync::Wait;

/// Serves links of a door that others serve too, until it is told that no more come.
pub(crate) fn serve_links<R: Wait, D: Door, K: Keeper, N: Notices>(
    team: &Team<'_, R, K, N>,
    door: &SharedDoor<D>,
    number: u32,
    hands: Hands<D, K>,
) -> Hands<D, K>
    requires seat { IsAt team.now.shared.now hands.seat.table_id hands.seat.me }
    requires pass { IsAt door.now hands.pass.table_id hands.pass.me }
    ensures seat { IsAt team.now.shared.now result.seat.table_id result.seat.me }
    ensures pass { IsAt door.now result.pass.table_id result.pass.me }
    ensures gone { HaveGone hands.seat.me.0 result.seat.me.0 hands.pass.me.0 result.pass.me.0 }
    ensures over { ends_in result.pass.me.0.seen ≡ true }
{
    let Hands { seat, mut pass } = hands;
    let mut service = service_of(team, seat);
    'serving: for _ in team.rt.forever() {
        if !serve_next(team, door, number, &mut service, &mut pass) {
            return Hands {
                seat: service.into_seat(),
                pass,
            };
        }
    }
    unreachable!()
}

/// Serves the next link, or answers `false` where none comes any more.
fn serve_next<R: Wait, D: Door, K: Keeper, N: Notices>(
    team: &Team<'_, R, K, N>,
    door: &SharedDoor<D>,
    number: u32,
    service: &mut SeatService<'_, R, K>,
    pass: &mut DoorPass<D>,
) -> bool
    requires pass { IsAt door.now pass.old.table_id pass.old.me }
    ensures own { service.new.seat.table_id ≡ service.old.seat.table_id }
    ensures pass { IsAt door.now pass.new.table_id pass.new.me }
    ensures gone { HaveGone service.old.seat.me.0 service.new.seat.me.0 pass.old.me.0 pass.new.me.0 }
    ensures over { result ≡ false → ends_in pass.new.me.0.seen ≡ true }
{
    let link = match door.accept(team.rt, pass) {
        Err(_fault) => return false,
        Ok(None) => return false,
        Ok(Some(link)) => link,
    };
    let sink = serve_one(team, number, service, link);
    door.take_back(team.rt, pass, sink);
    true
}

/// Serves all links of a door that nobody else serves.
pub(crate) fn serve_alone<R: Wait, D: Door, K: Keeper, N: Notices>(
    team: &Team<'_, R, K, N>,
    seat: Seat<K>,
    door: HeldDoor<D>,
) -> (Seat<K>, HeldDoor<D>)
    requires seat { IsAt team.now.shared.now seat.table_id seat.me }
    ensures seat { IsAt team.now.shared.now result.0.table_id result.0.me }
    ensures stayed { HasStayed seat.me.0 result.0.me.0 }
    ensures led { HasLed false door result.1 }
{
    let mut door = door;
    let mut service = service_of(team, seat);
    'serving: for _ in team.rt.forever() {
        if !serve_next_alone(team, &mut service, &mut door) {
            return (service.into_seat(), door);
        }
    }
    unreachable!()
}

/// Serves the next link of a door that nobody else serves, or answers `false` where none comes any more.
fn serve_next_alone<R: Wait, D: Door, K: Keeper, N: Notices>(
    team: &Team<'_, R, K, N>,
    service: &mut SeatService<'_, R, K>,
    door: &mut HeldDoor<D>,
) -> bool
    ensures own { service.new.seat.table_id ≡ service.old.seat.table_id }
    ensures stayed { HasStayed service.old.seat.me.0 service.new.seat.me.0 }
    ensures led { HasLed result door.old door.new }
{
    let link = match door.accept() {
        Err(_fault) => return false,
        Ok(None) => return false,
        Ok(Some(link)) => link,
    };
    let sink = serve_one(team, 0, service, link);
    door.take_back(sink);
    true
}

/// What answers the messages of all links of a session, over its seat.
fn service_of<'a, R: Wait, K: Keeper, N: Notices>(
    team: &'a Team<'_, R, K, N>,
    seat: Seat<K>,
) -> SeatService<'a, R, K>
    requires { IsAt team.now.shared.now seat.table_id seat.me }
    ensures { result.seat ≡ seat }
{
    SeatService::new(team.rt, team.alloc, team.shared, &team.signals.bell, seat)
}

/// Serves a link to its end, and gives its sink. Where workers are lacking, turns of one are made behind it.
fn serve_one<R: Wait, K: Keeper, N: Notices, S: Source + Drop, W: Sink + Drop>(
    team: &Team<'_, R, K, N>,
    number: u32,
    service: &mut SeatService<'_, R, K>,
    link: Link<S, W>,
) -> W
    ensures own { service.new.seat.table_id ≡ service.old.seat.table_id }
    ensures stayed { HasStayed service.old.seat.me.0 service.new.seat.me.0 }
{
    let Link {
        mut source,
        mut sink,
    } = link;
    let end = serve_seat(team.alloc, &mut source, &mut sink, service);
    drop(source);
    if end != LinkEnd::Closed {
        team.notices.link_ended(end);
    }
    service.work(number, team.turns_behind_links());
    sink
}
