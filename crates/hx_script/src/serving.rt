// Orders of workers that are served.
ghost use Rattle.std.specs.Prelude.{◌<◌, None, Some, Ok};
ghost use Rattle.hx_script.specs.Inside.{IsIdle};
ghost use Rattle.hx_script.specs.Running.{Serves};
ghost use Rattle.hx_script.specs.declared.order.Order.{Order};

use crate::turns::{
    say_check, say_drop, say_finish, say_settled, say_take, say_take_key, say_turned,
};
use hx_core::{Cluster, Turn, end_of};
use hx_model::Key;
use hx_ports::{Keeper, Sink, Unwritten};

/// A worker takes a key that waits.
pub fn take<W: Sink, K: Keeper>(
    room: &mut String,
    cluster: &mut Cluster<K>,
    sink: &mut W,
    worker: u32,
) -> Result<(), Unwritten>
    requires worker { 0 < worker }
    requires idle { IsIdle cluster.old }
    ensures serves { Serves (Ok (Order.Take worker None)) cluster.old cluster.new (W.shown sink.old) (W.shown sink.new) result }
    ensures idle { IsIdle cluster.new }
{
    let take = cluster.take(worker);
    let said = say_take(room, sink, worker, &take);
    drop(take);
    said
}

/// A worker takes the key that its line names.
pub fn take_key<W: Sink, K: Keeper>(
    room: &mut String,
    cluster: &mut Cluster<K>,
    sink: &mut W,
    worker: u32,
    key: Key,
) -> Result<(), Unwritten>
    requires worker { 0 < worker }
    requires idle { IsIdle cluster.old }
    ensures serves { Serves (Ok (Order.Take worker (Some key))) cluster.old cluster.new (W.shown sink.old) (W.shown sink.new) result }
    ensures idle { IsIdle cluster.new }
{
    let take = cluster.take_key(worker, key);
    let said = say_take_key(room, sink, worker, &take);
    drop(take);
    said
}

/// A worker finishes what it holds.
pub fn finish<W: Sink, K: Keeper>(
    room: &mut String,
    cluster: &mut Cluster<K>,
    sink: &mut W,
    worker: u32,
) -> Result<(), Unwritten>
    requires { IsIdle cluster.old }
    ensures serves { Serves (Ok (Order.Finish worker)) cluster.old cluster.new (W.shown sink.old) (W.shown sink.new) result }
    ensures idle { IsIdle cluster.new }
{
    let end = cluster.complete(worker);
    say_finish(room, sink, worker, end)
}

/// A worker drops what it holds.
pub fn drop_hand<W: Sink, K: Keeper>(
    room: &mut String,
    cluster: &mut Cluster<K>,
    sink: &mut W,
    worker: u32,
) -> Result<(), Unwritten>
    requires { IsIdle cluster.old }
    ensures serves { Serves (Ok (Order.Drop worker)) cluster.old cluster.new (W.shown sink.old) (W.shown sink.new) result }
    ensures idle { IsIdle cluster.new }
{
    let dropped = cluster.drop_hand(worker);
    let said = say_drop(room, sink, worker, &dropped);
    drop(dropped);
    said
}

/// How many keys wait, and how many are held.
pub fn check<W: Sink, K: Keeper>(
    room: &mut String,
    cluster: &mut Cluster<K>,
    sink: &mut W,
) -> Result<(), Unwritten>
    requires { IsIdle cluster.old }
    ensures serves { Serves (Ok Order.Check) cluster.old cluster.new (W.shown sink.old) (W.shown sink.new) result }
    ensures idle { IsIdle cluster.new }
{
    let (waiting, held) = cluster.busy();
    say_check(room, sink, waiting, held)
}

/// Worker 0 takes, plans and finishes, at most so many times. The lines of a turn are written before the next one is made.
pub fn settle<W: Sink, K: Keeper>(
    room: &mut String,
    cluster: &mut Cluster<K>,
    sink: &mut W,
    turns: u64,
) -> Result<(), Unwritten>
    requires { IsIdle cluster.old }
    ensures serves { Serves (Ok (Order.Settle turns)) cluster.old cluster.new (W.shown sink.old) (W.shown sink.new) result }
    ensures idle { IsIdle cluster.new }
{
    cluster.law_of_worlds();
    for _made in 0..turns {
        match cluster.turn() {
            Turn::Made(turned) => {
                let end = end_of(turned.end);
                let said = say_turned(room, sink, &turned);
                drop(turned);
                said?;
                if let Some(end) = end {
                    return say_settled(room, sink, end);
                }
            }
            Turn::Over(end) => return say_settled(room, sink, end),
        }
    }
    let end = cluster.rest();
    say_settled(room, sink, end)
}
