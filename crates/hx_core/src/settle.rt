// Turns of worker 0, one after the other, until nothing is left to do.
ghost use Rattle.std.specs.Prelude.{◌≡◌, ◌≤◌, ◌<◌, length, ◌∷◌, [], ◌++◌, List, None, IfNone, IfSome, vec_len, vec_capacity};
ghost use Rattle.hx_bound.specs.Bound.{turn_bound};
ghost use Rattle.hx_model.specs.Hands.{hand_of};
ghost use Rattle.hx_model.specs.Tree.{forest_of};
ghost use Rattle.hx_core.specs.Bounding.{IsUnsettled};
ghost use Rattle.hx_core.specs.Queued.{HaveTurned};
ghost use Rattle.hx_core.specs.Refinement.{Simulates};
ghost use Rattle.hx_core.specs.Settling.{IsEnded, IsRest, IsTraced, IsTurn, rest_of};
ghost use Rattle.hx_core.specs.Turns.{IsSettleEnd, end_entries, loss_in, turns_entries};
ghost use Rattle.hx_core.specs.Working.{IsNext};
ghost use Rattle.hx_core.specs.declared.turns.Turned.{Turned as turned_of};

use crate::cluster::Cluster;
use crate::turns::{Settle, Take, Turn, Turned};
use crate::working::copy_of;
use hx_model::{Finish, Key};
use hx_object::NoMemory;
use hx_ports::Keeper;

impl<K: Keeper> Cluster<K> {
    /// Worker 0 takes, plans and finishes until no key waits, so many keys were taken, or a turn was lost. The trace gets its turns, behind those that it has.
    ///
    /// Where no worker holds a key, as many turns as `turn_bound` says suffice: for each write that may come, and once more, a turn of each key that there is or that waits.
    ///
    /// [`turn_bound`]: hx_bound
    ///
    /// A caller that tells of each turn before the next one is made calls `turn`, `end_of` and `rest` in the same way.
    pub fn settle(&mut self, turns: u64, trace: &mut Vec<Turned>) -> Settle
        requires { hand_of 0 self.old.workers.hands ≡ None }
        ensures made { (made : List turned_of) × (trace.new.items ≡ trace.old.items ++ made) × Simulates self.old (turns_entries made ++ end_entries result) self.new × HaveTurned made self.old self.new × IsSettleEnd turns made self.new.workers result }
        ensures empty { hand_of 0 self.new.workers.hands ≡ None }
        ensures bound { self.old.workers.hands ≡ [] → turn_bound self.old.state (length self.old.workers.waiting) ≤ turns → IsUnsettled result → ⊥ }
    {
        self.law_of_worlds();
        for _made in 0..turns {
            if let Some(end) = self.trace_turn(trace) {
                return end;
            }
        }
        self.rest()
    }

    /// One turn of worker 0 in a settle: it takes the first of the keys that wait, plans and finishes. Where no key waits, or no memory is left to take it, the settle is over.
    pub fn turn(&mut self) -> Turn
        requires { hand_of 0 self.old.workers.hands ≡ None }
        ensures { IsTurn self.old result self.new }
    {
        self.law_of_worlds();
        match self.next() {
            Err(NoMemory) => Turn::Over(Settle::NoMemory),
            Ok(None) => Turn::Over(self.rest()),
            Ok(Some(key)) => self.turn_next(key),
        }
    }

    /// How a settle ends that makes no turn more: by how many keys wait and are held.
    pub fn rest(&self) -> Settle
        ensures { IsRest self.now result }
    {
        let counts = self.busy();
        rest_of(counts.0, counts.1)
    }

    /// One turn more behind a trace, or the end where there is none, or where it was lost. The trace has room for it before it is made.
    fn trace_turn(&mut self, trace: &mut Vec<Turned>) -> Option<Settle>
        requires { hand_of 0 self.old.workers.hands ≡ None }
        ensures turn { IfNone result (IsTraced self.old trace.old.items self.new trace.new.items) }
        ensures end { IfSome result (IsEnded self.old trace.old.items self.new trace.new.items) }
        ensures empty { hand_of 0 self.new.workers.hands ≡ None }
    {
        self.law_of_worlds();
        if trace.reserve(1).is_err() {
            return Some(Settle::NoMemory);
        }
        match self.turn() {
            Turn::Made(turned) => {
                let end = turned.end;
                note(trace, turned);
                end_of(end)
            }
            Turn::Over(end) => Some(end),
        }
    }

    /// One turn of worker 0 with the next key.
    fn turn_next(&mut self, key: Key) -> Turn
        requires nothing { hand_of 0 self.old.workers.hands ≡ None }
        requires next { IsNext (forest_of self.old.state) self.old.workers key }
        ensures { IsTurn self.old result self.new }
    {
        self.law_of_worlds();
        match copy_of(&key) {
            Ok(taken) => self.turn_of(key, taken),
            Err(NoMemory) => {
                drop(key);
                Turn::Over(Settle::NoMemory)
            }
        }
    }

    /// One turn of worker 0 with a key that waits.
    fn turn_of(&mut self, key: Key, taken: Key) -> Turn
        requires nothing { hand_of 0 self.old.workers.hands ≡ None }
        requires next { IsNext (forest_of self.old.state) self.old.workers key }
        requires same { taken ≡ key }
        ensures { IsTurn self.old result self.new }
    {
        self.law_of_worlds();
        match self.give(0, key) {
            Take::Job(brief) => {
                drop(brief);
                let end = self.complete(0);
                self.law_of_worlds();
                Turn::Made(Turned { key: taken, end })
            }
            other => {
                drop(other);
                drop(taken);
                Turn::Over(Settle::NoMemory)
            }
        }
    }
}

/// How a settle ends that makes no turn more, by how many keys wait and are held.
fn rest_of(waiting: u64, held: u64) -> Settle
    ensures { result ≡ rest_of waiting held }
{
    if waiting == 0 && held == 0 {
        return Settle::Settled;
    }
    Settle::Unsettled { waiting, held }
}

/// Puts a turn behind a trace that has room for it.
fn note(trace: &mut Vec<Turned>, turned: Turned)
    requires { vec_len trace.old < vec_capacity trace.old }
    ensures { trace.new.items ≡ trace.old.items ++ turned ∷ [] }
{
    let _ = trace.push(turned);
}

/// How a turn that was lost ends a settle.
pub fn end_of(end: Finish) -> Option<Settle>
    ensures { result ≡ loss_in end }
{
    match end {
        Finish::Spent => Some(Settle::Spent),
        Finish::Fault => Some(Settle::Fault),
        Finish::NoMemory => Some(Settle::NoMemory),
        Finish::Empty | Finish::Nothing | Finish::Conflict { .. } | Finish::Written(_) => None,
    }
}
