// The cluster and its seats.
ghost use Rattle.std.specs.Prelude.{◌≡◌, ◌≢◌, ◌<◌, [], true, IfOk, IfErr, IsSome, option_map};
ghost use Rattle.hx_model.specs.Serving.{IsServedAsk, IsLegalAnswer};
ghost use Rattle.hx_reconcile.specs.declared.brief.Brief.{Brief as brief_of};
ghost use Rattle.hx_turn.specs.Passes.{IsOutside, after_split, all_rights, first_pass, split_off};
ghost use Rattle.hx_shared.specs.Calls.{StandsAt};
ghost use Rattle.hx_shared.specs.Seats.{Adds, HasHistory, HasTaken, IsLeftBy, Meets};

use crate::call::Call;
use crate::held::Held;
use crate::leaving::{leave_busy, leave_drop, leave_finish, leave_request, leave_take};
use hx_core::{Cluster, Take};
use hx_model::{Answer, Ask, Finish};
use hx_ports::Keeper;
use hx_reconcile::{Plan, SharedBrief};
use hx_turn::{Pass, Patience, Turn};
use std::alloc::{AllocFailed, Global};
use std::marker::{Brand, Model};
use std::snapshot::Snapshot;
use std::sync::Wait;

/// A caller's seat at a cluster that is shared. It has no bytes, and contracts see what it knows (`me.0`) and whose it is (`table_id`). A seat that lets go while a worker holds a key that it took leaves that key held.
pub type Seat<K> = Pass<Held<K>, Call, Cluster<K>>;

/// A cluster that several callers share. Contracts see which one it is, and a seat is one of it where its `table_id` is the same.
///
/// It ends by `close` alone, which gives the cluster back.
pub struct Shared<K: Keeper> {
    pub(crate) alloc: Global,
    turn: Turn<Held<K>, Call, Cluster<K>>,
}

impl<K: Keeper> Model for Shared<K> {
    ghost use Rattle.atomic_table.specs.Seated.{TableId, table_id_coded};

    ghost Value = { TableId };

    ghost coded = { table_id_coded };

    ghost view = { λ s. s.turn };
}

impl<K: Keeper> Shared<K> {
    /// Shares a cluster of which no worker holds a key, and gives its first seat. Where no memory is left the cluster comes back.
    pub fn make(alloc: Global, cluster: Cluster<K>) -> Result<(Shared<K>, Seat<K>), Cluster<K>>
        requires { cluster.workers.hands ≡ [] }
        ensures own { IfOk result (λ made. made.1.table_id ≡ made.0) }
        ensures first { IfOk result (λ made. made.1.me ≡ (first_pass cluster, [])) }
        ensures legal { IfOk result (λ made. HasHistory made.1.me.0) }
        ensures refused { IfErr result (λ back. back ≡ cluster) }
    {
        cluster.law_of_worlds();
        match Box::new(alloc, cluster) {
            Ok(cluster) => share(alloc, Held { cluster }),
            Err(AllocFailed { value }) => Err(value),
        }
    }

    /// A seat more, which has seen as much as the first and has made no call.
    pub fn split(&self, seat: &mut Seat<K>) -> Seat<K>
        requires own { seat.old.table_id ≡ self.now }
        requires first { seat.old.me.0.first ≡ true }
        requires outside { IsOutside seat.old.me }
        requires room { 1 < seat.old.me.0.rights }
        ensures own { seat.new.table_id ≡ self.now }
        ensures left { seat.new.me ≡ (after_split seat.old.me.0, []) }
        ensures new { result.table_id ≡ self.now }
        ensures split { result.me ≡ (split_off seat.old.me.0, []) }
    {
        self.turn.split(seat)
    }

    /// The first seat meets one that was split off, which is gone then. It has seen the whole history, of which both had seen beginnings.
    pub fn meet(&self, seat: &mut Seat<K>, other: Seat<K>)
        requires own { seat.old.table_id ≡ self.now }
        requires outside { IsOutside seat.old.me }
        requires other { other.table_id ≡ self.now }
        requires idle { IsOutside other.me }
        ensures own { seat.new.table_id ≡ self.now }
        ensures outside { IsOutside seat.new.me }
        ensures meets { Meets seat.old.me.0 other.me.0 seat.new.me.0 }
        ensures legal { HasHistory seat.new.me.0 }
    {
        self.turn.join(seat, other);
    }

    /// Gives the cluster back. It is what a legal history leaves that begins with what the first seat has seen.
    pub fn close(self, seat: Seat<K>) -> Cluster<K>
        requires own { seat.table_id ≡ self }
        requires outside { IsOutside seat.me }
        requires last { seat.me.0.rights ≡ all_rights }
        ensures { IsLeftBy seat.me.0 result }
    {
        let Shared { alloc: _, turn } = self;
        let Held { cluster } = turn.close(seat);
        Box::into_inner(cluster)
    }

    /// Answers one ask, as the cluster does at this point of the history.
    pub fn request<R: Wait>(&self, rt: &R, seat: &mut Seat<K>, ask: Ask) -> Answer
        requires own { seat.old.table_id ≡ self.now }
        requires outside { IsOutside seat.old.me }
        requires ask { IsServedAsk ask }
        ensures own { seat.new.table_id ≡ self.now }
        ensures outside { IsOutside seat.new.me }
        ensures answer { IsLegalAnswer result }
        ensures adds { Adds seat.old.me.0 (Call.Request ask result) seat.new.me.0 }
        ensures legal { HasHistory seat.new.me.0 }
    {
        let Held { mut cluster } = self.turn.enter(rt, seat);
        let asked = Snapshot::of(&ask);
        let answer = cluster.request(ask);
        leave_request::<K, Brand>(&self.turn, seat, Held { cluster }, &asked, &answer);
        answer
    }

    /// Gives a worker the first of the keys that wait, with what its plan is made from. A worker whose key another seat took is told so by `Already`.
    pub fn take<R: Wait>(&self, rt: &R, seat: &mut Seat<K>, worker: u32) -> Take
        requires own { seat.old.table_id ≡ self.now }
        requires outside { IsOutside seat.old.me }
        ensures own { seat.new.table_id ≡ self.now }
        ensures outside { IsOutside seat.new.me }
        ensures adds { Adds seat.old.me.0 (Call.Take worker result) seat.new.me.0 }
        ensures legal { HasHistory seat.new.me.0 }
    {
        let Held { mut cluster } = self.turn.enter(rt, seat);
        let taken = cluster.take(worker);
        leave_take::<K, Brand>(&self.turn, seat, Held { cluster }, worker, &taken);
        taken
    }

    /// Ends the turn of a worker whose key this seat took, by a plan of what it was given then. So it never finds that the worker holds nothing.
    pub fn finish<R: Wait>(&self, rt: &R, seat: &mut Seat<K>, worker: u32, plan: Plan) -> Finish
        requires own { seat.old.table_id ≡ self.now }
        requires outside { IsOutside seat.old.me }
        requires taken { HasTaken seat.old.me.0 worker plan.brief }
        ensures own { seat.new.table_id ≡ self.now }
        ensures outside { IsOutside seat.new.me }
        ensures adds { Adds seat.old.me.0 (Call.Finish worker result) seat.new.me.0 }
        ensures legal { HasHistory seat.new.me.0 }
        ensures held { result ≢ Finish.Empty }
    {
        let Held { mut cluster } = self.turn.enter(rt, seat);
        let end = cluster.finish(worker, plan);
        leave_finish::<K, Brand>(&self.turn, seat, Held { cluster }, worker, end);
        end
    }

    /// A worker drops the key that this seat took, which waits again.
    pub fn drop_hand<R: Wait>(&self, rt: &R, seat: &mut Seat<K>, worker: u32) -> Option<SharedBrief>
        requires own { seat.old.table_id ≡ self.now }
        requires outside { IsOutside seat.old.me }
        requires taken { (brief : brief_of) × HasTaken seat.old.me.0 worker brief }
        ensures own { seat.new.table_id ≡ self.now }
        ensures outside { IsOutside seat.new.me }
        ensures adds { Adds seat.old.me.0 (Call.Drop worker (option_map (λ brief. brief.key) result)) seat.new.me.0 }
        ensures legal { HasHistory seat.new.me.0 }
        ensures held { IsSome result }
    {
        let Held { mut cluster } = self.turn.enter(rt, seat);
        let dropped = cluster.drop_hand(worker);
        leave_drop::<K, Brand>(&self.turn, seat, Held { cluster }, worker, &dropped);
        dropped
    }

    /// How many keys wait, and how many are held.
    pub fn busy<R: Wait>(&self, rt: &R, seat: &mut Seat<K>) -> (u64, u64)
        requires own { seat.old.table_id ≡ self.now }
        requires outside { IsOutside seat.old.me }
        ensures own { seat.new.table_id ≡ self.now }
        ensures outside { IsOutside seat.new.me }
        ensures adds { Adds seat.old.me.0 (Call.Busy result.0 result.1) seat.new.me.0 }
        ensures legal { HasHistory seat.new.me.0 }
    {
        let Held { cluster } = self.turn.enter(rt, seat);
        let counts = cluster.busy();
        leave_busy::<K, Brand>(&self.turn, seat, Held { cluster }, counts.0, counts.1);
        counts
    }
}

/// Puts a cluster under a lock.
fn share<K: Keeper>(alloc: Global, held: Held<K>) -> Result<(Shared<K>, Seat<K>), Cluster<K>>
    requires { StandsAt held.cluster.value [] held.cluster.value }
    ensures own { IfOk result (λ made. made.1.table_id ≡ made.0) }
    ensures first { IfOk result (λ made. made.1.me ≡ (first_pass held.cluster.value, [])) }
    ensures refused { IfErr result (λ back. back ≡ held.cluster.value) }
{
    match Turn::make(alloc, Patience::for_short_turns(), held) {
        Ok((turn, seat)) => Ok((Shared { alloc, turn }, seat)),
        Err(Held { cluster }) => Err(Box::into_inner(cluster)),
    }
}
