// How a call passes its turn on: the history tells what was called and what was answered.
ghost use Rattle.std.specs.Prelude.{◌≡◌, ◌++◌, [], ◌∷◌, Some, option_map};
ghost use Rattle.hx_turn.specs.Passes.{IsInside, after_entry};
ghost use Rattle.hx_core.specs.Refinement.{ClusterView as cluster_of};
ghost use Rattle.hx_shared.specs.Calls.{StandsAt};

use crate::call::Call;
use crate::held::{Held, Named, Naming};
use crate::shared::Seat;
use hx_core::{Cluster, Take};
use hx_model::{Answer, Ask, Finish};
use hx_ports::Keeper;
use hx_reconcile::SharedBrief;
use hx_turn::Turn;
use std::snapshot::Snapshot;

pub(crate) fn leave_request<K: Keeper, J: Naming>(
    turn: &Turn<Held<K>, Call, Cluster<K>>,
    seat: &mut Seat<K>,
    held: Held<K>,
    ask: &Snapshot<Ask>,
    answer: &Answer,
)
    requires picked { J.call ≡ Call.Request ask.now.value answer.now }
    requires own { seat.old.table_id ≡ turn.now }
    requires inside { IsInside seat.old.me }
    requires stands { (o : cluster_of) × (seat.old.me.0.opening ≡ Some o) × StandsAt o (seat.old.me.0.seen ++ (seat.old.me.0.number, Call.Request ask.now.value answer.now) ∷ []) held.cluster.value }
    ensures own { seat.new.table_id ≡ turn.now }
    ensures entry { seat.new.me ≡ (after_entry seat.old.me.0 (Call.Request ask.now.value answer.now), []) }
{
    turn.leave::<Named<J>>(seat, held);
}

pub(crate) fn leave_take<K: Keeper, J: Naming>(
    turn: &Turn<Held<K>, Call, Cluster<K>>,
    seat: &mut Seat<K>,
    held: Held<K>,
    worker: u32,
    taken: &Take,
)
    requires picked { J.call ≡ Call.Take worker taken.now }
    requires own { seat.old.table_id ≡ turn.now }
    requires inside { IsInside seat.old.me }
    requires stands { (o : cluster_of) × (seat.old.me.0.opening ≡ Some o) × StandsAt o (seat.old.me.0.seen ++ (seat.old.me.0.number, Call.Take worker taken.now) ∷ []) held.cluster.value }
    ensures own { seat.new.table_id ≡ turn.now }
    ensures entry { seat.new.me ≡ (after_entry seat.old.me.0 (Call.Take worker taken.now), []) }
{
    turn.leave::<Named<J>>(seat, held);
}

pub(crate) fn leave_finish<K: Keeper, J: Naming>(
    turn: &Turn<Held<K>, Call, Cluster<K>>,
    seat: &mut Seat<K>,
    held: Held<K>,
    worker: u32,
    end: Finish,
)
    requires picked { J.call ≡ Call.Finish worker end }
    requires own { seat.old.table_id ≡ turn.now }
    requires inside { IsInside seat.old.me }
    requires stands { (o : cluster_of) × (seat.old.me.0.opening ≡ Some o) × StandsAt o (seat.old.me.0.seen ++ (seat.old.me.0.number, Call.Finish worker end) ∷ []) held.cluster.value }
    ensures own { seat.new.table_id ≡ turn.now }
    ensures entry { seat.new.me ≡ (after_entry seat.old.me.0 (Call.Finish worker end), []) }
{
    turn.leave::<Named<J>>(seat, held);
}

pub(crate) fn leave_drop<K: Keeper, J: Naming>(
    turn: &Turn<Held<K>, Call, Cluster<K>>,
    seat: &mut Seat<K>,
    held: Held<K>,
    worker: u32,
    dropped: &Option<SharedBrief>,
)
    requires picked { J.call ≡ Call.Drop worker (option_map (λ brief. brief.key) dropped.now) }
    requires own { seat.old.table_id ≡ turn.now }
    requires inside { IsInside seat.old.me }
    requires stands { (o : cluster_of) × (seat.old.me.0.opening ≡ Some o) × StandsAt o (seat.old.me.0.seen ++ (seat.old.me.0.number, Call.Drop worker (option_map (λ brief. brief.key) dropped.now)) ∷ []) held.cluster.value }
    ensures own { seat.new.table_id ≡ turn.now }
    ensures entry { seat.new.me ≡ (after_entry seat.old.me.0 (Call.Drop worker (option_map (λ brief. brief.key) dropped.now)), []) }
{
    turn.leave::<Named<J>>(seat, held);
}

pub(crate) fn leave_busy<K: Keeper, J: Naming>(
    turn: &Turn<Held<K>, Call, Cluster<K>>,
    seat: &mut Seat<K>,
    held: Held<K>,
    waiting: u64,
    holding: u64,
)
    requires picked { J.call ≡ Call.Busy waiting holding }
    requires own { seat.old.table_id ≡ turn.now }
    requires inside { IsInside seat.old.me }
    requires stands { (o : cluster_of) × (seat.old.me.0.opening ≡ Some o) × StandsAt o (seat.old.me.0.seen ++ (seat.old.me.0.number, Call.Busy waiting holding) ∷ []) held.cluster.value }
    ensures own { seat.new.table_id ≡ turn.now }
    ensures entry { seat.new.me ≡ (after_entry seat.old.me.0 (Call.Busy waiting holding), []) }
{
    turn.leave::<Named<J>>(seat, held);
}
