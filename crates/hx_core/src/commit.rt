// The one way of writes: they are prepared, put to the keeper, and then made.
ghost use Rattle.std.specs.Prelude.{◌≡◌, ◌≢◌, ◌≤◌, ◌<◌, ◌+◌, ◌++◌, [], OnOk, OnErr, IfOk, IsErrOf, length, option_copied};
ghost use Rattle.hx_model.specs.Limits.{greatest_version};
ghost use Rattle.hx_model.specs.State.{events_of};
ghost use Rattle.hx_model.specs.Tree.{forest_of};
ghost use Rattle.hx_model.specs.Valid.{IsValid};
ghost use Rattle.hx_model.specs.Writes.{MayWriteAll};
ghost use Rattle.hx_core.specs.Committing.{HasLanded, HasFailed, HasMarkedBut, Holds, IsPrepared};
ghost use Rattle.hx_core.specs.Reaching.{IsScopeOf, MayMark, whole_keys};
ghost use Rattle.hx_core.specs.Rows.{batch_of};
ghost use Rattle.hx_line.specs.Line.{IsRanked};
ghost use Rattle.hx_queue.specs.Workers.{IsMarkedBy};

use crate::rows::batch_of;
use crate::touched::{Marks, mark, marks_of};
use hx_model::Key;
use hx_object::NoMemory;
use hx_ports::{Batch, KeepFault, Keeper};
use hx_queue::Workers;
use hx_state::IndexedState;
use hx_store::Change;

/// Writes that are ready: they are staged in the state, and this is what is made for others of them.
///
/// All that a commit takes stands here, made once before the keeper is asked: what is put to the keeper, and whatever else is told of a write.
#[derive(Drop)]
pub struct Prepared {
    /// The objects that are put, the identities of those that are cut, and the events that are told.
    pub batch: Batch,
}

/// Why a commit didn't land.
#[derive(Clone, Copy)]
pub enum CommitFault {
    /// The keeper failed, and its count rose.
    KeeperFault,
    NoMemory,
}

impl From<KeepFault> for CommitFault {
    fn from(fault: KeepFault) -> CommitFault
        ensures keeper { fault ≡ KeepFault.Fault → result ≡ CommitFault.KeeperFault }
        ensures memory { fault ≡ KeepFault.NoMemory → result ≡ CommitFault.NoMemory }
    {
        match fault {
            KeepFault::Fault => CommitFault::KeeperFault,
            KeepFault::NoMemory => CommitFault::NoMemory,
        }
    }
}

/// Stages writes, and makes their batch, with their events. Where no memory is left, nothing stays staged.
pub fn prepare(state: &mut IndexedState, writes: Vec<Change>) -> Result<Prepared, NoMemory>
    requires none { state.old.staged ≡ [] }
    requires may { MayWriteAll state.old.state writes.items }
    requires some { writes.items ≢ [] }
    ensures state { state.new.state ≡ state.old.state }
    ensures staged { OnOk result (state.new.staged ≡ writes.items) }
    ensures unstaged { OnErr result (state.new.staged ≡ []) }
    ensures prepared { IfOk result (λ prepared. IsPrepared state.old.state writes.items prepared.batch) }
{
    state.stage(writes)?;
    match staged_batch(state) {
        Ok(batch) => Ok(Prepared { batch }),
        Err(NoMemory) => {
            state.discard();
            Err(NoMemory)
        }
    }
}

/// The batch of the staged writes.
fn staged_batch(state: &IndexedState) -> Result<Batch, NoMemory>
    requires { state.now.state.last < greatest_version }
    ensures { IfOk result (λ batch. batch ≡ batch_of state.now.staged (state.now.state.last + 1) (events_of state.now.state state.now.staged)) }
{
    batch_of(
        state.allocator(),
        state.staged(),
        state.version() + 1,
        state.staged_events(),
    )
}

/// Asks the keeper to take what was prepared, and then makes the staged writes. It takes no memory of its own.
pub fn commit<K: Keeper>(
    keeper: &mut K,
    state: &mut IndexedState,
    prepared: Prepared,
) -> Result<(), CommitFault>
    requires valid { IsValid state.old.state }
    requires held { Holds state.old.state (K.shown keeper.old) }
    requires prepared { IsPrepared state.old.state state.old.staged prepared.batch }
    ensures landed { OnOk result (HasLanded state.old.state (K.shown keeper.old) state.old.staged state.new.state (K.shown keeper.new)) }
    ensures state { IsErrOf result CommitFault.NoMemory → state.new.state ≡ state.old.state }
    ensures keeper { IsErrOf result CommitFault.NoMemory → K.shown keeper.new ≡ K.shown keeper.old }
    ensures fault { IsErrOf result CommitFault.KeeperFault → HasFailed state.old.state (K.shown keeper.old) state.old.staged state.new.state (K.shown keeper.new) }
    ensures staged { state.new.staged ≡ [] }
{
    let Prepared { batch } = prepared;
    match keeper.commit(batch) {
        Ok(()) => {
            state.apply();
            Ok(())
        }
        Err(fault) => {
            state.discard();
            Err(CommitFault::from(fault))
        }
    }
}

/// Makes writes, and marks the keys that they touch, but for one that wants nothing afterwards. All the memory that it takes is there before the keeper is asked.
pub fn write_marked<K: Keeper>(
    keeper: &mut K,
    state: &mut IndexedState,
    workers: &mut Workers,
    writes: Vec<Change>,
    own: Option<&Key>,
) -> Result<(), CommitFault>
    requires valid { IsValid state.old.state }
    requires held { Holds state.old.state (K.shown keeper.old) }
    requires none { state.old.staged ≡ [] }
    requires may { MayWriteAll state.old.state writes.items }
    requires some { writes.items ≢ [] }
    requires scope { IsScopeOf (forest_of state.old.state) workers.old.scope }
    requires ranks { IsRanked (forest_of state.old.state) workers.old.ranks }
    ensures landed { OnOk result (HasLanded state.old.state (K.shown keeper.old) writes.items state.new.state (K.shown keeper.new)) }
    ensures marked { OnOk result (HasMarkedBut state.old.state writes.items (option_copied own.entry) workers.old.seen workers.new.seen) }
    ensures seen { OnErr result (workers.new.seen ≡ workers.old.seen) }
    ensures state { IsErrOf result CommitFault.NoMemory → state.new.state ≡ state.old.state }
    ensures keeper { IsErrOf result CommitFault.NoMemory → K.shown keeper.new ≡ K.shown keeper.old }
    ensures fault { IsErrOf result CommitFault.KeeperFault → HasFailed state.old.state (K.shown keeper.old) writes.items state.new.state (K.shown keeper.new) }
    ensures staged { state.new.staged ≡ [] }
    ensures scope { IsScopeOf (forest_of state.new.state) workers.new.scope }
    ensures ranks { IsRanked (forest_of state.new.state) workers.new.ranks }
{
    match marks_of(state, workers, writes.as_slice(), own) {
        Ok(marks) => write_marks(keeper, state, workers, writes, marks),
        Err(NoMemory) => {
            drop(writes);
            Err(CommitFault::NoMemory)
        }
    }
}

/// Makes writes, and marks keys. There is room for them.
fn write_marks<K: Keeper>(
    keeper: &mut K,
    state: &mut IndexedState,
    workers: &mut Workers,
    writes: Vec<Change>,
    marks: Marks,
) -> Result<(), CommitFault>
    requires valid { IsValid state.old.state }
    requires held { Holds state.old.state (K.shown keeper.old) }
    requires none { state.old.staged ≡ [] }
    requires may { MayWriteAll state.old.state writes.items }
    requires some { writes.items ≢ [] }
    requires room { length marks.keys.items ≤ workers.old.spare }
    requires spread { MayMark marks.spread workers.old }
    ensures landed { OnOk result (HasLanded state.old.state (K.shown keeper.old) writes.items state.new.state (K.shown keeper.new)) }
    ensures marked { OnOk result (IsMarkedBy (marks.keys.items ++ whole_keys marks.spread workers.old.scope) workers.old.seen workers.new.seen) }
    ensures seen { OnErr result (workers.new.seen ≡ workers.old.seen) }
    ensures scope { workers.new.scope ≡ workers.old.scope }
    ensures ranks { workers.new.ranks ≡ workers.old.ranks }
    ensures state { IsErrOf result CommitFault.NoMemory → state.new.state ≡ state.old.state }
    ensures keeper { IsErrOf result CommitFault.NoMemory → K.shown keeper.new ≡ K.shown keeper.old }
    ensures fault { IsErrOf result CommitFault.KeeperFault → HasFailed state.old.state (K.shown keeper.old) writes.items state.new.state (K.shown keeper.new) }
    ensures staged { state.new.staged ≡ [] }
{
    match write_all(keeper, state, writes) {
        Ok(()) => {
            mark(workers, marks);
            Ok(())
        }
        Err(fault) => {
            drop(marks);
            Err(fault)
        }
    }
}

/// Prepares writes, and commits them.
fn write_all<K: Keeper>(
    keeper: &mut K,
    state: &mut IndexedState,
    writes: Vec<Change>,
) -> Result<(), CommitFault>
    requires valid { IsValid state.old.state }
    requires held { Holds state.old.state (K.shown keeper.old) }
    requires none { state.old.staged ≡ [] }
    requires may { MayWriteAll state.old.state writes.items }
    requires some { writes.items ≢ [] }
    ensures landed { OnOk result (HasLanded state.old.state (K.shown keeper.old) writes.items state.new.state (K.shown keeper.new)) }
    ensures state { IsErrOf result CommitFault.NoMemory → state.new.state ≡ state.old.state }
    ensures keeper { IsErrOf result CommitFault.NoMemory → K.shown keeper.new ≡ K.shown keeper.old }
    ensures fault { IsErrOf result CommitFault.KeeperFault → HasFailed state.old.state (K.shown keeper.old) writes.items state.new.state (K.shown keeper.new) }
    ensures staged { state.new.staged ≡ [] }
{
    let Ok(prepared) = prepare(state, writes) else {
        return Err(CommitFault::NoMemory);
    };
    commit(keeper, state, prepared)
}
