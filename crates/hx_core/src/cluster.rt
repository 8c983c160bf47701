// The cluster.
ghost use Rattle.std.specs.Prelude.{◌≡◌, ◌≢◌, [], ◌∷◌, None, Some, IfOk, IfErr, IfSome, IsSome, OnOk, OnErr, IsErrOf, option_copied};
ghost use Rattle.hx_ports.specs.Causes.{Rose};
ghost use Rattle.hx_model.specs.Answers.{Mutates};
ghost use Rattle.hx_model.specs.Covered.{IsCovered};
ghost use Rattle.hx_model.specs.Keys.{is_among};
ghost use Rattle.hx_model.specs.Machine.{opening_world, wants};
ghost use Rattle.hx_model.specs.Requests.{request_entry};
ghost use Rattle.hx_model.specs.Serving.{IsServedAsk, IsLegalAnswer};
ghost use Rattle.hx_model.specs.Settled.{IsSettled};
ghost use Rattle.hx_model.specs.State.{State, restarted, state_after};
ghost use Rattle.hx_model.specs.Tree.{forest_of};
ghost use Rattle.hx_model.specs.Valid.{IsValid};
ghost use Rattle.hx_model.specs.Wanted.{wanted_write};
ghost use Rattle.hx_model.specs.Windows.{opened};
ghost use Rattle.hx_model.specs.Writes.{MayWriteAll};
ghost use Rattle.hx_model.specs.declared.key.Key.{Key as key_of};
ghost use Rattle.hx_line.specs.Line.{IsRanked};
ghost use Rattle.hx_queue.specs.Workers.{AreApart};
ghost use Rattle.hx_core.specs.Committing.{HasLanded, HasFailed, HasMarked, IsOrderly};
ghost use Rattle.hx_core.specs.Loading.{Asked};
ghost use Rattle.hx_core.specs.Queued.{writes_in};
ghost use Rattle.hx_core.specs.Reaching.{IsScopeOf};
ghost use Rattle.hx_core.specs.Refinement.{Represents, HasWorld, Simulates, kept_of};
ghost use Rattle.hx_core.specs.Starting.{IsDamagedAt, IsDamageOf, key_at, IfDamage, IfDamaged, IfWhole, IsUndamaged, IsUntouched, Tells};

use crate::commit::{CommitFault, write_marked};
use crate::start::{StartFault, load_state};
use hx_admit::{Reviewed, review};
use hx_briefs::mark_wanting;
use hx_model::{Answer, Ask, Key, Refusal, RunConfig};
use hx_object::{List, NoMemory};
use hx_ports::Keeper;
use hx_queue::Workers;
use hx_state::IndexedState;
use hx_store::Change;
use std::alloc::Global;
use std::hash::RandomState;
use std::marker::Model;

/// Objects in memory over a keeper of their rows, and workers that keep them as their hierarchy prescribes.
///
/// Requests and starts are here, what workers take and drop in working.rt, how a turn ends in finish.rt, and runs of turns in settle.rt.
///
/// The keeper holds the rows of the cluster's state until a commit fails. From then on every write is refused, and reads go on.
pub struct Cluster<K: Keeper> {
    pub(crate) keeper: K,
    pub(crate) state: IndexedState,
    pub(crate) workers: Workers,
}

impl<K: Keeper> Model for Cluster<K> {
    ghost use Rattle.hx_core.specs.Refinement.{ClusterView, cluster_view_code};
    ghost use Rattle.hx_core.specs.Inside.{IsInside, view_of};

    ghost Value = { ClusterView };

    ghost coded = { cluster_view_code };

    ghost view = { λ c. view_of c.state.state c.workers.seen (K.shown c.keeper) };

    ghost invariant = { λ c. IsInside c.state.state c.workers.seen c.workers.scope c.workers.ranks (K.shown c.keeper) c.state.staged };
}

/// A keeper that no cluster was started on.
pub struct Unstarted<K> {
    pub fault: StartFault,
    /// The key of the damaged row, where it is there. It need not be UTF-8.
    pub damaged_key: Option<List<u8>>,
    pub keeper: K,
}

impl<K: Keeper> Cluster<K> {
    /// Starts on a keeper that has its place, in the state whose rows the keeper has, under a configuration that is fixed for the run. What is looked up by texts is hashed with the keys, on which nothing else depends.
    ///
    /// All rows are read, one behind the other.
    pub fn start(
        alloc: Global,
        mut keeper: K,
        config: RunConfig,
        keys: RandomState,
    ) -> Result<Cluster<K>, Unstarted<K>>
        requires { IsSome (K.shown keeper).place }
        ensures opens { IfOk result (λ c. Represents c (opening_world c.keeper.broken c.state)) }
        ensures config { IfOk result (λ c. c.state.config ≡ config) }
        ensures window { IfOk result (λ c. c.state.window ≡ opened c.state.last) }
        ensures valid { IfOk result (λ c. IsValid c.state) }
        ensures holds { IfOk result (λ c. IfSome c.keeper.kept (λ held. held ≡ kept_of c.state)) }
        ensures keeper { IfOk result (λ c. c.keeper ≡ K.shown keeper) }
        ensures undamaged { IfOk result (λ c. IfSome c.keeper.kept IsUndamaged) }
        ensures hands { IfOk result (λ c. c.workers.hands ≡ []) }

        // Exactly the keys that want a write wait.
        ensures waits { IfOk result (λ c. (k : key_of) → is_among k c.workers.waiting ≡ wants c.state k) }

        // The rows of a valid state are those of no other, and they are never damaged. No event is told of them.
        ensures reopens { IfOk result (λ c. (s : State) → IsValid s → (K.shown keeper).kept ≡ Some (kept_of s) → c.state ≡ restarted config s) }
        ensures intact { IfErr result (λ u. IfDamaged u.fault (λ row. (s : State) → IsValid s → (K.shown keeper).kept ≡ Some (kept_of s) → ⊥)) }

        ensures unstarted { IfErr result (λ u. IsUntouched (K.shown keeper) (K.shown u.keeper)) }
        ensures failed { IfErr result (λ u. u.fault ≡ StartFault.KeeperFault → Rose (K.shown keeper).faults (K.shown u.keeper).faults) }
        ensures still { IfErr result (λ u. u.fault ≢ StartFault.KeeperFault → K.shown u.keeper ≡ K.shown keeper) }
        ensures damaged { IfErr result (λ u. IfDamaged u.fault (λ row. IfSome (K.shown keeper).kept (λ held. IsDamagedAt held row))) }
        ensures damage { IfErr result (λ u. IfDamage u.fault (λ row damage. IfSome (K.shown keeper).kept (λ held. IsDamageOf held row damage))) }
        ensures key { IfErr result (λ u. IfDamaged u.fault (λ row. IfSome (K.shown keeper).kept (λ held. u.damaged_key ≡ key_at held row))) }
        ensures keyless { IfErr result (λ u. IfWhole u.fault (u.damaged_key ≡ None)) }
    {
        let mut damaged_key = None;
        match load_work(alloc, &mut keeper, config, keys, &mut damaged_key) {
            Ok((state, workers)) => Ok(Cluster {
                keeper,
                state,
                workers,
            }),
            Err(fault) => Err(Unstarted {
                fault,
                damaged_key,
                keeper,
            }),
        }
    }

    /// Answers one ask. All that a write needs is made before the keeper is asked.
    pub fn request(&mut self, ask: Ask) -> Answer
        requires { IsServedAsk ask }
        ensures simulates { Simulates self.old (request_entry ask result ∷ []) self.new }
        ensures legal { IsLegalAnswer result }
        ensures idle { (Mutates self.old.state ask → ⊥) → self.new ≡ self.old }
        ensures marked { HasMarked self.old.state (writes_in self.old.state (request_entry ask result)) self.old.workers self.new.workers }
    {
        match review(&self.state, ask) {
            Err(refusal) => Answer::Refused(refusal),
            Ok(Reviewed { writes, answer }) => {
                if writes.is_empty() {
                    drop(writes);
                    return answer;
                }
                match self.write(writes, None) {
                    Ok(()) => answer,
                    Err(fault) => {
                        drop(answer);
                        Answer::Refused(lost(fault))
                    }
                }
            }
        }
    }

    /// What is fixed for the run.
    pub fn config(&self) -> &RunConfig
        ensures { result.now ≡ self.now.state.config }
    {
        self.state.config()
    }

    /// Ends the cluster, and gives its keeper back, with its watchers.
    pub fn close(self) -> K
        ensures keeper { K.shown result ≡ self.keeper }
        ensures valid { IsValid self.state }
    {
        let Cluster {
            keeper,
            state,
            workers,
        } = self;
        drop(state);
        drop(workers);
        keeper
    }

    /// A theorem, not to be called for what it does: there is a world that the cluster stands for, and its state is valid. No work is forgotten: where no key waits and none is held, the state is settled. No key is there twice, and no worker.
    pub fn law_of_worlds(&self)
        ensures world { HasWorld self.now }
        ensures valid { IsValid self.now.state }
        ensures covered { IsCovered self.now.state self.now.workers.hands self.now.workers.waiting self.now.workers.again }
        ensures settled { self.now.workers.waiting ≡ [] → self.now.workers.hands ≡ [] → IsSettled self.now.state }
        ensures apart { AreApart self.now.workers }
    {
        let _ = &self.keeper;
        self.workers.law_apart();
    }

    /// Makes writes, and marks the keys that they touch, but for one that wants nothing afterwards.
    pub(crate) fn write(
        &mut self,
        writes: Vec<Change>,
        own: Option<&Key>,
    ) -> Result<(), CommitFault>
        requires may { MayWriteAll self.old.state writes.items }
        requires orderly { IsOrderly self.old.state writes.items }
        requires some { writes.items ≢ [] }
        requires own { IfSome (option_copied own) (λ k. wanted_write (state_after self.old.state writes.items) k ≡ None) }
        ensures landed { OnOk result (HasLanded self.old.state self.old.keeper writes.items self.new.state self.new.keeper) }
        ensures marked { OnOk result (HasMarked self.old.state writes.items self.old.workers self.new.workers) }
        ensures memory { IsErrOf result CommitFault.NoMemory → self.new ≡ self.old }
        ensures fault { IsErrOf result CommitFault.KeeperFault → HasFailed self.old.state self.old.keeper writes.items self.new.state self.new.keeper }
        ensures workers { OnErr result (self.new.workers ≡ self.old.workers) }
    {
        write_marked(
            &mut self.keeper,
            &mut self.state,
            &mut self.workers,
            writes,
            own,
        )
    }
}

/// The state of the rows that a keeper has, and the work that it wants.
fn load_work<K: Keeper>(
    alloc: Global,
    keeper: &mut K,
    config: RunConfig,
    keys: RandomState,
    damaged_key: &mut Option<List<u8>>,
) -> Result<(IndexedState, Workers), StartFault>
    requires { damaged_key.old ≡ None }
    ensures config { IfOk result (λ p. p.0.state.config ≡ config) }
    ensures window { IfOk result (λ p. p.0.state.window ≡ opened p.0.state.last) }
    ensures staged { IfOk result (λ p. p.0.staged ≡ []) }
    ensures valid { IfOk result (λ p. IsValid p.0.state) }
    ensures holds { IfOk result (λ p. IfSome (K.shown keeper.old).kept (λ held. held ≡ kept_of p.0.state)) }
    ensures undamaged { IfOk result (λ p. IfSome (K.shown keeper.old).kept IsUndamaged) }
    ensures damaged { IfErr result (λ fault. IfDamage fault (λ row damage. IfSome (K.shown keeper.old).kept (λ held. Tells held row damage damaged_key.new))) }
    ensures keyless { IfErr result (λ fault. IfWhole fault (damaged_key.new ≡ None)) }
    ensures asked { Asked (K.shown keeper.old) (K.shown keeper.new) result }
    ensures waiting { IfOk result (λ p. (k : key_of) → is_among k p.1.seen.waiting ≡ wants p.0.state k) }
    ensures hands { IfOk result (λ p. p.1.seen.hands ≡ []) }
    ensures again { IfOk result (λ p. p.1.seen.again ≡ []) }
    ensures scope { IfOk result (λ p. IsScopeOf (forest_of p.0.state) p.1.scope) }
    ensures ranks { IfOk result (λ p. IsRanked (forest_of p.0.state) p.1.ranks) }
{
    let state = load_state(alloc, keeper, config, keys, damaged_key)?;
    let mut workers = Workers::new(alloc, keys);
    match mark_wanting(&state, &mut workers) {
        Ok(()) => Ok((state, workers)),
        Err(NoMemory) => {
            drop(workers);
            drop(state);
            Err(StartFault::NoMemory)
        }
    }
}

/// The refusal of a request whose writes were lost.
fn lost(fault: CommitFault) -> Refusal
    ensures keeper { fault ≡ CommitFault.KeeperFault → result ≡ Refusal.StoreFailed }
    ensures memory { fault ≡ CommitFault.NoMemory → result ≡ Refusal.NoMemory }
{
    match fault {
        CommitFault::KeeperFault => Refusal::StoreFailed,
        CommitFault::NoMemory => Refusal::NoMemory,
    }
}
