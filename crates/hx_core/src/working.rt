// What workers take and drop.
ghost use Rattle.std.specs.Prelude.{◌≡◌, ◌≤◌, ℕ, [], ◌∷◌, true, false, None, Some, IfOk, IfSome, IfNone, IsSome, OnOk, length, option_map};
ghost use Rattle.hx_model.specs.Keys.{is_among};
ghost use Rattle.hx_model.specs.Hands.{hand_of, is_held};
ghost use Rattle.hx_model.specs.Machine.{Checked, Dropped, Finished};
ghost use Rattle.hx_model.specs.Tree.{forest_of};
ghost use Rattle.hx_reconcile.specs.Briefs.{IsShort, StandsFor, hand_by, planned_by};
ghost use Rattle.hx_core.specs.Queued.{GivesFirst, IsEnding, IsReleased, IsTaking};
ghost use Rattle.hx_core.specs.Refinement.{Simulates};
ghost use Rattle.hx_core.specs.Turns.{IsInHand, IsOfKey, take_entry, take_key_entry};
ghost use Rattle.hx_core.specs.Working.{IsDone, IsFinish, IsGiven, IsGivenBy, IsKept, IsNext, IsTake, IsTakeOf};
ghost use Rattle.hx_line.specs.Line.{KeepsRanks};
ghost use Rattle.hx_queue.specs.Spread.{is_spread};

use crate::briefs::job_of;
use crate::cluster::Cluster;
use crate::objects::all_objects;
use crate::turns::Take;
use hx_model::{Finish, Key};
use hx_object::{NoMemory, Shared};
use hx_ports::Keeper;
use hx_queue::Workers;
use hx_reconcile::{Plan, SharedBrief, plan};
use hx_state::IndexedState;
use std::alloc::Global;

impl<K: Keeper> Cluster<K> {
    /// Gives a worker the first of the keys that wait, by rank, by the depth of a copy's namespace, and by the order of keys, with what its plan is made from.
    pub fn take(&mut self, worker: u32) -> Take
        ensures simulates { Simulates self.old (take_entry worker result ∷ []) self.new }
        ensures hand { IsInHand self.new.workers.hands worker result }
        ensures idle { result ≡ Take.Idle → (self.old.workers.waiting ≡ []) × (hand_of worker self.old.workers.hands ≡ None) }
        ensures unnamed { (holder : ℕ) → result ≡ Take.Other holder → ⊥ }
        ensures leaves { IsTaking worker self.old result self.new }
        ensures first { GivesFirst (forest_of self.old.state) self.old.workers.waiting result }
    {
        match self.workers.hand(worker) {
            Some(brief) => already(brief),
            None => self.take_free(worker),
        }
    }

    /// Gives a worker the named key, whether it waits or not.
    pub fn take_key(&mut self, worker: u32, key: Key) -> Take
        ensures simulates { Simulates self.old (take_key_entry worker key result ∷ []) self.new }
        ensures hand { IsInHand self.new.workers.hands worker result }
        ensures key { IsOfKey key result }
        ensures busy { result ≡ Take.Idle → ⊥ }
        ensures leaves { IsTaking worker self.old result self.new }
    {
        match self.workers.hand(worker) {
            Some(brief) => {
                drop(key);
                already(brief)
            }
            None => self.take_unheld(worker, key),
        }
    }

    /// What a worker holds.
    pub fn hand(&self, worker: u32) -> Option<&SharedBrief>
        ensures some { IfSome result (λ brief. hand_of worker self.now.workers.hands ≡ Some (hand_by worker brief.now)) }
        ensures none { IfNone result (hand_of worker self.now.workers.hands ≡ None) }
    {
        self.workers.hand(worker)
    }

    /// Plans what a worker holds, and finishes it. Where no memory is left for the plan, the worker drops it.
    pub fn complete(&mut self, worker: u32) -> Finish
        ensures simulates { Simulates self.old (Finished worker result ∷ []) self.new }
        ensures leaves { IsEnding worker self.old result self.new }
        ensures empty { hand_of worker self.new.workers.hands ≡ None }
    {
        match self.workers.hand(worker) {
            None => Finish::Empty,
            Some(brief) => match plan_of(self.state.allocator(), brief) {
                Ok(plan) => self.finish(worker, plan),
                Err(NoMemory) => self.forsake(worker),
            },
        }
    }

    /// A worker drops what it holds for want of memory.
    fn forsake(&mut self, worker: u32) -> Finish
        requires { IsSome (hand_of worker self.old.workers.hands) }
        ensures { IsFinish worker self.old result self.new }
    {
        self.workers.law_apart();
        drop(self.let_go(worker, true));
        Finish::NoMemory
    }

    /// A worker drops what it holds, whose key waits again. It takes no memory.
    pub fn drop_hand(&mut self, worker: u32) -> Option<SharedBrief>
        ensures simulates { Simulates self.old (Dropped worker (option_map (λ brief. brief.key) result) ∷ []) self.new }
        ensures leaves { IsReleased worker true self.old self.new }
        ensures empty { hand_of worker self.new.workers.hands ≡ None }
    {
        self.workers.law_apart();
        let dropped = self.let_go(worker, true);
        dropped
    }

    /// How many keys wait, and how many are held. It takes no memory.
    pub fn busy(&self) -> (u64, u64)
        ensures simulates { Simulates self.now (Checked result.0 result.1 ∷ []) self.now }
        ensures waiting { result.0 ≡ length self.now.workers.waiting }
        ensures held { result.1 ≡ length self.now.workers.hands }
    {
        self.workers.law_apart();
        (self.workers.waiting() as u64, self.workers.held() as u64)
    }

    /// All objects, in order.
    pub fn rows(&self) -> Result<Vec<Shared>, NoMemory>
        ensures { IfOk result (λ objects. objects.items ≡ self.now.state.objects) }
    {
        all_objects(self.state.store())
    }

    /// A worker that holds nothing takes the next key that waits.
    fn take_free(&mut self, worker: u32) -> Take
        requires { hand_of worker self.old.workers.hands ≡ None }
        ensures { IsTake worker self.old result self.new }
    {
        self.law_of_worlds();
        match self.next() {
            Err(NoMemory) => Take::NoMemory,
            Ok(None) => {
                self.workers.law_apart();
                Take::Idle
            }
            Ok(Some(key)) => self.give(worker, key),
        }
    }

    /// The first of the keys that wait, once more.
    pub(crate) fn next(&mut self) -> Result<Option<Key>, NoMemory>
        ensures same { self.new ≡ self.old }
        ensures some { IfOk result (λ o. IfSome o (IsNext (forest_of self.old.state) self.old.workers)) }
        ensures none { IfOk result (λ o. IfNone o (self.old.workers.waiting ≡ [])) }
    {
        self.workers.law_apart();
        self.workers.next(self.state.forest())
    }

    /// A worker that holds nothing takes a key that is named.
    fn take_unheld(&mut self, worker: u32, key: Key) -> Take
        requires { hand_of worker self.old.workers.hands ≡ None }
        ensures { IsTakeOf worker key self.old result self.new }
    {
        match self.workers.holder(&key) {
            Some(holder) => {
                drop(key);
                Take::Other(holder)
            }
            None => {
                self.law_of_again(&key);
                self.give(worker, key)
            }
        }
    }

    /// Gives a key that nobody holds to a worker that holds nothing.
    pub(crate) fn give(&mut self, worker: u32, key: Key) -> Take
        requires empty { hand_of worker self.old.workers.hands ≡ None }
        requires free { is_held key self.old.workers.hands ≡ false }
        ensures { IsGiven worker key self.old result self.new }
    {
        self.workers.law_apart();
        make_ready(&mut self.state, &key);
        give_to(&self.state, &mut self.workers, worker, key)
    }

    /// A theorem, not to be called for what it does: a key that nobody holds isn't marked again.
    fn law_of_again(&self, key: &Key)
        requires { is_held key.now self.now.workers.hands ≡ false }
        ensures { is_among key.now self.now.workers.again ≡ false }
    {
        self.workers.law_apart();
    }

    /// A worker lets go what it holds: its key waits then, or needs no turn more.
    pub(crate) fn let_go(&mut self, worker: u32, waits: bool) -> Option<SharedBrief>
        requires { waits ≡ false → IfSome (hand_of worker self.old.workers.hands) (IsDone self.old.state) }
        ensures released { IsReleased worker waits self.old self.new }
        ensures some { IfSome result (λ brief. hand_of worker self.old.workers.hands ≡ Some (hand_by worker brief)) }
        ensures none { IfNone result (hand_of worker self.old.workers.hands ≡ None) }
        ensures empty { hand_of worker self.new.workers.hands ≡ None }
    {
        self.workers.let_go(worker, waits)
    }
}

/// What a worker is answered that holds a brief already.
fn already(brief: &SharedBrief) -> Take
    ensures { IsKept brief.now result }
{
    match brief.share() {
        Ok(shared) => Take::Already(shared),
        Err(NoMemory) => Take::NoMemory,
    }
}

/// The plan of a brief, which stays with its owner.
fn plan_of(alloc: Global, brief: &SharedBrief) -> Result<Plan, NoMemory>
    ensures { IfOk result (λ planned. planned.brief ≡ brief.now) }
{
    match plan(alloc, brief.share()?) {
        Ok(planned) => Ok(planned),
        Err(same) => {
            drop(same);
            Err(NoMemory)
        }
    }
}

/// The same key once more.
pub fn copy_of(key: &Key) -> Result<Key, NoMemory>
    ensures { IfOk result (λ copy. copy ≡ key.now) }
{
    Ok(key.clone()?)
}

/// Makes ready for a key that is taken: what lies in a namespace on its way out goes in order.
fn make_ready(state: &mut IndexedState, key: &Key)
    ensures state { state.new.state ≡ state.old.state }
    ensures staged { state.new.staged ≡ state.old.staged }
{
    match key {
        Key::Purge { ns } => state.sort(ns),
        _ => {}
    }
}

/// Gives a key to a worker.
fn give_to(state: &IndexedState, workers: &mut Workers, worker: u32, key: Key) -> Take
    requires empty { hand_of worker workers.old.seen.hands ≡ None }
    requires free { is_held key workers.old.seen.hands ≡ false }
    ensures given { IsGivenBy worker key state.now.state workers.old.seen result workers.new.seen }
    ensures scope { workers.new.scope ≡ workers.old.scope }
    ensures ranks { KeepsRanks workers.old.ranks workers.new.ranks }
{
    match ready_job(state, workers, &key) {
        Ok((brief, shared)) => {
            workers.take(worker, key, brief);
            Take::Job(shared)
        }
        Err(NoMemory) => {
            drop(key);
            Take::NoMemory
        }
    }
}

/// The brief of a key with two owners, and room for it in a worker's hand.
fn ready_job(
    state: &IndexedState,
    workers: &mut Workers,
    key: &Key,
) -> Result<(SharedBrief, SharedBrief), NoMemory>
    ensures key { IfOk result (λ p. p.0.key ≡ key.now) }
    ensures stands { IfOk result (λ p. StandsFor p.0 state.now.state) }
    ensures short { IfOk result (λ p. IsShort p.0.facts (planned_by p.0)) }
    ensures same { IfOk result (λ p. p.1 ≡ p.0) }
    ensures seen { workers.new.seen ≡ workers.old.seen }
    ensures room { OnOk result (1 ≤ workers.new.spare) }
    ensures apart { OnOk result (is_spread workers.new.spread key.now ≡ false) }
    ensures scope { workers.new.scope ≡ workers.old.scope }
    ensures ranks { workers.new.ranks ≡ workers.old.ranks }
{
    workers.line_up(key)?;
    workers.reserve(1)?;
    job_of(state, key)
}
