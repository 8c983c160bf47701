// How a worker's turn ends.
ghost use Rattle.std.specs.Prelude.{◌≡◌, ◌<◌, ◌&&◌, ◌∷◌, [], false, true, None, Some, IfOk, IfSome, is_some, nat_le, option_copied, option_map};
ghost use Rattle.hx_model.specs.Limits.{greatest_version};
ghost use Rattle.hx_model.specs.State.{object_at};
ghost use Rattle.hx_model.specs.Writes.{id_written};
ghost use Rattle.hx_model.specs.Hands.{are_met, hand_of, is_met, keeps_sources, may_write, versioned};
ghost use Rattle.hx_model.specs.Machine.{Finished};
ghost use Rattle.hx_model.specs.Propagation.{source_at};
ghost use Rattle.hx_model.specs.Valid.{IsValid};
ghost use Rattle.hx_reconcile.specs.Briefs.{hand_by, planned_by};
ghost use Rattle.hx_core.specs.Queued.{IsEnding};
ghost use Rattle.hx_core.specs.Refinement.{Simulates};
ghost use Rattle.hx_core.specs.Turns.{IsPlanOf};
ghost use Rattle.hx_core.specs.Working.{IsFinish, IsTried, is_removal, is_written};

use crate::cluster::Cluster;
use crate::commit::CommitFault;
use crate::wanted::is_wanted;
use hx_model::{Finish, Guard, Key, Write, is_source};
use hx_object::{Id, NoMemory, Object, Shared};
use hx_ports::Keeper;
use hx_reconcile::{Brief, Plan};
use hx_state::{GREATEST_VERSION, IndexedState};
use hx_store::Change;
use std::alloc::Global;

impl<K: Keeper> Cluster<K> {
    /// Ends the turn of a worker by its plan: writes what is wanted, if what it rests on is as it was.
    pub fn finish(&mut self, worker: u32, plan: Plan) -> Finish
        requires { IsPlanOf self.old.workers.hands worker plan }
        ensures simulates { Simulates self.old (Finished worker result ∷ []) self.new }
        ensures leaves { IsEnding worker self.old result self.new }
        ensures empty { hand_of worker self.new.workers.hands ≡ None }
    {
        let (brief, write) = plan.into_parts();
        let end = self.end(worker, brief.brief(), write);
        drop(brief);
        end
    }

    /// Ends the turn of a worker that was given this brief, which asks for this write.
    fn end(&mut self, worker: u32, brief: &Brief, write: Option<Write>) -> Finish
        requires hand { IfSome (hand_of worker self.old.workers.hands) (λ hand. hand ≡ hand_by worker brief.now) }
        requires planned { write ≡ planned_by brief.now }
        ensures { IsFinish worker self.old result self.new }
    {
        match self.workers.hand(worker) {
            None => {
                drop(write);
                Finish::Empty
            }
            Some(_) => self.end_held(worker, brief, write),
        }
    }

    /// The same of a worker that holds its brief.
    fn end_held(&mut self, worker: u32, brief: &Brief, write: Option<Write>) -> Finish
        requires hand { hand_of worker self.old.workers.hands ≡ Some (hand_by worker brief.now) }
        requires planned { write ≡ planned_by brief.now }
        ensures { IsFinish worker self.old result self.new }
    {
        match write {
            None => self.end_idle(worker, brief),
            Some(write) => self.end_tried(worker, brief, write),
        }
    }

    /// The same where nothing is asked for.
    fn end_idle(&mut self, worker: u32, brief: &Brief) -> Finish
        requires hand { hand_of worker self.old.workers.hands ≡ Some (hand_by worker brief.now) }
        requires planned { planned_by brief.now ≡ None }
        ensures { IsFinish worker self.old result self.new }
    {
        self.workers.law_apart();
        drop(self.let_go(worker, false));
        Finish::Nothing
    }

    /// The same where a write is.
    fn end_tried(&mut self, worker: u32, brief: &Brief, write: Write) -> Finish
        requires hand { hand_of worker self.old.workers.hands ≡ Some (hand_by worker brief.now) }
        requires planned { Some write ≡ planned_by brief.now }
        ensures { IsFinish worker self.old result self.new }
    {
        self.workers.law_apart();
        let end = self.attempt(worker, brief, write);
        drop(self.let_go(worker, !is_written(end)));
        end
    }

    /// Makes the write of a worker's hand, if what it rests on is as it was.
    fn attempt(&mut self, worker: u32, brief: &Brief, write: Write) -> Finish
        requires hand { hand_of worker self.old.workers.hands ≡ Some (hand_by worker brief.now) }
        requires planned { Some write ≡ planned_by brief.now }
        ensures { IsTried (hand_by worker brief.now) write self.old result self.new }
    {
        match may_write(&self.state, brief, &write) {
            Ok(may) => self.decide(worker, brief, write, may),
            Err(NoMemory) => {
                drop(write);
                Finish::NoMemory
            }
        }
    }

    /// Makes a write that may be made, where a version is left.
    fn decide(&mut self, worker: u32, brief: &Brief, write: Write, may: bool) -> Finish
        requires hand { hand_of worker self.old.workers.hands ≡ Some (hand_by worker brief.now) }
        requires planned { Some write ≡ planned_by brief.now }
        requires may { may ≡ (are_met self.old.state brief.now.guards && keeps_sources self.old.state brief.now.key write) }
        ensures { IsTried (hand_by worker brief.now) write self.old result self.new }
    {
        let now = self.state.version();
        if !may {
            drop(write);
            return Finish::Conflict {
                seen: brief.seen,
                now,
            };
        }
        if is_spent(now) {
            drop(write);
            return Finish::Spent;
        }
        self.make(worker, brief, write)
    }

    /// Makes a write that may be made.
    fn make(&mut self, worker: u32, brief: &Brief, write: Write) -> Finish
        requires hand { hand_of worker self.old.workers.hands ≡ Some (hand_by worker brief.now) }
        requires planned { Some write ≡ planned_by brief.now }
        requires may { may_write self.old.state (hand_by worker brief.now) write ≡ true }
        requires fits { self.old.state.last < greatest_version }
        ensures { IsTried (hand_by worker brief.now) write self.old result self.new }
    {
        let last = self.state.version();
        let version = last + 1;
        match changes_of(self.state.allocator(), write, version) {
            Err(NoMemory) => Finish::NoMemory,
            Ok(writes) => match self.write(writes, own_of(brief, last)) {
                Ok(()) => Finish::Written(version),
                Err(fault) => lost_by(fault),
            },
        }
    }
}

/// How a turn ends whose write was lost.
fn lost_by(fault: CommitFault) -> Finish
    ensures keeper { fault ≡ CommitFault.KeeperFault → result ≡ Finish.Fault }
    ensures memory { fault ≡ CommitFault.NoMemory → result ≡ Finish.NoMemory }
{
    match fault {
        CommitFault::KeeperFault => Finish::Fault,
        CommitFault::NoMemory => Finish::NoMemory,
    }
}

/// Whether no version is left.
fn is_spent(last: u64) -> bool
    ensures { result ≡ nat_le greatest_version last }
{
    last >= GREATEST_VERSION
}

/// The key of a brief, where nothing was written since it was made: its write satisfies it. That of a removal may want the next one.
fn own_of(brief: &Brief, last: u64) -> Option<&Key>
    ensures { IfSome (option_copied result) (λ key. (key ≡ brief.now.key) × (brief.now.seen ≡ last) × (is_removal brief.now.key ≡ false)) }
{
    if brief.seen != last || is_removal(&brief.key) {
        return None;
    }
    Some(&brief.key)
}

/// Whether a key is of a removal.
fn is_removal(key: &Key) -> bool
    ensures { result ≡ is_removal key.now }
{
    matches!(key, Key::Purge { .. })
}

/// Whether a turn ended with its write.
fn is_written(end: Finish) -> bool
    ensures { result ≡ is_written end }
{
    matches!(end, Finish::Written(_))
}

/// A write with a version, as the changes of a commit.
fn changes_of(alloc: Global, write: Write, version: u64) -> Result<Vec<Change>, NoMemory>
    ensures { IfOk result (λ writes. writes.items ≡ versioned version write ∷ []) }
{
    let change = change_of(alloc, write, version)?;
    Ok(vec![in alloc; change]?)
}

fn change_of(alloc: Global, write: Write, version: u64) -> Result<Change, NoMemory>
    ensures { IfOk result (λ change. change ≡ versioned version write) }
{
    match write {
        Write::Put(object) => put_of(alloc, object, version),
        Write::Cut(id) => Ok(Change::cut(id)),
    }
}

fn put_of(alloc: Global, mut object: Object, version: u64) -> Result<Change, NoMemory>
    ensures { IfOk result (λ change. change ≡ versioned version (Write.Put object)) }
{
    object.version = version;
    Change::put(Shared::new(alloc, object)?)
}

/// Whether the write of a brief may be made: what it rests on is as it was, and where it would overwrite a source it is still wanted.
fn may_write(state: &IndexedState, brief: &Brief, write: &Write) -> Result<bool, NoMemory>
    requires { IsValid state.now.state }
    ensures { IfOk result (λ may. may ≡ (are_met state.now.state brief.now.guards && keeps_sources state.now.state brief.now.key write.now)) }
{
    if !are_met(state, brief.guards.as_slice()) {
        return Ok(false);
    }
    keeps_sources(state, &brief.key, write)
}

/// Whether each guard is met.
fn are_met(state: &IndexedState, guards: &[Guard]) -> bool
    ensures { result ≡ are_met state.now.state guards.now }
{
    guards.iter().all(|guard| is_met(state, guard))
}

/// Whether an identity has the version of its guard, or isn't there where the guard has none.
fn is_met(state: &IndexedState, guard: &Guard) -> bool
    ensures { result ≡ is_met state.now.state guard.now }
{
    version_at(state, &guard.id) == guard.version
}

/// The version of an object.
fn version_at(state: &IndexedState, id: &Id) -> Option<u64>
    ensures { result ≡ option_map (λ x. x.version) (object_at state.now.state.objects id.now) }
{
    match state.store().get(id) {
        Some(object) => Some(object.object().version),
        None => None,
    }
}

/// Whether a write overwrites no source, or is the one that its key wants.
fn keeps_sources(state: &IndexedState, key: &Key, write: &Write) -> Result<bool, NoMemory>
    requires { IsValid state.now.state }
    ensures { IfOk result (λ keeps. keeps ≡ keeps_sources state.now.state key.now write.now) }
{
    if !is_source_at(state, id_of(write)) {
        return Ok(true);
    }
    is_wanted(state, key, write)
}

/// The identity that a write is of.
fn id_of(write: &Write) -> &Id
    ensures { result.now ≡ id_written write.now }
{
    match write {
        Write::Put(object) => &object.id,
        Write::Cut(id) => id,
    }
}

/// Whether a source has the identity.
fn is_source_at(state: &IndexedState, id: &Id) -> bool
    ensures { result ≡ is_some (source_at state.now.state.objects id.now) }
{
    match state.store().get(id) {
        Some(object) => is_source(object.object()),
        None => false,
    }
}
