// A state with its indexes.
ghost use Rattle.std.specs.Prelude.{◌≡◌, ◌≤◌, ℕ, List, [], IfOk, OnOk, OnErr, option_map};
ghost use Rattle.hx_model.specs.Forest.{node_of};
ghost use Rattle.hx_model.specs.Limits.{greatest_version};
ghost use Rattle.hx_model.specs.State.{events_of, namespace_id, object_at, opening_state, state_after};
ghost use Rattle.hx_model.specs.Subnamespaces.{owners_of};
ghost use Rattle.hx_model.specs.Tree.{forest_of, subnamespace_parent};
ghost use Rattle.hx_model.specs.Valid.{IsValid};
ghost use Rattle.hx_model.specs.Writes.{MayWriteAll};
ghost use Rattle.hx_model.specs.declared.node.Node.{Node as node};
ghost use Rattle.hx_state.specs.Counting.{counts_of};

use crate::event_log::EventLog;
use crate::limits::LimitCounts;
use hx_forest::Forest;
use hx_model::{Event, RunConfig};
use hx_object::{NoMemory, Text};
use hx_quota::Usage;
use hx_store::{Change, Store};
use hx_watch::Window;
use std::alloc::Global;
use std::hash::RandomState;
use std::marker::Model;

/// The objects of a state, with their trees, their running numbers and the window of the latest events.
///
/// Writes are staged first, which makes room for all that they change. They are made later without taking memory, or given up.
/// What is looked up is in lookups.rt, what writes change beside the objects in plan.rt, which names come and go in names.rt, what is told of writes in events.rt, and what is taken in at a start in load.rt.
pub struct IndexedState {
    pub(crate) store: Store,
    pub(crate) forest: Forest,
    /// All namespaces, each under the parent that its annotation names.
    pub(crate) owners: Forest,
    pub(crate) counts: LimitCounts,
    /// The numbers once the staged writes are made.
    pub(crate) next: LimitCounts,
    /// What the objects of subtrees are charged.
    pub(crate) usage: Usage,
    /// The latest events, and those of the staged writes.
    pub(crate) log: EventLog,
    pub(crate) config: RunConfig,
}

impl Drop for IndexedState {
    fn drop(self) {
        let IndexedState {
            store: _,
            forest: _,
            owners: _,
            counts: _,
            next: _,
            usage: _,
            log: _,
            config: _,
        } = self;
    }
}

impl Model for IndexedState {
    ghost use Rattle.hx_state.specs.StateView.{StateView, state_view_code, state_in, IsIndexed};

    ghost Value = { StateView };

    ghost coded = { state_view_code };

    ghost view = { λ s. record { state = state_in s.config s.store.objects s.store.version s.log.window; staged = s.store.staged } };

    ghost invariant = { λ s. IsIndexed s.config s.store s.counts s.next s.forest s.owners s.usage s.log };
}

impl IndexedState {
    /// A state without objects, whose maps hash with these keys. It takes the memory of the window.
    pub fn new(
        alloc: Global,
        version: u64,
        config: RunConfig,
        keys: RandomState,
    ) -> Result<IndexedState, NoMemory>
        requires { version ≤ greatest_version }
        ensures state { IfOk result (λ s. s.state ≡ opening_state config version) }
        ensures staged { IfOk result (λ s. s.staged ≡ []) }
    {
        let log = EventLog::new(alloc, version)?;
        Ok(IndexedState {
            store: Store::new(alloc, version, keys),
            forest: Forest::new(alloc, keys),
            owners: Forest::new(alloc, keys),
            counts: LimitCounts::none(),
            next: LimitCounts::none(),
            usage: Usage::new(alloc, keys),
            log,
            config,
        })
    }

    /// The version of the last write.
    pub fn version(&self) -> u64
        ensures { result ≡ self.now.state.last }
    {
        self.store.version()
    }

    /// The objects.
    pub fn store(&self) -> &Store
        ensures objects { result.now.objects ≡ self.now.state.objects }
        ensures version { result.now.version ≡ self.now.state.last }
    {
        &self.store
    }

    /// The tree.
    pub fn forest(&self) -> &Forest
        ensures { result.now.nodes ≡ forest_of self.now.state }
    {
        &self.forest
    }

    /// All namespaces, each under the parent that its annotation names.
    pub fn owners(&self) -> &Forest
        ensures nodes { result.now.nodes ≡ owners_of self.now.state }
        ensures tells { (n : List ℕ) → option_map (λ (owner : node). owner.parent) (node_of result.now.nodes n) ≡ option_map subnamespace_parent (object_at self.now.state.objects (namespace_id n)) }
    {
        &self.owners
    }

    /// What the state has of what is limited.
    pub fn limit_counts(&self) -> LimitCounts
        ensures { result ≡ counts_of self.now.state.objects }
    {
        self.counts
    }

    /// What is fixed for the run.
    pub fn config(&self) -> &RunConfig
        ensures { result.now ≡ self.now.state.config }
    {
        &self.config
    }

    /// The window of the latest events.
    pub fn window(&self) -> &Window
        ensures { result.now ≡ self.now.state.window }
    {
        self.log.window()
    }

    /// What the state takes its memory from.
    pub fn allocator(&self) -> Global {
        self.store.allocator()
    }

    /// The writes that are staged.
    pub fn staged(&self) -> &[Change]
        ensures { result.now ≡ self.now.staged }
    {
        self.store.staged()
    }

    /// The events of the staged writes.
    pub fn staged_events(&self) -> &[Event]
        ensures { result.now ≡ events_of self.now.state self.now.staged }
    {
        self.log.staged()
    }

    /// A theorem, not to be called for what it does: the state is valid.
    pub fn law_of_validity(&self)
        ensures { IsValid self.now.state }
    {
        let _ = &self.store;
    }

    /// Makes ready for the removal of what lies in a namespace, the first object first. It changes nothing that is seen.
    pub fn sort(&mut self, ns: &Text)
        ensures state { self.new.state ≡ self.old.state }
        ensures staged { self.new.staged ≡ self.old.staged }
    {
        self.store.sort(ns);
    }

    /// Makes ready the writes of one version, and makes room for all that they change. What was staged before is given up.
    pub fn stage(&mut self, writes: Vec<Change>) -> Result<(), NoMemory>
        requires { MayWriteAll self.old.state writes.items }
        ensures state { self.new.state ≡ self.old.state }
        ensures staged { OnOk result (self.new.staged ≡ writes.items) }
        ensures none { OnErr result (self.new.staged ≡ []) }
    {
        self.discard();
        let events = self.events_of(writes.as_slice())?;
        let plan = self.plan(writes.as_slice())?;
        self.usage.stage(
            &self.store,
            &self.forest,
            writes.as_slice(),
            plan.tree.as_slice(),
        )?;
        self.forest.stage(plan.tree)?;
        self.owners.stage(plan.owners)?;
        self.next = plan.counts;
        self.store.stage(writes)?;
        self.log.stage(events);
        Ok(())
    }

    /// Makes the staged writes, all with the next version. It takes no memory.
    pub fn apply(&mut self)
        ensures state { self.new.state ≡ state_after self.old.state self.old.staged }
        ensures staged { self.new.staged ≡ [] }
    {
        if self.store.staged().is_empty() {
            return;
        }
        let version = self.store.version() + 1;
        note_place(&mut self.forest, self.store.staged());
        self.store.apply(version);
        self.forest.apply();
        self.owners.apply();
        self.usage.apply(&self.forest);
        self.log.apply();
        self.counts = self.next;
    }

    /// Gives up the staged writes.
    pub fn discard(&mut self)
        ensures state { self.new.state ≡ self.old.state }
        ensures staged { self.new.staged ≡ [] }
    {
        self.store.discard();
        self.forest.discard();
        self.owners.discard();
        self.usage.discard();
        self.log.discard();
    }
}

/// Notes in the tree that the namespace of a write isn't halted, so that the next write there needn't walk up.
fn note_place(forest: &mut Forest, writes: &[Change])
    ensures { forest.new ≡ forest.old }
{
    if let Some(write) = writes.first() {
        forest.note(&write.id().ns);
    }
}
