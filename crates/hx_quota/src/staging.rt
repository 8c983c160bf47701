// What writes change of the counters.
ghost use Rattle.std.specs.Prelude.{◌≡◌, ℕ, List, [], ◌∷◌, true, Some, is_some, IsSomeAnd, IfSome, OnOk, IfOk, option_copied};
ghost use Rattle.std.specs.List.{list_all};
ghost use Rattle.hx_forest.specs.Kept.{changed_by, changed_by_all, MayChange as MayChangeTree, MayChangeAll as MayChangeTreeAll};
ghost use Rattle.hx_model.specs.State.{object_at, after_writes, ascends};
ghost use Rattle.hx_store.specs.Changes.{id_of, object_of};
ghost use Rattle.hx_quota.specs.Counters.{AllFit, with_shifted};
ghost use Rattle.hx_quota.specs.Counting.{deltas_of};
ghost use Rattle.hx_quota.specs.SubtreeUsage.{Tells, IsCounted, MayStage, MayShift, IsHoused, is_charged_kind, are_uncharged, is_staying, is_told_tree, is_one_alone, deltas_among};

use crate::change::CounterChange;
use crate::changing::totals_after;
use crate::entry::Delta;
use crate::planting::changes_of_tree;
use crate::subtrees::Usage;
use hx_charge::{charge_before, resources_for};
use hx_forest::{Change as TreeChange, Forest};
use hx_model::{Resource, is_same_name};
use hx_object::{Kind, List, NoMemory, Object, Shared, Text};
use hx_store::{Change, Store};
use std::alloc::Global;

impl Usage {
    /// Stages changes of the tree by writes that change no charge. Several are told where all leave the parents as they are.
    pub(crate) fn stage_tree(
        &mut self,
        store: &Store,
        forest: &Forest,
        tree: &[TreeChange],
    ) -> Result<(), NoMemory>
        requires counted { IsSomeAnd self.old.now (Tells store.now.objects forest.now.nodes) }
        requires staged { self.old.next ≡ self.old.now }
        requires may { MayChangeTreeAll tree.now forest.now.nodes }
        requires housed { IsHoused store.now.objects (changed_by_all tree.now forest.now.nodes) }
        ensures now { self.new.now ≡ self.old.now }
        ensures next { OnOk result (IsCounted store.now.objects (changed_by_all tree.now forest.now.nodes) self.new.next) }
        ensures told { OnOk result (is_told_tree forest.now.nodes tree.now ≡ true → is_some self.new.next ≡ true) }
    {
        if leaves_parents(forest, tree) {
            return Ok(());
        }
        if let [change] = tree {
            return self.stage_change(store, forest, change);
        }
        self.lose();
        Ok(())
    }

    /// Stages a change of the tree.
    fn stage_change(
        &mut self,
        store: &Store,
        forest: &Forest,
        change: &TreeChange,
    ) -> Result<(), NoMemory>
        requires counted { IsSomeAnd self.old.now (Tells store.now.objects forest.now.nodes) }
        requires may { MayChangeTree change.now forest.now.nodes }
        requires housed { IsHoused store.now.objects (changed_by change.now forest.now.nodes) }
        ensures now { self.new.now ≡ self.old.now }
        ensures next { OnOk result (IsCounted store.now.objects (changed_by change.now forest.now.nodes) self.new.next) }
        ensures told { OnOk result (is_some self.new.next ≡ true) }
    {
        let changes = changes_of_tree(self.alloc, forest, change)?;
        self.stage_changes(changes)
    }

    /// Stages what one write changes of a charge. Several aren't told, nor one that changes the tree as well.
    pub(crate) fn stage_object(
        &mut self,
        store: &Store,
        forest: &Forest,
        writes: &[Change],
        tree: &[TreeChange],
    ) -> Result<(), NoMemory>
        requires counted { IsSomeAnd self.old.now (Tells store.now.objects forest.now.nodes) }
        requires staged { self.old.next ≡ self.old.now }
        requires may { MayStage store.now.objects forest.now.nodes writes.now tree.now }
        ensures now { self.new.now ≡ self.old.now }
        ensures next { OnOk result (IsCounted (after_writes writes.now store.now.objects) (changed_by_all tree.now forest.now.nodes) self.new.next) }
        ensures told { OnOk result (is_one_alone writes.now tree.now ≡ true → is_some self.new.next ≡ true) }
    {
        if let [write] = writes
            && tree.is_empty()
        {
            return self.stage_write(store, forest, write);
        }
        self.lose();
        Ok(())
    }

    /// Stages what a write changes of a charge.
    fn stage_write(
        &mut self,
        store: &Store,
        forest: &Forest,
        write: &Change,
    ) -> Result<(), NoMemory>
        requires counted { IsSomeAnd self.old.now (Tells store.now.objects forest.now.nodes) }
        requires staged { self.old.next ≡ self.old.now }
        requires in_order { ascends store.now.objects ≡ true }
        requires housed { IsHoused (after_writes (write.now ∷ []) store.now.objects) forest.now.nodes }
        ensures now { self.new.now ≡ self.old.now }
        ensures next { OnOk result (IsCounted (after_writes (write.now ∷ []) store.now.objects) forest.now.nodes self.new.next) }
        ensures told { OnOk result (is_some self.new.next ≡ true) }
    {
        let deltas = deltas_of(store, write)?;
        if deltas.is_empty() {
            return Ok(());
        }
        let ns = write.id().ns.clone()?;
        self.stage_shift(ns, deltas)
    }

    /// Stages that a namespace gets other sums.
    fn stage_shift(&mut self, ns: Text, deltas: Vec<Delta>) -> Result<(), NoMemory>
        requires { IsSomeAnd self.old.now (λ es. MayShift es ns deltas.items) }
        ensures now { self.new.now ≡ self.old.now }
        ensures next { OnOk result (IfSome self.old.now (λ es. self.new.next ≡ Some (with_shifted (ns ∷ []) deltas.items es))) }
    {
        self.check_fit(&deltas)?;
        let mut changes = Vec::new(self.alloc);
        changes.push(CounterChange::Shift {
            ns,
            deltas: List::of(deltas),
        })?;
        self.stage_changes(changes)
    }

    /// Checks that what all namespaces have together fits after deltas.
    fn check_fit(&self, deltas: &[Delta]) -> Result<(), NoMemory>
        ensures { OnOk result (IfSome self.now.now (λ es. (ns : List ℕ) → MayShift es ns deltas.now → AllFit (with_shifted (ns ∷ []) deltas.now es))) }
    {
        totals_after(&self.totals, deltas)?;
        Ok(())
    }
}

/// Whether changes of the tree leave the namespaces and their parents as they are.
fn leaves_parents(forest: &Forest, tree: &[TreeChange]) -> bool
    ensures { result ≡ list_all (is_staying forest.now.nodes) tree.now }
{
    tree.iter().all(|change| is_staying(forest, change))
}

/// Whether a change of the tree does, as one does that gives a namespace the parent that it has.
fn is_staying(forest: &Forest, change: &TreeChange) -> bool
    ensures { result ≡ is_staying forest.now.nodes change.now }
{
    match change {
        TreeChange::SetTerminating { name: _ } => true,
        TreeChange::SetParent { name, parent } => {
            is_same_name(forest.parent(name), parent.as_ref())
        }
        TreeChange::Add { name: _, node: _ } => false,
        TreeChange::Remove { name: _ } => false,
    }
}

/// Whether writes are of kinds that are charged nothing.
pub(crate) fn are_uncharged(writes: &[Change]) -> bool
    ensures { result ≡ are_uncharged writes.now }
{
    writes.iter().all(|write| !is_charged_kind(write.id().kind))
}

/// Whether objects of a kind may be charged.
fn is_charged_kind(kind: Kind) -> bool
    ensures { result ≡ is_charged_kind kind }
{
    !resources_for(kind).is_empty()
}

/// What a write changes of a charge, resource by resource.
fn deltas_of(store: &Store, write: &Change) -> Result<Vec<Delta>, NoMemory>
    ensures { IfOk result (λ deltas. deltas.items ≡ deltas_of (object_at store.now.objects (id_of write.now)) (object_of write.now)) }
{
    let id = write.id();
    let old = object_in(store.get(id));
    let new = object_in(write.object());
    deltas_among(store.allocator(), resources_for(id.kind), old, new)
}

/// The same of some resources.
fn deltas_among(
    alloc: Global,
    resources: &[Resource],
    old: Option<&Object>,
    new: Option<&Object>,
) -> Result<Vec<Delta>, NoMemory>
    ensures { IfOk result (λ deltas. deltas.items ≡ deltas_among resources.now (option_copied old.entry) (option_copied new.entry)) }
{
    let mut deltas = Vec::new(alloc);
    for resource in resources {
        let before = charge_before(old, *resource);
        let after = charge_before(new, *resource);
        if before == after {
            continue;
        }
        deltas.push(Delta {
            resource: *resource,
            old: before,
            new: after,
        })?;
    }
    Ok(deltas)
}

/// The object that is found.
fn object_in(found: Option<&Shared>) -> Option<&Object>
    ensures { option_copied result ≡ option_copied found.entry }
{
    match found {
        Some(shared) => Some(shared.object()),
        None => None,
    }
}
