// What subtrees use.
ghost use Rattle.std.specs.Prelude.{◌≡◌, [], OnOk, IfOk, IsSomeAnd, IfSome, Some, None, is_some, true, sum_by};
ghost use Rattle.hx_model.specs.Quotas.{charge_below};
ghost use Rattle.hx_model.specs.State.{after_writes};
ghost use Rattle.hx_forest.specs.Kept.{changed_by_all};
ghost use Rattle.hx_quota.specs.Counting.{MayChangeAll, changed_all};
ghost use Rattle.hx_quota.specs.SubtreeUsage.{IsCounted, MayStage, are_told};

use crate::change::CounterChange;
use crate::changing::make_all;
use crate::counters::Counters;
use crate::staging::are_uncharged;
use crate::walking::used_by_walk;
use hx_forest::{Change as TreeChange, Forest};
use hx_model::Resource;
use hx_object::{NoMemory, Text};
use hx_store::{Change, Store};
use std::alloc::Global;
use std::hash::RandomState;
use std::marker::Model;
use std::mem;

/// What the objects of subtrees are charged, beside a store and the tree of its namespaces.
///
/// It counts as long as each change of the tree and of a charge is staged here, before it is staged there. Where several writes are made at once and they change more than that namespaces are on their way out, the counts are lost, and what a subtree uses is then found by a walk over the objects. Changes are staged first, which makes room for them, and made later without taking memory.
pub struct Usage {
    pub(crate) counters: Counters,
    /// What all namespaces have together of each resource, in the order of the resources, in thousandths.
    pub(crate) totals: [u128; 15],
    /// The counters count the objects.
    pub(crate) counts: bool,
    pub(crate) staged: Vec<CounterChange>,
    /// They will once the staged changes are made.
    pub(crate) counts_then: bool,
    pub(crate) alloc: Global,
}

impl Drop for Usage {
    fn drop(self) {
        let Usage {
            counters: _,
            totals: _,
            counts: _,
            staged: _,
            counts_then: _,
            alloc: _,
        } = self;
    }
}

impl Model for Usage {
    ghost use Rattle.hx_model.specs.First.{so};
    ghost use Rattle.hx_quota.specs.Counting.{changed_all};
    ghost use Rattle.hx_quota.specs.SubtreeUsage.{UsageView, usage_code, IsReady};

    ghost Value = { UsageView };

    ghost coded = { usage_code };

    ghost view = { λ u. record { now = so u.counts u.counters.entries; next = so u.counts_then (changed_all u.staged.items u.counters.entries) } };

    ghost invariant = { λ u. IsReady u.counters u.totals u.staged.items };
}

impl Usage {
    /// What is counted without objects and namespaces, with a map that hashes with these keys. It takes no memory.
    pub fn new(alloc: Global, keys: RandomState) -> Usage
        ensures { IsCounted [] [] result.now }
    {
        Usage {
            counters: Counters::new(alloc, keys),
            totals: [0; 15],
            counts: true,
            staged: Vec::new(alloc),
            counts_then: true,
            alloc,
        }
    }

    /// What all objects of a subtree are charged for a resource, in thousandths.
    ///
    /// It is one look-up, unless the counts are lost, or there is a cycle of parents somewhere: then it is at most two walks up. A sum that doesn't fit 128 bits fits no memory, either.
    pub fn used(
        &self,
        store: &Store,
        forest: &Forest,
        ns: &Text,
        resource: Resource,
    ) -> Result<u128, NoMemory>
        requires { IsCounted store.now.objects forest.now.nodes self.now.now }
        ensures { IfOk result (λ sum. sum ≡ sum_by (charge_below forest.now.nodes ns.now resource) store.now.objects) }
    {
        if self.counts {
            return Ok(self.counters.used(ns, resource));
        }
        used_by_walk(store, forest, ns, resource)
    }

    /// Stages what writes change, and the changes of the tree by them, in the place of what was staged before: room is made for it. It is called before either is staged or made, and changes nothing that is counted now. What is told stays counted: one write at most that changes a charge, without a change of the tree, or writes that change no charge, with one change of the tree at most or several that leave all parents. By others the counts are lost.
    pub fn stage(
        &mut self,
        store: &Store,
        forest: &Forest,
        writes: &[Change],
        tree: &[TreeChange],
    ) -> Result<(), NoMemory>
        requires counted { IsCounted store.now.objects forest.now.nodes self.old.now }
        requires may { MayStage store.now.objects forest.now.nodes writes.now tree.now }
        ensures now { self.new.now ≡ self.old.now }
        ensures next { OnOk result (IsCounted (after_writes writes.now store.now.objects) (changed_by_all tree.now forest.now.nodes) self.new.next) }
        ensures told { OnOk result (are_told forest.now.nodes writes.now tree.now ≡ true → IfSome self.old.now (λ es. is_some self.new.next ≡ true)) }
    {
        self.discard();
        if !self.counts {
            return Ok(());
        }
        if are_uncharged(writes) {
            self.stage_tree(store, forest, tree)
        } else {
            self.stage_object(store, forest, writes, tree)
        }
    }

    /// Makes the staged changes. It takes no memory. The forest hints at where namespaces lie, and what is counted doesn't depend on it.
    pub fn apply(&mut self, forest: &Forest)
        ensures now { self.new.now ≡ self.old.next }
        ensures next { self.new.next ≡ self.old.next }
    {
        let changes = mem::replace(&mut self.staged, Vec::new(self.alloc));
        make_all(&mut self.counters, &mut self.totals, forest, changes);
        self.counts = self.counts_then;
    }

    /// Gives up the staged changes. It takes no memory.
    pub fn discard(&mut self)
        ensures now { self.new.now ≡ self.old.now }
        ensures next { self.new.next ≡ self.old.now }
    {
        self.staged.clear();
        self.counts_then = self.counts;
    }

    /// Stages that the counts are lost.
    pub(crate) fn lose(&mut self)
        ensures now { self.new.now ≡ self.old.now }
        ensures next { self.new.next ≡ None }
    {
        self.counts_then = false;
    }

    /// Stages changes of the counters, where they count.
    pub(crate) fn stage_changes(&mut self, changes: Vec<CounterChange>) -> Result<(), NoMemory>
        requires { IsSomeAnd self.old.now (λ es. MayChangeAll changes.items es) }
        ensures now { self.new.now ≡ self.old.now }
        ensures next { OnOk result (IfSome self.old.now (λ es. self.new.next ≡ Some (changed_all changes.items es))) }
    {
        self.counters.reserve(changes.len())?;
        self.staged = changes;
        self.counts_then = true;
        Ok(())
    }
}
