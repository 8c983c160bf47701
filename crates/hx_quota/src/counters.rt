// The counters.
ghost use Rattle.std.specs.Prelude.{◌≡◌, ◌+◌, ◌≤◌, true, Some, None, is_some, [], ◌∷◌, IfSome, OnOk, option_copied};
ghost use Rattle.hx_model.specs.Forest.{subtree_of};
ghost use Rattle.hx_quota.specs.Counters.{entry_of, tree_of, own_in, used_in, with_entry, new_entry, without_entry, with_parent, with_shifted, sums_of, IsChain, IsBehind, IsAbove, AreApart, HaveOld, AllFit};

use crate::entry::Delta;
use crate::ledger::{Hints, Ledger};
use hx_model::Resource;
use hx_object::{NoMemory, Text};
use std::alloc::Global;
use std::hash::RandomState;
use std::marker::Model;

/// For each namespace that is there its parent, and what it has by itself of each resource, in thousandths.
///
/// What all namespaces have together of a resource is below 2^128. Room is made first, and all changes are made without taking memory.
///
/// The sums over subtrees are kept too, and each change goes along a chain. Where the parents go in a ring, one of its links lies apart, and the sums are kept as if it weren't there: all that are in the ring have what its last one has.
pub struct Counters {
    pub(crate) ledger: Ledger,
}

impl Drop for Counters {
    fn drop(self) {
        let Counters { ledger: _ } = self;
    }
}

impl Model for Counters {
    ghost use Rattle.hx_quota.specs.Counters.{CountersView, view_code, AllFit};
    ghost use Rattle.hx_quota.specs.Inside.{entries_of, IsKept};

    ghost Value = { CountersView };

    ghost coded = { view_code };

    ghost view = { λ c. record { entries = entries_of c.ledger; spare = c.ledger.places.spare } };

    ghost invariant = { λ c. AllFit (entries_of c.ledger) × IsKept c.ledger };
}

impl Counters {
    /// Counters without namespaces, whose map hashes with these keys. It takes no memory.
    pub fn new(alloc: Global, keys: RandomState) -> Counters
        ensures { result.entries ≡ [] }
    {
        Counters {
            ledger: Ledger::new(alloc, keys),
        }
    }

    /// What a namespace has of a resource with all below it: the sum over the namespaces whose chain has it. It is 0 for a namespace that isn't there.
    pub fn used(&self, ns: &Text, resource: Resource) -> u128
        ensures { result ≡ used_in self.now.entries ns.now resource }
    {
        self.ledger.used(ns, resource)
    }

    /// Makes room for so many namespaces more. Where no memory is left, the room stays.
    pub fn reserve(&mut self, more: usize) -> Result<(), NoMemory>
        ensures entries { self.new.entries ≡ self.old.entries }
        ensures room { OnOk result (more ≤ self.new.spare) }
        ensures stays { self.old.spare ≤ self.new.spare }
    {
        self.ledger.reserve(more)
    }

    /// Adds a namespace that isn't there, without a parent and with nothing. It takes no memory.
    pub fn add(&mut self, ns: Text)
        requires room { 1 ≤ self.old.spare }
        requires absent { entry_of self.old.entries ns ≡ None }
        ensures entries { self.new.entries ≡ with_entry ns new_entry self.old.entries }
        ensures room { self.old.spare ≤ self.new.spare + 1 }
    {
        self.ledger.add(ns);
    }

    /// Takes out a namespace that has nothing, and is in no other chain.
    pub fn remove(&mut self, ns: &Text)
        requires there { is_some (entry_of self.old.entries ns.now) ≡ true }
        requires nothing { (r : Resource) → own_in self.old.entries ns.now r ≡ 0 }
        requires alone { subtree_of (tree_of self.old.entries) ns.now ≡ ns.now ∷ [] }
        ensures entries { self.new.entries ≡ without_entry ns.now self.old.entries }
        ensures room { self.old.spare ≤ self.new.spare }
    {
        self.ledger.remove(ns);
    }

    /// Replaces, in what the first of a chain has by itself, the old sum of each delta by its new one.
    pub fn shift(&mut self, chain: &[Text], deltas: &[Delta])
        requires chain { IsChain self.old.entries chain.now }
        requires apart { AreApart deltas.now }
        requires old { HaveOld deltas.now (sums_of self.old.entries chain.now) }
        requires fits { AllFit (with_shifted chain.now deltas.now self.old.entries) }
        ensures entries { self.new.entries ≡ with_shifted chain.now deltas.now self.old.entries }
        ensures room { self.old.spare ≤ self.new.spare }
    {
        if let Some(ns) = chain.first() {
            self.shift_at(None, ns, deltas);
        }
    }

    /// The same of a namespace, which may lie at an index, and whose chain is found among those that are there. It takes no memory.
    pub(crate) fn shift_at(&mut self, hint: Option<usize>, ns: &Text, deltas: &[Delta])
        requires there { is_some (entry_of self.old.entries ns.now) ≡ true }
        requires apart { AreApart deltas.now }
        requires old { HaveOld deltas.now (sums_of self.old.entries (ns.now ∷ [])) }
        requires fits { AllFit (with_shifted (ns.now ∷ []) deltas.now self.old.entries) }
        ensures entries { self.new.entries ≡ with_shifted (ns.now ∷ []) deltas.now self.old.entries }
        ensures room { self.old.spare ≤ self.new.spare }
    {
        self.ledger.shift(hint, ns, deltas);
    }

    /// Gives a namespace another parent, or none. `from` is its chain behind it, and `to` the chain of the new parent, which is there. It takes no memory.
    pub fn move_subtree(&mut self, moved: &Text, parent: Option<Text>, from: &[Text], to: &[Text])
        requires there { is_some (entry_of self.old.entries moved.now) ≡ true }
        requires from { IsBehind self.old.entries moved.now from.now }
        requires to { IsAbove self.old.entries parent to.now }
        ensures entries { self.new.entries ≡ with_parent moved.now parent self.old.entries }
        ensures room { self.old.spare ≤ self.new.spare }
    {
        let hints = Hints {
            moved: None,
            parent: None,
        };
        self.move_under(hints, moved, parent.as_ref());
    }

    /// The same, where the chains are found among the namespaces that are there. It takes no memory.
    pub(crate) fn move_under(&mut self, hints: Hints, moved: &Text, parent: Option<&Text>)
        requires there { is_some (entry_of self.old.entries moved.now) ≡ true }
        requires given { IfSome (option_copied parent) (λ p. is_some (entry_of self.old.entries p) ≡ true) }
        ensures entries { self.new.entries ≡ with_parent moved.now (option_copied parent.entry) self.old.entries }
        ensures room { self.old.spare ≤ self.new.spare }
    {
        self.ledger.move_subtree(hints, moved, parent);
    }
}
