// Namespaces, what they have by themselves, and with all below them.
ghost use Rattle.std.specs.Prelude.{◌≡◌, ◌+◌, ◌<◌, ◌≤◌, true, Some, None, is_some, [], ◌∷◌, IfSome, OnOk, length, option_copied};
ghost use Rattle.std.specs.Map.{keys_of};
ghost use Rattle.hx_model.specs.Forest.{subtree_of};
ghost use Rattle.hx_model.specs.declared.resource.Resource.{Resource};
ghost use Rattle.hx_quota.specs.Counters.{entry_of, tree_of, own_in, with_entry, new_entry, without_entry, with_parent, with_shifted, sums_of, AreApart, HaveOld, AllFit};
ghost use Rattle.hx_quota.specs.PlaceRows.{ring_in};
ghost use Rattle.hx_quota.specs.RingLinks.{IsRingTop};
ghost use Rattle.hx_quota.specs.Inside.{entries_in, entries_of, ordered, IsKept, IsParted};
ghost use Rattle.hx_quota.specs.Anew.{name_from, named};

use crate::climbing::{adjust_up, index_from, move_open};
use crate::entry::Delta;
use crate::place_table::PlaceTable;
use crate::places::{ring_at, set_ring, shift_own};
use hx_model::Resource;
use hx_object::{NoMemory, Text};
use std::alloc::Global;
use std::hash::RandomState;

/// Where a namespace that is moved, and its new parent, may lie.
#[derive(Clone, Copy)]
pub(crate) struct Hints {
    pub(crate) moved: Option<usize>,
    pub(crate) parent: Option<usize>,
}

/// Places by the names of their namespaces, in no order.
pub(crate) struct Ledger {
    /// With the sums of subtrees. The link of each ring that closed it lies apart, so that all walks up the others end, and the sums are those of subtrees without it.
    pub(crate) places: PlaceTable,
    /// There are rings, or it isn't known that there are none.
    pub(crate) circular: bool,
}

impl Drop for Ledger {
    fn drop(self) {
        let Ledger {
            places: _,
            circular: _,
        } = self;
    }
}

impl Ledger {
    /// No namespaces. It takes no memory.
    pub(crate) fn new(alloc: Global, keys: RandomState) -> Ledger
        ensures places { result.places.entries ≡ [] }
        ensures kept { IsKept result }
    {
        Ledger {
            places: PlaceTable::new(alloc, keys),
            circular: false,
        }
    }

    /// Makes room for `more`. Where no memory is left, the room stays.
    pub(crate) fn reserve(&mut self, more: usize) -> Result<(), NoMemory>
        ensures entries { entries_of self.new ≡ entries_of self.old }
        ensures room { OnOk result (more ≤ self.new.places.spare) }
        ensures stays { self.old.places.spare ≤ self.new.places.spare }
        ensures kept { IsKept self.old → IsKept self.new }
    {
        self.places.reserve(more)
    }

    /// Adds a namespace without a parent that has nothing. It takes no memory.
    pub(crate) fn add(&mut self, ns: Text)
        requires room { 1 ≤ self.old.places.spare }
        requires absent { entry_of (entries_of self.old) ns ≡ None }
        requires kept { IsKept self.old }
        ensures entries { entries_of self.new ≡ with_entry ns new_entry (entries_of self.old) }
        ensures room { self.old.places.spare ≤ self.new.places.spare + 1 }
        ensures kept { IsKept self.new }
    {
        self.places.insert(ns);
    }

    /// Takes out a namespace that has nothing, and is in no other chain.
    pub(crate) fn remove(&mut self, ns: &Text)
        requires there { is_some (entry_of (entries_of self.old) ns.now) ≡ true }
        requires nothing { (r : Resource) → own_in (entries_of self.old) ns.now r ≡ 0 }
        requires alone { subtree_of (tree_of (entries_of self.old)) ns.now ≡ ns.now ∷ [] }
        requires kept { IsKept self.old }
        ensures entries { entries_of self.new ≡ without_entry ns.now (entries_of self.old) }
        ensures room { self.old.places.spare ≤ self.new.places.spare }
        ensures kept { IsKept self.new }
    {
        self.places.swap_remove(ns);
    }

    /// Shifts the own sums of a namespace, which may lie at an index, and with them the sums of all members of its chain. It takes no memory.
    pub(crate) fn shift(&mut self, hint: Option<usize>, ns: &Text, deltas: &[Delta])
        requires there { is_some (entry_of (entries_of self.old) ns.now) ≡ true }
        requires apart { AreApart deltas.now }
        requires old { HaveOld deltas.now (sums_of (entries_of self.old) (ns.now ∷ [])) }
        requires fits { AllFit (with_shifted (ns.now ∷ []) deltas.now (entries_of self.old)) }
        requires kept { IsKept self.old }
        ensures entries { entries_of self.new ≡ with_shifted (ns.now ∷ []) deltas.now (entries_of self.old) }
        ensures room { self.old.places.spare ≤ self.new.places.spare }
        ensures kept { IsKept self.new }
    {
        let Some(at) = self.places.index_near(hint, ns) else {
            return;
        };
        let change = shift_own(&mut self.places, at, deltas);
        adjust_up(&mut self.places, Some(at), &change);
    }

    /// Gives a namespace another parent, or none, and takes what it has with all below it from the namespaces that were above it to those that are. It takes no memory.
    pub(crate) fn move_subtree(&mut self, hints: Hints, moved: &Text, parent: Option<&Text>)
        requires there { is_some (entry_of (entries_of self.old) moved.now) ≡ true }
        requires given { IfSome (option_copied parent) (λ p. is_some (entry_of (entries_of self.old) p) ≡ true) }
        requires fits { AllFit (entries_of self.old) }
        requires kept { IsKept self.old }
        ensures entries { entries_of self.new ≡ with_parent moved.now (option_copied parent.entry) (entries_of self.old) }
        ensures room { self.old.places.spare ≤ self.new.places.spare }
        ensures kept { IsKept self.new }
    {
        let Some(at) = self.places.index_near(hints.moved, moved) else {
            return;
        };
        let up = index_from(&self.places, hints.parent, parent);
        self.move_at(at, up);
    }

    /// The same by indices.
    fn move_at(&mut self, at: usize, up: Option<usize>)
        requires within { at < length self.old.places.entries }
        requires given { IfSome up (λ i. i < length self.old.places.entries) }
        requires fits { AllFit (entries_of self.old) }
        requires kept { IsKept self.old }
        ensures entries { entries_of self.new ≡ with_parent (named (entries_in self.old.places.entries) at) (name_from (entries_in self.old.places.entries) up) (entries_of self.old) }
        ensures room { self.old.places.spare ≤ self.new.places.spare }
        ensures kept { IsKept self.new }
    {
        self.part(at);
        self.join(at, up);
    }

    /// Takes the namespace at an index from its parent.
    fn part(&mut self, at: usize)
        requires within { at < length self.old.places.entries }
        requires fits { AllFit (entries_of self.old) }
        requires kept { IsKept self.old }
        ensures entries { entries_of self.new ≡ with_parent (named (entries_in self.old.places.entries) at) None (entries_of self.old) }
        ensures names { keys_of self.new.places.entries ≡ keys_of self.old.places.entries }
        ensures free { IsParted self.new (named (entries_in self.old.places.entries) at) }
        ensures room { self.old.places.spare ≤ self.new.places.spare }
        ensures kept { IsKept self.new }
    {
        match self.ring_top(at) {
            Some(top) => self.open_ring(at, top),
            None => move_open(&mut self.places, at, None),
        }
    }

    /// The same where it is in the ring that the link of another one closes, or its own. That one is then a link as all others.
    fn open_ring(&mut self, at: usize, top: usize)
        requires within { at < length self.old.places.entries }
        requires inside { top < length self.old.places.entries }
        requires top { IsRingTop (ring_in self.old.places.rings) (tree_of (ordered self.old.places.entries)) (named (entries_in self.old.places.entries) at) (Some (named (entries_in self.old.places.entries) top)) }
        requires fits { AllFit (entries_of self.old) }
        requires kept { IsKept self.old }
        ensures entries { entries_of self.new ≡ with_parent (named (entries_in self.old.places.entries) at) None (entries_of self.old) }
        ensures names { keys_of self.new.places.entries ≡ keys_of self.old.places.entries }
        ensures free { IsParted self.new (named (entries_in self.old.places.entries) at) }
        ensures room { self.old.places.spare ≤ self.new.places.spare }
        ensures kept { IsKept self.new }
    {
        self.turn_ring(at, top);
        self.note_rings();
    }

    /// Notes where there are no rings. It looks at all namespaces.
    fn note_rings(&mut self)
        requires kept { IsKept self.old }
        ensures places { self.new.places ≡ self.old.places }
        ensures kept { IsKept self.new }
    {
        self.circular = self.places.has_rings();
    }

    /// The same, where it isn't noted yet that there may be no ring any more.
    fn turn_ring(&mut self, at: usize, top: usize)
        requires within { at < length self.old.places.entries }
        requires inside { top < length self.old.places.entries }
        requires top { IsRingTop (ring_in self.old.places.rings) (tree_of (ordered self.old.places.entries)) (named (entries_in self.old.places.entries) at) (Some (named (entries_in self.old.places.entries) top)) }
        requires fits { AllFit (entries_of self.old) }
        requires kept { IsKept self.old }
        ensures entries { entries_of self.new ≡ with_parent (named (entries_in self.old.places.entries) at) None (entries_of self.old) }
        ensures names { keys_of self.new.places.entries ≡ keys_of self.old.places.entries }
        ensures free { IsParted self.new (named (entries_in self.old.places.entries) at) }
        ensures room { self.old.places.spare ≤ self.new.places.spare }
        ensures kept { IsKept self.new }
    {
        let up = ring_at(&self.places, top);
        set_ring(&mut self.places, top, None);
        if top == at {
            return;
        }
        move_open(&mut self.places, at, None);
        move_open(&mut self.places, top, up);
    }

    /// Gives the namespace at an index, which has no parent, one at an index, or none. Where that one is below it, the link closes a ring.
    fn join(&mut self, at: usize, up: Option<usize>)
        requires within { at < length self.old.places.entries }
        requires given { IfSome up (λ i. i < length self.old.places.entries) }
        requires free { IsParted self.old (named (entries_in self.old.places.entries) at) }
        requires fits { AllFit (entries_of self.old) }
        requires kept { IsKept self.old }
        ensures entries { entries_of self.new ≡ with_parent (named (entries_in self.old.places.entries) at) (name_from (entries_in self.old.places.entries) up) (entries_of self.old) }
        ensures room { self.old.places.spare ≤ self.new.places.spare }
        ensures kept { IsKept self.new }
    {
        if self.has_above(up, at) {
            self.circular = true;
            set_ring(&mut self.places, at, up);
            return;
        }
        move_open(&mut self.places, at, up);
    }
}
