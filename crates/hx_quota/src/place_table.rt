// What is kept of namespaces, in parts that lie side by side.
ghost use Rattle.std.specs.Prelude.{◌≡◌, ℕ, ◌+◌, ◌<◌, ◌≤◌, true, false, Some, None, [], ◌∷◌, ◌++◌, List, OnOk, IfSome, if◌then◌else◌, length, option_and_then, option_copied, option_map, slice_get, slice_index, vec_len};
ghost use Rattle.std.specs.List.{IsDistinct};
ghost use Rattle.std.specs.Map.{keys_of};
ghost use Rattle.std.specs.Str.{bytes_eq};
ghost use Rattle.std.specs.Vec.{vec_capacity};
ghost use Rattle.hx_quota.specs.Counters.{shifted, AreApart, HaveOld};
ghost use Rattle.hx_quota.specs.PlaceRows.{Place, changed_row, new_place, place_at, ring_in, IsFoundAt};
ghost use Rattle.hx_quota.specs.Inside.{entries_in, MayAdjust, OwnFit};
ghost use Rattle.hx_quota.specs.Anew.{name_at, name_from, with_parent_at, with_shifted_at, HasAdjusted};

use crate::entry::Delta;
use crate::places::Change;
use crate::shifting::shift;
use crate::sum_table::SumTable;
use crate::up_table::UpTable;
use hx_object::{NoMemory, Text};
use indexmap::IndexSet;
use std::alloc::Global;
use std::hash::RandomState;
use std::marker::Model;

/// Places by the names of their namespaces, and by their indices.
///
/// A parent is told by its index alone. The indices of parents, which a walk up reads, lie close to one another, and so do the amounts. Each namespace's are at its index.
pub(crate) struct PlaceTable {
    names: IndexSet<Text, RandomState>,
    /// The index of each one's parent.
    ups: UpTable,
    /// What each has by itself, in the order of the resources.
    own: Vec<[u128; 15]>,
    /// What each has with all below it.
    sums: SumTable,
    /// The index to which each one's link leads that closes a ring. No walk up goes along it.
    rings: UpTable,
}

impl Drop for PlaceTable {
    fn drop(self) {
        let PlaceTable {
            names: _,
            ups: _,
            own: _,
            sums: _,
            rings: _,
        } = self;
    }
}

impl Model for PlaceTable {
    ghost use Rattle.std.specs.Prelude.{◌-◌, min, vec_len};
    ghost use Rattle.std.specs.Vec.{vec_capacity};
    ghost use Rattle.indexmap.specs.IndexSet.{spare};
    ghost use Rattle.hx_quota.specs.PlaceRows.{PlacesView, places_code, linked, placed, IsTable, AreUps};

    ghost Value = { PlacesView };

    ghost coded = { places_code };

    ghost view = { λ t. record { entries = placed t.names.keys t.ups.items t.own.items t.sums.rows; rings = linked t.names.keys t.names.keys t.rings.items; spare = min (spare t.names) (min t.ups.spare (min (vec_capacity t.own - vec_len t.own) (min t.sums.spare t.rings.spare))) } };

    ghost invariant = { λ t. IsTable (linked t.names.keys t.names.keys t.ups.items) t.own.items t.sums.rows × AreUps t.names.keys t.ups.items × AreUps t.names.keys t.rings.items };
}

impl PlaceTable {
    /// No places. It takes no memory.
    pub(crate) fn new(alloc: Global, keys: RandomState) -> PlaceTable
        ensures entries { result.entries ≡ [] }
        ensures rings { result.rings ≡ [] }
    {
        PlaceTable {
            names: IndexSet::with_hasher(alloc, keys),
            ups: UpTable::new(alloc),
            own: Vec::new(alloc),
            sums: SumTable::new(alloc),
            rings: UpTable::new(alloc),
        }
    }

    /// Makes room for `more`. Where no memory is left, the room stays.
    pub(crate) fn reserve(&mut self, more: usize) -> Result<(), NoMemory>
        ensures entries { self.new.entries ≡ self.old.entries }
        ensures rings { self.new.rings ≡ self.old.rings }
        ensures room { OnOk result (more ≤ self.new.spare) }
        ensures stays { self.old.spare ≤ self.new.spare }
    {
        self.names.reserve(more)?;
        self.ups.reserve(more)?;
        self.own.reserve(more)?;
        self.sums.reserve(more)?;
        self.rings.reserve(more)
    }

    /// How many places there are.
    pub(crate) fn len(&self) -> usize
        ensures len { result ≡ length self.now.entries }
        ensures distinct { IsDistinct bytes_eq (keys_of self.now.entries) }
    {
        self.names.len()
    }

    /// The index of a namespace.
    pub(crate) fn index_of(&self, name: &Text) -> Option<usize>
        ensures within { IfSome result (λ i. i < length self.now.entries) }
        ensures place { IsFoundAt self.now.entries name.now result }
    {
        self.names.get_index_of(name)
    }

    /// The same. It is found without hashing where the hint is right.
    pub(crate) fn index_near(&self, hint: Option<usize>, name: &Text) -> Option<usize>
        ensures within { IfSome result (λ i. i < length self.now.entries) }
        ensures place { IsFoundAt self.now.entries name.now result }
    {
        let Some(at) = hint else {
            return self.index_of(name);
        };
        if self.is_named(at, name) {
            return Some(at);
        }
        self.index_of(name)
    }

    /// Whether the namespace at an index has a name.
    fn is_named(&self, at: usize, name: &Text) -> bool
        ensures within { result ≡ true → at < length self.now.entries }
        ensures place { result ≡ true → IsFoundAt self.now.entries name.now (Some at) }
    {
        match self.names.get_index(at) {
            Some(found) => found.as_str() == name.as_str(),
            None => false,
        }
    }

    /// The name of the namespace at an index.
    pub(crate) fn name_at(&self, at: usize) -> Option<&Text>
        ensures { option_copied result ≡ name_at (entries_in self.now.entries) at }
    {
        self.names.get_index(at)
    }

    /// The index of its parent, where it has one.
    pub(crate) fn up_at(&self, at: usize) -> Option<usize>
        ensures within { IfSome result (λ i. i < length self.now.entries) }
        ensures up { name_from (entries_in self.now.entries) result ≡ option_and_then (λ e. e.1.entry.parent) (slice_get self.now.entries at) }
        ensures distinct { IsDistinct bytes_eq (keys_of self.now.entries) }
    {
        self.ups.get(at)
    }

    /// The index to which its link leads that closes a ring, where it has one.
    pub(crate) fn ring_at(&self, at: usize) -> Option<usize>
        ensures within { IfSome result (λ i. i < length self.now.entries) }
        ensures ring { (n : List ℕ) → IsFoundAt self.now.entries n (Some at) → name_from (entries_in self.now.entries) result ≡ ring_in self.now.rings n }
        ensures distinct { IsDistinct bytes_eq (keys_of self.now.entries) }
    {
        self.rings.get(at)
    }

    /// Whether some namespace may have a link that closes a ring. It looks at all.
    pub(crate) fn has_rings(&self) -> bool
        ensures { result ≡ false → (n : List ℕ) → ring_in self.now.rings n ≡ None }
    {
        self.rings.any()
    }

    /// What it has of one resource with all below it.
    pub(crate) fn sum_at(&self, at: usize, place: usize) -> u128
        requires { place < 15 }
        ensures sum { (n : List ℕ) (p : Place) → slice_get self.now.entries at ≡ Some (n, p) → result ≡ slice_index p.sums place }
        ensures distinct { IsDistinct bytes_eq (keys_of self.now.entries) }
    {
        self.sums.get(at, place)
    }

    /// The same of each.
    pub(crate) fn sums_at(&self, at: usize) -> Option<[u128; 15]>
        ensures { result ≡ option_map (λ e. e.1.sums) (slice_get self.now.entries at) }
    {
        self.sums.row(at)
    }

    /// Adds a namespace without a parent that has nothing. It takes no memory.
    pub(crate) fn insert(&mut self, name: Text)
        requires room { 1 ≤ self.old.spare }
        requires absent { place_at self.old.entries name ≡ None }
        ensures entries { self.new.entries ≡ self.old.entries ++ (name, new_place) ∷ [] }
        ensures rings { self.new.rings ≡ self.old.rings ++ (name, None) ∷ [] }
        ensures room { self.old.spare ≤ self.new.spare + 1 }
    {
        let _added = self.names.insert(name).unwrap();
        self.ups.push();
        self.own.push_reserved([0; 15]);
        self.sums.push();
        self.rings.push();
    }

    /// Takes a namespace out, where it is there, that is no other one's parent. The last one takes its index, of which all others are told.
    pub(crate) fn swap_remove(&mut self, name: &Text)
        requires childless { (n : List ℕ) (p : Place) → bytes_eq name.now n ≡ false → place_at self.old.entries n ≡ Some p → p.entry.parent ≡ Some name.now → ⊥ }
        requires ringless { (n : List ℕ) → bytes_eq name.now n ≡ false → ring_in self.old.rings n ≡ Some name.now → ⊥ }
        ensures places { (q : List ℕ) → place_at self.new.entries q ≡ (if bytes_eq name.now q then None else place_at self.old.entries q) }
        ensures rings { (q : List ℕ) → ring_in self.new.rings q ≡ (if bytes_eq name.now q then None else ring_in self.old.rings q) }
        ensures room { self.old.spare ≤ self.new.spare }
    {
        let Some(at) = self.names.get_index_of(name) else {
            return;
        };
        let _name = self.names.swap_remove_index(at);
        self.ups.swap_remove(at);
        let _own = self.own.swap_remove(at);
        self.sums.swap_remove(at);
        self.rings.swap_remove(at);
    }

    /// Gives the namespace at an index another parent, which lies at an index, or none.
    pub(crate) fn set_parent(&mut self, at: usize, up: Option<usize>)
        requires { IfSome up (λ i. i < length self.old.entries) }
        ensures entries { self.new.entries ≡ with_parent_at at (name_from (entries_in self.old.entries) up) self.old.entries }
        ensures rings { self.new.rings ≡ self.old.rings }
        ensures distinct { IsDistinct bytes_eq (keys_of self.old.entries) }
        ensures room { self.old.spare ≤ self.new.spare }
    {
        self.ups.set(at, up);
    }

    /// Gives the namespace at an index another link that closes a ring, and leads to an index, or none.
    pub(crate) fn set_ring(&mut self, at: usize, up: Option<usize>)
        requires { IfSome up (λ i. i < length self.old.entries) }
        ensures entries { self.new.entries ≡ self.old.entries }
        ensures rings { (n : List ℕ) → IsFoundAt self.old.entries n (Some at) → (q : List ℕ) → ring_in self.new.rings q ≡ (if bytes_eq n q then name_from (entries_in self.old.entries) up else ring_in self.old.rings q) }
        ensures distinct { IsDistinct bytes_eq (keys_of self.old.entries) }
        ensures room { self.old.spare ≤ self.new.spare }
    {
        self.rings.set(at, up);
    }

    /// Makes deltas of what the namespace at an index has by itself.
    pub(crate) fn shift_own(&mut self, at: usize, deltas: &[Delta])
        requires apart { AreApart deltas.now }
        requires old { (n : List ℕ) (p : Place) → slice_get self.old.entries at ≡ Some (n, p) → HaveOld deltas.now p.entry.own }
        requires fits { (n : List ℕ) (p : Place) → slice_get self.old.entries at ≡ Some (n, p) → OwnFit (shifted deltas.now p.entry.own) }
        ensures entries { self.new.entries ≡ with_shifted_at at deltas.now self.old.entries }
        ensures rings { self.new.rings ≡ self.old.rings }
        ensures long { (n : List ℕ) (p : Place) → slice_get self.old.entries at ≡ Some (n, p) → length p.entry.own ≡ 15 }
        ensures distinct { IsDistinct bytes_eq (keys_of self.old.entries) }
        ensures room { self.old.spare ≤ self.new.spare }
    {
        shift_row(&mut self.own, at, deltas);
    }

    /// Changes what it has with all below it, and says whether there is one.
    pub(crate) fn adjust(&mut self, at: usize, change: &Change) -> bool
        requires { (sums : List ℕ) → Some sums ≡ option_map (λ e. e.1.sums) (slice_get self.old.entries at) → MayAdjust change.now.take change.now.give sums }
        ensures there { result ≡ true → HasAdjusted change.now.take change.now.give at self.old.entries self.new.entries }
        ensures absent { result ≡ false → slice_get self.old.entries at ≡ None }
        ensures same { result ≡ false → self.new.entries ≡ self.old.entries }
        ensures rings { self.new.rings ≡ self.old.rings }
        ensures room { self.old.spare ≤ self.new.spare }
    {
        self.sums.adjust(at, change)
    }
}

/// Makes deltas of the row at an index, where there is one.
fn shift_row(rows: &mut Vec<[u128; 15]>, at: usize, deltas: &[Delta])
    requires apart { AreApart deltas.now }
    requires old { (own : List ℕ) → slice_get rows.old.items at ≡ Some own → HaveOld deltas.now own }
    requires fits { (own : List ℕ) → slice_get rows.old.items at ≡ Some own → OwnFit (shifted deltas.now own) }
    ensures rows { rows.new.items ≡ changed_row at (shifted deltas.now) rows.old.items }
    ensures long { (own : List ℕ) → slice_get rows.old.items at ≡ Some own → length own ≡ 15 }
    ensures len { vec_len rows.new ≡ vec_len rows.old }
    ensures room { vec_capacity rows.new ≡ vec_capacity rows.old }
{
    if at < rows.len() {
        shift(&mut rows[at], deltas);
    }
}
