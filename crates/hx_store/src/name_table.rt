// The objects of one kind in one namespace.
ghost use Rattle.std.specs.Prelude.{◌≡◌, ◌++◌, ◌<◌, ◌≤◌, ◌↔◌, ℕ, List, cond, Some, None, IfSome, OnOk, IsTrue, [], MatchResult, length, option_copied, position, slice_get, take};
ghost use Rattle.std.specs.List.{IsDistinct};
ghost use Rattle.std.specs.Map.{keys_of, lookup};
ghost use Rattle.std.specs.Map.Iter.{deref_pair};
ghost use Rattle.std.specs.Str.{bytes_eq};
ghost use Rattle.std.specs.Option.{option_map};
ghost use Rattle.hx_store.specs.Least.{Descends, IsLeast, lesser, least_entry};
ghost use Rattle.hx_store.specs.ObjectTable.{IsNameTable, place_on, entries_on, found, EditsNameTable, made, added, filled, swept, unchanged, of_place, objects_on};
ghost use Rattle.hx_store.specs.Slots.{Entry, same_name};

use crate::slot::Slot;
use hx_object::{NoMemory, Shared, Text};
use indexmap::IndexSet;
use std::alloc::Global;
use std::hash::RandomState;

/// Slots by their names. They hash with keys that are handed in, since strangers choose the names.
type Slots = IndexSet<Slot, RandomState>;

/// The objects of one kind in one namespace, by their names.
///
/// A place may be empty: it is made for an object that is going to be stored, so that storing it takes no memory. An object that is taken away leaves its slot behind, which gives the empty place its name until that is swept.
pub(crate) struct NameTable {
    places: Slots,
    /// How many of the slots, from the first one on, show what they have. The places of the others are empty.
    shown: usize,
    /// Whether the names of those are known to lie in descending order, so that the last one is the least.
    descends: bool,
}

impl Drop for NameTable {
    fn drop(self) {
        let NameTable {
            places: _,
            shown: _,
            descends: _,
        } = self;
    }
}

impl NameTable {
    /// A table of names with no places.
    pub(crate) fn new(alloc: Global, keys: RandomState) -> NameTable
        ensures name_table { IsNameTable result }
        ensures places { entries_on result ≡ [] }
    {
        NameTable {
            places: IndexSet::with_hasher(alloc, keys),
            shown: 0,
            descends: false,
        }
    }

    /// The object of a name.
    pub(crate) fn find(&self, name: &str) -> Option<&Shared>
        ensures { option_copied result ≡ found (place_on self.now name.now) }
    {
        match self.places.get_index_of(name) {
            Some(index) => self.object_at(index),
            None => None,
        }
    }

    /// The object in the place at an index.
    fn object_at(&self, index: usize) -> Option<&Shared>
        ensures { (name : List ℕ) → Some index ≡ position (λ e. bytes_eq name e.0) self.now.places.keys → option_copied result ≡ found (place_on self.now name) }
    {
        if self.shown <= index {
            return None;
        }
        match self.places.get_index(index) {
            Some(slot) => slot.object(),
            None => None,
        }
    }

    /// Makes a place for the object of a name, unless there is one.
    pub(crate) fn make(&mut self, name: &str) -> Result<(), NoMemory>
        ensures name_table { IsNameTable self.old → IsNameTable self.new }
        ensures places { MatchResult result (λ _. EditsNameTable made self.old self.new name.now) (λ _. EditsNameTable unchanged self.old self.new name.now) }
    {
        self.add(name, None)
    }

    /// Makes the place of a name, with an object or none in it, unless there is one.
    pub(crate) fn add(&mut self, name: &str, place: Option<Shared>) -> Result<(), NoMemory>
        ensures name_table { IsNameTable self.old → IsNameTable self.new }
        ensures places { MatchResult result (λ _. EditsNameTable (added place) self.old self.new name.now) (λ _. EditsNameTable unchanged self.old self.new name.now) }
    {
        if self.places.contains(name) {
            return Ok(());
        }
        let slot = Slot::of(*self.places.allocator(), name, place)?;
        self.descends = false;
        let (index, _added) = self.places.insert_full(slot)?;
        self.show(index);
        Ok(())
    }

    /// Puts an object, or none, in the place of a name, where there is one.
    pub(crate) fn fill(&mut self, name: &str, object: Option<Shared>)
        requires { IfSome object (λ x. x.id.name ≡ name.now) }
        ensures name_table { IsNameTable self.old → IsNameTable self.new }
        ensures places { EditsNameTable (filled object) self.old self.new name.now }
    {
        match object {
            Some(object) => self.store(object),
            None => self.clear(name),
        }
    }

    /// Puts an object in the place of its name, where there is one.
    fn store(&mut self, object: Shared)
        ensures name_table { IsNameTable self.old → IsNameTable self.new }
        ensures places { EditsNameTable (filled (Some object)) self.old self.new object.id.name }
    {
        let slot = Slot::own(object);
        let Some(index) = self.places.get_index_of(&slot) else {
            return;
        };
        let _had = self.places.replace(slot);
        self.show(index);
    }

    /// Leaves nothing in the place of a name, where there is one.
    fn clear(&mut self, name: &str)
        ensures name_table { IsNameTable self.old → IsNameTable self.new }
        ensures places { EditsNameTable (filled None) self.old self.new name.now }
    {
        if let Some(index) = self.places.get_index_of(name) {
            self.hide(index);
        }
    }

    /// Takes the place of a name away where it is empty.
    pub(crate) fn sweep(&mut self, name: &str)
        ensures name_table { IsNameTable self.old → IsNameTable self.new }
        ensures places { EditsNameTable swept self.old self.new name.now }
    {
        let Some(index) = self.places.get_index_of(name) else {
            return;
        };
        if let Some(_object) = self.object_at(index) {
            return;
        }
        let index = self.hide(index);
        let _slot = self.places.swap_remove_index(index);
    }

    /// Lets the place at an index hold what its slot has. Names that descend may do so no longer.
    fn show(&mut self, index: usize)
        requires { index < length self.old.places.keys }
        ensures name_table { IsNameTable self.old → IsNameTable self.new }
        ensures places { (e : Entry) → slice_get self.old.places.keys index ≡ Some e → (q : List ℕ) → place_on self.new q ≡ cond (bytes_eq e.0 q) (Some e.1) (place_on self.old q) }
    {
        let len = self.places.len();
        prove!(index < len);
        if index < self.shown {
            return;
        }
        self.places.swap_indices(index, self.shown);
        self.shown += 1;
        self.descends = false;
    }

    /// Leaves the place at an index empty, and gives the index that its slot has then. Names that descend still do where it is the last one that is shown.
    fn hide(&mut self, index: usize) -> usize
        requires { index < length self.old.places.keys }
        ensures name_table { IsNameTable self.old → IsNameTable self.new }
        ensures places { (e : Entry) → slice_get self.old.places.keys index ≡ Some e → (q : List ℕ) → place_on self.new q ≡ cond (bytes_eq e.0 q) (Some None) (place_on self.old q) }
        ensures at { slice_get self.new.places.keys result ≡ slice_get self.old.places.keys index }
        ensures behind { self.new.shown ≤ result }
        ensures unique { IsDistinct same_name self.new.places.keys }
    {
        let len = self.places.len();
        if self.shown <= index {
            return index;
        }
        let last = self.shown.min(len) - 1;
        self.places.swap_indices(index, last);
        self.shown = last;
        self.descends = self.descends && index == last;
        last
    }

    /// Puts the names in descending order, so that the least is the last, and taking it away moves none. Where there is no memory for it, or a slot isn't shown, they stay as they are.
    pub(crate) fn sort(&mut self)
        ensures name_table { IsNameTable self.old → IsNameTable self.new }
        ensures places { (q : List ℕ) → place_on self.new q ≡ place_on self.old q }
    {
        if self.descends {
            return;
        }
        if self.shown < self.places.len() {
            return;
        }
        if let Ok(()) = sort(&mut self.places) {
            self.descends = true;
        }
    }

    /// Whether there are no places.
    pub(crate) fn is_empty(&self) -> bool
        ensures { IsTrue result ↔ (entries_on self.now ≡ []) }
    {
        self.places.is_empty()
    }

    /// How many places there are.
    pub(crate) fn len(&self) -> usize
        ensures { result ≡ length (entries_on self.now) }
    {
        self.places.len()
    }

    /// The name of the place at an index.
    pub(crate) fn name_at(&self, index: usize) -> Option<&Text>
        ensures { option_copied result ≡ option_map (λ e. e.0) (slice_get (entries_on self.now) index) }
    {
        match self.places.get_index(index) {
            Some(slot) => Some(slot.name()),
            None => None,
        }
    }

    /// Adds the objects to those that are listed.
    pub(crate) fn list(&self, listed: &mut Vec<Shared>) -> Result<(), NoMemory>
        ensures { OnOk result (listed.new.items ≡ listed.old.items ++ objects_on self.now) }
    {
        for slot in self.slots() {
            list_place(slot.object(), listed)?;
        }
        Ok(())
    }

    /// The object of the least name.
    pub(crate) fn least(&self) -> Option<&Shared>
        ensures { IsNameTable self.now → IsLeast (λ name. found (place_on self.now name)) (option_copied result) }
    {
        if let Some(object) = self.last() {
            return Some(object);
        }
        match self.walk() {
            Some((_, object)) => Some(object),
            None => None,
        }
    }

    /// The object of the last slot that is shown, where the names descend.
    fn last(&self) -> Option<&Shared>
        ensures { IsNameTable self.now → IfSome (option_copied result) (λ x. IsLeast (λ name. found (place_on self.now name)) (Some x)) }
    {
        if !self.descends {
            return None;
        }
        match self.slots().last() {
            Some(slot) => slot.object(),
            None => None,
        }
    }

    /// The object of the least name, with the name. It looks at every slot that is shown.
    fn walk(&self) -> Option<(&Text, &Shared)>
        ensures { option_map deref_pair result ≡ least_entry None (take self.now.shown self.now.places.keys) }
    {
        let mut least = None;
        for slot in self.slots() {
            least = lesser(least, slot.name(), slot.object());
        }
        least
    }

    /// The slots that are shown.
    fn slots(&self) -> &[Slot]
        ensures { result.now ≡ take self.now.shown self.now.places.keys }
    {
        let slots = self.places.as_slice();
        &slots[..self.shown.min(slots.len())]
    }
}

/// Adds the object of a place, where there is one, to those that are listed.
pub(crate) fn list_place(place: Option<&Shared>, listed: &mut Vec<Shared>) -> Result<(), NoMemory>
    ensures { OnOk result (listed.new.items ≡ listed.old.items ++ of_place (option_copied place.entry)) }
{
    if let Some(object) = place {
        listed.push(object.share()?)?;
    }
    Ok(())
}

/// Sorts slots by their names, in descending order.
fn sort(places: &mut Slots) -> Result<(), NoMemory>
    ensures distinct { IsDistinct same_name places.new.keys }
    ensures descends { OnOk result (Descends (keys_of places.new.keys)) }
    ensures places { (q : List ℕ) → lookup (bytes_eq q) places.new.keys ≡ lookup (bytes_eq q) places.old.keys }
    ensures len { length places.new.keys ≡ length places.old.keys }
{
    places.sort_unstable()?;
    places.reverse();
    Ok(())
}

/// The one of the lesser name: of an object that was found before, and what a place holds.
pub(crate) fn lesser<'a>(
    best: Option<(&'a Text, &'a Shared)>,
    name: &'a Text,
    place: Option<&'a Shared>,
) -> Option<(&'a Text, &'a Shared)>
    ensures { option_map deref_pair result ≡ lesser (option_map deref_pair best.entry) (name.now, option_copied place.entry) }
{
    let Some(object) = place else {
        return best;
    };
    match best {
        Some((least, _)) if name >= least => best,
        _ => Some((name, object)),
    }
}
