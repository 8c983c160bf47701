// The objects of a few names of one kind in one namespace.
ghost use Rattle.std.specs.Prelude.{◌≡◌, ◌++◌, ◌∷◌, ◌↔◌, ℕ, List, cond, IfOk, OnOk, IsTrue, [], MatchResult, None, length, option_copied, position, slice_get};
ghost use Rattle.std.specs.List.{list_any};
ghost use Rattle.std.specs.Map.Iter.{deref_pair};
ghost use Rattle.std.specs.Option.{option_map};
ghost use Rattle.std.specs.Str.{bytes_eq};
ghost use Rattle.hx_store.specs.Least.{IsLeast, least_entry};
ghost use Rattle.hx_store.specs.ObjectTable.{IsNameList, IsNameTable, place_along, place_alone, place_on, found, EditsNameList, made, filled, swept, unchanged, objects_along, is_of_another};

use crate::name_table::{NameTable, lesser, list_place};
use hx_object::{NoMemory, Shared, Text};
use std::alloc::Global;
use std::hash::RandomState;

/// The most names that a list of names takes.
const MOST: usize = 8;

/// The objects of a few names of one kind in one namespace.
///
/// It is walked: no name is hashed, and the places take one piece of memory. A place may be empty, as on a table of names.
pub(crate) struct NameList {
    places: Vec<(Text, Option<Shared>)>,
}

impl Drop for NameList {
    fn drop(self) {
        let NameList { places: _ } = self;
    }
}

impl NameList {
    /// A list of names with the place of one name, and an empty one of another.
    pub(crate) fn of(
        alloc: Global,
        held: &str,
        place: Option<Shared>,
        name: &str,
    ) -> Result<NameList, NoMemory>
        ensures name_list { IfOk result IsNameList }
        ensures places { IfOk result (λ name_list. (q : List ℕ) → place_along name_list q ≡ cond (bytes_eq name.now q) (made (place_alone held.now place q)) (place_alone held.now place q)) }
    {
        let mut name_list = NameList::alone(alloc, held, place)?;
        name_list.make(alloc, name)?;
        Ok(name_list)
    }

    /// A list of names with one place.
    fn alone(alloc: Global, name: &str, place: Option<Shared>) -> Result<NameList, NoMemory>
        ensures { IfOk result (λ name_list. name_list.places.items ≡ (name.now, place) ∷ []) }
    {
        let name = Text::of(alloc, name)?;
        let mut places = Vec::new(alloc);
        places.push((name, place))?;
        Ok(NameList { places })
    }

    /// A table of names with the same places.
    pub(crate) fn to_name_table(
        &self,
        alloc: Global,
        keys: RandomState,
    ) -> Result<NameTable, NoMemory>
        ensures name_table { IfOk result IsNameTable }
        ensures places { IfOk result (λ name_table. (q : List ℕ) → place_on name_table q ≡ place_along self.now q) }
    {
        let mut name_table = NameTable::new(alloc, keys);
        for (name, place) in self.places.iter() {
            name_table.add(name.as_str(), share(place)?)?;
        }
        Ok(name_table)
    }

    /// Whether the place of a name is here, or there is room for it. It matters to time and memory alone.
    pub(crate) fn takes(&self, name: &str) -> bool {
        self.places.len() < MOST || self.place(name).is_some()
    }

    /// The place of a name.
    fn place(&self, name: &str) -> Option<&Option<Shared>>
        ensures { option_copied result ≡ place_along self.now name.now }
    {
        for (held, place) in self.places.iter() {
            if name == held.as_str() {
                return Some(place);
            }
        }
        None
    }

    /// The object of a name.
    pub(crate) fn find(&self, name: &str) -> Option<&Shared>
        ensures { option_copied result ≡ found (place_along self.now name.now) }
    {
        match self.place(name) {
            Some(place) => place.as_ref(),
            None => None,
        }
    }

    /// Makes a place for the object of a name, unless there is one.
    pub(crate) fn make(&mut self, alloc: Global, name: &str) -> Result<(), NoMemory>
        ensures name_list { IsNameList self.old → IsNameList self.new }
        ensures places { MatchResult result (λ _. EditsNameList made self.old self.new name.now) (λ _. EditsNameList unchanged self.old self.new name.now) }
    {
        if let Some(_place) = self.place(name) {
            return Ok(());
        }
        let name = Text::of(alloc, name)?;
        self.places.push((name, None))?;
        Ok(())
    }

    /// Puts an object, or none, in the place of a name, where there is one.
    pub(crate) fn fill(&mut self, name: &str, object: Option<Shared>)
        ensures name_list { IsNameList self.old → IsNameList self.new }
        ensures places { EditsNameList (filled object) self.old self.new name.now }
    {
        match self.index_of(name) {
            Some(index) => self.places[index].1 = object,
            None => drop(object),
        }
    }

    /// Where the place of a name is.
    fn index_of(&self, name: &str) -> Option<usize>
        ensures { result ≡ position (λ place. bytes_eq name.now place.0) self.now.places.items }
    {
        self.places
            .iter()
            .position(|place| name == place.0.as_str())
    }

    /// Takes the place of a name away where it is empty.
    pub(crate) fn sweep(&mut self, name: &str)
        ensures name_list { IsNameList self.old → IsNameList self.new }
        ensures places { EditsNameList swept self.old self.new name.now }
    {
        if let Some(None) = self.place(name) {
            self.places.retain(|place| name != place.0.as_str());
        }
    }

    /// Whether there are no places.
    pub(crate) fn is_empty(&self) -> bool
        ensures { IsTrue result ↔ (self.now.places.items ≡ []) }
    {
        self.places.is_empty()
    }

    /// How many places there are.
    pub(crate) fn len(&self) -> usize
        ensures { result ≡ length self.now.places.items }
    {
        self.places.len()
    }

    /// The name of the place at an index.
    pub(crate) fn name_at(&self, index: usize) -> Option<&Text>
        ensures { option_copied result ≡ option_map (λ e. e.0) (slice_get self.now.places.items index) }
    {
        match self.places.get(index) {
            Some((name, _)) => Some(name),
            None => None,
        }
    }

    /// Whether there is a place of another name.
    pub(crate) fn has_another(&self, name: &str) -> bool
        ensures { result ≡ list_any (is_of_another name.now) self.now.places.items }
    {
        for (held, _) in self.places.iter() {
            if name != held.as_str() {
                return true;
            }
        }
        false
    }

    /// Adds the objects to those that are listed.
    pub(crate) fn list(&self, listed: &mut Vec<Shared>) -> Result<(), NoMemory>
        ensures { OnOk result (listed.new.items ≡ listed.old.items ++ objects_along self.now) }
    {
        for (_, place) in self.places.iter() {
            list_place(place.as_ref(), listed)?;
        }
        Ok(())
    }

    /// The object of the least name.
    pub(crate) fn least(&self) -> Option<&Shared>
        ensures { IsNameList self.now → IsLeast (λ name. found (place_along self.now name)) (option_copied result) }
    {
        match self.walk() {
            Some((_, object)) => Some(object),
            None => None,
        }
    }

    /// The object of the least name, with the name.
    fn walk(&self) -> Option<(&Text, &Shared)>
        ensures { option_map deref_pair result ≡ least_entry None self.now.places.items }
    {
        let mut least = None;
        for (name, place) in self.places.iter() {
            least = lesser(least, name, place.as_ref());
        }
        least
    }
}

/// What a place holds, with one more owner.
fn share(place: &Option<Shared>) -> Result<Option<Shared>, NoMemory>
    ensures { IfOk result (λ shared. shared ≡ place.now) }
{
    match place {
        Some(object) => Ok(Some(object.share()?)),
        None => Ok(None),
    }
}
