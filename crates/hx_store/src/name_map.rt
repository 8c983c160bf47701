// The objects of one kind in one namespace: one by itself, a few in a list of names, or more on a table of names.
ghost use Rattle.std.specs.Prelude.{◌≡◌, ◌++◌, ◌∷◌, ◌↔◌, ℕ, List, false, cond, IfOk, IfSome, OnOk, IsTrue, [], MatchResult, length, option_copied, slice_get};
ghost use Rattle.std.specs.Option.{option_map};
ghost use Rattle.std.specs.Str.{bytes_eq};
ghost use Rattle.hx_store.specs.Least.{IsLeast};
ghost use Rattle.hx_store.specs.ObjectTable.{IsNameMap, IsNameTable, place_in, place_along, place_on, entries_of, found, EditsNameMap, made, filled, swept, unchanged, objects_in, IsNewNameMap, HasNoOther};

use crate::name_list::NameList;
use crate::name_table::NameTable;
use hx_object::{NoMemory, Shared, Text};
use std::alloc::Global;
use std::hash::RandomState;
use std::mem;

/// The objects of one kind in one namespace, by their names.
///
/// Most maps of names have one place, which needs no memory of its own. A list of names takes the places when a second name gets one, and a table of names when the list of names is full. They stay there when names go.
pub(crate) enum NameMap {
    /// No places.
    Empty,
    /// The place of one name, which is empty.
    Held { name: Text },
    /// The object of one name.
    One { name: Text, object: Shared },
    /// Places in a list of names.
    Few(NameList),
    /// Places in a table of names.
    Many(Box<NameTable>),
}

impl Drop for NameMap {
    fn drop(self) {
        match self {
            NameMap::Empty => {}
            NameMap::Held { name } => drop(name),
            NameMap::One { name, object } => {
                drop(name);
                drop(object);
            }
            NameMap::Few(name_list) => drop(name_list),
            NameMap::Many(name_table) => drop(name_table),
        }
    }
}

impl NameMap {
    /// A map of names with one place, which is empty.
    pub(crate) fn new(alloc: Global, name: &str) -> Result<NameMap, NoMemory>
        ensures name_map { IfOk result IsNameMap }
        ensures places { IfOk result (IsNewNameMap name.now) }
    {
        Ok(NameMap::Held {
            name: Text::of(alloc, name)?,
        })
    }

    /// The object of a name.
    pub(crate) fn find(&self, name: &str) -> Option<&Shared>
        ensures { option_copied result ≡ found (place_in self.now name.now) }
    {
        match self {
            NameMap::Empty => None,
            NameMap::Held { .. } => None,
            NameMap::One { name: held, object } => {
                if name == held.as_str() {
                    return Some(object);
                }
                None
            }
            NameMap::Few(name_list) => name_list.find(name),
            NameMap::Many(name_table) => name_table.as_ref().find(name),
        }
    }

    /// Makes a place for the object of a name, unless there is one.
    pub(crate) fn make(
        &mut self,
        alloc: Global,
        keys: RandomState,
        name: &str,
    ) -> Result<(), NoMemory>
        ensures name_map { IsNameMap self.old → IsNameMap self.new }
        ensures places { MatchResult result (λ _. EditsNameMap made self.old self.new name.now) (λ _. EditsNameMap unchanged self.old self.new name.now) }
    {
        match self {
            NameMap::Empty => {
                *self = NameMap::new(alloc, name)?;
                Ok(())
            }
            NameMap::Held { name: held } => {
                if name == held.as_str() {
                    return Ok(());
                }
                *self = NameMap::Few(NameList::of(alloc, held.as_str(), None, name)?);
                Ok(())
            }
            NameMap::One { name: held, object } => {
                if name == held.as_str() {
                    return Ok(());
                }
                let place = Some(object.share()?);
                *self = NameMap::Few(NameList::of(alloc, held.as_str(), place, name)?);
                Ok(())
            }
            NameMap::Few(name_list) => {
                if name_list.takes(name) {
                    return name_list.make(alloc, name);
                }
                *self = NameMap::Many(grown(alloc, keys, name_list, name)?);
                Ok(())
            }
            NameMap::Many(name_table) => name_table.as_mut().make(name),
        }
    }

    /// Puts an object, or none, in the place of a name, where there is one.
    pub(crate) fn fill(&mut self, alloc: Global, name: &str, object: Option<Shared>)
        requires { IfSome object (λ x. x.id.name ≡ name.now) }
        ensures name_map { IsNameMap self.old → IsNameMap self.new }
        ensures places { EditsNameMap (filled object) self.old self.new name.now }
    {
        match self {
            NameMap::Empty => drop(object),
            NameMap::Held { name: held } => {
                if name == held.as_str() {
                    *self = alone(taken(alloc, held), object);
                } else {
                    drop(object);
                }
            }
            NameMap::One { name: held, .. } => {
                if name == held.as_str() {
                    *self = alone(taken(alloc, held), object);
                } else {
                    drop(object);
                }
            }
            NameMap::Few(name_list) => name_list.fill(name, object),
            NameMap::Many(name_table) => name_table.as_mut().fill(name, object),
        }
    }

    /// Takes the place of a name away where it is empty.
    pub(crate) fn sweep(&mut self, name: &str)
        ensures name_map { IsNameMap self.old → IsNameMap self.new }
        ensures places { EditsNameMap swept self.old self.new name.now }
    {
        match self {
            NameMap::Empty => {}
            NameMap::Held { name: held } => {
                if name == held.as_str() {
                    *self = NameMap::Empty;
                }
            }
            NameMap::One { .. } => {}
            NameMap::Few(name_list) => name_list.sweep(name),
            NameMap::Many(name_table) => name_table.as_mut().sweep(name),
        }
    }

    /// Whether there are no places.
    pub(crate) fn is_empty(&self) -> bool
        ensures { IsTrue result ↔ (entries_of self.now ≡ []) }
    {
        match self {
            NameMap::Empty => true,
            NameMap::Held { .. } => false,
            NameMap::One { .. } => false,
            NameMap::Few(name_list) => name_list.is_empty(),
            NameMap::Many(name_table) => name_table.as_ref().is_empty(),
        }
    }

    /// How many places there are.
    pub(crate) fn len(&self) -> usize
        ensures { result ≡ length (entries_of self.now) }
    {
        match self {
            NameMap::Empty => 0,
            NameMap::Held { .. } => 1,
            NameMap::One { .. } => 1,
            NameMap::Few(name_list) => name_list.len(),
            NameMap::Many(name_table) => name_table.as_ref().len(),
        }
    }

    /// The name of the place at an index.
    pub(crate) fn name_at(&self, index: usize) -> Option<&Text>
        ensures { option_copied result ≡ option_map (λ e. e.0) (slice_get (entries_of self.now) index) }
    {
        match self {
            NameMap::Empty => None,
            NameMap::Held { name } => first(name, index),
            NameMap::One { name, .. } => first(name, index),
            NameMap::Few(name_list) => name_list.name_at(index),
            NameMap::Many(name_table) => name_table.as_ref().name_at(index),
        }
    }

    /// Whether there may be a place of another name. Of many it looks at none, and says that there may.
    pub(crate) fn may_have_another(&self, name: &str) -> bool
        ensures { result ≡ false → HasNoOther (place_in self.now) name.now }
    {
        match self {
            NameMap::Empty => false,
            NameMap::Held { name: held } => name != held.as_str(),
            NameMap::One { name: held, .. } => name != held.as_str(),
            NameMap::Few(name_list) => name_list.has_another(name),
            NameMap::Many(_) => true,
        }
    }

    /// Adds the objects to those that are listed.
    pub(crate) fn list(&self, listed: &mut Vec<Shared>) -> Result<(), NoMemory>
        ensures { OnOk result (listed.new.items ≡ listed.old.items ++ objects_in self.now) }
    {
        match self {
            NameMap::Empty => Ok(()),
            NameMap::Held { .. } => Ok(()),
            NameMap::One { object, .. } => {
                listed.push(object.share()?)?;
                Ok(())
            }
            NameMap::Few(name_list) => name_list.list(listed),
            NameMap::Many(name_table) => name_table.as_ref().list(listed),
        }
    }

    /// Puts the names in descending order where there are many. Where there is no memory for it, they stay as they are.
    pub(crate) fn sort(&mut self)
        ensures name_map { IsNameMap self.old → IsNameMap self.new }
        ensures places { (q : List ℕ) → place_in self.new q ≡ place_in self.old q }
    {
        if let NameMap::Many(name_table) = self {
            name_table.as_mut().sort();
        }
    }

    /// The object of the least name.
    pub(crate) fn least(&self) -> Option<&Shared>
        ensures { IsNameMap self.now → IsLeast (λ name. found (place_in self.now name)) (option_copied result) }
    {
        match self {
            NameMap::Empty => None,
            NameMap::Held { .. } => None,
            NameMap::One { object, .. } => Some(object),
            NameMap::Few(name_list) => name_list.least(),
            NameMap::Many(name_table) => name_table.as_ref().least(),
        }
    }
}

/// A map of names with one place.
fn alone(name: Text, place: Option<Shared>) -> NameMap
    ensures name_map { IsNameMap result }
    ensures places { entries_of result ≡ (name, place) ∷ [] }
{
    match place {
        Some(object) => NameMap::One { name, object },
        None => NameMap::Held { name },
    }
}

/// The one name of a map of names, at the first index.
fn first(name: &Text, index: usize) -> Option<&Text>
    ensures { option_copied result ≡ slice_get (name.now ∷ []) index }
{
    if index == 0 {
        return Some(name);
    }
    None
}

/// A name that is taken out of its map of names. An empty text, which needs no memory, stands there until the map of names is replaced.
fn taken(alloc: Global, name: &mut Text) -> Text
    ensures { result ≡ name.old }
{
    mem::replace(name, Text::of_string(String::new(alloc)))
}

/// A table of names with the places of a list of names, and an empty one of another name.
fn grown(
    alloc: Global,
    keys: RandomState,
    name_list: &NameList,
    name: &str,
) -> Result<Box<NameTable>, NoMemory>
    ensures name_table { IfOk result (λ name_table. IsNameTable name_table.value) }
    ensures places { IfOk result (λ name_table. (q : List ℕ) → place_on name_table.value q ≡ cond (bytes_eq name.now q) (made (place_along name_list.now q)) (place_along name_list.now q)) }
{
    let mut name_table = name_list.to_name_table(alloc, keys)?;
    name_table.make(name)?;
    Ok(Box::new(alloc, name_table)?)
}
