// The objects of one kind.
ghost use Rattle.std.specs.Prelude.{◌≡◌, ◌++◌, ℕ, List, false, true, Option, [], None, IfSome, OnOk, MatchResult, option_copied};
ghost use Rattle.std.specs.Option.{option_map_or};
ghost use Rattle.hx_store.specs.Least.{IsLeast};
ghost use Rattle.hx_store.specs.ObjectTable.{IsKindTable, name_map_in, place_of, found, EditsKindTable, made, filled, swept, unchanged, objects_in, objects_of, objects_under, HasNoOther};

use crate::map::{TextMap, empty_map};
use crate::name_map::NameMap;
use hx_object::{NoMemory, Shared, Text};
use std::alloc::Global;
use std::hash::RandomState;

/// The objects of one kind, by their namespaces. No map of names is without places.
pub(crate) struct KindTable {
    namespaces: TextMap<NameMap>,
}

impl Drop for KindTable {
    fn drop(self) {
        let KindTable { namespaces: _ } = self;
    }
}

impl KindTable {
    /// No objects.
    pub(crate) fn new(alloc: Global, keys: RandomState) -> KindTable
        ensures { result.namespaces.entries ≡ [] }
    {
        KindTable {
            namespaces: empty_map(alloc, keys),
        }
    }

    /// Whether there are no places.
    pub(crate) fn is_empty(&self) -> bool
        ensures { result ≡ true → (ns : Option (List ℕ)) → objects_under ns self.now ≡ [] }
    {
        self.namespaces.is_empty()
    }

    /// The objects of a namespace.
    pub(crate) fn name_map(&self, ns: &str) -> Option<&NameMap>
        ensures { option_copied result ≡ name_map_in self.now ns.now }
    {
        // many a kind has no objects, and then nothing is hashed
        if self.namespaces.is_empty() {
            return None;
        }
        self.namespaces.get(ns)
    }

    /// The object of a namespace and a name.
    pub(crate) fn find(&self, ns: &str, name: &str) -> Option<&Shared>
        ensures { option_copied result ≡ found (place_of self.now ns.now name.now) }
    {
        match self.name_map(ns) {
            Some(name_map) => name_map.find(name),
            None => None,
        }
    }

    /// Makes a place for an object, unless there is one.
    pub(crate) fn make(&mut self, ns: &str, name: &str) -> Result<(), NoMemory>
        ensures kind_table { IsKindTable self.old → IsKindTable self.new }
        ensures places { MatchResult result (λ _. EditsKindTable made self.old self.new ns.now name.now) (λ _. EditsKindTable unchanged self.old self.new ns.now name.now) }
    {
        let alloc = *self.namespaces.allocator();
        let keys = *self.namespaces.hasher();
        match self.namespaces.get_mut(ns) {
            Some(name_map) => name_map.make(alloc, keys, name),
            None => self.add(ns, name),
        }
    }

    /// Adds a map of names with an empty place, which hashes with the same keys.
    fn add(&mut self, ns: &str, name: &str) -> Result<(), NoMemory>
        requires { name_map_in self.old ns.now ≡ None }
        ensures kind_table { IsKindTable self.old → IsKindTable self.new }
        ensures places { MatchResult result (λ _. EditsKindTable made self.old self.new ns.now name.now) (λ _. EditsKindTable unchanged self.old self.new ns.now name.now) }
    {
        let alloc = *self.namespaces.allocator();
        let name_map = NameMap::new(alloc, name)?;
        let _none = self.namespaces.insert(Text::of(alloc, ns)?, name_map)?;
        Ok(())
    }

    /// Puts an object, or none, in its place, where there is one.
    pub(crate) fn fill(&mut self, ns: &str, name: &str, object: Option<Shared>)
        requires { IfSome object (λ x. x.id.name ≡ name.now) }
        ensures kind_table { IsKindTable self.old → IsKindTable self.new }
        ensures places { EditsKindTable (filled object) self.old self.new ns.now name.now }
    {
        let alloc = *self.namespaces.allocator();
        match self.namespaces.get_mut(ns) {
            Some(name_map) => name_map.fill(alloc, name, object),
            None => drop(object),
        }
    }

    /// Takes a place away where it is empty, and its map of names where it is the last one.
    pub(crate) fn sweep(&mut self, ns: &str, name: &str)
        ensures kind_table { IsKindTable self.old → IsKindTable self.new }
        ensures places { EditsKindTable swept self.old self.new ns.now name.now }
    {
        let Some(name_map) = self.namespaces.get_mut(ns) else {
            return;
        };
        name_map.sweep(name);
        if name_map.is_empty() {
            let _name_map = self.namespaces.swap_remove(ns);
        }
    }

    /// Puts the objects of a namespace in descending order of their names. Where there is no memory for it, they stay as they are.
    pub(crate) fn sort(&mut self, ns: &str)
        ensures kind_table { IsKindTable self.old → IsKindTable self.new }
        ensures places { (n m : List ℕ) → place_of self.new n m ≡ place_of self.old n m }
    {
        if let Some(name_map) = self.namespaces.get_mut(ns) {
            name_map.sort();
        }
    }

    /// The object of the least name in a namespace.
    pub(crate) fn least(&self, ns: &str) -> Option<&Shared>
        ensures { IsKindTable self.now → IsLeast (λ name. found (place_of self.now ns.now name)) (option_copied result) }
    {
        match self.name_map(ns) {
            Some(name_map) => name_map.least(),
            None => None,
        }
    }

    /// Whether a namespace may have a place of another name. Of many it looks at none, and says that it may.
    pub(crate) fn may_have_another(&self, ns: &str, name: &str) -> bool
        ensures { result ≡ false → HasNoOther (place_of self.now ns.now) name.now }
    {
        match self.name_map(ns) {
            Some(name_map) => name_map.may_have_another(name),
            None => false,
        }
    }

    /// Adds the objects of a namespace to those that are listed.
    pub(crate) fn list_in(&self, ns: &str, listed: &mut Vec<Shared>) -> Result<(), NoMemory>
        ensures { OnOk result (listed.new.items ≡ listed.old.items ++ option_map_or objects_in (name_map_in self.now ns.now) []) }
    {
        match self.name_map(ns) {
            Some(name_map) => name_map.list(listed),
            None => Ok(()),
        }
    }

    /// Adds the objects of all namespaces to those that are listed.
    pub(crate) fn list(&self, listed: &mut Vec<Shared>) -> Result<(), NoMemory>
        ensures { OnOk result (listed.new.items ≡ listed.old.items ++ objects_of self.now) }
    {
        for (_, name_map) in self.namespaces.iter() {
            name_map.list(listed)?;
        }
        Ok(())
    }
}
