// The places of the objects of all kinds.
ghost use Rattle.std.specs.Prelude.{◌≡◌, ◌++◌, ◌-◌, ◌<◌, ℕ, List, [], true, Option, Some, IfSome, OnOk, MatchResult, is_some, length, option_copied, slice_get};
ghost use Rattle.hx_object.specs.Kinds.{number_of};
ghost use Rattle.hx_model.specs.State.{least_in};
ghost use Rattle.hx_store.specs.ObjectTable.{IsObjectTable, IsSound, objects_at, place_at, found, EditsObjectTable, made, filled, swept, unchanged, objects_listed};
ghost use Rattle.hx_store.specs.Sources.{indexed_in};

use crate::change::is_indexed;
use crate::kind_table::KindTable;
use hx_object::{Id, Kind, NoMemory, Shared, Text};
use std::alloc::Global;
use std::array;
use std::hash::RandomState;

/// How many kinds there are.
const KINDS: usize = 14;

/// Where the first kind lies whose objects lie in namespaces. Those of the kinds before it lie in the cluster.
const FIRST_NAMESPACED: usize = 2;

/// The places of the objects of all kinds, kind by kind in the order of their numbers.
pub(crate) struct ObjectTable {
    kinds: [KindTable; KINDS],
}

impl Drop for ObjectTable {
    fn drop(self) {
        let ObjectTable { kinds: _ } = self;
    }
}

impl ObjectTable {
    /// No objects.
    pub(crate) fn new(alloc: Global, keys: RandomState) -> ObjectTable
        ensures long { length result.kinds ≡ 14 }
        ensures empty { (i : ℕ) (kind_table : KindTable) → slice_get result.kinds i ≡ Some kind_table → kind_table.namespaces.entries ≡ [] }
    {
        ObjectTable {
            kinds: empty_kinds(alloc, keys),
        }
    }

    /// The object of a kind, a namespace and a name.
    pub(crate) fn find(&self, kind: Kind, ns: &str, name: &str) -> Option<&Shared>
        ensures { option_copied result ≡ found (place_at self.now (record { kind = kind; ns = ns.now; name = name.now })) }
    {
        self.kinds[index_of(kind)].find(ns, name)
    }

    /// The source or the anchor of a kind, a namespace and a name.
    pub(crate) fn find_indexed(&self, kind: Kind, ns: &str, name: &str) -> Option<&Shared>
        ensures { option_copied result ≡ indexed_in (found (place_at self.now (record { kind = kind; ns = ns.now; name = name.now }))) }
    {
        let Some(object) = self.find(kind, ns, name) else {
            return None;
        };
        if is_indexed(object.object()) {
            return Some(object);
        }
        None
    }

    /// Whether the object of an identity is a source or an anchor.
    pub(crate) fn has_indexed(&self, id: &Id) -> bool
        ensures { result ≡ is_some (indexed_in (found (place_at self.now id.now))) }
    {
        self.find_indexed(id.kind, id.ns.as_str(), id.name.as_str())
            .is_some()
    }

    /// Whether there are no places of a kind.
    pub(crate) fn is_empty(&self, kind: Kind) -> bool
        ensures { result ≡ true → (ns : Option (List ℕ)) → objects_listed self.now kind ns ≡ [] }
    {
        self.kinds[index_of(kind)].is_empty()
    }

    /// Makes a place for the object of an identity, unless there is one.
    pub(crate) fn make(&mut self, id: &Id) -> Result<(), NoMemory>
        ensures places { IsObjectTable self.old → IsObjectTable self.new }
        ensures made { MatchResult result (λ _. EditsObjectTable made self.old self.new id.now) (λ _. EditsObjectTable unchanged self.old self.new id.now) }
    {
        self.kinds[index_of(id.kind)].make(id.ns.as_str(), id.name.as_str())
    }

    /// Puts an object, or none, in the place of an identity, where there is one.
    pub(crate) fn fill(&mut self, id: &Id, object: Option<Shared>)
        requires { IfSome object (λ x. x.id.name ≡ id.now.name) }
        ensures places { IsObjectTable self.old → IsObjectTable self.new }
        ensures filled { EditsObjectTable (filled object) self.old self.new id.now }
    {
        self.kinds[index_of(id.kind)].fill(id.ns.as_str(), id.name.as_str(), object);
    }

    /// Takes the place of an identity away where it is empty.
    pub(crate) fn sweep(&mut self, id: &Id)
        ensures places { IsObjectTable self.old → IsObjectTable self.new }
        ensures swept { EditsObjectTable swept self.old self.new id.now }
    {
        self.kinds[index_of(id.kind)].sweep(id.ns.as_str(), id.name.as_str());
    }

    /// Puts the objects of each kind that lie in a namespace in descending order of their names. Where there is no memory for it, they stay as they are.
    pub(crate) fn sort(&mut self, ns: &str)
        ensures places { IsObjectTable self.old → IsObjectTable self.new }
        ensures same { IsObjectTable self.old → (id : Id) → place_at self.new id ≡ place_at self.old id }
    {
        for index in FIRST_NAMESPACED..KINDS {
            self.kinds[index].sort(ns);
        }
    }

    /// The first object that lies in a namespace, in the order of identities.
    pub(crate) fn least(&self, ns: &str) -> Option<&Shared>
        ensures { IsSound self.now → option_copied result ≡ least_in (objects_at self.now) ns.now }
    {
        for index in FIRST_NAMESPACED..KINDS {
            if let Some(object) = self.kinds[index].least(ns) {
                return Some(object);
            }
        }
        None
    }

    /// Adds the objects of a kind, in one namespace or in all, to those that are listed.
    pub(crate) fn list(
        &self,
        kind: Kind,
        ns: Option<&Text>,
        listed: &mut Vec<Shared>,
    ) -> Result<(), NoMemory>
        ensures { OnOk result (listed.new.items ≡ listed.old.items ++ objects_listed self.now kind (option_copied ns.entry)) }
    {
        let kind_table = &self.kinds[index_of(kind)];
        match ns {
            None => kind_table.list(listed),
            Some(ns) => kind_table.list_in(ns.as_str(), listed),
        }
    }
}

/// No objects, kind by kind.
pub(crate) fn empty_kinds(alloc: Global, keys: RandomState) -> [KindTable; KINDS]
    ensures long { length result ≡ 14 }
    ensures empty { (i : ℕ) (kind_table : KindTable) → slice_get result i ≡ Some kind_table → kind_table.namespaces.entries ≡ [] }
{
    array::from_fn(|_| KindTable::new(alloc, keys))
}

/// Where the objects of a kind lie.
pub(crate) fn index_of(kind: Kind) -> usize
    ensures value { result ≡ number_of kind - 1 }
    ensures small { result < 14 }
{
    kind.number() as usize - 1
}
