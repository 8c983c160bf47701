// The namespaces of sources and anchors, by their names.
ghost use Rattle.std.specs.Prelude.{◌≡◌, ◌++◌, ℕ, false, [], Some, OnOk, MatchResult, length, slice_get, option_copied};
ghost use Rattle.std.specs.Option.{option_map_or};
ghost use Rattle.hx_store.specs.ObjectTable.{IsObjectTable, EditsObjectTable, made, swept, unchanged, entries_of, of_place, HasNoOther};
ghost use Rattle.hx_store.specs.ByName.{turned, turned_places, entry_place, entries_at, indexed_at, indexed_among};

use crate::kind_table::KindTable;
use crate::name_map::NameMap;
use crate::object_table::{ObjectTable, empty_kinds, index_of};
use hx_object::{Id, Kind, NoMemory, Shared, Text};
use std::alloc::Global;
use std::hash::RandomState;

/// Where sources and anchors lie, kind by kind in the order of their numbers.
///
/// Each has a place like all objects, but the other way round: by name, and then by namespace. So the namespaces of one name are found at once. The places are always empty: an object lies in one place alone, and a write of contents leaves the index as it is. There may be places of others, which are passed over.
pub(crate) struct ByName {
    kinds: [KindTable; 14],
}

impl Drop for ByName {
    fn drop(self) {
        let ByName { kinds: _ } = self;
    }
}

impl ByName {
    /// No sources and no anchors.
    pub(crate) fn new(alloc: Global, keys: RandomState) -> ByName
        ensures long { length result.kinds ≡ 14 }
        ensures empty { (i : ℕ) (kind_table : KindTable) → slice_get result.kinds i ≡ Some kind_table → kind_table.namespaces.entries ≡ [] }
    {
        ByName {
            kinds: empty_kinds(alloc, keys),
        }
    }

    /// Makes a place for the source or the anchor of an identity, unless there is one.
    pub(crate) fn make(&mut self, id: &Id) -> Result<(), NoMemory>
        ensures places { IsObjectTable (turned_places self.old) → IsObjectTable (turned_places self.new) }
        ensures made { MatchResult result (λ _. EditsObjectTable made (turned_places self.old) (turned_places self.new) (turned id.now)) (λ _. EditsObjectTable unchanged (turned_places self.old) (turned_places self.new) (turned id.now)) }
    {
        self.kinds[index_of(id.kind)].make(id.name.as_str(), id.ns.as_str())
    }

    /// Takes the place of an identity away, which is empty.
    pub(crate) fn sweep(&mut self, id: &Id)
        ensures places { IsObjectTable (turned_places self.old) → IsObjectTable (turned_places self.new) }
        ensures swept { EditsObjectTable swept (turned_places self.old) (turned_places self.new) (turned id.now) }
    {
        self.kinds[index_of(id.kind)].sweep(id.name.as_str(), id.ns.as_str());
    }

    /// Whether a source of a kind and a name, or an anchor of the name, may lie in another namespace than this one.
    pub(crate) fn may_lie_beside(&self, kind: Kind, name: &str, ns: &str) -> bool
        ensures { result ≡ false → HasNoOther (entry_place self.now kind name.now) ns.now }
    {
        self.kinds[index_of(kind)].may_have_another(name, ns)
    }

    /// Adds the sources of a kind and a name, or the anchors of a name, to those that are listed: those among the objects that lie where the index says.
    pub(crate) fn list(
        &self,
        places: &ObjectTable,
        kind: Kind,
        name: &str,
        listed: &mut Vec<Shared>,
    ) -> Result<(), NoMemory>
        ensures { OnOk result (listed.new.items ≡ listed.old.items ++ indexed_among places.now kind name.now (entries_at self.now kind name.now)) }
    {
        match self.kinds[index_of(kind)].name_map(name) {
            Some(name_map) => list_name_map(name_map, places, kind, name, listed),
            None => Ok(()),
        }
    }
}

/// Adds the sources or the anchors in the namespaces of a map of names.
fn list_name_map(
    name_map: &NameMap,
    places: &ObjectTable,
    kind: Kind,
    name: &str,
    listed: &mut Vec<Shared>,
) -> Result<(), NoMemory>
    ensures { OnOk result (listed.new.items ≡ listed.old.items ++ indexed_among places.now kind name.now (entries_of name_map.now)) }
{
    for index in 0..name_map.len() {
        list_in(name_map.name_at(index), places, kind, name, listed)?;
    }
    Ok(())
}

/// Adds the source or the anchor in a namespace, where there is one.
fn list_in(
    ns: Option<&Text>,
    places: &ObjectTable,
    kind: Kind,
    name: &str,
    listed: &mut Vec<Shared>,
) -> Result<(), NoMemory>
    ensures { OnOk result (listed.new.items ≡ listed.old.items ++ option_map_or (λ ns. of_place (indexed_at places.now kind name.now ns)) (option_copied ns.entry) []) }
{
    let Some(ns) = ns else {
        return Ok(());
    };
    if let Some(object) = places.find_indexed(kind, ns.as_str(), name) {
        listed.push(object.share()?)?;
    }
    Ok(())
}
