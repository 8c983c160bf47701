// Maps by texts.
ghost use Rattle.std.specs.Prelude.{◌≡◌, []};

use hx_object::Text;
use indexmap::IndexMap;
use std::alloc::Global;
use std::hash::RandomState;

/// A map whose keys are texts, and are looked up by `&str`. It hashes with keys that are handed in, since strangers choose the texts.
pub(crate) type TextMap<V> = IndexMap<Text, V, RandomState>;

/// An empty map. Every map of a store is made here.
pub(crate) fn empty_map<V>(alloc: Global, keys: RandomState) -> TextMap<V>
    ensures { result.entries ≡ [] }
{
    IndexMap::with_hasher(alloc, keys)
}
