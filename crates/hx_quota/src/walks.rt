// Rings, and what namespaces have with all below them.
ghost use Rattle.std.specs.Prelude.{◌≡◌, ◌<◌, false, IfSome, length};
ghost use Rattle.std.specs.Option.{option_map_or};
ghost use Rattle.hx_model.specs.Forest.{in_chain};
ghost use Rattle.hx_quota.specs.Counters.{tree_of, used_in};
ghost use Rattle.hx_quota.specs.PlaceRows.{ring_in};
ghost use Rattle.hx_quota.specs.RingLinks.{IsRingTop};
ghost use Rattle.hx_quota.specs.Inside.{entries_in, entries_of, ordered, IsKept};
ghost use Rattle.hx_quota.specs.Anew.{name_from, named};

use crate::climbing::{passes, top_of};
use crate::entry::place_of;
use crate::ledger::Ledger;
use crate::places::ring_at;
use hx_model::Resource;
use hx_object::Text;

impl Ledger {
    /// What a namespace has of a resource with all below it. All that are in a ring have the same, which is read where its link is that closes the ring.
    pub(crate) fn used(&self, ns: &Text, resource: Resource) -> u128
        requires kept { IsKept self.now }
        ensures { result ≡ used_in (entries_of self.now) ns.now resource }
    {
        let Some(at) = self.places.index_of(ns) else {
            return 0;
        };
        match self.ring_top(at) {
            Some(top) => self.places.sum_at(top, place_of(resource)),
            None => self.places.sum_at(at, place_of(resource)),
        }
    }

    /// The index of the namespace whose link closes the ring that the one at an index is in, where it is in one. No walk is made where there are no rings.
    pub(crate) fn ring_top(&self, at: usize) -> Option<usize>
        requires within { at < length self.now.places.entries }
        requires kept { IsKept self.now }
        ensures within { IfSome result (λ i. i < length self.now.places.entries) }
        ensures top { IsRingTop (ring_in self.now.places.rings) (tree_of (ordered self.now.places.entries)) (named (entries_in self.now.places.entries) at) (name_from (entries_in self.now.places.entries) result) }
    {
        if !self.circular {
            return None;
        }
        let top = top_of(&self.places, at);
        let up = ring_at(&self.places, top);
        if self.has_above(up, at) {
            Some(top)
        } else {
            None
        }
    }

    /// Whether the namespace at an index, where there is one, has that at another one above it, or is that one. No link counts that closes a ring.
    pub(crate) fn has_above(&self, first: Option<usize>, above: usize) -> bool
        requires { above < length self.now.places.entries }
        ensures { result ≡ option_map_or (λ p. in_chain (tree_of (ordered self.now.places.entries)) p (named (entries_in self.now.places.entries) above)) (name_from (entries_in self.now.places.entries) first) false }
    {
        passes(&self.places, first, above)
    }
}
