// Changes of what is kept of namespaces, by their indices.
ghost use Rattle.std.specs.Prelude.{◌≡◌, ℕ, ◌<◌, ◌≤◌, Some, List, IfSome, if◌then◌else◌, length, replicate, slice_get};
ghost use Rattle.std.specs.List.{IsDistinct};
ghost use Rattle.std.specs.Map.{keys_of};
ghost use Rattle.std.specs.Str.{bytes_eq};
ghost use Rattle.hx_quota.specs.Counters.{shifted, with_parent, AreApart, HaveOld};
ghost use Rattle.hx_quota.specs.PlaceRows.{Place, place_at, ring_in, IsFoundAt};
ghost use Rattle.hx_quota.specs.Inside.{entries_in, ordered, taken_by, given_by, OwnFit, HasShifted, SameSums};
ghost use Rattle.hx_quota.specs.Anew.{name_at, name_from, named};

use crate::entry::{Delta, place_of};
use crate::place_table::PlaceTable;

/// What is taken off sums, and what is added to them. Mostly it is nothing of most resources.
#[derive(Clone, Copy)]
pub(crate) struct Change {
    pub(crate) take: [u128; 15],
    pub(crate) give: [u128; 15],
}

/// What deltas take off sums, and what they add to them.
fn change_of(deltas: &[Delta]) -> Change
    ensures take { result.take ≡ taken_by deltas.now (replicate 15 0) }
    ensures give { result.give ≡ given_by deltas.now (replicate 15 0) }
{
    let mut take = [0; 15];
    let mut give = [0; 15];
    for delta in deltas {
        let place = place_of(delta.resource);
        take[place] = delta.old;
        give[place] = delta.new;
    }
    Change { take, give }
}

/// Shifts own sums of the namespace at an index, and gives back what that changes.
pub(crate) fn shift_own(places: &mut PlaceTable, at: usize, deltas: &[Delta]) -> Change
    requires apart { AreApart deltas.now }
    requires old { (n : List ℕ) (p : Place) → slice_get places.old.entries at ≡ Some (n, p) → HaveOld deltas.now p.entry.own }
    requires fits { (n : List ℕ) (p : Place) → slice_get places.old.entries at ≡ Some (n, p) → OwnFit (shifted deltas.now p.entry.own) }
    ensures shifted { (n : List ℕ) → IsFoundAt places.old.entries n (Some at) → HasShifted places.old.entries places.new.entries n deltas.now result }
    ensures name { name_at (entries_in places.new.entries) at ≡ name_at (entries_in places.old.entries) at }
    ensures rings { places.new.rings ≡ places.old.rings }
    ensures distinct { IsDistinct bytes_eq (keys_of (entries_in places.new.entries)) }
    ensures room { places.old.spare ≤ places.new.spare }
{
    places.shift_own(at, deltas);
    change_of(deltas)
}

/// Gives the namespace at an index another parent, which lies at an index, or none.
pub(crate) fn set_parent(places: &mut PlaceTable, at: usize, up: Option<usize>)
    requires within { at < length places.old.entries }
    requires given { IfSome up (λ i. i < length places.old.entries) }
    ensures entries { ordered places.new.entries ≡ with_parent (named (entries_in places.old.entries) at) (name_from (entries_in places.old.entries) up) (ordered places.old.entries) }
    ensures sums { (q : List ℕ) (p : Place) → place_at places.new.entries q ≡ Some p → SameSums (place_at places.old.entries q) p }
    ensures names { keys_of places.new.entries ≡ keys_of places.old.entries }
    ensures rings { places.new.rings ≡ places.old.rings }
    ensures room { places.old.spare ≤ places.new.spare }
{
    places.set_parent(at, up);
}

/// The index to which the link of the namespace at an index leads that closes a ring, where it has one.
pub(crate) fn ring_at(places: &PlaceTable, at: usize) -> Option<usize>
    requires { at < length places.now.entries }
    ensures within { IfSome result (λ i. i < length places.now.entries) }
    ensures ring { name_from (entries_in places.now.entries) result ≡ ring_in places.now.rings (named (entries_in places.now.entries) at) }
    ensures distinct { IsDistinct bytes_eq (keys_of places.now.entries) }
{
    places.ring_at(at)
}

/// Gives the namespace at an index another link that closes a ring, and leads to an index, or none.
pub(crate) fn set_ring(places: &mut PlaceTable, at: usize, up: Option<usize>)
    requires within { at < length places.old.entries }
    requires given { IfSome up (λ i. i < length places.old.entries) }
    ensures entries { places.new.entries ≡ places.old.entries }
    ensures rings { (q : List ℕ) → ring_in places.new.rings q ≡ (if bytes_eq (named (entries_in places.old.entries) at) q then name_from (entries_in places.old.entries) up else ring_in places.old.rings q) }
    ensures room { places.old.spare ≤ places.new.spare }
{
    places.set_ring(at, up);
}
