// Walks up the places by their indices, and sums that are adjusted along them.
ghost use Rattle.std.specs.Prelude.{◌≡◌, ℕ, ◌<◌, ◌≤◌, true, Some, None, is_some, IfSome, List, length, option_copied, option_and_then};
ghost use Rattle.std.specs.List.{IsDistinct};
ghost use Rattle.std.specs.Map.{keys_of};
ghost use Rattle.std.specs.Str.{bytes_eq};
ghost use Rattle.hx_model.specs.Forest.{is_in, in_chain, parent_of};
ghost use Rattle.hx_quota.specs.Counters.{entry_of, tree_of, with_parent, AllFit};
ghost use Rattle.hx_quota.specs.PlaceRows.{Place, place_at};
ghost use Rattle.hx_quota.specs.Inside.{entries_in, ordered, MayAdjust, IsAdjusted, HasUsage, IsFree, IsOpen, AllEnd, ends_by, ends_up};
ghost use Rattle.hx_quota.specs.Anew.{name_at, name_from, named, chain_at, chain_behind, walk_from, walk_behind};

use crate::place_table::PlaceTable;
use crate::places::{Change, set_parent};
use hx_object::Text;

/// Takes the sums of the namespace at an index, which gets another parent, from the namespaces above it to those above that one. The walks up end then as before. It takes no memory.
pub(crate) fn take_over(places: &mut PlaceTable, at: usize, up: Option<usize>)
    requires within { at < length places.old.entries }
    requires ended { ends_up (tree_of (ordered places.old.entries)) (named (entries_in places.old.entries) at) ≡ true }
    requires ends { ends_by (length (tree_of (ordered places.old.entries))) (tree_of (ordered places.old.entries)) (name_from (entries_in places.old.entries) up) ≡ true }
    requires open { IsFree (tree_of (ordered places.old.entries)) (named (entries_in places.old.entries) at) (name_from (entries_in places.old.entries) up) }
    requires fits { AllFit (ordered places.old.entries) }
    requires summed { HasUsage places.old.entries (ordered places.old.entries) }
    ensures entries { entries_in places.new.entries ≡ entries_in places.old.entries }
    ensures rings { places.new.rings ≡ places.old.rings }
    ensures sums { HasUsage places.new.entries (with_parent (named (entries_in places.old.entries) at) (name_from (entries_in places.old.entries) up) (ordered places.old.entries)) }
    ensures room { places.old.spare ≤ places.new.spare }
{
    let Some(sums) = places.sums_at(at) else {
        return;
    };
    let from = parent_index(places, at);
    let off = Change {
        take: sums,
        give: [0; 15],
    };
    let on = Change {
        take: [0; 15],
        give: sums,
    };
    adjust_up(places, from, &off);
    adjust_up(places, up, &on);
}

/// Gives the namespace at an index another parent, or none, that isn't below it, and takes its sums from the namespaces above it to those above that one. It takes no memory.
pub(crate) fn move_open(places: &mut PlaceTable, at: usize, up: Option<usize>)
    requires within { at < length places.old.entries }
    requires given { IfSome up (λ i. i < length places.old.entries) }
    requires free { IsFree (tree_of (ordered places.old.entries)) (named (entries_in places.old.entries) at) (name_from (entries_in places.old.entries) up) }
    requires fits { AllFit (ordered places.old.entries) }
    requires opened { IsOpen places.old.entries }
    ensures entries { ordered places.new.entries ≡ with_parent (named (entries_in places.old.entries) at) (name_from (entries_in places.old.entries) up) (ordered places.old.entries) }
    ensures names { keys_of places.new.entries ≡ keys_of places.old.entries }
    ensures rings { places.new.rings ≡ places.old.rings }
    ensures opened { IsOpen places.new.entries }
    ensures room { places.old.spare ≤ places.new.spare }
{
    take_over(places, at, up);
    set_parent(places, at, up);
}

/// Changes the sums of the namespace at an index, and of all above it. It takes no memory. Where nothing changes, it looks at none.
pub(crate) fn adjust_up(places: &mut PlaceTable, first: Option<usize>, change: &Change)
    requires ends { (q : List ℕ) → is_in q (chain_at (entries_in places.old.entries) first) ≡ true → ends_up (tree_of (ordered places.old.entries)) q ≡ true }
    requires distinct { IsDistinct bytes_eq (keys_of (entries_in places.old.entries)) }
    requires may { (q : List ℕ) (p : Place) → is_in q (chain_at (entries_in places.old.entries) first) ≡ true → place_at places.old.entries q ≡ Some p → MayAdjust change.now.take change.now.give p.sums }
    ensures entries { entries_in places.new.entries ≡ entries_in places.old.entries }
    ensures rings { places.new.rings ≡ places.old.rings }
    ensures sums { (q : List ℕ) → IsAdjusted change.now.take change.now.give (is_in q (chain_at (entries_in places.old.entries) first)) (place_at places.old.entries q) (place_at places.new.entries q) }
    ensures room { places.old.spare ≤ places.new.spare }
{
    if changes_nothing(change) {
        return;
    }
    let mut next = first;
    while let Some(at) = next {
        if !places.adjust(at, change) {
            return;
        }
        next = parent_index(places, at);
    }
}

/// Whether what is taken is added again.
fn changes_nothing(change: &Change) -> bool
    ensures { result ≡ true → change.now.take ≡ change.now.give }
{
    change.take == change.give
}

/// Whether the walk up from an index, where there is one, comes to another one.
pub(crate) fn passes(places: &PlaceTable, first: Option<usize>, target: usize) -> bool
    requires { target < length places.now.entries }
    ensures { result ≡ walk_from (length (tree_of (ordered places.now.entries))) places.now.entries first (named (entries_in places.now.entries) target) }
{
    let mut next = first;
    let mut left = count(places);
    while left > 0 {
        left -= 1;
        let Some(at) = next else {
            return false;
        };
        if at == target {
            return true;
        }
        next = parent_index(places, at);
    }
    false
}

/// The index of the namespace without a parent at which the walk up from an index ends.
pub(crate) fn top_of(places: &PlaceTable, first: usize) -> usize
    requires within { first < length places.now.entries }
    requires ended { AllEnd (tree_of (ordered places.now.entries)) }
    ensures within { result < length places.now.entries }
    ensures root { parent_of (tree_of (ordered places.now.entries)) (named (entries_in places.now.entries) result) ≡ None }
    ensures above { in_chain (tree_of (ordered places.now.entries)) (named (entries_in places.now.entries) first) (named (entries_in places.now.entries) result) ≡ true }
{
    let mut top = first;
    let mut next = parent_index(places, first);
    while let Some(at) = next {
        top = at;
        next = parent_index(places, at);
    }
    top
}

/// How many namespaces there are.
fn count(places: &PlaceTable) -> usize
    ensures count { result ≡ length (tree_of (ordered places.now.entries)) }
    ensures distinct { IsDistinct bytes_eq (keys_of places.now.entries) }
{
    places.len()
}

/// The index of the parent of the namespace at an index.
fn parent_index(places: &PlaceTable, at: usize) -> Option<usize>
    ensures within { IfSome result (λ i. i < length places.now.entries) }
    ensures name { name_from (entries_in places.now.entries) result ≡ option_and_then (parent_of (tree_of (ordered places.now.entries))) (name_at (entries_in places.now.entries) at) }
    ensures chain { chain_at (entries_in places.now.entries) result ≡ chain_behind (entries_in places.now.entries) at }
    ensures walks { (left : ℕ) (above : List ℕ) → walk_from left places.now.entries result above ≡ walk_behind left places.now.entries at above }
    ensures distinct { IsDistinct bytes_eq (keys_of (entries_in places.now.entries)) }
{
    places.up_at(at)
}

/// The index of a name that may be none, and is there else, with a hint at it.
pub(crate) fn index_from(
    places: &PlaceTable,
    hint: Option<usize>,
    name: Option<&Text>,
) -> Option<usize>
    requires { IfSome (option_copied name) (λ n. is_some (entry_of (ordered places.now.entries) n) ≡ true) }
    ensures name { name_from (entries_in places.now.entries) result ≡ option_copied name.entry }
    ensures within { IfSome result (λ i. i < length places.now.entries) }
{
    match name {
        Some(name) => places.index_near(hint, name),
        None => None,
    }
}
