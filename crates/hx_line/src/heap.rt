// Entries of which the first ones are in the order of a heap.
ghost use Rattle.std.specs.Prelude.{◌≡◌, ◌≤◌, ◌<◌, ◌+◌, ◌*◌, ℕ, length};
ghost use Rattle.std.specs.List.Sorted.{IsPermutation};
ghost use Rattle.indexmap.specs.IndexMap.{spare};
ghost use Rattle.hx_line.specs.Heap.{Precedes, IsLeastChild, IsHoled, IsHeap, KeepsAll, KeepsRest, Rises, level_of, placed_cmp};

use hx_model::Key;
use hx_order::{compare_keys, rank};
use indexmap::IndexMap;
use std::cmp::Ordering;
use std::hash::RandomState;

/// Keys, and how deep their namespaces lie.
pub(crate) type Placed = IndexMap<Key, usize, RandomState>;

/// Moves an entry up until it isn't less than its parent.
pub(crate) fn rise(items: &mut Placed, mut at: usize)
    requires { at < length items.old.entries }
    ensures moved { IsPermutation items.old.entries items.new.entries }
    ensures rises { (n : ℕ) → at < n → Rises placed_cmp n items.old.entries at items.new.entries }
    ensures kept { (n : ℕ) → at < n → KeepsAll n items.old.entries items.new.entries }
    ensures rest { KeepsRest (at + 1) items.old.entries items.new.entries }
    ensures room { spare items.old ≤ spare items.new }
{
    while 0 < at && precedes(items, at, (at - 1) / 2) {
        items.swap_indices((at - 1) / 2, at);
        at = (at - 1) / 2;
    }
}

/// Moves an entry down among the first ones, past the least child each time, and up again until it isn't less than its parent.
pub(crate) fn settle(items: &mut Placed, ordered: usize, at: usize)
    requires at { at < ordered }
    requires within { ordered ≤ length items.old.entries }
    ensures moved { IsPermutation items.old.entries items.new.entries }
    ensures heap { IsHoled placed_cmp ordered items.old.entries at → IsHeap placed_cmp ordered items.new.entries }
    ensures kept { KeepsAll ordered items.old.entries items.new.entries }
    ensures rest { KeepsRest ordered items.old.entries items.new.entries }
    ensures room { spare items.old ≤ spare items.new }
{
    let leaf = sink(items, ordered, at);
    rise(items, leaf);
}

// Moves an entry down to a leaf, past the least child each time.
fn sink(items: &mut Placed, ordered: usize, mut at: usize) -> usize
    requires at { at < ordered }
    requires within { ordered ≤ length items.old.entries }
    ensures moved { IsPermutation items.old.entries items.new.entries }
    ensures leaf { (result < ordered) × (ordered ≤ 2 * result + 1) }
    ensures holed { IsHoled placed_cmp ordered items.old.entries at → IsHoled placed_cmp ordered items.new.entries result }
    ensures kept { KeepsAll ordered items.old.entries items.new.entries }
    ensures rest { KeepsRest ordered items.old.entries items.new.entries }
    ensures room { spare items.old ≤ spare items.new }
{
    while at < ordered / 2 {
        let child = least_child(items, ordered, at);
        items.swap_indices(at, child);
        at = child;
    }
    at
}

// The least child of an index that has one among the first ones.
fn least_child(items: &Placed, ordered: usize, at: usize) -> usize
    requires at { 2 * at + 1 < ordered }
    requires within { ordered ≤ length items.now.entries }
    ensures bound { (result < ordered) × (at * 2 + 1 ≤ result) × (result ≤ at * 2 + 2) }
    ensures least { IsLeastChild placed_cmp ordered items.now.entries at result }
{
    let left = 2 * at + 1;
    if ordered <= left + 1 {
        return left;
    }
    if precedes(items, left + 1, left) {
        return left + 1;
    }
    left
}

// Whether the entry at one index comes before that at another.
fn precedes(items: &Placed, a: usize, b: usize) -> bool
    requires a { a < length items.now.entries }
    requires b { b < length items.now.entries }
    ensures { Precedes placed_cmp items.now.entries a b result }
{
    let (one, depth) = items.get_index(a).unwrap();
    let (other, limit) = items.get_index(b).unwrap();
    compare(one, *depth, other, *limit).is_lt()
}

// The order of keys with their depths. Texts are read only where all else ties.
fn compare(one: &Key, depth: usize, other: &Key, limit: usize) -> Ordering
    ensures { result ≡ placed_cmp (one.now, depth) (other.now, limit) }
{
    match rank(one).cmp(&rank(other)) {
        Ordering::Equal => {}
        apart => return apart,
    }
    match level(one, depth).cmp(&level(other, limit)) {
        Ordering::Equal => compare_keys(one, other),
        apart => apart,
    }
}

// How deep a key lies: of one that is no copy's it doesn't count.
fn level(key: &Key, depth: usize) -> usize
    ensures { result ≡ level_of (key.now, depth) }
{
    match key {
        Key::Copy { .. } => depth,
        _ => 0,
    }
}
