// The keys that wait.
ghost use Rattle.std.specs.Prelude.{◌≡◌, ◌≤◌, ◌<◌, ◌+◌, [], true, false, Some, OnOk, nat_lt, IfSome, option_copied, length, slice_get};
ghost use Rattle.std.specs.List.{IsDistinct};
ghost use Rattle.std.specs.List.Sorted.{IsPermutation};
ghost use Rattle.indexmap.specs.IndexMap.{spare};
ghost use Rattle.hx_model.specs.Keys.{same_key, is_among};
ghost use Rattle.hx_model.specs.declared.key.Key.{Key as key_of};
ghost use Rattle.hx_model.specs.declared.key.Key.TheVariants as key_by;
ghost use Rattle.hx_line.specs.Heap.{AreAll, IsHeap, IsOut, KeepsFewer, Leaves, placed_cmp, with_depth_at};
ghost use Rattle.hx_line.specs.Line.{IsRanked, KeepsRanks, is_at, keys_in, most_line, waiting_without, with_key};
ghost use Rattle.hx_order.specs.Ranks.{IsFirst, depth_in, rank_of};

use crate::copy_of::CopyOf;
use crate::heap::{Placed, rise, settle};
use hx_forest::Forest;
use hx_model::Key;
use hx_object::NoMemory;
use hx_order::rank;
use indexmap::IndexMap;
use std::alloc::Global;
use std::hash::RandomState;
use std::marker::Model;

/// The most keys in line. No memory has room for as many.
const MOST: usize = 281_474_976_710_656;

/// The rank from which on a key's turn depends on how deep it lies.
const COPIES: u8 = 3;

/// The keys that wait.
///
/// The first ones are in the order of a heap, and those that were marked since stand behind them. They are ranked when the first key is asked for, each in time that grows as the heap is deep. Where the tree changed since, how deep keys lie is asked anew, of all of them once, as soon as no removal, subnamespace or tree labels wait.
pub struct Line {
    items: Placed,
    /// How many are in the order of a heap.
    ordered: usize,
    /// Whether these lie as deep as is kept.
    current: bool,
}

impl Drop for Line {
    fn drop(self) {
        let Line {
            items: _,
            ordered: _,
            current: _,
        } = self;
    }
}

impl Model for Line {
    ghost use Rattle.indexmap.specs.IndexMap.{spare};
    ghost use Rattle.hx_line.specs.Line.{LineView, line_code, keys_in, ranks_in, room_in, IsLine};

    ghost Value = { LineView };

    ghost coded = { line_code };

    ghost view = { λ l. record { keys = keys_in l.items.entries; ranks = ranks_in l.items.entries l.ordered l.current; room = room_in l.items.entries (spare l.items) } };

    ghost invariant = { λ l. IsLine l.items.entries l.ordered };
}

impl Line {
    /// No keys. It takes no memory.
    pub fn new(alloc: Global, keys: RandomState) -> Line
        ensures keys { result.keys ≡ [] }
        ensures ranks { result.ranks ≡ [] }
    {
        Line {
            items: IndexMap::with_hasher(alloc, keys),
            ordered: 0,
            current: true,
        }
    }

    /// Makes room for `more` keys. Where no memory is left, the room stays.
    pub fn reserve(&mut self, more: usize) -> Result<(), NoMemory>
        ensures keys { self.new.keys ≡ self.old.keys }
        ensures ranks { self.new.ranks ≡ self.old.ranks }
        ensures room { OnOk result (more ≤ self.new.room) }
        ensures kept { self.old.room ≤ self.new.room }
    {
        if more > MOST - self.len() {
            return Err(NoMemory);
        }
        Ok(self.items.reserve(more)?)
    }

    /// How many keys there are.
    pub fn len(&self) -> usize
        ensures len { result ≡ length self.now.keys }
        ensures distinct { IsDistinct same_key self.now.keys }
        ensures most { length self.now.keys ≤ most_line }
    {
        self.items.len()
    }

    /// Whether the key of a copy is there.
    #[tactic(auto, unfolding(hx_model::specs::Keys::same_key))]
    pub fn has_copy(&self, key: CopyOf<'_>) -> bool
        ensures { result ≡ is_among (key_by.Copy key.entry.ns.now key.entry.kind key.entry.name.now) self.now.keys }
    {
        self.items.contains_key(key)
    }

    /// The key at the front. It is the first one where keys were ranked and nothing was marked since.
    pub fn first(&self) -> Option<&Key>
        ensures { option_copied result ≡ slice_get self.now.keys 0 }
    {
        front(&self.items)
    }

    /// Whether the key at the front is one whose turn depends on no depth.
    pub fn is_early(&self) -> bool
        ensures some { IfSome (slice_get self.now.keys 0) (λ k. result ≡ nat_lt (rank_of k) 3) }
        ensures none { self.now.keys ≡ [] → result ≡ false }
    {
        starts_early(&self.items)
    }

    /// Puts a key behind the others, unless it is there. It takes no memory.
    #[tactic(auto, unfolding(hx_model::specs::Keys::same_key))]
    pub fn push(&mut self, key: Key)
        requires { 0 < self.old.room }
        ensures keys { self.new.keys ≡ with_key key self.old.keys }
        ensures ranks { self.new.ranks ≡ self.old.ranks }
        ensures room { self.old.room ≤ self.new.room + 1 }
    {
        if self.items.contains_key(&key) {
            drop(key);
            return;
        }
        let _pushed = self.items.insert(key, 0);
    }

    /// Takes a key out, where it is there.
    pub fn take(&mut self, key: &Key)
        ensures keys { IsPermutation self.new.keys (waiting_without self.old.keys key.now) }
        ensures ranks { KeepsRanks self.old.ranks self.new.ranks }
        ensures room { self.old.room ≤ self.new.room }
    {
        let Some(at) = self.items.get_index_of(key) else {
            return;
        };
        self.ordered = take_at(&mut self.items, self.ordered, at);
    }

    /// The tree changes: keys may lie deeper than is kept, or less deep.
    pub fn outdate(&mut self)
        ensures keys { self.new.keys ≡ self.old.keys }
        ensures ranks { self.new.ranks ≡ [] }
        ensures room { self.new.room ≡ self.old.room }
    {
        self.current = false;
    }

    /// Brings the key to the front whose turn it is in a tree. It takes no memory.
    pub fn rank(&mut self, forest: &Forest)
        requires { IsRanked forest.now.nodes self.old.ranks }
        ensures keys { IsPermutation self.old.keys self.new.keys }
        ensures ranks { IsRanked forest.now.nodes self.new.ranks }
        ensures first { (k : key_of) → slice_get self.new.keys 0 ≡ Some k → IsFirst forest.now.nodes self.new.keys k }
        ensures room { self.old.room ≤ self.new.room }
    {
        self.current = place_all(&mut self.items, self.ordered, self.current, forest);
        self.ordered = self.items.len();
    }
}

// Puts all entries in heap order, of which the first ones were. Whether all lie as deep as is kept then: they did where the first ones did, and else they do unless the one at the front is early.
fn place_all(items: &mut Placed, ordered: usize, current: bool, forest: &Forest) -> bool
    requires within { ordered ≤ length items.old.entries }
    requires heap { IsHeap placed_cmp ordered items.old.entries }
    requires right { current ≡ true → AreAll ordered (is_at forest.now.nodes) items.old.entries }
    ensures keys { IsPermutation (keys_in items.old.entries) (keys_in items.new.entries) }
    ensures heap { IsHeap placed_cmp (length items.new.entries) items.new.entries }
    ensures right { result ≡ true → AreAll (length items.new.entries) (is_at forest.now.nodes) items.new.entries }
    ensures first { (k : key_of) → slice_get (keys_in items.new.entries) 0 ≡ Some k → IsFirst forest.now.nodes (keys_in items.new.entries) k }
    ensures room { spare items.old ≤ spare items.new }
{
    let _placed = place_from(items, ordered, forest);
    if current {
        return true;
    }
    if starts_early(items) {
        return false;
    }
    let _placed = place_from(items, 0, forest);
    true
}

// Whether the key at the front is one whose turn depends on no depth.
fn starts_early(items: &Placed) -> bool
    ensures some { IfSome (slice_get (keys_in items.now.entries) 0) (λ k. result ≡ nat_lt (rank_of k) 3) }
    ensures none { keys_in items.now.entries ≡ [] → result ≡ false }
{
    match front(items) {
        Some(key) => rank(key) < COPIES,
        None => false,
    }
}

// The key of the entry at the front.
fn front(items: &Placed) -> Option<&Key>
    ensures { option_copied result ≡ slice_get (keys_in items.now.entries) 0 }
{
    match items.get_index(0) {
        Some((key, _)) => Some(key),
        None => None,
    }
}

// Puts the entries from an index on in heap order, with the ones before them, each as deep as it lies in a tree. How many there are then.
fn place_from(items: &mut Placed, from: usize, forest: &Forest) -> usize
    requires within { from ≤ length items.old.entries }
    requires heap { IsHeap placed_cmp from items.old.entries }
    ensures all { result ≡ length items.new.entries }
    ensures keys { IsPermutation (keys_in items.old.entries) (keys_in items.new.entries) }
    ensures heap { IsHeap placed_cmp (length items.new.entries) items.new.entries }
    ensures right { AreAll from (is_at forest.now.nodes) items.old.entries → AreAll (length items.new.entries) (is_at forest.now.nodes) items.new.entries }
    ensures room { spare items.old ≤ spare items.new }
{
    let len = items.len();
    for at in from..len {
        place(items, at, forest);
    }
    len
}

// Puts the entry behind those in heap order among them, as deep as it lies in a tree.
fn place(items: &mut Placed, at: usize, forest: &Forest)
    requires within { at < length items.old.entries }
    requires heap { IsHeap placed_cmp at items.old.entries }
    ensures keys { IsPermutation (keys_in items.old.entries) (keys_in items.new.entries) }
    ensures heap { IsHeap placed_cmp (at + 1) items.new.entries }
    ensures right { AreAll at (is_at forest.now.nodes) items.old.entries → AreAll (at + 1) (is_at forest.now.nodes) items.new.entries }
    ensures room { spare items.old ≤ spare items.new }
{
    let depth = depth_at(items, at, forest);
    set_depth(items, at, depth);
    rise(items, at);
}

// How deep the key at an index lies in a tree.
fn depth_at(items: &Placed, at: usize, forest: &Forest) -> usize
    requires { at < length items.now.entries }
    ensures { IfSome (slice_get items.now.entries at) (λ e. result ≡ depth_in forest.now.nodes e.0) }
{
    match items.get_index(at) {
        Some((Key::Copy { ns, .. }, _)) => forest.depth(ns),
        _ => 0,
    }
}

// Sets how deep the key at an index lies.
fn set_depth(items: &mut Placed, at: usize, depth: usize)
    requires { at < length items.old.entries }
    ensures set { items.new.entries ≡ with_depth_at items.old.entries at depth }
    ensures room { spare items.new ≡ spare items.old }
{
    if let Some(kept) = items.get_index_mut(at) {
        *kept = depth;
    }
}

// Moves the entry at an index of those in heap order behind them: they are one fewer then.
fn unplace(items: &mut Placed, ordered: usize, at: usize)
    requires at { at ≤ ordered }
    requires within { ordered < length items.old.entries }
    requires heap { IsHeap placed_cmp (ordered + 1) items.old.entries }
    ensures moved { IsPermutation items.old.entries items.new.entries }
    ensures last { slice_get items.new.entries ordered ≡ slice_get items.old.entries at }
    ensures heap { IsHeap placed_cmp ordered items.new.entries }
    ensures kept { KeepsFewer ordered items.old.entries items.new.entries }
    ensures room { spare items.old ≤ spare items.new }
{
    if at < ordered {
        items.swap_indices(at, ordered);
        settle(items, ordered, at);
    }
}

// Takes the entry at an index out. How many are in heap order then.
fn take_at(items: &mut Placed, ordered: usize, at: usize) -> usize
    requires at { at < length items.old.entries }
    requires within { ordered ≤ length items.old.entries }
    requires heap { IsHeap placed_cmp ordered items.old.entries }
    ensures leaves { Leaves ordered at items.old.entries items.new.entries result }
    ensures room { spare items.old ≤ spare items.new }
{
    if at < ordered {
        let left = ordered - 1;
        unplace(items, left, at);
        remove_at(items, left);
        return left;
    }
    remove_at(items, at);
    ordered
}

// Takes the entry at an index out, where the last one goes.
fn remove_at(items: &mut Placed, at: usize)
    requires { at < length items.old.entries }
    ensures out { IsOut at items.old.entries items.new.entries }
    ensures room { spare items.old ≤ spare items.new }
{
    let _taken = items.swap_remove_index(at);
}
