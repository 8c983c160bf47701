// The queue.
ghost use Rattle.std.specs.Prelude.{◌≡◌, ◌≤◌, ◌<◌, [], false, true, OnOk, IfSome, nat_lt, option_copied, option_map, length, slice_get};
ghost use Rattle.hx_model.specs.declared.key.Key.TheVariants as key_by;
ghost use Rattle.hx_line.specs.Line.{IsRanked, most_line};
ghost use Rattle.hx_order.specs.Ranks.{rank_of};
ghost use Rattle.hx_queue.specs.Kept.{AreApart, Marks, Holds, Ranks, Releases, is_held, is_waiting, holding_of};

use crate::slots::{Slot, Slots, holder, let_go, mark_held, put};
use hx_forest::Forest;
use hx_line::{CopyOf, Line};
use hx_model::Key;
use hx_object::NoMemory;
use indexmap::IndexMap;
use std::alloc::Global;
use std::hash::RandomState;
use std::marker::Model;

/// Keys that wait, and keys that a worker holds.
pub struct Queue {
    line: Line,
    slots: Slots,
}

impl Drop for Queue {
    fn drop(self) {
        let Queue { line: _, slots: _ } = self;
    }
}

impl Model for Queue {
    ghost use Rattle.indexmap.specs.IndexMap.{spare};
    ghost use Rattle.hx_queue.specs.Kept.{QueueView, queue_code};
    ghost use Rattle.hx_queue.specs.Slots.{seen, IsQueue};

    ghost Value = { QueueView };

    ghost coded = { queue_code };

    ghost view = { λ q. seen q.line q.slots.entries (spare q.slots) };

    ghost invariant = { λ q. IsQueue q.line q.slots.entries };
}

impl Queue {
    /// No keys. It takes no memory.
    pub fn new(alloc: Global, keys: RandomState) -> Queue
        ensures waiting { result.waiting ≡ [] }
        ensures ranks { result.ranks ≡ [] }
        ensures held { result.held ≡ [] }
    {
        Queue {
            line: Line::new(alloc, keys),
            slots: IndexMap::with_hasher(alloc, keys),
        }
    }

    /// Makes room for `more` keys. Where no memory is left, the room stays.
    pub fn reserve(&mut self, more: usize) -> Result<(), NoMemory>
        ensures waiting { self.new.waiting ≡ self.old.waiting }
        ensures ranks { self.new.ranks ≡ self.old.ranks }
        ensures held { self.new.held ≡ self.old.held }
        ensures room { OnOk result (more ≤ self.new.spare) }
        ensures kept { self.old.spare ≤ self.new.spare }
    {
        let Some(all) = more.checked_add(self.slots.len()) else {
            return Err(NoMemory);
        };
        self.line.reserve(all)?;
        Ok(self.slots.reserve(more)?)
    }

    /// Marks a key: one that is absent waits then, and one that is held is going to wait again. It takes no memory.
    pub fn mark(&mut self, key: Key)
        requires { 0 < self.old.spare }
        ensures { Marks key self.old self.new }
    {
        if mark_held(&mut self.slots, &key) {
            drop(key);
            return;
        }
        self.line.push(key);
    }

    /// Brings the key to the front whose turn it is in a tree. It takes no memory.
    pub fn rank(&mut self, forest: &Forest)
        requires { IsRanked forest.now.nodes self.old.ranks }
        ensures { Ranks forest.now.nodes self.old self.new }
    {
        self.line.rank(forest);
    }

    /// The tree changes: keys may lie deeper than is kept, or less deep.
    pub fn outdate(&mut self)
        ensures waiting { self.new.waiting ≡ self.old.waiting }
        ensures ranks { self.new.ranks ≡ [] }
        ensures held { self.new.held ≡ self.old.held }
        ensures spare { self.new.spare ≡ self.old.spare }
    {
        self.line.outdate();
    }

    /// The key at the front: that whose turn it is, where the keys were ranked and none was marked since.
    pub fn next(&self) -> Option<&Key>
        ensures { option_copied result ≡ slice_get self.now.waiting 0 }
    {
        self.line.first()
    }

    /// Whether the key at the front is one whose turn depends on no depth: no copy, and before them.
    pub(crate) fn is_early(&self) -> bool
        ensures some { IfSome (slice_get self.now.waiting 0) (λ k. result ≡ nat_lt (rank_of k) 3) }
        ensures none { self.now.waiting ≡ [] → result ≡ false }
    {
        self.line.is_early()
    }

    /// A worker holds a key, which nobody holds, from now on. It takes no memory.
    pub fn hold(&mut self, worker: u32, key: Key)
        requires room { 0 < self.old.spare }
        requires free { is_held self.old key ≡ false }
        ensures { Holds worker key self.old self.new }
    {
        self.line.take(&key);
        let slot = Slot {
            worker,
            again: false,
        };
        put(&mut self.slots, key, slot);
    }

    /// Nobody holds a key any more, which was held. It waits where it was marked since, or where it is to wait `again`. It takes no memory.
    pub fn release(&mut self, key: &Key, again: bool)
        requires { is_held self.old key.now ≡ true }
        ensures { Releases key.now again self.old self.new }
    {
        let (key, marked) = let_go(&mut self.slots, key);
        let waits = again | marked;
        if waits {
            self.line.push(key);
        } else {
            drop(key);
        }
    }

    /// Who holds a key.
    pub fn holder(&self, key: &Key) -> Option<u32>
        ensures { result ≡ option_map (λ h. h.worker) (holding_of self.now key.now) }
    {
        holder(&self.slots, key)
    }

    /// Whether the key of a copy waits.
    pub(crate) fn is_copy_waiting(&self, key: CopyOf<'_>) -> bool
        ensures { result ≡ is_waiting self.now (key_by.Copy key.entry.ns.now key.entry.kind key.entry.name.now) }
    {
        self.line.has_copy(key)
    }

    /// How many keys wait.
    pub fn waiting(&self) -> usize
        ensures { result ≡ length self.now.waiting }
    {
        self.line.len()
    }

    /// How many keys are held.
    pub fn held(&self) -> usize
        ensures { result ≡ length self.now.held }
    {
        self.slots.len()
    }

    /// No key is there twice, and none both waits and is held.
    pub fn law_apart(&self)
        ensures { AreApart self.now }
    {
        let _waiting = self.line.len();
    }

    /// No more keys wait than any memory has room for.
    pub(crate) fn law_most(&self)
        ensures { length self.now.waiting ≤ most_line }
    {
        let _waiting = self.line.len();
    }
}
