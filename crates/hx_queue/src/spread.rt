// The keys that were marked as a whole.
ghost use Rattle.std.specs.Prelude.{◌≡◌, ◌≤◌, ◌<◌, ◌+◌, ◌*◌, ◌^◌, None, Some, [], true, false, IfOk, OnOk, OnErr, IsSomeAnd, drop, filter, flat_map, length, not, option_copied};
ghost use Rattle.std.specs.List.{IsDistinct};
ghost use Rattle.std.specs.Str.{bytes_eq};
ghost use Rattle.hx_model.specs.Keys.{is_among, same_key};
ghost use Rattle.hx_model.specs.declared.key.Key.{Key as key_of};
ghost use Rattle.hx_queue.specs.Kept.{is_held};
ghost use Rattle.hx_model.specs.declared.key.Key.TheVariants as key_by;
ghost use Rattle.hx_queue.specs.Spreading.{AreLinedUp, scope_of};
ghost use Rattle.hx_queue.specs.Spread.{HasPlace, is_place_of, is_spread, keys_in, most_spread, names_in, outdated, place_keys, root_of, waiting_in, with_id};

use crate::queue::Queue;
use hx_line::CopyOf;
use hx_model::Key;
use hx_object::{Id, NoMemory, Text};
use indexmap::IndexSet;
use std::alloc::Global;
use std::hash::RandomState;
use std::marker::Model;

/// As many keys at most are marked as a whole.
const MOST: usize = 4_294_967_296;

/// Keys that were marked as a whole and don't stand in line yet.
pub(crate) struct Spread {
    scope: Option<Scope>,
    ids: IndexSet<Id, RandomState>,
}

/// A namespace, and those of its subtree that its keys are marked in.
struct Scope {
    root: Text,
    names: Vec<Text>,
    /// Whether these are the namespaces that take part in the subtree now.
    current: bool,
}

impl Drop for Spread {
    fn drop(self) {
        let Spread { scope: _, ids: _ } = self;
    }
}

impl Drop for Scope {
    fn drop(self) {
        let Scope {
            root: _,
            names: _,
            current: _,
        } = self;
    }
}

impl Model for Spread {
    ghost use Rattle.indexmap.specs.IndexSet.{spare};
    ghost use Rattle.hx_queue.specs.Spread.{SpreadView, spread_code, IsSpread};
    ghost use Rattle.hx_queue.specs.Spreading.{scope_of};

    ghost Value = { SpreadView };

    ghost coded = { spread_code };

    ghost view = { λ s. record { scope = scope_of s.scope; ids = s.ids.keys; room = spare s.ids } };

    ghost invariant = { λ s. IsSpread (scope_of s.scope) s.ids.keys };
}

impl Spread {
    /// Nothing is marked as a whole. It takes no memory.
    pub(crate) fn new(alloc: Global, keys: RandomState) -> Spread
        ensures scope { result.scope ≡ None }
        ensures ids { result.ids ≡ [] }
    {
        Spread {
            scope: None,
            ids: IndexSet::with_hasher(alloc, keys),
        }
    }

    /// The namespace at the top of the reach, while that is current.
    pub(crate) fn root(&self) -> Option<&Text>
        ensures { option_copied result ≡ root_of self.now.scope }
    {
        match &self.scope {
            Some(scope) => {
                if scope.current {
                    Some(&scope.root)
                } else {
                    None
                }
            }
            None => None,
        }
    }

    /// Whether no keys are marked as a whole.
    pub(crate) fn is_empty(&self) -> bool
        ensures empty { result ≡ true → self.now.ids ≡ [] }
        ensures some { self.now.ids ≡ [] → result ≡ true }
    {
        self.ids.is_empty()
    }

    /// Whether one more object's keys may be marked as a whole.
    pub(crate) fn fits(&self) -> bool
        ensures { result ≡ true → HasPlace self.now.scope self.now.ids }
    {
        match &self.scope {
            Some(scope) => has_place(self.ids.len(), scope.names.len()),
            None => true,
        }
    }

    /// Makes room for one more object. Where no memory is left, the room stays.
    pub(crate) fn reserve(&mut self) -> Result<(), NoMemory>
        ensures scope { self.new.scope ≡ self.old.scope }
        ensures ids { self.new.ids ≡ self.old.ids }
        ensures room { OnOk result (1 ≤ self.new.room) }
        ensures kept { self.old.room ≤ self.new.room }
    {
        Ok(self.ids.reserve(1)?)
    }

    /// Sets the reach, while nothing is marked as a whole. It takes no memory.
    pub(crate) fn set(&mut self, root: Text, names: Vec<Text>)
        requires empty { self.old.ids ≡ [] }
        requires distinct { IsDistinct bytes_eq names.items }
        ensures scope { self.new.scope ≡ Some (record { root = root; names = names.items; current = true }) }
        ensures ids { self.new.ids ≡ [] }
        ensures room { self.new.room ≡ self.old.room }
    {
        self.scope = Some(Scope {
            root,
            names,
            current: true,
        });
    }

    /// Marks the keys of an object's kind and name in all of the reach. It takes no memory.
    #[tactic(auto, unfolding(crate::specs::Spread::equal_ids))]
    pub(crate) fn add(&mut self, id: Id)
        requires at { IsSomeAnd self.old.scope (λ r. r.root ≡ id.ns) }
        requires room { 0 < self.old.room }
        requires fits { HasPlace self.old.scope self.old.ids }
        ensures ids { self.new.ids ≡ with_id id self.old.ids }
        ensures scope { self.new.scope ≡ self.old.scope }
        ensures room { self.old.room ≤ self.new.room + 1 }
    {
        let _added = self.ids.insert(id);
    }

    /// Whether a key is of the kind and name of some object whose keys were marked as a whole.
    pub(crate) fn has(&self, key: &Key) -> Result<bool, NoMemory>
        ensures { IfOk result (λ has. has ≡ is_spread self.now.ids key.now) }
    {
        if self.ids.is_empty() {
            return Ok(false);
        }
        let Key::Copy { ns: _, kind, name } = key else {
            return Ok(false);
        };
        let Some(scope) = &self.scope else {
            return Ok(false);
        };
        let id = Id {
            kind: *kind,
            ns: scope.root.clone()?,
            name: name.clone()?,
        };
        Ok(self.ids.contains(&id))
    }

    /// The keys of the first object go in line.
    pub(crate) fn line_up(&mut self, queue: &mut Queue) -> Result<(), NoMemory>
        requires { (k : key_of) → is_held queue.old k ≡ true → is_spread self.old.ids k ≡ false }
        ensures waiting { waiting_in queue.new.waiting (keys_in self.new.scope self.new.ids) ≡ waiting_in queue.old.waiting (keys_in self.old.scope self.old.ids) }
        ensures ranks { queue.new.ranks ≡ queue.old.ranks }
        ensures held { queue.new.held ≡ queue.old.held }
        ensures ids { OnOk result (self.new.ids ≡ drop 1 self.old.ids) }
        ensures kept { OnErr result (self.new.ids ≡ self.old.ids) }
        ensures scope { self.new.scope ≡ self.old.scope }
        ensures room { self.old.room ≤ self.new.room }
    {
        let Some(id) = self.ids.first() else {
            return Ok(());
        };
        mark_in(queue, &self.scope, id)?;
        let _first = self.ids.shift_remove_index(0);
        Ok(())
    }

    /// The tree changes: the reach isn't current any more. What is marked as a whole stays.
    pub(crate) fn outdate(&mut self)
        ensures scope { self.new.scope ≡ outdated self.old.scope }
        ensures ids { self.new.ids ≡ self.old.ids }
        ensures room { self.new.room ≡ self.old.room }
    {
        if let Some(scope) = &mut self.scope {
            scope.current = false;
        }
    }

    /// How many keys wait, in line and marked as a whole. It takes no memory.
    pub(crate) fn count(&self, queue: &Queue) -> usize
        ensures { result ≡ length (waiting_in queue.now.waiting (keys_in self.now.scope self.now.ids)) }
    {
        queue.law_most();
        if self.ids.is_empty() {
            return queue.waiting();
        }
        let Some(scope) = &self.scope else {
            return queue.waiting();
        };
        queue.waiting() + absent_in(&scope.names, self.ids.as_slice(), queue)
    }
    /// A theorem: no key that was marked as a whole is there twice.
    pub(crate) fn law_distinct(&self)
        ensures { IsDistinct same_key (keys_in self.now.scope self.now.ids) }
    {
        let _ids = self.ids.len();
    }
}

// Whether one more object's keys may be marked as a whole, where there are so many objects and namespaces.
fn has_place(ids: usize, names: usize) -> bool
    requires { ids < 2 ^ 63 }
    ensures { result ≡ true → (ids + 1) * names ≤ most_spread }
{
    match (ids + 1).checked_mul(names) {
        Some(keys) => keys <= MOST,
        None => false,
    }
}

// The key of a copy of an object's kind and name.
fn key_in(ns: &Text, id: &Id) -> Result<Key, NoMemory>
    ensures { IfOk result (λ key. key ≡ key_by.Copy ns.now id.now.kind id.now.name) }
{
    Ok(Key::Copy {
        ns: ns.clone()?,
        kind: id.kind,
        name: id.name.clone()?,
    })
}

// Marks the keys of an object's kind and name, in the namespaces of a reach. Where no memory is left, only the first ones are marked.
fn mark_in(queue: &mut Queue, scope: &Option<Scope>, id: &Id) -> Result<(), NoMemory>
    requires distinct { IsDistinct bytes_eq (names_in (scope_of scope.now)) }
    requires free { (k : key_of) → is_place_of id.now k ≡ true → is_held queue.old k ≡ false }
    ensures ranks { queue.new.ranks ≡ queue.old.ranks }
    ensures held { queue.new.held ≡ queue.old.held }
    ensures some { AreLinedUp (place_keys (names_in (scope_of scope.now)) id.now) queue.old.waiting queue.new.waiting }
    ensures all { OnOk result (queue.new.waiting ≡ waiting_in queue.old.waiting (place_keys (names_in (scope_of scope.now)) id.now)) }
{
    match scope {
        Some(scope) => {
            queue.reserve(scope.names.len())?;
            mark_places(queue, &scope.names, id)
        }
        None => Ok(()),
    }
}

// The same, in some namespaces.
fn mark_places(queue: &mut Queue, names: &[Text], id: &Id) -> Result<(), NoMemory>
    requires room { length names.now ≤ queue.old.spare }
    requires distinct { IsDistinct bytes_eq names.now }
    requires free { (k : key_of) → is_place_of id.now k ≡ true → is_held queue.old k ≡ false }
    ensures ranks { queue.new.ranks ≡ queue.old.ranks }
    ensures held { queue.new.held ≡ queue.old.held }
    ensures some { AreLinedUp (place_keys names.now id.now) queue.old.waiting queue.new.waiting }
    ensures all { OnOk result (queue.new.waiting ≡ waiting_in queue.old.waiting (place_keys names.now id.now)) }
{
    for name in names {
        let key = key_in(name, id)?;
        queue.mark(key);
    }
    Ok(())
}

// How many keys of some objects don't wait.
fn absent_in(names: &[Text], ids: &[Id], queue: &Queue) -> usize
    requires { length ids.now * length names.now ≤ most_spread }
    ensures few { result ≤ most_spread }
    ensures count { result ≡ length (filter (λ k. not (is_among k queue.now.waiting)) (flat_map (place_keys names.now) ids.now)) }
{
    let mut count = 0;
    for id in ids {
        count += absent_of(names, id, queue);
    }
    count
}

// How many keys of an object don't wait.
fn absent_of(names: &[Text], id: &Id, queue: &Queue) -> usize
    ensures { result ≡ length (filter (λ k. not (is_among k queue.now.waiting)) (place_keys names.now id.now)) }
{
    let mut count = 0;
    for name in names {
        let key = CopyOf {
            ns: name,
            kind: id.kind,
            name: &id.name,
        };
        if queue.is_copy_waiting(key) {
            continue;
        }
        count += 1;
    }
    count
}
