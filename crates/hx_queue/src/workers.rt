// What workers hold, and which keys wait.
ghost use Rattle.std.specs.Prelude.{◌≡◌, ◌≤◌, ◌<◌, ◌+◌, ◌-◌, ◌==◌, false, true, Some, None, [], OnOk, IfOk, IfSome, IfNone, IsSomeAnd, drop, length, option_map, option_copied, position, slice_get, vec_len};
ghost use Rattle.std.specs.List.{AllPairs, IsDistinct, list_any};
ghost use Rattle.std.specs.Str.{bytes_eq};
ghost use Rattle.std.specs.Vec.{vec_capacity};
ghost use Rattle.hx_model.specs.Hands.{Hand, hand_of, is_held, without_hand};
ghost use Rattle.hx_line.specs.Line.{IsRanked, KeepsRanks};
ghost use Rattle.hx_order.specs.Ranks.{IsFirst};
ghost use Rattle.hx_reconcile.specs.Briefs.{hand_by};
ghost use Rattle.hx_queue.specs.Spread.{is_place_of, is_spread, names_in, outdated, place_keys, root_of};
ghost use Rattle.hx_queue.specs.Tied.{Brings, IsFree, IsInFront, LinesUp, MarksEach, hands_of};
ghost use Rattle.hx_queue.specs.Workers.{AreApart, IsMarkedBy, IsTakenBy, IsLetGo, MaySpread, no_work};

use crate::queue::Queue;
use crate::spread::Spread;
use hx_forest::Forest;
use hx_model::Key;
use hx_object::{Id, NoMemory, Text};
use hx_reconcile::SharedBrief;
use std::alloc::Global;
use std::hash::RandomState;
use std::marker::Model;

/// The queue of keys, and the brief that each worker holds.
///
/// A key is given by its rank, that of a copy by the depth of its namespace, and then by the order of keys. The keys of one object's kind and name in all of a subtree are marked as a whole, in constant time. They come in line when a key is given and no removal, subnamespace or tree labels wait, or when one of them is named.
pub struct Workers {
    queue: Queue,
    spread: Spread,
    /// In the order in which they were taken. They are few, since a worker has one at most.
    hands: Vec<Handed>,
}

impl Drop for Workers {
    fn drop(self) {
        let Workers {
            queue: _,
            spread: _,
            hands: _,
        } = self;
    }
}

/// What a worker holds.
#[derive(Drop)]
struct Handed {
    worker: u32,
    brief: SharedBrief,
}

impl Model for Workers {
    ghost use Rattle.std.specs.Prelude.{◌-◌, vec_len};
    ghost use Rattle.std.specs.Vec.{vec_capacity};
    ghost use Rattle.hx_queue.specs.Tied.{IsKept, hands_of, kept_of};
    ghost use Rattle.hx_queue.specs.Workers.{WorkersKept, workers_kept_code};

    ghost Value = { WorkersKept };

    ghost coded = { workers_kept_code };

    ghost view = { λ w. kept_of w.hands.items (vec_capacity w.hands - vec_len w.hands) w.queue w.spread };

    ghost invariant = { λ w. IsKept (hands_of w.hands.items) w.queue w.spread };
}

impl Workers {
    /// Nobody holds anything, and no key waits. It takes no memory.
    pub fn new(alloc: Global, keys: RandomState) -> Workers
        ensures seen { result.seen ≡ no_work }
        ensures scope { result.scope ≡ None }
        ensures spread { result.spread ≡ [] }
        ensures ranks { result.ranks ≡ [] }
    {
        Workers {
            queue: Queue::new(alloc, keys),
            spread: Spread::new(alloc, keys),
            hands: Vec::new(alloc),
        }
    }

    /// What a worker holds.
    pub fn hand(&self, worker: u32) -> Option<&SharedBrief>
        ensures some { IfSome result (λ brief. hand_of worker self.now.seen.hands ≡ Some (hand_by worker brief.now)) }
        ensures none { IfNone result (hand_of worker self.now.seen.hands ≡ None) }
    {
        brief_of(&self.hands, worker)
    }

    /// The worker that holds a key.
    pub fn holder(&self, key: &Key) -> Option<u32>
        ensures some { IfSome result (λ worker. IsSomeAnd (hand_of worker self.now.seen.hands) (λ hand. hand.key ≡ key.now)) }
        ensures none { IfNone result (is_held key.now self.now.seen.hands ≡ false) }
    {
        self.queue.holder(key)
    }

    /// The key whose turn it is in a tree, once more: of those that wait the first by rank, by the depth of a copy's namespace, and by the order of keys.
    pub fn next(&mut self, forest: &Forest) -> Result<Option<Key>, NoMemory>
        requires { IsRanked forest.now.nodes self.old.ranks }
        ensures first { IfOk result (λ o. IfSome o (λ key. IsFirst forest.now.nodes self.old.seen.waiting key)) }
        ensures none { IfOk result (λ o. IfNone o (self.old.seen.waiting ≡ [])) }
        ensures free { IfOk result (λ o. IfSome o (λ key. is_held key self.old.seen.hands ≡ false)) }
        ensures seen { self.new.seen ≡ self.old.seen }
        ensures scope { self.new.scope ≡ self.old.scope }
        ensures ranks { IsRanked forest.now.nodes self.new.ranks }
    {
        bring_first(&mut self.queue, &mut self.spread, forest)?;
        self.queue.law_apart();
        first_of(&self.queue)
    }

    /// How many keys wait.
    pub fn waiting(&self) -> usize
        ensures { result ≡ length self.now.seen.waiting }
    {
        self.queue.law_apart();
        self.spread.law_distinct();
        self.spread.count(&self.queue)
    }

    /// How many keys are held.
    pub fn held(&self) -> usize
        ensures { result ≡ length self.now.seen.hands }
    {
        self.hands.len()
    }

    /// Makes room for so many keys, and for one hand more.
    pub fn reserve(&mut self, more: usize) -> Result<(), NoMemory>
        ensures seen { self.new.seen ≡ self.old.seen }
        ensures room { OnOk result (more ≤ self.new.spare) }
        ensures scope { self.new.scope ≡ self.old.scope }
        ensures spread { self.new.spread ≡ self.old.spread }
        ensures places { self.new.places ≡ self.old.places }
        ensures ranks { self.new.ranks ≡ self.old.ranks }
    {
        self.queue.reserve(more)?;
        Ok(self.hands.reserve(1)?)
    }

    /// Brings the keys in line that were marked as a whole with this one.
    pub fn line_up(&mut self, key: &Key) -> Result<(), NoMemory>
        ensures seen { self.new.seen ≡ self.old.seen }
        ensures scope { self.new.scope ≡ self.old.scope }
        ensures apart { OnOk result (is_spread self.new.spread key.now ≡ false) }
        ensures ranks { self.new.ranks ≡ self.old.ranks }
    {
        line_up_with(&mut self.queue, &mut self.spread, key)
    }

    /// A worker takes a key. It takes no memory.
    pub fn take(&mut self, worker: u32, key: Key, brief: SharedBrief)
        requires room { 0 < self.old.spare }
        requires is { brief.key ≡ key }
        requires empty { hand_of worker self.old.seen.hands ≡ None }
        requires free { is_held key self.old.seen.hands ≡ false }
        requires apart { is_spread self.old.spread key ≡ false }
        ensures taken { IsTakenBy (hand_by worker brief) self.old.seen self.new.seen }
        ensures scope { self.new.scope ≡ self.old.scope }
        ensures spread { self.new.spread ≡ self.old.spread }
        ensures ranks { KeepsRanks self.old.ranks self.new.ranks }
    {
        self.queue.hold(worker, key);
        self.hands.push(Handed { worker, brief }).unwrap();
    }

    /// Marks keys. It takes no memory.
    pub fn mark_all(&mut self, keys: Vec<Key>)
        requires { length keys.items ≤ self.old.spare }
        ensures marked { IsMarkedBy keys.items self.old.seen self.new.seen }
        ensures room { self.old.spare ≤ self.new.spare + length keys.items }
        ensures scope { self.new.scope ≡ self.old.scope }
        ensures spread { self.new.spread ≡ self.old.spread }
        ensures places { self.new.places ≡ self.old.places }
        ensures ranks { self.new.ranks ≡ self.old.ranks }
    {
        mark_each(&mut self.queue, keys);
    }

    /// A worker lets go what it holds, and gives its brief back. It takes no memory.
    pub fn let_go(&mut self, worker: u32, waits: bool) -> Option<SharedBrief>
        ensures none { IfNone result ((hand_of worker self.old.seen.hands ≡ None) × (self.new.seen ≡ self.old.seen)) }
        ensures some { IfSome result (λ brief. (hand_of worker self.old.seen.hands ≡ Some (hand_by worker brief)) × IsLetGo worker brief.key waits self.old.seen self.new.seen) }
        ensures room { self.old.spare ≤ self.new.spare }
        ensures scope { self.new.scope ≡ self.old.scope }
        ensures spread { self.new.spread ≡ self.old.spread }
        ensures ranks { self.new.ranks ≡ self.old.ranks }
    {
        match give_up(&mut self.hands, worker) {
            Some(brief) => {
                self.queue.release(&brief.brief().key, waits);
                Some(brief)
            }
            None => None,
        }
    }

    /// The namespace in whose subtree keys are marked as a whole, while the reach is current.
    pub fn root(&self) -> Option<&Text>
        ensures { option_copied result ≡ root_of self.now.scope }
    {
        self.spread.root()
    }

    /// Whether keys were marked as a whole that don't stand in line yet.
    pub fn is_spread(&self) -> bool
        ensures none { result ≡ false → self.now.spread ≡ [] }
        ensures some { self.now.spread ≡ [] → result ≡ false }
    {
        !self.spread.is_empty()
    }

    /// Sets where keys are marked as a whole, while none are: a namespace, and those of its subtree that its keys are marked in. It takes no memory.
    pub fn set_scope(&mut self, root: Text, names: Vec<Text>)
        requires empty { self.old.spread ≡ [] }
        requires distinct { IsDistinct bytes_eq names.items }
        ensures scope { self.new.scope ≡ Some (record { root = root; names = names.items; current = true }) }
        ensures seen { self.new.seen ≡ self.old.seen }
        ensures spread { self.new.spread ≡ [] }
        ensures spare { self.new.spare ≡ self.old.spare }
        ensures places { self.new.places ≡ self.old.places }
        ensures ranks { self.new.ranks ≡ self.old.ranks }
    {
        self.spread.set(root, names);
    }

    /// Makes room for one object whose keys are marked as a whole. Where no memory is left, the room stays.
    pub fn reserve_spread(&mut self) -> Result<(), NoMemory>
        ensures seen { self.new.seen ≡ self.old.seen }
        ensures scope { self.new.scope ≡ self.old.scope }
        ensures spread { self.new.spread ≡ self.old.spread }
        ensures spare { self.new.spare ≡ self.old.spare }
        ensures places { OnOk result (1 ≤ self.new.places) }
        ensures kept { self.old.places ≤ self.new.places }
        ensures ranks { self.new.ranks ≡ self.old.ranks }
    {
        self.spread.reserve()
    }

    /// Whether the keys of an object's kind and name may be marked as a whole: none of them is held, and there aren't too many already.
    pub fn may_spread(&self, id: &Id) -> bool
        ensures { result ≡ true → MaySpread id.now self.now.seen.hands self.now.scope self.now.spread }
    {
        self.spread.fits() && !holds_place(self.hands.as_slice(), id)
    }

    /// Marks the keys of an object's kind and name in all of the reach. It takes no memory.
    pub fn mark_spread(&mut self, id: Id)
        requires at { IsSomeAnd self.old.scope (λ r. r.root ≡ id.ns) }
        requires room { 1 ≤ self.old.places }
        requires may { MaySpread id self.old.seen.hands self.old.scope self.old.spread }
        ensures marked { IsMarkedBy (place_keys (names_in self.old.scope) id) self.old.seen self.new.seen }
        ensures scope { self.new.scope ≡ self.old.scope }
        ensures spare { self.new.spare ≡ self.old.spare }
        ensures ranks { self.new.ranks ≡ self.old.ranks }
    {
        self.spread.add(id);
    }

    /// The tree has changed: the reach isn't current any more, and keys may lie deeper or less deep. What was marked as a whole stays. It takes no memory.
    pub fn outdate(&mut self)
        ensures seen { self.new.seen ≡ self.old.seen }
        ensures scope { self.new.scope ≡ outdated self.old.scope }
        ensures spread { self.new.spread ≡ self.old.spread }
        ensures spare { self.new.spare ≡ self.old.spare }
        ensures places { self.new.places ≡ self.old.places }
        ensures ranks { self.new.ranks ≡ [] }
    {
        self.queue.outdate();
        self.spread.outdate();
    }

    /// A theorem: no key is there twice, and no worker.
    pub fn law_apart(&self)
        ensures { AreApart self.now.seen }
    {
        let _held = self.hands.len();
        self.queue.law_apart();
    }
}

// The keys of the first object that were marked as a whole go in line.
fn line_up_one(queue: &mut Queue, spread: &mut Spread) -> Result<(), NoMemory>
    requires { IsFree queue.old spread.old.ids }
    ensures lines_up { LinesUp queue.old queue.new spread.old spread.new }
    ensures ids { OnOk result (spread.new.ids ≡ drop 1 spread.old.ids) }
{
    spread.line_up(queue)
}

// Brings all keys in line that were marked as a whole.
fn line_up_all(queue: &mut Queue, spread: &mut Spread) -> Result<(), NoMemory>
    requires { IsFree queue.old spread.old.ids }
    ensures lines_up { LinesUp queue.old queue.new spread.old spread.new }
    ensures none { OnOk result (spread.new.ids ≡ []) }
{
    while !spread.is_empty() {
        line_up_one(queue, spread)?;
    }
    Ok(())
}

// Brings the key to the front whose turn it is in a tree. Where it doesn't come before all copies, those come in line at first that were marked as a whole.
fn bring_first(queue: &mut Queue, spread: &mut Spread, forest: &Forest) -> Result<(), NoMemory>
    requires free { IsFree queue.old spread.old.ids }
    requires ranked { IsRanked forest.now.nodes queue.old.ranks }
    ensures brings { Brings forest.now.nodes queue.old queue.new spread.old spread.new }
    ensures front { OnOk result (IsInFront forest.now.nodes queue.new spread.new) }
{
    queue.rank(forest);
    if queue.is_early() {
        return Ok(());
    }
    line_up_all(queue, spread)?;
    queue.rank(forest);
    Ok(())
}

// Brings the keys in line that were marked as a whole with this one.
fn line_up_with(queue: &mut Queue, spread: &mut Spread, key: &Key) -> Result<(), NoMemory>
    requires { IsFree queue.old spread.old.ids }
    ensures lines_up { LinesUp queue.old queue.new spread.old spread.new }
    ensures apart { OnOk result (is_spread spread.new.ids key.now ≡ false) }
{
    while spread.has(key)? {
        line_up_one(queue, spread)?;
    }
    Ok(())
}

// The key at the front, once more.
fn first_of(queue: &Queue) -> Result<Option<Key>, NoMemory>
    ensures { IfOk result (λ o. o ≡ slice_get queue.now.waiting 0) }
{
    match queue.next() {
        Some(key) => Ok(Some(key.clone()?)),
        None => Ok(None),
    }
}

// Whether a key of an object's kind and name is held.
fn holds_place(hands: &[Handed], id: &Id) -> bool
    ensures { result ≡ list_any (λ h. is_place_of id.now h.brief.key) hands.now }
{
    for hand in hands {
        if is_place(id, &hand.brief.brief().key) {
            return true;
        }
    }
    false
}

// Whether a key is of an object's kind and name.
fn is_place(id: &Id, key: &Key) -> bool
    ensures { result ≡ is_place_of id.now key.now }
{
    match key {
        Key::Copy { ns: _, kind, name } => *kind == id.kind && *name == id.name,
        _ => false,
    }
}

// Marks keys one by one.
fn mark_each(queue: &mut Queue, keys: Vec<Key>)
    requires { length keys.items ≤ queue.old.spare }
    ensures { MarksEach keys.items queue.old queue.new }
{
    for key in keys {
        queue.mark(key);
    }
}

// The place of a worker's hand.
fn place_of(hands: &[Handed], worker: u32) -> Option<usize>
    ensures { result ≡ position (λ h. h.worker == worker) hands.now }
{
    hands.iter().position(|hand| hand.worker == worker)
}

// The brief that a worker holds.
fn brief_of(hands: &Vec<Handed>, worker: u32) -> Option<&SharedBrief>
    ensures { option_map (λ brief. hand_by worker brief) (option_copied result) ≡ hand_of worker (hands_of hands.now.items) }
{
    match place_of(hands.as_slice(), worker) {
        Some(place) => Some(&hands[place].brief),
        None => None,
    }
}

// Takes a worker's hand out. The others keep their order.
fn give_up(hands: &mut Vec<Handed>, worker: u32) -> Option<SharedBrief>
    requires { AllPairs (λ (a b : Hand). (a.worker == b.worker) ≡ false) (hands_of hands.old.items) }
    ensures brief { option_map (λ brief. hand_by worker brief) result ≡ hand_of worker (hands_of hands.old.items) }
    ensures hands { hands_of hands.new.items ≡ without_hand worker (hands_of hands.old.items) }
    ensures places { vec_capacity hands.old - vec_len hands.old ≤ vec_capacity hands.new - vec_len hands.new }
{
    let Some(place) = place_of(hands.as_slice(), worker) else {
        return None;
    };
    let Handed { worker: _, brief } = hands.remove(place);
    Some(brief)
}
