// The keys that are held.
ghost use Rattle.std.specs.Prelude.{◌≡◌, ◌≤◌, ◌<◌, ◌+◌, ◌++◌, ◌∷◌, [], true, false, option_map, length, is_some, find};
ghost use Rattle.std.specs.List.Sorted.{IsPermutation};
ghost use Rattle.indexmap.specs.IndexMap.{spare};
ghost use Rattle.hx_model.specs.Keys.{same_key};
ghost use Rattle.hx_queue.specs.Kept.{again_in, held_without};
ghost use Rattle.hx_queue.specs.Slots.{held_of};

use hx_model::Key;
use indexmap::IndexMap;
use std::hash::RandomState;

/// How a key is held: by which worker, and whether it was marked since.
#[derive(Clone, Copy)]
pub(crate) struct Slot {
    pub(crate) worker: u32,
    pub(crate) again: bool,
}

pub(crate) type Slots = IndexMap<Key, Slot, RandomState>;

/// Marks a key that is held again, and whether it is held.
#[tactic(auto, unfolding(hx_model::specs::Keys::same_key))]
pub(crate) fn mark_held(slots: &mut Slots, key: &Key) -> bool
    ensures held { result ≡ is_some (find (λ h. same_key key.now h.key) (held_of slots.old.entries)) }
    ensures marked { held_of slots.new.entries ≡ again_in key.now (held_of slots.old.entries) }
    ensures room { spare slots.new ≡ spare slots.old }
{
    // mostly nobody holds any, and nothing is hashed
    if slots.is_empty() {
        return false;
    }
    match slots.get_mut(key) {
        Some(slot) => {
            slot.again = true;
            true
        }
        None => false,
    }
}

/// Holds a key that nobody holds. It takes no memory.
#[tactic(auto, unfolding(hx_model::specs::Keys::same_key))]
pub(crate) fn put(slots: &mut Slots, key: Key, slot: Slot)
    requires room { 0 < spare slots.old }
    requires free { is_some (find (λ h. same_key key h.key) (held_of slots.old.entries)) ≡ false }
    ensures entries { slots.new.entries ≡ slots.old.entries ++ (key, slot) ∷ [] }
    ensures room { spare slots.old ≤ spare slots.new + 1 }
{
    let _held = slots.insert(key, slot);
}

/// Lets a key go that is held: the key, and whether it was marked since.
#[tactic(auto, unfolding(hx_model::specs::Keys::same_key))]
pub(crate) fn let_go(slots: &mut Slots, key: &Key) -> (Key, bool)
    requires { is_some (find (λ h. same_key key.now h.key) (held_of slots.old.entries)) ≡ true }
    ensures key { result.0 ≡ key.now }
    ensures again { option_map (λ h. h.again) (find (λ h. same_key key.now h.key) (held_of slots.old.entries)) ≡ Some result.1 }
    ensures held { IsPermutation (held_of slots.new.entries) (held_without key.now (held_of slots.old.entries)) }
    ensures len { length slots.new.entries + 1 ≡ length slots.old.entries }
    ensures room { spare slots.old ≤ spare slots.new }
{
    let _len = slots.len();
    let (key, slot) = slots.swap_remove_entry(key).unwrap();
    (key, slot.again)
}

/// Who holds a key.
#[tactic(auto, unfolding(hx_model::specs::Keys::same_key))]
pub(crate) fn holder(slots: &Slots, key: &Key) -> Option<u32>
    ensures { result ≡ option_map (λ h. h.worker) (find (λ h. same_key key.now h.key) (held_of slots.now.entries)) }
{
    match slots.get(key) {
        Some(slot) => Some(slot.worker),
        None => None,
    }
}
