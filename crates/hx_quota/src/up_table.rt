// Where the parents of namespaces lie.
ghost use Rattle.std.specs.Prelude.{◌≡◌, ◌+◌, ◌-◌, ◌<◌, ◌≤◌, ◌^◌, false, None, [], ◌∷◌, ◌++◌, OnOk, IfSome, is_some, length, map, option_and_then, slice_get, slice_set, swap_remove, nat_eq, vec_len};
ghost use Rattle.std.specs.List.{list_any};
ghost use Rattle.std.specs.Option.{option_map_or};
ghost use Rattle.std.specs.Vec.{vec_capacity};
ghost use Rattle.hx_quota.specs.PlaceRows.{relinked};

use hx_object::NoMemory;
use std::alloc::Global;
use std::marker::Model;

/// The most namespaces, so that their indices fit 32 bits.
const MOST: usize = 4_294_967_296;

/// The indices of the parents of namespaces, by the indices of these.
///
/// They take 8 bytes each, so that a walk up and a removal, which looks at all, read little. There is no room for more than have an index.
pub(crate) struct UpTable {
    ups: Vec<Option<u32>>,
}

impl Drop for UpTable {
    fn drop(self) {
        let UpTable { ups: _ } = self;
    }
}

impl Model for UpTable {
    ghost use Rattle.std.specs.Prelude.{◌-◌, ◌≤◌, min, length, vec_capacity};
    ghost use Rattle.hx_quota.specs.PlaceRows.{UpsView, most_places};

    ghost Value = { UpsView };

    ghost view = { λ u. record { items = u.ups.items; spare = min (most_places - length u.ups.items) (vec_capacity u.ups - length u.ups.items) } };

    ghost invariant = { λ u. length u.ups.items ≤ most_places };
}

impl UpTable {
    /// No indices. It takes no memory.
    pub(crate) fn new(alloc: Global) -> UpTable
        ensures { result.items ≡ [] }
    {
        UpTable {
            ups: Vec::new(alloc),
        }
    }

    /// Makes room for `more`. Where no memory is left, the room stays. What has no index fits no memory, either.
    pub(crate) fn reserve(&mut self, more: usize) -> Result<(), NoMemory>
        ensures items { self.new.items ≡ self.old.items }
        ensures room { OnOk result (more ≤ self.new.spare) }
        ensures stays { self.old.spare ≤ self.new.spare }
    {
        if more > MOST - self.ups.len() {
            return Err(NoMemory);
        }
        Ok(self.ups.reserve(more)?)
    }

    /// A namespace without a parent comes behind the others. It takes no memory.
    pub(crate) fn push(&mut self)
        requires { 1 ≤ self.old.spare }
        ensures items { self.new.items ≡ self.old.items ++ None ∷ [] }
        ensures room { self.old.spare ≤ self.new.spare + 1 }
    {
        self.ups.push_reserved(None);
    }

    /// The index of the parent of the one at an index, where there is one.
    pub(crate) fn get(&self, at: usize) -> Option<usize>
        ensures { result ≡ option_and_then (λ up. up) (slice_get self.now.items at) }
    {
        match self.ups.get(at) {
            Some(up) => wide(*up),
            None => None,
        }
    }

    /// Whether any has a parent.
    pub(crate) fn any(&self) -> bool
        ensures { result ≡ list_any (λ up. is_some up) self.now.items }
    {
        self.ups.iter().any(|up| up.is_some())
    }

    /// Gives the one at an index another parent, or none, where it is there.
    pub(crate) fn set(&mut self, at: usize, up: Option<usize>)
        requires { IfSome up (λ i. i < length self.old.items) }
        ensures items { self.new.items ≡ slice_set self.old.items at up }
        ensures room { self.old.spare ≤ self.new.spare }
    {
        replace_up(&mut self.ups, at, narrow(up));
    }

    /// Takes one out. The last one takes its index, of which all others are told.
    pub(crate) fn swap_remove(&mut self, at: usize)
        requires { at < length self.old.items }
        ensures items { self.new.items ≡ map (relinked (length self.old.items - 1) at) (swap_remove self.old.items at None) }
        ensures room { self.old.spare ≤ self.new.spare }
    {
        let _up = self.ups.swap_remove(at);
        let last = self.ups.len();
        relink(&mut self.ups, last, at);
    }
}

/// The same index in 64 bits.
fn wide(up: Option<u32>) -> Option<usize>
    ensures { result ≡ up }
{
    match up {
        Some(index) => Some(index as usize),
        None => None,
    }
}

/// The same index in 32 bits.
fn narrow(up: Option<usize>) -> Option<u32>
    requires { IfSome up (λ i. i < 2 ^ 32) }
    ensures { result ≡ up }
{
    match up {
        Some(index) => Some(index as u32),
        None => None,
    }
}

/// Replaces the index of a parent.
fn replace_up(ups: &mut Vec<Option<u32>>, at: usize, up: Option<u32>)
    ensures ups { ups.new.items ≡ slice_set ups.old.items at up }
    ensures len { vec_len ups.new ≡ vec_len ups.old }
    ensures room { vec_capacity ups.new ≡ vec_capacity ups.old }
{
    if let Some(old) = ups.get_mut(at) {
        *old = up;
    }
}

/// Notes where one lies that lay at `from`. It looks at all, and writes to those of its children alone.
fn relink(ups: &mut Vec<Option<u32>>, from: usize, to: usize)
    requires { to < 2 ^ 32 }
    ensures ups { ups.new.items ≡ map (relinked from to) ups.old.items }
    ensures len { vec_len ups.new ≡ vec_len ups.old }
    ensures room { vec_capacity ups.new ≡ vec_capacity ups.old }
{
    let index = to as u32;
    let count = ups.len();
    for at in 0..count {
        if is_at(ups[at], from) {
            replace_up(ups, at, Some(index));
        }
    }
}

/// Whether an index is this one.
fn is_at(up: Option<u32>, at: usize) -> bool
    ensures { result ≡ option_map_or (λ i. nat_eq i at) up false }
{
    match up {
        Some(index) => index as usize == at,
        None => false,
    }
}
