// Children by the names of their parents.
ghost use Rattle.std.specs.Prelude.{◌≡◌, ℕ, ◌+◌, ◌-◌, ◌<◌, ◌≤◌, ◌==◌, false, List, [], Some, None, IfOk, IfSome, OnOk, not, ◌&&◌, ◌||◌, length, option_copied, option_map, cond, vec_capacity, vec_len};
ghost use Rattle.std.specs.Str.{bytes_eq};
ghost use Rattle.indexmap.specs.IndexMap.{spare};
ghost use Rattle.hx_model.specs.Forest.{is_in};
ghost use Rattle.hx_forest.specs.Names.{IsAscending};
ghost use Rattle.hx_forest.specs.ParentRefs.{index_at};
ghost use Rattle.hx_forest.specs.Children.{list_at, others_of, lists_of, names_in, IsTied, IsTaken, HasEntered, HasLeft, HasList, Fits};
ghost use Rattle.hx_forest.specs.declared.nodes.Nodes.{Nodes};

use crate::names::Names;
use hx_object::{NoMemory, Text};
use indexmap::IndexMap;
use std::alloc::Global;
use std::hash::RandomState;

/// A map by names. It hashes with keys that are handed in, since strangers choose the names.
pub(crate) type NameMap<V> = IndexMap<Text, V, RandomState>;

/// A map by names without entries. All maps of a forest are made here.
pub(crate) fn map_by_name<V>(alloc: Global, keys: RandomState) -> NameMap<V>
    ensures { result.entries ≡ [] }
{
    IndexMap::with_hasher(alloc, keys)
}

/// A child that is ready to be kept under its parent, with a list to begin where the parent has none.
#[derive(Drop)]
pub(crate) struct Link {
    pub(crate) parent: Text,
    pub(crate) child: Text,
    pub(crate) list: Names,
}

impl Link {
    /// Copies the names. The list has room for `room` of them.
    pub(crate) fn new(
        alloc: Global,
        parent: &Text,
        child: &Text,
        room: usize,
    ) -> Result<Link, NoMemory>
        ensures parent { IfOk result (λ l. l.parent ≡ parent.now) }
        ensures child { IfOk result (λ l. l.child ≡ child.now) }
        ensures list { IfOk result (λ l. l.list.names ≡ []) }
        ensures room { IfOk result (λ l. room ≤ l.list.spare) }
    {
        Ok(Link {
            parent: parent.clone()?,
            child: child.clone()?,
            list: Names::with_room(alloc, room)?,
        })
    }
}

/// The names of children, by the name of the parent.
///
/// The lists of namespaces lie in the order of the nodes, so that the index of a parent finds its list. Only names without a namespace are looked up.
pub(crate) struct Children {
    lists: Vec<Names>,
    others: NameMap<Names>,
}

impl Drop for Children {
    fn drop(self) {
        let Children {
            lists: _,
            others: _,
        } = self;
    }
}

impl Children {
    /// No children. It takes no memory.
    pub(crate) fn new(alloc: Global, keys: RandomState) -> Children
        ensures lists { result.lists.items ≡ [] }
        ensures others { result.others.entries ≡ [] }
    {
        Children {
            lists: Vec::new(alloc),
            others: map_by_name(alloc, keys),
        }
    }

    /// The children of a name that lies at an index among the nodes, in ascending order.
    pub(crate) fn of(&self, at: Option<usize>, parent: &Text) -> &[Text]
        ensures { result.now ≡ names_in (list_at self.now at parent.now) }
    {
        match self.list(at, parent) {
            Some(names) => names.as_slice(),
            None => &[],
        }
    }

    fn list(&self, at: Option<usize>, parent: &Text) -> Option<&Names>
        ensures { option_copied result ≡ list_at self.now at parent.now }
    {
        match at {
            Some(at) => self.lists.get(at),
            None => self.others.get(parent),
        }
    }

    /// Keeps a child under its parent, which lies at an index among the nodes. It takes no memory.
    pub(crate) fn link(&mut self, at: Option<usize>, link: Link)
        requires there { IfSome at (λ i. i < length self.old.lists.items) }
        requires room { 1 ≤ spare self.old.others }
        requires fits { Fits 1 (list_at self.old at link.parent) }
        requires list { link.list.names ≡ [] }
        requires list_room { 1 ≤ link.list.spare }
        ensures list { (nodes : Nodes) → index_at nodes (Some link.parent) ≡ at → HasList (lists_of nodes self.old) (lists_of nodes self.new) link.parent (λ q. bytes_eq q link.child || is_in q (names_in (lists_of nodes self.old link.parent))) }
        ensures tied { (nodes : Nodes) → index_at nodes (Some link.parent) ≡ at → IsTied nodes self.old → IsTied nodes self.new }
        ensures fits { (nodes : Nodes) → index_at nodes (Some link.parent) ≡ at → (k : ℕ) (q : List ℕ) → k + 1 ≤ link.list.spare → Fits (k + 1) (lists_of nodes self.old q) → Fits k (lists_of nodes self.new q) }
        ensures room { vec_capacity self.old.lists - vec_len self.old.lists ≤ vec_capacity self.new.lists - vec_len self.new.lists }
        ensures other_room { spare self.old.others ≤ spare self.new.others + 1 }
    {
        match at {
            Some(at) => add_to(&mut self.lists[at], link.child, link.list),
            None => self.link_other(link),
        }
    }

    /// Keeps a child under a name without a namespace.
    fn link_other(&mut self, link: Link)
        requires room { 1 ≤ spare self.old.others }
        requires fits { Fits 1 (others_of self.old link.parent) }
        requires list { link.list.names ≡ [] }
        requires list_room { 1 ≤ link.list.spare }
        ensures lists { self.new.lists ≡ self.old.lists }
        ensures list { HasList (others_of self.old) (others_of self.new) link.parent (λ q. bytes_eq q link.child || is_in q (names_in (others_of self.old link.parent))) }
        ensures fits { (k : ℕ) → k + 1 ≤ link.list.spare → Fits (k + 1) (others_of self.old link.parent) → Fits k (others_of self.new link.parent) }
        ensures room { spare self.old.others ≤ spare self.new.others + 1 }
    {
        let Link {
            parent,
            child,
            mut list,
        } = link;
        match self.others.get_mut(&parent) {
            Some(names) => add_to(names, child, list),
            None => {
                list.insert(child);
                let _none = self.others.insert(parent, list).unwrap();
            }
        }
    }

    /// Drops a child of its parent, which lies at an index among the nodes. It takes no memory.
    pub(crate) fn unlink(&mut self, at: Option<usize>, parent: &Text, child: &Text)
        requires { IfSome at (λ i. i < length self.old.lists.items) }
        ensures list { (nodes : Nodes) → index_at nodes (Some parent.now) ≡ at → HasList (lists_of nodes self.old) (lists_of nodes self.new) parent.now (λ q. not (bytes_eq q child.now) && is_in q (names_in (lists_of nodes self.old parent.now))) }
        ensures tied { (nodes : Nodes) → index_at nodes (Some parent.now) ≡ at → IsTied nodes self.old → IsTied nodes self.new }
        ensures fits { (nodes : Nodes) → index_at nodes (Some parent.now) ≡ at → (k : ℕ) (q : List ℕ) → Fits k (lists_of nodes self.old q) → Fits k (lists_of nodes self.new q) }
        ensures room { vec_capacity self.old.lists - vec_len self.old.lists ≤ vec_capacity self.new.lists - vec_len self.new.lists }
        ensures other_room { spare self.old.others ≤ spare self.new.others }
    {
        let none = Names::new(*self.lists.allocator());
        match at {
            Some(at) => take_from(&mut self.lists[at], child, none),
            None => self.unlink_other(parent, child),
        }
    }

    /// Drops a child of a name without a namespace, and the list with the last of them.
    fn unlink_other(&mut self, parent: &Text, child: &Text)
        ensures lists { self.new.lists ≡ self.old.lists }
        ensures list { HasList (others_of self.old) (others_of self.new) parent.now (λ q. not (bytes_eq q child.now) && is_in q (names_in (others_of self.old parent.now))) }
        ensures full { IfSome (others_of self.new parent.now) (λ n. (length n.names == 0) ≡ false) }
        ensures fits { (k : ℕ) → Fits k (others_of self.old parent.now) → Fits k (others_of self.new parent.now) }
        ensures room { spare self.old.others ≤ spare self.new.others }
    {
        let Some(names) = self.others.get_mut(parent) else {
            return;
        };
        names.remove(child);
        if names.is_empty() {
            let _names = self.others.swap_remove(parent);
        }
    }

    /// Begins the list of a namespace that comes at the end, with the children that name it already. It takes no memory.
    pub(crate) fn enter(&mut self, name: &Text)
        requires { vec_len self.old.lists < vec_capacity self.old.lists }
        ensures list { HasEntered self.old self.new name.now }
        ensures room { vec_capacity self.old.lists - vec_len self.old.lists ≤ vec_capacity self.new.lists - vec_len self.new.lists + 1 }
        ensures other_room { spare self.old.others ≤ spare self.new.others }
    {
        let list = self.take_other(name);
        self.lists.push(list).unwrap();
    }

    /// Takes the list of a name without a namespace out, or begins one.
    fn take_other(&mut self, name: &Text) -> Names
        ensures lists { self.new.lists ≡ self.old.lists }
        ensures list { IsTaken (others_of self.old name.now) result }
        ensures others { (q : List ℕ) → others_of self.new q ≡ cond (bytes_eq name.now q) None (others_of self.old q) }
        ensures room { spare self.old.others ≤ spare self.new.others }
    {
        if self.others.is_empty() {
            return Names::new(*self.lists.allocator());
        }
        match self.others.swap_remove(name) {
            Some(list) => list,
            None => Names::new(*self.lists.allocator()),
        }
    }

    /// Takes the list of a namespace out that goes, and the last one fills the gap. Its children stay those of its name. It takes no memory.
    pub(crate) fn leave(&mut self, at: usize, name: Text)
        requires there { at < length self.old.lists.items }
        requires room { 1 ≤ spare self.old.others }
        ensures list { HasLeft self.old self.new at name }
        ensures room { vec_capacity self.old.lists - vec_len self.old.lists ≤ vec_capacity self.new.lists - vec_len self.new.lists }
        ensures other_room { spare self.old.others ≤ spare self.new.others + 1 }
    {
        let list = self.lists.swap_remove(at);
        if !list.is_empty() {
            let _none = self.others.insert(name, list).unwrap();
        }
    }

    /// Makes room for `more` namespaces, and for as many other names with children. Where no memory is left, the room stays.
    pub(crate) fn reserve(&mut self, more: usize) -> Result<(), NoMemory>
        ensures lists { self.new.lists.items ≡ self.old.lists.items }
        ensures others { self.new.others.entries ≡ self.old.others.entries }
        ensures room { OnOk result (more ≤ vec_capacity self.new.lists - vec_len self.new.lists) }
        ensures other_room { OnOk result (more ≤ spare self.new.others) }
    {
        self.lists.reserve(more)?;
        Ok(self.others.reserve(more)?)
    }

    /// Makes room for `more` names beside the children of a parent, where it has some. Where no memory is left, the room stays.
    pub(crate) fn reserve_under(
        &mut self,
        at: Option<usize>,
        parent: &Text,
        more: usize,
    ) -> Result<(), NoMemory>
        requires { IfSome at (λ i. i < length self.old.lists.items) }
        ensures names { (nodes : Nodes) → index_at nodes (Some parent.now) ≡ at → (q : List ℕ) → option_map (λ n. n.names) (lists_of nodes self.new q) ≡ option_map (λ n. n.names) (lists_of nodes self.old q) }
        ensures tied { (nodes : Nodes) → IsTied nodes self.old → IsTied nodes self.new }
        ensures fits { OnOk result (Fits more (list_at self.new at parent.now)) }
        ensures others { (nodes : Nodes) → index_at nodes (Some parent.now) ≡ at → (k : ℕ) (q : List ℕ) → Fits k (lists_of nodes self.old q) → Fits k (lists_of nodes self.new q) }
        ensures room { vec_capacity self.old.lists - vec_len self.old.lists ≤ vec_capacity self.new.lists - vec_len self.new.lists }
        ensures other_room { spare self.old.others ≤ spare self.new.others }
    {
        match at {
            Some(at) => make_room(&mut self.lists[at], more),
            None => self.reserve_other(parent, more),
        }
    }

    /// Makes room beside the children of a name without a namespace, where it has some.
    fn reserve_other(&mut self, parent: &Text, more: usize) -> Result<(), NoMemory>
        ensures lists { self.new.lists ≡ self.old.lists }
        ensures names { (q : List ℕ) → option_map (λ n. n.names) (others_of self.new q) ≡ option_map (λ n. n.names) (others_of self.old q) }
        ensures fits { OnOk result (Fits more (others_of self.new parent.now)) }
        ensures others { (k : ℕ) (q : List ℕ) → Fits k (others_of self.old q) → Fits k (others_of self.new q) }
        ensures room { spare self.old.others ≤ spare self.new.others }
    {
        match self.others.get_mut(parent) {
            Some(names) => names.reserve(more),
            None => Ok(()),
        }
    }
}

/// Makes room for `more` names beside the children of a name. Where it has none, the first one brings a list along.
fn make_room(names: &mut Names, more: usize) -> Result<(), NoMemory>
    ensures names { names.new.names ≡ names.old.names }
    ensures fits { OnOk result (Fits more (Some names.new)) }
    ensures spare { names.old.spare ≤ names.new.spare }
{
    if names.is_empty() {
        return Ok(());
    }
    names.reserve(more)
}

/// Adds a child to the children of a name. The first one goes into the list that it brings along, which has the room.
fn add_to(names: &mut Names, child: Text, list: Names)
    requires fits { Fits 1 (Some names.old) }
    requires list { list.names ≡ [] }
    requires list_room { 1 ≤ list.spare }
    ensures order { IsAscending names.new.names }
    ensures members { (q : List ℕ) → is_in q names.new.names ≡ (bytes_eq q child || is_in q names.old.names) }
    ensures fits { (k : ℕ) → k + 1 ≤ list.spare → Fits (k + 1) (Some names.old) → Fits k (Some names.new) }
{
    if names.is_empty() {
        *names = list;
    }
    names.insert(child);
}

/// Drops a child of a name. With the last one the list goes, too, and an empty one takes its place.
fn take_from(names: &mut Names, child: &Text, none: Names)
    requires { none.names ≡ [] }
    ensures order { IsAscending names.new.names }
    ensures members { (q : List ℕ) → is_in q names.new.names ≡ (not (bytes_eq q child.now) && is_in q names.old.names) }
    ensures fits { (k : ℕ) → Fits k (Some names.old) → Fits k (Some names.new) }
{
    names.remove(child);
    if names.is_empty() {
        *names = none;
    }
}
