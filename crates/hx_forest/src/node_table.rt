// The places of namespaces: what a step up reads lies by itself.
ghost use Rattle.std.specs.Prelude.{◌≡◌, false, ◌+◌, ◌<◌, ◌≤◌, ◌^◌, ◌++◌, ◌&&◌, not, ℕ, List, None, Some, cond, [], ◌∷◌, length, option_map, option_and_then, OnOk, option_copied};
ghost use Rattle.std.specs.List.{IsDistinct};
ghost use Rattle.std.specs.Map.{keys_of, lookup};
ghost use Rattle.std.specs.Str.{bytes_eq};
ghost use Rattle.hx_forest.specs.NodeTable.{Place, place_with, step_of, standing_of, is_restless, one_if, index_in, entry_in, changed_at, IsCut, with_up, with_noted, terminating, below};

use crate::children::{NameMap, map_by_name};
use hx_model::Node;
use hx_object::{NoMemory, Text};
use std::alloc::Global;
use std::hash::RandomState;
use std::marker::Model;
use std::mem;

/// Where the place of a parent was when it was looked up, and its number. The number 0 is that of no place.
#[derive(Clone, Copy)]
pub(crate) struct ParentRef {
    pub(crate) index: u32,
    pub(crate) number: u32,
}

/// What a walk up reads of a place: a number that no other place has had, and the way to the place of the parent.
#[derive(Clone, Copy)]
pub(crate) struct Step {
    pub(crate) number: u32,
    pub(crate) up: ParentRef,
    /// The epoch that the tree had when the namespace was last noted not to be halted, or 0.
    pub(crate) noted: u32,
}

/// What a walk up asks of a node: whether it names no parent, and whether it is neither on its way out nor excluded.
#[derive(Clone, Copy)]
pub(crate) struct Standing {
    pub(crate) root: bool,
    pub(crate) eligible: bool,
}

/// NodeTable by the names of their namespaces. What a walk up reads lies in a vector of its own, in the order of the names.
pub(crate) struct NodeTable {
    nodes: NameMap<Node>,
    rungs: Vec<(Step, Standing)>,
    /// How many namespaces are restless: they name a parent, and aren't eligible.
    restless: usize,
}

impl Drop for NodeTable {
    fn drop(self) {
        let NodeTable {
            nodes: _,
            rungs: _,
            restless: _,
        } = self;
    }
}

impl Model for NodeTable {
    ghost use Rattle.std.specs.Prelude.{◌≡◌, ◌-◌, length, min, vec_len};
    ghost use Rattle.std.specs.List.{IsDistinct};
    ghost use Rattle.std.specs.Map.{keys_of};
    ghost use Rattle.std.specs.Str.{bytes_eq};
    ghost use Rattle.std.specs.Vec.{vec_capacity};
    ghost use Rattle.indexmap.specs.IndexMap.{spare};
    ghost use Rattle.hx_forest.specs.NodeTable.{NodeTableView, places_code, places_from, AreStanding, restless_in};

    ghost Value = { NodeTableView };

    ghost coded = { places_code };

    ghost view = { λ p. record { entries = places_from p.nodes.entries p.rungs.items; spare = min (spare p.nodes) (vec_capacity p.rungs - vec_len p.rungs) } };

    ghost invariant = { λ p. AreStanding p.nodes.entries p.rungs.items × IsDistinct bytes_eq (keys_of p.nodes.entries) × (p.restless ≡ restless_in p.rungs.items) };
}

impl NodeTable {
    /// No places. It takes no memory.
    pub(crate) fn new(alloc: Global, keys: RandomState) -> NodeTable
        ensures { result.entries ≡ [] }
    {
        NodeTable {
            nodes: map_by_name(alloc, keys),
            rungs: Vec::new(alloc),
            restless: 0,
        }
    }

    pub(crate) fn allocator(&self) -> Global {
        *self.nodes.allocator()
    }

    /// How many there are.
    pub(crate) fn len(&self) -> usize
        ensures len { result ≡ length self.now.entries }
        ensures small { result < 2 ^ 63 }
        ensures unique { IsDistinct bytes_eq (keys_of self.now.entries) }
    {
        self.nodes.len()
    }

    /// Makes room for `more`. Where no memory is left, the room stays.
    pub(crate) fn reserve(&mut self, more: usize) -> Result<(), NoMemory>
        ensures entries { self.new.entries ≡ self.old.entries }
        ensures room { OnOk result (more ≤ self.new.spare) }
    {
        self.nodes.reserve(more)?;
        Ok(self.rungs.reserve(more)?)
    }

    /// The index of a namespace.
    pub(crate) fn index_of(&self, name: &Text) -> Option<usize>
        ensures { result ≡ index_in self.now.entries name.now }
    {
        self.nodes.get_index_of(name)
    }

    /// The namespace at an index.
    pub(crate) fn name(&self, at: Option<usize>) -> Option<&Text>
        ensures name { option_copied result ≡ option_map (λ e. e.0) (entry_in self.now.entries at) }
        ensures unique { IsDistinct bytes_eq (keys_of self.now.entries) }
    {
        let (name, _) = self.nodes.get_index(at?)?;
        Some(name)
    }

    /// The step at an index.
    pub(crate) fn step(&self, at: Option<usize>) -> Option<&Step>
        ensures step { option_copied result ≡ option_map (λ e. step_of e.1) (entry_in self.now.entries at) }
        ensures unique { IsDistinct bytes_eq (keys_of self.now.entries) }
    {
        let (step, _) = self.rungs.get(at?)?;
        Some(step)
    }

    /// How the node at an index stands.
    pub(crate) fn standing(&self, at: Option<usize>) -> Option<&Standing>
        ensures { option_copied result ≡ option_map (λ e. standing_of e.1.node) (entry_in self.now.entries at) }
    {
        let (_, standing) = self.rungs.get(at?)?;
        Some(standing)
    }

    /// Whether a namespace is restless.
    pub(crate) fn has_restless(&self) -> bool
        ensures { result ≡ false → (q : List ℕ) (p : Place) → lookup (bytes_eq q) self.now.entries ≡ Some p → is_restless (standing_of p.node) ≡ false }
    {
        self.restless > 0
    }

    /// The node at an index.
    pub(crate) fn node(&self, at: Option<usize>) -> Option<&Node>
        ensures { option_copied result ≡ option_map (λ e. e.1.node) (entry_in self.now.entries at) }
    {
        let (_, node) = self.nodes.get_index(at?)?;
        Some(node)
    }

    /// Adds a place at the end. It takes no memory.
    pub(crate) fn add(&mut self, name: Text, step: Step, node: Node)
        requires absent { lookup (bytes_eq name) self.old.entries ≡ None }
        requires room { 1 ≤ self.old.spare }
        ensures entries { self.new.entries ≡ self.old.entries ++ (name, place_with step node) ∷ [] }
        ensures room { self.old.spare ≤ self.new.spare + 1 }
    {
        let standing = standing_of(&node);
        let _none = self.nodes.insert(name, node).unwrap();
        self.rungs.push((step, standing)).unwrap();
        self.restless = one_more(self.restless, &standing);
    }

    /// Takes the place at an index out, and puts the last one where it lay. The node comes back.
    pub(crate) fn remove(&mut self, at: usize) -> Option<Node>
        ensures node { result ≡ option_map (λ e. e.1.node) (entry_in self.old.entries (Some at)) }
        ensures entries { (n : List ℕ) → index_in self.old.entries n ≡ Some at → (q : List ℕ) → lookup (bytes_eq q) self.new.entries ≡ cond (bytes_eq n q) None (lookup (bytes_eq q) self.old.entries) }
        ensures cut { (n : List ℕ) → index_in self.old.entries n ≡ Some at → IsCut self.old.entries self.new.entries n at }
        ensures room { self.old.spare ≤ self.new.spare }
    {
        let (_, node) = self.nodes.swap_remove_index(at)?;
        let rung = self.rungs.swap_remove(at);
        self.restless = one_less(self.restless, &rung.1);
        Some(node)
    }

    /// Gives the place at an index another way up.
    pub(crate) fn set_up(&mut self, at: usize, up: ParentRef)
        ensures entries { self.new.entries ≡ changed_at (with_up up) at self.old.entries }
        ensures room { self.old.spare ≤ self.new.spare }
    {
        let Some(rung) = self.rungs.get_mut(at) else {
            return;
        };
        rung.0.up = up;
    }

    /// Gives the place at an index another epoch.
    pub(crate) fn set_noted(&mut self, at: usize, epoch: u32)
        ensures entries { self.new.entries ≡ changed_at (with_noted epoch) at self.old.entries }
        ensures room { self.old.spare ≤ self.new.spare }
    {
        let Some(rung) = self.rungs.get_mut(at) else {
            return;
        };
        rung.0.noted = epoch;
    }

    /// Marks the node at an index as terminating.
    pub(crate) fn set_terminating(&mut self, at: usize)
        ensures entries { self.new.entries ≡ changed_at terminating at self.old.entries }
        ensures room { self.old.spare ≤ self.new.spare }
    {
        let Some(node) = self.nodes.get_index_mut(at) else {
            return;
        };
        node.terminating = true;
        let standing = standing_of(node);
        let stood = self.rungs[at].1;
        self.rungs[at].1 = standing;
        self.restless = one_more(one_less(self.restless, &stood), &standing);
    }

    /// Gives the node at an index another parent, or none, and gives back the one that it had.
    pub(crate) fn set_parent(&mut self, at: usize, parent: Option<Text>) -> Option<Text>
        ensures entries { self.new.entries ≡ changed_at (below parent) at self.old.entries }
        ensures old { result ≡ option_and_then (λ p. p.node.parent) (option_map (λ e. e.1) (entry_in self.old.entries (Some at))) }
        ensures room { self.old.spare ≤ self.new.spare }
    {
        let node = self.nodes.get_index_mut(at)?;
        let old = mem::replace(&mut node.parent, parent);
        let standing = standing_of(node);
        let stood = self.rungs[at].1;
        self.rungs[at].1 = standing;
        self.restless = one_more(one_less(self.restless, &stood), &standing);
        old
    }
}

/// How a node stands.
fn standing_of(node: &Node) -> Standing
    ensures { result ≡ standing_of node.now }
{
    Standing {
        root: node.parent.is_none(),
        eligible: is_eligible(node),
    }
}

/// A count of those that are restless, with one that stands so.
fn one_more(count: usize, standing: &Standing) -> usize
    ensures { count < 2 ^ 63 → result ≡ count + one_if (is_restless standing.now) }
{
    if is_restless(standing) {
        return count.saturating_add(1);
    }
    count
}

/// A count of those that are restless, without one that stands so.
fn one_less(count: usize, standing: &Standing) -> usize
    ensures { one_if (is_restless standing.now) ≤ count → result + one_if (is_restless standing.now) ≡ count }
{
    if is_restless(standing) {
        return count.saturating_sub(1);
    }
    count
}

/// Whether a namespace that stands so names a parent, and isn't eligible.
fn is_restless(standing: &Standing) -> bool
    ensures { result ≡ is_restless standing.now }
{
    !standing.root && !standing.eligible
}

/// Whether a namespace isn't on its way out, and isn't excluded.
fn is_eligible(node: &Node) -> bool
    ensures { result ≡ (not node.now.terminating && not node.now.excluded) }
{
    !node.terminating && !node.excluded
}
