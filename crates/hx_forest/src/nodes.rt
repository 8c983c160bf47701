// Nodes by the names of their namespaces.
ghost use Rattle.std.specs.Prelude.{◌≡◌, ◌+◌, ◌++◌, ◌<◌, ◌≤◌, ◌^◌, ℕ, List, true, false, is_some, Some, None, [], ◌∷◌, length, OnOk, IfSome, option_copied, option_map};
ghost use Rattle.std.specs.List.{IsDistinct};
ghost use Rattle.std.specs.Map.{keys_of};
ghost use Rattle.std.specs.Option.{option_map_or};
ghost use Rattle.std.specs.Str.{bytes_eq};
ghost use Rattle.hx_model.specs.Forest.{halt_of, is_there, node_of, parent_of, with_parent};
ghost use Rattle.hx_model.specs.ForestChanges.{with_node, with_terminating, without_node};
ghost use Rattle.hx_forest.specs.NodeTable.{Place, IsCut, is_restless, standing_of};
ghost use Rattle.hx_forest.specs.ParentRefs.{forest_of, node_in, number_at, index_at, name_in, place_in, place_of, parent_in, IsAt, AllLeadUp};
ghost use Rattle.hx_forest.specs.Notes.{AreNoted};

use crate::node_table::{NodeTable, ParentRef, Standing, Step};
use hx_model::Node;
use hx_object::{NoMemory, Text};
use std::alloc::Global;
use std::hash::RandomState;

/// Nodes by the names of their namespaces.
///
/// A step up goes by the way, which reads no name. Where it doesn't meet a place of its number, the step goes by the parent's name.
///
/// A namespace that isn't halted may be noted by the epoch of the tree. Each change of a node gives the tree another epoch, so that nothing is noted then.
pub(crate) struct Nodes {
    places: NodeTable,
    /// The greatest number of a place so far.
    drawn: u32,
    /// The epoch of the tree, which it hasn't had before. Where none is left it is 0, and nothing is noted any more.
    epoch: u32,
}

impl Drop for Nodes {
    fn drop(self) {
        let Nodes {
            places: _,
            drawn: _,
            epoch: _,
        } = self;
    }
}

impl Nodes {
    /// No nodes. It takes no memory.
    pub(crate) fn new(alloc: Global, keys: RandomState) -> Nodes
        ensures places { result.places.entries ≡ [] }
        ensures parent_refs { AllLeadUp result }
        ensures notes { AreNoted result }
    {
        Nodes {
            places: NodeTable::new(alloc, keys),
            drawn: 0,
            epoch: 1,
        }
    }

    pub(crate) fn allocator(&self) -> Global {
        self.places.allocator()
    }

    /// How many there are.
    pub(crate) fn len(&self) -> usize
        ensures len { result ≡ length (forest_of self.now) }
        ensures small { result < 2 ^ 63 }
        ensures unique { IsDistinct bytes_eq (keys_of self.now.places.entries) }
    {
        self.places.len()
    }

    /// Makes room for `more`. Where no memory is left, the room stays.
    pub(crate) fn reserve(&mut self, more: usize) -> Result<(), NoMemory>
        ensures nodes { forest_of self.new ≡ forest_of self.old }
        ensures names { keys_of self.new.places.entries ≡ keys_of self.old.places.entries }
        ensures parent_refs { AllLeadUp self.old → AllLeadUp self.new }
        ensures notes { AreNoted self.old → AreNoted self.new }
        ensures room { OnOk result (more ≤ self.new.places.spare) }
    {
        self.places.reserve(more)
    }

    /// The node of a namespace.
    pub(crate) fn node(&self, name: &Text) -> Option<&Node>
        ensures { option_copied result ≡ node_of (forest_of self.now) name.now }
    {
        self.node_in(self.index_of(name))
    }

    /// The node of a namespace, which may lie at the index that is given.
    pub(crate) fn node_near(&self, at: Option<usize>, name: &Text) -> Option<&Node>
        ensures { option_copied result ≡ node_of (forest_of self.now) name.now }
    {
        if self.lies_at(at, name) {
            return self.node_in(at);
        }
        self.node(name)
    }

    /// Whether a namespace lies at an index.
    fn lies_at(&self, at: Option<usize>, name: &Text) -> bool
        ensures { result ≡ true → place_in self.now at ≡ place_of self.now name.now }
    {
        match self.name_in(at) {
            Some(found) => found.as_str() == name.as_str(),
            None => false,
        }
    }

    /// What a namespace names as its parent.
    pub(crate) fn parent(&self, name: &Text) -> Option<&Text>
        ensures { option_copied result ≡ parent_of (forest_of self.now) name.now }
    {
        match self.node(name) {
            Some(node) => node.parent.as_ref(),
            None => None,
        }
    }

    /// The index of a namespace.
    pub(crate) fn index_of(&self, name: &Text) -> Option<usize>
        ensures { result ≡ index_at self.now (Some name.now) }
    {
        self.places.index_of(name)
    }

    /// The namespace at an index.
    pub(crate) fn name_in(&self, at: Option<usize>) -> Option<&Text>
        ensures name { option_copied result ≡ name_in self.now at }
        ensures unique { IsDistinct bytes_eq (keys_of self.now.places.entries) }
    {
        self.places.name(at)
    }

    /// The node at an index.
    pub(crate) fn node_in(&self, at: Option<usize>) -> Option<&Node>
        ensures { option_copied result ≡ node_in (place_in self.now at) }
    {
        self.places.node(at)
    }

    /// How the node at an index stands.
    pub(crate) fn standing(&self, at: Option<usize>) -> Option<&Standing>
        ensures { option_copied result ≡ option_map standing_of (node_in (place_in self.now at)) }
    {
        self.places.standing(at)
    }

    /// How the node of a namespace stands.
    pub(crate) fn standing_of(&self, name: &Text) -> Option<&Standing>
        ensures { option_copied result ≡ option_map standing_of (node_of (forest_of self.now) name.now) }
    {
        self.standing(self.index_of(name))
    }

    /// Whether a namespace names a parent, and isn't eligible.
    pub(crate) fn has_restless(&self) -> bool
        ensures { result ≡ false → (q : List ℕ) (node : Node) → node_of (forest_of self.now) q ≡ Some node → is_restless (standing_of node) ≡ false }
    {
        self.places.has_restless()
    }

    /// Whether a place lies at an index.
    pub(crate) fn is_place(&self, at: Option<usize>) -> bool
        ensures { result ≡ is_some (place_in self.now at) }
    {
        self.places.step(at).is_some()
    }

    /// Where the parent of the node at an index lies.
    pub(crate) fn above(&self, at: Option<usize>) -> Option<usize>
        requires { AllLeadUp self.now }
        ensures { result ≡ index_at self.now (parent_in self.now at) }
    {
        let step = self.places.step(at)?;
        match self.at_parent_ref(step.up) {
            Some(above) => Some(above),
            None => self.at_name(self.parent_in(at)),
        }
    }

    /// What the node at an index names as its parent.
    fn parent_in(&self, at: Option<usize>) -> Option<&Text>
        ensures { option_copied result ≡ parent_in self.now at }
    {
        match self.node_in(at) {
            Some(node) => node.parent.as_ref(),
            None => None,
        }
    }

    /// Where a way goes, where it comes to a place of its number.
    fn at_parent_ref(&self, up: ParentRef) -> Option<usize>
        ensures { IfSome result (IsAt self.now up) }
    {
        let index = up.index as usize;
        let above = self.places.step(Some(index))?;
        if up.number > 0 && above.number == up.number {
            Some(index)
        } else {
            None
        }
    }

    /// Where a name lies that may be none.
    fn at_name(&self, name: Option<&Text>) -> Option<usize>
        ensures { result ≡ index_at self.now (option_copied name.entry) }
    {
        match name {
            Some(name) => self.index_of(name),
            None => None,
        }
    }

    /// The way to a parent.
    fn parent_ref_to(&self, parent: Option<&Text>) -> ParentRef
        ensures { result.number ≡ number_at self.now (option_copied parent.entry) }
    {
        let at = self.at_name(parent);
        ParentRef {
            index: u32::try_from(at.unwrap_or(0)).unwrap_or(0),
            number: self.number_in(at),
        }
    }

    /// The number of the place at an index, and 0 where there is none.
    fn number_in(&self, at: Option<usize>) -> u32
        ensures { result ≡ option_map_or (λ p. p.number) (place_in self.now at) 0 }
    {
        match self.places.step(at) {
            Some(step) => step.number,
            None => 0,
        }
    }

    /// Looks up the ways of namespaces anew: their parent has come, or has moved to another index. It takes no memory.
    pub(crate) fn find_parent_refs(&mut self, names: &[Text])
        ensures nodes { forest_of self.new ≡ forest_of self.old }
        ensures names { keys_of self.new.places.entries ≡ keys_of self.old.places.entries }
        ensures parent_refs { AllLeadUp self.old → AllLeadUp self.new }
        ensures notes { AreNoted self.old → AreNoted self.new }
        ensures room { self.old.places.spare ≤ self.new.places.spare }
    {
        for name in names {
            self.find_parent_ref(name);
        }
    }

    /// Looks up the way of a namespace anew.
    fn find_parent_ref(&mut self, name: &Text)
        ensures nodes { forest_of self.new ≡ forest_of self.old }
        ensures names { keys_of self.new.places.entries ≡ keys_of self.old.places.entries }
        ensures parent_refs { AllLeadUp self.old → AllLeadUp self.new }
        ensures notes { AreNoted self.old → AreNoted self.new }
        ensures room { self.old.places.spare ≤ self.new.places.spare }
    {
        let Some(at) = self.index_of(name) else {
            return;
        };
        let up = self.parent_ref_to(self.parent_in(Some(at)));
        self.places.set_up(at, up);
    }

    /// A number that no place has had, or 0 where there is none left.
    fn draw(&mut self) -> u32
        ensures places { self.new.places ≡ self.old.places }
        ensures epoch { self.new.epoch ≡ self.old.epoch }
        ensures grows { self.old.drawn ≤ self.new.drawn }
        ensures within { result ≤ self.new.drawn }
        ensures fresh { 0 < result → self.old.drawn < result }
    {
        match self.drawn.checked_add(1) {
            Some(number) => {
                self.drawn = number;
                number
            }
            None => 0,
        }
    }

    /// Adds a namespace, and gives back the index where it lies. It takes no memory.
    pub(crate) fn add(&mut self, name: Text, node: Node) -> usize
        requires absent { is_there (forest_of self.old) name ≡ false }
        requires room { 1 ≤ self.old.places.spare }
        ensures nodes { forest_of self.new ≡ with_node name node (forest_of self.old) }
        ensures names { keys_of self.new.places.entries ≡ keys_of self.old.places.entries ++ name ∷ [] }
        ensures at { index_at self.new (Some name) ≡ Some result }
        ensures parent_refs { AllLeadUp self.old → AllLeadUp self.new }
        ensures notes { AreNoted self.old → AreNoted self.new }
        ensures room { self.old.places.spare ≤ self.new.places.spare + 1 }
    {
        let at = self.places.len();
        let up = self.parent_ref_to(node.parent.as_ref());
        let number = self.draw();
        self.epoch = epoch_after(self.epoch);
        let noted = 0;
        self.places.add(name, Step { number, up, noted }, node);
        at
    }

    /// Gives the namespace at an index another parent, or none, and gives back the one that it had.
    pub(crate) fn set_parent(&mut self, at: usize, parent: Option<Text>) -> Option<Text>
        ensures nodes { (n : List ℕ) → index_at self.old (Some n) ≡ Some at → forest_of self.new ≡ with_parent n parent (forest_of self.old) }
        ensures names { keys_of self.new.places.entries ≡ keys_of self.old.places.entries }
        ensures old { result ≡ parent_in self.old (Some at) }
        ensures parent_refs { (n : List ℕ) → index_at self.old (Some n) ≡ Some at → AllLeadUp self.old → AllLeadUp self.new }
        ensures notes { (n : List ℕ) → index_at self.old (Some n) ≡ Some at → AreNoted self.old → AreNoted self.new }
        ensures room { self.old.places.spare ≤ self.new.places.spare }
    {
        let up = self.parent_ref_to(parent.as_ref());
        self.epoch = epoch_after(self.epoch);
        let old = self.places.set_parent(at, parent);
        self.places.set_up(at, up);
        old
    }

    /// Marks a namespace as terminating.
    pub(crate) fn set_terminating(&mut self, name: &Text)
        requires { is_there (forest_of self.old) name.now ≡ true }
        ensures nodes { forest_of self.new ≡ with_terminating name.now (forest_of self.old) }
        ensures names { keys_of self.new.places.entries ≡ keys_of self.old.places.entries }
        ensures parent_refs { AllLeadUp self.old → AllLeadUp self.new }
        ensures notes { AreNoted self.old → AreNoted self.new }
        ensures room { self.old.places.spare ≤ self.new.places.spare }
    {
        self.epoch = epoch_after(self.epoch);
        if let Some(at) = self.index_of(name) {
            self.places.set_terminating(at);
        }
    }

    /// Takes the namespace at an index out, and gives back the parent that it had.
    pub(crate) fn remove(&mut self, at: usize) -> Option<Text>
        ensures nodes { (n : List ℕ) → index_at self.old (Some n) ≡ Some at → forest_of self.new ≡ without_node n (forest_of self.old) }
        ensures cut { (n : List ℕ) → index_at self.old (Some n) ≡ Some at → IsCut self.old.places.entries self.new.places.entries n at }
        ensures old { result ≡ parent_in self.old (Some at) }
        ensures parent_refs { (n : List ℕ) → index_at self.old (Some n) ≡ Some at → AllLeadUp self.old → AllLeadUp self.new }
        ensures notes { (n : List ℕ) → index_at self.old (Some n) ≡ Some at → AreNoted self.old → AreNoted self.new }
        ensures room { self.old.places.spare ≤ self.new.places.spare }
    {
        self.epoch = epoch_after(self.epoch);
        self.places.remove(at)?.parent
    }

    /// Whether the namespace at an index is noted not to be halted.
    pub(crate) fn is_noted(&self, at: usize) -> bool
        ensures { result ≡ true → 0 < self.now.epoch × ((p : Place) → place_in self.now (Some at) ≡ Some p → p.noted ≡ self.now.epoch) }
    {
        match self.places.step(Some(at)) {
            Some(step) => step.noted > 0 && step.noted == self.epoch,
            None => false,
        }
    }

    /// Notes that the namespace at an index isn't halted.
    pub(crate) fn set_noted(&mut self, at: usize)
        requires { (n : List ℕ) × (index_at self.old (Some n) ≡ Some at) × (halt_of (forest_of self.old) n ≡ None) }
        ensures nodes { forest_of self.new ≡ forest_of self.old }
        ensures names { keys_of self.new.places.entries ≡ keys_of self.old.places.entries }
        ensures parent_refs { AllLeadUp self.old → AllLeadUp self.new }
        ensures notes { AreNoted self.old → AreNoted self.new }
        ensures room { self.old.places.spare ≤ self.new.places.spare }
    {
        self.places.set_noted(at, self.epoch);
    }
}

/// The epoch of the tree after this one, or 0 where there is none left.
fn epoch_after(epoch: u32) -> u32
    ensures { 0 < result → 0 < epoch × epoch < result }
{
    match epoch.checked_add(1) {
        Some(next) if epoch > 0 => next,
        _ => 0,
    }
}
