// Why namespaces are halted.
ghost use Rattle.std.specs.Prelude.{◌≡◌, ℕ, List, true, ◌+◌, ◌≤◌, false, Some, [], ◌∷◌, not, ◌&&◌, is_some, length, option_copied};
ghost use Rattle.std.specs.Map.{keys_of};
ghost use Rattle.hx_model.specs.Cases.{is_leaving};
ghost use Rattle.hx_model.specs.First.{so, first};
ghost use Rattle.hx_model.specs.Forest.{own_halt_of, halt_of, is_live, parent_of};
ghost use Rattle.hx_model.specs.Moves.{is_eligible};
ghost use Rattle.hx_model.specs.TreeLabels.{is_open};
ghost use Rattle.hx_model.specs.Walks.{walk_ends};
ghost use Rattle.hx_forest.specs.Inside.{halt_at, halt_under, is_halted_by, nodes_halt};
ghost use Rattle.hx_forest.specs.ParentRefs.{forest_of, node_in, index_at, place_in, AllLeadUp};
ghost use Rattle.hx_forest.specs.Notes.{AreNoted};
ghost use Rattle.hx_model.specs.declared.node.Halt.TheVariants.{Ancestor};

use crate::forest::Forest;
use crate::node_table::Standing;
use crate::nodes::Nodes;
use hx_model::{Halt, Node};
use hx_object::Text;

impl Forest {
    /// Why a namespace is halted: the first reason that holds.
    pub fn halt(&self, name: &Text) -> Option<Halt>
        ensures { result ≡ halt_of self.now.nodes name.now }
    {
        self.nodes.halt(name)
    }

    /// Whether a namespace is there and not on its way out.
    pub fn is_live(&self, name: &Text) -> bool
        ensures { result ≡ is_live self.now.nodes name.now }
    {
        match self.node(name) {
            Some(node) => !node.terminating,
            None => false,
        }
    }

    /// Whether a namespace is there and on its way out.
    pub fn is_leaving(&self, name: &Text) -> bool
        ensures { result ≡ is_leaving self.now.nodes name.now }
    {
        match self.node(name) {
            Some(node) => node.terminating,
            None => false,
        }
    }

    /// Whether a namespace is there and not on its way out, and isn't excluded.
    pub fn is_eligible(&self, name: &Text) -> bool
        ensures { result ≡ is_eligible self.now.nodes name.now }
    {
        match self.nodes.standing_of(name) {
            Some(standing) => standing.eligible,
            None => false,
        }
    }

    /// Whether a namespace that names a parent may be on its way out or excluded, in constant time. Where none is, all below one that takes part do.
    pub fn may_be_restless(&self) -> bool
        ensures { result ≡ false → (n : List ℕ) → is_some (parent_of self.now.nodes n) ≡ true → is_eligible self.now.nodes n ≡ true }
    {
        self.nodes.has_restless()
    }

    /// Whether a namespace takes part: it is there and not on its way out, and neither excluded nor halted.
    pub fn is_open(&self, name: &Text) -> bool
        ensures { result ≡ is_open self.now.nodes name.now }
    {
        self.nodes.is_open(name)
    }

    /// Notes that a namespace isn't halted, where it isn't, so that this is told in constant time until the tree changes. It takes no memory.
    pub fn note(&mut self, name: &Text)
        ensures { self.new ≡ self.old }
    {
        self.nodes.note(name);
    }
}

impl Nodes {
    /// Notes that a namespace isn't halted, where it isn't.
    fn note(&mut self, name: &Text)
        requires parent_refs { AllLeadUp self.old }
        requires notes { AreNoted self.old }
        ensures nodes { forest_of self.new ≡ forest_of self.old }
        ensures names { keys_of self.new.places.entries ≡ keys_of self.old.places.entries }
        ensures parent_refs { AllLeadUp self.new }
        ensures notes { AreNoted self.new }
        ensures room { self.old.places.spare ≤ self.new.places.spare }
    {
        let Some(at) = self.index_of(name) else {
            return;
        };
        if !self.is_noted(at) && self.halt_from(name, at).is_none() {
            self.set_noted(at);
        }
    }

    /// Whether a namespace takes part.
    fn is_open(&self, name: &Text) -> bool
        requires parent_refs { AllLeadUp self.now }
        requires notes { AreNoted self.now }
        ensures { result ≡ is_open (forest_of self.now) name.now }
    {
        match self.index_of(name) {
            Some(at) => self.is_eligible(at) && self.halt_from(name, at).is_none(),
            None => false,
        }
    }

    /// Why a namespace is halted: the first reason that holds.
    fn halt(&self, name: &Text) -> Option<Halt>
        requires parent_refs { AllLeadUp self.now }
        requires notes { AreNoted self.now }
        ensures { result ≡ halt_of (forest_of self.now) name.now }
    {
        match self.index_of(name) {
            Some(at) => self.halt_from(name, at),
            None => None,
        }
    }

    /// Whether the namespace at an index isn't on its way out, and isn't excluded.
    fn is_eligible(&self, at: usize) -> bool
        ensures { (node : Node) → node_in (place_in self.now (Some at)) ≡ Some node → result ≡ (not node.terminating && not node.excluded) }
    {
        match self.standing(Some(at)) {
            Some(standing) => standing.eligible,
            None => false,
        }
    }

    /// Why a namespace is halted that lies at this index, as it is noted or by a walk up. One that ends meets each member once.
    fn halt_from(&self, name: &Text, at: usize) -> Option<Halt>
        requires parent_refs { AllLeadUp self.now }
        requires notes { AreNoted self.now }
        requires at { index_at self.now (Some name.now) ≡ Some at }
        ensures { result ≡ halt_of (forest_of self.now) name.now }
    {
        if self.is_noted(at) {
            return None;
        }
        let above = self.above(Some(at));
        match self.has_halted(above) {
            Some(is_below) => halt_or_below(self.parent_halt(at, above), is_below),
            None => self.halt_by_ring(name),
        }
    }

    /// The reason that the namespace at an index has by its parent, which lies at `above` where it is there.
    fn parent_halt(&self, at: usize, above: Option<usize>) -> Option<Halt>
        ensures { (node : Node) → node_in (place_in self.now (Some at)) ≡ Some node → result ≡ halt_at node.parent (node_in (place_in self.now above)) }
    {
        if !is_halted_by(self.standing(Some(at))?, self.standing(above)) {
            return None;
        }
        let node = self.node_in(Some(at))?;
        halt_by(node, self.node_in(above))
    }

    /// Whether a walk up from an index passes one that has a reason by its parent, where the walk ends.
    fn has_halted(&self, first: Option<usize>) -> Option<bool>
        requires { AllLeadUp self.now }
        ensures { result ≡ nodes_halt (length (forest_of self.now)) (forest_of self.now) (node_in (place_in self.now first)) }
    {
        let mut has = false;
        let mut at = first;
        let mut left = self.len();
        while left > 0 {
            left -= 1;
            let Some(member) = self.standing(at) else {
                return Some(has);
            };
            at = self.above(at);
            has = has || is_halted_by(member, self.standing(at));
        }
        None
    }

    /// Why a namespace is halted whose walk up comes to a cycle.
    fn halt_by_ring(&self, name: &Text) -> Option<Halt>
        requires parent_refs { AllLeadUp self.now }
        requires ring { is_some (walk_ends (length (forest_of self.now) + 1) (forest_of self.now) (Some name.now)) ≡ false }
        ensures { result ≡ halt_of (forest_of self.now) name.now }
    {
        match self.own_halt(name) {
            Some(halt) => Some(halt),
            None => Some(Halt::Ancestor),
        }
    }

    /// The reason that a namespace has by itself.
    fn own_halt(&self, name: &Text) -> Option<Halt>
        requires { AllLeadUp self.now }
        ensures { result ≡ own_halt_of (forest_of self.now) name.now }
    {
        let Some(parent) = self.parent(name) else {
            return None;
        };
        if self.in_chain(parent, name) {
            return Some(Halt::InCycle);
        }
        match self.node(parent) {
            None => Some(Halt::ParentMissing),
            Some(node) => halt_under(node),
        }
    }
}

/// The reason that a namespace has by its parent, whose node is `above` where it is there.
fn halt_by(node: &Node, above: Option<&Node>) -> Option<Halt>
    ensures { result ≡ halt_at node.now.parent (option_copied above.entry) }
{
    if node.parent.is_none() {
        return None;
    }
    match above {
        Some(parent) => halt_under(parent),
        None => Some(Halt::ParentMissing),
    }
}

/// Whether a namespace has such a reason, where what its parent is stands in `above`.
fn is_halted_by(member: &Standing, above: Option<&Standing>) -> bool
    ensures { result ≡ is_halted_by member.now (option_copied above.entry) }
{
    if member.root {
        return false;
    }
    match above {
        Some(parent) => !parent.eligible,
        None => true,
    }
}

/// The reason of a namespace that has one by its parent, or else may be below a halted one.
fn halt_or_below(halt: Option<Halt>, is_below: bool) -> Option<Halt>
    ensures { result ≡ first (halt ∷ so is_below Ancestor ∷ []) }
{
    if halt.is_none() && is_below {
        Some(Halt::Ancestor)
    } else {
        halt
    }
}

/// The reason that a namespace has by the node of its parent.
fn halt_under(parent: &Node) -> Option<Halt>
    ensures { result ≡ halt_under parent.now }
{
    if parent.terminating {
        Some(Halt::ParentMissing)
    } else if parent.excluded {
        Some(Halt::IllegalParent)
    } else {
        None
    }
}
