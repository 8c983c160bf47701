// Walks up the parents.
ghost use Rattle.std.specs.Prelude.{◌≡◌, ◌+◌, IfOk, Some, length};
ghost use Rattle.std.specs.Iterator.{YieldsFirstRef, item_count};
ghost use Rattle.hx_model.specs.Forest.{depth_of, in_chain, chain_of};
ghost use Rattle.hx_model.specs.Walks.{walk_to};
ghost use Rattle.hx_forest.specs.Inside.{nodes_end};
ghost use Rattle.hx_forest.specs.ParentRefs.{forest_of, node_in, index_at, place_in, AllLeadUp};

use crate::forest::Forest;
use crate::nodes::Nodes;
use hx_object::{NoMemory, Text};
use std::marker::Model;

/// The members of a chain: a namespace, its parent, the parent's parent and so on. It ends also where the parents go in a cycle.
#[derive(Drop)]
pub struct Ancestors<'a> {
    nodes: &'a Nodes,
    /// The index of the next member.
    at: Option<usize>,
    left: usize,
}

impl<'a> Model for Ancestors<'a> {
    ghost use Rattle.std.specs.Prelude.{List, ℕ};
    ghost use Rattle.hx_forest.specs.Inside.{walk_names};
    ghost use Rattle.hx_forest.specs.ParentRefs.{forest_of, name_in, AllLeadUp};

    ghost Value = { List (List ℕ) };

    ghost view = { λ a. walk_names a.left (forest_of a.nodes.now) (name_in a.nodes.now a.at) };

    ghost invariant = { λ a. AllLeadUp a.nodes.now };
}

impl<'a> Iterator for Ancestors<'a> {
    type Item = &'a Text;

    ghost next_gives = { YieldsFirstRef (λ s. s) };

    ghost remaining = { item_count (λ s. s) };

    fn next(&mut self) -> Option<&'a Text> {
        if self.left == 0 {
            return None;
        }
        let member = self.nodes.name_in(self.at)?;
        self.left -= 1;
        self.at = self.nodes.above(self.at);
        Some(member)
    }
}

impl Forest {
    /// The members of the chain of a namespace, which begins with that one itself. It takes no memory.
    pub fn ancestors<'a>(&'a self, name: &'a Text) -> Ancestors<'a>
        ensures { result ≡ chain_of self.now.nodes name.now }
    {
        self.nodes.ancestors(name)
    }

    /// A namespace, its parent, the parent's parent and so on: up to a name that isn't there, or one that the chain has.
    pub fn chain(&self, name: &Text) -> Result<Vec<Text>, NoMemory>
        ensures { IfOk result (λ names. names.items ≡ chain_of self.now.nodes name.now) }
    {
        let mut names = Vec::new(self.nodes.allocator());
        for member in self.ancestors(name) {
            names.push(member.clone()?)?;
        }
        Ok(names)
    }

    /// How far a namespace is from the end of its chain: 0 for a root, and for a name without a namespace.
    pub fn depth(&self, name: &Text) -> usize
        ensures { result ≡ depth_of self.now.nodes name.now }
    {
        self.chain_len(name).saturating_sub(1)
    }

    /// How many members the chain of a namespace has.
    pub(crate) fn chain_len(&self, name: &Text) -> usize
        ensures { result ≡ length (chain_of self.now.nodes name.now) }
    {
        self.nodes.chain_len(name)
    }

    /// Whether a namespace is in the chain of another, which begins with that one itself.
    pub fn in_chain(&self, name: &Text, above: &Text) -> bool
        ensures { result ≡ in_chain self.now.nodes name.now above.now }
    {
        self.nodes.in_chain(name, above)
    }
}

impl Nodes {
    /// The members of the chain of a namespace.
    fn ancestors<'a>(&'a self, name: &'a Text) -> Ancestors<'a>
        requires { AllLeadUp self.now }
        ensures { result ≡ chain_of (forest_of self.now) name.now }
    {
        let at = self.index_of(name);
        Ancestors {
            nodes: self,
            at,
            left: self.chain_len_at(name, at),
        }
    }

    /// How many members the chain of a namespace has.
    pub(crate) fn chain_len(&self, name: &Text) -> usize
        requires { AllLeadUp self.now }
        ensures { result ≡ length (chain_of (forest_of self.now) name.now) }
    {
        self.chain_len_at(name, self.index_of(name))
    }

    /// How many members the chain of a namespace has that lies at an index, where it is there.
    fn chain_len_at(&self, name: &Text, at: Option<usize>) -> usize
        requires parent_refs { AllLeadUp self.now }
        requires at { at ≡ index_at self.now (Some name.now) }
        ensures { result ≡ length (chain_of (forest_of self.now) name.now) }
    {
        match self.walk_len(at) {
            Some(len) => len,
            None => self.len_to_ring(name),
        }
    }

    /// How many members the chain of a namespace has that comes to a cycle: those before the cycle, and those in it.
    fn len_to_ring(&self, name: &Text) -> usize
        requires { AllLeadUp self.now }
        ensures { result ≡ length (chain_of (forest_of self.now) name.now) }
    {
        let mut member = name;
        let mut passed = 0;
        let mut left = self.len();
        while left > 0 {
            left -= 1;
            let Some(node) = self.node(member) else {
                return passed;
            };
            let Some(parent) = node.parent.as_ref() else {
                return passed + 1;
            };
            if let Some(steps) = self.steps_to(parent, member) {
                return passed + steps + 1;
            }
            passed += 1;
            member = parent;
        }
        passed
    }

    /// How many namespaces the walk up from an index passes until it ends. None where it goes in a cycle.
    fn walk_len(&self, first: Option<usize>) -> Option<usize>
        requires { AllLeadUp self.now }
        ensures { result ≡ nodes_end (length (forest_of self.now) + 1) (forest_of self.now) (node_in (place_in self.now first)) }
    {
        let mut at = first;
        let mut passed = 0;
        let mut left = self.len() + 1;
        while left > 0 {
            left -= 1;
            if !self.is_place(at) {
                return Some(passed);
            }
            passed += 1;
            at = self.above(at);
        }
        None
    }

    /// Whether a namespace is in the chain of another, which begins with that one itself.
    pub(crate) fn in_chain(&self, name: &Text, above: &Text) -> bool
        requires { AllLeadUp self.now }
        ensures { result ≡ in_chain (forest_of self.now) name.now above.now }
    {
        self.steps_to(name, above).is_some()
    }

    /// After how many steps the walk up comes to a namespace.
    pub(crate) fn steps_to(&self, name: &Text, above: &Text) -> Option<usize>
        requires { AllLeadUp self.now }
        ensures { result ≡ walk_to (length (forest_of self.now)) (forest_of self.now) (Some name.now) above.now }
    {
        let end = self.index_of(above)?;
        let count = self.len();
        let mut at = self.index_of(name);
        for steps in 0..count {
            let Some(here) = at else {
                return None;
            };
            if here == end {
                return Some(steps);
            }
            at = self.above(at);
        }
        None
    }
}
