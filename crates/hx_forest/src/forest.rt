// The forest.
ghost use Rattle.std.specs.Prelude.{◌≡◌, ◌==◌, ◌<◌, ◌^◌, [], is_ok, if◌then◌else◌, length, option_copied};
ghost use Rattle.hx_model.specs.Forest.{node_of, parent_of, children_of};
ghost use Rattle.hx_forest.specs.Names.{IsAscending};
ghost use Rattle.hx_forest.specs.Kept.{changed_by_all, MayChangeAll};

use crate::change::Change;
use crate::children::Children;
use crate::nodes::Nodes;
use crate::prepared::{Prepared, make, prepare, reserve};
use hx_model::Node;
use hx_object::{NoMemory, Text};
use std::alloc::Global;
use std::hash::RandomState;
use std::marker::Model;
use std::mem;

/// Namespaces and their parents.
///
/// It keeps a node for each namespace, and the children of each name in ascending order, also of one that isn't there. Changes are staged first, with all that they need, and made later without taking memory.
pub struct Forest {
    pub(crate) nodes: Nodes,
    children: Children,
    staged: Vec<Prepared>,
}

impl Drop for Forest {
    fn drop(self) {
        let Forest {
            nodes: _,
            children: _,
            staged: _,
        } = self;
    }
}

impl Model for Forest {
    ghost use Rattle.hx_forest.specs.Kept.{ForestView, view_code};
    ghost use Rattle.hx_forest.specs.ParentRefs.{forest_of};
    ghost use Rattle.hx_forest.specs.Staged.{changes_of};

    ghost Value = { ForestView };

    ghost coded = { view_code };

    ghost use Rattle.hx_forest.specs.Invariant.{IsKept};

    ghost view = { λ f. record { nodes = forest_of f.nodes; staged = changes_of f.staged.items } };

    ghost invariant = { IsKept };
}

impl Forest {
    /// A forest without namespaces, whose maps hash with these keys. It takes no memory.
    pub fn new(alloc: Global, keys: RandomState) -> Forest
        ensures nodes { result.nodes ≡ [] }
        ensures staged { result.staged ≡ [] }
    {
        Forest {
            nodes: Nodes::new(alloc, keys),
            children: Children::new(alloc, keys),
            staged: Vec::new(alloc),
        }
    }

    /// Stages changes, in the place of those that were staged: they get all that they need to be made. Where no memory is left, none is staged.
    ///
    /// In each list that a child joins there will be room for as many names as there are changes, so this is for the few changes of one write.
    pub fn stage(&mut self, changes: Vec<Change>) -> Result<(), NoMemory>
        requires { MayChangeAll changes.items self.old.nodes }
        ensures nodes { self.new.nodes ≡ self.old.nodes }
        ensures staged { self.new.staged ≡ (if is_ok result then changes.items else []) }
    {
        self.staged.clear();
        let staged = prepare(self.nodes.allocator(), changes)?;
        reserve(&mut self.nodes, &mut self.children, staged.as_slice())?;
        self.staged = staged;
        Ok(())
    }

    /// Drops the staged changes.
    pub fn discard(&mut self)
        ensures nodes { self.new.nodes ≡ self.old.nodes }
        ensures staged { self.new.staged ≡ [] }
    {
        self.staged.clear();
    }

    /// Makes the staged changes, the first one first. It takes no memory.
    pub fn apply(&mut self)
        ensures nodes { self.new.nodes ≡ changed_by_all self.old.staged self.old.nodes }
        ensures staged { self.new.staged ≡ [] }
    {
        let none = Vec::new(self.nodes.allocator());
        for prepared in mem::replace(&mut self.staged, none) {
            make(&mut self.nodes, &mut self.children, prepared);
        }
    }

    /// The names of the namespaces that name this one as their parent, in ascending order. The name itself may have no namespace.
    pub fn children(&self, name: &Text) -> &[Text]
        ensures names { result.now ≡ children_of self.now.nodes name.now }
        ensures order { IsAscending result.now }
    {
        self.children.of(self.nodes.index_of(name), name)
    }

    /// How many namespaces there are.
    pub fn len(&self) -> usize
        ensures len { result ≡ length self.now.nodes }
        ensures small { result < 2 ^ 63 }
    {
        self.nodes.len()
    }

    /// Whether there are no namespaces.
    pub fn is_empty(&self) -> bool
        ensures { result ≡ (length self.now.nodes == 0) }
    {
        self.len() == 0
    }

    /// The node of a namespace, where it is there.
    pub fn node(&self, name: &Text) -> Option<&Node>
        ensures { option_copied result ≡ node_of self.now.nodes name.now }
    {
        self.nodes.node(name)
    }

    /// What a namespace names as its parent.
    pub fn parent(&self, name: &Text) -> Option<&Text>
        ensures { option_copied result ≡ parent_of self.now.nodes name.now }
    {
        match self.node(name) {
            Some(node) => node.parent.as_ref(),
            None => None,
        }
    }

    /// Where a namespace lies. It may be a hint to what adds and takes away namespaces in the same order, and tells nothing else.
    pub fn place_of(&self, name: &Text) -> Option<usize> {
        self.nodes.index_of(name)
    }

    /// The same as [`node`](Forest::node). Where the hint is right, nothing is hashed.
    pub fn node_near(&self, hint: Option<usize>, name: &Text) -> Option<&Node>
        ensures { option_copied result ≡ node_of self.now.nodes name.now }
    {
        self.nodes.node_near(hint, name)
    }
}
