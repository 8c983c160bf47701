// The tree of a list of objects: its nodes, where the parent of each lies, and the reasons of halting that they have by themselves.
ghost use Rattle.std.specs.Prelude.{◌≡◌, IfOk, option_copied};
ghost use Rattle.hx_model.specs.Cases.{is_leaving};
ghost use Rattle.hx_model.specs.Forest.{node_of, is_live, is_excluded, in_chain, comes_back, halt_of, chain_of, children_of, subtree_of};
ghost use Rattle.hx_model.specs.Moves.{is_eligible};
ghost use Rattle.hx_model.specs.TreeLabels.{is_open};
ghost use Rattle.hx_survey.specs.Inside.{Ascends, place_of, ups_of};

use crate::ancestry::{comes_back, halt_of, in_chain};
use crate::building::{halts_of, ups_of};
use crate::chains::{chain_of, children_of, subtree_of};
use crate::places::{node_of, place_of};
use hx_model::{Halt, Node};
use hx_object::{NoMemory, Text};
use std::alloc::Global;
use std::marker::Model;

/// The tree of namespaces. Contracts see the nodes by their names.
///
/// Names ascend, and parents are known by their indices, so that a name is found in logarithmic time and a step up takes constant time.
pub(crate) struct Tree {
    nodes: Vec<(Text, Node)>,
    /// Where the parent of each lies.
    ups: Vec<Option<usize>>,
    /// The reason of halting that each has by itself.
    halts: Vec<Option<Halt>>,
    alloc: Global,
}

impl Drop for Tree {
    fn drop(self) {
        let Tree {
            nodes: _,
            ups: _,
            halts: _,
            alloc: _,
        } = self;
    }
}

impl Model for Tree {
    ghost use Rattle.std.specs.Prelude.{List, ℕ};
    ghost use Rattle.hx_model.specs.declared.node.Node.{Node as NodeOf};
    ghost use Rattle.hx_survey.specs.Inside.{IsTree};

    ghost Value = { List (List ℕ × NodeOf) };

    ghost view = { λ t. t.nodes.items };

    ghost invariant = { λ t. IsTree t.nodes.items t.ups.items t.halts.items };
}

impl Tree {
    /// The tree of nodes whose names ascend.
    pub(crate) fn new(alloc: Global, nodes: Vec<(Text, Node)>) -> Result<Tree, NoMemory>
        requires { Ascends nodes.items }
        ensures { IfOk result (λ tree. tree ≡ nodes.items) }
    {
        let ups = ups_of(alloc, &nodes)?;
        let halts = halts_of(alloc, &nodes, &ups)?;
        Ok(Tree {
            nodes,
            ups,
            halts,
            alloc,
        })
    }

    /// What the tree takes its memory from.
    pub(crate) fn allocator(&self) -> Global {
        self.alloc
    }

    pub(crate) fn nodes(&self) -> &[(Text, Node)]
        ensures nodes { result.now ≡ self.now }
        ensures order { Ascends self.now }
    {
        self.nodes.as_slice()
    }

    /// Where the parent of each namespace lies.
    pub(crate) fn ups(&self) -> &[Option<usize>]
        ensures { result.now ≡ ups_of self.now }
    {
        self.ups.as_slice()
    }

    /// Where a namespace lies.
    pub(crate) fn place(&self, name: &Text) -> Option<usize>
        ensures { result ≡ place_of self.now name.now }
    {
        place_of(&self.nodes, name)
    }

    /// The node of a namespace, where it is there.
    pub(crate) fn node(&self, name: &Text) -> Option<&Node>
        ensures { option_copied result ≡ node_of self.now name.now }
    {
        node_of(&self.nodes, name)
    }

    /// Whether a namespace is there and not on its way out.
    pub(crate) fn is_live(&self, name: &Text) -> bool
        ensures { result ≡ is_live self.now name.now }
    {
        match self.node(name) {
            Some(node) => !node.terminating,
            None => false,
        }
    }

    /// Whether a namespace is there and on its way out.
    pub(crate) fn is_leaving(&self, name: &Text) -> bool
        ensures { result ≡ is_leaving self.now name.now }
    {
        match self.node(name) {
            Some(node) => node.terminating,
            None => false,
        }
    }

    /// Whether a namespace is there and excluded.
    pub(crate) fn is_excluded(&self, name: &Text) -> bool
        ensures { result ≡ is_excluded self.now name.now }
    {
        match self.node(name) {
            Some(node) => node.excluded,
            None => false,
        }
    }

    /// Whether a namespace is there and not on its way out, and isn't excluded.
    pub(crate) fn is_eligible(&self, name: &Text) -> bool
        ensures { result ≡ is_eligible self.now name.now }
    {
        self.is_live(name) && !self.is_excluded(name)
    }

    /// Whether a namespace takes part: it is there and not on its way out, and neither excluded nor halted.
    pub(crate) fn is_open(&self, name: &Text) -> bool
        ensures { result ≡ is_open self.now name.now }
    {
        self.is_live(name) && (!self.is_excluded(name) && self.halt(name).is_none())
    }

    /// Whether a namespace is in the chain of another, which begins with that one itself.
    pub(crate) fn in_chain(&self, name: &Text, above: &Text) -> bool
        ensures { result ≡ in_chain self.now name.now above.now }
    {
        in_chain(&self.nodes, &self.ups, name, above)
    }

    /// Whether the walk up from a namespace comes back to it.
    pub(crate) fn is_in_cycle(&self, name: &Text) -> bool
        ensures { result ≡ comes_back self.now name.now }
    {
        comes_back(&self.nodes, &self.ups, name)
    }

    /// Why a namespace is halted: the first reason that holds.
    pub(crate) fn halt(&self, name: &Text) -> Option<Halt>
        ensures { result ≡ halt_of self.now name.now }
    {
        halt_of(&self.nodes, &self.ups, &self.halts, name)
    }

    /// A namespace, its parent, the parent's parent and so on: up to a name that isn't there, or one that the chain has.
    pub(crate) fn chain(&self, name: &Text) -> Result<Vec<Text>, NoMemory>
        ensures { IfOk result (λ chain. chain.items ≡ chain_of self.now name.now) }
    {
        chain_of(self.alloc, &self.nodes, &self.ups, name)
    }

    /// The namespaces that name this one as their parent, whether it is there or not.
    pub(crate) fn children(&self, name: &Text) -> Result<Vec<Text>, NoMemory>
        ensures { IfOk result (λ children. children.items ≡ children_of self.now name.now) }
    {
        children_of(self.alloc, &self.nodes, name)
    }

    /// The namespaces whose chain has a name.
    pub(crate) fn subtree(&self, ancestor: &Text) -> Result<Vec<Text>, NoMemory>
        ensures names { IfOk result (λ names. names.items ≡ subtree_of self.now ancestor.now) }
        ensures order { Ascends self.now }
    {
        subtree_of(self.alloc, &self.nodes, &self.ups, ancestor)
    }
}
