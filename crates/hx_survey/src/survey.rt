// The survey of a list of objects.
ghost use Rattle.std.specs.Prelude.{◌≡◌, true, None, Some, filter, IfOk, option_copied};
ghost use Rattle.hx_model.specs.Cases.{is_leaving};
ghost use Rattle.hx_model.specs.Forest.{chain_of, children_of, comes_back, halt_of, in_chain, is_live, subtree_of};
ghost use Rattle.hx_model.specs.Moves.{is_eligible};
ghost use Rattle.hx_model.specs.State.{ascends, is_listed, least_in, object_at};
ghost use Rattle.hx_model.specs.TreeLabels.{is_open};
ghost use Rattle.hx_model.specs.Reports.{conditions_in};
ghost use Rattle.hx_survey.specs.Surveyed.{tree_of, namespaces_lie_alone, used_in};

use crate::conditions::conditions_of;
use crate::reading::nodes_of;
use crate::search::{Sought, find, least_in, listed_in, run_of};
use crate::totals::{Totals, no_totals, noted, totals_of};
use crate::tree::Tree;
use crate::usage::used_below;
use hx_model::{Halt, Node, Resource};
use hx_object::{Condition, Kind, NoMemory, Shared, Text};
use std::alloc::Global;
use std::marker::Model;

/// What a list of stored objects says of its tree.
///
/// Everything is found in the list itself: objects by binary searches in it, and the tree by walks up parents, whose places are noted once.
pub struct Survey<'a> {
    objects: &'a [Shared],
    /// The names that are excluded from trees. Only contracts speak of them.
    excluded: &'a [Text],
    tree: Tree,
    /// What subtrees are charged, where that is noted.
    totals: Totals,
}

impl<'a> Drop for Survey<'a> {
    fn drop(self) {
        let Survey {
            objects: _,
            excluded: _,
            tree: _,
            totals: _,
        } = self;
    }
}

impl<'a> Model for Survey<'a> {
    ghost use Rattle.hx_survey.specs.Surveyed.{Surveyed, surveyed_code};

    ghost Value = { Surveyed };

    ghost coded = { surveyed_code };

    ghost use Rattle.hx_survey.specs.Sums.{IsSurvey};

    ghost view = { λ s. record { objects = s.objects.now; excluded = s.excluded.now } };

    ghost invariant = { λ s. IsSurvey s.objects.now s.excluded.now s.tree s.totals };
}

impl<'a> Survey<'a> {
    /// The survey of objects in order of their identities, where these names are excluded from trees.
    pub fn new(
        alloc: Global,
        objects: &'a [Shared],
        excluded: &'a [Text],
    ) -> Result<Survey<'a>, NoMemory>
        requires order { ascends objects.now ≡ true }
        requires homes { namespaces_lie_alone objects.now ≡ true }
        ensures { IfOk result (λ survey. survey ≡ record { objects = objects.now; excluded = excluded.now }) }
    {
        let nodes = nodes_of(alloc, objects, excluded)?;
        let tree = Tree::new(alloc, nodes)?;
        Ok(Survey {
            objects,
            excluded,
            tree,
            totals: no_totals(alloc),
        })
    }

    /// The same survey, which has noted what subtrees are charged for the resources that quotas limit: [`used`](Self::used) looks it up then, where a survey that is [`new`](Self::new) sums it each time.
    pub fn with_sums(
        alloc: Global,
        objects: &'a [Shared],
        excluded: &'a [Text],
    ) -> Result<Survey<'a>, NoMemory>
        requires order { ascends objects.now ≡ true }
        requires homes { namespaces_lie_alone objects.now ≡ true }
        ensures { IfOk result (λ survey. survey ≡ record { objects = objects.now; excluded = excluded.now }) }
    {
        let nodes = nodes_of(alloc, objects, excluded)?;
        let tree = Tree::new(alloc, nodes)?;
        let totals = totals_of(&tree, objects)?;
        Ok(Survey {
            objects,
            excluded,
            tree,
            totals,
        })
    }

    /// What the survey takes its memory from.
    pub fn allocator(&self) -> Global {
        self.tree.allocator()
    }

    /// All objects.
    pub fn objects(&self) -> &'a [Shared]
        ensures { result.now ≡ self.now.objects }
    {
        self.objects
    }

    /// The nodes of all namespaces.
    pub fn nodes(&self) -> &[(Text, Node)]
        ensures { result.now ≡ tree_of self.now }
    {
        self.tree.nodes()
    }

    /// The object of a kind, a namespace and a name. The namespace is empty for the kinds that lie in none.
    pub fn find(&self, kind: Kind, ns: &str, name: &str) -> Option<&'a Shared>
        ensures { option_copied result ≡ object_at self.now.objects (record { kind = kind; ns = ns.now; name = name.now }) }
    {
        find(self.objects, kind, ns, name)
    }

    /// The objects of a kind.
    pub fn of_kind(&self, kind: Kind) -> &'a [Shared]
        ensures { result.now ≡ filter (is_listed kind None) self.now.objects }
    {
        run_of(self.objects, Sought::OfKind(kind))
    }

    /// The objects of a kind in a namespace.
    pub fn in_namespace(&self, kind: Kind, ns: &Text) -> &'a [Shared]
        ensures { result.now ≡ filter (is_listed kind (Some ns.now)) self.now.objects }
    {
        listed_in(self.objects, kind, ns)
    }

    /// Whether a namespace is there and not on its way out.
    pub fn is_live(&self, name: &Text) -> bool
        ensures { result ≡ is_live (tree_of self.now) name.now }
    {
        self.tree.is_live(name)
    }

    /// Whether a namespace is there and on its way out.
    pub fn is_leaving(&self, name: &Text) -> bool
        ensures { result ≡ is_leaving (tree_of self.now) name.now }
    {
        self.tree.is_leaving(name)
    }

    /// Whether a namespace is there and not on its way out, and isn't excluded.
    pub fn is_eligible(&self, name: &Text) -> bool
        ensures { result ≡ is_eligible (tree_of self.now) name.now }
    {
        self.tree.is_eligible(name)
    }

    /// Whether a namespace takes part: it is there and not on its way out, and neither excluded nor halted.
    pub fn is_open(&self, name: &Text) -> bool
        ensures { result ≡ is_open (tree_of self.now) name.now }
    {
        self.tree.is_open(name)
    }

    /// A namespace, its parent, the parent's parent and so on: up to a name that isn't there, or one that the chain has.
    pub fn chain(&self, name: &Text) -> Result<Vec<Text>, NoMemory>
        ensures { IfOk result (λ chain. chain.items ≡ chain_of (tree_of self.now) name.now) }
    {
        self.tree.chain(name)
    }

    /// Whether a namespace is in the chain of another, which begins with that one itself.
    pub fn in_chain(&self, name: &Text, ancestor: &Text) -> bool
        ensures { result ≡ in_chain (tree_of self.now) name.now ancestor.now }
    {
        self.tree.in_chain(name, ancestor)
    }

    /// Whether the walk up from a namespace comes back to it.
    pub fn is_in_cycle(&self, name: &Text) -> bool
        ensures { result ≡ comes_back (tree_of self.now) name.now }
    {
        self.tree.is_in_cycle(name)
    }

    /// Why a namespace is halted: the first reason that holds.
    pub fn halt(&self, name: &Text) -> Option<Halt>
        ensures { result ≡ halt_of (tree_of self.now) name.now }
    {
        self.tree.halt(name)
    }

    /// The namespaces that name this one as their parent, whether it is there or not.
    pub fn children(&self, name: &Text) -> Result<Vec<Text>, NoMemory>
        ensures { IfOk result (λ children. children.items ≡ children_of (tree_of self.now) name.now) }
    {
        self.tree.children(name)
    }

    /// The namespaces whose chain has a name.
    pub fn subtree(&self, ancestor: &Text) -> Result<Vec<Text>, NoMemory>
        ensures { IfOk result (λ names. names.items ≡ subtree_of (tree_of self.now) ancestor.now) }
    {
        self.tree.subtree(ancestor)
    }

    /// The first of the objects that lie in a namespace.
    pub fn least_in(&self, ns: &Text) -> Option<&'a Shared>
        ensures { option_copied result ≡ least_in self.now.objects ns.now }
    {
        least_in(self.objects, ns)
    }

    /// What a HierarchyConfiguration is to tell of its namespace beside the children: why it is halted, and that it misses its anchor.
    pub fn conditions(&self, name: &Text) -> Result<Vec<Condition>, NoMemory>
        ensures { IfOk result (λ told. told.items ≡ conditions_in self.now.objects (tree_of self.now) name.now) }
    {
        conditions_of(self, name)
    }

    /// What all objects of the subtree of a namespace are charged for a resource, in thousandths. A sum that passes 2^128 counts as want of memory.
    pub fn used(&self, ns: &Text, resource: Resource) -> Result<u128, NoMemory>
        ensures { IfOk result (λ sum. sum ≡ used_in self.now ns.now resource) }
    {
        match noted(&self.tree, self.objects, &self.totals, ns, resource) {
            Some(sum) => Ok(sum),
            None => used_below(&self.tree, self.objects, ns, resource),
        }
    }
}
