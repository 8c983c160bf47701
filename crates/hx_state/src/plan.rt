// What writes change beside the objects.
ghost use Rattle.std.specs.Prelude.{◌≡◌, ◌≤◌, ◌++◌, IfOk, OnOk, IfSome, option_copied};
ghost use Rattle.hx_model.specs.State.{object_at};
ghost use Rattle.hx_model.specs.Subnamespaces.{owned_node};
ghost use Rattle.hx_model.specs.Tree.{node_in, parent_in};
ghost use Rattle.hx_store.specs.Changes.{id_of, object_of};
ghost use Rattle.hx_object.specs.Sizes.{size_of, greatest_size};
ghost use Rattle.hx_state.specs.Counting.{Counts, IsPart, gone};
ghost use Rattle.hx_state.specs.Homes.{IsHomeOf, home_in_case, owner_in};
ghost use Rattle.hx_state.specs.Planning.{IsPlan, MayMakeAll, planting, moving, tree_change, owning, owner_change, listed};

use crate::home::Home;
use crate::indexed_state::IndexedState;
use crate::limits::LimitCounts;
use crate::lookups::object_in;
use crate::names::NameChange;
use hx_forest::Change as TreeChange;
use hx_model::{Node, is_terminating, parent_by, subnamespace_parent};
use hx_object::well_known::HIERARCHY;
use hx_object::{Id, Kind, NoMemory, Object, Text};
use hx_store::Change;

/// What writes change beside the objects.
#[derive(Drop)]
pub(crate) struct Plan {
    /// The numbers once the writes are made.
    pub(crate) counts: LimitCounts,
    /// The changes of the tree, in the order of the writes.
    pub(crate) tree: Vec<TreeChange>,
    /// Those of the owners.
    pub(crate) owners: Vec<TreeChange>,
}

impl IndexedState {
    /// Finds what writes change. Each write is looked at by itself, since none touches what another looks at.
    pub(crate) fn plan(&self, writes: &[Change]) -> Result<Plan, NoMemory>
        requires { MayMakeAll self.now.state writes.now }
        ensures plan { IfOk result (λ plan. IsPlan self.now.state writes.now plan.counts plan.tree.items plan.owners.items) }
    {
        let mut counts = self.counts;
        let mut tree = Vec::new(self.store.allocator());
        let mut owners = Vec::new(self.store.allocator());
        for write in writes {
            let old = self.object_before(write);
            let new = object_after(write);
            let name = self.name_change(write.id(), old, new)?;
            counts = counts_after(counts, old, new, name)?;
            self.push_changes(&mut tree, &mut owners, write, old)?;
        }
        Ok(Plan {
            counts,
            tree,
            owners,
        })
    }

    /// Adds what a write changes of the tree and of the owners.
    fn push_changes(
        &self,
        tree: &mut Vec<TreeChange>,
        owners: &mut Vec<TreeChange>,
        write: &Change,
        old: Option<&Object>,
    ) -> Result<(), NoMemory>
        requires { object_at self.now.state.objects (id_of write.now) ≡ option_copied old }
        ensures tree { OnOk result (tree.new.items ≡ tree.old.items ++ listed (tree_change self.now.state write.now)) }
        ensures owners { OnOk result (owners.new.items ≡ owners.old.items ++ listed (owner_change self.now.state write.now)) }
    {
        push_change(tree, self.tree_change(write, old)?)?;
        push_change(owners, self.owner_change(write, old)?)?;
        Ok(())
    }

    /// The object that is there, of the identity of a write.
    pub(crate) fn object_before(&self, write: &Change) -> Option<&Object>
        ensures { option_copied result ≡ object_at self.now.state.objects (id_of write.now) }
    {
        self.object(write.id())
    }

    /// What a write changes of the tree.
    fn tree_change(
        &self,
        write: &Change,
        old: Option<&Object>,
    ) -> Result<Option<TreeChange>, NoMemory>
        requires { object_at self.now.state.objects (id_of write.now) ≡ option_copied old }
        ensures { IfOk result (λ change. change ≡ tree_change self.now.state write.now) }
    {
        let id = write.id();
        let new = object_after(write);
        if id.kind.is_namespace() {
            return self.planting(old, new);
        }
        if id.kind.is_hierarchy() {
            return moving(id, new, self.home_of(id));
        }
        Ok(None)
    }

    /// What a write changes of the owners.
    fn owner_change(
        &self,
        write: &Change,
        old: Option<&Object>,
    ) -> Result<Option<TreeChange>, NoMemory>
        requires { object_at self.now.state.objects (id_of write.now) ≡ option_copied old }
        ensures { IfOk result (λ change. change ≡ owner_change self.now.state write.now) }
    {
        if !write.id().kind.is_namespace() {
            return Ok(None);
        }
        owning(old, object_after(write))
    }

    /// The change by a namespace.
    fn planting(
        &self,
        old: Option<&Object>,
        new: Option<&Object>,
    ) -> Result<Option<TreeChange>, NoMemory>
        ensures { IfOk result (λ change. change ≡ planting self.now.state (option_copied old.entry) (option_copied new.entry)) }
    {
        match (old, new) {
            (None, None) => Ok(None),
            (None, Some(new)) => Ok(Some(TreeChange::Add {
                name: new.id.name.clone()?,
                node: self.node_of(new)?,
            })),
            (Some(old), Some(new)) if is_terminating(new) && !is_terminating(old) => {
                Ok(Some(TreeChange::SetTerminating {
                    name: new.id.name.clone()?,
                }))
            }
            (Some(_), Some(_)) => Ok(None),
            (Some(old), None) => Ok(Some(TreeChange::Remove {
                name: old.id.name.clone()?,
            })),
        }
    }

    /// The node of a namespace.
    fn node_of(&self, namespace: &Object) -> Result<Node, NoMemory>
        ensures { IfOk result (λ node. node ≡ node_in self.now.state.config.excluded self.now.state.objects namespace.now) }
    {
        Ok(Node {
            parent: clone_of(self.parent_of(namespace))?,
            terminating: is_terminating(namespace),
            excluded: self.config.excludes(&namespace.id.name),
        })
    }

    /// The parent of a namespace, with the HierarchyConfiguration that it has.
    fn parent_of<'a>(&'a self, namespace: &'a Object) -> Option<&'a Text>
        ensures { option_copied result ≡ parent_in self.now.state.objects namespace.now }
    {
        let name = namespace.id.name.as_str();
        let hierarchy = self
            .store
            .find(Kind::HierarchyConfiguration, name, HIERARCHY);
        parent_by(namespace, object_in(hierarchy))
    }

    /// What the rules look at of the namespace of a HierarchyConfiguration. They look at no other object's.
    ///
    /// The owners tell it. They have a namespace where the tree has it, so that no name is hashed in both.
    pub fn home_of(&self, id: &Id) -> Option<Home<'_>>
        ensures { IsHomeOf self.now.state id.now (owner_in result) }
    {
        if !id.kind.is_hierarchy() {
            return None;
        }
        let hint = self.forest.place_of(&id.ns);
        match self.owners().node_near(hint, &id.ns) {
            Some(node) => Some(Home {
                owner: node.parent.as_ref(),
            }),
            None => None,
        }
    }
}

/// The object that a write stores.
fn object_after(write: &Change) -> Option<&Object>
    ensures { option_copied result ≡ object_of write.now }
{
    object_in(write.object())
}

/// The numbers once a write is made. Objects whose sizes together don't fit 64 bits fit no memory, either.
fn counts_after(
    counts: LimitCounts,
    old: Option<&Object>,
    new: Option<&Object>,
    name: NameChange,
) -> Result<LimitCounts, NoMemory>
    requires small { IfSome (option_copied old) (λ x. size_of x ≤ greatest_size) × IfSome (option_copied new) (λ x. size_of x ≤ greatest_size) }
    requires counted { IsPart (option_copied old) counts }
    requires named { gone name ≤ counts.names }
    ensures { IfOk result (Counts (option_copied old.entry) (option_copied new.entry) name counts) }
{
    counts.after(old, new, name).ok_or(NoMemory)
}

/// The change by a HierarchyConfiguration, where its namespace is there.
fn moving(id: &Id, new: Option<&Object>, home: Option<Home>) -> Result<Option<TreeChange>, NoMemory>
    ensures { IfOk result (λ change. change ≡ moving id.now (option_copied new.entry) (home_in_case home.entry)) }
{
    if id.name.as_str() != HIERARCHY {
        return Ok(None);
    }
    match home {
        Some(home) => Ok(Some(TreeChange::SetParent {
            name: id.ns.clone()?,
            parent: clone_of(home.parent_with(new))?,
        })),
        None => Ok(None),
    }
}

/// The change of the owners by a namespace. One that is there keeps its annotation.
fn owning(old: Option<&Object>, new: Option<&Object>) -> Result<Option<TreeChange>, NoMemory>
    ensures { IfOk result (λ change. change ≡ owning (option_copied old.entry) (option_copied new.entry)) }
{
    match (old, new) {
        (None, Some(new)) => Ok(Some(TreeChange::Add {
            name: new.id.name.clone()?,
            node: owned_node(new)?,
        })),
        (Some(old), None) => Ok(Some(TreeChange::Remove {
            name: old.id.name.clone()?,
        })),
        _ => Ok(None),
    }
}

/// A namespace under the parent that its annotation names.
fn owned_node(namespace: &Object) -> Result<Node, NoMemory>
    ensures { IfOk result (λ node. node ≡ owned_node namespace.now) }
{
    Ok(Node {
        parent: clone_of(subnamespace_parent(namespace))?,
        terminating: false,
        excluded: false,
    })
}

/// Adds a change, where there is one.
fn push_change(changes: &mut Vec<TreeChange>, change: Option<TreeChange>) -> Result<(), NoMemory>
    ensures { OnOk result (changes.new.items ≡ changes.old.items ++ listed change) }
{
    if let Some(change) = change {
        changes.push(change)?;
    }
    Ok(())
}

fn clone_of(name: Option<&Text>) -> Result<Option<Text>, NoMemory>
    ensures { IfOk result (λ copy. copy ≡ option_copied name.entry) }
{
    match name {
        Some(name) => Ok(Some(name.clone()?)),
        None => Ok(None),
    }
}
