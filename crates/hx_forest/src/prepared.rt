// Changes with what they need to be made without taking memory.
ghost use Rattle.std.specs.Prelude.{◌≡◌, ℕ, ◌+◌, ◌-◌, ◌<◌, ◌≤◌, true, false, List, None, Some, length, option_map, IfOk, IfSome, OnOk, option_copied, vec_capacity, vec_len};
ghost use Rattle.std.specs.List.{AllByRecursion};
ghost use Rattle.indexmap.specs.IndexMap.{spare};
ghost use Rattle.std.specs.Map.{keys_of};
ghost use Rattle.hx_model.specs.Forest.{is_there, with_parent};
ghost use Rattle.hx_model.specs.ForestChanges.{with_node, without_node};
ghost use Rattle.hx_forest.specs.Children.{lists_of, IsTied, IsIndex, Fits};
ghost use Rattle.hx_forest.specs.Kept.{changed_by, MayChange};
ghost use Rattle.hx_forest.specs.ParentRefs.{forest_of, index_at, parent_in, AllLeadUp};
ghost use Rattle.hx_forest.specs.Notes.{AreNoted};
ghost use Rattle.hx_forest.specs.Staged.{parted_by, joined_by, leaves_by, joins_by, place_of, changes_of, IsLeft, IsJoined, StartsEmpty, FitsUnder, IsLinked, IsPrepared};

use crate::change::Change;
use crate::children::{Children, Link};
use crate::nodes::Nodes;
use hx_model::Node;
use hx_object::{NoMemory, Text};
use std::alloc::Global;

/// A change, with the child that gets a parent by it.
#[derive(Drop)]
pub(crate) struct Prepared {
    pub(crate) change: Change,
    pub(crate) link: Option<Link>,
}

/// Puts the child that gets a parent with each change, and a list for it that has room for as many names as there are changes.
pub(crate) fn prepare(alloc: Global, changes: Vec<Change>) -> Result<Vec<Prepared>, NoMemory>
    ensures changes { IfOk result (λ p. changes_of p.items ≡ changes.items) }
    ensures links { IfOk result (λ p. AllByRecursion (IsLinked (length changes.items)) p.items) }
{
    let room = changes.len();
    let mut prepared = Vec::with_capacity(alloc, room)?;
    for change in changes {
        let link = link_of(alloc, &change, room)?;
        prepared.push(Prepared { change, link })?;
    }
    Ok(prepared)
}

/// The child that gets a parent by a change, if there is one.
fn link_of(alloc: Global, change: &Change, room: usize) -> Result<Option<Link>, NoMemory>
    ensures place { IfOk result (λ link. option_map place_of link ≡ joined_by change.now) }
    ensures list { IfOk result (StartsEmpty room) }
{
    match change {
        Change::Add { name, node } => link_to(alloc, node.parent.as_ref(), name, room),
        Change::SetParent { name, parent } => link_to(alloc, parent.as_ref(), name, room),
        Change::SetTerminating { name: _ } | Change::Remove { name: _ } => Ok(None),
    }
}

fn link_to(
    alloc: Global,
    parent: Option<&Text>,
    child: &Text,
    room: usize,
) -> Result<Option<Link>, NoMemory>
    ensures place { IfOk result (λ link. option_map place_of link ≡ option_map (λ p. (p, child.now)) (option_copied parent.entry)) }
    ensures list { IfOk result (StartsEmpty room) }
{
    match parent {
        Some(parent) => Ok(Some(Link::new(alloc, parent, child, room)?)),
        None => Ok(None),
    }
}

/// Makes room for the prepared changes: for nodes, for lists, and in each list that a child joins. Where no memory is left, what there is stays.
pub(crate) fn reserve(
    nodes: &mut Nodes,
    children: &mut Children,
    prepared: &[Prepared],
) -> Result<(), NoMemory>
    requires { IsTied nodes.old children.old }
    ensures nodes { forest_of nodes.new ≡ forest_of nodes.old }
    ensures parent_refs { AllLeadUp nodes.old → AllLeadUp nodes.new }
    ensures notes { AreNoted nodes.old → AreNoted nodes.new }
    ensures names { (q : List ℕ) → option_map (λ n. n.names) (lists_of nodes.new children.new q) ≡ option_map (λ n. n.names) (lists_of nodes.old children.old q) }
    ensures tied { IsTied nodes.new children.new }
    ensures node_room { OnOk result (length prepared.now ≤ nodes.new.places.spare) }
    ensures list_room { OnOk result (length prepared.now ≤ vec_capacity children.new.lists - vec_len children.new.lists) }
    ensures other_room { OnOk result (length prepared.now ≤ spare children.new.others) }
    ensures fits { OnOk result (AllByRecursion (λ p. FitsUnder (length prepared.now) (lists_of nodes.new children.new) p.link) prepared.now) }
{
    nodes.reserve(prepared.len())?;
    children.reserve(prepared.len())?;
    reserve_lists(nodes, children, prepared)
}

/// Makes room in each list that a child joins.
fn reserve_lists(
    nodes: &Nodes,
    children: &mut Children,
    prepared: &[Prepared],
) -> Result<(), NoMemory>
    requires { IsTied nodes.now children.old }
    ensures names { (q : List ℕ) → option_map (λ n. n.names) (lists_of nodes.now children.new q) ≡ option_map (λ n. n.names) (lists_of nodes.now children.old q) }
    ensures tied { IsTied nodes.now children.new }
    ensures room { vec_capacity children.old.lists - vec_len children.old.lists ≤ vec_capacity children.new.lists - vec_len children.new.lists }
    ensures other_room { spare children.old.others ≤ spare children.new.others }
    ensures fits { OnOk result (AllByRecursion (λ p. FitsUnder (length prepared.now) (lists_of nodes.now children.new) p.link) prepared.now) }
{
    let room = prepared.len();
    for one in prepared {
        reserve_for(nodes, children, &one.link, room)?;
    }
    Ok(())
}

/// Makes room for `room` names where a child goes.
fn reserve_for(
    nodes: &Nodes,
    children: &mut Children,
    link: &Option<Link>,
    room: usize,
) -> Result<(), NoMemory>
    requires { IsTied nodes.now children.old }
    ensures names { (q : List ℕ) → option_map (λ n. n.names) (lists_of nodes.now children.new q) ≡ option_map (λ n. n.names) (lists_of nodes.now children.old q) }
    ensures tied { IsTied nodes.now children.new }
    ensures room { vec_capacity children.old.lists - vec_len children.old.lists ≤ vec_capacity children.new.lists - vec_len children.new.lists }
    ensures other_room { spare children.old.others ≤ spare children.new.others }
    ensures fits { OnOk result (FitsUnder room (lists_of nodes.now children.new) link.now) }
    ensures others { (k : ℕ) (q : List ℕ) → Fits k (lists_of nodes.now children.old q) → Fits k (lists_of nodes.now children.new q) }
{
    match link {
        Some(link) => {
            let at = nodes.index_of(&link.parent);
            children.reserve_under(at, &link.parent, room)
        }
        None => Ok(()),
    }
}

/// Makes a change of nodes, and of the children that follow from them. It takes no memory.
pub(crate) fn make(nodes: &mut Nodes, children: &mut Children, prepared: Prepared)
    requires may { MayChange prepared.change (forest_of nodes.old) }
    requires parent_refs { AllLeadUp nodes.old }
    requires index { IsIndex nodes.old children.old (forest_of nodes.old) }
    requires ready { IsPrepared 1 (lists_of nodes.old children.old) prepared }
    requires node_room { 1 ≤ nodes.old.places.spare }
    requires list_room { 1 ≤ vec_capacity children.old.lists - vec_len children.old.lists }
    requires other_room { 1 ≤ spare children.old.others }
    ensures nodes { forest_of nodes.new ≡ changed_by prepared.change (forest_of nodes.old) }
    ensures parent_refs { AllLeadUp nodes.new }
    ensures notes { AreNoted nodes.old → AreNoted nodes.new }
    ensures index { IsIndex nodes.new children.new (forest_of nodes.new) }
    ensures node_room { nodes.old.places.spare ≤ nodes.new.places.spare + 1 }
    ensures list_room { vec_capacity children.old.lists - vec_len children.old.lists ≤ vec_capacity children.new.lists - vec_len children.new.lists + 1 }
    ensures other_room { spare children.old.others ≤ spare children.new.others + 1 }
    ensures fits { (k : ℕ) (q : List ℕ) → StartsEmpty (k + 1) prepared.link → Fits (k + 1) (lists_of nodes.old children.old q) → Fits k (lists_of nodes.new children.new q) }
{
    let Prepared { change, link } = prepared;
    let at = change_nodes(nodes, children, change);
    join(nodes, children, at, link);
}

/// Makes a change of nodes, but that no child joins its new parent. What names another parent lies at the index that comes back.
fn change_nodes(nodes: &mut Nodes, children: &mut Children, change: Change) -> Option<usize>
    requires may { MayChange change (forest_of nodes.old) }
    requires parent_refs { AllLeadUp nodes.old }
    requires index { IsIndex nodes.old children.old (forest_of nodes.old) }
    requires node_room { 1 ≤ nodes.old.places.spare }
    requires list_room { 1 ≤ vec_capacity children.old.lists - vec_len children.old.lists }
    requires other_room { 1 ≤ spare children.old.others }
    ensures nodes { forest_of nodes.new ≡ changed_by change (forest_of nodes.old) }
    ensures parent_refs { AllLeadUp nodes.new }
    ensures notes { AreNoted nodes.old → AreNoted nodes.new }
    ensures index { IsIndex nodes.new children.new (parted_by change (forest_of nodes.old)) }
    ensures at { IfSome (joined_by change) (λ place. parent_in nodes.new result ≡ Some place.0) }
    ensures node_room { nodes.old.places.spare ≤ nodes.new.places.spare + 1 }
    ensures list_room { vec_capacity children.old.lists - vec_len children.old.lists ≤ vec_capacity children.new.lists - vec_len children.new.lists + 1 }
    ensures other_room { spare children.old.others ≤ spare children.new.others + leaves_by change }
    ensures fits { (k : ℕ) (q : List ℕ) → Fits k (lists_of nodes.old children.old q) → Fits k (lists_of nodes.new children.new q) }
{
    match change {
        Change::Add { name, node } => Some(add(nodes, children, name, node)),
        Change::SetParent { name, parent } => set_parent(nodes, children, &name, parent),
        Change::SetTerminating { name } => {
            nodes.set_terminating(&name);
            None
        }
        Change::Remove { name } => {
            remove(nodes, children, name);
            None
        }
    }
}

/// Adds a node, and gives back where it lies. Who names it already is its child.
fn add(nodes: &mut Nodes, children: &mut Children, name: Text, node: Node) -> usize
    requires absent { is_there (forest_of nodes.old) name ≡ false }
    requires parent_refs { AllLeadUp nodes.old }
    requires index { IsIndex nodes.old children.old (forest_of nodes.old) }
    requires node_room { 1 ≤ nodes.old.places.spare }
    requires list_room { 1 ≤ vec_capacity children.old.lists - vec_len children.old.lists }
    ensures nodes { forest_of nodes.new ≡ with_node name node (forest_of nodes.old) }
    ensures parent_refs { AllLeadUp nodes.new }
    ensures notes { AreNoted nodes.old → AreNoted nodes.new }
    ensures index { IsIndex nodes.new children.new (forest_of nodes.old) }
    ensures at { parent_in nodes.new (Some result) ≡ node.parent }
    ensures node_room { nodes.old.places.spare ≤ nodes.new.places.spare + 1 }
    ensures list_room { vec_capacity children.old.lists - vec_len children.old.lists ≤ vec_capacity children.new.lists - vec_len children.new.lists + 1 }
    ensures other_room { spare children.old.others ≤ spare children.new.others }
    ensures fits { (k : ℕ) (q : List ℕ) → Fits k (lists_of nodes.old children.old q) → Fits k (lists_of nodes.new children.new q) }
{
    children.enter(&name);
    let at = nodes.add(name, node);
    find_parent_refs_to(nodes, children, at);
    at
}

/// Gives a node another parent, or none, and takes it away from the one that it had. Where it lies comes back.
fn set_parent(
    nodes: &mut Nodes,
    children: &mut Children,
    name: &Text,
    parent: Option<Text>,
) -> Option<usize>
    requires there { is_there (forest_of nodes.old) name.now ≡ true }
    requires parent_refs { AllLeadUp nodes.old }
    requires index { IsIndex nodes.old children.old (forest_of nodes.old) }
    ensures nodes { forest_of nodes.new ≡ with_parent name.now parent (forest_of nodes.old) }
    ensures parent_refs { AllLeadUp nodes.new }
    ensures notes { AreNoted nodes.old → AreNoted nodes.new }
    ensures index { IsIndex nodes.new children.new (with_parent name.now None (forest_of nodes.old)) }
    ensures at { parent_in nodes.new result ≡ parent }
    ensures node_room { nodes.old.places.spare ≤ nodes.new.places.spare }
    ensures list_room { vec_capacity children.old.lists - vec_len children.old.lists ≤ vec_capacity children.new.lists - vec_len children.new.lists }
    ensures other_room { spare children.old.others ≤ spare children.new.others }
    ensures fits { (k : ℕ) (q : List ℕ) → Fits k (lists_of nodes.old children.old q) → Fits k (lists_of nodes.new children.new q) }
{
    let at = nodes.index_of(name)?;
    let above = nodes.above(Some(at));
    let old = nodes.set_parent(at, parent);
    unlink(children, above, old.as_ref(), name);
    Some(at)
}

/// Takes a node out. Its children stay those of its name.
fn remove(nodes: &mut Nodes, children: &mut Children, name: Text)
    requires there { is_there (forest_of nodes.old) name ≡ true }
    requires parent_refs { AllLeadUp nodes.old }
    requires index { IsIndex nodes.old children.old (forest_of nodes.old) }
    requires room { 1 ≤ spare children.old.others }
    ensures nodes { forest_of nodes.new ≡ without_node name (forest_of nodes.old) }
    ensures parent_refs { AllLeadUp nodes.new }
    ensures notes { AreNoted nodes.old → AreNoted nodes.new }
    ensures index { IsIndex nodes.new children.new (without_node name (forest_of nodes.old)) }
    ensures node_room { nodes.old.places.spare ≤ nodes.new.places.spare }
    ensures list_room { vec_capacity children.old.lists - vec_len children.old.lists ≤ vec_capacity children.new.lists - vec_len children.new.lists }
    ensures other_room { spare children.old.others ≤ spare children.new.others + 1 }
    ensures fits { (k : ℕ) (q : List ℕ) → Fits k (lists_of nodes.old children.old q) → Fits k (lists_of nodes.new children.new q) }
{
    let Some(at) = nodes.index_of(&name) else {
        return;
    };
    let above = nodes.above(Some(at));
    let old = nodes.remove(at);
    unlink(children, above, old.as_ref(), &name);
    children.leave(at, name);
    find_parent_refs_to(nodes, children, at);
}

/// Looks up the ways to the node at an index anew. It takes no memory.
fn find_parent_refs_to(nodes: &mut Nodes, children: &Children, at: usize)
    ensures nodes { forest_of nodes.new ≡ forest_of nodes.old }
    ensures names { keys_of nodes.new.places.entries ≡ keys_of nodes.old.places.entries }
    ensures parent_refs { AllLeadUp nodes.old → AllLeadUp nodes.new }
    ensures notes { AreNoted nodes.old → AreNoted nodes.new }
    ensures room { nodes.old.places.spare ≤ nodes.new.places.spare }
{
    let Some(name) = nodes.name_in(Some(at)) else {
        return;
    };
    let names = children.of(Some(at), name);
    nodes.find_parent_refs(names);
}

/// Takes a child away from a parent that lies at an index, where it has one. It takes no memory.
fn unlink(children: &mut Children, at: Option<usize>, parent: Option<&Text>, child: &Text)
    requires { IfSome at (λ i. i < length children.old.lists.items) }
    ensures list { (nodes : Nodes) → at ≡ index_at nodes (option_copied parent.entry) → IsLeft (option_map (λ p. (p, child.now)) (option_copied parent.entry)) (lists_of nodes children.old) (lists_of nodes children.new) }
    ensures tied { (nodes : Nodes) → at ≡ index_at nodes (option_copied parent.entry) → IsTied nodes children.old → IsTied nodes children.new }
    ensures fits { (nodes : Nodes) → at ≡ index_at nodes (option_copied parent.entry) → (k : ℕ) (q : List ℕ) → Fits k (lists_of nodes children.old q) → Fits k (lists_of nodes children.new q) }
    ensures room { vec_capacity children.old.lists - vec_len children.old.lists ≤ vec_capacity children.new.lists - vec_len children.new.lists }
    ensures other_room { spare children.old.others ≤ spare children.new.others }
{
    if let Some(parent) = parent {
        children.unlink(at, parent, child);
    }
}

/// Keeps a child under the parent of the node at an index. It takes no memory.
fn join(nodes: &Nodes, children: &mut Children, at: Option<usize>, link: Option<Link>)
    requires parent_refs { AllLeadUp nodes.now }
    requires at { IfSome link (λ l. parent_in nodes.now at ≡ Some l.parent) }
    requires tied { IsTied nodes.now children.old }
    requires list { StartsEmpty 1 link }
    requires fits { FitsUnder 1 (lists_of nodes.now children.old) link }
    requires room { joins_by link ≤ spare children.old.others }
    ensures list { IsJoined (option_map place_of link) (lists_of nodes.now children.old) (lists_of nodes.now children.new) }
    ensures tied { IsTied nodes.now children.new }
    ensures fits { (k : ℕ) (q : List ℕ) → StartsEmpty (k + 1) link → Fits (k + 1) (lists_of nodes.now children.old q) → Fits k (lists_of nodes.now children.new q) }
    ensures list_room { vec_capacity children.old.lists - vec_len children.old.lists ≤ vec_capacity children.new.lists - vec_len children.new.lists }
    ensures other_room { spare children.old.others ≤ spare children.new.others + joins_by link }
{
    if let Some(link) = link {
        children.link(nodes.above(at), link);
    }
}
