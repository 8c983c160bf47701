//! Plain slow programs that compute the definitions of chains, depths, subtrees and halts.
//!
//! A forest is a slice of names with nodes. They have no cleverness, and are there to be compared with.
ghost use Rattle.std.specs.Prelude.{◌≡◌, IfOk, option_copied, is_some};
ghost use Rattle.std.specs.List.{list_any};
ghost use Rattle.hx_model.specs.Forest.{is_in, node_of, is_live, is_excluded, parent_of, goes_on, chain_of, in_chain, depth_of, subtree_of, own_halt_of, has_halted_ancestor, halt_of};

use crate::node::{Halt, Node};
use hx_object::{NoMemory, Text};
use std::alloc::Global;

/// The node of a namespace, where it is there.
pub fn node_of<'a>(nodes: &'a [(Text, Node)], name: &Text) -> Option<&'a Node>
    ensures { option_copied result ≡ node_of nodes.now name.now }
{
    for entry in nodes {
        if *name == entry.0 {
            return Some(&entry.1);
        }
    }
    None
}

/// What a namespace names as its parent.
pub fn parent_of<'a>(nodes: &'a [(Text, Node)], name: &Text) -> Option<&'a Text>
    ensures { option_copied result ≡ parent_of nodes.now name.now }
{
    match node_of(nodes, name) {
        Some(node) => node.parent.as_ref(),
        None => None,
    }
}

/// Whether the name is among them.
pub(crate) fn is_in(name: &Text, names: &[Text]) -> bool
    ensures { result ≡ is_in name.now names.now }
{
    for other in names {
        if name == other {
            return true;
        }
    }
    false
}

fn goes_on(nodes: &[(Text, Node)], built: &[Text], name: &Text) -> bool
    ensures { result ≡ goes_on nodes.now built.now name.now }
{
    let is_there = node_of(nodes, name).is_some();
    let is_old = is_in(name, built);
    is_there && !is_old
}

/// A namespace, its parent, the parent's parent and so on.
pub fn chain_of(alloc: Global, nodes: &[(Text, Node)], name: &Text) -> Result<Vec<Text>, NoMemory>
    ensures { IfOk result (λ names. names.items ≡ chain_of nodes.now name.now) }
{
    let mut built: Vec<Text> = Vec::new(alloc);
    let mut next = Some(name);
    let mut left = nodes.len();
    while left > 0 {
        left -= 1;
        let Some(one) = next else {
            return Ok(built);
        };
        if !goes_on(nodes, &built, one) {
            return Ok(built);
        }
        built.push(one.clone()?)?;
        next = parent_of(nodes, one);
    }
    Ok(built)
}

/// Whether a name is in the chain of a namespace.
pub fn in_chain(
    alloc: Global,
    nodes: &[(Text, Node)],
    name: &Text,
    ancestor: &Text,
) -> Result<bool, NoMemory>
    ensures { IfOk result (λ is. is ≡ in_chain nodes.now name.now ancestor.now) }
{
    let chain = chain_of(alloc, nodes, name)?;
    Ok(is_in(ancestor, &chain))
}

/// How far a namespace is from the end of its chain.
pub fn depth_of(alloc: Global, nodes: &[(Text, Node)], name: &Text) -> Result<usize, NoMemory>
    ensures { IfOk result (λ depth. depth ≡ depth_of nodes.now name.now) }
{
    let chain = chain_of(alloc, nodes, name)?;
    Ok(chain.len().saturating_sub(1))
}

/// The namespaces whose chain has a name.
pub fn subtree_of(
    alloc: Global,
    nodes: &[(Text, Node)],
    ancestor: &Text,
) -> Result<Vec<Text>, NoMemory>
    ensures { IfOk result (λ names. names.items ≡ subtree_of nodes.now ancestor.now) }
{
    let mut names: Vec<Text> = Vec::new(alloc);
    for entry in nodes {
        if in_chain(alloc, nodes, &entry.0, ancestor)? {
            names.push(entry.0.clone()?)?;
        }
    }
    Ok(names)
}

fn is_live(nodes: &[(Text, Node)], name: &Text) -> bool
    ensures { result ≡ is_live nodes.now name.now }
{
    match node_of(nodes, name) {
        Some(node) => !node.terminating,
        None => false,
    }
}

fn is_excluded(nodes: &[(Text, Node)], name: &Text) -> bool
    ensures { result ≡ is_excluded nodes.now name.now }
{
    match node_of(nodes, name) {
        Some(node) => node.excluded,
        None => false,
    }
}

/// Why a namespace is halted by itself.
pub fn own_halt_of(
    alloc: Global,
    nodes: &[(Text, Node)],
    name: &Text,
) -> Result<Option<Halt>, NoMemory>
    ensures { IfOk result (λ halt. halt ≡ own_halt_of nodes.now name.now) }
{
    let Some(parent) = parent_of(nodes, name) else {
        return Ok(None);
    };
    if in_chain(alloc, nodes, parent, name)? {
        return Ok(Some(Halt::InCycle));
    }
    if !is_live(nodes, parent) {
        return Ok(Some(Halt::ParentMissing));
    }
    if is_excluded(nodes, parent) {
        return Ok(Some(Halt::IllegalParent));
    }
    Ok(None)
}

fn has_halted(alloc: Global, nodes: &[(Text, Node)], names: &[Text]) -> Result<bool, NoMemory>
    ensures { IfOk result (λ has. has ≡ list_any (λ a. is_some (own_halt_of nodes.now a)) names.now) }
{
    for name in names {
        if own_halt_of(alloc, nodes, name)?.is_some() {
            return Ok(true);
        }
    }
    Ok(false)
}

fn has_halted_ancestor(alloc: Global, nodes: &[(Text, Node)], name: &Text) -> Result<bool, NoMemory>
    ensures { IfOk result (λ has. has ≡ has_halted_ancestor nodes.now name.now) }
{
    let chain = chain_of(alloc, nodes, name)?;
    match chain.as_slice().split_first() {
        Some((_, later)) => has_halted(alloc, nodes, later),
        None => Ok(false),
    }
}

/// Why a namespace is halted: the first reason that holds.
pub fn halt_of(alloc: Global, nodes: &[(Text, Node)], name: &Text) -> Result<Option<Halt>, NoMemory>
    ensures { IfOk result (λ halt. halt ≡ halt_of nodes.now name.now) }
{
    if let Some(halt) = own_halt_of(alloc, nodes, name)? {
        return Ok(Some(halt));
    }
    if has_halted_ancestor(alloc, nodes, name)? {
        return Ok(Some(Halt::Ancestor));
    }
    Ok(None)
}
