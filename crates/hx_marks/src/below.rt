// Which namespaces take part, and what lies below them.
ghost use Rattle.std.specs.Prelude.{◌≡◌, ◌++◌, true, IfOk, OnOk, filter, flat_map, option_copied};
ghost use Rattle.std.specs.List.{IsDistinct};
ghost use Rattle.std.specs.Str.{bytes_eq};
ghost use Rattle.hx_model.specs.Forest.{subtree_of};
ghost use Rattle.hx_model.specs.Moves.{is_open_above};
ghost use Rattle.hx_model.specs.State.{State};
ghost use Rattle.hx_model.specs.Tree.{forest_of};
ghost use Rattle.hx_model.specs.TreeLabels.{is_open};
ghost use Rattle.hx_model.specs.Valid.{IsValid};
ghost use Rattle.hx_marks.specs.Law.{live_below, open_below};

use crate::live::Live;
use hx_forest::{Forest, push_names};
use hx_model::is_same_name;
use hx_object::{NoMemory, Text};
use std::alloc::Global;

/// The namespaces of a subtree that take part. Below one that doesn't, none does.
pub fn open_below(alloc: Global, forest: &Forest, name: &Text) -> Result<Vec<Text>, NoMemory>
    ensures named { IfOk result (λ names. names.items ≡ open_below forest.now.nodes name.now) }

    // The tree of a valid state has each name once.
    ensures distinct { IfOk result (λ names. (s : State) → IsValid s → forest.now.nodes ≡ forest_of s → IsDistinct bytes_eq names.items) }
{
    let mut names = Vec::new(alloc);
    if !forest.is_open(name) {
        return Ok(names);
    }
    let below = forest.below(name)?;
    if !forest.may_be_restless() {
        return Ok(below);
    }
    push_open(&mut names, forest, &below)?;
    Ok(names)
}

/// Adds those of some namespaces that take part.
fn push_open(list: &mut Vec<Text>, forest: &Forest, members: &[Text]) -> Result<(), NoMemory>
    ensures { OnOk result (list.new.items ≡ list.old.items ++ filter (is_open forest.now.nodes) members.now) }
{
    let mut above = None;
    let mut last = None;
    for member in members {
        if !is_open_beside(forest, above, last, member) {
            continue;
        }
        list.push(member.clone()?)?;
        above = forest.parent(member);
        last = Some(member);
    }
    Ok(())
}

/// Whether a namespace takes part. Where its parent is one of two that do, nothing more is looked at above.
fn is_open_beside(forest: &Forest, above: Option<&Text>, last: Option<&Text>, member: &Text) -> bool
    requires above { is_open_above forest.now.nodes (option_copied above) ≡ true }
    requires last { is_open_above forest.now.nodes (option_copied last) ≡ true }
    ensures { result ≡ is_open forest.now.nodes member.now }
{
    let parent = forest.parent(member);
    if is_same_name(parent, above) {
        return forest.is_eligible(member);
    }
    if is_same_name(parent, last) {
        return forest.is_eligible(member);
    }
    forest.is_open(member)
}

/// The namespaces of a subtree that take part whenever its top does.
pub(crate) fn live_below(forest: &Forest, name: &Text) -> Result<Vec<Text>, NoMemory>
    ensures { IfOk result (λ names. names.items ≡ live_below forest.now.nodes name.now) }
{
    let below = forest.below(name)?;
    if !forest.may_be_restless() {
        return Ok(below);
    }
    let alloc = *below.allocator();
    let order = walk_down(alloc, forest, name)?;
    let live = Live::below(alloc, forest, name, &order)?;
    let mut names = Vec::new(alloc);
    live.push_live(&mut names, forest, name, &below)?;
    Ok(names)
}

/// The namespaces below one in an order to go over them, each behind its parent. Nothing but time rests on it: what it leaves out is found by its whole chain.
pub(crate) fn walk_down(
    alloc: Global,
    forest: &Forest,
    name: &Text,
) -> Result<Vec<Text>, NoMemory> {
    let mut names = Vec::new(alloc);
    names.push(name.clone()?)?;
    for at in 0..forest.len() {
        if at >= names.len() {
            return Ok(names);
        }
        let children = forest.children(&names[at]);
        push_others(&mut names, children, name)?;
    }
    Ok(names)
}

/// Adds the children, but for one that the way down has come from.
fn push_others(names: &mut Vec<Text>, children: &[Text], top: &Text) -> Result<(), NoMemory> {
    for child in children {
        if child.as_str() != top.as_str() {
            names.push(child.clone()?)?;
        }
    }
    Ok(())
}

/// Adds what lies below some namespaces, themselves among it.
pub(crate) fn push_below(
    list: &mut Vec<Text>,
    forest: &Forest,
    names: &[Text],
) -> Result<(), NoMemory>
    ensures { OnOk result (list.new.items ≡ list.old.items ++ flat_map (subtree_of forest.now.nodes) names.now) }
{
    for name in names {
        let below = forest.below(name)?;
        push_names(list, &below)?;
    }
    Ok(())
}
