// What a change of the tree changes of the counters.
ghost use Rattle.std.specs.Prelude.{◌≡◌, [], ◌∷◌, ◌++◌, IfOk, OnOk, Some, option_copied, option_and_then};
ghost use Rattle.std.specs.List.{IsDistinct};
ghost use Rattle.std.specs.Str.{bytes_eq};
ghost use Rattle.hx_model.specs.Forest.{children_of};
ghost use Rattle.hx_quota.specs.Counting.{changes_of_tree, under_parent, taken_in, let_go, moved_under, if_there};
ghost use Rattle.hx_quota.specs.SubtreeUsage.{AreOnce};
ghost use Rattle.hx_quota.specs.declared.change.CounterChange.TheVariants as of;

use crate::change::CounterChange;
use hx_forest::{Change as TreeChange, Forest};
use hx_object::{NoMemory, Text};
use std::alloc::Global;

/// The changes of the counters by a change of the tree.
pub(crate) fn changes_of_tree(
    alloc: Global,
    forest: &Forest,
    change: &TreeChange,
) -> Result<Vec<CounterChange>, NoMemory>
    ensures changes { IfOk result (λ changes. changes.items ≡ changes_of_tree forest.now.nodes change.now) }
    ensures once { OnOk result (AreOnce forest.now.nodes change.now) }
{
    match change {
        TreeChange::Add { name, node } => adding(alloc, forest, name, node.parent.as_ref()),
        TreeChange::SetParent { name, parent } => moving(alloc, forest, name, parent.as_ref()),
        TreeChange::SetTerminating { name: _ } => Ok(Vec::new(alloc)),
        TreeChange::Remove { name } => removing(alloc, forest, name),
    }
}

/// Those by a namespace that comes. It goes under its parent, and those that named it before come under it.
fn adding(
    alloc: Global,
    forest: &Forest,
    name: &Text,
    parent: Option<&Text>,
) -> Result<Vec<CounterChange>, NoMemory>
    ensures once { OnOk result (IsDistinct bytes_eq (children_of forest.now.nodes name.now)) }
    ensures changes { IfOk result (λ changes. changes.items ≡ of.Add name.now ∷ (under_parent forest.now.nodes name.now (option_copied parent.entry) ++ taken_in forest.now.nodes name.now)) }
{
    let mut changes = Vec::new(alloc);
    changes.push(CounterChange::Add {
        name: name.clone()?,
    })?;
    push_under(&mut changes, forest, name, parent)?;
    push_taken_in(&mut changes, forest, name)?;
    Ok(changes)
}

/// A namespace that comes goes under its parent, where that is there then.
fn push_under(
    changes: &mut Vec<CounterChange>,
    forest: &Forest,
    name: &Text,
    parent: Option<&Text>,
) -> Result<(), NoMemory>
    ensures { OnOk result (changes.new.items ≡ changes.old.items ++ under_parent forest.now.nodes name.now (option_copied parent.entry)) }
{
    let Some(parent) = parent else {
        return Ok(());
    };
    if forest.node(parent).is_some() {
        return push_move(changes, name, Some(parent.clone()?));
    }
    if name.as_str() == parent.as_str() {
        return push_move(changes, name, Some(name.clone()?));
    }
    Ok(())
}

/// Those that named a namespace before it comes get it as their parent.
fn push_taken_in(
    changes: &mut Vec<CounterChange>,
    forest: &Forest,
    name: &Text,
) -> Result<(), NoMemory>
    ensures once { IsDistinct bytes_eq (children_of forest.now.nodes name.now) }
    ensures changes { OnOk result (changes.new.items ≡ changes.old.items ++ taken_in forest.now.nodes name.now) }
{
    for child in children(forest, name) {
        push_move(changes, child, Some(name.clone()?))?;
    }
    Ok(())
}

/// Those by a namespace that gets another parent, or none.
fn moving(
    alloc: Global,
    forest: &Forest,
    name: &Text,
    parent: Option<&Text>,
) -> Result<Vec<CounterChange>, NoMemory>
    ensures { IfOk result (λ changes. changes.items ≡ moved_under forest.now.nodes name.now (option_copied parent.entry)) }
{
    let mut changes = Vec::new(alloc);
    if forest.node(name).is_none() {
        return Ok(changes);
    }
    let above = parent_there(forest, parent)?;
    push_move(&mut changes, name, above)?;
    Ok(changes)
}

/// Those by a namespace that goes. Those that name it have no parent that is there any more.
fn removing(alloc: Global, forest: &Forest, name: &Text) -> Result<Vec<CounterChange>, NoMemory>
    ensures once { OnOk result (IsDistinct bytes_eq (children_of forest.now.nodes name.now)) }
    ensures changes { IfOk result (λ changes. changes.items ≡ let_go forest.now.nodes name.now ++ of.Remove name.now ∷ []) }
{
    let mut changes = Vec::new(alloc);
    push_let_go(&mut changes, forest, name)?;
    changes.push(CounterChange::Remove {
        name: name.clone()?,
    })?;
    Ok(changes)
}

/// Those that name a namespace get no parent.
fn push_let_go(
    changes: &mut Vec<CounterChange>,
    forest: &Forest,
    name: &Text,
) -> Result<(), NoMemory>
    ensures once { IsDistinct bytes_eq (children_of forest.now.nodes name.now) }
    ensures changes { OnOk result (changes.new.items ≡ changes.old.items ++ let_go forest.now.nodes name.now) }
{
    for child in children(forest, name) {
        push_move(changes, child, None)?;
    }
    Ok(())
}

/// The namespaces that name one as their parent, each once.
fn children<'a>(forest: &'a Forest, name: &Text) -> &'a [Text]
    ensures children { result.now ≡ children_of forest.now.nodes name.now }
    ensures once { IsDistinct bytes_eq (children_of forest.now.nodes name.now) }
{
    forest.children(name)
}

/// Adds a move.
fn push_move(
    changes: &mut Vec<CounterChange>,
    moved: &Text,
    parent: Option<Text>,
) -> Result<(), NoMemory>
    ensures { OnOk result (changes.new.items ≡ changes.old.items ++ of.Move moved.now parent ∷ []) }
{
    let moved = moved.clone()?;
    changes.push(CounterChange::Move { moved, parent })?;
    Ok(())
}

/// A parent, where it is there.
fn parent_there(forest: &Forest, parent: Option<&Text>) -> Result<Option<Text>, NoMemory>
    ensures { IfOk result (λ there. there ≡ option_and_then (if_there forest.now.nodes) (option_copied parent.entry)) }
{
    let Some(parent) = parent else {
        return Ok(None);
    };
    if forest.node(parent).is_none() {
        return Ok(None);
    }
    Ok(Some(parent.clone()?))
}
