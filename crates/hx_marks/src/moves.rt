// Namespaces get other parents.
ghost use Rattle.std.specs.Prelude.{◌≡◌, ◌++◌, true, false, None, IfOk, OnOk, flat_map, option_copied};
ghost use Rattle.hx_model.specs.Forest.{is_in};
ghost use Rattle.hx_model.specs.Moves.{chain_from, is_open_above};
ghost use Rattle.hx_model.specs.TreeLabels.{is_open};
ghost use Rattle.hx_marks.specs.Before.{comes_back_by, opens_under};
ghost use Rattle.hx_marks.specs.Reads.{state_in};
ghost use Rattle.hx_marks.specs.Law.{all_sent, apart, in_one, moved_by, sent_marks};

use crate::below::live_below;
use crate::current::Current;
use crate::links::all_by_ways;
use crate::name_set::NameSet;
use crate::wants::{all_sent, keys_for, may_send};
use hx_forest::Forest;
use hx_model::Key;
use hx_object::{NoMemory, Shared, Text};
use std::alloc::Global;

/// How many names are looked through one after the other.
const FEW: usize = 16;

/// Marks what a namespace and those below it may want which gets another parent. It takes part before it moves, or after it.
pub(crate) fn move_marks(
    current: &Current,
    name: &Text,
    old: Option<&Text>,
    new: Option<&Text>,
    before: bool,
    after: bool,
    keys: &mut Vec<Key>,
) -> Result<(), NoMemory>
    requires before { is_open current.now.forest.now.nodes name.now ≡ before }
    ensures { OnOk result (keys.new.items ≡ keys.old.items ++ moved_by (state_in current.now) name.now (option_copied old.entry) (option_copied new.entry) before after) }
{
    match (before, after) {
        (true, true) => goes_on_marks(current, name, old, new, keys),
        (true, false) => closing_marks(current, name, keys),
        (false, true) => opening_marks(current, name, new, keys),
        (false, false) => Ok(()),
    }
}

/// Marks what a subtree may want that takes part before and after a move: what is sent from one chain goes, and what is sent from the other comes.
fn goes_on_marks(
    current: &Current,
    name: &Text,
    old: Option<&Text>,
    new: Option<&Text>,
    keys: &mut Vec<Key>,
) -> Result<(), NoMemory>
    ensures { OnOk result (keys.new.items ≡ keys.old.items ++ moved_by (state_in current.now) name.now (option_copied old.entry) (option_copied new.entry) true true) }
{
    let sent = sent_apart(current, old, new)?;
    let members = live_below(current.forest, name)?;
    sent_marks(&sent, &members, keys)
}

/// What is sent by the namespaces of exactly one of the chains of two parents. No chain is walked where nothing may be sent.
fn sent_apart(
    current: &Current,
    old: Option<&Text>,
    new: Option<&Text>,
) -> Result<Vec<Shared>, NoMemory>
    ensures { IfOk result (λ sent. sent.items ≡ all_sent current.now.store.now.objects (in_one (chain_from current.now.forest.now.nodes (option_copied old.entry)) (chain_from current.now.forest.now.nodes (option_copied new.entry)))) }
{
    let alloc = current.store.allocator();
    let mut sent = Vec::new(alloc);
    if !may_send(current.store) {
        return Ok(sent);
    }
    let before = current.forest.chain_from(old)?;
    let after = current.forest.chain_from(new)?;
    let names = in_one(alloc, &before, &after)?;
    all_sent(current.store, &names, &mut sent)?;
    Ok(sent)
}

/// Marks all that a subtree may want which ends to take part.
fn closing_marks(current: &Current, name: &Text, keys: &mut Vec<Key>) -> Result<(), NoMemory>
    requires part { is_open current.now.forest.now.nodes name.now ≡ true }
    ensures { OnOk result (keys.new.items ≡ keys.old.items ++ moved_by (state_in current.now) name.now None None true false) }
{
    let parent = current.forest.parent(name);
    let above = current.forest.chain_from(parent)?;
    let members = live_below(current.forest, name)?;
    all_by_ways(current, name, &above, &members, keys)
}

/// Marks all that a subtree may want which begins to take part.
fn opening_marks(
    current: &Current,
    name: &Text,
    new: Option<&Text>,
    keys: &mut Vec<Key>,
) -> Result<(), NoMemory>
    ensures { OnOk result (keys.new.items ≡ keys.old.items ++ moved_by (state_in current.now) name.now None (option_copied new.entry) false true) }
{
    let above = current.forest.chain_from(new)?;
    let members = live_below(current.forest, name)?;
    all_by_ways(current, name, &above, &members, keys)
}

/// Marks what is sent in some namespaces, and their tree labels.
fn sent_marks(sent: &[Shared], members: &[Text], keys: &mut Vec<Key>) -> Result<(), NoMemory>
    ensures { OnOk result (keys.new.items ≡ keys.old.items ++ flat_map (sent_marks sent.now) members.now) }
{
    for member in members {
        keys.push(Key::Tree {
            ns: member.clone()?,
        })?;
        keys_for(member, sent, keys)?;
    }
    Ok(())
}

/// The names of exactly one of two chains.
pub(crate) fn in_one(alloc: Global, a: &[Text], b: &[Text]) -> Result<Vec<Text>, NoMemory>
    ensures { IfOk result (λ names. names.items ≡ in_one a.now b.now) }
{
    let mut names = Vec::new(alloc);
    push_apart(&mut names, a, b)?;
    push_apart(&mut names, b, a)?;
    Ok(names)
}

/// Adds the names that aren't among others. A few of those are looked through, and more are searched in order.
fn push_apart(list: &mut Vec<Text>, names: &[Text], others: &[Text]) -> Result<(), NoMemory>
    ensures { OnOk result (list.new.items ≡ list.old.items ++ apart names.now others.now) }
{
    if others.len() <= FEW {
        return push_unlike(list, names, others);
    }
    let set = NameSet::of(*list.allocator(), others)?;
    push_missing(list, names, &set)
}

/// Adds the names that aren't among a few others.
fn push_unlike(list: &mut Vec<Text>, names: &[Text], others: &[Text]) -> Result<(), NoMemory>
    ensures { OnOk result (list.new.items ≡ list.old.items ++ apart names.now others.now) }
{
    for name in names {
        if !is_in(name, others) {
            list.push(name.clone()?)?;
        }
    }
    Ok(())
}

/// Adds the names that a set doesn't have.
fn push_missing(list: &mut Vec<Text>, names: &[Text], others: &NameSet) -> Result<(), NoMemory>
    ensures { OnOk result (list.new.items ≡ list.old.items ++ apart names.now others.now) }
{
    for name in names {
        if !others.has(name) {
            list.push(name.clone()?)?;
        }
    }
    Ok(())
}

/// Whether the name is among them.
fn is_in(name: &Text, names: &[Text]) -> bool
    ensures { result ≡ is_in name.now names.now }
{
    names.iter().any(|other| name.as_str() == other.as_str())
}

/// Whether a namespace takes part once it has a parent: not below itself.
pub(crate) fn opens_under(forest: &Forest, name: &Text, parent: Option<&Text>) -> bool
    ensures { result ≡ opens_under forest.now.nodes name.now (option_copied parent.entry) }
{
    forest.is_eligible(name) && forest.is_open_above(parent) && !comes_back_by(forest, name, parent)
}

/// Whether the chain of a parent has the namespace.
pub(crate) fn comes_back_by(forest: &Forest, name: &Text, parent: Option<&Text>) -> bool
    ensures { result ≡ comes_back_by forest.now.nodes name.now (option_copied parent.entry) }
{
    match parent {
        Some(parent) => forest.in_chain(parent, name),
        None => false,
    }
}
