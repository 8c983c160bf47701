// Namespaces are made, begin to leave, or go.
ghost use Rattle.std.specs.Prelude.{◌≡◌, ◌++◌, ◌∷◌, IfOk, OnOk, flat_map, option_copied};
ghost use Rattle.hx_model.specs.Forest.{chain_of};
ghost use Rattle.hx_model.specs.Moves.{chain_from};
ghost use Rattle.hx_marks.specs.Reads.{state_in};
ghost use Rattle.hx_marks.specs.Law.{all_of, below_created, created_marks, ending_marks, following_marks, removed_marks};

use crate::anchors::{asking_keys, push_purge, status_keys};
use crate::below::{open_below, push_below};
use crate::current::Current;
use crate::reports::near_reports;
use crate::senders::all_by_chains;
use crate::usage::usage_keys;
use crate::wants::all_of;
use hx_forest::{Forest, push_names};
use hx_model::Key;
use hx_object::{NoMemory, Text};
use std::alloc::Global;

/// Marks what a namespace touches that is on its way out from now on: all that those below it want which took part, its anchors, its quotas, and its removal.
pub(crate) fn ending_marks(
    current: &Current,
    name: &Text,
    keys: &mut Vec<Key>,
) -> Result<(), NoMemory>
    ensures { OnOk result (keys.new.items ≡ keys.old.items ++ ending_marks (state_in current.now) name.now) }
{
    let members = open_below(current.store.allocator(), current.forest, name)?;
    all_by_chains(current, &members, keys)?;
    status_keys(current.store, name, keys)?;
    usage_keys(current.store, name, keys)?;
    push_purge(name, keys)
}

/// Marks what a namespace touches that is on its way out from now on together with its parent, which marks what took part below both: its anchors, its quotas, its removal, its report, and those of its children.
pub(crate) fn following_marks(
    current: &Current,
    name: &Text,
    keys: &mut Vec<Key>,
) -> Result<(), NoMemory>
    ensures { OnOk result (keys.new.items ≡ keys.old.items ++ following_marks (state_in current.now) name.now) }
{
    status_keys(current.store, name, keys)?;
    usage_keys(current.store, name, keys)?;
    push_purge(name, keys)?;
    near_reports(current.forest, name, keys)
}

/// Marks what a namespace touches that goes: its removal, and the anchors that ask for it.
pub(crate) fn removed_marks(
    current: &Current,
    name: &Text,
    keys: &mut Vec<Key>,
) -> Result<(), NoMemory>
    ensures { OnOk result (keys.new.items ≡ keys.old.items ++ removed_marks (state_in current.now) name.now) }
{
    push_purge(name, keys)?;
    asking_keys(current.store, name, keys)
}

/// Marks all that a namespace wants which is made under a parent, and those below it, which have waited for it, and the anchors that ask for it.
pub(crate) fn created_marks(
    current: &Current,
    name: &Text,
    parent: Option<&Text>,
    keys: &mut Vec<Key>,
) -> Result<(), NoMemory>
    ensures { OnOk result (keys.new.items ≡ keys.old.items ++ created_marks (state_in current.now) name.now (option_copied parent.entry)) }
{
    let above = current.forest.chain_from(parent)?;
    let members = below_created(current.store.allocator(), current.forest, name)?;
    marks_under(current, name, &above, &members, keys)?;
    asking_keys(current.store, name, keys)
}

/// Marks all that some namespaces want, whose chains go on with a namespace and what is above it.
fn marks_under(
    current: &Current,
    name: &Text,
    above: &[Text],
    members: &[Text],
    keys: &mut Vec<Key>,
) -> Result<(), NoMemory>
    ensures { OnOk result (keys.new.items ≡ keys.old.items ++ flat_map (λ m. all_of current.now.store.now.objects (chain_of current.now.forest.now.nodes m ++ name.now ∷ above.now) m) members.now) }
{
    for member in members {
        let mut chain = current.forest.chain(member)?;
        chain.push(name.clone()?)?;
        push_names(&mut chain, above)?;
        all_of(current.store, &chain, member, keys)?;
    }
    Ok(())
}

/// A namespace, and what lies below those that name it as their parent.
fn below_created(alloc: Global, forest: &Forest, name: &Text) -> Result<Vec<Text>, NoMemory>
    ensures { IfOk result (λ names. names.items ≡ below_created forest.now.nodes name.now) }
{
    let mut names = Vec::new(alloc);
    names.push(name.clone()?)?;
    push_below(&mut names, forest, forest.children(name))?;
    Ok(names)
}
