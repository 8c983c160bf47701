// What the chains of namespaces send, from one namespace to the next.
ghost use Rattle.std.specs.Prelude.{◌≡◌, ◌++◌, ◌∷◌, [], true, IfOk, OnOk, filter, flat_map, option_copied};
ghost use Rattle.std.specs.List.{list_all, list_any};
ghost use Rattle.hx_model.specs.Forest.{chain_of};
ghost use Rattle.hx_model.specs.Moves.{chain_from, is_open_above, mode_at};
ghost use Rattle.hx_model.specs.Propagation.{is_propagated};
ghost use Rattle.hx_model.specs.TreeLabels.{is_open};
ghost use Rattle.hx_marks.specs.Law.{all_of, is_sent};
ghost use Rattle.hx_object.specs.declared.object.Mode.TheVariants.{Propagate};
ghost use Rattle.hx_marks.specs.Senders.{is_sender, senders_of, sends_kind, sent_kinds};

use crate::current::Current;
use crate::lookups::is_propagated;
use crate::wants::all_under;
use hx_forest::Ancestors;
use hx_model::{COPIED_KINDS, Key, is_same_name};
use hx_object::{Kind, Mode, NoMemory, Shared, Text};
use hx_reconcile::is_sent;
use hx_state::mode_at;
use hx_store::Store;

/// Marks all that some namespaces may want which take part, by their chains.
///
/// What is found above one goes on to the next where that has the same parent, or lies right below it or one beside it. Else the chain is gone over anew, and only what sends something is asked again by each.
pub(crate) fn all_by_chains(
    current: &Current,
    members: &[Text],
    keys: &mut Vec<Key>,
) -> Result<(), NoMemory>
    requires part { list_all (is_open current.now.forest.now.nodes) members.now ≡ true }
    ensures { OnOk result (keys.new.items ≡ keys.old.items ++ flat_map (λ m. all_of current.now.store.now.objects (chain_of current.now.forest.now.nodes m) m) members.now) }
{
    let kinds = sent_kinds(current.store)?;
    all_of_kinds(current, &kinds, members, keys)
}

/// The kinds that are propagated.
pub(crate) fn sent_kinds(store: &Store) -> Result<Vec<Kind>, NoMemory>
    ensures { IfOk result (λ kinds. kinds.items ≡ sent_kinds store.now.objects) }
{
    let mut kinds = Vec::new(store.allocator());
    push_propagated(store, &COPIED_KINDS, &mut kinds)?;
    Ok(kinds)
}

fn push_propagated(store: &Store, all: &[Kind], kinds: &mut Vec<Kind>) -> Result<(), NoMemory>
    ensures { OnOk result (kinds.new.items ≡ kinds.old.items ++ filter (λ kind. is_propagated (mode_at store.now.objects kind)) all.now) }
{
    for kind in all {
        if is_propagated(mode_at(store, *kind)) {
            kinds.push(*kind)?;
        }
    }
    Ok(())
}

fn all_of_kinds(
    current: &Current,
    kinds: &[Kind],
    members: &[Text],
    keys: &mut Vec<Key>,
) -> Result<(), NoMemory>
    requires kinds { kinds.now ≡ sent_kinds current.now.store.now.objects }
    requires part { list_all (is_open current.now.forest.now.nodes) members.now ≡ true }
    ensures { OnOk result (keys.new.items ≡ keys.old.items ++ flat_map (λ m. all_of current.now.store.now.objects (chain_of current.now.forest.now.nodes m) m) members.now) }
{
    let mut senders = Vec::new(current.store.allocator());
    let mut known = None;
    for member in members {
        let parent = current.forest.parent(member);
        come_to(current, kinds, known, parent, &mut senders)?;
        all_under(current.store, &senders, member, keys)?;
        known = parent;
    }
    Ok(())
}

/// From what sends something in the chain of one namespace to that in the chain of another, which takes part.
fn come_to(
    current: &Current,
    kinds: &[Kind],
    known: Option<&Text>,
    parent: Option<&Text>,
    senders: &mut Vec<Text>,
) -> Result<(), NoMemory>
    requires known { senders.now.items ≡ senders_of current.now.store.now.objects kinds.now (chain_from current.now.forest.now.nodes (option_copied known)) }
    requires part { is_open_above current.now.forest.now.nodes (option_copied parent) ≡ true }
    ensures { OnOk result (senders.new.items ≡ senders_of current.now.store.now.objects kinds.now (chain_from current.now.forest.now.nodes (option_copied parent.entry))) }
{
    if is_same_name(known, parent) {
        return Ok(());
    }
    match parent {
        Some(name) => {
            keep_at(current, kinds, known, current.forest.parent(name), senders)?;
            put_first(current.store, kinds, name, senders)
        }
        None => {
            senders.clear();
            Ok(())
        }
    }
}

/// The same for any other: where it isn't the same one, along its whole chain.
fn keep_at(
    current: &Current,
    kinds: &[Kind],
    known: Option<&Text>,
    name: Option<&Text>,
    senders: &mut Vec<Text>,
) -> Result<(), NoMemory>
    requires known { senders.now.items ≡ senders_of current.now.store.now.objects kinds.now (chain_from current.now.forest.now.nodes (option_copied known)) }
    ensures { OnOk result (senders.new.items ≡ senders_of current.now.store.now.objects kinds.now (chain_from current.now.forest.now.nodes (option_copied name.entry))) }
{
    if is_same_name(known, name) {
        return Ok(());
    }
    senders.clear();
    match name {
        Some(name) => push_senders(
            current.store,
            kinds,
            current.forest.ancestors(name),
            senders,
        ),
        None => Ok(()),
    }
}

/// Adds those of some namespaces that send something.
fn push_senders(
    store: &Store,
    kinds: &[Kind],
    names: Ancestors,
    senders: &mut Vec<Text>,
) -> Result<(), NoMemory>
    ensures { OnOk result (senders.new.items ≡ senders.old.items ++ senders_of store.now.objects kinds.now names.entry) }
{
    for name in names {
        if is_sender(store, kinds, name)? {
            senders.push(name.clone()?)?;
        }
    }
    Ok(())
}

/// The same of a list.
pub(crate) fn push_sending(
    store: &Store,
    kinds: &[Kind],
    names: &[Text],
    senders: &mut Vec<Text>,
) -> Result<(), NoMemory>
    ensures { OnOk result (senders.new.items ≡ senders.old.items ++ senders_of store.now.objects kinds.now names.now) }
{
    for name in names {
        if is_sender(store, kinds, name)? {
            senders.push(name.clone()?)?;
        }
    }
    Ok(())
}

/// Puts a namespace before the others, where it sends something.
pub(crate) fn put_first(
    store: &Store,
    kinds: &[Kind],
    name: &Text,
    senders: &mut Vec<Text>,
) -> Result<(), NoMemory>
    ensures { OnOk result (senders.new.items ≡ senders_of store.now.objects kinds.now (name.now ∷ []) ++ senders.old.items) }
{
    if is_sender(store, kinds, name)? {
        senders.insert(0, name.clone()?)?;
    }
    Ok(())
}

/// Whether a namespace sends a source of one of these kinds, where they are propagated.
fn is_sender(store: &Store, kinds: &[Kind], name: &Text) -> Result<bool, NoMemory>
    ensures { IfOk result (λ sends. sends ≡ is_sender store.now.objects kinds.now name.now) }
{
    for kind in kinds {
        if sends_kind(store, *kind, name)? {
            return Ok(true);
        }
    }
    Ok(false)
}

fn sends_kind(store: &Store, kind: Kind, name: &Text) -> Result<bool, NoMemory>
    ensures { IfOk result (λ sends. sends ≡ sends_kind store.now.objects name.now kind) }
{
    let listed = store.list(kind, Some(name))?;
    Ok(is_any_sent(&listed))
}

/// Whether one of these is a source that is sent where its kind is propagated.
fn is_any_sent(listed: &[Shared]) -> bool
    ensures { result ≡ list_any (is_sent Propagate) listed.now }
{
    listed
        .iter()
        .any(|object| is_sent(Mode::Propagate, object.object()))
}
