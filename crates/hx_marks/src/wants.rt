// What a namespace may want written.
ghost use Rattle.std.specs.Prelude.{◌≡◌, ◌++◌, ◌∷◌, ℕ, List, false, [], IfOk, OnOk, filter, flat_map, map, if◌then◌else◌};
ghost use Rattle.hx_model.specs.Forest.{chain_of, tail_of};
ghost use Rattle.hx_model.specs.Limits.{is_copy};
ghost use Rattle.hx_model.specs.Tree.{forest_of};
ghost use Rattle.hx_model.specs.TreeLabels.{is_open};
ghost use Rattle.hx_marks.specs.Law.{all_of, known_of, all_sent, is_sent, key_for, listed_in, sent_from, wants_of, wants_of_kind};

use crate::anchors::{child_keys, leaving_keys, status_keys};
use crate::lookups::{is_ignored, is_propagated};
use crate::reports::report_key;
use crate::usage::usage_keys;
use hx_forest::Forest;
use hx_model::{COPIED_KINDS, Key, is_copy};
use hx_object::{Kind, Mode, NoMemory, Object, Shared, Text};
use hx_reconcile::is_sent;
use hx_state::{IndexedState, mode_at};
use hx_store::Store;

/// The keys of a namespace that may want a write.
pub fn keys_of(state: &IndexedState, name: &Text) -> Result<Vec<Key>, NoMemory>
    ensures { IfOk result (λ keys. keys.items ≡ known_of state.now.state.objects (forest_of state.now.state) name.now) }
{
    let mut keys = Vec::new(state.allocator());
    known_of(state.store(), state.forest(), name, &mut keys)?;
    Ok(keys)
}

/// Marks the keys of a namespace that may want a write.
pub(crate) fn known_of(
    store: &Store,
    forest: &Forest,
    name: &Text,
    keys: &mut Vec<Key>,
) -> Result<(), NoMemory>
    ensures { OnOk result (keys.new.items ≡ keys.old.items ++ known_of store.now.objects forest.now.nodes name.now) }
{
    open_keys(store, forest, name, keys)?;
    report_key(forest, name, keys)?;
    status_keys(store, name, keys)?;
    usage_keys(store, name, keys)?;
    leaving_keys(forest, name, keys)
}

/// Marks all that a namespace may want that takes part, or nothing where it doesn't.
fn open_keys(
    store: &Store,
    forest: &Forest,
    name: &Text,
    keys: &mut Vec<Key>,
) -> Result<(), NoMemory>
    ensures { OnOk result (keys.new.items ≡ keys.old.items ++ (if is_open forest.now.nodes name.now then all_of store.now.objects (chain_of forest.now.nodes name.now) name.now else [])) }
{
    if !forest.is_open(name) {
        return Ok(());
    }
    let chain = forest.chain(name)?;
    all_of(store, &chain, name, keys)
}

/// Marks what a namespace of this chain may want that takes part: its tree labels, its copies, and its subnamespaces.
pub(crate) fn all_of(
    store: &Store,
    chain: &[Text],
    name: &Text,
    keys: &mut Vec<Key>,
) -> Result<(), NoMemory>
    ensures { OnOk result (keys.new.items ≡ keys.old.items ++ all_of store.now.objects chain.now name.now) }
{
    all_under(store, tail_of(chain), name, keys)
}

/// The same, by what is above the namespace in its chain.
pub(crate) fn all_under(
    store: &Store,
    above: &[Text],
    name: &Text,
    keys: &mut Vec<Key>,
) -> Result<(), NoMemory>
    ensures { OnOk result (keys.new.items ≡ keys.old.items ++ all_of store.now.objects (name.now ∷ above.now) name.now) }
{
    keys.push(Key::Tree { ns: name.clone()? })?;
    wants_of(store, above, name, keys)?;
    child_keys(store, name, keys)
}

/// Marks the copies that a namespace below these may want: of what is sent from above, and those that lie in it.
fn wants_of(store: &Store, above: &[Text], name: &Text, keys: &mut Vec<Key>) -> Result<(), NoMemory>
    ensures { OnOk result (keys.new.items ≡ keys.old.items ++ wants_of store.now.objects (name.now ∷ above.now) name.now) }
{
    wants_of_kinds(store, above, name, &COPIED_KINDS, keys)
}

fn wants_of_kinds(
    store: &Store,
    above: &[Text],
    name: &Text,
    kinds: &[Kind],
    keys: &mut Vec<Key>,
) -> Result<(), NoMemory>
    ensures { OnOk result (keys.new.items ≡ keys.old.items ++ flat_map (wants_of_kind store.now.objects (name.now ∷ above.now) name.now) kinds.now) }
{
    for kind in kinds {
        wants_of_kind(store, above, name, *kind, keys)?;
    }
    Ok(())
}

fn wants_of_kind(
    store: &Store,
    above: &[Text],
    name: &Text,
    kind: Kind,
    keys: &mut Vec<Key>,
) -> Result<(), NoMemory>
    ensures { OnOk result (keys.new.items ≡ keys.old.items ++ wants_of_kind store.now.objects (name.now ∷ above.now) name.now kind) }
{
    if is_ignored(mode_at(store, kind)) {
        return Ok(());
    }
    let mut objects = Vec::new(store.allocator());
    sent_from(store, kind, above, &mut objects)?;
    copies_in(store, kind, name, &mut objects)?;
    keys_for(name, &objects, keys)
}

/// A chain without its first member.
pub(crate) fn tail_of(chain: &[Text]) -> &[Text]
    ensures { result.now ≡ tail_of chain.now }
{
    match chain.split_first() {
        Some((_, above)) => above,
        None => chain,
    }
}

/// Marks the places of some objects' kinds and names in a namespace.
pub(crate) fn keys_for(name: &Text, objects: &[Shared], keys: &mut Vec<Key>) -> Result<(), NoMemory>
    ensures { OnOk result (keys.new.items ≡ keys.old.items ++ map (key_for name.now) objects.now) }
{
    for object in objects {
        keys.push(key_for(name, object.object())?)?;
    }
    Ok(())
}

/// The key of the copies of an object's kind and name, in a namespace.
pub(crate) fn key_for(name: &Text, object: &Object) -> Result<Key, NoMemory>
    ensures { IfOk result (λ key. key ≡ key_for name.now object.now) }
{
    Ok(Key::Copy {
        ns: name.clone()?,
        kind: object.id.kind,
        name: object.id.name.clone()?,
    })
}

/// Whether something may be sent. Where nothing may, no chain is walked for what is.
pub(crate) fn may_send(store: &Store) -> bool
    ensures { result ≡ false → (names : List (List ℕ)) → all_sent store.now.objects names ≡ [] }
{
    may_send_any(store, &COPIED_KINDS)
}

fn may_send_any(store: &Store, kinds: &[Kind]) -> bool
    ensures { result ≡ false → (names : List (List ℕ)) → flat_map (λ kind. sent_from store.now.objects kind names) kinds.now ≡ [] }
{
    for kind in kinds {
        if may_send_kind(store, *kind) {
            return true;
        }
    }
    false
}

/// Whether a kind is propagated and may have objects.
fn may_send_kind(store: &Store, kind: Kind) -> bool
    ensures { result ≡ false → (names : List (List ℕ)) → sent_from store.now.objects kind names ≡ [] }
{
    store.may_have(kind) && is_propagated(mode_at(store, kind))
}

/// Adds what some namespaces send, of all kinds.
pub(crate) fn all_sent(
    store: &Store,
    names: &[Text],
    objects: &mut Vec<Shared>,
) -> Result<(), NoMemory>
    ensures { OnOk result (objects.new.items ≡ objects.old.items ++ all_sent store.now.objects names.now) }
{
    sent_of_kinds(store, &COPIED_KINDS, names, objects)
}

fn sent_of_kinds(
    store: &Store,
    kinds: &[Kind],
    names: &[Text],
    objects: &mut Vec<Shared>,
) -> Result<(), NoMemory>
    ensures { OnOk result (objects.new.items ≡ objects.old.items ++ flat_map (λ kind. sent_from store.now.objects kind names.now) kinds.now) }
{
    for kind in kinds {
        sent_from(store, *kind, names, objects)?;
    }
    Ok(())
}

/// Adds the sources of a kind that some namespaces send. No namespace is looked into where the kind isn't propagated.
fn sent_from(
    store: &Store,
    kind: Kind,
    names: &[Text],
    objects: &mut Vec<Shared>,
) -> Result<(), NoMemory>
    ensures { OnOk result (objects.new.items ≡ objects.old.items ++ sent_from store.now.objects kind names.now) }
{
    let mode = mode_at(store, kind);
    if !is_propagated(mode) {
        return Ok(());
    }
    sent_in_mode(store, kind, mode, names, objects)
}

fn sent_in_mode(
    store: &Store,
    kind: Kind,
    mode: Mode,
    names: &[Text],
    objects: &mut Vec<Shared>,
) -> Result<(), NoMemory>
    ensures { OnOk result (objects.new.items ≡ objects.old.items ++ flat_map (λ a. filter (is_sent mode) (listed_in store.now.objects kind a)) names.now) }
{
    for name in names {
        let listed = store.list(kind, Some(name))?;
        push_sent(mode, &listed, objects)?;
    }
    Ok(())
}

fn push_sent(mode: Mode, listed: &[Shared], objects: &mut Vec<Shared>) -> Result<(), NoMemory>
    ensures { OnOk result (objects.new.items ≡ objects.old.items ++ filter (is_sent mode) listed.now) }
{
    for object in listed {
        if is_sent(mode, object.object()) {
            objects.push(object.share()?)?;
        }
    }
    Ok(())
}

/// Adds the copies of a kind that lie in a namespace.
fn copies_in(
    store: &Store,
    kind: Kind,
    name: &Text,
    objects: &mut Vec<Shared>,
) -> Result<(), NoMemory>
    ensures { OnOk result (objects.new.items ≡ objects.old.items ++ filter is_copy (listed_in store.now.objects kind name.now)) }
{
    let listed = store.list(kind, Some(name))?;
    push_copies(&listed, objects)
}

fn push_copies(listed: &[Shared], objects: &mut Vec<Shared>) -> Result<(), NoMemory>
    ensures { OnOk result (objects.new.items ≡ objects.old.items ++ filter is_copy listed.now) }
{
    for object in listed {
        if is_copy(object.object()) {
            objects.push(object.share()?)?;
        }
    }
    Ok(())
}
