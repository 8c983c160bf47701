// The modes of kinds change.
ghost use Rattle.std.specs.Prelude.{◌≡◌, ◌++◌, ◌∷◌, ◌&&◌, [], not, OnOk, flat_map, map, option_copied};
ghost use Rattle.hx_model.specs.Modes.{mode_in};
ghost use Rattle.hx_model.specs.Propagation.{is_propagated};
ghost use Rattle.hx_marks.specs.Reads.{state_in};
ghost use Rattle.hx_marks.specs.Law.{apart, copy_marks, differ, is_ignored, key_for, kind_marks, mode_marks, source_marks};

use crate::below::open_below;
use crate::current::Current;
use crate::lookups::{is_ignored, is_propagated};
use crate::wants::key_for;
use hx_forest::Forest;
use hx_model::{COPIED_KINDS, Key, is_copy, mode_in};
use hx_object::{Kind, Mode, NoMemory, Object, Shared, Text};
use hx_reconcile::is_sent;
use std::alloc::Global;

/// Marks what the kinds' objects touch whose modes change with the HNCConfiguration.
pub(crate) fn mode_marks(
    current: &Current,
    old: Option<&Object>,
    new: Option<&Object>,
    keys: &mut Vec<Key>,
) -> Result<(), NoMemory>
    ensures { OnOk result (keys.new.items ≡ keys.old.items ++ mode_marks (state_in current.now) (option_copied old.entry) (option_copied new.entry)) }
{
    marks_of_kinds(current, old, new, &COPIED_KINDS, keys)
}

fn marks_of_kinds(
    current: &Current,
    old: Option<&Object>,
    new: Option<&Object>,
    kinds: &[Kind],
    keys: &mut Vec<Key>,
) -> Result<(), NoMemory>
    ensures { OnOk result (keys.new.items ≡ keys.old.items ++ flat_map (λ kind. kind_marks (state_in current.now) (mode_in (option_copied old.entry) kind) (mode_in (option_copied new.entry) kind) kind) kinds.now) }
{
    for kind in kinds {
        let before = mode_in(old, *kind);
        let after = mode_in(new, *kind);
        kind_marks(current, before, after, *kind, keys)?;
    }
    Ok(())
}

/// Marks what the objects of a kind touch that comes from one mode to another. Where it is ignored and propagated as before, none is looked at.
fn kind_marks(
    current: &Current,
    before: Mode,
    after: Mode,
    kind: Kind,
    keys: &mut Vec<Key>,
) -> Result<(), NoMemory>
    ensures { OnOk result (keys.new.items ≡ keys.old.items ++ kind_marks (state_in current.now) before after kind) }
{
    if are_alike(before, after) {
        return Ok(());
    }
    let listed = current.store.list(kind, None)?;
    marks_of_all(
        current.store.allocator(),
        current.forest,
        before,
        after,
        &listed,
        keys,
    )
}

/// Whether a kind is ignored in both modes or in neither, and propagated likewise.
fn are_alike(before: Mode, after: Mode) -> bool
    ensures { result ≡ (not (differ (is_ignored before) (is_ignored after)) && not (differ (is_propagated before) (is_propagated after))) }
{
    is_ignored(before) == is_ignored(after) && is_propagated(before) == is_propagated(after)
}

fn marks_of_all(
    alloc: Global,
    forest: &Forest,
    before: Mode,
    after: Mode,
    objects: &[Shared],
    keys: &mut Vec<Key>,
) -> Result<(), NoMemory>
    ensures { OnOk result (keys.new.items ≡ keys.old.items ++ flat_map (λ x. copy_marks forest.now.nodes before after x ++ source_marks forest.now.nodes before after x) objects.now) }
{
    for object in objects {
        copy_marks(forest, before, after, object.object(), keys)?;
        source_marks(alloc, forest, before, after, object.object(), keys)?;
    }
    Ok(())
}

/// Marks the place of a copy, where its kind begins or ends to be ignored.
fn copy_marks(
    forest: &Forest,
    before: Mode,
    after: Mode,
    object: &Object,
    keys: &mut Vec<Key>,
) -> Result<(), NoMemory>
    ensures { OnOk result (keys.new.items ≡ keys.old.items ++ copy_marks forest.now.nodes before after object.now) }
{
    if is_ignored(before) != is_ignored(after) && is_copy(object) && forest.is_open(&object.id.ns) {
        keys.push(key_for(&object.id.ns, object)?)?;
    }
    Ok(())
}

/// Marks the places below a source that begins or ends to be sent.
fn source_marks(
    alloc: Global,
    forest: &Forest,
    before: Mode,
    after: Mode,
    object: &Object,
    keys: &mut Vec<Key>,
) -> Result<(), NoMemory>
    ensures { OnOk result (keys.new.items ≡ keys.old.items ++ source_marks forest.now.nodes before after object.now) }
{
    if is_sent(before, object) == is_sent(after, object) {
        return Ok(());
    }
    let names = open_below(alloc, forest, &object.id.ns)?;
    push_others(&names, object, keys)
}

/// Marks the places of an object's kind and name in other namespaces than its own.
fn push_others(names: &[Text], object: &Object, keys: &mut Vec<Key>) -> Result<(), NoMemory>
    ensures { OnOk result (keys.new.items ≡ keys.old.items ++ map (λ m. key_for m object.now) (apart names.now (object.now.id.ns ∷ []))) }
{
    for name in names {
        if name.as_str() != object.id.ns.as_str() {
            keys.push(key_for(name, object)?)?;
        }
    }
    Ok(())
}
