// Objects of kinds that can be copied are written or removed.
ghost use Rattle.std.specs.Prelude.{◌≡◌, ◌++◌, ◌∷◌, [], false, OnOk, map, option_copied};
ghost use Rattle.std.specs.Option.{option_map_or};
ghost use Rattle.hx_model.specs.declared.key.Key.TheVariants as key;
ghost use Rattle.hx_marks.specs.Reads.{state_in};
ghost use Rattle.hx_marks.specs.Law.{is_any_sent, is_sent, object_marks, place_marks};

use crate::below::open_below;
use crate::current::Current;
use crate::lookups::is_ignored;
use hx_forest::Forest;
use hx_model::Key;
use hx_object::{Id, Mode, NoMemory, Object, Text};
use hx_reconcile::is_sent;
use hx_state::mode_at;
use std::alloc::Global;

/// Marks the place of an object, and those below it where it is sent, before or after the write. Where its kind is ignored, none.
pub(crate) fn object_marks(
    current: &Current,
    id: &Id,
    old: Option<&Object>,
    new: Option<&Object>,
    keys: &mut Vec<Key>,
) -> Result<(), NoMemory>
    ensures { OnOk result (keys.new.items ≡ keys.old.items ++ object_marks (state_in current.now) id.now (option_copied old.entry) (option_copied new.entry)) }
{
    if !id.kind.can_be_copied() {
        return Ok(());
    }
    let mode = mode_at(current.store, id.kind);
    if is_ignored(mode) {
        return Ok(());
    }
    let is_sent = is_any_sent(mode, old, new);
    place_marks(current.store.allocator(), current.forest, is_sent, id, keys)
}

/// Whether an object is sent before or after a write.
pub(crate) fn is_any_sent(mode: Mode, old: Option<&Object>, new: Option<&Object>) -> bool
    ensures { result ≡ is_any_sent mode (option_copied old.entry) (option_copied new.entry) }
{
    is_one_sent(mode, old) || is_one_sent(mode, new)
}

fn is_one_sent(mode: Mode, object: Option<&Object>) -> bool
    ensures { result ≡ option_map_or (is_sent mode) (option_copied object.entry) false }
{
    match object {
        Some(object) => is_sent(mode, object),
        None => false,
    }
}

/// Marks the place itself, and those below it where the object is sent.
fn place_marks(
    alloc: Global,
    forest: &Forest,
    is_sent: bool,
    id: &Id,
    keys: &mut Vec<Key>,
) -> Result<(), NoMemory>
    ensures { OnOk result (keys.new.items ≡ keys.old.items ++ place_marks forest.now.nodes is_sent id.now) }
{
    if is_sent {
        let names = open_below(alloc, forest, &id.ns)?;
        return push_places(&names, id, keys);
    }
    if forest.is_open(&id.ns) {
        push_place(&id.ns, id, keys)?;
    }
    Ok(())
}

/// Marks the place of an object's kind and name in a namespace.
fn push_place(name: &Text, id: &Id, keys: &mut Vec<Key>) -> Result<(), NoMemory>
    ensures { OnOk result (keys.new.items ≡ keys.old.items ++ key.Copy name.now id.now.kind id.now.name ∷ []) }
{
    keys.push(Key::Copy {
        ns: name.clone()?,
        kind: id.kind,
        name: id.name.clone()?,
    })?;
    Ok(())
}

/// Marks the places of an object's kind and name in some namespaces.
fn push_places(names: &[Text], id: &Id, keys: &mut Vec<Key>) -> Result<(), NoMemory>
    ensures { OnOk result (keys.new.items ≡ keys.old.items ++ map (λ m. key.Copy m id.now.kind id.now.name) names.now) }
{
    for name in names {
        push_place(name, id, keys)?;
    }
    Ok(())
}
