// What a write marks, by the kind of what is written: its own keys first, then reports, then quotas.
ghost use Rattle.std.specs.Prelude.{◌≡◌, ◌++◌, ◌∷◌, [], OnOk, if◌then◌else◌, option_and_then, option_copied};
ghost use Rattle.std.specs.Str.{bytes_eq};
ghost use Rattle.hx_object.specs.WellKnown.{config as config_name};
ghost use Rattle.hx_model.specs.First.{or_else};
ghost use Rattle.hx_model.specs.State.{namespace_id, object_at};
ghost use Rattle.hx_model.specs.Tree.{forest_of, named_parent, parent_with};
ghost use Rattle.hx_model.specs.declared.key.Key.TheVariants as key;
ghost use Rattle.hx_marks.specs.Before.{hierarchy_marks, hierarchy_reports_by, marks_before_by, move_marks_to, namespace_marks_by, namespace_reports_by, place_reports_to};
ghost use Rattle.hx_marks.specs.Moving.{moved_marks_to};
ghost use Rattle.hx_marks.specs.Owners.{TellOwners};
ghost use Rattle.hx_marks.specs.Reads.{state_in};
ghost use Rattle.hx_marks.specs.Law.{anchor_keys, begins_to_end, created_marks, ending_marks, label_marks, leaving_keys, mode_marks, object_marks, removed_marks};
ghost use Rattle.hx_marks.specs.Reports.{anchored_reports, created_reports, ending_reports, removed_reports, report_keys};
ghost use Rattle.hx_marks.specs.Spread.{beside_marks};
ghost use Rattle.hx_marks.specs.Usage.{charged_usage, created_usage, hierarchy_usage, moved_usage, namespace_usage, removed_usage};

use crate::anchors::{anchor_keys, leaving_keys};
use crate::current::Current;
use crate::modes::mode_marks;
use crate::moves::{move_marks, opens_under};
use crate::namespaces::{created_marks, ending_marks, removed_marks};
use crate::objects::object_marks;
use crate::reports::{
    anchored_reports, created_reports, ending_reports, moved_reports, removed_reports, report_key,
};
use crate::usage::{charged_usage, created_usage, moved_usage, push_usage, removed_usage};
use crate::wants::known_of;
use hx_forest::Forest;
use hx_model::{Key, is_same_name, is_terminating, named_parent, parent_by};
use hx_object::well_known::{CONFIG, HIERARCHY};
use hx_object::{Id, Kind, NoMemory, Object, Text};
use hx_state::object_in;

/// Marks what a write can change by itself.
pub(crate) fn marks_by(
    current: &Current,
    owners: &Forest,
    id: &Id,
    old: Option<&Object>,
    new: Option<&Object>,
    keys: &mut Vec<Key>,
) -> Result<(), NoMemory>
    requires owners { TellOwners current.now.store.now.objects owners.now.nodes }
    ensures { OnOk result (keys.new.items ≡ keys.old.items ++ marks_before_by (state_in current.now) id.now (option_copied old.entry) (option_copied new.entry)) }
{
    match id.kind {
        Kind::Namespace => namespace_marks(current, &id.name, old, new, keys),
        Kind::HierarchyConfiguration => hierarchy_marks(current, owners, id, new, keys),
        Kind::SubnamespaceAnchor => anchor_marks(current, id, old, new, keys),
        Kind::HncConfiguration => config_marks(current, id, old, new, keys),
        Kind::HierarchicalResourceQuota => quota_marks(current.forest, id, keys),
        _ => inner_marks(current, id, old, new, keys),
    }
}

/// Marks what a namespace touches that is replaced, begins to leave, goes, or is made.
fn namespace_marks(
    current: &Current,
    name: &Text,
    old: Option<&Object>,
    new: Option<&Object>,
    keys: &mut Vec<Key>,
) -> Result<(), NoMemory>
    ensures { OnOk result (keys.new.items ≡ keys.old.items ++ (namespace_marks_by (state_in current.now) name.now (option_copied old.entry) (option_copied new.entry) ++ (namespace_reports_by (state_in current.now) name.now (option_copied old.entry) (option_copied new.entry) ++ namespace_usage (state_in current.now) name.now (option_copied old.entry) (option_copied new.entry)))) }
{
    match (old, new) {
        (Some(old), Some(new)) => replaced_marks(current, name, old, new, keys),
        (Some(_), None) => gone_marks(current, name, keys),
        (None, Some(new)) => {
            let found = current
                .store
                .find(Kind::HierarchyConfiguration, name.as_str(), HIERARCHY);
            let parent = parent_by(new, object_in(found));
            made_marks(current, name, parent, keys)
        }
        (None, None) => Ok(()),
    }
}

/// Marks what a namespace touches that is replaced: its labels may count, and all its keys rest on its version. One may be on its way out from now on.
fn replaced_marks(
    current: &Current,
    name: &Text,
    old: &Object,
    new: &Object,
    keys: &mut Vec<Key>,
) -> Result<(), NoMemory>
    ensures { OnOk result (keys.new.items ≡ keys.old.items ++ ((if begins_to_end old.now new.now then ending_marks (state_in current.now) name.now else label_marks (state_in current.now) name.now) ++ (if begins_to_end old.now new.now then ending_reports (forest_of (state_in current.now)) name.now else []))) }
{
    if begins_to_end(old, new) {
        ending_marks(current, name, keys)?;
        return ending_reports(current, name, keys);
    }
    known_of(current.store, current.forest, name, keys)
}

/// Whether a namespace that stays is on its way out from now on.
pub(crate) fn begins_to_end(old: &Object, new: &Object) -> bool
    ensures { result ≡ begins_to_end old.now new.now }
{
    is_terminating(new) && !is_terminating(old)
}

/// Marks what a namespace touches that goes.
fn gone_marks(current: &Current, name: &Text, keys: &mut Vec<Key>) -> Result<(), NoMemory>
    ensures { OnOk result (keys.new.items ≡ keys.old.items ++ (removed_marks (state_in current.now) name.now ++ (removed_reports current.now.forest.now.nodes name.now ++ removed_usage (state_in current.now) name.now))) }
{
    removed_marks(current, name, keys)?;
    removed_reports(current.forest, name, keys)?;
    removed_usage(current, name, keys)
}

/// Marks what a namespace touches that is made under a parent.
fn made_marks(
    current: &Current,
    name: &Text,
    parent: Option<&Text>,
    keys: &mut Vec<Key>,
) -> Result<(), NoMemory>
    ensures { OnOk result (keys.new.items ≡ keys.old.items ++ (created_marks (state_in current.now) name.now (option_copied parent.entry) ++ (created_reports (forest_of (state_in current.now)) name.now (option_copied parent.entry) ++ created_usage (state_in current.now) name.now (option_copied parent.entry)))) }
{
    created_marks(current, name, parent, keys)?;
    created_reports(current, name, parent, keys)?;
    created_usage(current, name, parent, keys)
}

/// Marks what a HierarchyConfiguration touches that is written or removed. One of another name gives no parent.
fn hierarchy_marks(
    current: &Current,
    owners: &Forest,
    id: &Id,
    new: Option<&Object>,
    keys: &mut Vec<Key>,
) -> Result<(), NoMemory>
    requires owners { TellOwners current.now.store.now.objects owners.now.nodes }
    ensures { OnOk result (keys.new.items ≡ keys.old.items ++ ((hierarchy_marks (state_in current.now) id.now (option_copied new.entry) ++ leaving_keys (forest_of (state_in current.now)) id.now.ns) ++ (hierarchy_reports_by (state_in current.now) id.now (option_copied new.entry) ++ hierarchy_usage (state_in current.now) id.now (option_copied new.entry)))) }
{
    if id.name.as_str() != HIERARCHY {
        return leaving_keys(current.forest, &id.ns, keys);
    }
    let parent = parent_under(current, owners, &id.ns, new);
    placed_marks(current, &id.ns, parent, keys)
}

/// The parent of a namespace once its HierarchyConfiguration is `new`, or is gone. None where there is no namespace.
///
/// The owners tell it. They have a namespace where the tree has it, so that no name is hashed in both, and no object is read.
fn parent_under<'a>(
    current: &Current,
    owners: &'a Forest,
    name: &Text,
    new: Option<&'a Object>,
) -> Option<&'a Text>
    requires owners { TellOwners current.now.store.now.objects owners.now.nodes }
    ensures { option_copied result ≡ option_and_then (parent_with (option_copied new.entry)) (object_at (state_in current.now).objects (namespace_id name.now)) }
{
    let hint = current.forest.place_of(name);
    match owners.node_near(hint, name) {
        Some(node) => parent_beside(node.parent.as_ref(), new),
        None => None,
    }
}

/// The parent of a namespace whose annotation names `owner`, or none, and whose HierarchyConfiguration this is, or which has none.
fn parent_beside<'a>(owner: Option<&'a Text>, hierarchy: Option<&'a Object>) -> Option<&'a Text>
    ensures { option_copied result ≡ or_else (option_copied owner.entry) (option_and_then named_parent (option_copied hierarchy.entry)) }
{
    match (owner, hierarchy) {
        (Some(owner), _) => Some(owner),
        (None, Some(hierarchy)) => named_parent(hierarchy),
        (None, None) => None,
    }
}

/// Marks what a namespace touches that gets a parent, or keeps the one that it has.
fn placed_marks(
    current: &Current,
    name: &Text,
    parent: Option<&Text>,
    keys: &mut Vec<Key>,
) -> Result<(), NoMemory>
    ensures { OnOk result (keys.new.items ≡ keys.old.items ++ ((move_marks_to (state_in current.now) name.now (option_copied parent.entry) ++ leaving_keys (forest_of (state_in current.now)) name.now) ++ (place_reports_to (state_in current.now) name.now (option_copied parent.entry) ++ moved_usage (state_in current.now) name.now (option_copied parent.entry)))) }
{
    let old = current.forest.parent(name);
    if is_same_name(old, parent) {
        return kept_marks(current, name, keys);
    }
    moved_marks(current, name, old, parent, keys)
}

/// Marks what a namespace touches that keeps its parent.
fn kept_marks(current: &Current, name: &Text, keys: &mut Vec<Key>) -> Result<(), NoMemory>
    ensures { OnOk result (keys.new.items ≡ keys.old.items ++ (leaving_keys (forest_of (state_in current.now)) name.now ++ report_keys (forest_of (state_in current.now)) name.now)) }
{
    leaving_keys(current.forest, name, keys)?;
    report_key(current.forest, name, keys)
}

/// Marks what a namespace touches that gets another parent.
fn moved_marks(
    current: &Current,
    name: &Text,
    old: Option<&Text>,
    new: Option<&Text>,
    keys: &mut Vec<Key>,
) -> Result<(), NoMemory>
    ensures { OnOk result (keys.new.items ≡ keys.old.items ++ moved_marks_to (state_in current.now) name.now (option_copied old.entry) (option_copied new.entry)) }
{
    let before = current.forest.is_open(name);
    let after = opens_under(current.forest, name, new);
    move_marks(current, name, old, new, before, after, keys)?;
    leaving_keys(current.forest, name, keys)?;
    moved_reports(current.forest, name, old, new, before, after, keys)?;
    moved_usage(current, name, new, keys)
}

/// Marks what an anchor touches that is written or removed.
fn anchor_marks(
    current: &Current,
    id: &Id,
    old: Option<&Object>,
    new: Option<&Object>,
    keys: &mut Vec<Key>,
) -> Result<(), NoMemory>
    ensures { OnOk result (keys.new.items ≡ keys.old.items ++ ((anchor_keys id.now ++ leaving_keys (forest_of (state_in current.now)) id.now.ns) ++ (anchored_reports (state_in current.now) id.now (option_copied old.entry) (option_copied new.entry) ++ charged_usage (state_in current.now) id.now.ns (option_copied old.entry) (option_copied new.entry)))) }
{
    anchor_keys(id, keys)?;
    leaving_keys(current.forest, &id.ns, keys)?;
    anchored_reports(current, id, old, new, keys)?;
    charged_usage(current, &id.ns, old, new, keys)
}

/// Marks what an HNCConfiguration touches that is written or removed: modes, where it is the one that counts.
fn config_marks(
    current: &Current,
    id: &Id,
    old: Option<&Object>,
    new: Option<&Object>,
    keys: &mut Vec<Key>,
) -> Result<(), NoMemory>
    ensures { OnOk result (keys.new.items ≡ keys.old.items ++ ((if bytes_eq id.now.name config_name then mode_marks (state_in current.now) (option_copied old.entry) (option_copied new.entry) else (object_marks (state_in current.now) id.now (option_copied old.entry) (option_copied new.entry) ++ leaving_keys (forest_of (state_in current.now)) id.now.ns)) ++ charged_usage (state_in current.now) id.now.ns (option_copied old.entry) (option_copied new.entry))) }
{
    if id.name.as_str() != CONFIG {
        return inner_marks(current, id, old, new, keys);
    }
    mode_marks(current, old, new, keys)?;
    charged_usage(current, &id.ns, old, new, keys)
}

/// Marks what a quota touches that is written or removed: the removal of its namespace, and itself.
fn quota_marks(forest: &Forest, id: &Id, keys: &mut Vec<Key>) -> Result<(), NoMemory>
    ensures { OnOk result (keys.new.items ≡ keys.old.items ++ (leaving_keys forest.now.nodes id.now.ns ++ key.Used id.now.ns id.now.name ∷ [])) }
{
    leaving_keys(forest, &id.ns, keys)?;
    push_usage(id, keys)
}

/// Marks what another object touches: its copies, the removal of its namespace, and the quotas that count it.
fn inner_marks(
    current: &Current,
    id: &Id,
    old: Option<&Object>,
    new: Option<&Object>,
    keys: &mut Vec<Key>,
) -> Result<(), NoMemory>
    ensures { OnOk result (keys.new.items ≡ keys.old.items ++ ((object_marks (state_in current.now) id.now (option_copied old.entry) (option_copied new.entry) ++ leaving_keys (forest_of (state_in current.now)) id.now.ns) ++ charged_usage (state_in current.now) id.now.ns (option_copied old.entry) (option_copied new.entry))) }
{
    object_marks(current, id, old, new, keys)?;
    beside_marks(current, id, old, new, keys)
}

/// Marks what such an object touches besides its copies.
pub(crate) fn beside_marks(
    current: &Current,
    id: &Id,
    old: Option<&Object>,
    new: Option<&Object>,
    keys: &mut Vec<Key>,
) -> Result<(), NoMemory>
    ensures { OnOk result (keys.new.items ≡ keys.old.items ++ beside_marks (state_in current.now) id.now (option_copied old.entry) (option_copied new.entry)) }
{
    leaving_keys(current.forest, &id.ns, keys)?;
    charged_usage(current, &id.ns, old, new, keys)
}
