// The reports that a write changes.
ghost use Rattle.std.specs.Prelude.{◌≡◌, ◌++◌, ◌∷◌, [], OnOk, is_some, option_copied};
ghost use Rattle.hx_model.specs.Answers.{owns_named};
ghost use Rattle.hx_model.specs.Forest.{children_of};
ghost use Rattle.hx_model.specs.Propagation.{as_list};
ghost use Rattle.hx_model.specs.Tree.{forest_of};
ghost use Rattle.hx_model.specs.declared.key.Key.TheVariants as key;
ghost use Rattle.hx_marks.specs.Reads.{state_in};
ghost use Rattle.hx_marks.specs.Reports.{anchored_reports, created_reports, ending_reports, moved_reports, removed_reports, report_keys, reports_of, ring_reports};

use crate::below::{live_below, open_below, push_below};
use crate::current::Current;
use crate::moves::comes_back_by;
use hx_forest::Forest;
use hx_model::{Key, is_owned_by};
use hx_object::{Id, Kind, NoMemory, Object, Text};

/// Marks the reports of a namespace that is on its way out from now on, of its children, and of what took part below it.
pub(crate) fn ending_reports(
    current: &Current,
    name: &Text,
    keys: &mut Vec<Key>,
) -> Result<(), NoMemory>
    ensures { OnOk result (keys.new.items ≡ keys.old.items ++ ending_reports current.now.forest.now.nodes name.now) }
{
    let members = open_below(current.store.allocator(), current.forest, name)?;
    report_key(current.forest, name, keys)?;
    reports_of(current.forest, current.forest.children(name), keys)?;
    reports_of(current.forest, &members, keys)
}

/// Marks the reports of a namespace and of its children.
pub(crate) fn near_reports(
    forest: &Forest,
    name: &Text,
    keys: &mut Vec<Key>,
) -> Result<(), NoMemory>
    ensures { OnOk result (keys.new.items ≡ keys.old.items ++ (report_keys forest.now.nodes name.now ++ reports_of forest.now.nodes (children_of forest.now.nodes name.now))) }
{
    report_key(forest, name, keys)?;
    reports_of(forest, forest.children(name), keys)
}

/// Marks the reports of the parent and of the children of a namespace that goes, and of the ring that it was in.
pub(crate) fn removed_reports(
    forest: &Forest,
    name: &Text,
    keys: &mut Vec<Key>,
) -> Result<(), NoMemory>
    ensures { OnOk result (keys.new.items ≡ keys.old.items ++ removed_reports forest.now.nodes name.now) }
{
    let parent = forest.parent(name);
    parent_report(forest, parent, keys)?;
    reports_of(forest, forest.children(name), keys)?;
    if comes_back_by(forest, name, parent) {
        let ring = forest.chain(name)?;
        reports_of(forest, &ring, keys)?;
    }
    Ok(())
}

/// Marks the reports of a namespace that is made under a parent, of the parent, and of all that waited for it below.
pub(crate) fn created_reports(
    current: &Current,
    name: &Text,
    parent: Option<&Text>,
    keys: &mut Vec<Key>,
) -> Result<(), NoMemory>
    ensures { OnOk result (keys.new.items ≡ keys.old.items ++ created_reports (forest_of (state_in current.now)) name.now (option_copied parent.entry)) }
{
    let mut members = Vec::new(current.store.allocator());
    push_below(&mut members, current.forest, current.forest.children(name))?;
    if parent.is_some() || !current.forest.children(name).is_empty() {
        push_report(name, keys)?;
    }
    parent_report(current.forest, parent, keys)?;
    reports_of(current.forest, &members, keys)
}

/// Marks the reports of a namespace that moves, of both parents, of the rings that open and close, and of what begins or ends to take part with it. The namespace takes part before it moves, or after it.
pub(crate) fn moved_reports(
    forest: &Forest,
    name: &Text,
    old: Option<&Text>,
    new: Option<&Text>,
    before: bool,
    after: bool,
    keys: &mut Vec<Key>,
) -> Result<(), NoMemory>
    ensures { OnOk result (keys.new.items ≡ keys.old.items ++ moved_reports forest.now.nodes name.now (option_copied old.entry) (option_copied new.entry) before after) }
{
    report_key(forest, name, keys)?;
    parent_report(forest, old, keys)?;
    parent_report(forest, new, keys)?;
    ring_reports(forest, name, old, keys)?;
    ring_reports(forest, name, new, keys)?;
    if before != after {
        let members = live_below(forest, name)?;
        reports_of(forest, &members, keys)?;
    }
    Ok(())
}

/// Marks the reports of the ring that a namespace is in under a parent.
fn ring_reports(
    forest: &Forest,
    name: &Text,
    parent: Option<&Text>,
    keys: &mut Vec<Key>,
) -> Result<(), NoMemory>
    ensures { OnOk result (keys.new.items ≡ keys.old.items ++ ring_reports forest.now.nodes name.now (option_copied parent.entry)) }
{
    if comes_back_by(forest, name, parent) {
        let ring = forest.chain_from(parent)?;
        reports_of(forest, &ring, keys)?;
    }
    Ok(())
}

/// Marks the report of the namespace that an anchor asks for, where the anchor is made or removed and the namespace is its own.
pub(crate) fn anchored_reports(
    current: &Current,
    id: &Id,
    old: Option<&Object>,
    new: Option<&Object>,
    keys: &mut Vec<Key>,
) -> Result<(), NoMemory>
    ensures { OnOk result (keys.new.items ≡ keys.old.items ++ anchored_reports (state_in current.now) id.now (option_copied old.entry) (option_copied new.entry)) }
{
    if old.is_some() != new.is_some() && owns_named(current, id) {
        report_key(current.forest, &id.name, keys)?;
    }
    Ok(())
}

/// Whether the annotation of the namespace that an anchor asks for names the anchor's own.
fn owns_named(current: &Current, id: &Id) -> bool
    ensures { result ≡ owns_named (state_in current.now) id.now }
{
    match current.store.find(Kind::Namespace, "", id.name.as_str()) {
        Some(found) => is_owned_by(found.object(), &id.ns),
        None => false,
    }
}

/// Marks the report of a parent, where there is one.
fn parent_report(
    forest: &Forest,
    parent: Option<&Text>,
    keys: &mut Vec<Key>,
) -> Result<(), NoMemory>
    ensures { OnOk result (keys.new.items ≡ keys.old.items ++ reports_of forest.now.nodes (as_list (option_copied parent.entry))) }
{
    match parent {
        Some(parent) => report_key(forest, parent, keys),
        None => Ok(()),
    }
}

/// Marks the reports of some namespaces.
fn reports_of(forest: &Forest, names: &[Text], keys: &mut Vec<Key>) -> Result<(), NoMemory>
    ensures { OnOk result (keys.new.items ≡ keys.old.items ++ reports_of forest.now.nodes names.now) }
{
    for name in names {
        report_key(forest, name, keys)?;
    }
    Ok(())
}

/// Marks the report of a namespace that is there, included and not on its way out.
pub(crate) fn report_key(forest: &Forest, name: &Text, keys: &mut Vec<Key>) -> Result<(), NoMemory>
    ensures { OnOk result (keys.new.items ≡ keys.old.items ++ report_keys forest.now.nodes name.now) }
{
    if forest.is_eligible(name) {
        push_report(name, keys)?;
    }
    Ok(())
}

fn push_report(name: &Text, keys: &mut Vec<Key>) -> Result<(), NoMemory>
    ensures { OnOk result (keys.new.items ≡ keys.old.items ++ key.Report name.now ∷ []) }
{
    keys.push(Key::Report { ns: name.clone()? })?;
    Ok(())
}
