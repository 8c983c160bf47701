// What the rules on removals and on anchors look at besides.
ghost use Rattle.std.specs.Prelude.{◌≡◌, ◌&&◌, true, not, option_copied};
ghost use Rattle.std.specs.List.{list_any};
ghost use Rattle.std.specs.Str.{bytes_eq};
ghost use Rattle.hx_model.specs.Answers.{family_of};
ghost use Rattle.hx_model.specs.Cases.{any_of};
ghost use Rattle.hx_model.specs.Limits.{is_anchor};
ghost use Rattle.hx_model.specs.State.{object_at, namespace_id};
ghost use Rattle.hx_model.specs.Subnamespaces.{is_anchored, has_followers, has_children, cascades, allows_cascade};
ghost use Rattle.hx_model.specs.Tree.{forest_of};
ghost use Rattle.hx_admit.specs.Families.{IsFamilyFor, allows_cascade_in};

use crate::case::Family;
use hx_forest::Ancestors;
use hx_model::{allows_cascade, subnamespace_parent};
use hx_object::well_known::HIERARCHY;
use hx_object::{Id, Kind, Object, Text};
use hx_state::{IndexedState, object_in};

/// What a rule looks at of the namespace that has a name, where one does.
pub(crate) fn family_for<'a>(
    state: &'a IndexedState,
    id: &Id,
    new: Option<&Object>,
    skip: bool,
) -> Family<'a>
    ensures { IsFamilyFor state.now.state id.now (option_copied new.entry) skip result }
{
    let removes = new.is_none();
    if id.kind.is_namespace() && removes {
        return removed_family(state, &id.name);
    }
    if is_anchor(id.kind) && !skip {
        return asked_family(state, &id.name, removes);
    }
    unasked_family()
}

/// Where a namespace is removed.
fn removed_family<'a>(state: &'a IndexedState, name: &Text) -> Family<'a>
    ensures anchored { result.anchored ≡ (family_of state.now.state name.now).anchored }
    ensures followers { (result.has_followers && not result.cascades) ≡ (has_followers state.now.state name.now && not (cascades state.now.state name.now)) }
{
    let has_followers = has_followers(state, name);
    Family {
        named: None,
        anchored: is_any_anchored(state, state.named(name)),
        has_children: false,
        has_followers,
        cascades: has_followers && cascades(state, name),
    }
}

/// Where an anchor is written or removed.
fn asked_family<'a>(state: &'a IndexedState, name: &Text, removes: bool) -> Family<'a>
    ensures named { option_copied result.named ≡ object_at state.now.state.objects (namespace_id name.now) }
    ensures children { removes ≡ true → (result.has_children && not result.cascades) ≡ (has_children (forest_of state.now.state) name.now && not (cascades state.now.state name.now)) }
{
    let has_children = removes && has_children(state, name);
    Family {
        named: state.named(name),
        anchored: false,
        has_children,
        has_followers: false,
        cascades: has_children && cascades(state, name),
    }
}

/// Whether there is a namespace, and the parent that its annotation names holds an anchor of its name.
fn is_any_anchored(state: &IndexedState, namespace: Option<&Object>) -> bool
    ensures { result ≡ any_of (is_anchored state.now.state.objects) (option_copied namespace.entry) }
{
    match namespace {
        Some(namespace) => is_anchored(state, namespace),
        None => false,
    }
}

fn is_anchored(state: &IndexedState, namespace: &Object) -> bool
    ensures { result ≡ is_anchored state.now.state.objects namespace.now }
{
    match subnamespace_parent(namespace) {
        Some(parent) => {
            let name = namespace.id.name.as_str();
            let anchor = state
                .store()
                .find(Kind::SubnamespaceAnchor, parent.as_str(), name);
            anchor.is_some()
        }
        None => false,
    }
}

/// Whether some namespace names this one as its parent.
fn has_children(state: &IndexedState, name: &Text) -> bool
    ensures { result ≡ has_children (forest_of state.now.state) name.now }
{
    !state.forest().children(name).is_empty()
}

/// Whether others go with a namespace: some other one has an annotation that names it.
fn has_followers(state: &IndexedState, name: &Text) -> bool
    ensures { result ≡ has_followers state.now.state name.now }
{
    state.owners().node(name).is_some() && has_other(state.owners().children(name), name)
}

/// Whether a member of the chain of a namespace allows cascading deletion.
fn cascades(state: &IndexedState, name: &Text) -> bool
    ensures { result ≡ cascades state.now.state name.now }
{
    any_allows(state, state.forest().ancestors(name))
}

/// Whether one of some namespaces allows cascading deletion.
fn any_allows(state: &IndexedState, members: Ancestors) -> bool
    ensures { result ≡ list_any (allows_cascade_in state.now.state.objects) members.entry }
{
    for member in members {
        if allows_cascade_in(state, member) {
            return true;
        }
    }
    false
}

/// Whether the HierarchyConfiguration of a namespace allows cascading deletion.
fn allows_cascade_in(state: &IndexedState, name: &Text) -> bool
    ensures { result ≡ allows_cascade_in state.now.state.objects name.now }
{
    let found = state
        .store()
        .find(Kind::HierarchyConfiguration, name.as_str(), HIERARCHY);
    match object_in(found) {
        Some(hierarchy) => allows_cascade(&hierarchy.payload),
        None => false,
    }
}

/// Where no rule asks.
pub(crate) fn unasked_family<'a>() -> Family<'a> {
    Family {
        named: None,
        anchored: false,
        has_children: false,
        has_followers: false,
        cascades: false,
    }
}

pub(crate) fn is_anchor(kind: Kind) -> bool
    ensures { result ≡ is_anchor kind }
{
    matches!(kind, Kind::SubnamespaceAnchor)
}

/// Whether some name is another one.
fn has_other(names: &[Text], name: &Text) -> bool
    ensures { result ≡ list_any (λ n. not (bytes_eq n name.now)) names.now }
{
    names.iter().any(|other| other.as_str() != name.as_str())
}
