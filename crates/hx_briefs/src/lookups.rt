// What is looked up in a state.
ghost use Rattle.std.specs.Prelude.{◌≡◌, IfOk, option_copied};
ghost use Rattle.hx_model.specs.Modes.{mode_of};
ghost use Rattle.hx_model.specs.Propagation.{id_in};
ghost use Rattle.hx_model.specs.State.{object_at, namespace_id};
ghost use Rattle.hx_model.specs.Subnamespaces.{anchor_id};
ghost use Rattle.hx_model.specs.Tree.{hierarchy_id};
ghost use Rattle.hx_model.specs.Wanted.{quota_id};

use hx_model::mode_in;
use hx_object::well_known::{CONFIG, HIERARCHY};
use hx_object::{Kind, Mode, NoMemory, Shared, Text};
use hx_state::IndexedState;

/// The namespace of a name.
pub(crate) fn namespace<'a>(state: &'a IndexedState, name: &Text) -> Option<&'a Shared>
    ensures { option_copied result ≡ object_at state.now.state.objects (namespace_id name.now) }
{
    state.store().find(Kind::Namespace, "", name.as_str())
}

/// The HierarchyConfiguration of a namespace.
pub(crate) fn hierarchy<'a>(state: &'a IndexedState, ns: &Text) -> Option<&'a Shared>
    ensures { option_copied result ≡ object_at state.now.state.objects (hierarchy_id ns.now) }
{
    state
        .store()
        .find(Kind::HierarchyConfiguration, ns.as_str(), HIERARCHY)
}

/// The anchor by which a namespace asks for a subnamespace.
pub(crate) fn anchor<'a>(state: &'a IndexedState, ns: &Text, name: &Text) -> Option<&'a Shared>
    ensures { option_copied result ≡ object_at state.now.state.objects (anchor_id ns.now name.now) }
{
    state
        .store()
        .find(Kind::SubnamespaceAnchor, ns.as_str(), name.as_str())
}

/// The quota of a name in a namespace.
pub(crate) fn quota<'a>(state: &'a IndexedState, ns: &Text, name: &Text) -> Option<&'a Shared>
    ensures { option_copied result ≡ object_at state.now.state.objects (quota_id ns.now name.now) }
{
    state.store().find(Kind::HierarchicalResourceQuota, ns.as_str(), name.as_str())
}

/// The object of a kind and a name that lies in a namespace.
pub(crate) fn inner<'a>(
    state: &'a IndexedState,
    kind: Kind,
    ns: &Text,
    name: &Text,
) -> Option<&'a Shared>
    ensures { option_copied result ≡ object_at state.now.state.objects (id_in kind name.now ns.now) }
{
    state.store().find(kind, ns.as_str(), name.as_str())
}

/// The mode of a kind, by the HNCConfiguration that is stored.
pub(crate) fn mode_of(state: &IndexedState, kind: Kind) -> Mode
    ensures { result ≡ mode_of state.now.state kind }
{
    match state.store().find(Kind::HncConfiguration, "", CONFIG) {
        Some(config) => mode_in(Some(config.object()), kind),
        None => mode_in(None, kind),
    }
}

/// One more owner of what is found.
pub(crate) fn share(found: Option<&Shared>) -> Result<Option<Shared>, NoMemory>
    ensures { IfOk result (λ shared. shared ≡ option_copied found.entry) }
{
    match found {
        Some(object) => Ok(Some(object.share()?)),
        None => Ok(None),
    }
}
