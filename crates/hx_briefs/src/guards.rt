// What the writes of keys rest on.
ghost use Rattle.std.specs.Prelude.{◌≡◌, IfOk, option_copied};
ghost use Rattle.hx_model.specs.Propagation.{id_in};
ghost use Rattle.hx_model.specs.State.{namespace_id};
ghost use Rattle.hx_model.specs.Tree.{hierarchy_id};
ghost use Rattle.hx_model.specs.Wanted.{guard_at, guards_of, purge_guards};
ghost use Rattle.hx_briefs.specs.Briefing.{id_found};

use hx_model::{Guard, Key};
use hx_object::well_known::HIERARCHY;
use hx_object::{Id, Kind, List, NoMemory, Shared, Text};
use hx_state::IndexedState;

/// What the write of a key rests on.
pub(crate) fn guards_of(state: &IndexedState, key: &Key) -> Result<List<Guard>, NoMemory>
    ensures { IfOk result (λ guards. guards ≡ guards_of state.now.state key.now) }
{
    let mut guards = Vec::new(state.allocator());
    match key {
        Key::Copy { ns, kind, name } => {
            guards.push(inner_guard(state, *kind, ns, name)?)?;
            guards.push(namespace_guard(state, ns)?)?;
        }
        Key::Tree { ns } => guards.push(namespace_guard(state, ns)?)?,
        Key::Report { ns } => {
            guards.push(report_guard(state, ns)?)?;
            guards.push(namespace_guard(state, ns)?)?;
        }
        Key::Child { ns, name } => {
            guards.push(inner_guard(state, Kind::SubnamespaceAnchor, ns, name)?)?;
            guards.push(namespace_guard(state, ns)?)?;
            guards.push(namespace_guard(state, name)?)?;
        }
        Key::Anchor { ns, name } => {
            guards.push(inner_guard(state, Kind::SubnamespaceAnchor, ns, name)?)?;
            guards.push(namespace_guard(state, ns)?)?;
        }
        Key::Used { ns, name } => {
            guards.push(inner_guard(state, Kind::HierarchicalResourceQuota, ns, name)?)?;
            guards.push(namespace_guard(state, ns)?)?;
        }
        Key::Purge { ns } => return purge_guards(state, state.store().least(ns), ns),
    }
    Ok(List::of(guards))
}

/// What the removal of a namespace rests on: the first object that lies in it, where one does, and the namespace.
pub(crate) fn purge_guards(
    state: &IndexedState,
    least: Option<&Shared>,
    ns: &Text,
) -> Result<List<Guard>, NoMemory>
    ensures { IfOk result (λ guards. guards ≡ purge_guards state.now.state (id_found (option_copied least.entry)) ns.now) }
{
    let mut guards = Vec::new(state.allocator());
    if let Some(object) = least {
        guards.push(guard_at(state, object.object().id.clone()?))?;
    }
    guards.push(namespace_guard(state, ns)?)?;
    Ok(List::of(guards))
}

/// A guard of an object that lies in a namespace.
fn inner_guard(state: &IndexedState, kind: Kind, ns: &Text, name: &Text) -> Result<Guard, NoMemory>
    ensures { IfOk result (λ guard. guard ≡ guard_at state.now.state (id_in kind name.now ns.now)) }
{
    let id = Id {
        kind,
        ns: ns.clone()?,
        name: name.clone()?,
    };
    Ok(guard_at(state, id))
}

/// A guard of the HierarchyConfiguration that tells of a namespace.
fn report_guard(state: &IndexedState, ns: &Text) -> Result<Guard, NoMemory>
    ensures { IfOk result (λ guard. guard ≡ guard_at state.now.state (hierarchy_id ns.now)) }
{
    let name = Text::of(state.allocator(), HIERARCHY)?;
    inner_guard(state, Kind::HierarchyConfiguration, ns, &name)
}

/// A guard of a namespace.
fn namespace_guard(state: &IndexedState, name: &Text) -> Result<Guard, NoMemory>
    ensures { IfOk result (λ guard. guard ≡ guard_at state.now.state (namespace_id name.now)) }
{
    let id = Id {
        kind: Kind::Namespace,
        ns: Text::of(state.allocator(), "")?,
        name: name.clone()?,
    };
    Ok(guard_at(state, id))
}

/// A guard of an identity, by what is found there.
fn guard_at(state: &IndexedState, id: Id) -> Guard
    ensures { result ≡ guard_at state.now.state id }
{
    let version = match state.object(&id) {
        Some(object) => Some(object.version),
        None => None,
    };
    Guard { id, version }
}
