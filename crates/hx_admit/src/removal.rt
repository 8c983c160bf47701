// What a DELETE changes.
ghost use Rattle.std.specs.Prelude.{◌≡◌, ◌++◌, Some, IfOk, OnOk};
ghost use Rattle.std.specs.List.{flat_map};
ghost use Rattle.hx_model.specs.Answers.{deleting, ended, ending, owns_named};
ghost use Rattle.hx_model.specs.State.{object_at};
ghost use Rattle.hx_model.specs.Valid.{IsValid};
ghost use Rattle.hx_admit.specs.Removing.{ended_at};

use crate::family::is_anchor;
use hx_model::{is_owned_by, is_terminating};
use hx_object::{Id, NoMemory, Object, Payload, Shared, Text};
use hx_state::IndexedState;
use hx_store::Change;

/// What a DELETE of an object that is there changes. A namespace begins to leave, and all that go with it, unless it does already. An anchor goes at once, and its subnamespace begins to leave.
pub(crate) fn removal(
    state: &IndexedState,
    id: &Id,
    old: &Object,
    skip: bool,
) -> Result<Vec<Change>, NoMemory>
    requires valid { IsValid state.now.state }
    requires there { object_at state.now.state.objects id.now ≡ Some old.now }
    ensures { IfOk result (λ writes. writes.items ≡ deleting state.now.state id.now skip) }
{
    let mut writes = Vec::new(state.allocator());
    if id.kind.is_namespace() {
        if !is_terminating(old) {
            push_ending(state, &mut writes, &id.name)?;
        }
        return Ok(writes);
    }
    writes.push(Change::cut(id.clone()?))?;
    if is_anchor(id.kind) && !skip && owns_named(state, id) {
        push_ending(state, &mut writes, &id.name)?;
    }
    Ok(writes)
}

/// Whether the namespace that an anchor asks for is there, and is a subnamespace of the anchor's namespace.
fn owns_named(state: &IndexedState, id: &Id) -> bool
    ensures { result ≡ owns_named state.now.state id.now }
{
    match state.named(&id.name) {
        Some(namespace) => is_owned_by(namespace, &id.ns),
        None => false,
    }
}

/// Adds the writes by which those that go with a namespace begin to leave, in ascending order.
fn push_ending(state: &IndexedState, writes: &mut Vec<Change>, name: &Text) -> Result<(), NoMemory>
    requires { IsValid state.now.state }
    ensures { OnOk result (writes.new.items ≡ writes.old.items ++ ending state.now.state name.now) }
{
    let members = state.owners().below(name)?;
    push_each_ended(state, writes, &members)
}

fn push_each_ended(
    state: &IndexedState,
    writes: &mut Vec<Change>,
    members: &[Text],
) -> Result<(), NoMemory>
    ensures { OnOk result (writes.new.items ≡ writes.old.items ++ flat_map (ended_at state.now.state) members.now) }
{
    for member in members {
        push_ended(state, writes, member)?;
    }
    Ok(())
}

/// Adds the write by which a namespace begins to leave, where it is there and doesn't yet.
fn push_ended(state: &IndexedState, writes: &mut Vec<Change>, member: &Text) -> Result<(), NoMemory>
    ensures { OnOk result (writes.new.items ≡ writes.old.items ++ ended_at state.now.state member.now) }
{
    match state.named(member) {
        Some(namespace) if !is_terminating(namespace) => {
            state.law_of_validity();
            let leaving = ended(namespace, state.version() + 1)?;
            let stored = Shared::new(state.allocator(), leaving)?;
            Ok(writes.push(Change::put(stored)?)?)
        }
        _ => Ok(()),
    }
}

/// A namespace on its way out.
fn ended(namespace: &Object, version: u64) -> Result<Object, NoMemory>
    ensures { IfOk result (λ leaving. leaving ≡ ended version namespace.now) }
{
    Ok(Object {
        id: namespace.id.clone()?,
        labels: namespace.labels.clone()?,
        annotations: namespace.annotations.clone()?,
        payload: Payload::Namespace { terminating: true },
        version,
    })
}
