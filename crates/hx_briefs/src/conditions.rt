// What is told of a namespace beside its children.
ghost use Rattle.std.specs.Prelude.{◌≡◌, ◌++◌, false, IfOk, OnOk, option_copied, option_map};
ghost use Rattle.std.specs.Option.{option_map_or};
ghost use Rattle.hx_model.specs.Propagation.{as_list};
ghost use Rattle.hx_model.specs.Reports.{condition_of, conditions_of, misses_anchor};

use crate::lookups::{anchor, namespace};
use hx_model::{Halt, subnamespace_parent};
use hx_object::{Condition, NoMemory, Object, Shared, Text};
use hx_state::IndexedState;

/// Why a namespace is halted, and that it misses its anchor.
pub(crate) fn conditions_of(state: &IndexedState, ns: &Text) -> Result<Vec<Condition>, NoMemory>
    ensures { IfOk result (λ told. told.items ≡ conditions_of state.now.state ns.now) }
{
    let mut told = Vec::new(state.allocator());
    push_reason(state.forest().halt(ns), &mut told)?;
    if lacks_anchor(state, ns, namespace(state, ns)) {
        told.push(Condition::AnchorMissing)?;
    }
    Ok(told)
}

fn push_reason(reason: Option<Halt>, told: &mut Vec<Condition>) -> Result<(), NoMemory>
    ensures { OnOk result (told.new.items ≡ told.old.items ++ as_list (option_map condition_of reason)) }
{
    if let Some(halt) = reason {
        told.push(condition_of(halt))?;
    }
    Ok(())
}

/// A reason of halting, as it is told.
fn condition_of(halt: Halt) -> Condition
    ensures { result ≡ condition_of halt }
{
    match halt {
        Halt::InCycle => Condition::InCycle,
        Halt::ParentMissing => Condition::ParentMissing,
        Halt::IllegalParent => Condition::IllegalParent,
        Halt::Ancestor => Condition::Ancestor,
    }
}

/// Whether a namespace is found that misses its anchor.
fn lacks_anchor(state: &IndexedState, ns: &Text, found: Option<&Shared>) -> bool
    ensures { result ≡ option_map_or (misses_anchor state.now.state.objects ns.now) (option_copied found.entry) false }
{
    match found {
        Some(shared) => misses_anchor(state, ns, shared.object()),
        None => false,
    }
}

/// Whether the parent of a subnamespace is there and holds no anchor of its name.
fn misses_anchor(state: &IndexedState, ns: &Text, found: &Object) -> bool
    ensures { result ≡ misses_anchor state.now.state.objects ns.now found.now }
{
    match subnamespace_parent(found) {
        Some(parent) => namespace(state, parent).is_some() && anchor(state, parent, ns).is_none(),
        None => false,
    }
}
