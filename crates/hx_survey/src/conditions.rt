// What is told of a namespace beside its children.
ghost use Rattle.std.specs.Prelude.{◌≡◌, ◌++◌, false, IfOk, OnOk, option_map};
ghost use Rattle.std.specs.Option.{option_map_or};
ghost use Rattle.hx_model.specs.Propagation.{as_list};
ghost use Rattle.hx_model.specs.Reports.{condition_of, conditions_in, misses_anchor};
ghost use Rattle.hx_model.specs.State.{namespace_id, object_at};
ghost use Rattle.hx_survey.specs.Surveyed.{tree_of};

use crate::Survey;
use crate::reading::object_of;
use hx_model::{Halt, subnamespace_parent};
use hx_object::{Condition, Kind, NoMemory, Object, Text};

/// Why a namespace is halted, and that it misses its anchor.
pub(crate) fn conditions_of(survey: &Survey, ns: &Text) -> Result<Vec<Condition>, NoMemory>
    ensures { IfOk result (λ told. told.items ≡ conditions_in survey.now.objects (tree_of survey.now) ns.now) }
{
    let mut told = Vec::new(survey.allocator());
    push_reason(survey.halt(ns), &mut told)?;
    if lacks_anchor(survey, ns) {
        told.push(Condition::AnchorMissing)?;
    }
    Ok(told)
}

fn push_reason(reason: Option<Halt>, told: &mut Vec<Condition>) -> Result<(), NoMemory>
    ensures { OnOk result (told.new.items ≡ told.old.items ++ as_list (option_map condition_of reason)) }
{
    if let Some(halt) = reason {
        told.push(condition_of(halt))?;
    }
    Ok(())
}

/// A reason of halting, as it is told.
fn condition_of(halt: Halt) -> Condition
    ensures { result ≡ condition_of halt }
{
    match halt {
        Halt::InCycle => Condition::InCycle,
        Halt::ParentMissing => Condition::ParentMissing,
        Halt::IllegalParent => Condition::IllegalParent,
        Halt::Ancestor => Condition::Ancestor,
    }
}

/// Whether a namespace is there that misses its anchor.
fn lacks_anchor(survey: &Survey, ns: &Text) -> bool
    ensures { result ≡ option_map_or (misses_anchor survey.now.objects ns.now) (object_at survey.now.objects (namespace_id ns.now)) false }
{
    match object_of(survey.find(Kind::Namespace, "", ns.as_str())) {
        Some(namespace) => misses_anchor(survey, ns, namespace),
        None => false,
    }
}

/// Whether the parent of a subnamespace is there and holds no anchor of its name.
fn misses_anchor(survey: &Survey, ns: &Text, namespace: &Object) -> bool
    ensures { result ≡ misses_anchor survey.now.objects ns.now namespace.now }
{
    match subnamespace_parent(namespace) {
        Some(parent) => {
            let parent = parent.as_str();
            let is_there = survey.find(Kind::Namespace, "", parent).is_some();
            let anchor = survey.find(Kind::SubnamespaceAnchor, parent, ns.as_str());
            is_there && anchor.is_none()
        }
        None => false,
    }
}
