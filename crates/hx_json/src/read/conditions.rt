// The conditions that a row's body reports of a namespace.
ghost use Rattle.std.specs.Prelude.{◌≡◌, IfOk};
ghost use Rattle.hx_json.specs.Rows.{condition_in, condition_named, conditions_of, conditions_said};
ghost use Rattle.hx_json.specs.Trees.{said, said_items};

use super::members::{in_status, member, text_in};
use hx_object::{Condition, List, NoMemory};
use json::Value;
use std::alloc::Global;

/// The conditions of a namespace, where the body says some.
pub fn conditions_said(alloc: Global, value: &Value<'_>) -> Result<List<Condition>, NoMemory>
    ensures { IfOk result (λ l. l ≡ conditions_said (said value.now)) }
{
    match in_status(value, "conditions") {
        Some(Value::Array(items)) => conditions_of(alloc, items),
        _ => Ok(List::of(Vec::new(alloc))),
    }
}

/// The conditions that items say. An item with another reason is left out.
fn conditions_of(alloc: Global, items: &[Value<'_>]) -> Result<List<Condition>, NoMemory>
    ensures { IfOk result (λ l. l ≡ conditions_of (said_items items.now)) }
{
    let mut conditions = Vec::new(alloc);
    for item in items {
        match condition_in(item) {
            Some(condition) => conditions.push(condition)?,
            None => {}
        }
    }
    Ok(List::of(conditions))
}

/// The condition that an item says, by its reason alone.
fn condition_in(item: &Value<'_>) -> Option<Condition>
    ensures { result ≡ condition_in (said item.now) }
{
    condition_named(text_in(member(item, "reason"))?)
}

/// The condition whose reason a text is.
fn condition_named(text: &str) -> Option<Condition>
    ensures { result ≡ condition_named text.now }
{
    match text {
        "InCycle" => Some(Condition::InCycle),
        "ParentMissing" => Some(Condition::ParentMissing),
        "IllegalParent" => Some(Condition::IllegalParent),
        "AncestorHaltActivities" => Some(Condition::Ancestor),
        "SubnamespaceAnchorMissing" => Some(Condition::AnchorMissing),
        _ => None,
    }
}
