// What a row's body reports, which a request's body doesn't.
ghost use Rattle.std.specs.Prelude.{◌≡◌, true, IfOk, OnOk};
ghost use Rattle.json.specs.Value.{value_view};
ghost use Rattle.hx_object.specs.Canonical.{IsCanonical};
ghost use Rattle.hx_object.specs.Faults.{IsLegal};
ghost use Rattle.hx_model.specs.Serving.{IsGiven, IsKept};
ghost use Rattle.hx_json.specs.Rows.{anchor_status, children_said, reported, says_terminating, status_named, texts_of, with_status};
ghost use Rattle.hx_json.specs.Trees.{has_sorted_usages, said, said_items};

use super::conditions::conditions_said;
use super::members::{in_status, text_in};
use super::parts::text_or_empty;
use super::usages::usages_said;
use hx_object::{AnchorStatus, List, NoMemory, Object, Payload, Text};
use json::Value;
use std::alloc::Global;

/// The object of a row, by what its body says as a request's, and with what it reports besides.
pub fn with_status(alloc: Global, object: Object, value: &Value<'_>) -> Result<Object, NoMemory>
    requires legal { IsLegal object }
    requires given { IsGiven object }
    requires canonical { IsCanonical (said value.now) }
    requires sorted { has_sorted_usages (value_view value.now) ≡ true }
    ensures object { IfOk result (λ x. x ≡ with_status (said value.now) object) }
    ensures legal { IfOk result (λ x. IsLegal x × IsKept x) }
{
    let mut object = object;
    report(alloc, &mut object.payload, value)?;
    Ok(object)
}

/// Sets what the body reports of a payload.
fn report(alloc: Global, payload: &mut Payload, value: &Value<'_>) -> Result<(), NoMemory>
    requires { has_sorted_usages (value_view value.now) ≡ true }
    ensures { OnOk result (payload.new ≡ reported (said value.now) payload.old) }
{
    match payload {
        Payload::Namespace { terminating } => *terminating = is_terminating(value),
        Payload::Hierarchy {
            children,
            conditions,
            ..
        } => {
            *children = children_said(alloc, value)?;
            *conditions = conditions_said(alloc, value)?;
        }
        Payload::Anchor { status } => *status = anchor_status(value),
        Payload::Quota { status, .. } => *status = usages_said(alloc, value)?,
        _ => {}
    }
    Ok(())
}

/// Whether the phase is that of a namespace on its way out.
fn is_terminating(value: &Value<'_>) -> bool
    ensures { result ≡ says_terminating (said value.now) }
{
    matches!(text_in(in_status(value, "phase")), Some("Terminating"))
}

/// The status of an anchor, where the body says one.
fn anchor_status(value: &Value<'_>) -> Option<AnchorStatus>
    ensures { result ≡ anchor_status (said value.now) }
{
    status_named(text_in(in_status(value, "status"))?)
}

/// The status that a text names.
fn status_named(text: &str) -> Option<AnchorStatus>
    ensures { result ≡ status_named text.now }
{
    match text {
        "Missing" => Some(AnchorStatus::Missing),
        "Ok" => Some(AnchorStatus::Ok),
        "Conflict" => Some(AnchorStatus::Conflict),
        "Forbidden" => Some(AnchorStatus::Forbidden),
        _ => None,
    }
}

/// The children of a namespace, where the body says some.
fn children_said(alloc: Global, value: &Value<'_>) -> Result<List<Text>, NoMemory>
    ensures { IfOk result (λ l. l ≡ children_said (said value.now)) }
{
    match in_status(value, "children") {
        Some(Value::Array(items)) => texts_of(alloc, items),
        _ => Ok(List::of(Vec::new(alloc))),
    }
}

/// The texts that items are. An item that is no text counts as an empty one.
fn texts_of(alloc: Global, items: &[Value<'_>]) -> Result<List<Text>, NoMemory>
    ensures { IfOk result (λ l. l ≡ texts_of (said_items items.now)) }
{
    let mut texts = Vec::new(alloc);
    for item in items {
        texts.push(text_or_empty(alloc, Some(item))?)?;
    }
    Ok(List::of(texts))
}
