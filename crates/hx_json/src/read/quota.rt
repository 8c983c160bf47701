// The limits of quotas.
ghost use Rattle.std.specs.Prelude.{◌≡◌, Some, codes, option_map, true, IfOk, IfSome};
ghost use Rattle.json.specs.Value.{value_view, members_view};
ghost use Rattle.hx_object.specs.Json.{members_in};
ghost use Rattle.hx_json.specs.Inside.{has_quantities};
ghost use Rattle.hx_json.specs.Reading.{are_quantities, in_spec, limit_of, limits_of};
ghost use Rattle.hx_json.specs.Trees.{has_sorted_limits, is_sorted, keeps_order_for, laid_members, laid_out, said};

use super::members::member;
use super::quantity::{amount_in, written_or_empty};
use hx_object::{Kind, Limit, List, NoMemory, Text};
use json::Value;
use std::alloc::Global;

/// The limits of a body, whose names ascend.
fn hard_in<'v, 'a>(value: &'v Value<'a>) -> Option<&'v Value<'a>>
    requires { has_sorted_limits (value_view value.now) ≡ true }
    ensures said { option_map (λ v. said v.now) result ≡ in_spec (codes "hard") (said value.now) }
    ensures sorted { IfSome result (λ v. is_sorted (value_view v.now) ≡ true) }
{
    match member(value, "spec") {
        Some(spec) => member(spec, "hard"),
        None => None,
    }
}

/// Whether each of the limits is a quantity. What is no object has none.
pub fn are_quantities(hard: &Value<'_>) -> bool
    requires { is_sorted (value_view hard.now) ≡ true }
    ensures { result ≡ are_quantities (members_in (Some (said hard.now))) }
{
    match hard {
        Value::Object(members) => have_quantities(members),
        _ => true,
    }
}

/// The same of the members.
#[tactic(auto, using(crate::proofs::Quotas::amount_laid))]
fn have_quantities(members: &[(&str, Value<'_>)]) -> bool
    ensures { result ≡ are_quantities (laid_members (members_view members.now)) }
{
    for (_, member) in members {
        if amount_in(member).is_none() {
            return false;
        }
    }
    true
}

/// Whether each limit of a quota is a quantity.
pub fn has_quantities(value: &Value<'_>, kind: Kind) -> bool
    requires { keeps_order_for kind (value_view value.now) ≡ true }
    ensures { result ≡ has_quantities kind (said value.now) }
{
    match kind {
        Kind::HierarchicalResourceQuota => limits_are_quantities(value),
        _ => true,
    }
}

/// Whether each limit of a body is a quantity.
fn limits_are_quantities(value: &Value<'_>) -> bool
    requires { has_sorted_limits (value_view value.now) ≡ true }
    ensures { result ≡ are_quantities (members_in (in_spec (codes "hard") (said value.now))) }
{
    match hard_in(value) {
        Some(hard) => are_quantities(hard),
        None => true,
    }
}

/// The limits that a body says.
pub fn limits_in(alloc: Global, value: &Value<'_>) -> Result<List<Limit>, NoMemory>
    requires { has_sorted_limits (value_view value.now) ≡ true }
    ensures { IfOk result (λ l. l ≡ limits_of (members_in (in_spec (codes "hard") (said value.now)))) }
{
    match hard_in(value) {
        Some(hard) => limits_at(alloc, hard),
        None => Ok(List::of(Vec::new(alloc))),
    }
}

/// The same of the limits themselves.
fn limits_at(alloc: Global, hard: &Value<'_>) -> Result<List<Limit>, NoMemory>
    requires { is_sorted (value_view hard.now) ≡ true }
    ensures { IfOk result (λ l. l ≡ limits_of (members_in (Some (said hard.now)))) }
{
    match hard {
        Value::Object(members) => limits_of(alloc, members),
        _ => Ok(List::of(Vec::new(alloc))),
    }
}

fn limits_of(alloc: Global, members: &[(&str, Value<'_>)]) -> Result<List<Limit>, NoMemory>
    ensures { IfOk result (λ l. l ≡ limits_of (laid_members (members_view members.now))) }
{
    let mut limits = Vec::with_capacity(alloc, members.len())?;
    for (key, member) in members {
        limits.push(limit_of(alloc, key, member)?)?;
    }
    Ok(List::of(limits))
}

/// A limit, by its name and value.
fn limit_of(alloc: Global, key: &str, value: &Value<'_>) -> Result<Limit, NoMemory>
    ensures { IfOk result (λ limit. limit ≡ limit_of key.now (laid_out (value_view value.now))) }
{
    Ok(Limit {
        resource: Text::of(alloc, key)?,
        written: written_or_empty(alloc, value)?,
        amount: amount_in(value).unwrap_or(0),
    })
}
