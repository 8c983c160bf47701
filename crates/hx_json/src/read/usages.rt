// What a row's body reports of a quota.
ghost use Rattle.std.specs.Prelude.{◌≡◌, Some, codes, option_and_then, option_map, true, IfOk, IfSome};
ghost use Rattle.json.specs.Value.{value_view, members_view};
ghost use Rattle.hx_object.specs.Json.{members_in};
ghost use Rattle.hx_object.specs.Values.{counted_member, in_status};
ghost use Rattle.hx_json.specs.Rows.{amount_said, limit_said, usage_of, usages_of, usages_said};
ghost use Rattle.hx_json.specs.Trees.{has_sorted_usages, is_sorted, laid_members, laid_out, said};

use super::members::{in_status, member, text_in};
use hx_object::{List, NoMemory, Text, Usage};
use hx_quantity::read_printed;
use json::Value;
use std::alloc::Global;

/// The usages of a quota, where the body says some.
pub fn usages_said(alloc: Global, value: &Value<'_>) -> Result<List<Usage>, NoMemory>
    requires { has_sorted_usages (value_view value.now) ≡ true }
    ensures { IfOk result (λ l. l ≡ usages_said (said value.now)) }
{
    match hard_in(value) {
        Some(hard) => usages_at(alloc, in_status(value, "used"), hard),
        None => Ok(List::of(Vec::new(alloc))),
    }
}

/// The limits that a body reports, whose names ascend.
fn hard_in<'v, 'a>(value: &'v Value<'a>) -> Option<&'v Value<'a>>
    requires { has_sorted_usages (value_view value.now) ≡ true }
    ensures said { option_map (λ v. said v.now) result ≡ in_status (codes "hard") (said value.now) }
    ensures sorted { IfSome result (λ v. is_sorted (value_view v.now) ≡ true) }
{
    match member(value, "status") {
        Some(status) => member(status, "hard"),
        None => None,
    }
}

/// The usages of the limits themselves.
fn usages_at(
    alloc: Global,
    used: Option<&Value<'_>>,
    hard: &Value<'_>,
) -> Result<List<Usage>, NoMemory>
    requires { is_sorted (value_view hard.now) ≡ true }
    ensures { IfOk result (λ l. l ≡ usages_of (option_map (λ v. said v.now) used.entry) (members_in (Some (said hard.now)))) }
{
    match hard {
        Value::Object(members) => usages_of(alloc, used, members),
        _ => Ok(List::of(Vec::new(alloc))),
    }
}

fn usages_of(
    alloc: Global,
    used: Option<&Value<'_>>,
    members: &[(&str, Value<'_>)],
) -> Result<List<Usage>, NoMemory>
    ensures { IfOk result (λ l. l ≡ usages_of (option_map (λ v. said v.now) used.entry) (laid_members (members_view members.now))) }
{
    let mut usages = Vec::with_capacity(alloc, members.len())?;
    for (name, hard) in members {
        usages.push(usage_of(alloc, used, name, hard)?)?;
    }
    Ok(List::of(usages))
}

/// What is reported of a resource, by its name and its limit.
fn usage_of(
    alloc: Global,
    used: Option<&Value<'_>>,
    name: &str,
    hard: &Value<'_>,
) -> Result<Usage, NoMemory>
    ensures { IfOk result (λ usage. usage ≡ usage_of (option_map (λ v. said v.now) used.entry) name.now (laid_out (value_view hard.now))) }
{
    Ok(Usage {
        resource: Text::of(alloc, name)?,
        hard: limit_said(hard),
        used: amount_said(used_of(used, name)),
    })
}

/// What is used of a resource.
fn used_of<'v, 'a>(used: Option<&'v Value<'a>>, name: &str) -> Option<&'v Value<'a>>
    ensures { option_map (λ v. said v.now) result ≡ option_and_then (counted_member name.now) (option_map (λ v. said v.now) used.entry) }
{
    match used {
        Some(used) => member(used, name),
        None => None,
    }
}

/// The amount of a limit, which 64 bits hold, or 0.
fn limit_said(hard: &Value<'_>) -> u64
    ensures { result ≡ limit_said (said hard.now) }
{
    match u64::try_from(amount_said(Some(hard))) {
        Ok(amount) => amount,
        Err(_) => 0,
    }
}

/// The amount that a member says, or 0.
fn amount_said(found: Option<&Value<'_>>) -> u128
    ensures { result ≡ amount_said (option_map (λ v. said v.now) found.entry) }
{
    match text_in(found) {
        Some(text) => read_printed(text).unwrap_or(0),
        None => 0,
    }
}
