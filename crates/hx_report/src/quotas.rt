// What is told of quotas.
ghost use Rattle.std.specs.Prelude.{◌≡◌, ◌++◌, ◌∷◌, [], IfOk, OnOk, string_bytes};
ghost use Rattle.hx_object.specs.Quantities.{quantity_text};
ghost use Rattle.hx_survey.specs.Surveyed.{tree_of};
ghost use Rattle.hx_report.specs.Sums.{limit_line, quota_lines, quota_text, used_by_name};
ghost use Rattle.hx_report.specs.Words.{line_text, spaced};

use crate::words::{push, push_spaced};
use hx_charge::hard_of;
use hx_model::Resource;
use hx_object::{Id, Kind, Limit, NoMemory, Object, Text};
use hx_quantity::print;
use hx_survey::Survey;

/// A line for each limit of each HierarchicalResourceQuota: the namespace, the quota, the resource, what the subtree of the namespace uses of it, and the limit, both as quantities.
///
/// A resource that isn't counted is used 0 of. The survey is to be one [`with_sums`](Survey::with_sums): of any other each subtree is summed anew.
#[tactic(auto, unfolding(crate::specs::Sums::quota_text))]
pub fn quota(survey: &Survey) -> Result<String, NoMemory>
    ensures { IfOk result (λ text. string_bytes text ≡ quota_text survey.now.excluded survey.now.objects) }
{
    let mut out = String::new(survey.allocator());
    let quotas = survey.of_kind(Kind::HierarchicalResourceQuota);
    for quota in quotas {
        push_quota(&mut out, survey, quota.object())?;
    }
    Ok(out)
}

/// Appends the lines of a quota.
fn push_quota(out: &mut String, survey: &Survey, quota: &Object) -> Result<(), NoMemory>
    ensures { OnOk result (string_bytes out.new ≡ string_bytes out.old ++ quota_lines survey.now.objects (tree_of survey.now) quota.now) }
{
    let limits = hard_of(&quota.payload);
    for limit in limits {
        push_limit(out, survey, quota, limit)?;
    }
    Ok(())
}

/// Appends the line of a limit.
fn push_limit(
    out: &mut String,
    survey: &Survey,
    quota: &Object,
    limit: &Limit,
) -> Result<(), NoMemory>
    ensures { OnOk result (string_bytes out.new ≡ string_bytes out.old ++ limit_line survey.now.objects (tree_of survey.now) quota.now limit.now) }
{
    let used = used_by_name(survey, &quota.id.ns, &limit.resource)?;
    push_usage(out, &quota.id, limit, used)
}

/// Appends the line of a limit of which so much is used.
fn push_usage(out: &mut String, quota: &Id, limit: &Limit, used: u128) -> Result<(), NoMemory>
    ensures { OnOk result (string_bytes out.new ≡ string_bytes out.old ++ line_text (quota.now.ns ∷ quota.now.name ∷ limit.now.resource ∷ quantity_text used ∷ quantity_text limit.now.amount ∷ [])) }
{
    push(out, quota.ns.as_str())?;
    push_spaced(out, quota.name.as_str())?;
    push_spaced(out, limit.resource.as_str())?;
    push_amount(out, used)?;
    push_amount(out, u128::from(limit.amount))?;
    push(out, "\n")
}

/// Appends a space and an amount.
fn push_amount(out: &mut String, amount: u128) -> Result<(), NoMemory>
    ensures { OnOk result (string_bytes out.new ≡ string_bytes out.old ++ spaced (quantity_text amount)) }
{
    let text = print(*out.allocator(), amount)?;
    push_spaced(out, text.as_str())
}

/// What is used of the resource that a name in `spec.hard` stands for.
#[tactic(auto, unfolding(crate::specs::Sums::used_below, hx_survey::specs::Surveyed::used_in))]
fn used_by_name(survey: &Survey, ns: &Text, name: &Text) -> Result<u128, NoMemory>
    ensures { IfOk result (λ used. used ≡ used_by_name survey.now.objects (tree_of survey.now) ns.now name.now) }
{
    match Resource::of_name(name.as_str()) {
        Some(resource) => survey.used(ns, resource),
        None => Ok(0),
    }
}
