// The keys of quotas.
ghost use Rattle.std.specs.Prelude.{◌≡◌, ◌++◌, IfOk, OnOk, Some, flat_map, map, option_copied};
ghost use Rattle.hx_object.specs.declared.kind.Kind.TheVariants.{HierarchicalResourceQuota as QuotaKind};
ghost use Rattle.hx_model.specs.Wanted.{sums_of, used_of};
ghost use Rattle.hx_model.specs.declared.key.Key.TheVariants as key;
ghost use Rattle.hx_reconcile.specs.Briefs.{facts_of};
ghost use Rattle.hx_audit.specs.Candidates.{listed_in, quota_keys, state_of, wanted};

use crate::keep::keep;
use crate::lookups::{quota, share};
use hx_charge::hard_of;
use hx_model::{Key, Resource};
use hx_object::{Kind, Limit, List, NoMemory, Shared, Text};
use hx_reconcile::Facts;
use hx_survey::Survey;

/// Adds the keys of the quotas in a namespace that want a write.
pub(crate) fn push_quotas(
    survey: &Survey,
    ns: &Text,
    wanting: &mut Vec<Key>,
) -> Result<(), NoMemory>
    ensures { OnOk result (wanting.new.items ≡ wanting.old.items ++ flat_map (quota_keys survey.now ns.now) (listed_in survey.now.objects QuotaKind ns.now)) }
{
    let quotas = survey.in_namespace(Kind::HierarchicalResourceQuota, ns);
    push_each(survey, ns, quotas, wanting)
}

fn push_each(
    survey: &Survey,
    ns: &Text,
    quotas: &[Shared],
    wanting: &mut Vec<Key>,
) -> Result<(), NoMemory>
    ensures { OnOk result (wanting.new.items ≡ wanting.old.items ++ flat_map (quota_keys survey.now ns.now) quotas.now) }
{
    for quota in quotas {
        push_quota(survey, ns, &quota.object().id.name, wanting)?;
    }
    Ok(())
}

/// Adds the key of the status of a quota.
fn push_quota(
    survey: &Survey,
    ns: &Text,
    name: &Text,
    wanting: &mut Vec<Key>,
) -> Result<(), NoMemory>
    ensures { OnOk result (wanting.new.items ≡ wanting.old.items ++ wanted survey.now (key.Used ns.now name.now)) }
{
    let facts = used_facts(survey, ns, name)?;
    let key = Key::Used {
        ns: ns.clone()?,
        name: name.clone()?,
    };
    keep(survey.allocator(), wanting, key, facts)
}

/// What that status depends on.
fn used_facts(survey: &Survey, ns: &Text, name: &Text) -> Result<Facts, NoMemory>
    ensures { IfOk result (λ made. made ≡ facts_of (state_of survey.now) (key.Used ns.now name.now)) }
{
    let found = quota(survey, ns, name);
    Ok(Facts::Used {
        is_live: survey.is_live(ns),
        quota: share(found)?,
        sums: List::of(sums_of(survey, ns, found)?),
    })
}

/// What is used of each limit of a quota in the subtree of its namespace, in their order and in thousandths. Where there is no quota, it is none.
fn sums_of(survey: &Survey, ns: &Text, quota: Option<&Shared>) -> Result<Vec<u128>, NoMemory>
    ensures { IfOk result (λ sums. sums.items ≡ sums_of (state_of survey.now) ns.now (option_copied quota.entry)) }
{
    match quota {
        Some(found) => used_of_each(survey, ns, hard_of(&found.object().payload)),
        None => Ok(Vec::new(survey.allocator())),
    }
}

/// What is used of each of some limits.
fn used_of_each(survey: &Survey, ns: &Text, hard: &[Limit]) -> Result<Vec<u128>, NoMemory>
    ensures { IfOk result (λ sums. sums.items ≡ map (used_of (state_of survey.now) ns.now) hard.now) }
{
    let mut sums = Vec::new(survey.allocator());
    for limit in hard {
        sums.push(used_of(survey, ns, limit)?)?;
    }
    Ok(sums)
}

/// What is used of a limit. A name that stands for no resource counts nothing.
#[tactic(auto, unfolding(hx_model::specs::Quotas::used, hx_survey::specs::Surveyed::used_in))]
fn used_of(survey: &Survey, ns: &Text, limit: &Limit) -> Result<u128, NoMemory>
    ensures { IfOk result (λ sum. sum ≡ used_of (state_of survey.now) ns.now limit.now) }
{
    match Resource::of_name(limit.resource.as_str()) {
        Some(resource) => survey.used(ns, resource),
        None => Ok(0),
    }
}
