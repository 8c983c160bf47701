// What quotas refuse.
ghost use Rattle.std.specs.Prelude.{◌≡◌, ◌+◌, ◌&&◌, ◌||◌, nat_lt, flat_map, IfOk, option_copied};
ghost use Rattle.hx_model.specs.Cases.{any_of};
ghost use Rattle.hx_model.specs.Quotas.{quotas_in, quotas_for, used, rise_of, same_need, keeps_need, asks_anew, is_left_open, is_lacking_in, is_lacking, over_by, over_limit, over_quota, first_over, refused_by, refused_by_quotas};
ghost use Rattle.hx_admit.specs.Spending.{raises, may_refuse};

use hx_charge::{charge, charge_before, hard_of, is_running, is_unstated, resources_for};
use hx_forest::Ancestors;
use hx_model::{Refusal, Resource, Rule};
use hx_object::{Id, Kind, Limit, NoMemory, Object, Payload, Shared, Text};
use hx_state::IndexedState;

/// Finds why the quotas that hold refuse that `new` is written in the place of `old` (HNC user guide, "Limit resources over parent-child relationships").
///
/// A write that raises no charge, and brings no Pod that asks for something else, looks at no quota.
pub(crate) fn quota_refusal(
    state: &IndexedState,
    old: Option<&Object>,
    new: &Object,
) -> Result<Option<Refusal>, NoMemory>
    ensures { IfOk result (λ found. found ≡ refused_by_quotas state.now.state (option_copied old.entry) new.now) }
{
    if !may_refuse(old, new) {
        return Ok(None);
    }
    let quotas = quotas_for(state, &new.id.ns)?;
    refused_by(state, old, new, &quotas)
}

/// The quotas that hold for what lies in a namespace, its own first.
fn quotas_for(state: &IndexedState, ns: &Text) -> Result<Vec<Shared>, NoMemory>
    ensures { IfOk result (λ quotas. quotas.items ≡ quotas_for state.now.state ns.now) }
{
    if !state.store().may_have(Kind::HierarchicalResourceQuota) {
        return Ok(Vec::new(state.allocator()));
    }
    quotas_of(state, state.forest().ancestors(ns))
}

/// The quotas of some namespaces.
fn quotas_of(state: &IndexedState, members: Ancestors) -> Result<Vec<Shared>, NoMemory>
    ensures { IfOk result (λ quotas. quotas.items ≡ flat_map (quotas_in state.now.state.objects) members.entry) }
{
    let mut quotas = Vec::new(state.allocator());
    for member in members {
        let mut listed = state
            .store()
            .list(Kind::HierarchicalResourceQuota, Some(member))?;
        quotas.append(&mut listed)?;
    }
    Ok(quotas)
}

/// Finds why some quotas refuse a write.
fn refused_by(
    state: &IndexedState,
    old: Option<&Object>,
    new: &Object,
    quotas: &[Shared],
) -> Result<Option<Refusal>, NoMemory>
    ensures { IfOk result (λ found. found ≡ refused_by state.now.state (option_copied old.entry) new.now quotas.now) }
{
    if asks_anew(old, new) && is_lacking(new, quotas) {
        return Ok(Some(Refusal::Broken { rule: Rule::Q2 }));
    }
    first_over(state, old, new, quotas)
}

/// The first limit of some quotas that a write passes.
fn first_over(
    state: &IndexedState,
    old: Option<&Object>,
    new: &Object,
    quotas: &[Shared],
) -> Result<Option<Refusal>, NoMemory>
    ensures { IfOk result (λ found. found ≡ first_over state.now.state (option_copied old.entry) new.now quotas.now) }
{
    for quota in quotas {
        if let Some(refusal) = over_quota(state, old, new, quota.object())? {
            return Ok(Some(refusal));
        }
    }
    Ok(None)
}

/// The first limit of a quota that a write passes.
fn over_quota(
    state: &IndexedState,
    old: Option<&Object>,
    new: &Object,
    quota: &Object,
) -> Result<Option<Refusal>, NoMemory>
    ensures { IfOk result (λ found. found ≡ over_quota state.now.state (option_copied old.entry) new.now quota.now) }
{
    let hard = hard_of(&quota.payload);
    for limit in hard {
        if let Some(refusal) = over_limit(state, old, new, quota, limit)? {
            return Ok(Some(refusal));
        }
    }
    Ok(None)
}

/// Whether a write passes a limit of a quota. What is used is summed up only where the charge rises.
fn over_limit(
    state: &IndexedState,
    old: Option<&Object>,
    new: &Object,
    quota: &Object,
    limit: &Limit,
) -> Result<Option<Refusal>, NoMemory>
    ensures { IfOk result (λ found. found ≡ over_limit state.now.state (option_copied old.entry) new.now quota.now limit.now) }
{
    let Some(resource) = Resource::of_name(limit.resource.as_str()) else {
        return Ok(None);
    };
    let rise = rise_of(old, new, resource);
    if rise == 0 {
        return Ok(None);
    }
    let sum = state.used(&quota.id.ns, resource)?;
    over_by(sum, rise, &quota.id, limit)
}

/// Whether some quota may refuse a write: a charge rises, or a Pod asks for something else.
fn may_refuse(old: Option<&Object>, new: &Object) -> bool
    ensures { result ≡ may_refuse (option_copied old.entry) new.now }
{
    asks_anew(old, new) || raises(old, new)
}

/// Whether an object is charged more for some resource than the one that is there.
fn raises(old: Option<&Object>, new: &Object) -> bool
    ensures { result ≡ raises (option_copied old.entry) new.now }
{
    resources_for(new.id.kind)
        .iter()
        .any(|resource| rise_of(old, new, *resource) > 0)
}

/// By how much the charge rises where `new` is written in the place of `old`.
fn rise_of(old: Option<&Object>, new: &Object, resource: Resource) -> u128
    ensures { result ≡ rise_of (option_copied old.entry) new.now resource }
{
    charge(new, resource).saturating_sub(charge_before(old, resource))
}

/// Whether a Pod is given that hasn't finished, and asks for something else than the one that is there.
fn asks_anew(old: Option<&Object>, new: &Object) -> bool
    ensures { result ≡ asks_anew (option_copied old.entry) new.now }
{
    is_running(new.id.kind, &new.payload) && !is_any_kept(old, &new.payload)
}

fn is_any_kept(old: Option<&Object>, payload: &Payload) -> bool
    ensures { result ≡ any_of (λ y. keeps_need y.payload payload.now) (option_copied old.entry) }
{
    match old {
        Some(object) => keeps_need(&object.payload, payload),
        None => false,
    }
}

/// Whether the same was read of the members of two payloads.
#[tactic(auto, unfolding(hx_model::specs::Quotas::same_need))]
fn keeps_need(old: &Payload, new: &Payload) -> bool
    ensures { result ≡ keeps_need old.now new.now }
{
    match (old, new) {
        (Payload::Plain { need: old, .. }, Payload::Plain { need, .. }) => old == need,
        _ => false,
    }
}

/// Whether a quota limits a resource that a Pod doesn't state.
fn is_lacking(new: &Object, quotas: &[Shared]) -> bool
    ensures { result ≡ is_lacking new.now quotas.now }
{
    quotas
        .iter()
        .any(|quota| is_lacking_in(new, quota.object()))
}

fn is_lacking_in(new: &Object, quota: &Object) -> bool
    ensures { result ≡ is_lacking_in new.now quota.now }
{
    hard_of(&quota.payload)
        .iter()
        .any(|limit| is_left_open(new, limit))
}

/// Whether a limit is of a resource that a Pod doesn't state.
fn is_left_open(new: &Object, limit: &Limit) -> bool
    ensures { result ≡ is_left_open new.now limit.now }
{
    match Resource::of_name(limit.resource.as_str()) {
        Some(resource) => is_unstated(new, resource),
        None => false,
    }
}

/// The refusal where a rise passes a limit of a quota, and so much is used already. Amounts are in thousandths.
fn over_by(sum: u128, rise: u128, quota: &Id, limit: &Limit) -> Result<Option<Refusal>, NoMemory>
    ensures { IfOk result (λ found. found ≡ over_by sum rise quota.now limit.now) }
{
    if !is_over(sum, rise, limit.amount) {
        return Ok(None);
    }
    Ok(Some(Refusal::OverQuota {
        namespace: quota.ns.clone()?,
        quota: quota.name.clone()?,
        resource: limit.resource.clone()?,
        used: sum,
        asked: rise,
        hard: limit.amount,
    }))
}

/// Whether something is asked for, and passes a limit.
fn is_over(sum: u128, rise: u128, limit: u64) -> bool
    ensures { result ≡ (nat_lt 0 rise && nat_lt limit (sum + rise)) }
{
    let limit = u128::from(limit);
    rise > 0 && (sum > limit || rise > limit - sum)
}
