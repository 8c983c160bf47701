// What is used of the limits of quotas.
ghost use Rattle.std.specs.Prelude.{◌≡◌, IfOk, map, option_copied};
ghost use Rattle.hx_model.specs.Wanted.{sums_of, used_of};

use hx_charge::hard_of;
use hx_model::Resource;
use hx_object::{Limit, NoMemory, Shared, Text};
use hx_state::IndexedState;

/// What is used of each limit of a quota in the subtree of its namespace, in their order and in thousandths. Where there is no quota, it is none.
pub(crate) fn sums_of(
    state: &IndexedState,
    ns: &Text,
    quota: Option<&Shared>,
) -> Result<Vec<u128>, NoMemory>
    ensures { IfOk result (λ sums. sums.items ≡ sums_of state.now.state ns.now (option_copied quota.entry)) }
{
    match quota {
        Some(found) => used_of_each(state, ns, hard_of(&found.object().payload)),
        None => Ok(Vec::new(state.allocator())),
    }
}

/// What is used of each of some limits.
fn used_of_each(state: &IndexedState, ns: &Text, hard: &[Limit]) -> Result<Vec<u128>, NoMemory>
    ensures { IfOk result (λ sums. sums.items ≡ map (used_of state.now.state ns.now) hard.now) }
{
    let mut sums = Vec::new(state.allocator());
    for limit in hard {
        sums.push(used_of(state, ns, limit)?)?;
    }
    Ok(sums)
}

/// What is used of a limit. A name that stands for no resource counts nothing.
fn used_of(state: &IndexedState, ns: &Text, limit: &Limit) -> Result<u128, NoMemory>
    ensures { IfOk result (λ sum. sum ≡ used_of state.now.state ns.now limit.now) }
{
    match Resource::of_name(limit.resource.as_str()) {
        Some(resource) => state.used(ns, resource),
        None => Ok(0),
    }
}
