// The first limit that a write would exceed.
ghost use Rattle.std.specs.Prelude.{◌≡◌, option_copied};
ghost use Rattle.hx_quota.specs.Limiting.{delta_of, over_by, over_limit, over_limits, first_over};

use crate::counters::Counters;
use crate::entry::{Delta, place_of};
use hx_model::Resource;
use hx_object::{Limit, List, Text};

/// A quota: its namespace, its name and its limits.
pub struct QuotaRow {
    pub ns: Text,
    pub name: Text,
    pub hard: List<Limit>,
}

impl Drop for QuotaRow {
    fn drop(self) {
        let QuotaRow {
            ns: _,
            name: _,
            hard: _,
        } = self;
    }
}

/// A limit that would be exceeded: the places of its quota and in that one, what is used before, what is asked for beyond it, and the limit. Amounts are in thousandths.
#[derive(Clone, Copy, Debug, PartialEq, Eq)]
pub struct Over {
    pub at: usize,
    pub limit: usize,
    pub used: u128,
    pub asked: u128,
    pub hard: u64,
}

impl Counters {
    /// The first limit that the deltas would exceed, in the order of the quotas and of their limits. A delta that raises nothing exceeds none, nor is one exceeded whose name stands for no resource.
    pub fn first_over(&self, quotas: &[QuotaRow], deltas: &[Delta]) -> Option<Over>
        ensures { result ≡ first_over self.now.entries quotas.now deltas.now }
    {
        let mut at = 0;
        for quota in quotas {
            let over = self.over_limits(quota, at, deltas);
            if over.is_some() {
                return over;
            }
            at += 1;
        }
        None
    }

    /// The first limit of a quota that the deltas would exceed.
    fn over_limits(&self, quota: &QuotaRow, at: usize, deltas: &[Delta]) -> Option<Over>
        ensures { result ≡ over_limits self.now.entries deltas.now quota.now.ns at 0 quota.now.hard }
    {
        let mut place = 0;
        for limit in quota.hard.as_slice() {
            let over = self.over_limit(&quota.ns, at, place, limit, deltas);
            if over.is_some() {
                return over;
            }
            place += 1;
        }
        None
    }

    /// Whether the deltas would exceed a limit.
    fn over_limit(
        &self,
        ns: &Text,
        at: usize,
        place: usize,
        limit: &Limit,
        deltas: &[Delta],
    ) -> Option<Over>
        ensures { result ≡ over_limit self.now.entries deltas.now ns.now at place limit.now }
    {
        let resource = Resource::of_name(limit.resource.as_str())?;
        let delta = delta_of(deltas, resource)?;
        let used = self.used(ns, resource);
        over_by(at, place, limit.amount, used, delta)
    }
}

/// The delta of a resource.
fn delta_of(deltas: &[Delta], resource: Resource) -> Option<&Delta>
    ensures { option_copied result ≡ delta_of deltas.now resource }
{
    let place = place_of(resource);
    deltas
        .iter()
        .find(|delta| place_of(delta.resource) == place)
}

/// What is over a limit by a delta.
fn over_by(at: usize, limit: usize, hard: u64, used: u128, delta: &Delta) -> Option<Over>
    ensures { result ≡ over_by at limit hard used (Some delta.now) }
{
    if delta.old >= delta.new {
        return None;
    }
    let asked = delta.new - delta.old;
    let hard_amount = u128::from(hard);
    if used <= hard_amount && asked <= hard_amount - used {
        return None;
    }
    Some(Over {
        at,
        limit,
        used,
        asked,
        hard,
    })
}
