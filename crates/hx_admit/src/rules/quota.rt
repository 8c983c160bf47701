// The rules on HierarchicalResourceQuotas.
ghost use Rattle.std.specs.Prelude.{◌≡◌, option_copied};
ghost use Rattle.hx_model.specs.Cases.{any_of};
ghost use Rattle.hx_model.specs.First.{first};
ghost use Rattle.hx_model.specs.RulesQuotas.{is_unknown, limits_unknown, quota_rules};
ghost use Rattle.hx_admit.specs.Refusing.{fault_in};
ghost use Rattle.hx_admit.specs.Ruling.{case_of};

use super::check_rule;
use crate::case::Case;
use hx_charge::hard_of;
use hx_model::{Denial, Resource, Rule};
use hx_object::{Limit, Object};

/// Finds the rule on a quota that a write breaks.
pub fn check_rules(case: &Case) -> Result<(), Denial>
    ensures { fault_in result ≡ first (quota_rules (case_of case.now)) }
{
    check_rule(Rule::Q3, is_any_unknown(case.new))
}

/// Whether a quota is given that limits what stands for no resource.
fn is_any_unknown(new: Option<&Object>) -> bool
    ensures { result ≡ any_of limits_unknown (option_copied new.entry) }
{
    match new {
        Some(quota) => limits_unknown(quota),
        None => false,
    }
}

fn limits_unknown(quota: &Object) -> bool
    ensures { result ≡ limits_unknown quota.now }
{
    hard_of(&quota.payload).iter().any(is_unknown)
}

/// Whether the name of a limit stands for no resource.
fn is_unknown(limit: &Limit) -> bool
    ensures { result ≡ is_unknown limit.now }
{
    Resource::of_name(limit.resource.as_str()).is_none()
}
