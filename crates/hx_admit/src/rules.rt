// The rules of admission.
ghost use Rattle.std.specs.Prelude.{◌≡◌, true};
ghost use Rattle.hx_model.specs.Cases.{breaks};
ghost use Rattle.hx_model.specs.First.{first};
ghost use Rattle.hx_model.specs.Limits.{is_hierarchy};
ghost use Rattle.hx_model.specs.Rules.{rules, name_rule, kind_rules};
ghost use Rattle.hx_model.specs.RulesCopies.{misuses_exceptions};
ghost use Rattle.hx_admit.specs.Refusing.{fault_in};
ghost use Rattle.hx_admit.specs.Ruling.{case_of, IsAtHome};

mod anchor;
mod config;
mod copies;
mod hierarchy;
mod namespace;
mod quota;

use crate::case::Case;
use copies::touches_copy;
pub(crate) use copies::{has_invalid_exceptions, is_any_copy};
pub(crate) use hierarchy::{closes_cycle, parent_after};
use hx_model::{Denial, Rule};
use hx_object::Kind;

/// Finds the first rule of admission that a write or a removal breaks.
pub fn check_rules(case: &Case) -> Result<(), Denial>
    requires home { is_hierarchy case.now.id.now.kind ≡ true → IsAtHome (case_of case.now) }
    requires exceptions { case.now.misuses_exceptions ≡ misuses_exceptions (case_of case.now) }
    ensures { fault_in result ≡ first (rules (case_of case.now)) }
{
    if case.skip && !case.config.allow_skip {
        return Err(Denial::Broken(Rule::X1));
    }
    if namespace::enters_leaving(case) {
        return Err(Denial::Broken(Rule::N4));
    }
    check_name(case)?;
    if touches_copy(case) {
        return Err(Denial::Broken(Rule::O1));
    }
    check_kind(case)
}

/// The objects of two kinds have one name.
fn check_name(case: &Case) -> Result<(), Denial>
    ensures { fault_in result ≡ name_rule case.now.id.now.kind (case_of case.now) }
{
    match case.id.kind {
        Kind::HierarchyConfiguration => { check_rule(Rule::H7, hierarchy::misses_name(case)) }
        Kind::HncConfiguration => check_rule(Rule::C1, config::misses_name(case)),
        _ => Ok(()),
    }
}

/// Finds the first rule on the objects of its kind that a write or a removal breaks.
fn check_kind(case: &Case) -> Result<(), Denial>
    requires home { is_hierarchy case.now.id.now.kind ≡ true → IsAtHome (case_of case.now) }
    requires exceptions { case.now.misuses_exceptions ≡ misuses_exceptions (case_of case.now) }
    ensures { fault_in result ≡ first (kind_rules case.now.id.now.kind (case_of case.now)) }
{
    match case.id.kind {
        Kind::Namespace => namespace::check_rules(case),
        Kind::HierarchyConfiguration => hierarchy::check_rules(case),
        Kind::HncConfiguration => config::check_rules(case),
        Kind::SubnamespaceAnchor => anchor::check_rules(case),
        Kind::HierarchicalResourceQuota => quota::check_rules(case),
        _ => copies::check_source(case),
    }
}

/// The denial by a rule, where a test found that it is broken.
fn check_rule(rule: Rule, is_broken: bool) -> Result<(), Denial>
    ensures { fault_in result ≡ breaks rule is_broken }
{
    if is_broken {
        Err(Denial::Broken(rule))
    } else {
        Ok(())
    }
}
