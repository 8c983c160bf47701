// The rules on anchors.
ghost use Rattle.std.specs.Prelude.{◌≡◌, option_copied};
ghost use Rattle.hx_model.specs.Cases.{any_of};
ghost use Rattle.hx_model.specs.First.{first};
ghost use Rattle.hx_model.specs.RulesAnchors.{anchor_rules, creates, asks_excluded, is_elsewhere, reaches_too_deep, has_kept_children};
ghost use Rattle.hx_model.specs.Subnamespaces.{is_owned_by};
ghost use Rattle.hx_admit.specs.Refusing.{fault_in};
ghost use Rattle.hx_admit.specs.Ruling.{case_of};

use super::check_rule;
use super::hierarchy::GREATEST_DEPTH;
use crate::case::Case;
use hx_model::{Denial, Rule, is_owned_by};
use hx_object::{Object, Text};

/// Finds the first rule on an anchor that a write or a removal breaks. Admission may skip them all.
pub fn check_rules(case: &Case) -> Result<(), Denial>
    ensures { fault_in result ≡ first (anchor_rules (case_of case.now)) }
{
    if case.skip {
        return Ok(());
    }
    if creates(case) && asks_excluded(case) {
        return Err(Denial::Broken(Rule::A2));
    }
    if creates(case) && is_elsewhere(case) {
        return Err(Denial::Broken(Rule::A1));
    }
    if creates(case) && reaches_too_deep(case) {
        return Err(Denial::Broken(Rule::A4));
    }
    check_rule(Rule::A3, !case.is_write() && has_kept_children(case))
}

/// Whether an anchor is given that wasn't there.
fn creates(case: &Case) -> bool
    ensures { result ≡ creates (case_of case.now) }
{
    case.is_write() && case.old.is_none()
}

/// Whether the namespace or the name is excluded.
fn asks_excluded(case: &Case) -> bool
    ensures { result ≡ asks_excluded (case_of case.now) }
{
    case.config.excludes(&case.id.ns) || case.config.excludes(&case.id.name)
}

/// Whether a namespace of the name is there, and isn't a subnamespace of this one.
fn is_elsewhere(case: &Case) -> bool
    ensures { result ≡ is_elsewhere (case_of case.now) }
{
    match case.family.named {
        Some(namespace) => !is_owned_by(namespace, &case.id.ns),
        None => false,
    }
}

/// Whether the subnamespace would be below a namespace at the greatest depth.
fn reaches_too_deep(case: &Case) -> bool
    ensures { result ≡ reaches_too_deep (case_of case.now) }
{
    case.forest.depth(&case.id.ns) >= GREATEST_DEPTH
}

/// Whether the subnamespace is there and has children, and nothing allows that they go with it.
fn has_kept_children(case: &Case) -> bool
    ensures { result ≡ has_kept_children (case_of case.now) }
{
    is_any_owned(case.family.named, &case.id.ns)
        && (case.family.has_children && !case.family.cascades)
}

/// Whether a namespace is there, and is a subnamespace of this one.
fn is_any_owned(namespace: Option<&Object>, parent: &Text) -> bool
    ensures { result ≡ any_of (is_owned_by parent.now) (option_copied namespace.entry) }
{
    match namespace {
        Some(namespace) => is_owned_by(namespace, parent),
        None => false,
    }
}
