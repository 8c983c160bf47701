// The rules on namespaces, and on what lies in them.
ghost use Rattle.std.specs.Prelude.{◌≡◌, ◌&&◌, not, option_copied};
ghost use Rattle.hx_model.specs.Cases.{any_of};
ghost use Rattle.hx_model.specs.First.{first};
ghost use Rattle.hx_model.specs.RulesNamespace.{enters_leaving, changes_annotation, begins_removal, namespace_rules};
ghost use Rattle.hx_model.specs.Tree.{is_terminating};
ghost use Rattle.hx_admit.specs.Refusing.{fault_in};
ghost use Rattle.hx_admit.specs.Ruling.{case_of};

use super::check_rule;
use crate::case::Case;
use hx_model::{Denial, Rule, is_same_name, is_terminating};
use hx_object::Object;
use hx_state::annotated_parent;

pub fn check_rules(case: &Case) -> Result<(), Denial>
    ensures { fault_in result ≡ first (namespace_rules (case_of case.now)) }
{
    if case.is_write() && changes_annotation(case) {
        return Err(Denial::Broken(Rule::N3));
    }
    if begins_removal(case) && case.family.anchored {
        return Err(Denial::Broken(Rule::N1));
    }
    check_rule(Rule::N2, begins_removal(case) && takes_along(case))
}

/// Whether an object is given in a namespace that is on its way out, or is such a namespace.
pub fn enters_leaving(case: &Case) -> bool
    ensures { result ≡ enters_leaving (case_of case.now) }
{
    case.is_write() && case.forest.is_leaving(case.subject())
}

/// Whether the given namespace has another annotation of a subnamespace than the one that is there. Only reconcilers set it.
fn changes_annotation(case: &Case) -> bool
    ensures { result ≡ changes_annotation (case_of case.now) }
{
    !is_same_name(annotated_parent(case.old), annotated_parent(case.new))
}

/// Whether a namespace is removed that isn't on its way out yet.
fn begins_removal(case: &Case) -> bool
    ensures { result ≡ begins_removal (case_of case.now) }
{
    !case.is_write() && stays(case.old)
}

/// Whether there is a namespace, and it isn't on its way out.
fn stays(namespace: Option<&Object>) -> bool
    ensures { result ≡ any_of (λ x. not (is_terminating x.payload)) (option_copied namespace.entry) }
{
    match namespace {
        Some(namespace) => !is_terminating(namespace),
        None => false,
    }
}

/// Whether others would go with the namespace, and nothing allows it.
fn takes_along(case: &Case) -> bool
    ensures { result ≡ (case.now.family.has_followers && not case.now.family.cascades) }
{
    case.family.has_followers && !case.family.cascades
}
