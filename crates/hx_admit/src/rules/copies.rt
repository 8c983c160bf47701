// The rules on copies, and on the objects that are copied.
ghost use Rattle.std.specs.Prelude.{◌≡◌, IfOk, option_copied};
ghost use Rattle.hx_model.specs.Cases.{any_of};
ghost use Rattle.hx_model.specs.Exceptions.{is_ok, are_valid};
ghost use Rattle.hx_model.specs.First.{first};
ghost use Rattle.hx_model.specs.Limits.{is_copy};
ghost use Rattle.hx_model.specs.RulesCopies.{has_invalid_exceptions, misuses_exceptions, makes_overwrite, source_rules, touches_copy, writes_copy, removes_copy, is_labelled, is_ignored};
ghost use Rattle.hx_select.specs.Selectors.{selector_of};
ghost use Rattle.hx_select.specs.TreeSelects.{tree_select_of};
ghost use Rattle.hx_admit.specs.Refusing.{fault_in};
ghost use Rattle.hx_admit.specs.Ruling.{case_of};

use super::check_rule;
use crate::case::Case;
use hx_model::{Denial, Rule, is_copy, mode_in};
use hx_object::well_known::{
    INHERITED_FROM, NONE_EXCEPTION, SELECT_EXCEPTION, TREE_SELECT_EXCEPTION,
};
use hx_object::{Mode, NoMemory, Object};
use hx_reconcile::exception;
use hx_select::{SelectFault, Selector, TreeFault, TreeSelect};
use std::alloc::Global;

/// Finds the first rule on an object that can be copied which a write breaks.
pub fn check_source(case: &Case) -> Result<(), Denial>
    requires { case.now.misuses_exceptions ≡ misuses_exceptions (case_of case.now) }
    ensures { fault_in result ≡ first (source_rules (case_of case.now)) }
{
    if case.misuses_exceptions {
        return Err(Denial::Broken(Rule::O3));
    }
    check_rule(Rule::O2, makes_overwrite(case))
}

/// Whether an object is given that can be copied, and some source is overwritten then.
fn makes_overwrite(case: &Case) -> bool
    ensures { result ≡ makes_overwrite (case_of case.now) }
{
    (case.is_write() && case.id.kind.can_be_copied()) && (!case.skip && case.conflict)
}

// ---- copies

/// Whether a copy is made, changed or removed.
pub fn touches_copy(case: &Case) -> bool
    ensures { result ≡ touches_copy (case_of case.now) }
{
    if case.is_write() {
        writes_copy(case)
    } else {
        removes_copy(case)
    }
}

/// Whether a copy is written, or the label of one is given to what doesn't have it.
fn writes_copy(case: &Case) -> bool
    ensures { result ≡ writes_copy (case_of case.now) }
{
    is_any_copy(case.old) || (is_any_labelled(case.new) && !is_any_labelled(case.old))
}

/// Whether a copy is removed where reconcilers would look for it.
fn removes_copy(case: &Case) -> bool
    ensures { result ≡ removes_copy (case_of case.now) }
{
    is_any_copy(case.old)
        && !case.config.excludes(&case.id.ns)
        && !is_ignored(mode_in(case.hnc_config, case.id.kind))
}

fn is_ignored(mode: Mode) -> bool
    ensures { result ≡ is_ignored mode }
{
    matches!(mode, Mode::Ignore)
}

/// Whether there is an object, and it is a copy.
pub fn is_any_copy(object: Option<&Object>) -> bool
    ensures { result ≡ any_of is_copy (option_copied object.entry) }
{
    match object {
        Some(object) => is_copy(object),
        None => false,
    }
}

/// Whether there is an object, and it has the label of a copy.
fn is_any_labelled(object: Option<&Object>) -> bool
    ensures { result ≡ any_of is_labelled (option_copied object.entry) }
{
    match object {
        Some(object) => object.labels.get(INHERITED_FROM).is_some(),
        None => false,
    }
}

// ---- exceptions

/// Whether an object can be copied, and its exceptions aren't valid: two that aren't empty, or one that can't be read.
pub fn has_invalid_exceptions(alloc: Global, object: &Object) -> Result<bool, NoMemory>
    ensures { IfOk result (λ invalid. invalid ≡ has_invalid_exceptions object.now) }
{
    if !object.id.kind.can_be_copied() {
        return Ok(false);
    }
    Ok(!are_valid(alloc, object)?)
}

fn are_valid(alloc: Global, object: &Object) -> Result<bool, NoMemory>
    ensures { IfOk result (λ valid. valid ≡ are_valid object.now) }
{
    let select = exception(object, SELECT_EXCEPTION);
    let tree_select = exception(object, TREE_SELECT_EXCEPTION);
    let none = exception(object, NONE_EXCEPTION);
    match (select, tree_select, none) {
        (None, None, None) => Ok(true),
        (Some(text), None, None) => is_selector(alloc, text.as_str()),
        (None, Some(text), None) => is_tree_select(alloc, text.as_str()),
        (None, None, Some(text)) => Ok(matches!(text.as_str(), "true" | "false")),
        _ => Ok(false),
    }
}

fn is_selector(alloc: Global, text: &str) -> Result<bool, NoMemory>
    ensures { IfOk result (λ ok. ok ≡ is_ok (selector_of text.now)) }
{
    match Selector::read(alloc, text) {
        Ok(_) => Ok(true),
        Err(SelectFault::NoMemory) => Err(NoMemory),
        Err(_) => Ok(false),
    }
}

fn is_tree_select(alloc: Global, text: &str) -> Result<bool, NoMemory>
    ensures { IfOk result (λ ok. ok ≡ is_ok (tree_select_of text.now)) }
{
    match TreeSelect::read(alloc, text) {
        Ok(_) => Ok(true),
        Err(TreeFault::NoMemory) => Err(NoMemory),
        Err(_) => Ok(false),
    }
}
