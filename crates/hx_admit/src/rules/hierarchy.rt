// The rules on HierarchyConfigurations.
ghost use Rattle.std.specs.Prelude.{◌≡◌, false, is_some, option_copied};
ghost use Rattle.hx_model.specs.First.{first};
ghost use Rattle.hx_model.specs.Forest.{halt_of};
ghost use Rattle.hx_model.specs.Cases.{any_of, is_kept_out};
ghost use Rattle.hx_model.specs.RulesHierarchy.{misses_hierarchy, hierarchy_rules, new_parent, annotated_parent, parent_after, changes_parent, lacks_parent, closes_cycle, contradicts, moves_halted, meets_excluded, grows_too_deep, is_ancestor};
ghost use Rattle.hx_admit.specs.Refusing.{fault_in};
ghost use Rattle.hx_admit.specs.Ruling.{case_of, IsAtHome};

use super::check_rule;
use crate::case::Case;
use hx_forest::{Forest, Halt};
use hx_model::{Denial, Rule, is_same_name};
use hx_object::Text;
use hx_object::well_known::HIERARCHY;
use hx_state::given_parent;

/// No namespace comes to a greater depth. A root is at depth 0.
pub const GREATEST_DEPTH: usize = 64;

/// Finds the first rule on the tree that a write or a removal breaks. Admission may skip them all.
pub fn check_rules(case: &Case) -> Result<(), Denial>
    requires { IsAtHome (case_of case.now) }
    ensures { fault_in result ≡ first (hierarchy_rules (case_of case.now)) }
{
    if case.skip {
        return Ok(());
    }
    if lacks_parent(case) {
        return Err(Denial::Broken(Rule::H1));
    }
    if closes_cycle(case) {
        return Err(Denial::Broken(Rule::H2));
    }
    if contradicts(case) {
        return Err(Denial::Broken(Rule::H3));
    }
    if moves_halted(case) {
        return Err(Denial::Broken(Rule::H4));
    }
    if case.conflict {
        return Err(Denial::Broken(Rule::H5));
    }
    if case.is_write() && meets_excluded(case) {
        return Err(Denial::Broken(Rule::H6));
    }
    check_rule(Rule::H8, case.is_write() && grows_too_deep(case))
}

/// Whether it is a write of another name.
pub fn misses_name(case: &Case) -> bool
    ensures { result ≡ misses_hierarchy (case_of case.now) }
{
    case.is_write() && case.id.name.as_str() != HIERARCHY
}

/// A parent that the given object names, and the one that is there doesn't.
fn new_parent<'a>(case: &Case<'a>) -> Option<&'a Text>
    ensures { option_copied result ≡ new_parent (case_of case.now) }
{
    let parent = given_parent(case.new)?;
    if is_same_name(Some(parent), given_parent(case.old)) {
        None
    } else {
        Some(parent)
    }
}

/// The parent that the namespace has once the write is made.
pub fn parent_after<'a>(case: &Case<'a>) -> Option<&'a Text>
    ensures { option_copied result ≡ parent_after (case_of case.now) }
{
    if case.id.name.as_str() != HIERARCHY {
        return case.forest.parent(&case.id.ns);
    }
    case.home?.parent_with(case.new)
}

fn changes_parent(case: &Case) -> bool
    ensures { result ≡ changes_parent (case_of case.now) }
{
    !is_same_name(case.forest.parent(&case.id.ns), parent_after(case))
}

/// Whether a new parent isn't there, or is on its way out.
fn lacks_parent(case: &Case) -> bool
    ensures { result ≡ lacks_parent (case_of case.now) }
{
    match new_parent(case) {
        Some(parent) => !case.forest.is_live(parent),
        None => false,
    }
}

/// Whether the namespace is in the chain of a new parent.
pub fn closes_cycle(case: &Case) -> bool
    ensures { result ≡ closes_cycle (case_of case.now) }
{
    match new_parent(case) {
        Some(parent) => case.forest.in_chain(parent, &case.id.ns),
        None => false,
    }
}

/// Whether the annotation of a subnamespace names another parent.
fn contradicts(case: &Case) -> bool
    ensures { result ≡ contradicts (case_of case.now) }
{
    match (given_parent(case.new), owner_of(case)) {
        (Some(named), Some(annotated)) => named.as_str() != annotated.as_str(),
        _ => false,
    }
}

/// The parent that the annotation of the namespace names.
fn owner_of<'a>(case: &Case<'a>) -> Option<&'a Text>
    ensures { option_copied result ≡ annotated_parent (case_of case.now) }
{
    case.home?.owner
}

/// Whether the parent changes where an ancestor is halted, or to one that is.
fn moves_halted(case: &Case) -> bool
    ensures { result ≡ moves_halted (case_of case.now) }
{
    changes_parent(case)
        && (is_below_halted(case.forest, &case.id.ns) || is_halted(case.forest, parent_after(case)))
}

/// Whether an ancestor is halted, and the namespace by that alone.
fn is_below_halted(forest: &Forest, ns: &Text) -> bool
    ensures { result ≡ any_of is_ancestor (halt_of forest.now.nodes ns.now) }
{
    matches!(forest.halt(ns), Some(Halt::Ancestor))
}

/// Whether there is such a parent, and it is halted.
fn is_halted(forest: &Forest, parent: Option<&Text>) -> bool
    ensures { result ≡ any_of (λ p. is_some (halt_of forest.now.nodes p)) (option_copied parent.entry) }
{
    match parent {
        Some(parent) => forest.halt(parent).is_some(),
        None => false,
    }
}

/// Whether the namespace or a new parent is excluded.
fn meets_excluded(case: &Case) -> bool
    ensures { result ≡ meets_excluded (case_of case.now) }
{
    case.config.excludes(&case.id.ns) || excludes_parent(case)
}

fn excludes_parent(case: &Case) -> bool
    ensures { result ≡ any_of (is_kept_out (case_of case.now)) (new_parent (case_of case.now)) }
{
    match new_parent(case) {
        Some(parent) => case.config.excludes(parent),
        None => false,
    }
}

/// Whether the parent changes, and a namespace below would be too deep.
fn grows_too_deep(case: &Case) -> bool
    requires at_home { IsAtHome (case_of case.now) }
    requires open { closes_cycle (case_of case.now) ≡ false }
    ensures { result ≡ grows_too_deep (case_of case.now) }
{
    changes_parent(case)
        && case
            .forest
            .reaches_deeper(&case.id.ns, parent_after(case), GREATEST_DEPTH)
}
