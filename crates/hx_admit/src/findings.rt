// What is read of a write before the rules.
ghost use Rattle.std.specs.Prelude.{◌≡◌, true, false, IfOk, IfSome, option_copied};
ghost use Rattle.hx_model.specs.Answers.{case_at};
ghost use Rattle.hx_model.specs.Limits.{is_hierarchy};
ghost use Rattle.hx_model.specs.RulesCopies.{has_invalid_exceptions};
ghost use Rattle.hx_model.specs.RulesHierarchy.{closes_cycle};
ghost use Rattle.hx_model.specs.Cases.{any_of};
ghost use Rattle.hx_model.specs.State.{object_at};
ghost use Rattle.hx_admit.specs.Inside.{AreFindings, IsConflictFor, IsConflictOf};

use crate::case::Case;
use crate::conflicts::{overwrites, overwrites_by_modes};
use crate::family::unasked_family;
use crate::moves::overwrites_by_move;
use crate::rules::{closes_cycle, has_invalid_exceptions, parent_after};
use hx_object::{Id, Kind, NoMemory, Object};
use hx_state::IndexedState;
use std::alloc::Global;

/// What is read of a write before the rules: reading takes memory, and the rules take none.
#[derive(Clone, Copy)]
pub(crate) struct Findings {
    /// Whether an object is given that can be copied, with exceptions that aren't valid.
    pub is_invalid: bool,
    /// Whether the write makes a conflict. It is looked up only where a rule may ask.
    pub conflict: bool,
}

/// Reads what the rules want to know of a write or a removal. Where they are skipped, nothing is looked at.
pub(crate) fn findings_of(
    state: &IndexedState,
    id: &Id,
    old: Option<&Object>,
    new: Option<&Object>,
    skip: bool,
) -> Result<Findings, NoMemory>
    requires there { object_at state.now.state.objects id.now ≡ option_copied old }
    requires given { IfSome (option_copied new) (λ x. x.id ≡ id.now) }
    ensures { IfOk result (AreFindings (case_at state.now.state id.now (option_copied old.entry) (option_copied new.entry) skip)) }
{
    let is_invalid = misuses_exceptions(state.allocator(), new)?;
    if skip {
        return Ok(Findings {
            is_invalid,
            conflict: false,
        });
    }
    let conflict = makes_conflict(state, id, old, new)?;
    Ok(Findings {
        is_invalid,
        conflict,
    })
}

/// Whether a write or a removal makes a conflict, where a rule asks.
fn makes_conflict(
    state: &IndexedState,
    id: &Id,
    old: Option<&Object>,
    new: Option<&Object>,
) -> Result<bool, NoMemory>
    requires there { object_at state.now.state.objects id.now ≡ option_copied old }
    requires given { IfSome (option_copied new) (λ x. x.id ≡ id.now) }
    ensures { IfOk result (IsConflictFor (case_at state.now.state id.now (option_copied old.entry) (option_copied new.entry) false)) }
{
    match id.kind {
        Kind::HierarchyConfiguration => moves_into_conflict(state, id, old, new),
        Kind::HncConfiguration => overwrites_by_modes(state, id, new),
        _ => writes_into_conflict(state, old, new),
    }
}

/// Whether the write of an object that can be copied makes a conflict.
fn writes_into_conflict(
    state: &IndexedState,
    old: Option<&Object>,
    new: Option<&Object>,
) -> Result<bool, NoMemory>
    requires there { IfSome (option_copied new) (λ x. object_at state.now.state.objects x.id ≡ option_copied old) }
    ensures { IfOk result (IsConflictOf state.now.state (option_copied new.entry)) }
{
    match new {
        Some(new) if new.id.kind.can_be_copied() => overwrites(state, old, new),
        _ => Ok(false),
    }
}

/// Whether the parent that a HierarchyConfiguration leaves makes a conflict, where it closes no cycle.
fn moves_into_conflict<'a>(
    state: &'a IndexedState,
    id: &'a Id,
    old: Option<&'a Object>,
    new: Option<&'a Object>,
) -> Result<bool, NoMemory>
    requires kind { is_hierarchy id.now.kind ≡ true }
    requires there { object_at state.now.state.objects id.now ≡ option_copied old }
    requires given { IfSome (option_copied new) (λ x. x.id ≡ id.now) }
    ensures { IfOk result (λ conflict. closes_cycle (case_at state.now.state id.now (option_copied old.entry) (option_copied new.entry) false) ≡ false → conflict ≡ (case_at state.now.state id.now (option_copied old.entry) (option_copied new.entry) false).conflict) }
{
    state.law_of_validity();
    let case = Case {
        id,
        old,
        new,
        home: state.home_of(id),
        hnc_config: None,
        misuses_exceptions: false,
        conflict: false,
        family: unasked_family(),
        forest: state.forest(),
        config: state.config(),
        skip: false,
    };
    if closes_cycle(&case) {
        return Ok(false);
    }
    overwrites_by_move(state, &id.ns, parent_after(&case))
}

/// Whether an object is given that can be copied, with exceptions that aren't valid.
fn misuses_exceptions(alloc: Global, new: Option<&Object>) -> Result<bool, NoMemory>
    ensures { IfOk result (λ invalid. invalid ≡ any_of has_invalid_exceptions (option_copied new.entry)) }
{
    match new {
        Some(object) => has_invalid_exceptions(alloc, object),
        None => Ok(false),
    }
}
