// The checks of a write.
ghost use Rattle.std.specs.Prelude.{Bool, ◌≡◌, ◌≢◌, ◌<◌, ◌&&◌, ◌∷◌, [], true, nat_le, Some, None, option_copied, option_map, IfSome, OnOk};
ghost use Rattle.hx_model.specs.Answers.{place_refusal, version_refusal, rule_refusal, limit_refusals, case_at, other_version, is_some_write};
ghost use Rattle.hx_model.specs.Denials.{refusal_by};
ghost use Rattle.hx_model.specs.First.{so, first};
ghost use Rattle.hx_model.specs.Limits.{greatest_version};
ghost use Rattle.hx_model.specs.Rules.{rules};
ghost use Rattle.hx_model.specs.Serving.{IsServed};
ghost use Rattle.hx_model.specs.State.{object_at, has_home};
ghost use Rattle.hx_model.specs.Valid.{IsValid};
ghost use Rattle.hx_model.specs.declared.ask.Ask.TheVariants as ask_of;
ghost use Rattle.hx_state.specs.Counting.{is_new_name};
ghost use Rattle.hx_admit.specs.Inside.{IsConfigFor, AreFindings, place_refusals, growth_refusals, objects_with};
ghost use Rattle.hx_admit.specs.Refusing.{fault_in};

use crate::case::Case;
use crate::family::family_for;
use crate::findings::Findings;
use crate::limits::{self, check_counts};
use crate::rules::{check_rules, is_any_copy};
use hx_model::{Denial, Rule};
use hx_object::well_known::CONFIG;
use hx_object::{Id, Kind, Object};
use hx_state::{GREATEST_VERSION, IndexedState, counts, object_in};
use hx_store::Change;

/// Finds what stands against a POST but for quotas and limits.
pub(crate) fn check_create(
    state: &IndexedState,
    object: &Object,
    found: Findings,
    skip: bool,
) -> Result<(), Denial>
    requires found { AreFindings (case_at state.now.state object.now.id (object_at state.now.state.objects object.now.id) (Some object.now) skip) found }
    ensures refusal { option_map (refusal_by object.now.id) (fault_in result) ≡ first (place_refusal state.now.state (ask_of.Create object.now skip) ∷ rule_refusal state.now.state (ask_of.Create object.now skip) ∷ []) }
    ensures free { OnOk result (object_at state.now.state.objects object.now.id ≡ None) }
    ensures home { OnOk result (has_home state.now.state.objects object.now.id ≡ true) }
{
    let id = &object.id;
    check_place(state, id)?;
    check_case(state, id, None, Some(object), found, skip)
}

/// Finds the first limit that a POST passes, where its place is free.
pub(crate) fn check_limits(
    state: &IndexedState,
    object: &Object,
    brings_name: bool,
) -> Result<(), Denial>
    requires served { IsServed object.now }
    requires brings { brings_name ≡ is_new_name state.now.state.objects object.now.id }
    requires free { object_at state.now.state.objects object.now.id ≡ None }
    ensures refusal { (skip : Bool) → option_map (refusal_by object.now.id) (fault_in result) ≡ first (limit_refusals state.now.state (ask_of.Create object.now skip)) }
    ensures fits { OnOk result (state.now.state.last < greatest_version) }
{
    check_counts(brings_name, counts(object), state.limit_counts())?;
    check_growth(state, &object.id, None, Some(object))
}

/// Finds what stands against a PUT but for quotas and limits.
pub(crate) fn check_replace(
    state: &IndexedState,
    old: &Object,
    object: &Object,
    expected: Option<u64>,
    found: Findings,
    skip: bool,
) -> Result<(), Denial>
    requires found { AreFindings (case_at state.now.state object.now.id (Some old.now) (Some object.now) skip) found }
    requires there { object_at state.now.state.objects object.now.id ≡ Some old.now }
    ensures refusal { option_map (refusal_by object.now.id) (fault_in result) ≡ first (version_refusal state.now.state (ask_of.Replace object.now expected skip) ∷ rule_refusal state.now.state (ask_of.Replace object.now expected skip) ∷ []) }
    ensures valid { OnOk result (IsValid state.now.state) }
{
    let id = &object.id;
    check_version(old, expected)?;
    check_case(state, id, Some(old), Some(object), found, skip)?;
    Ok(())
}

/// Finds the rules that stand against a DELETE.
pub(crate) fn check_delete(
    state: &IndexedState,
    old: &Object,
    id: &Id,
    found: Findings,
    skip: bool,
) -> Result<(), Denial>
    requires found { AreFindings (case_at state.now.state id.now (Some old.now) None skip) found }
    requires there { object_at state.now.state.objects id.now ≡ Some old.now }
    ensures refusal { option_map (refusal_by id.now) (fault_in result) ≡ rule_refusal state.now.state (ask_of.Delete id.now skip) }
    ensures valid { OnOk result (IsValid state.now.state) }
{
    check_case(state, id, Some(old), None, found, skip)
}

/// Finds that something is written and no version is left.
pub(crate) fn check_version_left(state: &IndexedState, writes: &[Change]) -> Result<(), Denial>
    ensures fault { fault_in result ≡ so (is_some_write writes.now && nat_le greatest_version state.now.state.last) (Denial.Broken Rule.L4) }
    ensures fits { OnOk result (writes.now ≢ [] → state.now.state.last < greatest_version) }
{
    if !writes.is_empty() && state.version() >= GREATEST_VERSION {
        return Err(Denial::Broken(Rule::L4));
    }
    Ok(())
}

/// Finds that bytes rise over their limit where `new` stands in the place of `old`, or that no version is left.
pub(crate) fn check_growth(
    state: &IndexedState,
    id: &Id,
    old: Option<&Object>,
    new: Option<&Object>,
) -> Result<(), Denial>
    requires there { object_at state.now.state.objects id.now ≡ option_copied old }
    requires served { IfSome (option_copied new) (λ x. IsServed x × (x.id ≡ id.now)) }
    ensures refusal { option_map (refusal_by id.now) (fault_in result) ≡ first (growth_refusals state.now.state (objects_with state.now.state id.now (option_copied new.entry))) }
    ensures fits { OnOk result (state.now.state.last < greatest_version) }
{
    state.law_of_validity();
    limits::check_growth(state.limit_counts(), old, new, state.version())
}

/// Finds that the namespace of an object isn't there, or that the object is.
fn check_place(state: &IndexedState, id: &Id) -> Result<(), Denial>
    ensures refusal { option_map (refusal_by id.now) (fault_in result) ≡ first (place_refusals state.now.state id.now) }
    ensures free { OnOk result (object_at state.now.state.objects id.now ≡ None) }
    ensures home { OnOk result (has_home state.now.state.objects id.now ≡ true) }
{
    if !state.has_home(id) {
        return Err(Denial::NoNamespace);
    }
    if state.store().get(id).is_some() {
        return Err(Denial::Exists);
    }
    Ok(())
}

/// Finds the first rule that a write or a removal breaks.
fn check_case(
    state: &IndexedState,
    id: &Id,
    old: Option<&Object>,
    new: Option<&Object>,
    found: Findings,
    skip: bool,
) -> Result<(), Denial>
    requires there { object_at state.now.state.objects id.now ≡ option_copied old }
    requires found { AreFindings (case_at state.now.state id.now (option_copied old) (option_copied new) skip) found }
    ensures fault { fault_in result ≡ first (rules (case_at state.now.state id.now (option_copied old.entry) (option_copied new.entry) skip)) }
    ensures valid { IsValid state.now.state }
{
    state.law_of_validity();
    check_rules(&Case {
        id,
        old,
        new,
        home: state.home_of(id),
        hnc_config: hnc_config_for(state, old, new),
        misuses_exceptions: found.is_invalid,
        conflict: found.conflict,
        family: family_for(state, id, new, skip),
        forest: state.forest(),
        config: state.config(),
        skip,
    })
}

/// The HNCConfiguration that is stored, where a copy is removed. The rules on other requests don't look at it.
fn hnc_config_for<'a>(
    state: &'a IndexedState,
    old: Option<&Object>,
    new: Option<&Object>,
) -> Option<&'a Object>
    ensures { IsConfigFor state.now.state (option_copied old.entry) (option_copied new.entry) (option_copied result) }
{
    if new.is_some() || !is_any_copy(old) {
        return None;
    }
    object_in(state.store().find(Kind::HncConfiguration, "", CONFIG))
}

/// Finds that an object is expected to have another version.
fn check_version(old: &Object, expected: Option<u64>) -> Result<(), Denial>
    ensures { option_map (refusal_by old.now.id) (fault_in result) ≡ other_version expected (Some old.now) }
{
    match expected {
        Some(version) if old.version != version => Err(Denial::OtherVersion(old.version)),
        _ => Ok(()),
    }
}
