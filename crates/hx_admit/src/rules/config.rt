// The rules on HNCConfigurations.
ghost use Rattle.std.specs.Prelude.{◌≡◌, not, length, filter};
ghost use Rattle.std.specs.List.{list_any};
ghost use Rattle.hx_model.specs.First.{first};
ghost use Rattle.hx_model.specs.Modes.{names_kind};
ghost use Rattle.hx_model.specs.RulesConfig.{misses_config, config_rules, entry_rules, names_one_of, is_named_twice};
ghost use Rattle.hx_admit.specs.Refusing.{fault_in};
ghost use Rattle.hx_admit.specs.Ruling.{case_of};

use super::check_rule;
use crate::case::Case;
use hx_model::{Denial, Rule, entries_of, names_kind};
use hx_object::well_known::CONFIG;
use hx_object::{Kind, ModeEntry};

/// The kinds whose resources entries may name.
const PLAIN_KINDS: [Kind; 9] = [
    Kind::Role,
    Kind::RoleBinding,
    Kind::ConfigMap,
    Kind::Secret,
    Kind::NetworkPolicy,
    Kind::LimitRange,
    Kind::Pod,
    Kind::Service,
    Kind::PersistentVolumeClaim,
];

/// The kinds whose mode is always the same.
const FIXED_KINDS: [Kind; 2] = [Kind::Role, Kind::RoleBinding];

/// The kinds whose objects are never copied.
const UNPROPAGATED_KINDS: [Kind; 3] = [Kind::Pod, Kind::Service, Kind::PersistentVolumeClaim];

pub fn check_rules(case: &Case) -> Result<(), Denial>
    ensures { fault_in result ≡ first (config_rules (case_of case.now)) }
{
    check_entries(entries_of(case.new), !case.skip && case.conflict)
}

/// The rules on entries, and on a conflict that they make.
fn check_entries(entries: &[ModeEntry], conflict: bool) -> Result<(), Denial>
    ensures { fault_in result ≡ first (entry_rules entries.now conflict) }
{
    if has_other(entries, &PLAIN_KINDS) {
        return Err(Denial::Broken(Rule::C2));
    }
    if is_one_twice(entries, &PLAIN_KINDS) {
        return Err(Denial::Broken(Rule::C3));
    }
    if has_one_of(entries, &FIXED_KINDS) {
        return Err(Denial::Broken(Rule::C4));
    }
    if has_one_of(entries, &UNPROPAGATED_KINDS) {
        return Err(Denial::Broken(Rule::C6));
    }
    check_rule(Rule::C5, conflict)
}

/// Whether it is a write of another name.
pub fn misses_name(case: &Case) -> bool
    ensures { result ≡ misses_config (case_of case.now) }
{
    case.is_write() && case.id.name.as_str() != CONFIG
}

/// Whether an entry names the resource of none of some kinds.
fn has_other(entries: &[ModeEntry], kinds: &[Kind]) -> bool
    ensures { result ≡ list_any (λ e. not (names_one_of kinds.now e)) entries.now }
{
    entries.iter().any(|entry| !names_one_of(entry, kinds))
}

/// Whether an entry names the resource of one of some kinds.
fn has_one_of(entries: &[ModeEntry], kinds: &[Kind]) -> bool
    ensures { result ≡ list_any (names_one_of kinds.now) entries.now }
{
    entries.iter().any(|entry| names_one_of(entry, kinds))
}

/// Whether the resource of one of some kinds is named by two entries.
fn is_one_twice(entries: &[ModeEntry], kinds: &[Kind]) -> bool
    ensures { result ≡ list_any (is_named_twice entries.now) kinds.now }
{
    kinds.iter().any(|kind| is_named_twice(entries, *kind))
}

fn is_named_twice(entries: &[ModeEntry], kind: Kind) -> bool
    ensures { result ≡ is_named_twice entries.now kind }
{
    count_named(entries, kind) > 1
}

/// How many entries name the resource of a kind.
fn count_named(entries: &[ModeEntry], kind: Kind) -> usize
    ensures { result ≡ length (filter (names_kind kind) entries.now) }
{
    entries
        .iter()
        .filter(|entry| names_kind(kind, entry))
        .count()
}

fn names_one_of(entry: &ModeEntry, kinds: &[Kind]) -> bool
    ensures { result ≡ names_one_of kinds.now entry.now }
{
    kinds.iter().any(|kind| names_kind(*kind, entry))
}
