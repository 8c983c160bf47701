// The keys of namespaces.
ghost use Rattle.std.specs.Prelude.{◌≡◌, ◌++◌, IfOk, OnOk, Some, option_copied, option_map};
ghost use Rattle.hx_model.specs.Forest.{chain_of};
ghost use Rattle.hx_model.specs.TreeLabels.{is_open as takes_part};
ghost use Rattle.hx_model.specs.declared.key.Key.TheVariants as key;
ghost use Rattle.hx_reconcile.specs.Briefs.{facts_of};
ghost use Rattle.hx_survey.specs.Surveyed.{tree_of};
ghost use Rattle.hx_audit.specs.Candidates.{active_kinds, state_of, wanted, wanting_of};

use crate::anchors::push_anchors;
use crate::copies::push_copies;
use crate::keep::keep;
use crate::lookups::{hierarchy, namespace, share, tail_of};
use crate::quotas::push_quotas;
use hx_model::Key;
use hx_object::{Id, Kind, List, NoMemory, Shared, Text};
use hx_reconcile::Facts;
use hx_survey::Survey;

/// Adds the keys of a namespace that want a write.
pub(crate) fn push_namespace(
    survey: &Survey,
    excluded: &[Text],
    kinds: &[Kind],
    ns: &Text,
    wanting: &mut Vec<Key>,
) -> Result<(), NoMemory>
    requires excluded { excluded.now ≡ survey.now.excluded }
    requires kinds { kinds.now ≡ active_kinds survey.now }
    ensures { OnOk result (wanting.new.items ≡ wanting.old.items ++ wanting_of survey.now ns.now) }
{
    let chain = survey.chain(ns)?;
    let is_open = survey.is_open(ns);
    push_copies(survey, kinds, is_open, tail_of(&chain), ns, wanting)?;
    push_tree(survey, is_open, chain, ns, wanting)?;
    push_report(survey, ns, wanting)?;
    push_removal(survey, ns, wanting)?;
    push_anchors(survey, excluded, ns, wanting)?;
    push_quotas(survey, ns, wanting)
}

/// Adds the key of its tree labels.
fn push_tree(
    survey: &Survey,
    is_open: bool,
    chain: Vec<Text>,
    ns: &Text,
    wanting: &mut Vec<Key>,
) -> Result<(), NoMemory>
    requires open { is_open ≡ takes_part (tree_of survey.now) ns.now }
    requires chain { chain.items ≡ chain_of (tree_of survey.now) ns.now }
    ensures { OnOk result (wanting.new.items ≡ wanting.old.items ++ wanted survey.now (key.Tree ns.now)) }
{
    let facts = Facts::Tree {
        ns: share(namespace(survey, ns))?,
        is_open,
        chain: List::of(chain),
    };
    let key = Key::Tree { ns: ns.clone()? };
    keep(survey.allocator(), wanting, key, facts)
}

/// Adds the key of its report.
fn push_report(survey: &Survey, ns: &Text, wanting: &mut Vec<Key>) -> Result<(), NoMemory>
    ensures { OnOk result (wanting.new.items ≡ wanting.old.items ++ wanted survey.now (key.Report ns.now)) }
{
    let facts = report_facts(survey, ns)?;
    let key = Key::Report { ns: ns.clone()? };
    keep(survey.allocator(), wanting, key, facts)
}

/// What its report depends on.
fn report_facts(survey: &Survey, ns: &Text) -> Result<Facts, NoMemory>
    ensures { IfOk result (λ made. made ≡ facts_of (state_of survey.now) (key.Report ns.now)) }
{
    Ok(Facts::Report {
        is_eligible: survey.is_eligible(ns),
        hierarchy: share(hierarchy(survey, ns))?,
        children: List::of(survey.children(ns)?),
        conditions: List::of(survey.conditions(ns)?),
    })
}

/// Adds the key of its removal.
fn push_removal(survey: &Survey, ns: &Text, wanting: &mut Vec<Key>) -> Result<(), NoMemory>
    ensures { OnOk result (wanting.new.items ≡ wanting.old.items ++ wanted survey.now (key.Purge ns.now)) }
{
    if !survey.is_leaving(ns) {
        return Ok(());
    }
    let facts = removal_facts(survey, ns)?;
    let key = Key::Purge { ns: ns.clone()? };
    keep(survey.allocator(), wanting, key, facts)
}

/// What its removal depends on.
fn removal_facts(survey: &Survey, ns: &Text) -> Result<Facts, NoMemory>
    ensures { IfOk result (λ made. made ≡ facts_of (state_of survey.now) (key.Purge ns.now)) }
{
    Ok(Facts::Purge {
        is_leaving: survey.is_leaving(ns),
        least: id_of(survey.least_in(ns))?,
    })
}

/// The identity of what is found.
fn id_of(found: Option<&Shared>) -> Result<Option<Id>, NoMemory>
    ensures { IfOk result (λ id. id ≡ option_map (λ x. x.id) (option_copied found.entry)) }
{
    match found {
        Some(object) => Ok(Some(object.object().id.clone()?)),
        None => Ok(None),
    }
}
