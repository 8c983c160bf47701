// What the writes of keys depend on.
ghost use Rattle.std.specs.Prelude.{◌≡◌, IfOk, option_copied};
ghost use Rattle.hx_model.specs.Cases.{is_leaving};
ghost use Rattle.hx_model.specs.Tree.{forest_of};
ghost use Rattle.hx_model.specs.Wanted.{anchor_status};
ghost use Rattle.hx_model.specs.declared.key.Key.TheVariants as key;
ghost use Rattle.hx_reconcile.specs.Briefs.{facts_of};
ghost use Rattle.hx_reconcile.specs.declared.brief.Facts.TheVariants as facts;
ghost use Rattle.hx_briefs.specs.Briefing.{id_found};

use crate::conditions::conditions_of;
use crate::lookups::{anchor, hierarchy, inner, mode_of, namespace, quota, share};
use crate::sources::sources_above;
use crate::sums::sums_of;
use hx_model::{Key, is_owned_by};
use hx_object::{AnchorStatus, Id, Kind, List, NoMemory, Shared, Text};
use hx_reconcile::Facts;
use hx_state::IndexedState;
use std::alloc::Global;

/// What the write of a key depends on.
pub(crate) fn facts_of(state: &IndexedState, key: &Key) -> Result<Facts, NoMemory>
    ensures { IfOk result (λ made. made ≡ facts_of state.now.state key.now) }
{
    match key {
        Key::Copy { ns, kind, name } => copy_facts(state, ns, *kind, name),
        Key::Tree { ns } => tree_facts(state, ns),
        Key::Report { ns } => report_facts(state, ns),
        Key::Child { ns, name } => Ok(child_facts(state, ns, name)),
        Key::Anchor { ns, name } => anchor_facts(state, ns, name),
        Key::Used { ns, name } => used_facts(state, ns, name),
        Key::Purge { ns } => purge_facts(state, state.store().least(ns), ns),
    }
}

/// What the copy of a kind and name in a namespace depends on.
fn copy_facts(state: &IndexedState, ns: &Text, kind: Kind, name: &Text) -> Result<Facts, NoMemory>
    ensures { IfOk result (λ made. made ≡ facts_of state.now.state (key.Copy ns.now kind name.now)) }
{
    Ok(Facts::Copy {
        ns: share(namespace(state, ns))?,
        is_open: state.forest().is_open(ns),
        place: share(inner(state, kind, ns, name))?,
        mode: mode_of(state, kind),
        sources: List::of(sources_above(state, ns, kind, name)?),
    })
}

/// What a namespace's tree labels depend on.
fn tree_facts(state: &IndexedState, ns: &Text) -> Result<Facts, NoMemory>
    ensures { IfOk result (λ made. made ≡ facts_of state.now.state (key.Tree ns.now)) }
{
    Ok(Facts::Tree {
        ns: share(namespace(state, ns))?,
        is_open: state.forest().is_open(ns),
        chain: List::of(state.forest().chain(ns)?),
    })
}

/// What the report of a namespace depends on.
fn report_facts(state: &IndexedState, ns: &Text) -> Result<Facts, NoMemory>
    ensures { IfOk result (λ made. made ≡ facts_of state.now.state (key.Report ns.now)) }
{
    Ok(Facts::Report {
        is_eligible: state.forest().is_eligible(ns),
        hierarchy: share(hierarchy(state, ns))?,
        children: List::of(copies_of(state.allocator(), state.forest().children(ns))?),
        conditions: List::of(conditions_of(state, ns)?),
    })
}

/// What the subnamespace that an anchor asks for depends on.
fn child_facts(state: &IndexedState, ns: &Text, name: &Text) -> Facts
    ensures { result ≡ facts_of state.now.state (key.Child ns.now name.now) }
{
    Facts::Child {
        is_open: state.forest().is_open(ns),
        is_anchored: anchor(state, ns, name).is_some(),
        is_excluded: state.config().excludes(name),
        is_taken: namespace(state, name).is_some(),
    }
}

/// What the status of an anchor depends on.
fn anchor_facts(state: &IndexedState, ns: &Text, name: &Text) -> Result<Facts, NoMemory>
    ensures { IfOk result (λ made. made ≡ facts_of state.now.state (key.Anchor ns.now name.now)) }
{
    Ok(Facts::Anchor {
        is_live: state.forest().is_live(ns),
        anchor: share(anchor(state, ns, name))?,
        status: status_of(state, ns, name),
    })
}

/// What the status of a quota depends on.
fn used_facts(state: &IndexedState, ns: &Text, name: &Text) -> Result<Facts, NoMemory>
    ensures { IfOk result (λ made. made ≡ facts_of state.now.state (key.Used ns.now name.now)) }
{
    let found = quota(state, ns, name);
    Ok(Facts::Used {
        is_live: state.forest().is_live(ns),
        quota: share(found)?,
        sums: List::of(sums_of(state, ns, found)?),
    })
}

/// What the removal of a namespace depends on, by the first object that lies in it.
pub(crate) fn purge_facts(
    state: &IndexedState,
    least: Option<&Shared>,
    ns: &Text,
) -> Result<Facts, NoMemory>
    ensures { IfOk result (λ made. made ≡ facts.Purge (is_leaving (forest_of state.now.state) ns.now) (id_found (option_copied least.entry))) }
{
    Ok(Facts::Purge {
        is_leaving: state.forest().is_leaving(ns),
        least: id_of(least)?,
    })
}

/// The identity of what is found.
fn id_of(found: Option<&Shared>) -> Result<Option<Id>, NoMemory>
    ensures { IfOk result (λ id. id ≡ id_found (option_copied found.entry)) }
{
    match found {
        Some(object) => Ok(Some(object.object().id.clone()?)),
        None => Ok(None),
    }
}

/// The status that an anchor is to have.
fn status_of(state: &IndexedState, ns: &Text, name: &Text) -> AnchorStatus
    ensures { result ≡ anchor_status state.now.state ns.now name.now }
{
    let config = state.config();
    if config.excludes(ns) || config.excludes(name) {
        return AnchorStatus::Forbidden;
    }
    match namespace(state, name) {
        None => AnchorStatus::Missing,
        Some(found) if is_owned_by(found.object(), ns) => AnchorStatus::Ok,
        Some(_) => AnchorStatus::Conflict,
    }
}

fn copies_of(alloc: Global, names: &[Text]) -> Result<Vec<Text>, NoMemory>
    ensures { IfOk result (λ copies. copies.items ≡ names.now) }
{
    let mut copies = Vec::new(alloc);
    for name in names {
        copies.push(name.clone()?)?;
    }
    Ok(copies)
}
