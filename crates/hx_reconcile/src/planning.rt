// Plans are made.
ghost use Rattle.std.specs.Prelude.{◌≡◌, ℕ, List, IfErr, IfOk};
ghost use Rattle.hx_object.specs.declared.kind.Kind.{Kind as kind_of};
ghost use Rattle.hx_model.specs.declared.key.Key.TheVariants as key;
ghost use Rattle.hx_reconcile.specs.Briefs.{IsShort, IsStorableFor, IsWanted, planned, planned_by};

use crate::copies::wanted_copy;
use crate::removals::next_to_go;
use crate::reports::wanted_report;
use crate::subnamespaces::{subnamespace, wanted_status};
use crate::tree_labels::wanted_labels;
use crate::usage::{law_of_sums, wanted_usages};
use crate::{Brief, Facts, Plan, SharedBrief};
use hx_model::{Key, Write};
use hx_object::{NoMemory, Text};
use std::alloc::Global;

/// The plan of a brief. Where no memory is left, the brief comes back.
///
/// The write is that of HNC's reconcilers (HNC user guide, concepts): in a namespace that takes part, a place of copies holds the copy of the farthest source that goes there, the namespace's labels tell its ancestors, and each anchor has its subnamespace. An anchor tells its status, a HierarchyConfiguration the children and the conditions of its namespace, and a quota what is used of its limits. Of a namespace that is on its way out, what lies in it goes object by object, and then the namespace.
pub fn plan(alloc: Global, brief: SharedBrief) -> Result<Plan, SharedBrief>
    ensures brief { IfOk result (λ planned. planned.brief ≡ brief) }
    ensures planned { IfOk result (λ planned. planned.write ≡ planned_by brief) }
    ensures wanted { IfOk result (λ planned. IsWanted brief planned.write) }
    ensures storable { IfOk result (λ planned. IsStorableFor brief planned.write) }
    ensures given_back { IfErr result (λ same. same ≡ brief) }
{
    match write_of(alloc, brief.brief()) {
        Ok(write) => Ok(Plan::new(brief, write)),
        Err(NoMemory) => Err(brief),
    }
}

/// The write that a brief asks for. Facts that aren't of the brief's kind of key ask for nothing.
fn write_of(alloc: Global, brief: &Brief) -> Result<Option<Write>, NoMemory>
    ensures planned { IfOk result (λ write. write ≡ planned_by brief.now) }
    ensures short { IfOk result (λ write. IsShort brief.now.facts write) }
{
    match &brief.key {
        Key::Copy { ns, .. } => write_of_copy(alloc, ns, &brief.facts),
        Key::Tree { .. } => write_of_tree(alloc, &brief.facts),
        Key::Report { ns } => write_of_report(alloc, ns, &brief.facts),
        Key::Child { ns, name } => write_of_child(alloc, ns, name, &brief.facts),
        Key::Anchor { .. } => write_of_anchor(&brief.facts),
        Key::Used { .. } => write_of_used(alloc, &brief.facts),
        Key::Purge { ns } => write_of_purge(alloc, ns, &brief.facts),
    }
}

/// The write of a place of copies in a namespace.
fn write_of_copy(alloc: Global, ns: &Text, facts: &Facts) -> Result<Option<Write>, NoMemory>
    ensures planned { IfOk result (λ write. (kind : kind_of) (name : List ℕ) → write ≡ planned (key.Copy ns.now kind name) facts.now) }
    ensures short { IfOk result (λ write. IsShort facts.now write) }
{
    match facts {
        Facts::Copy {
            ns: Some(namespace),
            is_open,
            place,
            mode,
            sources,
        } if *is_open => wanted_copy(
            alloc,
            ns,
            namespace.object(),
            *mode,
            sources.as_slice(),
            place,
        ),
        _ => Ok(None),
    }
}

/// The write of a namespace's tree labels.
fn write_of_tree(alloc: Global, facts: &Facts) -> Result<Option<Write>, NoMemory>
    ensures planned { IfOk result (λ write. (ns : List ℕ) → write ≡ planned (key.Tree ns) facts.now) }
    ensures short { IfOk result (λ write. IsShort facts.now write) }
{
    match facts {
        Facts::Tree {
            ns: Some(namespace),
            is_open,
            chain,
        } if *is_open => wanted_labels(alloc, chain.as_slice(), namespace.object()),
        _ => Ok(None),
    }
}

/// The write of what is reported of a namespace.
fn write_of_report(alloc: Global, ns: &Text, facts: &Facts) -> Result<Option<Write>, NoMemory>
    ensures planned { IfOk result (λ write. write ≡ planned (key.Report ns.now) facts.now) }
    ensures short { IfOk result (λ write. IsShort facts.now write) }
{
    match facts {
        Facts::Report {
            is_eligible: true,
            hierarchy,
            children,
            conditions,
        } => wanted_report(alloc, ns, hierarchy, children, conditions),
        _ => Ok(None),
    }
}

/// The write of the subnamespace that an anchor asks for.
fn write_of_child(
    alloc: Global,
    ns: &Text,
    name: &Text,
    facts: &Facts,
) -> Result<Option<Write>, NoMemory>
    ensures planned { IfOk result (λ write. write ≡ planned (key.Child ns.now name.now) facts.now) }
    ensures short { IfOk result (λ write. IsShort facts.now write) }
{
    match facts {
        Facts::Child {
            is_open: true,
            is_anchored: true,
            is_excluded: false,
            is_taken: false,
        } => Ok(Some(Write::Put(subnamespace(alloc, ns, name)?))),
        _ => Ok(None),
    }
}

/// The write of an anchor's status.
fn write_of_anchor(facts: &Facts) -> Result<Option<Write>, NoMemory>
    ensures planned { IfOk result (λ write. (ns name : List ℕ) → write ≡ planned (key.Anchor ns name) facts.now) }
    ensures short { IfOk result (λ write. IsShort facts.now write) }
{
    match facts {
        Facts::Anchor {
            is_live: true,
            anchor: Some(anchor),
            status,
        } => wanted_status(*status, anchor.object()),
        _ => Ok(None),
    }
}

/// The write of a quota's status.
fn write_of_used(alloc: Global, facts: &Facts) -> Result<Option<Write>, NoMemory>
    ensures planned { IfOk result (λ write. (ns name : List ℕ) → write ≡ planned (key.Used ns name) facts.now) }
    ensures short { IfOk result (λ write. IsShort facts.now write) }
{
    match facts {
        Facts::Used {
            is_live: true,
            quota: Some(quota),
            sums,
        } => {
            law_of_sums(sums.as_slice());
            wanted_usages(alloc, quota.object(), sums.as_slice())
        }
        _ => Ok(None),
    }
}

/// The write of a namespace that is on its way out.
fn write_of_purge(alloc: Global, ns: &Text, facts: &Facts) -> Result<Option<Write>, NoMemory>
    ensures planned { IfOk result (λ write. write ≡ planned (key.Purge ns.now) facts.now) }
    ensures short { IfOk result (λ write. IsShort facts.now write) }
{
    match facts {
        Facts::Purge {
            is_leaving: true,
            least,
        } => Ok(Some(Write::Cut(next_to_go(alloc, least, ns)?))),
        _ => Ok(None),
    }
}
