// The write of what is reported of a namespace.
ghost use Rattle.std.specs.Prelude.{◌≡◌, ◌↔◌, ℕ, List, IfOk, IsTrue, Some, option_copied, true};
ghost use Rattle.hx_object.specs.declared.object.Payload.TheVariants.{Hierarchy};
ghost use Rattle.hx_model.specs.Reports.{bare_report, report_write};
ghost use Rattle.hx_model.specs.Subnamespaces.{allows_cascade};
ghost use Rattle.hx_model.specs.Tree.{spec_parent};

use hx_model::{Write, allows_cascade, named_parent};
use hx_object::well_known::HIERARCHY;
use hx_object::{Condition, Id, Kind, List, NoMemory, Object, Pairs, Payload, Shared, Text};
use std::alloc::Global;

/// The write of a namespace that takes reports: its HierarchyConfiguration tells its children and conditions. Where there is none, one is made that gives nothing, if there is something to tell.
pub(crate) fn wanted_report(
    alloc: Global,
    ns: &Text,
    hierarchy: &Option<Shared>,
    children: &List<Text>,
    conditions: &List<Condition>,
) -> Result<Option<Write>, NoMemory>
    ensures { IfOk result (λ write. write ≡ report_write true hierarchy.now children.now conditions.now ns.now) }
{
    match hierarchy {
        Some(shared) => told_by(shared.object(), children, conditions),
        None if children.as_slice().is_empty() && conditions.as_slice().is_empty() => Ok(None),
        None => Ok(Some(Write::Put(bare_report(alloc, ns, children, conditions)?))),
    }
}

/// The write by which a HierarchyConfiguration tells them. It is copied only where it is written.
fn told_by(
    hierarchy: &Object,
    children: &List<Text>,
    conditions: &List<Condition>,
) -> Result<Option<Write>, NoMemory>
    ensures { IfOk result (λ write. (ns : List ℕ) → write ≡ report_write true (Some hierarchy.now) children.now conditions.now ns) }
{
    if tells(&hierarchy.payload, children, conditions) {
        return Ok(None);
    }
    Ok(Some(Write::Put(Object {
        id: hierarchy.id.clone()?,
        labels: hierarchy.labels.clone()?,
        annotations: hierarchy.annotations.clone()?,
        payload: Payload::Hierarchy {
            parent: copied(named_parent(hierarchy))?,
            cascade: allows_cascade(&hierarchy.payload),
            children: children.clone()?,
            conditions: conditions.clone()?,
        },
        version: 0,
    })))
}

/// One that gives nothing, and tells them.
fn bare_report(
    alloc: Global,
    ns: &Text,
    children: &List<Text>,
    conditions: &List<Condition>,
) -> Result<Object, NoMemory>
    ensures { IfOk result (λ made. made ≡ bare_report ns.now children.now conditions.now) }
{
    Ok(Object {
        id: Id {
            kind: Kind::HierarchyConfiguration,
            ns: ns.clone()?,
            name: Text::of(alloc, HIERARCHY)?,
        },
        labels: Pairs::new(alloc),
        annotations: Pairs::new(alloc),
        payload: Payload::Hierarchy {
            parent: None,
            cascade: false,
            children: children.clone()?,
            conditions: conditions.clone()?,
        },
        version: 0,
    })
}

/// Whether the payload of a HierarchyConfiguration tells them, and nothing else.
fn tells(payload: &Payload, children: &List<Text>, conditions: &List<Condition>) -> bool
    ensures { IsTrue result ↔ (payload.now ≡ Hierarchy (spec_parent payload.now) (allows_cascade payload.now) children.now conditions.now) }
{
    match payload {
        Payload::Hierarchy {
            children: told,
            conditions: known,
            ..
        } => is_same_names(told, children) && is_same_conditions(known, conditions),
        _ => false,
    }
}

fn is_same_names(a: &List<Text>, b: &List<Text>) -> bool
    ensures { IsTrue result ↔ (a.now ≡ b.now) }
{
    a == b
}

fn is_same_conditions(a: &List<Condition>, b: &List<Condition>) -> bool
    ensures { IsTrue result ↔ (a.now ≡ b.now) }
{
    a == b
}

fn copied(name: Option<&Text>) -> Result<Option<Text>, NoMemory>
    ensures { IfOk result (λ copy. copy ≡ option_copied name.entry) }
{
    match name {
        Some(name) => Ok(Some(name.clone()?)),
        None => Ok(None),
    }
}
