// The writes of the subnamespace that an anchor asks for, and of the anchor's status.
ghost use Rattle.std.specs.Prelude.{◌≡◌, ◌↔◌, IfOk, IsTrue, Some};
ghost use Rattle.hx_object.specs.declared.object.Payload.TheVariants.{Anchor};
ghost use Rattle.hx_model.specs.Wanted.{placed, subnamespace, with_status_of};

use crate::removals::namespace_id;
use hx_model::Write;
use hx_object::well_known::SUBNAMESPACE_OF;
use hx_object::{AnchorStatus, NoMemory, Object, Pairs, Payload, Text};
use std::alloc::Global;

/// A subnamespace of a parent, as it is made: its annotation names the parent.
pub(crate) fn subnamespace(alloc: Global, parent: &Text, name: &Text) -> Result<Object, NoMemory>
    ensures { IfOk result (λ made. made ≡ subnamespace parent.now name.now) }
{
    let mut annotations = Pairs::new(alloc);
    annotations.put(Text::of(alloc, SUBNAMESPACE_OF)?, parent.clone()?)?;
    Ok(Object {
        id: namespace_id(alloc, name)?,
        labels: Pairs::new(alloc),
        annotations,
        payload: Payload::Namespace { terminating: false },
        version: 0,
    })
}

/// The write of an anchor: it has the status. It is copied only where it is written.
pub(crate) fn wanted_status(
    status: AnchorStatus,
    anchor: &Object,
) -> Result<Option<Write>, NoMemory>
    ensures { IfOk result (λ write. write ≡ placed (with_status_of status anchor.now) (Some anchor.now)) }
{
    if has_status(&anchor.payload, status) {
        return Ok(None);
    }
    Ok(Some(Write::Put(Object {
        id: anchor.id.clone()?,
        labels: anchor.labels.clone()?,
        annotations: anchor.annotations.clone()?,
        payload: Payload::Anchor {
            status: Some(status),
        },
        version: 0,
    })))
}

/// Whether an anchor's payload has the status.
fn has_status(payload: &Payload, status: AnchorStatus) -> bool
    ensures { IsTrue result ↔ (payload.now ≡ Anchor (Some status)) }
{
    match payload {
        Payload::Anchor {
            status: Some(known),
        } => *known == status,
        _ => false,
    }
}
