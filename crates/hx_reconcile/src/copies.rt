// The write of a place of copies.
ghost use Rattle.std.specs.Prelude.{◌≡◌, ◌<◌, IfOk, IfSome, length};
ghost use Rattle.hx_object.specs.Names.{first_slash};
ghost use Rattle.hx_object.specs.Pairs.{with_pair};
ghost use Rattle.hx_object.specs.WellKnown.{inherited_from};
ghost use Rattle.hx_model.specs.Answers.{same_object};
ghost use Rattle.hx_model.specs.Propagation.{copy_of, is_hnc_key, is_hnc_domain, kept_annotations, top_of};
ghost use Rattle.hx_model.specs.State.{with_version};
ghost use Rattle.hx_model.specs.Wanted.{copied_in, placed, without_copy};
ghost use Rattle.hx_reconcile.specs.Briefs.{is_placed};

use crate::sources::top_source;
use hx_model::{Write, is_copy};
use hx_object::well_known::INHERITED_FROM;
use hx_object::{Id, Mode, NoMemory, Object, Pairs, Payload, Shared, Text};
use std::alloc::Global;

/// The write of a place in a namespace that takes part, by the mode of its kind.
pub(crate) fn wanted_copy(
    alloc: Global,
    name: &Text,
    namespace: &Object,
    mode: Mode,
    sources: &[Shared],
    place: &Option<Shared>,
) -> Result<Option<Write>, NoMemory>
    ensures { IfOk result (λ write. write ≡ copied_in mode (top_of mode namespace.now.labels sources.now) name.now place.now) }
{
    match mode {
        Mode::Ignore => Ok(None),
        Mode::Remove => without_copy(place),
        Mode::Propagate | Mode::AllowPropagate => {
            match top_source(alloc, mode, &namespace.labels, sources)? {
                None => without_copy(place),
                Some(source) => with_copy(alloc, source.object(), name, place),
            }
        }
    }
}

/// A copy goes, and a source stays.
fn without_copy(place: &Option<Shared>) -> Result<Option<Write>, NoMemory>
    ensures { IfOk result (λ write. write ≡ without_copy place.now) }
{
    let Some(old) = place else {
        return Ok(None);
    };
    if !is_copy(old.object()) {
        return Ok(None);
    }
    Ok(Some(Write::Cut(old.object().id.clone()?)))
}

/// The copy of a source stands in the place, instead of what differs from it. The contents are copied only where they are written.
fn with_copy(
    alloc: Global,
    source: &Object,
    name: &Text,
    place: &Option<Shared>,
) -> Result<Option<Write>, NoMemory>
    ensures { IfOk result (λ write. write ≡ placed (copy_of source.now name.now) place.now) }
{
    let id = Id {
        kind: source.id.kind,
        ns: name.clone()?,
        name: source.id.name.clone()?,
    };
    let labels = copied_labels(alloc, source)?;
    let annotations = kept_annotations(alloc, &source.annotations)?;
    if is_placed(place, &id, &labels, &annotations, &source.payload) {
        return Ok(None);
    }
    Ok(Some(Write::Put(Object {
        id,
        labels,
        annotations,
        payload: source.payload.copy()?,
        version: 0,
    })))
}

/// Whether an object of these parts is there, whatever its version.
fn is_placed(
    place: &Option<Shared>,
    id: &Id,
    labels: &Pairs,
    annotations: &Pairs,
    payload: &Payload,
) -> bool
    ensures { result ≡ is_placed place.now (record { id = id.now; labels = labels.now; annotations = annotations.now; payload = payload.now; version = 0 }) }
{
    match place {
        None => false,
        Some(old) => is_made_of(old.object(), id, labels, annotations, payload),
    }
}

/// Whether an object has these parts, whatever its version.
fn is_made_of(old: &Object, id: &Id, labels: &Pairs, annotations: &Pairs, payload: &Payload) -> bool
    ensures { result ≡ same_object (with_version old.now 0) (record { id = id.now; labels = labels.now; annotations = annotations.now; payload = payload.now; version = 0 }) }
{
    old.id.is_same(id)
        && old.labels.is_same(labels)
        && old.annotations.is_same(annotations)
        && old.payload.is_same(payload)
}

/// The labels of a source, with the one that tells where it lies.
fn copied_labels(alloc: Global, source: &Object) -> Result<Pairs, NoMemory>
    ensures { IfOk result (λ labels. labels ≡ with_pair inherited_from source.now.id.ns source.now.labels) }
{
    let mut labels = source.labels.clone()?;
    labels.put(Text::of(alloc, INHERITED_FROM)?, source.id.ns.clone()?)?;
    Ok(labels)
}

/// The annotations that a copy keeps: those that aren't HNC's.
fn kept_annotations(alloc: Global, annotations: &Pairs) -> Result<Pairs, NoMemory>
    ensures { IfOk result (λ kept. kept ≡ kept_annotations annotations.now) }
{
    let mut kept = Vec::new(alloc);
    for pair in annotations.as_slice() {
        if !is_hnc_key(pair.0.as_bytes()) {
            kept.push(pair.clone()?)?;
        }
    }
    Ok(Pairs::of(kept))
}

/// Whether the key of an annotation has a prefix, before its first slash, that is a domain of HNC's.
fn is_hnc_key(key: &[u8]) -> bool
    ensures { result ≡ is_hnc_key key.now }
{
    match first_slash(key) {
        None => false,
        Some(slash) => is_hnc_domain(&key[..slash]),
    }
}

fn first_slash(key: &[u8]) -> Option<usize>
    ensures place { result ≡ first_slash key.now }
    ensures within { IfSome result (λ slash. slash < length key.now) }
{
    key.iter().position(|byte| *byte == b'/')
}

fn is_hnc_domain(prefix: &[u8]) -> bool
    ensures { result ≡ is_hnc_domain prefix.now }
{
    prefix == b"hnc.x-k8s.io".as_slice() || prefix.ends_with(b".hnc.x-k8s.io")
}
