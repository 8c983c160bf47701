// The places of copies.
ghost use Rattle.std.specs.Prelude.{◌≡◌, ◌++◌, OnOk, IfOk, Some, flat_map, option_copied};
ghost use Rattle.std.specs.List.{list_any};
ghost use Rattle.hx_model.specs.Propagation.{id_in, is_source, source_at, sources_along};
ghost use Rattle.hx_audit.specs.Candidates.{has_sources, is_lacking, kind_keys, lacking_keys, nearest_first, open_keys, place_facts, place_keys, senders, sent_keys, taken_keys};

use crate::keep::keep;
use crate::lookups::{mode_of, namespace, share};
use hx_model::{Key, is_source};
use hx_object::{Kind, List, Mode, NoMemory, Object, Shared, Text};
use hx_reconcile::Facts;
use hx_survey::Survey;

/// A namespace that takes part.
#[derive(Drop)]
pub(crate) struct Member<'a> {
    pub(crate) name: &'a Text,
    pub(crate) namespace: &'a Shared,
    /// The namespaces above it, the nearest first.
    pub(crate) above: &'a [Text],
}

/// Adds the keys of the places in a namespace that want a write, or nothing where it takes no part.
pub(crate) fn push_copies(
    survey: &Survey,
    kinds: &[Kind],
    is_open: bool,
    above: &[Text],
    name: &Text,
    wanting: &mut Vec<Key>,
) -> Result<(), NoMemory>
    ensures { OnOk result (wanting.new.items ≡ wanting.old.items ++ open_keys survey.now.objects kinds.now is_open above.now name.now) }
{
    if !is_open {
        return Ok(());
    }
    match namespace(survey, name) {
        Some(namespace) => push_kinds(
            survey,
            &Member {
                name,
                namespace,
                above,
            },
            kinds,
            wanting,
        ),
        None => Ok(()),
    }
}

/// Adds those of some kinds.
fn push_kinds(
    survey: &Survey,
    member: &Member,
    kinds: &[Kind],
    wanting: &mut Vec<Key>,
) -> Result<(), NoMemory>
    ensures { OnOk result (wanting.new.items ≡ wanting.old.items ++ flat_map (kind_keys survey.now.objects member.now.namespace.now member.now.above.now member.now.name.now) kinds.now) }
{
    for kind in kinds {
        push_kind(survey, member, *kind, wanting)?;
    }
    Ok(())
}

/// Adds those of a kind. Of the namespaces above only those count that have sources of it.
fn push_kind(
    survey: &Survey,
    member: &Member,
    kind: Kind,
    wanting: &mut Vec<Key>,
) -> Result<(), NoMemory>
    ensures { OnOk result (wanting.new.items ≡ wanting.old.items ++ kind_keys survey.now.objects member.now.namespace.now member.now.above.now member.now.name.now kind) }
{
    let mode = mode_of(survey, kind);
    let senders = senders(survey, kind, member.above)?;
    let below = Member {
        name: member.name,
        namespace: member.namespace,
        above: &senders,
    };
    push_taken(survey, &below, mode, kind, wanting)?;
    push_sent(survey, &below, mode, kind, wanting)
}

/// Those of some namespaces that have sources of a kind.
fn senders(survey: &Survey, kind: Kind, names: &[Text]) -> Result<Vec<Text>, NoMemory>
    ensures { IfOk result (λ found. found.items ≡ senders survey.now.objects kind names.now) }
{
    let mut found = Vec::new(survey.allocator());
    for name in names {
        if has_sources(survey, kind, name) {
            found.push(name.clone()?)?;
        }
    }
    Ok(found)
}

/// Whether a namespace has sources of a kind.
fn has_sources(survey: &Survey, kind: Kind, ns: &Text) -> bool
    ensures { result ≡ has_sources survey.now.objects kind ns.now }
{
    has_source(survey.in_namespace(kind, ns))
}

fn has_source(objects: &[Shared]) -> bool
    ensures { result ≡ list_any is_source objects.now }
{
    for object in objects {
        if is_source(object.object()) {
            return true;
        }
    }
    false
}

/// Adds those of the places where something lies.
fn push_taken(
    survey: &Survey,
    member: &Member,
    mode: Mode,
    kind: Kind,
    wanting: &mut Vec<Key>,
) -> Result<(), NoMemory>
    ensures { OnOk result (wanting.new.items ≡ wanting.old.items ++ taken_keys survey.now.objects mode member.now.namespace.now member.now.above.now member.now.name.now kind) }
{
    push_places(
        survey,
        member,
        mode,
        kind,
        survey.in_namespace(kind, member.name),
        wanting,
    )
}

fn push_places(
    survey: &Survey,
    member: &Member,
    mode: Mode,
    kind: Kind,
    objects: &[Shared],
    wanting: &mut Vec<Key>,
) -> Result<(), NoMemory>
    ensures { OnOk result (wanting.new.items ≡ wanting.old.items ++ flat_map (λ y. place_keys survey.now.objects mode member.now.namespace.now member.now.above.now member.now.name.now kind y.id.name) objects.now) }
{
    for object in objects {
        push_place(
            survey,
            member,
            mode,
            kind,
            &object.object().id.name,
            wanting,
        )?;
    }
    Ok(())
}

/// Adds those of the sources in the namespaces above whose place is empty.
fn push_sent(
    survey: &Survey,
    member: &Member,
    mode: Mode,
    kind: Kind,
    wanting: &mut Vec<Key>,
) -> Result<(), NoMemory>
    ensures { OnOk result (wanting.new.items ≡ wanting.old.items ++ flat_map (sent_keys survey.now.objects mode member.now.namespace.now member.now.above.now member.now.name.now kind) member.now.above.now) }
{
    for ancestor in member.above {
        let objects = survey.in_namespace(kind, ancestor);
        push_lacking(survey, member, mode, kind, objects, wanting)?;
    }
    Ok(())
}

fn push_lacking(
    survey: &Survey,
    member: &Member,
    mode: Mode,
    kind: Kind,
    objects: &[Shared],
    wanting: &mut Vec<Key>,
) -> Result<(), NoMemory>
    ensures { OnOk result (wanting.new.items ≡ wanting.old.items ++ flat_map (lacking_keys survey.now.objects mode member.now.namespace.now member.now.above.now member.now.name.now kind) objects.now) }
{
    for object in objects {
        if is_lacking(survey, member.name, kind, object.object()) {
            push_place(
                survey,
                member,
                mode,
                kind,
                &object.object().id.name,
                wanting,
            )?;
        }
    }
    Ok(())
}

/// Whether a source has nothing in its place in a namespace.
fn is_lacking(survey: &Survey, ns: &Text, kind: Kind, object: &Object) -> bool
    ensures { result ≡ is_lacking survey.now.objects ns.now kind object.now }
{
    is_source(object)
        && survey
            .find(kind, ns.as_str(), object.id.name.as_str())
            .is_none()
}

/// Adds the key of a place, where it wants a write.
fn push_place(
    survey: &Survey,
    member: &Member,
    mode: Mode,
    kind: Kind,
    name: &Text,
    wanting: &mut Vec<Key>,
) -> Result<(), NoMemory>
    ensures { OnOk result (wanting.new.items ≡ wanting.old.items ++ place_keys survey.now.objects mode member.now.namespace.now member.now.above.now member.now.name.now kind name.now) }
{
    let facts = place_facts(survey, member, mode, kind, name)?;
    let key = Key::Copy {
        ns: member.name.clone()?,
        kind,
        name: name.clone()?,
    };
    keep(survey.allocator(), wanting, key, facts)
}

/// What the copy of a kind and name in a namespace depends on.
fn place_facts(
    survey: &Survey,
    member: &Member,
    mode: Mode,
    kind: Kind,
    name: &Text,
) -> Result<Facts, NoMemory>
    ensures { IfOk result (λ made. made ≡ place_facts survey.now.objects mode member.now.namespace.now member.now.above.now member.now.name.now kind name.now) }
{
    let found = survey.find(kind, member.name.as_str(), name.as_str());
    Ok(Facts::Copy {
        ns: Some(member.namespace.share()?),
        is_open: true,
        place: share(found)?,
        mode,
        sources: List::of(sources_above(survey, member.above, kind, name)?),
    })
}

/// The sources of a kind and a name in some namespaces, the last first.
#[tactic(auto, using(crate::proofs::Nearest::farthest_first))]
fn sources_above(
    survey: &Survey,
    above: &[Text],
    kind: Kind,
    name: &Text,
) -> Result<Vec<Shared>, NoMemory>
    ensures { IfOk result (λ sources. sources.items ≡ sources_along survey.now.objects kind name.now above.now) }
{
    let mut sources = Vec::new(survey.allocator());
    push_sources(survey, above, kind, name, &mut sources)?;
    sources.reverse();
    Ok(sources)
}

/// Adds the sources of a kind and a name in some namespaces.
fn push_sources(
    survey: &Survey,
    above: &[Text],
    kind: Kind,
    name: &Text,
    sources: &mut Vec<Shared>,
) -> Result<(), NoMemory>
    ensures { OnOk result (sources.new.items ≡ sources.old.items ++ nearest_first survey.now.objects kind name.now above.now) }
{
    for ancestor in above {
        if let Some(source) = source_in(survey, ancestor, kind, name) {
            sources.push(source.share()?)?;
        }
    }
    Ok(())
}

/// The source of a kind and a name in a namespace.
fn source_in<'a>(survey: &Survey<'a>, ns: &Text, kind: Kind, name: &Text) -> Option<&'a Shared>
    ensures { option_copied result ≡ source_at survey.now.objects (id_in kind name.now ns.now) }
{
    match survey.find(kind, ns.as_str(), name.as_str()) {
        Some(object) if is_source(object.object()) => Some(object),
        _ => None,
    }
}
