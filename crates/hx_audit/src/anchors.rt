// The keys of anchors.
ghost use Rattle.std.specs.Prelude.{◌≡◌, ◌++◌, ◌||◌, IfOk, OnOk, Some, flat_map};
ghost use Rattle.hx_object.specs.declared.kind.Kind.TheVariants.{SubnamespaceAnchor as AnchorKind};
ghost use Rattle.hx_model.specs.Forest.{is_in};
ghost use Rattle.hx_model.specs.State.{object_at, namespace_id};
ghost use Rattle.hx_model.specs.Wanted.{status_by};
ghost use Rattle.hx_model.specs.declared.key.Key.TheVariants as key;
ghost use Rattle.hx_reconcile.specs.Briefs.{facts_of};
ghost use Rattle.hx_audit.specs.Candidates.{anchor_keys, listed_in, state_of, wanted};

use crate::keep::keep;
use crate::lookups::{anchor, namespace, share};
use hx_model::{Key, is_owned_by};
use hx_object::{AnchorStatus, Kind, NoMemory, Shared, Text};
use hx_reconcile::Facts;
use hx_survey::Survey;

/// Adds the keys of the anchors in a namespace that want a write.
pub(crate) fn push_anchors(
    survey: &Survey,
    excluded: &[Text],
    ns: &Text,
    wanting: &mut Vec<Key>,
) -> Result<(), NoMemory>
    requires excluded { excluded.now ≡ survey.now.excluded }
    ensures { OnOk result (wanting.new.items ≡ wanting.old.items ++ flat_map (anchor_keys survey.now ns.now) (listed_in survey.now.objects AnchorKind ns.now)) }
{
    let anchors = survey.in_namespace(Kind::SubnamespaceAnchor, ns);
    push_each(survey, excluded, ns, anchors, wanting)
}

fn push_each(
    survey: &Survey,
    excluded: &[Text],
    ns: &Text,
    anchors: &[Shared],
    wanting: &mut Vec<Key>,
) -> Result<(), NoMemory>
    requires excluded { excluded.now ≡ survey.now.excluded }
    ensures { OnOk result (wanting.new.items ≡ wanting.old.items ++ flat_map (anchor_keys survey.now ns.now) anchors.now) }
{
    for anchor in anchors {
        let name = &anchor.object().id.name;
        push_child(survey, excluded, ns, name, wanting)?;
        push_status(survey, excluded, ns, name, wanting)?;
    }
    Ok(())
}

/// Adds the key of the subnamespace that an anchor asks for.
fn push_child(
    survey: &Survey,
    excluded: &[Text],
    ns: &Text,
    name: &Text,
    wanting: &mut Vec<Key>,
) -> Result<(), NoMemory>
    requires excluded { excluded.now ≡ survey.now.excluded }
    ensures { OnOk result (wanting.new.items ≡ wanting.old.items ++ wanted survey.now (key.Child ns.now name.now)) }
{
    let facts = child_facts(survey, excluded, ns, name);
    let key = Key::Child {
        ns: ns.clone()?,
        name: name.clone()?,
    };
    keep(survey.allocator(), wanting, key, facts)
}

/// What that subnamespace depends on.
fn child_facts(survey: &Survey, excluded: &[Text], ns: &Text, name: &Text) -> Facts
    requires excluded { excluded.now ≡ survey.now.excluded }
    ensures { result ≡ facts_of (state_of survey.now) (key.Child ns.now name.now) }
{
    Facts::Child {
        is_open: survey.is_open(ns),
        is_anchored: anchor(survey, ns, name).is_some(),
        is_excluded: is_in(name, excluded),
        is_taken: namespace(survey, name).is_some(),
    }
}

/// Adds the key of the status of an anchor.
fn push_status(
    survey: &Survey,
    excluded: &[Text],
    ns: &Text,
    name: &Text,
    wanting: &mut Vec<Key>,
) -> Result<(), NoMemory>
    requires excluded { excluded.now ≡ survey.now.excluded }
    ensures { OnOk result (wanting.new.items ≡ wanting.old.items ++ wanted survey.now (key.Anchor ns.now name.now)) }
{
    let facts = status_facts(survey, excluded, ns, name)?;
    let key = Key::Anchor {
        ns: ns.clone()?,
        name: name.clone()?,
    };
    keep(survey.allocator(), wanting, key, facts)
}

/// What that status depends on.
fn status_facts(
    survey: &Survey,
    excluded: &[Text],
    ns: &Text,
    name: &Text,
) -> Result<Facts, NoMemory>
    requires excluded { excluded.now ≡ survey.now.excluded }
    ensures { IfOk result (λ made. made ≡ facts_of (state_of survey.now) (key.Anchor ns.now name.now)) }
{
    Ok(Facts::Anchor {
        is_live: survey.is_live(ns),
        anchor: share(anchor(survey, ns, name))?,
        status: status_of(survey, excluded, ns, name),
    })
}

/// The status that an anchor is to have.
fn status_of(survey: &Survey, excluded: &[Text], ns: &Text, name: &Text) -> AnchorStatus
    ensures { result ≡ status_by (is_in ns.now excluded.now || is_in name.now excluded.now) ns.now (object_at survey.now.objects (namespace_id name.now)) }
{
    if is_in(ns, excluded) || is_in(name, excluded) {
        return AnchorStatus::Forbidden;
    }
    match namespace(survey, name) {
        None => AnchorStatus::Missing,
        Some(found) if is_owned_by(found.object(), ns) => AnchorStatus::Ok,
        Some(_) => AnchorStatus::Conflict,
    }
}

/// Whether a name is among some.
fn is_in(name: &Text, names: &[Text]) -> bool
    ensures { result ≡ is_in name.now names.now }
{
    for other in names {
        if name == other {
            return true;
        }
    }
    false
}
