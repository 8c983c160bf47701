// The parts of the object that a body says.
ghost use Rattle.std.specs.Prelude.{◌≡◌, ◌≤◌, [], true, None, Some, option_copied, option_map, IfOk};
ghost use Rattle.json.specs.Value.{value_view, members_view};
ghost use Rattle.serde_json.specs.Data.{depth};
ghost use Rattle.serde_json.specs.Read.{max_depth};
ghost use Rattle.hx_object.specs.declared.kind.Kind.TheVariants as Kind;
ghost use Rattle.hx_object.specs.Canonical.{IsCanonical};
ghost use Rattle.hx_model.specs.Serving.{has_type, is_text_or_none};
ghost use Rattle.hx_json.specs.Reading.{counted_member, entries_of, entry_of, expected_of, id_of, in_spec, metadata_in, pair_of, pairs_in, pairs_of, payload_of, target_at, text_in, text_or, unless_empty_text, unless_null};
ghost use Rattle.hx_json.specs.Trees.{are_sorted, has_sorted_limits, is_sorted, is_sorted_in, is_sorted_inside, keeps_order_for, laid_members, laid_out, said, said_items};

use super::kept::kept;
use super::members::{get, in_metadata, in_spec, member, text_in, truth_in};
use super::needs::need_of;
use super::quota::limits_in;
use super::shapes::mode_of;
use super::version::version_in;
use hx_object::{Id, Kind, List, Mode, ModeEntry, NoMemory, Pairs, Payload, Text};
use json::Value;
use std::alloc::Global;

/// The text of a member that is one, and else an empty text.
pub fn text_or_empty(alloc: Global, found: Option<&Value<'_>>) -> Result<Text, NoMemory>
    ensures { IfOk result (λ t. t ≡ text_or [] (option_map (λ v. said v.now) found.entry)) }
{
    Text::of(alloc, text_in(found).unwrap_or(""))
}

/// The text of a member, unless it is empty.
fn given_text<'a>(found: Option<&Value<'a>>) -> Option<&'a str>
    ensures { option_map (λ s. s.now) result ≡ unless_empty_text (text_in (option_map (λ v. said v.now) found.entry)) }
{
    match text_in(found) {
        Some("") => None,
        text => text,
    }
}

pub fn id_of(
    alloc: Global,
    value: &Value<'_>,
    kind: Kind,
    ns: &Text,
    name: Option<&Text>,
) -> Result<Id, NoMemory>
    ensures { IfOk result (λ id. id ≡ id_of (target_at kind ns.now (option_copied name.entry)) (said value.now)) }
{
    let name = match name {
        Some(name) => name.clone()?,
        None => text_or_empty(alloc, in_metadata(value, "name"))?,
    };
    Ok(Id {
        kind,
        ns: ns.clone()?,
        name,
    })
}

/// The version that a PUT expects.
pub fn expected_in(value: &Value<'_>, name: Option<&Text>) -> Option<u64>
    ensures { result ≡ expected_of (option_copied name.entry) (said value.now) }
{
    if name.is_none() {
        return None;
    }
    match given_text(in_metadata(value, "resourceVersion")) {
        Some(text) => Some(version_in(text)),
        None => None,
    }
}

/// The labels or the annotations, whose keys ascend.
pub fn pairs_in(alloc: Global, value: &Value<'_>, name: &str) -> Result<Pairs, NoMemory>
    requires { is_sorted_inside name.now (value_view value.now) ≡ true }
    ensures { IfOk result (λ p. p ≡ pairs_in (counted_member name.now (metadata_in (said value.now)))) }
{
    match get(value, "metadata") {
        Some(metadata) => pairs_at(alloc, metadata, name),
        None => Ok(Pairs::new(alloc)),
    }
}

/// The same of the metadata.
fn pairs_at(alloc: Global, metadata: &Value<'_>, name: &str) -> Result<Pairs, NoMemory>
    requires { is_sorted_in name.now (value_view metadata.now) ≡ true }
    ensures { IfOk result (λ p. p ≡ pairs_in (counted_member name.now (said metadata.now))) }
{
    match get(metadata, name) {
        Some(found) => pairs_from(alloc, found),
        None => Ok(Pairs::new(alloc)),
    }
}

/// The same of the member itself.
fn pairs_from(alloc: Global, found: &Value<'_>) -> Result<Pairs, NoMemory>
    requires { is_sorted (value_view found.now) ≡ true }
    ensures { IfOk result (λ p. p ≡ pairs_in (unless_null (Some (said found.now)))) }
{
    match found {
        Value::Object(members) => pairs_of(alloc, members),
        _ => Ok(Pairs::new(alloc)),
    }
}

fn pairs_of(alloc: Global, members: &[(&str, Value<'_>)]) -> Result<Pairs, NoMemory>
    requires { are_sorted None (members_view members.now) ≡ true }
    ensures { IfOk result (λ p. p ≡ pairs_of (laid_members (members_view members.now))) }
{
    let mut pairs = Vec::with_capacity(alloc, members.len())?;
    for (key, member) in members {
        pairs.push(pair_of(alloc, key, member)?)?;
    }
    Ok(Pairs::of(pairs))
}

fn pair_of(alloc: Global, key: &str, member: &Value<'_>) -> Result<(Text, Text), NoMemory>
    ensures { IfOk result (λ pair. pair ≡ pair_of key.now (laid_out (value_view member.now))) }
{
    let key = Text::of(alloc, key)?;
    Ok((key, text_or_empty(alloc, Some(member))?))
}

/// What the body says beside the metadata. Kept members are made in `room`.
pub fn payload_of(
    alloc: Global,
    room: &mut String,
    value: &Value<'_>,
    kind: Kind,
) -> Result<Payload, NoMemory>
    requires order { keeps_order_for kind (value_view value.now) ≡ true }
    requires canonical { IsCanonical (said value.now) }
    requires shallow { depth (said value.now) ≤ max_depth }
    ensures { IfOk result (λ p. p ≡ payload_of kind (said value.now)) }
{
    match kind {
        Kind::Namespace => Ok(Payload::Namespace { terminating: false }),
        Kind::HncConfiguration => config(alloc, value),
        Kind::HierarchyConfiguration => hierarchy(alloc, value),
        Kind::SubnamespaceAnchor => Ok(Payload::Anchor { status: None }),
        Kind::HierarchicalResourceQuota => quota(alloc, value),
        _ => Ok(Payload::Plain {
            members: kept(alloc, room, value)?,
            need: need_of(alloc, value, kind)?,
        }),
    }
}

fn config(alloc: Global, value: &Value<'_>) -> Result<Payload, NoMemory>
    ensures { IfOk result (λ p. p ≡ payload_of Kind.HncConfiguration (said value.now)) }
{
    let entries = match in_spec(value, "resources") {
        Some(Value::Array(items)) => entries_of(alloc, items)?,
        _ => List::of(Vec::new(alloc)),
    };
    Ok(Payload::Config { entries })
}

fn entries_of(alloc: Global, items: &[Value<'_>]) -> Result<List<ModeEntry>, NoMemory>
    ensures { IfOk result (λ l. l ≡ entries_of (said_items items.now)) }
{
    let mut entries = Vec::new(alloc);
    for item in items {
        entries.push(entry_of(alloc, item)?)?;
    }
    Ok(List::of(entries))
}

fn entry_of(alloc: Global, item: &Value<'_>) -> Result<ModeEntry, NoMemory>
    ensures { IfOk result (λ e. e ≡ entry_of (said item.now)) }
{
    let mode = text_in(member(item, "mode")).unwrap_or("");
    Ok(ModeEntry {
        group: text_or_empty(alloc, member(item, "group"))?,
        resource: text_or_empty(alloc, member(item, "resource"))?,
        mode: mode_of(mode).unwrap_or(Mode::Propagate),
    })
}

fn hierarchy(alloc: Global, value: &Value<'_>) -> Result<Payload, NoMemory>
    ensures { IfOk result (λ p. p ≡ payload_of Kind.HierarchyConfiguration (said value.now)) }
{
    Ok(Payload::Hierarchy {
        parent: copied(alloc, given_text(in_spec(value, "parent")))?,
        cascade: truth_in(in_spec(value, "allowCascadingDeletion")),
        children: List::of(Vec::new(alloc)),
        conditions: List::of(Vec::new(alloc)),
    })
}

fn quota(alloc: Global, value: &Value<'_>) -> Result<Payload, NoMemory>
    requires { has_sorted_limits (value_view value.now) ≡ true }
    ensures { IfOk result (λ p. p ≡ payload_of Kind.HierarchicalResourceQuota (said value.now)) }
{
    Ok(Payload::Quota {
        hard: limits_in(alloc, value)?,
        status: List::of(Vec::new(alloc)),
    })
}

fn copied(alloc: Global, text: Option<&str>) -> Result<Option<Text>, NoMemory>
    ensures { IfOk result (λ o. o ≡ option_map (λ s. s.now) text.entry) }
{
    match text {
        Some(text) => Ok(Some(Text::of(alloc, text)?)),
        None => Ok(None),
    }
}

/// Whether the type of a Secret is a text, where it has one.
pub fn has_type(value: &Value<'_>, kind: Kind) -> bool
    ensures { result ≡ has_type kind (said value.now) }
{
    kind != Kind::Secret || is_text_or_none(get(value, "type"))
}

/// Whether a member is a text, null or absent.
fn is_text_or_none(found: Option<&Value<'_>>) -> bool
    ensures { result ≡ is_text_or_none (option_map (λ v. said v.now) found.entry) }
{
    match found {
        None | Some(Value::Null | Value::String(_)) => true,
        Some(_) => false,
    }
}
