// Objects as compact JSON.
ghost use Rattle.std.specs.Prelude.{◌≡◌, ◌++◌, codes, false, string_bytes, IfOk, OnOk};
ghost use Rattle.serde_json.specs.Written.{members_text};
ghost use Rattle.hx_object.specs.Faults.{IsLegal};
ghost use Rattle.hx_object.specs.Json.{pairs_members, object_text};
ghost use Rattle.hx_json.specs.Pushed.{IsCut, IsPart, front_part, head_text, later_part, metadata_text, namespace_text, pairs_front, plain_text, rest_text};

use super::payload::{
    push_anchor, push_config, push_hierarchy_spec, push_hierarchy_status, push_namespace,
    push_quota_spec,
};
use super::text::{
    push, push_api_version, push_comma_if, push_kind, push_named, push_named_number,
    push_named_text, push_text,
};
use super::usages::push_usages;
use hx_object::{NoMemory, Object, Pairs, Payload, Places, Text};
use std::alloc::Global;

/// The bytes of an object's text beside its names, its pairs and its kept members.
const FRAME_LEN: usize = 120;

/// The bytes of a pair beside its key and its value.
const PAIR_LEN: usize = 6;

/// Appends pairs and the brace behind them.
fn push_pairs(out: &mut String, pairs: &[(Text, Text)]) -> Result<(), NoMemory>
    ensures { OnOk result (string_bytes out.new ≡ string_bytes out.old ++ members_text false (pairs_members pairs.now)) }
{
    let mut later = false;
    for (key, value) in pairs {
        push_comma_if(out, later)?;
        push_text(out, key)?;
        push_named_text(out, ":", value)?;
        later = true;
    }
    push(out, "}")
}

/// Appends pairs under a name and a comma, unless there are none.
fn push_front(out: &mut String, name: &str, pairs: &Pairs) -> Result<(), NoMemory>
    ensures { OnOk result (string_bytes out.new ≡ string_bytes out.old ++ pairs_front name.now pairs.now) }
{
    let pairs = pairs.as_slice();
    if pairs.is_empty() {
        return Ok(());
    }
    push(out, name)?;
    push(out, "{")?;
    push_pairs(out, pairs)?;
    push(out, ",")
}

fn push_namespace_of(out: &mut String, ns: &Text) -> Result<(), NoMemory>
    ensures { OnOk result (string_bytes out.new ≡ string_bytes out.old ++ namespace_text ns.now) }
{
    let ns = ns.as_str();
    if ns.is_empty() {
        return Ok(());
    }
    push_named(out, r#","namespace":"#, ns)
}

/// Appends the metadata under their name, behind a comma.
fn push_metadata(out: &mut String, object: &Object) -> Result<(), NoMemory>
    ensures { OnOk result (string_bytes out.new ≡ string_bytes out.old ++ (codes ",\"metadata\":" ++ metadata_text object.now)) }
{
    push(out, r#","metadata":{"#)?;
    push_front(out, r#""annotations":"#, &object.annotations)?;
    push_front(out, r#""labels":"#, &object.labels)?;
    push_named_text(out, r#""name":"#, &object.id.name)?;
    push_namespace_of(out, &object.id.ns)?;
    push_named_number(out, r#","resourceVersion":"#, object.version)?;
    push(out, "}")
}

/// Appends an object up to its metadata, where none of its members comes before them.
fn push_head(out: &mut String, object: &Object) -> Result<(), NoMemory>
    ensures { OnOk result (string_bytes out.new ≡ string_bytes out.old ++ head_text object.now) }
{
    let kind = object.id.kind;
    push_api_version(out, r#"{"apiVersion":"#, kind)?;
    push_kind(out, r#","kind":"#, kind)?;
    push_metadata(out, object)
}

/// Appends a brace and the kept members in front of a place, with a comma behind those.
fn push_front_part(out: &mut String, text: &str, to: usize) -> Result<(), NoMemory>
    requires { IsPart text.now 0 to }
    ensures { OnOk result (string_bytes out.new ≡ string_bytes out.old ++ front_part text.now to) }
{
    push(out, &text[..to])?;
    push_comma_if(out, 1 < to)
}

/// Appends the kept members between two places, with a comma in front.
fn push_later_part(out: &mut String, text: &str, from: usize, to: usize) -> Result<(), NoMemory>
    requires { IsPart text.now from to }
    ensures { OnOk result (string_bytes out.new ≡ string_bytes out.old ++ later_part text.now from to) }
{
    push_comma_if(out, from == 1 && from < to)?;
    push(out, &text[from..to])
}

/// Appends the text of an object of a plain kind: its kept members, and those that each object has where they go.
fn push_plain(out: &mut String, object: &Object, text: &str, places: Places) -> Result<(), NoMemory>
    requires { IsCut text.now places }
    ensures { OnOk result (string_bytes out.new ≡ string_bytes out.old ++ plain_text object.now text.now places) }
{
    let kind = object.id.kind;
    let (first, second) = (places.api_version as usize, places.kind as usize);
    let third = places.metadata as usize;
    push_front_part(out, text, first)?;
    push_api_version(out, r#""apiVersion":"#, kind)?;
    push_later_part(out, text, first, second)?;
    push_kind(out, r#","kind":"#, kind)?;
    push_later_part(out, text, second, third)?;
    push_metadata(out, object)?;
    push_later_part(out, text, third, text.len() - 1)?;
    push(out, "}")
}

/// Appends the text of an object: the body of a reply, and of its stored row.
pub fn push_object(out: &mut String, object: &Object) -> Result<(), NoMemory>
    requires { IsLegal object.now }
    ensures { OnOk result (string_bytes out.new ≡ string_bytes out.old ++ object_text object.now) }
{
    match &object.payload {
        Payload::Plain { members, .. } => push_plain(
            out,
            object,
            members.as_str(),
            members.places(),
        ),
        payload => {
            push_head(out, object)?;
            push_rest(out, payload)
        }
    }
}

/// Appends what an object of another kind has behind its metadata. A plain kind has its members around them.
fn push_rest(out: &mut String, payload: &Payload) -> Result<(), NoMemory>
    ensures { OnOk result (string_bytes out.new ≡ string_bytes out.old ++ rest_text payload.now) }
{
    match payload {
        Payload::Namespace { terminating } => push_namespace(out, *terminating),
        Payload::Config { entries } => push_config(out, entries.as_slice()),
        Payload::Hierarchy {
            parent,
            cascade,
            children,
            conditions,
        } => {
            push_hierarchy_spec(out, parent, *cascade)?;
            push_hierarchy_status(out, children.as_slice(), conditions.as_slice())
        }
        Payload::Anchor { status } => push_anchor(out, *status),
        Payload::Quota { hard, status } => {
            push_quota_spec(out, hard.as_slice())?;
            push_usages(out, status.as_slice())
        }
        Payload::Plain { .. } => Ok(()),
    }
}

/// The text of an object.
pub fn write_object(alloc: Global, object: &Object) -> Result<Text, NoMemory>
    requires { IsLegal object.now }
    ensures { IfOk result (λ text. text ≡ object_text object.now) }
{
    let mut text = String::with_capacity(alloc, expected_len(object))?;
    push_object(&mut text, object)?;
    Ok(Text::of_string(text))
}

/// About how many bytes an object's text has, so that it is written into one piece of memory that is hardly larger.
fn expected_len(object: &Object) -> usize {
    let kept = match &object.payload {
        Payload::Plain { members, .. } => members.as_bytes().len(),
        _ => 128,
    };
    let id = &object.id;
    kept.saturating_add(FRAME_LEN)
        .saturating_add(id.kind.name().len())
        .saturating_add(id.kind.api_version().len())
        .saturating_add(id.name.as_bytes().len())
        .saturating_add(id.ns.as_bytes().len())
        .saturating_add(pairs_len(object.labels.as_slice()))
        .saturating_add(pairs_len(object.annotations.as_slice()))
}

/// The bytes of pairs under a name, where nothing is escaped.
fn pairs_len(pairs: &[(Text, Text)]) -> usize {
    let mut sum: usize = 0;
    for (key, value) in pairs {
        sum = sum
            .saturating_add(PAIR_LEN)
            .saturating_add(key.as_bytes().len())
            .saturating_add(value.as_bytes().len());
    }
    sum
}
