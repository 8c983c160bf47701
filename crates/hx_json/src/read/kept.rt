// The members that a plain kind keeps, as text.
ghost use Rattle.std.specs.Prelude.{◌≡◌, ◌++◌, ◌∷◌, ◌≤◌, [], false, length, true, IfOk, OnOk, string_bytes};
ghost use Rattle.json.specs.Value.{value_view, items_view, members_view};
ghost use Rattle.serde_json.specs.Data.{depth, no_members, member as one, object};
ghost use Rattle.serde_json.specs.Read.{max_depth};
ghost use Rattle.serde_json.specs.Written.{compact_text, items_text, members_text};
ghost use Rattle.hx_object.specs.Canonical.{IsCanonical};
ghost use Rattle.hx_object.specs.Placed.{joined};
ghost use Rattle.hx_json.specs.Reading.{kept_members};
ghost use Rattle.hx_json.specs.Trees.{keeps_order, kept_of, laid_items, laid_members, laid_out, own_trees, passed, places_in, said};

use super::number::push_number;
use super::tree::is_head;
use crate::write::text::{push, push_comma_if, push_quoted};
use hx_object::{Members, NoMemory, Places, Text};
use json::Value;
use std::alloc::Global;

/// A value in compact form, the members of objects as they stand.
#[cycle(push_value)]
fn push_value(out: &mut String, value: &Value<'_>) -> Result<(), NoMemory>
    ensures { OnOk result (string_bytes out.new ≡ string_bytes out.old ++ compact_text (laid_out (value_view value.now))) }
{
    match value {
        Value::Null => push(out, "null"),
        Value::Bool(true) => push(out, "true"),
        Value::Bool(false) => push(out, "false"),
        Value::Number(text) => push_number(out, text),
        Value::String(text) => push_quoted(out, text),
        Value::Array(items) => push_items(out, items),
        Value::Object(members) => push_members(out, members),
    }
}

#[cycle(push_value)]
fn push_items(out: &mut String, items: &Vec<Value<'_>>) -> Result<(), NoMemory>
    ensures { OnOk result (string_bytes out.new ≡ string_bytes out.old ++ 91 ∷ items_text false (laid_items (items_view items.now.items))) }
{
    push(out, "[")?;
    let mut later = false;
    for item in items {
        push_comma_if(out, later)?;
        push_value(out, item)?;
        later = true;
    }
    push(out, "]")
}

#[cycle(push_value)]
fn push_member(out: &mut String, later: bool, key: &str, value: &Value<'_>) -> Result<(), NoMemory>
    ensures { OnOk result (string_bytes out.new ≡ string_bytes out.old ++ joined later (one key.now (laid_out (value_view value.now)) no_members)) }
{
    push_comma_if(out, later)?;
    push_quoted(out, key)?;
    push(out, ":")?;
    push_value(out, value)
}

#[cycle(push_value)]
fn push_members(out: &mut String, members: &Vec<(&str, Value<'_>)>) -> Result<(), NoMemory>
    ensures { OnOk result (string_bytes out.new ≡ string_bytes out.old ++ 123 ∷ members_text false (laid_members (members_view members.now.items))) }
{
    push(out, "{")?;
    let mut later = false;
    for (key, member) in members {
        push_member(out, later, key, member)?;
        later = true;
    }
    push(out, "}")
}

/// The places once a member of this key ends at `end`.
fn passed(places: Places, key: &str, end: u32) -> Places
    ensures { result ≡ passed key.now end places }
{
    let Places {
        mut api_version,
        mut kind,
        mut metadata,
    } = places;
    if key < "apiVersion" {
        api_version = end;
    }
    if key < "kind" {
        kind = end;
    }
    if key < "metadata" {
        metadata = end;
    }
    Places {
        api_version,
        kind,
        metadata,
    }
}

/// How long a text is, where its places can be counted.
fn end_of(text: &String) -> Result<u32, NoMemory>
    ensures { IfOk result (λ n. n ≡ length (string_bytes text.now)) }
{
    match u32::try_from(text.len()) {
        Ok(end) => Ok(end),
        Err(_) => Err(NoMemory),
    }
}

/// The members that are kept, and where those go that each object has.
fn push_kept(out: &mut String, members: &[(&str, Value<'_>)]) -> Result<Places, NoMemory>
    requires { string_bytes out.old ≡ [] }
    ensures text { OnOk result (string_bytes out.new ≡ compact_text (object (laid_members (kept_of (members_view members.now))))) }
    ensures places { IfOk result (λ p. p ≡ places_in (laid_members (kept_of (members_view members.now)))) }
{
    push(out, "{")?;
    let mut later = false;
    let mut places = Places {
        api_version: 1,
        kind: 1,
        metadata: 1,
    };
    for (key, member) in members {
        if is_head(key) {
            continue;
        }
        push_member(out, later, key, member)?;
        places = passed(places, key, end_of(out)?);
        later = true;
    }
    push(out, "}")?;
    Ok(places)
}

/// What is kept of a body, and where those go that each object has.
fn push_kept_of(out: &mut String, value: &Value<'_>) -> Result<Places, NoMemory>
    requires { string_bytes out.old ≡ [] }
    ensures text { OnOk result (string_bytes out.new ≡ compact_text (object (laid_members (kept_of (own_trees (value_view value.now)))))) }
    ensures places { IfOk result (λ p. p ≡ places_in (laid_members (kept_of (own_trees (value_view value.now))))) }
{
    match value {
        Value::Object(members) => push_kept(out, members),
        _ => push_kept(out, &[]),
    }
}

/// The members that a plain kind keeps of a body.
pub fn kept(alloc: Global, room: &mut String, value: &Value<'_>) -> Result<Members, NoMemory>
    requires order { keeps_order (value_view value.now) ≡ true }
    requires canonical { IsCanonical (said value.now) }
    requires shallow { depth (said value.now) ≤ max_depth }
    ensures { IfOk result (λ m. m ≡ compact_text (object (kept_members (said value.now)))) }
{
    room.clear();
    let places = push_kept_of(room, value)?;
    let text = Text::of(alloc, room.as_str())?;
    Ok(Members::new(text, places))
}
