// The tree of a text, and what is asked of one before it is read.
ghost use Rattle.std.specs.Prelude.{◌≡◌, Some, None, IfOk, IfErr, option_map};
ghost use Rattle.json.specs.Value.{value_view, items_view, members_view};
ghost use Rattle.hx_json.specs.Reading.{Target};
ghost use Rattle.hx_json.specs.ReadObject.{IsFaultOf};
ghost use Rattle.hx_json.specs.Trees.{IsNoTree, tree_of, is_tame, items_are_tame, members_are_tame, is_after, is_sorted, items_are_sorted, are_sorted, is_sorted_in, has_sorted_limits, has_sorted_usages, has_sorted_pairs, has_sorted_metadata, is_head, is_ordered, kept_of, keeps_order, keeps_order_for};

use super::number::whole_in;
use crate::JsonFault;
use hx_object::Kind;
use json::{Error, Reader, Scratch, Value};
use std::alloc::Global;

/// How deep a body may nest.
const MAX_DEPTH: usize = 127;

/// The tree of a text.
pub fn read_tree<'a>(
    alloc: Global,
    text: &'a str,
    scratch: &'a mut Scratch,
) -> Result<Value<'a>, JsonFault>
    ensures ok { IfOk result (λ v. tree_of text.now ≡ Some (value_view v)) }
    ensures fault { IfErr result (λ f. (p : Target) → IsFaultOf p text.now f) }
    ensures none { IfErr result (IsNoTree text.now) }
{
    let Ok(mut reader) = Reader::new(text, scratch) else {
        return Err(JsonFault::NoMemory);
    };
    let value = match Value::read(alloc, &mut reader, MAX_DEPTH) {
        Ok(value) => value,
        Err(Error::Invalid) => return Err(JsonFault::NotJson),
        Err(_) => return Err(JsonFault::NoMemory),
    };
    match reader.next() {
        None => Ok(value),
        Some(_) => Err(JsonFault::NotJson),
    }
}

/// Whether each number is a whole one of 64 bits.
#[cycle(is_tame)]
fn is_tame(value: &Value<'_>) -> bool
    ensures { result ≡ is_tame (value_view value.now) }
{
    match value {
        Value::Null | Value::Bool(_) | Value::String(_) => true,
        Value::Number(text) => whole_in(text).is_some(),
        Value::Array(items) => items_are_tame(items),
        Value::Object(members) => members_are_tame(members),
    }
}

#[cycle(is_tame)]
fn items_are_tame(items: &[Value<'_>]) -> bool
    ensures { result ≡ items_are_tame (items_view items.now) }
{
    for item in items {
        if !is_tame(item) {
            return false;
        }
    }
    true
}

#[cycle(is_tame)]
fn members_are_tame(members: &[(&str, Value<'_>)]) -> bool
    ensures { result ≡ members_are_tame (members_view members.now) }
{
    for (_, member) in members {
        if !is_tame(member) {
            return false;
        }
    }
    true
}

fn is_after(before: Option<&str>, key: &str) -> bool
    ensures { result ≡ is_after (option_map (λ s. s.now) before.entry) key.now }
{
    match before {
        Some(before) => before < key,
        None => true,
    }
}

/// Whether the keys of each object ascend.
#[cycle(is_sorted)]
fn is_sorted(value: &Value<'_>) -> bool
    ensures { result ≡ is_sorted (value_view value.now) }
{
    match value {
        Value::Null | Value::Bool(_) | Value::Number(_) | Value::String(_) => true,
        Value::Array(items) => items_are_sorted(items),
        Value::Object(members) => members_are_sorted(members),
    }
}

#[cycle(is_sorted)]
fn items_are_sorted(items: &[Value<'_>]) -> bool
    ensures { result ≡ items_are_sorted (items_view items.now) }
{
    for item in items {
        if !is_sorted(item) {
            return false;
        }
    }
    true
}

#[cycle(is_sorted)]
fn members_are_sorted(members: &[(&str, Value<'_>)]) -> bool
    ensures { result ≡ are_sorted None (members_view members.now) }
{
    let mut before = None;
    for (key, member) in members {
        if !is_after(before, key) || !is_sorted(member) {
            return false;
        }
        before = Some(*key);
    }
    true
}

fn is_sorted_in(value: &Value<'_>, name: &str) -> bool
    ensures { result ≡ is_sorted_in name.now (value_view value.now) }
{
    match value.get(name) {
        Some(pairs) => is_sorted(pairs),
        None => true,
    }
}

fn has_sorted_pairs(metadata: &Value<'_>) -> bool
    ensures { result ≡ has_sorted_pairs (value_view metadata.now) }
{
    is_sorted_in(metadata, "labels") && is_sorted_in(metadata, "annotations")
}

/// Whether the keys of labels and annotations ascend.
fn has_sorted_metadata(value: &Value<'_>) -> bool
    ensures { result ≡ has_sorted_metadata (value_view value.now) }
{
    match value.get("metadata") {
        Some(metadata) => has_sorted_pairs(metadata),
        None => true,
    }
}

/// Whether this is the key of a member that each object has, and that isn't kept.
pub fn is_head(key: &str) -> bool
    ensures { result ≡ is_head key.now }
{
    matches!(key, "apiVersion" | "kind" | "metadata")
}

fn kept_are_sorted(members: &[(&str, Value<'_>)]) -> bool
    ensures { result ≡ are_sorted None (kept_of (members_view members.now)) }
{
    let mut before = None;
    for (key, member) in members {
        if is_head(key) {
            continue;
        }
        if !is_after(before, key) || !is_sorted(member) {
            return false;
        }
        before = Some(*key);
    }
    true
}

/// Whether the keys of what a plain kind keeps ascend.
fn keeps_order(value: &Value<'_>) -> bool
    ensures { result ≡ keeps_order (value_view value.now) }
{
    match value {
        Value::Object(members) => kept_are_sorted(members),
        _ => true,
    }
}

/// Whether the limits of a quota ascend.
fn has_sorted_limits(value: &Value<'_>) -> bool
    ensures { result ≡ has_sorted_limits (value_view value.now) }
{
    match value.get("spec") {
        Some(spec) => is_sorted_in(spec, "hard"),
        None => true,
    }
}

/// Whether the limits that are reported of a quota ascend.
pub fn has_sorted_usages(value: &Value<'_>) -> bool
    ensures { result ≡ has_sorted_usages (value_view value.now) }
{
    match value.get("status") {
        Some(status) => is_sorted_in(status, "hard"),
        None => true,
    }
}

fn keeps_order_for(value: &Value<'_>, kind: Kind) -> bool
    ensures { result ≡ keeps_order_for kind (value_view value.now) }
{
    match kind {
        Kind::Namespace
        | Kind::HncConfiguration
        | Kind::HierarchyConfiguration
        | Kind::SubnamespaceAnchor => true,
        Kind::HierarchicalResourceQuota => has_sorted_limits(value),
        _ => keeps_order(value),
    }
}

/// Whether a body is read as it stands: its numbers are whole, and what is kept in order is in order.
pub fn is_ordered(value: &Value<'_>, kind: Kind) -> bool
    ensures { result ≡ is_ordered kind (value_view value.now) }
{
    is_tame(value) && has_sorted_metadata(value) && keeps_order_for(value, kind)
}
