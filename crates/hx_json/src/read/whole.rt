// Bodies out of order, put in order.
ghost use Rattle.std.specs.Prelude.{◌≡◌, IfOk, IfErr, string_bytes};
ghost use Rattle.serde_json.specs.View.{view, items_view, members_view};
ghost use Rattle.serde_json.specs.Written.{has_float, items_have_float, members_have_float};
ghost use Rattle.hx_json.specs.Inside.{AreAlike};
ghost use Rattle.hx_json.specs.Reading.{Target};
ghost use Rattle.hx_json.specs.ReadObject.{IsFaultOf, IsWhole};
ghost use Rattle.hx_json.specs.Trees.{IsOrdered};

use crate::JsonFault;
use hx_object::Kind;
use serde_json::{Map, Value};
use std::alloc::Global;

/// The text of a body's value, with the members of each object in order and each number in decimal.
pub fn ordered_text(alloc: Global, body: &str) -> Result<String, JsonFault>
    ensures alike { IfOk result (λ s. AreAlike body.now (string_bytes s)) }
    ensures ordered { IfOk result (λ s. (k : Kind) → IsOrdered k (string_bytes s)) }
    ensures fault { IfErr result (λ f. (p : Target) → IsFaultOf p body.now f) }
{
    let value = read_whole(alloc, body)?;
    match value.to_string(alloc) {
        Ok(text) => {
            let _ = text.as_str();
            Ok(text)
        }
        Err(_) => Err(JsonFault::NoMemory),
    }
}

/// The value of a body of whole numbers.
fn read_whole(alloc: Global, body: &str) -> Result<Value, JsonFault>
    ensures ok { IfOk result (λ v. IsWhole body.now (view v)) }
    ensures fault { IfErr result (λ f. (p : Target) → IsFaultOf p body.now f) }
{
    let value = match Value::from_str(alloc, body) {
        Ok(value) => value,
        Err(error) => {
            if error.is_memory() {
                return Err(JsonFault::NoMemory);
            }
            return Err(JsonFault::NotJson);
        }
    };
    if holds_float(&value) {
        return Err(JsonFault::NotWhole);
    }
    Ok(value)
}

#[cycle(holds_float)]
fn holds_float(value: &Value) -> bool
    ensures { result ≡ has_float (view value.now) }
{
    match value {
        Value::Null | Value::Bool(_) | Value::String(_) => false,
        Value::Number(number) => number.is_f64(),
        Value::Array(items) => items_hold_float(items),
        Value::Object(members) => members_hold_float(members),
    }
}

#[cycle(holds_float)]
fn items_hold_float(items: &Vec<Value>) -> bool
    ensures { result ≡ items_have_float (items_view items.now.items) }
{
    for item in items {
        if holds_float(item) {
            return true;
        }
    }
    false
}

#[cycle(holds_float)]
fn members_hold_float(members: &Map<String, Value>) -> bool
    ensures { result ≡ members_have_float (members_view members.now.entries) }
{
    for (_, member) in members.iter() {
        if holds_float(member) {
            return true;
        }
    }
    false
}
