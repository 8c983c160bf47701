// Quantities in bodies: texts, or whole numbers that aren't negative.
ghost use Rattle.std.specs.Prelude.{◌≡◌, [], unwrap_or, IfOk};
ghost use Rattle.serde_json.specs.Data.{number};
ghost use Rattle.hx_object.specs.Needs.{amount_in, amount_of_text, written_in};
ghost use Rattle.hx_json.specs.Trees.{said, whole_or_zero};

use super::number::{Whole, whole_or_zero};
use hx_object::{NoMemory, Text};
use itoa::Buffer;
use json::Value;
use std::alloc::Global;

/// The amount, in thousandths, of a value that is a quantity: a text, or a whole number, as Kubernetes takes them.
pub fn amount_in(value: &Value<'_>) -> Option<u64>
    ensures { result ≡ amount_in (said value.now) }
{
    match value {
        Value::String(text) => amount_of_text(text),
        Value::Number(text) => amount_of_number(text),
        _ => None,
    }
}

/// The amount of a text that is a quantity.
fn amount_of_text(text: &str) -> Option<u64>
    ensures { result ≡ amount_of_text text.now }
{
    match hx_quantity::read(text) {
        Ok(amount) => Some(amount),
        Err(_) => None,
    }
}

/// The amount of a number, by its text in decimal.
fn amount_of_number(text: &str) -> Option<u64>
    ensures { result ≡ amount_in (number (whole_or_zero text.now)) }
{
    match whole_or_zero(text) {
        Whole::Unsigned(n) => amount_of_text(Buffer::new().format(n)),
        Whole::Negative(_) => None,
    }
}

/// A value that may be a quantity as a text, and else an empty text.
pub fn written_or_empty(alloc: Global, value: &Value<'_>) -> Result<Text, NoMemory>
    ensures { IfOk result (λ text. text ≡ unwrap_or (written_in (said value.now)) []) }
{
    match value {
        Value::String(text) => Text::of(alloc, text),
        Value::Number(text) => number_written(alloc, text),
        _ => Text::of(alloc, ""),
    }
}

/// The same of a number.
fn number_written(alloc: Global, text: &str) -> Result<Text, NoMemory>
    ensures { IfOk result (λ written. written ≡ unwrap_or (written_in (number (whole_or_zero text.now))) []) }
{
    match whole_or_zero(text) {
        Whole::Unsigned(n) => Text::of(alloc, Buffer::new().format(n)),
        Whole::Negative(_) => Text::of(alloc, ""),
    }
}
