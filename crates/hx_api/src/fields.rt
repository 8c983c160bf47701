// Field selectors of lists.
ghost use Rattle.std.specs.Prelude.{◌≡◌, IfOk, option_copied};
ghost use Rattle.std.specs.List.{after_first, before_first, list_all};
ghost use Rattle.hx_api.specs.FieldSelectors.{are_fields, fields_in, first_term, is_equals_sign, is_plain, is_value, names, places, second_term, value_asked, value_in};

use hx_model::Fields;
use hx_object::{NoMemory, Text};
use std::alloc::Global;

/// Whether a byte stands for itself in a value.
fn is_plain(byte: u8) -> bool
    ensures { result ≡ is_plain byte }
{
    byte != b'=' && byte != b',' && byte != b'\\'
}

/// Whether each byte does.
fn are_plain(text: &[u8]) -> bool
    ensures { result ≡ list_all is_plain text.now }
{
    text.iter().all(|byte| is_plain(*byte))
}

fn is_value(text: &str) -> bool
    ensures { result ≡ is_value text.now }
{
    !text.is_empty() && are_plain(text.as_bytes())
}

/// A term's field, and what stands behind the equals sign.
fn cut_term(term: &str) -> (&str, &str)
    ensures field { result.0.now ≡ before_first is_equals_sign term.now }
    ensures value { result.1.now ≡ after_first is_equals_sign term.now }
{
    match term.split_once('=') {
        Some((field, value)) => (field, value),
        None => (term, ""),
    }
}

/// The terms of a text.
fn cut_terms(text: &str) -> (&str, &str)
    ensures first { result.0.now ≡ first_term text.now }
    ensures second { result.1.now ≡ second_term text.now }
{
    match text.split_once(',') {
        Some((first, second)) => (first, second),
        None => (text, ""),
    }
}

/// The value that a term asks of a field, if it is a term of that field.
fn value_in<'a>(field: &str, term: &'a str) -> Option<&'a str>
    ensures { option_copied result ≡ value_in field.now term.now }
{
    let (own, value) = cut_term(term);
    if own == field && is_value(value) {
        Some(value)
    } else {
        None
    }
}

/// The value that a text asks of a field.
fn value_asked<'a>(field: &str, text: &'a str) -> Option<&'a str>
    ensures { option_copied result ≡ value_asked field.now text.now }
{
    let (first, second) = cut_terms(text);
    match value_in(field, first) {
        Some(value) => Some(value),
        None => value_in(field, second),
    }
}

fn names(term: &str) -> bool
    ensures { result ≡ names term.now }
{
    value_in("metadata.name", term).is_some()
}

fn places(term: &str) -> bool
    ensures { result ≡ places term.now }
{
    value_in("metadata.namespace", term).is_some()
}

/// Whether a text is a field selector that is served.
#[tactic(auto, unfolding(crate::specs::FieldSelectors::are_fields))]
pub fn are_fields(text: &str) -> bool
    ensures { result ≡ are_fields text.now }
{
    let (first, second) = cut_terms(text);
    (names(first) && (second.is_empty() || places(second)))
        || (places(first) && (second.is_empty() || names(second)))
}

/// The name and the namespace that a text asks for.
#[tactic(auto, unfolding(crate::specs::FieldSelectors::fields_in))]
pub fn fields_in(alloc: Global, text: &str) -> Result<Fields, NoMemory>
    ensures { IfOk result (λ fields. fields ≡ fields_in text.now) }
{
    if text.is_empty() {
        return Ok(Fields::none());
    }
    Ok(Fields {
        name: kept(alloc, value_asked("metadata.name", text))?,
        ns: kept(alloc, value_asked("metadata.namespace", text))?,
    })
}

fn kept(alloc: Global, value: Option<&str>) -> Result<Option<Text>, NoMemory>
    ensures { IfOk result (λ text. text ≡ option_copied value.entry) }
{
    match value {
        Some(value) => Ok(Some(Text::of(alloc, value)?)),
        None => Ok(None),
    }
}
