// The faults of members, by their paths.
ghost use Rattle.std.specs.Prelude.{◌≡◌, option_map, true, Some, None, IfOk};
ghost use Rattle.json.specs.Value.{value_view, members_view};
ghost use Rattle.hx_json.specs.Inside.{fault_in, seen, test_of};
ghost use Rattle.hx_json.specs.Reading.{are_objects, are_texts, counted_member, is_object, is_texts, mode_of_text, required_fault, spec_fault, type_fault, unless_null};
ghost use Rattle.hx_json.specs.Trees.{is_sorted, is_sorted_in, laid_members, said, said_items};

use super::members::{get, member};
use crate::JsonFault;
use hx_object::{Mode, NoMemory, Text};
use json::Value;
use std::alloc::Global;

/// The first fault of a body's members. A member's is given with its path.
#[derive(Clone, Copy)]
pub enum MemberFault {
    WrongKind,
    Missing(&'static str),
    WrongType(&'static str),
    BadQuantity(&'static str),
    WrongPlace,
}

impl MemberFault {
    /// The fault as callers see it, its path as a text.
    pub fn with_text(self, alloc: Global) -> Result<JsonFault, NoMemory>
        ensures { IfOk result (λ f. f ≡ seen self) }
    {
        match self {
            MemberFault::WrongKind => Ok(JsonFault::WrongKind),
            MemberFault::Missing(path) => Ok(JsonFault::MissingMember(Text::of(alloc, path)?)),
            MemberFault::WrongType(path) => Ok(JsonFault::WrongType(Text::of(alloc, path)?)),
            MemberFault::BadQuantity(path) => Ok(JsonFault::BadQuantity(Text::of(alloc, path)?)),
            MemberFault::WrongPlace => Ok(JsonFault::WrongPlace),
        }
    }
}

/// What a member has to be.
#[derive(Clone, Copy)]
pub enum Shape {
    Text,
    Truth,
    Object,
    /// A list of objects.
    Entries,
    /// The text of a mode that bodies may name.
    Mode,
}

impl Shape {
    fn fits(self, value: &Value<'_>) -> bool
        ensures { result ≡ test_of self (said value.now) }
    {
        match (self, value) {
            (Shape::Text, Value::String(_)) => true,
            (Shape::Truth, Value::Bool(_)) => true,
            (Shape::Object, Value::Object(_)) => true,
            (Shape::Entries, Value::Array(items)) => are_objects(items),
            (Shape::Mode, Value::String(text)) => mode_of(text).is_some(),
            _ => false,
        }
    }
}

fn are_texts(members: &[(&str, Value<'_>)]) -> bool
    ensures { result ≡ are_texts (laid_members (members_view members.now)) }
{
    for (_, member) in members {
        let Value::String(_) = member else {
            return false;
        };
    }
    true
}

pub fn is_object(value: &Value<'_>) -> bool
    ensures { result ≡ is_object (said value.now) }
{
    matches!(value, Value::Object(_))
}

fn are_objects(items: &[Value<'_>]) -> bool
    ensures { result ≡ are_objects (said_items items.now) }
{
    for item in items {
        if !is_object(item) {
            return false;
        }
    }
    true
}

/// The mode that a text names. The empty text names `Propagate`.
pub fn mode_of(text: &str) -> Option<Mode>
    ensures { result ≡ mode_of_text text.now }
{
    match text {
        "" | "Propagate" => Some(Mode::Propagate),
        "Remove" => Some(Mode::Remove),
        "Ignore" => Some(Mode::Ignore),
        _ => None,
    }
}

/// Refuses a member that has another shape. An absent one passes.
pub fn check(found: Option<&Value<'_>>, path: &'static str, shape: Shape) -> Result<(), MemberFault>
    ensures { fault_in result ≡ type_fault path.now (test_of shape) (option_map (λ v. said v.now) found.entry) }
{
    match found {
        Some(value) if !shape.fits(value) => Err(MemberFault::WrongType(path)),
        _ => Ok(()),
    }
}

/// Refuses a member of the metadata that isn't an object of texts. An absent one passes.
pub fn check_texts(metadata: &Value<'_>, name: &str, path: &'static str) -> Result<(), MemberFault>
    requires { is_sorted_in name.now (value_view metadata.now) ≡ true }
    ensures { fault_in result ≡ type_fault path.now is_texts (counted_member name.now (said metadata.now)) }
{
    match get(metadata, name) {
        Some(found) => check_found(found, path),
        None => Ok(()),
    }
}

/// The same of the member itself.
fn check_found(found: &Value<'_>, path: &'static str) -> Result<(), MemberFault>
    requires { is_sorted (value_view found.now) ≡ true }
    ensures { fault_in result ≡ type_fault path.now is_texts (unless_null (Some (said found.now))) }
{
    if let Value::Null = found {
        return Ok(());
    }
    if is_texts(found) {
        Ok(())
    } else {
        Err(MemberFault::WrongType(path))
    }
}

fn is_texts(found: &Value<'_>) -> bool
    requires { is_sorted (value_view found.now) ≡ true }
    ensures { result ≡ is_texts (said found.now) }
{
    match found {
        Value::Object(members) => are_texts(members),
        _ => false,
    }
}

/// A member that has to be there, in a shape.
pub fn required<'v, 'a>(
    found: Option<&'v Value<'a>>,
    path: &'static str,
    shape: Shape,
) -> Result<&'v Value<'a>, MemberFault>
    ensures fault { fault_in result ≡ required_fault path.now (test_of shape) (option_map (λ v. said v.now) found.entry) }
    ensures found { IfOk result (λ v. found.entry ≡ Some v) }
{
    match found {
        None => Err(MemberFault::Missing(path)),
        Some(value) if !shape.fits(value) => Err(MemberFault::WrongType(path)),
        Some(value) => Ok(value),
    }
}

/// Refuses a member that isn't there, and one that has another shape.
pub fn check_required(
    found: Option<&Value<'_>>,
    path: &'static str,
    shape: Shape,
) -> Result<(), MemberFault>
    ensures { fault_in result ≡ required_fault path.now (test_of shape) (option_map (λ v. said v.now) found.entry) }
{
    match required(found, path, shape) {
        Ok(_) => Ok(()),
        Err(fault) => Err(fault),
    }
}

/// Refuses a member of `spec` that has another shape, and one that can't be there since `spec` is no object.
pub fn check_in_spec(
    value: &Value<'_>,
    name: &str,
    path: &'static str,
    shape: Shape,
) -> Result<(), MemberFault>
    ensures { fault_in result ≡ spec_fault path.now name.now (test_of shape) (said value.now) }
{
    match member(value, "spec") {
        None => Ok(()),
        Some(spec) if is_object(spec) => check(member(spec, name), path, shape),
        Some(_) => Err(MemberFault::WrongType(path)),
    }
}
