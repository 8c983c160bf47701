// Bodies of requests as objects.
ghost use Rattle.std.specs.Prelude.{◌≡◌, ◌≤◌, [], true, None, option_copied, IfOk, IfErr, IfNone, IfSome};
ghost use Rattle.json.specs.Value.{value_view};
ghost use Rattle.serde_json.specs.Data.{depth};
ghost use Rattle.serde_json.specs.Read.{max_depth};
ghost use Rattle.hx_object.specs.Canonical.{IsCanonical};
ghost use Rattle.hx_object.specs.Faults.{IsLegal};
ghost use Rattle.hx_object.specs.Kinds.{is_in_cluster};
ghost use Rattle.hx_model.specs.Serving.{IsGiven, has_type};
ghost use Rattle.hx_json.specs.Inside.{IsFaultIn, Says, has_quantities, target_of};
ghost use Rattle.hx_json.specs.Reading.{member_fault, target_at};
ghost use Rattle.hx_json.specs.ReadObject.{IsFaultOf, IsReadOf};
ghost use Rattle.hx_json.specs.Rows.{IsUnsound, said_object};
ghost use Rattle.hx_json.specs.Trees.{IsOrdered, IsUnordered, is_ordered, said};

mod conditions;
mod kept;
mod member_checks;
mod members;
mod needs;
mod number;
mod parts;
mod quantity;
mod quota;
mod reported;
mod resource_checks;
mod row;
mod shapes;
mod tree;
mod usages;
mod version;
mod whole;

use crate::law::keep_their_types;
use crate::{JsonFault, Read};
use hx_object::{Id, Kind, Object, Text};
use json::{Scratch, Value};
use member_checks::check_members;
use parts::{expected_in, id_of, pairs_in, payload_of};
use std::alloc::Global;
use tree::{is_ordered, read_tree};
pub use version::long_decimal;
use whole::ordered_text;

/// Whose body is read: the path's kind and namespace, and its name, which a PUT has and a POST doesn't.
#[derive(Clone, Copy)]
struct Asked<'a> {
    kind: Kind,
    ns: &'a Text,
    name: Option<&'a Text>,
}

/// Reads bodies, in memory that it keeps from one to the next.
#[derive(Drop)]
pub struct BodyReader {
    alloc: Global,
    scratch: Scratch,
    // Where kept members are made.
    room: String,
}

impl BodyReader {
    /// A reader that has taken no memory yet.
    pub fn new(alloc: Global) -> BodyReader {
        BodyReader {
            alloc,
            scratch: Scratch::new(alloc),
            room: String::new(alloc),
        }
    }

    /// The object that a request's body says. `kind` and `ns` are the path's, and so is `name`, which a PUT has and a POST doesn't.
    pub fn read_object(
        &mut self,
        body: &[u8],
        kind: Kind,
        ns: &Text,
        name: Option<&Text>,
    ) -> Result<Read, JsonFault>
        requires home { is_in_cluster kind ≡ true → ns.now ≡ [] }
        ensures ok { IfOk result (λ r. IsReadOf (target_at kind ns.now (option_copied name.entry)) body.now r.object r.expected) }
        ensures fault { IfErr result (λ f. IsFaultOf (target_at kind ns.now (option_copied name.entry)) body.now f) }
        ensures legal { IfOk result (λ r. IsLegal r.object) }
        ensures given { IfOk result (λ r. IsGiven r.object) }
    {
        let Ok(text) = simdutf8::compat::from_utf8(body) else {
            return Err(JsonFault::NotJson);
        };
        let asked = Asked { kind, ns, name };
        read_text(self.alloc, &mut self.scratch, &mut self.room, text, asked)
    }
}

/// Reads a text as it stands, and puts it in order first where it isn't.
fn read_text(
    alloc: Global,
    scratch: &mut Scratch,
    room: &mut String,
    text: &str,
    asked: Asked<'_>,
) -> Result<Read, JsonFault>
    requires home { is_in_cluster asked.kind ≡ true → asked.ns.now ≡ [] }
    ensures ok { IfOk result (λ r. IsReadOf (target_of asked.entry) text.now r.object r.expected) }
    ensures fault { IfErr result (λ f. IsFaultOf (target_of asked.entry) text.now f) }
    ensures legal { IfOk result (λ r. IsLegal r.object × IsGiven r.object) }
{
    if let Some(read) = read_as_is(alloc, scratch, room, text, asked)? {
        return Ok(read);
    }
    let ordered = ordered_text(alloc, text)?;
    read_ordered(alloc, scratch, room, ordered.as_str(), asked)
}

/// Reads a text that was put in order.
fn read_ordered(
    alloc: Global,
    scratch: &mut Scratch,
    room: &mut String,
    text: &str,
    asked: Asked<'_>,
) -> Result<Read, JsonFault>
    requires home { is_in_cluster asked.kind ≡ true → asked.ns.now ≡ [] }
    requires ordered { IsOrdered asked.kind text.now }
    ensures ok { IfOk result (λ r. IsReadOf (target_of asked.entry) text.now r.object r.expected) }
    ensures fault { IfErr result (λ f. IsFaultOf (target_of asked.entry) text.now f) }
    ensures legal { IfOk result (λ r. IsLegal r.object × IsGiven r.object) }
{
    match read_as_is(alloc, scratch, room, text, asked)? {
        Some(read) => Ok(read),
        None => unreachable!(),
    }
}

/// Reads a text as it stands, unless what is kept in order isn't.
fn read_as_is(
    alloc: Global,
    scratch: &mut Scratch,
    room: &mut String,
    text: &str,
    asked: Asked<'_>,
) -> Result<Option<Read>, JsonFault>
    requires home { is_in_cluster asked.kind ≡ true → asked.ns.now ≡ [] }
    ensures ok { IfOk result (λ o. IfSome o (λ r. IsReadOf (target_of asked.entry) text.now r.object r.expected)) }
    ensures fault { IfErr result (λ f. IsFaultOf (target_of asked.entry) text.now f) }
    ensures legal { IfOk result (λ o. IfSome o (λ r. IsLegal r.object × IsGiven r.object)) }
    ensures unordered { IfOk result (λ o. IfNone o (IsUnordered asked.entry.kind text.now)) }
{
    let value = read_tree(alloc, text, scratch)?;
    if !is_ordered(&value, asked.kind) {
        return Ok(None);
    }
    let said = tell(alloc, room, &value, asked)?;
    Ok(Some(said))
}

/// What an ordered tree says.
fn tell(
    alloc: Global,
    room: &mut String,
    value: &Value<'_>,
    asked: Asked<'_>,
) -> Result<Read, JsonFault>
    requires ordered { is_ordered asked.kind (value_view value.now) ≡ true }
    requires canonical { IsCanonical (said value.now) }
    requires shallow { depth (said value.now) ≤ max_depth }
    requires home { is_in_cluster asked.kind ≡ true → asked.ns.now ≡ [] }
    ensures ok { IfOk result (λ r. Says (target_of asked.entry) (said value.now) r.object r.expected) }
    ensures fault { IfErr result (λ f. IsFaultIn (target_of asked.entry) (said value.now) f) }
    ensures legal { IfOk result (λ r. IsLegal r.object × IsGiven r.object) }
{
    match check_members(value, asked.kind, asked.ns, asked.name) {
        Ok(()) => object_in(alloc, room, value, asked),
        Err(fault) => Err(fault.with_text(alloc)?),
    }
}

/// The object that an ordered tree says whose members are without fault.
fn object_in(
    alloc: Global,
    room: &mut String,
    value: &Value<'_>,
    asked: Asked<'_>,
) -> Result<Read, JsonFault>
    requires ordered { is_ordered asked.kind (value_view value.now) ≡ true }
    requires canonical { IsCanonical (said value.now) }
    requires shallow { depth (said value.now) ≤ max_depth }
    requires home { is_in_cluster asked.kind ≡ true → asked.ns.now ≡ [] }
    requires sound { member_fault (target_of asked) (said value.now) ≡ None }
    ensures ok { IfOk result (λ r. Says (target_of asked.entry) (said value.now) r.object r.expected) }
    ensures fault { IfErr result (λ f. IsFaultIn (target_of asked.entry) (said value.now) f) }
    ensures legal { IfOk result (λ r. IsLegal r.object × IsGiven r.object) }
{
    let Asked { kind, ns, name } = asked;
    let expected = expected_in(value, name);
    let id = id_of(alloc, value, kind, ns, name)?;
    let object = object_at(alloc, room, value, id, 0)?;
    Ok(Read { object, expected })
}

/// The object of an identity that an ordered tree says, with a version.
fn object_at(
    alloc: Global,
    room: &mut String,
    value: &Value<'_>,
    id: Id,
    version: u64,
) -> Result<Object, JsonFault>
    requires ordered { is_ordered id.kind (value_view value.now) ≡ true }
    requires canonical { IsCanonical (said value.now) }
    requires shallow { depth (said value.now) ≤ max_depth }
    requires home { is_in_cluster id.kind ≡ true → id.ns ≡ [] }
    requires typed { has_type id.kind (said value.now) ≡ true }
    requires quantities { has_quantities id.kind (said value.now) ≡ true }
    ensures object { IfOk result (λ x. x ≡ said_object id version (said value.now)) }
    ensures legal { IfOk result (λ x. IsLegal x × IsGiven x) }
    ensures fault { IfErr result (IsUnsound (said_object id version (said value.now))) }
{
    let labels = pairs_in(alloc, value, "labels")?;
    let annotations = pairs_in(alloc, value, "annotations")?;
    let payload = payload_of(alloc, room, value, id.kind)?;
    match Object::new(id, labels, annotations, payload, version) {
        Ok(object) => {
            keep_their_types(&object);
            Ok(object)
        }
        Err(fault) => Err(JsonFault::Object(fault)),
    }
}
