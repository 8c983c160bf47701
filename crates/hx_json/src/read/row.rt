// Objects read back from their stored rows.
ghost use Rattle.std.specs.Prelude.{◌≡◌, ℕ, List, [], true, Some, None, IfOk, IfSome, IsErrOf, IsUtf8, MatchOption, OnOk};
ghost use Rattle.json.specs.Value.{value_view};
ghost use Rattle.hx_object.specs.Faults.{IsLegal};
ghost use Rattle.hx_object.specs.Json.{object_text};
ghost use Rattle.hx_object.specs.Kinds.{is_in_cluster};
ghost use Rattle.hx_object.specs.declared.object.Id.{Id as IdOf};
ghost use Rattle.hx_model.specs.Serving.{IsServed};
ghost use Rattle.hx_json.specs.Fits.{is_fit};
ghost use Rattle.hx_json.specs.Rows.{Gives, GivesId, GivesRow, GivesTextOf, HasNoObject, IsCutAt, IsKeyOf, IsOnlyOf, IsRowOf, kind_in, may_lie_in, row_fault};

use super::parts::has_type;
use super::quota::has_quantities;
use super::reported::with_status;
use super::tree::{has_sorted_usages, is_ordered, read_tree};
use super::{BodyReader, object_at};
use crate::write::push_object;
use crate::{JsonFault, RowFault};
use hx_object::{Id, Kind, Object, Text};
use json::{Scratch, Value};
use std::alloc::Global;

impl BodyReader {
    /// The object that may be stored and whose row this is: its key, its version and its text. No two have one row.
    ///
    /// `key` and `body` are any bytes. The object's text is written again and compared, so a body of the same value in another form is refused. `NoObject` is answered only where no object has the row.
    pub fn read_row(&mut self, key: &[u8], version: u64, body: &[u8]) -> Result<Object, RowFault>
        ensures object { IfOk result (IsRowOf key.now version body.now) }
        ensures only { IfOk result (IsOnlyOf key.now version body.now) }
        ensures text { IfOk result (λ x. IsUtf8 key.now) }
        ensures none { IsErrOf result RowFault.NoObject → HasNoObject key.now version body.now }
    {
        let Ok(key) = simdutf8::compat::from_utf8(key) else {
            return Err(RowFault::NoObject);
        };
        let Ok(body) = simdutf8::compat::from_utf8(body) else {
            return Err(RowFault::NoObject);
        };
        read_texts(
            self.alloc,
            &mut self.scratch,
            &mut self.room,
            key,
            version,
            body,
        )
    }
}

/// Reads a row whose key and body are texts.
fn read_texts(
    alloc: Global,
    scratch: &mut Scratch,
    room: &mut String,
    key: &str,
    version: u64,
    body: &str,
) -> Result<Object, RowFault>
    ensures object { IfOk result (IsRowOf key.now version body.now) }
    ensures back { GivesRow key.now version body.now result }
{
    let id = id_in(alloc, key)?;
    let object = read_body(alloc, scratch, room, body, id, version)?;
    check_text(room, &object, body)?;
    Ok(object)
}

/// Refuses an object whose text, which is written for this, is another.
fn check_text(room: &mut String, object: &Object, text: &str) -> Result<(), RowFault>
    requires { IsLegal object.now }
    ensures text { OnOk result (object_text object.now ≡ text.now) }
    ensures back { object_text object.now ≡ text.now → Gives result tt }
{
    room.clear();
    push_object(room, object)?;
    if room.as_str() == text {
        Ok(())
    } else {
        Err(RowFault::NoObject)
    }
}

/// What a row's body says of the object of an identity.
fn read_body(
    alloc: Global,
    scratch: &mut Scratch,
    room: &mut String,
    text: &str,
    id: Id,
    version: u64,
) -> Result<Object, RowFault>
    requires home { is_in_cluster id.kind ≡ true → id.ns ≡ [] }
    ensures served { IfOk result IsServed }
    ensures id { IfOk result (λ x. x.id ≡ id) }
    ensures version { IfOk result (λ x. x.version ≡ version) }
    ensures back { GivesTextOf id version text.now result }
{
    let value = match read_tree(alloc, text, scratch) {
        Ok(value) => value,
        Err(fault) => return Err(row_fault(fault)),
    };
    if !is_fit(&value, id.kind) {
        return Err(RowFault::NoObject);
    }
    match object_at(alloc, room, &value, id, version) {
        Ok(object) => Ok(with_status(alloc, object, &value)?),
        Err(fault) => Err(row_fault(fault)),
    }
}

/// Whether a tree may be that of a row: what is kept in order is in order, and members that are read have their types.
fn is_fit(value: &Value<'_>, kind: Kind) -> bool
    ensures { result ≡ is_fit kind (value_view value.now) }
{
    is_ordered(value, kind)
        && has_type(value, kind)
        && has_quantities(value, kind)
        && has_sorted_usages(value)
}

fn row_fault(fault: JsonFault) -> RowFault
    ensures { result ≡ row_fault fault }
{
    match fault {
        JsonFault::NoMemory => RowFault::NoMemory,
        _ => RowFault::NoObject,
    }
}

/// The identity that a key is of.
fn id_in(alloc: Global, key: &str) -> Result<Id, RowFault>
    ensures id { IfOk result (IsKeyOf key.now) }
    ensures back { GivesId key.now result }
{
    let Some((kind, ns, name)) = parts_of(key) else {
        return Err(RowFault::NoObject);
    };
    let ns = Text::of(alloc, ns)?;
    let name = Text::of(alloc, name)?;
    Ok(Id { kind, ns, name })
}

/// The kind, the namespace and the name that a key says.
fn parts_of(key: &str) -> Option<(Kind, &str, &str)>
    ensures parts { IfSome result (λ parts. IsKeyOf key.now (record { kind = parts.0; ns = parts.1.now; name = parts.2.now })) }
    ensures back { (id : IdOf) → IsKeyOf key.now id → MatchOption result ⊥ (λ parts. (parts.0 ≡ id.kind) × (parts.1.now ≡ id.ns) × (parts.2.now ≡ id.name)) }
{
    let (digits, rest) = cut_at_slash(key)?;
    let (ns, name) = cut_at_slash(rest)?;
    let kind = kind_in(digits)?;
    if !may_lie_in(kind, ns) {
        return None;
    }
    Some((kind, ns, name))
}

/// Whether a key of a kind may name this namespace: no namespace, where the kind lies in none.
fn may_lie_in(kind: Kind, ns: &str) -> bool
    ensures { result ≡ may_lie_in kind ns.now }
{
    !kind.is_in_cluster() || ns == ""
}

/// What stands in front of the first slash, and what behind it.
fn cut_at_slash(text: &str) -> Option<(&str, &str)>
    ensures cut { IfSome result (λ cut. IsCutAt text.now cut.0.now cut.1.now) }
    ensures back { (front rest : List ℕ) → IsCutAt text.now front rest → MatchOption result ⊥ (λ cut. (cut.0.now ≡ front) × (cut.1.now ≡ rest)) }
{
    text.split_once('/')
}

/// The kind whose number two digits are.
fn kind_in(digits: &str) -> Option<Kind>
    ensures { result ≡ kind_in digits.now }
{
    match digits {
        "01" => Some(Kind::Namespace),
        "02" => Some(Kind::HncConfiguration),
        "03" => Some(Kind::HierarchyConfiguration),
        "04" => Some(Kind::SubnamespaceAnchor),
        "05" => Some(Kind::HierarchicalResourceQuota),
        "06" => Some(Kind::Role),
        "07" => Some(Kind::RoleBinding),
        "08" => Some(Kind::ConfigMap),
        "09" => Some(Kind::Secret),
        "10" => Some(Kind::NetworkPolicy),
        "11" => Some(Kind::LimitRange),
        "12" => Some(Kind::Pod),
        "13" => Some(Kind::Service),
        "14" => Some(Kind::PersistentVolumeClaim),
        _ => None,
    }
}
