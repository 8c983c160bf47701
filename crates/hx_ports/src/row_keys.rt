// The key of an object's row.
ghost use Rattle.std.specs.Prelude.{◌≡◌, ◌++◌, IfOk, IsUtf8};
ghost use Rattle.std.specs.Str.{bytes_eq};
ghost use Rattle.hx_object.specs.Kinds.{number_of};
ghost use Rattle.hx_model.specs.Texts.{key_text, two_digits};
ghost use Rattle.hx_ports.specs.Held.{key_front};

use arrayvec::ArrayVec;
use hx_object::{Id, Kind, List, NoMemory};
use std::alloc::Global;

/// The most bytes of a key that are formed without memory. That of a legal object has no more: two digits, two slashes, a namespace of up to 63 bytes and a name of up to 253.
pub(crate) const MOST: usize = 320;

/// The key of an object's row.
#[tactic(auto, unfolding(hx_model::specs::Texts::key_text))]
pub fn row_key(alloc: Global, id: &Id) -> Result<List<u8>, NoMemory>
    ensures key { IfOk result (λ key. key ≡ key_text id.now) }
    ensures text { IfOk result IsUtf8 }
{
    let ns = id.ns.as_str();
    let name = id.name.as_str();
    let len = ns.len().saturating_add(name.len()).saturating_add(4);
    let mut key = String::with_capacity(alloc, len)?;
    key.push_str(digits_of(id.kind))?;
    key.push_str("/")?;
    key.push_str(ns)?;
    key.push_str("/")?;
    key.push_str(name)?;
    // A string is UTF-8, which a look at it tells.
    let _ = key.as_str();
    Ok(List::of(key.into_bytes()))
}

/// The first bytes of a key, by which it is hashed. It takes no memory.
pub(crate) fn key_front(id: &Id) -> ArrayVec<u8, MOST>
    ensures { result.items ≡ key_front (key_text id.now) }
{
    let mut front = ArrayVec::new();
    push_part(&mut front, digits_of(id.kind).as_bytes());
    push_part(&mut front, "/".as_bytes());
    push_part(&mut front, id.ns.as_bytes());
    push_part(&mut front, "/".as_bytes());
    push_part(&mut front, id.name.as_bytes());
    front
}

/// Adds as much of a part as there is room for.
fn push_part(front: &mut ArrayVec<u8, MOST>, part: &[u8])
    ensures { front.new.items ≡ key_front (front.old.items ++ part.now) }
{
    let room = front.remaining_capacity().min(part.len());
    let _ = front.try_extend_from_slice(&part[..room]);
}

/// Whether bytes are the key of an object's row. It takes no memory, however long the key is.
pub(crate) fn is_key_of(id: &Id, bytes: &[u8]) -> bool
    ensures { result ≡ bytes_eq bytes.now (key_text id.now) }
{
    let Some(rest) = bytes.strip_prefix(digits_of(id.kind).as_bytes()) else {
        return false;
    };
    let Some(rest) = rest.strip_prefix("/".as_bytes()) else {
        return false;
    };
    let Some(rest) = rest.strip_prefix(id.ns.as_bytes()) else {
        return false;
    };
    let Some(rest) = rest.strip_prefix("/".as_bytes()) else {
        return false;
    };
    rest == id.name.as_bytes()
}

/// The number of a kind in two digits.
fn digits_of(kind: Kind) -> &'static str
    ensures { result.now ≡ two_digits (number_of kind) }
{
    match kind {
        Kind::Namespace => "01",
        Kind::HncConfiguration => "02",
        Kind::HierarchyConfiguration => "03",
        Kind::SubnamespaceAnchor => "04",
        Kind::HierarchicalResourceQuota => "05",
        Kind::Role => "06",
        Kind::RoleBinding => "07",
        Kind::ConfigMap => "08",
        Kind::Secret => "09",
        Kind::NetworkPolicy => "10",
        Kind::LimitRange => "11",
        Kind::Pod => "12",
        Kind::Service => "13",
        Kind::PersistentVolumeClaim => "14",
    }
}
