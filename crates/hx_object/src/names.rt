// The grammar of names.
ghost use Rattle.std.specs.Prelude.{◌≡◌, ◌≤◌, ◌<◌, IfSome, ◌==◌, length};
ghost use Rattle.std.specs.List.{list_all, slice_split};
ghost use Rattle.hx_object.specs.Names.{is_dns_label, is_dns_subdomain, is_subdomain, is_role_name, is_name_of, is_label_key, is_annotation_key, is_label_value, is_key, first_slash, is_qualified_part, is_dns_part, has_length, has_ends, is_dns_byte, is_part_byte, is_role_byte, is_points, is_qualified_byte, is_alphanumeric, is_dns_end};

use crate::Kind;

impl Kind {
    /// Whether the bytes may name an object of the kind.
    pub fn is_name(self, name: &[u8]) -> bool
        ensures { result ≡ is_name_of self name.now }
    {
        is_name_of(self, name)
    }
}

/// Whether the bytes are a DNS label (RFC 1123): 1 to 63 lowercase letters, digits and dashes, with no dash at either end.
#[tactic(auto, unfolding(crate::specs::Names::is_dns_label))]
pub fn is_dns_label(name: &[u8]) -> bool
    ensures { result ≡ is_dns_label name.now }
{
    if !has_label_length(name) {
        return false;
    }
    if !has_label_bytes(name) {
        return false;
    }
    ends_well(name)
}

/// Whether the bytes are a DNS subdomain (RFC 1123) of at most 253 bytes. A part between points may have more than 63.
fn is_dns_subdomain(name: &[u8]) -> bool
    ensures { result ≡ is_dns_subdomain name.now }
{
    is_subdomain(false, name)
}

/// Whether the bytes may name a Role or a RoleBinding: they are a segment of a path, of visible ASCII.
#[tactic(auto, unfolding(crate::specs::Names::is_role_name))]
fn is_role_name(name: &[u8]) -> bool
    ensures { result ≡ is_role_name name.now }
{
    has_name_length(name) && has_role_bytes(name) && !is_points(name)
}

/// Whether the bytes may name an object of the kind.
pub(crate) fn is_name_of(kind: Kind, name: &[u8]) -> bool
    ensures { result ≡ is_name_of kind name.now }
{
    match kind {
        Kind::Namespace | Kind::SubnamespaceAnchor => is_dns_label(name),
        Kind::Role | Kind::RoleBinding => is_role_name(name),
        _ => is_dns_subdomain(name),
    }
}

/// Whether the bytes may be the key of a label ("Labels and Selectors" of the Kubernetes documentation).
pub fn is_label_key(key: &[u8]) -> bool
    ensures { result ≡ is_label_key key.now }
{
    is_key(false, key)
}

/// Whether the bytes may be the key of an annotation.
pub(crate) fn is_annotation_key(key: &[u8]) -> bool
    ensures { result ≡ is_annotation_key key.now }
{
    is_key(true, key)
}

/// Whether the bytes may be the value of a label: empty, or 1 to 63 letters, digits, `-`, `_` and `.`, with a letter or digit at either end.
pub fn is_label_value(value: &[u8]) -> bool
    ensures { result ≡ is_label_value value.now }
{
    value.is_empty() || is_qualified_part(value)
}

#[tactic(auto, unfolding(crate::specs::Names::is_key))]
fn is_key(any_case: bool, key: &[u8]) -> bool
    ensures { result ≡ is_key any_case key.now }
{
    let Some(slash) = first_slash(key) else {
        return is_qualified_part(key);
    };
    is_subdomain(any_case, &key[..slash]) && is_qualified_part(&key[slash + 1..])
}

fn first_slash(key: &[u8]) -> Option<usize>
    ensures place { result ≡ first_slash key.now }
    ensures within { IfSome result (λ slash. slash < length key.now) }
{
    key.iter().position(|byte| *byte == b'/')
}

#[tactic(auto, unfolding(crate::specs::Names::is_subdomain))]
fn is_subdomain(any_case: bool, name: &[u8]) -> bool
    ensures { result ≡ is_subdomain any_case name.now }
{
    has_name_length(name) && has_parts(any_case, name)
}

fn has_parts(any_case: bool, name: &[u8]) -> bool
    ensures { result ≡ list_all (is_dns_part any_case) (slice_split (λ byte. byte == 46) name.now) }
{
    name.split(|byte| *byte == b'.')
        .all(|part| is_dns_part(any_case, part))
}

#[tactic(auto, unfolding(crate::specs::Names::is_dns_part))]
fn is_dns_part(any_case: bool, part: &[u8]) -> bool
    ensures { result ≡ is_dns_part any_case part.now }
{
    if part.is_empty() {
        return false;
    }
    has_part_bytes(any_case, part) && ends_well(part)
}

fn has_part_bytes(any_case: bool, part: &[u8]) -> bool
    ensures { result ≡ list_all (is_part_byte any_case) part.now }
{
    for byte in part {
        if !is_part_byte(any_case, *byte) {
            return false;
        }
    }
    true
}

#[tactic(auto, unfolding(crate::specs::Names::is_qualified_part))]
fn is_qualified_part(name: &[u8]) -> bool
    ensures { result ≡ is_qualified_part name.now }
{
    if !has_label_length(name) {
        return false;
    }
    has_qualified_bytes(name) && has_alphanumeric_ends(name)
}

fn has_qualified_bytes(name: &[u8]) -> bool
    ensures { result ≡ list_all is_qualified_byte name.now }
{
    for byte in name {
        if !is_qualified_byte(*byte) {
            return false;
        }
    }
    true
}

fn has_role_bytes(name: &[u8]) -> bool
    ensures { result ≡ list_all is_role_byte name.now }
{
    for byte in name {
        if !is_role_byte(*byte) {
            return false;
        }
    }
    true
}

/// Whether the name is a step of a path to the same folder or to the one above.
fn is_points(name: &[u8]) -> bool
    ensures { result ≡ is_points name.now }
{
    name == b".".as_slice() || name == b"..".as_slice()
}

fn has_label_length(name: &[u8]) -> bool
    ensures { result ≡ has_length 1 63 name.now }
{
    1 <= name.len() && name.len() <= 63
}

fn has_name_length(name: &[u8]) -> bool
    ensures { result ≡ has_length 1 253 name.now }
{
    1 <= name.len() && name.len() <= 253
}

fn has_label_bytes(name: &[u8]) -> bool
    ensures { result ≡ list_all is_dns_byte name.now }
{
    for byte in name {
        if !is_dns_byte(*byte) {
            return false;
        }
    }
    true
}

fn ends_well(name: &[u8]) -> bool
    requires { 1 ≤ length name.now }
    ensures { result ≡ has_ends is_dns_end name.now }
{
    name[0] != b'-' && name[name.len() - 1] != b'-'
}

fn has_alphanumeric_ends(name: &[u8]) -> bool
    requires { 1 ≤ length name.now }
    ensures { result ≡ has_ends is_alphanumeric name.now }
{
    is_alphanumeric(name[0]) && is_alphanumeric(name[name.len() - 1])
}

fn is_dns_byte(byte: u8) -> bool
    ensures { result ≡ is_dns_byte byte }
{
    b'a' <= byte && byte <= b'z' || b'0' <= byte && byte <= b'9' || byte == b'-'
}

fn is_part_byte(any_case: bool, byte: u8) -> bool
    ensures { result ≡ is_part_byte any_case byte }
{
    byte.is_ascii_lowercase()
        || any_case && byte.is_ascii_uppercase()
        || byte.is_ascii_digit()
        || byte == b'-'
}

fn is_role_byte(byte: u8) -> bool
    ensures { result ≡ is_role_byte byte }
{
    byte.is_ascii_graphic() && byte != b'/' && byte != b'%'
}

fn is_qualified_byte(byte: u8) -> bool
    ensures { result ≡ is_qualified_byte byte }
{
    is_alphanumeric(byte) || byte == b'-' || byte == b'_' || byte == b'.'
}

fn is_alphanumeric(byte: u8) -> bool
    ensures { result ≡ is_alphanumeric byte }
{
    byte.is_ascii_alphanumeric()
}
