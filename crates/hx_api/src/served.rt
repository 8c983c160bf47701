// The kinds that are served under a version, and the places of their objects.
ghost use Rattle.std.specs.Prelude.{◌≡◌, option_map};
ghost use Rattle.hx_api.specs.Paths.{cluster_kind, cluster_object, collection, collection_in, is_served_under, kind_under, namespaced_kind, object_in};
ghost use Rattle.hx_api.specs.Inside.{as_sent, parts_of_version};

use crate::resource_path::ResourcePath;
use hx_object::Kind;

/// The parts of an `apiVersion` in a path. The core group's has no group.
#[derive(Clone, Copy)]
pub enum Version<'a> {
    Core { version: &'a str },
    Group { group: &'a str, version: &'a str },
}

impl Version<'_> {
    fn serves(self, kind: Kind) -> bool
        ensures { result ≡ is_served_under (parts_of_version self.entry) kind }
    {
        let own = kind.api_version();
        match (self, own.split_once('/')) {
            (Version::Core { version }, None) => own == version,
            (Version::Group { group, version }, Some((own_group, own_version))) => {
                own_group == group && own_version == version
            }
            _ => false,
        }
    }
}

// ---- kinds

fn kind_under(version: Version<'_>, plural: &str) -> Option<Kind>
    ensures { result ≡ kind_under (parts_of_version version.entry) plural.now }
{
    let kind = Kind::of_plural(plural)?;
    if version.serves(kind) {
        Some(kind)
    } else {
        None
    }
}

fn cluster_kind(version: Version<'_>, plural: &str) -> Option<Kind>
    ensures { result ≡ cluster_kind (parts_of_version version.entry) plural.now }
{
    let kind = kind_under(version, plural)?;
    if kind.is_in_cluster() {
        Some(kind)
    } else {
        None
    }
}

fn namespaced_kind(version: Version<'_>, plural: &str) -> Option<Kind>
    ensures { result ≡ namespaced_kind (parts_of_version version.entry) plural.now }
{
    let kind = kind_under(version, plural)?;
    if kind.is_in_cluster() {
        None
    } else {
        Some(kind)
    }
}

// ---- places

pub fn collection<'a>(version: Version<'a>, plural: &'a str) -> Option<ResourcePath<&'a str>>
    ensures { option_map as_sent result ≡ collection (parts_of_version version.entry) plural.now }
{
    let kind = kind_under(version, plural)?;
    Some(ResourcePath::Collection { kind, ns: None })
}

pub fn cluster_object<'a>(
    version: Version<'a>,
    plural: &'a str,
    name: &'a str,
) -> Option<ResourcePath<&'a str>>
    ensures { option_map as_sent result ≡ cluster_object (parts_of_version version.entry) plural.now name.now }
{
    if name.is_empty() {
        return None;
    }
    let kind = cluster_kind(version, plural)?;
    Some(ResourcePath::Object {
        kind,
        ns: None,
        name,
    })
}

pub fn collection_in<'a>(
    version: Version<'a>,
    ns: &'a str,
    plural: &'a str,
) -> Option<ResourcePath<&'a str>>
    ensures { option_map as_sent result ≡ collection_in (parts_of_version version.entry) ns.now plural.now }
{
    if ns.is_empty() {
        return None;
    }
    let kind = namespaced_kind(version, plural)?;
    Some(ResourcePath::Collection { kind, ns: Some(ns) })
}

pub fn object_in<'a>(
    version: Version<'a>,
    ns: &'a str,
    plural: &'a str,
    name: &'a str,
) -> Option<ResourcePath<&'a str>>
    ensures { option_map as_sent result ≡ object_in (parts_of_version version.entry) ns.now plural.now name.now }
{
    if ns.is_empty() || name.is_empty() {
        return None;
    }
    let kind = namespaced_kind(version, plural)?;
    Some(ResourcePath::Object {
        kind,
        ns: Some(ns),
        name,
    })
}
