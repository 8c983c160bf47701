// What paths name, and the methods that are taken there.
ghost use Rattle.std.specs.Prelude.{◌≡◌, IfOk, option_copied};
ghost use Rattle.std.specs.Cow.{cow_str_bytes};
ghost use Rattle.hx_api.specs.Paths.{allows, decoded_resource, namespace_text, segment_text};
ghost use Rattle.hx_api.specs.Inside.{as_sent};

use crate::Method;
use hx_discovery::Document;
use hx_object::{Kind, NoMemory, Text};
use percent_encoding::{DecodeError, percent_decode};
use std::alloc::Global;
use std::borrow::CowStr;

/// What a path names. A segment is a `&str` as it was sent, and a `Text` once it is decoded.
#[derive(Drop)]
pub enum ResourcePath<S> {
    /// The feed of events.
    Events,
    /// What the server says of itself.
    Document(Document),
    /// The objects of a kind, in a namespace or in all of them.
    Collection { kind: Kind, ns: Option<S> },
    /// One object. It has a namespace unless its kind lies in none.
    Object { kind: Kind, ns: Option<S>, name: S },
}

/// Whether a resource takes a method.
pub fn allows(resource: &ResourcePath<&str>, method: Method) -> bool
    ensures { result ≡ allows (as_sent resource.now) method }
{
    match (resource, method) {
        (ResourcePath::Events, Method::Get) => true,
        (ResourcePath::Document(_), Method::Get) => true,
        (ResourcePath::Collection { .. }, Method::Get) => true,
        (ResourcePath::Collection { kind, ns: None }, Method::Post) => kind.is_in_cluster(),
        (ResourcePath::Collection { ns: Some(_), .. }, Method::Post) => true,
        (ResourcePath::Object { .. }, Method::Get | Method::Put | Method::Delete) => true,
        _ => false,
    }
}

/// The text that a segment stands for, or `None` where that isn't UTF-8.
fn segment_text(alloc: Global, segment: &str) -> Result<Option<Text>, NoMemory>
    ensures { IfOk result (λ text. text ≡ segment_text segment.now) }
{
    match percent_decode(segment.as_bytes()).decode_utf8(alloc) {
        Ok(text) => Ok(Some(text_in(alloc, text)?)),
        Err(DecodeError::Utf8(_)) => Ok(None),
        Err(DecodeError::OutOfMemory) => Err(NoMemory),
    }
}

/// The text of what was decoded, which is borrowed where nothing is escaped.
fn text_in(alloc: Global, decoded: CowStr<'_, Global>) -> Result<Text, NoMemory>
    ensures { IfOk result (λ text. text ≡ cow_str_bytes decoded.entry) }
{
    match decoded {
        CowStr::Borrowed(text) => Text::of(alloc, text),
        CowStr::Owned(text) => Ok(Text::of_string(text)),
    }
}

/// The text of a segment that may be absent. `None` where there is one that isn't UTF-8.
fn namespace_text(alloc: Global, segment: Option<&str>) -> Result<Option<Option<Text>>, NoMemory>
    ensures { IfOk result (λ text. text ≡ namespace_text (option_copied segment.entry)) }
{
    match segment {
        None => Ok(Some(None)),
        Some(segment) => match segment_text(alloc, segment)? {
            Some(text) => Ok(Some(Some(text))),
            None => Ok(None),
        },
    }
}

/// The resource with its segments decoded, or `None` where one isn't UTF-8.
pub fn decoded(
    alloc: Global,
    resource: &ResourcePath<&str>,
) -> Result<Option<ResourcePath<Text>>, NoMemory>
    ensures { IfOk result (λ p. p ≡ decoded_resource (as_sent resource.now)) }
{
    match resource {
        ResourcePath::Events => Ok(Some(ResourcePath::Events)),
        ResourcePath::Document(document) => Ok(Some(ResourcePath::Document(*document))),
        ResourcePath::Collection { kind, ns } => match namespace_text(alloc, *ns)? {
            Some(ns) => Ok(Some(ResourcePath::Collection { kind: *kind, ns })),
            None => Ok(None),
        },
        ResourcePath::Object { kind, ns, name } => {
            let Some(ns) = namespace_text(alloc, *ns)? else {
                return Ok(None);
            };
            let Some(name) = segment_text(alloc, name)? else {
                return Ok(None);
            };
            Ok(Some(ResourcePath::Object {
                kind: *kind,
                ns,
                name,
            }))
        }
    }
}
