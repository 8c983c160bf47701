// Requests as asks.
ghost use Rattle.std.specs.Prelude.{◌≡◌, ◌⊎◌, Ok, Err, None, Some, IfOk, IfErr, OnOk, option_map};
ghost use Rattle.hx_model.specs.Serving.{IsServedAsk};
ghost use Rattle.hx_api.specs.Asks.{ask_of, events_after, fields_for, namespace, is_feed, is_list, query_refusal, resource_for, ask_at, selector_for, selector_in};
ghost use Rattle.hx_api.specs.Inside.{FitsScope, as_sent};
ghost use Rattle.hx_api.specs.Paths.{named_by, resource_of};
ghost use Rattle.hx_api.specs.declared.resource_path.ResourcePath.TheVariants.{Document as document_at};
ghost use Rattle.hx_discovery.specs.Documents.{document_on};

use crate::Method;
use crate::body::{create, replace};
use crate::fields::fields_in;
use crate::query::{Query, cut};
use crate::resource_path::{ResourcePath, allows, decoded};
use crate::routes::Routes;
use hx_discovery::document_on;
use hx_json::BodyReader;
use hx_model::{Ask, Fields, Refusal};
use hx_object::{Id, NoMemory, Text};
use hx_select::{SelectFault, Selector};
use std::alloc::Global;
use std::marker::Model;

/// Reads requests, one after another. It keeps the room that reading a body takes, and the routes, which the first request makes.
pub struct RequestReader {
    alloc: Global,
    bodies: BodyReader,
    routes: Option<Routes>,
}

impl Drop for RequestReader {
    fn drop(self) {
        let RequestReader {
            alloc: _,
            bodies: _,
            routes: _,
        } = self;
    }
}

impl Model for RequestReader {
    ghost Value = { Unit {0} };

    ghost view = { λ reader. tt };
}

impl RequestReader {
    /// It takes no memory.
    pub fn new(alloc: Global) -> RequestReader {
        RequestReader {
            alloc,
            bodies: BodyReader::new(alloc),
            routes: None,
        }
    }

    /// What a request asks, or the first refusal that holds. The bodies of `Get` and `Delete` are ignored.
    #[tactic(auto, using(crate::proofs::Scopes::fits_scope), unfolding(crate::specs::Asks::ask_of))]
    pub fn read_ask(&mut self, method: Method, target: &str, body: &[u8]) -> Result<Ask, Refusal>
        ensures ok { IfOk result (λ ask. ask_of method target.now body.now ≡ Ok ask) }
        ensures refused { IfErr result (λ refusal. (refusal ≡ Refusal.NoMemory) ⊎ (ask_of method target.now body.now ≡ Err refusal)) }
        ensures served { IfOk result IsServedAsk }
    {
        let (path, query) = cut(target);
        let resource = resource_for(&mut self.routes, self.alloc, method, path)?;
        let query = Query::read(self.alloc, query)?;
        let selector = selector_for(self.alloc, method, &resource, &query)?;
        check_query(self.alloc, method, &resource, &query)?;
        let fields = fields_for(self.alloc, method, &resource, &query)?;
        let skip = query.is_skip();
        ask_at(
            &mut self.bodies,
            self.alloc,
            method,
            resource,
            selector,
            fields,
            query.since(),
            skip,
            body,
        )
    }
}

/// The resource of a request, its segments decoded, if the path is served and takes the method.
fn resource_for(
    routes: &mut Option<Routes>,
    alloc: Global,
    method: Method,
    path: &str,
) -> Result<ResourcePath<Text>, Refusal>
    ensures ok { IfOk result (λ resource. resource_for method (named_by path.now) ≡ Ok resource) }
    ensures refused { IfErr result (λ refusal. (refusal ≡ Refusal.NoMemory) ⊎ (resource_for method (named_by path.now) ≡ Err refusal)) }
{
    let Some(resource) = named_by(routes, alloc, path)? else {
        return Err(Refusal::NoPath);
    };
    if !allows(&resource, method) {
        return Err(Refusal::NoMethod);
    }
    match decoded(alloc, &resource)? {
        Some(resource) => Ok(resource),
        None => Err(Refusal::BadPath),
    }
}

/// What a path names, its segments as they were sent.
fn named_by<'a>(
    routes: &mut Option<Routes>,
    alloc: Global,
    path: &'a str,
) -> Result<Option<ResourcePath<&'a str>>, NoMemory>
    ensures { IfOk result (λ resource. option_map as_sent resource ≡ named_by path.now) }
{
    match resource_of(routes, alloc, path)? {
        Some(resource) => Ok(Some(resource)),
        None => Ok(document(path)),
    }
}

/// The document that is found at a path.
fn document(path: &str) -> Option<ResourcePath<&str>>
    ensures { option_map as_sent result ≡ option_map (λ document. document_at document) (document_on path.now) }
{
    match document_on(path) {
        Some(document) => Some(ResourcePath::Document(document)),
        None => None,
    }
}

/// The objects that a path names, or the feed, its segments as they were sent, by the routes that are kept.
fn resource_of<'a>(
    routes: &mut Option<Routes>,
    alloc: Global,
    path: &'a str,
) -> Result<Option<ResourcePath<&'a str>>, NoMemory>
    ensures { IfOk result (λ resource. option_map as_sent resource ≡ resource_of path.now) }
{
    match routes {
        Some(routes) => Ok(routes.resource_of(path)),
        None => Ok(routes.insert(Routes::new(alloc)?).resource_of(path)),
    }
}

/// Refuses a request with a parameter whose value isn't taken.
fn check_query(
    alloc: Global,
    method: Method,
    resource: &ResourcePath<Text>,
    query: &Query<'_>,
) -> Result<(), Refusal>
    ensures ok { OnOk result (query_refusal method resource.now query.now ≡ None) }
    ensures refused { IfErr result (λ refusal. (refusal ≡ Refusal.NoMemory) ⊎ (query_refusal method resource.now query.now ≡ Some refusal)) }
{
    if let Some(name) = query.bad_parameter(is_feed(resource), is_list(method, resource)) {
        return Err(Refusal::BadQuery {
            name: Text::of(alloc, name)?,
        });
    }
    Ok(())
}

fn is_feed(resource: &ResourcePath<Text>) -> bool
    ensures { result ≡ is_feed resource.now }
{
    matches!(resource, ResourcePath::Events)
}

fn is_list(method: Method, resource: &ResourcePath<Text>) -> bool
    ensures { result ≡ is_list method resource.now }
{
    matches!(
        (method, resource),
        (Method::Get, ResourcePath::Collection { .. })
    )
}

/// The selector of a request: only lists have one.
fn selector_for(
    alloc: Global,
    method: Method,
    resource: &ResourcePath<Text>,
    query: &Query<'_>,
) -> Result<Selector, Refusal>
    ensures ok { IfOk result (λ selector. selector_for method resource.now query.now ≡ Ok selector) }
    ensures refused { IfErr result (λ refusal. (refusal ≡ Refusal.NoMemory) ⊎ (selector_for method resource.now query.now ≡ Err refusal)) }
{
    match (method, resource) {
        (Method::Get, ResourcePath::Collection { .. }) => selector_in(alloc, query.selector()),
        _ => Ok(Selector::everything(alloc)),
    }
}

/// The fields of a request: only lists have some.
fn fields_for(
    alloc: Global,
    method: Method,
    resource: &ResourcePath<Text>,
    query: &Query<'_>,
) -> Result<Fields, NoMemory>
    ensures { IfOk result (λ fields. fields ≡ fields_for method resource.now query.now) }
{
    match (method, resource) {
        (Method::Get, ResourcePath::Collection { .. }) => fields_in(alloc, query.fields()),
        _ => Ok(Fields::none()),
    }
}

/// The selector that a text is. An empty text selects everything.
fn selector_in(alloc: Global, text: &str) -> Result<Selector, Refusal>
    ensures ok { IfOk result (λ selector. selector_in text.now ≡ Ok selector) }
    ensures refused { IfErr result (λ refusal. (refusal ≡ Refusal.NoMemory) ⊎ (selector_in text.now ≡ Err refusal)) }
{
    if text.is_empty() {
        return Ok(Selector::everything(alloc));
    }
    match Selector::read(alloc, text) {
        Ok(selector) => Ok(selector),
        Err(SelectFault::NoMemory) => Err(Refusal::NoMemory),
        Err(_) => Err(bad_query(alloc, "labelSelector")),
    }
}

/// The refusal of a parameter, or for want of memory.
fn bad_query(alloc: Global, name: &str) -> Refusal
    ensures { (result ≡ Refusal.NoMemory) ⊎ (result ≡ Refusal.BadQuery name.now) }
{
    match Text::of(alloc, name) {
        Ok(name) => Refusal::BadQuery { name },
        Err(NoMemory) => Refusal::NoMemory,
    }
}

/// The namespace, empty where there is none.
fn namespace(alloc: Global, ns: Option<Text>) -> Text
    ensures { result ≡ namespace ns }
{
    match ns {
        Some(ns) => ns,
        None => Text::of_string(String::new(alloc)),
    }
}

/// The events after a version, which has to be given.
fn events_after(alloc: Global, version: Option<u64>) -> Result<Ask, Refusal>
    ensures ok { IfOk result (λ ask. events_after version ≡ Ok ask) }
    ensures refused { IfErr result (λ refusal. (refusal ≡ Refusal.NoMemory) ⊎ (events_after version ≡ Err refusal)) }
    ensures served { IfOk result IsServedAsk }
{
    match version {
        Some(since) => Ok(Ask::Events { since }),
        None => Err(bad_query(alloc, "since")),
    }
}

/// The ask of a method at a resource that takes it.
fn ask_at(
    reader: &mut BodyReader,
    alloc: Global,
    method: Method,
    resource: ResourcePath<Text>,
    selector: Selector,
    fields: Fields,
    since: Option<u64>,
    skip: bool,
    body: &[u8],
) -> Result<Ask, Refusal>
    requires scope { FitsScope resource }
    ensures ok { IfOk result (λ ask. ask_at method resource selector fields since skip body.now ≡ Ok ask) }
    ensures refused { IfErr result (λ refusal. (refusal ≡ Refusal.NoMemory) ⊎ (ask_at method resource selector fields since skip body.now ≡ Err refusal)) }
    ensures served { IfOk result IsServedAsk }
{
    match (method, resource) {
        (Method::Get, ResourcePath::Events) => events_after(alloc, since),
        (Method::Get, ResourcePath::Document(document)) => Ok(Ask::Document(document)),
        (Method::Get, ResourcePath::Collection { kind, ns }) => Ok(Ask::List {
            kind,
            ns,
            selector,
            fields,
        }),
        (Method::Get, ResourcePath::Object { kind, ns, name }) => {
            let ns = namespace(alloc, ns);
            Ok(Ask::Get {
                id: Id { kind, ns, name },
            })
        }
        (Method::Post, ResourcePath::Collection { kind, ns }) => {
            let ns = namespace(alloc, ns);
            create(reader, kind, &ns, skip, body)
        }
        (Method::Put, ResourcePath::Object { kind, ns, name }) => {
            let ns = namespace(alloc, ns);
            replace(reader, &Id { kind, ns, name }, skip, body)
        }
        (Method::Delete, ResourcePath::Object { kind, ns, name }) => {
            let ns = namespace(alloc, ns);
            Ok(Ask::Delete {
                id: Id { kind, ns, name },
                skip,
            })
        }
        _ => Err(Refusal::NoMethod),
    }
}
