// One request of each method, one of each refusal of a target, and the replies. The bytes of many more stand in the table of requests.
ghost use Rattle.hx_model.specs.Serving.{IsLegalAnswer};

use hx_api::{Method, Reply, RequestReader, push_body, status_of, write_answer};
use hx_model::{Answer, Ask, Refusal};
use hx_object::NoMemory;
use std::alloc::Global;
use std::test::Fail;

const BODY: &[u8] = b"{\"apiVersion\":\"v1\",\"kind\":\"Service\",\"metadata\":{\"name\":\"s\"}}";

fn word_of(ask: &Ask) -> &'static str {
    match ask {
        Ask::Get { .. } => "get",
        Ask::List { .. } => "list",
        Ask::Create { .. } => "create",
        Ask::Replace { .. } => "replace",
        Ask::Delete { .. } => "delete",
        Ask::Document(_) => "document",
        Ask::Events { .. } => "events",
    }
}

/// What a request was read as, or the status of its refusal.
fn told(read: &Result<Ask, Refusal>) -> Result<&'static str, u16> {
    match read {
        Ok(ask) => Ok(word_of(ask)),
        Err(refusal) => Err(refusal.code()),
    }
}

/// What a request asks, or the status of its refusal.
fn reading(reader: &mut RequestReader, method: Method, target: &str) -> Result<&'static str, u16> {
    let read = reader.read_ask(method, target, BODY);
    let told = told(&read);
    drop(read);
    told
}

/// A request's method and target, and what it asks or the status of its refusal.
type Row = (Method, &'static str, Result<&'static str, u16>);

const ROWS: [Row; 16] = [
    (Method::Get, "/api/v1/namespaces/a/services/s", Ok("get")),
    (Method::Get, "/api/v1/services", Ok("list")),
    (Method::Post, "/api/v1/namespaces/a/services", Ok("create")),
    (
        Method::Put,
        "/api/v1/namespaces/a/services/%73",
        Ok("replace"),
    ),
    (
        Method::Delete,
        "/api/v1/namespaces/a/services/s",
        Ok("delete"),
    ),
    (Method::Put, "/api/v1/namespaces/a/services/t", Err(400)),
    (Method::Get, "/api/v1/services/", Err(404)),
    (Method::Post, "/api/v1/services", Err(405)),
    (Method::Get, "/api/v1/namespaces/%ff", Err(400)),
    (Method::Get, "/api/v1/services?watch=1", Err(400)),
    (Method::Delete, "/api/v1/namespaces/a", Ok("delete")),
    (Method::Post, "/api/v1/namespaces/a/pods", Err(400)),
    (Method::Get, "/hnc/v1/events?since=0", Ok("events")),
    (Method::Get, "/apis/hnc.x-k8s.io/v1alpha2", Ok("document")),
    (Method::Put, "/version", Err(405)),
    (
        Method::Get,
        "/api/v1/pods?fieldSelector=metadata.name=a",
        Ok("list"),
    ),
];

#[test]
fn requests(rt: HostRuntime) {
    let mut reader = RequestReader::new(rt.alloc());
    for (method, target, wanted) in ROWS {
        let found = reading(&mut reader, method, target);
        assert!(rt; found == wanted, "{target}");
    }
}

/// Whether a body is the one that an answer pushes.
fn is_pushed(alloc: Global, answer: &Answer, body: &str) -> Result<bool, NoMemory>
    requires { IsLegalAnswer answer.now }
{
    let mut pushed = String::new(alloc);
    push_body(&mut pushed, answer)?;
    Ok(pushed.as_str() == body)
}

/// The status of an answer's reply, where its body is the one that the answer pushes.
fn status_in(alloc: Global, answer: &Answer) -> Result<Option<u16>, NoMemory>
    requires { IsLegalAnswer answer.now }
{
    let reply = write_answer(alloc, answer);
    let is_pushed = is_pushed(alloc, answer, reply.body.as_str())?;
    Ok(if is_pushed { Some(reply.status) } else { None })
}

#[test]
fn replies(rt: HostRuntime) -> Result<(), Fail> {
    let answer = Answer::Refused(Refusal::NoPath);
    let status = status_of(&answer);
    let replied = status_in(rt.alloc(), &answer);
    drop(answer);
    assert!(rt; status == 404 && replied? == Some(404));
    assert_eq!(rt; Reply::no_memory(rt.alloc()).status, 503);
    Ok(())
}
