// Links through the top call, over a door in memory.
ghost use Rattle.std.specs.Prelude.{◌<◌};

use super::{NO_ROWS, split_words};
use crate::top::{Status, top};
use hx_door::{MemDoor, MemLine};
use hx_link::LinkEnd;
use hx_object::NoMemory;
use hx_ports::{MemSink, MemSource, SureKeeper, SureSink, SureSource};
use hx_serve::Notices;
use std::alloc::Global;
use std::hash::RandomState;
use std::sync::Wait;
use std::sync::atomic::{AtomicU64, Ordering};
use std::test::Fail;
use std::thread::Threads;

// What the clients of two links send, and what is sent to them, of the second how it begins: behind the first link the tree's labels were written. The second link ends within a request.
const FIRST_SENT: &str =
    "POST /api/v1/namespaces HTTP/1.1\r\nHost: x\r\nContent-Length: 65\r\n\r\n{\"apiVersion\":\"v1\",\"kind\":\"Namespace\",\"metadata\":{\"name\":\"acme\"}}GET /api/v1/namespaces/none HTTP/1.1\r\nConnection: close\r\n\r\nGET / HTTP/1.1\r\n\r\n";

const SECOND_SENT: &str = "GET /api/v1/namespaces/acme HTTP/1.1\r\n\r\nGET /";

const FIRST_ANSWERS: &str =
    "HTTP/1.1 201 Created\r\ncontent-type: application/json\r\ncontent-length: 115\r\n\r\n{\"apiVersion\":\"v1\",\"kind\":\"Namespace\",\"metadata\":{\"name\":\"acme\",\"resourceVersion\":\"1\"},\"status\":{\"phase\":\"Active\"}}HTTP/1.1 404 Not Found\r\ncontent-type: application/json\r\ncontent-length: 141\r\nconnection: close\r\n\r\n{\"apiVersion\":\"v1\",\"code\":404,\"kind\":\"Status\",\"message\":\"namespaces \\\"none\\\" not found\",\"metadata\":{},\"reason\":\"NotFound\",\"status\":\"Failure\"}";

const SECOND_ANSWER: &str =
    "HTTP/1.1 200 OK\r\ncontent-type: application/json\r\ncontent-length: 202\r\n\r\n";

// The piece that links read at a time, the call of the door that fails, and how it ends.
const CASES: [(usize, u64, Status, usize, u64); 5] = [
    (4096, 0, Status::Done, 2, 1),
    (1, 0, Status::Done, 2, 1),
    (7, 0, Status::Done, 2, 1),
    (3, 1, Status::DoorFault, 0, 0),
    (2, 3, Status::DoorFault, 1, 0),
];

// Links are served one after the other.
const ONE_SESSION: &str = "serve --listen 127.0.0.1:0 --sessions 1 --workers 0 --links 2";

// Counts the links that ended otherwise than closed.
pub(super) struct Counted {
    ended: AtomicU64,
}

impl Counted {
    pub(super) fn new() -> Counted {
        Counted {
            ended: AtomicU64::new(0),
        }
    }
}

impl Drop for Counted {
    fn drop(self) {
        let Counted { ended: _ } = self;
    }
}

impl Notices for Counted {
    fn link_ended(&self, _end: LinkEnd) {
        self.ended.fetch_add(1, Ordering::SeqCst);
    }
}

// A door to which no link comes.
pub(super) fn no_door(alloc: Global) -> Result<MemDoor, NoMemory> {
    MemDoor::new(Vec::new(alloc), Vec::new(alloc))
}

// A link whose client sends a text, which comes in pieces.
pub(super) fn sent_line(alloc: Global, text: &str, piece: usize) -> Result<MemLine, NoMemory>
    requires { 0 < piece }
{
    let sent = Vec::from_slice(alloc, text.as_bytes())?;
    let source = MemSource::new(sent, piece, Vec::new(alloc));
    let sink = MemSink::new(Vec::with_capacity(alloc, 1024)?, 4096, Vec::new(alloc));
    Ok(MemLine::new(source, sink))
}

// A door with both links, of which a call may fail.
fn door(alloc: Global, piece: usize, fails: u64) -> Result<MemDoor, NoMemory>
    requires { 0 < piece }
{
    let mut lines = Vec::new(alloc);
    lines.push(sent_line(alloc, FIRST_SENT, piece)?)?;
    lines.push(sent_line(alloc, SECOND_SENT, piece)?)?;
    MemDoor::new(lines, vec![in alloc; fails; 1]?)
}

// Whether what was written to a link begins so, if there was one.
fn begins(sink: Option<&MemSink>, text: &str) -> bool {
    match sink {
        Some(sink) => sink.bytes().starts_with(text.as_bytes()),
        None => true,
    }
}

// Whether so many links were answered as they should be.
fn are_answered(door: &MemDoor, links: usize) -> bool {
    let sinks = door.sinks();
    sinks.len() == links
        && begins(sinks.first(), FIRST_ANSWERS)
        && begins(sinks.get(1), SECOND_ANSWER)
}

// Serves two links by one session, which settles behind each, and tells whether that ends so.
fn ends_so<R: Threads + Wait + Sync>(
    rt: &R,
    alloc: Global,
    keys: RandomState,
    (piece, fails, status, links, noticed): (usize, u64, Status, usize, u64),
) -> Result<bool, NoMemory> {
    if piece == 0 {
        return Ok(false);
    }
    let words = split_words(alloc, ONE_SESSION)?;
    let door = door(alloc, piece, fails)?;
    let notices = Counted::new();
    let keeper = SureKeeper::new(Vec::new(alloc), NO_ROWS, keys);
    let ended = top(
        rt,
        alloc,
        words.as_slice(),
        &mut SureSource::new(Vec::new(alloc), 1),
        &mut SureSink::new(Vec::new(alloc)),
        door,
        &notices,
        keeper,
        keys,
    );
    let so = ended.status == status && notices.ended.load(Ordering::SeqCst) == noticed;
    let so = so && are_answered(&ended.door, links);
    drop(ended);
    Ok(so)
}

#[test]
fn links_are_answered_in_order(rt: HostRuntime) -> Result<(), Fail> {
    let keys = RandomState::new(&rt)?;
    for row in CASES {
        let ends_so = ends_so(&rt, rt.alloc(), keys, row)?;
        assert!(rt; ends_so, "{} {}", row.0, row.1);
    }
    Ok(())
}
