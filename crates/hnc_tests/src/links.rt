// Links that are served by a cluster, over a door in memory and a keeper that can't fail.
use crate::memory::{Breaks, Ends, READ_BYTES, WHOLE, WRITE_BYTES, door_of, empty_cluster};
use hx_door::MemDoor;
use hx_serve::{ClusterService, serve};
use std::alloc::{AllocError, Global};
use std::hash::RandomState;
use std::test::Fail;

/// A door of all links, of which none breaks.
pub(crate) fn whole_door(alloc: Global) -> Result<MemDoor, AllocError> {
    door_of(alloc, LINKS.as_slice(), WHOLE)
}

/// How many links were served, and how many of them ended otherwise than closed. The door has what was written.
fn serve_all(
    alloc: Global,
    keys: RandomState,
    door: &mut MemDoor,
    most: Option<u64>,
) -> Result<(u64, u64), AllocError> {
    let cluster = empty_cluster(alloc, keys)?;
    let mut service = ClusterService::new(alloc, cluster);
    let ends = Ends::new();
    let served = serve(alloc, door, &mut service, &ends, most);
    drop(service.into_cluster().close());
    match served {
        Ok(served) => Ok((served, ends.count())),
        Err(_) => Err(AllocError),
    }
}

/// What clients send, one link after the other.
const LINKS: [&str; 3] = [
    "POST /api/v1/namespaces HTTP/1.1\r\nHost: h\r\nContent-Length: 65\r\n\r\n{\"apiVersion\":\"v1\",\"kind\":\"Namespace\",\"metadata\":{\"name\":\"acme\"}}GET /api/v1/namespaces/none HTTP/1.1\r\nConnection: close\r\n\r\nGET",
    "GET /api/v1/namespaces/acme HTTP/1.1\r\n\r\nGET / HT",
    "PATCH / HTTP/1.1\r\n\r\nGET / HTTP/1.1\r\n\r\n",
];

/// What is written to them. Behind the first link the labels of the tree were settled.
pub(crate) const REPLIES: [&str; 3] = [
    "HTTP/1.1 201 Created\r\ncontent-type: application/json\r\ncontent-length: 115\r\n\r\n{\"apiVersion\":\"v1\",\"kind\":\"Namespace\",\"metadata\":{\"name\":\"acme\",\"resourceVersion\":\"1\"},\"status\":{\"phase\":\"Active\"}}HTTP/1.1 404 Not Found\r\ncontent-type: application/json\r\ncontent-length: 141\r\nconnection: close\r\n\r\n{\"apiVersion\":\"v1\",\"code\":404,\"kind\":\"Status\",\"message\":\"namespaces \\\"none\\\" not found\",\"metadata\":{},\"reason\":\"NotFound\",\"status\":\"Failure\"}",
    "HTTP/1.1 200 OK\r\ncontent-type: application/json\r\ncontent-length: 202\r\n\r\n{\"apiVersion\":\"v1\",\"kind\":\"Namespace\",\"metadata\":{\"labels\":{\"acme.tree.hnc.x-k8s.io/depth\":\"0\",\"hnc.x-k8s.io/included-namespace\":\"true\"},\"name\":\"acme\",\"resourceVersion\":\"2\"},\"status\":{\"phase\":\"Active\"}}",
    "HTTP/1.1 405 Method Not Allowed\r\ncontent-type: application/json\r\ncontent-length: 142\r\nconnection: close\r\n\r\n{\"apiVersion\":\"v1\",\"code\":405,\"kind\":\"Status\",\"message\":\"method not served here\",\"metadata\":{},\"reason\":\"MethodNotAllowed\",\"status\":\"Failure\"}",
];

#[test]
fn links(rt: HostRuntime) -> Result<(), Fail> {
    let keys = RandomState::new(&rt)?;
    let mut door = whole_door(rt.alloc())?;
    let counts = serve_all(rt.alloc(), keys, &mut door, None)?;
    assert_eq!(rt; counts, (3, 1));
    for (sink, text) in door.sinks().iter().zip(REPLIES.as_slice()) {
        assert_eq!(rt; sink.bytes(), text.as_bytes());
    }
    Ok(())
}

/// No more links are served than are wanted.
#[test]
fn some_links(rt: HostRuntime) -> Result<(), Fail> {
    let keys = RandomState::new(&rt)?;
    let mut door = whole_door(rt.alloc())?;
    let counts = serve_all(rt.alloc(), keys, &mut door, Some(1))?;
    assert_eq!(rt; counts, (1, 0));
    assert_eq!(rt; door.sinks().len(), 1);
    Ok(())
}

/// How many bytes the two messages of the first link take.
const ASKED: (usize, usize) = (130, 59);

/// How many bytes the replies to them have.
const REPLIED: (usize, usize) = (192, 239);

/// How many bytes are written to the first link where a read of it fails: the replies to the messages that are whole in what was read before.
fn replied_before_read(read: u64) -> usize {
    let bytes = READ_BYTES.saturating_mul(calls_before(read));
    if bytes < ASKED.0 {
        0
    } else if bytes < ASKED.0 + ASKED.1 {
        REPLIED.0
    } else {
        REPLIED.0 + REPLIED.1
    }
}

/// The same where a write fails: what the writes before took.
fn replied_before_write(write: u64) -> usize {
    let calls = calls_before(write);
    let of_first = REPLIED.0.div_ceil(WRITE_BYTES);
    if calls < of_first {
        WRITE_BYTES.saturating_mul(calls)
    } else {
        let of_second = WRITE_BYTES.saturating_mul(calls - of_first);
        REPLIED.0 + of_second.min(REPLIED.1)
    }
}

fn calls_before(number: u64) -> usize {
    usize::try_from(number.saturating_sub(1)).unwrap_or(usize::MAX)
}

/// Whether so many bytes of the replies are written to a first link that breaks, and the next one finds what was made.
fn stands(
    alloc: Global,
    keys: RandomState,
    breaks: Breaks,
    replied: usize,
    is_made: bool,
) -> Result<bool, AllocError> {
    let mut door = door_of(alloc, LINKS.as_slice(), breaks)?;
    let (served, _) = serve_all(alloc, keys, &mut door, None)?;
    let sinks = door.sinks();
    let (Some(first), Some(next)) = (sinks.get(0), sinks.get(1)) else {
        return Ok(false);
    };
    let written = first.bytes();
    let found = next.bytes().starts_with(b"HTTP/1.1 200 OK\r\n");
    Ok(
        served == 3
            && written.len() == replied
            && REPLIES[0].as_bytes().starts_with(written)
            && found == is_made,
    )
}

/// Whether what was answered stands where the read, and where the write, of this number fails.
fn breaks_stand(alloc: Global, keys: RandomState, number: u64) -> Result<bool, AllocError> {
    let read = Breaks {
        read: number,
        write: 0,
    };
    let write = Breaks {
        read: 0,
        write: number,
    };
    let by_read = replied_before_read(number);
    let by_write = replied_before_write(number);
    Ok(
        stands(alloc, keys, read, by_read, by_read > 0)?
            && stands(alloc, keys, write, by_write, true)?,
    )
}

/// Each read and each write of a link fails in turn, and those behind its last one.
#[test]
fn broken_links(rt: HostRuntime) -> Result<(), Fail> {
    let keys = RandomState::new(&rt)?;
    for number in 1..=32 {
        assert!(rt; breaks_stand(rt.alloc(), keys, number)?);
    }
    Ok(())
}
