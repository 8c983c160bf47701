// Links that are served beside one another through the top call, and the rows that they leave.
use super::serving::{Counted, sent_line};
use super::{Left, NO_ROWS, Setting, left_by, plain, run_on, split_words};
use crate::top::{Status, top};
use hx_door::MemDoor;
use hx_object::NoMemory;
use hx_ports::{MemKeeper, MemSink, Meta, SureSource};
use std::alloc::Global;
use std::hash::RandomState;
use std::mem;
use std::sync::Wait;
use std::test::Fail;
use std::thread::Threads;

// What four clients send, each of which makes a namespace.
const SENT: [&str; 4] = [
    "POST /api/v1/namespaces HTTP/1.1\r\nContent-Length: 62\r\n\r\n{\"apiVersion\":\"v1\",\"kind\":\"Namespace\",\"metadata\":{\"name\":\"a\"}}",
    "POST /api/v1/namespaces HTTP/1.1\r\nContent-Length: 62\r\n\r\n{\"apiVersion\":\"v1\",\"kind\":\"Namespace\",\"metadata\":{\"name\":\"b\"}}",
    "POST /api/v1/namespaces HTTP/1.1\r\nContent-Length: 62\r\n\r\n{\"apiVersion\":\"v1\",\"kind\":\"Namespace\",\"metadata\":{\"name\":\"c\"}}",
    "POST /api/v1/namespaces HTTP/1.1\r\nContent-Length: 62\r\n\r\n{\"apiVersion\":\"v1\",\"kind\":\"Namespace\",\"metadata\":{\"name\":\"d\"}}",
];

// Words that serve these links: how many are wanted of the door, by how many sessions, and with how many workers beside them.
const WORDS: [&str; 4] = [
    "serve --listen 127.0.0.1:0 --links 4",
    "serve --listen 127.0.0.1:0 --sessions 4 --workers 2",
    "serve --listen 127.0.0.1:0 --sessions 2 --workers 16 --links 9",
    "serve --listen 127.0.0.1:0 --sessions 16 --workers 0",
];

// A door with all four links.
fn door(alloc: Global) -> Result<MemDoor, NoMemory> {
    let mut lines = Vec::new(alloc);
    for text in SENT {
        lines.push(sent_line(alloc, text, 7)?)?;
    }
    MemDoor::new(lines, Vec::new(alloc))
}

// Whether each link was answered that its namespace is made.
fn are_made(door: &MemDoor) -> bool {
    let made = b"HTTP/1.1 201 Created\r\n".as_slice();
    door.sinks().len() == SENT.len()
        && door
            .sinks()
            .iter()
            .all(|sink| sink.bytes().starts_with(made))
}

// What serving the links leaves, where each is answered as it should be.
fn serve_all<R: Threads + Wait + Sync>(
    rt: &R,
    alloc: Global,
    keys: RandomState,
    words: &str,
) -> Result<Option<Left>, NoMemory> {
    let words = split_words(alloc, words)?;
    let door = door(alloc)?;
    let keeper = MemKeeper::new(
        Vec::new(alloc),
        NO_ROWS,
        Vec::new(alloc),
        Vec::new(alloc),
        keys,
    );
    let mut sink = MemSink::new(Vec::new(alloc), 1, Vec::new(alloc));
    let mut ended = top(
        rt,
        alloc,
        words.as_slice(),
        &mut SureSource::new(Vec::new(alloc), 1),
        &mut sink,
        door,
        &Counted::new(),
        keeper,
        keys,
    );
    let made = are_made(&ended.door);
    let left = left_by(alloc, &mut ended, &sink);
    drop(ended);
    let left = left?;
    Ok(if made { Some(left) } else { None })
}

// What a command says of the rows that were left, and what it leaves of them.
fn run_behind<R: Threads + Wait + Sync>(
    rt: &R,
    alloc: Global,
    keys: RandomState,
    mut left: Left,
    (words, script): (&str, &str),
) -> Result<Left, NoMemory> {
    let mut setting: Setting = plain(keys);
    let rows = mem::replace(&mut left.rows, Vec::new(alloc));
    setting.meta = Meta {
        schema: 2,
        version: left.version,
        rows: rows.len() as u64,
    };
    run_on(rt, alloc, rows, words, script.as_bytes(), &setting)
}

// Whether the links are served, and the rows have their four namespaces and are settled once reconcilers have no work.
fn leaves_all<R: Threads + Wait + Sync>(
    rt: &R,
    alloc: Global,
    keys: RandomState,
    words: &str,
) -> Result<bool, NoMemory> {
    let Some(left) = serve_all(rt, alloc, keys, words)? else {
        return Ok(false);
    };
    let is_done = left.status == Status::Done && !left.is_broken;
    let settled = run_behind(rt, alloc, keys, left, ("run", "settle 99\n"))?;
    let (rows, version) = (settled.rows.len(), settled.version);
    let audited = run_behind(rt, alloc, keys, settled, ("audit", ""))?;
    let is_settled = audited.answers.as_slice() == b"settled\n".as_slice();
    Ok(is_done && is_settled && (rows, version) == (4, 8))
}

#[test]
fn links_beside_one_another(rt: HostRuntime) -> Result<(), Fail> {
    let keys = RandomState::new(&rt)?;
    for words in WORDS {
        let leaves_all = leaves_all(&rt, rt.alloc(), keys, words)?;
        assert!(rt; leaves_all, "{words}");
    }
    Ok(())
}
