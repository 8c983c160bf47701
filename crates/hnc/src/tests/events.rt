// Events through the top call: what watchers of the keeper are told, and where the feed ends.
use super::serving::{Counted, no_door};
use super::{Setting, create, fails_of, plain, ports_of, run, split_words};
use crate::top::{Status, top};
use hx_model::Event;
use hx_object::NoMemory;
use hx_ports::{FailCommit, Followed, MemKeeper};
use hx_watch::{Hub, MemWatcher, Refused, Watcher};
use std::alloc::{AllocError, Global};
use std::hash::RandomState;
use std::sync::atomic::{AtomicU64, Ordering};
use std::sync::{Arc, Wait};
use std::test::Fail;
use std::thread::Threads;

// Writes the version of each event that it receives behind those before, as a decimal digit.
#[derive(Drop)]
struct Digits {
    watcher: MemWatcher,
    digits: Arc<AtomicU64>,
}

impl Watcher for Digits {
    ghost shown = { λ d. ⟦<MemWatcher as Watcher>⟧.shown d.watcher };

    fn push(&mut self, event: &Event) -> Result<(), Refused> {
        self.watcher.push(event)?;
        let before = self.digits.load(Ordering::SeqCst).wrapping_mul(10);
        self.digits
            .store(before.wrapping_add(event.version), Ordering::SeqCst);
        Ok(())
    }
}

// Adds a watcher that refuses from an event on. Gives what it writes into.
fn join(alloc: Global, hub: &mut Hub<Digits>, refuse: u64) -> Result<Arc<AtomicU64>, NoMemory> {
    let digits = Arc::new(alloc, AtomicU64::new(0))?;
    let watcher = Digits {
        watcher: MemWatcher::new(alloc, refuse),
        digits: digits.clone()?,
    };
    match hub.add(watcher) {
        Ok(()) => Ok(digits),
        Err(_) => Err(NoMemory),
    }
}

// Creates the namespaces a, b and c.
fn three_lines(alloc: Global) -> Result<String, AllocError> {
    let mut script = String::new(alloc);
    for name in ["a", "b", "c"] {
        script.push_str(create(alloc, name)?.as_str())?;
    }
    Ok(script)
}

// How many watchers of a hub are there and gone, once it was told of a run of three lines.
fn told<R: Threads + Wait + Sync>(
    rt: &R,
    alloc: Global,
    setting: &Setting,
    hub: Hub<Digits>,
) -> Result<(usize, usize), NoMemory> {
    let (commits, calls) = fails_of(alloc, setting)?;
    let words = split_words(alloc, "run")?;
    let mut ports = ports_of(alloc, three_lines(alloc)?.as_bytes(), setting)?;
    let rows = Vec::new(alloc);
    let keeper = MemKeeper::new(rows, setting.meta, commits, calls, setting.keys);
    let door = no_door(alloc)?;
    let ended = top(
        rt,
        alloc,
        words.as_slice(),
        &mut ports.source,
        &mut ports.sink,
        door,
        &Counted::new(),
        Followed::new(keeper, hub),
        setting.keys,
    );
    let found = (ended.keeper.hub().len(), ended.keeper.hub().gone());
    drop(ended);
    Ok(found)
}

// What three watchers write of which the second refuses the second event, and how many are there and gone.
fn written<R: Threads + Wait + Sync>(
    rt: &R,
    alloc: Global,
    setting: &Setting,
) -> Result<([u64; 3], usize, usize), NoMemory> {
    let mut hub = Hub::new(alloc);
    let first = join(alloc, &mut hub, 0)?;
    let second = join(alloc, &mut hub, 2)?;
    let third = join(alloc, &mut hub, 0)?;
    let (there, gone) = told(rt, alloc, setting, hub)?;
    let digits = [
        first.load(Ordering::SeqCst),
        second.load(Ordering::SeqCst),
        third.load(Ordering::SeqCst),
    ];
    Ok((digits, there, gone))
}

// The commit that fails and whether it lands, what the watchers write, and how many are gone. A write that is lost has no event, and nothing comes behind a fault.
const TOLD: [(u64, bool, [u64; 3], usize); 7] = [
    (0, false, [123, 1, 123], 1),
    (1, false, [0, 0, 0], 0),
    (1, true, [0, 0, 0], 0),
    (2, false, [1, 1, 1], 0),
    (2, true, [1, 1, 1], 0),
    (3, false, [12, 1, 12], 1),
    (3, true, [12, 1, 12], 1),
];

#[test]
fn watchers_are_told_what_is_committed(rt: HostRuntime) -> Result<(), Fail> {
    let random = RandomState::new(&rt)?;
    for (call, landed, digits, gone) in TOLD {
        let mut setting = plain(random);
        setting.failing_commit = FailCommit { call, landed };
        let written = written(&rt, rt.alloc(), &setting)?;
        let wanted = (digits, 3usize.saturating_sub(gone), gone);
        assert!(rt; written == wanted, "commit {call}, {landed}");
    }
    Ok(())
}

// The bodies of a namespace with one label or another.
const LABELLED: [&str; 2] = [
    "PUT /api/v1/namespaces/a {\"apiVersion\":\"v1\",\"kind\":\"Namespace\",\"metadata\":{\"name\":\"a\",\"labels\":{\"n\":\"0\"}}}\n",
    "PUT /api/v1/namespaces/a {\"apiVersion\":\"v1\",\"kind\":\"Namespace\",\"metadata\":{\"name\":\"a\",\"labels\":{\"n\":\"1\"}}}\n",
];

// What is asked once 8,195 versions were written, each with one event: of these the last 8,192 are there.
const ASKED: &str =
    "GET /hnc/v1/events?since=2\nGET /hnc/v1/events?since=3\nGET /hnc/v1/events?since=8195\nGET /hnc/v1/events?since=8196\n";

// How each of these is answered: the code, and how many events.
const ANSWERED: [(&[u8], usize); 4] = [(b"410 ", 0), (b"200 ", 8192), (b"200 ", 0), (b"400 ", 0)];

// Creates a namespace, changes it again and again, and asks.
fn full_lines(alloc: Global) -> Result<String, AllocError> {
    let mut script = create(alloc, "a")?;
    for _ in 0..4097 {
        script.push_str(LABELLED[0])?;
        script.push_str(LABELLED[1])?;
    }
    script.push_str(ASKED)?;
    Ok(script)
}

// How many events a line has.
fn events_in(line: &[u8]) -> usize {
    line.split(|byte| *byte == b'"')
        .filter(|text| *text == b"MODIFIED".as_slice())
        .count()
}

// Whether the lines are answered so, behind the answers of the writes.
fn are_answered(answers: &[u8]) -> bool {
    let mut lines = answers.split(|byte| *byte == b'\n').skip(8195);
    for (code, events) in ANSWERED {
        match lines.next() {
            Some(line) if line.starts_with(code) && events_in(line) == events => {}
            _ => return false,
        }
    }
    true
}

// Whether the feed ends where it should.
fn ends_at_its_floor<R: Threads + Wait + Sync>(
    rt: &R,
    alloc: Global,
    setting: &Setting,
) -> Result<bool, NoMemory> {
    let script = full_lines(alloc)?;
    let left = run(rt, alloc, "run", script.as_bytes(), setting)?;
    Ok(left.status == Status::Done && are_answered(left.answers.as_slice()))
}

#[test]
fn the_feed_ends_at_the_floor(rt: HostRuntime) -> Result<(), Fail> {
    let mut setting = plain(RandomState::new(&rt)?);
    setting.room = 8_388_608;
    let ends = ends_at_its_floor(&rt, rt.alloc(), &setting)?;
    assert!(rt; ends);
    Ok(())
}
