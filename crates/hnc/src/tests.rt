// Scripts through the top call, over ports in memory that fail where a row says so.
ghost use Rattle.std.specs.Prelude.{◌<◌};

use self::serving::{Counted, no_door};
use crate::top::{Ended, Status, top};
use hx_door::MemDoor;
use hx_object::{List, NoMemory, Text};
use hx_ports::{
    FailCommit, MemKeeper, MemSink, MemSource, Meta, Row, SureKeeper, SureSink, SureSource,
};
use std::alloc::{AllocError, Global};
use std::hash::RandomState;
use std::sync::Wait;
use std::test::Fail;
use std::thread::Threads;

mod ample;
mod damage;
mod events;
mod generating;
mod reports;
mod serving;
mod sharing;
mod stopped;

// What the ports of a run do.
#[derive(Drop)]
struct Setting {
    keys: RandomState,
    meta: Meta,
    read_piece: usize,
    write_piece: usize,
    room: usize,
    failing_read: u64,
    failing_write: u64,
    failing_commit: FailCommit,
    failing_keeper: u64,
    ghost reads: { 0 < read_piece },
    ghost writes: { 0 < write_piece },
}

const NO_ROWS: Meta = Meta {
    schema: 2,
    version: 0,
    rows: 0,
};

const MOST_VERSION: u64 = 9_223_372_036_854_775_807;

// Ports that do not fail: calls are counted from 1.
fn plain(keys: RandomState) -> Setting {
    Setting {
        keys,
        meta: NO_ROWS,
        read_piece: 4096,
        write_piece: 4096,
        room: 8192,
        failing_read: 0,
        failing_write: 0,
        failing_commit: FailCommit {
            call: 0,
            landed: false,
        },
        failing_keeper: 0,
    }
}

// What a run left.
struct Left {
    status: Status,
    damaged_row: Option<u64>,
    answers: Vec<u8>,
    rows: Vec<Row>,
    version: u64,
    is_broken: bool,
}

impl Drop for Left {
    fn drop(self) {
        let Left {
            status: _,
            damaged_row: _,
            answers: _,
            rows: _,
            version: _,
            is_broken: _,
        } = self;
    }
}

// What a run reads from and writes to.
struct Ports {
    source: MemSource,
    sink: MemSink,
}

impl Drop for Ports {
    fn drop(self) {
        let Ports { source: _, sink: _ } = self;
    }
}

fn source_of(alloc: Global, script: &[u8], setting: &Setting) -> Result<MemSource, AllocError> {
    let fails = Vec::from_slice(alloc, &[setting.failing_read])?;
    let script = Vec::from_slice(alloc, script)?;
    Ok(MemSource::new(script, setting.read_piece, fails))
}

fn sink_of(alloc: Global, setting: &Setting) -> Result<MemSink, AllocError> {
    let fails = Vec::from_slice(alloc, &[setting.failing_write])?;
    let room = Vec::with_capacity(alloc, setting.room)?;
    Ok(MemSink::new(room, setting.write_piece, fails))
}

fn ports_of(alloc: Global, script: &[u8], setting: &Setting) -> Result<Ports, AllocError> {
    let source = source_of(alloc, script, setting)?;
    let sink = sink_of(alloc, setting)?;
    Ok(Ports { source, sink })
}

// The numbers of the commits and of the other calls of the keeper that fail.
fn fails_of(alloc: Global, setting: &Setting) -> Result<(Vec<FailCommit>, Vec<u64>), AllocError> {
    let commits = Vec::from_slice(alloc, &[setting.failing_commit])?;
    let calls = Vec::from_slice(alloc, &[setting.failing_keeper])?;
    Ok((commits, calls))
}

// What an end over these ports leaves.
fn left_by(
    alloc: Global,
    ended: &mut Ended<MemKeeper, MemDoor>,
    sink: &MemSink,
) -> Result<Left, NoMemory> {
    let answers = Vec::from_slice(alloc, sink.bytes())?;
    let rows = ended.keeper.rows()?;
    Ok(Left {
        status: ended.status,
        damaged_row: ended.damaged.as_ref().map(|damaged| damaged.row),
        answers,
        rows,
        version: ended.keeper.version(),
        is_broken: ended.keeper.is_broken(),
    })
}

// The run of a script over no rows. The words are joined by spaces.
fn run<R: Threads + Wait + Sync>(
    rt: &R,
    alloc: Global,
    words: &str,
    script: &[u8],
    setting: &Setting,
) -> Result<Left, NoMemory> {
    run_on(rt, alloc, Vec::new(alloc), words, script, setting)
}

// The run of a script over rows.
fn run_on<R: Threads + Wait + Sync>(
    rt: &R,
    alloc: Global,
    rows: Vec<Row>,
    words: &str,
    script: &[u8],
    setting: &Setting,
) -> Result<Left, NoMemory> {
    let (commits, calls) = fails_of(alloc, setting)?;
    let words = split_words(alloc, words)?;
    let mut ports = ports_of(alloc, script, setting)?;
    let door = no_door(alloc)?;
    let keeper = MemKeeper::new(rows, setting.meta, commits, calls, setting.keys);
    let mut ended = top(
        rt,
        alloc,
        words.as_slice(),
        &mut ports.source,
        &mut ports.sink,
        door,
        &Counted::new(),
        keeper,
        setting.keys,
    );
    let left = left_by(alloc, &mut ended, &ports.sink);
    drop(ended);
    left
}

// What is answered over ports that can't fail.
fn sure_answers<R: Threads + Wait + Sync>(
    rt: &R,
    alloc: Global,
    keys: RandomState,
    script: &[u8],
) -> Result<SureSink, NoMemory> {
    let words = split_words(alloc, "run")?;
    let mut sink = SureSink::new(Vec::with_capacity(alloc, 8192)?);
    let mut source = SureSource::new(Vec::from_slice(alloc, script)?, 4096);
    let door = no_door(alloc)?;
    let keeper = SureKeeper::new(Vec::new(alloc), NO_ROWS, keys);
    drop(top(
        rt,
        alloc,
        words.as_slice(),
        &mut source,
        &mut sink,
        door,
        &Counted::new(),
        keeper,
        keys,
    ));
    Ok(sink)
}

fn split_words(alloc: Global, words: &str) -> Result<Vec<String>, AllocError> {
    let mut list = Vec::new(alloc);
    for word in words.split(' ') {
        list.push(String::from_str(alloc, word)?)?;
    }
    Ok(list)
}

// The line that creates a namespace.
fn create(alloc: Global, name: &str) -> Result<String, AllocError> {
    format!(in alloc;
        "POST /api/v1/namespaces {{\"apiVersion\":\"v1\",\"kind\":\"Namespace\",\"metadata\":{{\"name\":\"{name}\"}}}}\n"
    )
}

// The line that asks for a namespace.
fn get(alloc: Global, name: &str) -> Result<String, AllocError> {
    format!(in alloc; "GET /api/v1/namespaces/{name}\n")
}

// The namespaces a, b and c are created, c is asked for, and d is created.
fn five_lines(alloc: Global) -> Result<Vec<u8>, AllocError> {
    let mut script = Vec::new(alloc);
    for name in ["a", "b", "c"] {
        script.extend_from_slice(create(alloc, name)?.as_str().as_bytes())?;
    }
    script.extend_from_slice(get(alloc, "c")?.as_str().as_bytes())?;
    script.extend_from_slice(create(alloc, "d")?.as_str().as_bytes())?;
    Ok(script)
}

// The codes at the beginnings of the lines, each with the rule that the line names, if any, and with spaces.
fn codes_of(alloc: Global, answers: &[u8]) -> Result<Vec<u8>, AllocError> {
    let mut codes = Vec::new(alloc);
    for line in answers.split(|byte| *byte == b'\n') {
        if let [first, second, third, ..] = line {
            codes.extend_from_slice(&[*first, *second, *third, b' '])?;
        }
        if let Some(rule) = rule_in(line) {
            codes.extend_from_slice(rule)?;
            codes.push(b' ')?;
        }
    }
    Ok(codes)
}

// The rule that an answer names.
fn rule_in(line: &[u8]) -> Option<&[u8]> {
    let mut texts = line.split(|byte| *byte == b'"');
    match texts.nth(9) {
        Some(member) if member == b"rule".as_slice() => texts.nth(1),
        _ => None,
    }
}

// The last letters of the keys.
fn last_letters(alloc: Global, rows: &[Row]) -> Result<Vec<u8>, AllocError> {
    let mut letters = Vec::new(alloc);
    for row in rows {
        if let Some(letter) = row.key.as_slice().last().copied() {
            letters.push(letter)?;
        }
    }
    Ok(letters)
}

// Whether a run ended so, with these codes.
fn ended_with(alloc: Global, left: &Left, status: Status, codes: &str) -> Result<bool, NoMemory> {
    let answered = codes_of(alloc, left.answers.as_slice())?;
    Ok(left.status == status && answered.as_slice() == codes.as_bytes())
}

// Whether a run kept this version, and rows whose keys have these last letters.
fn kept(alloc: Global, left: &Left, letters: &str, version: u64) -> Result<bool, NoMemory> {
    let kept = last_letters(alloc, left.rows.as_slice())?;
    Ok(left.version == version && kept.as_slice() == letters.as_bytes())
}

// Whether five lines in these pieces are answered as told.
fn is_answered<R: Threads + Wait + Sync>(
    rt: &R,
    alloc: Global,
    setting: &Setting,
    answers: &[u8],
) -> Result<bool, NoMemory> {
    let script = five_lines(alloc)?;
    let left = run(rt, alloc, "run", script.as_slice(), setting)?;
    Ok(left.status == Status::Done && left.answers.as_slice() == answers)
}

// What five lines are answered over ports that can't fail.
fn five_answers<R: Threads + Wait + Sync>(
    rt: &R,
    alloc: Global,
    keys: RandomState,
) -> Result<SureSink, NoMemory> {
    let script = five_lines(alloc)?;
    sure_answers(rt, alloc, keys, script.as_slice())
}

#[test]
fn pieces_change_nothing(rt: HostRuntime) -> Result<(), Fail> {
    let random = RandomState::new(&rt)?;
    let whole = five_answers(&rt, rt.alloc(), random)?;
    for (read_piece, write_piece) in [(4096, 4096), (1, 7), (2, 3), (3, 2), (7, 1)] {
        let mut setting = plain(random);
        setting.read_piece = read_piece;
        setting.write_piece = write_piece;
        let is_answered = is_answered(&rt, rt.alloc(), &setting, whole.bytes())?;
        assert!(rt; is_answered, "pieces of {read_piece}");
    }
    Ok(())
}

// The answer to a request that made a row.
fn answer_of(alloc: Global, row: &Row) -> Result<Vec<u8>, AllocError> {
    let mut answer = Vec::from_slice(alloc, b"201 ")?;
    answer.extend_from_slice(row.body.as_bytes())?;
    answer.push(b'\n')?;
    Ok(answer)
}

// Whether a run kept the row of acme alone, and answered with it.
fn is_row_of_acme(alloc: Global, left: &Left) -> Result<bool, AllocError> {
    let [row] = left.rows.as_slice() else {
        return Ok(false);
    };
    let answer = answer_of(alloc, row)?;
    Ok(
        row.key.as_slice() == b"01//acme".as_slice()
            && (row.version, left.version) == (1, 1)
            && left.answers.as_slice() == answer.as_slice(),
    )
}

fn makes_acme<R: Threads + Wait + Sync>(
    rt: &R,
    alloc: Global,
    setting: &Setting,
) -> Result<bool, NoMemory> {
    let script = create(alloc, "acme")?;
    let left = run(rt, alloc, "run", script.as_str().as_bytes(), setting)?;
    Ok(is_row_of_acme(alloc, &left)?)
}

#[test]
fn a_row_is_kept(rt: HostRuntime) -> Result<(), Fail> {
    let random = RandomState::new(&rt)?;
    assert!(rt; makes_acme(&rt, rt.alloc(), &plain(random))?);
    Ok(())
}

// Whether five lines are answered with these codes, and leave rows whose keys have these last letters.
fn keeps<R: Threads + Wait + Sync>(
    rt: &R,
    alloc: Global,
    setting: &Setting,
    codes: &str,
    letters: &str,
    version: u64,
    is_broken: bool,
) -> Result<bool, NoMemory> {
    let script = five_lines(alloc)?;
    let left = run(rt, alloc, "run", script.as_slice(), setting)?;
    let is_ended = ended_with(alloc, &left, Status::Done, codes)?;
    let is_kept = kept(alloc, &left, letters, version)?;
    Ok(is_ended && is_kept && left.is_broken == is_broken)
}

// The commit that fails and whether it lands, the codes, the last letters of the keys, and the version.
const COMMITS: [(u64, bool, &str, &str, u64); 9] = [
    (1, false, "500 500 500 404 500 ", "", 0),
    (1, true, "500 500 500 404 500 ", "a", 1),
    (2, false, "201 500 500 404 500 ", "a", 1),
    (2, true, "201 500 500 404 500 ", "ab", 2),
    (3, false, "201 201 500 404 500 ", "ab", 2),
    (3, true, "201 201 500 404 500 ", "abc", 3),
    (4, false, "201 201 201 200 500 ", "abc", 3),
    (4, true, "201 201 201 200 500 ", "abcd", 4),
    (5, false, "201 201 201 200 201 ", "abcd", 4),
];

#[test]
fn a_commit_fails(rt: HostRuntime) -> Result<(), Fail> {
    let random = RandomState::new(&rt)?;
    for (call, landed, codes, keys, version) in COMMITS {
        let mut setting = plain(random);
        setting.failing_commit = FailCommit { call, landed };
        let keeps = keeps(&rt, rt.alloc(), &setting, codes, keys, version, call < 5)?;
        assert!(rt; keeps, "commit {call}, {landed}");
    }
    Ok(())
}

// Whether five lines end so, with these codes.
fn ends<R: Threads + Wait + Sync>(
    rt: &R,
    alloc: Global,
    setting: &Setting,
    status: Status,
    codes: &str,
) -> Result<bool, NoMemory> {
    let script = five_lines(alloc)?;
    let left = run(rt, alloc, "run", script.as_slice(), setting)?;
    ended_with(alloc, &left, status, codes)
}

// The read and the write that fail, the sink's room, and what is answered.
const FAULTS: [(u64, u64, usize, Status, &str); 10] = [
    (1, 0, 8192, Status::ReadFault, ""),
    (2, 0, 8192, Status::ReadFault, "201 201 201 200 201 "),
    (0, 1, 8192, Status::WriteFault, ""),
    (0, 2, 8192, Status::WriteFault, "201 "),
    (0, 3, 8192, Status::WriteFault, "201 201 "),
    (0, 4, 8192, Status::WriteFault, "201 201 201 "),
    (0, 5, 8192, Status::WriteFault, "201 201 201 200 "),
    (0, 6, 8192, Status::Done, "201 201 201 200 201 "),
    (0, 0, 0, Status::WriteFault, ""),
    (0, 0, 3, Status::WriteFault, "201 "),
];

#[test]
fn a_read_or_a_write_fails(rt: HostRuntime) -> Result<(), Fail> {
    let random = RandomState::new(&rt)?;
    for (read, write, room, status, codes) in FAULTS {
        let mut setting = plain(random);
        setting.failing_read = read;
        setting.failing_write = write;
        setting.room = room;
        let ends = ends(&rt, rt.alloc(), &setting, status, codes)?;
        assert!(rt; ends, "read {read}, write {write}, room {room}");
    }
    Ok(())
}

// Creates the namespaces a, b and c, and makes three turns.
fn settled_lines(alloc: Global) -> Result<Vec<u8>, AllocError> {
    let mut script = Vec::new(alloc);
    for name in ["a", "b", "c"] {
        script.extend_from_slice(create(alloc, name)?.as_str().as_bytes())?;
    }
    script.extend_from_slice(b"settle 3\n")?;
    Ok(script)
}

// Whether these lines end so, with these codes and this version.
fn settles<R: Threads + Wait + Sync>(
    rt: &R,
    alloc: Global,
    setting: &Setting,
    status: Status,
    codes: &str,
    version: u64,
) -> Result<bool, NoMemory> {
    let script = settled_lines(alloc)?;
    let left = run(rt, alloc, "run", script.as_slice(), setting)?;
    let is_ended = ended_with(alloc, &left, status, codes)?;
    Ok(is_ended && left.version == version)
}

// The write that fails, the sink's room, the status, the beginnings of the lines, and the version: each of the three turns makes one write, and its lines stand before the next one is made.
const SETTLES: [(u64, usize, Status, &str, u64); 8] = [
    (
        0,
        8192,
        Status::Done,
        "201 201 201 tak fin tak fin tak fin set ",
        6,
    ),
    (3, 8192, Status::WriteFault, "201 201 ", 3),
    (4, 8192, Status::WriteFault, "201 201 201 ", 4),
    (5, 8192, Status::WriteFault, "201 201 201 tak fin ", 5),
    (
        6,
        8192,
        Status::WriteFault,
        "201 201 201 tak fin tak fin ",
        6,
    ),
    (
        7,
        8192,
        Status::WriteFault,
        "201 201 201 tak fin tak fin tak fin ",
        6,
    ),
    (
        8,
        8192,
        Status::Done,
        "201 201 201 tak fin tak fin tak fin set ",
        6,
    ),
    (0, 360, Status::WriteFault, "201 201 201 tak ", 4),
];

#[test]
fn a_write_fails_in_a_settle(rt: HostRuntime) -> Result<(), Fail> {
    let random = RandomState::new(&rt)?;
    for (write, room, status, codes, version) in SETTLES {
        let mut setting = plain(random);
        setting.failing_write = write;
        setting.room = room;
        let settles = settles(&rt, rt.alloc(), &setting, status, codes, version)?;
        assert!(rt; settles, "write {write}, room {room}");
    }
    Ok(())
}

// Words, and how a run of them over an empty script ends.
const WORDS: [(&str, Status); 34] = [
    ("run", Status::Done),
    ("run --allow-skip", Status::Done),
    ("run --events", Status::Done),
    ("run --events --events", Status::Usage),
    ("tree --events", Status::Usage),
    ("run --excluded-namespace a,b", Status::Done),
    ("run --excluded-namespace=a,b", Status::Done),
    ("run --excluded-namespace ", Status::Done),
    ("run --excluded-namespace a --allow-skip", Status::Done),
    (
        "run --allow-skip --db x --excluded-namespace a",
        Status::Done,
    ),
    ("run --db x", Status::Done),
    ("run --db=x", Status::Done),
    ("run --db ", Status::Done),
    ("run --db -", Status::Done),
    ("run --db=-x", Status::Done),
    ("run --", Status::Done),
    ("run --db -x", Status::Usage),
    ("run --db", Status::Usage),
    ("run --db x --db x", Status::Usage),
    ("run --db x y", Status::Usage),
    ("run --allow-skip --allow-skip", Status::Usage),
    ("run --allow-skip=true", Status::Usage),
    ("run --allow", Status::Usage),
    ("run --excluded-namespace a,,b", Status::Usage),
    ("run --excluded-namespace A", Status::Usage),
    ("run --excluded-namespace", Status::Usage),
    ("run x", Status::Usage),
    ("run -- x", Status::Usage),
    ("--db x run", Status::Usage),
    ("", Status::Usage),
    ("Run", Status::Usage),
    ("--help", Status::Usage),
    ("run --help", Status::Usage),
    ("run --version", Status::Usage),
];

// How a run of these words over an empty script ends.
fn status_of<R: Threads + Wait + Sync>(
    rt: &R,
    alloc: Global,
    words: &str,
    setting: &Setting,
) -> Result<Status, NoMemory> {
    let left = run(rt, alloc, words, b"", setting)?;
    Ok(left.status)
}

#[test]
fn words(rt: HostRuntime) -> Result<(), Fail> {
    let random = RandomState::new(&rt)?;
    for (words, status) in WORDS {
        let found = status_of(&rt, rt.alloc(), words, &plain(random))?;
        assert_eq!(rt; found, status, "{words}");
    }
    Ok(())
}

// ---- runs on rows that are kept

fn row(alloc: Global, key: &str, version: u64, body: &str) -> Result<Row, NoMemory> {
    Ok(Row {
        key: List::of(Vec::from_slice(alloc, key.as_bytes())?),
        version,
        body: Text::of(alloc, body)?,
    })
}

const ACME: &str =
    r#"{"apiVersion":"v1","kind":"Namespace","metadata":{"name":"acme","resourceVersion":"1"},"status":{"phase":"Active"}}"#;

// The row of the namespace acme alone.
fn acme(alloc: Global) -> Result<Vec<Row>, NoMemory> {
    let mut rows = Vec::new(alloc);
    rows.push(row(alloc, "01//acme", 1, ACME)?)?;
    Ok(rows)
}

// Whether a run that didn't begin answered nothing and left the row of acme alone.
fn is_untouched(left: &Left, version: u64) -> bool {
    let is_kept = matches!(left.rows.as_slice(), [row] if row.body.as_str() == ACME);
    is_kept && left.version == version && left.answers.is_empty()
}

// The status and the damaged row of a run on acme that creates b, where it answers nothing and leaves all as it was.
fn end_on_acme<R: Threads + Wait + Sync>(
    rt: &R,
    alloc: Global,
    setting: &Setting,
) -> Result<Option<(Status, Option<u64>)>, NoMemory> {
    let script = create(alloc, "b")?;
    let rows = acme(alloc)?;
    let left = run_on(rt, alloc, rows, "run", script.as_str().as_bytes(), setting)?;
    Ok(if is_untouched(&left, setting.meta.version) {
        Some((left.status, left.damaged_row))
    } else {
        None
    })
}

// Schema, version and rows that the keeper of one row tells; the number of its call that fails; status and damaged row.
const UNBEGUN: [(u64, u64, u64, u64, Status, Option<u64>); 11] = [
    (1, 1, 1, 0, Status::Damaged, Some(0)),
    (2, 0, 1, 0, Status::Damaged, Some(1)),
    (2, 1, 0, 0, Status::Damaged, Some(1)),
    (2, 1, 2, 0, Status::Damaged, Some(2)),
    (2, MOST_VERSION + 1, 1, 0, Status::Damaged, Some(0)),
    (1, 1, 1, 3, Status::Damaged, Some(0)),
    (2, 0, 1, 4, Status::Damaged, Some(1)),
    (2, 1, 1, 1, Status::KeeperFault, None),
    (1, 1, 1, 2, Status::KeeperFault, None),
    (2, 0, 1, 3, Status::KeeperFault, None),
    (2, 1, 1, 4, Status::KeeperFault, None),
];

#[test]
fn no_run_begins(rt: HostRuntime) -> Result<(), Fail> {
    let random = RandomState::new(&rt)?;
    for (schema, version, rows, fails, status, row) in UNBEGUN {
        let mut setting = plain(random);
        setting.meta = Meta {
            schema,
            version,
            rows,
        };
        setting.failing_keeper = fails;
        let end = end_on_acme(&rt, rt.alloc(), &setting)?;
        assert!(rt;
            end == Some((status, row)),
            "schema {schema}, version {version}, call {fails}"
        );
    }
    Ok(())
}

// Whether a run on acme that asks for it is done and gives it.
fn gives_acme<R: Threads + Wait + Sync>(
    rt: &R,
    alloc: Global,
    setting: &Setting,
) -> Result<bool, NoMemory> {
    let script = get(alloc, "acme")?;
    let rows = acme(alloc)?;
    let left = run_on(rt, alloc, rows, "run", script.as_str().as_bytes(), setting)?;
    let is_given = match left.answers.as_slice().strip_prefix(b"200 ".as_slice()) {
        Some(rest) => rest.starts_with(ACME.as_bytes()),
        None => false,
    };
    Ok(is_given && (left.status, left.damaged_row) == (Status::Done, None))
}

#[test]
fn a_run_begins(rt: HostRuntime) -> Result<(), Fail> {
    let random = RandomState::new(&rt)?;
    for (version, fails) in [(1, 0), (1, 5), (MOST_VERSION, 0)] {
        let mut setting = plain(random);
        setting.meta = Meta {
            schema: 2,
            version,
            rows: 1,
        };
        setting.failing_keeper = fails;
        let gives = gives_acme(&rt, rt.alloc(), &setting)?;
        assert!(rt; gives, "version {version}");
    }
    Ok(())
}

// ---- the greatest version

// A request that skips admission, where a limit would refuse it too.
const SKIPS: &str =
    "POST /api/v1/namespaces?admission=skip {\"apiVersion\":\"v1\",\"kind\":\"Namespace\",\"metadata\":{\"name\":\"b\"}}\n";

// Creates a, asks for it, and skips admission.
fn last_lines(alloc: Global) -> Result<String, AllocError> {
    let mut script = create(alloc, "a")?;
    script.push_str(get(alloc, "a")?.as_str())?;
    script.push_str(SKIPS)?;
    Ok(script)
}

// Whether these lines are done with these codes, and leave the greatest version.
fn reaches_most<R: Threads + Wait + Sync>(
    rt: &R,
    alloc: Global,
    setting: &Setting,
    codes: &str,
) -> Result<bool, NoMemory> {
    let script = last_lines(alloc)?;
    let left = run(rt, alloc, "run", script.as_str().as_bytes(), setting)?;
    let is_ended = ended_with(alloc, &left, Status::Done, codes)?;
    Ok(is_ended && left.version == MOST_VERSION)
}

#[test]
fn no_version_is_left(rt: HostRuntime) -> Result<(), Fail> {
    let random = RandomState::new(&rt)?;
    for (version, codes) in [
        (MOST_VERSION - 1, "201 200 403 X1 "),
        (MOST_VERSION, "507 L4 404 403 X1 "),
    ] {
        let mut setting = plain(random);
        setting.meta.version = version;
        let reaches = reaches_most(&rt, rt.alloc(), &setting, codes)?;
        assert!(rt; reaches, "version {version}");
    }
    Ok(())
}
