// Clusters of a given size, made and counted.
use super::{Setting, plain, run};
use crate::top::Status;
use hx_object::NoMemory;
use hx_ports::FailCommit;
use std::alloc::Global;
use std::hash::RandomState;
use std::sync::Wait;
use std::test::Fail;
use std::thread::Threads;

const FIVE: &str = "namespaces 5\ndeepest 2\nsources 5\ncopies 5\npods 5\nsettle: settled\n";

const FOUR: &str = "namespaces 4\ndeepest 2\nsources 4\ncopies 4\npods 4\nsettle: settled\n";

const ONE: &str = "namespaces 1\ndeepest 0\nsources 1\ncopies 0\npods 1\nsettle: settled\n";

// Two namespaces were stored before the fault, and nothing can be written behind it.
const BROKEN: &str = "namespaces 2\ndeepest 0\nsources 0\ncopies 0\npods 0\nsettle: fault\n";

// The words, the commit and the write that fail, and how the command ends: its status, and what is printed.
const CLUSTERS: [(&str, u64, u64, Status, &str); 8] = [
    ("gen 1 5", 0, 0, Status::Done, FIVE),
    ("gen 2 4", 0, 0, Status::Done, FOUR),
    ("gen 2147483647 1", 0, 0, Status::Done, ONE),
    ("gen 1 5", 3, 0, Status::Done, BROKEN),
    ("gen 1 5", 0, 1, Status::WriteFault, ""),
    ("gen 1", 0, 0, Status::Usage, ""),
    ("gen 1 0", 0, 0, Status::Usage, ""),
    ("gen 1 5 --events", 0, 0, Status::Usage, ""),
];

// Whether a command ends so.
fn ends_so<R: Threads + Wait + Sync>(
    rt: &R,
    alloc: Global,
    keys: RandomState,
    (words, commit, write, status, text): (&str, u64, u64, Status, &str),
) -> Result<bool, NoMemory> {
    let mut setting: Setting = plain(keys);
    setting.failing_write = write;
    setting.failing_commit = FailCommit {
        call: commit,
        landed: false,
    };
    let left = run(rt, alloc, words, b"GET /x\n", &setting)?;
    Ok(left.status == status && left.answers.as_slice() == text.as_bytes())
}

#[test]
fn clusters_are_counted(rt: HostRuntime) -> Result<(), Fail> {
    let random = RandomState::new(&rt)?;
    for row in CLUSTERS {
        let ends_so = ends_so(&rt, rt.alloc(), random, row)?;
        assert!(rt; ends_so, "{} {} {}", row.0, row.1, row.2);
    }
    Ok(())
}
