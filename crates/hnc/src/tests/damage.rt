// Starts on rows of which a later one is damaged.
use super::{ACME, Setting, acme, plain, row, run_on};
use crate::top::Status;
use hx_object::NoMemory;
use hx_ports::Meta;
use std::alloc::Global;
use std::hash::RandomState;
use std::sync::Wait;
use std::test::Fail;
use std::thread::Threads;

// A damaged row behind that of acme.
const DAMAGED: [(&str, u64); 3] = [("01//b", 1), ("01//acme/", 1), ("02//acme", 1)];

// Whether a run on acme and that row answers nothing, since the second row is damaged.
fn is_damaged<R: Threads + Wait + Sync>(
    rt: &R,
    alloc: Global,
    setting: &Setting,
    key: &str,
    version: u64,
) -> Result<bool, NoMemory> {
    let mut rows = acme(alloc)?;
    rows.push(row(alloc, key, version, ACME)?)?;
    let left = run_on(rt, alloc, rows, "run", b"GET /x\n", setting)?;
    Ok((left.status, left.damaged_row) == (Status::Damaged, Some(2)) && left.answers.is_empty())
}

#[test]
fn a_later_row_is_damaged(rt: HostRuntime) -> Result<(), Fail> {
    let random = RandomState::new(&rt)?;
    for (key, version) in DAMAGED {
        let mut setting = plain(random);
        setting.meta = Meta {
            schema: 2,
            version: 1,
            rows: 2,
        };
        let is_damaged = is_damaged(&rt, rt.alloc(), &setting, key, version)?;
        assert!(rt; is_damaged, "{key}");
    }
    Ok(())
}
