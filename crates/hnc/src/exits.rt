// What is said on standard error of how a run ended, and the number of its status.
use crate::top::{DamagedRow, Status};
use hx_door::{TcpDoor, TcpFault};
use hx_object::List;
use hx_ports::StreamFault;
use hx_sqlite::SqlFault;
use hx_words::{WordsFault, first_untaken, read_words};
use std::io;
use std::process::ExitCode;

/// How the commands are used.
const USAGE: &str = "\
usage: hnc run [--db PATH] [--excluded-namespace NAMES] [--allow-skip] [--events] <SCRIPT
       hnc serve --listen ADDRESS:PORT [--sessions NUMBER] [--workers NUMBER] [--links NUMBER]
                 [--db PATH] [--excluded-namespace NAMES] [--allow-skip] [--events]
       hnc tree [--db PATH] [--excluded-namespace NAMES]
       hnc describe NAMESPACE [--db PATH] [--excluded-namespace NAMES]
       hnc quota [--db PATH]
       hnc audit [--db PATH] [--excluded-namespace NAMES]
       hnc gen NUMBER COUNT";

/// How a run over the real ports ended, and why a port failed if it did.
#[derive(Drop)]
pub(crate) struct Outcome {
    pub(crate) status: Status,
    pub(crate) damaged: Option<DamagedRow>,
    pub(crate) database_fault: Option<SqlFault>,
    pub(crate) close_fault: Option<SqlFault>,
    pub(crate) read_fault: Option<StreamFault>,
    pub(crate) write_fault: Option<StreamFault>,
    /// Whether some events weren't printed that were to be.
    pub(crate) lacks_events: bool,
    pub(crate) door: TcpDoor,
}

/// Says on standard error how a run ended, unless it is `Done`, and where the database wasn't closed or events are lacking, and ends with the status's number.
pub(crate) fn exit_with(rt: &HostRuntime, words: &[String], outcome: &Outcome) -> ExitCode {
    say_lacks(rt, outcome.lacks_events);
    let _ = match outcome.close_fault {
        Some(fault) => eprintln!(rt;
            "hnc: the log could not be brought into the database file: {fault}: keep the two together"
        ),
        None => Ok(()),
    };
    match outcome.status {
        Status::Usage => exit_with_usage(rt, first_untaken(words)),
        Status::ReadFault => exit_with_fault(rt, Status::ReadFault, outcome.read_fault),
        Status::WriteFault => exit_with_fault(rt, Status::WriteFault, outcome.write_fault),
        Status::KeeperFault => exit_with_keeper_fault(rt, outcome.database_fault),
        Status::Damaged => exit_with_damage(rt, outcome.damaged.as_ref()),
        Status::DoorFault => exit_with_door_fault(rt, outcome.door.last_fault()),
        status => exit_with_status(rt, status),
    }
}

/// Says that not all events were printed.
fn say_lacks(rt: &HostRuntime, lacks_events: bool) {
    if lacks_events {
        let _ = eprintln!(rt;
            "hnc: events were told no more: standard error failed, or no memory was left"
        );
    }
}

/// Names a status other than `Done`.
fn exit_with_status(rt: &HostRuntime, status: Status) -> ExitCode {
    if status != Status::Done {
        let _ = eprintln!(rt; "hnc: {status:?}");
    }
    ExitCode::from(status.code())
}

/// Says why the database failed before the first line.
fn exit_with_keeper_fault(rt: &HostRuntime, fault: Option<SqlFault>) -> ExitCode {
    let status = Status::KeeperFault;
    let _ = match fault {
        Some(fault) => eprintln!(rt; "hnc: {status:?}: the database failed: {fault}"),
        None => eprintln!(rt; "hnc: {status:?}"),
    };
    ExitCode::from(status.code())
}

/// Says why the door failed.
fn exit_with_door_fault(rt: &HostRuntime, fault: Option<&TcpFault>) -> ExitCode {
    let status = Status::DoorFault;
    let _ = match fault {
        Some(fault) => eprintln!(rt; "hnc: {status:?}: {fault}"),
        None => eprintln!(rt; "hnc: {status:?}"),
    };
    ExitCode::from(status.code())
}

/// Says which stored row is damaged first, its key, and what is damaged of it.
fn exit_with_damage(rt: &HostRuntime, damaged: Option<&DamagedRow>) -> ExitCode {
    let status = Status::Damaged;
    let _ = match damaged {
        Some(DamagedRow { row, damage, key }) if *row > 0 => match text_of(key.as_ref()) {
            Some(key) => eprintln!(rt;
                "hnc: {status:?}: row {row} in the order of keys, {key:?}: {damage}"
            ),
            None => eprintln!(rt; "hnc: {status:?}: row {row} in the order of keys: {damage}"),
        },
        Some(DamagedRow { damage, .. }) => eprintln!(rt; "hnc: {status:?}: {damage}"),
        None => eprintln!(rt; "hnc: {status:?}"),
    };
    ExitCode::from(status.code())
}

/// A key as a text, where it is one.
fn text_of(key: Option<&List<u8>>) -> Option<&str> {
    str::from_utf8(key?.as_slice()).ok()
}

/// Where the words aren't had: a word that isn't UTF-8 isn't taken, and all else is want of memory.
pub(crate) fn exit_without_words(rt: &HostRuntime, kind: io::ErrorKind) -> ExitCode {
    if kind != io::ErrorKind::InvalidData {
        return exit_with_status(rt, Status::NoMemory);
    }
    let _ = eprintln!(rt; "hnc: {:?}: a word is not UTF-8", Status::Usage);
    let _ = eprintln!(rt; "{USAGE}");
    ExitCode::from(Status::Usage.code())
}

/// Where the system gives no random bytes: words that aren't taken go before, and all else is a read that failed.
pub(crate) fn exit_without_keys(
    rt: &HostRuntime,
    words: &[String],
    kind: io::ErrorKind,
) -> ExitCode {
    if matches!(read_words(rt.alloc(), words), Err(WordsFault::Usage)) {
        return exit_with_usage(rt, first_untaken(words));
    }
    let status = Status::ReadFault;
    let _ = eprintln!(rt; "hnc: {status:?}: {kind:?} at the system's random bytes");
    ExitCode::from(status.code())
}

/// Says which word isn't taken, and how the command is used.
fn exit_with_usage(rt: &HostRuntime, untaken: Option<&str>) -> ExitCode {
    let status = Status::Usage;
    let _ = match untaken {
        Some(word) => eprintln!(rt; "hnc: {status:?}: {word:?} is not taken"),
        None => eprintln!(rt; "hnc: {status:?}: a word is missing"),
    };
    let _ = eprintln!(rt; "{USAGE}");
    ExitCode::from(status.code())
}

/// Says why a read or a write failed. A write that took nothing has no other reason.
fn exit_with_fault(rt: &HostRuntime, status: Status, fault: Option<StreamFault>) -> ExitCode {
    let fault = fault.unwrap_or(StreamFault::Failed(io::ErrorKind::WriteZero));
    let _ = eprintln!(rt; "hnc: {status:?}: {fault}");
    ExitCode::from(status.code())
}
