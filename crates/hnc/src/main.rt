//! `hnc`: the control service of hierarchical namespaces, as a program over scripts of requests and links of HTTP, with reports on what they leave, and clusters made for trials.
#![tactic(auto)]

mod bounding;
mod events;
mod exits;
mod generating;
mod printing;
mod serving;
#[cfg(test)]
mod tests;
mod top;

ghost use Rattle.std.specs.Prelude.{◌≡◌, true, false, [], None, map, IfOk, IsSome, IsSomeAnd, string_bytes};
ghost use Rattle.hx_words.specs.Words.{command_of, is_reading, reading_of};

use crate::events::EventPrinter;
use crate::exits::{Outcome, exit_with, exit_without_keys, exit_without_words};
use crate::top::{Ended, Status, top};
use hx_door::TcpDoor;
use hx_link::LinkEnd;
use hx_object::NoMemory;
use hx_ports::{Followed, Keeper, Meta, StdSink, StdSource, SureKeeper};
use hx_serve::Notices;
use hx_sqlite::{SqlFault, SqlKeeper};
use hx_watch::Hub;
use hx_words::{Command, WordsFault, read_words};
use std::alloc::Global;
use std::hash::RandomState;
use std::process::ExitCode;
use std::sync::Wait;
use std::thread::Threads;
use std::{env, io};

/// What events are printed on.
type Printer = EventPrinter<StdSink<io::Stderr>>;

/// What a keeper without rows says of itself.
const NO_ROWS: Meta = Meta {
    schema: 2,
    version: 0,
    rows: 0,
};

fn main(rt: HostRuntime) -> ExitCode {
    let words = match words_of(&rt) {
        Ok(words) => words,
        Err(error) => return exit_without_words(&rt, error.kind()),
    };
    match RandomState::new(&rt) {
        Ok(keys) => exit_with(
            &rt,
            words.as_slice(),
            &run(&rt, &rt, words.as_slice(), keys),
        ),
        Err(error) => exit_without_keys(&rt, words.as_slice(), error.kind()),
    }
}

/// Says on standard error how links ended that weren't closed.
#[derive(Clone, Copy)]
struct LinkNotices {
    rt: HostRuntime,
}

impl Notices for LinkNotices {
    fn link_ended(&self, end: LinkEnd) {
        let _ = eprintln!(self.rt; "hnc: a link ended: {end:?}");
    }
}

/// How the rows of a command are had.
#[derive(Clone, Copy, PartialEq, Eq)]
enum Access {
    /// In the program's own memory.
    Memory,
    /// In a database that is read.
    Read,
    /// In a database that is read and written.
    Written,
}

/// How the rows of a command are had, and whether its events are printed.
#[derive(Clone, Copy)]
struct Way {
    access: Access,
    prints_events: bool,
}

/// Runs the command over standard input and output.
fn run<T: Threads + Wait + Sync>(
    rt: &HostRuntime,
    threads: &T,
    words: &[String],
    keys: RandomState,
) -> Outcome {
    match way_of_words(rt.alloc(), words) {
        Ok(way) => run_by(rt, threads, words, keys, way),
        Err(NoMemory) => without_memory(rt),
    }
}

/// Runs the command on its way, with what is told of its events.
fn run_by<T: Threads + Wait + Sync>(
    rt: &HostRuntime,
    threads: &T,
    words: &[String],
    keys: RandomState,
    way: Way,
) -> Outcome
    requires memory { way.access ≡ Access.Memory → IsSomeAnd (command_of (map string_bytes words.now)) (λ command. command.db ≡ []) }
    requires written { way.access ≡ Access.Written → reading_of (map string_bytes words.now) ≡ None }
{
    let Ok(hub) = hub_of(rt, way.prints_events) else {
        return without_memory(rt);
    };
    match way.access {
        Access::Memory => run_in_memory(rt, threads, words, keys, hub),
        Access::Read => run_over(rt, threads, words, keys, SqlKeeper::for_reading(rt), hub),
        Access::Written => run_over_written(rt, threads, words, keys, hub),
    }
}

/// What a command leaves for which no memory was left before it began.
fn without_memory(rt: &HostRuntime) -> Outcome {
    Outcome {
        status: Status::NoMemory,
        damaged: None,
        database_fault: None,
        close_fault: None,
        read_fault: None,
        write_fault: None,
        lacks_events: false,
        door: TcpDoor::new(rt),
    }
}

/// A hub with a printer of events on standard error, or without any watcher.
fn hub_of(rt: &HostRuntime, prints_events: bool) -> Result<Hub<Printer>, NoMemory> {
    let mut hub = Hub::new(rt.alloc());
    if !prints_events {
        return Ok(hub);
    }
    let printer = EventPrinter::new(rt.alloc(), StdSink::new(rt.stderr()));
    match hub.add(printer) {
        Ok(()) => Ok(hub),
        Err(_) => Err(NoMemory),
    }
}

/// The way of what the words ask for. Words that aren't taken open nothing.
fn way_of_words(alloc: Global, words: &[String]) -> Result<Way, NoMemory>
    ensures memory { IfOk result (λ way. way.access ≡ Access.Memory → IsSomeAnd (command_of (map string_bytes words.now)) (λ command. command.db ≡ [])) }
    ensures read { IfOk result (λ way. way.access ≡ Access.Read → IsSome (reading_of (map string_bytes words.now))) }
    ensures written { IfOk result (λ way. way.access ≡ Access.Written → reading_of (map string_bytes words.now) ≡ None) }
{
    match read_words(alloc, words) {
        Ok(command) => Ok(Way {
            access: access_of(&command),
            prints_events: command.events,
        }),
        Err(WordsFault::Usage) => Ok(Way {
            access: Access::Written,
            prints_events: false,
        }),
        Err(WordsFault::NoMemory) => Err(NoMemory),
    }
}

fn access_of(command: &Command) -> Access
    ensures memory { result ≡ Access.Memory → command.now.db ≡ [] }
    ensures read { result ≡ Access.Read → is_reading command.now.task ≡ true }
    ensures written { result ≡ Access.Written → is_reading command.now.task ≡ false }
{
    if command.db.as_str().is_empty() {
        Access::Memory
    } else if command.is_reading() {
        Access::Read
    } else {
        Access::Written
    }
}

/// Runs the command with the rows in a map of the program's own memory, which is gone with it.
fn run_in_memory<T: Threads + Wait + Sync>(
    rt: &HostRuntime,
    threads: &T,
    words: &[String],
    keys: RandomState,
    hub: Hub<Printer>,
) -> Outcome
    requires { IsSomeAnd (command_of (map string_bytes words.now)) (λ command. command.db ≡ []) }
{
    let keeper = SureKeeper::new(Vec::new(rt.alloc()), NO_ROWS, keys);
    let (keeper, outcome) = run_with(rt, threads, words, keys, keeper, hub);
    drop(keeper);
    outcome
}

/// Runs the command with the rows in a database that it may write. No command that only reads gets one.
fn run_over_written<T: Threads + Wait + Sync>(
    rt: &HostRuntime,
    threads: &T,
    words: &[String],
    keys: RandomState,
    hub: Hub<Printer>,
) -> Outcome
    requires { reading_of (map string_bytes words.now) ≡ None }
{
    run_over(rt, threads, words, keys, SqlKeeper::new(rt), hub)
}

/// Runs the command over a keeper of a database.
fn run_over<T: Threads + Wait + Sync>(
    rt: &HostRuntime,
    threads: &T,
    words: &[String],
    keys: RandomState,
    keeper: SqlKeeper,
    hub: Hub<Printer>,
) -> Outcome
    requires { (⟦<SqlKeeper as Keeper>⟧.shown keeper).place ≡ None }
{
    let (keeper, mut outcome) = run_with(rt, threads, words, keys, keeper, hub);
    outcome.database_fault = keeper.last_fault();
    outcome.close_fault = close(outcome.status, keeper);
    outcome
}

/// Runs the command over a keeper, and gives that back with how it ended, as far as the keeper doesn't tell it.
fn run_with<T: Threads + Wait + Sync, K: Keeper + Send>(
    rt: &HostRuntime,
    threads: &T,
    words: &[String],
    keys: RandomState,
    keeper: K,
    hub: Hub<Printer>,
) -> (K, Outcome)
    requires new { (K.shown keeper).place ≡ None }
    requires unwatched { (K.shown keeper).watchers ≡ [] }
{
    let mut source = StdSource::new(rt.stdin());
    let mut sink = StdSink::new(rt.stdout());
    let notices = LinkNotices { rt: *rt };
    let Ended {
        status,
        damaged,
        keeper,
        door,
    } = top(
        threads,
        rt.alloc(),
        words,
        &mut source,
        &mut sink,
        TcpDoor::new(rt),
        &notices,
        Followed::new(keeper, hub),
        keys,
    );
    let (keeper, hub) = keeper.into_parts();
    let outcome = Outcome {
        status,
        damaged,
        database_fault: None,
        close_fault: None,
        read_fault: source.last_fault(),
        write_fault: sink.last_fault(),
        lacks_events: hub.gone() > 0,
        door,
    };
    (keeper, outcome)
}

/// Closes the database behind a run that began, and says why that failed if it did. Where none began the file and its log are left as they were found: with another log beside it a damaged file may be sound.
fn close(status: Status, keeper: SqlKeeper) -> Option<SqlFault> {
    match status {
        Status::KeeperFault | Status::Damaged => None,
        _ => keeper.close().err(),
    }
}

/// The words of the command line, without the program's name.
fn words_of(rt: &(impl env::Env + AllocGlobal)) -> io::Result<Vec<String>> {
    let mut words = Vec::new(rt.alloc());
    for word in env::args(rt)?.skip(1) {
        words.push(word)?;
    }
    Ok(words)
}
