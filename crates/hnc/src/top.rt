// The top call.
ghost use Rattle.std.specs.Prelude.{ℕ, ◌≡◌, ◌≢◌, ◌<◌, ◌⊎◌, true, false, None, Some, IfSome, IsSomeAnd, map, length, string_bytes};
ghost use Rattle.std.specs.Io.KnownBytes.{IsAtEnd};
ghost use Rattle.hx_ports.specs.Causes.{Rose};
ghost use Rattle.hx_ports.specs.Pieces.{IsCalm, most_stream_bytes};
ghost use Rattle.hx_core.specs.Starting.{IsUndamaged, Tells};
ghost use Rattle.hnc.specs.Headline.{LeavesFront, LeavesMadeInPart, LeavesRead, OfMaking, OfRun, IsCarriedOut, IsCutShort, IsLeftByDoor, IsUnbegun, is_complete, is_cut_short, has_not_begun, code_of_status};
ghost use Rattle.hnc.specs.Reports.{PrintsWhole};
ghost use Rattle.hx_words.specs.Words.{command_of, making_of, reading_of, run_of, serving_of};

use crate::generating::generate;
use crate::printing::print;
use crate::serving::serve_at;
use hx_core::{Cluster, Damage, StartFault, Unstarted};
use hx_door::Door;
use hx_object::List;
use hx_ports::{KeepFault, Keeper, Sink, Source};
use hx_script::{RunEnd, run_script};
use hx_serve::Notices;
use hx_words::{Command, Task, WordsFault, read_words};
use std::alloc::Global;
use std::hash::RandomState;
use std::sync::Wait;
use std::thread::Threads;

/// How a command ended. The discriminant is the exit status of the program.
#[derive(Clone, Copy, Debug, PartialEq, Eq)]
pub enum Status {
    /// The command was carried out: the script was read to its end, and each line answered; the links were served; the report was printed; or the cluster was made and settled, and its counts printed.
    Done = 0,
    /// The words aren't taken.
    Usage = 1,
    ReadFault = 2,
    /// A write failed, or took nothing of a piece that wasn't empty.
    WriteFault = 3,
    /// The keeper failed before any line was read.
    KeeperFault = 4,
    /// What the keeper holds can't be started from.
    Damaged = 5,
    NoMemory = 6,
    /// The door failed: it couldn't listen, or no link could be had.
    DoorFault = 7,
    /// Some key wants a write: of `audit` alone.
    Unsettled = 8,
    /// The script has more than 2^40 bytes.
    TooLong = 9,
    /// The namespace that is to be described isn't there.
    NotFound = 10,
}

impl Status {
    /// The number that the program ends with.
    pub fn code(self) -> u8
        ensures { result ≡ code_of_status self }
    {
        self as u8
    }
}

/// The end of a command: its status, and the keeper and the door that were handed in.
#[derive(Drop)]
pub struct Ended<K, D> {
    pub status: Status,
    /// Where the status is `Damaged`, the first damaged row.
    pub damaged: Option<DamagedRow>,
    pub keeper: K,
    pub door: D,
}

/// A damaged row of a keeper.
#[derive(Drop)]
pub struct DamagedRow {
    /// Its number in the order of keys, counted from 1, or 0 for what the keeper says of itself.
    pub row: u64,
    pub damage: Damage,
    /// Its key, where it is there.
    pub key: Option<List<u8>>,
}

/// Does all that the program does, over a keeper of the stored rows, which takes its place at the path that the words give, or in memory: reads the script of `run` and answers its lines, answers the messages of the links that the door of `serve` gives, prints a report on the rows, or makes the cluster of `gen`, settles it and prints its counts.
///
/// Links are answered by several sessions, with workers beside them, each in a thread of its own. `notices` is told of links that end otherwise than closed.
///
/// The watchers of the keeper are told of what happens, and handed back with it: each that tells its events got exactly those of the history, in order, each once; one that was set aside got a prefix of them. Whether words ask for events is nothing to this call: who makes the keeper gives it its watchers.
///
/// The keys hash what is held in memory, so that names can't be chosen to collide. Nothing that is answered or stored depends on them.
pub fn top<
    T: Threads + Wait + Sync,
    S: Source,
    W: Sink,
    K: Keeper + Send,
    D: Door + Send,
    N: Notices + Sync,
>(
    threads: &T,
    alloc: Global,
    words: &[String],
    source: &mut S,
    sink: &mut W,
    door: D,
    notices: &N,
    mut keeper: K,
    keys: RandomState,
) -> Ended<K, D>
where
    D::Input: Send,
    D::Output: Send,
    requires { (K.shown keeper).place ≡ None }

    // Answers, stored objects and the events that watchers were told of are a run of the machine. A report is one on the rows, which stay.
    ensures done { result.status ≡ Status.Done → IsCarriedOut (run_of (map string_bytes words.now)) (reading_of (map string_bytes words.now)) (serving_of (map string_bytes words.now)) (making_of (map string_bytes words.now)) Status.Done (S.shown source.old) (W.shown sink.old) (W.shown sink.new) (K.shown keeper) (K.shown result.keeper) (D.shown door) (D.shown result.door) }
    ensures cut { is_cut_short result.status ≡ true → IsCutShort (run_of (map string_bytes words.now)) (reading_of (map string_bytes words.now)) (making_of (map string_bytes words.now)) (S.shown source.old) (W.shown sink.old) (W.shown sink.new) (K.shown keeper) (K.shown result.keeper) }
    ensures unbegun { has_not_begun result.status ≡ true → IsUnbegun (command_of (map string_bytes words.now)) source.old source.new sink.old sink.new (K.shown keeper) (K.shown result.keeper) }
    ensures memory { result.status ≡ Status.NoMemory → IsUnbegun (command_of (map string_bytes words.now)) source.old source.new sink.old sink.new (K.shown keeper) (K.shown result.keeper) ⊎ OfRun (run_of (map string_bytes words.now)) (S.shown source.old) (λ command script. LeavesFront command script (W.shown sink.old) (W.shown sink.new) (K.shown keeper) (K.shown result.keeper)) ⊎ OfMaking (making_of (map string_bytes words.now)) (λ command asks. LeavesMadeInPart command asks (W.shown sink.old) (W.shown sink.new) (K.shown keeper) (K.shown result.keeper)) }
    ensures unread { result.status ≡ Status.ReadFault → IsSomeAnd (run_of (map string_bytes words.now)) (λ command. LeavesRead command (S.shown source.old) (S.shown source.new) (W.shown sink.old) (W.shown sink.new) (K.shown keeper) (K.shown result.keeper)) }
    ensures left { result.status ≡ Status.DoorFault → IsLeftByDoor (command_of (map string_bytes words.now)) (serving_of (map string_bytes words.now)) source.old source.new sink.old sink.new (K.shown keeper) (K.shown result.keeper) (D.shown door) (D.shown result.door) }
    ensures unsettled { result.status ≡ Status.Unsettled → IsSomeAnd (reading_of (map string_bytes words.now)) (λ command. PrintsWhole command Status.Unsettled (W.shown sink.old) (W.shown sink.new) (K.shown keeper) (K.shown result.keeper)) }
    ensures not_found { result.status ≡ Status.NotFound → IsSomeAnd (reading_of (map string_bytes words.now)) (λ command. PrintsWhole command Status.NotFound (W.shown sink.old) (W.shown sink.new) (K.shown keeper) (K.shown result.keeper)) }

    // Each status has its cause; want of memory alone is free.
    ensures usage { result.status ≡ Status.Usage → command_of (map string_bytes words.now) ≡ None }
    ensures untaken { command_of (map string_bytes words.now) ≡ None → (result.status ≡ Status.Usage) ⊎ (result.status ≡ Status.NoMemory) }
    ensures read_fault { result.status ≡ Status.ReadFault → Rose (S.shown source.old).faults (S.shown source.new).faults }
    ensures write_fault { result.status ≡ Status.WriteFault → Rose (W.shown sink.old).faults (W.shown sink.new).faults ⊎ Rose (W.shown sink.old).stalls (W.shown sink.new).stalls }
    ensures keeper_fault { result.status ≡ Status.KeeperFault → Rose (K.shown keeper).faults (K.shown result.keeper).faults }
    ensures door_fault { result.status ≡ Status.DoorFault → Rose (D.shown door).faults (D.shown result.door).faults }
    ensures damaged { result.status ≡ Status.Damaged → IsSomeAnd result.damaged (λ damaged. IfSome (K.shown keeper).kept (λ held. Tells held damaged.row damaged.damage damaged.key)) }
    ensures whole { result.status ≢ Status.Damaged → result.damaged ≡ None }
    ensures too_long { result.status ≡ Status.TooLong → OfRun (run_of (map string_bytes words.now)) (S.shown source.old) (λ command script. (most_stream_bytes < length script) × LeavesFront command script (W.shown sink.old) (W.shown sink.new) (K.shown keeper) (K.shown result.keeper)) }
    ensures unasked { result.status ≡ Status.Usage → result.keeper ≡ keeper }
    ensures read_calm { result.status ≢ Status.ReadFault → (S.shown source.new).faults ≡ (S.shown source.old).faults }
    ensures write_calm { result.status ≢ Status.WriteFault → IsCalm (W.shown sink.old) (W.shown sink.new) }
    ensures door_calm { result.status ≢ Status.DoorFault → (D.shown result.door).faults ≡ (D.shown door).faults }
    ensures end { result.status ≡ Status.Done → run_of (map string_bytes words.now) ≢ None → IsAtEnd (S.shown source.new).left }
    ensures unscripted { run_of (map string_bytes words.now) ≡ None → source.new ≡ source.old }
    ensures unprinted { serving_of (map string_bytes words.now) ≢ None → sink.new ≡ sink.old }
    ensures unserved { serving_of (map string_bytes words.now) ≡ None → result.door ≡ door }
    ensures complete { command_of (map string_bytes words.now) ≢ None
        → (Rose (S.shown source.old).faults (S.shown source.new).faults → ⊥)
        → (Rose (W.shown sink.old).faults (W.shown sink.new).faults ⊎ Rose (W.shown sink.old).stalls (W.shown sink.new).stalls → ⊥)
        → (Rose (K.shown keeper).faults (K.shown result.keeper).faults → ⊥)
        → (Rose (D.shown door).faults (D.shown result.door).faults → ⊥)
        → IsSomeAnd (K.shown keeper).kept IsUndamaged
        → is_complete result.status ≡ true }
{
    let Command {
        task,
        db,
        config,
        events: _,
    } = match read_words(alloc, words) {
        Ok(command) => command,
        Err(fault) => return end_with(status_of_words(fault), keeper, door),
    };
    if let Err(fault) = keeper.attach(db.as_str()) {
        return end_with(status_of_keeper(fault), keeper, door);
    }
    match Cluster::start(alloc, keeper, config, keys) {
        Err(
            Unstarted {
                fault,
                damaged_key,
                keeper,
            },
        ) => Ended {
            status: status_of_start(fault),
            damaged: damaged_row_of(fault, damaged_key),
            keeper,
            door,
        },
        Ok(mut cluster) => match &task {
            Task::Run => {
                let end = run_script(alloc, source, sink, &mut cluster);
                end_with(status_of_end(end), cluster.close(), door)
            }
            Task::Serve(serving) => serve_at(threads, alloc, door, notices, cluster, serving),
            Task::Print(report) => {
                let status = print(alloc, &cluster, report, sink);
                end_with(status, cluster.close(), door)
            }
            Task::Generate(workload) => {
                let status = generate(alloc, &mut cluster, *workload, sink);
                end_with(status, cluster.close(), door)
            }
        },
    }
}

/// The end of a command that found no damaged row.
pub(crate) fn end_with<K, D>(status: Status, keeper: K, door: D) -> Ended<K, D>
    ensures { (result.status ≡ status) × (result.keeper ≡ keeper) × (result.damaged ≡ None) × (result.door ≡ door) }
{
    Ended {
        status,
        damaged: None,
        keeper,
        door,
    }
}

/// The status of words that aren't read.
fn status_of_words(fault: WordsFault) -> Status
    ensures usage { result ≡ Status.Usage → fault ≡ WordsFault.Usage }
    ensures memory { (result ≡ Status.Usage) ⊎ (result ≡ Status.NoMemory) }
{
    match fault {
        WordsFault::Usage => Status::Usage,
        WordsFault::NoMemory => Status::NoMemory,
    }
}

/// The status of a keeper that refused its place.
fn status_of_keeper(fault: KeepFault) -> Status
    ensures unbegun { (result ≡ Status.KeeperFault) ⊎ (result ≡ Status.NoMemory) }
    ensures keeper_fault { result ≡ Status.KeeperFault → fault ≡ KeepFault.Fault }
    ensures memory { result ≡ Status.NoMemory → fault ≡ KeepFault.NoMemory }
{
    match fault {
        KeepFault::Fault => Status::KeeperFault,
        KeepFault::NoMemory => Status::NoMemory,
    }
}

/// The status of a keeper that no cluster was started on.
fn status_of_start(fault: StartFault) -> Status
    ensures unbegun { (result ≡ Status.KeeperFault) ⊎ (result ≡ Status.Damaged) ⊎ (result ≡ Status.NoMemory) }
    ensures keeper_fault { result ≡ Status.KeeperFault → fault ≡ StartFault.KeeperFault }
    ensures damaged { result ≡ Status.Damaged → (row : ℕ) × ((damage : Damage) × (fault ≡ StartFault.Damaged row damage)) }
    ensures memory { result ≡ Status.NoMemory → fault ≡ StartFault.NoMemory }
    ensures told { (row : ℕ) (damage : Damage) → fault ≡ StartFault.Damaged row damage → result ≡ Status.Damaged }
{
    match fault {
        StartFault::KeeperFault => Status::KeeperFault,
        StartFault::Damaged { .. } => Status::Damaged,
        StartFault::NoMemory => Status::NoMemory,
    }
}

/// The row that a start found damaged.
fn damaged_row_of(fault: StartFault, key: Option<List<u8>>) -> Option<DamagedRow>
    ensures damaged { (row : ℕ) (damage : Damage) → fault ≡ StartFault.Damaged row damage → result ≡ Some (record { row = row; damage = damage; key = key }) }
    ensures whole { ((row : ℕ) (damage : Damage) → fault ≡ StartFault.Damaged row damage → ⊥) → result ≡ None }
{
    match fault {
        StartFault::Damaged { row, damage } => Some(DamagedRow { row, damage, key }),
        _ => None,
    }
}

/// The status of a run that began.
fn status_of_end(end: RunEnd) -> Status
    ensures begun { has_not_begun result ≡ false }
    ensures done { result ≡ Status.Done → end ≡ RunEnd.Done }
    ensures cut { is_cut_short result ≡ true → end ≢ RunEnd.Done }
    ensures read_fault { result ≡ Status.ReadFault → end ≡ RunEnd.ReadFault }
    ensures write_fault { result ≡ Status.WriteFault → end ≡ RunEnd.WriteFault }
    ensures reads { end ≡ RunEnd.ReadFault → result ≡ Status.ReadFault }
    ensures writes { end ≡ RunEnd.WriteFault → result ≡ Status.WriteFault }
    ensures too_long { result ≡ Status.TooLong → end ≡ RunEnd.TooLong }
    ensures memory { result ≡ Status.NoMemory → end ≡ RunEnd.NoMemory }
    ensures scripted { (result ≢ Status.Unsettled) × (result ≢ Status.NotFound) × (result ≢ Status.DoorFault) }
{
    match end {
        RunEnd::Done => Status::Done,
        RunEnd::ReadFault => Status::ReadFault,
        RunEnd::WriteFault => Status::WriteFault,
        RunEnd::TooLong => Status::TooLong,
        RunEnd::NoMemory => Status::NoMemory,
    }
}
