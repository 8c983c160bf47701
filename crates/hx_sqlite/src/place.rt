// Where the rows are: in a file, in one that is only read, or in memory alone.
ghost use Rattle.std.specs.Prelude.{◌≡◌, false, IfOk, IsTrue, string_bytes};
ghost use Rattle.sqlite_wal.specs.Reads.{OnlyReads};
ghost use Rattle.hx_sqlite.specs.Seats.{are_in_file, are_on_disk, names_a_file};

use crate::closing::close_files;
use crate::database::{Ask, Database};
use crate::fault::{Refusal, SqlFault};
use hx_disk::File;
use hx_overlay::Overlay;
use sqlite::{Connection, FileStore, Files, MemStore, Options};
use sqlite_disk::Disk;
use sqlite_pool::probe_blank;
use sqlite_wal::PageSize;
use std::alloc::Global;
use std::fs;
use std::hash::{BuildHasher, RandomState};

/// How many bytes a page has.
const PAGE_BYTES: usize = 4096;

/// How many pages are kept in memory, of those that were read and of those that a transaction wrote.
const PAGES: usize = 8_000;

/// How many pages the log takes before it is copied into the database file.
const LOG_PAGES: usize = 10_000;

/// What is done with a place.
#[derive(Clone, Copy)]
pub enum Access {
    Write,
    Read,
}

/// A path, and the database at it.
pub struct Place {
    pub path: String,
    pub rows: Rows,
    ghost lie: { are_in_file rows ≡ names_a_file (string_bytes path) },
}

impl Drop for Place {
    fn drop(self) {
        let Place { path: _, rows: _ } = self;
    }
}

impl Place {
    /// Closes the database. All rows are then in its file, and its log is empty, unless they are only read.
    pub fn close(self) -> Result<(), SqlFault> {
        let Place { path: _, rows } = self;
        rows.close()
    }
}

/// The rows, in one of three stores.
pub enum Rows {
    Memory(Box<Database<MemStore>>),
    File(Box<Database<FileStore<File>>>),
    /// In a file and a log that are only read.
    Overlaid(Box<Database<FileStore<Overlay<File>>>>),
}

impl Drop for Rows {
    fn drop(self) {
        match self {
            Rows::Memory(_database) => {}
            Rows::File(_database) => {}
            Rows::Overlaid(_database) => {}
        }
    }
}

// Each function over a store proves again what the store can do, so that all is asked in this one.
impl Rows {
    pub fn answer<T, A: Ask<T>>(&mut self, ask: A) -> Result<T, Refusal>
        requires { A.may ask }
        ensures answer { IfOk result A.tells }
        ensures seat { are_in_file self.new ≡ are_in_file self.old }
    {
        match self {
            Rows::Memory(database) => ask.of(database),
            Rows::File(database) => ask.of(database),
            Rows::Overlaid(database) => ask.of(database),
        }
    }

    fn close(self) -> Result<(), SqlFault> {
        match self {
            Rows::Memory(_database) => Ok(()),
            Rows::File(database) => {
                close_files(Box::into_inner(database).into_connection())?;
                Ok(())
            },
            Rows::Overlaid(_database) => Ok(()),
        }
    }
}

/// To write, opens the file at the path, or makes it. To read, opens the file that is there with its log, and changes neither. The empty path opens a database in memory.
pub fn open(rt: &HostRuntime, path: &str, access: Access) -> Result<Place, Refusal>
    ensures path { IfOk result (λ place. string_bytes place.path ≡ path.now) }
    ensures overlaid { access ≡ Access.Read → IfOk result (λ place. are_on_disk place.rows ≡ false) }
{
    let copy = String::from_str(rt.alloc(), path)?;
    let rows = open_rows(rt, path, access)?;
    Ok(Place { path: copy, rows })
}

fn open_rows(rt: &HostRuntime, path: &str, access: Access) -> Result<Rows, Refusal>
    ensures seat { IfOk result (λ rows. are_in_file rows ≡ names_a_file path.now) }
    ensures overlaid { access ≡ Access.Read → IfOk result (λ rows. are_on_disk rows ≡ false) }
{
    if path.is_empty() {
        return Ok(Rows::Memory(open_memory(rt.alloc())?));
    }
    match access {
        Access::Write => Ok(Rows::File(open_file(rt, path)?)),
        Access::Read => Ok(Rows::Overlaid(open_overlay(rt, path)?)),
    }
}

fn open_memory(alloc: Global) -> Result<Box<Database<MemStore>>, Refusal> {
    let connection = Connection::open_in_memory(alloc)?;
    Database::over(alloc, connection)
}

fn open_file(rt: &HostRuntime, path: &str) -> Result<Box<Database<FileStore<File>>>, Refusal> {
    // A torn write is supposed to leave each byte old or new, so that a commit syncs once.
    let files = hx_disk::open(rt, path)?;
    let connection = connect(rt, files)?;
    Database::over(rt.alloc(), connection)
}

fn open_overlay(
    rt: &HostRuntime,
    path: &str,
) -> Result<Box<Database<FileStore<Overlay<File>>>>, Refusal> {
    expect_file(rt, path)?;
    let files = hx_disk::open(rt, path)?;
    let mut files = overlay_files(rt.alloc(), files)?;
    expect_made(rt.alloc(), &mut files)?;
    let connection = connect(rt, files)?;
    Database::found(rt.alloc(), connection)
}

/// Refuses a file that is empty, or in which a database is half made: the engine would make one.
fn expect_made<D: Disk>(alloc: Global, files: &mut Files<D>) -> Result<(), Refusal>
    requires log { IsTrue (D.Disk.is_usable files.old.log) }
    requires db { IsTrue (D.Disk.is_usable files.old.db) }
    ensures log { OnlyReads D.Disk files.old.log files.new.log }
    ensures db { OnlyReads D.Disk files.old.db files.new.db }
{
    let size = PageSize::new(PAGE_BYTES).unwrap();
    match probe_blank(alloc, files, size, false) {
        Ok(false) => Ok(()),
        Ok(true) => Err(Refusal::Fault(SqlFault::NoTables)),
        Err(sqlite_wal::Error::OutOfMemory) => Err(Refusal::NoMemory),
        Err(sqlite_wal::Error::Full) => Err(Refusal::Fault(SqlFault::Full)),
        Err(_) => Err(Refusal::Fault(SqlFault::Io)),
    }
}

/// Keeps what is written to a file and its log in memory, and both as they are.
fn overlay_files<D: Disk + Drop>(
    alloc: Global,
    files: Files<D>,
) -> Result<Files<Overlay<D>>, Refusal>
    requires log { IsTrue (D.Disk.is_usable files.log) }
    requires db { IsTrue (D.Disk.is_usable files.db) }
    ensures log { IfOk result (λ overlaid. IsTrue (⟦<Overlay<D> as Disk>⟧.is_usable overlaid.log)) }
    ensures db { IfOk result (λ overlaid. IsTrue (⟦<Overlay<D> as Disk>⟧.is_usable overlaid.db)) }
    ensures log_seen { IfOk result (λ overlaid. ⟦<Overlay<D> as Disk>⟧.seen overlaid.log ≡ D.Disk.seen files.log) }
    ensures db_seen { IfOk result (λ overlaid. ⟦<Overlay<D> as Disk>⟧.seen overlaid.db ≡ D.Disk.seen files.db) }
{
    let Files { log, db } = files;
    Ok(Files {
        log: overlay(alloc, log)?,
        db: overlay(alloc, db)?,
    })
}

fn overlay<D: Disk + Drop>(alloc: Global, file: D) -> Result<Overlay<D>, Refusal>
    requires { IsTrue (D.Disk.is_usable file) }
    ensures usable { IfOk result (λ overlaid. IsTrue (⟦<Overlay<D> as Disk>⟧.is_usable overlaid)) }
    ensures seen { IfOk result (λ overlaid. ⟦<Overlay<D> as Disk>⟧.seen overlaid ≡ D.Disk.seen file) }
{
    match Overlay::new(alloc, file) {
        Ok(overlaid) => Ok(overlaid),
        Err(_) => Err(Refusal::Fault(SqlFault::Io)),
    }
}

/// Refuses a path at which no file is.
fn expect_file(rt: &HostRuntime, path: &str) -> Result<(), Refusal> {
    match fs::exists(rt, path) {
        Ok(true) => Ok(()),
        Ok(false) => Err(Refusal::Fault(SqlFault::NoFile)),
        Err(error) => Err(Refusal::of_kind(error.kind())),
    }
}

fn connect<D: Disk + Drop>(
    rt: &HostRuntime,
    files: Files<D>,
) -> Result<Connection<FileStore<D>>, Refusal>
    requires log { IsTrue (D.Disk.is_usable files.log) }
    requires db { IsTrue (D.Disk.is_usable files.db) }
    ensures { IfOk result (λ connection. connection.in_transaction ≡ false) }
{
    let options = options(rt)?;
    match Connection::open_files(rt.alloc(), files, options) {
        Ok(connection) => Ok(connection),
        Err((error, _files)) => Err(Refusal::from(error)),
    }
}

fn options(rt: &HostRuntime) -> Result<Options, Refusal>
    ensures pages { IfOk result (λ options. (options.cache_pages ≡ PAGES) × (options.spill_pages ≡ PAGES)) }
    ensures log { IfOk result (λ options. options.checkpoint_frames ≡ LOG_PAGES) }
{
    match RandomState::new(rt) {
        Ok(keys) => Ok(Options {
            cache_pages: PAGES,
            spill_pages: PAGES,
            checkpoint_frames: LOG_PAGES,
            seed: keys.hash_one(&0u8),
        }),
        Err(_) => Err(Refusal::Fault(SqlFault::CannotOpen)),
    }
}
