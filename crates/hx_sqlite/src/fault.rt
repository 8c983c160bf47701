// Why a database refuses a call.
ghost use Rattle.std.specs.Prelude.{◌≡◌};
ghost use Rattle.hx_sqlite.specs.Refusals.{fault_of, refusal_of, refusal_of_kind, TellsOfOpening};
ghost use Rattle.hx_sqlite.specs.declared.fault.Refusal.TheVariants as given;

use hx_disk::OpenError;
use hx_object::NoMemory;
use sqlite::{Error, ErrorCode};
use std::alloc::AllocError;
use std::fmt;
use std::io::ErrorKind;

/// Why a keeper's call on its database failed.
#[derive(Clone, Copy, Debug)]
pub enum SqlFault {
    /// The file is no SQLite database, or its rows don't obey its schema.
    NotADatabase,
    /// Another process, or another keeper of this one, has the file open.
    Busy,
    /// The file or its log isn't a regular file with one name.
    NotAlone,
    /// The file, its log or their folder may not be read and written.
    Denied,
    /// The folder of the file isn't there.
    NoFolder,
    /// A keeper for reading was given a path at which no file is.
    NoFile,
    /// The file can't be opened, or can't be made, for another reason.
    CannotOpen,
    /// SQLite was stopped in a transaction and left a rollback journal beside the file.
    HotJournal,
    /// The disk is full.
    Full,
    /// A read, a write or a sync failed.
    Io,
    /// What was read isn't what was written.
    Corrupt,
    /// An earlier failure of the disk closed the database.
    Closed,
    /// The keeper has no place yet.
    Unattached,
    /// The tables in the database aren't those of a keeper.
    OtherTables,
    /// A keeper for reading was given a database without tables.
    NoTables,
    /// A keeper for reading was given a batch.
    OnlyRead,
    /// A stored value isn't of its column's type, or is no UTF-8.
    Unreadable,
    /// A row that a commit cuts isn't there, or the row of `meta`.
    RowMissing,
    /// A statement was refused for another reason.
    Refused(Error),
}

impl SqlFault {
    fn of(code: ErrorCode) -> SqlFault
        ensures { result ≡ fault_of code }
    {
        match code {
            ErrorCode::NotADatabase => SqlFault::NotADatabase,
            ErrorCode::DatabaseBusy => SqlFault::Busy,
            ErrorCode::CannotOpen => SqlFault::CannotOpen,
            ErrorCode::DiskFull => SqlFault::Full,
            ErrorCode::SystemIoFailure => SqlFault::Io,
            ErrorCode::DatabaseCorrupt => SqlFault::Corrupt,
            ErrorCode::Closed => SqlFault::Closed,
            other => SqlFault::Refused(Error::SqliteFailure(other)),
        }
    }
}

impl fmt::Display for SqlFault {
    fn fmt<W: fmt::Write>(&self, f: &mut fmt::Formatter<W>) -> fmt::Result {
        f.write_str(match self {
            SqlFault::NotADatabase =>
                "the file is not an SQLite database whose rows obey its schema",
            SqlFault::Busy => "the database is open in another process",
            SqlFault::NotAlone =>
                "the file or its log is not a regular file with one name: remove its other hard links, or open a copy of it",
            SqlFault::Denied =>
                "the file, its log or their folder may not be read and written by this user",
            SqlFault::NoFolder => "the folder of the file is not there",
            SqlFault::NoFile => "no file is there",
            SqlFault::CannotOpen => "the file can't be opened or made",
            SqlFault::HotJournal =>
                "SQLite left a rollback journal beside the file: open it with sqlite3 first",
            SqlFault::Full => "the disk is full",
            SqlFault::Io => "a read, a write or a sync of the file failed",
            SqlFault::Corrupt => "the database is malformed",
            SqlFault::Closed => "an earlier failure of the disk closed the database",
            SqlFault::Unattached => "no database is attached",
            SqlFault::OtherTables => "the tables of the database are not those of hnc",
            SqlFault::NoTables => "the database has no tables of hnc",
            SqlFault::OnlyRead => "the database is only read",
            SqlFault::Unreadable => "a stored value is not of its column's type, or not UTF-8",
            SqlFault::RowMissing => "a row that is to be cut, or the row of meta, is not there",
            SqlFault::Refused(error) => return write!(
                f,
                "the database refused a statement: {error}"
            ),
        })
    }
}

impl std::error::Error for SqlFault {}

/// Why a call on a database failed: for want of memory, which leaves it as it was, or by a fault.
#[derive(Clone, Copy)]
pub enum Refusal {
    NoMemory,
    Fault(SqlFault),
}

impl Refusal {
    /// What the system refuses where a file is opened or made.
    pub fn of_kind(kind: ErrorKind) -> Refusal
        ensures { result ≡ refusal_of_kind kind }
    {
        match kind {
            ErrorKind::OutOfMemory => Refusal::NoMemory,
            ErrorKind::StorageFull => Refusal::Fault(SqlFault::Full),
            ErrorKind::Unsupported => Refusal::Fault(SqlFault::NotAlone),
            ErrorKind::PermissionDenied => Refusal::Fault(SqlFault::Denied),
            ErrorKind::ReadOnlyFilesystem => Refusal::Fault(SqlFault::Denied),
            ErrorKind::NotFound => Refusal::Fault(SqlFault::NoFolder),
            ErrorKind::NotADirectory => Refusal::Fault(SqlFault::NoFolder),
            _ => Refusal::Fault(SqlFault::CannotOpen),
        }
    }
}

impl From<AllocError> for Refusal {
    ghost from_gives = { λ _ refusal. refusal ≡ given.NoMemory };

    fn from(_: AllocError) -> Refusal {
        Refusal::NoMemory
    }
}

impl From<NoMemory> for Refusal {
    ghost from_gives = { λ _ refusal. refusal ≡ given.NoMemory };

    fn from(_: NoMemory) -> Refusal {
        Refusal::NoMemory
    }
}

/// The texts of the statements are fixed, so that one that isn't understood tells of other tables.
impl From<Error> for Refusal {
    ghost from_gives = { λ error refusal. refusal ≡ refusal_of error };

    fn from(error: Error) -> Refusal {
        match error {
            Error::SqliteFailure(ErrorCode::OutOfMemory) => Refusal::NoMemory,
            Error::SqliteFailure(code) => Refusal::Fault(SqlFault::of(code)),
            Error::SqlInputError(_) => Refusal::Fault(SqlFault::OtherTables),
            other => Refusal::Fault(SqlFault::Refused(other)),
        }
    }
}

impl From<OpenError> for Refusal {
    ghost from_gives = { TellsOfOpening };

    fn from(error: OpenError) -> Refusal {
        match error {
            OpenError::OutOfMemory => Refusal::NoMemory,
            OpenError::Io(error) => Refusal::of_kind(error.kind()),
            OpenError::Busy => Refusal::Fault(SqlFault::Busy),
            OpenError::HotJournal => Refusal::Fault(SqlFault::HotJournal),
        }
    }
}
