// The end of a database file: all that was committed is in it, and its log is empty.
ghost use Rattle.std.specs.Prelude.{◌≡◌, [], IfOk, IsTrue};
ghost use Rattle.sqlite_wal.specs.Reads.{AreClean};
ghost use Rattle.hx_sqlite.specs.Alone.{StandsAlone};
ghost use Rattle.hx_sqlite.specs.Refusals.{refusal_of};

use crate::fault::{Refusal, SqlFault};
use sqlite::{Connection, Error, FileStore, Files};
use sqlite_disk::Disk;

/// Copies the log into the database file, and empties it once all of it is there. Where the copying fails the log stays, and has what the file lacks.
pub fn close_files<D: Disk + Drop>(
    connection: Connection<FileStore<D>>,
) -> Result<Files<D>, SqlFault>
    ensures { IfOk result (λ files. AreClean D.Disk files.log files.db → StandsAlone connection files) }
{
    match connection.close_files() {
        Ok(files) => without_log(files),
        Err((error, store)) => {
            drop(store.close());
            Err(cause_of(error))
        }
    }
}

/// Cuts the log to nothing.
fn without_log<D: Disk + Drop>(mut files: Files<D>) -> Result<Files<D>, SqlFault>
    requires { IsTrue (D.Disk.is_usable files.log) }
    ensures log { IfOk result (λ left. D.Disk.seen left.log ≡ []) }
    ensures db { IfOk result (λ left. left.db ≡ files.db) }
    ensures clean { IfOk result (λ left. IsTrue (D.Disk.is_clean left.log) → IsTrue (D.Disk.is_clean files.log)) }
{
    match files.log.set_len(0) {
        Ok(()) => Ok(files),
        Err(_) => Err(SqlFault::Io),
    }
}

/// Closing takes no memory: want of it would be the engine's error as it stands.
fn cause_of(error: Error) -> SqlFault
    ensures { (fault : SqlFault) → refusal_of error ≡ Refusal.Fault fault → result ≡ fault }
{
    match Refusal::from(error) {
        Refusal::Fault(fault) => fault,
        Refusal::NoMemory => SqlFault::Refused(error),
    }
}
