// A database file and its log, opened and locked.
ghost use Rattle.std.specs.Prelude.{IsTrue, IfOk};

use crate::host::Host;
use os::RangeLock;
use sqlite_disk::{Disk, Files, Modelled, Unknown};
use std::alloc::AllocError;
use std::fs::{self, OpenOptions};
use std::hash::{BuildHasher, RandomState};
use std::io::{self, Read};
use std::os::fd::AsRawFd;
use std::os::unix::fs::{MetadataExt, OpenOptionsExt, PermissionsExt, fchown};
use std::path::PathBuf;

/// A file on the disk. A torn write is supposed to leave each byte old or new.
pub type File = Modelled<Host, Unknown>;

/// Where SQLite's pending, reserved and shared locks lie in a file.
const LOCKED_AT: u64 = 1 << 30;

const LOCKED_BYTES: u64 = 512;

/// Why files can't be opened.
#[derive(Clone, Copy, Debug)]
pub enum OpenError {
    Io(io::Error),
    OutOfMemory,
    /// Another process or handle has the database open.
    Busy,
    /// SQLite left a rollback journal, which only it can play back, or something else has its name.
    HotJournal,
}

impl From<io::Error> for OpenError {
    fn from(error: io::Error) -> OpenError {
        OpenError::Io(error)
    }
}

impl From<AllocError> for OpenError {
    fn from(_error: AllocError) -> OpenError {
        OpenError::OutOfMemory
    }
}

/// The log and the database file at a path. Those that are missing are made, the log with the mode, the group and the owner of the database file where this process may set them.
///
/// SQLite finds the database locked until the database file is dropped. Both have to be regular files with one name. The key of their digests is drawn at random.
pub fn open(rt: &HostRuntime, path: &str) -> Result<Files<File>, OpenError>
    ensures log { IfOk result (λ files. IsTrue (⟦<Modelled<Host, Unknown> as Disk>⟧.is_usable files.log)) }
    ensures db { IfOk result (λ files. IsTrue (⟦<Modelled<Host, Unknown> as Disk>⟧.is_usable files.db)) }
{
    // As in SQLite, the files lie where a link leads, and no link is followed after that.
    let real = resolve(rt, path)?;
    let (db, _) = open_locked(rt, real.as_str(), 0o644)?;
    let journal = format!(in rt.alloc(); "{}-journal", real.as_str())?;
    if has_hot_journal(rt, journal.as_str())? {
        return Err(OpenError::HotJournal);
    }
    let log_path = format!(in rt.alloc(); "{}-wal", real.as_str())?;
    let (log, is_new) = open_locked(rt, log_path.as_str(), 0o600)?;
    if is_new {
        copy_access(&db, &log)?;
    }
    let folder = open_folder(rt, real)?;
    let key = RandomState::new(rt)?.hash_one(&0u8);
    let log = Host::settle(log, &folder, key)?;
    let db = Host::settle(db, &folder, key)?;
    Ok(Files {
        log: Modelled::new(log, true, key),
        db: Modelled::new(db, false, key),
    })
}

/// The path with no link in it. The file is made if it is missing.
fn resolve(rt: &HostRuntime, path: &str) -> io::Result<PathBuf> {
    match fs::canonicalize(rt, path) {
        Err(error) if error.kind() == io::ErrorKind::NotFound => {
            open_or_make(rt, path, 0o644)?;
            fs::canonicalize(rt, path)
        }
        found => found,
    }
}

/// The file, and whether this call made it. A link or a device that stands at the name is not opened.
fn open_or_make(rt: &HostRuntime, path: &str, mode: u32) -> io::Result<(fs::File, bool)> {
    match OpenOptions::new()
        .read(true)
        .write(true)
        .create_new(true)
        .mode(mode)
        .open(rt, path)
    {
        Ok(file) => Ok((file, true)),
        Err(error) if error.kind() == io::ErrorKind::AlreadyExists => {
            if !fs::symlink_metadata(rt, path)?.is_file() {
                return Err(io::ErrorKind::Unsupported.into());
            }
            Ok((
                OpenOptions::new().read(true).write(true).open(rt, path)?,
                false,
            ))
        }
        Err(error) => Err(error),
    }
}

/// Opens a regular file with one name that is no link, or makes it with this mode, and says which.
fn open_locked(rt: &HostRuntime, path: &str, mode: u32) -> Result<(fs::File, bool), OpenError> {
    let (mut file, is_new) = open_or_make(rt, path, mode)?;
    // What is meant for a standard stream that was closed must not land in the database.
    if file.as_raw_fd() <= 2 {
        file = file.try_clone()?;
    }
    let (found, named) = (file.metadata()?, fs::symlink_metadata(rt, path)?);
    let is_named = found.dev() == named.dev() && found.ino() == named.ino();
    if !is_named || !found.is_file() || found.nlink() != 1 {
        return Err(OpenError::Io(io::ErrorKind::Unsupported.into()));
    }
    lock(&file)?;
    Ok((file, is_new))
}

/// Takes SQLite's pending, reserved and shared locks at once, until the file is closed.
fn lock(file: &fs::File) -> Result<(), OpenError> {
    if os::try_lock_range(
        file.as_raw_fd(),
        RangeLock::Exclusive,
        LOCKED_AT,
        LOCKED_BYTES,
    ) == 0
    {
        return Ok(());
    }
    let error = io::Error::from_raw_os_error(os::errno());
    if error.kind() == io::ErrorKind::WouldBlock {
        Err(OpenError::Busy)
    } else {
        Err(OpenError::Io(error))
    }
}

/// Gives the log the mode of the database file, and its group and owner where this process may.
fn copy_access(db: &fs::File, log: &fs::File) -> io::Result<()> {
    let found = db.metadata()?;
    // Only root sets the owner, and a member of the group may still set that.
    unless_denied(fchown(log, None, Some(found.gid())))?;
    unless_denied(fchown(log, Some(found.uid()), None))?;
    log.set_permissions(fs::Permissions::from_mode(found.mode() & 0o777))
}

fn unless_denied(outcome: io::Result<()>) -> io::Result<()> {
    match outcome {
        Err(error) if error.kind() == io::ErrorKind::PermissionDenied => Ok(()),
        other => other,
    }
}

fn open_folder(rt: &HostRuntime, mut path: PathBuf) -> io::Result<fs::File> {
    path.pop();
    fs::File::open(rt, path.as_str())
}

/// A journal that is missing, is empty or begins with a zero has nothing to play back. Anything there but a regular file is refused too.
fn has_hot_journal(rt: &HostRuntime, path: &str) -> io::Result<bool> {
    match fs::symlink_metadata(rt, path) {
        Ok(found) if found.is_file() => {}
        Ok(_) => return Ok(true),
        Err(error) if error.kind() == io::ErrorKind::NotFound => return Ok(false),
        Err(error) => return Err(error),
    }
    let mut journal = fs::open(rt, path)?;
    let mut first = [0];
    Ok(journal.read(&mut first)? == 1 && first[0] != 0)
}
