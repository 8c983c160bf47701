// An open file: each method makes one call of the system, and then notes it with its answer.
ghost use Rattle.std.specs.Prelude.{◌≡◌, ◌<◌, ◌≤◌, ◌^◌, true, false, [], ◌∷◌, length, IfOk};
ghost use Rattle.sqlite_disk.specs.Events.{settled};
ghost use Rattle.sqlite_disk.specs.Refusal.{as_number, is_no_room as finds_no_room};
ghost use Rattle.hx_disk.specs.Calls.{recorded};
ghost use Rattle.hx_disk.specs.declared.record.Call.TheVariants.{Tested};

use crate::record::{Call, Note, Record};
use sqlite_disk::{Calls, is_no_room};
use std::os::fd::AsRawFd;
use std::os::unix::fs::FileExt;
use std::{fs, io};

/// The system takes no offset above it.
const MAX_OFFSET: usize = (1 << 63) - 1;

/// An open file of the operating system, with the record of its calls.
pub struct Host {
    file: fs::File,
    calls: Record,
}

impl Drop for Host {
    fn drop(self) {
        let Host { file: _, calls: _ } = self;
    }
}

impl Host {
    /// Syncs the file and its folder, and drops the kernel's copies of its pages, which a failed sync of an earlier process may have left other than the disk has them.
    pub(crate) fn settle(file: fs::File, folder: &fs::File, key: u64) -> io::Result<Host>
        ensures { IfOk result (λ host. recorded host.calls ≡ settled key ∷ []) }
    {
        file.sync_all()?;
        let advised = libc::posix_fadvise(file.as_raw_fd(), 0, 0, libc::POSIX_FADV_DONTNEED);
        if advised != 0 {
            return Err(io::Error::from_raw_os_error(advised));
        }
        folder.sync_all()?;
        Ok(Host {
            file,
            calls: record_settled(key),
        })
    }
}

/// The record of a file that was settled and got this key.
fn record_settled(key: u64) -> Record
    ensures { recorded result ≡ settled key ∷ [] }
{
    let mut calls = Record::new();
    calls.note(plain(Call::Settled, key as usize, 0, true), &[]);
    calls
}

/// A note without a digest.
fn plain(call: Call, at: usize, count: usize, is_ok: bool) -> Note
    ensures { result ≡ record { call = call; at = at; count = count; is_ok = is_ok; key = 0; want = 0 } }
{
    Note {
        call,
        at,
        count,
        is_ok,
        key: 0,
        want: 0,
    }
}

/// A note of a tested read.
fn tested(at: usize, count: usize, is_ok: bool, key: u64, want: u64) -> Note
    ensures { result ≡ record { call = Tested; at = at; count = count; is_ok = is_ok; key = key; want = want } }
{
    Note {
        call: Call::Tested,
        at,
        count,
        is_ok,
        key,
        want,
    }
}

/// A note of a call that writes and failed.
fn failed(call: Call, at: usize, error: &io::Error) -> Note
    ensures { result ≡ record { call = call; at = at; count = as_number (finds_no_room error.now); is_ok = false; key = 0; want = 0 } }
{
    let count = if is_no_room(error) { 1 } else { 0 };
    plain(call, at, count, false)
}

fn measure(file: &fs::File) -> io::Result<usize> {
    Ok(file.metadata()?.len() as usize)
}

fn read(file: &fs::File, at: usize, buf: &mut [u8]) -> io::Result<usize>
    ensures { IfOk result (λ n. (0 < n) × (n ≤ length buf.old) × (at < 2 ^ 63)) }
{
    if at > MAX_OFFSET {
        return Err(io::ErrorKind::InvalidInput.into());
    }
    let got = file.read_at(buf, at as u64)?;
    if got == 0 {
        Err(io::ErrorKind::UnexpectedEof.into())
    } else {
        Ok(got)
    }
}

fn write(file: &fs::File, at: usize, bytes: &[u8]) -> io::Result<usize>
    ensures { IfOk result (λ n. (0 < n) × (n ≤ length bytes.now) × (at < 2 ^ 63)) }
{
    if at > MAX_OFFSET {
        return Err(io::ErrorKind::InvalidInput.into());
    }
    let put = file.write_at(bytes, at as u64)?;
    if put == 0 {
        Err(io::ErrorKind::WriteZero.into())
    } else {
        Ok(put)
    }
}

impl Calls for Host {
    ghost history = { λ host. recorded host.calls };

    fn len(&mut self) -> io::Result<usize> {
        let answer = measure(&self.file);
        match answer {
            Ok(n) => self.calls.note(plain(Call::Measured, n, 0, true), &[]),
            Err(_) => self.calls.note(plain(Call::Measured, 0, 0, false), &[]),
        }
        answer
    }

    fn read_some(&mut self, at: usize, buf: &mut [u8]) -> io::Result<usize> {
        let asked = buf.len();
        let answer = read(&self.file, at, buf);
        match answer {
            Ok(n) => self
                .calls
                .note(plain(Call::Read, at, asked, true), &buf[..n]),
            Err(_) => self.calls.note(plain(Call::Read, at, asked, false), &[]),
        }
        answer
    }

    fn read_under(&mut self, key: u64, want: u64, at: usize, buf: &mut [u8]) -> io::Result<usize> {
        let asked = buf.len();
        let answer = read(&self.file, at, buf);
        match answer {
            Ok(n) => self
                .calls
                .note(tested(at, asked, true, key, want), &buf[..n]),
            Err(_) => self.calls.note(tested(at, asked, false, key, want), &[]),
        }
        answer
    }

    fn write_some(&mut self, at: usize, bytes: &[u8]) -> io::Result<usize> {
        let answer = write(&self.file, at, bytes);
        match answer {
            Ok(n) => self.calls.note(plain(Call::Written, at, n, true), bytes),
            Err(error) => self.calls.note(failed(Call::Written, at, &error), bytes),
        }
        answer
    }

    fn resize(&mut self, len: usize) -> io::Result<()> {
        let answer = self.file.set_len(len as u64);
        match answer {
            Ok(()) => self.calls.note(plain(Call::Cut, len, 0, true), &[]),
            Err(error) => self.calls.note(failed(Call::Cut, len, &error), &[]),
        }
        answer
    }

    fn sync(&mut self) -> io::Result<()> {
        let answer = self.file.sync_data();
        match answer {
            Ok(()) => self.calls.note(plain(Call::Synced, 0, 0, true), &[]),
            Err(error) => self.calls.note(failed(Call::Synced, 0, &error), &[]),
        }
        answer
    }
}
