// A file that is only read. What is written to it lies in memory.
ghost use Rattle.std.specs.Prelude.{◌≡◌, ◌+◌, ◌<◌, false, refl, length, is_ok, IfOk, IsTrue};
ghost use Rattle.sqlite_disk.specs.Disk.{CountsFault};
ghost use Rattle.sqlite_disk.specs.Refusal.{finds_no_room};
ghost use Rattle.sqlite_wal.specs.Reads.{IsClean};

use crate::change::Change;
use crate::changing::{is_kept_below, len_behind, note_cut, note_written, read_changed};
use sqlite_disk::{Disk, Tally};
use std::alloc::{AllocError, Global};
use std::io;

/// A file, and what was written to it since it was opened. The file itself is only read: what is written lies in memory, and is gone with it.
///
/// Each read that comes to where something was written goes over all that was: it is for a few bytes.
pub struct Overlay<D: Disk> {
    file: D,
    /// How many bytes the file has.
    len: usize,
    changes: Vec<Change>,
    /// How many calls failed without the file.
    faults: u64,
    ghost measured: { IsTrue (D.Disk.is_clean file) → len ≡ length (D.Disk.seen file) },
}

impl<D: Disk + Drop> Drop for Overlay<D> {
    fn drop(self) {
        let Overlay {
            file: _,
            len: _,
            changes: _,
            faults: _,
        } = self;
    }
}

impl<D: Disk + Drop> Overlay<D> {
    /// Measures the file, whose bytes stay as they are.
    pub fn new(alloc: Global, file: D) -> io::Result<Self>
        requires { IsTrue (D.Disk.is_usable file) }
        ensures usable { IfOk result (λ o. IsTrue (⟦<Overlay<D> as Disk>⟧.is_usable o)) }
        ensures seen { IfOk result (λ o. ⟦<Overlay<D> as Disk>⟧.seen o ≡ D.Disk.seen file) }
    {
        let mut file = file;
        let len = file.len()?;
        Ok(Overlay {
            file,
            len,
            changes: Vec::new(alloc),
            faults: 0,
        })
    }
}

impl<D: Disk> Overlay<D> {
    ghost use Rattle.hx_overlay.specs.Changes.{IsKeptBelow, changed_by};

    /// Whether a range lies in the file, and nothing was written there or before it.
    fn is_unchanged(&self, at: usize, len: usize) -> bool
        ensures { IsTrue result → IsClean D.Disk self.now.file → IsKeptBelow (at + len) (D.Disk.seen self.now.file) (changed_by self.now.changes.items (D.Disk.seen self.now.file)) }
    {
        match at.checked_add(len) {
            Some(end) => end <= self.len && is_kept_below(&self.changes, end),
            None => false,
        }
    }
}

impl<D: Disk> Disk for Overlay<D> {
    ghost use Rattle.hx_overlay.specs.Changes.{changed_by};

    ghost seen = { λ o. changed_by o.changes.items (D.Disk.seen o.file) };

    ghost may_leave = { λ o c. c ≡ changed_by o.changes.items (D.Disk.seen o.file) };

    ghost is_usable = { λ o. D.Disk.is_usable o.file };

    ghost faults = { λ o. D.Disk.faults o.file + o.faults };

    ghost tally_of = { λ o. D.Disk.tally_of o.file };

    ghost is_clean = { λ o. D.Disk.is_clean o.file };

    ghost key_of = { λ o. D.Disk.key_of o.file };

    ghost is_fair = { λ o. D.Disk.is_fair o.file };

    ghost fair_if_clean = { λ o. D.Disk.fair_if_clean o.file };

    ghost seen_may_stay = { λ o. refl };

    fn mixes(&self) -> bool {
        false
    }

    fn key(&self) -> u64 {
        self.file.key()
    }

    fn tally(&self) -> Tally {
        self.file.tally()
    }

    fn may_be_used(&self) -> bool {
        self.file.may_be_used()
    }

    fn len(&mut self) -> io::Result<usize> {
        Ok(len_behind(&self.changes, self.len))
    }

    fn read_at(&mut self, at: usize, buf: &mut [u8]) -> io::Result<()> {
        if self.is_unchanged(at, buf.len()) {
            return self.file.read_at(at, buf);
        }
        let outcome = read_changed(&mut self.file, &self.changes, self.len, at, buf);
        count_read(outcome, &mut self.faults)
    }

    fn read_checked(&mut self, key: u64, want: u64, at: usize, buf: &mut [u8]) -> io::Result<()> {
        if self.is_unchanged(at, buf.len()) {
            return self.file.read_checked(key, want, at, buf);
        }
        // The file isn't asked for what is to be changed: a wrong answer couldn't be told by the digest.
        count_read(Err(io::ErrorKind::Unsupported.into()), &mut self.faults)
    }

    fn write_at(&mut self, at: usize, bytes: &[u8]) -> io::Result<()> {
        count_kept(note_written(&mut self.changes, at, bytes), &mut self.faults)
    }

    fn set_len(&mut self, len: usize) -> io::Result<()> {
        count_kept(note_cut(&mut self.changes, len), &mut self.faults)
    }

    fn sync(&mut self) -> io::Result<()> {
        Ok(())
    }
}

/// Counts a read that failed.
fn count_read(outcome: io::Result<()>, faults: &mut u64) -> io::Result<()>
    ensures same { result ≡ outcome }
    ensures faults { CountsFault result faults.old faults.new }
{
    if outcome.is_err() {
        *faults = faults.saturating_add(1);
    }
    outcome
}

/// Counts a change that found no memory.
fn count_kept(outcome: Result<(), AllocError>, faults: &mut u64) -> io::Result<()>
    ensures variant { is_ok result ≡ is_ok outcome }
    ensures kind { finds_no_room result ≡ false }
    ensures faults { CountsFault result faults.old faults.new }
{
    if outcome.is_err() {
        *faults = faults.saturating_add(1);
        return Err(io::Error::from(io::ErrorKind::OutOfMemory));
    }
    Ok(())
}
