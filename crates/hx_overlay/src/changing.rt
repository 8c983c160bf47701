// What changes leave of a file, and of a range of it.
ghost use Rattle.std.specs.Prelude.{◌≡◌, ◌+◌, ◌^◌, ◌<◌, ◌≤◌, ℕ, List, length, All, slice_index, OnOk, OnErr, IsTrue};
ghost use Rattle.sqlite_disk.specs.Disk.{Holds};
ghost use Rattle.sqlite_disk.specs.Events.{overlaid, padded};
ghost use Rattle.sqlite_wal.specs.Reads.{IsClean, OnlyReads};
ghost use Rattle.hx_overlay.specs.Changes.{HasOf, changed_by, start_of};

use crate::change::{Change, Piece, cut_byte};
use sqlite_disk::Disk;
use std::alloc::AllocError;
use std::io;

/// The byte of a file at an offset, which was this one before the changes.
pub(crate) fn byte_behind(changes: &[Change], place: usize, before: u8) -> u8
    ensures { (file : List ℕ) → before ≡ slice_index file place → result ≡ slice_index (changed_by changes.now file) place }
{
    let mut byte = before;
    for change in changes {
        byte = change.byte(place, byte);
    }
    byte
}

/// How long a file is behind changes that had so many bytes.
pub(crate) fn len_behind(changes: &[Change], before: usize) -> usize
    ensures { (file : List ℕ) → before ≡ length file → result ≡ length (changed_by changes.now file) }
{
    let mut len = before;
    for change in changes {
        len = change.len(len);
    }
    len
}

/// Whether changes leave all below an offset as it is.
pub(crate) fn is_kept_below(changes: &[Change], end: usize) -> bool
    ensures { IsTrue result → All (λ change. end ≤ start_of change) changes.now }
{
    changes.iter().all(|change| end <= change.start())
}

/// Reads what a file of so many bytes has of a range. The bytes behind its end stay.
pub(crate) fn read_within<D: Disk>(
    file: &mut D,
    len: usize,
    at: usize,
    range: &mut [u8],
) -> io::Result<()>
    requires usable { IsTrue (D.Disk.is_usable file.old) }
    ensures read { OnOk result (IsClean D.Disk file.new → HasOf len at (D.Disk.seen file.old) range.new) }
    ensures faults { D.Disk.faults file.old ≤ D.Disk.faults file.new }
    ensures calm { OnOk result (D.Disk.faults file.new ≡ D.Disk.faults file.old) }
    ensures tally { D.Disk.tally_of file.new ≡ D.Disk.tally_of file.old }
    ensures stays { OnlyReads D.Disk file.old file.new }
{
    let there = len.saturating_sub(at).min(range.len());
    if there == 0 {
        return Ok(());
    }
    file.read_at(at, &mut range[..there])?;
    Ok(())
}

/// Changes what was read of a range of a file that had so many bytes.
pub(crate) fn change_range(changes: &[Change], len: usize, at: usize, range: &mut [u8])
    requires fits { at + length range.old < 2 ^ 64 }
    ensures { (file : List ℕ) → len ≡ length file → HasOf len at file range.old → (i : ℕ) → i < length range.new → slice_index range.new i ≡ slice_index (changed_by changes.now file) (at + i) }
{
    for i in 0..range.len() {
        let place = at + i;
        range[i] = byte_behind(changes, place, cut_byte(len, place, range[i]));
    }
}

/// Reads a range of a file that had so many bytes before the changes. One that reaches behind the end is refused.
pub(crate) fn read_changed<D: Disk>(
    file: &mut D,
    changes: &[Change],
    len: usize,
    at: usize,
    range: &mut [u8],
) -> io::Result<()>
    requires usable { IsTrue (D.Disk.is_usable file.old) }
    requires measured { IsClean D.Disk file.old → len ≡ length (D.Disk.seen file.old) }
    ensures read { OnOk result (IsClean D.Disk file.new → Holds (changed_by changes.now (D.Disk.seen file.old)) at range.new) }
    ensures faults { D.Disk.faults file.old ≤ D.Disk.faults file.new }
    ensures calm { OnOk result (D.Disk.faults file.new ≡ D.Disk.faults file.old) }
    ensures tally { D.Disk.tally_of file.new ≡ D.Disk.tally_of file.old }
    ensures stays { OnlyReads D.Disk file.old file.new }
{
    let Some(end) = at.checked_add(range.len()) else {
        return Err(io::ErrorKind::UnexpectedEof.into());
    };
    if end > len_behind(changes, len) {
        return Err(io::ErrorKind::UnexpectedEof.into());
    }
    read_within(file, len, at, range)?;
    change_range(changes, len, at, range);
    Ok(())
}

/// Notes that bytes are written.
pub(crate) fn note_written(
    changes: &mut Vec<Change>,
    at: usize,
    bytes: &[u8],
) -> Result<(), AllocError>
    ensures ok { OnOk result ((file : List ℕ) → changed_by changes.new.items file ≡ overlaid (changed_by changes.old.items file) at bytes.now) }
    ensures err { OnErr result (changes.new.items ≡ changes.old.items) }
{
    let piece = Piece::new(*changes.allocator(), at, bytes)?;
    changes.push(Change::Written(piece))?;
    Ok(())
}

/// Notes that the file gets a length.
pub(crate) fn note_cut(changes: &mut Vec<Change>, len: usize) -> Result<(), AllocError>
    ensures ok { OnOk result ((file : List ℕ) → changed_by changes.new.items file ≡ padded (changed_by changes.old.items file) len) }
    ensures err { OnErr result (changes.new.items ≡ changes.old.items) }
{
    changes.push(Change::Cut(len))?;
    Ok(())
}
