// What is written to a file that is only read.
ghost use Rattle.std.specs.Prelude.{◌≡◌, ◌+◌, ◌^◌, ◌<◌, ◌≤◌, ℕ, List, length, slice_index, IfOk};
ghost use Rattle.sqlite_disk.specs.Events.{overlaid, padded};

use std::alloc::{AllocError, Global};

/// Bytes that were written at an offset.
#[derive(Drop)]
pub(crate) struct Piece {
    pub(crate) at: usize,
    pub(crate) bytes: Vec<u8>,
    ghost fits: { at + length bytes.items < 2 ^ 64 },
}

/// What was done to a file.
#[derive(Drop)]
pub(crate) enum Change {
    Written(Piece),
    /// It got this length.
    Cut(usize),
}

impl Piece {
    /// A copy of the bytes. One that would reach behind 2^64 counts as want of memory.
    pub(crate) fn new(alloc: Global, at: usize, bytes: &[u8]) -> Result<Piece, AllocError>
        ensures { IfOk result (λ piece. (piece.at ≡ at) × (piece.bytes.items ≡ bytes.now)) }
    {
        if at.checked_add(bytes.len()).is_none() {
            return Err(AllocError);
        }
        let mut copy = Vec::new(alloc);
        copy.extend_from_slice(bytes)?;
        Ok(Piece { at, bytes: copy })
    }

    /// The first offset behind it.
    pub(crate) fn end(&self) -> usize
        ensures { result ≡ self.now.at + length self.now.bytes.items }
    {
        self.at + self.bytes.len()
    }

    /// The byte of a file at an offset, which was this one before the piece was written.
    pub(crate) fn byte(&self, place: usize, byte: u8) -> u8
        ensures { (file : List ℕ) → byte ≡ slice_index file place → result ≡ slice_index (overlaid file self.now.at self.now.bytes.items) place }
    {
        if place < self.at || place >= self.end() {
            return byte;
        }
        self.bytes[place - self.at]
    }
}

impl Change {
    ghost use Rattle.hx_overlay.specs.Changes.{changed, start_of};

    /// Where the file may differ by it: it is the same below.
    pub(crate) fn start(&self) -> usize
        ensures { result ≡ start_of self.now }
    {
        match self {
            Change::Written(piece) => piece.at,
            Change::Cut(len) => *len,
        }
    }

    /// How long a file is behind it that had so many bytes.
    pub(crate) fn len(&self, before: usize) -> usize
        ensures { (file : List ℕ) → before ≡ length file → result ≡ length (changed self.now file) }
    {
        match self {
            Change::Written(piece) => before.max(piece.end()),
            Change::Cut(len) => *len,
        }
    }

    /// The byte of a file at an offset, which was this one before the change.
    pub(crate) fn byte(&self, place: usize, byte: u8) -> u8
        ensures { (file : List ℕ) → byte ≡ slice_index file place → result ≡ slice_index (changed self.now file) place }
    {
        match self {
            Change::Written(piece) => piece.byte(place, byte),
            Change::Cut(len) => cut_byte(*len, place, byte),
        }
    }
}

/// The byte of a file at an offset, which was this one before the file got a length. One that lies behind the end counts as 0.
pub(crate) fn cut_byte(len: usize, place: usize, byte: u8) -> u8
    ensures cut { (file : List ℕ) → byte ≡ slice_index file place → result ≡ slice_index (padded file len) place }
    ensures behind { len ≤ place → result ≡ 0 }
    ensures below { place < len → result ≡ byte }
{
    if place < len { byte } else { 0 }
}
