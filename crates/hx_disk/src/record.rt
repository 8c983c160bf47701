// The calls of a file, for clauses alone: no memory holds them.
ghost use Rattle.std.specs.Prelude.{◌≡◌, ◌∷◌, ◌++◌, []};
ghost use Rattle.hx_disk.specs.Calls.{event_of, noted_before, recorded};

use boxcar::tag::{Names, Tag};

/// Which call of the system was made.
#[derive(Clone, Copy)]
pub enum Call {
    /// The file was synced and got its key.
    Settled,
    Measured,
    Read,
    Written,
    /// It got a length.
    Cut,
    Synced,
    /// A read whose bytes are to have a digest.
    Tested,
}

/// A call with its answer, but for its bytes.
#[derive(Clone, Copy)]
pub struct Note {
    pub call: Call,
    /// An offset, a length, or the key of a file that was settled.
    pub at: usize,
    /// How many bytes were asked for or taken. In a call that writes and fails, 1 where there was no room.
    pub count: usize,
    pub is_ok: bool,
    /// Of a tested read: the key of the digest, and the digest.
    pub key: u64,
    pub want: u64,
}

/// A note before those that were made earlier.
#[derive(Clone, Copy)]
struct NoteBefore<'a> {
    note: Note,
    length: usize,
    earlier: &'a Tag,
}

struct NoteNumbers;

impl Names<NoteBefore<'_>> for NoteNumbers {
    ghost numbers = { λ n. noted_before n.note n.length n.earlier.now.numbers };
}

/// The bytes of a call before those of earlier calls.
#[derive(Clone, Copy)]
struct BytesBefore<'a> {
    bytes: &'a [u8],
    earlier: &'a Tag,
}

struct ByteNumbers;

impl Names<BytesBefore<'_>> for ByteNumbers {
    ghost numbers = { λ b. b.bytes.now ++ b.earlier.now.numbers };
}

/// Each call so far with its answer.
pub struct Record {
    notes: Tag,
    bytes: Tag,
}

impl Drop for Record {
    fn drop(self) {
        let Record { notes: _, bytes: _ } = self;
    }
}

impl Record {
    pub(crate) fn new() -> Record
        ensures { recorded result ≡ [] }
    {
        Record {
            notes: Tag::empty(),
            bytes: Tag::empty(),
        }
    }

    pub(crate) fn note(&mut self, note: Note, bytes: &[u8])
        ensures { recorded self.new ≡ event_of note bytes.now ∷ recorded self.old }
    {
        self.notes = Tag::of::<NoteBefore<'_>, NoteNumbers>(&NoteBefore {
            note,
            length: bytes.len(),
            earlier: &self.notes,
        });
        self.bytes = Tag::of::<BytesBefore<'_>, ByteNumbers>(&BytesBefore {
            bytes,
            earlier: &self.bytes,
        });
    }
}
