// A source and a sink in memory that never fail by themselves.
ghost use Rattle.std.specs.Prelude.{◌≡◌, ◌-◌, min, ◌<◌, ◌≤◌, Some, drop, vec_len, length};
ghost use Rattle.std.specs.Io.{ReadsAtMost};
ghost use Rattle.std.specs.Io.KnownBytes.{ReadConsumes, WriteAppends};
ghost use Rattle.hx_ports.specs.Causes.{StallCause};

use crate::stream::{ReadFault, Sink, Source, WriteFault};

/// Bytes in memory, given in pieces.
pub struct SureSource {
    bytes: Vec<u8>,
    at: usize,
    piece: usize,
    ghost within: { at ≤ vec_len bytes },
    ghost gives: { 0 < piece },
}

impl Drop for SureSource {
    fn drop(self) {
        let SureSource {
            bytes: _,
            at: _,
            piece: _,
        } = self;
    }
}

impl SureSource {
    pub fn new(bytes: Vec<u8>, piece: usize) -> Self
        requires { 0 < piece }
        ensures { ⟦<SureSource as Source>⟧.shown result ≡ record { left = Some bytes.items; faults = 0 } }
    {
        SureSource {
            bytes,
            at: 0,
            piece,
        }
    }
}

impl Source for SureSource {
    ghost use Rattle.hx_ports.specs.Shown.{bytes_left, most_given};

    ghost shown = { λ s. record { left = Some (drop s.at s.bytes.items); faults = 0 } };

    fn read(&mut self, into: &mut [u8]) -> Result<usize, ReadFault>
        ensures bound { ReadsAtMost result into.new }
        ensures bytes { ReadConsumes (⟦<SureSource as Source>⟧.shown self.old).left (⟦<SureSource as Source>⟧.shown self.new).left result into.new }
        ensures count { result ≡ Ok (min (bytes_left self.old) (min (most_given self.old) (length into.new))) }
    {
        let left = self.bytes.len() - self.at;
        let count = left.min(self.piece.min(into.len()));
        let end = self.at + count;
        into[..count].copy_from_slice(&self.bytes[self.at..end]);
        self.at = end;
        Ok(count)
    }
}

/// Takes bytes up to the capacity of a vector, which it never grows.
pub struct SureSink {
    into: Vec<u8>,
    stalls: u64,
}

impl Drop for SureSink {
    fn drop(self) {
        let SureSink { into: _, stalls: _ } = self;
    }
}

impl SureSink {
    pub fn new(into: Vec<u8>) -> Self
        ensures { ⟦<SureSink as Sink>⟧.shown result ≡ record { written = Some into.items; faults = 0; stalls = 0 } }
    {
        SureSink { into, stalls: 0 }
    }

    pub fn bytes(&self) -> &[u8]
        ensures { (⟦<SureSink as Sink>⟧.shown self.now).written ≡ Some result.now }
    {
        self.into.as_slice()
    }
}

impl Sink for SureSink {
    ghost use Rattle.hx_ports.specs.Shown.{room_of};

    ghost shown = { λ s. record { written = Some s.into.items; faults = 0; stalls = s.stalls } };

    fn write(&mut self, from: &[u8]) -> Result<usize, WriteFault>
        ensures count { result ≡ Ok (min (room_of self.old) (length from.now)) }
        ensures bytes { WriteAppends (⟦<SureSink as Sink>⟧.shown self.old).written (⟦<SureSink as Sink>⟧.shown self.new).written result from.now }
        ensures stall { StallCause self.old.stalls self.new.stalls result from.now }
    {
        let room = self.into.capacity() - self.into.len();
        let count = room.min(from.len());
        if count == 0 {
            if !from.is_empty() {
                self.stalls = self.stalls.saturating_add(1);
            }
            return Ok(0);
        }
        match self.into.extend_from_slice(&from[..count]) {
            Ok(()) => Ok(count),
            Err(_) => Err(WriteFault),
        }
    }
}
