// Adapters over any reader and writer.
ghost use Rattle.std.specs.Prelude.{◌≡◌, ◌↔◌, ◌⊎◌, pos, None, Some, OnOk, OnErr, IsSome};
ghost use Rattle.std.specs.Io.{ReadsAtMost};
ghost use Rattle.std.specs.Io.KnownBytes.{ReadConsumes, WriteAppends};
ghost use Rattle.std.specs.IoError.{error_kind, raw_os_error};
ghost use Rattle.hx_ports.specs.Causes.{HasCause, StallCause, WritesAtMost};

use crate::stream::{ReadFault, Sink, Source, WriteFault};
use std::io::{ErrorKind, Read, Write};
use std::{fmt, io};

/// Why a read or a write failed.
#[derive(Clone, Copy)]
pub enum StreamFault {
    /// The stream isn't open, as where the program was started with it closed: error 9 (`EBADF`) of the system, which is of no kind.
    NotOpen,
    /// An error of this kind.
    Failed(ErrorKind),
}

impl StreamFault {
    fn of(error: io::Error) -> StreamFault
        ensures open { (result ≡ StreamFault.NotOpen) ↔ (raw_os_error error ≡ Some (pos 9)) }
        ensures kind { (result ≡ StreamFault.NotOpen) ⊎ (result ≡ StreamFault.Failed (error_kind error)) }
    {
        match error.raw_os_error() {
            Some(9) => StreamFault::NotOpen,
            _ => StreamFault::Failed(error.kind()),
        }
    }
}

impl fmt::Display for StreamFault {
    fn fmt<W: fmt::Write>(&self, f: &mut fmt::Formatter<W>) -> fmt::Result {
        match self {
            StreamFault::NotOpen => f.write_str("the stream is not open"),
            StreamFault::Failed(kind) => write!(f, "{kind:?}"),
        }
    }
}

/// A reader, with the count of its failures. A read that was interrupted is made again.
pub struct StdSource<R: Read> {
    inner: R,
    faults: u64,
    last_fault: Option<StreamFault>,
}

impl<R: Read + Drop> Drop for StdSource<R> {
    fn drop(self) {
        let StdSource {
            inner: _,
            faults: _,
            last_fault: _,
        } = self;
    }
}

impl<R: Read> StdSource<R> {
    ghost use Rattle.hx_ports.specs.Shown.{last_read_fault};

    pub fn new(inner: R) -> Self
        ensures shown { ⟦<StdSource<R> as Source>⟧.shown result ≡ record { left = R.remaining inner; faults = 0 } }
        ensures fault { last_read_fault result ≡ None }
    {
        StdSource {
            inner,
            faults: 0,
            last_fault: None,
        }
    }

    pub fn faults(&self) -> u64
        ensures { result ≡ (⟦<StdSource<R> as Source>⟧.shown self.now).faults }
    {
        self.faults
    }

    /// Why the last read failed that did.
    pub fn last_fault(&self) -> Option<StreamFault>
        ensures { result ≡ last_read_fault self.now }
    {
        self.last_fault
    }
}

impl<R: Read> Source for StdSource<R> {
    ghost use Rattle.hx_ports.specs.Shown.{last_read_fault};

    ghost shown = { λ s. record { left = R.remaining s.inner; faults = s.faults } };

    fn read(&mut self, into: &mut [u8]) -> Result<usize, ReadFault>
        ensures bound { ReadsAtMost result into.new }
        ensures bytes { ReadConsumes (⟦<StdSource<R> as Source>⟧.shown self.old).left (⟦<StdSource<R> as Source>⟧.shown self.new).left result into.new }
        ensures cause { HasCause (⟦<StdSource<R> as Source>⟧.shown self.old).faults (⟦<StdSource<R> as Source>⟧.shown self.new).faults result }
        ensures fault { OnErr result (IsSome (last_read_fault self.new)) }
        ensures same { OnOk result (last_read_fault self.new ≡ last_read_fault self.old) }
    {
        match read_again(&mut self.inner, into) {
            Ok(count) => Ok(count),
            Err(error) => {
                self.faults = self.faults.saturating_add(1);
                self.last_fault = Some(StreamFault::of(error));
                Err(ReadFault)
            }
        }
    }
}

/// Reads, and reads again where the read was interrupted.
fn read_again<R: Read>(reader: &mut R, into: &mut [u8]) -> io::Result<usize>
    ensures bound { ReadsAtMost result into.new }
    ensures bytes { ReadConsumes (R.remaining reader.old) (R.remaining reader.new) result into.new }
{
    for _ in 0..u64::MAX {
        match reader.read(into) {
            Ok(count) => return Ok(count),
            Err(error) => {
                if error.kind() != ErrorKind::Interrupted {
                    return Err(error);
                }
            }
        }
    }
    Err(io::Error::from(ErrorKind::Interrupted))
}

/// A writer, with the counts of its failures and of the writes that took nothing. A write that was interrupted is made again.
pub struct StdSink<W: Write> {
    inner: W,
    faults: u64,
    stalls: u64,
    last_fault: Option<StreamFault>,
}

impl<W: Write + Drop> Drop for StdSink<W> {
    fn drop(self) {
        let StdSink {
            inner: _,
            faults: _,
            stalls: _,
            last_fault: _,
        } = self;
    }
}

impl<W: Write> StdSink<W> {
    ghost use Rattle.hx_ports.specs.Shown.{last_write_fault};

    pub fn new(inner: W) -> Self
        ensures shown { ⟦<StdSink<W> as Sink>⟧.shown result ≡ record { written = W.contents inner; faults = 0; stalls = 0 } }
        ensures fault { last_write_fault result ≡ None }
    {
        StdSink {
            inner,
            faults: 0,
            stalls: 0,
            last_fault: None,
        }
    }

    pub fn faults(&self) -> u64
        ensures { result ≡ (⟦<StdSink<W> as Sink>⟧.shown self.now).faults }
    {
        self.faults
    }

    pub fn stalls(&self) -> u64
        ensures { result ≡ (⟦<StdSink<W> as Sink>⟧.shown self.now).stalls }
    {
        self.stalls
    }

    /// Why the last write failed that did.
    pub fn last_fault(&self) -> Option<StreamFault>
        ensures { result ≡ last_write_fault self.now }
    {
        self.last_fault
    }
}

impl<W: Write> Sink for StdSink<W> {
    ghost use Rattle.hx_ports.specs.Shown.{last_write_fault};

    ghost shown = { λ s. record { written = W.contents s.inner; faults = s.faults; stalls = s.stalls } };

    fn write(&mut self, from: &[u8]) -> Result<usize, WriteFault>
        ensures bound { WritesAtMost result from.now }
        ensures bytes { WriteAppends (⟦<StdSink<W> as Sink>⟧.shown self.old).written (⟦<StdSink<W> as Sink>⟧.shown self.new).written result from.now }
        ensures cause { HasCause (⟦<StdSink<W> as Sink>⟧.shown self.old).faults (⟦<StdSink<W> as Sink>⟧.shown self.new).faults result }
        ensures stall { StallCause (⟦<StdSink<W> as Sink>⟧.shown self.old).stalls (⟦<StdSink<W> as Sink>⟧.shown self.new).stalls result from.now }
        ensures fault { OnErr result (IsSome (last_write_fault self.new)) }
        ensures same { OnOk result (last_write_fault self.new ≡ last_write_fault self.old) }
    {
        match write_again(&mut self.inner, from) {
            Ok(count) => {
                if count == 0 && !from.is_empty() {
                    self.stalls = self.stalls.saturating_add(1);
                }
                Ok(count)
            }
            Err(error) => {
                self.faults = self.faults.saturating_add(1);
                self.last_fault = Some(StreamFault::of(error));
                Err(WriteFault)
            }
        }
    }
}

/// Writes, and writes again where the write was interrupted.
fn write_again<W: Write>(writer: &mut W, from: &[u8]) -> io::Result<usize>
    ensures bound { WritesAtMost result from.now }
    ensures bytes { WriteAppends (W.contents writer.old) (W.contents writer.new) result from.now }
{
    for _ in 0..u64::MAX {
        match writer.write(from) {
            Ok(count) => return Ok(count),
            Err(error) => {
                if error.kind() != ErrorKind::Interrupted {
                    return Err(error);
                }
            }
        }
    }
    Err(io::Error::from(ErrorKind::Interrupted))
}
