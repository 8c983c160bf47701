// Sources and sinks of bytes.
ghost use Rattle.std.specs.Io.{ReadsAtMost};
ghost use Rattle.std.specs.Io.KnownBytes.{ReadConsumes, WriteAppends};
ghost use Rattle.hx_ports.specs.Causes.{HasCause, WritesAtMost, StallCause};
ghost use Rattle.hx_ports.specs.Views.{SourceView, SinkView};

/// A read failed, and the source's count of faults rose.
#[derive(Clone, Copy)]
pub struct ReadFault;

/// A write failed, and the sink's count of faults rose.
#[derive(Clone, Copy)]
pub struct WriteFault;

/// Gives bytes, and counts the reads that failed.
///
/// The count rises with each failure and with nothing else, and never falls. At `u64::MAX` it stands, and counts as risen.
pub trait Source {
    ghost shown: { Self → SourceView };

    /// Reads some bytes into the front of a piece. Of a piece that isn't empty none are read only at the end of the input.
    fn read(&mut self, into: &mut [u8]) -> Result<usize, ReadFault>
        ensures bound { ReadsAtMost result into.new }
        ensures bytes { ReadConsumes (shown self.old).left (shown self.new).left result into.new }
        ensures cause { HasCause (shown self.old).faults (shown self.new).faults result };
}

/// Takes bytes, and counts the writes that failed and those that took nothing of a piece that wasn't empty.
///
/// Each count rises with what it counts and with nothing else, and never falls. At `u64::MAX` it stands, and counts as risen.
pub trait Sink {
    ghost shown: { Self → SinkView };

    /// Writes some first bytes of those that it is given.
    fn write(&mut self, from: &[u8]) -> Result<usize, WriteFault>
        ensures bound { WritesAtMost result from.now }
        ensures bytes { WriteAppends (shown self.old).written (shown self.new).written result from.now }
        ensures cause { HasCause (shown self.old).faults (shown self.new).faults result }
        ensures stall { StallCause (shown self.old).stalls (shown self.new).stalls result from.now };
}
