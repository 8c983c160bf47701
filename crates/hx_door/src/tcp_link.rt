// The two ends of a link over TCP.
ghost use Rattle.std.specs.Prelude.{IfOk};
ghost use Rattle.hx_door.specs.Doors.{AreFresh};

use crate::door::Link;
use hx_ports::{Sink, Source, StdSink, StdSource};
use std::io;
use std::io::{ErrorKind, Read, Write};
use std::net::{Shutdown, TcpStream};
use std::sync::Arc;
use std::sync::atomic::{AtomicU64, Ordering};
use std::time::{Clock, Duration, Instant};

/// How many seconds a read or a write of a link waits.
const PATIENCE_SECONDS: u64 = 60;

/// How many seconds after the last reply, or after its start, a link still begins a read. So a request has as many and those of one read.
const REQUEST_SECONDS: u64 = 240;

/// How many milliseconds the end of a link waits for more of what its client sends.
const SILENCE_MILLISECONDS: u64 = 500;

/// How many seconds behind its end a link still begins a read.
const LINGER_SECONDS: u64 = 4;

/// How many bytes the end of a link reads at a time.
const PIECE_BYTES: usize = 4096;

/// How often the end of a link reads at most, so that 16 MB are read in all.
const MOST_PIECES: u32 = 4096;

/// A link over a stream. What is written to it is sent at once, no read or write waits for ever, and no request takes for ever to come.
pub(crate) fn link_over(
    rt: &HostRuntime,
    stream: TcpStream,
) -> io::Result<Link<StdSource<TcpReader>, StdSink<TcpWriter>>>
    ensures { IfOk result (λ link. AreFresh (⟦<StdSource<TcpReader> as Source>⟧.shown link.source) (⟦<StdSink<TcpWriter> as Sink>⟧.shown link.sink)) }
{
    stream.set_nodelay(true)?;
    let patience = Duration::from_secs(PATIENCE_SECONDS);
    stream.set_read_timeout(Some(patience))?;
    stream.set_write_timeout(Some(patience))?;
    let began = Instant::now(rt)?;
    let writer = TcpWriter {
        rt: *rt,
        stream: stream.try_clone()?,
        began,
        replied: Arc::new(rt.alloc(), AtomicU64::new(0))?,
    };
    let reader = TcpReader {
        rt: *rt,
        stream,
        began,
        replied: writer.replied.clone()?,
    };
    Ok(Link {
        source: StdSource::new(reader),
        sink: StdSink::new(writer),
    })
}

/// What the client of a link sends. Where a request doesn't come to its end a read fails. Dropping it ends the link: the client is told that no more is sent, and what it still sends is read for a while.
pub struct TcpReader {
    rt: HostRuntime,
    stream: TcpStream,
    /// When the link began.
    began: Instant,
    /// How many whole seconds after it a part of a reply was last written.
    replied: Arc<AtomicU64>,
}

impl Read for TcpReader {
    fn read(&mut self, into: &mut [u8]) -> io::Result<usize> {
        let now = self.began.elapsed(&self.rt)?.as_secs();
        if now.saturating_sub(self.replied.load(Ordering::SeqCst)) >= REQUEST_SECONDS {
            return Err(io::Error::from(ErrorKind::TimedOut));
        }
        self.stream.read(into)
    }
}

impl Drop for TcpReader {
    fn drop(self) {
        linger(&self.rt, &self.stream);
        let TcpReader {
            rt: _,
            stream: _,
            began: _,
            replied: _,
        } = self;
    }
}

/// What is sent to the client of a link.
pub struct TcpWriter {
    rt: HostRuntime,
    stream: TcpStream,
    /// When the link began.
    began: Instant,
    /// What the reader of the link looks at.
    replied: Arc<AtomicU64>,
}

impl Write for TcpWriter {
    fn write(&mut self, from: &[u8]) -> io::Result<usize> {
        let count = self.stream.write(from)?;
        if let Ok(since) = self.began.elapsed(&self.rt) {
            self.replied.store(since.as_secs(), Ordering::SeqCst);
        }
        Ok(count)
    }

    fn flush(&mut self) -> io::Result<()> {
        self.stream.flush()
    }
}

impl Drop for TcpWriter {
    fn drop(self) {
        let TcpWriter {
            rt: _,
            stream: _,
            began: _,
            replied: _,
        } = self;
    }
}

/// Says that no more is sent, reads what still comes, and then ends the link for good: its sink may be given back much later. A client that is cut off while it sends may lose what it was sent.
fn linger<C: Clock>(clock: &C, stream: &TcpStream) {
    if stream.shutdown(Shutdown::Write).is_ok() {
        read_on(clock, stream);
    }
    let _ = stream.shutdown(Shutdown::Both);
}

/// Reads what still comes, for a while.
fn read_on<C: Clock>(clock: &C, stream: &TcpStream) {
    let silence = Duration::from_millis(SILENCE_MILLISECONDS);
    if stream.set_read_timeout(Some(silence)).is_err() {
        return;
    }
    let Ok(ended) = Instant::now(clock) else {
        return;
    };
    for _ in 0..MOST_PIECES {
        if !goes_on(stream) || !is_recent(clock, ended) {
            return;
        }
    }
}

/// Reads a piece and forgets it, and says whether more may come.
fn goes_on(stream: &TcpStream) -> bool {
    let mut piece = [0; PIECE_BYTES];
    match (&mut &*stream).read(&mut piece) {
        Ok(count) => count > 0,
        Err(error) => error.kind() == ErrorKind::Interrupted,
    }
}

/// Whether a link that ended then still begins a read.
fn is_recent<C: Clock>(clock: &C, ended: Instant) -> bool {
    match ended.elapsed(clock) {
        Ok(since) => since.as_secs() < LINGER_SECONDS,
        Err(_) => false,
    }
}
