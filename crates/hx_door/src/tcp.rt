// A door on a loopback address.
ghost use Rattle.std.specs.Prelude.{◌≡◌, ◌≤◌, true, false, None, Some, IfErr, IfOk, IsSome, IsSomeAnd, OnErr, OnOk};
ghost use Rattle.std.specs.Option.{option_copied};
ghost use Rattle.hx_ports.specs.Causes.{HasCause, Rose};
ghost use Rattle.hx_door.specs.Doors.{AreFresh, Hands};
ghost use Rattle.hx_door.specs.Listening.{IsLoopback, IsHeard, IsListenFault};

use crate::door::{Door, DoorFault, Link};
use crate::tcp_link::{TcpReader, TcpWriter, link_over};
use hx_ports::{Sink, Source, StdSink, StdSource};
use std::io::ErrorKind;
use std::net::{Net, SocketAddr, TcpListener, TcpStream};
use std::{fmt, io};

/// Why a door failed.
#[derive(Debug, Drop)]
pub enum TcpFault {
    /// The text is no IP address with a port, as `127.0.0.1:8080` or `[::1]:0` are.
    NotAnAddress,
    /// The address isn't one of 127.0.0.0/8 or ::1, so other machines could reach it.
    NotLoopback,
    /// A link was asked for before the door listens.
    NotListening,
    /// The system refused a call, as where another process listens at the address.
    Failed(io::Error),
}

impl fmt::Display for TcpFault {
    fn fmt<W: fmt::Write>(&self, f: &mut fmt::Formatter<W>) -> fmt::Result {
        match self {
            TcpFault::NotAnAddress => f.write_str("not an IP address with a port"),
            TcpFault::NotLoopback => f.write_str("not a loopback address"),
            TcpFault::NotListening => f.write_str("the door does not listen"),
            TcpFault::Failed(error) => write!(f, "{error}"),
        }
    }
}

impl From<io::Error> for TcpFault {
    ghost use Rattle.hx_door.specs.declared.tcp.TcpFault.TheVariants.{Failed};

    ghost from_gives = { λ error fault. fault ≡ Failed error };

    fn from(error: io::Error) -> TcpFault {
        TcpFault::Failed(error)
    }
}

/// Links that come to a loopback address over TCP.
pub struct TcpDoor {
    rt: HostRuntime,
    listener: Option<TcpListener>,
    faults: u64,
    handed: u64,
    out: u64,
    last_fault: Option<TcpFault>,
}

impl Drop for TcpDoor {
    fn drop(self) {
        let TcpDoor {
            rt: _,
            listener: _,
            faults: _,
            handed: _,
            out: _,
            last_fault: _,
        } = self;
    }
}

impl TcpDoor {
    ghost use Rattle.hx_door.specs.Shown.{listens, why_failed};

    /// A door that doesn't listen yet.
    pub fn new(rt: &HostRuntime) -> Self
        ensures shown { ⟦<TcpDoor as Door>⟧.shown result ≡ record { faults = 0; handed = 0; out = 0; closed = false; coming = None; written = None } }
        ensures unheard { listens result ≡ false }
        ensures fault { why_failed result ≡ None }
    {
        TcpDoor {
            rt: *rt,
            listener: None,
            faults: 0,
            handed: 0,
            out: 0,
            last_fault: None,
        }
    }

    /// The address and the port that the door listens at.
    pub fn local_addr(&self) -> Option<SocketAddr>
        ensures { IsSome result → listens self.now ≡ true }
    {
        match &self.listener {
            Some(listener) => listener.local_addr().ok(),
            None => None,
        }
    }

    pub fn faults(&self) -> u64
        ensures { result ≡ (⟦<TcpDoor as Door>⟧.shown self.now).faults }
    {
        self.faults
    }

    /// Why the last call failed that did.
    pub fn last_fault(&self) -> Option<&TcpFault>
        ensures { option_copied result ≡ why_failed self.now }
    {
        self.last_fault.as_ref()
    }

    /// Counts a fault, and keeps why.
    fn fail(&mut self, fault: TcpFault) -> DoorFault
        ensures rest { self.new ≡ record self.old { faults = self.new.faults; last_fault = Some fault } }
        ensures rose { Rose self.old.faults self.new.faults }
        ensures later { self.old.faults ≤ self.new.faults }
    {
        self.faults = self.faults.saturating_add(1);
        self.last_fault = Some(fault);
        DoorFault
    }
}

/// Listens at the address that a text asks for, and says so on standard error. Before it is known to be loopback nothing is bound.
fn listener_at<R>(rt: &R, text: &str) -> Result<TcpListener, TcpFault>
where
    R: Net<Listener = TcpListener, Stream = TcpStream> + Eprint,
    ensures heard { OnOk result (IsHeard text.now) }
    ensures fault { IfErr result (IsListenFault text.now) }
{
    let Ok(address) = text.parse::<SocketAddr>() else {
        return Err(TcpFault::NotAnAddress);
    };
    if !address.ip().is_loopback() {
        return Err(TcpFault::NotLoopback);
    }
    let listener = bind(rt, address)?;
    let address = listener.local_addr()?;
    let _ = eprintln!(rt; "hnc: serving on {address}");
    Ok(listener)
}

/// Binds a loopback address, and nothing else.
fn bind<R: Net<Listener = TcpListener, Stream = TcpStream>>(
    rt: &R,
    address: SocketAddr,
) -> io::Result<TcpListener>
    requires { IsLoopback address }
{
    TcpListener::bind(rt, address)
}

impl Door for TcpDoor {
    ghost use Rattle.hx_door.specs.Shown.{listens, why_failed};

    type Input = StdSource<TcpReader>;

    type Output = StdSink<TcpWriter>;

    ghost shown = { λ d. record { faults = d.faults; handed = d.handed; out = d.out; closed = false; coming = None; written = None } };

    /// Takes an IP address and a port, or a free port where that is 0, and says on standard error where it listens. An address that isn't loopback is refused before anything is bound. A door that listens already listens at the new address alone.
    fn listen(&mut self, address: &str) -> Result<(), DoorFault>
        ensures same { ⟦<TcpDoor as Door>⟧.shown self.new ≡ record (⟦<TcpDoor as Door>⟧.shown self.old) { faults = (⟦<TcpDoor as Door>⟧.shown self.new).faults } }
        ensures cause { HasCause (⟦<TcpDoor as Door>⟧.shown self.old).faults (⟦<TcpDoor as Door>⟧.shown self.new).faults result }
        ensures heard { OnOk result (IsHeard address.now × (listens self.new ≡ true)) }
        ensures refused { OnErr result (IsSomeAnd (why_failed self.new) (IsListenFault address.now) × (listens self.new ≡ listens self.old)) }
    {
        match listener_at(&self.rt, address) {
            Ok(listener) => {
                self.listener = Some(listener);
                Ok(())
            }
            Err(fault) => Err(self.fail(fault)),
        }
    }

    fn accept(
        &mut self,
    ) -> Result<Option<Link<StdSource<TcpReader>, StdSink<TcpWriter>>>, DoorFault>
        ensures link { IfOk result (λ next. IsSomeAnd next (λ link. Hands (⟦<TcpDoor as Door>⟧.shown self.old) (⟦<TcpDoor as Door>⟧.shown self.new) (⟦<StdSource<TcpReader> as Source>⟧.shown link.source) (⟦<StdSink<TcpWriter> as Sink>⟧.shown link.sink))) }
        ensures fault { OnErr result (⟦<TcpDoor as Door>⟧.shown self.new ≡ record (⟦<TcpDoor as Door>⟧.shown self.old) { faults = (⟦<TcpDoor as Door>⟧.shown self.new).faults }) }
        ensures cause { HasCause (⟦<TcpDoor as Door>⟧.shown self.old).faults (⟦<TcpDoor as Door>⟧.shown self.new).faults result }
        ensures heard { OnOk result (listens self.old ≡ true) }
        ensures unheard { listens self.old ≡ false → why_failed self.new ≡ Some TcpFault.NotListening }
        ensures told { OnErr result (IsSome (why_failed self.new)) }
        ensures stays { listens self.new ≡ listens self.old }
    {
        let Some(listener) = &self.listener else {
            return Err(self.fail(TcpFault::NotListening));
        };
        match next_link(&self.rt, listener) {
            Ok(link) => {
                self.handed = self.handed.saturating_add(1);
                self.out = self.out.saturating_add(1);
                Ok(Some(link))
            }
            Err(error) => Err(self.fail(TcpFault::Failed(error))),
        }
    }

    fn take_back(&mut self, _sink: StdSink<TcpWriter>) {
        self.out = self.out.saturating_sub(1);
    }
}

/// Waits for the next link.
fn next_link(
    rt: &HostRuntime,
    listener: &TcpListener,
) -> io::Result<Link<StdSource<TcpReader>, StdSink<TcpWriter>>>
    ensures { IfOk result (λ link. AreFresh (⟦<StdSource<TcpReader> as Source>⟧.shown link.source) (⟦<StdSink<TcpWriter> as Sink>⟧.shown link.sink)) }
{
    link_over(rt, accept_again(listener)?)
}

/// Waits for a client, and again where it is gone before it is had.
fn accept_again(listener: &TcpListener) -> io::Result<TcpStream> {
    for _ in 0..u64::MAX {
        match listener.accept() {
            Ok((stream, _)) => return Ok(stream),
            Err(error) => {
                if !is_passing(error.kind()) {
                    return Err(error);
                }
            }
        }
    }
    Err(io::Error::from(ErrorKind::Interrupted))
}

/// Whether a failure says nothing of the door, and only of a client or a signal.
fn is_passing(kind: ErrorKind) -> bool {
    matches!(kind, ErrorKind::Interrupted | ErrorKind::ConnectionAborted)
}
