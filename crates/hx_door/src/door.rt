// What hands out links.
ghost use Rattle.std.specs.Prelude.{◌≡◌, IfNone, IfOk, IfSome, OnErr};
ghost use Rattle.hx_ports.specs.Causes.{HasCause};
ghost use Rattle.hx_door.specs.Doors.{Closes, DoorView, Hands, TakesBack};

use hx_ports::{Sink, Source};

/// A door failed, and its count of faults rose.
#[derive(Clone, Copy, Debug, PartialEq, Eq)]
pub struct DoorFault;

/// A link: what its client sends, and what is sent to it.
#[derive(Drop)]
pub struct Link<S, W> {
    pub source: S,
    pub sink: W,
}

/// Hands out links, one after the other, and counts its failures.
///
/// The count rises with each failure and with nothing else, and never falls. At `u64::MAX` it stands, and counts as risen. The numbers of links stand there too.
pub trait Door {
    /// What a link's client sends. Dropping it ends the link.
    type Input: Source + Drop;

    /// What is sent to a link's client.
    type Output: Sink + Drop;

    ghost shown: { Self → DoorView };

    /// Opens the door where the address says. Links are handed out from then on.
    fn listen(&mut self, address: &str) -> Result<(), DoorFault>
        ensures same { shown self.new ≡ record (shown self.old) { faults = (shown self.new).faults } }
        ensures cause { HasCause (shown self.old).faults (shown self.new).faults result };

    /// Waits for the next link, or says by `None` that none comes any more. A door that is closed stays closed.
    fn accept(&mut self) -> Result<Option<Link<Self::Input, Self::Output>>, DoorFault>
        ensures link { IfOk result (λ next. IfSome next (λ link. Hands (shown self.old) (shown self.new) (Self.Input.shown link.source) (Self.Output.shown link.sink))) }
        ensures closed { IfOk result (λ next. IfNone next (Closes (shown self.old) (shown self.new))) }
        ensures fault { OnErr result (shown self.new ≡ record (shown self.old) { faults = (shown self.new).faults }) }
        ensures cause { HasCause (shown self.old).faults (shown self.new).faults result };

    /// Takes back the sink of a link that has ended. A door that tells what was written keeps it.
    fn take_back(&mut self, sink: Self::Output)
        ensures { TakesBack (shown self.old) (shown self.new) (Self.Output.shown sink) };
}
