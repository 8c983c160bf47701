// Links that are served one after the other.
ghost use Rattle.std.specs.Prelude.{unwrap_or};
ghost use Rattle.hx_ports.specs.Causes.{HasCause};
ghost use Rattle.hx_serve.specs.Inside.{IsServed};
ghost use Rattle.hx_serve.specs.Visits.{Serves};

use crate::service::ClusterService;
use hx_door::{Door, DoorFault, Link};
use hx_link::{LinkEnd, serve_link};
use hx_ports::Keeper;
use std::alloc::Global;

/// How many turns of worker 0 are made behind a link, at most.
const SETTLED_TURNS: u64 = 64;

/// Is told how links ended, by whoever serves them.
pub trait Notices {
    /// A link ended otherwise than [`LinkEnd::Closed`].
    fn link_ended(&self, end: LinkEnd);
}

/// Serves the links of a door, one after the other: each to its end, and then up to 64 turns of worker 0. It serves so many links, or else until the door is closed, and answers how many it served.
///
/// A link that ends otherwise than closed is noticed, and the next one is served. A fault of the door ends it.
pub fn serve<D: Door, K: Keeper, N: Notices>(
    alloc: Global,
    door: &mut D,
    service: &mut ClusterService<K>,
    notices: &N,
    links: Option<u64>,
) -> Result<u64, DoorFault>
    ensures serves { Serves result links service.old service.new (D.shown door.old) (D.shown door.new) }
    ensures cause { HasCause (D.shown door.old).faults (D.shown door.new).faults result }
{
    let most = links.unwrap_or(u64::MAX);
    let mut served = 0;
    'serving: while served < most {
        let link = match door.accept() {
            Err(fault) => return Err(fault),
            Ok(None) => return Ok(served),
            Ok(Some(link)) => link,
        };
        let end = serve_one(alloc, door, service, link);
        tell(notices, end);
        served += 1;
    }
    Ok(served)
}

/// Serves a link to its end, gives it back, and settles.
fn serve_one<D: Door, K: Keeper>(
    alloc: Global,
    door: &mut D,
    service: &mut ClusterService<K>,
    link: Link<D::Input, D::Output>,
) -> LinkEnd
    ensures { IsServed result (D.Input.shown link.source) (D.Output.shown link.sink) service.old service.new (D.shown door.old) (D.shown door.new) }
{
    let Link {
        mut source,
        mut sink,
    } = link;
    let end = serve_link(alloc, &mut source, &mut sink, service);
    drop(source);
    door.take_back(sink);
    service.settle(SETTLED_TURNS);
    end
}

/// Notices an end that isn't closed.
fn tell<N: Notices>(notices: &N, end: LinkEnd) {
    if end != LinkEnd::Closed {
        notices.link_ended(end);
    }
}
