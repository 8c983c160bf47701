// That sessions and workers go on beside one another: clients that wait for what another thread does, and give up in the end.
ghost use Rattle.std.specs.Prelude.{◌≡◌, ◌≤◌, None, true, length};
ghost use Rattle.hx_turn.specs.Passes.{IsOutside, all_rights};

use crate::memory::{Ends, empty_cluster};
use hx_door::{Door, DoorFault, Link};
use hx_ports::{ReadFault, Sink, Source, SureKeeper, SureSource, WriteFault};
use hx_shared::{Seat, Shared};
use hx_team::{ServePlan, Served, serve};
use std::alloc::{AllocError, Global};
use std::collections::VecDeque;
use std::hash::RandomState;
use std::sync::atomic::{AtomicBool, Ordering};
use std::sync::{Arc, Wait};
use std::test::Fail;
use std::thread;
use std::thread::Threads;

/// How often a client looks whether it may go on.
const MOST_LOOKS: u64 = 10_000_000;

/// How often a client asks again.
const MOST_ASKS: u64 = 100_000;

/// What two clients ask. The first one waits until the second one was answered.
const TWO: [&str; 2] = [
    "GET /api/v1/namespaces/first HTTP/1.1\r\n\r\n",
    "GET /api/v1/namespaces/second HTTP/1.1\r\n\r\n",
];

/// What one client asks at first: a tree of two namespaces, and a Role in the root.
const TREE: &str =
    "POST /api/v1/namespaces HTTP/1.1\r\nContent-Length: 65\r\n\r\n{\"apiVersion\":\"v1\",\"kind\":\"Namespace\",\"metadata\":{\"name\":\"acme\"}}POST /api/v1/namespaces HTTP/1.1\r\nContent-Length: 65\r\n\r\n{\"apiVersion\":\"v1\",\"kind\":\"Namespace\",\"metadata\":{\"name\":\"team\"}}POST /apis/hnc.x-k8s.io/v1alpha2/namespaces/team/hierarchyconfigurations HTTP/1.1\r\nContent-Length: 127\r\n\r\n{\"apiVersion\":\"hnc.x-k8s.io/v1alpha2\",\"kind\":\"HierarchyConfiguration\",\"metadata\":{\"name\":\"hierarchy\"},\"spec\":{\"parent\":\"acme\"}}POST /apis/rbac.authorization.k8s.io/v1/namespaces/acme/roles HTTP/1.1\r\nContent-Length: 83\r\n\r\n{\"apiVersion\":\"rbac.authorization.k8s.io/v1\",\"kind\":\"Role\",\"metadata\":{\"name\":\"r\"}}";

/// What it asks then, until the copy is there.
const COPY: &str =
    "GET /apis/rbac.authorization.k8s.io/v1/namespaces/team/roles/r HTTP/1.1\r\n\r\n";

/// Is up once a client had the reply that is waited for.
type Flag = Arc<AtomicBool>;

/// Whether a flag comes up while it is looked at so often.
fn comes_up(flag: &Flag) -> bool {
    for _ in 0..MOST_LOOKS {
        if flag.load(Ordering::SeqCst) {
            return true;
        }
        thread::yield_now();
    }
    false
}

/// What a client sends: at first some bytes, which may wait for a flag; then one request again and again, until the flag is up.
struct Client {
    flag: Flag,
    waits: bool,
    first: SureSource,
    again: &'static str,
    asks: u64,
}

impl Drop for Client {
    fn drop(self) {
        let Client {
            flag: _,
            waits: _,
            first: _,
            again: _,
            asks: _,
        } = self;
    }
}

impl Client {
    /// One request more, where the flag isn't up and the client hasn't asked too often.
    fn ask_again(&mut self, into: &mut [u8]) -> usize
        ensures { result ≤ length into.new }
    {
        if self.asks == 0 || self.flag.load(Ordering::SeqCst) {
            return 0;
        }
        self.asks -= 1;
        thread::yield_now();
        let again = self.again.as_bytes();
        let count = again.len().min(into.len());
        into[..count].copy_from_slice(&again[..count]);
        count
    }
}

impl Source for Client {
    ghost shown = { λ s. record { left = None; faults = 0 } };

    fn read(&mut self, into: &mut [u8]) -> Result<usize, ReadFault> {
        if self.waits && !comes_up(&self.flag) {
            return Ok(0);
        }
        let count = self.first.read(into)?;
        if count > 0 {
            return Ok(count);
        }
        Ok(self.ask_again(into))
    }
}

/// What hears the replies to a client, and puts a flag up at one that begins so.
struct Listener {
    flag: Flag,
    wanted: &'static str,
}

impl Drop for Listener {
    fn drop(self) {
        let Listener { flag: _, wanted: _ } = self;
    }
}

impl Sink for Listener {
    ghost shown = { λ s. record { written = None; faults = 0; stalls = 0 } };

    fn write(&mut self, from: &[u8]) -> Result<usize, WriteFault> {
        if from.starts_with(self.wanted.as_bytes()) {
            self.flag.store(true, Ordering::SeqCst);
        }
        Ok(from.len())
    }
}

/// A door with these clients.
struct Clients {
    coming: VecDeque<Link<Client, Listener>>,
    handed: u64,
    out: u64,
}

impl Drop for Clients {
    fn drop(self) {
        let Clients {
            coming: _,
            handed: _,
            out: _,
        } = self;
    }
}

impl Door for Clients {
    ghost use Rattle.hx_door.specs.Shown.{is_over};

    type Input = Client;

    type Output = Listener;

    ghost shown = { λ d. record { faults = 0; handed = d.handed; out = d.out; closed = is_over d.coming.items; coming = None; written = None } };

    fn listen(&mut self, _address: &str) -> Result<(), DoorFault> {
        Ok(())
    }

    fn accept(&mut self) -> Result<Option<Link<Client, Listener>>, DoorFault> {
        let Some(link) = self.coming.pop_front() else {
            return Ok(None);
        };
        self.handed = self.handed.saturating_add(1);
        self.out = self.out.saturating_add(1);
        Ok(Some(link))
    }

    fn take_back(&mut self, sink: Listener) {
        self.out = self.out.saturating_sub(1);
        drop(sink);
    }
}

/// The link of a client.
fn link(
    alloc: Global,
    (first, waits): (&str, Option<&Flag>),
    (again, asks): (&'static str, u64),
    (wanted, flag): (&'static str, &Flag),
) -> Result<Link<Client, Listener>, AllocError> {
    let source = Client {
        flag: waits.unwrap_or(flag).clone()?,
        waits: waits.is_some(),
        first: SureSource::new(Vec::from_slice(alloc, first.as_bytes())?, 4096),
        again,
        asks,
    };
    let sink = Listener {
        flag: flag.clone()?,
        wanted,
    };
    Ok(Link { source, sink })
}

/// A door of which no link was handed out yet.
fn door(coming: VecDeque<Link<Client, Listener>>) -> Clients {
    Clients {
        coming,
        handed: 0,
        out: 0,
    }
}

/// Serves all clients of a door, and answers how many there were.
fn serve_door<R: Threads + Wait + Sync>(
    rt: &R,
    alloc: Global,
    shared: &Shared<SureKeeper>,
    seat: Seat<SureKeeper>,
    door: Clients,
    plan: ServePlan,
) -> (Seat<SureKeeper>, u64)
    requires own { seat.table_id ≡ shared.now }
    requires outside { IsOutside seat.me }
    requires first { seat.me.0.first ≡ true }
    requires whole { seat.me.0.rights ≡ all_rights }
    ensures own { result.0.table_id ≡ shared.now }
    ensures outside { IsOutside result.0.me }
    ensures whole { result.0.me.0.rights ≡ all_rights }
{
    let Served { seat, door, end } = serve(rt, alloc, shared, seat, door, plan, &Ends::new());
    drop(door);
    (seat, end.unwrap_or(0))
}

/// Serves a door over a cluster without objects, and answers how many clients there were.
fn served<R: Threads + Wait + Sync>(
    rt: &R,
    alloc: Global,
    keys: RandomState,
    door: Clients,
    plan: ServePlan,
) -> Result<u64, AllocError> {
    let cluster = empty_cluster(alloc, keys)?;
    match Shared::make(alloc, cluster) {
        Err(cluster) => {
            drop(cluster.close());
            drop(door);
            Err(AllocError)
        }
        Ok((shared, seat)) => {
            let (seat, count) = serve_door(rt, alloc, &shared, seat, door, plan);
            drop(shared.close(seat).close());
            Ok(count)
        }
    }
}

/// A flag that is down.
fn flag(alloc: Global) -> Result<Flag, AllocError> {
    match Arc::new(alloc, AtomicBool::new(false)) {
        Ok(flag) => Ok(flag),
        Err(_) => Err(AllocError),
    }
}

/// Whether two clients were answered, of which the first one waits until the second one was.
fn are_beside<R: Threads + Wait + Sync>(
    rt: &R,
    alloc: Global,
    keys: RandomState,
) -> Result<bool, AllocError> {
    let (first, second) = (flag(alloc)?, flag(alloc)?);
    let mut coming = VecDeque::new(alloc);
    coming.push_back(link(
        alloc,
        (TWO[0], Some(&second)),
        ("", 0),
        ("HTTP/1.1 404", &first),
    )?)?;
    coming.push_back(link(alloc, (TWO[1], None), ("", 0), ("HTTP/1.1 404", &second))?)?;
    let plan = ServePlan {
        sessions: 2,
        workers: 2,
        links: 2,
    };
    let count = served(rt, alloc, keys, door(coming), plan)?;
    Ok(count == 2 && first.load(Ordering::SeqCst) && second.load(Ordering::SeqCst))
}

/// Whether a client sees the copy of a Role come while its link is open.
fn works_beside<R: Threads + Wait + Sync>(
    rt: &R,
    alloc: Global,
    keys: RandomState,
) -> Result<bool, AllocError> {
    let copied = flag(alloc)?;
    let mut coming = VecDeque::new(alloc);
    coming.push_back(link(
        alloc,
        (TREE, None),
        (COPY, MOST_ASKS),
        ("HTTP/1.1 200", &copied),
    )?)?;
    let plan = ServePlan {
        sessions: 1,
        workers: 1,
        links: 1,
    };
    let count = served(rt, alloc, keys, door(coming), plan)?;
    Ok(count == 1 && copied.load(Ordering::SeqCst))
}

#[test]
fn sessions_are_beside_one_another(rt: HostRuntime) -> Result<(), Fail> {
    let keys = RandomState::new(&rt)?;
    assert!(rt; are_beside(&rt, rt.alloc(), keys)?);
    Ok(())
}

#[test]
fn a_worker_is_beside_a_session(rt: HostRuntime) -> Result<(), Fail> {
    let keys = RandomState::new(&rt)?;
    assert!(rt; works_beside(&rt, rt.alloc(), keys)?);
    Ok(())
}
