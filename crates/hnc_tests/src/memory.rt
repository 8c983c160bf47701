// What tests begin with: a cluster over a keeper that can't fail, doors in memory, and a count of how links end.
ghost use Rattle.std.specs.Prelude.{◌≡◌, [], IfOk};

use hx_core::{Cluster, Unstarted};
use hx_door::{MemDoor, MemLine};
use hx_link::LinkEnd;
use hx_model::RunConfig;
use hx_object::List;
use hx_ports::{Keeper, MemSink, MemSource, Meta, SureKeeper};
use hx_serve::Notices;
use std::alloc::{AllocError, Global};
use std::hash::RandomState;
use std::sync::atomic::{AtomicU64, Ordering};

/// A cluster without objects.
pub(crate) fn empty_cluster(
    alloc: Global,
    keys: RandomState,
) -> Result<Cluster<SureKeeper>, AllocError>
    ensures { IfOk result (λ cluster. cluster.workers.hands ≡ []) }
{
    let meta = Meta {
        schema: 2,
        version: 0,
        rows: 0,
    };
    let mut keeper = SureKeeper::new(Vec::new(alloc), meta, keys);
    if keeper.attach("").is_err() {
        return Err(AllocError);
    }
    let config = RunConfig {
        excluded: List::of(Vec::new(alloc)),
        allow_skip: false,
    };
    match Cluster::start(alloc, keeper, config, keys) {
        Err(
            Unstarted {
                fault: _,
                damaged_key: _,
                keeper,
            },
        ) => {
            drop(keeper);
            Err(AllocError)
        }
        Ok(cluster) => Ok(cluster),
    }
}

/// How many bytes of a link are read at a time.
pub(crate) const READ_BYTES: usize = 7;

/// How many bytes are written to a link at a time.
pub(crate) const WRITE_BYTES: usize = 64;

/// The calls of a link that fail, a read and a write by their numbers. The first ones are number 1, so at 0 none fails.
#[derive(Clone, Copy)]
pub(crate) struct Breaks {
    pub(crate) read: u64,
    pub(crate) write: u64,
}

/// A link on which each call is answered.
pub(crate) const WHOLE: Breaks = Breaks { read: 0, write: 0 };

/// A link whose client sends these bytes.
fn line(alloc: Global, bytes: &[u8], breaks: Breaks) -> Result<MemLine, AllocError> {
    let reads = vec![in alloc; breaks.read; 1]?;
    let writes = vec![in alloc; breaks.write; 1]?;
    let source = MemSource::new(bytes.to_vec(alloc)?, READ_BYTES, reads);
    let sink = MemSink::new(Vec::with_capacity(alloc, 4096)?, WRITE_BYTES, writes);
    Ok(MemLine::new(source, sink))
}

/// A door of these links, of which the first one breaks.
pub(crate) fn door_of(
    alloc: Global,
    links: &[&str],
    breaks: Breaks,
) -> Result<MemDoor, AllocError> {
    let mut lines = Vec::new(alloc);
    let mut its = breaks;
    for bytes in links {
        lines.push(line(alloc, bytes.as_bytes(), its)?)?;
        its = WHOLE;
    }
    match MemDoor::new(lines, Vec::new(alloc)) {
        Ok(door) => Ok(door),
        Err(_) => Err(AllocError),
    }
}

/// Counts the links that ended otherwise than closed.
#[derive(Drop)]
pub(crate) struct Ends {
    count: AtomicU64,
}

impl Ends {
    pub(crate) fn new() -> Ends {
        Ends {
            count: AtomicU64::new(0),
        }
    }

    pub(crate) fn count(&self) -> u64 {
        self.count.load(Ordering::SeqCst)
    }
}

impl Notices for Ends {
    fn link_ended(&self, _end: LinkEnd) {
        self.count.fetch_add(1, Ordering::SeqCst);
    }
}
