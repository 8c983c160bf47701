// The batches of writes.
ghost use Rattle.std.specs.Prelude.{◌≡◌, IfOk};
ghost use Rattle.hx_core.specs.Rows.{batch_of};

use hx_model::Event;
use hx_object::{List, NoMemory};
use hx_ports::Batch;
use hx_store::Change;
use std::alloc::Global;

/// The schema of the rows.
pub const SCHEMA: u64 = 2;

/// The batch of writes that have this version, with their events. The keeper gets the objects themselves, and forms their keys and texts where it wants them.
pub fn batch_of(
    alloc: Global,
    writes: &[Change],
    version: u64,
    events: &[Event],
) -> Result<Batch, NoMemory>
    ensures { IfOk result (λ batch. batch ≡ batch_of writes.now version events.now) }
{
    let mut puts = Vec::new(alloc);
    let mut cuts = Vec::new(alloc);
    for change in writes {
        match change.object() {
            Some(object) => puts.push(object.share()?)?,
            None => cuts.push(change.id().clone()?)?,
        }
    }
    let events = share_all(alloc, events)?;
    Ok(Batch {
        version,
        puts: List::of(puts),
        cuts: List::of(cuts),
        events,
    })
}

/// The events again, whose objects have one owner more each.
fn share_all(alloc: Global, events: &[Event]) -> Result<List<Event>, NoMemory>
    ensures { IfOk result (λ shared. shared ≡ events.now) }
{
    let mut shared = Vec::with_capacity(alloc, events.len())?;
    for event in events {
        shared.push(event.share()?)?;
    }
    Ok(List::of(shared))
}
