// How many turns suffice to settle what is stored.
ghost use Rattle.std.specs.Prelude.{◌≡◌, ◌≤◌, IfOk, IfSome, length};
ghost use Rattle.hx_bound.specs.Bound.{turn_bound};
ghost use Rattle.hnc.specs.Generating.{keys_for, most_turns, turns_for};

use hx_core::Cluster;
use hx_object::{NoMemory, Shared};
use hx_ports::Keeper;

/// More turns than these aren't made: as many counted one by one would take centuries.
const MOST_TURNS: u64 = 1 << 62;

/// As many turns as suffice to settle a cluster, by what is stored and waits in it. A number that passes 2^62 counts as want of memory.
pub(crate) fn turns_enough<K: Keeper>(cluster: &Cluster<K>) -> Result<u64, NoMemory>
    ensures enough { IfOk result (λ turns. turn_bound cluster.now.state (length cluster.now.workers.waiting) ≤ turns) }
    ensures few { IfOk result (λ turns. turns ≤ most_turns) }
{
    let rows = cluster.rows()?;
    let counts = cluster.busy();
    match turns_for(count_of(&rows), counts.0) {
        Some(turns) if turns <= MOST_TURNS => Ok(turns),
        _ => Err(NoMemory),
    }
}

/// How many objects there are.
fn count_of(rows: &[Shared]) -> u64
    ensures { result ≡ length rows.now }
{
    rows.len() as u64
}

/// As many turns as suffice to settle so many objects, where so many keys wait, if that is a number below 2^64.
fn turns_for(objects: u64, waiting: u64) -> Option<u64>
    ensures { IfSome result (λ turns. turns ≡ turns_for objects waiting) }
{
    let keys = keys_for(objects)?;
    let writes = objects.checked_mul(2)?.checked_add(keys)?;
    let turns = keys.checked_add(waiting)?.checked_add(1)?;
    writes.checked_add(1)?.checked_mul(turns)
}

/// As many keys as so many objects can have, at most.
fn keys_for(objects: u64) -> Option<u64>
    ensures { IfSome result (λ keys. keys ≡ keys_for objects) }
{
    let copies = objects.checked_mul(2)?.checked_mul(objects)?;
    copies.checked_add(objects.checked_mul(9)?)
}
