// Changes of the counters, made.
ghost use Rattle.std.specs.Prelude.{◌≡◌, ◌+◌, ◌≤◌, [], length, IfOk};
ghost use Rattle.hx_quota.specs.Counters.{shifted};
ghost use Rattle.hx_quota.specs.Counting.{changed, changed_all, MayChange, AreRegular};
ghost use Rattle.hx_quota.specs.Inside.{OwnFit};
ghost use Rattle.hx_quota.specs.SubtreeUsage.{HasTotals, IsReady};

use crate::change::CounterChange;
use crate::counters::Counters;
use crate::entry::{Delta, place_of};
use crate::ledger::Hints;
use crate::shifting::shift;
use hx_forest::Forest;
use hx_object::{NoMemory, Text};

/// Makes changes, the first one first. It takes no memory. The forest hints at where namespaces lie.
pub(crate) fn make_all(
    counters: &mut Counters,
    totals: &mut [u128; 15],
    forest: &Forest,
    changes: Vec<CounterChange>,
)
    requires { IsReady counters.old totals.old changes.items }
    ensures entries { counters.new.entries ≡ changed_all changes.items counters.old.entries }
    ensures ready { IsReady counters.new totals.new [] }
{
    for change in changes {
        make(counters, totals, forest, change);
    }
}

/// Makes a change. It takes no memory.
fn make(counters: &mut Counters, totals: &mut [u128; 15], forest: &Forest, change: CounterChange)
    requires regular { AreRegular counters.old.entries }
    requires totals { HasTotals totals.old counters.old.entries }
    requires may { MayChange change counters.old.entries }
    requires room { 1 ≤ counters.old.spare }
    ensures entries { counters.new.entries ≡ changed change counters.old.entries }
    ensures totals { HasTotals totals.new counters.new.entries }
    ensures room { counters.old.spare ≤ counters.new.spare + 1 }
{
    match change {
        CounterChange::Add { name } => counters.add(name),
        CounterChange::Move { moved, parent } => {
            let hints = hints_of(forest, &moved, parent.as_ref());
            counters.move_under(hints, &moved, parent.as_ref());
        }
        CounterChange::Shift { ns, deltas } => {
            shift(totals, deltas.as_slice());
            counters.shift_at(forest.place_of(&ns), &ns, deltas.as_slice());
        }
        CounterChange::Remove { name } => counters.remove(&name),
    }
}

/// Where a namespace that is moved, and its new parent, may lie. The forest adds namespaces, and takes them out, in the same order as the counters.
fn hints_of(forest: &Forest, moved: &Text, parent: Option<&Text>) -> Hints {
    let parent = match parent {
        Some(parent) => forest.place_of(parent),
        None => None,
    };
    Hints {
        moved: forest.place_of(moved),
        parent,
    }
}

/// Totals after deltas. A sum that doesn't fit 128 bits fits no memory, either.
pub(crate) fn totals_after(totals: &[u128; 15], deltas: &[Delta]) -> Result<[u128; 15], NoMemory>
    ensures after { IfOk result (λ after. after ≡ shifted deltas.now totals.now) }
    ensures fits { IfOk result (λ after. OwnFit after) }
    ensures long { length totals.now ≡ 15 }
{
    let mut after = *totals;
    for delta in deltas {
        let place = place_of(delta.resource);
        after[place] = after[place]
            .saturating_sub(delta.old)
            .checked_add(delta.new)
            .ok_or(NoMemory)?;
    }
    Ok(after)
}
