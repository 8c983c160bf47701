// Writes are marked.
ghost use Rattle.std.specs.Prelude.{◌≡◌, ◌++◌, IfOk, OnOk, flat_map};
ghost use Rattle.hx_model.specs.Writes.{MayWriteAll};
ghost use Rattle.hx_marks.specs.Before.{marks_before_among};
ghost use Rattle.hx_marks.specs.Reads.{state_in};
ghost use Rattle.hx_marks.specs.Halves.{Covers, IsWithin};
ghost use Rattle.hx_marks.specs.Owners.{TellOwners};
ghost use Rattle.hx_marks.specs.Law.{all_marks};

use crate::current::Current;
use crate::endings::Endings;
use crate::kinds::marks_by;
use crate::namespaces::following_marks;
use hx_forest::Forest;
use hx_model::Key;
use hx_object::NoMemory;
use hx_state::{IndexedState, object_in};
use hx_store::Change;

/// Keys that writes mark, by the state before them: all whose wanted write or guards the writes change. A key may come more than once.
pub fn marks(state: &IndexedState, writes: &[Change]) -> Result<Vec<Key>, NoMemory>
    requires { MayWriteAll state.now.state writes.now }

    // Of the writes of a request or of a key: no other key wants something else, or on other guards, and the machine lets these wait.
    ensures covers { IfOk result (λ keys. Covers state.now.state writes.now keys.items) }
    ensures within { IfOk result (λ keys. IsWithin state.now.state writes.now keys.items) }
{
    state.law_of_validity();
    listed_marks(state, writes)
}

/// The keys that the law of marks names for writes, in its order.
fn listed_marks(state: &IndexedState, writes: &[Change]) -> Result<Vec<Key>, NoMemory>
    requires { MayWriteAll state.now.state writes.now }
    ensures { IfOk result (λ keys. keys.items ≡ all_marks state.now.state writes.now) }
{
    state.law_of_validity();
    let mut keys = Vec::new(state.allocator());
    let endings = Endings::of(state.allocator(), writes)?;
    let current = Current::of(state);
    marks_of_all(&current, state.owners(), &endings, writes, &mut keys)?;
    Ok(keys)
}

fn marks_of_all(
    current: &Current,
    owners: &Forest,
    endings: &Endings,
    writes: &[Change],
    keys: &mut Vec<Key>,
) -> Result<(), NoMemory>
    requires owners { TellOwners current.now.store.now.objects owners.now.nodes }
    ensures { OnOk result (keys.new.items ≡ keys.old.items ++ flat_map (marks_before_among (state_in current.now) endings.now) writes.now) }
{
    for write in writes {
        marks_among(current, owners, endings, write, keys)?;
    }
    Ok(())
}

/// Marks what a write can change, among others: where its namespace leaves together with its parent, that one marks what took part below both.
fn marks_among(
    current: &Current,
    owners: &Forest,
    endings: &Endings,
    write: &Change,
    keys: &mut Vec<Key>,
) -> Result<(), NoMemory>
    requires owners { TellOwners current.now.store.now.objects owners.now.nodes }
    ensures { OnOk result (keys.new.items ≡ keys.old.items ++ marks_before_among (state_in current.now) endings.now write.now) }
{
    let id = write.id();
    let old = object_in(current.store.get(id));
    let new = object_in(write.object());
    if endings.lead_out(current.forest, id, old, new) {
        return following_marks(current, &id.name, keys);
    }
    marks_by(current, owners, id, old, new, keys)
}
