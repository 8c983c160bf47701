// Writes that mark a whole subtree at once.
ghost use Rattle.std.specs.Prelude.{◌≡◌, ◌++◌, true, IfOk, IfSome};
ghost use Rattle.std.specs.List.{list_all};
ghost use Rattle.hx_object.specs.Kinds.{can_be_copied};
ghost use Rattle.hx_model.specs.State.{State, state_after};
ghost use Rattle.hx_model.specs.Tree.{forest_of};
ghost use Rattle.hx_model.specs.Writes.{MayWriteAll};
ghost use Rattle.hx_marks.specs.Below.{open_below};
ghost use Rattle.hx_marks.specs.Halves.{Covers, IsWithin};
ghost use Rattle.hx_marks.specs.Reads.{state_in};
ghost use Rattle.hx_marks.specs.Spread.{IsSpread, is_beside_tree, spread_keys};

use crate::current::Current;
use crate::kinds::beside_marks;
use crate::objects::is_any_sent;
use hx_forest::Forest;
use hx_model::Key;
use hx_object::{Id, NoMemory};
use hx_state::{IndexedState, mode_at, object_in};
use hx_store::Change;

/// What a write of a source marks, by its subtree as a whole.
#[derive(Drop)]
pub struct SpreadMarks {
    /// The object. It stands for the keys of its kind and name in all namespaces of its own's subtree that take part.
    pub id: Id,
    /// The other keys that the write marks.
    pub others: Vec<Key>,
}

/// Keys of which the same is promised as of those of [`marks`](crate::marks), with one identity in place of those in a subtree. There are some where one object is written alone, of a kind that can be copied, which is sent before or after the write and has namespaces below its own.
///
/// It costs what the other keys cost, and nothing for the subtree.
pub fn spread_marks(
    state: &IndexedState,
    writes: &[Change],
) -> Result<Option<SpreadMarks>, NoMemory>
    requires { MayWriteAll state.now.state writes.now }
    ensures covers { IfOk result (λ o. IfSome o (λ spread. Covers state.now.state writes.now (spread.others.items ++ spread_keys (open_below (forest_of state.now.state) spread.id.ns) spread.id))) }
    ensures within { IfOk result (λ o. IfSome o (λ spread. IsWithin state.now.state writes.now (spread.others.items ++ spread_keys (open_below (forest_of state.now.state) spread.id.ns) spread.id))) }

    // The write leaves the tree.
    ensures tree { IfOk result (λ o. IfSome o (λ spread. forest_of (state_after state.now.state writes.now) ≡ forest_of state.now.state)) }
{
    let [write] = writes else {
        return Ok(None);
    };
    state.law_of_validity();
    spread_of(&Current::of(state), write)
}

fn spread_of(current: &Current, write: &Change) -> Result<Option<SpreadMarks>, NoMemory>
    ensures { IfOk result (λ o. IfSome o (λ spread. IsSpread (state_in current.now) write.now spread.id spread.others.items)) }
{
    let id = write.id();
    if !may_spread(current.forest, id) {
        return Ok(None);
    }
    let old = object_in(current.store.get(id));
    let new = object_in(write.object());
    if !is_any_sent(mode_at(current.store, id.kind), old, new) {
        return Ok(None);
    }
    let mut others = Vec::new(current.store.allocator());
    beside_marks(current, id, old, new, &mut others)?;
    Ok(Some(SpreadMarks {
        id: id.clone()?,
        others,
    }))
}

/// Whether objects of this kind are sent at all, and something lies below the namespace. It looks at no object.
fn may_spread(forest: &Forest, id: &Id) -> bool
    ensures { result ≡ true → can_be_copied id.now.kind ≡ true }
{
    id.kind.can_be_copied() && !forest.children(&id.ns).is_empty()
}

/// Whether writes leave the tree as it is: none is of a Namespace or a HierarchyConfiguration.
pub fn keeps_tree(writes: &[Change]) -> bool
    ensures { result ≡ true → (s : State) → forest_of (state_after s writes.now) ≡ forest_of s }
{
    are_beside_tree(writes)
}

fn are_beside_tree(writes: &[Change]) -> bool
    ensures { result ≡ list_all is_beside_tree writes.now }
{
    for write in writes {
        if !is_beside_tree(write) {
            return false;
        }
    }
    true
}

/// Whether a write is of no Namespace, and of no HierarchyConfiguration.
fn is_beside_tree(write: &Change) -> bool
    ensures { result ≡ is_beside_tree write.now }
{
    let kind = write.id().kind;
    !kind.is_namespace() && !kind.is_hierarchy()
}
