// The keys that writes mark: one by one, and those of an object as a whole.
ghost use Rattle.std.specs.Prelude.{◌≡◌, ◌≤◌, ◌++◌, true, None, IfOk, IfSome, IfNone, filter, length, not, option_copied};
ghost use Rattle.hx_model.specs.Forest.{Forest as forest};
ghost use Rattle.hx_model.specs.Keys.{same_key};
ghost use Rattle.hx_model.specs.State.{State, state_after};
ghost use Rattle.hx_model.specs.Tree.{forest_of};
ghost use Rattle.hx_model.specs.Valid.{IsValid};
ghost use Rattle.hx_model.specs.Writes.{MayWriteAll};
ghost use Rattle.hx_marks.specs.Below.{open_below};
ghost use Rattle.hx_line.specs.Line.{IsRanked};
ghost use Rattle.hx_queue.specs.Workers.{IsMarkedBy};
ghost use Rattle.hx_core.specs.Committing.{AreMarksBut};
ghost use Rattle.hx_core.specs.Reaching.{HasRoot, IsScopeOf, IsReady, IsSpreadable, MayMark, whole_keys};

use hx_marks::{SpreadMarks, keeps_tree, marks, open_below, spread_marks};
use hx_model::Key;
use hx_object::{Id, NoMemory, Text};
use hx_queue::Workers;
use hx_state::IndexedState;
use hx_store::Change;

/// What writes mark.
#[derive(Drop)]
pub struct Marks {
    pub keys: Vec<Key>,
    /// The object whose keys are marked in all that takes part in its namespace's subtree.
    pub spread: Option<Id>,
}

/// Marks what writes mark. It takes no memory.
pub fn mark(workers: &mut Workers, marks: Marks)
    requires room { length marks.keys.items ≤ workers.old.spare }
    requires spread { MayMark marks.spread workers.old }
    ensures marked { IsMarkedBy (marks.keys.items ++ whole_keys marks.spread workers.old.scope) workers.old.seen workers.new.seen }
    ensures scope { workers.new.scope ≡ workers.old.scope }
    ensures ranks { workers.new.ranks ≡ workers.old.ranks }
{
    let Marks { keys, spread } = marks;
    workers.mark_all(keys);
    mark_whole(workers, spread);
}

/// Marks the keys of an object as a whole, if there is one.
fn mark_whole(workers: &mut Workers, spread: Option<Id>)
    requires { MayMark spread workers.old }
    ensures marked { IsMarkedBy (whole_keys spread workers.old.scope) workers.old.seen workers.new.seen }
    ensures scope { workers.new.scope ≡ workers.old.scope }
    ensures ranks { workers.new.ranks ≡ workers.old.ranks }
{
    match spread {
        Some(id) => workers.mark_spread(id),
        None => {}
    }
}

/// What writes mark, but for one key, with room for it.
///
/// A source that is sent marks its key in all of a subtree, at the cost of one.
pub fn marks_of(
    state: &IndexedState,
    workers: &mut Workers,
    writes: &[Change],
    own: Option<&Key>,
) -> Result<Marks, NoMemory>
    requires valid { IsValid state.now.state }
    requires may { MayWriteAll state.now.state writes.now }
    requires scope { IsScopeOf (forest_of state.now.state) workers.old.scope }
    requires ranks { IsRanked (forest_of state.now.state) workers.old.ranks }
    ensures ready { IfOk result (λ marks. IsReady state.now.state writes.now (option_copied own.entry) marks.keys.items marks.spread workers.new) }
    ensures scope { IsScopeOf (forest_of state.now.state) workers.new.scope }
    ensures ranks { IsRanked (forest_of state.now.state) workers.new.ranks }
    ensures seen { workers.new.seen ≡ workers.old.seen }
{
    match own {
        Some(_) => each_of(state, workers, writes, own),
        None => any_of(state, workers, writes),
    }
}

/// What writes mark, of which none is left out.
fn any_of(state: &IndexedState, workers: &mut Workers, writes: &[Change]) -> Result<Marks, NoMemory>
    requires valid { IsValid state.now.state }
    requires may { MayWriteAll state.now.state writes.now }
    requires scope { IsScopeOf (forest_of state.now.state) workers.old.scope }
    requires ranks { IsRanked (forest_of state.now.state) workers.old.ranks }
    ensures ready { IfOk result (λ marks. IsReady state.now.state writes.now None marks.keys.items marks.spread workers.new) }
    ensures scope { IsScopeOf (forest_of state.now.state) workers.new.scope }
    ensures ranks { IsRanked (forest_of state.now.state) workers.new.ranks }
    ensures seen { workers.new.seen ≡ workers.old.seen }
{
    match whole_of(state, workers, writes)? {
        Some(marks) => Ok(marks),
        None => each_of(state, workers, writes, None),
    }
}

/// What writes mark, key by key. Where they change the tree, nothing more is marked as a whole until what was marked so stands in line.
fn each_of(
    state: &IndexedState,
    workers: &mut Workers,
    writes: &[Change],
    own: Option<&Key>,
) -> Result<Marks, NoMemory>
    requires valid { IsValid state.now.state }
    requires may { MayWriteAll state.now.state writes.now }
    requires scope { IsScopeOf (forest_of state.now.state) workers.old.scope }
    requires ranks { IsRanked (forest_of state.now.state) workers.old.ranks }
    ensures ready { IfOk result (λ marks. IsReady state.now.state writes.now (option_copied own.entry) marks.keys.items marks.spread workers.new) }
    ensures scope { IsScopeOf (forest_of state.now.state) workers.new.scope }
    ensures ranks { IsRanked (forest_of state.now.state) workers.new.ranks }
    ensures seen { workers.new.seen ≡ workers.old.seen }
{
    outdate_for(workers, writes);
    let keys = keys_of(state, workers, writes, own)?;
    Ok(Marks { keys, spread: None })
}

/// Where writes change the tree, the reach is outdated, and so is how deep keys lie.
fn outdate_for(workers: &mut Workers, writes: &[Change])
    ensures seen { workers.new.seen ≡ workers.old.seen }
    ensures before { (f : forest) → IsScopeOf f workers.old.scope → IsScopeOf f workers.new.scope }
    ensures after { (s : State) → IsScopeOf (forest_of s) workers.old.scope → IsScopeOf (forest_of (state_after s writes.now)) workers.new.scope }
    ensures ranked { (f : forest) → IsRanked f workers.old.ranks → IsRanked f workers.new.ranks }
    ensures ranked_after { (s : State) → IsRanked (forest_of s) workers.old.ranks → IsRanked (forest_of (state_after s writes.now)) workers.new.ranks }
{
    if keeps_tree(writes) {
        return;
    }
    workers.outdate();
}

/// The keys that writes mark, but for one, with room for them.
fn keys_of(
    state: &IndexedState,
    workers: &mut Workers,
    writes: &[Change],
    own: Option<&Key>,
) -> Result<Vec<Key>, NoMemory>
    requires valid { IsValid state.now.state }
    requires may { MayWriteAll state.now.state writes.now }
    ensures keys { IfOk result (λ keys. AreMarksBut state.now.state writes.now (option_copied own.entry) keys.items) }
    ensures room { IfOk result (λ keys. length keys.items ≤ workers.new.spare) }
    ensures seen { workers.new.seen ≡ workers.old.seen }
    ensures scope { workers.new.scope ≡ workers.old.scope }
    ensures ranks { workers.new.ranks ≡ workers.old.ranks }
{
    let mut keys = marks(state, writes)?;
    leave_out(&mut keys, own);
    match workers.reserve(keys.len()) {
        Ok(()) => Ok(keys),
        Err(NoMemory) => {
            drop(keys);
            Err(NoMemory)
        }
    }
}

/// What writes mark as a whole and besides, with room for it. There is none where all are marked one by one.
fn whole_of(
    state: &IndexedState,
    workers: &mut Workers,
    writes: &[Change],
) -> Result<Option<Marks>, NoMemory>
    requires valid { IsValid state.now.state }
    requires may { MayWriteAll state.now.state writes.now }
    requires scope { IsScopeOf (forest_of state.now.state) workers.old.scope }
    requires ranks { IsRanked (forest_of state.now.state) workers.old.ranks }
    ensures ready { IfOk result (λ o. IfSome o (λ marks. IsReady state.now.state writes.now None marks.keys.items marks.spread workers.new)) }
    ensures scope { IsScopeOf (forest_of state.now.state) workers.new.scope }
    ensures ranks { IsRanked (forest_of state.now.state) workers.new.ranks }
    ensures seen { workers.new.seen ≡ workers.old.seen }
{
    let Some(SpreadMarks { id, others }) = spread_marks(state, writes)? else {
        return Ok(None);
    };
    match make_room(state, workers, &id, others.len()) {
        Ok(true) => Ok(Some(Marks {
            keys: others,
            spread: Some(id),
        })),
        Ok(false) => {
            drop(others);
            drop(id);
            Ok(None)
        }
        Err(NoMemory) => {
            drop(others);
            drop(id);
            Err(NoMemory)
        }
    }
}

/// Whether the keys of an object may be marked as a whole. There is room for them then, and for so many others.
fn make_room(
    state: &IndexedState,
    workers: &mut Workers,
    id: &Id,
    others: usize,
) -> Result<bool, NoMemory>
    requires valid { IsValid state.now.state }
    requires scope { IsScopeOf (forest_of state.now.state) workers.old.scope }
    ensures room { IfOk result (λ made. made ≡ true → others ≤ workers.new.spare) }
    ensures spread { IfOk result (λ made. made ≡ true → IsSpreadable id.now workers.new) }
    ensures scope { IsScopeOf (forest_of state.now.state) workers.new.scope }
    ensures ranks { workers.new.ranks ≡ workers.old.ranks }
    ensures seen { workers.new.seen ≡ workers.old.seen }
{
    workers.reserve_spread()?;
    if !reaches(state, workers, &id.ns)? {
        return Ok(false);
    }
    if !workers.may_spread(id) {
        return Ok(false);
    }
    workers.reserve(others)?;
    Ok(true)
}

/// Whether the reach is that of a namespace. It is made so where nothing is marked as a whole.
fn reaches(state: &IndexedState, workers: &mut Workers, name: &Text) -> Result<bool, NoMemory>
    requires valid { IsValid state.now.state }
    requires scope { IsScopeOf (forest_of state.now.state) workers.old.scope }
    ensures at { IfOk result (λ at. at ≡ true → HasRoot name.now workers.new.scope) }
    ensures scope { IsScopeOf (forest_of state.now.state) workers.new.scope }
    ensures ranks { workers.new.ranks ≡ workers.old.ranks }
    ensures seen { workers.new.seen ≡ workers.old.seen }
    ensures places { workers.new.places ≡ workers.old.places }
{
    if has_root(workers, name) {
        return Ok(true);
    }
    if workers.is_spread() {
        return Ok(false);
    }
    let root = name.clone()?;
    let names = open_below(state.allocator(), state.forest(), name)?;
    workers.set_scope(root, names);
    Ok(true)
}

/// Whether the reach is that of a namespace.
fn has_root(workers: &Workers, name: &Text) -> bool
    ensures { result ≡ true → HasRoot name.now workers.now.scope }
{
    match workers.root() {
        Some(root) => root.as_str() == name.as_str(),
        None => false,
    }
}

/// Leaves a key out of others.
fn leave_out(keys: &mut Vec<Key>, own: Option<&Key>)
    ensures some { IfSome (option_copied own.entry) (λ key. keys.new.items ≡ filter (λ k. not (same_key key k)) keys.old.items) }
    ensures none { IfNone (option_copied own.entry) (keys.new.items ≡ keys.old.items) }
{
    match own {
        Some(key) => leave_out_key(keys, key),
        None => {}
    }
}

fn leave_out_key(keys: &mut Vec<Key>, key: &Key)
    ensures { keys.new.items ≡ filter (λ k. not (same_key key.now k)) keys.old.items }
{
    keys.retain(|other| is_other(key, other));
}

fn is_other(key: &Key, other: &Key) -> bool
    ensures { result ≡ not (same_key key.now other.now) }
{
    !is_same(key, other)
}

#[tactic(auto, unfolding(hx_model::specs::Keys::same_key))]
fn is_same(key: &Key, other: &Key) -> bool
    ensures { result ≡ same_key key.now other.now }
{
    key == other
}
