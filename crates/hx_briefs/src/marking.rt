// The keys that want a write are marked.
ghost use Rattle.std.specs.Prelude.{◌≡◌, ◌++◌, [], OnOk, IfOk, filter, is_some};
ghost use Rattle.hx_model.specs.Keys.{is_among};
ghost use Rattle.hx_model.specs.Machine.{wants};
ghost use Rattle.hx_model.specs.Wanted.{wanted_write};
ghost use Rattle.hx_model.specs.declared.key.Key.{Key as key_of};
ghost use Rattle.hx_queue.specs.Workers.{no_work};
ghost use Rattle.hx_reconcile.specs.Briefs.{facts_of};
ghost use Rattle.hx_briefs.specs.Wants.{namespaces, wanting_of, wanting_in};

use crate::briefs::copy_of;
use crate::facts::facts_of;
use hx_marks::keys_of;
use hx_model::Key;
use hx_object::{Kind, List, NoMemory, Shared, Text};
use hx_queue::Workers;
use hx_reconcile::{Brief, Plan, SharedBrief, plan};
use hx_state::IndexedState;

/// Marks the keys that want a write one by one, and no other ones.
pub fn mark_wanting(state: &IndexedState, workers: &mut Workers) -> Result<(), NoMemory>
    requires idle { workers.old.seen ≡ no_work }
    ensures waiting { OnOk result ((k : key_of) → is_among k workers.new.seen.waiting ≡ wants state.now.state k) }
    ensures hands { OnOk result (workers.new.seen.hands ≡ []) }
    ensures again { OnOk result (workers.new.seen.again ≡ []) }
    ensures scope { workers.new.scope ≡ workers.old.scope }
    ensures ranks { workers.new.ranks ≡ workers.old.ranks }
{
    let wanting = wanting_keys(state)?;
    workers.reserve(wanting.len())?;
    workers.mark_all(wanting);
    Ok(())
}

/// The keys that want a write.
fn wanting_keys(state: &IndexedState) -> Result<Vec<Key>, NoMemory>
    ensures { IfOk result (λ keys. keys.items ≡ wanting_in state.now.state (namespaces state.now.state.objects)) }
{
    let mut wanting = Vec::new(state.allocator());
    let namespaces = state.store().list(Kind::Namespace, None)?;
    push_all(&mut wanting, state, namespaces.as_slice())?;
    Ok(wanting)
}

/// Adds the keys of some namespaces that want a write.
fn push_all(
    wanting: &mut Vec<Key>,
    state: &IndexedState,
    namespaces: &[Shared],
) -> Result<(), NoMemory>
    ensures { OnOk result (wanting.new.items ≡ wanting.old.items ++ wanting_in state.now.state namespaces.now) }
{
    for namespace in namespaces {
        push_wanting(wanting, state, &namespace.object().id.name)?;
    }
    Ok(())
}

/// Adds the keys of a namespace that want a write.
fn push_wanting(wanting: &mut Vec<Key>, state: &IndexedState, name: &Text) -> Result<(), NoMemory>
    ensures { OnOk result (wanting.new.items ≡ wanting.old.items ++ wanting_of state.now.state name.now) }
{
    let known = keys_of(state, name)?;
    keep_wanting(wanting, state, known)
}

/// Adds those of some keys that want a write.
fn keep_wanting(
    wanting: &mut Vec<Key>,
    state: &IndexedState,
    keys: Vec<Key>,
) -> Result<(), NoMemory>
    ensures { OnOk result (wanting.new.items ≡ wanting.old.items ++ filter (wants state.now.state) keys.items) }
{
    for key in keys {
        if wants(state, &key)? {
            wanting.push(key)?;
        }
    }
    Ok(())
}

/// Whether a key wants a write.
fn wants(state: &IndexedState, key: &Key) -> Result<bool, NoMemory>
    ensures { IfOk result (λ wants_it. wants_it ≡ wants state.now.state key.now) }
{
    let made = plan_of(state, key)?;
    Ok(does_write(&made))
}

/// What a key's plan writes now. It has no guards, since it is looked at alone.
fn plan_of(state: &IndexedState, key: &Key) -> Result<Plan, NoMemory>
    ensures { IfOk result (λ made. made.write ≡ wanted_write state.now.state key.now) }
{
    let brief = SharedBrief::new(state.allocator(), bare_brief(state, key)?)?;
    match plan(state.allocator(), brief) {
        Ok(made) => Ok(made),
        Err(_brief) => Err(NoMemory),
    }
}

/// What the plan of a key is made from, without its guards.
fn bare_brief(state: &IndexedState, key: &Key) -> Result<Brief, NoMemory>
    ensures key { IfOk result (λ brief. brief.key ≡ key.now) }
    ensures facts { IfOk result (λ brief. brief.facts ≡ facts_of state.now.state key.now) }
{
    Ok(Brief {
        key: copy_of(key)?,
        seen: state.version(),
        guards: List::of(Vec::new(state.allocator())),
        facts: facts_of(state, key)?,
    })
}

fn does_write(made: &Plan) -> bool
    ensures { result ≡ is_some made.now.write }
{
    made.write().is_some()
}
