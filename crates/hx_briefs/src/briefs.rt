// What plans are made from, copied out of a state.
ghost use Rattle.std.specs.Prelude.{◌≡◌, IfOk};
ghost use Rattle.hx_model.specs.declared.key.Key.TheVariants as key;
ghost use Rattle.hx_reconcile.specs.Briefs.{StandsFor};
ghost use Rattle.hx_briefs.specs.Briefing.{AreParts};

use crate::facts::{facts_of, purge_facts};
use crate::guards::{guards_of, purge_guards};
use hx_model::Key;
use hx_object::{NoMemory, Text};
use hx_reconcile::Brief;
use hx_state::IndexedState;

/// What the plan of a key is made from, as a state is.
#[tactic(auto, using(crate::proofs::Wanting::stands_for))]
pub fn brief_of(state: &IndexedState, key: &Key) -> Result<Brief, NoMemory>
    ensures key { IfOk result (λ brief. brief.key ≡ key.now) }
    ensures stands { IfOk result (λ brief. StandsFor brief state.now.state) }
{
    let brief = parts_of(state, key)?;
    Ok(brief)
}

fn parts_of(state: &IndexedState, key: &Key) -> Result<Brief, NoMemory>
    ensures { IfOk result (AreParts state.now.state key.now) }
{
    if let Key::Purge { ns } = key {
        return purge_brief(state, ns);
    }
    Ok(Brief {
        key: copy_of(key)?,
        seen: state.version(),
        guards: guards_of(state, key)?,
        facts: facts_of(state, key)?,
    })
}

/// What the plan of a removal is made from. Its guards and its facts tell of the same object, which is looked for once.
fn purge_brief(state: &IndexedState, ns: &Text) -> Result<Brief, NoMemory>
    ensures { IfOk result (AreParts state.now.state (key.Purge ns.now)) }
{
    let least = state.store().least(ns);
    Ok(Brief {
        key: Key::Purge { ns: ns.clone()? },
        seen: state.version(),
        guards: purge_guards(state, least, ns)?,
        facts: purge_facts(state, least, ns)?,
    })
}

/// The same key once more.
pub(crate) fn copy_of(key: &Key) -> Result<Key, NoMemory>
    ensures { IfOk result (λ copy. copy ≡ key.now) }
{
    Ok(key.clone()?)
}
