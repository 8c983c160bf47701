// A key is kept where it wants a write.
ghost use Rattle.std.specs.Prelude.{◌≡◌, ◌++◌, IfOk, OnOk, is_some};
ghost use Rattle.hx_reconcile.specs.Briefs.{planned};
ghost use Rattle.hx_audit.specs.Candidates.{kept};

use hx_model::Key;
use hx_object::{List, NoMemory};
use hx_reconcile::{Brief, Facts, Plan, SharedBrief, plan};
use std::alloc::Global;

/// Adds a key, where it wants a write by these facts.
pub(crate) fn keep(
    alloc: Global,
    wanting: &mut Vec<Key>,
    key: Key,
    facts: Facts,
) -> Result<(), NoMemory>
    ensures { OnOk result (wanting.new.items ≡ wanting.old.items ++ kept key facts) }
{
    let again = key.clone()?;
    if wants(alloc, again, facts)? {
        wanting.push(key)?;
    }
    Ok(())
}

/// Whether a key wants a write by these facts.
fn wants(alloc: Global, key: Key, facts: Facts) -> Result<bool, NoMemory>
    ensures { IfOk result (λ wants. wants ≡ is_some (planned key facts)) }
{
    let made = plan_by(alloc, key, facts)?;
    Ok(does_write(&made))
}

/// The plan of a key by these facts. It has no guards, since it is looked at alone.
fn plan_by(alloc: Global, key: Key, facts: Facts) -> Result<Plan, NoMemory>
    ensures { IfOk result (λ made. made.write ≡ planned key facts) }
{
    let brief = bare_brief(alloc, key, facts)?;
    match plan(alloc, brief) {
        Ok(made) => Ok(made),
        Err(_brief) => Err(NoMemory),
    }
}

/// What its plan is made from, without guards.
fn bare_brief(alloc: Global, key: Key, facts: Facts) -> Result<SharedBrief, NoMemory>
    ensures key { IfOk result (λ brief. brief.key ≡ key) }
    ensures facts { IfOk result (λ brief. brief.facts ≡ facts) }
{
    let brief = Brief {
        key,
        seen: 0,
        guards: List::of(Vec::new(alloc)),
        facts,
    };
    SharedBrief::new(alloc, brief)
}

fn does_write(made: &Plan) -> bool
    ensures { result ≡ is_some made.now.write }
{
    made.write().is_some()
}
