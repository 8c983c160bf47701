// What a plan is made from, copied out of a state.
ghost use Rattle.std.specs.Prelude.{◌≡◌, ◌<◌, ◌^◌, IfOk, length};
ghost use Rattle.hx_reconcile.specs.Briefs.{IsShort, StandsFor, planned_by};
ghost use Rattle.hx_core.specs.Working.{chain_in, sums_in};

use hx_briefs::brief_of;
use hx_model::Key;
use hx_object::{NoMemory, Text};
use hx_reconcile::{Brief, Facts, SharedBrief, law_of_sums};
use hx_state::IndexedState;

/// The brief of a key, as the state is, with one owner.
pub fn brief_now(state: &IndexedState, key: &Key) -> Result<SharedBrief, NoMemory>
    ensures key { IfOk result (λ brief. brief.key ≡ key.now) }
    ensures stands { IfOk result (λ brief. StandsFor brief state.now.state) }
{
    let brief = brief_of(state, key)?;
    Ok(SharedBrief::new(state.allocator(), brief)?)
}

/// The brief of a key, as the state is, with two owners.
pub fn job_of(state: &IndexedState, key: &Key) -> Result<(SharedBrief, SharedBrief), NoMemory>
    ensures key { IfOk result (λ p. p.0.key ≡ key.now) }
    ensures stands { IfOk result (λ p. StandsFor p.0 state.now.state) }
    ensures short { IfOk result (λ p. IsShort p.0.facts (planned_by p.0)) }
    ensures same { IfOk result (λ p. p.1 ≡ p.0) }
{
    let brief = brief_of(state, key)?;
    law_of_facts(&brief);
    let first = SharedBrief::new(state.allocator(), brief)?;
    match first.share() {
        Ok(second) => Ok((first, second)),
        Err(NoMemory) => {
            drop(first);
            Err(NoMemory)
        }
    }
}

/// A theorem, not to be called for what it does: a chain is no longer than a machine counts, and so are sums.
fn law_of_facts(brief: &Brief)
    ensures { IsShort brief.now.facts (planned_by brief.now) }
{
    law_of_chain(chain_in(&brief.facts));
    law_of_sums(sums_in(&brief.facts));
}

/// The chain of facts that have one.
fn chain_in(facts: &Facts) -> &[Text]
    ensures { result.now ≡ chain_in facts.now }
{
    match facts {
        Facts::Tree { chain, .. } => chain.as_slice(),
        _ => &[],
    }
}

/// The sums of facts that have some.
fn sums_in(facts: &Facts) -> &[u128]
    ensures { result.now ≡ sums_in facts.now }
{
    match facts {
        Facts::Used { sums, .. } => sums.as_slice(),
        _ => &[],
    }
}

fn law_of_chain(chain: &[Text])
    ensures { length chain.now < 2 ^ 64 }
{
    let _len = chain.len();
}
