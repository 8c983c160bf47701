// The sources that lie above a namespace.
ghost use Rattle.std.specs.Prelude.{◌≡◌, ◌++◌, OnOk, IfOk, option_copied};
ghost use Rattle.hx_model.specs.Propagation.{id_in, source_at, sources_above};
ghost use Rattle.hx_briefs.specs.Briefing.{nearest_first};

use crate::lookups::inner;
use hx_forest::Ancestors;
use hx_model::is_source;
use hx_object::{Kind, NoMemory, Shared, Text};
use hx_state::IndexedState;

/// The sources of a kind and a name in the namespaces above one, the farthest first.
#[tactic(auto, using(crate::proofs::Nearest::farthest_first))]
pub(crate) fn sources_above(
    state: &IndexedState,
    ns: &Text,
    kind: Kind,
    name: &Text,
) -> Result<Vec<Shared>, NoMemory>
    ensures { IfOk result (λ sources. sources.items ≡ sources_above state.now.state ns.now kind name.now) }
{
    let mut above = state.forest().ancestors(ns);
    let _itself = above.next();
    let mut sources = Vec::new(state.allocator());
    push_sources(&mut sources, state, above, kind, name)?;
    sources.reverse();
    Ok(sources)
}

/// Adds the sources of a kind and a name in some namespaces.
fn push_sources(
    sources: &mut Vec<Shared>,
    state: &IndexedState,
    above: Ancestors,
    kind: Kind,
    name: &Text,
) -> Result<(), NoMemory>
    ensures { OnOk result (sources.new.items ≡ sources.old.items ++ nearest_first state.now.state.objects kind name.now above.entry) }
{
    for ancestor in above {
        if let Some(source) = find_source(state, ancestor, kind, name) {
            sources.push(source.share()?)?;
        }
    }
    Ok(())
}

/// The source of a kind and a name in a namespace.
fn find_source<'a>(
    state: &'a IndexedState,
    ns: &Text,
    kind: Kind,
    name: &Text,
) -> Option<&'a Shared>
    ensures { option_copied result ≡ source_at state.now.state.objects (id_in kind name.now ns.now) }
{
    match inner(state, kind, ns, name) {
        Some(object) if is_source(object.object()) => Some(object),
        _ => None,
    }
}
