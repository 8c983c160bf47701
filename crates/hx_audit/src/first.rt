// The least key that wants a write.
ghost use Rattle.std.specs.Prelude.{◌≡◌, true, None, IfOk};
ghost use Rattle.hx_model.specs.State.{State, ascends};
ghost use Rattle.hx_survey.specs.Surveyed.{namespaces_lie_alone};
ghost use Rattle.hx_audit.specs.Auditing.{HasRows, IsFirst};
ghost use Rattle.hx_audit.specs.Candidates.{active_kinds, least_from, wanting_in};

use crate::kinds::active_kinds;
use crate::least::least_of;
use crate::namespaces::push_namespace;
use hx_model::{Key, Node};
use hx_object::{Kind, NoMemory, Shared, Text};
use hx_survey::Survey;
use std::alloc::Global;

/// The least key that wants a write in the states of these rows, where these names are excluded from trees, and `None` exactly where no key wants one.
///
/// Keys are in order of [`compare_keys`](hx_order::compare_keys). The version of a state counts for nothing.
pub fn first_wanting(
    alloc: Global,
    objects: &[Shared],
    excluded: &[Text],
) -> Result<Option<Key>, NoMemory>
    requires order { ascends objects.now ≡ true }
    requires homes { namespaces_lie_alone objects.now ≡ true }
    ensures { IfOk result (λ found. (s : State) → HasRows objects.now excluded.now s → IsFirst s found) }
{
    let survey = Survey::with_sums(alloc, objects, excluded)?;
    let kinds = active_kinds(&survey)?;
    least_wanting(&survey, excluded, &kinds, survey.nodes())
}

/// The least of the keys of some namespaces that want a write.
fn least_wanting(
    survey: &Survey,
    excluded: &[Text],
    kinds: &[Kind],
    nodes: &[(Text, Node)],
) -> Result<Option<Key>, NoMemory>
    requires excluded { excluded.now ≡ survey.now.excluded }
    requires kinds { kinds.now ≡ active_kinds survey.now }
    ensures { IfOk result (λ found. found ≡ least_from None (wanting_in survey.now nodes.now)) }
{
    let mut best = None;
    for node in nodes {
        let mut keys = Vec::new(survey.allocator());
        push_namespace(survey, excluded, kinds, &node.0, &mut keys)?;
        best = least_of(best, keys);
    }
    Ok(best)
}
