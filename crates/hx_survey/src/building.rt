// What a tree notes of its nodes.
ghost use Rattle.std.specs.Prelude.{◌≡◌, IfOk, option_copied};
ghost use Rattle.hx_model.specs.Forest.{own_halt_of};
ghost use Rattle.hx_survey.specs.Inside.{Ascends, halts_of, halt_by, halt_under, place_of, ups_of};

use crate::places::{node_at, place_at, place_of};
use crate::walks::{passes, up_from};
use hx_model::{Halt, Node};
use hx_object::{NoMemory, Text};
use std::alloc::Global;

/// Where the parent of each namespace lies.
pub(crate) fn ups_of(alloc: Global, nodes: &[(Text, Node)]) -> Result<Vec<Option<usize>>, NoMemory>
    requires { Ascends nodes.now }
    ensures { IfOk result (λ ups. ups.items ≡ ups_of nodes.now) }
{
    let mut ups = Vec::new(alloc);
    for entry in nodes {
        ups.push(place_at(nodes, entry.1.parent.as_ref()))?;
    }
    Ok(ups)
}

/// The reason of halting that each namespace has by itself.
pub(crate) fn halts_of(
    alloc: Global,
    nodes: &[(Text, Node)],
    ups: &[Option<usize>],
) -> Result<Vec<Option<Halt>>, NoMemory>
    requires order { Ascends nodes.now }
    requires ups { ups.now ≡ ups_of nodes.now }
    ensures { IfOk result (λ halts. halts.items ≡ halts_of nodes.now) }
{
    let mut halts = Vec::new(alloc);
    for entry in nodes {
        halts.push(own_halt(nodes, ups, &entry.0))?;
    }
    Ok(halts)
}

/// The reason of halting that a namespace has by itself.
fn own_halt(nodes: &[(Text, Node)], ups: &[Option<usize>], name: &Text) -> Option<Halt>
    requires order { Ascends nodes.now }
    requires ups { ups.now ≡ ups_of nodes.now }
    ensures { result ≡ own_halt_of nodes.now name.now }
{
    match place_of(nodes, name) {
        Some(place) => halt_at(nodes, ups, name, place),
        None => None,
    }
}

/// The reason of one that lies at a place.
fn halt_at(nodes: &[(Text, Node)], ups: &[Option<usize>], name: &Text, place: usize) -> Option<Halt>
    requires ups { ups.now ≡ ups_of nodes.now }
    requires place { place_of nodes.now name.now ≡ Some place }
    ensures { result ≡ own_halt_of nodes.now name.now }
{
    let up = up_from(ups, place);
    if passes(ups, up, place) {
        Some(Halt::InCycle)
    } else {
        halt_by(node_at(nodes, Some(place)), node_at(nodes, up))
    }
}

/// The reason that a node has by that of its parent.
fn halt_by(node: Option<&Node>, above: Option<&Node>) -> Option<Halt>
    ensures { result ≡ halt_by (option_copied node.entry) (option_copied above.entry) }
{
    if node?.parent.is_none() {
        None
    } else {
        halt_under(above)
    }
}

/// The reason that a namespace has by the node of its parent.
fn halt_under(above: Option<&Node>) -> Option<Halt>
    ensures { result ≡ halt_under (option_copied above.entry) }
{
    match above {
        Some(above) if above.terminating => Some(Halt::ParentMissing),
        Some(above) if above.excluded => Some(Halt::IllegalParent),
        Some(_) => None,
        None => Some(Halt::ParentMissing),
    }
}
