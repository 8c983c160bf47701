// Chains, cycles and reasons of halting, by walks up.
ghost use Rattle.std.specs.Prelude.{◌≡◌, length, is_some};
ghost use Rattle.hx_model.specs.First.{so, or_else};
ghost use Rattle.hx_model.specs.Forest.{in_chain, comes_back, halt_of};
ghost use Rattle.hx_model.specs.declared.node.Halt.TheVariants.{Ancestor};
ghost use Rattle.hx_survey.specs.Inside.{Ascends, halt_at, halts_of, up_at, ups_of, walk_at};

use crate::places::place_of;
use crate::walks::{halt_from, passes, passes_halted, up_from};
use hx_model::{Halt, Node};
use hx_object::Text;

/// Whether a namespace is in the chain of another.
pub(crate) fn in_chain(
    nodes: &[(Text, Node)],
    ups: &[Option<usize>],
    name: &Text,
    above: &Text,
) -> bool
    requires order { Ascends nodes.now }
    requires ups { ups.now ≡ ups_of nodes.now }
    ensures { result ≡ in_chain nodes.now name.now above.now }
{
    let first = place_of(nodes, name);
    match place_of(nodes, above) {
        Some(sought) => passes(ups, first, sought),
        None => false,
    }
}

/// Whether the walk up from a namespace comes back to it.
pub(crate) fn comes_back(nodes: &[(Text, Node)], ups: &[Option<usize>], name: &Text) -> bool
    requires order { Ascends nodes.now }
    requires ups { ups.now ≡ ups_of nodes.now }
    ensures { result ≡ comes_back nodes.now name.now }
{
    match place_of(nodes, name) {
        Some(place) => passes(ups, up_from(ups, place), place),
        None => false,
    }
}

/// Why a namespace is halted: the first reason that holds.
pub(crate) fn halt_of(
    nodes: &[(Text, Node)],
    ups: &[Option<usize>],
    halts: &[Option<Halt>],
    name: &Text,
) -> Option<Halt>
    requires order { Ascends nodes.now }
    requires ups { ups.now ≡ ups_of nodes.now }
    requires halts { halts.now ≡ halts_of nodes.now }
    ensures { result ≡ halt_of nodes.now name.now }
{
    match place_of(nodes, name) {
        Some(place) => first_halt(ups, halts, place),
        None => None,
    }
}

/// The reason that the one at a place has by itself, or else that one above it has one.
fn first_halt(ups: &[Option<usize>], halts: &[Option<Halt>], place: usize) -> Option<Halt>
    ensures { result ≡ or_else (halt_at halts.now place) (so (walk_at (λ i. is_some (halt_at halts.now i)) (length ups.now) ups.now (up_at ups.now place)) Ancestor) }
{
    let own = halt_from(halts, place);
    if own.is_some() {
        return own;
    }
    if passes_halted(ups, halts, up_from(ups, place)) {
        Some(Halt::Ancestor)
    } else {
        None
    }
}
