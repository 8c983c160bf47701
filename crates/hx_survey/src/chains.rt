// Lists of names by walks, and by the nodes.
ghost use Rattle.std.specs.Prelude.{◌≡◌, ◌==◌, Some, true, false, not, [], map, filter, length, IfOk, slice_index_or, slice_set};
ghost use Rattle.hx_model.specs.Forest.{chain_of, children_of, climb, subtree_of};
ghost use Rattle.hx_survey.specs.Inside.{Ascends, marks, name_at, names_parent, place_of, ups_of, walk_at};

use crate::places::{entry_at, place_of};
use crate::walks::{passes, up_from};
use hx_model::Node;
use hx_object::{NoMemory, Text};
use std::alloc::Global;

/// A namespace, its parent, the parent's parent and so on.
pub(crate) fn chain_of(
    alloc: Global,
    nodes: &[(Text, Node)],
    ups: &[Option<usize>],
    name: &Text,
) -> Result<Vec<Text>, NoMemory>
    requires order { Ascends nodes.now }
    requires ups { ups.now ≡ ups_of nodes.now }
    ensures { IfOk result (λ chain. chain.items ≡ chain_of nodes.now name.now) }
{
    climb(alloc, nodes, ups, place_of(nodes, name))
}

/// The names up from a place, each once. Which were passed is marked, so that a cycle ends the walk.
fn climb(
    alloc: Global,
    nodes: &[(Text, Node)],
    ups: &[Option<usize>],
    first: Option<usize>,
) -> Result<Vec<Text>, NoMemory>
    requires order { Ascends nodes.now }
    requires ups { ups.now ≡ ups_of nodes.now }
    ensures { IfOk result (λ chain. chain.items ≡ climb (length nodes.now) nodes.now [] (name_at nodes.now first)) }
{
    let mut seen = unmarked(alloc, nodes)?;
    let mut built: Vec<Text> = Vec::new(alloc);
    let mut at = first;
    let mut left = nodes.len();
    while left > 0 {
        left -= 1;
        let Some(place) = at else {
            return Ok(built);
        };
        let Some(entry) = entry_at(nodes, place) else {
            return Ok(built);
        };
        if !mark(&mut seen, place) {
            return Ok(built);
        }
        built.push(entry.0.clone()?)?;
        at = up_from(ups, place);
    }
    Ok(built)
}

/// A mark for each node, none of which is set.
fn unmarked(alloc: Global, nodes: &[(Text, Node)]) -> Result<Vec<bool>, NoMemory>
    ensures { IfOk result (λ seen. seen.items ≡ marks [] nodes.now) }
{
    Ok(vec![in alloc; false; nodes.len()]?)
}

/// Sets a mark, and tells whether it wasn't set before.
fn mark(seen: &mut Vec<bool>, place: usize) -> bool
    ensures fresh { result ≡ not (slice_index_or seen.old.items place true) }
    ensures marked { result ≡ true → seen.new.items ≡ slice_set seen.old.items place true }
{
    if place >= seen.len() || seen[place] {
        return false;
    }
    seen[place] = true;
    true
}

/// The namespaces whose chain has a name.
pub(crate) fn subtree_of(
    alloc: Global,
    nodes: &[(Text, Node)],
    ups: &[Option<usize>],
    ancestor: &Text,
) -> Result<Vec<Text>, NoMemory>
    requires order { Ascends nodes.now }
    requires ups { ups.now ≡ ups_of nodes.now }
    ensures { IfOk result (λ names. names.items ≡ subtree_of nodes.now ancestor.now) }
{
    match place_of(nodes, ancestor) {
        Some(sought) => names_below(alloc, nodes, ups, sought),
        None => Ok(Vec::new(alloc)),
    }
}

/// The names of the namespaces from which a walk up passes a place.
fn names_below(
    alloc: Global,
    nodes: &[(Text, Node)],
    ups: &[Option<usize>],
    sought: usize,
) -> Result<Vec<Text>, NoMemory>
    requires { Ascends nodes.now }
    ensures { IfOk result (λ names. names.items ≡ map (λ e. e.0) (filter (λ e. walk_at (λ place. place == sought) (length ups.now) ups.now (place_of nodes.now e.0)) nodes.now)) }
{
    let mut names = Vec::new(alloc);
    for (place, entry) in nodes.iter().enumerate() {
        if is_below(nodes, ups, &entry.0, place, sought) {
            names.push(entry.0.clone()?)?;
        }
    }
    Ok(names)
}

/// Whether a walk up from the namespace of a name, which lies at `place`, passes another place. Only contracts speak of the nodes and the name.
fn is_below(
    nodes: &[(Text, Node)],
    ups: &[Option<usize>],
    name: &Text,
    place: usize,
    sought: usize,
) -> bool
    requires { place_of nodes.now name.now ≡ Some place }
    ensures { result ≡ walk_at (λ at. at == sought) (length ups.now) ups.now (place_of nodes.now name.now) }
{
    let _nodes = nodes;
    let _name = name;
    passes(ups, Some(place), sought)
}

/// The namespaces that name this one as their parent, whether it is there or not.
pub(crate) fn children_of(
    alloc: Global,
    nodes: &[(Text, Node)],
    name: &Text,
) -> Result<Vec<Text>, NoMemory>
    requires { Ascends nodes.now }
    ensures { IfOk result (λ children. children.items ≡ children_of nodes.now name.now) }
{
    children_in(alloc, nodes, name)
}

/// The names of the nodes that have this one as their parent.
fn children_in(alloc: Global, nodes: &[(Text, Node)], name: &Text) -> Result<Vec<Text>, NoMemory>
    ensures { IfOk result (λ children. children.items ≡ map (λ e. e.0) (filter (λ e. names_parent name.now e.1) nodes.now)) }
{
    let mut children = Vec::new(alloc);
    for entry in nodes {
        if names_parent(&entry.1, name) {
            children.push(entry.0.clone()?)?;
        }
    }
    Ok(children)
}

/// Whether a node has this name as its parent.
fn names_parent(node: &Node, name: &Text) -> bool
    ensures { result ≡ names_parent name.now node.now }
{
    match &node.parent {
        Some(parent) => name == parent,
        None => false,
    }
}
