// All graphs of parents on up to four names, beside the plain programs of the definitions.
use hx_forest::{Change, Forest, Node};
use hx_model::plain;
use hx_object::{NoMemory, Text};
use std::alloc::Global;
use std::hash::RandomState;
use std::test::Fail;

/// The names, in ascending order. Each may name itself, any other, one that isn't there, or none as its parent.
const NAMES: [&str; 4] = ["a", "b", "c", "d"];

/// Graphs on so many names, told by numbers: how many ways there are to choose the parents, and to mark names as terminating or excluded. Of four names the first two are marked.
const SIZES: [(usize, usize, usize); 4] = [(1, 3, 4), (2, 16, 16), (3, 125, 64), (4, 1_296, 16)];

/// The nodes of a graph. The digits of `parents` to the base of `count` + 2 choose the parent of each name, and those of `marks` to the base of 4 its marks.
fn graph(
    alloc: Global,
    count: usize,
    parents: usize,
    marks: usize,
) -> Result<Vec<(Text, Node)>, NoMemory> {
    let base = count.min(4) + 2;
    let mut nodes = Vec::new(alloc);
    let mut parents = parents;
    let mut marks = marks;
    for name in NAMES.iter().take(count) {
        let node = Node {
            parent: parent(alloc, count, parents % base)?,
            terminating: marks % 2 == 1,
            excluded: marks / 2 % 2 == 1,
        };
        nodes.push((Text::of(alloc, name)?, node))?;
        parents /= base;
        marks /= 4;
    }
    Ok(nodes)
}

fn parent(alloc: Global, count: usize, choice: usize) -> Result<Option<Text>, NoMemory> {
    match NAMES.iter().take(count).nth(choice) {
        Some(name) => Ok(Some(Text::of(alloc, name)?)),
        None if choice == count => Ok(Some(Text::of(alloc, "gone")?)),
        None => Ok(None),
    }
}

fn copy_of(node: &Node) -> Result<Node, NoMemory> {
    let parent = match &node.parent {
        Some(parent) => Some(parent.clone()?),
        None => None,
    };
    Ok(Node {
        parent,
        terminating: node.terminating,
        excluded: node.excluded,
    })
}

/// The forest of the nodes, which are added from the last to the first.
fn planted(alloc: Global, keys: RandomState, nodes: &[(Text, Node)]) -> Result<Forest, NoMemory> {
    let mut forest = Forest::new(alloc, keys);
    for entry in nodes.iter().rev() {
        let name = entry.0.clone()?;
        let node = copy_of(&entry.1)?;
        if forest.node(&name).is_none() {
            forest.stage(Vec::from_array(alloc, [Change::Add { name, node }])?)?;
            forest.apply();
        }
    }
    Ok(forest)
}

/// The names of the nodes that name this one as their parent.
fn children_of(alloc: Global, nodes: &[(Text, Node)], name: &Text) -> Result<Vec<Text>, NoMemory> {
    let mut children = Vec::new(alloc);
    for entry in nodes {
        if entry.1.parent.as_ref() == Some(name) {
            children.push(entry.0.clone()?)?;
        }
    }
    Ok(children)
}

/// Whether a forest answers of one name as the plain programs do.
fn is_alike(
    alloc: Global,
    forest: &Forest,
    nodes: &[(Text, Node)],
    name: &Text,
) -> Result<bool, NoMemory> {
    let chain = plain::chain_of(alloc, nodes, name)?;
    let below = plain::subtree_of(alloc, nodes, name)?;
    let children = children_of(alloc, nodes, name)?;
    Ok(
        forest.chain(name)? == chain
            && forest.below(name)? == below
            && forest.children(name) == children.as_slice()
            && forest.depth(name) == plain::depth_of(alloc, nodes, name)?
            && forest.halt(name) == plain::halt_of(alloc, nodes, name)?
            && forest.parent(name) == plain::parent_of(nodes, name),
    )
}

/// Whether it says alike which namespaces are below the name.
fn has_alike_below(
    alloc: Global,
    forest: &Forest,
    nodes: &[(Text, Node)],
    name: &Text,
) -> Result<bool, NoMemory> {
    for entry in nodes {
        let is_above = plain::in_chain(alloc, nodes, &entry.0, name)?;
        if forest.in_chain(&entry.0, name) != is_above {
            return Ok(false);
        }
    }
    Ok(true)
}

/// Whether it answers alike of all names, one that isn't there among them.
fn all_alike(alloc: Global, keys: RandomState, nodes: &[(Text, Node)]) -> Result<bool, NoMemory> {
    let forest = planted(alloc, keys, nodes)?;
    for name in ["a", "b", "c", "d", "gone"] {
        let name = Text::of(alloc, name)?;
        let is_alike = is_alike(alloc, &forest, nodes, &name)?;
        if !is_alike || !has_alike_below(alloc, &forest, nodes, &name)? {
            return Ok(false);
        }
    }
    Ok(true)
}

#[test]
fn each_graph_is_that_of_the_definitions(rt: HostRuntime) -> Result<(), Fail> {
    let keys = RandomState::new(&rt)?;
    for (count, parents, marks) in SIZES {
        for parents in 0..parents {
            for marks in 0..marks {
                let nodes = graph(rt.alloc(), count, parents, marks)?;
                assert!(rt;
                    all_alike(rt.alloc(), keys, &nodes)?,
                    "{count} names, parents {parents}, marks {marks}"
                );
            }
        }
    }
    Ok(())
}
