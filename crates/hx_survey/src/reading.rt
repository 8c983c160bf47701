// The nodes of the tree, read off the objects.
ghost use Rattle.std.specs.Prelude.{◌≡◌, true, IfOk, option_copied};
ghost use Rattle.hx_model.specs.Forest.{is_in};
ghost use Rattle.hx_model.specs.State.{ascends};
ghost use Rattle.hx_model.specs.Tree.{forest_in, namespaces_in, node_in, parent_in};

use crate::search::{Sought, find, run_of};
use hx_model::{Node, is_terminating, parent_by};
use hx_object::well_known::HIERARCHY;
use hx_object::{Kind, NoMemory, Object, Shared, Text};
use std::alloc::Global;

/// The nodes of all namespaces, where these names are excluded.
pub(crate) fn nodes_of(
    alloc: Global,
    objects: &[Shared],
    excluded: &[Text],
) -> Result<Vec<(Text, Node)>, NoMemory>
    requires { ascends objects.now ≡ true }
    ensures { IfOk result (λ nodes. nodes.items ≡ forest_in excluded.now objects.now) }
{
    let namespaces = namespaces_in(objects);
    let mut nodes = Vec::new(alloc);
    for shared in namespaces {
        nodes.push(entry_of(objects, excluded, shared.object())?)?;
    }
    Ok(nodes)
}

/// The namespaces.
fn namespaces_in(objects: &[Shared]) -> &[Shared]
    requires { ascends objects.now ≡ true }
    ensures { result.now ≡ namespaces_in objects.now }
{
    run_of(objects, Sought::OfKind(Kind::Namespace))
}

/// A namespace's name and its node.
fn entry_of(
    objects: &[Shared],
    excluded: &[Text],
    namespace: &Object,
) -> Result<(Text, Node), NoMemory>
    requires { ascends objects.now ≡ true }
    ensures { IfOk result (λ entry. entry ≡ (namespace.now.id.name, node_in excluded.now objects.now namespace.now)) }
{
    let name = namespace.id.name.clone()?;
    let node = node_of(objects, excluded, namespace)?;
    Ok((name, node))
}

/// A namespace's node.
fn node_of(objects: &[Shared], excluded: &[Text], namespace: &Object) -> Result<Node, NoMemory>
    requires { ascends objects.now ≡ true }
    ensures { IfOk result (λ node. node ≡ node_in excluded.now objects.now namespace.now) }
{
    let parent = copied(parent_of(objects, namespace))?;
    Ok(Node {
        parent,
        terminating: is_terminating(namespace),
        excluded: is_in(&namespace.id.name, excluded),
    })
}

/// What a namespace names as its parent.
fn parent_of<'a>(objects: &'a [Shared], namespace: &'a Object) -> Option<&'a Text>
    requires { ascends objects.now ≡ true }
    ensures { option_copied result ≡ parent_in objects.now namespace.now }
{
    let name = namespace.id.name.as_str();
    let hierarchy = find(objects, Kind::HierarchyConfiguration, name, HIERARCHY);
    parent_by(namespace, object_of(hierarchy))
}

/// The object that is shared, where there is one.
pub(crate) fn object_of(shared: Option<&Shared>) -> Option<&Object>
    ensures { option_copied result ≡ option_copied shared.entry }
{
    match shared {
        Some(shared) => Some(shared.object()),
        None => None,
    }
}

fn copied(name: Option<&Text>) -> Result<Option<Text>, NoMemory>
    ensures { IfOk result (λ copy. copy ≡ option_copied name.entry) }
{
    match name {
        Some(name) => Ok(Some(name.clone()?)),
        None => Ok(None),
    }
}

/// Whether a name is among names.
fn is_in(name: &Text, names: &[Text]) -> bool
    ensures { result ≡ is_in name.now names.now }
{
    for other in names {
        if name == other {
            return true;
        }
    }
    false
}
