// The keys of anchors, and of namespaces that are on their way out.
ghost use Rattle.std.specs.Prelude.{◌≡◌, ◌++◌, ◌∷◌, [], IfOk, OnOk, flat_map, map};
ghost use Rattle.hx_model.specs.declared.key.Key.TheVariants as key;
ghost use Rattle.hx_marks.specs.Law.{anchor_keys, asking_keys, child_keys, leaving_keys, status_keys};

use hx_forest::Forest;
use hx_model::Key;
use hx_object::{Id, Kind, NoMemory, Shared, Text};
use hx_store::Store;

/// Marks the subnamespaces that the anchors in a namespace ask for.
pub(crate) fn child_keys(store: &Store, ns: &Text, keys: &mut Vec<Key>) -> Result<(), NoMemory>
    ensures { OnOk result (keys.new.items ≡ keys.old.items ++ child_keys store.now.objects ns.now) }
{
    let anchors = store.list(Kind::SubnamespaceAnchor, Some(ns))?;
    push_children(ns, &anchors, keys)
}

fn push_children(ns: &Text, anchors: &[Shared], keys: &mut Vec<Key>) -> Result<(), NoMemory>
    ensures { OnOk result (keys.new.items ≡ keys.old.items ++ map (λ x. key.Child ns.now x.id.name) anchors.now) }
{
    for anchor in anchors {
        keys.push(child_key(ns, &anchor.object().id.name)?)?;
    }
    Ok(())
}

/// Marks the statuses of the anchors in a namespace.
pub(crate) fn status_keys(store: &Store, ns: &Text, keys: &mut Vec<Key>) -> Result<(), NoMemory>
    ensures { OnOk result (keys.new.items ≡ keys.old.items ++ status_keys store.now.objects ns.now) }
{
    let anchors = store.list(Kind::SubnamespaceAnchor, Some(ns))?;
    push_statuses(ns, &anchors, keys)
}

fn push_statuses(ns: &Text, anchors: &[Shared], keys: &mut Vec<Key>) -> Result<(), NoMemory>
    ensures { OnOk result (keys.new.items ≡ keys.old.items ++ map (λ x. key.Anchor ns.now x.id.name) anchors.now) }
{
    for anchor in anchors {
        keys.push(status_key(ns, &anchor.object().id.name)?)?;
    }
    Ok(())
}

/// Marks what an anchor asks for, and its status.
pub(crate) fn anchor_keys(id: &Id, keys: &mut Vec<Key>) -> Result<(), NoMemory>
    ensures { OnOk result (keys.new.items ≡ keys.old.items ++ anchor_keys id.now) }
{
    keys.push(child_key(&id.ns, &id.name)?)?;
    keys.push(status_key(&id.ns, &id.name)?)?;
    Ok(())
}

/// Marks both, of the anchors in all namespaces that ask for a name.
pub(crate) fn asking_keys(store: &Store, name: &Text, keys: &mut Vec<Key>) -> Result<(), NoMemory>
    ensures { OnOk result (keys.new.items ≡ keys.old.items ++ asking_keys store.now.objects name.now) }
{
    let anchors = store.anchors(name.as_str())?;
    push_asking(&anchors, keys)
}

fn push_asking(anchors: &[Shared], keys: &mut Vec<Key>) -> Result<(), NoMemory>
    ensures { OnOk result (keys.new.items ≡ keys.old.items ++ flat_map (λ x. anchor_keys x.id) anchors.now) }
{
    for anchor in anchors {
        anchor_keys(&anchor.object().id, keys)?;
    }
    Ok(())
}

/// Marks the removal of a namespace that is on its way out.
pub(crate) fn leaving_keys(forest: &Forest, ns: &Text, keys: &mut Vec<Key>) -> Result<(), NoMemory>
    ensures { OnOk result (keys.new.items ≡ keys.old.items ++ leaving_keys forest.now.nodes ns.now) }
{
    if forest.is_leaving(ns) {
        push_purge(ns, keys)?;
    }
    Ok(())
}

/// Marks the removal of a namespace.
pub(crate) fn push_purge(ns: &Text, keys: &mut Vec<Key>) -> Result<(), NoMemory>
    ensures { OnOk result (keys.new.items ≡ keys.old.items ++ key.Purge ns.now ∷ []) }
{
    keys.push(Key::Purge { ns: ns.clone()? })?;
    Ok(())
}

fn child_key(ns: &Text, name: &Text) -> Result<Key, NoMemory>
    ensures { IfOk result (λ made. made ≡ key.Child ns.now name.now) }
{
    Ok(Key::Child {
        ns: ns.clone()?,
        name: name.clone()?,
    })
}

fn status_key(ns: &Text, name: &Text) -> Result<Key, NoMemory>
    ensures { IfOk result (λ made. made ≡ key.Anchor ns.now name.now) }
{
    Ok(Key::Anchor {
        ns: ns.clone()?,
        name: name.clone()?,
    })
}
