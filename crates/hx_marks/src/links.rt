// What is sent to the namespaces below one, found from parents to children.
ghost use Rattle.std.specs.Prelude.{◌≡◌, ◌++◌, ℕ, List, Some, None, cond, IfOk, IfSome, OnOk, flat_map, option_copied};
ghost use Rattle.std.specs.Str.{bytes_eq};
ghost use Rattle.hx_marks.specs.Law.{all_of};
ghost use Rattle.hx_marks.specs.Links.{AreLinks, IsFoundBy, IsLinkAt, links_at, way};
ghost use Rattle.hx_marks.specs.Senders.{sent_kinds};

use crate::below::walk_down;
use crate::current::Current;
use crate::senders::{push_sending, put_first, sent_kinds};
use crate::wants::{all_of, all_under};
use hx_forest::{Forest, push_names, push_up_to};
use hx_model::Key;
use hx_object::{Kind, NoMemory, Text};
use std::alloc::Global;
use std::collections::BTreeMap;

/// Marks all that some namespaces may want below one whose chain goes on with `above`.
///
/// What is sent along the way of a namespace is found by its parent's, so that no way is walked.
pub(crate) fn all_by_ways(
    current: &Current,
    top: &Text,
    above: &[Text],
    members: &[Text],
    keys: &mut Vec<Key>,
) -> Result<(), NoMemory>
    ensures { OnOk result (keys.new.items ≡ keys.old.items ++ flat_map (λ m. all_of current.now.store.now.objects (way current.now.forest.now.nodes top.now above.now m) m) members.now) }
{
    let kinds = sent_kinds(current.store)?;
    let order = walk_down(current.store.allocator(), current.forest, top)?;
    let links = links_below(current, &kinds, top, above, &order)?;
    all_by_links(current, top, above, &links, members, keys)
}

/// Which namespaces a way up to a top and on has that send something: by the name where it begins, as far as that is known.
#[derive(Drop)]
struct Links {
    known: BTreeMap<Text, Vec<Text>>,
}

impl Links {
    fn new(alloc: Global) -> Links
        ensures { (q : List ℕ) → links_at result q ≡ None }
    {
        Links {
            known: BTreeMap::new(alloc),
        }
    }

    /// What is known of the parent of a namespace other than the top.
    fn above(&self, forest: &Forest, top: &Text, member: &Text) -> Option<&[Text]>
        ensures { IfSome result (λ senders. IsFoundBy forest.now.nodes top.now member.now (links_at self.now) senders.now) }
    {
        if member.as_str() == top.as_str() {
            return None;
        }
        match forest.parent(member) {
            Some(parent) => self.of(parent),
            None => None,
        }
    }

    /// What is known of a namespace.
    fn of(&self, name: &Text) -> Option<&[Text]>
        ensures { option_copied result ≡ links_at self.now name.now }
    {
        match self.known.get(name) {
            Some(senders) => Some(senders.as_slice()),
            None => None,
        }
    }

    fn put(&mut self, name: &Text, senders: Vec<Text>) -> Result<(), NoMemory>
        ensures { OnOk result ((q : List ℕ) → links_at self.new q ≡ cond (bytes_eq name.now q) (Some senders.items) (links_at self.old q)) }
    {
        self.known.insert(name.clone()?, senders)?;
        Ok(())
    }
}

/// What is known once these are gone over, parents first.
fn links_below(
    current: &Current,
    kinds: &[Kind],
    top: &Text,
    above: &[Text],
    order: &[Text],
) -> Result<Links, NoMemory>
    ensures { IfOk result (λ links. AreLinks current.now.store.now.objects kinds.now current.now.forest.now.nodes top.now above.now links) }
{
    let mut links = Links::new(current.store.allocator());
    let Some(_node) = current.forest.node(top) else {
        return Ok(links);
    };
    let mut senders = Vec::new(current.store.allocator());
    push_sending(current.store, kinds, above, &mut senders)?;
    put_first(current.store, kinds, top, &mut senders)?;
    links.put(top, senders)?;
    fill(current, kinds, top, above, order, &mut links)?;
    Ok(links)
}

/// Adds what follows of these, one after the other.
fn fill(
    current: &Current,
    kinds: &[Kind],
    top: &Text,
    above: &[Text],
    order: &[Text],
    links: &mut Links,
) -> Result<(), NoMemory>
    requires { AreLinks current.now.store.now.objects kinds.now current.now.forest.now.nodes top.now above.now links.old }
    ensures { OnOk result (AreLinks current.now.store.now.objects kinds.now current.now.forest.now.nodes top.now above.now links.new) }
{
    for member in order {
        let Some(senders) = step(current, kinds, top, links, member)? else {
            continue;
        };
        links.put(member, senders)?;
    }
    Ok(())
}

/// What sends something of the way of a namespace, where that is known of its parent.
fn step(
    current: &Current,
    kinds: &[Kind],
    top: &Text,
    links: &Links,
    member: &Text,
) -> Result<Option<Vec<Text>>, NoMemory>
    ensures { IfOk result (λ o. IfSome o (λ senders. (above : List (List ℕ)) → AreLinks current.now.store.now.objects kinds.now current.now.forest.now.nodes top.now above links.now → IsLinkAt current.now.store.now.objects kinds.now current.now.forest.now.nodes top.now above member.now senders.items)) }
{
    match links.above(current.forest, top, member) {
        Some(above) => {
            let mut senders = Vec::new(current.store.allocator());
            push_names(&mut senders, above)?;
            put_first(current.store, kinds, member, &mut senders)?;
            Ok(Some(senders))
        }
        None => Ok(None),
    }
}

fn all_by_links(
    current: &Current,
    top: &Text,
    above: &[Text],
    links: &Links,
    members: &[Text],
    keys: &mut Vec<Key>,
) -> Result<(), NoMemory>
    requires { AreLinks current.now.store.now.objects (sent_kinds current.now.store.now.objects) current.now.forest.now.nodes top.now above.now links.now }
    ensures { OnOk result (keys.new.items ≡ keys.old.items ++ flat_map (λ m. all_of current.now.store.now.objects (way current.now.forest.now.nodes top.now above.now m) m) members.now) }
{
    for member in members {
        all_by_link(current, top, above, links, member, keys)?;
    }
    Ok(())
}

/// Marks all that a namespace may want. Where it isn't known what is sent to its parent, its whole way is gone over.
fn all_by_link(
    current: &Current,
    top: &Text,
    above: &[Text],
    links: &Links,
    member: &Text,
    keys: &mut Vec<Key>,
) -> Result<(), NoMemory>
    requires { AreLinks current.now.store.now.objects (sent_kinds current.now.store.now.objects) current.now.forest.now.nodes top.now above.now links.now }
    ensures { OnOk result (keys.new.items ≡ keys.old.items ++ all_of current.now.store.now.objects (way current.now.forest.now.nodes top.now above.now member.now) member.now) }
{
    match links.above(current.forest, top, member) {
        Some(senders) => all_under(current.store, senders, member, keys),
        None => all_by_way(current, top, above, member, keys),
    }
}

/// The same by its whole way.
fn all_by_way(
    current: &Current,
    top: &Text,
    above: &[Text],
    member: &Text,
    keys: &mut Vec<Key>,
) -> Result<(), NoMemory>
    ensures { OnOk result (keys.new.items ≡ keys.old.items ++ all_of current.now.store.now.objects (way current.now.forest.now.nodes top.now above.now member.now) member.now) }
{
    let mut way = Vec::new(current.store.allocator());
    let chain = current.forest.chain(member)?;
    push_up_to(&mut way, top, &chain)?;
    way.push(top.clone()?)?;
    push_names(&mut way, above)?;
    all_of(current.store, &way, member, keys)
}
