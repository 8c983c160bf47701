// The quotas whose usage a write changes.
ghost use Rattle.std.specs.Prelude.{◌≡◌, ℕ, ◌++◌, ◌∷◌, [], false, List, OnOk, filter, flat_map, map, option_copied};
ghost use Rattle.std.specs.List.{list_any};
ghost use Rattle.hx_model.specs.Forest.{chain_of, tail_of};
ghost use Rattle.hx_model.specs.Moves.{chain_from, up_to};
ghost use Rattle.hx_marks.specs.Below.{in_one};
ghost use Rattle.hx_model.specs.Quotas.{quotas_in};
ghost use Rattle.hx_model.specs.declared.key.Key.TheVariants as key;
ghost use Rattle.hx_marks.specs.Reads.{state_in};
ghost use Rattle.hx_marks.specs.Usage.{charged_usage, counts_change, created_usage, is_charged_anew, is_limit_of, is_recharged, removed_usage, usage_key, usage_keys, usage_of};

use crate::current::Current;
use crate::moves::in_one;
use crate::wants::tail_of;
use hx_charge::{charge_before, hard_of};
use hx_forest::{Ancestors, push_up_to};
use hx_model::{Key, RESOURCES, Resource};
use hx_object::{Id, Kind, Limit, NoMemory, Object, Shared, Text};
use hx_store::Store;

/// Marks the quotas above a namespace that goes, where something lies below it.
pub(crate) fn removed_usage(
    current: &Current,
    name: &Text,
    keys: &mut Vec<Key>,
) -> Result<(), NoMemory>
    ensures { OnOk result (keys.new.items ≡ keys.old.items ++ removed_usage (state_in current.now) name.now) }
{
    if current.forest.children(name).is_empty() {
        return Ok(());
    }
    let mut members = current.forest.ancestors(name);
    members.next();
    usage_along(current.store, members, keys)
}

/// Marks the quotas above a namespace that is made under a parent, where something has waited for it below.
pub(crate) fn created_usage(
    current: &Current,
    name: &Text,
    parent: Option<&Text>,
    keys: &mut Vec<Key>,
) -> Result<(), NoMemory>
    ensures { OnOk result (keys.new.items ≡ keys.old.items ++ created_usage (state_in current.now) name.now (option_copied parent.entry)) }
{
    if current.forest.children(name).is_empty() {
        return Ok(());
    }
    usage_from(current, parent, keys)
}

/// Marks the quotas of a parent and of what is above it.
fn usage_from(current: &Current, parent: Option<&Text>, keys: &mut Vec<Key>) -> Result<(), NoMemory>
    ensures { OnOk result (keys.new.items ≡ keys.old.items ++ usage_of current.now.store.now.objects (chain_from current.now.forest.now.nodes (option_copied parent.entry))) }
{
    match parent {
        Some(parent) => usage_along(current.store, current.forest.ancestors(parent), keys),
        None => Ok(()),
    }
}

/// Marks the quotas of what is above a namespace before it gets another parent, or then, and not both.
pub(crate) fn moved_usage(
    current: &Current,
    name: &Text,
    parent: Option<&Text>,
    keys: &mut Vec<Key>,
) -> Result<(), NoMemory>
    ensures { OnOk result (keys.new.items ≡ keys.old.items ++ usage_of current.now.store.now.objects (in_one (tail_of (chain_of current.now.forest.now.nodes name.now)) (up_to name.now (chain_from current.now.forest.now.nodes (option_copied parent.entry))))) }
{
    if !has_quotas(current.store) {
        return Ok(());
    }
    let alloc = current.store.allocator();
    let before = current.forest.chain(name)?;
    let above = current.forest.chain_from(parent)?;
    let mut after = Vec::new(alloc);
    push_up_to(&mut after, name, &above)?;
    let names = in_one(alloc, tail_of(&before), &after)?;
    usage_of(current.store, &names, keys)
}

/// Marks the quotas of a namespace and of those above it that limit what an object is charged of, where that changes. Where no charge changes, nothing is looked at.
pub(crate) fn charged_usage(
    current: &Current,
    ns: &Text,
    old: Option<&Object>,
    new: Option<&Object>,
    keys: &mut Vec<Key>,
) -> Result<(), NoMemory>
    ensures { OnOk result (keys.new.items ≡ keys.old.items ++ charged_usage (state_in current.now) ns.now (option_copied old.entry) (option_copied new.entry)) }
{
    if !is_charged_anew(old, new) {
        return Ok(());
    }
    if !has_quotas(current.store) {
        return Ok(());
    }
    charged_along(current.store, old, new, current.forest.ancestors(ns), keys)
}

/// Whether there may be quotas. Where there are none, no chain is walked for them.
fn has_quotas(store: &Store) -> bool
    ensures { result ≡ false → (ns : List ℕ) → quotas_in store.now.objects ns ≡ [] }
{
    store.may_have(Kind::HierarchicalResourceQuota)
}

/// Marks the quotas of some namespaces that limit what an object is charged of, where that changes.
fn charged_along(
    store: &Store,
    old: Option<&Object>,
    new: Option<&Object>,
    members: Ancestors,
    keys: &mut Vec<Key>,
) -> Result<(), NoMemory>
    ensures { OnOk result (keys.new.items ≡ keys.old.items ++ map usage_key (filter (counts_change (option_copied old.entry) (option_copied new.entry)) (flat_map (quotas_in store.now.objects) members.entry))) }
{
    for member in members {
        let quotas = store.list(Kind::HierarchicalResourceQuota, Some(member))?;
        push_charged(old, new, &quotas, keys)?;
    }
    Ok(())
}

/// Marks those of some quotas.
fn push_charged(
    old: Option<&Object>,
    new: Option<&Object>,
    quotas: &[Shared],
    keys: &mut Vec<Key>,
) -> Result<(), NoMemory>
    ensures { OnOk result (keys.new.items ≡ keys.old.items ++ map usage_key (filter (counts_change (option_copied old.entry) (option_copied new.entry)) quotas.now)) }
{
    for quota in quotas {
        if counts_change(old, new, quota.object()) {
            push_usage(&quota.object().id, keys)?;
        }
    }
    Ok(())
}

/// Marks the quotas of the namespaces of a chain.
fn usage_along(store: &Store, members: Ancestors, keys: &mut Vec<Key>) -> Result<(), NoMemory>
    ensures { OnOk result (keys.new.items ≡ keys.old.items ++ usage_of store.now.objects members.entry) }
{
    for member in members {
        usage_keys(store, member, keys)?;
    }
    Ok(())
}

/// Marks the quotas of some namespaces.
fn usage_of(store: &Store, names: &[Text], keys: &mut Vec<Key>) -> Result<(), NoMemory>
    ensures { OnOk result (keys.new.items ≡ keys.old.items ++ usage_of store.now.objects names.now) }
{
    for name in names {
        usage_keys(store, name, keys)?;
    }
    Ok(())
}

/// Marks the quotas in a namespace.
pub(crate) fn usage_keys(store: &Store, ns: &Text, keys: &mut Vec<Key>) -> Result<(), NoMemory>
    ensures { OnOk result (keys.new.items ≡ keys.old.items ++ usage_keys store.now.objects ns.now) }
{
    let quotas = store.list(Kind::HierarchicalResourceQuota, Some(ns))?;
    push_quotas(&quotas, keys)
}

fn push_quotas(quotas: &[Shared], keys: &mut Vec<Key>) -> Result<(), NoMemory>
    ensures { OnOk result (keys.new.items ≡ keys.old.items ++ map usage_key quotas.now) }
{
    for quota in quotas {
        push_usage(&quota.object().id, keys)?;
    }
    Ok(())
}

/// Marks a quota.
pub(crate) fn push_usage(id: &Id, keys: &mut Vec<Key>) -> Result<(), NoMemory>
    ensures { OnOk result (keys.new.items ≡ keys.old.items ++ key.Used id.now.ns id.now.name ∷ []) }
{
    keys.push(Key::Used {
        ns: id.ns.clone()?,
        name: id.name.clone()?,
    })?;
    Ok(())
}

/// Whether what an object is charged changes, of some resource.
fn is_charged_anew(old: Option<&Object>, new: Option<&Object>) -> bool
    ensures { result ≡ is_charged_anew (option_copied old.entry) (option_copied new.entry) }
{
    is_any_recharged(old, new, &RESOURCES)
}

fn is_any_recharged(old: Option<&Object>, new: Option<&Object>, resources: &[Resource]) -> bool
    ensures { result ≡ list_any (is_recharged (option_copied old.entry) (option_copied new.entry)) resources.now }
{
    resources
        .iter()
        .any(|resource| is_recharged(old, new, *resource))
}

/// Whether a quota limits a resource of which what an object is charged changes.
fn counts_change(old: Option<&Object>, new: Option<&Object>, quota: &Object) -> bool
    ensures { result ≡ counts_change (option_copied old.entry) (option_copied new.entry) quota.now }
{
    hard_of(&quota.payload)
        .iter()
        .any(|limit| is_limit_of(old, new, limit))
}

/// Whether a limit is of such a resource.
fn is_limit_of(old: Option<&Object>, new: Option<&Object>, limit: &Limit) -> bool
    ensures { result ≡ is_limit_of (option_copied old.entry) (option_copied new.entry) limit.now }
{
    match Resource::of_name(limit.resource.as_str()) {
        Some(resource) => is_recharged(old, new, resource),
        None => false,
    }
}

/// Whether what an object is charged of a resource changes.
fn is_recharged(old: Option<&Object>, new: Option<&Object>, resource: Resource) -> bool
    ensures { result ≡ is_recharged (option_copied old.entry) (option_copied new.entry) resource }
{
    charge_before(old, resource) != charge_before(new, resource)
}
