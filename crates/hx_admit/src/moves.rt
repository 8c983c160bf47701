// Moves of a namespace by which a copy would overwrite a source.
ghost use Rattle.std.specs.Prelude.{◌≡◌, ℕ, ◌||◌, true, false, List, IfOk, Option, option_copied};
ghost use Rattle.std.specs.List.{list_all, list_any};
ghost use Rattle.hx_object.specs.declared.object.Id.{Id as id_of};
ghost use Rattle.hx_object.specs.declared.object.Object.{Object as object_of};
ghost use Rattle.hx_model.specs.Cases.{same_name};
ghost use Rattle.hx_model.specs.Conflicts.{makes_conflict, with_written};
ghost use Rattle.hx_model.specs.Forest.{is_in, parent_of, subtree_of};
ghost use Rattle.hx_model.specs.Moves.{up_to, chain_from, is_eligible, is_open_above, labels_in, mode_at, is_met, open_chain, open_moved, is_newly_met, overwrites_kind, overwrites_in};
ghost use Rattle.hx_model.specs.Propagation.{goes_to};
ghost use Rattle.hx_model.specs.Tree.{forest_of};
ghost use Rattle.hx_model.specs.TreeLabels.{prescribed_labels};
ghost use Rattle.hx_admit.specs.Moves.{open_way, is_later, is_gone_to, CanMove, IsMovedBy};

use crate::conflicts::{goes_to, is_propagated, looks_at_labels};
use hx_forest::{Forest, push_names, push_up_to};
use hx_model::{COPIED_KINDS, is_same_name, is_source};
use hx_object::{Kind, Mode, NoMemory, Object, Pairs, Shared, Text};
use hx_reconcile::prescribed_labels;
use hx_state::{IndexedState, mode_at};
use hx_store::Store;
use std::alloc::Global;

/// Whether a namespace that gets another parent makes a conflict: some source of its subtree lies where a source from above is copied to then, and wasn't before (HNC user guide, "Propagating policies").
///
/// It looks at nothing but the subtree, the namespaces above it, and the objects there of kinds that are propagated, and walks none of them where no such kind may have objects. It walks no chain for an object whose name no source of its kind has in another namespace.
pub(crate) fn overwrites_by_move(
    state: &IndexedState,
    namespace: &Text,
    parent: Option<&Text>,
) -> Result<bool, NoMemory>
    requires moves { same_name (parent_of (forest_of state.now.state) namespace.now) (option_copied parent) ≡ false → CanMove (forest_of state.now.state) namespace.now (option_copied parent) }
    ensures { IfOk result (λ makes. (id : id_of) (new : Option object_of) → IsMovedBy state.now.state namespace.now (option_copied parent.entry) id new → makes ≡ makes_conflict state.now.state (with_written state.now.state id new)) }
{
    state.law_of_validity();
    let forest = state.forest();
    if is_same_name(forest.parent(namespace), parent) {
        return Ok(false);
    }
    overwrites_below(state.store(), forest, namespace, parent)
}

/// Whether a source in the subtree of a namespace is overwritten once this has another parent, and isn't now.
fn overwrites_below(
    store: &Store,
    forest: &Forest,
    namespace: &Text,
    parent: Option<&Text>,
) -> Result<bool, NoMemory>
    requires moves { CanMove forest.now.nodes namespace.now (option_copied parent) }
    ensures { IfOk result (λ found. found ≡ list_any (λ m. overwrites_in store.now.objects m (open_moved forest.now.nodes namespace.now (option_copied parent.entry) m) (open_chain forest.now.nodes m)) (subtree_of forest.now.nodes namespace.now)) }
{
    if !any_may_spread(store, &COPIED_KINDS) {
        return Ok(false);
    }
    if !forest.is_eligible(namespace) || !forest.is_open_above(parent) {
        return Ok(false);
    }
    let above = forest.chain_from(parent)?;
    let members = forest.below(namespace)?;
    any_overwrites(store, forest, namespace, &above, &members)
}

/// Whether some kind is propagated and may have objects.
fn any_may_spread(store: &Store, kinds: &[Kind]) -> bool
    ensures { result ≡ false → (n : List ℕ) (after before : List (List ℕ)) → list_any (overwrites_kind store.now.objects n after before) kinds.now ≡ false }
{
    for kind in kinds {
        if may_spread(store, *kind) {
            return true;
        }
    }
    false
}

/// Whether a kind is propagated and may have objects. No move overwrites one of another kind.
fn may_spread(store: &Store, kind: Kind) -> bool
    ensures { result ≡ false → (n : List ℕ) (after before : List (List ℕ)) → overwrites_kind store.now.objects n after before kind ≡ false }
{
    store.may_have(kind) && is_propagated(mode_at(store, kind))
}

fn any_overwrites(
    store: &Store,
    forest: &Forest,
    namespace: &Text,
    above: &[Text],
    members: &[Text],
) -> Result<bool, NoMemory>
    requires apart { (m : List ℕ) → is_in m members.now ≡ true → is_later m (open_way forest.now.nodes namespace.now above.now m) ≡ false }
    ensures { IfOk result (λ found. found ≡ list_any (λ m. overwrites_in store.now.objects m (open_way forest.now.nodes namespace.now above.now m) (open_chain forest.now.nodes m)) members.now) }
{
    for member in members {
        if any_kind(store, forest, namespace, above, member, &COPIED_KINDS)? {
            return Ok(true);
        }
    }
    Ok(false)
}

/// Whether a source in a namespace of the subtree is overwritten then, and isn't now.
fn any_kind(
    store: &Store,
    forest: &Forest,
    namespace: &Text,
    above: &[Text],
    member: &Text,
    kinds: &[Kind],
) -> Result<bool, NoMemory>
    requires apart { is_later member.now (open_way forest.now.nodes namespace.now above.now member.now) ≡ false }
    ensures { IfOk result (λ found. found ≡ list_any (overwrites_kind store.now.objects member.now (open_way forest.now.nodes namespace.now above.now member.now) (open_chain forest.now.nodes member.now)) kinds.now) }
{
    for kind in kinds {
        if overwrites_kind(store, forest, namespace, above, member, *kind)? {
            return Ok(true);
        }
    }
    Ok(false)
}

/// Whether it is one of a kind. Chains are made only where there is an object of that kind.
fn overwrites_kind(
    store: &Store,
    forest: &Forest,
    namespace: &Text,
    above: &[Text],
    member: &Text,
    kind: Kind,
) -> Result<bool, NoMemory>
    requires apart { is_later member.now (open_way forest.now.nodes namespace.now above.now member.now) ≡ false }
    ensures { IfOk result (λ found. found ≡ overwrites_kind store.now.objects member.now (open_way forest.now.nodes namespace.now above.now member.now) (open_chain forest.now.nodes member.now) kind) }
{
    if !may_spread(store, kind) {
        return Ok(false);
    }
    let objects = store.list(kind, Some(member))?;
    if objects.is_empty() {
        return Ok(false);
    }
    let alloc = store.allocator();
    let after = open_way(alloc, forest, namespace, above, member)?;
    let before = open_chain(alloc, forest, member)?;
    any_newly_met(store, member, &after, &before, &objects)
}

fn any_newly_met(
    store: &Store,
    name: &Text,
    after: &[Text],
    before: &[Text],
    objects: &[Shared],
) -> Result<bool, NoMemory>
    requires apart { is_later name.now after.now ≡ false }
    ensures { IfOk result (λ found. found ≡ list_any (is_newly_met store.now.objects name.now after.now before.now) objects.now) }
{
    for object in objects {
        if is_newly_met(store, name, after, before, object.object())? {
            return Ok(true);
        }
    }
    Ok(false)
}

/// Whether an object is a source over which one goes along the chain afterwards, and none before.
fn is_newly_met(
    store: &Store,
    name: &Text,
    after: &[Text],
    before: &[Text],
    object: &Object,
) -> Result<bool, NoMemory>
    requires apart { is_later name.now after.now ≡ false }
    ensures { IfOk result (λ newly. newly ≡ is_newly_met store.now.objects name.now after.now before.now object.now) }
{
    let id = &object.id;
    if !is_source(object) || !may_be_met(store, name, object) {
        return Ok(false);
    }
    if !is_met(store, name, after, id.kind, &id.name)? {
        return Ok(false);
    }
    let is_met_before = is_met(store, name, before, id.kind, &id.name)?;
    Ok(!is_met_before)
}

/// Whether a source of an object's kind and name may go from a later member of a chain to the place of its first one: one may lie in another namespace.
fn may_be_met(store: &Store, name: &Text, object: &Object) -> bool
    ensures { result ≡ false → (chain : List (List ℕ)) → is_later name.now chain ≡ false → is_met store.now.objects name.now chain object.now.id.kind object.now.id.name ≡ false }
{
    let id = &object.id;
    store.may_lie_beside(id.kind, id.name.as_str(), name.as_str())
}

/// Whether a source of a kind and a name goes from a later member of a chain to the place of its first one.
fn is_met(
    store: &Store,
    name: &Text,
    chain: &[Text],
    kind: Kind,
    object: &Text,
) -> Result<bool, NoMemory>
    ensures { IfOk result (λ met. met ≡ is_met store.now.objects name.now chain.now kind object.now) }
{
    match chain.split_first() {
        Some((_, above)) => any_gone_to(store, name, chain, kind, object, above),
        None => Ok(false),
    }
}

fn any_gone_to(
    store: &Store,
    name: &Text,
    chain: &[Text],
    kind: Kind,
    object: &Text,
    above: &[Text],
) -> Result<bool, NoMemory>
    ensures { IfOk result (λ gone. gone ≡ list_any (is_gone_to store.now.objects name.now chain.now kind object.now) above.now) }
{
    for ancestor in above {
        if is_gone_to(store, name, chain, kind, object, ancestor)? {
            return Ok(true);
        }
    }
    Ok(false)
}

/// Whether the object of a kind and a name in a namespace goes to the labels that a chain prescribes.
fn is_gone_to(
    store: &Store,
    name: &Text,
    chain: &[Text],
    kind: Kind,
    object: &Text,
    ancestor: &Text,
) -> Result<bool, NoMemory>
    ensures { IfOk result (λ gone. gone ≡ is_gone_to store.now.objects name.now chain.now kind object.now ancestor.now) }
{
    match store.find(kind, ancestor.as_str(), object.as_str()) {
        Some(source) => goes_along(store, name, chain, mode_at(store, kind), source.object()),
        None => Ok(false),
    }
}

/// Whether a source goes to the labels that a chain prescribes. They are made only for one that looks at them.
fn goes_along(
    store: &Store,
    name: &Text,
    chain: &[Text],
    mode: Mode,
    source: &Object,
) -> Result<bool, NoMemory>
    ensures { IfOk result (λ goes. goes ≡ goes_to mode source.now (prescribed_labels chain.now (labels_in store.now.objects name.now))) }
{
    let alloc = store.allocator();
    if looks_at_labels(source) {
        return goes_to(alloc, mode, source, &labels_along(store, name, chain)?);
    }
    goes_to(alloc, mode, source, &Pairs::new(alloc))
}

/// The labels that a chain prescribes to a namespace.
pub(crate) fn labels_along(store: &Store, name: &Text, chain: &[Text]) -> Result<Pairs, NoMemory>
    ensures { IfOk result (λ labels. labels ≡ prescribed_labels chain.now (labels_in store.now.objects name.now)) }
{
    let alloc = store.allocator();
    match store.find(Kind::Namespace, "", name.as_str()) {
        Some(namespace) => prescribed_labels(alloc, chain, &namespace.object().labels),
        None => prescribed_labels(alloc, chain, &Pairs::new(alloc)),
    }
}

/// The chain of a namespace that takes part, and none of another.
fn open_chain(alloc: Global, forest: &Forest, name: &Text) -> Result<Vec<Text>, NoMemory>
    ensures { IfOk result (λ names. names.items ≡ open_chain forest.now.nodes name.now) }
{
    if forest.is_open(name) {
        forest.chain(name)
    } else {
        Ok(Vec::new(alloc))
    }
}

/// The chain of a namespace below another one, whose chain goes on with `above` then. None where one on the way there doesn't take part.
fn open_way(
    alloc: Global,
    forest: &Forest,
    namespace: &Text,
    above: &[Text],
    member: &Text,
) -> Result<Vec<Text>, NoMemory>
    ensures { IfOk result (λ names. names.items ≡ open_way forest.now.nodes namespace.now above.now member.now) }
{
    let mut names = Vec::new(alloc);
    let chain = forest.chain(member)?;
    if are_eligible_up_to(forest, namespace, &chain) {
        push_up_to(&mut names, namespace, &chain)?;
        names.push(namespace.clone()?)?;
        push_names(&mut names, above)?;
    }
    Ok(names)
}

/// Whether all names before that of a namespace are of eligible ones.
fn are_eligible_up_to(forest: &Forest, namespace: &Text, names: &[Text]) -> bool
    ensures { result ≡ list_all (is_eligible forest.now.nodes) (up_to namespace.now names.now) }
{
    for name in names {
        if namespace.as_str() == name.as_str() {
            return true;
        }
        if !forest.is_eligible(name) {
            return false;
        }
    }
    true
}
