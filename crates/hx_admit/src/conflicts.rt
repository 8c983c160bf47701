// Writes by which a copy would overwrite a source.
ghost use Rattle.std.specs.Prelude.{◌≡◌, ◌||◌, ◌&&◌, true, false, [], filter, is_some, IfOk, IfSome, OnOk, option_copied};
ghost use Rattle.std.specs.List.{list_any};
ghost use Rattle.std.specs.Str.{bytes_eq};
ghost use Rattle.hx_object.specs.Kinds.{can_be_copied};
ghost use Rattle.hx_object.specs.WellKnown.{config};
ghost use Rattle.hx_object.specs.declared.kind.Kind.TheVariants.{HncConfiguration};
ghost use Rattle.hx_model.specs.Conflicts.{labels_at, makes_conflict};
ghost use Rattle.hx_model.specs.Exceptions.{exception, select_of, tree_select_in};
ghost use Rattle.hx_model.specs.Cases.{same_name};
ghost use Rattle.hx_model.specs.Forest.{in_chain, chain_of, tail_of};
ghost use Rattle.hx_model.specs.Modes.{config_id, mode_of};
ghost use Rattle.hx_model.specs.Propagation.{goes_to, is_propagated, is_source};
ghost use Rattle.hx_model.specs.State.{object_at, ascends};
ghost use Rattle.hx_model.specs.Tree.{forest_of};
ghost use Rattle.hx_model.specs.TreeLabels.{is_open};
ghost use Rattle.hx_reconcile.specs.Reaches.{reaches};
ghost use Rattle.hx_admit.specs.Conflicting.{with_object, is_source_of, is_source_in, goes_as_before, IsReachOf, goes_beside, goes_down, is_reached, is_taken, is_hit, hits, with_written, would_go, has_overwritten, comes_over};

use crate::moves::labels_along;
use hx_forest::Ancestors;
use hx_model::{COPIED_KINDS, is_same_name, is_source, mode_in};
use hx_object::well_known::{CONFIG, NONE_EXCEPTION, SELECT_EXCEPTION, TREE_SELECT_EXCEPTION};
use hx_object::{Id, Kind, Mode, NoMemory, Object, Pairs, Shared, Text};
use hx_reconcile::{Reach, exception, stays_home};
use hx_state::{IndexedState, mode_at, object_in};
use std::alloc::Global;

/// Whether an object that can be copied makes a conflict where it is written in the place of `old`: some source lies where a source from above is copied to, and didn't before (HNC user guide, "Propagating policies").
///
/// A write of contents alone looks at nothing.
pub(crate) fn overwrites(
    state: &IndexedState,
    old: Option<&Object>,
    new: &Object,
) -> Result<bool, NoMemory>
    requires copied { can_be_copied new.now.id.kind ≡ true }
    requires there { object_at state.now.state.objects new.now.id ≡ option_copied old }
    ensures { IfOk result (λ found. found ≡ makes_conflict state.now.state (with_object state.now.state new.now)) }
{
    if !is_source(new) {
        return Ok(false);
    }
    if is_taken(state, old, new)? {
        return Ok(true);
    }
    if goes_as_before(old, new) {
        return Ok(false);
    }
    hits(state, old, new)
}

/// Whether an HNCConfiguration makes a conflict where it is written as `new`, or is removed: some source of a kind that comes to be propagated lies where a source from above is copied to (HNC user guide, "Modify object propagation").
pub(crate) fn overwrites_by_modes(
    state: &IndexedState,
    id: &Id,
    new: Option<&Object>,
) -> Result<bool, NoMemory>
    requires kind { id.now.kind ≡ HncConfiguration }
    requires given { IfSome (option_copied new) (λ x. x.id ≡ id.now) }
    ensures { IfOk result (λ found. found ≡ makes_conflict state.now.state (with_written state.now.state id.now (option_copied new.entry))) }
{
    state.law_of_validity();
    let stored = object_in(state.store().find(Kind::HncConfiguration, "", CONFIG));
    if is_config(id) {
        return any_comes_over(state, stored, new, &COPIED_KINDS);
    }
    Ok(false)
}

fn any_comes_over(
    state: &IndexedState,
    stored: Option<&Object>,
    new: Option<&Object>,
    kinds: &[Kind],
) -> Result<bool, NoMemory>
    requires stored { object_at state.now.state.objects config_id ≡ option_copied stored }
    ensures { IfOk result (λ found. found ≡ list_any (comes_over state.now.state (option_copied new.entry)) kinds.now) }
{
    for kind in kinds {
        if comes_over(state, stored, new, *kind)? {
            return Ok(true);
        }
    }
    Ok(false)
}

/// Whether a kind comes to be propagated, and some source of it lies where a source from above goes.
fn comes_over(
    state: &IndexedState,
    stored: Option<&Object>,
    new: Option<&Object>,
    kind: Kind,
) -> Result<bool, NoMemory>
    requires stored { object_at state.now.state.objects config_id ≡ option_copied stored }
    ensures { IfOk result (λ found. found ≡ comes_over state.now.state (option_copied new.entry) kind) }
{
    if !is_propagated(mode_in(new, kind)) || is_propagated(mode_in(stored, kind)) {
        return Ok(false);
    }
    has_overwritten(state, kind)
}

/// Whether some source of a kind lies where a source from above would go if the kind were propagated.
fn has_overwritten(state: &IndexedState, kind: Kind) -> Result<bool, NoMemory>
    ensures { IfOk result (λ found. found ≡ has_overwritten state.now.state kind) }
{
    let listed = state.store().list(kind, None)?;
    any_overwritten(state, &listed)
}

fn any_overwritten(state: &IndexedState, objects: &[Shared]) -> Result<bool, NoMemory>
    ensures { IfOk result (λ found. found ≡ list_any (λ y. is_source y && would_go state.now.state y.id) objects.now) }
{
    for object in objects {
        if is_overwritten(state, object.object())? {
            return Ok(true);
        }
    }
    Ok(false)
}

fn is_overwritten(state: &IndexedState, object: &Object) -> Result<bool, NoMemory>
    ensures { IfOk result (λ found. found ≡ (is_source object.now && would_go state.now.state object.now.id)) }
{
    if !is_source(object) {
        return Ok(false);
    }
    would_go(state, &object.id)
}

/// Whether a namespace takes part, and a source from above would go to the place of an identity if its kind were propagated.
fn would_go(state: &IndexedState, id: &Id) -> Result<bool, NoMemory>
    ensures { IfOk result (λ goes. goes ≡ would_go state.now.state id.now) }
{
    if !is_open(state, &id.ns) {
        return Ok(false);
    }
    any_above(state, Mode::Propagate, &id.ns, id.kind, &id.name)
}

/// Whether there was no source in the place of one that is written, and a source from above goes there.
fn is_taken(state: &IndexedState, old: Option<&Object>, new: &Object) -> Result<bool, NoMemory>
    requires there { object_at state.now.state.objects new.now.id ≡ option_copied old }
    ensures taken { IfOk result (λ taken. taken ≡ is_taken state.now.state new.now) }
    ensures order { OnOk result (ascends state.now.state.objects ≡ true) }
{
    let id = &new.id;
    state.law_of_validity();
    if is_source_in(old) || !may_be_reached(state, new) || !is_open(state, &id.ns) {
        return Ok(false);
    }
    is_reached(state, &id.ns, id.kind, &id.name)
}

/// Whether a source from above may go to the place of an object: its kind is propagated, and a source of the kind and the name may lie in another namespace.
fn may_be_reached(state: &IndexedState, new: &Object) -> bool
    ensures { result ≡ false → is_reached state.now.state new.now.id.ns new.now.id.kind new.now.id.name ≡ false }
{
    let id = &new.id;
    if !is_propagated(mode(state, id.kind)) {
        return false;
    }
    state
        .store()
        .may_lie_beside(id.kind, id.name.as_str(), id.ns.as_str())
}

/// Whether a source that is written goes to where a source of its kind and name lies, below its namespace, and none went before.
///
/// Its exceptions are read once, and so are those of what it replaces, however many places are asked.
fn hits(state: &IndexedState, old: Option<&Object>, new: &Object) -> Result<bool, NoMemory>
    requires there { object_at state.now.state.objects new.now.id ≡ option_copied old }
    ensures { IfOk result (λ found. found ≡ hits state.now.state new.now) }
{
    let id = &new.id;
    if stays_home(new) || !is_propagated(mode(state, id.kind)) {
        return Ok(false);
    }
    let others = sources(state, id.kind, &id.name)?;
    let alloc = state.allocator();
    let before = reach_in(alloc, old)?;
    let after = Reach::of(alloc, new)?;
    any_hit(state, new, &before, &after, &others)
}

fn any_hit(
    state: &IndexedState,
    new: &Object,
    before: &Reach,
    after: &Reach,
    others: &[Shared],
) -> Result<bool, NoMemory>
    requires propagated { is_propagated (mode_of state.now.state new.now.id.kind) ≡ true }
    requires before { IsReachOf before.now (object_at state.now.state.objects new.now.id) }
    requires after { IsReachOf after.now (Some new.now) }
    ensures { IfOk result (λ found. found ≡ list_any (λ y. is_hit state.now.state new.now y.id.ns) others.now) }
{
    for other in others {
        if is_hit(state, new, before, after, &other.object().id.ns)? {
            return Ok(true);
        }
    }
    Ok(false)
}

/// Whether a source that is written goes to a namespace below its own that takes part, and none went there before.
fn is_hit(
    state: &IndexedState,
    new: &Object,
    before: &Reach,
    after: &Reach,
    ns: &Text,
) -> Result<bool, NoMemory>
    requires propagated { is_propagated (mode_of state.now.state new.now.id.kind) ≡ true }
    requires before { IsReachOf before.now (object_at state.now.state.objects new.now.id) }
    requires after { IsReachOf after.now (Some new.now) }
    ensures { IfOk result (λ found. found ≡ is_hit state.now.state new.now ns.now) }
{
    let id = &new.id;
    if ns.as_str() == id.ns.as_str() || !is_below(state, ns, &id.ns) || !is_open(state, ns) {
        return Ok(false);
    }
    if !has_at(state, after, ns)? {
        return Ok(false);
    }
    if has_at(state, before, ns)? {
        return Ok(false);
    }
    let is_reached = is_reached_beside(state, &id.ns, ns, id.kind, &id.name)?;
    Ok(!is_reached)
}

/// Whether a reach has the labels that the place of a namespace prescribes. They are made only where they count.
fn has_at(state: &IndexedState, reach: &Reach, ns: &Text) -> Result<bool, NoMemory>
    ensures { IfOk result (λ has. has ≡ reaches reach.now (labels_at state.now.state ns.now)) }
{
    if reach.looks_at_labels() {
        return Ok(reach.has(&labels_at(state, ns)?));
    }
    Ok(reach.has(&Pairs::new(state.allocator())))
}

/// Whether a source from above, beside the one in a namespace, goes to the place of a kind and a name that is propagated.
fn is_reached_beside(
    state: &IndexedState,
    home: &Text,
    ns: &Text,
    kind: Kind,
    name: &Text,
) -> Result<bool, NoMemory>
    ensures { IfOk result (λ reached. reached ≡ list_any (goes_beside state.now.state home.now ns.now kind name.now) (tail_of (chain_of (forest_of state.now.state) ns.now))) }
{
    let mut above = state.forest().ancestors(ns);
    let _itself = above.next();
    any_beside(state, above, home, ns, kind, name)
}

fn any_beside(
    state: &IndexedState,
    above: Ancestors,
    home: &Text,
    ns: &Text,
    kind: Kind,
    name: &Text,
) -> Result<bool, NoMemory>
    ensures { IfOk result (λ goes. goes ≡ list_any (goes_beside state.now.state home.now ns.now kind name.now) above.entry) }
{
    for ancestor in above {
        if goes_beside(state, ancestor, home, ns, kind, name)? {
            return Ok(true);
        }
    }
    Ok(false)
}

fn goes_beside(
    state: &IndexedState,
    ancestor: &Text,
    home: &Text,
    ns: &Text,
    kind: Kind,
    name: &Text,
) -> Result<bool, NoMemory>
    ensures { IfOk result (λ goes. goes ≡ goes_beside state.now.state home.now ns.now kind name.now ancestor.now) }
{
    if ancestor.as_str() == home.as_str() {
        return Ok(false);
    }
    goes_down(state, ancestor, Mode::Propagate, ns, kind, name)
}

/// The sources of a kind and a name, in ascending order of identities.
fn sources(state: &IndexedState, kind: Kind, name: &Text) -> Result<Vec<Shared>, NoMemory>
    ensures { IfOk result (λ objects. objects.items ≡ filter (is_source_of kind name.now) state.now.state.objects) }
{
    state.store().sources(kind, name.as_str())
}

/// Whether a source from above goes to the place of a kind and a name.
fn is_reached(state: &IndexedState, ns: &Text, kind: Kind, name: &Text) -> Result<bool, NoMemory>
    ensures { IfOk result (λ reached. reached ≡ is_reached state.now.state ns.now kind name.now) }
{
    let mode = mode(state, kind);
    if !is_propagated(mode) {
        return Ok(false);
    }
    any_above(state, mode, ns, kind, name)
}

/// Whether a source from above would go to the place of a kind and a name if the kind were in this mode.
fn any_above(
    state: &IndexedState,
    mode: Mode,
    ns: &Text,
    kind: Kind,
    name: &Text,
) -> Result<bool, NoMemory>
    ensures { IfOk result (λ goes. goes ≡ list_any (goes_down state.now.state mode ns.now kind name.now) (tail_of (chain_of (forest_of state.now.state) ns.now))) }
{
    let mut above = state.forest().ancestors(ns);
    let _itself = above.next();
    any_goes(state, above, mode, ns, kind, name)
}

fn any_goes(
    state: &IndexedState,
    above: Ancestors,
    mode: Mode,
    ns: &Text,
    kind: Kind,
    name: &Text,
) -> Result<bool, NoMemory>
    ensures { IfOk result (λ goes. goes ≡ list_any (goes_down state.now.state mode ns.now kind name.now) above.entry) }
{
    for ancestor in above {
        if goes_down(state, ancestor, mode, ns, kind, name)? {
            return Ok(true);
        }
    }
    Ok(false)
}

/// Whether the source of a kind and a name in a namespace goes to a place below it.
fn goes_down(
    state: &IndexedState,
    ancestor: &Text,
    mode: Mode,
    ns: &Text,
    kind: Kind,
    name: &Text,
) -> Result<bool, NoMemory>
    ensures { IfOk result (λ goes. goes ≡ goes_down state.now.state mode ns.now kind name.now ancestor.now) }
{
    match state.store().find(kind, ancestor.as_str(), name.as_str()) {
        Some(source) => goes_at(state, mode, source.object(), ns),
        None => Ok(false),
    }
}

/// Whether a source goes to the labels that the place of a namespace prescribes. They are made only for a source that looks at them.
fn goes_at(state: &IndexedState, mode: Mode, source: &Object, ns: &Text) -> Result<bool, NoMemory>
    ensures { IfOk result (λ goes. goes ≡ goes_to mode source.now (labels_at state.now.state ns.now)) }
{
    let alloc = state.allocator();
    if looks_at_labels(source) {
        return goes_to(alloc, mode, source, &labels_at(state, ns)?);
    }
    goes_to(alloc, mode, source, &Pairs::new(alloc))
}

/// The labels that a namespace is to have by its place in the tree.
fn labels_at(state: &IndexedState, ns: &Text) -> Result<Pairs, NoMemory>
    ensures { IfOk result (λ labels. labels ≡ labels_at state.now.state ns.now) }
{
    let chain = state.forest().chain(ns)?;
    labels_along(state.store(), ns, &chain)
}

/// The mode of a kind, by the HNCConfiguration that is stored.
fn mode(state: &IndexedState, kind: Kind) -> Mode
    ensures { result ≡ mode_of state.now.state kind }
{
    mode_at(state.store(), kind)
}

/// Whether a namespace takes part: it is there and not on its way out, and neither excluded nor halted.
fn is_open(state: &IndexedState, ns: &Text) -> bool
    ensures { result ≡ is_open (forest_of state.now.state) ns.now }
{
    state.forest().is_open(ns)
}

/// Whether a namespace is below another, or that one itself.
fn is_below(state: &IndexedState, ns: &Text, above: &Text) -> bool
    ensures { result ≡ in_chain (forest_of state.now.state) ns.now above.now }
{
    state.forest().in_chain(ns, above)
}

/// Whether the identity is that of the HNCConfiguration that counts, where it is one.
fn is_config(id: &Id) -> bool
    ensures { result ≡ (bytes_eq id.now.name config && bytes_eq id.now.ns []) }
{
    id.name.as_str() == CONFIG && id.ns.as_str() == ""
}

/// Whether sources of a kind in this mode go to the namespaces below.
pub(crate) fn is_propagated(mode: Mode) -> bool
    ensures { result ≡ is_propagated mode }
{
    matches!(mode, Mode::Propagate)
}

/// Whether what is found is a source.
fn is_source_in(found: Option<&Object>) -> bool
    ensures { result ≡ is_source_in (option_copied found.entry) }
{
    match found {
        Some(object) => is_source(object),
        None => false,
    }
}

/// The reach of what is found, which goes nowhere where nothing is.
fn reach_in(alloc: Global, found: Option<&Object>) -> Result<Reach, NoMemory>
    ensures { IfOk result (λ reach. IsReachOf reach (option_copied found.entry)) }
{
    match found {
        Some(object) => Reach::of(alloc, object),
        None => Ok(Reach::Nowhere),
    }
}

/// Whether a source of a kind in this mode goes to a namespace of these labels below its own.
pub(crate) fn goes_to(
    alloc: Global,
    mode: Mode,
    source: &Object,
    labels: &Pairs,
) -> Result<bool, NoMemory>
    ensures { IfOk result (λ goes. goes ≡ goes_to mode source.now labels.now) }
{
    if !is_propagated(mode) {
        return Ok(false);
    }
    let reach = Reach::of(alloc, source)?;
    Ok(reach.has(labels))
}

/// Whether an exception of the source is judged by the labels of a namespace.
pub(crate) fn looks_at_labels(source: &Object) -> bool
    ensures { result ≡ (is_some (select_of source.now) || is_some (tree_select_in source.now)) }
{
    exception(source, SELECT_EXCEPTION).is_some()
        || exception(source, TREE_SELECT_EXCEPTION).is_some()
}

/// Whether the object that is there is a source with the same exceptions, and goes where the new one does.
fn goes_as_before(old: Option<&Object>, new: &Object) -> bool
    ensures { result ≡ goes_as_before (option_copied old.entry) new.now }
{
    match old {
        Some(old) => {
            is_source(old)
                && !stays_home(old)
                && has_same_exception(old, new, SELECT_EXCEPTION)
                && has_same_exception(old, new, TREE_SELECT_EXCEPTION)
                && has_same_exception(old, new, NONE_EXCEPTION)
        }
        None => false,
    }
}

fn has_same_exception(old: &Object, new: &Object, key: &str) -> bool
    ensures { result ≡ same_name (exception old.now key.now) (exception new.now key.now) }
{
    is_same_name(exception(old, key), exception(new, key))
}
