// What a request writes and is answered.
ghost use Rattle.std.specs.Prelude.{◌≡◌, ◌⊎◌, ◌+◌, ◌<◌, ℕ, Bool, [], true, false, Some, Option, codes, option_copied, IfOk, IfErr, OnOk};
ghost use Rattle.hx_object.specs.declared.object.Object.{Object as object_of};
ghost use Rattle.hx_model.specs.Answers.{refusal_of, replaced_by as put_over};
ghost use Rattle.hx_model.specs.Limits.{greatest_version};
ghost use Rattle.hx_model.specs.Serving.{IsServed, IsServedAsk, is_given};
ghost use Rattle.hx_model.specs.State.{object_at, with_version, state_after};
ghost use Rattle.hx_model.specs.Windows.{events_since};
ghost use Rattle.hx_model.specs.declared.key.Write.TheVariants as write_of;
ghost use Rattle.hx_admit.specs.Inside.{IsRefusal, IsCreation, IsReplacement, IsReviewed, IsDeletion};
ghost use Rattle.hx_admit.specs.Reviewing.{AreKept, Passes};
ghost use Rattle.hx_model.specs.Writes.{MayWriteAll};

use crate::checks::{
    check_create, check_delete, check_growth, check_limits, check_replace, check_version_left,
};
use crate::findings::findings_of;
use crate::quotas::quota_refusal;
use crate::removal::removal;
use crate::reviewed::Reviewed;
use crate::update::replaced_by;
use hx_discovery::Document;
use hx_model::{Answer, Ask, Denial, Event, Fields, Refusal};
use hx_object::{Id, Kind, List, NoMemory, Object, Shared, Text};
use hx_select::{Matcher, Selector};
use hx_state::IndexedState;
use hx_store::Change;
use hx_watch::SinceFault;
use std::alloc::Global;

/// Reviews a request: the first refusal that holds, or what it writes and is answered. Nothing is changed yet.
pub fn review(state: &IndexedState, ask: Ask) -> Result<Reviewed, Refusal>
    requires { IsServedAsk ask }
    ensures refused { IfErr result (λ refusal. (refusal ≡ Refusal.NoMemory) ⊎ (refusal_of state.now.state ask ≡ Some refusal)) }
    ensures passes { IfOk result (λ r. Passes state.now.state ask r.writes.items r.answer) }
    ensures may { IfOk result (λ r. MayWriteAll state.now.state r.writes.items) }
{
    match ask {
        Ask::Get { id } => review_get(state, &id),
        Ask::List {
            kind,
            ns,
            selector,
            fields,
        } => review_list(state, kind, ns.as_ref(), selector, &fields),
        Ask::Create { object, skip } => review_create(state, object, skip),
        Ask::Replace {
            object,
            expected,
            skip,
        } => review_replace(state, object, expected, skip),
        Ask::Delete { id, skip } => review_delete(state, &id, skip),
        Ask::Document(document) => Ok(review_document(state, document)),
        Ask::Events { since } => review_events(state, since),
    }
}

fn review_get(state: &IndexedState, id: &Id) -> Result<Reviewed, Refusal>
    ensures refused { IfErr result (IsRefusal state.now.state (Ask.Get id.now)) }
    ensures passes { IfOk result (λ r. Passes state.now.state (Ask.Get id.now) r.writes.items r.answer) }
    ensures may { IfOk result (λ r. MayWriteAll state.now.state r.writes.items) }
{
    state.law_of_validity();
    match state.store().get(id) {
        None => Err(Denial::NotFound.refusal(id)),
        Some(object) => Ok(shown(state, object)?),
    }
}

fn review_list(
    state: &IndexedState,
    kind: Kind,
    ns: Option<&Text>,
    selector: Selector,
    fields: &Fields,
) -> Result<Reviewed, Refusal>
    ensures refused { IfErr result (IsRefusal state.now.state (Ask.List kind (option_copied ns.entry) selector fields.now)) }
    ensures passes { IfOk result (λ r. Passes state.now.state (Ask.List kind (option_copied ns.entry) selector fields.now) r.writes.items r.answer) }
    ensures may { IfOk result (λ r. MayWriteAll state.now.state r.writes.items) }
{
    state.law_of_validity();
    let matcher = Matcher::of(state.allocator(), selector)?;
    let mut objects = state.store().list(kind, ns)?;
    objects.retain(|object| matcher.matches(&object.object().labels));
    objects.retain(|object| fields.are_of(&object.object().id));
    Ok(unchanged(
        state,
        Answer::Many {
            kind,
            objects: List::of(objects),
            version: state.version(),
        },
    ))
}

/// What the server says of itself is the same in every state.
fn review_document(state: &IndexedState, document: Document) -> Reviewed
    ensures passes { Passes state.now.state (Ask.Document document) result.writes.items result.answer }
    ensures may { MayWriteAll state.now.state result.writes.items }
{
    unchanged(state, Answer::Document(document))
}

fn review_events(state: &IndexedState, since: u64) -> Result<Reviewed, Refusal>
    ensures refused { IfErr result (IsRefusal state.now.state (Ask.Events since)) }
    ensures passes { IfOk result (λ r. Passes state.now.state (Ask.Events since) r.writes.items r.answer) }
    ensures may { IfOk result (λ r. MayWriteAll state.now.state r.writes.items) }
{
    state.law_of_validity();
    let events = events_since(state, since)?;
    Ok(unchanged(
        state,
        Answer::Events {
            events,
            version: state.version(),
        },
    ))
}

/// The events of all commits after a version, where it isn't over the last one and all of them are kept.
fn events_since(state: &IndexedState, since: u64) -> Result<List<Event>, Refusal>
    ensures refused { IfErr result (IsRefusal state.now.state (Ask.Events since)) }
    ensures there { OnOk result (AreKept state.now.state since) }
    ensures events { IfOk result (λ events. events ≡ events_since since state.now.state.window.events) }
{
    if since > state.version() {
        return Err(over_the_last(state.allocator()));
    }
    match state.window().since(since) {
        Ok(events) => Ok(events),
        Err(SinceFault::Expired { floor }) => Err(Refusal::Expired { floor }),
        Err(SinceFault::NoMemory) => Err(Refusal::NoMemory),
    }
}

/// The refusal of a version over the last one.
fn over_the_last(alloc: Global) -> Refusal
    ensures { (result ≡ Refusal.NoMemory) ⊎ (result ≡ Refusal.BadQuery (codes "since")) }
{
    match Text::of(alloc, "since") {
        Ok(name) => Refusal::BadQuery { name },
        Err(_) => Refusal::NoMemory,
    }
}

fn review_create(state: &IndexedState, object: Object, skip: bool) -> Result<Reviewed, Refusal>
    requires served { IsServed object }
    requires given { is_given object.payload ≡ true }
    ensures refused { IfErr result (IsRefusal state.now.state (Ask.Create object skip)) }
    ensures passes { IfOk result (λ r. Passes state.now.state (Ask.Create object skip) r.writes.items r.answer) }
    ensures may { IfOk result (λ r. MayWriteAll state.now.state r.writes.items) }
{
    if let Err(refusal) = check_creation(state, &object, skip) {
        drop(object);
        return Err(refusal);
    }
    Ok(put(state, object, true)?)
}

/// Finds the first refusal of a POST.
fn check_creation(state: &IndexedState, object: &Object, skip: bool) -> Result<(), Refusal>
    requires { IsServed object.now }
    ensures refused { IfErr result (IsRefusal state.now.state (Ask.Create object.now skip)) }
    ensures passes { OnOk result (IsCreation state.now.state object.now skip) }
{
    let found = findings_of(
        state,
        &object.id,
        state.object(&object.id),
        Some(object),
        skip,
    )?;
    let brings_name = state.brings_name(&object.id)?;
    if let Err(denial) = check_create(state, object, found, skip) {
        return Err(denial.refusal(&object.id));
    }
    if let Some(refusal) = quota_refusal(state, None, object)? {
        return Err(refusal);
    }
    if let Err(denial) = check_limits(state, object, brings_name) {
        return Err(denial.refusal(&object.id));
    }
    Ok(())
}

fn review_replace(
    state: &IndexedState,
    object: Object,
    expected: Option<u64>,
    skip: bool,
) -> Result<Reviewed, Refusal>
    requires { IsServed object }
    ensures refused { IfErr result (IsRefusal state.now.state (Ask.Replace object expected skip)) }
    ensures passes { IfOk result (λ r. Passes state.now.state (Ask.Replace object expected skip) r.writes.items r.answer) }
    ensures may { IfOk result (λ r. MayWriteAll state.now.state r.writes.items) }
{
    let Some(old) = state.store().get(&object.id) else {
        let refusal = Denial::NotFound.refusal(&object.id);
        drop(object);
        return Err(refusal);
    };
    let next = replacement(state, old.object(), object, expected, skip)?;
    review_replacement(state, old, next)
}

/// Reviews a PUT by the object that it gives.
fn review_replacement(state: &IndexedState, old: &Shared, next: Object) -> Result<Reviewed, Refusal>
    requires there { object_at state.now.state.objects next.id ≡ Some old.now }
    requires served { IsServed next }
    ensures refused { (x : object_of) (expected : Option ℕ) (skip : Bool) → IsReplacement state.now.state x old.now expected skip next → IfErr result (IsRefusal state.now.state (Ask.Replace x expected skip)) }
    ensures passes { (x : object_of) (expected : Option ℕ) (skip : Bool) → IsReplacement state.now.state x old.now expected skip next → IfOk result (λ r. Passes state.now.state (Ask.Replace x expected skip) r.writes.items r.answer) }
    ensures may { (x : object_of) (expected : Option ℕ) (skip : Bool) → IsReplacement state.now.state x old.now expected skip next → IfOk result (λ r. MayWriteAll state.now.state r.writes.items) }
{
    if next.is_same(old.object()) {
        drop(next);
        return Ok(shown(state, old)?);
    }
    if let Err(denial) = check_growth(state, &next.id, Some(old.object()), Some(&next)) {
        let refusal = denial.refusal(&next.id);
        drop(next);
        return Err(refusal);
    }
    Ok(put(state, next, false)?)
}

/// The object that a PUT gives in the place of the one that is there. What it adds to the sizes isn't looked at yet.
fn replacement(
    state: &IndexedState,
    old: &Object,
    object: Object,
    expected: Option<u64>,
    skip: bool,
) -> Result<Object, Refusal>
    requires served { IsServed object }
    requires there { object_at state.now.state.objects object.id ≡ Some old.now }
    ensures refused { IfErr result (IsRefusal state.now.state (Ask.Replace object expected skip)) }
    ensures gives { IfOk result (IsReplacement state.now.state object old.now expected skip) }
{
    if let Err(refusal) = check_replacement(state, old, &object, expected, skip) {
        drop(object);
        return Err(refusal);
    }
    Ok(replaced_by(old, object)?)
}

/// Finds the first refusal of a PUT, but for what it adds to the sizes.
fn check_replacement(
    state: &IndexedState,
    old: &Object,
    object: &Object,
    expected: Option<u64>,
    skip: bool,
) -> Result<(), Refusal>
    requires served { IsServed object.now }
    requires there { object_at state.now.state.objects object.now.id ≡ Some old.now }
    ensures refused { IfErr result (IsRefusal state.now.state (Ask.Replace object.now expected skip)) }
    ensures gives { OnOk result (IsReplacement state.now.state object.now old.now expected skip (put_over old.now object.now)) }
{
    let found = findings_of(state, &object.id, Some(old), Some(object), skip)?;
    if let Err(denial) = check_replace(state, old, object, expected, found, skip) {
        return Err(denial.refusal(&object.id));
    }
    if let Some(refusal) = quota_refusal(state, Some(old), object)? {
        return Err(refusal);
    }
    Ok(())
}

fn review_delete(state: &IndexedState, id: &Id, skip: bool) -> Result<Reviewed, Refusal>
    ensures refused { IfErr result (IsRefusal state.now.state (Ask.Delete id.now skip)) }
    ensures passes { IfOk result (λ r. Passes state.now.state (Ask.Delete id.now skip) r.writes.items r.answer) }
    ensures may { IfOk result (λ r. MayWriteAll state.now.state r.writes.items) }
{
    let Some(old) = state.store().get(id) else {
        return Err(Denial::NotFound.refusal(id));
    };
    let writes = deletion(state, id, old.object(), skip)?;
    if let Err(denial) = check_version_left(state, &writes) {
        return Err(denial.refusal(id));
    }
    Ok(deleted(state, writes))
}

/// What a DELETE of an object that is there changes, where no rule stands against it.
fn deletion(state: &IndexedState, id: &Id, old: &Object, skip: bool) -> Result<Vec<Change>, Refusal>
    requires { object_at state.now.state.objects id.now ≡ Some old.now }
    ensures refused { IfErr result (IsRefusal state.now.state (Ask.Delete id.now skip)) }
    ensures gives { IfOk result (λ writes. IsDeletion state.now.state id.now old.now skip writes.items) }
{
    let found = findings_of(state, id, Some(old), None, skip)?;
    if let Err(denial) = check_delete(state, old, id, found, skip) {
        return Err(denial.refusal(id));
    }
    Ok(removal(state, id, old, skip)?)
}

/// The review of a request that shows an object.
fn shown(state: &IndexedState, object: &Shared) -> Result<Reviewed, NoMemory>
    ensures writing { IfOk result (λ r. r.writes.items ≡ []) }
    ensures answers { IfOk result (λ r. r.answer ≡ Answer.One object.now false) }
    ensures may { IfOk result (λ r. MayWriteAll state.now.state r.writes.items) }
{
    let object = object.share()?;
    Ok(unchanged(
        state,
        Answer::One {
            object,
            fresh: false,
        },
    ))
}

/// The review of a request that changes nothing.
fn unchanged(state: &IndexedState, answer: Answer) -> Reviewed
    ensures writing { result.writes.items ≡ [] }
    ensures answers { result.answer ≡ answer }
    ensures may { MayWriteAll state.now.state result.writes.items }
{
    Reviewed {
        writes: Vec::new(state.allocator()),
        answer,
    }
}

/// The review of a request that stores an object.
fn put(state: &IndexedState, mut object: Object, fresh: bool) -> Result<Reviewed, NoMemory>
    requires { state.now.state.last < greatest_version }
    ensures { IfOk result (λ r. IsReviewed (write_of.Put (with_version object (state.now.state.last + 1))) (Answer.One (with_version object (state.now.state.last + 1)) fresh) r.writes.items r.answer) }
{
    let alloc = state.allocator();
    object.version = state.version() + 1;
    let stored = Shared::new(alloc, object)?;
    let shown = stored.share()?;
    Ok(Reviewed {
        writes: vec![in alloc; Change::put(stored)?]?,
        answer: Answer::One {
            object: shown,
            fresh,
        },
    })
}

/// The review of a request that removes an object, by what it writes.
fn deleted(state: &IndexedState, writes: Vec<Change>) -> Reviewed
    ensures writing { result.writes.items ≡ writes.items }
    ensures answers { result.answer ≡ Answer.Deleted (state_after state.now.state writes.items).last }
{
    state.law_of_validity();
    let last = state.version();
    let version = if writes.is_empty() { last } else { last + 1 };
    Reviewed {
        writes,
        answer: Answer::Deleted { version },
    }
}
