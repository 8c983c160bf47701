// The names of namespaces and anchors, which are limited.
ghost use Rattle.std.specs.Prelude.{◌≡◌, true, is_some, if◌then◌else◌, filter, length, IfOk, option_copied};
ghost use Rattle.hx_model.specs.Limits.{is_named};
ghost use Rattle.hx_model.specs.State.{object_at, namespace_id};
ghost use Rattle.hx_model.specs.Writes.{gives_name};
ghost use Rattle.hx_store.specs.Sources.{is_anchor_of};
ghost use Rattle.hx_state.specs.Counting.{is_new_name, is_last_name, name_change, come, gone};
ghost use Rattle.hx_state.specs.declared.names.NameChange.TheVariants.{Stays};

use crate::indexed_state::IndexedState;
use hx_object::{Id, Kind, NoMemory, Object, Text};
use hx_store::Store;

/// What a write changes of the names.
#[derive(Clone, Copy)]
pub(crate) enum NameChange {
    /// A name comes that no namespace and no anchor had.
    Comes,
    /// A name goes that no other has.
    Goes,
    /// No name comes or goes.
    Stays,
}

impl NameChange {
    /// This change where a test holds, and else none.
    fn or_stays(self, changes: bool) -> NameChange
        ensures { result ≡ (if changes then self else Stays) }
    {
        if changes { self } else { NameChange::Stays }
    }

    /// What it adds to the number of names.
    pub(crate) fn come(self) -> u64
        ensures { result ≡ come self }
    {
        match self {
            NameChange::Comes => 1,
            _ => 0,
        }
    }

    /// What it takes off the number of names.
    pub(crate) fn gone(self) -> u64
        ensures { result ≡ gone self }
    {
        match self {
            NameChange::Goes => 1,
            _ => 0,
        }
    }
}

impl IndexedState {
    /// Whether an identity is of a namespace or an anchor, and neither a namespace nor an anchor has its name.
    pub fn brings_name(&self, id: &Id) -> Result<bool, NoMemory>
        ensures { IfOk result (λ brings. brings ≡ is_new_name self.now.state.objects id.now) }
    {
        if !gives_name(id.kind) {
            return Ok(false);
        }
        Ok(!self.is_named(&id.name)?)
    }

    /// What a write changes of the names. Writes that change none look for no anchors.
    pub(crate) fn name_change(
        &self,
        id: &Id,
        old: Option<&Object>,
        new: Option<&Object>,
    ) -> Result<NameChange, NoMemory>
        requires there { object_at self.now.state.objects id.now ≡ option_copied old }
        ensures { IfOk result (λ change. change ≡ name_change self.now.state.objects id.now (option_copied old.entry) (option_copied new.entry)) }
    {
        match (old, new) {
            (None, Some(_)) => Ok(NameChange::Comes.or_stays(self.brings_name(id)?)),
            (Some(_), None) => Ok(NameChange::Goes.or_stays(self.takes_name(id)?)),
            _ => Ok(NameChange::Stays),
        }
    }

    /// Whether no other namespace or anchor has the name of one that is there.
    fn takes_name(&self, id: &Id) -> Result<bool, NoMemory>
        requires there { is_some (object_at self.now.state.objects id.now) ≡ true }
        ensures { IfOk result (λ takes. takes ≡ is_last_name self.now.state.objects id.now) }
    {
        match id.kind {
            Kind::Namespace => Ok(anchors_named(&self.store, &id.name)? == 0),
            Kind::SubnamespaceAnchor => {
                Ok(!self.has_namespace(&id.name) && anchors_named(&self.store, &id.name)? <= 1)
            }
            _ => Ok(false),
        }
    }

    /// Whether a namespace or an anchor has a name.
    fn is_named(&self, name: &Text) -> Result<bool, NoMemory>
        ensures { IfOk result (λ named. named ≡ is_named self.now.state.objects name.now) }
    {
        Ok(self.has_namespace(name) || anchors_named(&self.store, name)? > 0)
    }

    /// Whether a namespace has a name.
    fn has_namespace(&self, name: &Text) -> bool
        ensures { result ≡ is_some (object_at self.now.state.objects (namespace_id name.now)) }
    {
        self.named(name).is_some()
    }
}

/// How many anchors of a name there are, in all namespaces.
fn anchors_named(store: &Store, name: &Text) -> Result<usize, NoMemory>
    ensures { IfOk result (λ count. count ≡ length (filter (is_anchor_of name.now) store.now.objects)) }
{
    Ok(store.anchors(name.as_str())?.len())
}

/// Whether objects of a kind give names, which are limited.
fn gives_name(kind: Kind) -> bool
    ensures { result ≡ gives_name kind }
{
    matches!(kind, Kind::Namespace | Kind::SubnamespaceAnchor)
}
