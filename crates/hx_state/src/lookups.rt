// What is looked up in a state.
ghost use Rattle.std.specs.Prelude.{◌≡◌, IfOk, option_copied};
ghost use Rattle.hx_model.specs.Moves.{mode_at};
ghost use Rattle.hx_model.specs.Quotas.{used};
ghost use Rattle.hx_model.specs.State.{object_at, namespace_id};

use crate::indexed_state::IndexedState;
use hx_model::{Resource, mode_in};
use hx_object::well_known::CONFIG;
use hx_object::{Id, Kind, Mode, NoMemory, Object, Shared, Text};
use hx_store::Store;

impl IndexedState {
    /// The object of an identity.
    pub fn object(&self, id: &Id) -> Option<&Object>
        ensures { option_copied result ≡ object_at self.now.state.objects id.now }
    {
        object_in(self.store.get(id))
    }

    /// The namespace of a name.
    pub fn named(&self, name: &Text) -> Option<&Object>
        ensures { option_copied result ≡ object_at self.now.state.objects (namespace_id name.now) }
    {
        object_in(self.store.find(Kind::Namespace, "", name.as_str()))
    }

    /// What all objects of a subtree are charged for a resource, in thousandths. A sum that doesn't fit 128 bits fits no memory, either.
    pub fn used(&self, ns: &Text, resource: Resource) -> Result<u128, NoMemory>
        ensures { IfOk result (λ sum. sum ≡ used self.now.state ns.now resource) }
    {
        self.usage.used(&self.store, &self.forest, ns, resource)
    }
}

/// The object that is found.
pub fn object_in(found: Option<&Shared>) -> Option<&Object>
    ensures { option_copied result ≡ option_copied found.entry }
{
    match found {
        Some(shared) => Some(shared.object()),
        None => None,
    }
}

/// The mode of a kind, by the HNCConfiguration that is stored.
pub fn mode_at(store: &Store, kind: Kind) -> Mode
    ensures { result ≡ mode_at store.now.objects kind }
{
    let found = store.find(Kind::HncConfiguration, "", CONFIG);
    mode_in(object_in(found), kind)
}
