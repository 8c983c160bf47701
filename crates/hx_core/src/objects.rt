// All objects of a state.
ghost use Rattle.std.specs.Prelude.{◌≡◌, ◌++◌, true, IfOk, None, OnOk, filter};
ghost use Rattle.hx_model.specs.Answers.{is_listed};
ghost use Rattle.hx_model.specs.State.{ascends};
ghost use Rattle.hx_core.specs.Listing.{of_kinds};

use hx_object::{Kind, NoMemory, Shared};
use hx_store::Store;

/// All objects, in ascending order of identities.
pub fn all_objects(store: &Store) -> Result<Vec<Shared>, NoMemory>
    requires { ascends store.now.objects ≡ true }
    ensures { IfOk result (λ objects. objects.items ≡ store.now.objects) }
{
    listed(
        store,
        &[
            Kind::Namespace,
            Kind::HncConfiguration,
            Kind::HierarchyConfiguration,
            Kind::SubnamespaceAnchor,
            Kind::HierarchicalResourceQuota,
            Kind::Role,
            Kind::RoleBinding,
            Kind::ConfigMap,
            Kind::Secret,
            Kind::NetworkPolicy,
            Kind::LimitRange,
            Kind::Pod,
            Kind::Service,
            Kind::PersistentVolumeClaim,
        ],
    )
}

/// The objects of some kinds, one kind after the other.
fn listed(store: &Store, kinds: &[Kind]) -> Result<Vec<Shared>, NoMemory>
    ensures { IfOk result (λ objects. objects.items ≡ of_kinds store.now.objects kinds.now) }
{
    let mut objects = Vec::new(store.allocator());
    for kind in kinds {
        add_kind(store, *kind, &mut objects)?;
    }
    Ok(objects)
}

/// Puts the objects of a kind behind others.
fn add_kind(store: &Store, kind: Kind, objects: &mut Vec<Shared>) -> Result<(), NoMemory>
    ensures { OnOk result (objects.new.items ≡ objects.old.items ++ filter (is_listed kind None) store.now.objects) }
{
    let mut more = store.list(kind, None)?;
    objects.append(&mut more)?;
    Ok(())
}
