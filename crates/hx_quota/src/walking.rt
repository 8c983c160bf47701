// What subtrees use, found by a walk over the objects.
ghost use Rattle.std.specs.Prelude.{◌≡◌, IfOk, sum_by};
ghost use Rattle.hx_model.specs.Quotas.{charge_below};

use hx_charge::{charge, kind_for};
use hx_forest::Forest;
use hx_model::Resource;
use hx_object::{NoMemory, Object, Shared, Text};
use hx_store::Store;

/// What all objects of a subtree are charged for a resource, in thousandths. A sum that doesn't fit 128 bits fits no memory, either.
pub(crate) fn used_by_walk(
    store: &Store,
    forest: &Forest,
    ns: &Text,
    resource: Resource,
) -> Result<u128, NoMemory>
    ensures { IfOk result (λ sum. sum ≡ sum_by (charge_below forest.now.nodes ns.now resource) store.now.objects) }
{
    let charged = store.list(kind_for(resource), None)?;
    sum_below(forest, ns, resource, &charged)
}

/// What those of some objects are charged that lie in a subtree.
fn sum_below(
    forest: &Forest,
    ns: &Text,
    resource: Resource,
    objects: &[Shared],
) -> Result<u128, NoMemory>
    ensures { IfOk result (λ sum. sum ≡ sum_by (charge_below forest.now.nodes ns.now resource) objects.now) }
{
    let mut sum = 0u128;
    for object in objects {
        let part = charge_below(forest, ns, resource, object.object());
        sum = sum.checked_add(part).ok_or(NoMemory)?;
    }
    Ok(sum)
}

/// What an object is charged, where it lies in a subtree.
fn charge_below(forest: &Forest, ns: &Text, resource: Resource, object: &Object) -> u128
    ensures { result ≡ charge_below forest.now.nodes ns.now resource object.now }
{
    if forest.in_chain(&object.id.ns, ns) {
        charge(object, resource)
    } else {
        0
    }
}
