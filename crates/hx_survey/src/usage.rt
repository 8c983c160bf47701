// What the objects of subtrees are charged.
ghost use Rattle.std.specs.Prelude.{◌≡◌, ◌+◌, true, Some, IfOk, filter, sum_by};
ghost use Rattle.hx_model.specs.Charges.{kind_for};
ghost use Rattle.hx_model.specs.Quotas.{charge_below};
ghost use Rattle.hx_model.specs.State.{ascends, is_listed};
ghost use Rattle.hx_survey.specs.Inside.{charge_in, charge_of_all};

use crate::search::listed_in;
use crate::tree::Tree;
use hx_charge::{charge, kind_for};
use hx_model::Resource;
use hx_object::{NoMemory, Shared, Text};

/// What all objects of the subtree of a namespace are charged for a resource. Only those are looked at that lie in it and are of the kind that is charged.
pub(crate) fn used_below(
    tree: &Tree,
    objects: &[Shared],
    ns: &Text,
    resource: Resource,
) -> Result<u128, NoMemory>
    requires { ascends objects.now ≡ true }
    ensures { IfOk result (λ sum. sum ≡ sum_by (charge_below tree.now ns.now resource) objects.now) }
{
    let names = tree.subtree(ns)?;
    charge_in_all(objects, &names, resource)
}

/// What the objects in some namespaces are charged.
fn charge_in_all(objects: &[Shared], names: &[Text], resource: Resource) -> Result<u128, NoMemory>
    requires { ascends objects.now ≡ true }
    ensures { IfOk result (λ sum. sum ≡ sum_by (charge_in objects.now resource) names.now) }
{
    let mut sum = 0;
    for name in names {
        sum = added(sum, charge_in(objects, name, resource)?)?;
    }
    Ok(sum)
}

/// What the objects in a namespace are charged.
pub(crate) fn charge_in(
    objects: &[Shared],
    name: &Text,
    resource: Resource,
) -> Result<u128, NoMemory>
    requires { ascends objects.now ≡ true }
    ensures { IfOk result (λ sum. sum ≡ charge_in objects.now resource name.now) }
{
    let charged = charged_in(objects, name, resource);
    charge_of_all(charged, resource)
}

/// The objects in a namespace that are of the kind that is charged.
fn charged_in<'a>(objects: &'a [Shared], name: &Text, resource: Resource) -> &'a [Shared]
    requires { ascends objects.now ≡ true }
    ensures { result.now ≡ filter (is_listed (kind_for resource) (Some name.now)) objects.now }
{
    listed_in(objects, kind_for(resource), name)
}

/// What some objects are charged.
fn charge_of_all(objects: &[Shared], resource: Resource) -> Result<u128, NoMemory>
    ensures { IfOk result (λ sum. sum ≡ charge_of_all objects.now resource) }
{
    let mut sum = 0;
    for shared in objects {
        sum = added(sum, charge(shared.object(), resource))?;
    }
    Ok(sum)
}

/// The sum of two charges. One that passes 2^128 counts as want of memory.
pub(crate) fn added(sum: u128, more: u128) -> Result<u128, NoMemory>
    ensures { IfOk result (λ total. total ≡ sum + more) }
{
    match sum.checked_add(more) {
        Some(total) => Ok(total),
        None => Err(NoMemory),
    }
}
