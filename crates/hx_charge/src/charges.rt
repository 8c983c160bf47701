// What an object is charged.
ghost use Rattle.std.specs.Prelude.{◌≡◌, option_copied};
ghost use Rattle.hx_object.specs.Kinds.{is_plain};
ghost use Rattle.hx_model.specs.Charges.{charge_of, charge_by, is_charged, is_running, is_unstated, is_pod, asked_of, one_of, kind_for, resources_for};
ghost use Rattle.hx_model.specs.Quotas.{charge_before};

use crate::asks::{ask_of, asked_by, lacks};
use crate::payload::{containers_in, is_finished, storage_in};
use hx_model::{Resource, is_copy};
use hx_object::{Kind, Object, Payload};

const POD_RESOURCES: [Resource; 6] = [
    Resource::Pods,
    Resource::RequestsCpu,
    Resource::RequestsMemory,
    Resource::LimitsCpu,
    Resource::LimitsMemory,
    Resource::CountPods,
];

/// What an object adds to the usage of a resource in its namespace, in thousandths.
///
/// A Pod is charged what its containers ask for until it has finished, a claim its storage, and each object one for the count of its kind, as HNC's HierarchicalResourceQuota takes it from Kubernetes ("Resource Quotas"). Copies, which reconcilers write, the objects of HNC's own kinds and namespaces are charged nothing.
#[tactic(auto, unfolding(hx_model::specs::Charges::charge_of))]
pub fn charge(object: &Object, resource: Resource) -> u128
    ensures { result ≡ charge_of object.now resource }
{
    if is_charged(object) {
        charge_by(object.id.kind, &object.payload, resource)
    } else {
        0
    }
}

/// The same of what is found in a place: 0, where nothing is.
pub fn charge_before(old: Option<&Object>, resource: Resource) -> u128
    ensures { result ≡ charge_before (option_copied old.entry) resource }
{
    match old {
        Some(object) => charge(object, resource),
        None => 0,
    }
}

/// Whether a Pod has a container, maybe an init container, that doesn't state what it asks of the resource. Where a quota limits the resource, such a Pod can't be counted (Kubernetes, "Resource Quotas").
#[tactic(auto, unfolding(hx_model::specs::Charges::is_unstated))]
pub fn is_unstated(object: &Object, resource: Resource) -> bool
    ensures { result ≡ is_unstated object.now resource }
{
    is_pod(object.id.kind) && lacks(containers_in(&object.payload), ask_of(resource))
}

/// The kind whose objects are charged for a resource. Those of all others are charged nothing.
pub fn kind_for(resource: Resource) -> Kind
    ensures { result ≡ kind_for resource }
{
    match resource {
        Resource::Pods
        | Resource::RequestsCpu
        | Resource::RequestsMemory
        | Resource::LimitsCpu
        | Resource::LimitsMemory
        | Resource::CountPods => Kind::Pod,
        Resource::RequestsStorage | Resource::CountClaims => Kind::PersistentVolumeClaim,
        Resource::CountRoles => Kind::Role,
        Resource::CountRoleBindings => Kind::RoleBinding,
        Resource::CountConfigMaps => Kind::ConfigMap,
        Resource::CountSecrets => Kind::Secret,
        Resource::CountNetworkPolicies => Kind::NetworkPolicy,
        Resource::CountLimitRanges => Kind::LimitRange,
        Resource::CountServices => Kind::Service,
    }
}

/// The resources that objects of a kind are charged for.
pub fn resources_for(kind: Kind) -> &'static [Resource]
    ensures { result.now ≡ resources_for kind }
{
    match kind {
        Kind::Role => &[Resource::CountRoles],
        Kind::RoleBinding => &[Resource::CountRoleBindings],
        Kind::ConfigMap => &[Resource::CountConfigMaps],
        Kind::Secret => &[Resource::CountSecrets],
        Kind::NetworkPolicy => &[Resource::CountNetworkPolicies],
        Kind::LimitRange => &[Resource::CountLimitRanges],
        Kind::Pod => &POD_RESOURCES,
        Kind::Service => &[Resource::CountServices],
        Kind::PersistentVolumeClaim => &[Resource::RequestsStorage, Resource::CountClaims],
        _ => &[],
    }
}

/// Whether an object is charged at all.
fn is_charged(object: &Object) -> bool
    ensures { result ≡ is_charged object.now }
{
    is_plain(object.id.kind) && !is_copy(object)
}

/// What an object of a kind is charged.
fn charge_by(kind: Kind, payload: &Payload, resource: Resource) -> u128
    ensures { result ≡ charge_by kind payload.now resource }
{
    match resource {
        Resource::Pods if is_running(kind, payload) => 1000,
        Resource::Pods => 0,
        Resource::RequestsCpu => asked_of(kind, payload, 0),
        Resource::RequestsMemory => asked_of(kind, payload, 1),
        Resource::LimitsCpu => asked_of(kind, payload, 2),
        Resource::LimitsMemory => asked_of(kind, payload, 3),
        Resource::RequestsStorage if kind == Kind::PersistentVolumeClaim => {
            u128::from(storage_in(payload))
        }
        Resource::RequestsStorage => 0,
        Resource::CountRoles => one_of(Kind::Role, kind),
        Resource::CountRoleBindings => one_of(Kind::RoleBinding, kind),
        Resource::CountConfigMaps => one_of(Kind::ConfigMap, kind),
        Resource::CountSecrets => one_of(Kind::Secret, kind),
        Resource::CountNetworkPolicies => one_of(Kind::NetworkPolicy, kind),
        Resource::CountLimitRanges => one_of(Kind::LimitRange, kind),
        Resource::CountPods => one_of(Kind::Pod, kind),
        Resource::CountServices => one_of(Kind::Service, kind),
        Resource::CountClaims => one_of(Kind::PersistentVolumeClaim, kind),
    }
}

/// What a Pod that hasn't finished asks for, by the place among the asks of its containers.
fn asked_of(kind: Kind, payload: &Payload, ask: usize) -> u128
    ensures { result ≡ asked_of kind payload.now ask }
{
    if is_running(kind, payload) {
        asked_by(containers_in(payload), ask)
    } else {
        0
    }
}

/// One, in thousandths, for an object of the kind that is counted.
fn one_of(counted: Kind, kind: Kind) -> u128
    ensures { result ≡ one_of counted kind }
{
    if counted.number() == kind.number() {
        1000
    } else {
        0
    }
}

/// Whether it is a Pod that hasn't finished.
pub fn is_running(kind: Kind, payload: &Payload) -> bool
    ensures { result ≡ is_running kind payload.now }
{
    is_pod(kind) && !is_finished(payload)
}

fn is_pod(kind: Kind) -> bool
    ensures { result ≡ is_pod kind }
{
    matches!(kind, Kind::Pod)
}

/// Whether objects of the kind are kept as they are given: all but namespaces and HNC's own kinds.
fn is_plain(kind: Kind) -> bool
    ensures { result ≡ is_plain kind }
{
    !matches!(
        kind,
        Kind::Namespace
            | Kind::HncConfiguration
            | Kind::HierarchyConfiguration
            | Kind::SubnamespaceAnchor
            | Kind::HierarchicalResourceQuota
    )
}
