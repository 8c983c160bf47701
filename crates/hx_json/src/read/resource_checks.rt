// The faults of quotas, Pods and claims, in their order.
ghost use Rattle.std.specs.Prelude.{◌≡◌, codes, true, option_map};
ghost use Rattle.json.specs.Value.{value_view};
ghost use Rattle.hx_model.specs.First.{first};
ghost use Rattle.hx_json.specs.Inside.{fault_in, phase_fault, requests_fault, storage_fault};
ghost use Rattle.hx_json.specs.Reading.{asks_fault, asks_faults, claim_fault, container_fault, first_of_items, hard_faults, items_in, pod_faults, quantity_fault, quota_fault, resources_faults};
ghost use Rattle.hx_json.specs.Trees.{has_sorted_limits, is_sorted_in, said, said_items};

use super::members::{get, in_spec, member};
use super::quantity::amount_in;
use super::quota::are_quantities;
use super::shapes::{MemberFault, Shape, check, check_in_spec, is_object, required};
use json::Value;

// Paths of members as faults name them.
const HARD: &str = "spec.hard";

const PHASE: &str = "status.phase";

const STORAGE: &str = "spec.resources.requests.storage";

/// The fault of a quota's limits. They have to be there, though there may be none of them.
pub fn check_quota(value: &Value<'_>) -> Result<(), MemberFault>
    requires { has_sorted_limits (value_view value.now) ≡ true }
    ensures { fault_in result ≡ quota_fault (said value.now) }
{
    match member(value, "spec") {
        None => Err(MemberFault::Missing(HARD)),
        Some(spec) if is_object(spec) => check_hard(spec),
        Some(_) => Err(MemberFault::WrongType(HARD)),
    }
}

/// The same of its `spec`.
fn check_hard(spec: &Value<'_>) -> Result<(), MemberFault>
    requires { is_sorted_in (codes "hard") (value_view spec.now) ≡ true }
    ensures { fault_in result ≡ first (hard_faults (said spec.now)) }
{
    let hard = required(get(spec, "hard"), HARD, Shape::Object)?;
    if are_quantities(hard) {
        Ok(())
    } else {
        Err(MemberFault::BadQuantity(HARD))
    }
}

/// Refuses a member that is no quantity. An absent one passes.
fn check_quantity(found: Option<&Value<'_>>, path: &'static str) -> Result<(), MemberFault>
    ensures { fault_in result ≡ quantity_fault path.now (option_map (λ v. said v.now) found.entry) }
{
    match found {
        Some(value) if amount_in(value).is_none() => Err(MemberFault::BadQuantity(path)),
        _ => Ok(()),
    }
}

/// The faults of a Pod: of its containers, then of its init containers, one by one, and of its phase.
pub fn check_pod(value: &Value<'_>) -> Result<(), MemberFault>
    ensures { fault_in result ≡ first (pod_faults (said value.now)) }
{
    check_in_spec(value, "containers", "spec.containers", Shape::Entries)?;
    check_in_spec(
        value,
        "initContainers",
        "spec.initContainers",
        Shape::Entries,
    )?;
    check_containers(in_spec(value, "containers"), "spec.containers.resources")?;
    check_containers(
        in_spec(value, "initContainers"),
        "spec.initContainers.resources",
    )?;
    check_phase(value)
}

/// The faults of the containers that a member lists.
fn check_containers(found: Option<&Value<'_>>, path: &'static str) -> Result<(), MemberFault>
    ensures { fault_in result ≡ first_of_items (container_fault path.now) (items_in (option_map (λ v. said v.now) found.entry)) }
{
    match found {
        Some(Value::Array(containers)) => check_each(containers, path),
        _ => Ok(()),
    }
}

/// The faults of containers, one by one.
fn check_each(containers: &[Value<'_>], path: &'static str) -> Result<(), MemberFault>
    ensures { fault_in result ≡ first_of_items (container_fault path.now) (said_items containers.now) }
{
    for container in containers {
        check_container(container, path)?;
    }
    Ok(())
}

/// The fault of what a container asks for.
fn check_container(container: &Value<'_>, path: &'static str) -> Result<(), MemberFault>
    ensures { fault_in result ≡ container_fault path.now (said container.now) }
{
    match member(container, "resources") {
        None => Ok(()),
        Some(resources) if is_object(resources) => check_resources(resources, path),
        Some(_) => Err(MemberFault::WrongType(path)),
    }
}

fn check_resources(resources: &Value<'_>, path: &'static str) -> Result<(), MemberFault>
    ensures { fault_in result ≡ first (resources_faults path.now (said resources.now)) }
{
    check_asks(resources, "requests", path)?;
    check_asks(resources, "limits", path)
}

/// The fault of what a container asks for under `requests` or `limits`.
fn check_asks(resources: &Value<'_>, part: &str, path: &'static str) -> Result<(), MemberFault>
    ensures { fault_in result ≡ asks_fault path.now part.now (said resources.now) }
{
    match member(resources, part) {
        None => Ok(()),
        Some(asks) if is_object(asks) => check_amounts(asks, path),
        Some(_) => Err(MemberFault::WrongType(path)),
    }
}

fn check_amounts(asks: &Value<'_>, path: &'static str) -> Result<(), MemberFault>
    ensures { fault_in result ≡ first (asks_faults path.now (said asks.now)) }
{
    check_quantity(member(asks, "cpu"), path)?;
    check_quantity(member(asks, "memory"), path)
}

fn check_phase(value: &Value<'_>) -> Result<(), MemberFault>
    ensures { fault_in result ≡ phase_fault (said value.now) }
{
    match member(value, "status") {
        None => Ok(()),
        Some(status) if is_object(status) => check(member(status, "phase"), PHASE, Shape::Text),
        Some(_) => Err(MemberFault::WrongType(PHASE)),
    }
}

/// The fault of what a claim asks for.
pub fn check_claim(value: &Value<'_>) -> Result<(), MemberFault>
    ensures { fault_in result ≡ claim_fault (said value.now) }
{
    match member(value, "spec") {
        None => Ok(()),
        Some(spec) if is_object(spec) => check_requests(spec),
        Some(_) => Err(MemberFault::WrongType(STORAGE)),
    }
}

/// The same of its `spec`.
fn check_requests(spec: &Value<'_>) -> Result<(), MemberFault>
    ensures { fault_in result ≡ requests_fault (said spec.now) }
{
    match member(spec, "resources") {
        None => Ok(()),
        Some(resources) if is_object(resources) => check_storage(resources),
        Some(_) => Err(MemberFault::WrongType(STORAGE)),
    }
}

/// The same of its `spec.resources`.
fn check_storage(resources: &Value<'_>) -> Result<(), MemberFault>
    ensures { fault_in result ≡ storage_fault (said resources.now) }
{
    match member(resources, "requests") {
        None => Ok(()),
        Some(requests) if is_object(requests) => {
            check_quantity(member(requests, "storage"), STORAGE)
        }
        Some(_) => Err(MemberFault::WrongType(STORAGE)),
    }
}
