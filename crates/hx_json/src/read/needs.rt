// What quotas and propagation need to know of Secrets, Pods and claims.
ghost use Rattle.std.specs.Prelude.{◌≡◌, ◌++◌, IfOk, OnOk, option_map};
ghost use Rattle.serde_json.specs.Find.{get};
ghost use Rattle.hx_object.specs.Needs.{amount_at, asked_in, container_of, containers_in, containers_of, is_finished_in, is_token, need_of, request_in, storage_asked};
ghost use Rattle.hx_json.specs.Inside.{need_said};
ghost use Rattle.hx_json.specs.Reading.{items_in, kept_members};
ghost use Rattle.hx_json.specs.Trees.{said, said_items};

use super::members::{get, in_spec, in_status, member, text_in};
use super::quantity::amount_in;
use hx_object::{Container, Kind, List, Need, NoMemory};
use json::Value;
use std::alloc::Global;

/// What quotas and propagation need to know of an object of a plain kind, by what is kept of its body.
#[tactic(auto, using(crate::proofs::Needs::need_kept))]
pub fn need_of(alloc: Global, value: &Value<'_>, kind: Kind) -> Result<Need, NoMemory>
    ensures { IfOk result (λ need. need ≡ need_of kind (kept_members (said value.now))) }
{
    need_said(alloc, value, kind)
}

/// The same by all members of a body, of which those that are kept say it.
fn need_said(alloc: Global, value: &Value<'_>, kind: Kind) -> Result<Need, NoMemory>
    ensures { IfOk result (λ need. need ≡ need_said kind (said value.now)) }
{
    let mut need = Need {
        finished: false,
        token: false,
        storage: 0,
        containers: List::of(Vec::new(alloc)),
    };
    match kind {
        Kind::Secret => need.token = is_token(get(value, "type")),
        Kind::Pod => {
            need.finished = is_finished(value);
            need.containers = containers_in(alloc, value)?;
        }
        Kind::PersistentVolumeClaim => need.storage = storage_asked(value).unwrap_or(0),
        _ => {}
    }
    Ok(need)
}

/// Whether a Secret of this type is a service account's token.
fn is_token(found: Option<&Value<'_>>) -> bool
    ensures { result ≡ is_token (option_map (λ v. said v.now) found.entry) }
{
    match found {
        Some(Value::String(text)) => *text == "kubernetes.io/service-account-token",
        _ => false,
    }
}

/// Whether a Pod's containers have ended, by its phase: Kubernetes' quotas don't count a Pod whose phase is `Succeeded` or `Failed`.
fn is_finished(value: &Value<'_>) -> bool
    ensures { result ≡ is_finished_in (said value.now) }
{
    matches!(
        text_in(in_status(value, "phase")),
        Some("Succeeded" | "Failed")
    )
}

/// The containers of a Pod, and then its init containers.
fn containers_in(alloc: Global, value: &Value<'_>) -> Result<List<Container>, NoMemory>
    ensures { IfOk result (λ l. l ≡ containers_in (said value.now)) }
{
    let mut containers = Vec::new(alloc);
    push_containers(&mut containers, in_spec(value, "containers"), false)?;
    push_containers(&mut containers, in_spec(value, "initContainers"), true)?;
    Ok(List::of(containers))
}

/// Appends the containers that a member lists.
fn push_containers(
    containers: &mut Vec<Container>,
    found: Option<&Value<'_>>,
    init: bool,
) -> Result<(), NoMemory>
    ensures { OnOk result (containers.new.items ≡ containers.old.items ++ containers_of init (items_in (option_map (λ v. said v.now) found.entry))) }
{
    match found {
        Some(Value::Array(items)) => push_items(containers, items, init),
        _ => Ok(()),
    }
}

fn push_items(
    containers: &mut Vec<Container>,
    items: &[Value<'_>],
    init: bool,
) -> Result<(), NoMemory>
    ensures { OnOk result (containers.new.items ≡ containers.old.items ++ containers_of init (said_items items.now)) }
{
    for item in items {
        containers.push(container_of(item, init))?;
    }
    Ok(())
}

fn container_of(container: &Value<'_>, init: bool) -> Container
    ensures { result ≡ container_of init (said container.now) }
{
    Container {
        init,
        asks: [
            request_in(container, "cpu"),
            request_in(container, "memory"),
            asked_in(container, "limits", "cpu"),
            asked_in(container, "limits", "memory"),
        ],
    }
}

/// What a container requests of one resource, in thousandths. A request that isn't there is the limit, as Kubernetes sets it.
fn request_in(container: &Value<'_>, resource: &str) -> Option<u64>
    ensures { result ≡ request_in resource.now (said container.now) }
{
    match asked_in(container, "requests", resource) {
        Some(amount) => Some(amount),
        None => asked_in(container, "limits", resource),
    }
}

/// What a container asks for of one resource, under `requests` or `limits`, in thousandths.
fn asked_in(container: &Value<'_>, part: &str, resource: &str) -> Option<u64>
    ensures { result ≡ asked_in part.now resource.now (said container.now) }
{
    amount_at(member(member(container, "resources")?, part)?, resource)
}

/// The amount of a member, where it is there and is a quantity.
fn amount_at(value: &Value<'_>, name: &str) -> Option<u64>
    ensures { result ≡ amount_at name.now (said value.now) }
{
    amount_in(member(value, name)?)
}

/// What a claim asks for under `spec.resources.requests`, in thousandths of bytes.
fn storage_asked(value: &Value<'_>) -> Option<u64>
    ensures { result ≡ storage_asked (said value.now) }
{
    amount_at(member(in_spec(value, "resources")?, "requests")?, "storage")
}
