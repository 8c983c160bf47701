// What the containers of a Pod ask for.
ghost use Rattle.std.specs.Prelude.{◌≡◌, is_none, sum_by};
ghost use Rattle.std.specs.List.{list_any};
ghost use Rattle.hx_model.specs.Charges.{ask_of, stated, amount_of, amount_beside, amount_before, most_before, asked_by, lacks};

use hx_model::Resource;
use hx_object::Container;

/// The place of a resource among the asks of a container.
pub(crate) fn ask_of(resource: Resource) -> Option<usize>
    ensures { result ≡ ask_of resource }
{
    match resource {
        Resource::RequestsCpu => Some(0),
        Resource::RequestsMemory => Some(1),
        Resource::LimitsCpu => Some(2),
        Resource::LimitsMemory => Some(3),
        _ => None,
    }
}

/// What a Pod's containers ask for together. Init containers run alone, one after another, before the others, which run beside one another. So it is the larger of the sum over these and the most that one init container asks for (Kubernetes, "Init Containers", on the effective requests of a Pod).
pub(crate) fn asked_by(containers: &[Container], ask: usize) -> u128
    ensures { result ≡ asked_by ask containers.now }
{
    sum_beside(containers, ask).max(u128::from(most_before(containers, ask)))
}

/// Whether some container doesn't state what it asks for.
pub(crate) fn lacks(containers: &[Container], ask: Option<usize>) -> bool
    ensures { result ≡ lacks containers.now ask }
{
    match ask {
        Some(ask) => lacks_at(containers, ask),
        None => false,
    }
}

fn lacks_at(containers: &[Container], ask: usize) -> bool
    ensures { result ≡ list_any (λ c. is_none (stated ask c)) containers.now }
{
    containers.iter().any(|container| is_open(container, ask))
}

/// Whether a container doesn't state what it asks for.
fn is_open(container: &Container, ask: usize) -> bool
    ensures { result ≡ is_none (stated ask container.now) }
{
    stated(container, ask).is_none()
}

/// The sum over the containers that run beside one another. It fits: there are fewer than 2^63 containers, and each asks for less than 2^64.
fn sum_beside(containers: &[Container], ask: usize) -> u128
    ensures { result ≡ sum_by (amount_beside ask) containers.now }
{
    let mut sum = 0;
    for container in containers {
        sum += u128::from(amount_beside(container, ask));
    }
    sum
}

/// The most that an init container asks for.
fn most_before(containers: &[Container], ask: usize) -> u64
    ensures { result ≡ most_before ask containers.now }
{
    let mut most = 0;
    for container in containers {
        most = most.max(amount_before(container, ask));
    }
    most
}

/// What a container asks for that runs beside others. It is 0 for an init container.
fn amount_beside(container: &Container, ask: usize) -> u64
    ensures { result ≡ amount_beside ask container.now }
{
    if container.init {
        0
    } else {
        amount_of(container, ask)
    }
}

/// What an init container asks for. It is 0 for any other.
fn amount_before(container: &Container, ask: usize) -> u64
    ensures { result ≡ amount_before ask container.now }
{
    if container.init {
        amount_of(container, ask)
    } else {
        0
    }
}

/// What a container asks for, 0 where it states nothing.
fn amount_of(container: &Container, ask: usize) -> u64
    ensures { result ≡ amount_of ask container.now }
{
    stated(container, ask).unwrap_or(0)
}

/// What a container states, by the place among its asks.
fn stated(container: &Container, ask: usize) -> Option<u64>
    ensures { result ≡ stated ask container.now }
{
    match container.asks.get(ask) {
        Some(stated) => *stated,
        None => None,
    }
}
