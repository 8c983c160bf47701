// What objects are charged, by the rules of Kubernetes on quotas and on the effective requests of Pods. The values were worked out by a plain program.
ghost use Rattle.std.specs.Prelude.{◌<◌};

use hx_charge::{charge, is_unstated};
use hx_model::Resource;
use hx_object::well_known::INHERITED_FROM;
use hx_object::{
    Container, Id, Kind, List, Members, Need, NoMemory, Object, Pairs, Payload, Places, Text,
};
use std::alloc::Global;
use std::test::Fail;

/// What is said of an object beside its kind and its containers.
#[derive(Clone, Copy, PartialEq, Eq)]
enum State {
    Runs,
    Finished,
    /// It has the label of copies.
    Labelled,
}

/// Whether it is an init container, and what it asks for.
type Asked = (bool, &'static [Option<u64>; 4]);

/// A row of the table.
#[derive(Clone, Copy)]
struct Case {
    kind: Kind,
    state: State,
    storage: u64,
    containers: &'static [Asked],
    resource: &'static str,
    charge: u128,
    is_unstated: bool,
}

const MAIN: bool = false;

const INIT: bool = true;

macro_rules! ask {
    (-) => {
        None
    };
    ($amount:literal) => {
        Some($amount)
    };
}

/// Rows by kind, state, storage, containers, the name of a resource, the charge, and whether a container doesn't state what it asks for. Each container has its requests.cpu, requests.memory, limits.cpu and limits.memory, and `-` is one that isn't stated.
macro_rules! rows {
    ($($kind:ident $state:ident $storage:literal { $($place:ident [$($ask:tt)*])* } $resource:literal => $charge:literal $is_unstated:literal;)*) => {
        [
            $(Case {
                kind: Kind::$kind,
                state: State::$state,
                storage: $storage,
                containers: &[$(($place, &[$(ask!($ask)),*])),*],
                resource: $resource,
                charge: $charge,
                is_unstated: $is_unstated,
            }),*
        ]
    };
}

/// How many rows there are.
const COUNT: usize = 116;

static ROWS: [Case; COUNT] = rows![
    // no containers
    Pod Runs 0 {} "pods" => 1000 false;
    Pod Runs 0 {} "count/pods" => 1000 false;
    Pod Runs 0 {} "requests.cpu" => 0 false;
    Pod Runs 0 {} "limits.memory" => 0 false;
    Pod Runs 0 {} "requests.storage" => 0 false;
    // containers that run beside one another
    Pod Runs 0 { MAIN[250 - - -] } "requests.cpu" => 250 false;
    Pod Runs 0 { MAIN[250 - - -] } "cpu" => 250 false;
    Pod Runs 0 { MAIN[250 - - -] MAIN[500 - - -] } "requests.cpu" => 750 false;
    Pod Runs 0 { MAIN[250 - - -] MAIN[500 - - -] MAIN[250 - - -] } "cpu" => 1000 false;
    Pod Runs 0 { MAIN[1 20 300 4000] MAIN[5 60 700 8000] } "requests.cpu" => 6 false;
    Pod Runs 0 { MAIN[1 20 300 4000] MAIN[5 60 700 8000] } "requests.memory" => 80 false;
    Pod Runs 0 { MAIN[1 20 300 4000] MAIN[5 60 700 8000] } "memory" => 80 false;
    Pod Runs 0 { MAIN[1 20 300 4000] MAIN[5 60 700 8000] } "limits.cpu" => 1000 false;
    Pod Runs 0 { MAIN[1 20 300 4000] MAIN[5 60 700 8000] } "limits.memory" => 12000 false;
    Pod Runs 0 { MAIN[1 20 300 4000] MAIN[5 60 700 8000] } "pods" => 1000 false;
    Pod Runs 0 { MAIN[1 20 300 4000] MAIN[5 60 700 8000] } "count/pods" => 1000 false;
    Pod Runs 0 { MAIN[1 20 300 4000] MAIN[5 60 700 8000] } "requests.storage" => 0 false;
    Pod Runs 0 { MAIN[1 20 300 4000] MAIN[5 60 700 8000] } "services" => 0 false;
    // init containers alone: the most of one
    Pod Runs 0 { INIT[700 - - -] } "requests.cpu" => 700 false;
    Pod Runs 0 { INIT[700 - - -] INIT[900 - - -] } "requests.cpu" => 900 false;
    Pod Runs 0 { INIT[900 - - -] INIT[700 - - -] } "requests.cpu" => 900 false;
    Pod Runs 0 { INIT[700 - - -] INIT[700 - - -] } "cpu" => 700 false;
    Pod Runs 0 { INIT[1 2 3 4] INIT[4 3 2 1] } "limits.cpu" => 3 false;
    Pod Runs 0 { INIT[1 2 3 4] INIT[4 3 2 1] } "limits.memory" => 4 false;
    Pod Runs 0 { INIT[700 - - -] } "pods" => 1000 false;
    // both: the larger of the two
    Pod Runs 0 { MAIN[250 - - -] MAIN[500 - - -] INIT[1000 - - -] } "requests.cpu" => 1000 false;
    Pod Runs 0 { INIT[1000 - - -] MAIN[250 - - -] MAIN[500 - - -] } "requests.cpu" => 1000 false;
    Pod Runs 0 { MAIN[250 - - -] INIT[700 - - -] MAIN[500 - - -] } "requests.cpu" => 750 false;
    Pod Runs 0 { MAIN[250 - - -] INIT[750 - - -] MAIN[500 - - -] } "requests.cpu" => 750 false;
    Pod Runs 0 { MAIN[250 - - -] INIT[751 - - -] MAIN[500 - - -] } "requests.cpu" => 751 false;
    Pod Runs 0 { INIT[600 - - -] INIT[600 - - -] MAIN[500 - - -] MAIN[200 - - -] } "requests.cpu" => 700 false;
    Pod Runs 0 { MAIN[250 0 9 50] INIT[100 7 0 80] } "requests.cpu" => 250 false;
    Pod Runs 0 { MAIN[250 0 9 50] INIT[100 7 0 80] } "requests.memory" => 7 false;
    Pod Runs 0 { MAIN[250 0 9 50] INIT[100 7 0 80] } "limits.cpu" => 9 false;
    Pod Runs 0 { MAIN[250 0 9 50] INIT[100 7 0 80] } "limits.memory" => 80 false;
    // values that aren't stated
    Pod Runs 0 { MAIN[- - - -] } "requests.cpu" => 0 true;
    Pod Runs 0 { INIT[- - - -] } "requests.cpu" => 0 true;
    Pod Runs 0 { MAIN[250 - - -] MAIN[- - - -] } "requests.cpu" => 250 true;
    Pod Runs 0 { MAIN[250 - - -] INIT[- - - -] } "requests.cpu" => 250 true;
    Pod Runs 0 { MAIN[- - - -] INIT[250 - - -] } "cpu" => 250 true;
    Pod Runs 0 { MAIN[0 - - -] } "requests.cpu" => 0 false;
    Pod Runs 0 { MAIN[250 - - -] } "requests.memory" => 0 true;
    Pod Runs 0 { MAIN[250 300 - -] } "limits.cpu" => 0 true;
    Pod Runs 0 { MAIN[- - - 5] } "limits.memory" => 5 false;
    Pod Runs 0 { MAIN[- - - 5] } "limits.cpu" => 0 true;
    Pod Runs 0 { MAIN[- 5 - -] } "memory" => 5 false;
    Pod Runs 0 { MAIN[- - - -] } "pods" => 1000 false;
    Pod Runs 0 { MAIN[- - - -] } "count/pods" => 1000 false;
    // sums past 64 bits
    Pod Runs 0 { MAIN[18446744073709551615 - - -] } "requests.cpu" => 18446744073709551615 false;
    Pod Runs 0 { MAIN[18446744073709551615 - - -] MAIN[18446744073709551615 - - -] } "requests.cpu" => 36893488147419103230 false;
    Pod Runs 0 { MAIN[18446744073709551615 - - -] MAIN[18446744073709551615 - - -] MAIN[18446744073709551615 - - -] INIT[18446744073709551615 - - -] } "requests.cpu" => 55340232221128654845 false;
    Pod Runs 0 { INIT[18446744073709551615 - - -] INIT[18446744073709551615 - - -] } "requests.cpu" => 18446744073709551615 false;
    Pod Runs 0 { MAIN[18446744073709551615 - - -] MAIN[1 - - -] INIT[18446744073709551615 - - -] } "requests.cpu" => 18446744073709551616 false;
    Pod Runs 0 { MAIN[- 18446744073709551615 18446744073709551615 18446744073709551615] MAIN[- 1 2 3] } "limits.memory" => 18446744073709551618 false;
    // Pods that have finished
    Pod Finished 0 { MAIN[250 20 300 4000] INIT[1000 5 300 1] } "pods" => 0 false;
    Pod Finished 0 { MAIN[250 20 300 4000] INIT[1000 5 300 1] } "count/pods" => 1000 false;
    Pod Finished 0 { MAIN[250 20 300 4000] INIT[1000 5 300 1] } "requests.cpu" => 0 false;
    Pod Finished 0 { MAIN[250 20 300 4000] INIT[1000 5 300 1] } "requests.memory" => 0 false;
    Pod Finished 0 { MAIN[250 20 300 4000] INIT[1000 5 300 1] } "limits.cpu" => 0 false;
    Pod Finished 0 { MAIN[250 20 300 4000] INIT[1000 5 300 1] } "limits.memory" => 0 false;
    Pod Finished 0 { MAIN[250 20 300 4000] INIT[1000 5 300 1] } "requests.storage" => 0 false;
    Pod Finished 0 { MAIN[- - - -] } "limits.cpu" => 0 true;
    Pod Finished 0 {} "pods" => 0 false;
    Pod Finished 0 {} "count/pods" => 1000 false;
    // claims
    PersistentVolumeClaim Runs 5000 {} "requests.storage" => 5000 false;
    PersistentVolumeClaim Runs 5000 {} "persistentvolumeclaims" => 1000 false;
    PersistentVolumeClaim Runs 5000 {} "count/persistentvolumeclaims" => 1000 false;
    PersistentVolumeClaim Runs 5000 {} "pods" => 0 false;
    PersistentVolumeClaim Runs 5000 {} "requests.cpu" => 0 false;
    PersistentVolumeClaim Runs 5000 {} "count/pods" => 0 false;
    PersistentVolumeClaim Runs 0 {} "requests.storage" => 0 false;
    PersistentVolumeClaim Runs 18446744073709551615 {} "requests.storage" => 18446744073709551615 false;
    PersistentVolumeClaim Finished 5000 {} "requests.storage" => 5000 false;
    PersistentVolumeClaim Runs 5000 { MAIN[250 - - -] } "requests.cpu" => 0 false;
    // each count
    Role Runs 0 {} "count/roles.rbac.authorization.k8s.io" => 1000 false;
    RoleBinding Runs 0 {} "count/rolebindings.rbac.authorization.k8s.io" => 1000 false;
    ConfigMap Runs 0 {} "count/configmaps" => 1000 false;
    ConfigMap Runs 0 {} "configmaps" => 1000 false;
    Secret Runs 0 {} "count/secrets" => 1000 false;
    Secret Runs 0 {} "secrets" => 1000 false;
    NetworkPolicy Runs 0 {} "count/networkpolicies.networking.k8s.io" => 1000 false;
    LimitRange Runs 0 {} "count/limitranges" => 1000 false;
    Pod Runs 0 {} "count/pods" => 1000 false;
    Service Runs 0 {} "count/services" => 1000 false;
    Service Runs 0 {} "services" => 1000 false;
    PersistentVolumeClaim Runs 0 {} "count/persistentvolumeclaims" => 1000 false;
    PersistentVolumeClaim Runs 0 {} "persistentvolumeclaims" => 1000 false;
    // counts of another kind
    Role Runs 0 {} "count/rolebindings.rbac.authorization.k8s.io" => 0 false;
    Secret Runs 0 {} "configmaps" => 0 false;
    ConfigMap Runs 0 {} "secrets" => 0 false;
    Service Runs 0 {} "count/pods" => 0 false;
    PersistentVolumeClaim Runs 0 {} "count/services" => 0 false;
    NetworkPolicy Runs 0 {} "count/limitranges" => 0 false;
    // what other kinds hold isn't charged
    Secret Runs 5000 { MAIN[250 - - -] } "requests.storage" => 0 false;
    Service Runs 5000 { MAIN[250 - - -] } "requests.cpu" => 0 false;
    ConfigMap Runs 0 { MAIN[- - - -] } "limits.cpu" => 0 false;
    Pod Runs 5000 { MAIN[250 - - -] } "requests.storage" => 0 false;
    Service Runs 0 { MAIN[250 - - -] } "pods" => 0 false;
    // copies, and kinds that aren't copied whatever their labels
    Role Labelled 0 {} "count/roles.rbac.authorization.k8s.io" => 0 false;
    RoleBinding Labelled 0 {} "count/rolebindings.rbac.authorization.k8s.io" => 0 false;
    ConfigMap Labelled 0 {} "configmaps" => 0 false;
    Secret Labelled 0 {} "secrets" => 0 false;
    NetworkPolicy Labelled 0 {} "count/networkpolicies.networking.k8s.io" => 0 false;
    LimitRange Labelled 0 {} "count/limitranges" => 0 false;
    Service Labelled 0 {} "services" => 1000 false;
    Pod Labelled 0 {} "count/pods" => 1000 false;
    PersistentVolumeClaim Labelled 0 {} "persistentvolumeclaims" => 1000 false;
    Pod Labelled 0 { MAIN[250 - - -] MAIN[500 - - -] } "requests.cpu" => 750 false;
    PersistentVolumeClaim Labelled 5000 {} "requests.storage" => 5000 false;
    // namespaces and HNC's own kinds
    Namespace Runs 5000 { MAIN[250 - - -] } "requests.cpu" => 0 false;
    HncConfiguration Runs 5000 { MAIN[250 - - -] } "requests.cpu" => 0 false;
    HierarchyConfiguration Runs 5000 { MAIN[250 - - -] } "requests.cpu" => 0 false;
    SubnamespaceAnchor Runs 5000 { MAIN[250 - - -] } "requests.cpu" => 0 false;
    HierarchicalResourceQuota Runs 5000 { MAIN[250 - - -] } "requests.cpu" => 0 false;
    Namespace Runs 5000 {} "requests.storage" => 0 false;
    HierarchicalResourceQuota Runs 0 {} "count/pods" => 0 false;
];

/// The row at a place of the table.
fn row(index: usize) -> Case
    requires { index < 116 }
{
    ROWS[index]
}

/// Members of which there are none.
fn no_members(alloc: Global) -> Result<Members, NoMemory> {
    let text = Text::of(alloc, "{}")?;
    Ok(Members::new(
        text,
        Places {
            api_version: 1,
            kind: 1,
            metadata: 1,
        },
    ))
}

fn containers(alloc: Global, asked: &[Asked]) -> Result<List<Container>, NoMemory> {
    let mut containers = Vec::new(alloc);
    for &(init, asks) in asked {
        containers.push(Container { init, asks: *asks })?;
    }
    Ok(List::of(containers))
}

fn labels(alloc: Global, state: State) -> Result<Pairs, NoMemory> {
    let mut labels = Pairs::new(alloc);
    if state == State::Labelled {
        labels.put(Text::of(alloc, INHERITED_FROM)?, Text::of(alloc, "root")?)?;
    }
    Ok(labels)
}

fn id(alloc: Global, kind: Kind) -> Result<Id, NoMemory> {
    Ok(Id {
        kind,
        ns: Text::of(alloc, "acme")?,
        name: Text::of(alloc, "x")?,
    })
}

fn payload(alloc: Global, case: Case) -> Result<Payload, NoMemory> {
    Ok(Payload::Plain {
        members: no_members(alloc)?,
        need: Need {
            finished: case.state == State::Finished,
            token: false,
            storage: case.storage,
            containers: containers(alloc, case.containers)?,
        },
    })
}

fn object(alloc: Global, case: Case) -> Result<Object, NoMemory> {
    Ok(Object {
        id: id(alloc, case.kind)?,
        labels: labels(alloc, case.state)?,
        annotations: Pairs::new(alloc),
        payload: payload(alloc, case)?,
        version: 1,
    })
}

/// What the object of a row is charged, and whether something isn't stated there.
fn charged(alloc: Global, case: Case) -> Result<Option<(u128, bool)>, NoMemory> {
    let object = object(alloc, case)?;
    Ok(Resource::of_name(case.resource).map(|resource| (
        charge(&object, resource),
        is_unstated(&object, resource),
    )))
}

#[test]
fn objects_are_charged(rt: HostRuntime) -> Result<(), Fail> {
    for index in 0..COUNT {
        let case = row(index);
        let charged = charged(rt.alloc(), case)?;
        assert_eq!(rt;
            charged,
            Some((case.charge, case.is_unstated)),
            "row {index}"
        );
    }
    Ok(())
}
