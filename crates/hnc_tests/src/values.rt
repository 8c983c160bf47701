// Kinds as Kubernetes names them, and values with ample memory.
use hx_object::{Id, Kind, List, NoMemory, Object, Pairs, Payload, Shared, Text};
use std::alloc::Global;
use std::cmp::Ordering;
use std::test::Fail;

#[test]
fn kinds_have_numbers_and_resources(rt: HostRuntime) {
    for (kind, number, resource) in [
        (Kind::Namespace, 1, "namespaces"),
        (Kind::HncConfiguration, 2, "hncconfigurations.hnc.x-k8s.io"),
        (
            Kind::HierarchyConfiguration,
            3,
            "hierarchyconfigurations.hnc.x-k8s.io",
        ),
        (
            Kind::SubnamespaceAnchor,
            4,
            "subnamespaceanchors.hnc.x-k8s.io",
        ),
        (
            Kind::HierarchicalResourceQuota,
            5,
            "hierarchicalresourcequotas.hnc.x-k8s.io",
        ),
        (Kind::Role, 6, "roles.rbac.authorization.k8s.io"),
        (
            Kind::RoleBinding,
            7,
            "rolebindings.rbac.authorization.k8s.io",
        ),
        (Kind::ConfigMap, 8, "configmaps"),
        (Kind::Secret, 9, "secrets"),
        (Kind::NetworkPolicy, 10, "networkpolicies.networking.k8s.io"),
        (Kind::LimitRange, 11, "limitranges"),
        (Kind::Pod, 12, "pods"),
        (Kind::Service, 13, "services"),
        (Kind::PersistentVolumeClaim, 14, "persistentvolumeclaims"),
    ] {
        assert_eq!(rt; kind.number(), number, "at {resource}");
        assert_eq!(rt; kind.resource(), resource);
    }
}

#[test]
fn texts_and_lists(rt: HostRuntime) -> Result<(), Fail> {
    let alloc = rt.alloc();
    let text = Text::of(alloc, "ab")?;
    let same = Text::of_string(String::from_str(alloc, "ab")?);
    assert!(rt; text == same && text.cmp(&same) == Ordering::Equal);
    let bytes = text.into_bytes(alloc)?;
    let more = List::of(Vec::from_array(alloc, [97, 98, 0])?);
    assert!(rt; bytes != more && bytes < more && bytes.cmp(&more) == Ordering::Less);
    assert!(rt; bytes.clone()? == bytes);
    assert_eq!(rt; more.into_vec().as_slice(), [97, 98, 0].as_slice());
    Ok(())
}

fn labels(alloc: Global) -> Result<Pairs, NoMemory> {
    let first = (Text::of(alloc, "app")?, Text::of(alloc, "web")?);
    let second = (Text::of(alloc, "tier")?, Text::of(alloc, "front")?);
    Ok(Pairs::of(Vec::from_array(alloc, [first, second])?))
}

/// Whether labels are found by their keys, and are the same as their copy.
fn are_found(alloc: Global) -> Result<bool, NoMemory> {
    let labels = labels(alloc)?;
    let copy = labels.clone()?;
    Ok(labels.get("tier").map(Text::as_str) == Some("front") && labels.is_same(&copy))
}

/// A namespace with labels, of two owners.
fn owners(alloc: Global) -> Result<(Shared, Shared), NoMemory> {
    let owner = Shared::new(
        alloc,
        Object {
            id: Id {
                kind: Kind::Namespace,
                ns: Text::of(alloc, "")?,
                name: Text::of(alloc, "acme")?,
            },
            labels: labels(alloc)?,
            annotations: Pairs::new(alloc),
            payload: Payload::Namespace { terminating: false },
            version: 7,
        },
    )?;
    let other = owner.share()?;
    Ok((owner, other))
}

/// Whether a copy of an object is the object of either owner.
fn is_copied(alloc: Global) -> Result<bool, NoMemory> {
    let (owner, other) = owners(alloc)?;
    let copy = owner.object().copy()?;
    Ok(copy.is_same(other.object()))
}

#[test]
fn copies_are_the_same(rt: HostRuntime) -> Result<(), Fail> {
    assert!(rt; are_found(rt.alloc())?);
    assert!(rt; is_copied(rt.alloc())?);
    Ok(())
}
