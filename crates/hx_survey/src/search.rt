// Runs of objects in their order.
ghost use Rattle.std.specs.Prelude.{◌≡◌, ◌≤◌, ◌-◌, Some, true, not, length, take, drop, filter, option_copied, slice_get};
ghost use Rattle.std.specs.List.{prefix_len};
ghost use Rattle.std.specs.Ordering.{is_lt, is_gt, nat_cmp};
ghost use Rattle.hx_object.specs.Kinds.{number_of};
ghost use Rattle.hx_object.specs.declared.object.Object.{Object as Stored};
ghost use Rattle.hx_model.specs.First.{first_of};
ghost use Rattle.hx_model.specs.State.{ascends, is_listed, least_in, object_at};
ghost use Rattle.hx_survey.specs.Inside.{side_of, fits, first_listed};

use hx_object::{Id, Kind, Shared, Text};
use std::cmp::Ordering;

/// The kinds that lie in namespaces, in their order.
const NAMESPACED: [Kind; 12] = [
    Kind::HierarchyConfiguration,
    Kind::SubnamespaceAnchor,
    Kind::HierarchicalResourceQuota,
    Kind::Role,
    Kind::RoleBinding,
    Kind::ConfigMap,
    Kind::Secret,
    Kind::NetworkPolicy,
    Kind::LimitRange,
    Kind::Pod,
    Kind::Service,
    Kind::PersistentVolumeClaim,
];

/// Which objects are sought: those of a kind, of a kind in a namespace, or the one of an identity.
#[derive(Clone, Copy)]
pub(crate) enum Sought<'a> {
    OfKind(Kind),
    InNamespace(Kind, &'a str),
    Named(Kind, &'a str, &'a str),
}

/// The objects that are sought, which stand side by side.
pub(crate) fn run_of<'a>(objects: &'a [Shared], sought: Sought) -> &'a [Shared]
    requires { ascends objects.now ≡ true }
    ensures { result.now ≡ filter (fits sought.entry) objects.now }
{
    let start = start_of(objects, sought);
    let end = end_of(objects, sought);
    between(objects, start, end)
}

/// The objects from one place up to another.
fn between(objects: &[Shared], start: usize, end: usize) -> &[Shared]
    requires order { start ≤ end }
    requires within { end ≤ length objects.now }
    ensures { result.now ≡ take (end - start) (drop start objects.now) }
{
    &objects[start..end]
}

/// How many objects stand before those that are sought.
fn start_of(objects: &[Shared], sought: Sought) -> usize
    requires { ascends objects.now ≡ true }
    ensures { result ≡ prefix_len (λ (x : Stored). is_lt (side_of sought.entry x.id)) objects.now }
{
    objects.partition_point(|shared| is_before(&shared.object().id, sought))
}

/// How many objects stand before those that stand behind the ones that are sought.
fn end_of(objects: &[Shared], sought: Sought) -> usize
    requires { ascends objects.now ≡ true }
    ensures { result ≡ prefix_len (λ (x : Stored). not (is_gt (side_of sought.entry x.id))) objects.now }
{
    objects.partition_point(|shared| !is_behind(&shared.object().id, sought))
}

fn is_before(id: &Id, sought: Sought) -> bool
    ensures { result ≡ is_lt (side_of sought.entry id.now) }
{
    side_of(id, sought).is_lt()
}

fn is_behind(id: &Id, sought: Sought) -> bool
    ensures { result ≡ is_gt (side_of sought.entry id.now) }
{
    side_of(id, sought).is_gt()
}

/// How an identity lies to what is sought.
fn side_of(id: &Id, sought: Sought) -> Ordering
    ensures { result ≡ side_of sought.entry id.now }
{
    match sought {
        Sought::OfKind(kind) => by_kind(id, kind),
        Sought::InNamespace(kind, ns) => by_kind(id, kind).then(id.ns.as_str().cmp(ns)),
        Sought::Named(kind, ns, name) => by_kind(id, kind)
            .then(id.ns.as_str().cmp(ns))
            .then(id.name.as_str().cmp(name)),
    }
}

/// How its kind lies to another.
fn by_kind(id: &Id, kind: Kind) -> Ordering
    ensures { result ≡ nat_cmp (number_of id.now.kind) (number_of kind) }
{
    id.kind.number().cmp(&kind.number())
}

/// The object of an identity.
pub(crate) fn find<'a>(
    objects: &'a [Shared],
    kind: Kind,
    ns: &str,
    name: &str,
) -> Option<&'a Shared>
    requires { ascends objects.now ≡ true }
    ensures { option_copied result ≡ object_at objects.now (record { kind = kind; ns = ns.now; name = name.now }) }
{
    first_in(run_of(objects, Sought::Named(kind, ns, name)))
}

/// The first of some objects.
pub(crate) fn first_in(objects: &[Shared]) -> Option<&Shared>
    ensures { option_copied result ≡ slice_get objects.now 0 }
{
    objects.get(0)
}

/// The first of the objects that lie in a namespace.
pub(crate) fn least_in<'a>(objects: &'a [Shared], ns: &Text) -> Option<&'a Shared>
    requires { ascends objects.now ≡ true }
    ensures { option_copied result ≡ least_in objects.now ns.now }
{
    first_of_kinds(objects, &NAMESPACED, ns)
}

/// The first of the objects of some kinds in a namespace, by the order of the kinds.
fn first_of_kinds<'a>(objects: &'a [Shared], kinds: &[Kind], ns: &Text) -> Option<&'a Shared>
    requires { ascends objects.now ≡ true }
    ensures { option_copied result ≡ first_of (first_listed objects.now ns.now) kinds.now }
{
    for kind in kinds {
        if let Some(found) = first_of_kind(objects, *kind, ns) {
            return Some(found);
        }
    }
    None
}

/// The first of the objects of a kind in a namespace.
fn first_of_kind<'a>(objects: &'a [Shared], kind: Kind, ns: &Text) -> Option<&'a Shared>
    requires { ascends objects.now ≡ true }
    ensures { option_copied result ≡ first_listed objects.now ns.now kind }
{
    first_in(listed_in(objects, kind, ns))
}

/// The objects of a kind in a namespace.
pub(crate) fn listed_in<'a>(objects: &'a [Shared], kind: Kind, ns: &Text) -> &'a [Shared]
    requires { ascends objects.now ≡ true }
    ensures { result.now ≡ filter (is_listed kind (Some ns.now)) objects.now }
{
    run_of(objects, Sought::InNamespace(kind, ns.as_str()))
}
