// A store beside a plain list of objects in order, over staged writes that are made or dropped.
ghost use Rattle.std.specs.Prelude.{◌≤◌, length};

use crate::made::{id, object};
use hx_object::{Id, Kind, NoMemory, Object, Shared, Text};
use hx_store::{Change, Store};
use std::alloc::Global;
use std::cmp::Ordering;
use std::hash::RandomState;
use std::test::Fail;

const KINDS: [Kind; 2] = [Kind::SubnamespaceAnchor, Kind::Role];

const NAMESPACES: [&str; 2] = ["a", "b"];

const NAMES: [&str; 2] = ["x", "y"];

/// One of eight identities, by a number.
fn id_of(alloc: Global, number: usize) -> Result<Id, NoMemory> {
    id(
        alloc,
        KINDS[number % 2],
        NAMESPACES[number / 2 % 2],
        NAMES[number / 4 % 2],
    )
}

/// A write that puts an object of an identity with labels.
fn put_of(
    alloc: Global,
    id: Id,
    labels: &[(&str, &str)],
    version: u64,
) -> Result<Change, NoMemory> {
    let object = object(alloc, id, labels, version)?;
    Change::put(Shared::new(alloc, object)?)
}

/// A write of one of the identities, which in one case of three takes its object away.
fn change(alloc: Global, number: usize, version: u64) -> Result<Change, NoMemory> {
    let id = id_of(alloc, number)?;
    if number / 8 % 3 == 0 {
        return Ok(Change::cut(id));
    }
    put_of(alloc, id, &[], version)
}

// ---- the plain list

/// Where an object of the identity goes.
fn place(objects: &[Object], id: &Id) -> usize
    ensures { result ≤ length objects.now }
{
    for i in 0..objects.len() {
        if id.compare(&objects[i].id) == Ordering::Less {
            return i;
        }
    }
    objects.len()
}

fn remove(objects: &mut Vec<Object>, id: &Id) {
    for i in 0..objects.len() {
        if objects[i].id.is_same(id) {
            objects.remove(i);
            return;
        }
    }
}

fn make(objects: &mut Vec<Object>, change: &Change) -> Result<(), NoMemory> {
    remove(objects, change.id());
    if let Some(object) = change.object() {
        let at = place(objects.as_slice(), change.id());
        objects.insert(at, object.object().copy()?)?;
    }
    Ok(())
}

/// The objects of a kind, of a namespace where one is given, and of a name where one is given.
#[derive(Clone, Copy)]
struct Wanted<'a> {
    kind: Kind,
    ns: Option<&'a str>,
    name: Option<&'a str>,
}

fn is_wanted(object: &Object, wanted: Wanted<'_>) -> bool {
    let has_ns = match wanted.ns {
        Some(ns) => object.id.ns.as_str() == ns,
        None => true,
    };
    let has_name = match wanted.name {
        Some(name) => object.id.name.as_str() == name,
        None => true,
    };
    has_ns && has_name && object.id.kind == wanted.kind
}

/// Whether a list that the store gives has the objects of the plain one that are wanted.
fn are_those(listed: &[Shared], objects: &[Object], wanted: Wanted<'_>) -> bool {
    let mut left = listed;
    for object in objects {
        if !is_wanted(object, wanted) {
            continue;
        }
        match left.split_first() {
            Some((first, others)) if first.object().is_same(object) => left = others,
            _ => return false,
        }
    }
    left.is_empty()
}

/// Whether the store lists the objects of the plain list that are of a kind, and in a namespace where one is given.
fn lists_alike(
    store: &Store,
    objects: &[Object],
    kind: Kind,
    ns: Option<&Text>,
) -> Result<bool, NoMemory> {
    let listed = store.list(kind, ns)?;
    let ns = match ns {
        Some(ns) => Some(ns.as_str()),
        None => None,
    };
    let name = None;
    Ok(are_those(listed.as_slice(), objects, Wanted { kind, ns, name }))
}

/// Whether the store gives the anchors of the plain list that have a name.
fn are_anchors_alike(store: &Store, objects: &[Object], name: &str) -> Result<bool, NoMemory> {
    let anchors = store.anchors(name)?;
    let wanted = Wanted {
        kind: Kind::SubnamespaceAnchor,
        ns: None,
        name: Some(name),
    };
    Ok(are_those(anchors.as_slice(), objects, wanted))
}

fn first_in<'a>(objects: &'a [Object], ns: &Text) -> Option<&'a Object> {
    for object in objects {
        if object.id.ns == *ns {
            return Some(object);
        }
    }
    None
}

/// Whether what the store gives is an object of the plain list.
fn is_found(found: Option<&Shared>, wanted: Option<&Object>) -> bool {
    match (found, wanted) {
        (Some(found), Some(wanted)) => found.object().is_same(wanted),
        (None, None) => true,
        _ => false,
    }
}

/// Whether the store answers as the plain list for each kind in a namespace, and gives the first object that lies there.
fn are_alike_in(store: &Store, objects: &[Object], ns: &Text) -> Result<bool, NoMemory> {
    for kind in KINDS {
        if !lists_alike(store, objects, kind, Some(ns))? {
            return Ok(false);
        }
    }
    Ok(is_found(store.least(ns), first_in(objects, ns)))
}

/// Whether it gives each object of the plain list by its identity.
fn are_found(store: &Store, objects: &[Object]) -> bool {
    for object in objects {
        if !is_found(store.get(&object.id), Some(object)) {
            return false;
        }
    }
    true
}

fn are_alike(store: &Store, objects: &[Object]) -> Result<bool, NoMemory> {
    for ns in NAMESPACES {
        let ns = Text::of(store.allocator(), ns)?;
        if !are_alike_in(store, objects, &ns)? {
            return Ok(false);
        }
    }
    for name in NAMES {
        if !are_anchors_alike(store, objects, name)? {
            return Ok(false);
        }
    }
    for kind in KINDS {
        if !lists_alike(store, objects, kind, None)? {
            return Ok(false);
        }
    }
    Ok(are_found(store, objects))
}

fn next(number: usize) -> usize {
    number.wrapping_mul(1_103_515_245).wrapping_add(12_345) >> 8
}

/// Up to three writes, and the number behind theirs.
fn changes(alloc: Global, number: usize, version: u64) -> Result<(Vec<Change>, usize), NoMemory> {
    let mut changes = Vec::new(alloc);
    let mut last = number;
    for _ in 0..number % 4 {
        last = next(last);
        changes.push(change(alloc, last, version)?)?;
    }
    Ok((changes, next(last)))
}

fn make_all(objects: &mut Vec<Object>, changes: &[Change]) -> Result<(), NoMemory> {
    for change in changes {
        make(objects, change)?;
    }
    Ok(())
}

/// Stages writes that a number tells, and makes them in both or drops them. It gives the next number.
fn advance(
    store: &mut Store,
    objects: &mut Vec<Object>,
    number: usize,
    version: u64,
) -> Result<usize, NoMemory> {
    let (changes, number) = changes(store.allocator(), number, version)?;
    store.stage(changes)?;
    if number % 5 == 0 {
        store.discard();
    } else {
        make_all(objects, store.staged())?;
        store.apply(version);
    }
    Ok(number)
}

#[test]
fn a_store_answers_as_a_list(rt: HostRuntime) -> Result<(), Fail> {
    let keys = RandomState::new(&rt)?;
    let mut store = Store::new(rt.alloc(), 0, keys);
    let mut objects = Vec::new(rt.alloc());
    let mut number: usize = 1;
    for version in 1..400u64 {
        number = advance(&mut store, &mut objects, number, version)?;
        assert!(rt; are_alike(&store, objects.as_slice())?, "version {version}");
    }
    Ok(())
}

// ---- sources

/// What a step writes.
#[derive(Clone, Copy, PartialEq, Eq)]
enum Written {
    Source,
    Copy,
    Nothing,
}

/// A write that is made or given up, and the namespaces that then hold a source of the role `x`.
struct Step {
    kind: Kind,
    ns: &'static str,
    name: &'static str,
    written: Written,
    is_made: bool,
    holders: &'static str,
}

/// A step for each line.
macro_rules! steps {
    ($($kind:ident $ns:literal $name:literal $written:ident $is_made:literal => $holders:literal;)*) => {
        [$(Step {
            kind: Kind::$kind,
            ns: $ns,
            name: $name,
            written: Written::$written,
            is_made: $is_made,
            holders: $holders,
        }),*]
    };
}

static STEPS: [Step; 9] = steps!(
    Role "c" "x" Source true => "c ";
    Role "a" "x" Source true => "a c ";
    Role "b" "x" Copy true => "a c ";
    Role "d" "y" Source true => "a c ";
    Secret "e" "x" Source true => "a c ";
    Role "f" "x" Source false => "a c ";
    Role "c" "x" Nothing true => "a ";
    Role "a" "x" Copy true => "";
    Role "b" "x" Source true => "b ";
);

/// The labels of a copy.
const COPIED: [(&str, &str); 1] = [("hnc.x-k8s.io/inherited-from", "root")];

fn write_of(alloc: Global, step: &Step) -> Result<Change, NoMemory> {
    let id = id(alloc, step.kind, step.ns, step.name)?;
    match step.written {
        Written::Nothing => Ok(Change::cut(id)),
        Written::Source => put_of(alloc, id, &[], 1),
        Written::Copy => put_of(alloc, id, &COPIED, 1),
    }
}

/// The write of a step alone.
fn writes_of(alloc: Global, step: &Step) -> Result<Vec<Change>, NoMemory> {
    let mut changes = Vec::new(alloc);
    changes.push(write_of(alloc, step)?)?;
    Ok(changes)
}

/// The namespaces that hold the sources, with a blank behind each.
fn namespaces(alloc: Global, sources: &[Shared]) -> Result<String, NoMemory> {
    let mut holders = String::new(alloc);
    for source in sources {
        holders.push_str(source.object().id.ns.as_str())?;
        holders.push(' ')?;
    }
    Ok(holders)
}

/// Whether the namespaces with a blank behind each are those that hold a source of the role `x`.
fn are_holders(store: &Store, wanted: &str) -> Result<bool, NoMemory> {
    let sources = store.sources(Kind::Role, "x")?;
    let found = namespaces(store.allocator(), sources.as_slice())?;
    Ok(found.as_str() == wanted)
}

/// Whether the store tells the holders of a step once it is done.
fn tells_holders(store: &mut Store, step: &Step) -> Result<bool, NoMemory> {
    store.stage(writes_of(store.allocator(), step)?)?;
    if step.is_made {
        store.apply(1);
    } else {
        store.discard();
    }
    are_holders(store, step.holders)
}

#[test]
fn sources_are_told_by_kind_and_name(rt: HostRuntime) -> Result<(), Fail> {
    let mut store = Store::new(rt.alloc(), 0, RandomState::new(&rt)?);
    for step in STEPS.iter() {
        let tells = tells_holders(&mut store, step)?;
        assert!(rt; tells, "{} {} {}", step.ns, step.name, step.holders);
    }
    Ok(())
}
