// A plan of each kind of key that has facts, made with ample memory from a brief made by hand.
use crate::made::{id, namespace, object};
use hx_model::{Key, Write};
use hx_object::{Condition, Kind, List, Mode, NoMemory, Object, Payload, Shared, Text};
use hx_reconcile::{Brief, Facts, Plan, SharedBrief, plan};
use std::alloc::Global;
use std::test::Fail;

/// The role r in a namespace.
fn role(alloc: Global, ns: &str) -> Result<Shared, NoMemory> {
    let id = id(alloc, Kind::Role, ns, "r")?;
    let object = object(alloc, id, &[], 1)?;
    Shared::new(alloc, object)
}

fn roles(alloc: Global) -> Result<List<Shared>, NoMemory> {
    let mut roles = Vec::new(alloc);
    for ns in ["acme", "team"] {
        roles.push(role(alloc, ns)?)?;
    }
    Ok(List::of(roles))
}

fn texts(alloc: Global, names: &[&str]) -> Result<List<Text>, NoMemory> {
    let mut texts = Vec::new(alloc);
    for name in names {
        texts.push(Text::of(alloc, name)?)?;
    }
    Ok(List::of(texts))
}

/// The copy of Role r in app.
fn copy_key(alloc: Global) -> Result<Key, NoMemory> {
    let ns = Text::of(alloc, "app")?;
    let name = Text::of(alloc, "r")?;
    let kind = Kind::Role;
    Ok(Key::Copy { ns, kind, name })
}

/// App lies under team and acme: each has the role.
fn copy_facts(alloc: Global) -> Result<Facts, NoMemory> {
    let sources = roles(alloc)?;
    let ns = namespace(alloc, "app", &[], 2)?;
    Ok(Facts::Copy {
        ns: Some(ns),
        is_open: true,
        place: None,
        mode: Mode::Propagate,
        sources,
    })
}

/// The tree labels of app.
fn tree_key(alloc: Global) -> Result<Key, NoMemory> {
    let ns = Text::of(alloc, "app")?;
    Ok(Key::Tree { ns })
}

fn tree_facts(alloc: Global) -> Result<Facts, NoMemory> {
    let chain = texts(alloc, &["app", "acme"])?;
    let ns = namespace(alloc, "app", &[], 2)?;
    Ok(Facts::Tree {
        ns: Some(ns),
        is_open: true,
        chain,
    })
}

/// The subnamespace that an anchor asks for in acme.
fn child_key(alloc: Global) -> Result<Key, NoMemory> {
    let ns = Text::of(alloc, "acme")?;
    let name = Text::of(alloc, "team")?;
    Ok(Key::Child { ns, name })
}

/// What is told of team.
fn report_key(alloc: Global) -> Result<Key, NoMemory> {
    let ns = Text::of(alloc, "team")?;
    Ok(Key::Report { ns })
}

/// Team has a child, and a parent that isn't there.
fn report_facts(alloc: Global) -> Result<Facts, NoMemory> {
    let conditions = List::of(Vec::from_array(alloc, [Condition::ParentMissing])?);
    let children = texts(alloc, &["app"])?;
    Ok(Facts::Report {
        is_eligible: true,
        hierarchy: None,
        children,
        conditions,
    })
}

/// The removal of acme.
fn purge_key(alloc: Global) -> Result<Key, NoMemory> {
    let ns = Text::of(alloc, "acme")?;
    Ok(Key::Purge { ns })
}

/// The kinds of keys that plans are made for.
#[derive(Clone, Copy)]
enum Planned {
    Copy,
    Tree,
    Child,
    Report,
    Purge,
}

const ALL: [Planned; 5] = [
    Planned::Copy,
    Planned::Tree,
    Planned::Child,
    Planned::Report,
    Planned::Purge,
];

fn key(alloc: Global, planned: Planned) -> Result<Key, NoMemory> {
    match planned {
        Planned::Copy => copy_key(alloc),
        Planned::Tree => tree_key(alloc),
        Planned::Child => child_key(alloc),
        Planned::Report => report_key(alloc),
        Planned::Purge => purge_key(alloc),
    }
}

fn facts(alloc: Global, planned: Planned) -> Result<Facts, NoMemory> {
    match planned {
        Planned::Copy => copy_facts(alloc),
        Planned::Tree => tree_facts(alloc),
        Planned::Child => Ok(Facts::Child {
            is_open: true,
            is_anchored: true,
            is_excluded: false,
            is_taken: false,
        }),
        Planned::Report => report_facts(alloc),
        // nothing lies in acme any more
        Planned::Purge => Ok(Facts::Purge {
            is_leaving: true,
            least: None,
        }),
    }
}

fn brief(alloc: Global, planned: Planned) -> Result<Brief, NoMemory> {
    let key = key(alloc, planned)?;
    let facts = facts(alloc, planned)?;
    Ok(Brief {
        key,
        seen: 3,
        guards: List::of(Vec::new(alloc)),
        facts,
    })
}

fn is(text: Option<&Text>, wanted: &str) -> bool {
    match text {
        Some(text) => text.as_str() == wanted,
        None => false,
    }
}

/// Whether a payload tells one child and one condition.
fn tells(payload: &Payload) -> bool {
    match payload {
        Payload::Hierarchy {
            children,
            conditions,
            ..
        } => {
            children.as_slice().len() == 1
                && conditions.as_slice().first() == Some(&Condition::ParentMissing)
        }
        _ => false,
    }
}

/// Whether an object that is put says what it should.
fn is_right(planned: Planned, object: &Object) -> bool {
    match planned {
        Planned::Copy => is(object.labels.get("hnc.x-k8s.io/inherited-from"), "acme"),
        Planned::Tree => is(object.labels.get("acme.tree.hnc.x-k8s.io/depth"), "1"),
        Planned::Child => is(
            object.annotations.get("hnc.x-k8s.io/subnamespace-of"),
            "acme",
        ),
        Planned::Report => tells(&object.payload),
        Planned::Purge => false,
    }
}

/// Whether a plan's write is the one that its key wants.
fn writes(planned: Planned, plan: &Result<Plan, SharedBrief>) -> bool {
    let Ok(plan) = plan else {
        return false;
    };
    match (planned, plan.write()) {
        (Planned::Purge, Some(Write::Cut(id))) => {
            id.kind.is_namespace() && id.name.as_str() == "acme"
        }
        (_, Some(Write::Put(object))) => is_right(planned, object),
        _ => false,
    }
}

fn is_planned(alloc: Global, planned: Planned) -> Result<bool, NoMemory> {
    let brief = SharedBrief::new(alloc, brief(alloc, planned)?)?;
    let plan = plan(alloc, brief);
    let writes = writes(planned, &plan);
    drop(plan);
    Ok(writes)
}

#[test]
fn plans(rt: HostRuntime) -> Result<(), Fail> {
    for planned in ALL {
        let is_planned = is_planned(rt.alloc(), planned)?;
        assert!(rt; is_planned, "{}", planned as u8);
    }
    Ok(())
}
