// Values that several tests are made of, with ample memory.
use hx_object::{
    Id, Kind, List, Members, Need, NoMemory, Object, Pairs, Payload, Places, Shared, Text,
};
use std::alloc::Global;

/// Members of which there are none.
pub fn no_members(alloc: Global) -> Result<Members, NoMemory> {
    let text = Text::of(alloc, "{}")?;
    Ok(Members::new(
        text,
        Places {
            api_version: 1,
            kind: 1,
            metadata: 1,
        },
    ))
}

pub fn id(alloc: Global, kind: Kind, ns: &str, name: &str) -> Result<Id, NoMemory> {
    let ns = Text::of(alloc, ns)?;
    let name = Text::of(alloc, name)?;
    Ok(Id { kind, ns, name })
}

/// Values by their keys.
pub fn pairs(alloc: Global, rows: &[(&str, &str)]) -> Result<Pairs, NoMemory> {
    let mut pairs = Pairs::new(alloc);
    for (key, value) in rows {
        put(alloc, &mut pairs, key, value)?;
    }
    Ok(pairs)
}

fn put(alloc: Global, pairs: &mut Pairs, key: &str, value: &str) -> Result<(), NoMemory> {
    let key = Text::of(alloc, key)?;
    let value = Text::of(alloc, value)?;
    pairs.put(key, value)
}

/// A plain object that states nothing of what it needs.
pub fn object(
    alloc: Global,
    id: Id,
    labels: &[(&str, &str)],
    version: u64,
) -> Result<Object, NoMemory> {
    let labels = pairs(alloc, labels)?;
    let members = no_members(alloc)?;
    Ok(Object {
        id,
        labels,
        annotations: Pairs::new(alloc),
        payload: Payload::Plain {
            members,
            need: Need {
                finished: false,
                token: false,
                storage: 0,
                containers: List::of(Vec::new(alloc)),
            },
        },
        version,
    })
}

/// A namespace with labels.
pub fn namespace(
    alloc: Global,
    name: &str,
    labels: &[(&str, &str)],
    version: u64,
) -> Result<Shared, NoMemory> {
    let labels = pairs(alloc, labels)?;
    let id = id(alloc, Kind::Namespace, "", name)?;
    Shared::new(
        alloc,
        Object {
            id,
            labels,
            annotations: Pairs::new(alloc),
            payload: Payload::Namespace { terminating: false },
            version,
        },
    )
}
