// The requests for a place.
ghost use Rattle.std.specs.Prelude.{◌≡◌, IfOk};
ghost use Rattle.hx_model.specs.Serving.{IsServedAsk};
ghost use Rattle.hx_gen.specs.Asked.{creating, hierarchy_ask, namespace_ask, namespace_name, no_members, pod_ask, role_ask, role_name};

use hx_model::Ask;
use hx_object::well_known::HIERARCHY;
use hx_object::{Id, Kind, List, Members, Need, NoMemory, Object, Pairs, Payload, Places, Text};
use std::alloc::Global;

/// To store a namespace.
#[tactic(auto, using(crate::proofs::Served::namespace_served))]
pub fn namespace_ask(alloc: Global, index: u32) -> Result<Ask, NoMemory>
    ensures ask { IfOk result (λ ask. ask ≡ namespace_ask index) }
    ensures served { IfOk result IsServedAsk }
{
    let id = Id {
        kind: Kind::Namespace,
        ns: Text::default(),
        name: namespace_name(alloc, index)?,
    };
    Ok(creating(alloc, id, Payload::Namespace { terminating: false }))
}

/// To give a namespace a parent.
#[tactic(auto, using(crate::proofs::Served::hierarchy_served))]
pub fn hierarchy_ask(alloc: Global, index: u32, parent: u32) -> Result<Ask, NoMemory>
    ensures ask { IfOk result (λ ask. ask ≡ hierarchy_ask index parent) }
    ensures served { IfOk result IsServedAsk }
{
    let name = Text::of(alloc, HIERARCHY)?;
    let id = id_in(alloc, Kind::HierarchyConfiguration, index, name)?;
    let payload = Payload::Hierarchy {
        parent: Some(namespace_name(alloc, parent)?),
        cascade: false,
        children: List::of(Vec::new(alloc)),
        conditions: List::of(Vec::new(alloc)),
    };
    Ok(creating(alloc, id, payload))
}

/// To store a Role without rules.
#[tactic(auto, using(crate::proofs::Served::role_served))]
pub fn role_ask(alloc: Global, index: u32) -> Result<Ask, NoMemory>
    ensures ask { IfOk result (λ ask. ask ≡ role_ask index) }
    ensures served { IfOk result IsServedAsk }
{
    let name = role_name(alloc, index)?;
    let id = id_in(alloc, Kind::Role, index, name)?;
    let payload = no_members(alloc)?;
    Ok(creating(alloc, id, payload))
}

/// To store a Pod without a specification.
#[tactic(auto, using(crate::proofs::Served::pod_served))]
pub fn pod_ask(alloc: Global, index: u32) -> Result<Ask, NoMemory>
    ensures ask { IfOk result (λ ask. ask ≡ pod_ask index) }
    ensures served { IfOk result IsServedAsk }
{
    let name = Text::of(alloc, "p")?;
    let id = id_in(alloc, Kind::Pod, index, name)?;
    let payload = no_members(alloc)?;
    Ok(creating(alloc, id, payload))
}

fn namespace_name(alloc: Global, index: u32) -> Result<Text, NoMemory>
    ensures { IfOk result (λ name. name ≡ namespace_name index) }
{
    Ok(Text::of_string(format!(in alloc; "n{index}")?))
}

fn role_name(alloc: Global, index: u32) -> Result<Text, NoMemory>
    ensures { IfOk result (λ name. name ≡ role_name index) }
{
    Ok(Text::of_string(format!(in alloc; "r{index}")?))
}

/// An identity in the namespace of a place.
fn id_in(alloc: Global, kind: Kind, index: u32, name: Text) -> Result<Id, NoMemory>
    ensures { IfOk result (λ id. id ≡ record { kind = kind; ns = namespace_name index; name = name }) }
{
    let ns = namespace_name(alloc, index)?;
    Ok(Id { kind, ns, name })
}

/// A payload without members.
fn no_members(alloc: Global) -> Result<Payload, NoMemory>
    ensures { IfOk result (λ payload. payload ≡ no_members) }
{
    let text = Text::of(alloc, "{}")?;
    let members = Members::new(
        text,
        Places {
            api_version: 1,
            kind: 1,
            metadata: 1,
        },
    );
    Ok(Payload::Plain {
        members,
        need: Need {
            finished: false,
            token: false,
            storage: 0,
            containers: List::of(Vec::new(alloc)),
        },
    })
}

fn creating(alloc: Global, id: Id, payload: Payload) -> Ask
    ensures { result ≡ creating id payload }
{
    Ask::Create {
        object: Object {
            id,
            version: 0,
            labels: Pairs::new(alloc),
            annotations: Pairs::new(alloc),
            payload,
        },
        skip: false,
    }
}
