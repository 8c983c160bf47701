// The write of a namespace that is on its way out.
ghost use Rattle.std.specs.Prelude.{◌≡◌, IfOk};
ghost use Rattle.hx_model.specs.State.{namespace_id};
ghost use Rattle.hx_model.specs.Wanted.{next_to_go};

use hx_object::{Id, Kind, NoMemory, Text};
use std::alloc::Global;

/// What is taken away next: the first object that lies in the namespace or, where none does, the namespace itself.
pub(crate) fn next_to_go(alloc: Global, least: &Option<Id>, name: &Text) -> Result<Id, NoMemory>
    ensures { IfOk result (λ id. id ≡ next_to_go least.now name.now) }
{
    match least {
        None => namespace_id(alloc, name),
        Some(id) => Ok(id.clone()?),
    }
}

/// The identity of a namespace.
pub(crate) fn namespace_id(alloc: Global, name: &Text) -> Result<Id, NoMemory>
    ensures { IfOk result (λ id. id ≡ namespace_id name.now) }
{
    Ok(Id {
        kind: Kind::Namespace,
        ns: Text::of(alloc, "")?,
        name: name.clone()?,
    })
}
