// The object that a PUT gives.
ghost use Rattle.std.specs.Prelude.{◌≡◌, IfOk, OnOk};
ghost use Rattle.hx_model.specs.Answers.{replaced_by, with_status};

use hx_object::{NoMemory, Object, Payload};

/// The object that a PUT gives in the place of another, of that one's version. The status that is reported stays.
pub fn replaced_by(old: &Object, mut object: Object) -> Result<Object, NoMemory>
    ensures { IfOk result (λ o. o ≡ replaced_by old.now object) }
{
    if let Err(fault) = keep_status(&old.payload, &mut object.payload) {
        drop(object);
        return Err(fault);
    }
    object.version = old.version;
    Ok(object)
}

/// Gives a payload the status of another.
fn keep_status(old: &Payload, payload: &mut Payload) -> Result<(), NoMemory>
    ensures { OnOk result (payload.new ≡ with_status old.now payload.old) }
{
    match (old, payload) {
        (Payload::Namespace { terminating: old }, Payload::Namespace { terminating }) => {
            *terminating = *old;
        }
        (
            Payload::Hierarchy {
                children: old_children,
                conditions: old_conditions,
                ..
            },
            Payload::Hierarchy {
                children,
                conditions,
                ..
            },
        ) => {
            *children = old_children.clone()?;
            *conditions = old_conditions.clone()?;
        }
        (Payload::Anchor { status: old }, Payload::Anchor { status }) => {
            *status = *old;
        }
        (Payload::Quota { status: old, .. }, Payload::Quota { status, .. }) => {
            *status = old.clone()?;
        }
        _ => {}
    }
    Ok(())
}
