// Whether a write is the one that its key wants.
ghost use Rattle.std.specs.Prelude.{◌≡◌, Some, IfOk, option_copied};
ghost use Rattle.std.specs.Option.{option_eq};
ghost use Rattle.hx_model.specs.Answers.{same_object};
ghost use Rattle.hx_model.specs.Hands.{same_write};
ghost use Rattle.hx_model.specs.State.{same_id};
ghost use Rattle.hx_model.specs.Valid.{IsValid};
ghost use Rattle.hx_model.specs.Wanted.{wanted_write};

use crate::briefs::brief_now;
use hx_model::{Key, Write};
use hx_object::{Id, NoMemory, Object};
use hx_reconcile::{Plan, plan};
use hx_state::IndexedState;

/// Whether a write is the one that its key wants, as the state is.
pub fn is_wanted(state: &IndexedState, key: &Key, write: &Write) -> Result<bool, NoMemory>
    requires { IsValid state.now.state }
    ensures { IfOk result (λ wanted. wanted ≡ option_eq same_write (wanted_write state.now.state key.now) (Some write.now)) }
{
    let planned = plan_now(state, key)?;
    let is_same = is_same_as(planned.write(), write);
    drop(planned);
    Ok(is_same)
}

/// The plan of a key, as the state is.
fn plan_now(state: &IndexedState, key: &Key) -> Result<Plan, NoMemory>
    requires { IsValid state.now.state }
    ensures { IfOk result (λ planned. planned.write ≡ wanted_write state.now.state key.now) }
{
    let brief = brief_now(state, key)?;
    match plan(state.allocator(), brief) {
        Ok(planned) => Ok(planned),
        Err(same) => {
            drop(same);
            Err(NoMemory)
        }
    }
}

fn is_same_as(wanted: Option<&Write>, write: &Write) -> bool
    ensures { result ≡ option_eq same_write (option_copied wanted.entry) (Some write.now) }
{
    match wanted {
        Some(other) => is_same_write(other, write),
        None => false,
    }
}

/// Whether two writes are one.
fn is_same_write(a: &Write, b: &Write) -> bool
    ensures { result ≡ same_write a.now b.now }
{
    match (a, b) {
        (Write::Put(x), Write::Put(y)) => is_same_object(x, y),
        (Write::Cut(id), Write::Cut(other)) => is_same_id(id, other),
        _ => false,
    }
}

#[tactic(auto, unfolding(hx_model::specs::Answers::same_object))]
fn is_same_object(x: &Object, y: &Object) -> bool
    ensures { result ≡ same_object x.now y.now }
{
    x == y
}

fn is_same_id(id: &Id, other: &Id) -> bool
    ensures { result ≡ same_id id.now other.now }
{
    id.is_same(other)
}
