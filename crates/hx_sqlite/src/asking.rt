// What a keeper asks of its place, where it has one.
ghost use Rattle.std.specs.Prelude.{◌≡◌, None, Err, IfOk, IfSome, IsUtf8};
ghost use Rattle.std.specs.List.{AllByRecursion};
ghost use Rattle.hx_ports.specs.Keeping.{IsPut};
ghost use Rattle.hx_sqlite.specs.Paths.{path_in};

use crate::database::{AskCommit, AskMeta, AskRow};
use crate::fault::{Refusal, SqlFault};
use crate::place::{Access, Place};
use hx_ports::{Batch, Meta, Row};
use std::alloc::Global;

pub fn meta_at(place: &mut Option<Place>) -> Result<Meta, Refusal>
    ensures nowhere { path_in place.old ≡ None → result ≡ Err (Refusal.Fault SqlFault.Unattached) }
    ensures path { path_in place.new ≡ path_in place.old }
{
    match place {
        Some(place) => place.rows.answer(AskMeta),
        None => Err(Refusal::Fault(SqlFault::Unattached)),
    }
}

/// The first row whose key is greater.
pub fn load_at(
    place: &mut Option<Place>,
    alloc: Global,
    after: &[u8],
) -> Result<Option<Row>, Refusal>
    ensures texts { IfOk result (λ row. IfSome row (λ r. IsUtf8 r.key)) }
    ensures nowhere { path_in place.old ≡ None → result ≡ Err (Refusal.Fault SqlFault.Unattached) }
    ensures path { path_in place.new ≡ path_in place.old }
{
    match place {
        Some(place) => place.rows.answer(AskRow { alloc, after }),
        None => Err(Refusal::Fault(SqlFault::Unattached)),
    }
}

/// Writes the batch as a whole, or rolls it back. One for a place that is only read is refused unasked.
pub fn commit_at(
    place: &mut Option<Place>,
    access: Access,
    alloc: Global,
    batch: &Batch,
) -> Result<(), Refusal>
    requires { AllByRecursion IsPut batch.now.puts }
    ensures nowhere { path_in place.old ≡ None → (fault : SqlFault) × (result ≡ Err (Refusal.Fault fault)) }
    ensures read { access ≡ Access.Read → (result ≡ Err (Refusal.Fault SqlFault.OnlyRead)) × (place.new ≡ place.old) }
    ensures path { path_in place.new ≡ path_in place.old }
{
    match access {
        Access::Write => write_at(place, alloc, batch),
        Access::Read => Err(Refusal::Fault(SqlFault::OnlyRead)),
    }
}

fn write_at(place: &mut Option<Place>, alloc: Global, batch: &Batch) -> Result<(), Refusal>
    requires { AllByRecursion IsPut batch.now.puts }
    ensures nowhere { path_in place.old ≡ None → result ≡ Err (Refusal.Fault SqlFault.Unattached) }
    ensures path { path_in place.new ≡ path_in place.old }
{
    match place {
        Some(place) => place.rows.answer(AskCommit { alloc, batch }),
        None => Err(Refusal::Fault(SqlFault::Unattached)),
    }
}
