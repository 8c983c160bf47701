// Rows by their keys, in no order, so that a row is put or cut by one look-up.
ghost use Rattle.std.specs.Prelude.{◌≡◌, ◌+◌, ◌<◌, ◌≤◌, true, OnOk, OnErr, IfOk, find as find_first, option_copied};
ghost use Rattle.std.specs.FinMap as map;
ghost use Rattle.std.specs.FinMap.{is_sorted};
ghost use Rattle.std.specs.List.{AllByRecursion};
ghost use Rattle.hx_object.specs.Faults.{IsLegal};
ghost use Rattle.hx_object.specs.Json.{object_text};
ghost use Rattle.hx_object.specs.Texts.{bytes_cmp};
ghost use Rattle.hx_model.specs.Texts.{key_text};
ghost use Rattle.hx_ports.specs.Keeping.{IsPut, first_behind, with_puts, with_cuts};
ghost use Rattle.hx_ports.specs.Rows.{entries_of, lies_behind, nearer, rows_in};
ghost use Rattle.indexmap.specs.IndexSet.{spare};

use crate::held_row::{HeldRow, KeyOf};
use crate::keeper::Row;
use hx_object::{Id, NoMemory, Shared};
use indexmap::IndexSet;
use std::alloc::Global;
use std::hash::RandomState;

/// Rows by their keys.
pub(crate) type RowMap = IndexSet<HeldRow, RandomState>;

/// Brings the rows into the order of their keys.
pub(crate) fn sort_rows(held: &mut RowMap) -> Result<(), NoMemory>
    ensures sorted { OnOk result (is_sorted bytes_cmp held.new.keys ≡ true) }
    ensures same { rows_in held.new ≡ rows_in held.old }
{
    Ok(held.sort()?)
}

/// Copies of the rows in their order.
pub(crate) fn copy_rows(alloc: Global, held: &RowMap) -> Result<Vec<Row>, NoMemory>
    ensures { IfOk result (λ rows. entries_of rows.items ≡ held.now.keys) }
{
    let mut rows = Vec::new(alloc);
    for row in held.iter() {
        rows.push(row.row(alloc)?)?;
    }
    Ok(rows)
}

/// A copy of the row with the least key that is greater. All rows are walked.
pub(crate) fn held_row_behind(held: &RowMap, after: &[u8]) -> Result<Option<Row>, NoMemory>
    ensures { IfOk result (λ row. row ≡ first_behind after.now (rows_in held.now)) }
{
    match least_behind(held, after) {
        Some(row) => Ok(Some(row.row(*held.allocator())?)),
        None => Ok(None),
    }
}

/// The row with the least key that is greater.
fn least_behind<'a>(held: &'a RowMap, after: &[u8]) -> Option<&'a HeldRow>
    ensures { option_copied result ≡ find_first (lies_behind after.now) (map.entries (rows_in held.now)) }
{
    let mut least = None;
    for row in held.iter() {
        least = nearer(after, least, row);
    }
    least
}

/// The one of two rows with the lesser key that is greater.
fn nearer<'a>(after: &[u8], least: Option<&'a HeldRow>, row: &'a HeldRow) -> Option<&'a HeldRow>
    ensures { option_copied result ≡ nearer after.now (option_copied least.entry) row.now }
{
    if !row.lies_behind(after) {
        return least;
    }
    match least {
        None => Some(row),
        Some(other) => { if row < other { Some(row) } else { least } }
    }
}

/// Puts the rows of objects into their places, the first one first. Memory is asked for before the first one is put.
pub(crate) fn put_rows(held: &mut RowMap, puts: Vec<Shared>) -> Result<(), NoMemory>
    requires { AllByRecursion IsPut puts.items }
    ensures puts { OnOk result (rows_in held.new ≡ with_puts puts.items (rows_in held.old)) }
    ensures same { OnErr result (rows_in held.new ≡ rows_in held.old) }
{
    held.reserve(puts.len())?;
    for object in puts {
        put_row(held, object);
    }
    Ok(())
}

/// Puts the row of an object into its place. There is room for it, so that this takes no memory.
fn put_row(held: &mut RowMap, object: Shared)
    requires room { 0 < spare held.old }
    requires legal { IsLegal object }
    ensures put { rows_in held.new ≡ map.insert (rows_in held.old) (key_text object.id) (object.version, object_text object) }
    ensures room { spare held.old ≤ spare held.new + 1 }
{
    hold_row(held, HeldRow::of(object));
}

/// Puts a row that was given into its place. There is room for it, so that this takes no memory.
pub(crate) fn lay_row(held: &mut RowMap, row: Row, place: Box<Row>)
    requires room { 0 < spare held.old }
    ensures put { rows_in held.new ≡ map.insert (rows_in held.old) row.key (row.version, row.body) }
    ensures room { spare held.old ≤ spare held.new + 1 }
{
    hold_row(held, HeldRow::given(place, row));
}

fn hold_row(held: &mut RowMap, row: HeldRow)
    requires room { 0 < spare held.old }
    ensures put { rows_in held.new ≡ map.insert (rows_in held.old) row.0 row.1 }
    ensures room { spare held.old ≤ spare held.new + 1 }
{
    let _had = held.replace(row);
}

/// Takes the rows of identities away.
pub(crate) fn cut_rows(held: &mut RowMap, ids: Vec<Id>)
    ensures { rows_in held.new ≡ with_cuts ids.items (rows_in held.old) }
{
    for id in ids {
        cut_row(held, &id);
    }
}

/// Takes the row of an identity away, where there is one. This takes no memory.
fn cut_row(held: &mut RowMap, id: &Id)
    ensures { rows_in held.new ≡ map.remove (rows_in held.old) (key_text id.now) }
{
    let _ = held.swap_remove(KeyOf { id });
}
