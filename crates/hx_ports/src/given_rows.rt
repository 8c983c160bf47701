// Rows as they were given, and those that were laid into their map.
ghost use Rattle.std.specs.Prelude.{◌≡◌, true, [], OnOk, IfOk, find as find_first, option_map, slice_get};
ghost use Rattle.std.specs.FinMap as map;
ghost use Rattle.std.specs.FinMap.{is_sorted};
ghost use Rattle.hx_object.specs.Texts.{bytes_cmp};
ghost use Rattle.hx_ports.specs.Keeping.{first_behind, row_of_entry};
ghost use Rattle.hx_ports.specs.Rows.{entry_of, entries_of, is_told, lies_behind, rows_over, rows_in};

use crate::held_row::HeldRow;
use crate::keeper::{Meta, Row};
use crate::row_map::{RowMap, copy_rows, held_row_behind, lay_row, sort_rows};
use hx_object::NoMemory;
use std::alloc::Global;

/// Whether a keeper of these rows tells them.
pub(crate) fn is_told(rows: &[Row], meta: &Meta) -> bool
    ensures { result ≡ is_told rows.now meta.now }
{
    rows.len() as u64 == meta.rows && ascend(rows)
}

/// Whether the rows ascend by their keys, so that no key stands twice.
fn ascend(rows: &[Row]) -> bool
    ensures { result ≡ is_sorted bytes_cmp (entries_of rows.now) }
{
    for i in 1..rows.len() {
        if rows[i - 1].key >= rows[i].key {
            return false;
        }
    }
    true
}

/// How many rows there are. Where none was laid it is the number of the given ones, which ascend.
pub(crate) fn count_rows(given: &mut Vec<Row>, held: &mut RowMap) -> Result<u64, NoMemory>
    requires ascends { is_sorted bytes_cmp (entries_of given.old.items) ≡ true }
    ensures count { IfOk result (λ n. n ≡ map.len (rows_over given.old.items (rows_in held.old))) }
    ensures same { rows_over given.new.items (rows_in held.new) ≡ rows_over given.old.items (rows_in held.old) }
    ensures ascends { is_sorted bytes_cmp (entries_of given.new.items) ≡ true }
{
    if held.is_empty() {
        return Ok(given.as_slice().len() as u64);
    }
    lay_rows(given, held)?;
    Ok(held.len() as u64)
}

/// A copy of the first row whose key is greater. Where none was laid and the given ones ascend, it is found by one search; else all rows are laid into the map and walked.
pub(crate) fn row_behind(
    given: &mut Vec<Row>,
    held: &mut RowMap,
    ascends: bool,
    after: &[u8],
) -> Result<Option<Row>, NoMemory>
    requires ascends { ascends ≡ true → is_sorted bytes_cmp (entries_of given.old.items) ≡ true }
    ensures row { IfOk result (λ row. row ≡ first_behind after.now (rows_over given.old.items (rows_in held.old))) }
    ensures same { rows_over given.new.items (rows_in held.new) ≡ rows_over given.old.items (rows_in held.old) }
    ensures ascends { is_sorted bytes_cmp (entries_of given.old.items) ≡ true → is_sorted bytes_cmp (entries_of given.new.items) ≡ true }
{
    if ascends && held.is_empty() {
        return given_row_behind(given.as_slice(), after);
    }
    lay_rows(given, held)?;
    held_row_behind(held, after)
}

/// Copies of the rows in ascending order of their keys.
pub(crate) fn ordered_copies(
    alloc: Global,
    given: &mut Vec<Row>,
    held: &mut RowMap,
) -> Result<Vec<Row>, NoMemory>
    ensures rows { IfOk result (λ rows. map.entries (rows_over given.old.items (rows_in held.old)) ≡ entries_of rows.items) }
    ensures same { rows_over given.new.items (rows_in held.new) ≡ rows_over given.old.items (rows_in held.old) }
    ensures ascends { is_sorted bytes_cmp (entries_of given.old.items) ≡ true → is_sorted bytes_cmp (entries_of given.new.items) ≡ true }
{
    order_rows(given, held)?;
    copy_rows(alloc, held)
}

/// Lays all rows into the map, and brings it into the order of their keys.
fn order_rows(given: &mut Vec<Row>, held: &mut RowMap) -> Result<(), NoMemory>
    ensures ordered { OnOk result (map.entries (rows_over given.old.items (rows_in held.old)) ≡ held.new.keys) }
    ensures same { rows_over given.new.items (rows_in held.new) ≡ rows_over given.old.items (rows_in held.old) }
    ensures ascends { is_sorted bytes_cmp (entries_of given.old.items) ≡ true → is_sorted bytes_cmp (entries_of given.new.items) ≡ true }
{
    lay_rows(given, held)?;
    sort_rows(held)
}

/// Puts the rows of a list into the map, the last one first, so that of those with one key the first stays. Where memory is wanting the others stay in the list.
pub(crate) fn lay_rows(given: &mut Vec<Row>, held: &mut RowMap) -> Result<(), NoMemory>
    ensures laid { OnOk result (given.new.items ≡ []) }
    ensures same { rows_over given.new.items (rows_in held.new) ≡ rows_over given.old.items (rows_in held.old) }
    ensures ascends { is_sorted bytes_cmp (entries_of given.old.items) ≡ true → is_sorted bytes_cmp (entries_of given.new.items) ≡ true }
{
    held.reserve(given.len())?;
    while !given.is_empty() {
        let place = HeldRow::place(*held.allocator())?;
        let Some(row) = given.pop() else {
            return Ok(());
        };
        lay_row(held, row, place);
    }
    Ok(())
}

/// A copy of the first of rows that ascend whose key is greater.
fn given_row_behind(given: &[Row], after: &[u8]) -> Result<Option<Row>, NoMemory>
    requires { is_sorted bytes_cmp (entries_of given.now) ≡ true }
    ensures { IfOk result (λ row. row ≡ option_map row_of_entry (find_first (lies_behind after.now) (entries_of given.now))) }
{
    match given.get(place_behind(given, after)) {
        Some(row) => Ok(Some(copy_row(row)?)),
        None => Ok(None),
    }
}

fn copy_row(row: &Row) -> Result<Row, NoMemory>
    ensures { IfOk result (λ copy. copy ≡ row.now) }
{
    Ok(Row {
        key: row.key.clone()?,
        version: row.version,
        body: row.body.clone()?,
    })
}

/// Where the first of rows that ascend lies whose key is greater, or their number.
fn place_behind(given: &[Row], after: &[u8]) -> usize
    requires { is_sorted bytes_cmp (entries_of given.now) ≡ true }
    ensures { option_map entry_of (slice_get given.now result) ≡ find_first (lies_behind after.now) (entries_of given.now) }
{
    let mut low = 0;
    let mut high = given.len();
    while low < high {
        let middle = low + (high - low) / 2;
        if after < given[middle].key.as_slice() {
            high = middle;
        } else {
            low = middle + 1;
        }
    }
    low
}
