// Sums of namespaces over their subtrees, resource by resource.
ghost use Rattle.std.specs.Prelude.{◌≡◌, ℕ, ◌+◌, ◌-◌, ◌<◌, ◌≤◌, ◌^◌, true, false, Some, None, List, [], ◌∷◌, ◌++◌, length, replicate, slice_get, slice_index, slice_set, OnOk};
ghost use Rattle.std.specs.List.{swap_remove, AllByRecursion};
ghost use Rattle.hx_quota.specs.Inside.{MayAdjust};
ghost use Rattle.hx_quota.specs.SumRows.{column_at, flag_of, flags_at, AdjustsRow};

use crate::places::Change;
use hx_object::NoMemory;
use std::alloc::Global;
use std::array;
use std::marker::Model;

/// The sums of one resource by the index of the namespace.
struct Column {
    sums: Vec<u128>,
}

impl Drop for Column {
    fn drop(self) {
        let Column { sums: _ } = self;
    }
}

impl Model for Column {
    ghost use Rattle.std.specs.Prelude.{◌-◌, length, vec_capacity};
    ghost use Rattle.hx_quota.specs.SumRows.{ColumnView};

    ghost Value = { ColumnView };

    ghost view = { λ c. record { sums = c.sums.items; spare = vec_capacity c.sums - length c.sums.items } };
}

impl Column {
    /// No sums. It takes no memory.
    fn new(alloc: Global) -> Column
        ensures { result.sums ≡ [] }
    {
        Column {
            sums: Vec::new(alloc),
        }
    }

    fn len(&self) -> usize
        ensures { result ≡ length self.now.sums }
    {
        self.sums.len()
    }

    /// Makes room for `more`. Where no memory is left, the room stays.
    fn reserve(&mut self, more: usize) -> Result<(), NoMemory>
        ensures sums { self.new.sums ≡ self.old.sums }
        ensures room { OnOk result (more ≤ self.new.spare) }
        ensures stays { self.old.spare ≤ self.new.spare }
    {
        Ok(self.sums.reserve(more)?)
    }

    /// Nothing comes behind the others. It takes no memory.
    fn push(&mut self)
        requires { 1 ≤ self.old.spare }
        ensures sums { self.new.sums ≡ self.old.sums ++ 0 ∷ [] }
        ensures room { self.old.spare ≤ self.new.spare + 1 }
    {
        self.sums.push_reserved(0);
    }

    /// Takes a sum out; the last one comes in its place.
    fn swap_remove(&mut self, at: usize)
        requires { at < length self.old.sums }
        ensures sums { self.new.sums ≡ swap_remove self.old.sums at 0 }
        ensures room { self.old.spare ≤ self.new.spare }
    {
        let _sum = self.sums.swap_remove(at);
    }

    /// A sum, or 0 where the index isn't there.
    fn get(&self, at: usize) -> u128
        ensures { result ≡ slice_index self.now.sums at }
    {
        self.sums.get(at).copied().unwrap_or(0)
    }

    /// Gives an index another sum, where it is there.
    fn set(&mut self, at: usize, sum: u128)
        ensures sums { self.new.sums ≡ slice_set self.old.sums at sum }
        ensures room { self.new.spare ≡ self.old.spare }
    {
        if let Some(old) = self.sums.get_mut(at) {
            *old = sum;
        }
    }

    /// A sum that is 0 where it isn't `filled`: then it reads nothing.
    fn get_filled(&self, at: usize, filled: bool) -> u128
        requires { filled ≡ false → slice_index self.now.sums at ≡ 0 }
        ensures { result ≡ slice_index self.now.sums at }
    {
        if filled { self.get(at) } else { 0 }
    }

    /// Takes something off the sum at an index, and adds something to it. It says whether the sum isn't 0.
    fn adjust(&mut self, at: usize, take: u128, give: u128) -> bool
        requires there { take ≤ slice_index self.old.sums at }
        requires fits { slice_index self.old.sums at - take + give < 2 ^ 128 }
        ensures sums { self.new.sums ≡ slice_set self.old.sums at (slice_index self.old.sums at - take + give) }
        ensures filled { result ≡ false → slice_index self.old.sums at - take + give ≡ 0 }
        ensures room { self.new.spare ≡ self.old.spare }
    {
        let sum = self.get(at) - take + give;
        self.set(at, sum);
        sum != 0
    }
}

/// The sums of all resources.
type Columns = [Column; 15];

/// No sums. It takes no memory.
fn new_columns(alloc: Global) -> Columns
    ensures { (k : ℕ) → k < 15 → (column_at result k).sums ≡ [] }
{
    array::from_fn(|_| Column::new(alloc))
}

/// Makes room for `more` in each column. Where no memory is left, the room stays.
fn reserve_all(columns: &mut Columns, more: usize) -> Result<(), NoMemory>
    ensures long { length columns.new ≡ 15 }
    ensures sums { (k : ℕ) → k < 15 → (column_at columns.new k).sums ≡ (column_at columns.old k).sums }
    ensures room { OnOk result ((k : ℕ) → k < 15 → more ≤ (column_at columns.new k).spare) }
    ensures stays { (k : ℕ) → k < 15 → (column_at columns.old k).spare ≤ (column_at columns.new k).spare }
{
    for place in 0..15 {
        columns[place].reserve(more)?;
    }
    Ok(())
}

/// Nothing comes behind the others in each column.
fn push_all(columns: &mut Columns)
    requires { (k : ℕ) → k < 15 → 1 ≤ (column_at columns.old k).spare }
    ensures long { length columns.new ≡ 15 }
    ensures sums { (k : ℕ) → k < 15 → (column_at columns.new k).sums ≡ (column_at columns.old k).sums ++ 0 ∷ [] }
    ensures room { (k : ℕ) → k < 15 → (column_at columns.old k).spare ≤ (column_at columns.new k).spare + 1 }
{
    for place in 0..15 {
        columns[place].push();
    }
}

/// Takes the sums at an index out of each column.
fn swap_remove_all(columns: &mut Columns, at: usize)
    requires { (k : ℕ) → k < 15 → at < length (column_at columns.old k).sums }
    ensures long { length columns.new ≡ 15 }
    ensures sums { (k : ℕ) → k < 15 → (column_at columns.new k).sums ≡ swap_remove (column_at columns.old k).sums at 0 }
    ensures room { (k : ℕ) → k < 15 → (column_at columns.old k).spare ≤ (column_at columns.new k).spare }
{
    for place in 0..15 {
        columns[place].swap_remove(at);
    }
}

/// The sums at an index, where those are 0 that aren't filled.
fn row_of(columns: &Columns, filled: &[bool; 15], at: usize) -> [u128; 15]
    requires { (k : ℕ) → k < 15 → flag_of filled.now k ≡ false → slice_index (column_at columns.now k).sums at ≡ 0 }
    ensures long { length result ≡ 15 }
    ensures sums { (k : ℕ) → k < 15 → slice_index result k ≡ slice_index (column_at columns.now k).sums at }
{
    let mut row = [0; 15];
    for place in 0..15 {
        row[place] = columns[place].get_filled(at, filled[place]);
    }
    row
}

/// Changes the sums at an index, and which of them are filled. Of a resource that stays the same it reads nothing.
#[tactic(auto, using(crate::proofs::Rows::same_sum))]
fn adjust_all(columns: &mut Columns, filled: &mut [bool; 15], at: usize, change: &Change)
    requires empty { (k : ℕ) → k < 15 → flag_of filled.old k ≡ false → slice_index (column_at columns.old k).sums at ≡ 0 }
    requires may { (k : ℕ) → k < 15 → (slice_index change.now.take k ≤ slice_index (column_at columns.old k).sums at) × (slice_index (column_at columns.old k).sums at - slice_index change.now.take k + slice_index change.now.give k < 2 ^ 128) }
    ensures long { length columns.new ≡ 15 }
    ensures sums { (k : ℕ) → k < 15 → (column_at columns.new k).sums ≡ slice_set (column_at columns.old k).sums at (slice_index (column_at columns.old k).sums at - slice_index change.now.take k + slice_index change.now.give k) }
    ensures empty { (k : ℕ) → k < 15 → flag_of filled.new k ≡ false → slice_index (column_at columns.old k).sums at - slice_index change.now.take k + slice_index change.now.give k ≡ 0 }
    ensures room { (k : ℕ) → k < 15 → (column_at columns.old k).spare ≤ (column_at columns.new k).spare }
{
    for place in 0..15 {
        let take = change.take[place];
        let give = change.give[place];
        if take == give {
            continue;
        }
        filled[place] = columns[place].adjust(at, take, give);
    }
}

/// Which sums of a namespace may be other than 0, by its index.
struct Filled {
    flags: Vec<[bool; 15]>,
}

impl Drop for Filled {
    fn drop(self) {
        let Filled { flags: _ } = self;
    }
}

impl Model for Filled {
    ghost use Rattle.std.specs.Prelude.{◌-◌, length, vec_capacity};
    ghost use Rattle.hx_quota.specs.SumRows.{FilledView};

    ghost Value = { FilledView };

    ghost view = { λ f. record { flags = f.flags.items; spare = vec_capacity f.flags - length f.flags.items } };
}

impl Filled {
    /// No flags. It takes no memory.
    fn new(alloc: Global) -> Filled
        ensures { result.flags ≡ [] }
    {
        Filled {
            flags: Vec::new(alloc),
        }
    }

    /// Makes room for `more`. Where no memory is left, the room stays.
    fn reserve(&mut self, more: usize) -> Result<(), NoMemory>
        ensures flags { self.new.flags ≡ self.old.flags }
        ensures room { OnOk result (more ≤ self.new.spare) }
        ensures stays { self.old.spare ≤ self.new.spare }
    {
        Ok(self.flags.reserve(more)?)
    }

    /// A namespace that has nothing comes behind the others. It takes no memory.
    fn push(&mut self)
        requires { 1 ≤ self.old.spare }
        ensures flags { self.new.flags ≡ self.old.flags ++ replicate 15 false ∷ [] }
        ensures room { self.old.spare ≤ self.new.spare + 1 }
    {
        self.flags.push_reserved([false; 15]);
    }

    /// Takes the flags at an index out; the last ones come in their place.
    fn swap_remove(&mut self, at: usize)
        requires { at < length self.old.flags }
        ensures flags { self.new.flags ≡ swap_remove self.old.flags at [] }
        ensures room { self.old.spare ≤ self.new.spare }
    {
        let _flags = self.flags.swap_remove(at);
    }

    /// The flags at an index. Where it isn't there, all are up.
    fn get(&self, at: usize) -> [bool; 15]
        ensures { result ≡ flags_at self.now.flags at }
    {
        self.flags.get(at).copied().unwrap_or([true; 15])
    }

    /// Gives an index other flags, where it is there.
    fn set(&mut self, at: usize, flags: [bool; 15])
        ensures flags { self.new.flags ≡ slice_set self.old.flags at flags }
        ensures room { self.new.spare ≡ self.old.spare }
    {
        if let Some(old) = self.flags.get_mut(at) {
            *old = flags;
        }
    }
}

/// Sums of namespaces by their indices. They are kept resource by resource, so that a walk that changes one of them reads 16 bytes for each namespace. Which of them are filled is noted for each namespace, since most are 0, and a move reads them all.
pub(crate) struct SumTable {
    columns: Columns,
    filled: Filled,
}

impl Drop for SumTable {
    fn drop(self) {
        let SumTable {
            columns: _,
            filled: _,
        } = self;
    }
}

impl Model for SumTable {
    ghost use Rattle.std.specs.Prelude.{min};
    ghost use Rattle.hx_quota.specs.SumRows.{SumsView, rows_of, least_room, AreLevel, AreTold};

    ghost Value = { SumsView };

    ghost view = { λ t. record { rows = rows_of t.columns; spare = min (least_room t.columns) t.filled.spare } };

    ghost invariant = { λ t. AreLevel t.columns × AreTold t.columns t.filled.flags };
}

impl SumTable {
    /// No sums. It takes no memory.
    pub(crate) fn new(alloc: Global) -> SumTable
        ensures { result.rows ≡ [] }
    {
        SumTable {
            columns: new_columns(alloc),
            filled: Filled::new(alloc),
        }
    }

    /// How many namespaces have sums.
    pub(crate) fn len(&self) -> usize
        ensures len { result ≡ length self.now.rows }
        ensures long { AllByRecursion (λ row. length row ≡ 15) self.now.rows }
    {
        self.columns[0].len()
    }

    /// Makes room for `more`. Where no memory is left, the room stays.
    pub(crate) fn reserve(&mut self, more: usize) -> Result<(), NoMemory>
        ensures rows { self.new.rows ≡ self.old.rows }
        ensures room { OnOk result (more ≤ self.new.spare) }
        ensures stays { self.old.spare ≤ self.new.spare }
    {
        reserve_all(&mut self.columns, more)?;
        self.filled.reserve(more)
    }

    /// A namespace that has nothing comes behind the others. It takes no memory.
    pub(crate) fn push(&mut self)
        requires { 1 ≤ self.old.spare }
        ensures rows { self.new.rows ≡ self.old.rows ++ replicate 15 0 ∷ [] }
        ensures room { self.old.spare ≤ self.new.spare + 1 }
    {
        push_all(&mut self.columns);
        self.filled.push();
    }

    /// Takes the sums at an index out; the last ones come in their place.
    pub(crate) fn swap_remove(&mut self, at: usize)
        requires { at < length self.old.rows }
        ensures rows { self.new.rows ≡ swap_remove self.old.rows at [] }
        ensures room { self.old.spare ≤ self.new.spare }
    {
        swap_remove_all(&mut self.columns, at);
        self.filled.swap_remove(at);
    }

    /// One sum, or 0 where the index isn't there.
    pub(crate) fn get(&self, at: usize, place: usize) -> u128
        requires { place < 15 }
        ensures there { (row : List ℕ) → slice_get self.now.rows at ≡ Some row → result ≡ slice_index row place }
        ensures absent { slice_get self.now.rows at ≡ None → result ≡ 0 }
    {
        self.columns[place].get(at)
    }

    /// All sums at an index.
    pub(crate) fn row(&self, at: usize) -> Option<[u128; 15]>
        ensures { result ≡ slice_get self.now.rows at }
    {
        if at < self.len() {
            Some(row_of(&self.columns, &self.filled.get(at), at))
        } else {
            None
        }
    }

    /// Changes the sums at an index, and says whether they are there. Of a resource that stays the same it reads nothing.
    pub(crate) fn adjust(&mut self, at: usize, change: &Change) -> bool
        requires { (row : List ℕ) → slice_get self.old.rows at ≡ Some row → MayAdjust change.now.take change.now.give row }
        ensures there { result ≡ true → AdjustsRow change.now.take change.now.give at self.old.rows self.new.rows }
        ensures absent { result ≡ false → slice_get self.old.rows at ≡ None }
        ensures same { result ≡ false → self.new.rows ≡ self.old.rows }
        ensures room { self.old.spare ≤ self.new.spare }
    {
        if at < self.len() {
            let mut filled = self.filled.get(at);
            adjust_all(&mut self.columns, &mut filled, at, change);
            self.filled.set(at, filled);
            true
        } else {
            false
        }
    }
}
