// A keeper in memory that never fails by itself.
ghost use Rattle.std.specs.Prelude.{◌≡◌, [], true, false, Some, None, if◌then◌else◌, OnOk, OnErr, IsErrOf, IfOk, IfSome, string_bytes};
ghost use Rattle.std.specs.FinMap as map;
ghost use Rattle.std.specs.FinMap.{is_sorted};
ghost use Rattle.std.specs.List.{AllByRecursion};
ghost use Rattle.hx_object.specs.Texts.{bytes_cmp};
ghost use Rattle.hx_ports.specs.Keeping.{meta_of, row_after, with_batch, IsPut, Lands};
ghost use Rattle.hx_ports.specs.Rows.{told, kept_of, entries_of};

use crate::given_rows::{count_rows, is_told, lay_rows, ordered_copies, row_behind};
use crate::keeper::{Batch, KeepFault, Keeper, Meta, Row};
use crate::row_map::{RowMap, cut_rows, put_rows};
use hx_object::NoMemory;
use indexmap::IndexSet;
use std::alloc::Global;
use std::hash::RandomState;

/// Rows in memory, without watchers. They lie as they were given until they are wanted by their keys, at the first commit at the latest, and then in a set.
pub struct SureKeeper {
    given: Vec<Row>,
    rows: RowMap,
    meta: Meta,
    tells: bool,
    place: Option<String>,
    alloc: Global,
    ghost ascends: { tells ≡ true → is_sorted bytes_cmp (entries_of given.items) ≡ true },
}

impl Drop for SureKeeper {
    fn drop(self) {
        let SureKeeper {
            given: _,
            rows: _,
            meta: _,
            tells: _,
            place: _,
            alloc: _,
        } = self;
    }
}

impl SureKeeper {
    ghost use Rattle.hx_ports.specs.Shown.{given_meta, held_by, tells_rows};

    /// A keeper of these rows, which hashes keys by `keys`. It tells the rows where they ascend by their keys and `meta` counts them.
    pub fn new(rows: Vec<Row>, meta: Meta, keys: RandomState) -> Self
        ensures shown { ⟦<SureKeeper as Keeper>⟧.shown result ≡ record { place = None; kept = told rows.items meta; broken = false; faults = 0; watchers = [] } }
        ensures held { held_by result ≡ kept_of rows.items meta }
        ensures meta { given_meta result ≡ meta }
    {
        let alloc = *rows.allocator();
        let tells = is_told(rows.as_slice(), &meta);
        SureKeeper {
            given: rows,
            rows: IndexSet::with_hasher(alloc, keys),
            meta,
            tells,
            place: None,
            alloc,
        }
    }

    /// Copies of the rows, in ascending order of their keys.
    pub fn rows(&mut self) -> Result<Vec<Row>, NoMemory>
        ensures held { IfOk result (λ rows. map.entries (held_by self.old).rows ≡ entries_of rows.items) }
        ensures kept { IfOk result (λ rows. IfSome (⟦<SureKeeper as Keeper>⟧.shown self.old).kept (λ held. map.entries held.rows ≡ entries_of rows.items)) }
        ensures same { ⟦<SureKeeper as Keeper>⟧.shown self.new ≡ ⟦<SureKeeper as Keeper>⟧.shown self.old }
    {
        ordered_copies(self.alloc, &mut self.given, &mut self.rows)
    }

    pub fn version(&self) -> u64
        ensures { IfSome (⟦<SureKeeper as Keeper>⟧.shown self.now).kept (λ held. result ≡ held.version) }
    {
        self.meta.version
    }
}

impl Keeper for SureKeeper {
    ghost use Rattle.hx_ports.specs.Shown.{given_meta, held_by, place_of, tells_rows};

    ghost shown = { λ k. record { place = place_of k; kept = if tells_rows k then Some (held_by k) else None; broken = false; faults = 0; watchers = [] } };

    fn attach(&mut self, path: &str) -> Result<(), KeepFault>
        ensures place { OnOk result ((⟦<SureKeeper as Keeper>⟧.shown self.new).place ≡ Some path.now) }
        ensures nowhere { OnErr result ((⟦<SureKeeper as Keeper>⟧.shown self.new).place ≡ (⟦<SureKeeper as Keeper>⟧.shown self.old).place) }
        ensures same { (⟦<SureKeeper as Keeper>⟧.shown self.new).kept ≡ (⟦<SureKeeper as Keeper>⟧.shown self.old).kept }
        ensures held { held_by self.new ≡ held_by self.old }
        ensures meta { (given_meta self.new ≡ given_meta self.old) × (tells_rows self.new ≡ tells_rows self.old) }
        ensures memory { OnErr result (IsErrOf result KeepFault.NoMemory) }
    {
        self.place = Some(copy_text(self.alloc, path)?);
        Ok(())
    }

    fn meta(&mut self) -> Result<Meta, KeepFault>
        ensures meta { IfOk result (λ meta. IfSome (⟦<SureKeeper as Keeper>⟧.shown self.old).kept (λ held. meta ≡ meta_of held)) }
        ensures untold { tells_rows self.old ≡ false → IfOk result (λ meta. meta ≡ given_meta self.old) }
        ensures memory { OnErr result (IsErrOf result KeepFault.NoMemory) }
        ensures same { ⟦<SureKeeper as Keeper>⟧.shown self.new ≡ ⟦<SureKeeper as Keeper>⟧.shown self.old }
        ensures held { (held_by self.new ≡ held_by self.old) × (given_meta self.new ≡ given_meta self.old) × (tells_rows self.new ≡ tells_rows self.old) }
    {
        let mut meta = self.meta;
        if self.tells {
            meta.rows = count_rows(&mut self.given, &mut self.rows)?;
        }
        Ok(meta)
    }

    /// Before the first commit this costs one search, where the keeper tells its rows. Afterwards it costs a walk over all rows.
    fn load(&mut self, after: &[u8]) -> Result<Option<Row>, KeepFault>
        ensures row { IfOk result (λ row. IfSome (⟦<SureKeeper as Keeper>⟧.shown self.old).kept (λ held. row ≡ row_after after.now held)) }
        ensures first { IfOk result (λ row. row ≡ row_after after.now (held_by self.old)) }
        ensures memory { OnErr result (IsErrOf result KeepFault.NoMemory) }
        ensures same { ⟦<SureKeeper as Keeper>⟧.shown self.new ≡ ⟦<SureKeeper as Keeper>⟧.shown self.old }
        ensures held { (held_by self.new ≡ held_by self.old) × (given_meta self.new ≡ given_meta self.old) × (tells_rows self.new ≡ tells_rows self.old) }
    {
        Ok(row_behind(&mut self.given, &mut self.rows, self.tells, after)?)
    }

    fn commit(&mut self, batch: Batch) -> Result<(), KeepFault>
        requires { AllByRecursion IsPut batch.puts }
        ensures lands { OnOk result (Lands batch (⟦<SureKeeper as Keeper>⟧.shown self.old).kept (⟦<SureKeeper as Keeper>⟧.shown self.new).kept) }
        ensures held { OnOk result (held_by self.new ≡ with_batch batch (held_by self.old)) }
        ensures meta { OnOk result ((given_meta self.new ≡ record (given_meta self.old) { version = batch.version }) × (tells_rows self.new ≡ tells_rows self.old)) }
        ensures memory { OnErr result (IsErrOf result KeepFault.NoMemory) }
        ensures same { OnErr result ((held_by self.new ≡ held_by self.old) × (given_meta self.new ≡ given_meta self.old) × (tells_rows self.new ≡ tells_rows self.old)) }
        ensures place { (⟦<SureKeeper as Keeper>⟧.shown self.new).place ≡ (⟦<SureKeeper as Keeper>⟧.shown self.old).place }
    {
        let Batch {
            version,
            puts,
            cuts,
            events: _,
        } = batch;
        lay_rows(&mut self.given, &mut self.rows)?;
        put_rows(&mut self.rows, puts.into_vec())?;
        cut_rows(&mut self.rows, cuts.into_vec());
        self.meta.version = version;
        Ok(())
    }
}

fn copy_text(alloc: Global, text: &str) -> Result<String, NoMemory>
    ensures { IfOk result (λ copy. string_bytes copy ≡ text.now) }
{
    Ok(String::from_str(alloc, text)?)
}
