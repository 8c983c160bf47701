// What a start reads: the rows of a keeper, one behind the other, as the objects of a state.
ghost use Rattle.std.specs.Prelude.{◌≡◌, ◌==◌, ◌≤◌, ◌<◌, ◌+◌, ◌-◌, ◌^◌, [], None, IfOk, IfErr, IfSome, IsUtf8, OnOk, if◌then◌else◌};
ghost use Rattle.std.specs.FinMap as map;
ghost use Rattle.hx_model.specs.State.{has_home};
ghost use Rattle.hx_model.specs.Valid.{IsValid};
ghost use Rattle.hx_model.specs.Windows.{opened};
ghost use Rattle.hx_core.specs.Loading.{Asked, HasRowBehind, Hinders, IfUntaken, IsBehindAll, IsFlaw, IsLoaded, IsTakeable, Takes};
ghost use Rattle.hx_core.specs.Refinement.{kept_of};
ghost use Rattle.hx_core.specs.Rows.{current_schema};
ghost use Rattle.hx_core.specs.Starting.{IfDamage, IfDamaged, IfWhole, IsUndamaged, Tells, is_misfit};

use crate::damage::Damage;
use crate::rows::SCHEMA;
use hx_json::{BodyReader, RowFault};
use hx_model::RunConfig;
use hx_object::{List, NoMemory, Object};
use hx_ports::{KeepFault, Keeper, Meta, Row};
use hx_state::{GREATEST_VERSION, IndexedState};
use std::alloc::Global;
use std::hash::RandomState;

/// Why a cluster didn't start.
#[derive(Clone, Copy)]
pub enum StartFault {
    /// The keeper failed, and its count rose.
    KeeperFault,
    /// A stored row is damaged: the first such row, counted from 1, or 0 for the keeper's own schema and version, and what is damaged of it.
    Damaged { row: u64, damage: Damage },
    NoMemory,
}

impl From<KeepFault> for StartFault {
    ghost use Rattle.std.specs.Prelude.{◌≡◌};
    ghost use Rattle.hx_ports.specs.declared.keeper.KeepFault.TheVariants as keep;
    ghost use Rattle.hx_core.specs.declared.start.StartFault.TheVariants.{KeeperFault, NoMemory};

    ghost from_gives = { λ fault start. (fault ≡ keep.Fault → start ≡ KeeperFault) × (fault ≡ keep.NoMemory → start ≡ NoMemory) };

    fn from(fault: KeepFault) -> StartFault {
        match fault {
            KeepFault::Fault => StartFault::KeeperFault,
            KeepFault::NoMemory => StartFault::NoMemory,
        }
    }
}

impl From<NoMemory> for StartFault {
    ghost use Rattle.std.specs.Prelude.{◌≡◌};
    ghost use Rattle.hx_core.specs.declared.start.StartFault.TheVariants.{NoMemory};

    ghost from_gives = { λ _ fault. fault ≡ NoMemory };

    fn from(_fault: NoMemory) -> StartFault {
        StartFault::NoMemory
    }
}

/// Why the object of a row isn't taken.
#[derive(Clone, Copy)]
enum Untaken {
    Damaged(Damage),
    NoMemory,
}

impl From<NoMemory> for Untaken {
    ghost use Rattle.std.specs.Prelude.{◌≡◌};
    ghost use Rattle.hx_core.specs.declared.start.Untaken.TheVariants.{NoMemory};

    ghost from_gives = { λ _ fault. fault ≡ NoMemory };

    fn from(_fault: NoMemory) -> Untaken {
        Untaken::NoMemory
    }
}

/// The state of the rows that a keeper has. Where a row that is there is damaged, its key is told.
pub fn load_state<K: Keeper>(
    alloc: Global,
    keeper: &mut K,
    config: RunConfig,
    keys: RandomState,
    damaged_key: &mut Option<List<u8>>,
) -> Result<IndexedState, StartFault>
    requires { damaged_key.old ≡ None }
    ensures config { IfOk result (λ s. s.state.config ≡ config) }
    ensures window { IfOk result (λ s. s.state.window ≡ opened s.state.last) }
    ensures staged { IfOk result (λ s. s.staged ≡ []) }
    ensures valid { IfOk result (λ s. IsValid s.state) }
    ensures holds { IfOk result (λ s. IfSome (K.shown keeper.old).kept (λ held. held ≡ kept_of s.state)) }
    ensures undamaged { IfOk result (λ s. IfSome (K.shown keeper.old).kept IsUndamaged) }
    ensures damaged { IfErr result (λ fault. IfDamage fault (λ row damage. IfSome (K.shown keeper.old).kept (λ held. Tells held row damage damaged_key.new))) }
    ensures keyless { IfErr result (λ fault. IfWhole fault (damaged_key.new ≡ None)) }
    ensures unset { OnOk result (damaged_key.new ≡ None) }
    ensures asked { Asked (K.shown keeper.old) (K.shown keeper.new) result }
{
    let meta = keeper.meta()?;
    if is_misfit(&meta) {
        let damage = misfit_of(&meta);
        return Err(StartFault::Damaged { row: 0, damage });
    }
    let mut state = IndexedState::new(alloc, meta.version, config, keys)?;
    match load_all(alloc, keeper, &mut state, meta.rows, damaged_key) {
        Ok(()) => Ok(state),
        Err(fault) => {
            drop(state);
            Err(fault)
        }
    }
}

/// Whether a cluster has no such schema, or no such version.
fn is_misfit(meta: &Meta) -> bool
    ensures { result ≡ is_misfit meta.now }
{
    meta.schema != SCHEMA || meta.version > GREATEST_VERSION
}

/// Which of the two no cluster has.
fn misfit_of(meta: &Meta) -> Damage
    ensures { result ≡ if meta.now.schema == current_schema then Damage.LastVersion else Damage.Schema }
{
    if meta.schema == SCHEMA {
        Damage::LastVersion
    } else {
        Damage::Schema
    }
}

/// Loads all rows, of which there are so many.
fn load_all<K: Keeper>(
    alloc: Global,
    keeper: &mut K,
    state: &mut IndexedState,
    rows: u64,
    damaged_key: &mut Option<List<u8>>,
) -> Result<(), StartFault>
    requires unset { damaged_key.old ≡ None }
    requires empty { IsLoaded state.old.state (K.shown keeper.old).kept [] 0 }
    requires unstaged { state.old.staged ≡ [] }
    requires rows { IfSome (K.shown keeper.old).kept (λ held. rows ≡ map.len held.rows) }
    ensures config { OnOk result (state.new.state.config ≡ state.old.state.config) }
    ensures window { OnOk result (state.new.state.window ≡ opened state.new.state.last) }
    ensures staged { OnOk result (state.new.staged ≡ []) }
    ensures valid { OnOk result (IsValid state.new.state) }
    ensures holds { OnOk result (IfSome (K.shown keeper.old).kept (λ held. held ≡ kept_of state.new.state)) }
    ensures undamaged { OnOk result (IfSome (K.shown keeper.old).kept IsUndamaged) }
    ensures damaged { IfErr result (λ fault. IfDamage fault (λ row damage. IfSome (K.shown keeper.old).kept (λ held. Tells held row damage damaged_key.new))) }
    ensures keyless { IfErr result (λ fault. IfWhole fault (damaged_key.new ≡ None)) }
    ensures unset { OnOk result (damaged_key.new ≡ None) }
    ensures asked { Asked (K.shown keeper.old) (K.shown keeper.new) result }
{
    let last = load_rows(alloc, keeper, state, rows, damaged_key)?;
    check_end(keeper, &last, rows, damaged_key)?;
    Ok(())
}

/// Checks that no row lies behind the last of so many.
fn check_end<K: Keeper>(
    keeper: &mut K,
    last: &List<u8>,
    rows: u64,
    damaged_key: &mut Option<List<u8>>,
) -> Result<(), StartFault>
    requires unset { damaged_key.old ≡ None }
    requires text { IsUtf8 last.now }
    ensures more { IfErr result (λ fault. IfDamaged fault (λ row. IfSome (K.shown keeper.old).kept (HasRowBehind last.now))) }
    ensures keyless { IfErr result (λ fault. IfWhole fault (damaged_key.new ≡ None)) }
    ensures unset { OnOk result (damaged_key.new ≡ None) }
    ensures asked { Asked (K.shown keeper.old) (K.shown keeper.new) result }
{
    match keeper.load(last.as_slice())? {
        Some(row) => {
            let Row { key, .. } = row;
            *damaged_key = Some(key);
            Err(StartFault::Damaged {
                row: rows.saturating_add(1),
                damage: Damage::Surplus,
            })
        }
        None => Ok(()),
    }
}

/// Loads so many rows, and gives the key of the last one.
fn load_rows<K: Keeper>(
    alloc: Global,
    keeper: &mut K,
    state: &mut IndexedState,
    rows: u64,
    damaged_key: &mut Option<List<u8>>,
) -> Result<List<u8>, StartFault>
    requires unset { damaged_key.old ≡ None }
    requires empty { IsLoaded state.old.state (K.shown keeper.old).kept [] 0 }
    requires unstaged { state.old.staged ≡ [] }
    requires rows { IfSome (K.shown keeper.old).kept (λ held. rows ≤ map.len held.rows) }
    ensures loaded { IfOk result (λ key. IsLoaded state.new.state (K.shown keeper.old).kept key rows) }
    ensures config { IfOk result (λ key. state.new.state.config ≡ state.old.state.config) }
    ensures staged { IfOk result (λ key. state.new.staged ≡ []) }
    ensures damaged { IfErr result (λ fault. IfDamage fault (λ row damage. IfSome (K.shown keeper.old).kept (λ held. Tells held row damage damaged_key.new))) }
    ensures keyless { IfErr result (λ fault. IfWhole fault (damaged_key.new ≡ None)) }
    ensures unset { OnOk result (damaged_key.new ≡ None) }
    ensures asked { Asked (K.shown keeper.old) (K.shown keeper.new) result }
{
    let mut reader = BodyReader::new(alloc);
    let mut key = List::of(Vec::new(alloc));
    for before in 0..rows {
        key = load_row(keeper, state, &mut reader, key, before, damaged_key)?;
    }
    Ok(key)
}

/// Loads the row behind a key, so many rows having gone before, and gives its key.
fn load_row<K: Keeper>(
    keeper: &mut K,
    state: &mut IndexedState,
    reader: &mut BodyReader,
    key: List<u8>,
    before: u64,
    damaged_key: &mut Option<List<u8>>,
) -> Result<List<u8>, StartFault>
    requires unset { damaged_key.old ≡ None }
    requires loaded { IsLoaded state.old.state (K.shown keeper.old).kept key before }
    requires within { IfSome (K.shown keeper.old).kept (λ held. before < map.len held.rows) }
    requires few { before < 2 ^ 64 - 1 }
    ensures loaded { IfOk result (λ next. IsLoaded state.new.state (K.shown keeper.old).kept next (before + 1)) }
    ensures config { IfOk result (λ next. state.new.state.config ≡ state.old.state.config) }
    ensures staged { IfOk result (λ next. state.new.staged ≡ []) }
    ensures damaged { IfErr result (λ fault. IfDamage fault (λ row damage. IfSome (K.shown keeper.old).kept (λ held. Tells held row damage damaged_key.new))) }
    ensures keyless { IfErr result (λ fault. IfWhole fault (damaged_key.new ≡ None)) }
    ensures unset { OnOk result (damaged_key.new ≡ None) }
    ensures asked { Asked (K.shown keeper.old) (K.shown keeper.new) result }
{
    let number = before + 1;
    let Some(row) = keeper.load(key.as_slice())? else {
        return Err(StartFault::Damaged {
            row: number,
            damage: Damage::Missing,
        });
    };
    match take_row(state, reader, &key, &row) {
        Ok(()) => {
            let Row { key: next, .. } = row;
            Ok(next)
        }
        Err(Untaken::Damaged(damage)) => {
            let Row { key: lost, .. } = row;
            *damaged_key = Some(lost);
            Err(StartFault::Damaged {
                row: number,
                damage,
            })
        }
        Err(Untaken::NoMemory) => Err(StartFault::NoMemory),
    }
}

/// Takes the object of a row into the state: the row is to lie behind a key.
fn take_row(
    state: &mut IndexedState,
    reader: &mut BodyReader,
    key: &List<u8>,
    row: &Row,
) -> Result<(), Untaken>
    requires last { IsBehindAll key.now state.old.state.objects }
    ensures taken { OnOk result (Takes state.old.state key.now row.now state.new.state) }
    ensures untaken { IfErr result (λ fault. IfUntaken fault (Hinders state.old.state key.now row.now)) }
    ensures text { OnOk result (IsUtf8 row.now.key) }
    ensures staged { OnOk result (state.new.staged ≡ []) }
{
    if *key >= row.key {
        return Err(Untaken::Damaged(Damage::KeyOrder));
    }
    let object = object_of(state, reader, row)?;
    state.load(object)?;
    Ok(())
}

/// The object of a row, where it may be taken into the state.
fn object_of(state: &IndexedState, reader: &mut BodyReader, row: &Row) -> Result<Object, Untaken>
    ensures object { IfOk result (IsTakeable state.now.state row.now) }
    ensures flaw { IfErr result (λ fault. IfUntaken fault (IsFlaw state.now.state row.now)) }
    ensures text { IfOk result (λ x. IsUtf8 row.now.key) }
{
    if row.version == 0 || row.version > state.version() {
        return Err(Untaken::Damaged(Damage::RowVersion));
    }
    let body = row.body.as_str();
    match reader.read_row(row.key.as_slice(), row.version, body.as_bytes()) {
        Ok(object) => housed(state, object),
        Err(RowFault::NoObject) => Err(Untaken::Damaged(Damage::NoObject)),
        Err(RowFault::NoMemory) => Err(Untaken::NoMemory),
    }
}

/// The object, where its namespace is there.
fn housed(state: &IndexedState, object: Object) -> Result<Object, Untaken>
    ensures { result ≡ if has_home state.now.state.objects object.id then Ok object else Err (Untaken.Damaged Damage.NoNamespace) }
{
    if state.has_home(&object.id) {
        Ok(object)
    } else {
        drop(object);
        Err(Untaken::Damaged(Damage::NoNamespace))
    }
}
