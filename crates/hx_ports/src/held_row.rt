// What the memory holds of a row.
ghost use Rattle.std.specs.Prelude.{◌≡◌, ◌∷◌, [], IfOk, IfSome, Some, refl};
ghost use Rattle.std.specs.Cmp as laws_of;
ghost use Rattle.std.specs.Cmp.{on_equiv, on_per, on_po, on_total};
ghost use Rattle.std.specs.Cmp.Lexicographic.{bytes_decides, nat_list_eq_equiv, nat_list_cmp_total, texts_ties, texts_po};
ghost use Rattle.std.specs.Str.{bytes_eq};
ghost use Rattle.std.proofs.Common.{ap};
ghost use Rattle.hx_object.proofs.Sameness.{exact_id};
ghost use Rattle.hx_object.specs.Faults.{IsLegal};
ghost use Rattle.hx_object.specs.Texts.{bytes_cmp};
ghost use Rattle.hx_object.specs.contracts.object.IdPartialEq.TheImpl as id_eq;
ghost use Rattle.hx_object.specs.contracts.object.IdEq.TheImpl.Laws.{laws-law};
ghost use Rattle.hx_object.specs.contracts.object.IdPartialEq.TheImpl.Laws.{laws-law as partial-law};
ghost use Rattle.hx_model.specs.Texts.{key_text, stored_entry};
ghost use Rattle.hx_ports.specs.Held.{key_bytes, key_front};
ghost use Rattle.hx_ports.specs.Keeping.{row_of_entry};
ghost use Rattle.hx_ports.specs.Rows.{entry_of, lies_behind, same_key};

use crate::keeper::Row;
use crate::row_keys::{MOST, is_key_of, key_front, row_key};
use arrayvec::ArrayVec;
use hx_json::write_object;
use hx_object::{Id, List, NoMemory, Shared, Text};
use indexmap::Equivalent;
use std::alloc::Global;
use std::cmp::Ordering;
use std::hash::{Hash, Hasher};
use std::marker::Model;

/// A row, which contracts see as its key, its version and its body. Rows are one where their keys are.
///
/// A row that was put is held as its object, which the store holds too. Its key and its text are formed when they are wanted, so that they take no memory.
pub(crate) struct HeldRow {
    form: Form,
}

/// A row as it was given, or the object that was put. What was given lies in memory of its own, so that an object takes no more than its pointer.
#[derive(Drop)]
enum Form {
    Given(Box<Row>),
    Put(Shared),
}

impl Drop for HeldRow {
    fn drop(self) {
        let HeldRow { form: _ } = self;
    }
}

impl Model for HeldRow {
    ghost use Rattle.hx_ports.specs.Held.{IsWritable, seen};
    ghost use Rattle.hx_ports.specs.Rows.{Entry};

    ghost Value = { Entry };

    ghost view = { λ h. seen h.form };

    ghost invariant = { λ h. IsWritable h.form };
}

/// The key of a row: as it lies in memory, or as it was formed.
#[derive(Drop)]
enum RowKey<'a> {
    Borrowed(&'a [u8]),
    Formed(ArrayVec<u8, MOST>),
}

impl RowKey<'_> {
    fn as_slice(&self) -> &[u8]
        ensures { result.now ≡ key_bytes self.now }
    {
        match self {
            RowKey::Borrowed(bytes) => bytes,
            RowKey::Formed(bytes) => bytes.as_slice(),
        }
    }
}

impl HeldRow {
    /// Memory for a row that was given.
    pub(crate) fn place(alloc: Global) -> Result<Box<Row>, NoMemory> {
        let row = Row {
            key: List::of(Vec::new(alloc)),
            version: 0,
            body: Text::default(),
        };
        Ok(Box::new(alloc, row)?)
    }

    /// A row as it was given, in this memory.
    pub(crate) fn given(mut place: Box<Row>, row: Row) -> HeldRow
        ensures { result ≡ entry_of row }
    {
        *place = row;
        HeldRow {
            form: Form::Given(place),
        }
    }

    /// The row of an object.
    pub(crate) fn of(object: Shared) -> HeldRow
        requires { IsLegal object }
        ensures { result ≡ stored_entry object }
    {
        HeldRow {
            form: Form::Put(object),
        }
    }

    /// A copy of the row. The key and the text of an object are written for it.
    pub(crate) fn row(&self, alloc: Global) -> Result<Row, NoMemory>
        ensures { IfOk result (λ row. row ≡ row_of_entry self.now) }
    {
        match &self.form {
            Form::Given(row) => Ok(Row {
                key: row.key.clone()?,
                version: row.version,
                body: row.body.clone()?,
            }),
            Form::Put(object) => row_of(alloc, object),
        }
    }

    /// Whether the row's key is greater than bytes.
    pub(crate) fn lies_behind(&self, after: &[u8]) -> bool
        ensures { result ≡ lies_behind after.now self.now }
    {
        after < self.key().as_slice()
    }

    fn key(&self) -> RowKey<'_>
        ensures { key_bytes result ≡ self.now.0 }
    {
        match &self.form {
            Form::Given(row) => RowKey::Borrowed(row.key.as_slice()),
            Form::Put(object) => RowKey::Formed(whole_key(object)),
        }
    }

    /// The object that was put.
    fn object(&self) -> Option<&Shared>
        ensures legal { IfSome result (λ object. IsLegal object.now) }
        ensures is { IfSome result (λ object. self.now ≡ stored_entry object.now) }
    {
        match &self.form {
            Form::Given(_) => None,
            Form::Put(object) => Some(object),
        }
    }
}

/// The row of an object.
fn row_of(alloc: Global, object: &Shared) -> Result<Row, NoMemory>
    requires { IsLegal object.now }
    ensures { IfOk result (λ row. row ≡ row_of_entry (stored_entry object.now)) }
{
    let object = object.object();
    let body = write_object(alloc, object)?;
    Ok(Row {
        key: row_key(alloc, &object.id)?,
        version: object.version,
        body,
    })
}

/// The key of a legal object's row, which is formed without memory.
fn whole_key(object: &Shared) -> ArrayVec<u8, MOST>
    requires { IsLegal object.now }
    ensures { result.items ≡ key_text object.now.id }
{
    key_front(&object.object().id)
}

/// Whether legal objects have one key, as they have where their identity is one.
fn have_one_key(one: &Shared, other: &Shared) -> bool
    requires { IsLegal one.now × IsLegal other.now }
    ensures { result ≡ bytes_eq (key_text one.now.id) (key_text other.now.id) }
{
    one.object().id == other.object().id
}

fn have_same_bytes(one: &HeldRow, other: &HeldRow) -> bool
    ensures { result ≡ same_key one.now other.now }
{
    one.key().as_slice() == other.key().as_slice()
}

impl PartialEq for HeldRow {
    ghost eq = { same_key };

    ghost laws = { on_per (λ row. row.0) (laws_of.partial_equiv_from_equiv nat_list_eq_equiv) };

    fn eq(&self, other: &Self) -> bool {
        let Some(one) = self.object() else {
            return have_same_bytes(self, other);
        };
        let Some(another) = other.object() else {
            return have_same_bytes(self, other);
        };
        have_one_key(one, another)
    }
}

impl Eq for HeldRow {
    ghost laws = { on_equiv (λ row. row.0) nat_list_eq_equiv };
}

impl PartialOrd for HeldRow {
    ghost partial_cmp = { λ x y. Some (bytes_cmp x.0 y.0) };

    ghost laws = { on_po (λ row. row.0) texts_po };

    fn partial_cmp(&self, other: &Self) -> Option<Ordering> {
        Some(self.cmp(other))
    }
}

impl Ord for HeldRow {
    ghost cmp = { λ x y. bytes_cmp x.0 y.0 };

    ghost total = { on_total (λ row. row.0) nat_list_cmp_total };

    ghost matches_partial_cmp = { λ x y. refl };

    ghost matches_eq = { λ x y. texts_ties x.0 y.0 };

    fn cmp(&self, other: &Self) -> Ordering {
        self.key().as_slice().cmp(other.key().as_slice())
    }
}

impl Hash for HeldRow {
    // The bytes are fed at once.
    ghost hash_input = { λ row. key_front row.0 ∷ [] };

    ghost respects_eq = { λ x y same. ap (λ key. key_front key ∷ []) ((bytes_decides x.0 y.0).0 same) };

    fn hash<H: Hasher>(&self, state: &mut H) {
        state.write(front_of(self.key().as_slice()));
    }
}

/// The first bytes of a key, by which it is hashed.
fn front_of(key: &[u8]) -> &[u8]
    ensures { result.now ≡ key_front key.now }
{
    &key[..key.len().min(MOST)]
}

/// The key of an identity's row. By it a row is looked up without memory.
#[derive(Clone, Copy)]
pub(crate) struct KeyOf<'a> {
    pub(crate) id: &'a Id,
}

impl<'a> PartialEq for KeyOf<'a> {
    ghost eq = { λ x y. (id_eq.ghosts).eq x.id.now y.id.now };

    ghost laws = { on_per (λ x. x.id.now) partial-law };

    fn eq(&self, other: &KeyOf<'a>) -> bool {
        *self.id == *other.id
    }
}

impl<'a> Eq for KeyOf<'a> {
    ghost laws = { on_equiv (λ x. x.id.now) laws-law };
}

impl<'a> Hash for KeyOf<'a> {
    ghost hash_input = { λ q. key_front (key_text q.id.now) ∷ [] };

    ghost respects_eq = { λ x y same. ap (λ id. key_front (key_text id) ∷ []) (exact_id x.id.now y.id.now same) };

    fn hash<H: Hasher>(&self, state: &mut H) {
        state.write(key_front(self.id).as_slice());
    }
}

impl<'a> Equivalent<HeldRow> for KeyOf<'a> {
    ghost equivalent = { λ q row. bytes_eq (key_text q.id.now) row.0 };

    ghost respects_hash = { λ q row same. ap (λ key. key_front key ∷ []) ((bytes_decides (key_text q.id.now) row.0).0 same) };

    ghost respects_eq = { λ q x y. nat_list_eq_equiv.congr (key_text q.id.now) x.0 y.0 };

    fn equivalent(&self, row: &HeldRow) -> bool {
        is_key_of(self.id, row.key().as_slice())
    }
}
