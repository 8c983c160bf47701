// A database of rows, and its statements.
ghost use Rattle.std.specs.Prelude.{◌≡◌, ◌↔◌, false, ℤ, IsOk, IfOk, IfSome, IsUtf8, ⊤};
ghost use Rattle.sqlite_value.specs.declared.value.Value.TheVariants.{Int, Text as Words};
ghost use Rattle.sqlite_value.specs.Order.{column as column_of};
ghost use Rattle.std.specs.Int.{w64, cast_unsigned};
ghost use Rattle.std.specs.List.{AllByRecursion};
ghost use Rattle.hx_ports.specs.Keeping.{IsPut};

use crate::fault::{Refusal, SqlFault};
use hx_json::write_object;
use hx_object::{Id, List, Shared, Text};
use hx_ports::{Batch, Meta, Row, row_key};
use sqlite::types::ValueRef;
use sqlite::{Alter, Connection, Error, Statement, Transaction};
use std::alloc::Global;

const TABLES: &str = "SELECT count(*) FROM sqlite_schema";

const OBJECTS: &str =
    "CREATE TABLE objects(key TEXT PRIMARY KEY, version INTEGER NOT NULL, body TEXT NOT NULL)";

const META: &str =
    "CREATE TABLE meta(one INTEGER PRIMARY KEY CHECK (one = 1), schema INTEGER NOT NULL, version INTEGER NOT NULL)";

const FIRST: &str = "INSERT INTO meta(one, schema, version) VALUES (1, 2, 0)";

const HEAD: &str = "SELECT schema, version FROM meta WHERE one = 1";

const COUNT: &str = "SELECT count(*) FROM objects";

const LOAD: &str = "SELECT key, version, body FROM objects WHERE key > ?1 ORDER BY key LIMIT 1";

const REPLACE: &str = "UPDATE objects SET version = ?2, body = ?3 WHERE key = ?1";

const ADD: &str = "INSERT INTO objects(key, version, body) VALUES (?1, ?2, ?3)";

const CUT: &str = "DELETE FROM objects WHERE key = ?1";

const END: &str = "UPDATE meta SET version = ?1 WHERE one = 1";

/// The statements that read `meta` and count rows.
struct Heads {
    count: Statement,
    head: Statement,
}

// Each `drop` of this crate is written out, so that a function that lets a value go does not prove again how each part is dropped. For the same reason statements lie two by two.
impl Drop for Heads {
    fn drop(self) {
        let Heads { count: _, head: _ } = self;
    }
}

/// The statements that put a row.
struct Puts {
    replace: Statement,
    add: Statement,
}

impl Drop for Puts {
    fn drop(self) {
        let Puts { replace: _, add: _ } = self;
    }
}

/// The statements that cut a row, and set the version at the end of a batch.
struct Ends {
    cut: Statement,
    end: Statement,
}

impl Drop for Ends {
    fn drop(self) {
        let Ends { cut: _, end: _ } = self;
    }
}

/// The statements that read.
struct Reads {
    heads: Heads,
    load: Statement,
}

impl Drop for Reads {
    fn drop(self) {
        let Reads { heads: _, load: _ } = self;
    }
}

/// The statements that write.
struct Writes {
    puts: Puts,
    ends: Ends,
}

impl Drop for Writes {
    fn drop(self) {
        let Writes { puts: _, ends: _ } = self;
    }
}

/// A database that has the tables `objects` and `meta`, with the statements over them.
pub struct Database<S: Alter> {
    connection: Connection<S>,
    reads: Reads,
    writes: Writes,
    ghost ended: { connection.in_transaction ≡ false },
}

impl<S: Alter + Drop> Drop for Database<S> {
    fn drop(self) {
        let Database {
            connection: _,
            reads: _,
            writes: _,
        } = self;
    }
}

impl<S: Alter + Drop> Database<S> {
    /// Makes the tables where the database has none. What it gives is large, and lies in memory of its own.
    pub fn over(alloc: Global, mut connection: Connection<S>) -> Result<Box<Self>, Refusal>
        requires { connection.in_transaction ≡ false }
    {
        let (reads, writes) = ready(&mut connection)?;
        boxed(
            alloc,
            Database {
                connection,
                reads,
                writes,
            },
        )
    }

    /// Takes a database that has the tables. One that has none is refused, and gets none.
    pub fn found(alloc: Global, mut connection: Connection<S>) -> Result<Box<Self>, Refusal>
        requires { connection.in_transaction ≡ false }
    {
        let (reads, writes) = ready_if_made(&mut connection)?;
        boxed(
            alloc,
            Database {
                connection,
                reads,
                writes,
            },
        )
    }

    /// The connection, without the statements.
    pub fn into_connection(self) -> Connection<S> {
        let Database {
            connection,
            reads: _,
            writes: _,
        } = self;
        connection
    }
}

/// What is asked of a database, whatever its store: `may` says what has to hold of it, and `tells` what holds of the answer.
pub trait Ask<T> {
    ghost may: { Self → Type 0 };

    ghost tells: { T → Type 0 };

    fn of<S: Alter>(self, database: &mut Database<S>) -> Result<T, Refusal>
        requires { may self }
        ensures { IfOk result tells };
}

/// The number of rows, and the schema and the version, which are both 0 where `meta` has no row.
#[derive(Clone, Copy)]
pub struct AskMeta;

impl Ask<Meta> for AskMeta {
    ghost may = { λ _. ⊤ };

    ghost tells = { λ _. ⊤ };

    fn of<S: Alter>(self, database: &mut Database<S>) -> Result<Meta, Refusal> {
        let rows = count(&mut database.connection, &database.reads.heads.count)?;
        head(&mut database.connection, &database.reads.heads.head, rows)
    }
}

/// The first row whose key is greater.
#[derive(Clone, Copy)]
pub struct AskRow<'a> {
    pub alloc: Global,
    pub after: &'a [u8],
}

impl Ask<Option<Row>> for AskRow<'_> {
    ghost may = { λ _. ⊤ };

    ghost tells = { λ row. IfSome row (λ r. IsUtf8 r.key) };

    fn of<S: Alter>(self, database: &mut Database<S>) -> Result<Option<Row>, Refusal> {
        let after = [ValueRef::Text(self.after)];
        let found = database
            .reads
            .load
            .query_row(&mut database.connection, &after);
        row_in(self.alloc, &found)
    }
}

/// To write the batch in one transaction, which is rolled back where it fails.
#[derive(Clone, Copy)]
pub struct AskCommit<'a> {
    pub alloc: Global,
    pub batch: &'a Batch,
}

impl Ask<()> for AskCommit<'_> {
    ghost may = { λ ask. AllByRecursion IsPut ask.batch.now.puts };

    ghost tells = { λ _. ⊤ };

    fn of<S: Alter>(self, database: &mut Database<S>) -> Result<(), Refusal> {
        let mut transaction = database.connection.transaction();
        write_batch(&mut transaction, &database.writes, self.alloc, self.batch)?;
        transaction.commit()?;
        Ok(())
    }
}

fn boxed<T: Drop>(alloc: Global, value: T) -> Result<Box<T>, Refusal> {
    match Box::new(alloc, value) {
        Ok(place) => Ok(place),
        Err(_) => Err(Refusal::NoMemory),
    }
}

/// Makes the tables where there are none, and prepares the statements.
fn ready<S: Alter>(connection: &mut Connection<S>) -> Result<(Reads, Writes), Refusal>
    requires { connection.old.in_transaction ≡ false }
    ensures { connection.new.in_transaction ≡ false }
{
    if is_empty(connection)? {
        make_tables(connection)?;
    }
    prepare(connection)
}

/// Prepares the statements where there are tables.
fn ready_if_made<S: Alter>(connection: &mut Connection<S>) -> Result<(Reads, Writes), Refusal>
    requires { connection.old.in_transaction ≡ false }
    ensures { connection.new.in_transaction ≡ false }
{
    if is_empty(connection)? {
        return Err(Refusal::Fault(SqlFault::NoTables));
    }
    prepare(connection)
}

fn prepare<S: Alter>(connection: &mut Connection<S>) -> Result<(Reads, Writes), Refusal>
    ensures { connection.old.in_transaction ≡ false → connection.new.in_transaction ≡ false }
{
    let reads = prepare_reads(connection)?;
    let writes = prepare_writes(connection)?;
    Ok((reads, writes))
}

fn is_empty<S: Alter>(connection: &mut Connection<S>) -> Result<bool, Refusal>
    ensures { connection.old.in_transaction ≡ false → connection.new.in_transaction ≡ false }
{
    let tables = connection.query_row(TABLES, &[]);
    Ok(number_in(&tables)? == 0)
}

/// Makes the tables and the row of `meta` in one transaction.
fn make_tables<S: Alter>(connection: &mut Connection<S>) -> Result<(), Refusal>
    requires { connection.old.in_transaction ≡ false }
    ensures { connection.new.in_transaction ≡ false }
{
    let mut transaction = connection.transaction();
    write_tables(&mut transaction)?;
    transaction.commit()?;
    Ok(())
}

fn write_tables<S: Alter>(transaction: &mut Transaction<'_, S>) -> Result<(), Refusal>
    ensures { transaction.new.conn.ghost_name ≡ transaction.old.conn.ghost_name }
{
    transaction.execute(OBJECTS, &[])?;
    transaction.execute(META, &[])?;
    transaction.execute(FIRST, &[])?;
    Ok(())
}

fn prepare_reads<S: Alter>(connection: &mut Connection<S>) -> Result<Reads, Refusal>
    ensures { connection.old.in_transaction ≡ false → connection.new.in_transaction ≡ false }
{
    Ok(Reads {
        heads: prepare_heads(connection)?,
        load: connection.prepare(LOAD)?,
    })
}

fn prepare_heads<S: Alter>(connection: &mut Connection<S>) -> Result<Heads, Refusal>
    ensures { connection.old.in_transaction ≡ false → connection.new.in_transaction ≡ false }
{
    Ok(Heads {
        count: connection.prepare(COUNT)?,
        head: connection.prepare(HEAD)?,
    })
}

fn prepare_writes<S: Alter>(connection: &mut Connection<S>) -> Result<Writes, Refusal>
    ensures { connection.old.in_transaction ≡ false → connection.new.in_transaction ≡ false }
{
    Ok(Writes {
        puts: prepare_puts(connection)?,
        ends: prepare_ends(connection)?,
    })
}

fn prepare_puts<S: Alter>(connection: &mut Connection<S>) -> Result<Puts, Refusal>
    ensures { connection.old.in_transaction ≡ false → connection.new.in_transaction ≡ false }
{
    Ok(Puts {
        replace: connection.prepare(REPLACE)?,
        add: connection.prepare(ADD)?,
    })
}

fn prepare_ends<S: Alter>(connection: &mut Connection<S>) -> Result<Ends, Refusal>
    ensures { connection.old.in_transaction ≡ false → connection.new.in_transaction ≡ false }
{
    Ok(Ends {
        cut: connection.prepare(CUT)?,
        end: connection.prepare(END)?,
    })
}

/// How many rows there are.
fn count<S: Alter>(connection: &mut Connection<S>, statement: &Statement) -> Result<u64, Refusal>
    ensures { connection.old.in_transaction ≡ false → connection.new.in_transaction ≡ false }
{
    let counted = statement.query_row(connection, &[]);
    number_in(&counted)
}

/// The row of `meta`, beside the number of rows.
fn head<S: Alter>(
    connection: &mut Connection<S>,
    statement: &Statement,
    rows: u64,
) -> Result<Meta, Refusal>
    ensures { connection.old.in_transaction ≡ false → connection.new.in_transaction ≡ false }
{
    let found = statement.query_row(connection, &[]);
    meta_in(&found, rows)
}

/// The integer that is the only column of a row.
fn number_in(found: &Result<sqlite::Row, Error>) -> Result<u64, Refusal> {
    match found {
        Ok(row) => number_at(row, 0),
        Err(error) => Err(Refusal::from(*error)),
    }
}

/// The schema and the version, which are both 0 where no row was found.
fn meta_in(found: &Result<sqlite::Row, Error>, rows: u64) -> Result<Meta, Refusal> {
    match found {
        Ok(row) => Ok(Meta {
            schema: number_at(row, 0)?,
            version: number_at(row, 1)?,
            rows,
        }),
        Err(Error::QueryReturnedNoRows) => Ok(Meta {
            schema: 0,
            version: 0,
            rows,
        }),
        Err(error) => Err(Refusal::from(*error)),
    }
}

fn row_in(alloc: Global, found: &Result<sqlite::Row, Error>) -> Result<Option<Row>, Refusal>
    ensures { IfOk result (λ row. IfSome row (λ r. IsUtf8 r.key)) }
{
    match found {
        Ok(row) => Ok(Some(row_of(alloc, row)?)),
        Err(Error::QueryReturnedNoRows) => Ok(None),
        Err(error) => Err(Refusal::from(*error)),
    }
}

fn row_of(alloc: Global, found: &sqlite::Row) -> Result<Row, Refusal>
    ensures key { IfOk result (λ row. (column_of found.now 0 ≡ Words row.key) × IsUtf8 row.key) }
    ensures version { IfOk result (λ row. (n : ℤ) × (column_of found.now 1 ≡ Int n) × (row.version ≡ cast_unsigned w64 n)) }
    ensures body { IfOk result (λ row. column_of found.now 2 ≡ Words row.body) }
{
    Ok(Row {
        key: text_at(alloc, found, 0)?.into_bytes(alloc)?,
        version: number_at(found, 1)?,
        body: text_at(alloc, found, 2)?,
    })
}

/// A copy of a column's text.
fn text_at(alloc: Global, row: &sqlite::Row, column: usize) -> Result<Text, Refusal>
    ensures { IfOk result (λ text. column_of row.now column ≡ Words text) }
{
    match row.get_ref(column)? {
        ValueRef::Text(text) => text_of(alloc, text),
        _ => Err(Refusal::Fault(SqlFault::Unreadable)),
    }
}

fn text_of(alloc: Global, bytes: &[u8]) -> Result<Text, Refusal>
    ensures { IfOk result (λ text. text ≡ bytes.now) }
{
    match std::str::from_utf8(bytes) {
        Ok(text) => Ok(Text::of(alloc, text)?),
        Err(_) => Err(Refusal::Fault(SqlFault::Unreadable)),
    }
}

/// A column's integer. A negative one is told as one over 2^63 - 1, its 64 bits read without a sign.
fn number_at(row: &sqlite::Row, column: usize) -> Result<u64, Refusal>
    ensures { IfOk result (λ number. (n : ℤ) × (column_of row.now column ≡ Int n) × (number ≡ cast_unsigned w64 n)) }
{
    match row.get_ref(column)? {
        ValueRef::Int(number) => Ok(number.cast_unsigned()),
        _ => Err(Refusal::Fault(SqlFault::Unreadable)),
    }
}

fn write_batch<S: Alter>(
    transaction: &mut Transaction<'_, S>,
    writes: &Writes,
    alloc: Global,
    batch: &Batch,
) -> Result<(), Refusal>
    requires { AllByRecursion IsPut batch.now.puts }
    ensures { transaction.new.conn.ghost_name ≡ transaction.old.conn.ghost_name }
{
    put_rows(transaction, writes, alloc, batch.puts.as_slice())?;
    cut_rows(transaction, writes, alloc, batch.cuts.as_slice())?;
    end(transaction, writes, batch.version)
}

fn put_rows<S: Alter>(
    transaction: &mut Transaction<'_, S>,
    writes: &Writes,
    alloc: Global,
    puts: &[Shared],
) -> Result<(), Refusal>
    requires { AllByRecursion IsPut puts.now }
    ensures { transaction.new.conn.ghost_name ≡ transaction.old.conn.ghost_name }
{
    for object in puts {
        let object = object.object();
        let key = row_key(alloc, &object.id)?;
        let body = write_object(alloc, object)?;
        put_row(transaction, writes, &key, object.version, &body)?;
    }
    Ok(())
}

/// Replaces the row that has the key, and adds one where there is none. An upsert takes more time for both.
fn put_row<'a, S: Alter>(
    transaction: &mut Transaction<'_, S>,
    writes: &Writes,
    key: &'a List<u8>,
    version: u64,
    body: &'a Text,
) -> Result<(), Refusal>
    ensures { transaction.new.conn.ghost_name ≡ transaction.old.conn.ghost_name }
{
    let values = [
        ValueRef::Text(key.as_slice()),
        ValueRef::Int(version.cast_signed()),
        ValueRef::Text(body.as_bytes()),
    ];
    if transaction.execute_prepared(&writes.puts.replace, &values)? == 1 {
        return Ok(());
    }
    one(transaction.execute_prepared(&writes.puts.add, &values)?)
}

fn cut_rows<S: Alter>(
    transaction: &mut Transaction<'_, S>,
    writes: &Writes,
    alloc: Global,
    ids: &[Id],
) -> Result<(), Refusal>
    ensures { transaction.new.conn.ghost_name ≡ transaction.old.conn.ghost_name }
{
    for id in ids {
        let key = row_key(alloc, id)?;
        cut_row(transaction, writes, &key)?;
    }
    Ok(())
}

fn cut_row<S: Alter>(
    transaction: &mut Transaction<'_, S>,
    writes: &Writes,
    key: &List<u8>,
) -> Result<(), Refusal>
    ensures { transaction.new.conn.ghost_name ≡ transaction.old.conn.ghost_name }
{
    let values = [ValueRef::Text(key.as_slice())];
    one(transaction.execute_prepared(&writes.ends.cut, &values)?)
}

/// Sets the version.
fn end<S: Alter>(
    transaction: &mut Transaction<'_, S>,
    writes: &Writes,
    version: u64,
) -> Result<(), Refusal>
    ensures { transaction.new.conn.ghost_name ≡ transaction.old.conn.ghost_name }
{
    let values = [ValueRef::Int(version.cast_signed())];
    one(transaction.execute_prepared(&writes.ends.end, &values)?)
}

/// A row is changed by its key, and so is the one of `meta`.
fn one(changed: usize) -> Result<(), Refusal>
    ensures { IsOk result ↔ (changed ≡ 1) }
{
    if changed == 1 {
        Ok(())
    } else {
        Err(Refusal::Fault(SqlFault::RowMissing))
    }
}
