//! A keeper of rows in an SQLite database: a file that sqlite3 reads, or one in memory.
//!
//! One process has a file open at a time, from `attach` until the keeper is dropped. Another finds it locked at once, and no other reads it meanwhile.
//!
//! A batch is one transaction of SQLite's write-ahead log, and takes one sync of the disk. That one is enough supposes that a write which a crash tears leaves each byte old or new. The log lies beside the file at the path with `-wal` behind it, and grows to some 41 MB before it is copied into the file. Until then the two files belong together. `close` copies it, and leaves it empty: the file alone then has all rows.
//!
//! `attach` reads the whole file and checks each page and row. That takes about a second for each 100 MB, and the memory of the greatest table; the pages that are kept in memory later are 32 MB, and those of a batch under way as many. A file never shrinks. Where `attach` refuses what it finds, it may leave an empty log beside it. A keeper that is dropped without `close` leaves file and log as they are.
//!
//! A keeper for reading, of `SqlKeeper::for_reading`, leaves the bytes of a file and its log as they are: both are only read, page by page, and the few bytes that the engine writes as it opens a log lie in memory (`hx_overlay`). It takes no more memory than one that writes. From `attach` until it is dropped it has the lock, as one that writes has: it is refused as busy where another has the file open, and so is one that opens it meanwhile. It opens the two as one that writes does: they have to be open to this user to write, and where no log is beside the file an empty one is made. A path at which no file is, a file in which no database is made yet and a database without tables are refused.
//!
//! The tables are made where a database has none, with schema 2 and version 0:
//!
//! ```sql
//! CREATE TABLE objects(key TEXT PRIMARY KEY, version INTEGER NOT NULL, body TEXT NOT NULL);
//! CREATE TABLE meta(one INTEGER PRIMARY KEY CHECK (one = 1), schema INTEGER NOT NULL, version INTEGER NOT NULL);
//! ```
#![tactic(auto)]

mod asking;
mod closing;
mod database;
mod fault;
mod keeper;
mod place;

pub use fault::SqlFault;
pub use keeper::SqlKeeper;
