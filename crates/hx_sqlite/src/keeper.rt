// A keeper of rows in an SQLite database.
ghost use Rattle.std.specs.Prelude.{◌≡◌, ◌≤◌, [], true, false, None, Some, OnOk, OnErr, IfOk, IfSome, IsErrOf, IsOk, IsSome, IsUtf8};
ghost use Rattle.std.specs.List.{AllByRecursion};
ghost use Rattle.hx_ports.specs.Causes.{KeeperCause, Rose};
ghost use Rattle.hx_ports.specs.Keeping.{IsPut};
ghost use Rattle.hx_ports.specs.Views.{HoldsOn};

use crate::asking;
use crate::fault::{Refusal, SqlFault};
use crate::place::{self, Access, Place};
use hx_ports::{Batch, KeepFault, Keeper, Meta, Row};

/// Keeps rows in an SQLite database, without watchers, and tells nothing of what it holds. `attach` opens the file at a path, which it makes where there is none, or a database in memory for the empty path.
///
/// A keeper for reading changes no byte of a file or its log: both are only read, and what opening them writes lies in memory. `attach` refuses a path at which no file is and a database without tables. It takes no batch.
///
/// A call before `attach` is a fault, and so is a value that isn't of its column's type. A number below 0 is told as one over 2^63 - 1, and a database without the row of `meta` has schema 0 and version 0.
///
/// A commit that finds no memory was rolled back. One that fails otherwise breaks the keeper, which says so on standard error: the rows stay as they were while it lasts, and the next `attach` finds them so, or with the whole batch.
pub struct SqlKeeper {
    rt: HostRuntime,
    access: Access,
    place: Option<Place>,
    broken: bool,
    faults: u64,
    last_fault: Option<SqlFault>,
}

impl Drop for SqlKeeper {
    fn drop(self) {
        let SqlKeeper {
            rt: _,
            access: _,
            place: _,
            broken: _,
            faults: _,
            last_fault: _,
        } = self;
    }
}

impl SqlKeeper {
    ghost use Rattle.hx_sqlite.specs.Shown.{place_of, reads_only, why_failed};

    /// A keeper with no place yet. It takes no memory, and the runtime's files are first used by `attach`.
    pub fn new(rt: &HostRuntime) -> Self
        ensures shown { ⟦<SqlKeeper as Keeper>⟧.shown result ≡ record { place = None; kept = None; broken = false; faults = 0; watchers = [] } }
        ensures fault { why_failed result ≡ None }
        ensures access { reads_only result ≡ false }
    {
        Self::of(rt, Access::Write)
    }

    /// The same for reading alone. Where the file has a log, what was committed to it is read too; what an `attach` may leave is an empty log where there was none.
    pub fn for_reading(rt: &HostRuntime) -> Self
        ensures shown { ⟦<SqlKeeper as Keeper>⟧.shown result ≡ record { place = None; kept = None; broken = false; faults = 0; watchers = [] } }
        ensures fault { why_failed result ≡ None }
        ensures access { reads_only result ≡ true }
    {
        Self::of(rt, Access::Read)
    }

    fn of(rt: &HostRuntime, access: Access) -> Self
        ensures shown { ⟦<SqlKeeper as Keeper>⟧.shown result ≡ record { place = None; kept = None; broken = false; faults = 0; watchers = [] } }
        ensures fault { why_failed result ≡ None }
        ensures access { result.access ≡ access }
    {
        SqlKeeper {
            rt: *rt,
            access,
            place: None,
            broken: false,
            faults: 0,
            last_fault: None,
        }
    }

    pub fn is_broken(&self) -> bool
        ensures { result ≡ (⟦<SqlKeeper as Keeper>⟧.shown self.now).broken }
    {
        self.broken
    }

    pub fn faults(&self) -> u64
        ensures { result ≡ (⟦<SqlKeeper as Keeper>⟧.shown self.now).faults }
    {
        self.faults
    }

    /// Why the last call failed that did. A commit that is refused since the keeper is broken leaves what was last said.
    pub fn last_fault(&self) -> Option<SqlFault>
        ensures { result ≡ why_failed self.now }
    {
        self.last_fault
    }

    /// Closes the database. All that was committed is then in its file, and the log beside it is empty. Where that fails the log has what the file lacks, and the two belong together.
    ///
    /// A keeper that is dropped leaves both as they are, and so does one for reading that is closed.
    pub fn close(self) -> Result<(), SqlFault>
        ensures { place_of self ≡ None → IsOk result }
    {
        let SqlKeeper {
            rt: _,
            access: _,
            place,
            broken: _,
            faults: _,
            last_fault: _,
        } = self;
        match place {
            Some(place) => place.close(),
            None => Ok(()),
        }
    }

    /// Takes no write any more, and says so on standard error, with what the last fault was.
    fn stop_writing(&mut self)
        ensures { self.new ≡ record self.old { broken = true } }
    {
        self.broken = true;
        let _ = match self.last_fault {
            Some(fault) => eprintln!(self.rt;
                "hnc: the database failed: {fault}: no write is taken any more"
            ),
            None => Ok(()),
        };
    }

    /// Counts a fault, and keeps why it came. Want of memory isn't counted.
    fn answer<T: Drop>(&mut self, outcome: Result<T, Refusal>) -> Result<T, KeepFault>
        ensures ok { IfOk result (λ value. outcome ≡ Ok value) }
        ensures fault { (fault : SqlFault) → outcome ≡ Err (Refusal.Fault fault) → IsErrOf result KeepFault.Fault × (self.new.last_fault ≡ Some fault) }
        ensures told { IsErrOf result KeepFault.Fault → IsSome self.new.last_fault }
        ensures same { ¬ IsErrOf result KeepFault.Fault → self.new ≡ self.old }
        ensures rest { self.new ≡ record self.old { faults = self.new.faults; last_fault = self.new.last_fault } }
        ensures cause { KeeperCause self.old.faults self.new.faults result }
    {
        match outcome {
            Ok(value) => Ok(value),
            Err(Refusal::NoMemory) => Err(KeepFault::NoMemory),
            Err(Refusal::Fault(fault)) => {
                self.last_fault = Some(fault);
                Err(self.count_fault())
            }
        }
    }

    fn count_fault(&mut self) -> KeepFault
        ensures result { result ≡ KeepFault.Fault }
        ensures rest { self.new ≡ record self.old { faults = self.new.faults } }
        ensures rose { Rose self.old.faults self.new.faults }
        ensures later { self.old.faults ≤ self.new.faults }
    {
        self.faults = self.faults.saturating_add(1);
        KeepFault::Fault
    }
}

impl Keeper for SqlKeeper {
    ghost use Rattle.hx_sqlite.specs.Paths.{path_in};
    ghost use Rattle.hx_sqlite.specs.Seats.{are_in_file, are_on_disk, names_a_file};
    ghost use Rattle.hx_sqlite.specs.Shown.{place_of, reads_only, why_failed};

    ghost shown = { λ k. record { place = path_in (place_of k); kept = None; broken = k.broken; faults = k.faults; watchers = [] } };

    fn attach(&mut self, path: &str) -> Result<(), KeepFault>
        ensures place { OnOk result ((⟦<SqlKeeper as Keeper>⟧.shown self.new).place ≡ Some path.now) }
        ensures rows { OnOk result (IfSome (place_of self.new) (λ place. are_in_file place.rows ≡ names_a_file path.now)) }
        ensures overlaid { reads_only self.old ≡ true → OnOk result (IfSome (place_of self.new) (λ place. are_on_disk place.rows ≡ false)) }
        ensures nowhere { OnErr result (place_of self.new ≡ place_of self.old) }
        ensures access { reads_only self.new ≡ reads_only self.old }
        ensures same { (⟦<SqlKeeper as Keeper>⟧.shown self.new).kept ≡ (⟦<SqlKeeper as Keeper>⟧.shown self.old).kept }
        ensures whole { (⟦<SqlKeeper as Keeper>⟧.shown self.new).broken ≡ (⟦<SqlKeeper as Keeper>⟧.shown self.old).broken }
        ensures fault { IsErrOf result KeepFault.Fault → IsSome (why_failed self.new) }
        ensures calm { ¬ IsErrOf result KeepFault.Fault → why_failed self.new ≡ why_failed self.old }
        ensures cause { KeeperCause (⟦<SqlKeeper as Keeper>⟧.shown self.old).faults (⟦<SqlKeeper as Keeper>⟧.shown self.new).faults result }
    {
        let opened = place::open(&self.rt, path, self.access);
        let place = self.answer(opened)?;
        self.place = Some(place);
        Ok(())
    }

    fn meta(&mut self) -> Result<Meta, KeepFault>
        ensures same { HoldsOn (⟦<SqlKeeper as Keeper>⟧.shown self.old) (⟦<SqlKeeper as Keeper>⟧.shown self.new) }
        ensures access { reads_only self.new ≡ reads_only self.old }
        ensures nowhere { (⟦<SqlKeeper as Keeper>⟧.shown self.old).place ≡ None → IsErrOf result KeepFault.Fault × (why_failed self.new ≡ Some SqlFault.Unattached) }
        ensures fault { IsErrOf result KeepFault.Fault → IsSome (why_failed self.new) }
        ensures calm { ¬ IsErrOf result KeepFault.Fault → why_failed self.new ≡ why_failed self.old }
        ensures cause { KeeperCause (⟦<SqlKeeper as Keeper>⟧.shown self.old).faults (⟦<SqlKeeper as Keeper>⟧.shown self.new).faults result }
    {
        let told = asking::meta_at(&mut self.place);
        self.answer(told)
    }

    fn load(&mut self, after: &[u8]) -> Result<Option<Row>, KeepFault>
        ensures texts { IfOk result (λ row. IfSome row (λ r. IsUtf8 r.key)) }
        ensures same { HoldsOn (⟦<SqlKeeper as Keeper>⟧.shown self.old) (⟦<SqlKeeper as Keeper>⟧.shown self.new) }
        ensures access { reads_only self.new ≡ reads_only self.old }
        ensures nowhere { (⟦<SqlKeeper as Keeper>⟧.shown self.old).place ≡ None → IsErrOf result KeepFault.Fault × (why_failed self.new ≡ Some SqlFault.Unattached) }
        ensures fault { IsErrOf result KeepFault.Fault → IsSome (why_failed self.new) }
        ensures calm { ¬ IsErrOf result KeepFault.Fault → why_failed self.new ≡ why_failed self.old }
        ensures cause { KeeperCause (⟦<SqlKeeper as Keeper>⟧.shown self.old).faults (⟦<SqlKeeper as Keeper>⟧.shown self.new).faults result }
    {
        let alloc = self.rt.alloc();
        let loaded = asking::load_at(&mut self.place, alloc, after);
        self.answer(loaded)
    }

    fn commit(&mut self, batch: Batch) -> Result<(), KeepFault>
        requires { AllByRecursion IsPut batch.puts }
        ensures ok { ¬ IsErrOf result KeepFault.Fault → ((⟦<SqlKeeper as Keeper>⟧.shown self.old).broken ≡ false) × ((⟦<SqlKeeper as Keeper>⟧.shown self.new).broken ≡ false) }
        ensures breaks { IsErrOf result KeepFault.Fault → (⟦<SqlKeeper as Keeper>⟧.shown self.new).broken ≡ true }
        ensures place { (⟦<SqlKeeper as Keeper>⟧.shown self.new).place ≡ (⟦<SqlKeeper as Keeper>⟧.shown self.old).place }
        ensures read { reads_only self.old ≡ true → IsErrOf result KeepFault.Fault × (place_of self.new ≡ place_of self.old) }
        ensures told { reads_only self.old ≡ true → (⟦<SqlKeeper as Keeper>⟧.shown self.old).broken ≡ false → why_failed self.new ≡ Some SqlFault.OnlyRead }
        ensures access { reads_only self.new ≡ reads_only self.old }
        ensures unasked { (⟦<SqlKeeper as Keeper>⟧.shown self.old).broken ≡ true → (place_of self.new ≡ place_of self.old) × (why_failed self.new ≡ why_failed self.old) }
        ensures nowhere { (⟦<SqlKeeper as Keeper>⟧.shown self.old).place ≡ None → IsErrOf result KeepFault.Fault }
        ensures fault { IsErrOf result KeepFault.Fault → (⟦<SqlKeeper as Keeper>⟧.shown self.old).broken ≡ false → IsSome (why_failed self.new) }
        ensures calm { ¬ IsErrOf result KeepFault.Fault → why_failed self.new ≡ why_failed self.old }
        ensures cause { KeeperCause (⟦<SqlKeeper as Keeper>⟧.shown self.old).faults (⟦<SqlKeeper as Keeper>⟧.shown self.new).faults result }
    {
        if self.broken {
            return Err(self.count_fault());
        }
        let landed = asking::commit_at(&mut self.place, self.access, self.rt.alloc(), &batch);
        let answer = self.answer(landed);
        if answer == Err(KeepFault::Fault) {
            self.stop_writing();
        }
        answer
    }
}
