// Ports in memory whose calls fail where a test says so.
ghost use Rattle.std.specs.Prelude.{◌≡◌, [], ◌<◌, ◌≤◌, ◌⊎◌, false, true, Some, IsTrue, ◌↔◌, IsErrOf, OnErr, OnOk, IfOk, IfSome};
ghost use Rattle.std.specs.Io.{ReadsAtMost};
ghost use Rattle.std.specs.Io.KnownBytes.{ReadConsumes, WriteAppends};
ghost use Rattle.std.specs.FinMap as map;
ghost use Rattle.std.specs.List.{AllByRecursion};
ghost use Rattle.hx_ports.specs.Calls.{is_planned, after_call, next_number, landing, FailsByPlan, CommitsByPlan};
ghost use Rattle.hx_ports.specs.Causes.{Rose, HasCause, KeeperCause, WritesAtMost, StallCause};
ghost use Rattle.hx_ports.specs.Keeping.{meta_of, row_after, IsPut, Lands};
ghost use Rattle.hx_ports.specs.Views.{HoldsOn};
ghost use Rattle.hx_ports.specs.Rows.{told, kept_of, entries_of};

use crate::keeper::{Batch, KeepFault, Keeper, Meta, Row};
use crate::stream::{ReadFault, Sink, Source, WriteFault};
use crate::sure::{SureSink, SureSource};
use crate::sure_keeper::SureKeeper;
use hx_object::NoMemory;
use std::hash::RandomState;

/// The numbers of the calls that fail, and how many calls there were.
struct Plan {
    numbers: Vec<u64>,
    calls: u64,
}

impl Drop for Plan {
    fn drop(self) {
        let Plan {
            numbers: _,
            calls: _,
        } = self;
    }
}

impl Plan {
    fn new(numbers: Vec<u64>) -> Self
        ensures { result ≡ record { numbers = numbers; calls = 0 } }
    {
        Plan { numbers, calls: 0 }
    }

    /// Counts a call, and says whether it fails.
    fn next_fails(&mut self) -> bool
        ensures fails { result ≡ is_planned self.old }
        ensures counted { self.new ≡ after_call self.old }
    {
        self.calls = self.calls.saturating_add(1);
        self.numbers.contains(&self.calls)
    }
}

/// Bytes in memory, given in pieces, with reads that fail.
pub struct MemSource {
    source: SureSource,
    plan: Plan,
    faults: u64,
}

impl Drop for MemSource {
    fn drop(self) {
        let MemSource {
            source: _,
            plan: _,
            faults: _,
        } = self;
    }
}

impl MemSource {
    ghost use Rattle.hx_ports.specs.Shown.{reads_of};

    /// The reads whose numbers stand in `fails` fail; the first one is number 1.
    pub fn new(bytes: Vec<u8>, piece: usize, fails: Vec<u64>) -> Self
        requires { 0 < piece }
        ensures shown { ⟦<MemSource as Source>⟧.shown result ≡ record { left = Some bytes.items; faults = 0 } }
        ensures plan { reads_of result ≡ record { numbers = fails; calls = 0 } }
    {
        MemSource {
            source: SureSource::new(bytes, piece),
            plan: Plan::new(fails),
            faults: 0,
        }
    }
}

impl Source for MemSource {
    ghost use Rattle.hx_ports.specs.Shown.{reads_of};

    ghost shown = { λ s. record (⟦<SureSource as Source>⟧.shown s.source) { faults = s.faults } };

    fn read(&mut self, into: &mut [u8]) -> Result<usize, ReadFault>
        ensures bound { ReadsAtMost result into.new }
        ensures bytes { ReadConsumes (⟦<MemSource as Source>⟧.shown self.old).left (⟦<MemSource as Source>⟧.shown self.new).left result into.new }
        ensures cause { HasCause (⟦<MemSource as Source>⟧.shown self.old).faults (⟦<MemSource as Source>⟧.shown self.new).faults result }
        ensures plan { FailsByPlan (reads_of self.old) (reads_of self.new) result }
    {
        if self.plan.next_fails() {
            self.faults = self.faults.saturating_add(1);
            return Err(ReadFault);
        }
        self.source.read(into)
    }
}

/// Takes bytes in pieces, up to the capacity of a vector, with writes that fail.
pub struct MemSink {
    sink: SureSink,
    piece: usize,
    plan: Plan,
    faults: u64,
    ghost takes: { 0 < piece },
}

impl Drop for MemSink {
    fn drop(self) {
        let MemSink {
            sink: _,
            piece: _,
            plan: _,
            faults: _,
        } = self;
    }
}

impl MemSink {
    ghost use Rattle.hx_ports.specs.Shown.{writes_of};

    /// The writes whose numbers stand in `fails` fail; the first one is number 1.
    pub fn new(into: Vec<u8>, piece: usize, fails: Vec<u64>) -> Self
        requires { 0 < piece }
        ensures shown { ⟦<MemSink as Sink>⟧.shown result ≡ record { written = Some into.items; faults = 0; stalls = 0 } }
        ensures plan { writes_of result ≡ record { numbers = fails; calls = 0 } }
    {
        MemSink {
            sink: SureSink::new(into),
            piece,
            plan: Plan::new(fails),
            faults: 0,
        }
    }

    pub fn bytes(&self) -> &[u8]
        ensures { (⟦<MemSink as Sink>⟧.shown self.now).written ≡ Some result.now }
    {
        self.sink.bytes()
    }
}

impl Sink for MemSink {
    ghost use Rattle.hx_ports.specs.Shown.{most_taken, writes_of};

    ghost shown = { λ s. record (⟦<SureSink as Sink>⟧.shown s.sink) { faults = s.faults } };

    fn write(&mut self, from: &[u8]) -> Result<usize, WriteFault>
        ensures bound { WritesAtMost result from.now }
        ensures bytes { WriteAppends (⟦<MemSink as Sink>⟧.shown self.old).written (⟦<MemSink as Sink>⟧.shown self.new).written result from.now }
        ensures cause { HasCause (⟦<MemSink as Sink>⟧.shown self.old).faults (⟦<MemSink as Sink>⟧.shown self.new).faults result }
        ensures stall { StallCause (⟦<MemSink as Sink>⟧.shown self.old).stalls (⟦<MemSink as Sink>⟧.shown self.new).stalls result from.now }
        ensures plan { FailsByPlan (writes_of self.old) (writes_of self.new) result }
        ensures piece { IfOk result (λ n. n ≤ most_taken self.old) }
    {
        if self.plan.next_fails() {
            self.faults = self.faults.saturating_add(1);
            return Err(WriteFault);
        }
        let count = self.piece.min(from.len());
        self.sink.write(&from[..count])
    }
}

/// A commit that fails, by its number, and whether its batch lands all the same.
#[derive(Clone, Copy)]
pub struct FailCommit {
    pub call: u64,
    pub landed: bool,
}

/// Rows in memory, with calls that fail.
pub struct MemKeeper {
    keeper: SureKeeper,
    fail_commits: Vec<FailCommit>,
    reads: Plan,
    commits: u64,
    broken: bool,
    faults: u64,
}

impl Drop for MemKeeper {
    fn drop(self) {
        let MemKeeper {
            keeper: _,
            fail_commits: _,
            reads: _,
            commits: _,
            broken: _,
            faults: _,
        } = self;
    }
}

impl MemKeeper {
    ghost use Rattle.hx_ports.specs.Shown.{commits_of, failing_of, given_meta, held_by, kept_by, read_calls};

    /// `fail_reads` numbers the calls of `attach`, `meta` and `load` together, from 1 on, and `fail_commits` those of `commit`.
    ///
    /// A commit that lands and finds no memory answers `NoMemory`.
    pub fn new(
        rows: Vec<Row>,
        meta: Meta,
        fail_commits: Vec<FailCommit>,
        fail_reads: Vec<u64>,
        keys: RandomState,
    ) -> Self
        ensures shown { ⟦<MemKeeper as Keeper>⟧.shown result ≡ record { place = None; kept = told rows.items meta; broken = false; faults = 0; watchers = [] } }
        ensures held { held_by (kept_by result) ≡ kept_of rows.items meta }
        ensures meta { given_meta (kept_by result) ≡ meta }
        ensures reads { read_calls result ≡ record { numbers = fail_reads; calls = 0 } }
        ensures fail_commits { failing_of result ≡ fail_commits.items }
        ensures commits { commits_of result ≡ 0 }
    {
        MemKeeper {
            keeper: SureKeeper::new(rows, meta, keys),
            fail_commits,
            reads: Plan::new(fail_reads),
            commits: 0,
            broken: false,
            faults: 0,
        }
    }

    /// Copies of the rows, in ascending order of their keys.
    pub fn rows(&mut self) -> Result<Vec<Row>, NoMemory>
        ensures held { IfOk result (λ rows. map.entries (held_by (kept_by self.old)).rows ≡ entries_of rows.items) }
        ensures kept { IfOk result (λ rows. IfSome (⟦<MemKeeper as Keeper>⟧.shown self.old).kept (λ held. map.entries held.rows ≡ entries_of rows.items)) }
        ensures same { ⟦<MemKeeper as Keeper>⟧.shown self.new ≡ ⟦<MemKeeper as Keeper>⟧.shown self.old }
        ensures plan { (read_calls self.new ≡ read_calls self.old) × (failing_of self.new ≡ failing_of self.old) × (commits_of self.new ≡ commits_of self.old) }
    {
        self.keeper.rows()
    }

    pub fn version(&self) -> u64
        ensures { IfSome (⟦<MemKeeper as Keeper>⟧.shown self.now).kept (λ held. result ≡ held.version) }
    {
        self.keeper.version()
    }

    pub fn is_broken(&self) -> bool
        ensures { result ≡ (⟦<MemKeeper as Keeper>⟧.shown self.now).broken }
    {
        self.broken
    }

    /// Counts a fault.
    fn fault(&mut self) -> KeepFault
        ensures result { result ≡ KeepFault.Fault }
        ensures rest { self.new ≡ record self.old { faults = self.new.faults } }
        ensures rose { Rose self.old.faults self.new.faults }
        ensures later { self.old.faults ≤ self.new.faults }
    {
        self.faults = self.faults.saturating_add(1);
        KeepFault::Fault
    }

    /// Counts a read, which may be one that fails.
    fn count_read(&mut self) -> Result<(), KeepFault>
        ensures fault { OnErr result (IsErrOf result KeepFault.Fault) }
        ensures plan { FailsByPlan self.old.reads self.new.reads result }
        ensures keeper { self.new.keeper ≡ self.old.keeper }
        ensures broken { self.new.broken ≡ self.old.broken }
        ensures cause { KeeperCause self.old.faults self.new.faults result }
    {
        if self.reads.next_fails() {
            return Err(self.fault());
        }
        Ok(())
    }
}

/// Whether the batch of the commit with this number lands, if the commit is one that fails.
fn landing(fails: &[FailCommit], number: u64) -> Option<bool>
    ensures { result ≡ landing fails.now number }
{
    for fail in fails {
        if fail.call == number {
            return Some(fail.landed);
        }
    }
    None
}

impl Keeper for MemKeeper {
    ghost use Rattle.hx_ports.specs.Shown.{commits_of, failing_of, given_meta, held_by, kept_by, read_calls};

    ghost shown = { λ k. record (⟦<SureKeeper as Keeper>⟧.shown k.keeper) { broken = k.broken; faults = k.faults } };

    fn attach(&mut self, path: &str) -> Result<(), KeepFault>
        ensures place { OnOk result ((⟦<MemKeeper as Keeper>⟧.shown self.new).place ≡ Some path.now) }
        ensures nowhere { OnErr result ((⟦<MemKeeper as Keeper>⟧.shown self.new).place ≡ (⟦<MemKeeper as Keeper>⟧.shown self.old).place) }
        ensures same { (⟦<MemKeeper as Keeper>⟧.shown self.new).kept ≡ (⟦<MemKeeper as Keeper>⟧.shown self.old).kept }
        ensures whole { (⟦<MemKeeper as Keeper>⟧.shown self.new).broken ≡ (⟦<MemKeeper as Keeper>⟧.shown self.old).broken }
        ensures held { (held_by (kept_by self.new) ≡ held_by (kept_by self.old)) × (given_meta (kept_by self.new) ≡ given_meta (kept_by self.old)) }
        ensures cause { KeeperCause (⟦<MemKeeper as Keeper>⟧.shown self.old).faults (⟦<MemKeeper as Keeper>⟧.shown self.new).faults result }
        ensures planned { IsTrue (is_planned (read_calls self.old)) ↔ IsErrOf result KeepFault.Fault }
        ensures counted { read_calls self.new ≡ after_call (read_calls self.old) }
    {
        self.count_read()?;
        self.keeper.attach(path)
    }

    fn meta(&mut self) -> Result<Meta, KeepFault>
        ensures meta { IfOk result (λ meta. IfSome (⟦<MemKeeper as Keeper>⟧.shown self.old).kept (λ held. meta ≡ meta_of held)) }
        ensures same { HoldsOn (⟦<MemKeeper as Keeper>⟧.shown self.old) (⟦<MemKeeper as Keeper>⟧.shown self.new) }
        ensures held { (held_by (kept_by self.new) ≡ held_by (kept_by self.old)) × (given_meta (kept_by self.new) ≡ given_meta (kept_by self.old)) }
        ensures cause { KeeperCause (⟦<MemKeeper as Keeper>⟧.shown self.old).faults (⟦<MemKeeper as Keeper>⟧.shown self.new).faults result }
        ensures planned { IsTrue (is_planned (read_calls self.old)) ↔ IsErrOf result KeepFault.Fault }
        ensures counted { read_calls self.new ≡ after_call (read_calls self.old) }
    {
        self.count_read()?;
        self.keeper.meta()
    }

    fn load(&mut self, after: &[u8]) -> Result<Option<Row>, KeepFault>
        ensures row { IfOk result (λ row. IfSome (⟦<MemKeeper as Keeper>⟧.shown self.old).kept (λ held. row ≡ row_after after.now held)) }
        ensures same { HoldsOn (⟦<MemKeeper as Keeper>⟧.shown self.old) (⟦<MemKeeper as Keeper>⟧.shown self.new) }
        ensures held { (held_by (kept_by self.new) ≡ held_by (kept_by self.old)) × (given_meta (kept_by self.new) ≡ given_meta (kept_by self.old)) }
        ensures cause { KeeperCause (⟦<MemKeeper as Keeper>⟧.shown self.old).faults (⟦<MemKeeper as Keeper>⟧.shown self.new).faults result }
        ensures planned { IsTrue (is_planned (read_calls self.old)) ↔ IsErrOf result KeepFault.Fault }
        ensures counted { read_calls self.new ≡ after_call (read_calls self.old) }
    {
        self.count_read()?;
        self.keeper.load(after)
    }

    fn commit(&mut self, batch: Batch) -> Result<(), KeepFault>
        requires { AllByRecursion IsPut batch.puts }
        ensures ok { OnOk result (Lands batch (⟦<MemKeeper as Keeper>⟧.shown self.old).kept (⟦<MemKeeper as Keeper>⟧.shown self.new).kept × ((⟦<MemKeeper as Keeper>⟧.shown self.old).broken ≡ false) × ((⟦<MemKeeper as Keeper>⟧.shown self.new).broken ≡ false)) }
        ensures refused { IsErrOf result KeepFault.NoMemory → ((⟦<MemKeeper as Keeper>⟧.shown self.new).kept ≡ (⟦<MemKeeper as Keeper>⟧.shown self.old).kept) × ((⟦<MemKeeper as Keeper>⟧.shown self.old).broken ≡ false) × ((⟦<MemKeeper as Keeper>⟧.shown self.new).broken ≡ false) }
        ensures breaks { IsErrOf result KeepFault.Fault → (⟦<MemKeeper as Keeper>⟧.shown self.new).broken ≡ true }
        ensures torn { IsErrOf result KeepFault.Fault → ((⟦<MemKeeper as Keeper>⟧.shown self.new).kept ≡ (⟦<MemKeeper as Keeper>⟧.shown self.old).kept) ⊎ (Lands batch (⟦<MemKeeper as Keeper>⟧.shown self.old).kept (⟦<MemKeeper as Keeper>⟧.shown self.new).kept × ((⟦<MemKeeper as Keeper>⟧.shown self.old).broken ≡ false)) }
        ensures place { (⟦<MemKeeper as Keeper>⟧.shown self.new).place ≡ (⟦<MemKeeper as Keeper>⟧.shown self.old).place }
        ensures cause { KeeperCause (⟦<MemKeeper as Keeper>⟧.shown self.old).faults (⟦<MemKeeper as Keeper>⟧.shown self.new).faults result }
        ensures plan { CommitsByPlan (⟦<MemKeeper as Keeper>⟧.shown self.old).broken (landing (failing_of self.old) (next_number (commits_of self.old))) batch (⟦<MemKeeper as Keeper>⟧.shown self.old).kept (⟦<MemKeeper as Keeper>⟧.shown self.new).kept result }
        ensures counted { commits_of self.new ≡ next_number (commits_of self.old) }
        ensures closed { (⟦<MemKeeper as Keeper>⟧.shown self.old).broken ≡ true → kept_by self.new ≡ kept_by self.old }
        ensures lost { landing (failing_of self.old) (next_number (commits_of self.old)) ≡ Some false → kept_by self.new ≡ kept_by self.old }
    {
        self.commits = self.commits.saturating_add(1);
        if self.broken {
            return Err(self.fault());
        }
        let Some(landed) = landing(self.fail_commits.as_slice(), self.commits) else {
            return self.keeper.commit(batch);
        };
        if landed {
            self.keeper.commit(batch)?;
        }
        self.broken = true;
        Err(self.fault())
    }
}
