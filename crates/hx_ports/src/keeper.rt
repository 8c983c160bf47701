// Keepers of rows.
ghost use Rattle.std.specs.Prelude.{◌≡◌, true, false, OnOk, OnErr, IsErrOf, IfSome, IfOk, IsUtf8, None, Some, ◌⊎◌};
ghost use Rattle.hx_watch.specs.Watching.{HaveFollowed};
ghost use Rattle.hx_ports.specs.Causes.{KeeperCause};
ghost use Rattle.hx_ports.specs.Keeping.{meta_of, row_after, IsBatch, MayFollow, Lands};
ghost use Rattle.hx_ports.specs.Views.{KeeperView, HoldsOn};

use hx_model::Event;
use hx_object::{Id, List, NoMemory, Shared, Text};

/// Why a keeper refused a call.
#[derive(Clone, Copy, Debug, PartialEq, Eq)]
pub enum KeepFault {
    /// The keeper failed, and its count of faults rose.
    Fault,
    NoMemory,
}

impl From<NoMemory> for KeepFault {
    ghost use Rattle.hx_ports.specs.declared.keeper.KeepFault.TheVariants.{NoMemory};

    ghost from_gives = { λ _ fault. fault ≡ NoMemory };

    fn from(_fault: NoMemory) -> KeepFault {
        KeepFault::NoMemory
    }
}

/// A stored object: its key, its version and its text. A key is UTF-8, and a version is at most 2^63 - 1.
#[derive(Drop)]
pub struct Row {
    pub key: List<u8>,
    pub version: u64,
    pub body: Text,
}

/// What a keeper says of itself: the schema of its rows, its last version and the number of its rows.
#[derive(Clone, Copy)]
pub struct Meta {
    pub schema: u64,
    pub version: u64,
    pub rows: u64,
}

/// One write: objects whose rows are put in place of those with their keys, and identities whose rows are cut.
///
/// The row of an object has its version and its text, and lies under the key of its identity. Keepers form keys and texts where they want them.
///
/// The events are what watchers are told once the batch has landed, in this order. Rows don't depend on them.
#[derive(Drop)]
pub struct Batch {
    pub version: u64,
    pub puts: List<Shared>,
    pub cuts: List<Id>,
    pub events: List<Event>,
}

/// Keeps rows in ascending order of their keys, and counts its own failures.
///
/// The count rises with each fault and with nothing else, and never falls. At `u64::MAX` it stands, and counts as risen.
///
/// Its watchers are told of a batch's events by the commit that lands it, and by no other call. A keeper may have none.
pub trait Keeper {
    ghost shown: { Self → KeeperView };

    /// Takes the place where rows are kept; the empty path asks for rows in memory. A keeper that has its place stays there.
    fn attach(&mut self, path: &str) -> Result<(), KeepFault>
        requires { (shown self.old).place ≡ None }
        ensures place { OnOk result ((shown self.new).place ≡ Some path.now) }
        ensures nowhere { OnErr result ((shown self.new).place ≡ None) }
        ensures same { IfSome (shown self.old).kept (λ held. (shown self.new).kept ≡ Some held) }
        ensures whole { (shown self.new).broken ≡ (shown self.old).broken }
        ensures watchers { (shown self.new).watchers ≡ (shown self.old).watchers }
        ensures cause { KeeperCause (shown self.old).faults (shown self.new).faults result };

    fn meta(&mut self) -> Result<Meta, KeepFault>
        ensures meta { IfOk result (λ meta. IfSome (shown self.old).kept (λ held. meta ≡ meta_of held)) }
        ensures same { HoldsOn (shown self.old) (shown self.new) }
        ensures cause { KeeperCause (shown self.old).faults (shown self.new).faults result };

    /// The first row whose key is greater than `after` in the order of bytes.
    fn load(&mut self, after: &[u8]) -> Result<Option<Row>, KeepFault>
        requires { IsUtf8 after.now }
        ensures row { IfOk result (λ row. IfSome (shown self.old).kept (λ held. row ≡ row_after after.now held)) }
        ensures same { HoldsOn (shown self.old) (shown self.new) }
        ensures cause { KeeperCause (shown self.old).faults (shown self.new).faults result };

    /// Writes a batch as a whole, whose objects the keeper takes over, and tells its watchers of the events. After a fault the batch may have landed, but no watcher was told, and the keeper is broken: it refuses each later batch.
    fn commit(&mut self, batch: Batch) -> Result<(), KeepFault>
        requires batch { IsBatch batch }
        requires follows { (shown self.old).broken ≡ false → IfSome (shown self.old).kept (MayFollow batch) }
        ensures ok { OnOk result (Lands batch (shown self.old).kept (shown self.new).kept × ((shown self.old).broken ≡ false) × ((shown self.new).broken ≡ false)) }
        ensures refused { IsErrOf result KeepFault.NoMemory → ((shown self.new).kept ≡ (shown self.old).kept) × ((shown self.old).broken ≡ false) × ((shown self.new).broken ≡ false) }
        ensures breaks { IsErrOf result KeepFault.Fault → (shown self.new).broken ≡ true }
        ensures torn { IsErrOf result KeepFault.Fault → ((shown self.new).kept ≡ (shown self.old).kept) ⊎ (Lands batch (shown self.old).kept (shown self.new).kept × ((shown self.old).broken ≡ false)) }
        ensures told { OnOk result (HaveFollowed batch.events (shown self.old).watchers (shown self.new).watchers) }
        ensures untold { OnErr result ((shown self.new).watchers ≡ (shown self.old).watchers) }
        ensures place { (shown self.new).place ≡ (shown self.old).place }
        ensures cause { KeeperCause (shown self.old).faults (shown self.new).faults result };
}
