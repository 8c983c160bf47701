// The keys of reconcilers' work, and what they write.
use hx_object::{Id, Kind, Object, Text};

/// A place that a reconciler looks after.
#[derive(Clone, PartialEq, Eq, Hash)]
pub enum Key {
    /// The copy of a kind and name in a namespace.
    Copy { ns: Text, kind: Kind, name: Text },
    /// The tree labels of a namespace.
    Tree { ns: Text },
    /// The reports in a namespace's HierarchyConfiguration.
    Report { ns: Text },
    /// The subnamespace that an anchor asks for.
    Child { ns: Text, name: Text },
    /// The status of an anchor.
    Anchor { ns: Text, name: Text },
    /// The status of a quota.
    Used { ns: Text, name: Text },
    /// The removal of a terminating namespace.
    Purge { ns: Text },
}

impl Drop for Key {
    fn drop(self) {
        match self {
            Key::Copy {
                ns: _,
                kind: _,
                name: _,
            } => {}
            Key::Tree { ns: _ } => {}
            Key::Report { ns: _ } => {}
            Key::Child { ns: _, name: _ } => {}
            Key::Anchor { ns: _, name: _ } => {}
            Key::Used { ns: _, name: _ } => {}
            Key::Purge { ns: _ } => {}
        }
    }
}

/// An identity that a write rests on, with its version when it was read, or `None` where it wasn't there.
pub struct Guard {
    pub id: Id,
    pub version: Option<u64>,
}

impl Drop for Guard {
    fn drop(self) {
        let Guard { id: _, version: _ } = self;
    }
}

/// A change of the stored objects.
#[derive(Drop)]
pub enum Write {
    Put(Object),
    Cut(Id),
}

/// How a worker's turn ended.
#[derive(Clone, Copy)]
pub enum Finish {
    /// The worker held nothing.
    Empty,
    /// Its key wanted nothing.
    Nothing,
    /// What the write rests on has changed since the key was taken at version `seen`, or it would overwrite a source and isn't wanted any more.
    Conflict { seen: u64, now: u64 },
    /// No version is left.
    Spent,
    /// It was written, with this version.
    Written(u64),
    /// The store failed.
    Fault,
    NoMemory,
}
