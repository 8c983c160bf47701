// Objects and their identities.
ghost use Rattle.std.specs.Prelude.{◌≡◌, IfOk, IsTrue, ◌↔◌};
ghost use Rattle.hx_object.specs.Json.{mode_text};
ghost use Rattle.hx_object.specs.Order.{id_cmp};

use crate::{Kind, List, Members, NoMemory, Pairs, Text};
use std::cmp::Ordering;

/// What an object is found by. `ns` is empty for the kinds that lie in no namespace.
///
/// Identities are ordered by kind number, namespace and name.
#[derive(Clone, PartialEq, Eq, PartialOrd, Ord, Hash)]
pub struct Id {
    pub kind: Kind,
    pub ns: Text,
    pub name: Text,
}

impl Drop for Id {
    fn drop(self) {
        let Id {
            kind: _,
            ns: _,
            name: _,
        } = self;
    }
}

/// A stored object, or one that is to be stored.
#[derive(Clone, PartialEq, Eq)]
pub struct Object {
    pub id: Id,
    /// The version of the write that stored it, from 1 on. It is 0 before that.
    pub version: u64,
    pub labels: Pairs,
    pub annotations: Pairs,
    pub payload: Payload,
}

impl Drop for Object {
    fn drop(self) {
        let Object {
            id: _,
            version: _,
            labels: _,
            annotations: _,
            payload: _,
        } = self;
    }
}

/// What an object holds beside its metadata, by its kind.
#[derive(Clone, PartialEq, Eq)]
pub enum Payload {
    Namespace {
        terminating: bool,
    },
    /// Of an HNCConfiguration.
    Config {
        entries: List<ModeEntry>,
    },
    /// Of a HierarchyConfiguration: what was asked for, and the status that is reported.
    Hierarchy {
        parent: Option<Text>,
        cascade: bool,
        children: List<Text>,
        conditions: List<Condition>,
    },
    /// Of a SubnamespaceAnchor.
    Anchor {
        status: Option<AnchorStatus>,
    },
    /// Of a HierarchicalResourceQuota.
    Quota {
        hard: List<Limit>,
        status: List<Usage>,
    },
    /// Of every other kind: the members that it keeps, and what was read from them.
    Plain {
        members: Members,
        need: Need,
    },
}

impl Drop for Payload {
    fn drop(self) {
        match self {
            Payload::Namespace { terminating: _ } => {}
            Payload::Config { entries: _ } => {}
            Payload::Hierarchy {
                parent: _,
                cascade: _,
                children: _,
                conditions: _,
            } => {}
            Payload::Anchor { status: _ } => {}
            Payload::Quota { hard: _, status: _ } => {}
            Payload::Plain {
                members: _,
                need: _,
            } => {}
        }
    }
}

/// How objects of one resource are propagated.
#[derive(Clone, PartialEq, Eq)]
pub struct ModeEntry {
    pub group: Text,
    pub resource: Text,
    pub mode: Mode,
}

impl Drop for ModeEntry {
    fn drop(self) {
        let ModeEntry {
            group: _,
            resource: _,
            mode: _,
        } = self;
    }
}

/// HNC's synchronization modes.
#[derive(Clone, Copy, PartialEq, Eq)]
pub enum Mode {
    Propagate,
    AllowPropagate,
    Remove,
    Ignore,
}

/// What is reported of a namespace's place in the tree.
#[derive(Clone, Copy, PartialEq, Eq)]
pub enum Condition {
    InCycle,
    ParentMissing,
    IllegalParent,
    Ancestor,
    AnchorMissing,
}

/// What is reported of a SubnamespaceAnchor and the namespace that it asks for.
#[derive(Clone, Copy, PartialEq, Eq)]
pub enum AnchorStatus {
    Missing,
    Ok,
    Conflict,
    Forbidden,
}

/// A limit of a quota, as it was written and in thousandths.
#[derive(Clone, PartialEq, Eq)]
pub struct Limit {
    pub resource: Text,
    pub written: Text,
    pub amount: u64,
}

impl Drop for Limit {
    fn drop(self) {
        let Limit {
            resource: _,
            written: _,
            amount: _,
        } = self;
    }
}

/// A reported usage, in thousandths.
#[derive(Clone, PartialEq, Eq)]
pub struct Usage {
    pub resource: Text,
    pub hard: u64,
    pub used: u128,
}

impl Drop for Usage {
    fn drop(self) {
        let Usage {
            resource: _,
            hard: _,
            used: _,
        } = self;
    }
}

/// What the members of a Pod, a claim or a Secret say for quotas and propagation. It is empty for the other kinds.
#[derive(Clone, PartialEq, Eq)]
pub struct Need {
    /// Whether a Pod has ended.
    pub finished: bool,
    /// Whether a Secret is a service account's token.
    pub token: bool,
    /// A claim's storage, in thousandths of bytes.
    pub storage: u64,
    pub containers: List<Container>,
}

impl Drop for Need {
    fn drop(self) {
        let Need {
            finished: _,
            token: _,
            storage: _,
            containers: _,
        } = self;
    }
}

/// A container's `requests.cpu`, `requests.memory`, `limits.cpu` and `limits.memory`, in thousandths.
#[derive(Clone, PartialEq, Eq)]
pub struct Container {
    pub init: bool,
    pub asks: [Option<u64>; 4],
}

impl Drop for Container {
    fn drop(self) {
        let Container { init: _, asks: _ } = self;
    }
}

/// Why an object is refused. Where several hold, the first of them is given.
#[derive(Clone, Copy)]
pub enum ObjectFault {
    /// The namespace or the name breaks its grammar.
    BadName,
    /// A key of a label or an annotation, or a label's value, breaks its grammar.
    BadLabel,
    /// There are more than 256 labels that count.
    TooManyLabels,
    /// The object is larger than 65,536 bytes.
    TooLarge,
}

impl Mode {
    /// The mode as bodies name it.
    pub fn name(self) -> &'static str
        ensures { result.now ≡ mode_text self }
    {
        match self {
            Mode::Propagate => "Propagate",
            Mode::AllowPropagate => "AllowPropagate",
            Mode::Remove => "Remove",
            Mode::Ignore => "Ignore",
        }
    }
}

impl Id {
    /// The order of identities.
    pub fn compare(&self, other: &Id) -> Ordering
        ensures { result ≡ id_cmp self.now other.now }
    {
        self.cmp(other)
    }

    /// Whether the two are one identity.
    pub fn is_same(&self, other: &Id) -> bool
        ensures { IsTrue result ↔ (self.now ≡ other.now) }
    {
        self == other
    }
}

impl Payload {
    /// Another payload that is equal to this one.
    pub fn copy(&self) -> Result<Payload, NoMemory>
        ensures { IfOk result (λ p. p ≡ self.now) }
    {
        Ok(self.clone()?)
    }

    /// Whether the two are one payload.
    #[tactic(auto, using(crate::proofs::Sameness::same_payload_from))]
    pub fn is_same(&self, other: &Payload) -> bool
        ensures { IsTrue result ↔ (self.now ≡ other.now) }
    {
        self == other
    }
}

impl Object {
    /// Another object that is equal to this one.
    pub fn copy(&self) -> Result<Object, NoMemory>
        ensures { IfOk result (λ o. o ≡ self.now) }
    {
        Ok(self.clone()?)
    }

    /// Whether the two are one object, versions included.
    pub fn is_same(&self, other: &Object) -> bool
        ensures { IsTrue result ↔ (self.now ≡ other.now) }
    {
        self.eq(other)
    }
}
