// What reading a body or a row gives.
use hx_object::{NoMemory, Object, ObjectFault, Text};

/// What a body says: the object, with version 0, and the version that a PUT expects the stored object to have.
///
/// `expected` is `None` where the body names no `resourceVersion`, and `Some(0)`, which no stored object has, where what it names is no version.
#[derive(Drop)]
pub struct Read {
    pub object: Object,
    pub expected: Option<u64>,
}

/// Why a body isn't read. Where several faults hold, the first of them is given, and of the faults of members that of the first member.
#[derive(Drop)]
pub enum JsonFault {
    /// The body isn't JSON in UTF-8, or nests deeper than 127.
    NotJson,
    /// A number has a point or an exponent, is `-0`, or lies outside -2^63 to 2^64 - 1.
    NotWhole,
    /// `apiVersion` or `kind` is absent or isn't the path's.
    WrongKind,
    MissingMember(Text),
    /// The member has the wrong type. The whole body has the empty name.
    WrongType(Text),
    /// The member, or a limit in it, is no quantity.
    BadQuantity(Text),
    /// `metadata.name` or `metadata.namespace` is given and isn't the path's.
    WrongPlace,
    Object(ObjectFault),
    NoMemory,
}

/// Why a row isn't read.
#[derive(Clone, Copy)]
pub enum RowFault {
    /// No object that may be stored has this row.
    NoObject,
    NoMemory,
}

impl From<NoMemory> for JsonFault {
    ghost use Rattle.std.specs.Prelude.{◌≡◌};
    ghost use Rattle.hx_json.specs.declared.fault.JsonFault.TheVariants.{NoMemory};

    ghost from_gives = { λ _ f. f ≡ NoMemory };

    fn from(_: NoMemory) -> JsonFault {
        JsonFault::NoMemory
    }
}

impl From<NoMemory> for RowFault {
    ghost use Rattle.std.specs.Prelude.{◌≡◌};
    ghost use Rattle.hx_json.specs.declared.fault.RowFault.TheVariants.{NoMemory};

    ghost from_gives = { λ _ f. f ≡ NoMemory };

    fn from(_: NoMemory) -> RowFault {
        RowFault::NoMemory
    }
}
