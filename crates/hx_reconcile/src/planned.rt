// A plan.
ghost use Rattle.std.specs.Prelude.{◌≡◌, option_copied};
ghost use Rattle.hx_reconcile.specs.Briefs.{IsShort, IsStorableFor, IsWanted, planned_by};

use crate::{Brief, SharedBrief};
use hx_model::Write;
use std::marker::Model;

/// A brief with the write that its key wants: at most one, of an object without a version.
///
/// Contracts see the two. The write is the wanted one of every valid state that the brief stands for.
pub struct Plan {
    brief: SharedBrief,
    write: Option<Write>,
}

impl Drop for Plan {
    fn drop(self) {
        let Plan { brief: _, write: _ } = self;
    }
}

impl Model for Plan {
    ghost use Rattle.hx_reconcile.specs.Briefs.{IsPlanned, Planned};

    ghost Value = { Planned };

    ghost view = { λ p. record { brief = p.brief; write = p.write } };

    ghost invariant = { λ p. IsPlanned p.brief p.write };
}

impl Plan {
    /// A plan of the write that its brief asks for.
    pub(crate) fn new(brief: SharedBrief, write: Option<Write>) -> Plan
        requires planned { write ≡ planned_by brief }
        requires short { IsShort brief.facts write }
        ensures brief { result.brief ≡ brief }
        ensures write { result.write ≡ write }
    {
        Plan { brief, write }
    }

    /// What it was made from.
    pub fn brief(&self) -> &Brief
        ensures { result.now ≡ self.now.brief }
    {
        self.brief.brief()
    }

    /// What is to be written, if anything.
    pub fn write(&self) -> Option<&Write>
        ensures write { option_copied result ≡ self.now.write }
        ensures planned { self.now.write ≡ planned_by self.now.brief }
        ensures wanted { IsWanted self.now.brief self.now.write }
        ensures storable { IsStorableFor self.now.brief self.now.write }
    {
        self.write.as_ref()
    }

    /// The brief and the write.
    pub fn into_parts(self) -> (SharedBrief, Option<Write>)
        ensures brief { result.0 ≡ self.brief }
        ensures write { result.1 ≡ self.write }
        ensures planned { result.1 ≡ planned_by result.0 }
        ensures wanted { IsWanted result.0 result.1 }
        ensures storable { IsStorableFor result.0 result.1 }
    {
        let Plan { brief, write } = self;
        (brief, write)
    }
}
