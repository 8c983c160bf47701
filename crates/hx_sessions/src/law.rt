// Laws of the definitions.
ghost use Rattle.hx_sessions.specs.Held.{LawOfDoors};

/// A theorem, not to be called: what a history tells of the door that sessions share.
pub fn law_of_doors()
    ensures { LawOfDoors }
{}
