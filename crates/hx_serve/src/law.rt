// Laws of the definitions.
ghost use Rattle.hx_serve.specs.Visits.{LawOfVisits};

/// A theorem, not to be called: a door that tells what comes on its links and what was written to them tells it of the links that were served, in order.
pub fn law_of_visits()
    ensures { LawOfVisits }
{}
