// What is said where nothing is found.
ghost use Rattle.hx_audit.specs.Auditing.{IsNothingExactly, IsOneAtMost};

/// A theorem, not to be called: what an audit finds is determined by the state, and nothing is found exactly where no key wants a write.
pub fn law_of_first()
    ensures one { IsOneAtMost }
    ensures nothing { IsNothingExactly }
{}
