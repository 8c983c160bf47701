// Laws of the definitions.
ghost use Rattle.hx_marks.specs.Settling.{IsSettledExactly, IsWantedOfState};

/// A theorem, not to be called: a valid state is settled exactly where no key wants a write.
pub fn law_of_settled()
    ensures { IsSettledExactly }
{}

/// A theorem, not to be called: the keys that want a write are keys of the state.
pub fn law_of_keys()
    ensures { IsWantedOfState }
{}
