// Laws of the definitions.
ghost use Rattle.hx_core.specs.Starting.{AreRowsUndamaged, RowsTellState};

/// A theorem, not to be called: a keeper that holds the rows of a valid state holds no damage, and the rows tell the state.
pub fn law_of_rows()
    ensures undamaged { AreRowsUndamaged }
    ensures tell { RowsTellState }
{}
