// Laws of the definitions.
ghost use Rattle.hx_report.specs.Outlined.{HasOneLineEach};

/// A theorem, not to be called: in every graph of parents each namespace has exactly one line of the tree, and no other name has one.
pub fn law_of_lines()
    ensures { HasOneLineEach }
{}
