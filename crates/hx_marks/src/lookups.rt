// What a mode is.
ghost use Rattle.std.specs.Prelude.{◌≡◌};
ghost use Rattle.hx_model.specs.Propagation.{is_propagated};
ghost use Rattle.hx_marks.specs.Law.{is_ignored};

use hx_object::Mode;

pub(crate) fn is_ignored(mode: Mode) -> bool
    ensures { result ≡ is_ignored mode }
{
    matches!(mode, Mode::Ignore)
}

/// Whether sources of a kind in this mode go to the namespaces below.
pub(crate) fn is_propagated(mode: Mode) -> bool
    ensures { result ≡ is_propagated mode }
{
    matches!(mode, Mode::Propagate)
}
