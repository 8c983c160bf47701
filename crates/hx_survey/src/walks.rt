// Walks up by indices.
ghost use Rattle.std.specs.Prelude.{◌≡◌, ◌==◌, length, is_some};
ghost use Rattle.hx_survey.specs.Inside.{up_at, halt_at, walk_at};

use hx_model::Halt;

/// Where the parent of the one at an index lies.
pub(crate) fn up_from(ups: &[Option<usize>], place: usize) -> Option<usize>
    ensures { result ≡ up_at ups.now place }
{
    match ups.get(place) {
        Some(up) => *up,
        None => None,
    }
}

/// The reason of halting that the one at an index has by itself.
pub(crate) fn halt_from(halts: &[Option<Halt>], place: usize) -> Option<Halt>
    ensures { result ≡ halt_at halts.now place }
{
    match halts.get(place) {
        Some(halt) => *halt,
        None => None,
    }
}

/// Whether a walk up passes an index. In a cycle it stops after as many steps as there are namespaces.
pub(crate) fn passes(ups: &[Option<usize>], first: Option<usize>, sought: usize) -> bool
    ensures { result ≡ walk_at (λ place. place == sought) (length ups.now) ups.now first }
{
    let mut at = first;
    let mut left = ups.len();
    while left > 0 {
        left -= 1;
        let Some(place) = at else {
            return false;
        };
        if place == sought {
            return true;
        }
        at = up_from(ups, place);
    }
    false
}

/// Whether a walk up passes one that is halted by itself.
pub(crate) fn passes_halted(
    ups: &[Option<usize>],
    halts: &[Option<Halt>],
    first: Option<usize>,
) -> bool
    ensures { result ≡ walk_at (λ place. is_some (halt_at halts.now place)) (length ups.now) ups.now first }
{
    let mut at = first;
    let mut left = ups.len();
    while left > 0 {
        left -= 1;
        let Some(place) = at else {
            return false;
        };
        if halt_from(halts, place).is_some() {
            return true;
        }
        at = up_from(ups, place);
    }
    false
}
