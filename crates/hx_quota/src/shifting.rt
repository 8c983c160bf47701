// Own sums after deltas.
ghost use Rattle.std.specs.Prelude.{◌≡◌, length};
ghost use Rattle.hx_quota.specs.Counters.{shifted, AreApart, HaveOld};
ghost use Rattle.hx_quota.specs.Inside.{OwnFit};

use crate::entry::{Delta, place_of};

/// Makes deltas, one after the other.
pub(crate) fn shift(own: &mut [u128; 15], deltas: &[Delta])
    requires apart { AreApart deltas.now }
    requires old { HaveOld deltas.now own.old }
    requires fits { OwnFit (shifted deltas.now own.old) }
    ensures sums { own.new ≡ shifted deltas.now own.old }
    ensures long { length own.old ≡ 15 }
{
    for delta in deltas {
        let place = place_of(delta.resource);
        own[place] = own[place] - delta.old + delta.new;
    }
}
