// What the order of keys is.
ghost use Rattle.std.specs.Cmp.{IsTotalOrder};
ghost use Rattle.std.specs.FinMap.{IsAntisymmetric};
ghost use Rattle.hx_order.specs.KeyOrder.{key_cmp};
ghost use Rattle.hx_order.specs.Ranks.{AreInOrder};

/// A theorem, not to be called: the order of keys is total, and only equal keys tie. So is the order in which they get their turns, whatever the tree.
pub fn law_of_order()
    ensures total { IsTotalOrder key_cmp }
    ensures exact { IsAntisymmetric key_cmp }
    ensures turns { AreInOrder }
{}
