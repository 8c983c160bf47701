// Laws of the definitions.
ghost use Rattle.hx_bound.specs.Bound.{EarlyWrites, KeysCount, KeysStay, LateWrites};
ghost use Rattle.hx_bound.specs.Rank.{KeysAreRanked};
ghost use Rattle.hx_bound.specs.Settles.{SettlesWithin, TurnsGoOn};
ghost use Rattle.hx_bound.specs.Turns.{LedgersGrow, StaysWithin, TurnsSpend};

/// A theorem, not to be called: keys stand on levels, by rank, and copies by the depth of their namespaces.
pub fn law_of_order()
    ensures levels { KeysAreRanked }
{}

/// A theorem, not to be called: the turns come to an end, where each write keeps the order.
///
/// - `ledger`: the keys that were written differ and want nothing, where the next one is written each time;
/// - `spent`: each turn takes of what is left to do;
/// - `within`: at the start that is less than the bound.
pub fn law_of_turns()
    ensures ledger { LedgersGrow }
    ensures spent { TurnsSpend }
    ensures within { StaysWithin }
{}

/// A theorem, not to be called: what the writes of keys leave.
///
/// - `early`: a removal and a subnamespace leave less of these to do;
/// - `late`: any other write, where these want nothing, keeps the order: nothing begins to want a write that doesn't come behind its key.
pub fn law_of_writes()
    ensures early { EarlyWrites }
    ensures late { LateWrites }
{}

/// A theorem, not to be called: how many keys there are.
///
/// - `stay`: no write of a key brings keys;
/// - `count`: a state has no more than what is counted of its names, its objects that can be copied, its anchors and its quotas.
pub fn law_of_keys()
    ensures stay { KeysStay }
    ensures count { KeysCount }
{}

/// A theorem, not to be called: settling ends, where each key that wants a write waits, and a turn takes the first of the keys that wait.
///
/// - `bound`: turns one behind the other are fewer than the bound, whatever else they mark;
/// - `goes_on`: where a key waits, there is such a turn. So behind the last one no key waits, and none wants a write.
pub fn law_of_settling()
    ensures bound { SettlesWithin }
    ensures goes_on { TurnsGoOn }
{}
