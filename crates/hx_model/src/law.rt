// Laws of the definitions.
ghost use Rattle.hx_model.specs.Excess.{ExcessBeginsOnlyThere, NoExcessByFault, GivesNoHome, OthersBeginNone};
ghost use Rattle.hx_model.specs.Happening.{RequestsTellInOrder, TurnsTellOnce};
ghost use Rattle.hx_model.specs.Known.{SpeaksOfKeysAlone};
ghost use Rattle.hx_model.specs.Overruns.{IsHeldAtAdmission, RisesByChargesAlone, KeysRaiseNothing, DeletionsRaiseNothing, HoldsThroughout, HoldsAfterFault};
ghost use Rattle.hx_model.specs.Parents.{PutTellsParent, CutTellsParent};
ghost use Rattle.hx_model.specs.Windows.{ComeInParts, KeepNewest, LoseNothing, RaiseFloor};

/// A theorem, not to be called: the parent that the rules look at is the one in the tree of the next state.
pub fn law_of_parents()
    ensures put { PutTellsParent }
    ensures cut { CutTellsParent }
{}

/// A theorem, not to be called: what is used below a namespace comes to pass a limit of its quotas only where a quota is written, or where objects come below it with their namespace.
///
/// - `admitted`: a POST or a PUT that raises a charge is admitted only where the limits hold afterwards;
/// - `rises`: nothing but charges that are raised and objects that come from elsewhere makes a subtree use more;
/// - `keys`, `deletions`: neither reconcilers nor a DELETE raise a charge;
/// - `throughout`: so it is at each entry of every history;
/// - `fault`: and for the state that the store may hold after a fault.
pub fn law_of_quotas()
    ensures admitted { IsHeldAtAdmission }
    ensures rises { RisesByChargesAlone }
    ensures keys { KeysRaiseNothing }
    ensures deletions { DeletionsRaiseNothing }
    ensures throughout { HoldsThroughout }
    ensures fault { HoldsAfterFault }
{}

/// A theorem, not to be called: a run speaks of known keys alone. Each key that a worker takes by itself, and each that is counted as waiting, is a key of some state that the run had so far, or was given by the line of an earlier take.
pub fn law_of_known_keys()
    ensures known { SpeaksOfKeysAlone }
{}

/// A theorem, not to be called: an excess below a namespace begins only where a quota of it limits more than before, where another namespace gets a parent there, or where one comes there that others name as their parent already.
///
/// - `throughout`: so it is at each entry of every history;
/// - `fault`: and for the state that the store may hold after a fault;
/// - `homes`: one may begin, too, where a namespace comes in which objects lie already, but none does between states that are valid;
/// - `others`: an entry begins none that writes no quota, no namespace and no HierarchyConfiguration.
pub fn law_of_excess()
    ensures throughout { ExcessBeginsOnlyThere }
    ensures fault { NoExcessByFault }
    ensures homes { GivesNoHome }
    ensures others { OthersBeginNone }
{}

/// A theorem, not to be called: what a window is after events came.
///
/// - `parts`: they may come at once or one after the other;
/// - `newest`: the newest of them is the last one, so that the next one may come behind it;
/// - `floor`: the floor never falls;
/// - `whole`: since a version that isn't under the floor, all events are given that ever came of later versions, and so of each commit all or none.
pub fn law_of_windows()
    ensures parts { ComeInParts }
    ensures newest { KeepNewest }
    ensures floor { RaiseFloor }
    ensures whole { LoseNothing }
{}

/// A theorem, not to be called: in which order a commit's events are told.
///
/// - `requests`: those of a request in order of identities, each object once;
/// - `turns`: a worker's turn has one at most.
pub fn law_of_events()
    ensures requests { RequestsTellInOrder }
    ensures turns { TurnsTellOnce }
{}
