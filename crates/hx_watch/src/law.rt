// Laws of the definitions.
ghost use Rattle.hx_watch.specs.Watching.{FollowInParts, FollowNone, StayWhereSure};

/// A theorem, not to be called: what the watchers of a hub are after events came.
///
/// - `none`: without events they are as they were;
/// - `parts`: the events of several calls may be said at once;
/// - `sure`: a watcher that tells that it can't refuse is never set aside.
pub fn law_of_hubs()
    ensures none { FollowNone }
    ensures parts { FollowInParts }
    ensures sure { StayWhereSure }
{}
