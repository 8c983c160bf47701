// The hub of watchers.
ghost use Rattle.std.specs.Prelude.{◌≡◌, [], ◌∷◌, ◌++◌, IfErr, OnOk};
ghost use Rattle.std.specs.List.{count_by};
ghost use Rattle.hx_watch.specs.Watching.{HasFollowed, HaveFollowed, is_there, joined};

use crate::watcher::Watcher;
use hx_model::Event;
use std::alloc::Global;
use std::marker::Model;

/// A watcher of a hub, and whether it is set aside.
struct Member<W: Watcher> {
    watcher: W,
    gone: bool,
}

impl<W: Watcher> Drop for Member<W> {
    fn drop(self) {
        let Member {
            watcher: _,
            gone: _,
        } = self;
    }
}

impl<W: Watcher> Model for Member<W> {
    ghost use Rattle.hx_watch.specs.Watching.{MemberView, member_code};

    ghost Value = { MemberView };

    ghost coded = { member_code };

    ghost view = { λ m. record { shown = W.shown m.watcher; gone = m.gone } };
}

impl<W: Watcher> Member<W> {
    fn new(watcher: W) -> Member<W>
        ensures { result ≡ joined (W.shown watcher) }
    {
        Member {
            watcher,
            gone: false,
        }
    }

    fn is_gone(&self) -> bool
        ensures { result ≡ self.now.gone }
    {
        self.gone
    }

    /// Tells the watcher of an event, and sets it aside where it refuses.
    fn tell(&mut self, event: &Event)
        ensures { HasFollowed (event.now ∷ []) self.old self.new }
    {
        if self.gone {
            return;
        }
        match self.watcher.push(event) {
            Ok(()) => {}
            Err(_) => self.gone = true,
        }
    }
}

/// Tells watchers of events.
///
/// A watcher that refuses an event is set aside: it gets no event after that, its count of refusals still shows, and it is freed with the hub. The others aren't disturbed.
///
/// A hub is generic in its watcher. Where a program has several kinds, an enum of them is the watcher.
pub struct Hub<W: Watcher> {
    members: Vec<Member<W>>,
}

impl<W: Watcher> Drop for Hub<W> {
    fn drop(self) {
        let Hub { members: _ } = self;
    }
}

impl<W: Watcher> Model for Hub<W> {
    ghost use Rattle.hx_watch.specs.Watching.{Members, members_code};

    ghost Value = { Members };

    ghost coded = { members_code };

    ghost view = { λ h. h.members.items };
}

impl<W: Watcher> Hub<W> {
    /// A hub without watchers. It takes no memory.
    pub fn new(alloc: Global) -> Hub<W>
        ensures { result ≡ [] }
    {
        Hub {
            members: Vec::new(alloc),
        }
    }

    /// Adds a watcher, or hands it back where no memory is left.
    pub fn add(&mut self, watcher: W) -> Result<(), W>
        ensures ok { OnOk result (self.new ≡ self.old ++ joined (W.shown watcher) ∷ []) }
        ensures err { IfErr result (λ back. (back ≡ watcher) × (self.new ≡ self.old)) }
    {
        if self.members.reserve(1).is_err() {
            return Err(watcher);
        }
        self.members.push_reserved(Member::new(watcher));
        Ok(())
    }

    /// Tells each watcher that isn't set aside of an event, in the order of adding. The hub takes no memory for it; a watcher may.
    pub fn publish(&mut self, event: &Event)
        ensures { HaveFollowed (event.now ∷ []) self.old self.new }
    {
        tell_each(&mut self.members, event);
    }

    /// How many watchers aren't set aside.
    pub fn len(&self) -> usize
        ensures { result ≡ count_by is_there self.now }
    {
        self.members
            .iter()
            .filter(|member| !member.is_gone())
            .count()
    }

    /// How many watchers are set aside.
    pub fn gone(&self) -> usize
        ensures { result ≡ count_by (λ m. m.gone) self.now }
    {
        self.members
            .iter()
            .filter(|member| member.is_gone())
            .count()
    }
}

/// Tells each member of an event.
fn tell_each<W: Watcher>(members: &mut [Member<W>], event: &Event)
    ensures { HaveFollowed (event.now ∷ []) members.old members.new }
{
    for i in 0..members.len() {
        members[i].tell(event);
    }
}
