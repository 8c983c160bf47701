// A keeper whose commits are told to a hub of watchers.
ghost use Rattle.std.specs.Prelude.{◌≡◌, []};
ghost use Rattle.hx_watch.specs.Watching.{HaveFollowed};

use crate::keeper::{Batch, KeepFault, Keeper, Meta, Row};
use hx_model::Event;
use hx_object::List;
use hx_watch::{Hub, Watcher};
use std::marker::Model;

/// A keeper, and the watchers that are told of what it commits. Contracts see it as what it shows.
///
/// The keeper gets each batch without its events, and has no watchers of its own. Where it took the batch, the hub is told of each event, in order and before the commit returns. That takes no memory but what a watcher may take.
pub struct Followed<K: Keeper, W: Watcher> {
    keeper: K,
    hub: Hub<W>,
}

impl<K: Keeper + Drop, W: Watcher> Drop for Followed<K, W> {
    fn drop(self) {
        let Followed { keeper: _, hub: _ } = self;
    }
}

impl<K: Keeper, W: Watcher> Model for Followed<K, W> {
    ghost use Rattle.std.specs.Prelude.{◌≡◌, []};
    ghost use Rattle.hx_ports.specs.Codes.{keeper_view_code};
    ghost use Rattle.hx_ports.specs.Views.{KeeperView};

    ghost Value = { KeeperView };

    ghost coded = { keeper_view_code };

    ghost view = { λ f. record (K.shown f.keeper) { watchers = f.hub } };

    ghost invariant = { λ f. (K.shown f.keeper).watchers ≡ [] };
}

impl<K: Keeper, W: Watcher> Followed<K, W> {
    pub fn new(keeper: K, hub: Hub<W>) -> Self
        requires { (K.shown keeper).watchers ≡ [] }
        ensures { result ≡ record (K.shown keeper) { watchers = hub } }
    {
        Followed { keeper, hub }
    }

    /// The keeper and the hub, as they are now.
    pub fn into_parts(self) -> (K, Hub<W>)
        ensures keeper { K.shown result.0 ≡ record self { watchers = [] } }
        ensures hub { result.1 ≡ self.watchers }
    {
        let Followed { keeper, hub } = self;
        (keeper, hub)
    }

    pub fn keeper(&self) -> &K
        ensures { K.shown result.now ≡ record self.now { watchers = [] } }
    {
        &self.keeper
    }

    pub fn hub(&self) -> &Hub<W>
        ensures { result.now ≡ self.now.watchers }
    {
        &self.hub
    }
}

impl<K: Keeper, W: Watcher> Keeper for Followed<K, W> {
    ghost shown = { λ f. f };

    fn attach(&mut self, path: &str) -> Result<(), KeepFault> {
        self.keeper.attach(path)
    }

    fn meta(&mut self) -> Result<Meta, KeepFault> {
        self.keeper.meta()
    }

    fn load(&mut self, after: &[u8]) -> Result<Option<Row>, KeepFault> {
        self.keeper.load(after)
    }

    fn commit(&mut self, batch: Batch) -> Result<(), KeepFault> {
        let Batch {
            version,
            puts,
            cuts,
            events,
        } = batch;
        let events = events.into_vec();
        let none = List::of(Vec::new(*events.allocator()));
        self.keeper.commit(Batch {
            version,
            puts,
            cuts,
            events: none,
        })?;
        publish_all(&mut self.hub, events.as_slice());
        Ok(())
    }
}

/// Tells the watchers of a hub of each event, the first one first.
fn publish_all<W: Watcher>(hub: &mut Hub<W>, events: &[Event])
    ensures { HaveFollowed events.now hub.old hub.new }
{
    for event in events {
        hub.publish(event);
    }
}
