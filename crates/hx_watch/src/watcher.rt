// What watches events.
ghost use Rattle.std.specs.Prelude.{◌≡◌, [], ◌∷◌, OnErr, OnOk};
ghost use Rattle.hx_watch.specs.Watching.{Refuses, WatcherView, with_received};

use hx_model::Event;
use hx_object::NoMemory;

/// Why a watcher refused an event, and its count of refusals rose.
#[derive(Clone, Copy, Debug, PartialEq, Eq)]
pub enum Refused {
    /// It was to refuse this one.
    Chosen,
    NoMemory,
}

impl From<NoMemory> for Refused {
    ghost use Rattle.hx_watch.specs.declared.watcher.Refused.TheVariants.{NoMemory};

    ghost from_gives = { λ _ refused. refused ≡ NoMemory };

    fn from(_fault: NoMemory) -> Refused {
        Refused::NoMemory
    }
}

/// Receives events, and counts those that it refuses.
///
/// The count rises with each refusal and with nothing else, and never falls. At `u64::MAX` it stands, and counts as risen.
pub trait Watcher: Drop {
    ghost shown: { Self → WatcherView };

    /// Receives an event, or refuses it.
    fn push(&mut self, event: &Event) -> Result<(), Refused>
        ensures received { OnOk result (shown self.new ≡ with_received (shown self.old) (event.now ∷ [])) }
        ensures refused { OnErr result (Refuses (shown self.old) (shown self.new)) };
}
