// Events.
ghost use Rattle.std.specs.Prelude.{◌≡◌, IfOk};

use hx_object::{NoMemory, Shared};

/// What a write did to an object.
#[derive(Clone, Copy, Debug, PartialEq, Eq)]
pub enum What {
    Added,
    Changed,
    Removed,
}

/// What a commit did to one object.
///
/// All events of a commit have its version. An object that was added or changed is the stored one. One that was removed is the one that was stored last, with the version of the commit that removed it.
pub struct Event {
    pub version: u64,
    pub what: What,
    pub object: Shared,
}

impl Drop for Event {
    fn drop(self) {
        let Event {
            version: _,
            what: _,
            object: _,
        } = self;
    }
}

impl Event {
    /// The event again, whose object has one owner more. It takes no memory, and fails only where there are too many owners to count.
    pub fn share(&self) -> Result<Event, NoMemory>
        ensures { IfOk result (λ event. event ≡ self.now) }
    {
        Ok(Event {
            version: self.version,
            what: self.what,
            object: self.object.share()?,
        })
    }
}
