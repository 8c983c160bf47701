// The latest events, and those that are staged.
ghost use Rattle.std.specs.Prelude.{◌≡◌, [], IfOk};
ghost use Rattle.hx_model.specs.Windows.{Ascend, most_events, newest, opened, with_events};

use hx_model::Event;
use hx_object::NoMemory;
use hx_watch::Window;
use std::alloc::Global;
use std::marker::Model;
use std::mem;

/// The window of the latest events, and the events of the writes that are staged.
pub(crate) struct EventLog {
    alloc: Global,
    window: Window,
    staged: Vec<Event>,
}

impl Drop for EventLog {
    fn drop(self) {
        let EventLog {
            alloc: _,
            window: _,
            staged: _,
        } = self;
    }
}

impl Model for EventLog {
    ghost use Rattle.std.specs.Prelude.{◌≡◌, []};
    ghost use Rattle.hx_model.specs.Windows.{Ascend, most_events, newest, with_events};
    ghost use Rattle.hx_state.specs.Happening.{LogView, log_code};

    ghost Value = { LogView };

    ghost coded = { log_code };

    ghost view = { λ l. record { window = l.window; staged = l.staged.items } };

    ghost invariant = { λ l. (with_events most_events l.window [] ≡ l.window) × Ascend (newest l.window) l.staged.items };
}

impl EventLog {
    /// No events, from a version on. It takes the memory of the window.
    pub(crate) fn new(alloc: Global, version: u64) -> Result<EventLog, NoMemory>
        ensures { IfOk result (λ log. log ≡ record { window = opened version; staged = [] }) }
    {
        Ok(EventLog {
            alloc,
            window: Window::new(alloc, version)?,
            staged: Vec::new(alloc),
        })
    }

    /// The window of the events of the writes that were made.
    pub(crate) fn window(&self) -> &Window
        ensures { result.now ≡ self.now.window }
    {
        &self.window
    }

    /// The events that are staged.
    pub(crate) fn staged(&self) -> &[Event]
        ensures { result.now ≡ self.now.staged }
    {
        self.staged.as_slice()
    }

    /// Stages events in the place of those that are staged.
    pub(crate) fn stage(&mut self, events: Vec<Event>)
        requires { Ascend (newest self.old.window) events.items }
        ensures { self.new ≡ record self.old { staged = events.items } }
    {
        self.staged = events;
    }

    /// The staged events come. It takes no memory.
    pub(crate) fn apply(&mut self)
        ensures { self.new ≡ record { window = with_events most_events self.old.window self.old.staged; staged = [] } }
    {
        let events = mem::replace(&mut self.staged, Vec::new(self.alloc));
        push_all(&mut self.window, events);
    }

    /// Stages nothing. It takes no memory.
    pub(crate) fn discard(&mut self)
        ensures { self.new ≡ record self.old { staged = [] } }
    {
        self.staged.clear();
    }
}

/// Events come, the first one first.
fn push_all(window: &mut Window, events: Vec<Event>)
    requires whole { with_events most_events window.old [] ≡ window.old }
    requires ascend { Ascend (newest window.old) events.items }
    ensures window { window.new ≡ with_events most_events window.old events.items }
    ensures whole { with_events most_events window.new [] ≡ window.new }
{
    for event in events {
        window.push(event);
    }
}
