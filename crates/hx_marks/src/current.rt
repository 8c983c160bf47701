// The state that is read.
ghost use Rattle.std.specs.Prelude.{◌≡◌};
ghost use Rattle.hx_model.specs.Tree.{forest_of};
ghost use Rattle.hx_marks.specs.Before.{state_of};

use hx_forest::Forest;
use hx_model::RunConfig;
use hx_state::IndexedState;
use hx_store::Store;
use hx_watch::Window;

/// The state before a write, with the tree that is kept of it.
#[derive(Drop)]
pub(crate) struct Current<'a> {
    pub(crate) store: &'a Store,
    pub(crate) forest: &'a Forest,
    /// The settings of the run. Only contracts speak of them.
    pub(crate) config: &'a RunConfig,
    /// The window of events. Only contracts speak of it.
    pub(crate) window: &'a Window,
    ghost tree: { forest.now.nodes ≡ forest_of (state_of store.now config.now window.now) },
}

impl<'a> Current<'a> {
    /// The parts of a state.
    pub(crate) fn of(state: &'a IndexedState) -> Current<'a>
        ensures { state_of result.store.now result.config.now result.window.now ≡ state.now.state }
    {
        Current {
            store: state.store(),
            forest: state.forest(),
            config: state.config(),
            window: state.window(),
        }
    }
}
