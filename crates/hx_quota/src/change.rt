// Changes of the counters.
use crate::entry::Delta;
use hx_object::{List, Text};

/// A change of counters.
#[derive(Drop)]
pub(crate) enum CounterChange {
    /// A namespace that isn't there yet, without a parent and with nothing.
    Add { name: Text },
    /// The parent of a namespace, or that it has none.
    Move { moved: Text, parent: Option<Text> },
    /// What a namespace has by itself.
    Shift { ns: Text, deltas: List<Delta> },
    /// A namespace that has nothing, and is in no other chain.
    Remove { name: Text },
}
