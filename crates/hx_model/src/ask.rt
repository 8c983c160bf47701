// Requests and their answers.
use crate::{Event, Fields, Refusal};
use hx_discovery::Document;
use hx_object::{Id, Kind, List, Object, Shared, Text};
use hx_select::Selector;

/// What is asked of a cluster. `skip` asks to pass over the rules of admission that may be passed over.
#[derive(Drop)]
pub enum Ask {
    /// One object.
    Get {
        id: Id,
    },
    /// The objects of a kind, in a namespace or in all of them, whose labels the selector holds for and which have the fields.
    List {
        kind: Kind,
        ns: Option<Text>,
        selector: Selector,
        fields: Fields,
    },
    /// To store an object that isn't there. Its version is 0: the write gives it one.
    Create {
        object: Object,
        skip: bool,
    },
    /// To store an object in the place of one that is there, of the expected version where one is named. Its version is 0.
    Replace {
        object: Object,
        expected: Option<u64>,
        skip: bool,
    },
    /// To remove an object.
    Delete {
        id: Id,
        skip: bool,
    },
    /// What the server says of itself.
    Document(Document),
    /// The events of all commits after a version.
    Events {
        since: u64,
    },
}

/// What a cluster answers.
pub enum Answer {
    /// The object; `fresh` where the request made it.
    One {
        object: Shared,
        fresh: bool,
    },
    /// The objects of a list in order of namespace and name, and the store's version.
    Many {
        kind: Kind,
        objects: List<Shared>,
        version: u64,
    },
    /// The object was removed by the write of this version.
    Deleted {
        version: u64,
    },
    /// What the server says of itself.
    Document(Document),
    /// The events in the order of their commits, those of one commit in order of identities, and the store's version.
    Events {
        events: List<Event>,
        version: u64,
    },
    Refused(Refusal),
}

impl Drop for Answer {
    fn drop(self) {
        match self {
            Answer::One {
                object: _,
                fresh: _,
            } => {}
            Answer::Many {
                kind: _,
                objects: _,
                version: _,
            } => {}
            Answer::Deleted { version: _ } => {}
            Answer::Document(_) => {}
            Answer::Events {
                events: _,
                version: _,
            } => {}
            Answer::Refused(_) => {}
        }
    }
}
