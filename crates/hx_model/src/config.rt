// What is fixed for a run.
ghost use Rattle.std.specs.Prelude.{◌≡◌};
ghost use Rattle.hx_model.specs.Forest.{is_in};

use crate::plain::is_in;
use hx_object::{List, Text};

/// What is fixed for a run.
pub struct RunConfig {
    /// The namespaces that take no part in trees.
    pub excluded: List<Text>,
    /// Whether a request may skip the rules on trees.
    pub allow_skip: bool,
}

impl Drop for RunConfig {
    fn drop(self) {
        let RunConfig {
            excluded: _,
            allow_skip: _,
        } = self;
    }
}

impl RunConfig {
    /// Whether a namespace takes no part in trees. It needn't be there.
    pub fn excludes(&self, name: &Text) -> bool
        ensures { result ≡ is_in name.now self.now.excluded }
    {
        is_in(name, self.excluded.as_slice())
    }
}
