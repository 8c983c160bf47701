// The namespace of a HierarchyConfiguration.
ghost use Rattle.std.specs.Prelude.{◌≡◌, option_copied, option_and_then};
ghost use Rattle.hx_model.specs.First.{or_else};
ghost use Rattle.hx_model.specs.Tree.{named_parent};

use crate::tree::given_parent;
use hx_object::{Object, Text};

/// All that the rules on HierarchyConfigurations look at of a namespace.
#[derive(Clone, Copy)]
pub struct Home<'a> {
    /// The parent that its annotation names.
    pub owner: Option<&'a Text>,
}

impl<'a> Home<'a> {
    /// The parent of the namespace, whose HierarchyConfiguration this is, or which has none.
    pub fn parent_with(self, hierarchy: Option<&'a Object>) -> Option<&'a Text>
        ensures { option_copied result ≡ or_else (option_copied self.entry.owner) (option_and_then named_parent (option_copied hierarchy.entry)) }
    {
        match self.owner {
            Some(owner) => Some(owner),
            None => given_parent(hierarchy),
        }
    }
}
