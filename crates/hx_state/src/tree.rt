// What objects say of the tree, where they are there.
ghost use Rattle.std.specs.Prelude.{◌≡◌, option_copied, option_and_then};
ghost use Rattle.hx_model.specs.Tree.{subnamespace_parent, named_parent};

use hx_model::{named_parent, subnamespace_parent};
use hx_object::{Object, Text};

/// The parent that the annotation of an object names, where there is one.
pub fn annotated_parent(object: Option<&Object>) -> Option<&Text>
    ensures { option_copied result ≡ option_and_then subnamespace_parent (option_copied object.entry) }
{
    subnamespace_parent(object?)
}

/// The parent that an object names, where there is one.
pub fn given_parent(object: Option<&Object>) -> Option<&Text>
    ensures { option_copied result ≡ option_and_then named_parent (option_copied object.entry) }
{
    named_parent(object?)
}
