// Chains of parents, and lists that are put together from them.
ghost use Rattle.std.specs.Prelude.{◌≡◌, ◌++◌, IfOk, OnOk, option_copied};
ghost use Rattle.hx_model.specs.Moves.{chain_from, is_open_above, up_to};

use crate::forest::Forest;
use hx_object::{NoMemory, Text};

impl Forest {
    /// The chain of a parent, and none where there is no parent.
    pub fn chain_from(&self, parent: Option<&Text>) -> Result<Vec<Text>, NoMemory>
        ensures { IfOk result (λ names. names.items ≡ chain_from self.now.nodes (option_copied parent.entry)) }
    {
        match parent {
            Some(parent) => self.chain(parent),
            None => Ok(Vec::new(self.nodes.allocator())),
        }
    }

    /// Whether a parent takes part, where there is one.
    pub fn is_open_above(&self, parent: Option<&Text>) -> bool
        ensures { result ≡ is_open_above self.now.nodes (option_copied parent.entry) }
    {
        match parent {
            Some(parent) => self.is_open(parent),
            None => true,
        }
    }
}

/// Adds names to a list.
pub fn push_names(list: &mut Vec<Text>, names: &[Text]) -> Result<(), NoMemory>
    ensures { OnOk result (list.new.items ≡ list.old.items ++ names.now) }
{
    for name in names {
        list.push(name.clone()?)?;
    }
    Ok(())
}

/// Adds the names before that of a namespace.
pub fn push_up_to(list: &mut Vec<Text>, name: &Text, names: &[Text]) -> Result<(), NoMemory>
    ensures { OnOk result (list.new.items ≡ list.old.items ++ up_to name.now names.now) }
{
    for other in names {
        if name.as_str() == other.as_str() {
            return Ok(());
        }
        list.push(other.clone()?)?;
    }
    Ok(())
}
