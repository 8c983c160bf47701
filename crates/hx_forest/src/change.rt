// Changes of a forest.
use hx_model::Node;
use hx_object::Text;

/// A change of a forest.
#[derive(Drop)]
pub enum Change {
    /// A namespace that isn't there yet.
    Add { name: Text, node: Node },
    /// What a namespace names as its parent.
    SetParent { name: Text, parent: Option<Text> },
    /// A namespace is on its way out.
    SetTerminating { name: Text },
    /// A namespace goes.
    Remove { name: Text },
}
