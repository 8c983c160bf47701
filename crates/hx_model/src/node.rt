// What the tree needs of a namespace.
use hx_object::Text;

/// What the tree of namespaces needs of one of them.
#[derive(Drop)]
pub struct Node {
    /// What it names as its parent.
    pub parent: Option<Text>,
    /// It is on its way out, and counts as missing for its children.
    pub terminating: bool,
    /// It takes no part in the tree.
    pub excluded: bool,
}

/// Why reconcilers leave a namespace alone, in the order in which the reasons count. These are the reasons of the condition `ActivitiesHalted` in a HierarchyConfiguration's status.
#[derive(Clone, Copy, PartialEq, Eq)]
pub enum Halt {
    /// The walk up from it comes back to it.
    InCycle,
    /// Its parent isn't there, or is on its way out.
    ParentMissing,
    /// Its parent is excluded.
    IllegalParent,
    /// A later member of its chain has one of the other reasons.
    Ancestor,
}
