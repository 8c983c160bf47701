// What objects say of the tree.
ghost use Rattle.std.specs.Prelude.{◌≡◌, option_copied};
ghost use Rattle.hx_model.specs.Cases.{same_name};
ghost use Rattle.hx_model.specs.Subnamespaces.{allows_cascade, is_owned_by};
ghost use Rattle.hx_model.specs.Tree.{subnamespace_parent, named_parent, is_terminating, parent_with};

use hx_object::well_known::SUBNAMESPACE_OF;
use hx_object::{Object, Payload, Text};

/// The parent that the annotation of a subnamespace names.
pub fn subnamespace_parent(namespace: &Object) -> Option<&Text>
    ensures { option_copied result ≡ subnamespace_parent namespace.now }
{
    namespace.annotations.get(SUBNAMESPACE_OF)
}

/// Whether the annotation of a namespace names this one as its parent.
pub fn is_owned_by(namespace: &Object, parent: &Text) -> bool
    ensures { result ≡ is_owned_by parent.now namespace.now }
{
    is_same_name(subnamespace_parent(namespace), Some(parent))
}

/// The parent that a HierarchyConfiguration names.
pub fn named_parent(hierarchy: &Object) -> Option<&Text>
    ensures { option_copied result ≡ named_parent hierarchy.now }
{
    match &hierarchy.payload {
        Payload::Hierarchy { parent, .. } => parent.as_ref(),
        _ => None,
    }
}

/// The parent of a namespace whose HierarchyConfiguration this is, or which has none: by its annotation, else by that.
pub fn parent_by<'a>(namespace: &'a Object, hierarchy: Option<&'a Object>) -> Option<&'a Text>
    ensures { option_copied result ≡ parent_with (option_copied hierarchy.entry) namespace.now }
{
    match (subnamespace_parent(namespace), hierarchy) {
        (Some(parent), _) => Some(parent),
        (None, Some(hierarchy)) => named_parent(hierarchy),
        (None, None) => None,
    }
}

/// Whether a namespace is on its way out.
pub fn is_terminating(namespace: &Object) -> bool
    ensures { result ≡ is_terminating namespace.now.payload }
{
    match &namespace.payload {
        Payload::Namespace { terminating } => *terminating,
        _ => false,
    }
}

/// Whether a HierarchyConfiguration allows that the subtree of its namespace goes with it.
pub fn allows_cascade(payload: &Payload) -> bool
    ensures { result ≡ allows_cascade payload.now }
{
    match payload {
        Payload::Hierarchy { cascade, .. } => *cascade,
        _ => false,
    }
}

/// Whether both names are there and alike, or neither is there.
pub fn is_same_name(a: Option<&Text>, b: Option<&Text>) -> bool
    ensures { result ≡ same_name (option_copied a.entry) (option_copied b.entry) }
{
    match (a, b) {
        (Some(a), Some(b)) => a.as_str() == b.as_str(),
        (None, None) => true,
        _ => false,
    }
}
