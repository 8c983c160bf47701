// Sources and copies.
ghost use Rattle.std.specs.Prelude.{◌≡◌};
ghost use Rattle.hx_model.specs.Limits.{is_copy};
ghost use Rattle.hx_model.specs.Propagation.{is_source};

use hx_object::well_known::INHERITED_FROM;
use hx_object::{Kind, Object};

/// The kinds that can be copied.
pub const COPIED_KINDS: [Kind; 6] = [
    Kind::Role,
    Kind::RoleBinding,
    Kind::ConfigMap,
    Kind::Secret,
    Kind::NetworkPolicy,
    Kind::LimitRange,
];

/// Whether the object is a copy, which its label `hnc.x-k8s.io/inherited-from` tells (HNC user guide, "Object propagation").
#[tactic(auto, unfolding(crate::specs::Limits::is_copy))]
pub fn is_copy(object: &Object) -> bool
    ensures { result ≡ is_copy object.now }
{
    object.id.kind.can_be_copied() && object.labels.get(INHERITED_FROM).is_some()
}

/// Whether the object is a source: of a kind that can be copied, and no copy itself.
pub fn is_source(object: &Object) -> bool
    ensures { result ≡ is_source object.now }
{
    object.id.kind.can_be_copied() && !is_copy(object)
}
