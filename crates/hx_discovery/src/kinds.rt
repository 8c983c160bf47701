// What is said of kinds.
ghost use Rattle.std.specs.Prelude.{◌≡◌, ◌++◌, false, string_bytes, OnOk};
ghost use Rattle.hx_object.specs.Kinds.{is_in_cluster};
ghost use Rattle.hx_discovery.specs.Groups.{short_names};
ghost use Rattle.hx_discovery.specs.Documents.{kind_head, listed, names_text, plural_head, resource_end, resource_text, scope_head, scope_text, short_head, truth};

use crate::text::{push, push_comma_if};
use hx_object::{Kind, NoMemory};

/// What follows the names of a kind in quotes: the short ones that clients take for it.
fn short_names(kind: Kind) -> &'static str
    ensures { result.now ≡ short_names kind }
{
    match kind {
        Kind::Namespace => "\"ns\"",
        Kind::HncConfiguration => "",
        Kind::HierarchyConfiguration => "",
        Kind::SubnamespaceAnchor => "\"subns\"",
        Kind::HierarchicalResourceQuota => "\"hrq\"",
        Kind::Role => "",
        Kind::RoleBinding => "",
        Kind::ConfigMap => "\"cm\"",
        Kind::Secret => "",
        Kind::NetworkPolicy => "\"netpol\"",
        Kind::LimitRange => "\"limits\"",
        Kind::Pod => "\"po\"",
        Kind::Service => "\"svc\"",
        Kind::PersistentVolumeClaim => "\"pvc\"",
    }
}

fn truth(holds: bool) -> &'static str
    ensures { result.now ≡ truth holds }
{
    if holds { "true" } else { "false" }
}

#[tactic(auto, unfolding(crate::specs::Documents::kind_head))]
fn kind_head() -> &'static str
    ensures { result.now ≡ kind_head }
{
    r#"{"kind":""#
}

#[tactic(auto, unfolding(crate::specs::Documents::plural_head))]
fn plural_head() -> &'static str
    ensures { result.now ≡ plural_head }
{
    r#"","name":""#
}

#[tactic(auto, unfolding(crate::specs::Documents::scope_head))]
fn scope_head() -> &'static str
    ensures { result.now ≡ scope_head }
{
    r#"","namespaced":"#
}

#[tactic(auto, unfolding(crate::specs::Documents::short_head))]
fn short_head() -> &'static str
    ensures { result.now ≡ short_head }
{
    r#","shortNames":["#
}

#[tactic(auto, unfolding(crate::specs::Documents::resource_end))]
fn resource_end() -> &'static str
    ensures { result.now ≡ resource_end }
{
    r#"],"singularName":"","verbs":["create","delete","get","list","update"]}"#
}

/// Appends the names of a kind.
#[tactic(auto, unfolding(crate::specs::Documents::names_text))]
fn push_names(out: &mut String, kind: Kind) -> Result<(), NoMemory>
    ensures { OnOk result (string_bytes out.new ≡ string_bytes out.old ++ names_text kind) }
{
    push(out, kind_head())?;
    push(out, kind.name())?;
    push(out, plural_head())?;
    push(out, kind.plural())
}

/// Appends whether the objects of a kind lie in namespaces, and its short names.
#[tactic(auto, unfolding(crate::specs::Documents::scope_text))]
fn push_scope(out: &mut String, kind: Kind) -> Result<(), NoMemory>
    ensures { OnOk result (string_bytes out.new ≡ string_bytes out.old ++ scope_text kind) }
{
    push(out, scope_head())?;
    push(out, truth(!kind.is_in_cluster()))?;
    push(out, short_head())?;
    push(out, short_names(kind))?;
    push(out, resource_end())
}

/// Appends what is said of a kind.
#[tactic(auto, unfolding(crate::specs::Documents::resource_text))]
fn push_resource(out: &mut String, kind: Kind) -> Result<(), NoMemory>
    ensures { OnOk result (string_bytes out.new ≡ string_bytes out.old ++ resource_text kind) }
{
    push_names(out, kind)?;
    push_scope(out, kind)
}

/// Appends what is said of some kinds, with commas between.
pub fn push_resources(out: &mut String, kinds: &[Kind]) -> Result<(), NoMemory>
    ensures { OnOk result (string_bytes out.new ≡ string_bytes out.old ++ listed resource_text false kinds.now) }
{
    let mut later = false;
    for kind in kinds {
        push_comma_if(out, later)?;
        push_resource(out, *kind)?;
        later = true;
    }
    Ok(())
}
