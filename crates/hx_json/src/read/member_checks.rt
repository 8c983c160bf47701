// The faults of bodies, in their order.
ghost use Rattle.std.specs.Prelude.{◌≡◌, true, option_copied, option_map};
ghost use Rattle.json.specs.Value.{value_view};
ghost use Rattle.hx_model.specs.First.{first};
ghost use Rattle.hx_json.specs.Inside.{fault_in, entry_fault};
ghost use Rattle.hx_json.specs.Reading.{config_faults, first_of_items, head_faults, hierarchy_faults, is_elsewhere, is_other, is_this, kind_fault, member_fault, metadata_faults, name_fault, own_faults, target_at};
ghost use Rattle.hx_json.specs.Trees.{has_sorted_metadata, has_sorted_pairs, keeps_order_for, said, said_items};

use super::members::{get, in_metadata, in_spec, member, text_in};
use super::resource_checks::{check_claim, check_pod, check_quota};
use super::shapes::{
    MemberFault, Shape, check, check_in_spec, check_required, check_texts, is_object, required,
};
use hx_object::{Kind, Text};
use json::Value;

/// Whether a member is this text.
fn is_this(found: Option<&Value<'_>>, wanted: &str) -> bool
    ensures { result ≡ is_this wanted.now (option_map (λ v. said v.now) found.entry) }
{
    match found {
        Some(Value::String(text)) => wanted == *text,
        _ => false,
    }
}

fn check_kind(value: &Value<'_>, kind: Kind) -> Result<(), MemberFault>
    ensures { fault_in result ≡ kind_fault kind (said value.now) }
{
    if is_this(get(value, "apiVersion"), kind.api_version())
        && is_this(get(value, "kind"), kind.name())
    {
        Ok(())
    } else {
        Err(MemberFault::WrongKind)
    }
}

/// Refuses a name that has the wrong type, and want of one unless the path has it.
fn check_name(metadata: &Value<'_>, name: Option<&Text>) -> Result<(), MemberFault>
    ensures { fault_in result ≡ name_fault (option_copied name.entry) (said metadata.now) }
{
    if name.is_some() {
        return check(member(metadata, "name"), "metadata.name", Shape::Text);
    }
    check_required(get(metadata, "name"), "metadata.name", Shape::Text)
}

fn check_metadata(metadata: &Value<'_>, name: Option<&Text>) -> Result<(), MemberFault>
    requires { has_sorted_pairs (value_view metadata.now) ≡ true }
    ensures { fault_in result ≡ first (metadata_faults (option_copied name.entry) (said metadata.now)) }
{
    check_name(metadata, name)?;
    check(
        member(metadata, "namespace"),
        "metadata.namespace",
        Shape::Text,
    )?;
    check(
        member(metadata, "resourceVersion"),
        "metadata.resourceVersion",
        Shape::Text,
    )?;
    check_texts(metadata, "labels", "metadata.labels")?;
    check_texts(metadata, "annotations", "metadata.annotations")
}

fn check_head(value: &Value<'_>, kind: Kind, name: Option<&Text>) -> Result<(), MemberFault>
    requires { has_sorted_metadata (value_view value.now) ≡ true }
    ensures { fault_in result ≡ first (head_faults kind (option_copied name.entry) (said value.now)) }
{
    if !is_object(value) {
        return Err(MemberFault::WrongType(""));
    }
    check_kind(value, kind)?;
    let metadata = required(get(value, "metadata"), "metadata", Shape::Object)?;
    check_metadata(metadata, name)
}

/// A member of an entry of a HNCConfiguration.
#[derive(Clone, Copy)]
enum EntryMember {
    Group,
    Resource,
    Mode,
}

impl EntryMember {
    fn check(self, entry: &Value<'_>) -> Result<(), MemberFault>
        ensures { fault_in result ≡ entry_fault self (said entry.now) }
    {
        match self {
            EntryMember::Group => check(
                member(entry, "group"),
                "spec.resources.group",
                Shape::Text,
            ),
            EntryMember::Mode => check(member(entry, "mode"), "spec.resources.mode", Shape::Mode),
            EntryMember::Resource => check_required(
                get(entry, "resource"),
                "spec.resources.resource",
                Shape::Text,
            ),
        }
    }
}

fn check_entries(entries: &[Value<'_>], part: EntryMember) -> Result<(), MemberFault>
    ensures { fault_in result ≡ first_of_items (entry_fault part) (said_items entries.now) }
{
    for entry in entries {
        part.check(entry)?;
    }
    Ok(())
}

fn check_config(value: &Value<'_>) -> Result<(), MemberFault>
    ensures { fault_in result ≡ first (config_faults (said value.now)) }
{
    check_in_spec(value, "resources", "spec.resources", Shape::Entries)?;
    let Some(Value::Array(entries)) = in_spec(value, "resources") else {
        return Ok(());
    };
    check_entries(entries, EntryMember::Group)?;
    check_entries(entries, EntryMember::Resource)?;
    check_entries(entries, EntryMember::Mode)
}

fn check_hierarchy(value: &Value<'_>) -> Result<(), MemberFault>
    ensures { fault_in result ≡ first (hierarchy_faults (said value.now)) }
{
    check_in_spec(value, "parent", "spec.parent", Shape::Text)?;
    check_in_spec(
        value,
        "allowCascadingDeletion",
        "spec.allowCascadingDeletion",
        Shape::Truth,
    )
}

/// The faults of the members that a kind has beside those of all kinds.
fn check_own(value: &Value<'_>, kind: Kind) -> Result<(), MemberFault>
    requires { keeps_order_for kind (value_view value.now) ≡ true }
    ensures { fault_in result ≡ first (own_faults kind (said value.now)) }
{
    match kind {
        Kind::HncConfiguration => check_config(value),
        Kind::HierarchyConfiguration => check_hierarchy(value),
        Kind::HierarchicalResourceQuota => check_quota(value),
        Kind::Pod => check_pod(value),
        Kind::PersistentVolumeClaim => check_claim(value),
        Kind::Secret => check(member(value, "type"), "type", Shape::Text),
        _ => Ok(()),
    }
}

/// Whether a member is a text and isn't the one of the path.
fn is_other(path: &Text, found: Option<&Value<'_>>) -> bool
    ensures { result ≡ is_other path.now (option_map (λ v. said v.now) found.entry) }
{
    match text_in(found) {
        Some(given) => given != path.as_str(),
        None => false,
    }
}

fn is_elsewhere(value: &Value<'_>, ns: &Text, name: Option<&Text>) -> bool
    ensures { result ≡ is_elsewhere ns.now (option_copied name.entry) (said value.now) }
{
    if let Some(name) = name {
        if is_other(name, in_metadata(value, "name")) {
            return true;
        }
    }
    is_other(ns, in_metadata(value, "namespace"))
}

/// The first fault of what a body's members are.
pub fn check_members(
    value: &Value<'_>,
    kind: Kind,
    ns: &Text,
    name: Option<&Text>,
) -> Result<(), MemberFault>
    requires metadata { has_sorted_metadata (value_view value.now) ≡ true }
    requires order { keeps_order_for kind (value_view value.now) ≡ true }
    ensures { fault_in result ≡ member_fault (target_at kind ns.now (option_copied name.entry)) (said value.now) }
{
    check_head(value, kind, name)?;
    check_own(value, kind)?;
    if is_elsewhere(value, ns, name) {
        return Err(MemberFault::WrongPlace);
    }
    Ok(())
}
