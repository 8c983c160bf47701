// What is said of groups.
ghost use Rattle.std.specs.Prelude.{◌≡◌, ◌++◌, false, string_bytes, OnOk};
ghost use Rattle.hx_discovery.specs.Documents.{both_head, group_name_text, group_text, group_version_text, group_versions_text, listed, preferred_head, version_head, versions_head};

use crate::ApiGroup;
use crate::text::{push, push_comma_if};
use hx_object::NoMemory;

#[tactic(auto, unfolding(crate::specs::Documents::both_head))]
fn both_head() -> &'static str
    ensures { result.now ≡ both_head }
{
    r#"{"groupVersion":""#
}

#[tactic(auto, unfolding(crate::specs::Documents::version_head))]
pub fn version_head() -> &'static str
    ensures { result.now ≡ version_head }
{
    r#"","version":""#
}

#[tactic(auto, unfolding(crate::specs::Documents::preferred_head))]
fn preferred_head() -> &'static str
    ensures { result.now ≡ preferred_head }
{
    r#"","preferredVersion":"#
}

#[tactic(auto, unfolding(crate::specs::Documents::versions_head))]
fn versions_head() -> &'static str
    ensures { result.now ≡ versions_head }
{
    r#","versions":["#
}

#[tactic(auto, unfolding(crate::specs::Documents::group_version_text))]
fn push_group_version(out: &mut String, group: ApiGroup) -> Result<(), NoMemory>
    ensures { OnOk result (string_bytes out.new ≡ string_bytes out.old ++ group_version_text group) }
{
    push(out, both_head())?;
    push(out, group.group_version())?;
    push(out, version_head())?;
    push(out, group.version())?;
    push(out, "\"}")
}

#[tactic(auto, unfolding(crate::specs::Documents::group_name_text))]
fn push_group_name(out: &mut String, group: ApiGroup) -> Result<(), NoMemory>
    ensures { OnOk result (string_bytes out.new ≡ string_bytes out.old ++ group_name_text group) }
{
    push(out, r#"{"name":""#)?;
    push(out, group.name())
}

#[tactic(auto, unfolding(crate::specs::Documents::group_versions_text))]
fn push_group_versions(out: &mut String, group: ApiGroup) -> Result<(), NoMemory>
    ensures { OnOk result (string_bytes out.new ≡ string_bytes out.old ++ group_versions_text group) }
{
    push(out, preferred_head())?;
    push_group_version(out, group)?;
    push(out, versions_head())?;
    push_group_version(out, group)?;
    push(out, "]}")
}

/// Appends what is said of a group.
#[tactic(auto, unfolding(crate::specs::Documents::group_text))]
fn push_group(out: &mut String, group: ApiGroup) -> Result<(), NoMemory>
    ensures { OnOk result (string_bytes out.new ≡ string_bytes out.old ++ group_text group) }
{
    push_group_name(out, group)?;
    push_group_versions(out, group)
}

/// Appends what is said of some groups, with commas between.
pub fn push_groups(out: &mut String, groups: &[ApiGroup]) -> Result<(), NoMemory>
    ensures { OnOk result (string_bytes out.new ≡ string_bytes out.old ++ listed group_text false groups.now) }
{
    let mut later = false;
    for group in groups {
        push_comma_if(out, later)?;
        push_group(out, *group)?;
        later = true;
    }
    Ok(())
}
