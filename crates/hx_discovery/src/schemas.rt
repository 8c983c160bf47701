// The schemas of groups, and where they are found.
ghost use Rattle.std.specs.Prelude.{◌≡◌, ◌++◌, false, string_bytes, OnOk};
ghost use Rattle.hx_discovery.specs.Documents.{behind_place, listed, namespace_part, patch_head, patch_text, path_text, schema_link, schema_place_text, told_kind_head, told_kind_text};

use crate::ApiGroup;
use crate::groups::version_head;
use crate::text::{push, push_comma_if};
use hx_object::{Kind, NoMemory};

#[tactic(auto, unfolding(crate::specs::Documents::schema_link))]
fn schema_link() -> &'static str
    ensures { result.now ≡ schema_link }
{
    r#"":{"serverRelativeURL":"/openapi/v3/"#
}

/// Appends where the schema of a group is found.
#[tactic(auto, unfolding(crate::specs::Documents::schema_place_text))]
fn push_schema_place(out: &mut String, group: ApiGroup) -> Result<(), NoMemory>
    ensures { OnOk result (string_bytes out.new ≡ string_bytes out.old ++ schema_place_text group) }
{
    push(out, "\"")?;
    push(out, group.place())?;
    push(out, schema_link())?;
    push(out, group.place())?;
    push(out, "\"}")
}

/// Appends where the schemas of some groups are found, with commas between.
pub fn push_schema_places(out: &mut String, groups: &[ApiGroup]) -> Result<(), NoMemory>
    ensures { OnOk result (string_bytes out.new ≡ string_bytes out.old ++ listed schema_place_text false groups.now) }
{
    let mut later = false;
    for group in groups {
        push_comma_if(out, later)?;
        push_schema_place(out, *group)?;
        later = true;
    }
    Ok(())
}

#[tactic(auto, unfolding(crate::specs::Documents::namespace_part))]
fn namespace_part() -> &'static str
    ensures { result.now ≡ namespace_part }
{
    "/namespaces/{namespace}"
}

/// What stands in a path between the version and the plural of a kind.
fn behind_place(kind: Kind) -> &'static str
    ensures { result.now ≡ behind_place kind }
{
    if kind.is_in_cluster() {
        ""
    } else {
        namespace_part()
    }
}

/// Appends the path of a kind's objects, in quotes.
#[tactic(auto, unfolding(crate::specs::Documents::path_text))]
fn push_path(out: &mut String, group: ApiGroup, kind: Kind) -> Result<(), NoMemory>
    ensures { OnOk result (string_bytes out.new ≡ string_bytes out.old ++ path_text group kind) }
{
    push(out, "\"/")?;
    push(out, group.place())?;
    push(out, behind_place(kind))?;
    push(out, "/")?;
    push(out, kind.plural())?;
    push(out, "/{name}\"")
}

#[tactic(auto, unfolding(crate::specs::Documents::patch_head))]
fn patch_head() -> &'static str
    ensures { result.now ≡ patch_head }
{
    r#":{"patch":{"parameters":[{"in":"query","name":"fieldValidation"}],"responses":{},"x-kubernetes-group-version-kind":{"group":""#
}

#[tactic(auto, unfolding(crate::specs::Documents::told_kind_head))]
fn told_kind_head() -> &'static str
    ensures { result.now ≡ told_kind_head }
{
    r#"","kind":""#
}

/// Appends a kind, with its group and version.
#[tactic(auto, unfolding(crate::specs::Documents::told_kind_text))]
fn push_told_kind(out: &mut String, group: ApiGroup, kind: Kind) -> Result<(), NoMemory>
    ensures { OnOk result (string_bytes out.new ≡ string_bytes out.old ++ told_kind_text group kind) }
{
    push(out, group.name())?;
    push(out, told_kind_head())?;
    push(out, kind.name())?;
    push(out, version_head())?;
    push(out, group.version())?;
    push(out, "\"}}}")
}

/// Appends what is said of the path of a kind's objects.
#[tactic(auto, unfolding(crate::specs::Documents::patch_text))]
fn push_patch(out: &mut String, group: ApiGroup, kind: Kind) -> Result<(), NoMemory>
    ensures { OnOk result (string_bytes out.new ≡ string_bytes out.old ++ patch_text group kind) }
{
    push_path(out, group, kind)?;
    push(out, patch_head())?;
    push_told_kind(out, group, kind)
}

/// Appends what is said of the paths of some kinds' objects, with commas between.
pub fn push_patches(out: &mut String, group: ApiGroup, kinds: &[Kind]) -> Result<(), NoMemory>
    ensures { OnOk result (string_bytes out.new ≡ string_bytes out.old ++ listed (patch_text group) false kinds.now) }
{
    let mut later = false;
    for kind in kinds {
        push_comma_if(out, later)?;
        push_patch(out, group, *kind)?;
        later = true;
    }
    Ok(())
}
