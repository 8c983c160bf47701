// The texts of documents.
ghost use Rattle.std.specs.Prelude.{◌≡◌, ◌++◌, string_bytes, OnOk};
ghost use Rattle.hx_discovery.specs.Documents.{document_text, groups_end, groups_head, groups_text, head_of_resources, list_head, release_text, resources_head, resources_text, schema_head, schema_text, schemas_text, swagger_text, versions_text};

use crate::groups::push_groups;
use crate::kinds::push_resources;
use crate::schemas::{push_patches, push_schema_places};
use crate::text::push;
use crate::{ApiGroup, Document};
use hx_object::NoMemory;

/// Appends a document as compact JSON. After an error the text may end with a part of it.
pub fn push_document(out: &mut String, document: Document) -> Result<(), NoMemory>
    ensures { OnOk result (string_bytes out.new ≡ string_bytes out.old ++ document_text document) }
{
    match document {
        Document::Versions => push(out, versions()),
        Document::Groups => push_group_list(out),
        Document::Resources(group) => push_resource_list(out, group),
        Document::Release => push(out, release()),
        Document::Swagger => push(out, swagger()),
        Document::Schemas => push_schema_list(out),
        Document::Schema(group) => push_schema(out, group),
    }
}

#[tactic(auto, unfolding(crate::specs::Documents::versions_text))]
fn versions() -> &'static str
    ensures { result.now ≡ versions_text }
{
    r#"{"kind":"APIVersions","serverAddressByClientCIDRs":[],"versions":["v1"]}"#
}

#[tactic(auto, unfolding(crate::specs::Documents::release_text))]
fn release() -> &'static str
    ensures { result.now ≡ release_text }
{
    r#"{"buildDate":"","compiler":"rattle","gitCommit":"","gitTreeState":"","gitVersion":"v0.1.0","goVersion":"","major":"0","minor":"1","platform":""}"#
}

#[tactic(auto, unfolding(crate::specs::Documents::swagger_text))]
fn swagger() -> &'static str
    ensures { result.now ≡ swagger_text }
{
    r#"{"info":{"title":"hnc","version":"v0.1.0"},"paths":{},"swagger":"2.0"}"#
}

#[tactic(auto, unfolding(crate::specs::Documents::groups_head))]
fn groups_head() -> &'static str
    ensures { result.now ≡ groups_head }
{
    r#"{"apiVersion":"v1","groups":["#
}

#[tactic(auto, unfolding(crate::specs::Documents::groups_end))]
fn groups_end() -> &'static str
    ensures { result.now ≡ groups_end }
{
    r#"],"kind":"APIGroupList"}"#
}

#[tactic(auto, unfolding(crate::specs::Documents::list_head))]
fn list_head() -> &'static str
    ensures { result.now ≡ list_head }
{
    r#"{"apiVersion":"v1","groupVersion":""#
}

#[tactic(auto, unfolding(crate::specs::Documents::resources_head))]
fn resources_head() -> &'static str
    ensures { result.now ≡ resources_head }
{
    r#"","kind":"APIResourceList","resources":["#
}

#[tactic(auto, unfolding(crate::specs::Documents::groups_text))]
fn push_group_list(out: &mut String) -> Result<(), NoMemory>
    ensures { OnOk result (string_bytes out.new ≡ string_bytes out.old ++ groups_text) }
{
    push(out, groups_head())?;
    push_groups(out, ApiGroup::named())?;
    push(out, groups_end())
}

#[tactic(auto, unfolding(crate::specs::Documents::resources_text))]
fn push_resource_list(out: &mut String, group: ApiGroup) -> Result<(), NoMemory>
    ensures { OnOk result (string_bytes out.new ≡ string_bytes out.old ++ resources_text group) }
{
    push_resources_head(out, group)?;
    push_resources(out, group.kinds())?;
    push(out, "]}")
}

#[tactic(auto, unfolding(crate::specs::Documents::head_of_resources))]
fn push_resources_head(out: &mut String, group: ApiGroup) -> Result<(), NoMemory>
    ensures { OnOk result (string_bytes out.new ≡ string_bytes out.old ++ head_of_resources group) }
{
    push(out, list_head())?;
    push(out, group.group_version())?;
    push(out, resources_head())
}

#[tactic(auto, unfolding(crate::specs::Documents::schema_head))]
fn schema_head() -> &'static str
    ensures { result.now ≡ schema_head }
{
    r#"{"info":{"title":"hnc","version":"v0.1.0"},"openapi":"3.0.0","paths":{"#
}

#[tactic(auto, unfolding(crate::specs::Documents::schemas_text))]
fn push_schema_list(out: &mut String) -> Result<(), NoMemory>
    ensures { OnOk result (string_bytes out.new ≡ string_bytes out.old ++ schemas_text) }
{
    push(out, r#"{"paths":{"#)?;
    push_schema_places(out, ApiGroup::all())?;
    push(out, "}}")
}

#[tactic(auto, unfolding(crate::specs::Documents::schema_text))]
fn push_schema(out: &mut String, group: ApiGroup) -> Result<(), NoMemory>
    ensures { OnOk result (string_bytes out.new ≡ string_bytes out.old ++ schema_text group) }
{
    push(out, schema_head())?;
    push_patches(out, group, group.kinds())?;
    push(out, "}}")
}
