// The documents, and where they are found.
ghost use Rattle.std.specs.Prelude.{◌≡◌, find};
ghost use Rattle.std.specs.Str.{bytes_eq};
ghost use Rattle.hx_discovery.specs.Documents.{document_on, path_of};

use crate::ApiGroup;

/// A document in which the server says what it serves. Their forms are those of the Kubernetes API.
#[derive(Clone, Copy)]
pub enum Document {
    /// The versions of the core group, at `/api`.
    Versions,
    /// The other groups, at `/apis`.
    Groups,
    /// The resources of a group.
    Resources(ApiGroup),
    /// The program's release, at `/version`.
    Release,
    /// The schema of all paths in the form of OpenAPI 2, which says nothing of them, at `/openapi/v2`.
    Swagger,
    /// Where the schemas of the groups are found, at `/openapi/v3`.
    Schemas,
    /// The schema of a group's paths, in the form of OpenAPI 3.
    Schema(ApiGroup),
}

impl Document {
    /// The path at which the document is found.
    pub fn path(self) -> &'static str
        ensures { result.now ≡ path_of self }
    {
        match self {
            Document::Versions => "/api",
            Document::Groups => "/apis",
            Document::Resources(group) => resources_path(group),
            Document::Release => "/version",
            Document::Swagger => "/openapi/v2",
            Document::Schemas => "/openapi/v3",
            Document::Schema(group) => schema_path(group),
        }
    }
}

fn resources_path(group: ApiGroup) -> &'static str
    ensures { result.now ≡ path_of (Document.Resources group) }
{
    match group {
        ApiGroup::Core => "/api/v1",
        ApiGroup::Hnc => "/apis/hnc.x-k8s.io/v1alpha2",
        ApiGroup::Rbac => "/apis/rbac.authorization.k8s.io/v1",
        ApiGroup::Networking => "/apis/networking.k8s.io/v1",
    }
}

fn schema_path(group: ApiGroup) -> &'static str
    ensures { result.now ≡ path_of (Document.Schema group) }
{
    match group {
        ApiGroup::Core => "/openapi/v3/api/v1",
        ApiGroup::Hnc => "/openapi/v3/apis/hnc.x-k8s.io/v1alpha2",
        ApiGroup::Rbac => "/openapi/v3/apis/rbac.authorization.k8s.io/v1",
        ApiGroup::Networking => "/openapi/v3/apis/networking.k8s.io/v1",
    }
}

/// The document that is found at a path.
#[tactic(auto, unfolding(crate::specs::Documents::document_on))]
pub fn document_on(path: &str) -> Option<Document>
    ensures { result ≡ document_on path.now }
{
    first_on(&DOCUMENTS, path)
}

/// The first of some documents that is found at a path.
fn first_on(documents: &[Document], path: &str) -> Option<Document>
    ensures { result ≡ find (λ document. bytes_eq path.now (path_of document)) documents.now }
{
    for document in documents {
        if path == document.path() {
            return Some(*document);
        }
    }
    None
}

static DOCUMENTS: [Document; 13] = [
    Document::Versions,
    Document::Groups,
    Document::Resources(ApiGroup::Core),
    Document::Resources(ApiGroup::Hnc),
    Document::Resources(ApiGroup::Rbac),
    Document::Resources(ApiGroup::Networking),
    Document::Release,
    Document::Swagger,
    Document::Schemas,
    Document::Schema(ApiGroup::Core),
    Document::Schema(ApiGroup::Hnc),
    Document::Schema(ApiGroup::Rbac),
    Document::Schema(ApiGroup::Networking),
];
