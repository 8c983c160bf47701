// The groups of the API.
ghost use Rattle.std.specs.Prelude.{◌≡◌, true};
ghost use Rattle.hx_discovery.specs.Groups.{group_name, is_of, kinds_of, named_groups, all_groups, place_of, version_of, group_version};

use hx_object::Kind;

/// A group of the API, of which each has one version.
#[derive(Clone, Copy)]
pub enum ApiGroup {
    /// The core group, which has no name.
    Core,
    /// `hnc.x-k8s.io`
    Hnc,
    /// `rbac.authorization.k8s.io`
    Rbac,
    /// `networking.k8s.io`
    Networking,
}

/// The group of a kind.
pub fn group_of(kind: Kind) -> ApiGroup
    ensures { is_of result kind ≡ true }
{
    match kind {
        Kind::Namespace => ApiGroup::Core,
        Kind::HncConfiguration => ApiGroup::Hnc,
        Kind::HierarchyConfiguration => ApiGroup::Hnc,
        Kind::SubnamespaceAnchor => ApiGroup::Hnc,
        Kind::HierarchicalResourceQuota => ApiGroup::Hnc,
        Kind::Role => ApiGroup::Rbac,
        Kind::RoleBinding => ApiGroup::Rbac,
        Kind::ConfigMap => ApiGroup::Core,
        Kind::Secret => ApiGroup::Core,
        Kind::NetworkPolicy => ApiGroup::Networking,
        Kind::LimitRange => ApiGroup::Core,
        Kind::Pod => ApiGroup::Core,
        Kind::Service => ApiGroup::Core,
        Kind::PersistentVolumeClaim => ApiGroup::Core,
    }
}

impl ApiGroup {
    /// The name, empty for the core group.
    pub fn name(self) -> &'static str
        ensures { result.now ≡ group_name self }
    {
        match self {
            ApiGroup::Core => "",
            ApiGroup::Hnc => "hnc.x-k8s.io",
            ApiGroup::Rbac => "rbac.authorization.k8s.io",
            ApiGroup::Networking => "networking.k8s.io",
        }
    }

    /// The version.
    pub fn version(self) -> &'static str
        ensures { result.now ≡ version_of self }
    {
        match self {
            ApiGroup::Hnc => "v1alpha2",
            _ => "v1",
        }
    }

    /// The version, behind the name and a slash where there is a name.
    pub fn group_version(self) -> &'static str
        ensures { result.now ≡ group_version self }
    {
        match self {
            ApiGroup::Core => "v1",
            ApiGroup::Hnc => "hnc.x-k8s.io/v1alpha2",
            ApiGroup::Rbac => "rbac.authorization.k8s.io/v1",
            ApiGroup::Networking => "networking.k8s.io/v1",
        }
    }

    /// Where the paths of its kinds begin, without the first slash.
    pub fn place(self) -> &'static str
        ensures { result.now ≡ place_of self }
    {
        match self {
            ApiGroup::Core => "api/v1",
            ApiGroup::Hnc => "apis/hnc.x-k8s.io/v1alpha2",
            ApiGroup::Rbac => "apis/rbac.authorization.k8s.io/v1",
            ApiGroup::Networking => "apis/networking.k8s.io/v1",
        }
    }

    /// Its kinds, in the order of their numbers.
    pub fn kinds(self) -> &'static [Kind]
        ensures { result.now ≡ kinds_of self }
    {
        match self {
            ApiGroup::Core => &CORE_KINDS,
            ApiGroup::Hnc => &HNC_KINDS,
            ApiGroup::Rbac => &RBAC_KINDS,
            ApiGroup::Networking => &NETWORKING_KINDS,
        }
    }

    /// All groups.
    pub fn all() -> &'static [ApiGroup]
        ensures { result.now ≡ all_groups }
    {
        &ALL_GROUPS
    }

    /// The groups that have a name.
    pub fn named() -> &'static [ApiGroup]
        ensures { result.now ≡ named_groups }
    {
        &NAMED_GROUPS
    }
}

static CORE_KINDS: [Kind; 7] = [
    Kind::Namespace,
    Kind::ConfigMap,
    Kind::Secret,
    Kind::LimitRange,
    Kind::Pod,
    Kind::Service,
    Kind::PersistentVolumeClaim,
];

static HNC_KINDS: [Kind; 4] = [
    Kind::HncConfiguration,
    Kind::HierarchyConfiguration,
    Kind::SubnamespaceAnchor,
    Kind::HierarchicalResourceQuota,
];

static RBAC_KINDS: [Kind; 2] = [Kind::Role, Kind::RoleBinding];

static NETWORKING_KINDS: [Kind; 1] = [Kind::NetworkPolicy];

static ALL_GROUPS: [ApiGroup; 4] = [
    ApiGroup::Core,
    ApiGroup::Hnc,
    ApiGroup::Rbac,
    ApiGroup::Networking,
];

static NAMED_GROUPS: [ApiGroup; 3] = [ApiGroup::Hnc, ApiGroup::Rbac, ApiGroup::Networking];
