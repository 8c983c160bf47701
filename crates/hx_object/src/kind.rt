// The kinds of objects.
ghost use Rattle.std.specs.Prelude.{◌≡◌, find};
ghost use Rattle.std.specs.Str.{bytes_eq};
ghost use Rattle.hx_object.specs.Kinds.{number_of, resource_of, is_in_cluster, is_namespace, is_hierarchy, can_be_copied, kind_of_plural, name_of, api_version_of, group_of, plural_of};

/// A kind of object: a resource of the Kubernetes core, RBAC or networking API, or of HNC's own group `hnc.x-k8s.io/v1alpha2`.
///
/// The order of the variants is the order of the kinds' numbers.
#[derive(Clone, Copy, PartialEq, Eq, PartialOrd, Ord, Hash)]
pub enum Kind {
    Namespace,
    HncConfiguration,
    HierarchyConfiguration,
    SubnamespaceAnchor,
    HierarchicalResourceQuota,
    Role,
    RoleBinding,
    ConfigMap,
    Secret,
    NetworkPolicy,
    LimitRange,
    Pod,
    Service,
    PersistentVolumeClaim,
}

/// Whether the objects of a kind lie in namespaces.
#[derive(Clone, Copy)]
enum Scope {
    Cluster,
    Namespaced,
}

/// A column of a row of the table of kinds. The core group is the empty text.
macro_rules! column {
    (number: $number:literal, $group:literal, $version:literal, $plural:literal, $name:literal, $scope:ident) => {
        $number
    };
    (group: $number:literal, $group:literal, $version:literal, $plural:literal, $name:literal, $scope:ident) => {
        $group
    };
    (plural: $number:literal, $group:literal, $version:literal, $plural:literal, $name:literal, $scope:ident) => {
        $plural
    };
    (name: $number:literal, $group:literal, $version:literal, $plural:literal, $name:literal, $scope:ident) => {
        $name
    };
    (scope: $number:literal, $group:literal, $version:literal, $plural:literal, $name:literal, $scope:ident) => {
        Scope::$scope
    };
    (resource: $number:literal, "", $version:literal, $plural:literal, $name:literal, $scope:ident) => {
        $plural
    };
    (resource: $number:literal, $group:literal, $version:literal, $plural:literal, $name:literal, $scope:ident) => {
        concat!($plural, ".", $group)
    };
    (api_version: $number:literal, "", $version:literal, $plural:literal, $name:literal, $scope:ident) => {
        $version
    };
    (api_version: $number:literal, $group:literal, $version:literal, $plural:literal, $name:literal, $scope:ident) => {
        concat!($group, "/", $version)
    };
}

/// What the row of a kind has in a column, among the rows of all kinds.
macro_rules! among_rows {
    ($self:expr, $column:ident; $($kind:ident => $number:literal, $group:tt, $version:literal, $plural:literal, $name:literal, $scope:ident;)*) => {
        match $self {
            $(Kind::$kind => column!($column: $number, $group, $version, $plural, $name, $scope),)*
        }
    };
}

/// What the table of kinds has for a kind in a column. A row has a kind's number, its API group, the group's version, its plural, its name and its scope.
macro_rules! in_table {
    ($self:expr, $column:ident) => {
        among_rows!($self, $column;
            Namespace => 1, "", "v1", "namespaces", "Namespace", Cluster;
            HncConfiguration => 2, "hnc.x-k8s.io", "v1alpha2", "hncconfigurations", "HNCConfiguration", Cluster;
            HierarchyConfiguration => 3, "hnc.x-k8s.io", "v1alpha2", "hierarchyconfigurations", "HierarchyConfiguration", Namespaced;
            SubnamespaceAnchor => 4, "hnc.x-k8s.io", "v1alpha2", "subnamespaceanchors", "SubnamespaceAnchor", Namespaced;
            HierarchicalResourceQuota => 5, "hnc.x-k8s.io", "v1alpha2", "hierarchicalresourcequotas", "HierarchicalResourceQuota", Namespaced;
            Role => 6, "rbac.authorization.k8s.io", "v1", "roles", "Role", Namespaced;
            RoleBinding => 7, "rbac.authorization.k8s.io", "v1", "rolebindings", "RoleBinding", Namespaced;
            ConfigMap => 8, "", "v1", "configmaps", "ConfigMap", Namespaced;
            Secret => 9, "", "v1", "secrets", "Secret", Namespaced;
            NetworkPolicy => 10, "networking.k8s.io", "v1", "networkpolicies", "NetworkPolicy", Namespaced;
            LimitRange => 11, "", "v1", "limitranges", "LimitRange", Namespaced;
            Pod => 12, "", "v1", "pods", "Pod", Namespaced;
            Service => 13, "", "v1", "services", "Service", Namespaced;
            PersistentVolumeClaim => 14, "", "v1", "persistentvolumeclaims", "PersistentVolumeClaim", Namespaced;
        )
    };
}

impl Kind {
    /// The kind's number, 1 to 14, by which identities are ordered and stored rows begin.
    pub fn number(self) -> u8
        ensures { result ≡ number_of self }
    {
        in_table!(self, number)
    }

    /// Whether objects of the kind lie in no namespace.
    pub fn is_in_cluster(self) -> bool
        ensures { result ≡ is_in_cluster self }
    {
        matches!(in_table!(self, scope), Scope::Cluster)
    }

    /// The API group of the kind. The core group is the empty text.
    pub fn group(self) -> &'static str
        ensures { result.now ≡ group_of self }
    {
        in_table!(self, group)
    }

    /// The plural under which objects of the kind are listed.
    pub fn plural(self) -> &'static str
        ensures { result.now ≡ plural_of self }
    {
        in_table!(self, plural)
    }

    /// The name of the kind's resource as messages give it: the plural, and behind a point the API group where that isn't the core group.
    pub fn resource(self) -> &'static str
        ensures { result.now ≡ resource_of self }
    {
        in_table!(self, resource)
    }

    /// The kind as bodies name it.
    pub fn name(self) -> &'static str
        ensures { result.now ≡ name_of self }
    {
        in_table!(self, name)
    }

    /// The `apiVersion` of the kind's bodies: the version, behind the API group and a slash where that isn't the core group.
    pub fn api_version(self) -> &'static str
        ensures { result.now ≡ api_version_of self }
    {
        in_table!(self, api_version)
    }

    /// The kind whose objects are listed under a plural.
    pub fn of_plural(plural: &str) -> Option<Kind>
        ensures { result ≡ kind_of_plural plural.now }
    {
        of_plural(&KINDS, plural)
    }

    pub fn is_namespace(self) -> bool
        ensures { result ≡ is_namespace self }
    {
        matches!(self, Kind::Namespace)
    }

    pub fn is_hierarchy(self) -> bool
        ensures { result ≡ is_hierarchy self }
    {
        matches!(self, Kind::HierarchyConfiguration)
    }

    /// Whether objects of the kind are copied down a tree.
    pub fn can_be_copied(self) -> bool
        ensures { result ≡ can_be_copied self }
    {
        matches!(
            self,
            Kind::Role
                | Kind::RoleBinding
                | Kind::ConfigMap
                | Kind::Secret
                | Kind::NetworkPolicy
                | Kind::LimitRange
        )
    }
}

/// The first of some kinds that has the plural.
fn of_plural(kinds: &[Kind], plural: &str) -> Option<Kind>
    ensures { result ≡ find (λ kind. bytes_eq plural.now (plural_of kind)) kinds.now }
{
    for kind in kinds {
        if plural == kind.plural() {
            return Some(*kind);
        }
    }
    None
}

/// All kinds, in the order of their numbers.
static KINDS: [Kind; 14] = [
    Kind::Namespace,
    Kind::HncConfiguration,
    Kind::HierarchyConfiguration,
    Kind::SubnamespaceAnchor,
    Kind::HierarchicalResourceQuota,
    Kind::Role,
    Kind::RoleBinding,
    Kind::ConfigMap,
    Kind::Secret,
    Kind::NetworkPolicy,
    Kind::LimitRange,
    Kind::Pod,
    Kind::Service,
    Kind::PersistentVolumeClaim,
];
