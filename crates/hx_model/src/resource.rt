// The resources that quotas limit.
ghost use Rattle.std.specs.Prelude.{◌≡◌, map};
ghost use Rattle.std.specs.Map.{lookup};
ghost use Rattle.std.specs.Str.{bytes_eq};
ghost use Rattle.hx_model.specs.Charges.{resource_named};

/// What a quota limits: what the Pods and claims of a namespace ask for, or how many objects of a kind it holds (Kubernetes, "Resource Quotas").
#[derive(Clone, Copy, Debug, PartialEq, Eq)]
pub enum Resource {
    /// Pods that haven't finished.
    Pods,
    RequestsCpu,
    RequestsMemory,
    LimitsCpu,
    LimitsMemory,
    /// The storage that claims ask for.
    RequestsStorage,
    CountRoles,
    CountRoleBindings,
    CountConfigMaps,
    CountSecrets,
    CountNetworkPolicies,
    CountLimitRanges,
    /// All Pods, finished ones among them.
    CountPods,
    CountServices,
    CountClaims,
}

/// All resources, in their order.
pub const RESOURCES: [Resource; 15] = [
    Resource::Pods,
    Resource::RequestsCpu,
    Resource::RequestsMemory,
    Resource::LimitsCpu,
    Resource::LimitsMemory,
    Resource::RequestsStorage,
    Resource::CountRoles,
    Resource::CountRoleBindings,
    Resource::CountConfigMaps,
    Resource::CountSecrets,
    Resource::CountNetworkPolicies,
    Resource::CountLimitRanges,
    Resource::CountPods,
    Resource::CountServices,
    Resource::CountClaims,
];

/// The names in a quota's `spec.hard`. Some resources have two.
static NAMES: [(&str, Resource); 21] = [
    ("pods", Resource::Pods),
    ("requests.cpu", Resource::RequestsCpu),
    ("cpu", Resource::RequestsCpu),
    ("requests.memory", Resource::RequestsMemory),
    ("memory", Resource::RequestsMemory),
    ("limits.cpu", Resource::LimitsCpu),
    ("limits.memory", Resource::LimitsMemory),
    ("requests.storage", Resource::RequestsStorage),
    (
        "count/roles.rbac.authorization.k8s.io",
        Resource::CountRoles,
    ),
    (
        "count/rolebindings.rbac.authorization.k8s.io",
        Resource::CountRoleBindings,
    ),
    ("count/configmaps", Resource::CountConfigMaps),
    ("configmaps", Resource::CountConfigMaps),
    ("count/secrets", Resource::CountSecrets),
    ("secrets", Resource::CountSecrets),
    (
        "count/networkpolicies.networking.k8s.io",
        Resource::CountNetworkPolicies,
    ),
    ("count/limitranges", Resource::CountLimitRanges),
    ("count/pods", Resource::CountPods),
    ("count/services", Resource::CountServices),
    ("services", Resource::CountServices),
    ("count/persistentvolumeclaims", Resource::CountClaims),
    ("persistentvolumeclaims", Resource::CountClaims),
];

impl Resource {
    /// The resource that a name in a quota's `spec.hard` stands for.
    #[tactic(auto, unfolding(crate::specs::Charges::resource_named))]
    pub fn of_name(name: &str) -> Option<Resource>
        ensures { result ≡ resource_named name.now }
    {
        named_in(&NAMES, name)
    }
}

/// The resource of the first row with the name.
fn named_in(rows: &[(&'static str, Resource)], name: &str) -> Option<Resource>
    ensures { result ≡ lookup (bytes_eq name.now) (map (λ row. (row.0.now, row.1)) rows.now) }
{
    for row in rows {
        if name == row.0 {
            return Some(row.1);
        }
    }
    None
}
