// Changes of what namespaces have by themselves.
ghost use Rattle.std.specs.Prelude.{◌≡◌, ◌<◌};
ghost use Rattle.hx_quota.specs.Counters.{place_of};

use hx_model::Resource;

/// A change of what a namespace has of a resource by itself: `old` goes, and `new` comes in its place, in thousandths.
#[derive(Clone, Copy, Debug, PartialEq, Eq)]
pub struct Delta {
    pub resource: Resource,
    pub old: u128,
    pub new: u128,
}

/// The place of a resource among own sums.
pub(crate) fn place_of(resource: Resource) -> usize
    ensures place { result ≡ place_of resource }
    ensures within { result < 15 }
{
    match resource {
        Resource::Pods => 0,
        Resource::RequestsCpu => 1,
        Resource::RequestsMemory => 2,
        Resource::LimitsCpu => 3,
        Resource::LimitsMemory => 4,
        Resource::RequestsStorage => 5,
        Resource::CountRoles => 6,
        Resource::CountRoleBindings => 7,
        Resource::CountConfigMaps => 8,
        Resource::CountSecrets => 9,
        Resource::CountNetworkPolicies => 10,
        Resource::CountLimitRanges => 11,
        Resource::CountPods => 12,
        Resource::CountServices => 13,
        Resource::CountClaims => 14,
    }
}
