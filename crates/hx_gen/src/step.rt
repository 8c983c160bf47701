// Where the list of asks has come to.
ghost use Rattle.std.specs.Prelude.{◌≡◌, ◌<◌, ◌-◌, ◌∷◌, ◌++◌, IfOk, IfSome};
ghost use Rattle.hx_model.specs.Serving.{IsServedAsk};
ghost use Rattle.hx_gen.specs.Asked.{asks_of, namespace_ask};
ghost use Rattle.hx_gen.specs.Draws.{next_number};
ghost use Rattle.hx_gen.specs.Left.{IsWithin, ask_at, left_at, objects_left, tree_left, with_first};

use crate::asks::{hierarchy_ask, namespace_ask, pod_ask, role_ask};
use hx_model::Ask;
use hx_object::NoMemory;
use std::alloc::Global;

/// The ask that comes next, by the place of its namespace. `drawn` is the number of the draw for that place.
#[derive(Clone, Copy)]
pub enum Step {
    Namespace { index: u32, drawn: u32 },
    Hierarchy { index: u32, drawn: u32, parent: u32 },
    Role { index: u32 },
    Pod { index: u32 },
    End,
}

impl Step {
    /// The first of all.
    #[tactic(auto, using(crate::proofs::Stepping::whole))]
    pub fn first(number: u32, count: u32) -> Step
        ensures within { IsWithin count result }
        ensures left { left_at count result ≡ asks_of number count }
    {
        namespace_step(0, number, count)
    }

    /// The ask.
    pub fn ask(self, alloc: Global) -> Result<Option<Ask>, NoMemory>
        ensures ask { IfOk result (λ ask. ask ≡ ask_at self) }
        ensures served { IfOk result (λ ask. IfSome ask IsServedAsk) }
    {
        match self {
            Step::Namespace { index, .. } => Ok(Some(namespace_ask(alloc, index)?)),
            Step::Hierarchy { index, parent, .. } => {
                Ok(Some(hierarchy_ask(alloc, index, parent)?))
            }
            Step::Role { index } => Ok(Some(role_ask(alloc, index)?)),
            Step::Pod { index } => Ok(Some(pod_ask(alloc, index)?)),
            Step::End => Ok(None),
        }
    }

    /// The step behind this one.
    #[tactic(auto, using(crate::proofs::Stepping::behind_role), unfolding(crate::specs::Left::left_at))]
    pub fn behind(self, count: u32) -> Step
        requires { IsWithin count self }
        ensures within { IsWithin count result }
        ensures left { left_at count self ≡ with_first (ask_at self) (left_at count result) }
    {
        match self {
            Step::Namespace { index, drawn } => behind_namespace(index, drawn, count),
            Step::Hierarchy { index, drawn, .. } => {
                namespace_step(index + 1, next_number(drawn), count)
            }
            Step::Role { index } => Step::Pod { index },
            Step::Pod { index } => role_step(index + 1, count),
            Step::End => Step::End,
        }
    }
}

/// The number behind a number, by a linear congruence.
fn next_number(number: u32) -> u32
    ensures { result ≡ next_number number }
{
    ((u64::from(number) * 1_103_515_245 + 12_345) % 2_147_483_648) as u32
}

/// The first namespace has no parent. Each other one's is drawn among those before it.
#[tactic(auto, using(crate::proofs::Stepping::behind_first, crate::proofs::Stepping::behind_later))]
fn behind_namespace(index: u32, drawn: u32, count: u32) -> Step
    requires { index < count }
    ensures within { IsWithin count result }
    ensures left { left_at count (Step.Namespace index drawn) ≡ namespace_ask index ∷ left_at count result }
{
    if index == 0 {
        return namespace_step(1, next_number(drawn), count);
    }
    Step::Hierarchy {
        index,
        drawn,
        parent: drawn / 65_536 % index,
    }
}

/// The step of the namespace at a place, or behind the last one that of the first Role.
#[tactic(auto, unfolding(crate::specs::Left::left_at))]
fn namespace_step(index: u32, drawn: u32, count: u32) -> Step
    ensures within { IsWithin count result }
    ensures left { left_at count result ≡ tree_left drawn index (count - index) ++ objects_left 0 count }
{
    if index < count {
        Step::Namespace { index, drawn }
    } else {
        role_step(0, count)
    }
}

/// The step of the Role at a place, or behind the last one the end.
#[tactic(auto, unfolding(crate::specs::Left::left_at))]
fn role_step(index: u32, count: u32) -> Step
    ensures within { IsWithin count result }
    ensures left { left_at count result ≡ objects_left index (count - index) }
{
    if index < count {
        Step::Role { index }
    } else {
        Step::End
    }
}
