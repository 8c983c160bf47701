// The write of what a quota tells is used of its limits.
ghost use Rattle.std.specs.Prelude.{◌≡◌, ◌<◌, ◌^◌, ◌↔◌, IfOk, IsTrue, Some};
ghost use Rattle.std.specs.List.{AllByRecursion};
ghost use Rattle.hx_model.specs.Wanted.{placed, usages, with_sums};

use hx_model::Write;
use hx_object::{Limit, List, NoMemory, Object, Payload, Usage};
use std::alloc::Global;

/// The write of a quota: beside each limit it tells the sum of what is used. It is copied only where it is written.
pub(crate) fn wanted_usages(
    alloc: Global,
    quota: &Object,
    sums: &[u128],
) -> Result<Option<Write>, NoMemory>
    ensures { IfOk result (λ write. write ≡ placed (with_sums sums.now quota.now) (Some quota.now)) }
{
    let Payload::Quota { hard, status } = &quota.payload else {
        return Ok(None);
    };
    let told = List::of(usages(alloc, hard.as_slice(), sums)?);
    if is_same(status, &told) {
        return Ok(None);
    }
    Ok(Some(Write::Put(Object {
        id: quota.id.clone()?,
        labels: quota.labels.clone()?,
        annotations: quota.annotations.clone()?,
        payload: Payload::Quota {
            hard: hard.clone()?,
            status: told,
        },
        version: 0,
    })))
}

/// Limits beside what is used of each.
fn usages(alloc: Global, hard: &[Limit], sums: &[u128]) -> Result<Vec<Usage>, NoMemory>
    ensures { IfOk result (λ told. told.items ≡ usages hard.now sums.now) }
{
    let mut told = Vec::new(alloc);
    for (index, limit) in hard.iter().enumerate() {
        let Some(sum) = sums.get(index) else {
            return Ok(told);
        };
        told.push(usage(limit, *sum)?)?;
    }
    Ok(told)
}

/// A limit beside what is used of it.
fn usage(limit: &Limit, sum: u128) -> Result<Usage, NoMemory>
    ensures { IfOk result (λ usage. usage ≡ record { resource = limit.now.resource; hard = limit.now.amount; used = sum }) }
{
    Ok(Usage {
        resource: limit.resource.clone()?,
        hard: limit.amount,
        used: sum,
    })
}

fn is_same(a: &List<Usage>, b: &List<Usage>) -> bool
    ensures { IsTrue result ↔ (a.now ≡ b.now) }
{
    a == b
}

/// A theorem, not to be called for what it does: a sum fits 128 bits.
pub fn law_of_sums(sums: &[u128])
    ensures { AllByRecursion (λ sum. sum < 2 ^ 128) sums.now }
{
    for sum in sums {
        let _sum = *sum;
    }
}
