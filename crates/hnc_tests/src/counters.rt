// Running sums of what quotas limit: each call once, over a namespace acme and its child team. The values were worked out by hand.
ghost use Rattle.std.specs.Prelude.{◌≡◌, IfOk, OnOk};
ghost use Rattle.hnc_tests.specs.Counting.{acme, team, roots, joined, charged, ringed, cleared};

use hx_model::Resource;
use hx_object::{Limit, List, NoMemory, Text};
use hx_quota::{Counters, Delta, Over, QuotaRow};
use std::alloc::Global;
use std::hash::RandomState;
use std::test::Fail;

fn acme(alloc: Global) -> Result<Text, NoMemory>
    ensures { IfOk result (λ t. t ≡ acme) }
{
    Text::of(alloc, "acme")
}

fn team(alloc: Global) -> Result<Text, NoMemory>
    ensures { IfOk result (λ t. t ≡ team) }
{
    Text::of(alloc, "team")
}

/// Both namespaces, without parents and with nothing.
fn roots(alloc: Global, keys: RandomState) -> Result<Counters, NoMemory>
    ensures { IfOk result (λ c. c.entries ≡ roots) }
{
    let mut counters = Counters::new(alloc, keys);
    counters.reserve(2)?;
    counters.add(acme(alloc)?);
    counters.add(team(alloc)?);
    Ok(counters)
}

/// Puts team under acme.
fn join(alloc: Global, counters: &mut Counters) -> Result<(), NoMemory>
    requires { counters.old.entries ≡ roots }
    ensures { OnOk result (counters.new.entries ≡ joined) }
{
    let team = team(alloc)?;
    let parent = acme(alloc)?;
    let chain = [acme(alloc)?];
    counters.move_subtree(&team, Some(parent), &[], &chain);
    Ok(())
}

/// Charges team for a Pod.
fn charge(alloc: Global, counters: &mut Counters) -> Result<(), NoMemory>
    requires { counters.old.entries ≡ joined }
    ensures { OnOk result (counters.new.entries ≡ charged) }
{
    let chain = [team(alloc)?, acme(alloc)?];
    counters.shift(
        &chain,
        &[Delta {
            resource: Resource::Pods,
            old: 0,
            new: 1000,
        }],
    );
    Ok(())
}

/// Puts acme under team, which makes a cycle.
fn close(alloc: Global, counters: &mut Counters) -> Result<(), NoMemory>
    requires { counters.old.entries ≡ charged }
    ensures { OnOk result (counters.new.entries ≡ ringed) }
{
    let acme = acme(alloc)?;
    let parent = team(alloc)?;
    let chain = [team(alloc)?, self::acme(alloc)?];
    counters.move_subtree(&acme, Some(parent), &[], &chain);
    Ok(())
}

/// Takes both apart, and the Pod away.
fn clear(alloc: Global, counters: &mut Counters) -> Result<(), NoMemory>
    requires { counters.old.entries ≡ ringed }
    ensures { OnOk result (counters.new.entries ≡ cleared) }
{
    let acme = acme(alloc)?;
    let team = team(alloc)?;
    let above_acme = [self::team(alloc)?];
    let above_team = [self::acme(alloc)?];
    let chain = [self::team(alloc)?];
    counters.move_subtree(&acme, None, &above_acme, &[]);
    counters.move_subtree(&team, None, &above_team, &[]);
    counters.shift(
        &chain,
        &[Delta {
            resource: Resource::Pods,
            old: 1000,
            new: 0,
        }],
    );
    Ok(())
}

/// Takes team out.
fn leave(alloc: Global, counters: &mut Counters) -> Result<(), NoMemory>
    requires { counters.old.entries ≡ cleared }
{
    let team = team(alloc)?;
    counters.remove(&team);
    Ok(())
}

/// The Pods that are used in acme and in team.
fn used(alloc: Global, counters: &Counters) -> Result<(u128, u128), NoMemory> {
    let acme = acme(alloc)?;
    let team = team(alloc)?;
    Ok((
        counters.used(&acme, Resource::Pods),
        counters.used(&team, Resource::Pods),
    ))
}

/// A quota on Pods.
fn quota(alloc: Global, ns: Text, amount: u64) -> Result<QuotaRow, NoMemory> {
    let limit = Limit {
        resource: Text::of(alloc, "pods")?,
        written: Text::of(alloc, "")?,
        amount,
    };
    Ok(QuotaRow {
        ns,
        name: Text::of(alloc, "q")?,
        hard: List::of(Vec::from_array(alloc, [limit])?),
    })
}

/// What two Pods more in team would exceed, where team may have 3 and acme so many thousandths.
fn over(alloc: Global, counters: &Counters, amount: u64) -> Result<Option<Over>, NoMemory> {
    let quotas = [
        quota(alloc, team(alloc)?, 3000)?,
        quota(alloc, acme(alloc)?, amount)?,
    ];
    let delta = Delta {
        resource: Resource::Pods,
        old: 1000,
        new: 3000,
    };
    Ok(counters.first_over(&quotas, &[delta]))
}

#[test]
fn sums_follow_shifts_and_moves(rt: HostRuntime) -> Result<(), Fail> {
    let alloc = rt.alloc();
    let mut counters = roots(alloc, RandomState::new(&rt)?)?;
    join(alloc, &mut counters)?;
    charge(alloc, &mut counters)?;
    let charged = used(alloc, &counters)?;
    let within = over(alloc, &counters, 3000)?;
    let above = over(alloc, &counters, 2999)?;
    close(alloc, &mut counters)?;
    let ringed = used(alloc, &counters)?;
    clear(alloc, &mut counters)?;
    let cleared = used(alloc, &counters)?;
    leave(alloc, &mut counters)?;
    let left = used(alloc, &counters)?;
    let expected = Over {
        at: 1,
        limit: 0,
        used: 1000,
        asked: 2000,
        hard: 2999,
    };
    assert!(rt; charged == (1000, 1000) && within == None && above == Some(expected));
    assert!(rt; ringed == (1000, 1000) && cleared == (0, 0) && left == (0, 0));
    Ok(())
}
