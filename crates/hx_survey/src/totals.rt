// What all subtrees are charged for a resource, found together.
ghost use Rattle.std.specs.Prelude.{◌≡◌, ◌+◌, [], true, length, replicate, IfOk, IfSome, OnOk, slice_index_or, slice_set, sum_by};
ghost use Rattle.hx_model.specs.Quotas.{charge_below};
ghost use Rattle.hx_model.specs.State.{ascends};
ghost use Rattle.hx_survey.specs.Inside.{ups_of};
ghost use Rattle.hx_survey.specs.Seams.{AreCuts, AreSeams};
ghost use Rattle.hx_survey.specs.Sums.{AreSums, AreTotals, AreWays, IsOrder, IsTotal, passed_on, sum_of};

use crate::order::bottom_up;
use crate::seams::{cuts_of, seams_of, shared_at};
use crate::search::{Sought, run_of};
use crate::tree::Tree;
use crate::usage::{added, charge_in};
use crate::walks::up_from;
use hx_charge::hard_of;
use hx_model::Resource;
use hx_object::{Kind, Limit, NoMemory, Shared, Text};
use std::alloc::Global;

/// What the subtree of each namespace is charged for a resource, in thousandths, by the place of the namespace.
pub(crate) struct Total {
    resource: Resource,
    sums: Vec<u128>,
}

impl Drop for Total {
    fn drop(self) {
        let Total {
            resource: _,
            sums: _,
        } = self;
    }
}

/// What is noted of resources.
pub(crate) struct Totals {
    /// For each place the least one of the ring that it is in: all of a ring have the sum of that one.
    seams: Vec<Option<usize>>,
    each: Vec<Total>,
}

impl Drop for Totals {
    fn drop(self) {
        let Totals { seams: _, each: _ } = self;
    }
}

/// How sums go up: by parents, except where a ring is cut open at its least place, and in an order of the places.
#[derive(Drop)]
struct Ways<'a> {
    seams: &'a [Option<usize>],
    cuts: &'a [Option<usize>],
    order: &'a [usize],
}

/// Nothing that is noted.
pub(crate) fn no_totals(alloc: Global) -> Totals
    ensures seams { result.seams.items ≡ [] }
    ensures each { result.each.items ≡ [] }
{
    Totals {
        seams: Vec::new(alloc),
        each: Vec::new(alloc),
    }
}

/// What subtrees are charged for each resource that a quota limits.
pub(crate) fn totals_of(tree: &Tree, objects: &[Shared]) -> Result<Totals, NoMemory>
    requires { ascends objects.now ≡ true }
    ensures { IfOk result (λ totals. AreTotals objects.now tree.now totals.seams.items totals.each.items) }
{
    let ups = tree.ups();
    let seams = seams_of(tree.allocator(), ups)?;
    let cuts = cuts_of(tree.allocator(), ups, &seams)?;
    let order = bottom_up(tree.allocator(), &cuts)?;
    let each = each_of(tree, &seams, &cuts, order, objects)?;
    Ok(Totals { seams, each })
}

/// The same of each resource, where an order is found: without one it is noted of none.
fn each_of(
    tree: &Tree,
    seams: &[Option<usize>],
    cuts: &[Option<usize>],
    order: Option<Vec<usize>>,
    objects: &[Shared],
) -> Result<Vec<Total>, NoMemory>
    requires objects { ascends objects.now ≡ true }
    requires seams { AreSeams (ups_of tree.now) seams.now }
    requires cuts { AreCuts (ups_of tree.now) seams.now cuts.now }
    requires order { IfSome order (λ places. IsOrder cuts.now places.items) }
    ensures { IfOk result (λ each. AreTotals objects.now tree.now seams.now each.items) }
{
    let mut each = Vec::new(tree.allocator());
    let Some(places) = order else {
        return Ok(each);
    };
    let ways = Ways {
        seams,
        cuts,
        order: &places,
    };
    let quotas = run_of(objects, Sought::OfKind(Kind::HierarchicalResourceQuota));
    push_quotas(tree, &ways, objects, quotas, &mut each)?;
    Ok(each)
}

/// Adds those of the resources that some quotas limit.
fn push_quotas(
    tree: &Tree,
    ways: &Ways,
    objects: &[Shared],
    quotas: &[Shared],
    each: &mut Vec<Total>,
) -> Result<(), NoMemory>
    requires objects { ascends objects.now ≡ true }
    requires ways { AreWays (ups_of tree.now) ways.now }
    requires each { AreTotals objects.now tree.now ways.now.seams.now each.old.items }
    ensures { OnOk result (AreTotals objects.now tree.now ways.now.seams.now each.new.items) }
{
    for quota in quotas {
        push_limits(tree, ways, objects, hard_of(&quota.object().payload), each)?;
    }
    Ok(())
}

/// Adds those of the resources of some limits.
fn push_limits(
    tree: &Tree,
    ways: &Ways,
    objects: &[Shared],
    limits: &[Limit],
    each: &mut Vec<Total>,
) -> Result<(), NoMemory>
    requires objects { ascends objects.now ≡ true }
    requires ways { AreWays (ups_of tree.now) ways.now }
    requires each { AreTotals objects.now tree.now ways.now.seams.now each.old.items }
    ensures { OnOk result (AreTotals objects.now tree.now ways.now.seams.now each.new.items) }
{
    for limit in limits {
        if let Some(resource) = new_resource(each.as_slice(), limit) {
            let total = total_of(tree, ways, objects, resource)?;
            each.push(total)?;
        }
    }
    Ok(())
}

/// The resource of a limit, unless it is noted already.
fn new_resource(totals: &[Total], limit: &Limit) -> Option<Resource> {
    let resource = Resource::of_name(limit.resource.as_str())?;
    for total in totals {
        if total.resource == resource {
            return None;
        }
    }
    Some(resource)
}

/// What subtrees are charged for a resource.
fn total_of(
    tree: &Tree,
    ways: &Ways,
    objects: &[Shared],
    resource: Resource,
) -> Result<Total, NoMemory>
    requires objects { ascends objects.now ≡ true }
    requires ways { AreWays (ups_of tree.now) ways.now }
    ensures { IfOk result (λ total. IsTotal objects.now tree.now ways.now.seams.now total) }
{
    let sums = sums_of(tree, ways, objects, resource)?;
    Ok(Total { resource, sums })
}

/// What subtrees are charged: each namespace begins with what lies in it, and passes its sum on to its parent once those below it have passed on theirs.
fn sums_of(
    tree: &Tree,
    ways: &Ways,
    objects: &[Shared],
    resource: Resource,
) -> Result<Vec<u128>, NoMemory>
    requires objects { ascends objects.now ≡ true }
    requires ways { AreWays (ups_of tree.now) ways.now }
    ensures { IfOk result (λ sums. AreSums objects.now tree.now resource ways.now.seams.now sums.items) }
{
    let nodes = tree.nodes();
    let mut sums = no_sums(tree.allocator(), ways.cuts)?;
    for (place, entry) in nodes.iter().enumerate() {
        add(&mut sums, place, charge_in(objects, &entry.0, resource)?)?;
    }
    for lowest in ways.order {
        pass_on(ways.cuts, *lowest, &mut sums)?;
    }
    Ok(sums)
}

/// A sum for each place, all of which are 0.
fn no_sums(alloc: Global, ups: &[Option<usize>]) -> Result<Vec<u128>, NoMemory>
    ensures { IfOk result (λ sums. sums.items ≡ replicate (length ups.now) 0) }
{
    Ok(vec![in alloc; 0; ups.len()]?)
}

/// Adds the sum of one to that of its parent.
fn pass_on(ups: &[Option<usize>], place: usize, sums: &mut Vec<u128>) -> Result<(), NoMemory>
    ensures { OnOk result (sums.new.items ≡ passed_on ups.now place sums.old.items) }
{
    match up_from(ups, place) {
        Some(up) => {
            let sum = sum_at(sums.as_slice(), place);
            add(sums, up, sum)
        }
        None => Ok(()),
    }
}

/// Adds an amount to the sum of one that is there.
fn add(sums: &mut Vec<u128>, place: usize, amount: u128) -> Result<(), NoMemory>
    ensures { OnOk result (sums.new.items ≡ slice_set sums.old.items place (slice_index_or sums.old.items place 0 + amount)) }
{
    if place < sums.len() {
        sums[place] = added(sums[place], amount)?;
    }
    Ok(())
}

/// The sum of one, and 0 where it isn't there.
fn sum_at(sums: &[u128], place: usize) -> u128
    ensures { result ≡ slice_index_or sums.now place 0 }
{
    match sums.get(place) {
        Some(sum) => *sum,
        None => 0,
    }
}

/// What a subtree is charged for a resource, where it is noted.
pub(crate) fn noted(
    tree: &Tree,
    objects: &[Shared],
    totals: &Totals,
    ns: &Text,
    resource: Resource,
) -> Option<u128>
    requires { AreTotals objects.now tree.now totals.now.seams.items totals.now.each.items }
    ensures { IfSome result (λ sum. sum ≡ sum_by (charge_below tree.now ns.now resource) objects.now) }
{
    let _objects = objects;
    for total in &totals.each {
        if total.resource == resource {
            return Some(sum_of(tree, &totals.seams, &total.sums, ns));
        }
    }
    None
}

/// The sum of a name.
fn sum_of(tree: &Tree, seams: &[Option<usize>], sums: &[u128], ns: &Text) -> u128
    ensures { result ≡ sum_of tree.now seams.now sums.now ns.now }
{
    match tree.place(ns) {
        Some(place) => sum_at(sums, shared_at(seams, place)),
        None => 0,
    }
}
