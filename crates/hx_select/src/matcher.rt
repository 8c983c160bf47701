// Selectors that are asked of many objects.
ghost use Rattle.std.specs.Prelude.{◌≡◌, ◌&&◌, ℕ, List, true, false, IfOk, OnOk, MatchOption, Option, option_copied};
ghost use Rattle.std.specs.Map.{lookup, values_of};
ghost use Rattle.std.specs.Str.{bytes_eq};
ghost use Rattle.hx_select.specs.Matching.{AreDemandsOf, AreOrdered, are_met, asks, found, given, meets, meets_at, wanted};
ghost use Rattle.hx_select.specs.Selectors.{selects};

use crate::demand::Demand;
use crate::selector::{Requirement, Selector};
use hx_object::{NoMemory, Pairs, Text};
use std::alloc::Global;
use std::collections::BTreeMap;
use std::marker::Model;

/// A selector that is made ready to be asked of many objects: to ask it of one takes a few steps for each label, however many requirements it has.
///
/// Contracts see the selector.
pub struct Matcher {
    selector: Selector,
    /// What is asked of each key.
    demands: BTreeMap<Text, Demand>,
    /// How many keys have to be there.
    wanted: usize,
}

impl Drop for Matcher {
    fn drop(self) {
        let Matcher {
            selector: _,
            demands: _,
            wanted: _,
        } = self;
    }
}

impl Model for Matcher {
    ghost use Rattle.hx_select.specs.declared.selector.Selector.{Selector};
    ghost use Rattle.hx_select.specs.Matching.{IsReady};

    ghost Value = { Selector };

    ghost view = { λ m. m.selector };

    ghost invariant = { λ m. IsReady m.selector.needs m.demands.entries m.wanted };
}

impl Matcher {
    /// Makes a selector ready.
    pub fn of(alloc: Global, selector: Selector) -> Result<Matcher, NoMemory>
        ensures { IfOk result (λ matcher. matcher ≡ selector) }
    {
        let demands = demands_of(alloc, selector.needs.as_slice())?;
        let wanted = count_wanted(&demands);
        Ok(Matcher {
            selector,
            demands,
            wanted,
        })
    }

    /// Whether the selector holds for the labels.
    pub fn matches(&self, labels: &Pairs) -> bool
        ensures { result ≡ selects self.now labels.now }
    {
        if self.selector.needs.as_slice().is_empty() {
            return true;
        }
        match count_found(&self.demands, labels.as_slice()) {
            Some(found) => found == self.wanted,
            None => false,
        }
    }
}

/// What requirements ask, by their keys.
fn demands_of(alloc: Global, needs: &[Requirement]) -> Result<BTreeMap<Text, Demand>, NoMemory>
    ensures { IfOk result (λ demands. AreDemandsOf needs.now demands.entries) }
{
    let mut demands = BTreeMap::new(alloc);
    for need in needs {
        add_need(alloc, &mut demands, need)?;
    }
    Ok(demands)
}

/// Adds what a requirement asks.
fn add_need(
    alloc: Global,
    demands: &mut BTreeMap<Text, Demand>,
    need: &Requirement,
) -> Result<(), NoMemory>
    ensures { OnOk result ((key : List ℕ) (label : Option (List ℕ)) → meets_at demands.new.entries key label ≡ (meets_at demands.old.entries key label && asks need.now key label)) }
{
    let mut demand = taken(alloc, demands, &need.key);
    demand.add(alloc, &need.test)?;
    demands.insert(need.key.clone()?, demand)?;
    Ok(())
}

/// Takes out what is asked of a key.
fn taken(alloc: Global, demands: &mut BTreeMap<Text, Demand>, key: &Text) -> Demand
    ensures demand { (label : Option (List ℕ)) → meets result label ≡ meets_at demands.old.entries key.now label }
    ensures others { (other : List ℕ) → bytes_eq key.now other ≡ false → lookup (bytes_eq other) demands.new.entries ≡ lookup (bytes_eq other) demands.old.entries }
{
    match demands.remove(key) {
        Some(demand) => demand,
        None => Demand::new(alloc),
    }
}

/// How many keys have to be there.
fn count_wanted(demands: &BTreeMap<Text, Demand>) -> usize
    ensures wanted { result ≡ wanted (values_of demands.now.entries) }
    ensures order { AreOrdered demands.now.entries }
{
    let mut count = 0;
    for demand in demands.values() {
        if !demand.is_wanted {
            continue;
        }
        count += 1;
    }
    count
}

/// How many labels have a key that has to be there. `None` where one of them isn't as asked.
fn count_found(demands: &BTreeMap<Text, Demand>, labels: &[(Text, Text)]) -> Option<usize>
    ensures { MatchOption result (are_met demands.now.entries labels.now ≡ false) (λ count. (are_met demands.now.entries labels.now ≡ true) × (count ≡ found demands.now.entries labels.now)) }
{
    let mut count = 0;
    for label in labels {
        let Some(is_wanted) = given(demand_of(demands, &label.0), &label.1) else {
            return None;
        };
        if !is_wanted {
            continue;
        }
        count += 1;
    }
    Some(count)
}

/// What is asked of a key.
fn demand_of<'a>(demands: &'a BTreeMap<Text, Demand>, key: &Text) -> Option<&'a Demand>
    ensures { option_copied result ≡ lookup (bytes_eq key.now) demands.now.entries }
{
    demands.get(key)
}

/// Whether the key of a label has to be there. `None` where the value isn't as asked.
fn given(demand: Option<&Demand>, value: &Text) -> Option<bool>
    ensures { result ≡ given (option_copied demand.entry) value.now }
{
    match demand {
        None => Some(false),
        Some(demand) => demand.allows(value).then_some(demand.is_wanted),
    }
}
