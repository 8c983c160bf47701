// Which namespaces below one take part whenever it does, found from parents to children.
ghost use Rattle.std.specs.Prelude.{◌≡◌, ◌++◌, ℕ, List, Some, None, cond, IfOk, IfSome, OnOk, filter, option_copied};
ghost use Rattle.std.specs.List.{list_all};
ghost use Rattle.std.specs.Str.{bytes_eq};
ghost use Rattle.hx_model.specs.Forest.{chain_of};
ghost use Rattle.hx_model.specs.Moves.{up_to, is_eligible};
ghost use Rattle.hx_marks.specs.Links.{AreLive, IsFoundBy, IsLiveAt, live_at};

use hx_forest::{Ancestors, Forest};
use hx_object::{NoMemory, Text};
use std::alloc::Global;
use std::collections::BTreeMap;

/// Whether all from a namespace up to the top of a subtree are there, not on their way out, and included: by its name, as far as that is known.
#[derive(Drop)]
pub(crate) struct Live {
    known: BTreeMap<Text, bool>,
}

impl Live {
    /// What is known once these are gone over, parents first.
    pub(crate) fn below(
        alloc: Global,
        forest: &Forest,
        top: &Text,
        order: &[Text],
    ) -> Result<Live, NoMemory>
        ensures { IfOk result (λ live. AreLive forest.now.nodes top.now live) }
    {
        let mut live = Live::new(alloc);
        let Some(_node) = forest.node(top) else {
            return Ok(live);
        };
        live.put(top, true)?;
        live.fill(forest, top, order)?;
        Ok(live)
    }

    fn new(alloc: Global) -> Live
        ensures { (q : List ℕ) → live_at result q ≡ None }
    {
        Live {
            known: BTreeMap::new(alloc),
        }
    }

    /// Adds what follows of these, one after the other.
    fn fill(&mut self, forest: &Forest, top: &Text, order: &[Text]) -> Result<(), NoMemory>
        requires { AreLive forest.now.nodes top.now self.old }
        ensures { OnOk result (AreLive forest.now.nodes top.now self.new) }
    {
        for member in order {
            let Some(is_live) = self.step(forest, top, member) else {
                continue;
            };
            self.put(member, is_live)?;
        }
        Ok(())
    }

    /// Whether all from a namespace up to the top are eligible, where that is known of its parent.
    fn step(&self, forest: &Forest, top: &Text, member: &Text) -> Option<bool>
        requires { AreLive forest.now.nodes top.now self.now }
        ensures { IfSome result (λ b. IsLiveAt forest.now.nodes top.now member.now b) }
    {
        match self.above(forest, top, member) {
            Some(above) => Some(forest.is_eligible(member) && *above),
            None => None,
        }
    }

    /// What is known of the parent of a namespace other than the top.
    fn above(&self, forest: &Forest, top: &Text, member: &Text) -> Option<&bool>
        ensures { IfSome result (λ b. IsFoundBy forest.now.nodes top.now member.now (live_at self.now) b.now) }
    {
        if member.as_str() == top.as_str() {
            return None;
        }
        match forest.parent(member) {
            Some(parent) => self.of(parent),
            None => None,
        }
    }

    /// What is known of a namespace.
    fn of(&self, name: &Text) -> Option<&bool>
        ensures { option_copied result ≡ live_at self.now name.now }
    {
        self.known.get(name)
    }

    fn put(&mut self, name: &Text, is_live: bool) -> Result<(), NoMemory>
        ensures { OnOk result ((q : List ℕ) → live_at self.new q ≡ cond (bytes_eq name.now q) (Some is_live) (live_at self.old q)) }
    {
        self.known.insert(name.clone()?, is_live)?;
        Ok(())
    }

    /// Whether all from a namespace up to the top are eligible. Where it isn't known, all are gone over.
    fn has(&self, forest: &Forest, top: &Text, member: &Text) -> bool
        requires { AreLive forest.now.nodes top.now self.now }
        ensures { result ≡ list_all (is_eligible forest.now.nodes) (up_to top.now (chain_of forest.now.nodes member.now)) }
    {
        match self.of(member) {
            Some(is_live) => *is_live,
            None => are_eligible_up_to(forest, top, forest.ancestors(member)),
        }
    }

    /// Adds those of some namespaces of which all up to the top are eligible.
    pub(crate) fn push_live(
        &self,
        list: &mut Vec<Text>,
        forest: &Forest,
        top: &Text,
        members: &[Text],
    ) -> Result<(), NoMemory>
        requires { AreLive forest.now.nodes top.now self.now }
        ensures { OnOk result (list.new.items ≡ list.old.items ++ filter (λ m. list_all (is_eligible forest.now.nodes) (up_to top.now (chain_of forest.now.nodes m))) members.now) }
    {
        for member in members {
            if !self.has(forest, top, member) {
                continue;
            }
            list.push(member.clone()?)?;
        }
        Ok(())
    }
}

/// Whether all before a namespace are eligible.
fn are_eligible_up_to(forest: &Forest, name: &Text, members: Ancestors) -> bool
    ensures { result ≡ list_all (is_eligible forest.now.nodes) (up_to name.now members.entry) }
{
    for member in members {
        if name.as_str() == member.as_str() {
            return true;
        }
        if !forest.is_eligible(member) {
            return false;
        }
    }
    true
}
