// ParentRefs down, by the children of each name.
ghost use Rattle.std.specs.Prelude.{◌≡◌, ◌+◌, ◌-◌, ◌++◌, true, false, not, filter, IfOk, IfSome, OnOk, option_copied};
ghost use Rattle.std.specs.Str.{bytes_eq};
ghost use Rattle.hx_model.specs.Forest.{is_there, in_chain, subtree_of, reaches_deeper, with_parent};
ghost use Rattle.hx_model.specs.Walks.{length_from};
ghost use Rattle.hx_forest.specs.Inside.{goes_deeper};

use crate::forest::Forest;
use hx_object::{NoMemory, Text};

impl Forest {
    /// The namespaces whose chain has this one, in ascending order.
    pub fn below(&self, name: &Text) -> Result<Vec<Text>, NoMemory>
        ensures { IfOk result (λ names. names.items ≡ subtree_of self.now.nodes name.now) }
    {
        let mut names = Vec::new(self.nodes.allocator());
        let Some(_node) = self.node(name) else {
            return Ok(names);
        };
        names.push(name.clone()?)?;
        let mut at = 0;
        while at < names.len() {
            let children = self.children(&names[at]);
            push_others(&mut names, children, name)?;
            at += 1;
        }
        names.sort_unstable();
        Ok(names)
    }

    /// Whether a namespace of the subtree would be at a depth over `most` if this one had that parent. It calls itself at most `most` deep.
    pub fn reaches_deeper(&self, name: &Text, parent: Option<&Text>, most: usize) -> bool
        requires there { is_there self.now.nodes name.now ≡ true }
        requires apart { IfSome (option_copied parent) (λ p. in_chain self.now.nodes p name.now ≡ false) }
        ensures { result ≡ reaches_deeper most (with_parent name.now (option_copied parent.entry) self.now.nodes) name.now }
    {
        let base = self.len_from(parent);
        base > most || self.goes_deeper(name, name, most - base)
    }

    /// How many members the chain of a parent has: 0 for none, and for one that isn't there.
    fn len_from(&self, parent: Option<&Text>) -> usize
        ensures { result ≡ length_from self.now.nodes (option_copied parent.entry) }
    {
        match parent {
            Some(parent) => self.chain_len(parent),
            None => 0,
        }
    }

    /// Whether the way down from a name goes on for more than `left` steps, where it doesn't come back to `top`.
    fn goes_deeper(&self, name: &Text, top: &Text, left: usize) -> bool
        ensures { result ≡ goes_deeper left self.now.nodes top.now name.now }
    {
        for child in self.children(name) {
            if child.as_str() == top.as_str() {
                continue;
            }
            if left == 0 || self.goes_deeper(child, top, left - 1) {
                return true;
            }
        }
        false
    }
}

/// Adds copies of the children, but for one that the way down has come from.
fn push_others(names: &mut Vec<Text>, children: &[Text], top: &Text) -> Result<(), NoMemory>
    ensures { OnOk result (names.new.items ≡ names.old.items ++ filter (λ m. not (bytes_eq m top.now)) children.now) }
{
    for child in children {
        if child.as_str() != top.as_str() {
            names.push(child.clone()?)?;
        }
    }
    Ok(())
}
