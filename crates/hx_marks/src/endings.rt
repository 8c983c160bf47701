// Namespaces that writes put as on their way out.
ghost use Rattle.std.specs.Prelude.{◌≡◌, ◌++◌, ℕ, List, IfOk, OnOk, option_copied};
ghost use Rattle.hx_model.specs.Forest.{is_in};
ghost use Rattle.hx_marks.specs.Law.{begins_by, ending_name, ending_names, ends_following, follows};

use crate::kinds::begins_to_end;
use crate::name_set::NameSet;
use hx_forest::Forest;
use hx_model::is_terminating;
use hx_object::{Id, NoMemory, Object, Text};
use hx_state::object_in;
use hx_store::Change;
use std::alloc::Global;
use std::marker::Model;

/// The names of the namespaces that writes put as on their way out.
#[derive(Drop)]
pub(crate) struct Endings {
    names: NameSet,
}

impl Model for Endings {
    ghost use Rattle.std.specs.Prelude.{List, ℕ};

    ghost Value = { List (List ℕ) };

    ghost view = { λ e. e.names };
}

impl Endings {
    /// Those of some writes.
    pub(crate) fn of(alloc: Global, writes: &[Change]) -> Result<Endings, NoMemory>
        ensures { IfOk result (λ endings. (q : List ℕ) → is_in q endings ≡ is_in q (ending_names writes.now)) }
    {
        let mut endings = Vec::new(alloc);
        push_endings(&mut endings, writes)?;
        let names = NameSet::new(endings);
        Ok(Endings { names })
    }

    /// Whether a namespace is among them.
    fn has(&self, name: &Text) -> bool
        ensures { result ≡ is_in name.now self.now }
    {
        self.names.has(name)
    }

    /// Whether the parent of a namespace is another, and among them.
    fn lead(&self, forest: &Forest, name: &Text) -> bool
        ensures { result ≡ follows forest.now.nodes self.now name.now }
    {
        match forest.parent(name) {
            Some(parent) => parent.as_str() != name.as_str() && self.has(parent),
            None => false,
        }
    }

    /// Whether a namespace begins to leave, whose parent is another, and among them.
    pub(crate) fn lead_out(
        &self,
        forest: &Forest,
        id: &Id,
        old: Option<&Object>,
        new: Option<&Object>,
    ) -> bool
        ensures { result ≡ ends_following forest.now.nodes self.now id.now (option_copied old.entry) (option_copied new.entry) }
    {
        begins_by(old, new) && id.kind.is_namespace() && self.lead(forest, &id.name)
    }
}

/// Whether an object that stays is on its way out from now on.
fn begins_by(old: Option<&Object>, new: Option<&Object>) -> bool
    ensures { result ≡ begins_by (option_copied old.entry) (option_copied new.entry) }
{
    match (old, new) {
        (Some(old), Some(new)) => begins_to_end(old, new),
        _ => false,
    }
}

fn push_endings(names: &mut Vec<Text>, writes: &[Change]) -> Result<(), NoMemory>
    ensures { OnOk result (names.new.items ≡ names.old.items ++ ending_names writes.now) }
{
    for write in writes {
        push_ending(names, write)?;
    }
    Ok(())
}

/// Adds the name of the namespace that a write puts as on its way out.
fn push_ending(names: &mut Vec<Text>, write: &Change) -> Result<(), NoMemory>
    ensures { OnOk result (names.new.items ≡ names.old.items ++ ending_name write.now) }
{
    let new = object_in(write.object());
    if let Some(new) = new {
        if new.id.kind.is_namespace() && is_terminating(new) {
            names.push(new.id.name.clone()?)?;
        }
    }
    Ok(())
}
