// Names that are searched in order.
ghost use Rattle.std.specs.Prelude.{◌≡◌, ℕ, List, IfOk};
ghost use Rattle.hx_model.specs.Forest.{is_in};

use hx_forest::push_names;
use hx_object::{NoMemory, Text};
use std::alloc::Global;
use std::marker::Model;

/// Names in ascending order.
#[derive(Drop)]
pub(crate) struct NameSet {
    names: Vec<Text>,
}

impl Model for NameSet {
    ghost use Rattle.std.specs.Prelude.{List, ℕ};
    ghost use Rattle.std.specs.List.Sorted.{IsSorted};
    ghost use Rattle.hx_object.specs.Texts.{bytes_cmp};

    ghost Value = { List (List ℕ) };

    ghost view = { λ s. s.names.items };

    ghost invariant = { λ s. IsSorted bytes_cmp s.names.items };
}

impl NameSet {
    /// Puts names in order.
    pub(crate) fn new(names: Vec<Text>) -> NameSet
        ensures { (q : List ℕ) → is_in q result ≡ is_in q names.items }
    {
        let mut names = names;
        names.sort_unstable();
        NameSet { names }
    }

    /// The same of copies of some names.
    pub(crate) fn of(alloc: Global, names: &[Text]) -> Result<NameSet, NoMemory>
        ensures { IfOk result (λ set. (q : List ℕ) → is_in q set ≡ is_in q names.now) }
    {
        let mut copies = Vec::new(alloc);
        push_names(&mut copies, names)?;
        Ok(NameSet::new(copies))
    }

    /// Whether a name is among them.
    pub(crate) fn has(&self, name: &Text) -> bool
        ensures { result ≡ is_in name.now self.now }
    {
        self.names.as_slice().binary_search(name).is_ok()
    }
}
