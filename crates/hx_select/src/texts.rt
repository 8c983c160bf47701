// Texts in order.
ghost use Rattle.std.specs.Prelude.{◌≡◌, ◌||◌, ℕ, List, [], OnOk};
ghost use Rattle.std.specs.Str.{bytes_eq};
ghost use Rattle.hx_select.specs.Selectors.{is_among};

use hx_object::{NoMemory, Text};
use std::alloc::Global;
use std::collections::BTreeSet;
use std::marker::Model;

/// Texts in ascending order, each once, so that one is found in few steps.
///
/// Contracts see the list of the texts.
pub(crate) struct Texts {
    texts: BTreeSet<Text>,
}

impl Drop for Texts {
    fn drop(self) {
        let Texts { texts: _ } = self;
    }
}

impl Model for Texts {
    ghost use Rattle.std.specs.Prelude.{List, ℕ};

    ghost Value = { List (List ℕ) };

    ghost view = { λ t. t.texts.keys };
}

impl Texts {
    /// No texts.
    pub fn new(alloc: Global) -> Texts
        ensures { result ≡ [] }
    {
        Texts {
            texts: BTreeSet::new(alloc),
        }
    }

    pub fn contains(&self, text: &Text) -> bool
        ensures { result ≡ is_among text.now self.now }
    {
        self.texts.contains(text)
    }

    /// Adds a text, unless it is there.
    pub fn insert(&mut self, text: Text) -> Result<(), NoMemory>
        ensures { OnOk result ((q : List ℕ) → is_among q self.new ≡ (bytes_eq q text || is_among q self.old)) }
    {
        self.texts.insert(text)?;
        Ok(())
    }

    /// Adds copies of some texts.
    pub fn insert_all(&mut self, texts: &[Text]) -> Result<(), NoMemory>
        ensures { OnOk result ((q : List ℕ) → is_among q self.new ≡ (is_among q texts.now || is_among q self.old)) }
    {
        for text in texts {
            self.insert(text.clone()?)?;
        }
        Ok(())
    }
}
