// What all requirements of one key ask.
ghost use Rattle.std.specs.Prelude.{◌≡◌, ◌&&◌, ℕ, List, true, Some, IfOk, OnOk, Option};
ghost use Rattle.hx_select.specs.Matching.{is_allowed, meets};
ghost use Rattle.hx_select.specs.Selectors.{holds_for, is_among};

use crate::selector::Test;
use crate::texts::Texts;
use hx_object::{NoMemory, Text};
use std::alloc::Global;

/// What all requirements of one key ask of its label.
pub(crate) struct Demand {
    /// Whether the label has to be there.
    pub is_wanted: bool,
    /// The values that it may have, where they are limited.
    pub allowed: Option<Texts>,
    /// Values that it may not have.
    pub excluded: Texts,
}

impl Drop for Demand {
    fn drop(self) {
        let Demand {
            is_wanted: _,
            allowed: _,
            excluded: _,
        } = self;
    }
}

impl Demand {
    /// Nothing is asked.
    pub fn new(alloc: Global) -> Demand
        ensures { (label : Option (List ℕ)) → meets result label ≡ true }
    {
        Demand {
            is_wanted: false,
            allowed: None,
            excluded: Texts::new(alloc),
        }
    }

    /// Asks for one thing more. Where no memory is left, it may ask less than before.
    pub fn add(&mut self, alloc: Global, test: &Test) -> Result<(), NoMemory>
        ensures { OnOk result ((label : Option (List ℕ)) → meets self.new label ≡ (meets self.old label && holds_for test.now label)) }
    {
        match test {
            Test::There => self.is_wanted = true,
            Test::Absent => self.allowed = Some(Texts::new(alloc)),
            Test::In(values) => {
                self.allowed = Some(common(alloc, &self.allowed, values.as_slice())?);
                self.is_wanted = true;
            }
            Test::NotIn(values) => self.excluded.insert_all(values.as_slice())?,
        }
        Ok(())
    }

    /// Whether a label with the value is as asked.
    pub fn allows(&self, value: &Text) -> bool
        ensures { result ≡ meets self.now (Some value.now) }
    {
        is_allowed(&self.allowed, value) && !self.excluded.contains(value)
    }
}

/// Those of the values that are allowed.
fn common(alloc: Global, allowed: &Option<Texts>, values: &[Text]) -> Result<Texts, NoMemory>
    ensures { IfOk result (λ texts. (q : List ℕ) → is_among q texts ≡ (is_allowed allowed.now q && is_among q values.now)) }
{
    let mut texts = Texts::new(alloc);
    for value in values {
        if !is_allowed(allowed, value) {
            continue;
        }
        texts.insert(value.clone()?)?;
    }
    Ok(texts)
}

/// Whether a value is among those that are allowed, where they are limited.
fn is_allowed(allowed: &Option<Texts>, value: &Text) -> bool
    ensures { result ≡ is_allowed allowed.now value.now }
{
    match allowed {
        Some(texts) => texts.contains(value),
        None => true,
    }
}
