// Label selectors.
ghost use Rattle.std.specs.Prelude.{◌≡◌, ◌⊎◌, IfErr, IfOk, Ok, Err, option_copied};
ghost use Rattle.hx_select.specs.Selectors.{everything, holds_for, is_among, selector_of, selects};

use crate::grammar::requirements;
use hx_object::{List, NoMemory, Pairs, Text};
use std::alloc::{AllocFailed, Global};

/// What labels have to be: all the requirements hold. Without a requirement it always holds.
pub struct Selector {
    pub needs: List<Requirement>,
}

impl Drop for Selector {
    fn drop(self) {
        let Selector { needs: _ } = self;
    }
}

/// What the label of one key has to be.
pub struct Requirement {
    pub key: Text,
    pub test: Test,
}

impl Drop for Requirement {
    fn drop(self) {
        let Requirement { key: _, test: _ } = self;
    }
}

/// What is asked of a label.
pub enum Test {
    /// It is there, whatever its value.
    There,
    /// It isn't there.
    Absent,
    /// It is there with one of the values. `=` and `==` ask for one value.
    In(List<Text>),
    /// It isn't there, or has none of the values. `!=` excludes one value.
    NotIn(List<Text>),
}

impl Drop for Test {
    fn drop(self) {
        match self {
            Test::There => {}
            Test::Absent => {}
            Test::In(_) => {}
            Test::NotIn(_) => {}
        }
    }
}

/// Why a text isn't read as a selector. A place is the number of bytes before it.
#[derive(Clone, Copy)]
pub enum SelectFault {
    /// The token at the place can't stand there; at the end of the text more has to come.
    Syntax { at: usize },
    /// The word at the place isn't the key of a label.
    BadKey { at: usize },
    /// The word at the place isn't the value of a label.
    BadValue { at: usize },
    /// No memory was left.
    NoMemory,
}

impl From<NoMemory> for SelectFault {
    ghost use Rattle.hx_select.specs.declared.selector.SelectFault.{SelectFault};

    ghost from_gives = { λ _ fault. fault ≡ SelectFault.NoMemory };

    fn from(_: NoMemory) -> Self {
        SelectFault::NoMemory
    }
}

impl<T: Drop> From<AllocFailed<T>> for SelectFault {
    ghost use Rattle.hx_select.specs.declared.selector.SelectFault.{SelectFault};

    ghost from_gives = { λ _ fault. fault ≡ SelectFault.NoMemory };

    fn from(_: AllocFailed<T>) -> Self {
        SelectFault::NoMemory
    }
}

impl Selector {
    /// Reads requirements that are joined by commas: `key`, `!key`, `key=value`, `key==value`, `key!=value`, `key in (value,value)` and `key notin (value,value)`.
    ///
    /// Spaces may stand around each sign and word. A value may be empty. A text without a requirement is the selector that always holds.
    /// The signs `<` and `>` of Kubernetes' node selectors aren't taken.
    #[tactic(auto, unfolding(crate::specs::Selectors::selector_of))]
    pub fn read(alloc: Global, text: &str) -> Result<Selector, SelectFault>
        ensures ok { IfOk result (λ selector. selector_of text.now ≡ Ok selector) }
        ensures fault { IfErr result (λ fault. (fault ≡ SelectFault.NoMemory) ⊎ (selector_of text.now ≡ Err fault)) }
    {
        let needs = requirements(alloc, text)?;
        Ok(Selector { needs })
    }

    /// The selector that always holds.
    pub fn everything(alloc: Global) -> Selector
        ensures { result ≡ everything }
    {
        Selector {
            needs: List::of(Vec::new(alloc)),
        }
    }

    /// Whether it holds for the labels. Asked of many, a [`Matcher`](crate::Matcher) of it is quicker.
    pub fn matches(&self, labels: &Pairs) -> bool
        ensures { result ≡ selects self.now labels.now }
    {
        for need in self.needs.as_slice() {
            if !need.test.holds_for(labels.get(need.key.as_str())) {
                return false;
            }
        }
        true
    }
}

impl Test {
    /// Whether the value of a label passes, if the label is there.
    fn holds_for(&self, label: Option<&Text>) -> bool
        ensures { result ≡ holds_for self.now (option_copied label.entry) }
    {
        match self {
            Test::There => label.is_some(),
            Test::Absent => label.is_none(),
            Test::In(values) => match label {
                Some(value) => is_among(value, values),
                None => false,
            },
            Test::NotIn(values) => match label {
                Some(value) => !is_among(value, values),
                None => true,
            },
        }
    }
}

fn is_among(value: &Text, values: &List<Text>) -> bool
    ensures { result ≡ is_among value.now values.now }
{
    for other in values.as_slice() {
        if value == other {
            return true;
        }
    }
    false
}
