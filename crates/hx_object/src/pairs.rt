// Labels and annotations.
ghost use Rattle.std.specs.Prelude.{◌≡◌, ◌↔◌, IsTrue, OnErr, OnOk, option_copied, [], is_ok, length, take_while, if◌then◌else◌};
ghost use Rattle.std.specs.Ordering.{is_gt};
ghost use Rattle.std.specs.Cmp.Lexicographic.{pointwise};
ghost use Rattle.hx_object.specs.Pairs.{has_ascending_keys, value_of, with_pair, same_pair, same_pairs_law, same_pairs_partial};
ghost use Rattle.hx_object.specs.Texts.{bytes_cmp};

use crate::{NoMemory, Text};
use std::alloc::{AllocError, Global};
use std::marker::Model;

/// Labels or annotations: pairs of a key and a value, in ascending order of keys by their bytes, each key once.
///
/// Contracts see the list of the pairs.
pub struct Pairs {
    items: Vec<(Text, Text)>,
}

impl Drop for Pairs {
    fn drop(self) {
        let Pairs { items: _ } = self;
    }
}

impl Model for Pairs {
    ghost use Rattle.std.specs.Prelude.{◌≡◌, List, ℕ, true};
    ghost use Rattle.hx_object.specs.Pairs.{has_ascending_keys};

    ghost Value = { List (List ℕ × List ℕ) };

    ghost view = { λ p. p.items.items };

    ghost invariant = { λ p. has_ascending_keys p.items.items ≡ true };
}

impl Pairs {
    /// No pairs.
    pub fn new(alloc: Global) -> Pairs
        ensures { result ≡ [] }
    {
        Pairs {
            items: Vec::new(alloc),
        }
    }

    /// The pairs of a vector that is in order.
    pub fn of(items: Vec<(Text, Text)>) -> Pairs
        requires { IsTrue (has_ascending_keys items.items) }
        ensures { result ≡ items.items }
    {
        Pairs { items }
    }

    /// Whether pairs are in order.
    pub fn has_ascending_keys(items: &[(Text, Text)]) -> bool
        ensures { result ≡ has_ascending_keys items.now }
    {
        for i in 1..items.len() {
            if items[i - 1].0 >= items[i].0 {
                return false;
            }
        }
        true
    }

    /// The pairs in order.
    pub fn as_slice(&self) -> &[(Text, Text)]
        ensures pairs { result.now ≡ self.now }
        ensures ascends { IsTrue (has_ascending_keys self.now) }
    {
        self.items.as_slice()
    }

    /// The value of a key.
    pub fn get(&self, key: &str) -> Option<&Text>
        ensures { option_copied result ≡ value_of self.now key.now }
    {
        value_in(self.items.as_slice(), key)
    }

    /// Puts a value for a key, in its place among the keys. Where the key is there, its value goes. Nothing is changed where no memory is left.
    pub fn put(&mut self, key: Text, value: Text) -> Result<(), NoMemory>
        ensures ok { OnOk result (self.new ≡ with_pair key value self.old) }
        ensures err { OnErr result (self.new ≡ self.old) }
    {
        put_in(&mut self.items, key, value)
    }

    /// Whether the two are the same pairs.
    #[tactic(auto, using(crate::proofs::Sameness::same_pairs_from))]
    pub fn is_same(&self, other: &Pairs) -> bool
        ensures { IsTrue result ↔ (self.now ≡ other.now) }
    {
        self == other
    }
}

fn value_in<'a>(pairs: &'a [(Text, Text)], key: &str) -> Option<&'a Text>
    ensures { option_copied result ≡ value_of pairs.now key.now }
{
    for pair in pairs {
        if key == pair.0.as_str() {
            return Some(&pair.1);
        }
    }
    None
}

fn put_in(pairs: &mut Vec<(Text, Text)>, key: Text, value: Text) -> Result<(), NoMemory>
    ensures { pairs.new.items ≡ (if is_ok result then with_pair key value pairs.old.items else pairs.old.items) }
{
    let place = place_of(pairs, &key);
    if place < pairs.len() && pairs[place].0 == key {
        pairs[place] = (key, value);
    } else {
        pairs.insert(place, (key, value))?;
    }
    Ok(())
}

/// How many pairs stand before the place of a key.
fn place_of(pairs: &[(Text, Text)], key: &Text) -> usize
    ensures { result ≡ length (take_while (λ pair. is_gt (bytes_cmp key.now pair.0)) pairs.now) }
{
    for i in 0..pairs.len() {
        if *key <= pairs[i].0 {
            return i;
        }
    }
    pairs.len()
}

impl Clone for Pairs {
    ghost is_clone = { λ v w. w ≡ v };

    fn clone(&self) -> Result<Pairs, AllocError> {
        Ok(Pairs {
            items: self.items.clone()?,
        })
    }
}

impl PartialEq for Pairs {
    ghost eq = { pointwise same_pair };

    ghost laws = { same_pairs_partial };

    fn eq(&self, other: &Self) -> bool {
        self.items.as_slice() == other.items.as_slice()
    }
}

impl Eq for Pairs {
    ghost laws = { same_pairs_law };
}
