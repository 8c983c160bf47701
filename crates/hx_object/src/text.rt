// Text that contracts see as its bytes.
ghost use Rattle.std.specs.Prelude.{◌≡◌, ℕ, [], nat_eq, IfOk, refl, Some, IsUtf8, string_bytes};
ghost use Rattle.std.specs.Cmp.Lexicographic.{bytes_decides, pointwise, slice_cmp, nat_list_eq_equiv, nat_list_cmp_total, texts_ties, texts_po};
ghost use Rattle.std.specs.Ordering.{nat_cmp};
ghost use Rattle.std.specs.Cmp as laws_of;
ghost use Rattle.std.specs.Cmp.Rules.{hashing};
ghost use Rattle.std.specs.Hash as fed;
ghost use Rattle.std.specs.Str.{bytes_eq};
ghost use Rattle.std.proofs.Common.{ap, rules};

use crate::{List, NoMemory};
use arrayvec::ArrayString;
use indexmap::Equivalent;
use std::alloc::{AllocError, Global};
use std::cmp::Ordering;
use std::hash::{Hash, Hasher};
use std::marker::Model;

/// The most bytes of a text that lies in place.
const SHORT: usize = 16;

/// Text, which contracts see as its bytes.
///
/// A short one lies in place, as most names do, so that it takes no memory of its own and reading it reads no other.
pub struct Text {
    form: Form,
}

#[derive(Drop)]
enum Form {
    Short(ArrayString<SHORT>),
    Long(String),
}

impl Drop for Text {
    fn drop(self) {
        let Text { form: _ } = self;
    }
}

impl Model for Text {
    ghost use Rattle.std.specs.Prelude.{List, ℕ};
    ghost use Rattle.hx_object.specs.Texts.{bytes_in};

    ghost Value = { List ℕ };

    ghost view = { λ t. bytes_in t.form };
}

impl Text {
    pub fn of(alloc: Global, text: &str) -> Result<Text, NoMemory>
        ensures { IfOk result (λ t. t ≡ text.now) }
    {
        if let Ok(short) = ArrayString::from(text) {
            return Ok(Text {
                form: Form::Short(short),
            });
        }
        Ok(Text {
            form: Form::Long(String::from_str(alloc, text)?),
        })
    }

    /// The text of a string, whose memory a short one gives back.
    pub fn of_string(text: String) -> Text
        ensures { result ≡ string_bytes text }
    {
        match ArrayString::from(text.as_str()) {
            Ok(short) => Text {
                form: Form::Short(short),
            },
            Err(_) => Text {
                form: Form::Long(text),
            },
        }
    }

    /// The bytes, which are UTF-8. Those of a short text take memory.
    pub fn into_bytes(self, alloc: Global) -> Result<List<u8>, NoMemory>
        ensures value { IfOk result (λ bytes. bytes ≡ self) }
        ensures utf8 { IfOk result IsUtf8 }
    {
        let Text { form } = self;
        let text = match form {
            Form::Short(text) => String::from_str(alloc, text.as_str())?,
            Form::Long(text) => text,
        };
        let _ = text.as_str();
        Ok(List::of(text.into_bytes()))
    }

    pub fn as_bytes(&self) -> &[u8]
        ensures { result.now ≡ self.now }
    {
        self.as_str().as_bytes()
    }

    pub fn as_str(&self) -> &str
        ensures value { result.now ≡ self.now }
        ensures utf8 { IsUtf8 self.now }
    {
        match &self.form {
            Form::Short(text) => text.as_str(),
            Form::Long(text) => text.as_str(),
        }
    }
}

impl Default for Text {
    ghost is_default = { λ t. t ≡ [] };

    /// No bytes, which takes no memory.
    fn default() -> Text {
        Text {
            form: Form::Short(ArrayString::new()),
        }
    }
}

impl Clone for Text {
    ghost is_clone = { λ t u. u ≡ t };

    fn clone(&self) -> Result<Text, AllocError> {
        Ok(Text {
            form: match &self.form {
                Form::Short(text) => Form::Short(*text),
                Form::Long(text) => Form::Long(text.clone()?),
            },
        })
    }
}

impl PartialEq for Text {
    ghost eq = { pointwise nat_eq };

    ghost laws = { laws_of.partial_equiv_from_equiv nat_list_eq_equiv };

    fn eq(&self, other: &Self) -> bool {
        self.as_str() == other.as_str()
    }
}

impl Eq for Text {
    ghost laws = { nat_list_eq_equiv };
}

impl PartialOrd for Text {
    ghost partial_cmp = { λ x y. Some (slice_cmp nat_cmp x y) };

    ghost laws = { texts_po };

    fn partial_cmp(&self, other: &Self) -> Option<Ordering> {
        Some(self.cmp(other))
    }
}

impl Ord for Text {
    ghost cmp = { slice_cmp nat_cmp };

    ghost total = { nat_list_cmp_total };

    ghost matches_partial_cmp = { λ x y. refl };

    ghost matches_eq = { texts_ties };

    fn cmp(&self, other: &Self) -> Ordering {
        self.as_str().cmp(other.as_str())
    }
}

impl Hash for Text {
    ghost hash_input = { λ t. fed.str t };

    ghost respects_eq = { Prim.search (hashing, rules) };

    fn hash<H: Hasher>(&self, state: &mut H) {
        self.as_str().hash(state);
    }
}

/// Maps whose keys are texts are looked up by `&str`.
impl Equivalent<Text> for &str {
    ghost equivalent = { λ q t. bytes_eq q.now t };

    ghost respects_hash = { λ q t same. ap fed.str ((bytes_decides q.now t).0 same) };

    ghost respects_eq = { λ q x y. nat_list_eq_equiv.congr q.now x y };

    fn equivalent(&self, text: &Text) -> bool {
        *self == text.as_str()
    }
}
