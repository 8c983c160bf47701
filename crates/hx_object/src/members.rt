// The kept members of plain kinds.
ghost use Rattle.std.specs.Prelude.{◌≡◌, nat_eq, IsUtf8};
ghost use Rattle.std.specs.Cmp as laws_of;
ghost use Rattle.std.specs.Cmp.Lexicographic.{pointwise, nat_list_eq_equiv};
ghost use Rattle.hx_object.specs.Placed.{IsPlaced};

use crate::Text;
use std::alloc::AllocError;
use std::marker::Model;

/// The members that an object of a plain kind keeps, as compact JSON text, and where those that each object has go among them.
///
/// Contracts see the text.
pub struct Members {
    text: Text,
    places: Places,
}

impl Drop for Members {
    fn drop(self) {
        let Members { text: _, places: _ } = self;
    }
}

/// How many bytes of the text of kept members stand in front of where each member goes that they lack: `{` and the members whose keys come before it.
#[derive(Clone, Copy)]
pub struct Places {
    pub api_version: u32,
    pub kind: u32,
    pub metadata: u32,
}

impl Model for Members {
    ghost use Rattle.std.specs.Prelude.{List, ℕ};
    ghost use Rattle.hx_object.specs.Placed.{IsPlaced};

    ghost Value = { List ℕ };

    ghost view = { λ m. m.text };

    ghost invariant = { λ m. IsPlaced m.text m.places };
}

impl Members {
    /// Members of a text that has these places.
    pub fn new(text: Text, places: Places) -> Members
        requires { IsPlaced text places }
        ensures { result ≡ text }
    {
        Members { text, places }
    }

    pub fn as_bytes(&self) -> &[u8]
        ensures { result.now ≡ self.now }
    {
        self.text.as_bytes()
    }

    pub fn as_str(&self) -> &str
        ensures value { result.now ≡ self.now }
        ensures utf8 { IsUtf8 self.now }
    {
        self.text.as_str()
    }

    /// Where the members go that each object has.
    pub fn places(&self) -> Places
        ensures { IsPlaced self.now result }
    {
        self.places
    }
}

impl Clone for Members {
    ghost is_clone = { λ m n. n ≡ m };

    fn clone(&self) -> Result<Members, AllocError> {
        Ok(Members {
            text: self.text.clone()?,
            places: self.places,
        })
    }
}

impl PartialEq for Members {
    ghost eq = { pointwise nat_eq };

    ghost laws = { laws_of.partial_equiv_from_equiv nat_list_eq_equiv };

    fn eq(&self, other: &Self) -> bool {
        self.text == other.text
    }
}

impl Eq for Members {
    ghost laws = { nat_list_eq_equiv };
}
