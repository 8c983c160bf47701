// What lies on a table of names.
ghost use Rattle.std.specs.Prelude.{◌≡◌, IfOk, Some, None, option_copied, refl};
ghost use Rattle.std.specs.Cmp as laws_of;
ghost use Rattle.std.specs.Cmp.{on_equiv, on_per, on_po, on_total};
ghost use Rattle.std.specs.Cmp.Lexicographic.{bytes_decides, nat_list_eq_equiv, nat_list_cmp_total, texts_ties, texts_po};
ghost use Rattle.std.specs.Hash as fed;
ghost use Rattle.std.specs.Str.{bytes_eq};
ghost use Rattle.std.proofs.Common.{ap};
ghost use Rattle.hx_object.specs.Texts.{bytes_cmp};
ghost use Rattle.hx_store.specs.Slots.{same_name};

use hx_object::{NoMemory, Shared, Text};
use indexmap::Equivalent;
use std::alloc::Global;
use std::cmp::Ordering;
use std::hash::{Hash, Hasher};
use std::marker::Model;

/// A name, with an object or none. Contracts see it as both, and slots are one where their names are.
///
/// An object gives its slot the name, so that the slot takes no more than a pointer to it beside what tells the two forms apart.
pub(crate) struct Slot {
    form: Form,
}

/// An object under its own name, or a name that lies apart.
#[derive(Drop)]
enum Form {
    Own(Shared),
    Apart(Box<Label>),
}

/// A name in memory of its own, with an object or none.
#[derive(Drop)]
struct Label {
    name: Text,
    object: Option<Shared>,
}

impl Drop for Slot {
    fn drop(self) {
        let Slot { form: _ } = self;
    }
}

impl Model for Slot {
    ghost use Rattle.hx_store.specs.Slots.{Entry, seen};

    ghost Value = { Entry };

    ghost view = { λ s. seen s.form };
}

impl Slot {
    /// An object under its own name. It takes no memory.
    pub(crate) fn own(object: Shared) -> Slot
        ensures { result ≡ (object.id.name, Some object) }
    {
        Slot {
            form: Form::Own(object),
        }
    }

    /// A name, with an object or none. It takes memory where the name isn't that of the object.
    pub(crate) fn of(alloc: Global, name: &str, object: Option<Shared>) -> Result<Slot, NoMemory>
        ensures { IfOk result (λ slot. slot ≡ (name.now, object)) }
    {
        match object {
            Some(object) => {
                if name == object.object().id.name.as_str() {
                    return Ok(Slot::own(object));
                }
                Slot::apart(alloc, name, Some(object))
            }
            None => Slot::apart(alloc, name, None),
        }
    }

    /// A name that lies apart, with an object or none.
    fn apart(alloc: Global, name: &str, object: Option<Shared>) -> Result<Slot, NoMemory>
        ensures { IfOk result (λ slot. slot ≡ (name.now, object)) }
    {
        let name = Text::of(alloc, name)?;
        let label = Box::new(alloc, Label { name, object })?;
        Ok(Slot {
            form: Form::Apart(label),
        })
    }

    pub(crate) fn name(&self) -> &Text
        ensures { result.now ≡ self.now.0 }
    {
        match &self.form {
            Form::Own(object) => &object.object().id.name,
            Form::Apart(label) => &label.name,
        }
    }

    pub(crate) fn object(&self) -> Option<&Shared>
        ensures { option_copied result ≡ self.now.1 }
    {
        match &self.form {
            Form::Own(object) => Some(object),
            Form::Apart(label) => label.object.as_ref(),
        }
    }
}

impl PartialEq for Slot {
    ghost eq = { same_name };

    ghost laws = { on_per (λ slot. slot.0) (laws_of.partial_equiv_from_equiv nat_list_eq_equiv) };

    fn eq(&self, other: &Self) -> bool {
        self.name().as_str() == other.name().as_str()
    }
}

impl Eq for Slot {
    ghost laws = { on_equiv (λ slot. slot.0) nat_list_eq_equiv };
}

impl PartialOrd for Slot {
    ghost partial_cmp = { λ x y. Some (bytes_cmp x.0 y.0) };

    ghost laws = { on_po (λ slot. slot.0) texts_po };

    fn partial_cmp(&self, other: &Self) -> Option<Ordering> {
        Some(self.cmp(other))
    }
}

impl Ord for Slot {
    ghost cmp = { λ x y. bytes_cmp x.0 y.0 };

    ghost total = { on_total (λ slot. slot.0) nat_list_cmp_total };

    ghost matches_partial_cmp = { λ x y. refl };

    ghost matches_eq = { λ x y. texts_ties x.0 y.0 };

    fn cmp(&self, other: &Self) -> Ordering {
        self.name().as_str().cmp(other.name().as_str())
    }
}

impl Hash for Slot {
    ghost hash_input = { λ slot. fed.str slot.0 };

    ghost respects_eq = { λ x y same. ap fed.str ((bytes_decides x.0 y.0).0 same) };

    fn hash<H: Hasher>(&self, state: &mut H) {
        self.name().as_str().hash(state);
    }
}

/// Slots are looked up by `&str`.
impl Equivalent<Slot> for &str {
    ghost equivalent = { λ q slot. bytes_eq q.now slot.0 };

    ghost respects_hash = { λ q slot same. ap fed.str ((bytes_decides q.now slot.0).0 same) };

    ghost respects_eq = { λ q x y. nat_list_eq_equiv.congr q.now x.0 y.0 };

    fn equivalent(&self, slot: &Slot) -> bool {
        *self == slot.name().as_str()
    }
}
