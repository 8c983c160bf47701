// A key of a copy by borrowed parts.
ghost use Rattle.std.specs.Cmp.{on_equiv, on_per};
ghost use Rattle.hx_model.specs.contracts.key.KeyEq.TheImpl.Laws.{laws-law};
ghost use Rattle.hx_model.specs.contracts.key.KeyHash.TheImpl as key_hash;
ghost use Rattle.hx_model.specs.contracts.key.KeyHash.TheImpl.Laws.{respects_eq-law};
ghost use Rattle.hx_model.specs.contracts.key.KeyPartialEq.TheImpl as key_eq;
ghost use Rattle.hx_model.specs.contracts.key.KeyPartialEq.TheImpl.Laws.{laws-law as partial-law};
ghost use Rattle.hx_model.specs.declared.key.Key.TheVariants as key;

use hx_model::Key;
use hx_object::{Kind, Text};
use indexmap::Equivalent;
use std::hash::{Hash, Hasher};

/// The key of a copy, by borrowed parts. It is looked up by them, so that no text is copied.
#[derive(Clone, Copy)]
pub struct CopyOf<'a> {
    pub ns: &'a Text,
    pub kind: Kind,
    pub name: &'a Text,
}

impl<'a> PartialEq for CopyOf<'a> {
    ghost eq = { λ x y. (key_eq.ghosts).eq (key.Copy x.ns.now x.kind x.name.now) (key.Copy y.ns.now y.kind y.name.now) };

    ghost laws = { on_per (λ x. key.Copy x.ns.now x.kind x.name.now) partial-law };

    fn eq(&self, other: &CopyOf<'a>) -> bool {
        *self.ns == *other.ns && (self.kind == other.kind && *self.name == *other.name)
    }
}

impl<'a> Eq for CopyOf<'a> {
    ghost laws = { on_equiv (λ x. key.Copy x.ns.now x.kind x.name.now) laws-law };
}

impl<'a> Hash for CopyOf<'a> {
    ghost hash_input = { λ q. (key_hash.ghosts).hash_input (key.Copy q.ns.now q.kind q.name.now) };

    ghost respects_eq = { λ x y. respects_eq-law (key.Copy x.ns.now x.kind x.name.now) (key.Copy y.ns.now y.kind y.name.now) };

    fn hash<H: Hasher>(&self, state: &mut H) {
        // as the derived `Hash` of a key begins
        state.write_isize(0);
        self.ns.hash(state);
        self.kind.hash(state);
        self.name.hash(state);
    }
}

impl<'a> Equivalent<Key> for CopyOf<'a> {
    ghost equivalent = { λ q. (key_eq.ghosts).eq (key.Copy q.ns.now q.kind q.name.now) };

    ghost respects_hash = { λ q. respects_eq-law (key.Copy q.ns.now q.kind q.name.now) };

    ghost respects_eq = { λ q. laws-law.congr (key.Copy q.ns.now q.kind q.name.now) };

    fn equivalent(&self, key: &Key) -> bool {
        match key {
            Key::Copy { ns, kind, name } => {
                *self.ns == *ns && (self.kind == *kind && *self.name == *name)
            }
            _ => false,
        }
    }
}
