// Writes that are ready to be made.
ghost use Rattle.std.specs.Prelude.{◌≡◌, IfOk, is_some, option_copied};
ghost use Rattle.hx_store.specs.Changes.{id_of, object_of};
ghost use Rattle.hx_store.specs.Sources.{indexed_in, is_indexed, may_be_indexed};
ghost use Rattle.hx_object.specs.Kinds.{is_anchor};

use hx_model::{Write, is_source};
use hx_object::{Id, Kind, NoMemory, Object, Shared};
use std::marker::Model;

/// A write, with the identity that it is of.
pub struct Change {
    key: Id,
    object: Option<Shared>,
}

impl Drop for Change {
    fn drop(self) {
        let Change { key: _, object: _ } = self;
    }
}

impl Model for Change {
    ghost use Rattle.hx_model.specs.declared.key.Write.{Write};
    ghost use Rattle.hx_store.specs.Changes.{write_code, write_of, HasItsKey};

    ghost Value = { Write };

    ghost coded = { write_code };

    ghost view = { λ c. write_of c.key c.object };

    ghost invariant = { λ c. HasItsKey c.key c.object };
}

impl Change {
    /// The object is stored, in the place of the one of its identity.
    pub fn put(object: Shared) -> Result<Change, NoMemory>
        ensures { IfOk result (λ c. c ≡ Write.Put object) }
    {
        Ok(Change {
            key: object.object().id.clone()?,
            object: Some(object),
        })
    }

    /// The object of the identity is taken away.
    pub fn cut(id: Id) -> Change
        ensures { result ≡ Write.Cut id }
    {
        Change {
            key: id,
            object: None,
        }
    }

    /// The identity of the object that is stored or taken away.
    pub fn id(&self) -> &Id
        ensures { result.now ≡ id_of self.now }
    {
        &self.key
    }

    /// The object that is stored, unless one is taken away.
    pub fn object(&self) -> Option<&Shared>
        ensures { option_copied result ≡ object_of self.now }
    {
        self.object.as_ref()
    }

    /// Whether the object that is stored is a source or an anchor.
    pub(crate) fn puts_indexed(&self) -> bool
        ensures { result ≡ is_some (indexed_in (object_of self.now)) }
    {
        match &self.object {
            Some(object) => is_indexed(object.object()),
            None => false,
        }
    }

    /// Takes the object out, which leaves a write that takes the object of the identity away.
    pub(crate) fn take(&mut self) -> Option<Shared>
        ensures object { result ≡ object_of self.old }
        ensures rest { self.new ≡ Write.Cut (id_of self.old) }
    {
        self.object.take()
    }
}

/// Whether an object is a source or an anchor.
pub(crate) fn is_indexed(object: &Object) -> bool
    ensures { result ≡ is_indexed object.now }
{
    is_source(object) || is_anchor(object.id.kind)
}

/// Whether objects of a kind are sources or anchors, or some of them are.
pub(crate) fn may_be_indexed(kind: Kind) -> bool
    ensures { result ≡ may_be_indexed kind }
{
    kind.can_be_copied() || is_anchor(kind)
}

/// Whether objects of a kind are anchors.
fn is_anchor(kind: Kind) -> bool
    ensures { result ≡ is_anchor kind }
{
    matches!(kind, Kind::SubnamespaceAnchor)
}
