// Objects with several owners.
ghost use Rattle.std.specs.Prelude.{◌≡◌, IfOk};

use crate::{NoMemory, Object};
use std::alloc::Global;
use std::marker::Model;
use std::sync::Arc;

/// An object with several owners. Contracts see it as the object itself.
///
/// The store, an answer and what is told of a write hold one object together, so that none of them copies it.
pub struct Shared {
    inner: Arc<Object>,
}

impl Drop for Shared {
    fn drop(self) {
        let Shared { inner: _ } = self;
    }
}

impl Model for Shared {
    ghost use Rattle.std.specs.Arc.{arc_value};
    ghost use Rattle.hx_object.specs.Sharing.{object_code};
    ghost use Rattle.hx_object.specs.declared.object.Object.{Object};

    ghost Value = { Object };

    ghost coded = { object_code };

    ghost view = { λ s. arc_value s.inner };
}

impl Shared {
    /// The first owner of an object.
    pub fn new(alloc: Global, object: Object) -> Result<Shared, NoMemory>
        ensures { IfOk result (λ shared. shared ≡ object) }
    {
        Ok(Shared {
            inner: Arc::new(alloc, object)?,
        })
    }

    /// One more owner. It takes no memory, and fails only where there are too many owners to count, which counts as want of memory.
    pub fn share(&self) -> Result<Shared, NoMemory>
        ensures { IfOk result (λ shared. shared ≡ self.now) }
    {
        Ok(Shared {
            inner: Arc::try_clone(&self.inner)?,
        })
    }

    /// The object.
    pub fn object(&self) -> &Object
        ensures { result.now ≡ self.now }
    {
        &self.inner
    }
}
