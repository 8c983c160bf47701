// Names in ascending order.
ghost use Rattle.std.specs.Prelude.{◌≡◌, ℕ, ◌+◌, ◌<◌, ◌≤◌, ◌==◌, List, [], IfOk, OnOk, not, ◌&&◌, ◌||◌, length};
ghost use Rattle.std.specs.Str.{bytes_eq};
ghost use Rattle.hx_model.specs.Forest.{is_in};
ghost use Rattle.hx_forest.specs.Names.{IsAscending};

use hx_object::{NoMemory, Text};
use smallvec::SmallVec;
use std::alloc::Global;
use std::marker::Model;

/// Names in ascending order, each once.
///
/// One name lies in place, as most namespaces have one child or none. Room is made first, and names are added later without taking memory.
pub(crate) struct Names {
    names: SmallVec<Text, 1>,
}

impl Drop for Names {
    fn drop(self) {
        let Names { names: _ } = self;
    }
}

impl Model for Names {
    ghost use Rattle.std.specs.Prelude.{◌-◌};
    ghost use Rattle.smallvec.specs.SmallVec.{small_vec_len};
    ghost use Rattle.hx_forest.specs.Names.{NamesView, names_code, IsAscending};

    ghost Value = { NamesView };

    ghost coded = { names_code };

    ghost view = { λ n. record { names = n.names.items; spare = n.names.capacity - small_vec_len n.names } };

    ghost invariant = { λ n. IsAscending n.names.items };
}

impl Names {
    /// No names. It takes no memory.
    pub(crate) fn new(alloc: Global) -> Names
        ensures { result.names ≡ [] }
    {
        Names {
            names: SmallVec::new(alloc),
        }
    }

    /// No names, with room for some.
    pub(crate) fn with_room(alloc: Global, room: usize) -> Result<Names, NoMemory>
        ensures names { IfOk result (λ n. n.names ≡ []) }
        ensures room { IfOk result (λ n. room ≤ n.spare) }
    {
        Ok(Names {
            names: SmallVec::with_capacity(alloc, room)?,
        })
    }

    pub(crate) fn as_slice(&self) -> &[Text]
        ensures names { result.now ≡ self.now.names }
        ensures order { IsAscending self.now.names }
    {
        self.names.as_slice()
    }

    pub(crate) fn is_empty(&self) -> bool
        ensures { result ≡ (length self.now.names == 0) }
    {
        self.names.is_empty()
    }

    /// Makes room for `more` names. Where no memory is left, the room stays.
    pub(crate) fn reserve(&mut self, more: usize) -> Result<(), NoMemory>
        ensures names { self.new.names ≡ self.old.names }
        ensures room { OnOk result (more ≤ self.new.spare) }
        ensures spare { self.old.spare ≤ self.new.spare }
    {
        Ok(self.names.reserve(more)?)
    }

    /// Adds a name, unless it is there. It takes no memory.
    pub(crate) fn insert(&mut self, name: Text)
        requires { 0 < self.old.spare }
        ensures order { IsAscending self.new.names }
        ensures members { (q : List ℕ) → is_in q self.new.names ≡ (bytes_eq q name || is_in q self.old.names) }
        ensures spare { self.old.spare ≤ self.new.spare + 1 }
    {
        if let Err(at) = self.names.as_slice().binary_search(&name) {
            self.names.insert(at, name).unwrap();
        }
    }

    /// Takes a name out, where it is there. It takes no memory.
    pub(crate) fn remove(&mut self, name: &Text)
        ensures order { IsAscending self.new.names }
        ensures members { (q : List ℕ) → is_in q self.new.names ≡ (not (bytes_eq q name.now) && is_in q self.old.names) }
        ensures spare { self.old.spare ≤ self.new.spare }
    {
        if let Ok(at) = self.names.as_slice().binary_search(name) {
            let _name = self.names.remove(at);
        }
    }
}
