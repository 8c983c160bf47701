// The store.
ghost use Rattle.std.specs.Prelude.{◌≡◌, ℕ, List, [], false, Option, filter, IfOk, OnOk, OnErr, option_copied};
ghost use Rattle.std.specs.List.Sorted.{IsPermutation, IsSortedByKey};
ghost use Rattle.hx_object.specs.Order.{id_cmp};
ghost use Rattle.hx_model.specs.State.{object_at, after_writes, least_in};
ghost use Rattle.hx_model.specs.Answers.{is_listed};
ghost use Rattle.hx_store.specs.Sources.{is_source_of, is_anchor_of, is_indexed_of, HasNoneBeside};

use crate::by_name::ByName;
use crate::change::Change;
use crate::object_table::ObjectTable;
use crate::writes::{make_places, make_writes, sweep_places};
use hx_object::{Id, Kind, NoMemory, Shared, Text};
use std::alloc::Global;
use std::hash::RandomState;
use std::marker::Model;
use std::mem;

/// Objects by kind, namespace and name, and the version of the last write.
///
/// An object is found in constant time on average, and a list looks at nothing but what it gives. In which namespaces sources (which copies are made of) and anchors lie is kept by kind and name as well. Writes are staged, which makes room for them, and then made without taking memory.
pub struct Store {
    places: ObjectTable,
    by_name: ByName,
    version: u64,
    staged: Vec<Change>,
    alloc: Global,
}

impl Drop for Store {
    fn drop(self) {
        let Store {
            places: _,
            by_name: _,
            version: _,
            staged: _,
            alloc: _,
        } = self;
    }
}

impl Model for Store {
    ghost use Rattle.hx_store.specs.Kept.{StoreView, store_code};
    ghost use Rattle.hx_store.specs.ObjectTable.{objects_at};
    ghost use Rattle.hx_store.specs.ByName.{IsKept};

    ghost Value = { StoreView };

    ghost coded = { store_code };

    ghost view = { λ s. record { objects = objects_at s.places; version = s.version; staged = s.staged.items } };

    ghost invariant = { λ s. IsKept s.places s.by_name s.staged.items };
}

impl Store {
    /// A store without objects, whose maps hash with these keys. It takes no memory.
    pub fn new(alloc: Global, version: u64, keys: RandomState) -> Store
        ensures objects { result.objects ≡ [] }
        ensures version { result.version ≡ version }
        ensures staged { result.staged ≡ [] }
    {
        Store {
            places: ObjectTable::new(alloc, keys),
            by_name: ByName::new(alloc, keys),
            version,
            staged: Vec::new(alloc),
            alloc,
        }
    }

    /// The version of the last write.
    pub fn version(&self) -> u64
        ensures { result ≡ self.now.version }
    {
        self.version
    }

    /// What the store takes its memory from.
    pub fn allocator(&self) -> Global {
        self.alloc
    }

    /// The object of an identity.
    pub fn get(&self, id: &Id) -> Option<&Shared>
        ensures { option_copied result ≡ object_at self.now.objects id.now }
    {
        self.find(id.kind, id.ns.as_str(), id.name.as_str())
    }

    /// The object of a kind, a namespace and a name. The namespace is empty for the kinds that lie in none.
    pub fn find(&self, kind: Kind, ns: &str, name: &str) -> Option<&Shared>
        ensures { option_copied result ≡ object_at self.now.objects (record { kind = kind; ns = ns.now; name = name.now }) }
    {
        self.places.find(kind, ns, name)
    }

    /// Whether there may be objects of a kind, in constant time. It is true also where one is only staged.
    pub fn may_have(&self, kind: Kind) -> bool
        ensures { result ≡ false → (ns : Option (List ℕ)) → filter (is_listed kind ns) self.now.objects ≡ [] }
    {
        !self.places.is_empty(kind)
    }

    /// The objects of a kind, in one namespace or in all, in ascending order of identities.
    pub fn list(&self, kind: Kind, ns: Option<&Text>) -> Result<Vec<Shared>, NoMemory>
        ensures { IfOk result (λ objects. objects.items ≡ filter (is_listed kind (option_copied ns.entry)) self.now.objects) }
    {
        let mut listed = Vec::new(self.alloc);
        self.places.list(kind, ns, &mut listed)?;
        sort(&mut listed);
        Ok(listed)
    }

    /// The sources of a kind and a name in all namespaces, in ascending order of identities: the objects that copies are made of.
    ///
    /// Roles, role bindings, config maps, secrets, network policies and limit ranges can be copied. A copy has the label `hnc.x-k8s.io/inherited-from` (HNC user guide, "Object propagation"). It looks at nothing but what it gives, and what is staged.
    pub fn sources(&self, kind: Kind, name: &str) -> Result<Vec<Shared>, NoMemory>
        ensures { IfOk result (λ objects. objects.items ≡ filter (is_source_of kind name.now) self.now.objects) }
    {
        if !kind.can_be_copied() {
            return Ok(Vec::new(self.alloc));
        }
        self.indexed(kind, name)
    }

    /// The anchors of a name in all namespaces, in ascending order of identities: by each, its namespace asks for a subnamespace of the name.
    ///
    /// It looks at nothing but what it gives, and what is staged.
    pub fn anchors(&self, name: &str) -> Result<Vec<Shared>, NoMemory>
        ensures { IfOk result (λ objects. objects.items ≡ filter (is_anchor_of name.now) self.now.objects) }
    {
        self.indexed(Kind::SubnamespaceAnchor, name)
    }

    /// Whether a source of a kind and a name may lie in another namespace than this one.
    ///
    /// It takes constant time: of many places it looks at none, and says that one may. For anchors it tells the same of anchors.
    pub fn may_lie_beside(&self, kind: Kind, name: &str, ns: &str) -> bool
        ensures { result ≡ false → HasNoneBeside self.now.objects kind name.now ns.now }
    {
        self.by_name.may_lie_beside(kind, name, ns)
    }

    /// The sources of a kind and a name, or the anchors of a name, in ascending order of identities.
    fn indexed(&self, kind: Kind, name: &str) -> Result<Vec<Shared>, NoMemory>
        ensures { IfOk result (λ objects. objects.items ≡ filter (is_indexed_of kind name.now) self.now.objects) }
    {
        let mut listed = Vec::new(self.alloc);
        self.by_name.list(&self.places, kind, name, &mut listed)?;
        sort(&mut listed);
        Ok(listed)
    }

    /// Puts the objects of a namespace into an order in which `least` finds one in constant time. Taking away what `least` gives keeps them so, and any other object that is stored anew or taken away there may end it.
    ///
    /// Where they lie in that order it takes constant time itself. Where there is no memory for it, they stay as they are.
    pub fn sort(&mut self, ns: &Text)
        ensures { self.new ≡ self.old }
    {
        self.places.sort(ns.as_str());
    }

    /// The first object that lies in a namespace, in the order of identities. It takes no memory.
    ///
    /// Unless `sort` was called, it looks at all objects there of the first kind that has any.
    pub fn least(&self, ns: &Text) -> Option<&Shared>
        ensures { option_copied result ≡ least_in self.now.objects ns.now }
    {
        self.places.least(ns.as_str())
    }

    /// The writes that are staged.
    pub fn staged(&self) -> &[Change]
        ensures { result.now ≡ self.now.staged }
    {
        self.staged.as_slice()
    }

    /// Stages writes in the place of those that are staged, and takes the memory that they want. Where there is none, nothing is staged.
    pub fn stage(&mut self, changes: Vec<Change>) -> Result<(), NoMemory>
        ensures objects { self.new.objects ≡ self.old.objects }
        ensures version { self.new.version ≡ self.old.version }
        ensures staged { OnOk result (self.new.staged ≡ changes.items) }
        ensures err { OnErr result (self.new.staged ≡ []) }
    {
        self.discard();
        make_places(&mut self.places, &mut self.by_name, &changes)?;
        self.staged = changes;
        Ok(())
    }

    /// Makes the staged writes, the first one first, as the write of a version. It takes no memory.
    pub fn apply(&mut self, version: u64)
        ensures objects { self.new.objects ≡ after_writes self.old.staged self.old.objects }
        ensures version { self.new.version ≡ version }
        ensures staged { self.new.staged ≡ [] }
    {
        let mut changes = mem::replace(&mut self.staged, Vec::new(self.alloc));
        make_writes(&mut self.places, &mut changes);
        sweep_places(&mut self.places, &mut self.by_name, &changes);
        self.version = version;
    }

    /// Stages nothing. It takes no memory.
    pub fn discard(&mut self)
        ensures objects { self.new.objects ≡ self.old.objects }
        ensures version { self.new.version ≡ self.old.version }
        ensures staged { self.new.staged ≡ [] }
    {
        let changes = mem::replace(&mut self.staged, Vec::new(self.alloc));
        sweep_places(&mut self.places, &mut self.by_name, &changes);
    }
}

/// Sorts objects by their identities.
fn sort(objects: &mut Vec<Shared>)
    ensures same { IsPermutation objects.old.items objects.new.items }
    ensures sorted { IsSortedByKey (λ x. x.id) id_cmp objects.new.items }
{
    objects.sort_unstable_by(|a, b| a.object().id.compare(&b.object().id));
}
