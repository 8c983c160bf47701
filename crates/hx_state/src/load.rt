// Objects that were stored before.
ghost use Rattle.std.specs.Prelude.{◌≡◌, ◌∷◌, [], true, None, IfOk, OnOk, OnErr};
ghost use Rattle.hx_model.specs.State.{object_at, has_home, put};
ghost use Rattle.hx_model.specs.Valid.{IsStored};
ghost use Rattle.hx_model.specs.declared.key.Write.TheVariants as write_of;

use crate::indexed_state::IndexedState;
use hx_object::{Id, NoMemory, Object, Shared};
use hx_store::Change;
use std::alloc::Global;

impl IndexedState {
    /// Whether the namespace that an identity lies in is there, or its kind lies in none. It takes no memory.
    pub fn has_home(&self, id: &Id) -> bool
        ensures { result ≡ has_home self.now.state.objects id.now }
    {
        id.kind.is_in_cluster() || self.forest.node(&id.ns).is_some()
    }

    /// Takes in an object that was stored before, under its own version; that of the last write stays. What was staged is given up.
    ///
    /// It costs what one write costs. Where no memory is left, the state stays. Objects whose sizes together don't fit 64 bits fit no memory, either. Limits aren't looked at: they are refusals of requests.
    pub fn load(&mut self, object: Object) -> Result<(), NoMemory>
        requires stored { IsStored self.old.state.last object }
        requires new { object_at self.old.state.objects object.id ≡ None }
        requires home { has_home self.old.state.objects object.id ≡ true }
        ensures state { OnOk result (self.new.state ≡ record self.old.state { objects = put object self.old.state.objects }) }
        ensures same { OnErr result (self.new.state ≡ self.old.state) }
        ensures staged { self.new.staged ≡ [] }
    {
        self.discard();
        let writes = storing(self.store.allocator(), object)?;
        let plan = self.plan(writes.as_slice())?;
        self.usage.stage(
            &self.store,
            &self.forest,
            writes.as_slice(),
            plan.tree.as_slice(),
        )?;
        self.forest.stage(plan.tree)?;
        self.owners.stage(plan.owners)?;
        self.store.stage(writes)?;
        let version = self.store.version();
        self.store.apply(version);
        self.forest.apply();
        self.owners.apply();
        self.usage.apply(&self.forest);
        self.counts = plan.counts;
        Ok(())
    }
}

/// The write that stores an object.
fn storing(alloc: Global, object: Object) -> Result<Vec<Change>, NoMemory>
    ensures { IfOk result (λ writes. writes.items ≡ write_of.Put object ∷ []) }
{
    Ok(vec![in alloc; Change::put(Shared::new(alloc, object)?)?]?)
}
