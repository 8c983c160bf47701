// What a plan is made from.
ghost use Rattle.std.specs.Prelude.{◌≡◌, IfOk};

use hx_model::{Guard, Key};
use hx_object::{AnchorStatus, Condition, Id, List, Mode, NoMemory, Shared, Text};
use std::alloc::Global;
use std::marker::Model;
use std::sync::Arc;

/// What a plan is made from, copied out of a state: the key, and what of the state its write depends on.
pub struct Brief {
    pub key: Key,
    /// The last version of the state.
    pub seen: u64,
    /// What the write rests on.
    pub guards: List<Guard>,
    pub facts: Facts,
}

impl Drop for Brief {
    fn drop(self) {
        let Brief {
            key: _,
            seen: _,
            guards: _,
            facts: _,
        } = self;
    }
}

/// What the write of a key depends on, by the kind of key.
pub enum Facts {
    /// Of the copy of a kind and name in a namespace.
    Copy {
        /// The namespace, where it is there.
        ns: Option<Shared>,
        /// Whether the namespace takes part: it is there, not on its way out, not excluded and not halted.
        is_open: bool,
        /// What lies in the place of the copy.
        place: Option<Shared>,
        /// The mode of the kind.
        mode: Mode,
        /// The sources of that kind and name in the namespaces above, the farthest first.
        sources: List<Shared>,
    },
    /// Of a namespace's tree labels.
    Tree {
        /// The namespace, where it is there.
        ns: Option<Shared>,
        /// Whether the namespace takes part: it is there, not on its way out, not excluded and not halted.
        is_open: bool,
        /// The namespace, its parent, the parent's parent and so on.
        chain: List<Text>,
    },
    /// Of what is reported of a namespace.
    Report {
        /// Whether the namespace takes reports: it is there, not on its way out and not excluded.
        is_eligible: bool,
        /// Its HierarchyConfiguration, where it has one.
        hierarchy: Option<Shared>,
        /// The namespaces that name it as their parent, in order.
        children: List<Text>,
        /// Why it is halted, and that it misses its anchor.
        conditions: List<Condition>,
    },
    /// Of the subnamespace that an anchor asks for.
    Child {
        /// Whether the namespace of the anchor takes part: it is there, not on its way out, not excluded and not halted.
        is_open: bool,
        /// Whether it holds the anchor.
        is_anchored: bool,
        /// Whether the anchor's name is excluded from trees.
        is_excluded: bool,
        /// Whether a namespace has that name.
        is_taken: bool,
    },
    /// Of the status of an anchor.
    Anchor {
        /// Whether the namespace of the anchor is there, and not on its way out.
        is_live: bool,
        /// The anchor, where it is there.
        anchor: Option<Shared>,
        /// The status that it is to have.
        status: AnchorStatus,
    },
    /// Of the status of a quota.
    Used {
        /// Whether the namespace of the quota is there, and not on its way out.
        is_live: bool,
        /// The quota, where it is there.
        quota: Option<Shared>,
        /// What is used of each of its limits in the subtree of its namespace, in their order, in thousandths.
        sums: List<u128>,
    },
    /// Of the removal of a namespace.
    Purge {
        /// Whether the namespace is there, and on its way out.
        is_leaving: bool,
        /// The identity of the first object that lies in it.
        least: Option<Id>,
    },
}

impl Drop for Facts {
    fn drop(self) {
        match self {
            Facts::Copy {
                ns: _,
                is_open: _,
                place: _,
                mode: _,
                sources: _,
            } => {}
            Facts::Tree {
                ns: _,
                is_open: _,
                chain: _,
            } => {}
            Facts::Report {
                is_eligible: _,
                hierarchy: _,
                children: _,
                conditions: _,
            } => {}
            Facts::Child {
                is_open: _,
                is_anchored: _,
                is_excluded: _,
                is_taken: _,
            } => {}
            Facts::Anchor {
                is_live: _,
                anchor: _,
                status: _,
            } => {}
            Facts::Used {
                is_live: _,
                quota: _,
                sums: _,
            } => {}
            Facts::Purge {
                is_leaving: _,
                least: _,
            } => {}
        }
    }
}

/// A brief with several owners. Contracts see it as the brief itself.
///
/// Whoever gave a brief out keeps it too, so that it knows what a plan was made from.
pub struct SharedBrief {
    inner: Arc<Brief>,
}

impl Drop for SharedBrief {
    fn drop(self) {
        let SharedBrief { inner: _ } = self;
    }
}

impl Model for SharedBrief {
    ghost use Rattle.std.specs.Arc.{arc_value};
    ghost use Rattle.hx_reconcile.specs.Sharing.{brief_code};
    ghost use Rattle.hx_reconcile.specs.declared.brief.Brief.{Brief};

    ghost Value = { Brief };

    ghost coded = { brief_code };

    ghost view = { λ s. arc_value s.inner };
}

impl SharedBrief {
    /// The first owner of a brief.
    pub fn new(alloc: Global, brief: Brief) -> Result<SharedBrief, NoMemory>
        ensures { IfOk result (λ shared. shared ≡ brief) }
    {
        Ok(SharedBrief {
            inner: Arc::new(alloc, brief)?,
        })
    }

    /// One more owner. It takes no memory, and fails only where there are too many owners to count, which counts as want of memory.
    pub fn share(&self) -> Result<SharedBrief, NoMemory>
        ensures { IfOk result (λ shared. shared ≡ self.now) }
    {
        Ok(SharedBrief {
            inner: Arc::try_clone(&self.inner)?,
        })
    }

    /// The brief.
    pub fn brief(&self) -> &Brief
        ensures { result.now ≡ self.now }
    {
        &self.inner
    }
}
