// What the rules look at.
ghost use Rattle.std.specs.Prelude.{◌≡◌};
ghost use Rattle.hx_model.specs.Cases.{is_write, subject_of};
ghost use Rattle.hx_admit.specs.Ruling.{case_of};

use hx_forest::Forest;
use hx_model::RunConfig;
use hx_object::{Id, Object, Text};
use hx_state::Home;

/// What the rules look at: a write or a removal, and where it is made.
#[derive(Drop)]
pub struct Case<'a> {
    pub id: &'a Id,
    /// The object that is there.
    pub old: Option<&'a Object>,
    /// The object that is given.
    pub new: Option<&'a Object>,
    /// The namespace, for a HierarchyConfiguration. The rules on other objects don't look at it.
    pub home: Option<Home<'a>>,
    /// The HNCConfiguration that is stored, where a copy is removed. The rules on other requests don't look at it.
    pub hnc_config: Option<&'a Object>,
    /// Whether an object is given that can be copied, with exceptions that aren't valid. To read them takes memory, and the rules take none.
    pub misuses_exceptions: bool,
    /// Whether the write makes a conflict, where a rule asks.
    pub conflict: bool,
    /// What the rules on removals and on anchors look at besides.
    pub family: Family<'a>,
    /// The tree before the write.
    pub forest: &'a Forest,
    pub config: &'a RunConfig,
    /// Whether to pass over the rules that may be passed over.
    pub skip: bool,
}

impl<'a> Case<'a> {
    /// Whether it is a POST or a PUT.
    pub fn is_write(&self) -> bool
        ensures { result ≡ is_write (case_of self.now) }
    {
        self.new.is_some()
    }

    /// The namespace that the object is, or lies in.
    pub fn subject(&self) -> &'a Text
        ensures { result.now ≡ subject_of self.now.id.now }
    {
        if self.id.kind.is_namespace() {
            &self.id.name
        } else {
            &self.id.ns
        }
    }
}

/// What the rules on removals and on anchors look at besides, of the namespace that has the object's name. It is found out only where a rule asks.
#[derive(Drop)]
pub struct Family<'a> {
    /// The namespace, where an anchor is written or removed.
    pub named: Option<&'a Object>,
    /// Whether the parent that its annotation names holds an anchor for it, where it is removed.
    pub anchored: bool,
    /// Whether some namespace names it as its parent, where an anchor is removed.
    pub has_children: bool,
    /// Whether its reach has others, where it is removed.
    pub has_followers: bool,
    /// Whether its chain allows cascading deletion, where others would go with it.
    pub cascades: bool,
}
