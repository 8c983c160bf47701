// To which namespaces a source goes.
ghost use Rattle.std.specs.Prelude.{◌≡◌, ◌||◌, ℕ, List, true, false, is_some, IfOk};
ghost use Rattle.hx_object.specs.declared.object.Mode.TheVariants.{Propagate};
ghost use Rattle.hx_model.specs.Exceptions.{passes, select_of, select_allows, tree_select_in, tree_select_allows};
ghost use Rattle.hx_model.specs.Propagation.{goes_to};
ghost use Rattle.hx_select.specs.Selectors.{selector_of};
ghost use Rattle.hx_select.specs.TreeSelects.{tree_select_of};
ghost use Rattle.hx_reconcile.specs.Reaches.{allows, reaches};

use crate::exceptions::exception;
use crate::sources::may_leave;
use hx_object::well_known::{SELECT_EXCEPTION, TREE_SELECT_EXCEPTION};
use hx_object::{NoMemory, Object, Pairs};
use hx_select::{Matcher, SelectFault, Selector, TreeFault, TreeSelect};
use std::alloc::Global;

/// To which namespaces below its own a source goes where its kind is propagated.
///
/// Its exceptions (HNC user guide, "Limit the propagation of an object to descendant namespaces") are read once, so that to ask of one namespace takes a few steps for each of its labels, however long their texts are. One that can't be read lets it go nowhere.
pub enum Reach {
    /// To none.
    Nowhere,
    /// To all.
    Everywhere,
    /// To those for whose labels both hold.
    Where {
        select: Matcher,
        tree_select: Matcher,
    },
}

impl Drop for Reach {
    fn drop(self) {
        match self {
            Reach::Nowhere => {}
            Reach::Everywhere => {}
            Reach::Where {
                select: _,
                tree_select: _,
            } => {}
        }
    }
}

impl Reach {
    /// Reads the exceptions of a source. An object that isn't a source goes nowhere.
    pub fn of(alloc: Global, source: &Object) -> Result<Reach, NoMemory>
        ensures { IfOk result (λ reach. (labels : List (List ℕ × List ℕ)) → reaches reach labels ≡ goes_to Propagate source.now labels) }
    {
        if !may_leave(source) {
            return Ok(Reach::Nowhere);
        }
        if !looks_at_labels(source) {
            return Ok(Reach::Everywhere);
        }
        let Some(select) = read_select(alloc, source)? else {
            return Ok(Reach::Nowhere);
        };
        let Some(tree_select) = read_tree_select(alloc, source)? else {
            return Ok(Reach::Nowhere);
        };
        Ok(Reach::Where {
            select,
            tree_select,
        })
    }

    /// Whether the source goes to a namespace of these labels.
    pub fn has(&self, labels: &Pairs) -> bool
        ensures { result ≡ reaches self.now labels.now }
    {
        match self {
            Reach::Nowhere => false,
            Reach::Everywhere => true,
            Reach::Where {
                select,
                tree_select,
            } => select.matches(labels) && tree_select.matches(labels),
        }
    }

    /// Whether labels count for anything.
    pub fn looks_at_labels(&self) -> bool
        ensures { result ≡ false → (labels others : List (List ℕ × List ℕ)) → reaches self.now labels ≡ reaches self.now others }
    {
        matches!(self, Reach::Where { .. })
    }
}

/// Whether an exception of the source is judged by the labels of a namespace.
fn looks_at_labels(source: &Object) -> bool
    ensures { result ≡ (is_some (select_of source.now) || is_some (tree_select_in source.now)) }
{
    exception(source, SELECT_EXCEPTION).is_some()
        || exception(source, TREE_SELECT_EXCEPTION).is_some()
}

/// The selector of a source, which always holds where it has none. `None` where it can't be read.
fn read_select(alloc: Global, source: &Object) -> Result<Option<Matcher>, NoMemory>
    ensures { IfOk result (λ found. (labels : List (List ℕ × List ℕ)) → allows found labels ≡ passes (λ text. select_allows labels (selector_of text)) (select_of source.now)) }
{
    let Some(text) = exception(source, SELECT_EXCEPTION) else {
        return everything(alloc);
    };
    match Selector::read(alloc, text.as_str()) {
        Ok(selector) => Ok(Some(Matcher::of(alloc, selector)?)),
        Err(SelectFault::NoMemory) => Err(NoMemory),
        Err(_) => Ok(None),
    }
}

/// The same of its tree selector.
fn read_tree_select(alloc: Global, source: &Object) -> Result<Option<Matcher>, NoMemory>
    ensures { IfOk result (λ found. (labels : List (List ℕ × List ℕ)) → allows found labels ≡ passes (λ text. tree_select_allows labels (tree_select_of text)) (tree_select_in source.now)) }
{
    let Some(text) = exception(source, TREE_SELECT_EXCEPTION) else {
        return everything(alloc);
    };
    match TreeSelect::read(alloc, text.as_str()) {
        Ok(selector) => Ok(Some(Matcher::of(alloc, selector.to_selector(alloc)?)?)),
        Err(TreeFault::NoMemory) => Err(NoMemory),
        Err(_) => Ok(None),
    }
}

/// What always holds.
fn everything(alloc: Global) -> Result<Option<Matcher>, NoMemory>
    ensures { IfOk result (λ found. (labels : List (List ℕ × List ℕ)) → allows found labels ≡ true) }
{
    Ok(Some(Matcher::of(alloc, Selector::everything(alloc))?))
}
