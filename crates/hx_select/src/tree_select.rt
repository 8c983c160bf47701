// Tree selectors.
ghost use Rattle.std.specs.Prelude.{◌≡◌, ◌⊎◌, ◌++◌, ℕ, List, IfErr, IfOk, OnOk, Ok, Err, not};
ghost use Rattle.std.specs.List.{list_all, list_any};
ghost use Rattle.std.specs.Str.{bytes_eq};
ghost use Rattle.hx_object.specs.WellKnown.{tree_suffix};
ghost use Rattle.hx_select.specs.Selectors.{selects};
ghost use Rattle.hx_select.specs.TreeLabels.{absent_needs, plain_needs, tree_need};
ghost use Rattle.hx_select.specs.TreeSelects.{in_tree, is_under, is_under_plain, stripped, tree_select_of, with_negated, with_piece, with_plain};

use crate::pieces::{cut_piece, stripped};
use crate::selector::{Requirement, Selector, Test};
use hx_object::well_known::TREE_SUFFIX;
use hx_object::{List, NoMemory, Pairs, Text, is_dns_label};
use std::alloc::{AllocFailed, Global};

/// The part of a tree that an object goes to: the namespaces at and below one, if it is named, and not those at and below others.
#[derive(Drop)]
pub struct TreeSelect {
    pub plain: Option<Text>,
    pub not: List<Text>,
}

/// Why a text isn't read as a tree selector.
#[derive(Clone, Copy)]
pub enum TreeFault {
    /// A piece between the commas is empty.
    Syntax,
    /// A piece is neither a DNS label nor `!` and a DNS label.
    BadName,
    /// Two pieces are without `!`.
    TwoPlain,
    /// No memory was left.
    NoMemory,
}

impl From<NoMemory> for TreeFault {
    ghost use Rattle.hx_select.specs.declared.tree_select.TreeFault.{TreeFault};

    ghost from_gives = { λ _ fault. fault ≡ TreeFault.NoMemory };

    fn from(_: NoMemory) -> Self {
        TreeFault::NoMemory
    }
}

impl<T: Drop> From<AllocFailed<T>> for TreeFault {
    ghost use Rattle.hx_select.specs.declared.tree_select.TreeFault.{TreeFault};

    ghost from_gives = { λ _ fault. fault ≡ TreeFault.NoMemory };

    fn from(_: AllocFailed<T>) -> Self {
        TreeFault::NoMemory
    }
}

impl TreeSelect {
    /// Reads names of namespaces that are joined by commas. At most one stands without a `!` before it. Spaces may stand around each, but not behind its `!`.
    #[tactic(auto, unfolding(crate::specs::TreeSelects::tree_select_of))]
    pub fn read(alloc: Global, text: &str) -> Result<TreeSelect, TreeFault>
        ensures ok { IfOk result (λ select. tree_select_of text.now ≡ Ok select) }
        ensures fault { IfErr result (λ fault. (fault ≡ TreeFault.NoMemory) ⊎ (tree_select_of text.now ≡ Err fault)) }
    {
        let mut select = TreeSelect {
            plain: None,
            not: List::of(Vec::new(alloc)),
        };
        let mut left = text;
        while let Some((piece, rest)) = cut_piece(left) {
            select = with_piece(alloc, select, stripped(piece))?;
            left = rest;
        }
        with_piece(alloc, select, stripped(left))
    }

    /// Whether it holds for the labels of a namespace.
    pub fn matches(&self, labels: &Pairs) -> bool
        ensures { result ≡ in_tree self.now labels.now }
    {
        is_under_plain(labels, &self.plain) && is_under_none(labels, self.not.as_slice())
    }

    /// The label selector that holds for the same namespaces: the tree label of the plain name is there, and none of the others'.
    pub fn to_selector(&self, alloc: Global) -> Result<Selector, NoMemory>
        ensures { IfOk result (λ selector. (labels : List (List ℕ × List ℕ)) → selects selector labels ≡ in_tree self.now labels) }
    {
        let mut needs = plain_needs(alloc, &self.plain)?;
        push_absent(alloc, &mut needs, self.not.as_slice())?;
        Ok(Selector {
            needs: List::of(needs),
        })
    }
}

/// The selector with one more piece.
fn with_piece(alloc: Global, select: TreeSelect, piece: &str) -> Result<TreeSelect, TreeFault>
    ensures ok { IfOk result (λ new. with_piece select piece.now ≡ Ok new) }
    ensures fault { IfErr result (λ fault. (fault ≡ TreeFault.NoMemory) ⊎ (with_piece select piece.now ≡ Err fault)) }
{
    if piece.is_empty() {
        return Err(TreeFault::Syntax);
    }
    match piece.strip_prefix('!') {
        Some(name) => with_negated(alloc, select, name),
        None => with_plain(alloc, select, piece),
    }
}

fn with_negated(alloc: Global, select: TreeSelect, name: &str) -> Result<TreeSelect, TreeFault>
    ensures ok { IfOk result (λ new. with_negated select name.now ≡ Ok new) }
    ensures fault { IfErr result (λ fault. (fault ≡ TreeFault.NoMemory) ⊎ (with_negated select name.now ≡ Err fault)) }
{
    if !is_dns_label(name.as_bytes()) {
        return Err(TreeFault::BadName);
    }
    let TreeSelect { plain, not } = select;
    let mut names = not.into_vec();
    names.push(Text::of(alloc, name)?)?;
    Ok(TreeSelect {
        plain,
        not: List::of(names),
    })
}

fn with_plain(alloc: Global, select: TreeSelect, name: &str) -> Result<TreeSelect, TreeFault>
    ensures ok { IfOk result (λ new. with_plain select name.now ≡ Ok new) }
    ensures fault { IfErr result (λ fault. (fault ≡ TreeFault.NoMemory) ⊎ (with_plain select name.now ≡ Err fault)) }
{
    if !is_dns_label(name.as_bytes()) {
        return Err(TreeFault::BadName);
    }
    if select.plain.is_some() {
        return Err(TreeFault::TwoPlain);
    }
    Ok(TreeSelect {
        plain: Some(Text::of(alloc, name)?),
        not: select.not,
    })
}

/// The tree label of a plain name has to be there.
fn plain_needs(alloc: Global, plain: &Option<Text>) -> Result<Vec<Requirement>, NoMemory>
    ensures { IfOk result (λ needs. needs.items ≡ plain_needs plain.now) }
{
    let mut needs = Vec::new(alloc);
    let Some(name) = plain else {
        return Ok(needs);
    };
    needs.push(tree_need(alloc, name, Test::There)?)?;
    Ok(needs)
}

/// The tree labels of names may not be there.
fn push_absent(alloc: Global, needs: &mut Vec<Requirement>, names: &[Text]) -> Result<(), NoMemory>
    ensures { OnOk result (needs.new.items ≡ needs.old.items ++ absent_needs names.now) }
{
    for name in names {
        needs.push(tree_need(alloc, name, Test::Absent)?)?;
    }
    Ok(())
}

/// A requirement on the tree label of a name.
fn tree_need(alloc: Global, name: &Text, test: Test) -> Result<Requirement, NoMemory>
    ensures { IfOk result (λ need. need ≡ tree_need name.now test) }
{
    let mut key = String::from_str(alloc, name.as_str())?;
    key.push_str(TREE_SUFFIX)?;
    Ok(Requirement {
        key: Text::of_string(key),
        test,
    })
}

fn is_under_plain(labels: &Pairs, plain: &Option<Text>) -> bool
    ensures { result ≡ is_under_plain labels.now plain.now }
{
    match plain {
        Some(name) => is_under(labels, name.as_str()),
        None => true,
    }
}

fn is_under_none(labels: &Pairs, names: &[Text]) -> bool
    ensures { result ≡ list_all (λ name. not (is_under labels.now name)) names.now }
{
    for name in names {
        if is_under(labels, name.as_str()) {
            return false;
        }
    }
    true
}

/// Whether a namespace with the labels is at or below the one of the name.
fn is_under(labels: &Pairs, name: &str) -> bool
    ensures { result ≡ is_under labels.now name.now }
{
    has_tree_label(labels.as_slice(), name)
}

fn has_tree_label(labels: &[(Text, Text)], name: &str) -> bool
    ensures { result ≡ list_any (λ label. bytes_eq (name.now ++ tree_suffix) label.0) labels.now }
{
    for label in labels {
        if is_tree_label(label.0.as_str(), name) {
            return true;
        }
    }
    false
}

/// Whether a key is that of the tree label of a name.
fn is_tree_label(key: &str, name: &str) -> bool
    ensures { result ≡ bytes_eq (name.now ++ tree_suffix) key.now }
{
    match key.as_bytes().strip_suffix(TREE_SUFFIX.as_bytes()) {
        Some(front) => front == name.as_bytes(),
        None => false,
    }
}
