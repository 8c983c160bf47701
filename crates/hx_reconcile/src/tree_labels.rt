// The write of a namespace's tree labels.
ghost use Rattle.std.specs.Prelude.{◌≡◌, ◌<◌, ◌^◌, IfOk, OnOk, Some, decimal, length};
ghost use Rattle.hx_model.specs.TreeLabels.{tree_key, tree_labels_of, with_pairs, own_labels, prescribed_labels};
ghost use Rattle.hx_model.specs.Wanted.{labelled, placed};

use hx_model::Write;
use hx_object::well_known::{INCLUDED_NAMESPACE, TREE_SUFFIX};
use hx_object::{NoMemory, Object, Pairs, Text, is_tree_key};
use std::alloc::Global;

/// The write of a namespace that takes part: it has the labels that its chain prescribes. It is copied only where it is written.
pub(crate) fn wanted_labels(
    alloc: Global,
    chain: &[Text],
    namespace: &Object,
) -> Result<Option<Write>, NoMemory>
    ensures write { IfOk result (λ write. write ≡ placed (labelled chain.now namespace.now) (Some namespace.now)) }
    ensures short { length chain.now < 2 ^ 64 }
{
    let labels = prescribed_labels(alloc, chain, &namespace.labels)?;
    if labels.is_same(&namespace.labels) {
        return Ok(None);
    }
    Ok(Some(Write::Put(Object {
        id: namespace.id.clone()?,
        labels,
        annotations: namespace.annotations.clone()?,
        payload: namespace.payload.copy()?,
        version: 0,
    })))
}

/// A namespace's own labels, that of a namespace that takes part, and those that tell its ancestors.
pub fn prescribed_labels(alloc: Global, chain: &[Text], labels: &Pairs) -> Result<Pairs, NoMemory>
    ensures { IfOk result (λ prescribed. prescribed ≡ prescribed_labels chain.now labels.now) }
{
    let mut prescribed = own_labels(alloc, labels)?;
    prescribed.put(
        Text::of(alloc, INCLUDED_NAMESPACE)?,
        Text::of(alloc, "true")?,
    )?;
    put_tree_labels(alloc, chain, &mut prescribed)?;
    Ok(prescribed)
}

/// The labels that aren't the tree's.
fn own_labels(alloc: Global, labels: &Pairs) -> Result<Pairs, NoMemory>
    ensures { IfOk result (λ own. own ≡ own_labels labels.now) }
{
    let mut own = Vec::new(alloc);
    for pair in labels.as_slice() {
        if !is_tree_key(pair.0.as_bytes()) {
            own.push(pair.clone()?)?;
        }
    }
    Ok(Pairs::of(own))
}

/// Puts the label of each member of a chain, which tells how far it is.
fn put_tree_labels(alloc: Global, chain: &[Text], labels: &mut Pairs) -> Result<(), NoMemory>
    ensures { OnOk result (labels.new ≡ with_pairs (tree_labels_of chain.now) labels.old) }
{
    let mut far = chain.len();
    while far > 0 {
        far -= 1;
        labels.put(tree_key(alloc, &chain[far])?, written(alloc, far)?)?;
    }
    Ok(())
}

/// The key of the label that tells an ancestor.
fn tree_key(alloc: Global, ancestor: &Text) -> Result<Text, NoMemory>
    ensures { IfOk result (λ key. key ≡ tree_key ancestor.now) }
{
    let mut key = String::from_str(alloc, ancestor.as_str())?;
    key.push_str(TREE_SUFFIX)?;
    Ok(Text::of_string(key))
}

/// A number in decimal digits.
fn written(alloc: Global, number: usize) -> Result<Text, NoMemory>
    ensures { IfOk result (λ text. text ≡ decimal number) }
{
    Ok(Text::of_string(number.to_string(alloc)?))
}
