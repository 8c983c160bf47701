// What makes an object illegal.
ghost use Rattle.std.specs.Prelude.{◌≡◌, nat_lt, IfOk, IfErr, length};
ghost use Rattle.std.specs.List.{list_all};
ghost use Rattle.hx_object.specs.Faults.{has_legal_names, has_legal_labels, most_labels, has_legal_namespace, is_legal_label, is_legal_annotation};
ghost use Rattle.hx_object.specs.Sizes.{is_tree_key, is_reconciled_key, is_counted, counted};

use crate::names::{is_annotation_key, is_dns_label, is_label_key, is_label_value, is_name_of};
use crate::size::is_too_large;
use crate::well_known::{INCLUDED_NAMESPACE, INHERITED_FROM, TREE_SUFFIX};
use crate::{Id, Object, ObjectFault, Pairs, Payload, Text};

/// How many labels that count an object may have.
const MOST_LABELS: usize = 256;

impl Object {
    ghost use Rattle.hx_object.specs.Faults.{object_fault};

    /// An object of these parts, unless it has a fault. It takes no memory, and drops the parts if it refuses them.
    pub fn new(
        id: Id,
        labels: Pairs,
        annotations: Pairs,
        payload: Payload,
        version: u64,
    ) -> Result<Object, ObjectFault>
        ensures ok { IfOk result (λ object. object ≡ record { id = id; labels = labels; annotations = annotations; payload = payload; version = version }) }
        ensures sound { IfOk result (λ object. object_fault object ≡ None) }
        ensures fault { IfErr result (λ fault. object_fault (record { id = id; labels = labels; annotations = annotations; payload = payload; version = version }) ≡ Some fault) }
    {
        let object = Object {
            id,
            labels,
            annotations,
            payload,
            version,
        };
        match object.fault() {
            None => Ok(object),
            Some(fault) => Err(fault),
        }
    }

    /// The first fault, by the order of `ObjectFault`.
    #[tactic(auto, unfolding(crate::specs::Faults::object_fault))]
    pub fn fault(&self) -> Option<ObjectFault>
        ensures { result ≡ object_fault self.now }
    {
        if !has_legal_names(&self.id) {
            return Some(ObjectFault::BadName);
        }
        if !has_legal_labels(self) {
            return Some(ObjectFault::BadLabel);
        }
        if has_too_many_labels(self) {
            return Some(ObjectFault::TooManyLabels);
        }
        if is_too_large(self) {
            return Some(ObjectFault::TooLarge);
        }
        None
    }
}

#[tactic(auto, unfolding(crate::specs::Faults::has_legal_names))]
fn has_legal_names(id: &Id) -> bool
    ensures { result ≡ has_legal_names id.now }
{
    has_legal_namespace(id) && is_name_of(id.kind, id.name.as_bytes())
}

fn has_legal_namespace(id: &Id) -> bool
    ensures { result ≡ has_legal_namespace id.now }
{
    id.kind.is_in_cluster() || is_dns_label(id.ns.as_bytes())
}

#[tactic(auto, unfolding(crate::specs::Faults::has_legal_labels))]
fn has_legal_labels(object: &Object) -> bool
    ensures { result ≡ has_legal_labels object.now }
{
    are_legal_labels(object.labels.as_slice())
        && are_legal_annotations(object.annotations.as_slice())
}

fn are_legal_labels(labels: &[(Text, Text)]) -> bool
    ensures { result ≡ list_all is_legal_label labels.now }
{
    for label in labels {
        if !is_legal_label(label) {
            return false;
        }
    }
    true
}

fn are_legal_annotations(annotations: &[(Text, Text)]) -> bool
    ensures { result ≡ list_all is_legal_annotation annotations.now }
{
    for annotation in annotations {
        if !is_legal_annotation(annotation) {
            return false;
        }
    }
    true
}

fn is_legal_label(label: &(Text, Text)) -> bool
    ensures { result ≡ is_legal_label label.now }
{
    is_label_key(label.0.as_bytes()) && is_label_value(label.1.as_bytes())
}

fn is_legal_annotation(annotation: &(Text, Text)) -> bool
    ensures { result ≡ is_legal_annotation annotation.now }
{
    is_annotation_key(annotation.0.as_bytes())
}

fn has_too_many_labels(object: &Object) -> bool
    ensures { result ≡ nat_lt most_labels (length (counted object.now.labels)) }
{
    count(object.labels.as_slice()) > MOST_LABELS
}

/// How many of the labels count.
fn count(labels: &[(Text, Text)]) -> usize
    ensures { result ≡ length (counted labels.now) }
{
    let mut count = 0;
    for label in labels {
        if is_counted(label) {
            count += 1;
        }
    }
    count
}

#[tactic(auto, unfolding(crate::specs::Sizes::is_counted))]
pub(crate) fn is_counted(label: &(Text, Text)) -> bool
    ensures { result ≡ is_counted label.now }
{
    !is_tree_key(label.0.as_bytes()) && !is_reconciled_key(label.0.as_bytes())
}

/// Whether the key is that of a label of the tree, by which a namespace tells an ancestor (HNC user guide, "Hierarchical labels").
#[tactic(auto, unfolding(crate::specs::Sizes::is_tree_key))]
pub fn is_tree_key(key: &[u8]) -> bool
    ensures { result ≡ is_tree_key key.now }
{
    TREE_SUFFIX.len() < key.len() && key.ends_with(TREE_SUFFIX.as_bytes())
}

#[tactic(auto, unfolding(crate::specs::Sizes::is_reconciled_key))]
fn is_reconciled_key(key: &[u8]) -> bool
    ensures { result ≡ is_reconciled_key key.now }
{
    key == INCLUDED_NAMESPACE.as_bytes() || key == INHERITED_FROM.as_bytes()
}
