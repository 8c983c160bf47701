// The sizes of objects, which are counted no further than to one byte more than an object may have.
ghost use Rattle.std.specs.Prelude.{◌≡◌, ◌+◌, nat_lt, length};
ghost use Rattle.json.specs.Print.{quoted, escape_byte, escape_letter};
ghost use Rattle.hx_object.specs.Sizes.{greatest_size, pair_size, counted, config_size, hierarchy_size, quota_size, specified_size, size_of};
ghost use Rattle.hx_object.specs.CappedSizes.{capped, capped_sum, entry_size, limit_size};
ghost use Rattle.serde_json.specs.Data.{object};

use crate::Text;
use crate::faults::is_counted;
use crate::object::{Limit, ModeEntry, Object, Payload};

/// What an object may have in bytes.
const GREATEST_SIZE: usize = 65_536;

const CAP: usize = GREATEST_SIZE + 1;

impl Object {
    /// The size in bytes: of labels that count and annotations, with their keys, and of the text of what a request gives. It is counted to 65,537, one more than an object may have.
    pub fn size(&self) -> usize
        ensures { result ≡ capped (size_of self.now) }
    {
        size(self)
    }
}

pub(crate) fn is_too_large(object: &Object) -> bool
    ensures { result ≡ nat_lt greatest_size (size_of object.now) }
{
    size(object) > GREATEST_SIZE
}

fn add(sum: usize, more: usize) -> usize
    ensures { result ≡ capped (sum + more) }
{
    sum.saturating_add(more).min(CAP)
}

#[tactic(auto, using(crate::proofs::Sizes::size_from))]
fn size(object: &Object) -> usize
    ensures { result ≡ capped (size_of object.now) }
{
    let labels = labels_size(object.labels.as_slice());
    let annotations = pairs_size(object.annotations.as_slice());
    add(add(labels, annotations), specified_size(&object.payload))
}

/// The size of the text of what a request gives.
fn specified_size(payload: &Payload) -> usize
    ensures { result ≡ capped (specified_size payload.now) }
{
    match payload {
        Payload::Namespace { .. } | Payload::Anchor { .. } => "{}".len(),
        Payload::Config { entries } => config_size(entries.as_slice()),
        Payload::Hierarchy {
            parent,
            cascade,
            ..
        } => hierarchy_size(parent, *cascade),
        Payload::Quota { hard, .. } => quota_size(hard.as_slice()),
        Payload::Plain { members, .. } => members.as_bytes().len().min(CAP),
    }
}

#[tactic(auto, using(crate::proofs::Sizes::config_size_from))]
fn config_size(entries: &[ModeEntry]) -> usize
    ensures { result ≡ capped (config_size entries.now) }
{
    add(
        r#"{"spec":{"resources":[}}"#.len(),
        entries_size(entries).max(1),
    )
}

#[tactic(auto, using(crate::proofs::Sizes::quota_size_from))]
fn quota_size(hard: &[Limit]) -> usize
    ensures { result ≡ capped (quota_size hard.now) }
{
    add(r#"{"spec":{"hard":{}}"#.len(), limits_size(hard).max(1))
}

fn labels_size(labels: &[(Text, Text)]) -> usize
    ensures { result ≡ capped_sum (λ label. capped (pair_size label)) (counted labels.now) }
{
    let mut sum = 0;
    for label in labels {
        if is_counted(label) {
            sum = add(sum, pair_size(label));
        }
    }
    sum
}

fn pair_size(pair: &(Text, Text)) -> usize
    ensures { result ≡ capped (pair_size pair.now) }
{
    add(pair.0.as_bytes().len(), pair.1.as_bytes().len())
}

fn pairs_size(pairs: &[(Text, Text)]) -> usize
    ensures { result ≡ capped_sum (λ pair. capped (pair_size pair)) pairs.now }
{
    let mut sum = 0;
    for pair in pairs {
        sum = add(sum, pair_size(pair));
    }
    sum
}

#[tactic(auto, using(crate::proofs::Sizes::hierarchy_sizes))]
fn hierarchy_size(parent: &Option<Text>, cascade: bool) -> usize
    ensures { result ≡ capped (hierarchy_size parent.now cascade) }
{
    match parent {
        None if cascade => r#"{"spec":{"allowCascadingDeletion":true}}"#.len(),
        None => r#"{"spec":{}}"#.len(),
        Some(parent) if cascade => add(
            r#"{"spec":{"allowCascadingDeletion":true,"parent":}}"#.len(),
            quoted_size(parent.as_bytes()),
        ),
        Some(parent) => add(
            r#"{"spec":{"parent":}}"#.len(),
            quoted_size(parent.as_bytes()),
        ),
    }
}

/// Each entry has a comma or the last bracket behind it.
fn entries_size(entries: &[ModeEntry]) -> usize
    ensures { result ≡ capped_sum (λ entry. capped (entry_size entry)) entries.now }
{
    let mut sum = 0;
    for entry in entries {
        sum = add(sum, entry_size(entry));
    }
    sum
}

/// The size of an entry and of one byte more.
#[tactic(auto, using(crate::proofs::Sizes::entry_size_from))]
fn entry_size(entry: &ModeEntry) -> usize
    ensures { result ≡ capped (entry_size entry.now) }
{
    let texts = add(
        quoted_size(entry.group.as_bytes()),
        quoted_size(entry.resource.as_bytes()),
    );
    add(
        texts,
        r#"{"group":,"mode":"","resource":},"#.len() + entry.mode.name().len(),
    )
}

/// Each limit has a comma or the last brace behind it.
fn limits_size(limits: &[Limit]) -> usize
    ensures { result ≡ capped_sum (λ limit. capped (limit_size limit)) limits.now }
{
    let mut sum = 0;
    for limit in limits {
        sum = add(sum, limit_size(limit));
    }
    sum
}

/// The size of a limit as a member, and of one byte more.
#[tactic(auto, using(crate::proofs::Sizes::limit_size_from))]
fn limit_size(limit: &Limit) -> usize
    ensures { result ≡ capped (limit_size limit.now) }
{
    let texts = add(
        quoted_size(limit.resource.as_bytes()),
        quoted_size(limit.written.as_bytes()),
    );
    add(texts, ":,".len())
}

#[tactic(auto, using(crate::proofs::Sizes::quoted_size_from))]
fn quoted_size(text: &[u8]) -> usize
    ensures { result ≡ capped (length (quoted text.now)) }
{
    add(2, escaped_size(text))
}

fn escaped_size(bytes: &[u8]) -> usize
    ensures { result ≡ capped_sum (λ byte. length (escape_byte byte)) bytes.now }
{
    let mut sum = 0;
    for byte in bytes {
        sum = add(sum, escape_size(*byte));
    }
    sum
}

#[tactic(auto, unfolding(json::specs::Print::escape_byte))]
fn escape_size(byte: u8) -> usize
    ensures { result ≡ length (escape_byte byte) }
{
    if has_letter(byte) {
        2
    } else if byte < 32 {
        6
    } else {
        1
    }
}

/// Whether the byte is escaped by a backslash and a letter.
fn has_letter(byte: u8) -> bool
    ensures { result ≡ nat_lt 0 (escape_letter byte) }
{
    byte == b'"'
        || byte == b'\\'
        || byte == 8
        || byte == 12
        || byte == b'\n'
        || byte == b'\r'
        || byte == b'\t'
}
