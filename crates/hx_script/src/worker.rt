// The lines for reconcilers.
ghost use Rattle.std.specs.Prelude.{◌≡◌, ◌≤◌, List, ℕ, Some, IfOk, IfErr, IfSome, option_copied, option_map};
ghost use Rattle.hx_model.specs.declared.key.Key.{Key as NamedBy};
ghost use Rattle.hx_script.specs.Inside.{IsServedOrder, key_by};
ghost use Rattle.hx_script.specs.Workers.{copied_kind, copy_named, key_after, key_named, name_after, namespace_key, namespace_named, place_key, place_named, settle_order, take_order, turn_order, worker_named, worker_order};

use crate::order::Order;
use crate::words::{cut, number_in};
use hx_model::Key;
use hx_object::{Kind, NoMemory, Text, is_dns_label};
use std::alloc::Global;

/// A worker takes a key that its line names, and no memory was left for the key's texts.
#[derive(Clone, Copy, Debug, PartialEq, Eq)]
pub struct LostTake {
    pub worker: u32,
}

/// A key whose texts lie in the line that names it.
#[derive(Clone, Copy)]
pub enum NamedKey<'a> {
    Copy {
        ns: &'a str,
        kind: Kind,
        name: &'a str,
    },
    Tree {
        ns: &'a str,
    },
    Report {
        ns: &'a str,
    },
    Child {
        ns: &'a str,
        name: &'a str,
    },
    Anchor {
        ns: &'a str,
        name: &'a str,
    },
    Used {
        ns: &'a str,
        name: &'a str,
    },
    Purge {
        ns: &'a str,
    },
}

impl NamedKey<'_> {
    /// The key, with texts of its own.
    fn to_key(self, alloc: Global) -> Result<Key, NoMemory>
        ensures { IfOk result (λ key. key ≡ key_by self.entry) }
    {
        Ok(match self {
            NamedKey::Copy { ns, kind, name } => Key::Copy {
                ns: Text::of(alloc, ns)?,
                kind,
                name: Text::of(alloc, name)?,
            },
            NamedKey::Tree { ns } => Key::Tree {
                ns: Text::of(alloc, ns)?,
            },
            NamedKey::Report { ns } => Key::Report {
                ns: Text::of(alloc, ns)?,
            },
            NamedKey::Child { ns, name } => Key::Child {
                ns: Text::of(alloc, ns)?,
                name: Text::of(alloc, name)?,
            },
            NamedKey::Anchor { ns, name } => Key::Anchor {
                ns: Text::of(alloc, ns)?,
                name: Text::of(alloc, name)?,
            },
            NamedKey::Used { ns, name } => Key::Used {
                ns: Text::of(alloc, ns)?,
                name: Text::of(alloc, name)?,
            },
            NamedKey::Purge { ns } => Key::Purge {
                ns: Text::of(alloc, ns)?,
            },
        })
    }
}

/// What a line in one of the forms for reconcilers orders. Only the texts of a key take memory.
#[tactic(auto, unfolding(crate::specs::Workers::worker_order))]
pub fn worker_order(alloc: Global, line: &str) -> Result<Option<Order>, LostTake>
    ensures order { IfOk result (λ order. order ≡ worker_order line.now) }
    ensures served { IfOk result (λ order. IfSome order IsServedOrder) }
    ensures lost { IfErr result (λ lost. (key : NamedBy) × (worker_order line.now ≡ Some (Order.Take lost.worker (Some key)))) }
{
    let (word, rest) = cut(line);
    let Some(rest) = rest else {
        return Ok(if word == "check" {
            Some(Order::Check)
        } else {
            None
        });
    };
    if word == "take" {
        take_order(alloc, rest)
    } else {
        Ok(turn_order(word, rest))
    }
}

/// Takes a key: one that waits or, where a key follows the worker, that one.
fn take_order(alloc: Global, text: &str) -> Result<Option<Order>, LostTake>
    ensures order { IfOk result (λ order. order ≡ take_order text.now) }
    ensures served { IfOk result (λ order. IfSome order IsServedOrder) }
    ensures lost { IfErr result (λ lost. (key : NamedBy) × (take_order text.now ≡ Some (Order.Take lost.worker (Some key)))) }
{
    let (word, rest) = cut(text);
    let Some(worker) = worker_named(word) else {
        return Ok(None);
    };
    let Some(rest) = rest else {
        return Ok(Some(Order::Take { worker, key: None }));
    };
    let Some(named) = key_named(rest) else {
        return Ok(None);
    };
    match named.to_key(alloc) {
        Ok(key) => Ok(Some(Order::Take {
            worker,
            key: Some(key),
        })),
        Err(NoMemory) => Err(LostTake { worker }),
    }
}

/// What the words order that take no memory.
fn turn_order(word: &str, text: &str) -> Option<Order>
    ensures order { result ≡ turn_order word.now text.now }
    ensures served { IfSome result IsServedOrder }
{
    match word {
        "finish" => Some(Order::Finish {
            worker: worker_named(text)?,
        }),
        "drop" => Some(Order::Drop {
            worker: worker_named(text)?,
        }),
        "settle" => settle_order(text),
        _ => None,
    }
}

fn settle_order(text: &str) -> Option<Order>
    ensures order { result ≡ settle_order text.now }
    ensures served { IfSome result IsServedOrder }
{
    Some(Order::Settle {
        turns: number_in(0, 1_000_000_000, text)?,
    })
}

/// The number of a worker, 1 to 64.
fn worker_named(text: &str) -> Option<u32>
    ensures worker { result ≡ worker_named text.now }
    ensures least { IfSome result (λ worker. 1 ≤ worker) }
{
    let worker = number_in(1, 64, text)?;
    Some(worker as u32)
}

// ---- keys

/// The key of a reconciler's work that the text names.
#[tactic(auto, unfolding(crate::specs::Workers::key_named))]
fn key_named(text: &str) -> Option<NamedKey<'_>>
    ensures { option_map key_by result ≡ key_named text.now }
{
    let (word, rest) = cut(text);
    key_after(word, rest?)
}

/// A key, by its first word and what follows it.
fn key_after<'a>(word: &str, rest: &'a str) -> Option<NamedKey<'a>>
    ensures { option_map key_by result ≡ key_after word.now rest.now }
{
    if word == "copy" {
        copy_named(rest)
    } else {
        namespace_key(word, rest)
    }
}

/// A key of a namespace, or of a namespace and a name.
fn namespace_key<'a>(word: &str, rest: &'a str) -> Option<NamedKey<'a>>
    ensures { option_map key_by result ≡ namespace_key word.now rest.now }
{
    match word {
        "tree" => Some(NamedKey::Tree {
            ns: namespace_named(rest)?,
        }),
        "report" => Some(NamedKey::Report {
            ns: namespace_named(rest)?,
        }),
        "purge" => Some(NamedKey::Purge {
            ns: namespace_named(rest)?,
        }),
        _ => place_key(word, rest),
    }
}

/// A key of a namespace and a name.
fn place_key<'a>(word: &str, rest: &'a str) -> Option<NamedKey<'a>>
    ensures { option_map key_by result ≡ place_key word.now rest.now }
{
    match word {
        "child" => {
            let (ns, name) = place_named(Kind::Namespace, rest)?;
            Some(NamedKey::Child { ns, name })
        }
        "anchor" => {
            let (ns, name) = place_named(Kind::SubnamespaceAnchor, rest)?;
            Some(NamedKey::Anchor { ns, name })
        }
        "used" => {
            let (ns, name) = place_named(Kind::HierarchicalResourceQuota, rest)?;
            Some(NamedKey::Used { ns, name })
        }
        _ => None,
    }
}

/// The text, where it is the name of a namespace.
fn namespace_named(text: &str) -> Option<&str>
    ensures { (make : List ℕ → NamedBy) → option_map (λ ns. make ns.now) result ≡ namespace_named make text.now }
{
    if is_dns_label(text.as_bytes()) {
        Some(text)
    } else {
        None
    }
}

/// A namespace, and behind it the name of an object of the kind.
fn place_named(kind: Kind, text: &str) -> Option<(&str, &str)>
    ensures { (make : List ℕ → List ℕ → NamedBy) → option_map (λ place. make place.0.now place.1.now) result ≡ place_named kind make text.now }
{
    let (ns, rest) = cut(text);
    if !is_dns_label(ns.as_bytes()) {
        return None;
    }
    let name = name_after(kind, rest)?;
    Some((ns, name))
}

/// A namespace, the plural of a copied kind, and the name of an object of that kind.
fn copy_named(text: &str) -> Option<NamedKey<'_>>
    ensures { option_map key_by result ≡ copy_named text.now }
{
    let (ns, rest) = cut(text);
    if !is_dns_label(ns.as_bytes()) {
        return None;
    }
    let (plural, rest) = cut(rest?);
    let kind = copied_kind(plural)?;
    let name = name_after(kind, rest)?;
    Some(NamedKey::Copy { ns, kind, name })
}

/// The kind of a plural, where its objects are copied.
fn copied_kind(plural: &str) -> Option<Kind>
    ensures { result ≡ copied_kind plural.now }
{
    let kind = Kind::of_plural(plural)?;
    if kind.can_be_copied() {
        Some(kind)
    } else {
        None
    }
}

/// The text that follows, where it is the name of an object of the kind.
fn name_after(kind: Kind, rest: Option<&str>) -> Option<&str>
    ensures { option_copied result ≡ name_after kind (option_copied rest.entry) }
{
    let name = rest?;
    if kind.is_name(name.as_bytes()) {
        Some(name)
    } else {
        None
    }
}
