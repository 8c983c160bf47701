// The order of keys, and how early they are written.
ghost use Rattle.std.specs.Prelude.{◌≡◌};
ghost use Rattle.hx_order.specs.KeyOrder.{key_cmp, variant_of, place_of, number_in, name_in};
ghost use Rattle.hx_order.specs.Ranks.{rank_of};

use hx_model::Key;
use hx_object::Text;
use std::cmp::Ordering;

/// The order of keys: by their kind, in the order of its variants, then by namespace, then by the number of a copy's kind, then by name, texts by their bytes.
pub fn compare_keys(a: &Key, b: &Key) -> Ordering
    ensures { result ≡ key_cmp a.now b.now }
{
    let names = name_in(a).cmp(name_in(b));
    let kinds = number_in(a).cmp(&number_in(b)).then(names);
    let places = place_of(a).cmp(place_of(b)).then(kinds);
    variant_of(a).cmp(&variant_of(b)).then(places)
}

/// The place of a key's kind among the kinds of keys.
fn variant_of(key: &Key) -> u8
    ensures { result ≡ variant_of key.now }
{
    match key {
        Key::Copy { .. } => 0,
        Key::Tree { .. } => 1,
        Key::Report { .. } => 2,
        Key::Child { .. } => 3,
        Key::Anchor { .. } => 4,
        Key::Used { .. } => 5,
        Key::Purge { .. } => 6,
    }
}

/// Its namespace.
fn place_of(key: &Key) -> &Text
    ensures { result.now ≡ place_of key.now }
{
    match key {
        Key::Copy { ns, .. } => ns,
        Key::Tree { ns } => ns,
        Key::Report { ns } => ns,
        Key::Child { ns, .. } => ns,
        Key::Anchor { ns, .. } => ns,
        Key::Used { ns, .. } => ns,
        Key::Purge { ns } => ns,
    }
}

/// The number of the kind of a copy, and 0 of any other key.
fn number_in(key: &Key) -> u8
    ensures { result ≡ number_in key.now }
{
    match key {
        Key::Copy { kind, .. } => kind.number(),
        _ => 0,
    }
}

/// Its name, which is empty where it has none.
fn name_in(key: &Key) -> &[u8]
    ensures { result.now ≡ name_in key.now }
{
    match key {
        Key::Copy { name, .. } => name.as_bytes(),
        Key::Child { name, .. } => name.as_bytes(),
        Key::Anchor { name, .. } => name.as_bytes(),
        Key::Used { name, .. } => name.as_bytes(),
        _ => &[],
    }
}

/// How early a key is written: removals at first, then subnamespaces, tree labels, copies, reports, statuses of anchors, and last what quotas use.
pub fn rank(key: &Key) -> u8
    ensures { result ≡ rank_of key.now }
{
    match key {
        Key::Purge { .. } => 0,
        Key::Child { .. } => 1,
        Key::Tree { .. } => 2,
        Key::Copy { .. } => 3,
        Key::Report { .. } => 4,
        Key::Anchor { .. } => 5,
        Key::Used { .. } => 6,
    }
}
