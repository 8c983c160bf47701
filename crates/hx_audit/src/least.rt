// The least of some keys.
ghost use Rattle.std.specs.Prelude.{◌≡◌, Some};
ghost use Rattle.std.specs.Ordering.{is_lt};
ghost use Rattle.hx_audit.specs.Candidates.{lesser, least_from};

use hx_model::Key;
use hx_order::compare_keys;

/// The least of some keys and of one that was found before.
pub(crate) fn least_of(best: Option<Key>, keys: Vec<Key>) -> Option<Key>
    ensures { result ≡ least_from best keys.items }
{
    let mut best = best;
    for key in keys {
        best = Some(lesser(best, key));
    }
    best
}

/// The lesser of two keys.
fn lesser(best: Option<Key>, key: Key) -> Key
    ensures { result ≡ lesser best key }
{
    match best {
        Some(before) => lesser_of(before, key),
        None => key,
    }
}

fn lesser_of(before: Key, key: Key) -> Key
    ensures { result ≡ lesser (Some before) key }
{
    if compare_keys(&key, &before).is_lt() {
        key
    } else {
        before
    }
}
