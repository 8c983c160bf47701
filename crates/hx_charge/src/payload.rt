// What payloads hold that quotas look at.
ghost use Rattle.std.specs.Prelude.{◌≡◌};
ghost use Rattle.hx_model.specs.Charges.{hard_of, is_finished, storage_in, containers_in};

use hx_object::{Container, Limit, Payload};

/// The limits of a quota, in order of their names.
pub fn hard_of(payload: &Payload) -> &[Limit]
    ensures { result.now ≡ hard_of payload.now }
{
    match payload {
        Payload::Quota { hard, .. } => hard.as_slice(),
        _ => &[],
    }
}

/// Whether a Pod has ended.
pub(crate) fn is_finished(payload: &Payload) -> bool
    ensures { result ≡ is_finished payload.now }
{
    match payload {
        Payload::Plain { need, .. } => need.finished,
        _ => false,
    }
}

/// A claim's storage.
pub(crate) fn storage_in(payload: &Payload) -> u64
    ensures { result ≡ storage_in payload.now }
{
    match payload {
        Payload::Plain { need, .. } => need.storage,
        _ => 0,
    }
}

/// A Pod's containers, init containers among them.
pub(crate) fn containers_in(payload: &Payload) -> &[Container]
    ensures { result.now ≡ containers_in payload.now }
{
    match payload {
        Payload::Plain { need, .. } => need.containers.as_slice(),
        _ => &[],
    }
}
