// Which source wins at a place.
ghost use Rattle.std.specs.Prelude.{◌≡◌, ◌&&◌, not, IfOk, option_copied};
ghost use Rattle.hx_model.specs.Exceptions.{is_false, none_of, passes};
ghost use Rattle.hx_model.specs.Propagation.{goes_to, is_propagated, is_source, is_token, stays_home, top_of};

use crate::exceptions::passes_none;
use crate::reach::Reach;
use hx_model::is_source;
use hx_object::well_known::ROOT_CERTIFICATES;
use hx_object::{Kind, Mode, NoMemory, Object, Pairs, Payload, Shared};
use std::alloc::Global;

/// The source that wins where a namespace has these labels: the first one that goes there, of those in the namespaces above, the farthest first.
pub(crate) fn top_source<'a>(
    alloc: Global,
    mode: Mode,
    labels: &Pairs,
    sources: &'a [Shared],
) -> Result<Option<&'a Shared>, NoMemory>
    ensures { IfOk result (λ top. option_copied top ≡ top_of mode labels.now sources.now) }
{
    for source in sources {
        if goes_to(alloc, mode, source.object(), labels)? {
            return Ok(Some(source));
        }
    }
    Ok(None)
}

/// Whether a source of a kind in this mode goes to a namespace of these labels below its own. Where it is asked of several, its [`Reach`] is read once.
pub(crate) fn goes_to(
    alloc: Global,
    mode: Mode,
    source: &Object,
    labels: &Pairs,
) -> Result<bool, NoMemory>
    ensures { IfOk result (λ goes. goes ≡ goes_to mode source.now labels.now) }
{
    if !matches!(mode, Mode::Propagate) {
        return Ok(false);
    }
    let reach = Reach::of(alloc, source)?;
    Ok(reach.has(labels))
}

/// Whether a source of a kind in this mode goes to some labels or other: what its exceptions say of labels counts for nothing.
pub fn is_sent(mode: Mode, source: &Object) -> bool
    ensures { result ≡ (is_propagated mode && (is_source source.now && (not (stays_home source.now) && passes is_false (none_of source.now)))) }
{
    matches!(mode, Mode::Propagate) && may_leave(source)
}

/// Whether the object is a source that may go to the namespaces below, as far as no labels are asked.
pub(crate) fn may_leave(object: &Object) -> bool
    ensures { result ≡ (is_source object.now && (not (stays_home object.now) && passes is_false (none_of object.now))) }
{
    is_source(object) && !stays_home(object) && passes_none(object)
}

/// Whether the object goes nowhere: the certificates that Kubernetes keeps in each namespace, and the token of a service account.
pub fn stays_home(object: &Object) -> bool
    ensures { result ≡ stays_home object.now }
{
    matches!(object.id.kind, Kind::ConfigMap) && object.id.name.as_str() == ROOT_CERTIFICATES
        || is_token(&object.payload)
}

fn is_token(payload: &Payload) -> bool
    ensures { result ≡ is_token payload.now }
{
    match payload {
        Payload::Plain { need, .. } => need.token,
        _ => false,
    }
}
