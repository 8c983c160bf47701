// The kinds of which copies may want a write.
ghost use Rattle.std.specs.Prelude.{◌≡◌, IfOk, filter};
ghost use Rattle.hx_audit.specs.Candidates.{active_kinds, is_active, is_ignored};

use crate::lookups::mode_of;
use hx_model::COPIED_KINDS;
use hx_object::{Kind, Mode, NoMemory};
use hx_survey::Survey;

/// The kinds that can be copied, of which there are objects, and which aren't ignored. Of no other kind a place wants a write.
pub(crate) fn active_kinds(survey: &Survey) -> Result<Vec<Kind>, NoMemory>
    ensures { IfOk result (λ kinds. kinds.items ≡ active_kinds survey.now) }
{
    active_among(survey, &COPIED_KINDS)
}

fn active_among(survey: &Survey, kinds: &[Kind]) -> Result<Vec<Kind>, NoMemory>
    ensures { IfOk result (λ active. active.items ≡ filter (is_active survey.now.objects) kinds.now) }
{
    let mut active = Vec::new(survey.allocator());
    for kind in kinds {
        if is_active(survey, *kind) {
            active.push(*kind)?;
        }
    }
    Ok(active)
}

fn is_active(survey: &Survey, kind: Kind) -> bool
    ensures { result ≡ is_active survey.now.objects kind }
{
    !is_ignored(mode_of(survey, kind)) && !survey.of_kind(kind).is_empty()
}

fn is_ignored(mode: Mode) -> bool
    ensures { result ≡ is_ignored mode }
{
    matches!(mode, Mode::Ignore)
}
