// Rings of the tree, each cut open at its least place.
ghost use Rattle.std.specs.Prelude.{◌≡◌, Some, IfOk, length};
ghost use Rattle.hx_survey.specs.Seams.{AreCuts, AreSeams, cut_at, is_seam, least_on, seam_at, shared_at};

use crate::walks::{passes, up_from};
use hx_object::NoMemory;
use std::alloc::Global;

/// For each place the least one of the ring that it is in, if it is in one.
pub(crate) fn seams_of(alloc: Global, ups: &[Option<usize>]) -> Result<Vec<Option<usize>>, NoMemory>
    ensures { IfOk result (λ seams. AreSeams ups.now seams.items) }
{
    let mut seams = Vec::new(alloc);
    for place in 0..ups.len() {
        seams.push(seam_at(ups, place))?;
    }
    Ok(seams)
}

/// Where a walk up from each place goes on that stops where rings are cut open.
pub(crate) fn cuts_of(
    alloc: Global,
    ups: &[Option<usize>],
    seams: &[Option<usize>],
) -> Result<Vec<Option<usize>>, NoMemory>
    ensures { IfOk result (λ cuts. AreCuts ups.now seams.now cuts.items) }
{
    let mut cuts = Vec::new(alloc);
    for place in 0..ups.len() {
        cuts.push(cut_at(ups, seams, place))?;
    }
    Ok(cuts)
}

/// The place that has the sum of a place: that of its ring, or it itself.
pub(crate) fn shared_at(seams: &[Option<usize>], place: usize) -> usize
    ensures { result ≡ shared_at seams.now place }
{
    match up_from(seams, place) {
        Some(seam) => seam,
        None => place,
    }
}

/// The least place of the ring that a place is in.
fn seam_at(ups: &[Option<usize>], place: usize) -> Option<usize>
    ensures { result ≡ seam_at ups.now place }
{
    if passes(ups, up_from(ups, place), place) {
        Some(least_from(ups, place))
    } else {
        None
    }
}

/// The least place that a walk up passes.
fn least_from(ups: &[Option<usize>], first: usize) -> usize
    ensures { result ≡ least_on (length ups.now) ups.now (Some first) first }
{
    let mut least = first;
    let mut at = Some(first);
    let mut left = ups.len();
    while left > 0 {
        left -= 1;
        let Some(place) = at else {
            return least;
        };
        least = least.min(place);
        at = up_from(ups, place);
    }
    least
}

/// Where a walk up goes on.
fn cut_at(ups: &[Option<usize>], seams: &[Option<usize>], place: usize) -> Option<usize>
    ensures { result ≡ cut_at ups.now seams.now place }
{
    if is_seam(seams, place) {
        None
    } else {
        up_from(ups, place)
    }
}

/// Whether a ring is cut open at a place.
fn is_seam(seams: &[Option<usize>], place: usize) -> bool
    ensures { result ≡ is_seam seams.now place }
{
    match up_from(seams, place) {
        Some(seam) => seam == place,
        None => false,
    }
}
