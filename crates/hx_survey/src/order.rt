// An order of the places in the tree, in which each stands before its parent.
ghost use Rattle.std.specs.Prelude.{◌≡◌, false, length, replicate, IfOk, IfSome, OnOk, slice_index_or};
ghost use Rattle.std.specs.List.{list_all};
ghost use Rattle.hx_survey.specs.Sums.{IsOrder, IsPlacing, is_set_above};

use crate::walks::up_from;
use hx_object::NoMemory;
use std::alloc::Global;

/// An order in which each place stands before the one where its parent lies. None where a walk up comes to a ring.
pub(crate) fn bottom_up(
    alloc: Global,
    ups: &[Option<usize>],
) -> Result<Option<Vec<usize>>, NoMemory>
    ensures { IfOk result (λ found. IfSome found (λ order. IsOrder ups.now order.items)) }
{
    let mut places = Vec::new(alloc);
    let mut placed = none_placed(alloc, ups)?;
    for first in 0..ups.len() {
        put_line(alloc, ups, first, &mut places, &mut placed)?;
    }
    if places.len() != ups.len() || !all_set(&placed) {
        return Ok(None);
    }
    places.reverse();
    Ok(Some(places))
}

/// A mark for each place, none of which is set.
fn none_placed(alloc: Global, ups: &[Option<usize>]) -> Result<Vec<bool>, NoMemory>
    ensures { IfOk result (λ placed. placed.items ≡ replicate (length ups.now) false) }
{
    Ok(vec![in alloc; false; ups.len()]?)
}

/// Places all that a walk up from one passes and that aren't placed, the topmost first.
fn put_line(
    alloc: Global,
    ups: &[Option<usize>],
    first: usize,
    places: &mut Vec<usize>,
    placed: &mut Vec<bool>,
) -> Result<(), NoMemory>
    requires { IsPlacing ups.now places.old.items placed.old.items }
    ensures { OnOk result (IsPlacing ups.now places.new.items placed.new.items) }
{
    let mut line = line_from(alloc, ups, first, placed.as_slice())?;
    while let Some(place) = line.pop() {
        put(ups, place, places, placed)?;
    }
    Ok(())
}

/// What a walk up passes before it comes to one that is placed. In a cycle it stops after as many steps as there are namespaces.
fn line_from(
    alloc: Global,
    ups: &[Option<usize>],
    first: usize,
    placed: &[bool],
) -> Result<Vec<usize>, NoMemory> {
    let mut line = Vec::new(alloc);
    let mut at = Some(first);
    for _step in 0..ups.len() {
        let Some(place) = at else {
            return Ok(line);
        };
        if is_set(placed, place) {
            return Ok(line);
        }
        line.push(place)?;
        at = up_from(ups, place);
    }
    Ok(line)
}

/// Places one behind its parent, unless it is placed or its parent isn't.
fn put(
    ups: &[Option<usize>],
    place: usize,
    places: &mut Vec<usize>,
    placed: &mut Vec<bool>,
) -> Result<(), NoMemory>
    requires { IsPlacing ups.now places.old.items placed.old.items }
    ensures { OnOk result (IsPlacing ups.now places.new.items placed.new.items) }
{
    if place >= placed.len() || is_set(placed.as_slice(), place) {
        return Ok(());
    }
    if !is_set_above(placed.as_slice(), up_from(ups, place)) {
        return Ok(());
    }
    placed[place] = true;
    Ok(places.push(place)?)
}

/// Whether one is placed.
fn is_set(placed: &[bool], place: usize) -> bool
    ensures { result ≡ slice_index_or placed.now place false }
{
    match placed.get(place) {
        Some(is) => *is,
        None => false,
    }
}

/// Whether a parent is placed, if there is one.
fn is_set_above(placed: &[bool], up: Option<usize>) -> bool
    ensures { result ≡ is_set_above placed.now up }
{
    match up {
        Some(up) => is_set(placed, up),
        None => true,
    }
}

/// Whether all are placed.
fn all_set(placed: &[bool]) -> bool
    ensures { result ≡ list_all (λ is. is) placed.now }
{
    for is in placed {
        if !*is {
            return false;
        }
    }
    true
}
