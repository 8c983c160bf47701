// The window of events, with readers at each distance, and hubs of which one watcher refuses.
ghost use Rattle.std.specs.Prelude.{◌≡◌, ◌<◌, IfOk};

use crate::made::namespace;
use hx_model::{Event, What};
use hx_object::{NoMemory, Shared};
use hx_watch::{Hub, MemWatcher, Refused, SinceFault, Watcher, Window};
use std::alloc::Global;
use std::cell::Cell;
use std::rc::Rc;
use std::test::Fail;

/// How many events a window keeps.
const KEPT: u64 = 8192;

fn event(object: &Shared, version: u64) -> Result<Event, NoMemory>
    ensures { IfOk result (λ event. event.version ≡ version) }
{
    Ok(Event {
        version,
        what: What::Added,
        object: object.share()?,
    })
}

/// A window to which events came, two of each version from 1 on.
fn filled(alloc: Global, object: &Shared, count: u64) -> Result<Window, NoMemory> {
    let mut window = Window::new(alloc, 0)?;
    for n in 0..count {
        window.push(event(object, n / 2 + 1)?);
    }
    Ok(window)
}

/// Whether these are the events since a version, of so many that came.
fn are_since(events: &[Event], since: u64, count: u64) -> bool {
    let mut n = since.saturating_mul(2);
    if events.len() as u64 != count.saturating_sub(n) {
        return false;
    }
    for event in events {
        if event.version != n / 2 + 1 {
            return false;
        }
        n = n.saturating_add(1);
    }
    true
}

/// Whether a window gives the events since a version, of so many that came, or tells the floor.
fn is_exact(window: &Window, since: u64, floor: u64, count: u64) -> bool {
    match window.since(since) {
        Ok(events) => since >= floor && are_since(events.as_slice(), since, count),
        Err(SinceFault::Expired { floor: told }) => since < floor && told == floor,
        Err(SinceFault::NoMemory) => false,
    }
}

/// Whether a window that lost so many events is exact around its floor.
fn is_exact_at_its_floor(alloc: Global, object: &Shared, lost: u8) -> Result<bool, NoMemory> {
    let count = KEPT + u64::from(lost);
    let window = filled(alloc, object, count)?;
    let floor = u64::from(lost).div_ceil(2);
    let mut exact = window.floor() == floor;
    for since in 0..6 {
        exact = exact && is_exact(&window, since, floor, count);
    }
    Ok(exact)
}

#[test]
fn the_edge_of_a_window_is_exact(rt: HostRuntime) -> Result<(), Fail> {
    let object = namespace(rt.alloc(), "a", &[], 1)?;
    for lost in 0..7 {
        let exact = is_exact_at_its_floor(rt.alloc(), &object, lost)?;
        assert!(rt; exact, "lost {lost}");
    }
    Ok(())
}

/// Whether a window that lost so many events is exact at each 61st version, up to those that came last.
fn is_exact_throughout(alloc: Global, object: &Shared, lost: u8) -> Result<bool, NoMemory> {
    let count = KEPT + u64::from(lost);
    let window = filled(alloc, object, count)?;
    let floor = u64::from(lost).div_ceil(2);
    let mut exact = true;
    for at in 0..68u64 {
        exact = exact && is_exact(&window, 61 * at, floor, count);
    }
    Ok(exact)
}

#[test]
fn readers_at_all_distances_get_what_came_since(rt: HostRuntime) -> Result<(), Fail> {
    let object = namespace(rt.alloc(), "a", &[], 1)?;
    let exact = is_exact_throughout(rt.alloc(), &object, 101)?;
    assert!(rt; exact);
    Ok(())
}

/// Writes the version of each event that it receives behind those before, as a decimal digit.
#[derive(Drop)]
struct Digits {
    watcher: MemWatcher,
    digits: Rc<Cell<u64>>,
}

impl Watcher for Digits {
    ghost shown = { λ d. ⟦<MemWatcher as Watcher>⟧.shown d.watcher };

    fn push(&mut self, event: &Event) -> Result<(), Refused> {
        self.watcher.push(event)?;
        let before = self.digits.get().wrapping_mul(10);
        self.digits.set(before.wrapping_add(event.version));
        Ok(())
    }
}

/// A watcher that refuses from an event on is added. Gives what it writes into.
fn join(alloc: Global, hub: &mut Hub<Digits>, refuse: u64) -> Result<Rc<Cell<u64>>, NoMemory> {
    let digits = Rc::new(alloc, Cell::new(0))?;
    let watcher = Digits {
        watcher: MemWatcher::new(alloc, refuse),
        digits: digits.clone()?,
    };
    match hub.add(watcher) {
        Ok(()) => Ok(digits),
        Err(_) => Err(NoMemory),
    }
}

/// What three watchers write that refuse from these events on, and how many are there and gone in the end.
fn told(
    alloc: Global,
    refuse: [u64; 3],
    events: u64,
) -> Result<([u64; 3], usize, usize), NoMemory> {
    let object = namespace(alloc, "a", &[], 1)?;
    let mut hub = Hub::new(alloc);
    let first = join(alloc, &mut hub, refuse[0])?;
    let second = join(alloc, &mut hub, refuse[1])?;
    let third = join(alloc, &mut hub, refuse[2])?;
    for n in 0..events {
        hub.publish(&event(&object, n.saturating_add(1))?);
    }
    let digits = [first.get(), second.get(), third.get()];
    Ok((digits, hub.len(), hub.gone()))
}

#[test]
fn the_others_are_not_disturbed(rt: HostRuntime) -> Result<(), Fail> {
    let told = told(rt.alloc(), [0, 2, 0], 3)?;
    assert!(rt; told == ([123, 1, 123], 2, 1));
    Ok(())
}

/// What a watcher of four events writes that refuses from one on.
const WRITTEN: [u64; 6] = [1234, 0, 1, 12, 123, 1234];

/// Whether hubs of three are told the right events where the one at a seat refuses from an event on, with 5 behind the last one.
fn is_told_right(alloc: Global, seat: usize, refuse: usize) -> Result<bool, NoMemory>
    requires seat { seat < 3 }
    requires refuse { refuse < 6 }
{
    let mut refusing = [0; 3];
    refusing[seat] = refuse as u64;
    let mut digits = [WRITTEN[0]; 3];
    digits[seat] = WRITTEN[refuse];
    let gone = usize::from(1 <= refuse && refuse <= 4);
    Ok(told(alloc, refusing, 4)? == (digits, 3 - gone, gone))
}

#[test]
fn each_may_refuse_at_each_event(rt: HostRuntime) -> Result<(), Fail> {
    for case in 0..18 {
        let right = is_told_right(rt.alloc(), case / 6, case % 6)?;
        assert!(rt; right, "case {case}");
    }
    Ok(())
}

/// What a watcher in memory keeps of events of the versions 1 to 3.
fn kept(alloc: Global, refuse: u64) -> Result<usize, NoMemory> {
    let object = namespace(alloc, "a", &[], 1)?;
    let mut watcher = MemWatcher::new(alloc, refuse);
    for version in 1..4 {
        let _ = watcher.push(&event(&object, version)?);
    }
    Ok(watcher.events().len())
}

#[test]
fn a_watcher_in_memory_keeps_events(rt: HostRuntime) -> Result<(), Fail> {
    assert_eq!(rt; kept(rt.alloc(), 0)?, 3);
    assert_eq!(rt; kept(rt.alloc(), 3)?, 2);
    Ok(())
}

/// What may go to another thread.
fn sent<T: Send>(value: T) -> T {
    value
}

#[test]
fn a_window_and_a_hub_may_go_to_other_threads(rt: HostRuntime) -> Result<(), Fail> {
    let window = sent(Window::new(rt.alloc(), 2)?);
    let mut hub = sent(Hub::new(rt.alloc()));
    let added = hub.add(MemWatcher::new(rt.alloc(), 0)).is_ok();
    assert!(rt; added && window.floor() == 2);
    Ok(())
}
