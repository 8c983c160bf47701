// What writes do to places.
ghost use Rattle.std.specs.Prelude.{◌≡◌, [], ◌∷◌, OnOk, OnErr};
ghost use Rattle.hx_store.specs.Changes.{id_of};
ghost use Rattle.hx_model.specs.State.{after_writes};
ghost use Rattle.hx_store.specs.ObjectTable.{IsReady, IsSound, AreSwept, HasPlace, HasPlaces, HasSame, KeepsOthers, KeepsObjectTable, is_written, objects_at};
ghost use Rattle.hx_store.specs.ByName.{HasEntry, HasEntries, IsIndex, IsSwept, KeepsEntries};

use crate::by_name::ByName;
use crate::change::{Change, may_be_indexed};
use crate::object_table::ObjectTable;
use hx_object::{Id, NoMemory};

/// Makes a place for each object that is going to be stored. Where there is no memory for all, none is left.
pub(crate) fn make_places(
    places: &mut ObjectTable,
    by_name: &mut ByName,
    changes: &[Change],
) -> Result<(), NoMemory>
    requires ready { IsReady places.old [] }
    requires index { IsIndex by_name.old places.old }
    ensures objects { objects_at places.new ≡ objects_at places.old }
    ensures index { IsIndex by_name.new places.new }
    ensures ok { OnOk result (IsReady places.new changes.now) }
    ensures awaited { OnOk result (HasEntries by_name.new changes.now) }
    ensures err { OnErr result (IsReady places.new []) }
{
    match add_places(places, by_name, changes) {
        Ok(()) => Ok(()),
        Err(error) => {
            sweep_places(places, by_name, changes);
            Err(error)
        }
    }
}

/// Makes a place for each object that is going to be stored, as far as there is memory.
fn add_places(
    places: &mut ObjectTable,
    by_name: &mut ByName,
    changes: &[Change],
) -> Result<(), NoMemory>
    requires sound { IsSound places.old }
    requires index { IsIndex by_name.old places.old }
    ensures sound { IsSound places.new }
    ensures index { IsIndex by_name.new places.new }
    ensures same { HasSame places.old places.new }
    ensures others { KeepsOthers changes.now places.old places.new }
    ensures there { OnOk result (HasPlaces places.new changes.now) }
    ensures awaited { OnOk result (HasEntries by_name.new changes.now) }
{
    for change in changes {
        add_place(places, change)?;
        add_entry(by_name, places, change)?;
    }
    Ok(())
}

/// Makes a place for the object that a write stores.
fn add_place(places: &mut ObjectTable, change: &Change) -> Result<(), NoMemory>
    requires { IsSound places.old }
    ensures sound { IsSound places.new }
    ensures same { HasSame places.old places.new }
    ensures kept { KeepsObjectTable places.old places.new }
    ensures others { KeepsOthers (change.now ∷ []) places.old places.new }
    ensures there { OnOk result (HasPlace places.new change.now) }
{
    if change.object().is_none() {
        return Ok(());
    }
    places.make(change.id())
}

/// Makes a place in the index for the source or the anchor that a write stores. Where one lies there already, the index has it.
fn add_entry(by_name: &mut ByName, places: &ObjectTable, change: &Change) -> Result<(), NoMemory>
    requires { IsIndex by_name.old places.now }
    ensures index { IsIndex by_name.new places.now }
    ensures kept { KeepsEntries by_name.old by_name.new }
    ensures there { OnOk result (HasEntry by_name.new change.now) }
{
    if !change.puts_indexed() {
        return Ok(());
    }
    if places.has_indexed(change.id()) {
        return Ok(());
    }
    by_name.make(change.id())
}

/// Makes the writes, whose places are there. The objects move out of the changes. The index stays as it is.
pub(crate) fn make_writes(places: &mut ObjectTable, changes: &mut [Change])
    requires sound { IsSound places.old }
    requires there { HasPlaces places.old changes.old }
    ensures sound { IsSound places.new }
    ensures index { (by_name : ByName) → IsIndex by_name places.old → HasEntries by_name changes.old → IsIndex by_name places.new }
    ensures objects { objects_at places.new ≡ after_writes changes.old (objects_at places.old) }
    ensures others { KeepsOthers changes.old places.old places.new }
    ensures ids { (id : Id) → is_written changes.new id ≡ is_written changes.old id }
{
    for change in changes.iter_mut() {
        make_write(places, change);
    }
}

/// Makes a write, whose place is there.
fn make_write(places: &mut ObjectTable, change: &mut Change)
    requires sound { IsSound places.old }
    requires there { HasPlace places.old change.old }
    ensures sound { IsSound places.new }
    ensures index { (by_name : ByName) → IsIndex by_name places.old → HasEntry by_name change.old → IsIndex by_name places.new }
    ensures kept { KeepsObjectTable places.old places.new }
    ensures objects { objects_at places.new ≡ after_writes (change.old ∷ []) (objects_at places.old) }
    ensures others { KeepsOthers (change.old ∷ []) places.old places.new }
    ensures id { id_of change.new ≡ id_of change.old }
{
    let object = change.take();
    places.fill(change.id(), object);
}

/// Takes the empty places of writes away.
pub(crate) fn sweep_places(places: &mut ObjectTable, by_name: &mut ByName, changes: &[Change])
    requires sound { IsSound places.old }
    requires index { IsIndex by_name.old places.old }
    ensures sound { IsSound places.new }
    ensures index { IsIndex by_name.new places.new }
    ensures same { HasSame places.old places.new }
    ensures others { KeepsOthers changes.now places.old places.new }
    ensures swept { AreSwept places.new changes.now }
{
    for change in changes {
        places.sweep(change.id());
        sweep_entry(by_name, places, change.id());
    }
}

/// Takes the place of an identity in the index away, where no source and no anchor lies any more.
fn sweep_entry(by_name: &mut ByName, places: &ObjectTable, id: &Id)
    requires { IsIndex by_name.old places.now }
    ensures index { IsIndex by_name.new places.now }
    ensures swept { IsSwept by_name.new places.now id.now }
{
    if !may_be_indexed(id.kind) {
        return;
    }
    if places.has_indexed(id) {
        return;
    }
    by_name.sweep(id);
}
