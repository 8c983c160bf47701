// A door that several sessions share.
ghost use Rattle.std.specs.Prelude.{◌≡◌, ◌<◌, ◌++◌, ◌∷◌, [], true, Some, IfOk, IfErr, IfSome};
ghost use Rattle.hx_door.specs.Doors.{AreFresh};
ghost use Rattle.hx_turn.specs.Passes.{IsInside, IsOutside, after_entry, after_split, all_rights, first_pass, split_off};
ghost use Rattle.hx_sessions.specs.Held.{Adds, EndsBy, HaveLed, HeldView, IsLeftBy, Leads, Meets, held_at, told_of};

use hx_door::{Door, DoorFault, Link};
use hx_turn::{Entry, Pass, Patience, Stands, Turn};
use std::alloc::Global;
use std::marker::{Brand, Model, PhantomData};
use std::sync::Wait;

/// What a session was told by the door, as a history has it. No value of it is made.
pub enum Told {
    /// A link was handed out.
    Linked,
    /// No link more is asked for.
    Over,
    /// The door failed.
    Failed,
    /// A link that had ended was taken back.
    Back,
}

/// A door that is held for sessions, of which so many links are wanted.
pub struct HeldDoor<D: Door> {
    door: D,
    most: u64,
    taken: u64,
    over: bool,
    failed: bool,
}

impl<D: Door> Model for HeldDoor<D> {
    ghost use Rattle.hx_sessions.specs.Held.{HeldView, held_view_code};

    ghost Value = { HeldView };

    ghost coded = { held_view_code };

    ghost view = { λ h. record { door = D.shown h.door; most = h.most; taken = h.taken; over = h.over; failed = h.failed } };
}

impl<D: Door> HeldDoor<D> {
    /// Nothing was asked of it yet.
    pub fn new(door: D, most: u64) -> HeldDoor<D>
        ensures { result ≡ held_at (D.shown door) most }
    {
        HeldDoor {
            door,
            most,
            taken: 0,
            over: false,
            failed: false,
        }
    }

    /// The door, and how many links it handed out, or that it failed.
    pub fn into_parts(self) -> (D, Result<u64, DoorFault>)
        ensures door { D.shown result.0 ≡ self.door }
        ensures end { EndsBy self result.1 }
    {
        let HeldDoor {
            door,
            most: _,
            taken,
            over: _,
            failed,
        } = self;
        if failed {
            return (door, Err(DoorFault));
        }
        (door, Ok(taken))
    }

    /// Asks the door for a link, where one is still wanted of it. Else, and where none comes any more, it answers `None`.
    pub fn accept(&mut self) -> Result<Option<Link<D::Input, D::Output>>, DoorFault>
        ensures leads { Leads self.old (told_of result) self.new }
        ensures fresh { IfOk result (λ next. IfSome next (λ link. AreFresh (D.Input.shown link.source) (D.Output.shown link.sink))) }
    {
        if self.over || self.taken >= self.most {
            self.over = true;
            return Ok(None);
        }
        match self.door.accept() {
            Ok(Some(link)) => {
                self.taken += 1;
                Ok(Some(link))
            }
            Ok(None) => {
                self.over = true;
                Ok(None)
            }
            Err(fault) => {
                self.over = true;
                self.failed = true;
                Err(fault)
            }
        }
    }

    /// Takes back the sink of a link that has ended.
    pub fn take_back(&mut self, sink: D::Output)
        ensures { Leads self.old Told.Back self.new }
    {
        self.door.take_back(sink);
    }
}

impl<D: Door> Stands<Told, HeldDoor<D>> for HeldDoor<D> {
    ghost use Rattle.hx_sessions.specs.Held.{HaveLed};

    ghost opening = { λ h. h };

    ghost stands = { λ h o log. HaveLed o log h };
}

/// What a turn at the door tells. Each call of a program picks it.
trait Telling {
    ghost use Rattle.hx_sessions.specs.declared.door.Told.{Told};

    ghost told: { Told };
}

impl Telling for Brand {
    ghost use Rattle.hx_sessions.specs.declared.door.Told.TheVariants as told_as;

    ghost told = { told_as.Over };
}

struct Picked<J> {
    of: PhantomData<J>,
}

impl<J: Telling> Entry<Told> for Picked<J> {
    ghost entry = { J.told };
}

struct Back;

impl Entry<Told> for Back {
    ghost use Rattle.hx_sessions.specs.declared.door.Told.TheVariants as told_as;

    ghost entry = { told_as.Back };
}

/// A door that several sessions share: each asks it for links in its turn, which lasts until a link comes. Contracts see which one it is, and a pass is one of it where its `table_id` is the same. Of each pass they see what its session was told.
///
/// It has to be closed with its first pass: the door isn't dropped with it.
pub struct SharedDoor<D: Door> {
    turn: Turn<HeldDoor<D>, Told, HeldDoor<D>>,
}

impl<D: Door> Model for SharedDoor<D> {
    ghost use Rattle.atomic_table.specs.Seated.{TableId, table_id_coded};

    ghost Value = { TableId };

    ghost coded = { table_id_coded };

    ghost view = { λ s. s.turn };
}

/// A session's pass to a door.
pub type DoorPass<D> = Pass<HeldDoor<D>, Told, HeldDoor<D>>;

impl<D: Door> SharedDoor<D> {
    /// Shares a door that is held, and gives its first pass. Where no memory is left the door comes back.
    pub fn make(
        alloc: Global,
        held: HeldDoor<D>,
    ) -> Result<(SharedDoor<D>, DoorPass<D>), HeldDoor<D>>
        ensures own { IfOk result (λ made. made.1.table_id ≡ made.0) }
        ensures first { IfOk result (λ made. made.1.me ≡ (first_pass held, [])) }
        ensures refused { IfErr result (λ back. back ≡ held) }
    {
        match Turn::make(alloc, Patience::for_long_turns(), held) {
            Ok((turn, pass)) => Ok((SharedDoor { turn }, pass)),
            Err(held) => Err(held),
        }
    }

    /// A pass more, which was told as much as the first.
    pub fn split(&self, pass: &mut DoorPass<D>) -> DoorPass<D>
        requires own { pass.old.table_id ≡ self.now }
        requires first { pass.old.me.0.first ≡ true }
        requires outside { IsOutside pass.old.me }
        requires room { 1 < pass.old.me.0.rights }
        ensures own { pass.new.table_id ≡ self.now }
        ensures left { pass.new.me ≡ (after_split pass.old.me.0, []) }
        ensures new { result.table_id ≡ self.now }
        ensures split { result.me ≡ (split_off pass.old.me.0, []) }
    {
        self.turn.split(pass)
    }

    /// The first pass meets one that was split off, which is gone then. What both were told begins what the one was told that stays.
    pub fn meet(&self, pass: &mut DoorPass<D>, other: DoorPass<D>)
        requires own { pass.old.table_id ≡ self.now }
        requires outside { IsOutside pass.old.me }
        requires other { other.table_id ≡ self.now }
        requires idle { IsOutside other.me }
        ensures own { pass.new.table_id ≡ self.now }
        ensures outside { IsOutside pass.new.me }
        ensures meets { Meets pass.old.me.0 other.me.0 pass.new.me.0 }
    {
        self.turn.join(pass, other);
    }

    /// Gives the door back. What sessions were told in all begins with what the first pass was told.
    pub fn close(self, pass: DoorPass<D>) -> HeldDoor<D>
        requires own { pass.table_id ≡ self }
        requires outside { IsOutside pass.me }
        requires last { pass.me.0.rights ≡ all_rights }
        ensures { IsLeftBy pass.me.0 result }
    {
        let SharedDoor { turn } = self;
        turn.close(pass)
    }

    /// Waits for the next link, or says by `None` that none more comes: the door is closed, as many were handed out as are wanted, or it failed before.
    pub fn accept<R: Wait>(
        &self,
        rt: &R,
        pass: &mut DoorPass<D>,
    ) -> Result<Option<Link<D::Input, D::Output>>, DoorFault>
        requires own { pass.old.table_id ≡ self.now }
        requires outside { IsOutside pass.old.me }
        ensures own { pass.new.table_id ≡ self.now }
        ensures outside { IsOutside pass.new.me }
        ensures adds { Adds pass.old.me.0 (told_of result) pass.new.me.0 }
        ensures fresh { IfOk result (λ next. IfSome next (λ link. AreFresh (D.Input.shown link.source) (D.Output.shown link.sink))) }
    {
        let mut held = self.turn.enter(rt, pass);
        let answer = held.accept();
        leave_told::<D, Brand>(&self.turn, pass, held, &answer);
        answer
    }

    /// Gives the sink of a link back that has ended.
    pub fn take_back<R: Wait>(&self, rt: &R, pass: &mut DoorPass<D>, sink: D::Output)
        requires own { pass.old.table_id ≡ self.now }
        requires outside { IsOutside pass.old.me }
        ensures own { pass.new.table_id ≡ self.now }
        ensures outside { IsOutside pass.new.me }
        ensures adds { Adds pass.old.me.0 Told.Back pass.new.me.0 }
    {
        let mut held = self.turn.enter(rt, pass);
        held.take_back(sink);
        leave_back(&self.turn, pass, held);
    }
}

/// Passes the turn on. The history has what the answer tells behind it.
fn leave_told<D: Door, J: Telling>(
    turn: &Turn<HeldDoor<D>, Told, HeldDoor<D>>,
    pass: &mut DoorPass<D>,
    held: HeldDoor<D>,
    answer: &Result<Option<Link<D::Input, D::Output>>, DoorFault>,
)
    requires picked { J.told ≡ told_of answer.now }
    requires own { pass.old.table_id ≡ turn.now }
    requires inside { IsInside pass.old.me }
    requires stands { (o : HeldView) × (pass.old.me.0.opening ≡ Some o) × HaveLed o (pass.old.me.0.seen ++ (pass.old.me.0.number, told_of answer.now) ∷ []) held }
    ensures own { pass.new.table_id ≡ turn.now }
    ensures entry { pass.new.me ≡ (after_entry pass.old.me.0 (told_of answer.now), []) }
{
    turn.leave::<Picked<J>>(pass, held);
}

/// Passes the turn on. The history has behind it that a link was taken back.
fn leave_back<D: Door>(
    turn: &Turn<HeldDoor<D>, Told, HeldDoor<D>>,
    pass: &mut DoorPass<D>,
    held: HeldDoor<D>,
)
    requires own { pass.old.table_id ≡ turn.now }
    requires inside { IsInside pass.old.me }
    requires stands { (o : HeldView) × (pass.old.me.0.opening ≡ Some o) × HaveLed o (pass.old.me.0.seen ++ (pass.old.me.0.number, Told.Back) ∷ []) held }
    ensures own { pass.new.table_id ≡ turn.now }
    ensures entry { pass.new.me ≡ (after_entry pass.old.me.0 Told.Back, []) }
{
    turn.leave::<Back>(pass, held);
}
