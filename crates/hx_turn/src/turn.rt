// The lock.
ghost use Rattle.std.specs.Prelude.{◌≡◌, ℕ, ◌<◌, ◌%◌, ◌^◌, Some, true, false, List, [], ◌∷◌, ◌++◌, None, IfOk, IfErr};
ghost use mathlib.Core.List.{IsPrefix};
ghost use Rattle.hx_turn.specs.Passes.{IsInside, IsOutside, Keeps, after_entry, after_split, all_rights, carrying, first_pass, joined, split_off};
ghost use Rattle.hx_turn.specs.Steps.{Served};

use crate::bells::Bells;
use crate::turnstile::Turnstile;
use crate::view::View;
use atomic_table::{Join, Play, Refused, Seat, Split, Table, TableRule};
use std::alloc::{AllocFailed, Global};
use std::marker::{Model, PhantomData};
use std::snapshot::Snapshot;
use std::sync::Wait;
use std::{hint, thread};

/// A type whose values lie under a lock. `E` are the entries of its histories, and `O` is what a value opens with.
pub trait Stands<E, O> {
    /// What a value opens with.
    ghost opening: { Self → O };

    /// The value stands for a history, each entry with the number of its pass, that opened so.
    ghost stands: { Self → O → List (ℕ × E) → Type 0 };
}

/// The entry that a call adds, which its caller picks.
pub trait Entry<E> {
    ghost entry: { E };
}

/// The rule of a lock, by which its table is kept.
pub struct Turns;

impl<T: Stands<E, O>, E, O> TableRule<Option<T>, View<E, O>, Snapshot<T>> for Turns {
    ghost use Rattle.hx_turn.specs.Passes.{first_pass};
    ghost use Rattle.hx_turn.specs.Rule.{Kept};

    ghost holds = { λ k. Kept T.stands (T.opening k.value) };

    ghost first = { λ k. first_pass (T.opening k.value) };
}

struct Draw;

impl<T: Stands<E, O>, E, O> Play<Option<T>, View<E, O>> for Draw {
    ghost use Rattle.hx_turn.specs.Steps.{Draws};

    ghost then = { Draws T.stands };
}

struct Look;

impl<T: Stands<E, O>, E, O> Play<Option<T>, View<E, O>> for Look {
    ghost use Rattle.hx_turn.specs.Steps.{Looks};

    ghost then = { Looks T.stands };
}

struct Hear;

impl<T: Stands<E, O>, E, O> Play<Option<T>, View<E, O>> for Hear {
    ghost use Rattle.hx_turn.specs.Steps.{Hears};

    ghost then = { Hears T.stands };
}

struct Leave<L> {
    entry: PhantomData<L>,
}

impl<T, E, O, L: Entry<E>> Play<Option<T>, View<E, O>> for Leave<L> {
    ghost use Rattle.hx_turn.specs.Steps.{Leaves};

    ghost then = { Leaves L.entry };
}

struct Cut;

impl<E, O> Split<View<E, O>> for Cut {
    ghost use Rattle.hx_turn.specs.Passes as passes;

    ghost left = { passes.after_split };

    ghost right = { passes.split_off };
}

struct Glue;

impl<E, O> Join<View<E, O>> for Glue {
    ghost use Rattle.hx_turn.specs.Passes as passes;

    ghost both = { passes.joined };

    ghost spent = { passes.spent };
}

/// A caller's pass to a lock. It has no bytes, and contracts see what it knows (`me.0`), what it has out of the slot (`me.1`), and whose it is (`table_id`).
pub type Pass<T, E, O> = Seat<Option<T>, View<E, O>>;

/// How long a caller waits before it draws a ticket, and how long it looks for its turn then before it sleeps.
#[derive(Clone, Copy)]
pub struct Patience {
    /// How often it looks, one look right behind the other.
    pub looks: u64,
    /// How often it looks then, and lets other threads run between two looks.
    pub yields: u64,
    /// How often it sleeps then, before it draws a ticket although others are inside. With a ticket it sleeps until its turn comes.
    pub sleeps: u64,
}

impl Patience {
    /// For turns that are short beside the time that it takes to put a thread to sleep and to wake it.
    pub fn for_short_turns() -> Patience {
        Patience {
            looks: 100,
            yields: 32,
            sleeps: 1,
        }
    }

    /// For turns that last, as one does that waits for the outside: it draws a ticket at once, looks, and sleeps.
    pub fn for_long_turns() -> Patience {
        Patience {
            looks: 0,
            yields: 0,
            sleeps: 0,
        }
    }
}

/// A lock over a value. Contracts see which lock it is, and a pass is one of it where its `table_id` is the same.
///
/// It ends by `close` alone, which gives the value back.
pub struct Turn<T: Stands<E, O>, E, O> {
    patience: Patience,
    turnstile: Turnstile,
    bells: Bells,
    table: Table<Option<T>, View<E, O>, Snapshot<T>, Turns, Global>,
}

impl<T: Stands<E, O>, E, O> Model for Turn<T, E, O> {
    ghost use Rattle.std.specs.Prelude.{◌≡◌};
    ghost use Rattle.atomic_table.specs.Seated.{TableId, table_id_coded};

    ghost Value = { TableId };

    ghost coded = { table_id_coded };

    ghost view = { λ t. t.table.shared.table_id };

    ghost invariant = { λ t. (t.table.shared.table_id.words ≡ 2) × (t.table.shared.table_id.slots ≡ 1) };
}

impl<T: Stands<E, O>, E, O> Turn<T, E, O> {
    /// A lock over a value that stands for the history without entries, and its first pass. Where no memory is left the value comes back.
    pub fn make(
        alloc: Global,
        patience: Patience,
        value: T,
    ) -> Result<(Turn<T, E, O>, Pass<T, E, O>), T>
        requires { T.stands value (T.opening value) [] }
        ensures own { IfOk result (λ made. made.1.table_id ≡ made.0) }
        ensures first { IfOk result (λ made. made.1.me ≡ (first_pass (T.opening value), [])) }
        ensures refused { IfErr result (λ back. back ≡ value) }
    {
        let about = Snapshot::of(&value);
        let mut slots = Vec::new(alloc);
        if let Err(failed) = slots.push(Some(value)) {
            let AllocFailed { value: back } = failed;
            slots.destroy_empty();
            let Some(value) = back else { unreachable!() };
            return Err(value);
        }
        match Table::new(alloc, &[0, 0], slots, &about) {
            Ok((table, pass)) => Ok((
                Turn {
                    patience,
                    turnstile: Turnstile::new(),
                    bells: Bells::new(),
                    table,
                },
                pass,
            )),
            Err(Refused { mut slots }) => {
                let back = slots.pop();
                slots.destroy_empty();
                let Some(Some(value)) = back else {
                    unreachable!()
                };
                Err(value)
            }
        }
    }

    /// Splits a pass off the first one. It has seen as much, and has made no entry.
    pub fn split(&self, pass: &mut Pass<T, E, O>) -> Pass<T, E, O>
        requires own { pass.old.table_id ≡ self.now }
        requires first { pass.old.me.0.first ≡ true }
        requires outside { IsOutside pass.old.me }
        requires room { 1 < pass.old.me.0.rights }
        ensures own { pass.new.table_id ≡ self.now }
        ensures left { pass.new.me ≡ (after_split pass.old.me.0, []) }
        ensures new { result.table_id ≡ self.now }
        ensures split { result.me ≡ (split_off pass.old.me.0, []) }
    {
        self.table.shared.split_seat::<Cut>(pass)
    }

    /// Joins a pass that was split off. The first one has then seen the whole history, for which a value stood, and of which both had seen beginnings.
    pub fn join(&self, pass: &mut Pass<T, E, O>, other: Pass<T, E, O>)
        requires own { pass.old.table_id ≡ self.now }
        requires outside { IsOutside pass.old.me }
        requires other { other.table_id ≡ self.now }
        requires idle { IsOutside other.me }
        ensures own { pass.new.table_id ≡ self.now }
        ensures joined { (log : List (ℕ × E)) × (pass.new.me ≡ (record (joined pass.old.me.0 other.me.0) { seen = log }, [])) × IsPrefix pass.old.me.0.seen log × IsPrefix other.me.0.seen log }
        ensures stood { (x : T) × (o : O) × (pass.new.me.0.opening ≡ Some o) × T.stands x o pass.new.me.0.seen }
    {
        self.table.shared.join_seat::<Glue>(pass, other);
        self.table.shared.load::<Hear>(pass, 0);
    }

    /// Ends the lock, and gives the value back. It stands for a history that begins with what the first pass has seen.
    pub fn close(self, pass: Pass<T, E, O>) -> T
        requires own { pass.table_id ≡ self }
        requires outside { IsOutside pass.me }
        requires last { pass.me.0.rights ≡ all_rights }
        ensures { (o : O) × (pass.me.0.opening ≡ Some o) × ((log : List (ℕ × E)) × IsPrefix pass.me.0.seen log × T.stands result o log) }
    {
        let Turn {
            patience: _,
            turnstile: _,
            bells: _,
            table,
        } = self;
        let mut closed = table.close_with(pass);
        let slot = closed.take(0);
        closed.free();
        let Some(value) = slot else { unreachable!() };
        value
    }

    /// Draws a ticket, waits until it is served, and takes the value. It stands for the whole history, which the pass has seen then.
    pub fn enter<R: Wait>(&self, rt: &R, pass: &mut Pass<T, E, O>) -> T
        requires own { pass.old.table_id ≡ self.now }
        requires outside { IsOutside pass.old.me }
        ensures own { pass.new.table_id ≡ self.now }
        ensures inside { IsInside pass.new.me }
        ensures keeps { Keeps pass.old.me.0 pass.new.me.0 }
        ensures mine { carrying pass.new.me.0.number pass.new.me.0.seen ≡ pass.new.me.0.mine }
        ensures stands { (o : O) × (pass.new.me.0.opening ≡ Some o) × T.stands result o pass.new.me.0.seen }
    {
        self.turnstile.enter(rt, &self.patience);
        let ticket = self.table.shared.fetch_add::<Draw>(pass, 0, 1);
        self.wait(rt, pass, ticket);
        let Some(value) = self.table.shared.exchange(pass, 0, None) else {
            unreachable!()
        };
        value
    }

    /// Puts the value back, and passes the turn on. The history has one entry more, for which the value stands.
    pub fn leave<L: Entry<E>>(&self, pass: &mut Pass<T, E, O>, value: T)
        requires own { pass.old.table_id ≡ self.now }
        requires inside { IsInside pass.old.me }
        requires stands { (o : O) × (pass.old.me.0.opening ≡ Some o) × T.stands value o (pass.old.me.0.seen ++ (pass.old.me.0.number, L.entry) ∷ []) }
        ensures own { pass.new.table_id ≡ self.now }
        ensures entry { pass.new.me ≡ (after_entry pass.old.me.0 L.entry, []) }
    {
        let none = self.table.shared.exchange(pass, 0, Some(value));
        let None = none else { unreachable!() };
        let served = self.table.shared.fetch_add::<Leave<L>>(pass, 1, 1);
        self.bells.ring(served.wrapping_add(1));
        self.turnstile.leave();
    }

    /// Waits until a ticket is served.
    fn wait<R: Wait>(&self, rt: &R, pass: &mut Pass<T, E, O>, ticket: u64)
        requires own { pass.old.table_id ≡ self.now }
        requires drawn { (t : ℕ) × (ticket ≡ t % 2 ^ 64) × (pass.old.me.0.ticket ≡ Some t) }
        requires outside { pass.old.me.0.inside ≡ false }
        ensures own { pass.new.table_id ≡ self.now }
        ensures served { Served T.stands pass.old.me pass.new.me }
    {
        let mut looks = 0;
        for _ in rt.forever() {
            let rings = self.bells.rings(ticket);
            let serving = self.table.shared.load::<Look>(pass, 1);
            if serving == ticket {
                return;
            }
            self.pause(rt, looks, ticket, rings);
            if looks < u64::MAX {
                looks += 1;
            }
        }
        unreachable!()
    }

    /// Lets some time pass behind so many looks.
    fn pause<R: Wait>(&self, rt: &R, looks: u64, ticket: u64, rings: u64) {
        if looks < self.patience.looks {
            hint::spin_loop();
        } else if looks - self.patience.looks < self.patience.yields {
            thread::yield_now();
        } else {
            self.bells.sleep(rt, ticket, rings);
        }
    }
}
