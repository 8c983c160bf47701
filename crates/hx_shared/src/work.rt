// A worker's turns.
ghost use Rattle.std.specs.Prelude.{◌≡◌, ◌<◌, ℕ, false, is_none};
ghost use Rattle.hx_core.specs.Turns.{loss_in};
ghost use Rattle.hx_turn.specs.Passes.{IsOutside};
ghost use Rattle.hx_shared.specs.Seats.{HasHistory, HasTaken};
ghost use Rattle.hx_shared.specs.Working.{Ended, Ends, HasTakenIfJob, HasTurned, HasWorked};

use crate::gate::Gate;
use crate::shared::{Seat, Shared};
use hx_core::{Take, end_of};
use hx_model::Finish;
use hx_ports::Keeper;
use hx_reconcile::{Plan, SharedBrief, plan};
use std::sync::Wait;

/// How a worker's turns ended.
#[derive(Clone, Copy)]
pub enum WorkEnd {
    /// The gate didn't let the next turn be made.
    Stopped,
    /// As many turns were made as were asked for.
    Used,
}

/// What a worker's turns came to.
#[derive(Clone, Copy)]
pub struct Worked {
    pub end: WorkEnd,
    /// Whether one of them got on: it finished a key, which had memory and a version left for it, and a store that didn't fail. Where none did, keys that wait may do so for long.
    pub got_on: bool,
}

impl<K: Keeper> Shared<K> {
    /// A worker takes, plans and finishes, so many times. It holds no turn of the cluster while it plans, and drops the key where no memory is left for a plan. A turn without a key counts too.
    pub fn work<R: Wait, G: Gate>(
        &self,
        rt: &R,
        seat: &mut Seat<K>,
        worker: u32,
        gate: &G,
        turns: u64,
    ) -> Worked
        requires own { seat.old.table_id ≡ self.now }
        requires outside { IsOutside seat.old.me }
        ensures own { seat.new.table_id ≡ self.now }
        ensures outside { IsOutside seat.new.me }
        ensures used { result.end ≡ WorkEnd.Used → HasWorked worker turns result.got_on seat.old.me.0 seat.new.me.0 }
        ensures stopped { result.end ≡ WorkEnd.Stopped → (made : ℕ) × (made < turns) × HasWorked worker made result.got_on seat.old.me.0 seat.new.me.0 × G.may gate.now worker made false }
        ensures legal { HasHistory seat.old.me.0 → HasHistory seat.new.me.0 }
    {
        let mut got_on = false;
        for turn in 0..turns {
            if !gate.pass(worker, turn) {
                return Worked {
                    end: WorkEnd::Stopped,
                    got_on,
                };
            }
            got_on |= self.turn_once(rt, seat, worker);
        }
        Worked {
            end: WorkEnd::Used,
            got_on,
        }
    }

    /// One turn of a worker. It answers whether it got on.
    fn turn_once<R: Wait>(&self, rt: &R, seat: &mut Seat<K>, worker: u32) -> bool
        requires own { seat.old.table_id ≡ self.now }
        requires outside { IsOutside seat.old.me }
        ensures own { seat.new.table_id ≡ self.now }
        ensures outside { IsOutside seat.new.me }
        ensures turned { HasTurned worker result seat.old.me.0 seat.new.me.0 }
        ensures legal { HasHistory seat.new.me.0 }
    {
        let taken = self.take(rt, seat, worker);
        self.end_turn(rt, seat, worker, taken)
    }

    /// Ends a turn by what its take answered.
    fn end_turn<R: Wait>(&self, rt: &R, seat: &mut Seat<K>, worker: u32, taken: Take) -> bool
        requires own { seat.old.table_id ≡ self.now }
        requires outside { IsOutside seat.old.me }
        requires taken { HasTakenIfJob worker taken seat.old.me.0 }
        requires legal { HasHistory seat.old.me.0 }
        ensures own { seat.new.table_id ≡ self.now }
        ensures outside { IsOutside seat.new.me }
        ensures ends { Ends worker taken result seat.old.me.0 seat.new.me.0 }
        ensures legal { HasHistory seat.new.me.0 }
    {
        match taken {
            Take::Job(brief) => self.end_job(rt, seat, worker, brief),
            Take::Idle => false,
            Take::Already(brief) => {
                drop(brief);
                false
            }
            Take::Other(_) => false,
            Take::NoMemory => false,
        }
    }

    /// Ends a turn with a job.
    fn end_job<R: Wait>(&self, rt: &R, seat: &mut Seat<K>, worker: u32, brief: SharedBrief) -> bool
        requires own { seat.old.table_id ≡ self.now }
        requires outside { IsOutside seat.old.me }
        requires taken { HasTaken seat.old.me.0 worker brief }
        ensures own { seat.new.table_id ≡ self.now }
        ensures outside { IsOutside seat.new.me }
        ensures ended { Ended worker result seat.old.me.0 seat.new.me.0 }
        ensures legal { HasHistory seat.new.me.0 }
    {
        match plan(self.alloc, brief) {
            Ok(planned) => self.finish_job(rt, seat, worker, planned),
            Err(same) => {
                self.drop_job(rt, seat, worker, same);
                false
            }
        }
    }

    /// Finishes a job by its plan.
    fn finish_job<R: Wait>(&self, rt: &R, seat: &mut Seat<K>, worker: u32, planned: Plan) -> bool
        requires own { seat.old.table_id ≡ self.now }
        requires outside { IsOutside seat.old.me }
        requires taken { HasTaken seat.old.me.0 worker planned.brief }
        ensures own { seat.new.table_id ≡ self.now }
        ensures outside { IsOutside seat.new.me }
        ensures ended { Ended worker result seat.old.me.0 seat.new.me.0 }
        ensures legal { HasHistory seat.new.me.0 }
    {
        let end = self.finish(rt, seat, worker, planned);
        gets_on(end)
    }

    /// Drops a job for which there was no memory.
    fn drop_job<R: Wait>(&self, rt: &R, seat: &mut Seat<K>, worker: u32, brief: SharedBrief)
        requires own { seat.old.table_id ≡ self.now }
        requires outside { IsOutside seat.old.me }
        requires taken { HasTaken seat.old.me.0 worker brief }
        ensures own { seat.new.table_id ≡ self.now }
        ensures outside { IsOutside seat.new.me }
        ensures ended { Ended worker false seat.old.me.0 seat.new.me.0 }
        ensures legal { HasHistory seat.new.me.0 }
    {
        drop(brief);
        let dropped = self.drop_hand(rt, seat, worker);
        drop(dropped);
    }
}

/// Whether a turn that ended so got on: it wasn't lost.
fn gets_on(end: Finish) -> bool
    ensures { result ≡ is_none (loss_in end) }
{
    end_of(end).is_none()
}
