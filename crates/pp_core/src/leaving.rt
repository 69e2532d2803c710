//! Unwind and finish: a worker that left its plan gives its slots back; a worker becomes idle.

ghost use Rattle.std.specs.Prelude.{◌≡◌, IsTrue, Some, true, false};
ghost use Rattle.pp_cert.specs.Accepted.{Acceptance};
ghost use Rattle.pp_model.specs.Moves.{is_refusal};
ghost use Rattle.pp_model.specs.Leaving.{unwound};
ghost use Rattle.pp_core.specs.declared.seat.Seat.{Seat};
ghost use Rattle.pp_core.specs.Parts.{parts_of};
ghost use Rattle.pp_core.specs.StandsFor.{IsKept, Moves};
ghost use Rattle.pp_core.specs.Effects.{phase_of, IsIn, Runs, with_seat, mark_at};
ghost use Rattle.pp_core.specs.LeaveEffects.{is_leaving, HasPlan, CanCount, left_of, CanEnd, ended};
ghost use Rattle.pp_core.specs.LeaveEffects.{CanGiveBack, given_back, CanGiveAllBack, all_given_back, CanEmpty, emptied};

use crate::seat::{Hold, Phase};
use crate::table::{Table, bundle_place};
use pp_cert::Held;
use pp_model::{Cause, Ending, Move, Reply};
use pp_plan::Ask;
use pp_settings::limits::STEP_EVENTS;

/// What the bound has for a worker that acts, besides three moves for each action that is left: `spare_acting` of pp_model's
/// Budget.antt.
const SPARE_ACTING: u64 = 33;

impl Table {
    /// Whether the worker leaves its plan.
    pub(crate) fn is_leaving(&self, worker: u32) -> bool
        ensures { result ≡ is_leaving (phase_of (parts_of self.now) worker) }
    {
        matches!(self.phase(worker), Some(Some(Phase::Leaving)))
    }

    // ---- finish

    /// A worker whose plan is at its end, or that left it and holds nothing, becomes idle.
    pub(crate) fn finish(&mut self, worker: u32) -> Reply
        requires { IsKept (parts_of self.old) }
        ensures moves { Moves (parts_of self.old) (Move.Finish worker) result (parts_of self.new) }
        ensures refusal { IsTrue (is_refusal result) → parts_of self.new ≡ parts_of self.old }
    {
        if self.is_leaving(worker) {
            return self.finish_gone(worker);
        }
        self.finish_done(worker)
    }

    /// A worker that isn't leaving becomes idle where its plan is at its end.
    fn finish_done(&mut self, worker: u32) -> Reply
        requires kept { IsKept (parts_of self.old) }
        requires stays { is_leaving (phase_of (parts_of self.old) worker) ≡ false }
        ensures moves { Moves (parts_of self.old) (Move.Finish worker) result (parts_of self.new) }
        ensures refusal { IsTrue (is_refusal result) → parts_of self.new ≡ parts_of self.old }
    {
        let ask = match self.asked(worker) {
            Ok(ask) => ask,
            Err(cause) => return Reply::OffPlan(cause),
        };
        let Ask::End = ask else {
            return Reply::OffPlan(Cause::NotEnded);
        };
        let left = self.left_of_plan(worker);
        self.end_plan(worker, left);
        Reply::Finished(Ending::Done)
    }

    /// A worker that leaves its plan becomes idle where no slot holds a page.
    fn finish_gone(&mut self, worker: u32) -> Reply
        requires kept { IsKept (parts_of self.old) }
        requires leaves { is_leaving (phase_of (parts_of self.old) worker) ≡ true }
        ensures moves { Moves (parts_of self.old) (Move.Finish worker) result (parts_of self.new) }
        ensures refusal { IsTrue (is_refusal result) → parts_of self.new ≡ parts_of self.old }
    {
        if self.holds(worker) > 0 {
            return Reply::OffPlan(Cause::NotEnded);
        }
        self.end_plan(worker, 1);
        Reply::Finished(Ending::Gone)
    }

    /// How many slots of a worker in its plan hold a page.
    pub(crate) fn holds(&self, worker: u32) -> u32
        requires { HasPlan (parts_of self.now) worker }
        ensures { (x : Seat) → IsIn (parts_of self.now) worker x → result ≡ x.holds }
    {
        match self.seats.get(worker as usize) {
            Some(Some(seat)) => seat.holds,
            _ => unreachable!(),
        }
    }

    /// The moves that the bound counts for a worker that acts: three for each action that is left, and what it may need
    /// besides.
    fn left_of_plan(&self, worker: u32) -> u64
        requires { CanCount (parts_of self.now) worker }
        ensures { (x : Seat) (a : Acceptance) → Runs (parts_of self.now) worker x a → result ≡ left_of x a }
    {
        match self.seats.get(worker as usize) {
            Some(Some(seat)) => {
                let steps = self.plans[seat.place as usize].steps();
                STEP_EVENTS * (steps - u64::from(seat.actions)) + SPARE_ACTING
            }
            _ => unreachable!(),
        }
    }

    /// The peak of the plan of a worker that isn't idle.
    fn peak(&self, worker: u32) -> u64
        requires { HasPlan (parts_of self.now) worker }
        ensures { (x : Seat) (a : Acceptance) → Runs (parts_of self.now) worker x a → result ≡ a.peak }
    {
        match self.seats.get(worker as usize) {
            Some(Some(seat)) => self.plans[seat.place as usize].peak(),
            _ => unreachable!(),
        }
    }

    /// The worker is idle; its peak runs no more, and the bound falls by what was left.
    fn end_plan(&mut self, worker: u32, left: u64)
        requires { CanEnd (parts_of self.old) worker left }
        ensures { (x : Seat) (a : Acceptance) → Runs (parts_of self.old) worker x a →
            parts_of self.new ≡ ended (parts_of self.old) worker a.peak left }
    {
        let peak = self.peak(worker);
        self.seats[worker as usize] = None;
        self.running -= peak;
        self.budget -= left;
    }

    // ---- unwind

    /// A worker that leaves its plan gives the page of the slot back, with the latch on it, or all pages of the bundle.
    pub(crate) fn unwind(&mut self, worker: u32, slot: u32) -> Reply
        requires { IsKept (parts_of self.old) }
        ensures moves { Moves (parts_of self.old) (Move.Unwind worker slot) result (parts_of self.new) }
        ensures refusal { IsTrue (is_refusal result) → parts_of self.new ≡ parts_of self.old }
    {
        if self.phase(worker).is_none() {
            return Reply::OffPlan(Cause::NoWorker);
        }
        if !self.is_leaving(worker) {
            return Reply::OffPlan(Cause::NotLeaving);
        }
        let Some(hold) = self.hold(worker, slot) else {
            return Reply::OffPlan(Cause::NotHeld);
        };
        if hold.bundled {
            self.give_all_back(worker, slot);
            return Reply::Did;
        }
        self.release(hold.held, hold.page);
        self.give_slot_back(worker, slot, hold.page);
        self.unwound(hold)
    }

    /// A pin goes off each page of the bundle, and the slot holds nothing from now on.
    fn give_all_back(&mut self, worker: u32, slot: u32)
        requires { CanGiveAllBack (parts_of self.old) worker slot }
        ensures { (x : Seat) → IsIn (parts_of self.old) worker x →
            parts_of self.new ≡ all_given_back (parts_of self.old) worker x slot }
    {
        self.scatter(bundle_place(worker, slot));
        self.budget -= 1;
        self.empty_slot(worker, slot);
    }

    /// A pin goes off the page, and the slot holds nothing from now on.
    fn give_slot_back(&mut self, worker: u32, slot: u32, page: u32)
        requires { CanGiveBack (parts_of self.old) worker slot page }
        ensures { (x : Seat) → IsIn (parts_of self.old) worker x →
            parts_of self.new ≡ given_back (parts_of self.old) worker x slot page }
    {
        self.unpin(page);
        self.budget -= 1;
        self.empty_slot(worker, slot);
    }

    /// The slot holds nothing from now on.
    fn empty_slot(&mut self, worker: u32, slot: u32)
        requires { CanEmpty (parts_of self.old) worker slot }
        ensures { (x : Seat) → IsIn (parts_of self.old) worker x →
            parts_of self.new ≡ with_seat (parts_of self.old) worker (Some (emptied slot x)) }
    {
        match &mut self.seats[worker as usize] {
            Some(seat) => seat.empty(slot as u8),
            None => unreachable!(),
        }
    }

    /// What the worker is told: the page's mark where the slot had it latched X.
    fn unwound(&self, hold: Hold) -> Reply
        ensures { result ≡ unwound hold.held (mark_at self.now.marks hold.page) }
    {
        match hold.held {
            Held::Free | Held::S => Reply::Did,
            Held::X => Reply::Unlatched {
                mark: self.mark_at(hold.page),
            },
        }
    }
}
