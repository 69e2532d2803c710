//! Take: an idle worker begins the first plan that waits, where its peak fits beside the running peaks.

ghost use Rattle.std.specs.Prelude.{◌≡◌, ℕ, ◌+◌, ◌≤◌, IsTrue, Some, slice_get};
ghost use Rattle.pp_cert.specs.Accepted.{Acceptance};
ghost use Rattle.pp_model.specs.Moves.{is_refusal};
ghost use Rattle.pp_core.specs.Parts.{parts_of};
ghost use Rattle.pp_core.specs.StandsFor.{IsKept, Moves};
ghost use Rattle.pp_core.specs.TakeEffects.{waiting_peak, has_room, CanBegin, Began};

use crate::seat::Seat;
use crate::table::Table;
use pp_model::{Cause, Delay, Move, Reply};

impl Table {
    /// An idle worker begins the first plan that waits, where there is room for its peak.
    pub(crate) fn take(&mut self, worker: u32) -> Reply
        requires { IsKept (parts_of self.old) }
        ensures moves { Moves (parts_of self.old) (Move.Take worker) result (parts_of self.new) }
        ensures refusal { IsTrue (is_refusal result) → parts_of self.new ≡ parts_of self.old }
    {
        let Some(phase) = self.phase(worker) else {
            return Reply::OffPlan(Cause::NoWorker);
        };
        if phase.is_some() {
            return Reply::OffPlan(Cause::NotIdle);
        }
        let Some(peak) = self.waiting_peak() else {
            return Reply::NotNow(Delay::NothingWaiting);
        };
        if !self.has_room(peak) {
            return Reply::NotNow(Delay::NoRoom);
        }
        let plan = self.taken;
        self.begin_plan(worker);
        Reply::Taken { plan }
    }

    /// The peak of the first plan that waits.
    pub(crate) fn waiting_peak(&self) -> Option<u64>
        ensures { result ≡ waiting_peak (parts_of self.now) }
    {
        let place = self.first_place()?;
        match self.plans.get(place as usize) {
            None => None,
            Some(accepted) => Some(accepted.peak()),
        }
    }

    /// The place of the first plan that waits.
    fn first_place(&self) -> Option<u32>
        ensures { result ≡ slice_get self.now.waiting.items 0 }
    {
        self.waiting.front().copied()
    }

    /// Whether a plan of this peak fits beside those that run.
    pub(crate) fn has_room(&self, peak: u64) -> bool
        requires { self.now.running ≤ self.now.layout.frames }
        ensures { result ≡ has_room (parts_of self.now) peak }
    {
        peak <= u64::from(self.layout.frames()) - self.running
    }

    /// The worker begins the first plan that waits.
    fn begin_plan(&mut self, worker: u32)
        requires { CanBegin (parts_of self.old) worker }
        ensures { (place : ℕ) (a : Acceptance) → slice_get self.old.waiting.items 0 ≡ Some place
            → slice_get self.old.plans.items place ≡ Some a
            → Began (parts_of self.old) (parts_of self.new) worker place a }
    {
        let place = match self.waiting.pop_front() {
            Some(place) => place,
            None => unreachable!(),
        };
        let accepted = &self.plans[place as usize];
        let peak = accepted.peak();
        let seat = Seat::new(self.taken, place, accepted.plan());
        self.seats[worker as usize] = Some(seat);
        self.taken += 1;
        self.running += peak;
        self.budget -= 1;
    }
}
