//! Whose turn is next. It looks at the workers and at the pages that their plans ask to latch, and at no other page.

ghost use Rattle.std.specs.Prelude.{◌≡◌, ◌≤◌, Option, Some, length, nat_lt};
ghost use Rattle.pp_settings.specs.Limits.{most_workers};
ghost use Rattle.pp_plan.specs.declared.action.Ask.{Ask};
ghost use Rattle.pp_model.specs.Pool.{State, Running};
ghost use Rattle.pp_model.specs.Moves.{seat_of};
ghost use Rattle.pp_model.specs.Turns.{has_errand, is_stopped_at, can_act, is_idle, first_worker, next_turn};
ghost use Rattle.pp_core.specs.Parts.{parts_of};
ghost use Rattle.pp_core.specs.StandsFor.{StandsFor, IsKept, Asks};

use crate::table::Table;
use crate::using::latch_mode;
use pp_model::Turn;
use pp_plan::Ask;

impl Table {
    /// The turn that comes next.
    pub(crate) fn next_turn(&self) -> Option<Turn>
        requires { IsKept (parts_of self.now) }
        ensures { (s : State) → StandsFor (parts_of self.now) s → result ≡ next_turn s }
    {
        if let Some(worker) = self.first_errand() {
            return Some(Turn::Device(worker));
        }
        if self.flush.is_some() {
            return Some(Turn::FlushDevice);
        }
        if let Some(worker) = self.first_to_act() {
            return Some(Turn::Act(worker));
        }
        if !self.is_plan_waiting() {
            return None;
        }
        let worker = self.first_idle()?;
        Some(Turn::Take(worker))
    }

    /// How many workers there are.
    fn workers(&self) -> u32
        requires { length self.now.seats.items ≤ most_workers }
        ensures { result ≡ length self.now.seats.items }
    {
        self.seats.len() as u32
    }

    /// Whether a plan waits.
    #[tactic(auto, using(crate::proofs::PlanTies::waits_told))]
    fn is_plan_waiting(&self) -> bool
        ensures { (s : State) → StandsFor (parts_of self.now) s → result ≡ nat_lt s.taken (length s.plans) }
    {
        !self.waiting.is_empty()
    }

    // ---- the least worker of a kind

    /// The least worker with an errand out.
    fn first_errand(&self) -> Option<u32>
        requires { IsKept (parts_of self.now) }
        ensures { (s : State) → StandsFor (parts_of self.now) s → result ≡ first_worker s has_errand }
    {
        for worker in 0..self.workers() {
            if self.errand(worker).is_some() {
                return Some(worker);
            }
        }
        None
    }

    /// The least worker that leaves its plan, or runs it and isn't stopped by a latch.
    fn first_to_act(&self) -> Option<u32>
        requires { IsKept (parts_of self.now) }
        ensures { (s : State) → StandsFor (parts_of self.now) s → result ≡ first_worker s (can_act s) }
    {
        for worker in 0..self.workers() {
            if self.can_act(worker) {
                return Some(worker);
            }
        }
        None
    }

    /// The least idle worker.
    fn first_idle(&self) -> Option<u32>
        requires { IsKept (parts_of self.now) }
        ensures { (s : State) → StandsFor (parts_of self.now) s → result ≡ first_worker s is_idle }
    {
        for worker in 0..self.workers() {
            if self.is_idle(worker) {
                return Some(worker);
            }
        }
        None
    }

    // ---- one worker

    /// Whether the worker leaves its plan, or runs it and isn't stopped by a latch.
    fn can_act(&self, worker: u32) -> bool
        requires { IsKept (parts_of self.now) }
        ensures { (s : State) (seat : Option Running) → StandsFor (parts_of self.now) s
            → seat_of s worker ≡ Some seat → result ≡ can_act s seat }
    {
        if self.is_leaving(worker) {
            return true;
        }
        match self.asked(worker) {
            Ok(ask) => !self.is_stopped_at(worker, ask),
            Err(_) => false,
        }
    }

    /// Whether the worker, whose plan asks this, is stopped by a latch.
    fn is_stopped_at(&self, worker: u32, ask: Ask) -> bool
        requires kept { IsKept (parts_of self.now) }
        requires asks { Asks (parts_of self.now) worker ask }
        ensures { (s : State) (r : Running) → StandsFor (parts_of self.now) s
            → seat_of s worker ≡ Some (Some r) → result ≡ is_stopped_at s r ask }
    {
        match ask {
            Ask::Latch { slot, mode } => {
                let page = self.page_in(worker, slot);
                !self.marks.can_grant(page, latch_mode(mode))
            }
            _ => false,
        }
    }
}
