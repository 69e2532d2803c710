//! What is left to decide in a turn, and who decides it.

ghost use Rattle.std.specs.Prelude.{◌≡◌, ◌<◌, ◌≤◌, ◌+◌, ℕ, Bool, slice_get};
ghost use Rattle.pp_settings.specs.Limits.{page_numbers};
ghost use Rattle.pp_model.specs.declared.moves.Came.{Came};
ghost use Rattle.pp_core.specs.declared.seat.Seat.{Seat};
ghost use Rattle.pp_core.specs.Parts.{parts_of};
ghost use Rattle.pp_core.specs.StandsFor.{IsKept, Asks};
ghost use Rattle.pp_core.specs.Effects.{IsIn};
ghost use Rattle.pp_core.specs.Draining.{host_of, IsOpenIn, CanBeMade, DecidesIn, CanGo, LeavesIn};
ghost use Rattle.pp_core.specs.Slots.{first_filled};

use crate::table::Table;
use pp_model::{Came, Move, Turn};
use pp_plan::Ask;

/// What decides for workers and device, where a pool is driven to its end by [`Core::drain`]. Only tests have such hosts; what
/// `drain` promises holds of all.
///
/// Each host says what its answers mean by a relation of its own for each question: from the host as it was, with these
/// numbers, this answer, and the host as it is then. A relation that holds of all says nothing; one that pins the answer,
/// or keeps the numbers, lets a caller of `drain` know which moves were made.
///
/// [`Core::drain`]: crate::Core::drain
pub trait Decide {
    ghost picks: { Self → (region first count page : ℕ) → Self → Type 0 };

    ghost chooses: { Self → (count branch : ℕ) → Self → Type 0 };

    ghost reads: { Self → (page : ℕ) → Came → Self → Type 0 };

    ghost writes: { Self → (page : ℕ) → (ok : Bool) → Self → Type 0 };

    ghost flushes: { Self → (page : ℕ) → (ok : Bool) → Self → Type 0 };

    /// The page that a worker fixes, of a region that has so many pages from the first on.
    fn page(&mut self, region: u8, first: u32, count: u32) -> u32
        requires some { 1 ≤ count }
        requires ends { first + count ≤ page_numbers }
        ensures from { first ≤ result }
        ensures below { result < first + count }
        ensures picked { picks self.old region first count result self.new };

    /// The branch that a worker goes on with, of so many.
    fn branch(&mut self, count: u16) -> u16
        requires { 1 ≤ count }
        ensures below { result < count }
        ensures chosen { chooses self.old count result self.new };

    /// What the device gives where it is asked to read the page.
    fn came(&mut self, page: u32) -> Came
        ensures given { reads self.old page result self.new };

    /// Whether the device has written the page back.
    fn wrote(&mut self, page: u32) -> bool
        ensures told { writes self.old page result self.new };

    /// Whether the device has written the flusher's page.
    fn flushed(&mut self, page: u32) -> bool
        ensures told { flushes self.old page result self.new };
}

impl Table {
    /// The move of an open turn, as it is decided.
    pub(crate) fn decided<D: Decide>(&self, turn: Turn, decide: &mut D) -> Move
        requires kept { IsKept (parts_of self.now) }
        requires open { IsOpenIn (parts_of self.now) turn }
        ensures possible { CanBeMade (parts_of self.now) result }
        ensures decided { DecidesIn (host_of D.picks D.chooses D.reads D.writes D.flushes) (parts_of self.now)
            turn decide.old result decide.new }
    {
        match turn {
            Turn::Device(worker) => self.answer(worker, decide),
            Turn::FlushDevice => self.flush_answer(decide),
            Turn::Act(worker) => self.act_of(worker, decide),
            Turn::Take(worker) => Move::Take { worker },
        }
    }

    // ---- the device

    /// The device's answer to the worker's errand.
    fn answer<D: Decide>(&self, worker: u32, decide: &mut D) -> Move
        requires kept { IsKept (parts_of self.now) }
        requires open { IsOpenIn (parts_of self.now) (Turn.Device worker) }
        ensures possible { CanBeMade (parts_of self.now) result }
        ensures decided { DecidesIn (host_of D.picks D.chooses D.reads D.writes D.flushes) (parts_of self.now)
            (Turn.Device worker) decide.old result decide.new }
    {
        match self.errand(worker) {
            Some((_, _, Some(victim))) => Move::WriteDone {
                worker,
                ok: decide.wrote(victim),
            },
            Some((_, page, None)) => Move::ReadDone {
                worker,
                came: decide.came(page),
            },
            None => unreachable!(),
        }
    }

    /// The device's answer to the flusher.
    fn flush_answer<D: Decide>(&self, decide: &mut D) -> Move
        requires kept { IsKept (parts_of self.now) }
        requires open { IsOpenIn (parts_of self.now) Turn.FlushDevice }
        ensures possible { CanBeMade (parts_of self.now) result }
        ensures decided { DecidesIn (host_of D.picks D.chooses D.reads D.writes D.flushes) (parts_of self.now)
            Turn.FlushDevice decide.old result decide.new }
    {
        match self.flush {
            Some(flush) => Move::FlushDone {
                ok: decide.flushed(flush.page),
            },
            None => unreachable!(),
        }
    }

    // ---- a worker

    /// What a worker does next that runs its plan, or leaves it.
    fn act_of<D: Decide>(&self, worker: u32, decide: &mut D) -> Move
        requires kept { IsKept (parts_of self.now) }
        requires open { IsOpenIn (parts_of self.now) (Turn.Act worker) }
        ensures possible { CanBeMade (parts_of self.now) result }
        ensures decided { DecidesIn (host_of D.picks D.chooses D.reads D.writes D.flushes) (parts_of self.now)
            (Turn.Act worker) decide.old result decide.new }
    {
        match self.asked(worker) {
            Ok(ask) => self.do_asked(worker, ask, decide),
            Err(_) => self.leave(worker),
        }
    }

    /// What a worker does whose plan asks this.
    fn do_asked<D: Decide>(&self, worker: u32, ask: Ask, decide: &mut D) -> Move
        requires kept { IsKept (parts_of self.now) }
        requires open { IsOpenIn (parts_of self.now) (Turn.Act worker) }
        requires asks { Asks (parts_of self.now) worker ask }
        ensures possible { CanBeMade (parts_of self.now) result }
        ensures decided { DecidesIn (host_of D.picks D.chooses D.reads D.writes D.flushes) (parts_of self.now)
            (Turn.Act worker) decide.old result decide.new }
    {
        match ask {
            Ask::Fix { region, .. } | Ask::Gather { region, .. } => match self
                .layout
                .extent(region)
            {
                Some(extent) => Move::Fix {
                    worker,
                    page: decide.page(region, extent.first, extent.count),
                },
                None => unreachable!(),
            },
            Ask::Unfix { .. } | Ask::Scatter { .. } => Move::Unfix { worker },
            Ask::Latch { .. } => Move::Latch { worker },
            Ask::Unlatch { .. } => Move::Unlatch { worker },
            Ask::Choose { branches } => Move::Choose {
                worker,
                branch: u32::from(decide.branch(branches)),
            },
            Ask::End => Move::Finish { worker },
        }
    }

    /// A worker that leaves its plan gives back its least slot that holds a page; or it is done, where none does.
    fn leave(&self, worker: u32) -> Move
        requires kept { IsKept (parts_of self.now) }
        requires open { CanGo (parts_of self.now) worker }
        ensures possible { CanBeMade (parts_of self.now) result }
        ensures goes { LeavesIn (parts_of self.now) worker result }
    {
        match self.first_held(worker) {
            Some(slot) => Move::Unwind { worker, slot },
            None => Move::Finish { worker },
        }
    }

    /// The least slot that holds a page, of a worker in its plan.
    fn first_held(&self, worker: u32) -> Option<u32>
        requires { (x : Seat) × IsIn (parts_of self.now) worker x }
        ensures { (x : Seat) → IsIn (parts_of self.now) worker x → result ≡ first_filled x.slots }
    {
        match self.seats.get(worker as usize) {
            Some(Some(seat)) => seat.first_held(),
            _ => unreachable!(),
        }
    }
}
