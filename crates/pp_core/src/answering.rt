//! What a device answers to a worker's errand: a victim was written back, or a page was read, or neither.

ghost use Rattle.std.specs.Prelude.{◌≡◌, ◌<◌, ◌≤◌, ℕ, IsTrue, Some};
ghost use Rattle.pp_cert.specs.Accepted.{Acceptance};
ghost use Rattle.pp_frames.specs.Marks.{IsFree, frame_of, pins_of, latches_of, latch_count};
ghost use Rattle.pp_model.specs.Moves.{is_refusal};
ghost use Rattle.pp_core.specs.declared.seat.Seat.{Seat};
ghost use Rattle.pp_core.specs.Parts.{parts_of};
ghost use Rattle.pp_core.specs.StandsFor.{IsKept, Moves};
ghost use Rattle.pp_core.specs.Effects.{IsIn, Runs, frame_at};
ghost use Rattle.pp_core.specs.Answering.{writing_of, reading_of, is_misread, CanLose, lost, CanWrite, written};
ghost use Rattle.pp_core.specs.Answering.{CanBring};
ghost use Rattle.pp_core.specs.Answering.{brought, CanForget, forgotten, CanLoad, Loaded};

use crate::seat::Phase;
use crate::table::Table;
use pp_model::{Came, Cause, Failure, Move, Reply};
use pp_settings::limits::{STAMP_LIMIT, STEP_EVENTS};

/// What the bound has for a worker whose victim is written, besides three moves for each action that is left:
/// `spare_writing` of pp_model's Budget.antt.
const SPARE_WRITING: u64 = 32;

/// What it has for a worker whose page is read: `spare_reading`.
const SPARE_READING: u64 = 31;

/// A victim that is written back, so that the page can have its frame and be fixed into the slot.
#[derive(Clone, Copy, Debug, PartialEq, Eq)]
pub struct Write {
    slot: u8,
    page: u32,
    victim: u32,
}

/// A page that is read, to be fixed into the slot.
#[derive(Clone, Copy, Debug, PartialEq, Eq)]
pub struct Read {
    slot: u8,
    page: u32,
}

/// What a worker at this phase has a device write, or why nothing.
pub(crate) fn writing_of(phase: Option<Option<Phase>>) -> Result<Write, Cause>
    ensures { result ≡ writing_of phase }
{
    match phase {
        None => Err(Cause::NoWorker),
        Some(Some(Phase::Writing { slot, page, victim })) => Ok(Write { slot, page, victim }),
        Some(_) => Err(Cause::NoErrand),
    }
}

/// What a worker at this phase has a device read, or why nothing.
pub(crate) fn reading_of(phase: Option<Option<Phase>>) -> Result<Read, Cause>
    ensures { result ≡ reading_of phase }
{
    match phase {
        None => Err(Cause::NoWorker),
        Some(Some(Phase::Reading { slot, page })) => Ok(Read { slot, page }),
        Some(_) => Err(Cause::NoErrand),
    }
}

impl Table {
    // ---- writing

    /// The device has written a worker's victim back, or has failed to.
    pub(crate) fn write_done(&mut self, worker: u32, ok: bool) -> Reply
        requires { IsKept (parts_of self.old) }
        ensures moves { Moves (parts_of self.old) (Move.WriteDone worker ok) result (parts_of self.new) }
        ensures refusal { IsTrue (is_refusal result) → parts_of self.new ≡ parts_of self.old }
    {
        let write = match writing_of(self.phase(worker)) {
            Ok(write) => write,
            Err(cause) => return Reply::OffPlan(cause),
        };
        if ok {
            self.written(worker, write.slot, write.page, write.victim)
        } else {
            self.bring_back(worker, write.page, write.victim);
            Reply::Failed(Failure::WriteFault)
        }
    }

    /// The victim is on the device, and the page is read into its frame.
    fn written(&mut self, worker: u32, slot: u8, page: u32, victim: u32) -> Reply
        requires { CanWrite (parts_of self.old) worker page victim }
        ensures parts { (x : Seat) → IsIn (parts_of self.old) worker x →
            parts_of self.new ≡ written (parts_of self.old) worker x slot page victim }
        ensures reply { result ≡ Reply.MustRead (frame_at self.old.marks page) }
    {
        let frame = self.frame_at(page);
        self.marks.set_clean(victim);
        self.in_flight.remove(victim);
        self.budget -= 1;
        self.set_phase(worker, Phase::Reading { slot, page });
        Reply::MustRead { frame }
    }

    /// The victim isn't on the device: it is cached again, in its old frame, and the page isn't.
    fn bring_back(&mut self, worker: u32, page: u32, victim: u32)
        requires { CanBring (parts_of self.old) worker page victim }
        ensures { (x : Seat) (a : Acceptance) → Runs (parts_of self.old) worker x a →
            parts_of self.new ≡ brought (parts_of self.old) worker x a page victim }
    {
        self.lose(worker, SPARE_WRITING);
        let frame = self.frame_at(page);
        self.displace(page);
        self.marks.place(victim, frame);
        self.directory.bring_back(page, victim, &mut self.search);
        self.in_flight.remove(page);
        self.in_flight.remove(victim);
    }

    /// The worker leaves its plan, and the bound falls to what leaving takes.
    fn lose(&mut self, worker: u32, spare: u64)
        requires { CanLose (parts_of self.old) worker spare }
        ensures { (x : Seat) (a : Acceptance) → Runs (parts_of self.old) worker x a →
            parts_of self.new ≡ lost (parts_of self.old) worker x a spare }
    {
        match &mut self.seats[worker as usize] {
            Some(seat) => {
                let steps = self.plans[seat.place as usize].steps();
                let left = STEP_EVENTS * (steps - u64::from(seat.actions)) + spare;
                self.budget = self.budget - left + u64::from(seat.holds) + 1;
                seat.phase = Phase::Leaving;
            }
            None => unreachable!(),
        }
    }

    // ---- reading

    /// The device has read a worker's page, or has failed to.
    pub(crate) fn read_done(&mut self, worker: u32, came: Came) -> Reply
        requires { IsKept (parts_of self.old) }
        ensures moves { Moves (parts_of self.old) (Move.ReadDone worker came) result (parts_of self.new) }
        ensures refusal { IsTrue (is_refusal result) → parts_of self.new ≡ parts_of self.old }
    {
        let read = match reading_of(self.phase(worker)) {
            Ok(read) => read,
            Err(cause) => return Reply::OffPlan(cause),
        };
        let (named, stamp) = match came {
            Came::Image(named, stamp) => (named, stamp),
            Came::Fault => {
                self.forget(worker, read.page);
                return Reply::Failed(Failure::ReadFault);
            }
        };
        if self.is_misread(read.page, named, stamp) {
            self.forget(worker, read.page);
            return Reply::Failed(Failure::Misread);
        }
        self.load(worker, read.slot, read.page, stamp);
        Reply::Loaded { mark: stamp }
    }

    /// Whether an image that names this page and this stamp isn't the page's: it is another page's, or has another
    /// stamp than the known one, or, where none is known, one of 2^62 or more.
    fn is_misread(&self, page: u32, named: u32, stamp: u64) -> bool
        ensures { result ≡ is_misread self.now.marks page named stamp }
    {
        if named != page {
            return true;
        }
        match self.marks.stamp(page) {
            Some(mark) => mark != stamp,
            None => stamp >= STAMP_LIMIT,
        }
    }

    /// The page was not read: it isn't cached, nor remembered, and its frame is free.
    fn forget(&mut self, worker: u32, page: u32)
        requires { CanForget (parts_of self.old) worker page }
        ensures { (x : Seat) (a : Acceptance) → Runs (parts_of self.old) worker x a →
            parts_of self.new ≡ forgotten (parts_of self.old) worker x a page }
    {
        self.lose(worker, SPARE_READING);
        self.displace(page);
        self.directory.forget(page, &mut self.search);
        self.in_flight.remove(page);
    }

    /// The page is fixed, and the stamp is its mark.
    fn load(&mut self, worker: u32, slot: u8, page: u32, stamp: u64)
        requires { CanLoad (parts_of self.old) worker slot page }
        ensures { Loaded (parts_of self.old) (parts_of self.new) worker slot page stamp }
    {
        let ask = self.next_ask(worker);
        self.set_phase(worker, Phase::Acting);
        self.put_in(worker, ask, slot, page);
        self.marks.set_stamp(page, stamp);
        self.in_flight.remove(page);
        self.budget -= 1;
    }
}
