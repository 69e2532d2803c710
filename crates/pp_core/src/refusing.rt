//! Why a move is refused, told without making it: the tests of each move, in their order.

ghost use Rattle.std.specs.Prelude.{◌≡◌, Bool, true, false, not, ◌&&◌, ◌==◌};
ghost use Rattle.pp_arc.specs.FourLists.{is_cached, cached_count};
ghost use Rattle.pp_arc.specs.Figure.{request, is_all_busy};
ghost use Rattle.pp_arc.specs.Laws.{AllCachedAreBusy};
ghost use Rattle.pp_model.specs.declared.moves.Came.{Came};
ghost use Rattle.pp_model.specs.Pool.{State};
ghost use Rattle.pp_core.specs.Parts.{parts_of};
ghost use Rattle.pp_core.specs.StandsFor.{StandsFor, IsKept};
ghost use Rattle.pp_core.specs.Effects.{phase_of, is_busy};
ghost use Rattle.pp_core.specs.LeaveEffects.{is_leaving};
ghost use Rattle.pp_core.specs.Refusals.{refusal_to, IsRefusalTo};

use crate::answering::{reading_of, writing_of};
use crate::busy::BusyPages;
use crate::fixing::wanted;
use crate::machine::Core;
use crate::table::Table;
use crate::using::latch_mode;
use pp_arc::{Busy, List};
use pp_frames::Mode as LatchMode;
use pp_model::{Cause, Delay, Move, Reply};
use pp_plan::Ask;

impl Core {
    /// The refusal that [`Core::step`] would give to the move; none where the move is possible. Nothing changes.
    ///
    /// A fix that would need the frame of another page looks at each page; all other moves look at one page at most.
    pub fn refusal(&self, asked: &Move) -> Option<Reply>
        ensures { (s : State) → StandsFor self.now s → result ≡ refusal_to s asked.now }
    {
        self.table.refusal(asked)
    }
}

impl Table {
    /// What the move is refused with; none where it is possible.
    pub(crate) fn refusal(&self, asked: &Move) -> Option<Reply>
        requires { IsKept (parts_of self.now) }
        ensures { IsRefusalTo (parts_of self.now) asked.now result }
    {
        match *asked {
            Move::Take { worker } => self.take_refusal(worker),
            Move::Fix { worker, page } => self.fix_refusal(worker, page),
            Move::WriteDone { worker, .. } => self.write_refusal(worker),
            Move::ReadDone { worker, .. } => self.read_refusal(worker),
            Move::Unfix { worker } => self.unfix_refusal(worker),
            Move::Latch { worker } => self.latch_refusal(worker),
            Move::Unlatch { worker } => self.unlatch_refusal(worker),
            Move::Choose { worker, branch } => self.choose_refusal(worker, branch),
            Move::Unwind { worker, slot } => self.unwind_refusal(worker, slot),
            Move::Finish { worker } => self.finish_refusal(worker),
            Move::FlushBegin { page } => self.flush_begin_refusal(page),
            Move::FlushDone { .. } => self.flush_done_refusal(),
        }
    }

    // ---- workers and plans

    /// Why the worker begins no plan.
    fn take_refusal(&self, worker: u32) -> Option<Reply>
        requires { IsKept (parts_of self.now) }
        ensures { IsRefusalTo (parts_of self.now) (Move.Take worker) result }
    {
        let Some(phase) = self.phase(worker) else {
            return Some(Reply::OffPlan(Cause::NoWorker));
        };
        if phase.is_some() {
            return Some(Reply::OffPlan(Cause::NotIdle));
        }
        let Some(peak) = self.waiting_peak() else {
            return Some(Reply::NotNow(Delay::NothingWaiting));
        };
        if !self.has_room(peak) {
            return Some(Reply::NotNow(Delay::NoRoom));
        }
        None
    }

    /// Why the worker doesn't go on with this branch of a choice.
    fn choose_refusal(&self, worker: u32, branch: u32) -> Option<Reply>
        requires { IsKept (parts_of self.now) }
        ensures { IsRefusalTo (parts_of self.now) (Move.Choose worker branch) result }
    {
        let ask = match self.asked(worker) {
            Ok(ask) => ask,
            Err(cause) => return Some(Reply::OffPlan(cause)),
        };
        let Ask::Choose { branches } = ask else {
            return Some(Reply::OffPlan(Cause::NotAsked));
        };
        if branch >= u32::from(branches) {
            return Some(Reply::OffPlan(Cause::NotAsked));
        }
        None
    }

    /// Why the worker isn't done with its plan.
    fn finish_refusal(&self, worker: u32) -> Option<Reply>
        requires { IsKept (parts_of self.now) }
        ensures { IsRefusalTo (parts_of self.now) (Move.Finish worker) result }
    {
        if self.is_leaving(worker) {
            return self.gone_refusal(worker);
        }
        self.done_refusal(worker)
    }

    /// The same of a worker that isn't leaving its plan.
    fn done_refusal(&self, worker: u32) -> Option<Reply>
        requires kept { IsKept (parts_of self.now) }
        requires stays { is_leaving (phase_of (parts_of self.now) worker) ≡ false }
        ensures { IsRefusalTo (parts_of self.now) (Move.Finish worker) result }
    {
        let ask = match self.asked(worker) {
            Ok(ask) => ask,
            Err(cause) => return Some(Reply::OffPlan(cause)),
        };
        match ask {
            Ask::End => None,
            _ => Some(Reply::OffPlan(Cause::NotEnded)),
        }
    }

    /// The same of a worker that is.
    fn gone_refusal(&self, worker: u32) -> Option<Reply>
        requires kept { IsKept (parts_of self.now) }
        requires leaves { is_leaving (phase_of (parts_of self.now) worker) ≡ true }
        ensures { IsRefusalTo (parts_of self.now) (Move.Finish worker) result }
    {
        if self.holds(worker) > 0 {
            return Some(Reply::OffPlan(Cause::NotEnded));
        }
        None
    }

    /// Why the worker doesn't give the slot back as one that leaves its plan.
    fn unwind_refusal(&self, worker: u32, slot: u32) -> Option<Reply>
        requires { IsKept (parts_of self.now) }
        ensures { IsRefusalTo (parts_of self.now) (Move.Unwind worker slot) result }
    {
        if self.phase(worker).is_none() {
            return Some(Reply::OffPlan(Cause::NoWorker));
        }
        if !self.is_leaving(worker) {
            return Some(Reply::OffPlan(Cause::NotLeaving));
        }
        match self.hold(worker, slot) {
            Some(_) => None,
            None => Some(Reply::OffPlan(Cause::NotHeld)),
        }
    }

    // ---- pages of a worker that acts

    /// Why the worker doesn't give the page of a slot back.
    fn unfix_refusal(&self, worker: u32) -> Option<Reply>
        requires { IsKept (parts_of self.now) }
        ensures { IsRefusalTo (parts_of self.now) (Move.Unfix worker) result }
    {
        let ask = match self.asked(worker) {
            Ok(ask) => ask,
            Err(cause) => return Some(Reply::OffPlan(cause)),
        };
        match ask {
            Ask::Unfix { .. } | Ask::Scatter { .. } => None,
            _ => Some(Reply::OffPlan(Cause::NotAsked)),
        }
    }

    /// Why the worker doesn't latch the page of a slot.
    fn latch_refusal(&self, worker: u32) -> Option<Reply>
        requires { IsKept (parts_of self.now) }
        ensures { IsRefusalTo (parts_of self.now) (Move.Latch worker) result }
    {
        let ask = match self.asked(worker) {
            Ok(ask) => ask,
            Err(cause) => return Some(Reply::OffPlan(cause)),
        };
        let Ask::Latch { slot, mode } = ask else {
            return Some(Reply::OffPlan(Cause::NotAsked));
        };
        let page = self.page_in(worker, slot);
        if !self.marks.can_grant(page, latch_mode(mode)) {
            return Some(Reply::NotNow(Delay::LatchHeld));
        }
        None
    }

    /// Why the worker doesn't take the latch off the page of a slot.
    fn unlatch_refusal(&self, worker: u32) -> Option<Reply>
        requires { IsKept (parts_of self.now) }
        ensures { IsRefusalTo (parts_of self.now) (Move.Unlatch worker) result }
    {
        let ask = match self.asked(worker) {
            Ok(ask) => ask,
            Err(cause) => return Some(Reply::OffPlan(cause)),
        };
        match ask {
            Ask::Unlatch { .. } => None,
            _ => Some(Reply::OffPlan(Cause::NotAsked)),
        }
    }

    // ---- fix

    /// Why the worker doesn't fix the page.
    fn fix_refusal(&self, worker: u32, page: u32) -> Option<Reply>
        requires { IsKept (parts_of self.now) }
        ensures { IsRefusalTo (parts_of self.now) (Move.Fix worker page) result }
    {
        let ask = match self.asked(worker) {
            Ok(ask) => ask,
            Err(cause) => return Some(Reply::OffPlan(cause)),
        };
        let Some((_, region)) = wanted(ask) else {
            return Some(Reply::OffPlan(Cause::NotAsked));
        };
        if !self.has_page(region, page) {
            return Some(Reply::OffPlan(Cause::NotAsked));
        }
        if self.is_flying(page) {
            return Some(Reply::NotNow(Delay::InFlight));
        }
        if self.is_held_up(page) {
            return Some(Reply::NotNow(Delay::FlushHolds));
        }
        None
    }

    /// Whether ARC, asked for the page, would find no room for it: the page isn't cached, every frame has a cached page,
    /// and each of these is busy.
    fn is_held_up(&self, page: u32) -> bool
        requires { IsKept (parts_of self.now) }
        ensures { result ≡ is_all_busy (request self.now.directory page (is_busy (parts_of self.now))).0 }
    {
        if self.is_cached(page) {
            return false;
        }
        self.is_full() && self.are_all_busy()
    }

    /// Whether as many pages are cached as there are frames.
    fn is_full(&self) -> bool
        requires { IsKept (parts_of self.now) }
        ensures { result ≡ (cached_count self.now.directory == self.now.directory.c) }
    {
        self.directory.len(List::T1) + self.directory.len(List::T2) == self.layout.frames() as usize
    }

    /// Whether every cached page is busy. It looks at each page.
    fn are_all_busy(&self) -> bool
        requires { IsKept (parts_of self.now) }
        ensures all { result ≡ true → AllCachedAreBusy self.now.directory (is_busy (parts_of self.now)) }
        ensures one { result ≡ false → ¬ AllCachedAreBusy self.now.directory (is_busy (parts_of self.now)) }
    {
        for page in 0..self.marks.pages() {
            if self.may_leave(page) {
                return false;
            }
        }
        true
    }

    /// Whether the page is cached and not busy.
    fn may_leave(&self, page: u32) -> bool
        ensures { result ≡ (is_cached self.now.directory page && not (is_busy (parts_of self.now) page)) }
    {
        let flushed = self.flushed();
        let busy = BusyPages {
            marks: &self.marks,
            flushed,
        };
        self.is_cached(page) && !busy.is_busy(page)
    }

    // ---- devices

    /// Why no device has written a victim back for the worker.
    fn write_refusal(&self, worker: u32) -> Option<Reply>
        requires { IsKept (parts_of self.now) }
        ensures { (ok : Bool) → IsRefusalTo (parts_of self.now) (Move.WriteDone worker ok) result }
    {
        match writing_of(self.phase(worker)) {
            Ok(_) => None,
            Err(cause) => Some(Reply::OffPlan(cause)),
        }
    }

    /// Why no device has read a page for the worker.
    fn read_refusal(&self, worker: u32) -> Option<Reply>
        requires { IsKept (parts_of self.now) }
        ensures { (came : Came) → IsRefusalTo (parts_of self.now) (Move.ReadDone worker came) result }
    {
        match reading_of(self.phase(worker)) {
            Ok(_) => None,
            Err(cause) => Some(Reply::OffPlan(cause)),
        }
    }

    // ---- the flusher

    /// Why no flush of the page begins.
    fn flush_begin_refusal(&self, page: u32) -> Option<Reply>
        requires { IsKept (parts_of self.now) }
        ensures { IsRefusalTo (parts_of self.now) (Move.FlushBegin page) result }
    {
        if self.flush.is_some() {
            return Some(Reply::NotNow(Delay::FlushBusy));
        }
        if !self.is_changed(page) {
            return Some(Reply::OffPlan(Cause::NotDirty));
        }
        if self.flushes_left == 0 {
            return Some(Reply::OffPlan(Cause::NoFlushLeft));
        }
        if self.marks.is_latched(page, LatchMode::X) {
            return Some(Reply::NotNow(Delay::LatchHeld));
        }
        None
    }

    /// Why no flush is over.
    fn flush_done_refusal(&self) -> Option<Reply>
        requires { IsKept (parts_of self.now) }
        ensures { (ok : Bool) → IsRefusalTo (parts_of self.now) (Move.FlushDone ok) result }
    {
        match self.flush {
            Some(_) => None,
            None => Some(Reply::OffPlan(Cause::NoErrand)),
        }
    }
}
