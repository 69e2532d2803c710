//! Fix: a page that is cached is pinned at once; another gets a frame, that of a victim where none is free, and an
//! errand of the device is sent out.

ghost use Rattle.std.specs.Prelude.{◌≡◌, ◌<◌, ◌≤◌, ◌-◌, ℕ, IsTrue, IsFalse, Some};
ghost use Rattle.pp_cursor.specs.Asked.{region_has};
ghost use Rattle.pp_arc.specs.FourLists.{is_cached};
ghost use Rattle.pp_arc.specs.Figure.{request};
ghost use Rattle.pp_model.specs.Fixing.{fixes};
ghost use Rattle.pp_model.specs.Moves.{is_refusal};
ghost use Rattle.pp_core.specs.declared.seat.Seat.{Seat};
ghost use Rattle.pp_core.specs.declared.seat.Phase.TheVariants.{Writing, Reading};
ghost use Rattle.pp_core.specs.Parts.{parts_of};
ghost use Rattle.pp_core.specs.StandsFor.{IsKept, Moves, Asks};
ghost use Rattle.pp_core.specs.Effects.{IsIn, Spent, ask_in, frame_at, mark_at, pinned, is_flying, flushed_page};
ghost use Rattle.pp_core.specs.Effects.{is_busy};
ghost use Rattle.pp_core.specs.Fixing.{CanHit, CanFill, CanEvict, CanSend, CanTakeOver, filled, evicted, sent};
ghost use Rattle.pp_core.specs.Fixing.{wanted, taken_over, free_frame};

use crate::busy::BusyPages;
use crate::seat::Phase;
use crate::table::Table;
use pp_arc::Answer;
use pp_model::{Cause, Delay, Move, Reply};
use pp_plan::Ask;

/// The slot and the region for which an ask wants a page: a fix, or a gather.
pub(crate) fn wanted(ask: Ask) -> Option<(u8, u8)>
    ensures { result ≡ wanted ask }
{
    match ask {
        Ask::Fix { slot, region } | Ask::Gather { slot, region } => Some((slot, region)),
        _ => None,
    }
}

impl Table {
    /// Whether the region has the page.
    pub(crate) fn has_page(&self, region: u8, page: u32) -> bool
        ensures { result ≡ region_has self.now.layout region page }
    {
        match self.layout.extent(region) {
            Some(extent) => extent.has(page),
            None => false,
        }
    }

    /// Whether the page is loaded for a worker or written back as a victim. A page past the last one isn't.
    pub(crate) fn is_flying(&self, page: u32) -> bool
        ensures { result ≡ is_flying (parts_of self.now) page }
    {
        self.in_flight.contains(page)
    }

    /// The page that is being flushed.
    pub(crate) fn flushed(&self) -> Option<u32>
        ensures { result ≡ flushed_page (parts_of self.now) }
    {
        self.flush.map(|flush| flush.page)
    }

    /// A worker fixes a page into the slot that its plan names.
    pub(crate) fn fix(&mut self, worker: u32, page: u32) -> Reply
        requires { IsKept (parts_of self.old) }
        ensures moves { Moves (parts_of self.old) (Move.Fix worker page) result (parts_of self.new) }
        ensures refusal { IsTrue (is_refusal result) → parts_of self.new ≡ parts_of self.old }
    {
        match self.asked(worker) {
            Ok(ask) => self.fix_asked(worker, ask, page),
            Err(cause) => Reply::OffPlan(cause),
        }
    }

    /// A worker fixes a page, where its plan asks this.
    #[inline(always)]
    pub(crate) fn fix_asked(&mut self, worker: u32, ask: Ask, page: u32) -> Reply
        requires kept { IsKept (parts_of self.old) }
        requires asks { Asks (parts_of self.old) worker ask }
        ensures moves { Moves (parts_of self.old) (Move.Fix worker page) result (parts_of self.new) }
        ensures refusal { IsTrue (is_refusal result) → parts_of self.new ≡ parts_of self.old }
    {
        let Some((slot, region)) = wanted(ask) else {
            return Reply::OffPlan(Cause::NotAsked);
        };
        if !self.has_page(region, page) {
            return Reply::OffPlan(Cause::NotAsked);
        }
        if self.is_flying(page) {
            return Reply::NotNow(Delay::InFlight);
        }
        if self.touch(page) {
            return self.hit(worker, ask, slot, page);
        }
        match self.request(page) {
            Answer::Hit => unreachable!(),
            Answer::Free => self.fill(worker, slot, page),
            Answer::Evict(victim) => {
                if self.marks.is_dirty(victim) {
                    self.send(worker, slot, page, victim)
                } else {
                    self.evict(worker, slot, page, victim)
                }
            }
            Answer::AllBusy => Reply::NotNow(Delay::FlushHolds),
        }
    }

    /// Asks ARC for the page if it is cached, and tells whether it is.
    #[inline(always)]
    pub(crate) fn touch(&mut self, page: u32) -> bool
        requires { page < self.old.directory.pages }
        ensures cached { result ≡ is_cached self.old.directory page }
        ensures answer { IsTrue result → (request self.old.directory page (is_busy (parts_of self.old))).0 ≡ Answer.Hit }
        ensures parts { IsTrue result → parts_of self.new ≡ record (parts_of self.old) {
          lists = (request self.old.directory page (is_busy (parts_of self.old))).1;
        } }
        ensures unchanged { IsFalse result → parts_of self.new ≡ parts_of self.old }
    {
        self.directory.touch(page, &mut self.search)
    }

    /// Asks ARC for the page. The pages that are taken, and the one that is being flushed, may not leave the cache.
    fn request(&mut self, page: u32) -> Answer
        requires { page < self.old.directory.pages }
        ensures answer { result ≡ (request self.old.directory page (is_busy (parts_of self.old))).0 }
        ensures hit { result ≡ Answer.Hit → IsTrue (is_cached self.old.directory page) }
        ensures parts { parts_of self.new ≡ record (parts_of self.old) {
          lists = (request self.old.directory page (is_busy (parts_of self.old))).1;
        } }
    {
        let flushed = self.flushed();
        let busy = BusyPages {
            marks: &self.marks,
            flushed,
        };
        self.directory.request(page, &mut self.search, &busy)
    }

    /// The page is cached: it is fixed at once.
    #[inline(always)]
    pub(crate) fn hit(&mut self, worker: u32, ask: Ask, slot: u8, page: u32) -> Reply
        requires { CanHit (parts_of self.old) worker ask slot page }
        ensures spent { Spent (parts_of self.old) (parts_of self.new) worker
            (fixes ask slot page) (pinned self.old.marks page) }
        ensures reply { result ≡ Reply.Hit (frame_at self.old.marks page) (mark_at self.old.marks page) }
    {
        let reply = Reply::Hit {
            frame: self.frame_at(page),
            mark: self.mark_at(page),
        };
        self.put_in(worker, ask, slot, page);
        self.marks.pin(page);
        self.budget -= 3;
        reply
    }

    /// The page gets the least free frame, and has to be read.
    fn fill(&mut self, worker: u32, slot: u8, page: u32) -> Reply
        requires { CanFill (parts_of self.old) worker page }
        ensures parts { (x : Seat) → IsIn (parts_of self.old) worker x →
            parts_of self.new ≡ filled (parts_of self.old) worker x slot page }
        ensures reply { result ≡ Reply.MustRead (free_frame self.old.marks) }
    {
        let frame = match self.marks.least_free() {
            Some(frame) => frame,
            None => unreachable!(),
        };
        self.place(page, frame);
        self.in_flight.insert(page);
        self.budget -= 2;
        self.set_phase(worker, Phase::Reading { slot, page });
        Reply::MustRead { frame }
    }

    /// The page gets the frame of a clean victim, and has to be read.
    fn evict(&mut self, worker: u32, slot: u8, page: u32, victim: u32) -> Reply
        requires { CanEvict (parts_of self.old) worker page victim }
        ensures parts { (x : Seat) → IsIn (parts_of self.old) worker x →
            parts_of self.new ≡ evicted (parts_of self.old) worker x slot page victim }
        ensures reply { result ≡ Reply.MustRead (frame_at self.old.marks victim) }
    {
        let frame = self.take_over(page, victim);
        self.in_flight.insert(page);
        self.budget -= 2;
        self.set_phase(worker, Phase::Reading { slot, page });
        Reply::MustRead { frame }
    }

    /// The page gets the frame of a changed victim, which has to be written back first.
    fn send(&mut self, worker: u32, slot: u8, page: u32, victim: u32) -> Reply
        requires { CanSend (parts_of self.old) worker page victim }
        ensures parts { (x : Seat) → IsIn (parts_of self.old) worker x →
            parts_of self.new ≡ sent (parts_of self.old) worker x slot page victim }
        ensures reply { result ≡ Reply.MustWrite (frame_at self.old.marks victim) victim }
    {
        let frame = self.take_over(page, victim);
        self.in_flight.insert(page);
        self.in_flight.insert(victim);
        self.budget -= 1;
        let phase = Phase::Writing { slot, page, victim };
        self.set_phase(worker, phase);
        Reply::MustWrite { frame, victim }
    }

    /// The page stands in the victim's frame from now on, and is pinned.
    fn take_over(&mut self, page: u32, victim: u32) -> u32
        requires { CanTakeOver self.old.marks page victim }
        ensures parts { parts_of self.new ≡ record (parts_of self.old) {
          marks = taken_over self.old.marks page victim;
        } }
        ensures frame { result ≡ frame_at self.old.marks victim }
    {
        let frame = self.marks.hand_on(victim, page);
        self.marks.pin(page);
        frame
    }
}
