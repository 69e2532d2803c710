//! The flusher's moves: a changed page is written to the device and stays in its frame.

ghost use Rattle.std.specs.Prelude.{◌≡◌, ◌<◌, ◌&&◌, ◌==◌, IsTrue, length, None, Some};
ghost use Rattle.pp_core.specs.Busy.{page_of};
ghost use Rattle.pp_arc.specs.FourLists.{is_cached};
ghost use Rattle.pp_model.specs.Moves.{is_refusal};
ghost use Rattle.pp_core.specs.Parts.{parts_of};
ghost use Rattle.pp_core.specs.StandsFor.{IsKept, Moves};
ghost use Rattle.pp_core.specs.Effects.{mark_at};
ghost use Rattle.pp_core.specs.FlushEffects.{is_changed, flush_begun, is_clean, cleaned, flush_ended};

use crate::table::{Flush, Table};
use pp_arc::List;
use pp_frames::Mode;
use pp_model::{Cause, Delay, Move, Reply};

impl Table {
    // ---- the begin of a flush

    /// A flush of the page begins, where none is in flight.
    pub(crate) fn flush_begin(&mut self, page: u32) -> Reply
        requires { IsKept (parts_of self.old) }
        ensures moves { Moves (parts_of self.old) (Move.FlushBegin page) result (parts_of self.new) }
        ensures refusal { IsTrue (is_refusal result) → parts_of self.new ≡ parts_of self.old }
    {
        if self.flush.is_some() {
            return Reply::NotNow(Delay::FlushBusy);
        }
        if !self.is_changed(page) {
            return Reply::OffPlan(Cause::NotDirty);
        }
        if self.flushes_left == 0 {
            return Reply::OffPlan(Cause::NoFlushLeft);
        }
        if self.marks.is_latched(page, Mode::X) {
            return Reply::NotNow(Delay::LatchHeld);
        }
        let mark = self.mark_at(page);
        self.begin_flush(page, mark);
        Reply::Flushing { mark }
    }

    /// Whether the page is cached and newer than the device's.
    pub(crate) fn is_changed(&self, page: u32) -> bool
        ensures { result ≡ is_changed (parts_of self.now) page }
    {
        self.is_cached(page) && self.marks.is_dirty(page)
    }

    /// Whether the page is cached.
    pub(crate) fn is_cached(&self, page: u32) -> bool
        ensures { result ≡ is_cached self.now.directory page }
    {
        matches!(self.directory.place(page), Some(List::T1 | List::T2))
    }

    /// A flush of the page, which has this mark, is in flight.
    fn begin_flush(&mut self, page: u32, mark: u64)
        requires none { self.old.flush ≡ None }
        requires left { 0 < self.old.flushes_left }
        requires budget { 0 < self.old.budget }
        ensures { parts_of self.new ≡ flush_begun (parts_of self.old) page mark }
    {
        self.flush = Some(Flush { page, began: mark });
        self.flushes_left -= 1;
        self.budget -= 1;
    }

    // ---- the end of a flush

    /// The flush in flight is over; `ok` says whether the device wrote the page.
    pub(crate) fn flush_done(&mut self, ok: bool) -> Reply
        requires { IsKept (parts_of self.old) }
        ensures moves { Moves (parts_of self.old) (Move.FlushDone ok) result (parts_of self.new) }
        ensures refusal { IsTrue (is_refusal result) → parts_of self.new ≡ parts_of self.old }
    {
        let Some(flush) = self.flush else {
            return Reply::OffPlan(Cause::NoErrand);
        };
        let clean = self.is_clean(ok, flush);
        self.end_flush(flush.page, clean);
        Reply::Flushed { clean }
    }

    /// Whether the device has the page as it is: it was written, and has the mark that it had as its flush began.
    fn is_clean(&self, ok: bool, flush: Flush) -> bool
        ensures { result ≡ is_clean self.now.marks ok flush }
    {
        ok && self.mark_at(flush.page) == flush.began
    }

    /// The flush is over, and the page is clean where it was written and not changed since.
    fn end_flush(&mut self, page: u32, clean: bool)
        requires page { page < length self.old.marks.pages }
        requires budget { 0 < self.old.budget }
        requires flush { page_of self.old.flush ≡ Some page }
        ensures { parts_of self.new ≡ flush_ended (parts_of self.old) page clean }
    {
        self.set_clean_if(page, clean);
        self.flush = None;
        self.directory.freed(page, &mut self.search);
        self.budget -= 1;
    }

    /// The page is clean if it is told so.
    fn set_clean_if(&mut self, page: u32, clean: bool)
        requires { page < length self.old.marks.pages }
        ensures { parts_of self.new ≡ record (parts_of self.old) { marks = cleaned self.old.marks page clean } }
    {
        if clean {
            self.marks.set_clean(page);
        }
    }
}
