//! The pool as a plain program keeps it: lists of what is held, cached, changed and known, which it goes through for each answer.

use crate::common::TOO_GREAT;
use crate::words::{Plan, Word};
use pp_core::{Came, Cause, Delay, Ending, Failure, Held, Move, Reply, SubmitError};
use pp_settings::{Extent, Settings, Span};
use pp_test_plain::{Answer, Lists};
use std::alloc::{AllocError, Global};
use std::collections::VecDeque;

/// How many plans a pool keeps at most so that each is submitted as often as wanted.
pub const MOST_KEPT: usize = 4096;

/// A page: the frame that it is cached in, its mark, where it is known, and whether it is newer than the device's.
#[derive(Clone, Copy)]
pub struct Page {
    pub frame: Option<u32>,
    pub mark: Option<u64>,
    pub dirty: bool,
}

/// What a worker is at.
#[derive(Clone, Copy)]
pub enum Stage {
    Idle,
    Acting,
    Writing { slot: u32, page: u32, victim: u32 },
    Reading { slot: u32, page: u32 },
    Leaving,
}

/// A worker, its plan's peak, and what is left to do of the plan.
#[derive(Clone, Copy)]
pub struct Worker<'a> {
    pub stage: Stage,
    pub peak: u32,
    pub left: &'a [Word],
}

/// A pin: a slot of a worker holds a page. A bundle has several, and one page maybe twice.
#[derive(Clone, Copy)]
pub struct Holding {
    pub worker: u32,
    pub slot: u32,
    pub page: u32,
    pub held: Held,
    /// Whether the slot is a bundle.
    pub bundled: bool,
}

/// The pool.
pub struct Plain<'a> {
    pub frames: u32,
    /// How many workers and how many pages there are.
    pub crew: u32,
    pub size: u32,
    pub regions: Vec<Extent>,
    pub pages: Vec<Page>,
    pub workers: Vec<Worker<'a>>,
    pub holdings: Vec<Holding>,
    /// How long a life may last, and the plans that are kept in one that doesn't end.
    pub span: Span,
    pub kept: Vec<Plan<'a>>,
    /// The plans of this life that wait, the next one first, and how many were taken.
    pub queue: VecDeque<Plan<'a>>,
    pub taken: u64,
    pub lists: Lists,
    /// The page that is being flushed, and its mark as that began.
    pub flush: Option<(u32, u64)>,
    /// How many flushes a life begins at most, and how many of them are left.
    pub flushes: u64,
    pub flushes_left: u64,
}

impl Drop for Plain<'_> {
    fn drop(self) {
        let Plain {
            frames: _,
            crew: _,
            size: _,
            regions: _,
            pages: _,
            workers: _,
            holdings: _,
            span: _,
            kept: _,
            queue: _,
            taken: _,
            lists: _,
            flush: _,
            flushes: _,
            flushes_left: _,
        } = self;
    }
}

/// The pages of each region.
fn regions_of(alloc: Global, settings: &Settings) -> Result<Vec<Extent>, AllocError> {
    let mut regions = Vec::new(alloc);
    for extent in settings.layout().extents() {
        regions.push(*extent)?;
    }
    Ok(regions)
}

/// As many pages as there are numbers, of which nothing is known.
fn pages_of(alloc: Global, size: u32) -> Result<Vec<Page>, AllocError> {
    let page = Page {
        frame: None,
        mark: None,
        dirty: false,
    };
    Vec::from_elem(alloc, page, size as usize)
}

/// So many workers in no plan.
fn workers_of<'a>(alloc: Global, crew: u32) -> Result<Vec<Worker<'a>>, AllocError> {
    let worker = Worker {
        stage: Stage::Idle,
        peak: 0,
        left: &[],
    };
    Vec::from_elem(alloc, worker, crew as usize)
}

impl<'a> Plain<'a> {
    /// A new pool with these settings.
    pub fn new(alloc: Global, settings: &Settings) -> Result<Plain<'a>, AllocError> {
        let regions = regions_of(alloc, settings)?;
        let pages = pages_of(alloc, settings.pages())?;
        let workers = workers_of(alloc, settings.workers())?;
        Ok(Plain {
            frames: settings.frames(),
            crew: settings.workers(),
            size: settings.pages(),
            regions,
            pages,
            workers,
            holdings: Vec::new(alloc),
            span: settings.span(),
            kept: Vec::new(alloc),
            queue: VecDeque::new(alloc),
            taken: 0,
            lists: Lists::new(alloc, settings.frames()),
            flush: None,
            flushes: settings.flushes(),
            flushes_left: settings.flushes(),
        })
    }

    // ---- submits and lives

    /// Whether no other plan is taken in: 256 were submitted in this life, or in one that doesn't end as many wait as may.
    fn is_full(&self) -> bool {
        match self.span {
            Span::Bounded => self.submitted() >= 256,
            Span::Endless { waiting } => self.waiting() >= u64::from(waiting),
        }
    }

    /// The plan's number; or none, where no other plan is taken in.
    pub fn submit(&mut self, plan: Plan<'a>) -> Result<Option<u64>, AllocError> {
        if self.is_full() {
            return Ok(None);
        }
        let number = self.submitted();
        self.queue.push_back(plan)?;
        Ok(Some(number))
    }

    /// Keeps the plan, and says whether it does: not in a life that ends, and not where as many are kept as may.
    pub fn prepare(&mut self, plan: Plan<'a>) -> Result<bool, AllocError> {
        if matches!(self.span, Span::Bounded) || self.kept.len() >= MOST_KEPT {
            return Ok(false);
        }
        self.kept.push(plan)?;
        Ok(true)
    }

    /// Submits the plan that is kept at this place.
    pub fn submit_kept(&mut self, place: usize) -> Result<Result<u64, SubmitError>, AllocError> {
        match self.kept.get(place).copied() {
            None => Ok(Err(SubmitError::NotPrepared)),
            Some(plan) => Ok(self.submit(plan)?.ok_or(SubmitError::TooManyPlans)),
        }
    }

    /// How many plans were submitted in this life.
    pub fn submitted(&self) -> u64 {
        self.taken.saturating_add(self.waiting())
    }

    /// How many plans wait.
    pub fn waiting(&self) -> u64 {
        self.queue.len() as u64
    }

    /// Whether each worker is idle.
    pub fn are_idle(&self) -> bool {
        for worker in &self.workers {
            if !matches!(worker.stage, Stage::Idle) {
                return false;
            }
        }
        true
    }

    /// Whether no plan waits, each worker is idle, and no flush is in flight.
    pub fn is_at_rest(&self) -> bool {
        self.flush.is_none() && self.waiting() == 0 && self.are_idle()
    }

    /// Begins another life, where nothing is left to do: plans are counted from 0 again, and the flushes come back. Nothing else
    /// changes. False where something is left.
    pub fn renew(&mut self) -> bool {
        if !self.is_at_rest() {
            return false;
        }
        self.queue.clear();
        self.taken = 0;
        self.flushes_left = self.flushes;
        true
    }

    // ---- workers

    pub fn worker(&self, worker: u32) -> Option<Worker<'a>> {
        self.workers.get(worker as usize).copied()
    }

    /// The stage of the worker, if there is one of this number.
    pub fn stage(&self, worker: u32) -> Option<Stage> {
        let worker = self.worker(worker)?;
        Some(worker.stage)
    }

    fn set_stage(&mut self, worker: u32, stage: Stage) {
        if let Some(worker) = self.workers.get_mut(worker as usize) {
            worker.stage = stage;
        }
    }

    /// What the worker's plan asks, if it isn't at its end.
    pub fn word(&self, worker: u32) -> Option<Word> {
        let worker = self.worker(worker)?;
        worker.left.first().copied()
    }

    /// What the plan of a worker that acts asks; or why it can't act.
    fn asked(&self, worker: u32) -> Result<Option<Word>, Reply> {
        match self.stage(worker) {
            None => Err(Reply::OffPlan(Cause::NoWorker)),
            Some(Stage::Acting) => Ok(self.word(worker)),
            Some(_) => Err(Reply::OffPlan(Cause::NotActing)),
        }
    }

    /// The worker has done what its plan asked.
    fn go_on(&mut self, worker: u32) {
        if let Some(worker) = self.workers.get_mut(worker as usize) {
            if let Some((_, left)) = worker.left.split_first() {
                worker.left = left;
            }
        }
    }

    // ---- pins

    /// The page that the slot holds, and how; of a bundle the first one.
    pub fn holding(&self, worker: u32, slot: u32) -> Option<Holding> {
        for holding in &self.holdings {
            if holding.worker == worker && holding.slot == slot {
                return Some(*holding);
            }
        }
        None
    }

    /// The page that the slot holds, and how, where it is no bundle.
    pub fn held(&self, worker: u32, slot: u32) -> Option<(u32, Held)> {
        match self.holding(worker, slot) {
            Some(holding) if !holding.bundled => Some((holding.page, holding.held)),
            _ => None,
        }
    }

    /// How many pins the slot has as a bundle.
    pub fn gathered(&self, worker: u32, slot: u32) -> u32 {
        let mut pins: u32 = 0;
        for holding in &self.holdings {
            if holding.worker == worker && holding.slot == slot && holding.bundled {
                pins = pins.saturating_add(1);
            }
        }
        pins
    }

    /// Whether the slot holds the page.
    pub fn has_pin(&self, worker: u32, slot: u32, page: u32) -> bool {
        for holding in &self.holdings {
            if holding.worker == worker && holding.slot == slot && holding.page == page {
                return true;
            }
        }
        false
    }

    /// Whether some slot holds the page.
    pub fn is_pinned(&self, page: u32) -> bool {
        for holding in &self.holdings {
            if holding.page == page {
                return true;
            }
        }
        false
    }

    /// Whether the worker holds any page.
    pub fn holds(&self, worker: u32) -> bool {
        for holding in &self.holdings {
            if holding.worker == worker {
                return true;
            }
        }
        false
    }

    /// Whether a latch stands on the page beside which this one can't be had.
    pub fn is_latched(&self, page: u32, wanted: Held) -> bool {
        for holding in &self.holdings {
            if holding.page == page {
                match (holding.held, wanted) {
                    (Held::X, _) | (Held::S, Held::X) => return true,
                    _ => {}
                }
            }
        }
        false
    }

    /// The slot's page is held so from now on, and the worker goes on.
    fn hold(&mut self, worker: u32, slot: u32, held: Held) {
        for holding in &mut self.holdings {
            if holding.worker == worker && holding.slot == slot {
                holding.held = held;
            }
        }
        self.go_on(worker);
    }

    /// The slot has one pin more, of this page, and the worker goes on.
    fn pin(&mut self, worker: u32, slot: u32, page: u32) -> Result<(), AllocError> {
        let bundled = matches!(self.word(worker), Some(Word::Gather(_, _)));
        self.holdings.push(Holding {
            worker,
            slot,
            page,
            held: Held::Free,
            bundled,
        })?;
        self.go_on(worker);
        Ok(())
    }

    /// The slot has no pin any more.
    fn take_off(&mut self, worker: u32, slot: u32) {
        self.holdings
            .retain(|holding| holding.worker != worker || holding.slot != slot);
    }

    // ---- pages

    pub fn page(&self, page: u32) -> Option<Page> {
        self.pages.get(page as usize).copied()
    }

    /// The mark of the page, where it is known.
    pub fn mark(&self, page: u32) -> Option<u64> {
        self.page(page)?.mark
    }

    pub fn mark_or_zero(&self, page: u32) -> u64 {
        self.mark(page).unwrap_or(0)
    }

    fn set_mark(&mut self, page: u32, mark: u64) {
        if let Some(page) = self.pages.get_mut(page as usize) {
            page.mark = Some(mark);
        }
    }

    /// The frame that the page is cached in.
    pub fn frame(&self, page: u32) -> Option<u32> {
        self.page(page)?.frame
    }

    fn frame_or_none(&self, page: u32) -> u32 {
        self.frame(page).unwrap_or(self.frames)
    }

    fn set_frame(&mut self, page: u32, frame: Option<u32>) {
        if let Some(page) = self.pages.get_mut(page as usize) {
            page.frame = frame;
        }
    }

    /// Whether some page is cached in the frame.
    fn is_filled(&self, frame: u32) -> bool {
        for page in &self.pages {
            if page.frame == Some(frame) {
                return true;
            }
        }
        false
    }

    fn least_free(&self) -> u32 {
        for frame in 0..self.frames {
            if !self.is_filled(frame) {
                return frame;
            }
        }
        self.frames
    }

    /// Whether the page is newer than the device's.
    pub fn is_dirty(&self, page: u32) -> bool {
        match self.page(page) {
            Some(page) => page.dirty,
            None => false,
        }
    }

    fn set_dirty(&mut self, page: u32, dirty: bool) {
        if let Some(page) = self.pages.get_mut(page as usize) {
            page.dirty = dirty;
        }
    }

    /// How many pages are dirty.
    pub fn dirty(&self) -> u32 {
        let mut dirty: u32 = 0;
        for page in &self.pages {
            if page.dirty {
                dirty = dirty.saturating_add(1);
            }
        }
        dirty
    }

    /// A writer's latch goes off the page: its mark is raised, and it is dirty.
    fn change(&mut self, page: u32) -> u64 {
        let mark = self.mark_or_zero(page).saturating_add(1);
        self.set_mark(page, mark);
        self.set_dirty(page, true);
        mark
    }

    /// Whether the region with this number has the page.
    fn has(&self, region: u8, page: u32) -> bool {
        match self.regions.get(usize::from(region)) {
            Some(extent) => {
                page >= extent.first && page.saturating_sub(extent.first) < extent.count
            }
            None => false,
        }
    }

    /// Whether the page may not leave: it is held or loaded, or it is the one that is flushed.
    fn is_busy(&self, page: u32) -> bool {
        let is_flushed = match self.flush {
            Some((flushed, _)) => flushed == page,
            None => false,
        };
        is_flushed || self.is_pinned(page) || self.is_loaded(page)
    }

    /// The pages that may not leave.
    fn busy(&self) -> Result<Vec<u32>, AllocError> {
        let mut busy = Vec::new(*self.holdings.allocator());
        for page in 0..self.size {
            if self.is_busy(page) {
                busy.push(page)?;
            }
        }
        Ok(busy)
    }

    /// Whether the page is loaded for some worker.
    pub fn is_loaded(&self, asked: u32) -> bool {
        for worker in &self.workers {
            match worker.stage {
                Stage::Writing { page, .. } | Stage::Reading { page, .. } if page == asked => {
                    return true;
                }
                _ => {}
            }
        }
        false
    }

    /// Whether the page is loaded for somebody, or written back as a victim.
    fn is_in_flight(&self, asked: u32) -> bool {
        for worker in &self.workers {
            match worker.stage {
                Stage::Writing { victim, .. } if victim == asked => return true,
                _ => {}
            }
        }
        self.is_loaded(asked)
    }

    // ---- the moves

    pub fn step(&mut self, asked: Move) -> Result<Reply, AllocError> {
        Ok(match asked {
            Move::Take { worker } => self.take(worker),
            Move::Fix { worker, page } => self.fix(worker, page)?,
            Move::WriteDone { worker, ok } => self.write_done(worker, ok)?,
            Move::ReadDone { worker, came } => self.read_done(worker, came)?,
            Move::Unfix { worker } => self.unfix(worker),
            Move::Latch { worker } => self.latch(worker),
            Move::Unlatch { worker } => self.unlatch(worker),
            Move::Choose { worker, branch } => self.choose(worker, branch),
            Move::Unwind { worker, slot } => self.unwind(worker, slot),
            Move::Finish { worker } => self.finish(worker),
            Move::FlushBegin { page } => self.flush_begin(page),
            Move::FlushDone { ok } => self.flush_done(ok),
        })
    }

    /// Whether a plan of this peak fits beside those that run.
    fn has_room(&self, peak: u32) -> bool {
        let mut peaks = peak;
        for worker in &self.workers {
            peaks = peaks.saturating_add(worker.peak);
        }
        peaks <= self.frames
    }

    fn take(&mut self, worker: u32) -> Reply {
        match self.stage(worker) {
            None => return Reply::OffPlan(Cause::NoWorker),
            Some(Stage::Idle) => {}
            Some(_) => return Reply::OffPlan(Cause::NotIdle),
        }
        let Some(plan) = self.queue.front().copied() else {
            return Reply::NotNow(Delay::NothingWaiting);
        };
        if !self.has_room(plan.peak) {
            return Reply::NotNow(Delay::NoRoom);
        }
        let number = self.taken;
        self.taken = number.saturating_add(1);
        let _ = self.queue.pop_front();
        self.begin(worker, Stage::Acting, plan);
        Reply::Taken { plan: number }
    }

    /// The worker is at this stage of the plan.
    fn begin(&mut self, worker: u32, stage: Stage, plan: Plan<'a>) {
        if let Some(worker) = self.workers.get_mut(worker as usize) {
            *worker = Worker {
                stage,
                peak: plan.peak,
                left: plan.words,
            };
        }
    }

    fn fix(&mut self, worker: u32, page: u32) -> Result<Reply, AllocError> {
        let slot = match self.asked(worker) {
            Err(refusal) => return Ok(refusal),
            Ok(Some(Word::Fix(slot, region) | Word::Gather(slot, region)))
                if self.has(region, page) => { slot }
            Ok(_) => return Ok(Reply::OffPlan(Cause::NotAsked)),
        };
        if self.is_in_flight(page) {
            return Ok(Reply::NotNow(Delay::InFlight));
        }
        let busy = self.busy()?;
        let answer = self.lists.request(page, &busy)?;
        self.answered(worker, slot, page, answer)
    }

    /// What a fix is answered where ARC's lists answer so.
    fn answered(
        &mut self,
        worker: u32,
        slot: u32,
        page: u32,
        answer: Answer,
    ) -> Result<Reply, AllocError> {
        match answer {
            Answer::Hit => {
                self.pin(worker, slot, page)?;
                let frame = self.frame_or_none(page);
                let mark = self.mark_or_zero(page);
                Ok(Reply::Hit { frame, mark })
            }
            Answer::Free => {
                let frame = self.least_free();
                self.set_frame(page, Some(frame));
                self.set_stage(worker, Stage::Reading { slot, page });
                Ok(Reply::MustRead { frame })
            }
            Answer::Evict(victim) => Ok(self.evict(worker, slot, page, victim)),
            Answer::AllBusy => Ok(Reply::NotNow(Delay::FlushHolds)),
        }
    }

    fn evict(&mut self, worker: u32, slot: u32, page: u32, victim: u32) -> Reply {
        let frame = self.frame_or_none(victim);
        self.set_frame(victim, None);
        self.set_frame(page, Some(frame));
        if self.is_dirty(victim) {
            self.set_stage(worker, Stage::Writing { slot, page, victim });
            Reply::MustWrite { frame, victim }
        } else {
            self.set_stage(worker, Stage::Reading { slot, page });
            Reply::MustRead { frame }
        }
    }

    fn write_done(&mut self, worker: u32, ok: bool) -> Result<Reply, AllocError> {
        let (slot, page, victim) = match self.stage(worker) {
            None => return Ok(Reply::OffPlan(Cause::NoWorker)),
            Some(Stage::Writing { slot, page, victim }) => (slot, page, victim),
            Some(_) => return Ok(Reply::OffPlan(Cause::NoErrand)),
        };
        let frame = self.frame_or_none(page);
        if ok {
            self.set_dirty(victim, false);
            self.set_stage(worker, Stage::Reading { slot, page });
            return Ok(Reply::MustRead { frame });
        }
        self.lists.bring_back(page, victim)?;
        self.set_frame(page, None);
        self.set_frame(victim, Some(frame));
        self.set_stage(worker, Stage::Leaving);
        Ok(Reply::Failed(Failure::WriteFault))
    }

    /// Whether what came is the page.
    fn is_right(&self, page: u32, head: u32, stamp: u64) -> bool {
        let is_known = match self.mark(page) {
            Some(mark) => stamp == mark,
            None => stamp < TOO_GREAT,
        };
        head == page && is_known
    }

    fn read_done(&mut self, worker: u32, came: Came) -> Result<Reply, AllocError> {
        let (slot, page) = match self.stage(worker) {
            None => return Ok(Reply::OffPlan(Cause::NoWorker)),
            Some(Stage::Reading { slot, page }) => (slot, page),
            Some(_) => return Ok(Reply::OffPlan(Cause::NoErrand)),
        };
        let failure = match came {
            Came::Fault => Failure::ReadFault,
            Came::Image(head, mark) if self.is_right(page, head, mark) => {
                self.set_mark(page, mark);
                self.set_stage(worker, Stage::Acting);
                self.pin(worker, slot, page)?;
                return Ok(Reply::Loaded { mark });
            }
            Came::Image(_, _) => Failure::Misread,
        };
        self.lists.forget(page);
        self.set_frame(page, None);
        self.set_stage(worker, Stage::Leaving);
        Ok(Reply::Failed(failure))
    }

    fn unfix(&mut self, worker: u32) -> Reply {
        match self.asked(worker) {
            Err(refusal) => refusal,
            Ok(Some(Word::Unfix(slot) | Word::Scatter(slot))) => {
                self.take_off(worker, slot);
                self.go_on(worker);
                Reply::Did
            }
            Ok(_) => Reply::OffPlan(Cause::NotAsked),
        }
    }

    fn latch(&mut self, worker: u32) -> Reply {
        let (slot, held) = match self.asked(worker) {
            Err(refusal) => return refusal,
            Ok(Some(Word::Latch(slot, held))) => (slot, held),
            Ok(_) => return Reply::OffPlan(Cause::NotAsked),
        };
        let Some((page, _)) = self.held(worker, slot) else {
            return Reply::OffPlan(Cause::NotHeld);
        };
        if self.is_latched(page, held) {
            return Reply::NotNow(Delay::LatchHeld);
        }
        self.hold(worker, slot, held);
        let mark = self.mark_or_zero(page);
        Reply::Latched { mark }
    }

    fn unlatch(&mut self, worker: u32) -> Reply {
        let slot = match self.asked(worker) {
            Err(refusal) => return refusal,
            Ok(Some(Word::Unlatch(slot))) => slot,
            Ok(_) => return Reply::OffPlan(Cause::NotAsked),
        };
        let Some((page, held)) = self.held(worker, slot) else {
            return Reply::OffPlan(Cause::NotHeld);
        };
        self.hold(worker, slot, Held::Free);
        let mark = match held {
            Held::X => self.change(page),
            _ => self.mark_or_zero(page),
        };
        Reply::Unlatched { mark }
    }

    fn choose(&mut self, worker: u32, branch: u32) -> Reply {
        let branches = match self.asked(worker) {
            Err(refusal) => return refusal,
            Ok(Some(Word::Choice(branches))) => branches,
            Ok(_) => return Reply::OffPlan(Cause::NotAsked),
        };
        let Some(left) = branches.get(branch as usize).copied() else {
            return Reply::OffPlan(Cause::NotAsked);
        };
        if let Some(worker) = self.workers.get_mut(worker as usize) {
            worker.left = left;
        }
        Reply::Did
    }

    fn unwind(&mut self, worker: u32, slot: u32) -> Reply {
        match self.stage(worker) {
            None => return Reply::OffPlan(Cause::NoWorker),
            Some(Stage::Leaving) => {}
            Some(_) => return Reply::OffPlan(Cause::NotLeaving),
        }
        let Some(holding) = self.holding(worker, slot) else {
            return Reply::OffPlan(Cause::NotHeld);
        };
        self.take_off(worker, slot);
        match holding.held {
            Held::X => Reply::Unlatched {
                mark: self.change(holding.page),
            },
            _ => Reply::Did,
        }
    }

    fn finish(&mut self, worker: u32) -> Reply {
        let (is_at_end, ending) = match self.stage(worker) {
            None => return Reply::OffPlan(Cause::NoWorker),
            Some(Stage::Acting) => (self.word(worker).is_none(), Ending::Done),
            Some(Stage::Leaving) => (!self.holds(worker), Ending::Gone),
            Some(_) => return Reply::OffPlan(Cause::NotActing),
        };
        if !is_at_end {
            return Reply::OffPlan(Cause::NotEnded);
        }
        let nothing = Plan {
            peak: 0,
            words: &[],
        };
        self.begin(worker, Stage::Idle, nothing);
        Reply::Finished(ending)
    }

    fn flush_begin(&mut self, page: u32) -> Reply {
        if self.flush.is_some() {
            return Reply::NotNow(Delay::FlushBusy);
        }
        if self.frame(page).is_none() || !self.is_dirty(page) {
            return Reply::OffPlan(Cause::NotDirty);
        }
        if self.flushes_left == 0 {
            return Reply::OffPlan(Cause::NoFlushLeft);
        }
        if self.is_latched(page, Held::S) {
            return Reply::NotNow(Delay::LatchHeld);
        }
        let mark = self.mark_or_zero(page);
        self.flush = Some((page, mark));
        self.flushes_left = self.flushes_left.saturating_sub(1);
        Reply::Flushing { mark }
    }

    fn flush_done(&mut self, ok: bool) -> Reply {
        let Some((page, began)) = self.flush else {
            return Reply::OffPlan(Cause::NoErrand);
        };
        self.flush = None;
        let clean = ok && self.mark_or_zero(page) == began;
        if clean {
            self.set_dirty(page, false);
        }
        Reply::Flushed { clean }
    }
}
