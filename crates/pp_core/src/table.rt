//! What a core keeps. A table has no invariant of its own.

ghost use Rattle.std.specs.Prelude.{◌≡◌, ◌<◌, ◌≤◌, ◌+◌, ◌-◌, ◌^◌, ℕ, IfOk, IfErr, IfSome, Some, None, List, length};
ghost use Rattle.std.specs.Prelude.{slice_get, vec_capacity, []};
ghost use Rattle.pp_arc.specs.Search.{KnowsBusy};
ghost use Rattle.pp_model.specs.Submitting.{plan_limit};
ghost use Rattle.pp_frames.specs.Marks.{IsFree, frame_of, pins_of, all_pins, latch_count, latches_of};
ghost use Rattle.pp_core.specs.declared.seat.Seat.{Seat};
ghost use Rattle.pp_core.specs.Busy.{is_busy_in, page_of};
ghost use Rattle.pp_core.specs.Slots.{hold_at};
ghost use Rattle.pp_core.specs.Limits.{most_kept};
ghost use Rattle.pp_core.specs.Gathered.{bundle_place};

use crate::busy::BusyPages;
use crate::seat::{Hold, Phase, Seat};
use circular_buffer::HeapCircularBuffer;
use pp_arc::{Answer, Directory, Search};
use pp_bundles::Bundles;
use pp_cert::{Accepted, Held};
use pp_frames::{Marks, Mode, NumberSet};
use pp_model::{Cause, Delay, Move, Reply};
use pp_plan::{Action, Ask};
use pp_settings::limits::MOST_SLOTS;
use pp_settings::{Layout, Settings, Span};
use std::alloc::{AllocError, Global};

/// A flush in flight: its page, and the mark that the page had as it began.
#[derive(Clone, Copy, Debug, PartialEq, Eq)]
pub struct Flush {
    pub(crate) page: u32,
    pub(crate) began: u64,
}

/// What a core keeps.
#[derive(Drop)]
pub struct Table {
    /// The layout of all plans.
    pub(crate) layout: Layout,
    /// How many flushes a life may begin, and how many of them are left.
    pub(crate) flushes: u64,
    pub(crate) flushes_left: u64,
    /// How long a life may last.
    pub(crate) span: Span,
    /// The plans that are kept: all that were submitted, in a bounded life; those that were prepared, in an endless one.
    pub(crate) plans: Vec<Accepted>,
    /// Of each plan that waits its place among these, and how many plans were taken.
    pub(crate) waiting: HeapCircularBuffer<u32>,
    pub(crate) taken: u64,
    /// At place w worker w: in its plan, or idle.
    pub(crate) seats: Vec<Option<Seat>>,
    /// ARC's lists.
    pub(crate) directory: Directory,
    /// Where the searches for a page that may leave stand.
    pub(crate) search: Search,
    /// What is noted of each page, with its pins and latches.
    pub(crate) marks: Marks,
    /// The pages of bundles, a stack for each slot of each worker.
    pub(crate) bundles: Bundles,
    /// The pages that are loaded for a worker or written back as victims.
    pub(crate) in_flight: NumberSet,
    /// The flush in flight.
    pub(crate) flush: Option<Flush>,
    /// The peaks of all plans that run, together.
    pub(crate) running: u64,
    /// The events besides submits that the journal of all plans and flushes may need.
    pub(crate) need: u64,
    /// The bound on the moves that are left.
    pub(crate) budget: u64,
    /// There is room for all plans that may be kept.
    ghost room: { most_kept span ≤ vec_capacity plans },
    /// The search knows which pages may leave: those that nobody fixed and that aren't being flushed.
    ghost knows: { KnowsBusy directory search (is_busy_in marks (page_of flush)) },
    /// There is room for all plans that may wait.
    ghost queue: { plan_limit span ≤ waiting.capacity },
}

/// How many stacks a worker has: one for each slot.
pub(crate) const STACKS: u32 = MOST_SLOTS as u32;

/// Where the stack of the worker's slot is.
#[inline(always)]
pub(crate) fn bundle_place(worker: u32, slot: u32) -> u32
    requires { bundle_place worker slot < 2 ^ 32 }
    ensures { result ≡ bundle_place worker slot }
{
    worker * STACKS + slot
}

impl Table {
    ghost use Rattle.pp_core.specs.Parts.{parts_of};
    ghost use Rattle.pp_bundles.specs.Bundles.{place_count, pages_at};
    ghost use Rattle.pp_model.specs.Fixing.{fixes};
    ghost use Rattle.pp_core.specs.Effects.{HasRecord, stacks_after, scattered, CanUnpinAll};
    ghost use Rattle.pp_core.specs.Effects.{phase_of, IsIn, CanAct, Acted, with_seat, at_phase};
    ghost use Rattle.pp_core.specs.Effects.{frame_at, mark_at, unpinned, placed, displaced, released, IsLatched};

    // ---- one worker

    /// What the worker is at: `None` where there is no such worker, `Some(None)` where it is idle.
    pub(crate) fn phase(&self, worker: u32) -> Option<Option<Phase>>
        ensures { result ≡ phase_of (parts_of self.now) worker }
    {
        match self.seats.get(worker as usize) {
            None => None,
            Some(None) => Some(None),
            Some(Some(seat)) => Some(Some(seat.phase)),
        }
    }

    /// What the plan of a worker in it asks.
    pub(crate) fn next_ask(&self, worker: u32) -> Ask
        requires { (x : Seat) × IsIn (parts_of self.now) worker x }
        ensures { (x : Seat) → IsIn (parts_of self.now) worker x → result ≡ x.ask }
    {
        match self.seats.get(worker as usize) {
            Some(Some(seat)) => seat.ask,
            _ => unreachable!(),
        }
    }

    /// What the slot of a worker in its plan holds.
    pub(crate) fn hold(&self, worker: u32, slot: u32) -> Option<Hold>
        requires { (x : Seat) × IsIn (parts_of self.now) worker x }
        ensures { (x : Seat) → IsIn (parts_of self.now) worker x → result ≡ hold_at x.slots slot }
    {
        match self.seats.get(worker as usize) {
            Some(Some(seat)) => seat.slots.get(slot as usize).copied().flatten(),
            _ => unreachable!(),
        }
    }

    /// The worker does an action that its plan asks.
    #[inline(always)]
    pub(crate) fn act(&mut self, worker: u32, action: Action)
        requires { CanAct (parts_of self.old) worker action }
        ensures acted { Acted (parts_of self.old) (parts_of self.new) worker action }
        ensures rest { parts_of self.new ≡ record (parts_of self.old) { seats = self.new.seats.items } }
    {
        match &mut self.seats[worker as usize] {
            Some(seat) => {
                let plan = self.plans[seat.place as usize].plan();
                seat.act(plan, action);
            }
            None => unreachable!(),
        }
    }

    /// A page goes into a slot, as the plan asks it so.
    #[inline(always)]
    pub(crate) fn put_in(&mut self, worker: u32, ask: Ask, slot: u8, page: u32)
        requires can { CanAct (parts_of self.old) worker (fixes ask slot page) }
        requires record { HasRecord worker (fixes ask slot page) self.old.bundles }
        ensures acted { Acted (parts_of self.old) (parts_of self.new) worker (fixes ask slot page) }
        ensures rest { parts_of self.new ≡ record (parts_of self.old) {
          seats = self.new.seats.items;
          bundles = stacks_after worker (fixes ask slot page) self.old.bundles;
        } }
    {
        match ask {
            Ask::Gather { .. } => self.gather(worker, slot, page),
            _ => self.act(worker, Action::Fix { slot, page }),
        }
    }

    /// A page goes into a bundle, as the plan asks it so.
    fn gather(&mut self, worker: u32, slot: u8, page: u32)
        requires can { CanAct (parts_of self.old) worker (Action.Gather slot page) }
        requires record { HasRecord worker (Action.Gather slot page) self.old.bundles }
        ensures acted { Acted (parts_of self.old) (parts_of self.new) worker (Action.Gather slot page) }
        ensures rest { parts_of self.new ≡ record (parts_of self.old) {
          seats = self.new.seats.items;
          bundles = stacks_after worker (Action.Gather slot page) self.old.bundles;
        } }
    {
        self.act(worker, Action::Gather { slot, page });
        self.bundles
            .push(bundle_place(worker, u32::from(slot)), page);
    }

    /// The pins of all pages at the place go, and no page is there from now on.
    pub(crate) fn scatter(&mut self, place: u32)
        requires place { place < place_count self.old.bundles }
        requires spare { CanUnpinAll (pages_at self.old.bundles place) self.old.marks }
        ensures { parts_of self.new ≡ scattered (parts_of self.old) place }
    {
        while let Some(page) = self.bundles.pop(place) {
            self.unpin(page);
        }
    }

    /// The worker is at another phase.
    pub(crate) fn set_phase(&mut self, worker: u32, phase: Phase)
        requires { (x : Seat) × IsIn (parts_of self.old) worker x }
        ensures { (x : Seat) → IsIn (parts_of self.old) worker x →
            parts_of self.new ≡ at_phase (parts_of self.old) worker x phase }
    {
        match &mut self.seats[worker as usize] {
            Some(seat) => seat.phase = phase,
            None => unreachable!(),
        }
    }

    // ---- pages

    /// The frame of a page that has one.
    pub(crate) fn frame_at(&self, page: u32) -> u32
        ensures { result ≡ frame_at self.now.marks page }
    {
        self.marks.frame_of(page).unwrap_or(0)
    }

    /// The mark of a page that has one.
    pub(crate) fn mark_at(&self, page: u32) -> u64
        ensures { result ≡ mark_at self.now.marks page }
    {
        self.marks.stamp(page).unwrap_or(0)
    }

    /// Puts the page into the frame, and pins it.
    pub(crate) fn place(&mut self, page: u32, frame: u32)
        requires page { page < length self.old.marks.pages }
        requires frame { frame < self.old.marks.frames }
        requires free { IsFree self.old.marks frame }
        requires unpinned { pins_of self.old.marks page ≡ 0 }
        requires room { all_pins self.old.marks < self.old.marks.frames }
        ensures { parts_of self.new ≡ record (parts_of self.old) { marks = placed self.old.marks page frame } }
    {
        self.marks.place(page, frame);
        self.marks.pin(page);
    }

    /// Takes one pin off a page that has more pins than latches.
    #[inline(always)]
    pub(crate) fn unpin(&mut self, page: u32)
        requires { latch_count (latches_of self.old.marks page) < pins_of self.old.marks page }
        ensures { parts_of self.new ≡ record (parts_of self.old) { marks = unpinned self.old.marks page } }
    {
        self.marks.unpin(page);
        self.directory.freed(page, &mut self.search);
    }

    /// Takes the one pin off the page, and the page out of its frame.
    pub(crate) fn displace(&mut self, page: u32)
        requires pin { pins_of self.old.marks page ≡ 1 }
        requires unlatched { latch_count (latches_of self.old.marks page) ≡ 0 }
        ensures parts { parts_of self.new ≡ record (parts_of self.old) { marks = displaced self.old.marks page } }
        ensures freed { (frame : ℕ) → frame_of self.old.marks page ≡ Some frame → IsFree self.new.marks frame }
    {
        self.unpin(page);
        self.marks.clear(page);
    }

    /// A latch of this kind goes off the page. Where that was X, the page was changed.
    #[inline(always)]
    pub(crate) fn release(&mut self, held: Held, page: u32)
        requires { IsLatched held self.old.marks page }
        ensures { parts_of self.new ≡ record (parts_of self.old) { marks = released held self.old.marks page } }
    {
        match held {
            Held::Free => {}
            Held::S => self.marks.release(page, Mode::S),
            Held::X => {
                let mark = self.mark_at(page);
                self.marks.release(page, Mode::X);
                self.marks.set_dirty(page);
                self.marks.set_stamp(page, mark + 1);
            }
        }
    }
}
