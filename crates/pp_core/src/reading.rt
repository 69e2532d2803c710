//! Two moves at once: a fix that hits and the latch S of its slot, and the unlatch of a slot and its unfix.

ghost use Rattle.std.specs.Prelude.{◌≡◌, ◌+◌, ◌≤◌, List, [], ◌∷◌, ◌++◌, false, true, Some, IfSome, IfNone, is_some, if◌then◌else◌};
ghost use Rattle.pp_cursor.specs.Asked.{asked};
ghost use Rattle.pp_cursor.specs.Cursor.{StandsFor as CursorStandsFor};
ghost use Rattle.pp_plan.specs.declared.action.Action.{Action};
ghost use Rattle.pp_model.specs.Pool.{State};
ghost use Rattle.pp_core.specs.Parts.{parts_of};
ghost use Rattle.pp_core.specs.StandsFor.{StandsFor, IsKept};
ghost use Rattle.pp_core.specs.Seats.{CanDo};
ghost use Rattle.pp_core.specs.Effects.{CanAct};
ghost use Rattle.pp_core.specs.Queries.{ask_of};
ghost use Rattle.pp_core.specs.Headline.{HeadlineHolds};
ghost use Rattle.pp_core.specs.Reading.{AsksBehind, CanRead, MovesTwo, asks_share, asks_unfix, can_read, can_end_read};

use crate::machine::Core;
use crate::seat::Seat;
use crate::table::Table;
use pp_cert::Held;
use pp_frames::Mode as LatchMode;
use pp_model::{Move, Reply};
use pp_plan::{Action, Ask, Mode, Plan};

/// Whether this asks the latch S of the slot.
fn is_share(ask: Ask, slot: u8) -> bool
    ensures { result ≡ asks_share slot (Some ask) }
{
    match ask {
        Ask::Latch { slot: of, mode } => match mode {
            Mode::S => slot == of,
            Mode::X => false,
        },
        _ => false,
    }
}

/// Whether this asks the unfix of the slot.
fn is_unfix(ask: Ask, slot: u8) -> bool
    ensures { result ≡ asks_unfix slot (Some ask) }
{
    match ask {
        Ask::Unfix { slot: of } => slot == of,
        _ => false,
    }
}

impl Core {
    /// A worker fixes a page into the slot that its plan names and latches it S, where both are possible at once and the page is
    /// cached: [`Move::Fix`], which is a hit, and then [`Move::Latch`]. It answers the frame, the mark that both moves are told,
    /// and what the plan asks then.
    ///
    /// Where that can't be, nothing is done, and it answers None: the plan asks another slot, a gather, or something else behind
    /// the fix; the page isn't the region's, or isn't cached, or is on its way; or a writer has it.
    #[inline(always)]
    pub fn fix_and_share(&mut self, worker: u32, slot: u32, page: u32) -> Option<(u32, u64, Ask)>
        ensures exact { (s : State) → StandsFor self.old s → is_some result ≡ can_read s worker slot page }
        ensures moves { IfSome result (λ now. MovesTwo self.old (Move.Fix worker page) (Reply.Hit now.0 now.1)
            (Move.Latch worker) (Reply.Latched now.1) self.new) }
        ensures asks { IfSome result (λ now. (s : State) → StandsFor self.new s → ask_of s worker ≡ Some now.2) }
        ensures unchanged { IfNone result (self.new ≡ self.old) }
        ensures kept { IsKept self.new }
        ensures headline { HeadlineHolds self.new }
        ensures budget { self.new.budget + (if is_some result then 2 else 0) ≤ self.old.budget }
    {
        self.table.fix_and_share(worker, slot, page)
    }

    /// A worker takes its latch S off this page of this slot and unfixes it, where its plan asks both, one behind the other:
    /// [`Move::Unlatch`] and then [`Move::Unfix`]. It answers the mark that the first is told, and what the plan asks then.
    ///
    /// Where the plan asks something else, or the slot doesn't hold the page S, nothing is done, and it answers None.
    #[inline(always)]
    pub fn unshare_and_unfix(&mut self, worker: u32, slot: u32, page: u32) -> Option<(u64, Ask)>
        ensures exact { (s : State) → StandsFor self.old s → is_some result ≡ can_end_read s worker slot page }
        ensures moves { IfSome result (λ now. MovesTwo self.old (Move.Unlatch worker) (Reply.Unlatched now.0)
            (Move.Unfix worker) Reply.Did self.new) }
        ensures asks { IfSome result (λ now. (s : State) → StandsFor self.new s → ask_of s worker ≡ Some now.1) }
        ensures unchanged { IfNone result (self.new ≡ self.old) }
        ensures kept { IsKept self.new }
        ensures headline { HeadlineHolds self.new }
        ensures budget { self.new.budget + (if is_some result then 2 else 0) ≤ self.old.budget }
    {
        self.table.unshare_and_unfix(worker, slot, page)
    }
}

impl Seat {
    /// What the plan asks behind an action that it asks now.
    #[inline(always)]
    fn ask_after(&self, plan: &Plan, action: Action) -> Ask
        requires { CanDo plan.now self.now action }
        ensures { (before : List Action) → CursorStandsFor plan.now self.now.cursor before →
            result ≡ asked plan.now (before ++ action ∷ []) }
    {
        self.cursor.ask_after(plan, action)
    }
}

impl Table {
    /// What the plan of a worker asks behind an action that it asks now.
    #[inline(always)]
    fn ask_after(&self, worker: u32, action: Action) -> Ask
        requires { CanAct (parts_of self.now) worker action }
        ensures { AsksBehind (parts_of self.now) worker action result }
    {
        match self.seats.get(worker as usize) {
            Some(Some(seat)) => {
                let plan = self.plans[seat.place as usize].plan();
                seat.ask_after(plan, action)
            }
            _ => unreachable!(),
        }
    }

    /// The region of the page, where the worker can fix the page into this slot and latch it S at once if it is cached.
    #[inline(always)]
    fn region_to_read(&self, worker: u32, slot: u32, page: u32) -> Option<u8>
        requires { IsKept (parts_of self.now) }
        ensures can { IfSome result (CanRead (parts_of self.now) worker slot page) }
        ensures cant { IfNone result ((s : State) → StandsFor (parts_of self.now) s → false ≡ can_read s worker slot page) }
    {
        let ask = match self.asked(worker) {
            Ok(ask) => ask,
            Err(_) => return None,
        };
        let Ask::Fix { slot: own, region } = ask else {
            return None;
        };
        if slot != u32::from(own) {
            return None;
        }
        if !self.has_page(region, page) {
            return None;
        }
        if self.is_flying(page) {
            return None;
        }
        let next = self.ask_after(worker, Action::Fix { slot: own, page });
        if !is_share(next, own) {
            return None;
        }
        if !self.marks.can_grant(page, LatchMode::S) {
            return None;
        }
        Some(region)
    }

    /// Does both moves of a reading, where they are possible at once.
    #[inline(always)]
    pub(crate) fn fix_and_share(
        &mut self,
        worker: u32,
        slot: u32,
        page: u32,
    ) -> Option<(u32, u64, Ask)>
        requires { IsKept (parts_of self.old) }
        ensures exact { (s : State) → StandsFor (parts_of self.old) s → is_some result ≡ can_read s worker slot page }
        ensures moves { IfSome result (λ now. MovesTwo (parts_of self.old) (Move.Fix worker page) (Reply.Hit now.0 now.1)
            (Move.Latch worker) (Reply.Latched now.1) (parts_of self.new)) }
        ensures asks { IfSome result (λ now. (s : State) → StandsFor (parts_of self.new) s
            → ask_of s worker ≡ Some now.2) }
        ensures unchanged { IfNone result (parts_of self.new ≡ parts_of self.old) }
    {
        let region = match self.region_to_read(worker, slot, page) {
            Some(region) => region,
            None => return None,
        };
        if !self.touch(page) {
            return None;
        }
        let own = slot as u8;
        let Reply::Hit { frame, mark } = self.hit(worker, Ask::Fix { slot: own, region }, own, page)
        else {
            unreachable!()
        };
        let _latched = self.latch_held(worker, own, page, Mode::S);
        let ask = match self.asked(worker) {
            Ok(ask) => ask,
            Err(_) => unreachable!(),
        };
        Some((frame, mark, ask))
    }

    /// Whether the worker can take the latch S off this page of this slot and unfix it at once.
    #[inline(always)]
    fn can_end_read(&self, worker: u32, slot: u32, page: u32) -> bool
        requires { IsKept (parts_of self.now) }
        ensures { (s : State) → StandsFor (parts_of self.now) s → result ≡ can_end_read s worker slot page }
    {
        let ask = match self.ask_holding(worker, slot, page, Held::S) {
            Some(ask) => ask,
            None => return false,
        };
        let Ask::Unlatch { slot: own } = ask else {
            return false;
        };
        if slot != u32::from(own) {
            return false;
        }
        let next = self.ask_after(worker, Action::Unlatch { slot: own });
        is_unfix(next, own)
    }

    /// Does both moves of a reading's end, where they are possible at once.
    #[inline(always)]
    pub(crate) fn unshare_and_unfix(
        &mut self,
        worker: u32,
        slot: u32,
        page: u32,
    ) -> Option<(u64, Ask)>
        requires { IsKept (parts_of self.old) }
        ensures exact { (s : State) → StandsFor (parts_of self.old) s → is_some result ≡ can_end_read s worker slot page }
        ensures moves { IfSome result (λ now. MovesTwo (parts_of self.old) (Move.Unlatch worker) (Reply.Unlatched now.0)
            (Move.Unfix worker) Reply.Did (parts_of self.new)) }
        ensures asks { IfSome result (λ now. (s : State) → StandsFor (parts_of self.new) s
            → ask_of s worker ≡ Some now.1) }
        ensures unchanged { IfNone result (parts_of self.new ≡ parts_of self.old) }
    {
        if !self.can_end_read(worker, slot, page) {
            return None;
        }
        let own = slot as u8;
        let Reply::Unlatched { mark } = self.unlatch_held(worker, own, page, Held::S) else {
            unreachable!()
        };
        let _did = self.unfix_held(worker, own, page);
        let ask = match self.asked(worker) {
            Ok(ask) => ask,
            Err(_) => unreachable!(),
        };
        Some((mark, ask))
    }
}
