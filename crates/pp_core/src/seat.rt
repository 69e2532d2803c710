//! A worker in its plan.

ghost use Rattle.std.specs.Prelude.{◌≡◌, ◌<◌, ◌≤◌, ◌+◌, ◌-◌, ◌^◌, IfSome, Some, None, List, [], ◌∷◌, ◌++◌, length, slice_set};
ghost use Rattle.pp_settings.specs.Limits.{most_slots};
ghost use Rattle.pp_cursor.specs.Cursor.{StandsFor};
ghost use Rattle.pp_cursor.specs.Asked.{asked};
ghost use Rattle.pp_plan.specs.declared.action.Action.{Action};
ghost use Rattle.pp_plan.specs.declared.action.Action.TheVariants.{Gather};
ghost use Rattle.pp_core.specs.Slots.{hold_at, plain_hold, bundle_hold, count_after, held_as, first_filled};
ghost use Rattle.pp_core.specs.Queries.{own_hold, ask_holding_seat};
ghost use Rattle.pp_core.specs.Seats.{IsBegun, FitsSlots, CanDo, Did, counted};

use pp_cert::Held;
use pp_cursor::Cursor;
use pp_plan::{Action, Ask, Plan};
use pp_settings::limits;

/// The most slots that a plan has, as the length of an array.
const MOST_SLOTS: usize = limits::MOST_SLOTS as usize;

/// A page that a slot holds, and how. Of a bundle it is the page that was gathered last.
#[derive(Clone, Copy, Debug, PartialEq, Eq)]
pub struct Hold {
    pub(crate) page: u32,
    pub(crate) held: Held,
    pub(crate) bundled: bool,
}

/// What a worker in its plan is at.
#[derive(Clone, Copy, Debug, PartialEq, Eq)]
pub enum Phase {
    /// It runs its plan.
    Acting,
    /// A device writes the victim back, so that the page can have its frame and then be fixed into the slot.
    Writing { slot: u8, page: u32, victim: u32 },
    /// A device reads the page, which is then fixed into the slot.
    Reading { slot: u8, page: u32 },
    /// A fix failed, and the worker leaves its plan.
    Leaving,
}

/// A worker in its plan.
#[derive(Debug, Drop)]
pub struct Seat {
    /// The plan's number, and its place among the plans that are kept.
    pub(crate) plan: u64,
    pub(crate) place: u32,
    /// Where the worker is in the plan, as long as it follows it.
    pub(crate) cursor: Cursor,
    /// What the plan asks there.
    pub(crate) ask: Ask,
    /// How many of the plan's actions were done.
    pub(crate) actions: u32,
    /// How many slots hold a page.
    pub(crate) holds: u32,
    /// What each slot holds.
    pub(crate) slots: [Option<Hold>; MOST_SLOTS],
    /// What the worker is at.
    pub(crate) phase: Phase,
}

impl Seat {
    /// A worker before the first action of the plan of this number.
    pub(crate) fn new(number: u64, place: u32, plan: &Plan) -> Seat
        ensures { IsBegun plan.now number place result }
    {
        let cursor = Cursor::new(plan);
        let ask = cursor.ask(plan);
        Seat {
            plan: number,
            place,
            cursor,
            ask,
            actions: 0,
            holds: 0,
            slots: [None; MOST_SLOTS],
            phase: Phase::Acting,
        }
    }

    /// Does an action that the plan asks.
    #[inline(always)]
    pub(crate) fn act(&mut self, plan: &Plan, action: Action)
        requires { CanDo plan.now self.old action }
        ensures { Did plan.now self.old self.new action }
    {
        self.follow(plan, action);
        self.count(action);
    }

    /// The cursor goes past an action that the plan asks.
    #[inline(always)]
    fn follow(&mut self, plan: &Plan, action: Action)
        requires { CanDo plan.now self.old action }
        ensures cursor { (before : List Action) → StandsFor plan.now self.old.cursor before →
            StandsFor plan.now self.new.cursor (before ++ action ∷ []) }
        ensures ask { (before : List Action) → StandsFor plan.now self.old.cursor before →
            self.new.ask ≡ asked plan.now (before ++ action ∷ []) }
        ensures rest { self.new ≡ record self.old { cursor = self.new.cursor; ask = self.new.ask } }
    {
        self.ask = self.cursor.pass(plan, action);
    }

    /// The action is counted, and its slot is filled, emptied or held in another way.
    #[inline(always)]
    fn count(&mut self, action: Action)
        requires actions { self.old.actions + 1 < 2 ^ 32 }
        requires slots { FitsSlots action self.old.holds (length self.old.slots) }
        ensures { self.new ≡ counted action self.old }
    {
        self.actions += 1;
        match action {
            Action::Fix { slot, page } => self.fill(slot, page),
            Action::Unfix { slot } => self.empty(slot),
            Action::Latch { slot, mode } => self.hold_as(slot, Held::from(mode)),
            Action::Unlatch { slot } => self.hold_as(slot, Held::Free),
            Action::Gather { slot, page } => self.gather(slot, page),
            Action::Scatter { slot } => self.empty(slot),
            Action::Choose { .. } => {}
        }
    }

    /// The slot holds the page from now on.
    fn fill(&mut self, slot: u8, page: u32)
        requires slot { slot < length self.old.slots }
        requires room { self.old.holds ≤ most_slots }
        ensures { self.new ≡ record self.old {
          slots = slice_set self.old.slots slot (Some (plain_hold page));
          holds = self.old.holds + 1;
        } }
    {
        self.slots[usize::from(slot)] = Some(Hold {
            page,
            held: Held::Free,
            bundled: false,
        });
        self.holds += 1;
    }

    /// The bundle has the page from now on, beside those that it has.
    fn gather(&mut self, slot: u8, page: u32)
        requires slot { slot < length self.old.slots }
        requires room { self.old.holds ≤ most_slots }
        ensures { self.new ≡ record self.old {
          slots = slice_set self.old.slots slot (Some (bundle_hold page));
          holds = count_after (Gather slot page) self.old.slots self.old.holds;
        } }
    {
        let place = &mut self.slots[usize::from(slot)];
        if place.is_none() {
            self.holds += 1;
        }
        *place = Some(Hold {
            page,
            held: Held::Free,
            bundled: true,
        });
    }

    /// The slot, which holds a page, holds none from now on.
    pub(crate) fn empty(&mut self, slot: u8)
        requires slot { slot < length self.old.slots }
        requires some { 0 < self.old.holds }
        ensures { self.new ≡ record self.old {
          slots = slice_set self.old.slots slot None;
          holds = self.old.holds - 1;
        } }
    {
        self.slots[usize::from(slot)] = None;
        self.holds -= 1;
    }

    /// The slot's page, if it holds one, is held so from now on.
    fn hold_as(&mut self, slot: u8, held: Held)
        requires { slot < length self.old.slots }
        ensures { self.new ≡ record self.old { slots = held_as held slot self.old.slots } }
    {
        if let Some(hold) = &mut self.slots[usize::from(slot)] {
            hold.held = held;
        }
    }

    /// The page of its own that a slot holds, and how.
    #[inline(always)]
    pub(crate) fn held(&self, slot: u32) -> Option<(u32, Held)>
        ensures { result ≡ own_hold (hold_at self.now.slots slot) }
    {
        let Some(Some(hold)) = self.slots.get(slot as usize) else {
            return None;
        };
        if hold.bundled {
            return None;
        }
        Some((hold.page, hold.held))
    }

    /// What the plan asks, where the worker acts and its slot holds this page so.
    #[inline(always)]
    pub(crate) fn ask_holding(&self, slot: u32, page: u32, held: Held) -> Option<Ask>
        ensures { result ≡ ask_holding_seat (Some (Some self.now)) slot page held }
    {
        let Some(Some(hold)) = self.slots.get(slot as usize) else {
            return None;
        };
        if hold.bundled {
            return None;
        }
        if hold.page != page {
            return None;
        }
        if hold.held != held {
            return None;
        }
        match self.phase {
            Phase::Acting => Some(self.ask),
            _ => None,
        }
    }

    /// The place of the least slot that holds a page.
    fn first_place(&self) -> Option<usize>
        ensures is { result ≡ first_filled self.now.slots }
        ensures below { IfSome result (λ slot. slot < length self.now.slots) }
    {
        self.slots.iter().position(|slot| slot.is_some())
    }

    /// The least slot that holds a page.
    pub(crate) fn first_held(&self) -> Option<u32>
        ensures { result ≡ first_filled self.now.slots }
    {
        let place = self.first_place()?;
        Some(place as u32)
    }
}
