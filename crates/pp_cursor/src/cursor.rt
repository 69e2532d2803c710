//! Where a worker is in its plan.

ghost use Rattle.std.specs.Prelude.{◌≡◌, ◌+◌, ◌<◌, ◌^◌, List, [], ◌∷◌, ◌++◌, length, false, ◌↔◌, IsTrue};
ghost use Rattle.std.specs.Prelude.{OnOk, OnErr, IfSome, slice_get, Some};
ghost use Rattle.pp_settings.specs.Layout.{HasPage};
ghost use Rattle.pp_plan.specs.declared.action.Action.{Action};
ghost use Rattle.pp_plan.specs.Terms.{IsPlan};
ghost use Rattle.pp_cursor.specs.Left.{left};
ghost use Rattle.pp_plan.specs.PlanTraces.{IsTraceOf, PlanAsks};
ghost use Rattle.pp_cursor.specs.Cursor.{IsAt, StandsFor, IsCursorOf, IsAsked, NamesAction, IsAskOf};
ghost use Rattle.pp_cursor.specs.CursorMoves.{HasNext, entered, skipped, left_by, moved_by, CanPass, Same, ask_at};
ghost use Rattle.pp_cursor.specs.CursorMoves.{next_at, out_by, IsOn, IsOfStep, IsPassedBy};
ghost use Rattle.pp_plan.specs.FlatList.{flat_body};
ghost use Rattle.pp_cursor.specs.Positions.{position, Spot};
ghost use Rattle.pp_plan.specs.declared.flat.Next.TheVariants.{Leave};
ghost use Rattle.pp_plan.specs.declared.flat.FlatStep.{FlatStep};
ghost use Rattle.pp_cursor.specs.Asked.{asked};

use crate::off_plan::OffPlan;
use pp_plan::{Action, Ask, FlatStep, Next, Plan};
use pp_settings::limits::MOST_DEPTH;
use std::marker::Model;

/// How many loops and choices a place may be inside, as the length of an array.
const MOST_ENTRIES: usize = MOST_DEPTH as usize;

/// A loop or a choice that a worker is inside: which statement of its body it is, how many turns of it come after
/// this one, and which of its branches is done.
#[derive(Clone, Copy, Debug)]
struct Entry {
    index: usize,
    turns: u16,
    branch: u16,
}

/// Where a worker is in its plan: between two actions, before the first, or after the last.
///
/// A cursor stores no history. `follow(a)` succeeds if and only if the plan allows `a` next. A cursor takes no memory.
/// What a call costs depends on how many bodies begin or end between two actions, at most 16 of each. It doesn't depend
/// on the plan's length or on the turns of its loops.
#[derive(Debug, Drop)]
pub struct Cursor {
    entries: [Entry; MOST_ENTRIES],
    depth: usize,
    /// The number of the next step in the plan's list.
    at: usize,
    /// How much higher that is than the next statement's number in its body: an action raises both by one.
    ahead: usize,
}

impl Model for Cursor {
    ghost use Rattle.std.specs.Prelude.{◌-◌};
    ghost use Rattle.pp_cursor.specs.Positions.{Spot};
    ghost use Rattle.pp_cursor.specs.CursorMoves.{stack, FitsCursor};

    ghost Value = { Spot };

    ghost view = { λ c. record { place = record { entries = stack c.entries c.depth; index = c.at - c.ahead }; at = c.at } };

    ghost invariant = { λ c. FitsCursor c.depth c.at c.ahead };
}

impl Cursor {
    /// The cursor before the plan's first action.
    pub fn new(plan: &Plan) -> Cursor
        ensures { StandsFor plan.now result [] }
    {
        let mut cursor = Cursor::start();
        cursor.settle(plan);
        cursor
    }

    /// What the plan asks next: one action, a set of actions, or the end.
    pub fn ask(&self, plan: &Plan) -> Ask
        requires { IsCursorOf plan.now self.now }
        // The answer, as a function of the actions that the cursor stands for.
        ensures is { (before : List Action) → StandsFor plan.now self.now before → result ≡ asked plan.now before }
        // The end is answered exactly where the list is a whole trace.
        ensures end { (before : List Action) → StandsFor plan.now self.now before →
            (result ≡ Ask.End) ↔ IsTraceOf plan.now before }
        // The actions that the plan asks after the list are exactly those that the answer names.
        ensures asked { (before : List Action) (a : Action) → StandsFor plan.now self.now before →
            PlanAsks plan.now before a ↔ NamesAction plan.now.layout result a }
        // Slots and regions are the plan's, and there are 1 to 16 branches to choose from.
        ensures within { IsAskOf (length plan.now.slots) (length plan.now.layout.extents) result }
    {
        self.next_ask(plan)
    }

    /// Does the action, if and only if the plan asks it.
    ///
    /// # Errors
    ///
    /// `OffPlan` if the plan doesn't ask the action. The cursor then stays where it is.
    pub fn follow(&mut self, plan: &Plan, action: Action) -> Result<(), OffPlan>
        requires { IsCursorOf plan.now self.old }
        ensures asked { OnOk result ((before : List Action) → StandsFor plan.now self.old before →
            PlanAsks plan.now before action) }
        ensures followed { OnOk result ((before : List Action) → StandsFor plan.now self.old before →
            StandsFor plan.now self.new (before ++ action ∷ [])) }
        ensures refused { OnErr result ((before : List Action) → StandsFor plan.now self.old before →
            PlanAsks plan.now before action → ⊥) }
        ensures unchanged { OnErr result (self.new ≡ self.old) }
        ensures kept { IsCursorOf plan.now self.new }
    {
        let ask = self.next_ask(plan);
        if !is_named(plan, ask, action) {
            return Err(OffPlan);
        }
        self.pass(plan, action);
        Ok(())
    }

    /// Does an action that the plan asks, with no test of it, and tells what the plan asks then.
    #[inline(always)]
    pub fn pass(&mut self, plan: &Plan, action: Action) -> Ask
        requires { IsAsked plan.now self.old action }
        ensures passed { (before : List Action) → StandsFor plan.now self.old before →
            StandsFor plan.now self.new (before ++ action ∷ []) }
        ensures next { (before : List Action) → StandsFor plan.now self.old before →
            result ≡ asked plan.now (before ++ action ∷ []) }
        ensures kept { IsCursorOf plan.now self.new }
    {
        // What holds of every plan leaves room to go past the action.
        let _ = plan.body();
        self.go_past(plan, action);
        self.settle(plan)
    }

    /// What the statement at the place asks.
    fn next_ask(&self, plan: &Plan) -> Ask
        requires at { IsAt plan.now.body self.now.place }
        requires on { IsOn plan.now.body self.now }
        ensures is { result ≡ ask_at plan.now.body self.now.place }
        ensures facts { IsPlan plan.now }
    {
        match self.step(plan).next {
            Next::Asks(ask) => ask,
            Next::Enter(_) | Next::Leave => unreachable!(),
        }
    }

    /// Goes to where the next action is made, or to the end, and tells what is asked there.
    #[inline(always)]
    fn settle(&mut self, plan: &Plan) -> Ask
        requires { IsOn plan.now.body self.old }
        ensures at { IsAt plan.now.body self.new.place }
        ensures on { IsOn plan.now.body self.new }
        ensures same { Same plan.now.layout (left plan.now.body self.old.place) (left plan.now.body self.new.place) }
        ensures ask { result ≡ ask_at plan.now.body self.new.place }
        ensures facts { IsPlan plan.now }
    {
        loop {
            let step = self.step(plan);
            match step.next {
                Next::Enter(count) => self.enter(count - 1, 0, 1),
                Next::Leave => self.leave(plan, step.reach),
                Next::Asks(ask) => return ask,
            }
        }
    }

    /// The step that is next.
    #[inline(always)]
    fn step(&self, plan: &Plan) -> FlatStep
        requires { IsOn plan.now.body self.now }
        ensures is { result.next ≡ next_at plan.now.body self.now.place }
        ensures there { slice_get (flat_body plan.now.body) self.now.at ≡ Some result }
        ensures facts { IsPlan plan.now }
    {
        // What holds of every plan bounds the number of the step.
        let _ = plan.body();
        plan.step(self.at())
    }

    /// The number of the next step.
    fn at(&self) -> usize
        ensures { result ≡ self.now.at }
    {
        self.at
    }

    /// At the plan's first statement.
    fn start() -> Cursor
        ensures { result ≡ record { place = record { entries = []; index = 0 }; at = 0 } }
    {
        let unused = Entry {
            index: 0,
            turns: 0,
            branch: 0,
        };
        Cursor {
            entries: [unused; MOST_ENTRIES],
            depth: 0,
            at: 0,
            ahead: 0,
        }
    }

    /// Goes past the action.
    #[inline(always)]
    fn go_past(&mut self, plan: &Plan, action: Action)
        requires room { CanPass action self.old.place }
        requires on { IsOn plan.now.body self.old }
        requires named { NamesAction plan.now.layout (ask_at plan.now.body self.old.place) action }
        requires facts { IsPlan plan.now }
        requires fits { self.old.at + 1 < 2 ^ 64 }
        requires stepped { IsOfStep action → position plan.now.body (skipped self.old.place) ≡ self.old.at + 1 }
        ensures is { self.new.place ≡ moved_by action self.old.place }
        ensures on { self.new.at ≡ position plan.now.body self.new.place }
    {
        match action {
            Action::Choose { branch } => {
                let start = 1 + usize::from(branch);
                let ahead = plan.step(self.at() + start);
                self.enter(0, branch, start + ahead.reach as usize);
            }
            Action::Fix { .. }
            | Action::Unfix { .. }
            | Action::Latch { .. }
            | Action::Unlatch { .. }
            | Action::Gather { .. }
            | Action::Scatter { .. } => self.skip(),
        }
    }

    /// Goes to the start of a body inside the next statement, which begins so many steps on.
    #[tactic(auto, using(crate::proofs::Stack::on_stack))]
    fn enter(&mut self, turns: u16, branch: u16, on: usize)
        requires room { length self.old.place.entries < 16 }
        requires fits { self.old.at + on < 2 ^ 64 }
        ensures { self.new ≡ record { place = entered self.old.place turns branch; at = self.old.at + on } }
    {
        self.entries[self.depth] = Entry {
            index: self.at - self.ahead,
            turns,
            branch,
        };
        self.depth += 1;
        self.at += on;
        self.ahead = self.at;
    }

    /// Goes past the next statement, which makes one action.
    #[tactic(auto, using(crate::proofs::Stack::on_stack))]
    fn skip(&mut self)
        requires room { self.old.place.index + 1 < 2 ^ 64 }
        requires fits { self.old.at + 1 < 2 ^ 64 }
        ensures { self.new ≡ record { place = skipped self.old.place; at = self.old.at + 1 } }
    {
        self.at += 1;
    }

    /// Goes from the end of a body to its next turn, or past the statement around it, which begins so many steps back.
    #[inline(always)]
    fn leave(&mut self, plan: &Plan, back: u32)
        requires has { HasNext self.old.place.entries }
        requires on { IsOn plan.now.body self.old }
        requires ends { next_at plan.now.body self.old.place ≡ Leave }
        requires back { (step : FlatStep) × ((slice_get (flat_body plan.now.body) self.old.at ≡ Some step)
            × (back ≡ step.reach)) }
        requires facts { IsPlan plan.now }
        ensures is { self.new.place ≡ left_by self.old.place self.old.place.entries }
        ensures on { self.new.at ≡ position plan.now.body self.new.place }
    {
        let around = self.at() - back as usize;
        let whole = plan.step(around).reach as usize;
        self.go_out(around, whole);
    }

    /// The same where the statement around the body is the step of this number and comes to so many.
    #[tactic(auto, using(crate::proofs::Stack::on_stack))]
    fn go_out(&mut self, around: usize, whole: usize)
        requires has { HasNext self.old.place.entries }
        requires fits { around + whole < 2 ^ 64 }
        requires some { around + 1 < 2 ^ 64 }
        requires low { IsPassedBy self.old.place.entries (around + whole) }
        ensures { self.new ≡ out_by self.old.place.entries around whole self.old }
    {
        let top = self.depth - 1;
        let entry = self.entries[top];
        if entry.turns > 0 {
            self.entries[top].turns = entry.turns - 1;
            self.at = around + 1;
            self.ahead = self.at;
        } else {
            self.depth = top;
            self.at = around + whole;
            self.ahead = self.at - (entry.index + 1);
        }
    }
}

/// Whether the action is one that the ask names.
fn is_named(plan: &Plan, ask: Ask, action: Action) -> bool
    ensures { IsTrue result ↔ NamesAction plan.now.layout ask action }
{
    match ask {
        Ask::Fix { slot, region } => match action {
            Action::Fix { slot: into, page } => slot == into && has_page(plan, region, page),
            _ => false,
        },
        Ask::Unfix { slot } => match action {
            Action::Unfix { slot: of } => slot == of,
            _ => false,
        },
        Ask::Latch { slot, mode } => match action {
            Action::Latch { slot: of, mode: by } => slot == of && mode == by,
            _ => false,
        },
        Ask::Unlatch { slot } => match action {
            Action::Unlatch { slot: of } => slot == of,
            _ => false,
        },
        Ask::Gather { slot, region } => match action {
            Action::Gather { slot: into, page } => slot == into && has_page(plan, region, page),
            _ => false,
        },
        Ask::Scatter { slot } => match action {
            Action::Scatter { slot: of } => slot == of,
            _ => false,
        },
        Ask::Choose { branches } => match action {
            Action::Choose { branch } => branch < branches,
            _ => false,
        },
        Ask::End => false,
    }
}

/// Whether the page is one of the region's.
fn has_page(plan: &Plan, region: u8, page: u32) -> bool
    ensures { IsTrue result ↔ HasPage plan.now.layout region page }
{
    match plan.layout().extent(region) {
        Some(extent) => extent.has(page),
        None => false,
    }
}

// ---- two actions at once

impl Cursor {
    /// What the plan asks behind an action that it asks now. The cursor stays where it is.
    ///
    /// Mostly the next statement of the body asks it, and that is one look. Else a copy of the cursor goes there.
    #[inline(always)]
    pub fn ask_after(&self, plan: &Plan, action: Action) -> Ask
        requires { IsAsked plan.now self.now action }
        ensures { (before : List Action) → StandsFor plan.now self.now before →
            result ≡ asked plan.now (before ++ action ∷ []) }
    {
        match self.ask_behind(plan, action) {
            Some(ask) => ask,
            None => self.ask_ahead(plan, action),
        }
    }

    /// The same where the next statement of the body asks it, and the action isn't a choice.
    #[inline(always)]
    fn ask_behind(&self, plan: &Plan, action: Action) -> Option<Ask>
        requires { IsAsked plan.now self.now action }
        ensures { IfSome result (λ ask. (before : List Action) → StandsFor plan.now self.now before →
            ask ≡ asked plan.now (before ++ action ∷ [])) }
    {
        // What holds of every plan bounds the number of the step.
        let _ = plan.body();
        match action {
            Action::Choose { .. } => None,
            _ => {
                let step = plan.step(self.at() + 1);
                match step.next {
                    Next::Asks(ask) => Some(ask),
                    _ => None,
                }
            }
        }
    }

    /// The same wherever it is asked.
    fn ask_ahead(&self, plan: &Plan, action: Action) -> Ask
        requires { IsAsked plan.now self.now action }
        ensures { (before : List Action) → StandsFor plan.now self.now before →
            result ≡ asked plan.now (before ++ action ∷ []) }
    {
        let mut ahead = self.same();
        ahead.pass(plan, action)
    }

    /// Does an action that the plan asks, and one that it asks behind it, with no test of either, and tells what the plan
    /// asks then.
    #[inline(always)]
    pub fn pass_two(&mut self, plan: &Plan, first: Action, second: Action) -> Ask
        requires first { IsAsked plan.now self.old first }
        requires second { (before : List Action) → StandsFor plan.now self.old before →
            PlanAsks plan.now (before ++ first ∷ []) second }
        ensures between { (spot : Spot) × ((before : List Action) → StandsFor plan.now self.old before →
            StandsFor plan.now spot (before ++ first ∷ [])) }
        ensures passed { (before : List Action) → StandsFor plan.now self.old before →
            StandsFor plan.now self.new ((before ++ first ∷ []) ++ second ∷ []) }
        ensures next { (before : List Action) → StandsFor plan.now self.old before →
            result ≡ asked plan.now ((before ++ first ∷ []) ++ second ∷ []) }
        ensures kept { IsCursorOf plan.now self.new }
    {
        self.pass(plan, first);
        self.pass(plan, second)
    }

    /// A cursor at the same place.
    #[inline(always)]
    fn same(&self) -> Cursor
        ensures { result ≡ self.now }
    {
        Cursor {
            entries: self.entries,
            depth: self.depth,
            at: self.at,
            ahead: self.ahead,
        }
    }
}
