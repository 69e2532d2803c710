//! Unfix, latch, unlatch and choose: what an acting worker does without the device.

ghost use Rattle.std.specs.Prelude.{◌≡◌, ◌<◌, ◌≤◌, ◌-◌, ℕ, IfOk, IfErr, IsTrue, true, false, unwrap_or, option_map};
ghost use Rattle.pp_cert.specs.declared.note.Held.{Held};
ghost use Rattle.pp_frames.specs.Marks.{latch_count, latches_of, pins_of, is_compatible, with_latches, with_latch};
ghost use Rattle.pp_model.specs.Moves.{is_refusal};
ghost use Rattle.pp_model.proofs.MarkSteps.{latch_mode_of};
ghost use Rattle.pp_core.specs.declared.seat.Seat.{Seat};
ghost use Rattle.pp_core.specs.declared.seat.Hold.{Hold};
ghost use Rattle.pp_core.specs.Parts.{parts_of};
ghost use Rattle.pp_core.specs.Slots.{hold_at};
ghost use Rattle.pp_core.specs.StandsFor.{IsKept, Moves, Asks, CannotAct};
ghost use Rattle.pp_core.specs.Effects.{acting_fault, IsIn, IsPageIn, IsHeldIn, CanUnfix, CanSpend, Spent, unpinned};
ghost use Rattle.pp_core.specs.Effects.{CanScatter, bundle_pages, unpinned_all, released, IsLatched, mark_at};

use crate::seat::{Hold, Phase};
use crate::table::{Table, bundle_place};
use pp_cert::Held;
use pp_frames::Mode as LatchMode;
use pp_model::{Cause, Delay, Move, Reply};
use pp_plan::{Action, Ask, Mode};

/// Why a worker at this phase doesn't act, if it doesn't.
fn why_not_acting(phase: Option<Option<Phase>>) -> Option<Cause>
    ensures { result ≡ acting_fault phase }
{
    match phase {
        None => Some(Cause::NoWorker),
        Some(Some(Phase::Acting)) => None,
        Some(_) => Some(Cause::NotActing),
    }
}

/// A mode of a plan as one of the marks.
pub(crate) fn latch_mode(mode: Mode) -> LatchMode
    ensures { result ≡ latch_mode_of mode }
{
    match mode {
        Mode::S => LatchMode::S,
        Mode::X => LatchMode::X,
    }
}

impl Table {
    /// What the plan of a worker that acts asks; or why it doesn't act.
    #[inline(always)]
    pub(crate) fn asked(&self, worker: u32) -> Result<Ask, Cause>
        requires { IsKept (parts_of self.now) }
        ensures asks { IfOk result (Asks (parts_of self.now) worker) }
        ensures cause { IfErr result (CannotAct (parts_of self.now) worker) }
    {
        match why_not_acting(self.phase(worker)) {
            Some(cause) => Err(cause),
            None => Ok(self.next_ask(worker)),
        }
    }

    /// The page of the slot, which holds one.
    pub(crate) fn page_in(&self, worker: u32, slot: u8) -> u32
        requires { (x : Seat) × IsIn (parts_of self.now) worker x }
        ensures { IsPageIn (parts_of self.now) worker slot result }
    {
        self.hold(worker, u32::from(slot))
            .map_or(0, |hold| hold.page)
    }

    /// How the slot, which holds a page, holds it.
    fn held_in(&self, worker: u32, slot: u8) -> Held
        requires { (x : Seat) × IsIn (parts_of self.now) worker x }
        ensures { IsHeldIn (parts_of self.now) worker slot result }
    {
        self.hold(worker, u32::from(slot))
            .map_or(Held::Free, |hold| hold.held)
    }

    // ---- unfix

    /// A worker gives the page of the slot back that its plan names.
    #[inline(always)]
    pub(crate) fn unfix(&mut self, worker: u32) -> Reply
        requires { IsKept (parts_of self.old) }
        ensures moves { Moves (parts_of self.old) (Move.Unfix worker) result (parts_of self.new) }
        ensures refusal { IsTrue (is_refusal result) → parts_of self.new ≡ parts_of self.old }
    {
        let ask = match self.asked(worker) {
            Ok(ask) => ask,
            Err(cause) => return Reply::OffPlan(cause),
        };
        match ask {
            Ask::Unfix { slot } => {
                let page = self.page_in(worker, slot);
                self.unfix_held(worker, slot, page)
            }
            Ask::Scatter { slot } => {
                self.give_bundle_back(worker, slot);
                Reply::Did
            }
            _ => Reply::OffPlan(Cause::NotAsked),
        }
    }

    /// A worker gives this page of the slot back, as its plan asks.
    #[inline(always)]
    pub(crate) fn unfix_held(&mut self, worker: u32, slot: u8, page: u32) -> Reply
        requires kept { IsKept (parts_of self.old) }
        requires asks { Asks (parts_of self.old) worker (Ask.Unfix slot) }
        requires page { IsPageIn (parts_of self.old) worker slot page }
        ensures moves { Moves (parts_of self.old) (Move.Unfix worker) result (parts_of self.new) }
        ensures refusal { IsTrue (is_refusal result) → parts_of self.new ≡ parts_of self.old }
    {
        self.give_back(worker, slot, page);
        Reply::Did
    }

    /// The scatter is done, and a pin goes off each page of the bundle.
    fn give_bundle_back(&mut self, worker: u32, slot: u8)
        requires { CanScatter (parts_of self.old) worker slot }
        ensures { Spent (parts_of self.old) (parts_of self.new) worker (Action.Scatter slot)
            (unpinned_all (bundle_pages (parts_of self.old) worker slot) self.old.marks) }
    {
        self.act(worker, Action::Scatter { slot });
        self.scatter(bundle_place(worker, u32::from(slot)));
        self.budget -= 3;
    }

    /// The unfix is done, and a pin goes off the page.
    #[inline(always)]
    fn give_back(&mut self, worker: u32, slot: u8, page: u32)
        requires { CanUnfix (parts_of self.old) worker slot page }
        ensures { Spent (parts_of self.old) (parts_of self.new) worker (Action.Unfix slot)
            (unpinned self.old.marks page) }
    {
        self.act(worker, Action::Unfix { slot });
        self.unpin(page);
        self.budget -= 3;
    }

    // ---- latch

    /// A worker latches the page of the slot that its plan names.
    #[inline(always)]
    pub(crate) fn latch(&mut self, worker: u32) -> Reply
        requires { IsKept (parts_of self.old) }
        ensures moves { Moves (parts_of self.old) (Move.Latch worker) result (parts_of self.new) }
        ensures refusal { IsTrue (is_refusal result) → parts_of self.new ≡ parts_of self.old }
    {
        let ask = match self.asked(worker) {
            Ok(ask) => ask,
            Err(cause) => return Reply::OffPlan(cause),
        };
        let Ask::Latch { slot, mode } = ask else {
            return Reply::OffPlan(Cause::NotAsked);
        };
        let page = self.page_in(worker, slot);
        self.latch_held(worker, slot, page, mode)
    }

    /// A worker latches this page of the slot in this mode, as its plan asks.
    #[inline(always)]
    pub(crate) fn latch_held(&mut self, worker: u32, slot: u8, page: u32, mode: Mode) -> Reply
        requires kept { IsKept (parts_of self.old) }
        requires asks { Asks (parts_of self.old) worker (Ask.Latch slot mode) }
        requires page { IsPageIn (parts_of self.old) worker slot page }
        ensures moves { Moves (parts_of self.old) (Move.Latch worker) result (parts_of self.new) }
        ensures refusal { IsTrue (is_refusal result) → parts_of self.new ≡ parts_of self.old }
    {
        if !self.marks.grant(page, latch_mode(mode)) {
            return Reply::NotNow(Delay::LatchHeld);
        }
        self.spend(worker, Action::Latch { slot, mode });
        Reply::Latched {
            mark: self.mark_at(page),
        }
    }

    /// An action that needs no other mark is done.
    #[inline(always)]
    fn spend(&mut self, worker: u32, action: Action)
        requires { CanSpend (parts_of self.old) worker action }
        ensures { Spent (parts_of self.old) (parts_of self.new) worker action self.old.marks }
    {
        self.act(worker, action);
        self.budget -= 3;
    }

    // ---- unlatch

    /// A worker takes the latch off the page of the slot that its plan names.
    #[inline(always)]
    pub(crate) fn unlatch(&mut self, worker: u32) -> Reply
        requires { IsKept (parts_of self.old) }
        ensures moves { Moves (parts_of self.old) (Move.Unlatch worker) result (parts_of self.new) }
        ensures refusal { IsTrue (is_refusal result) → parts_of self.new ≡ parts_of self.old }
    {
        let ask = match self.asked(worker) {
            Ok(ask) => ask,
            Err(cause) => return Reply::OffPlan(cause),
        };
        let Ask::Unlatch { slot } = ask else {
            return Reply::OffPlan(Cause::NotAsked);
        };
        let page = self.page_in(worker, slot);
        let held = self.held_in(worker, slot);
        self.unlatch_held(worker, slot, page, held)
    }

    /// A worker takes the latch off this page of the slot, as its plan asks.
    #[inline(always)]
    pub(crate) fn unlatch_held(&mut self, worker: u32, slot: u8, page: u32, held: Held) -> Reply
        requires kept { IsKept (parts_of self.old) }
        requires asks { Asks (parts_of self.old) worker (Ask.Unlatch slot) }
        requires page { IsPageIn (parts_of self.old) worker slot page }
        requires held { IsHeldIn (parts_of self.old) worker slot held }
        ensures moves { Moves (parts_of self.old) (Move.Unlatch worker) result (parts_of self.new) }
        ensures refusal { IsTrue (is_refusal result) → parts_of self.new ≡ parts_of self.old }
    {
        self.release(held, page);
        self.spend(worker, Action::Unlatch { slot });
        Reply::Unlatched {
            mark: self.mark_at(page),
        }
    }

    // ---- choose

    /// A worker goes on with this branch of a choice.
    pub(crate) fn choose(&mut self, worker: u32, branch: u32) -> Reply
        requires { IsKept (parts_of self.old) }
        ensures moves { Moves (parts_of self.old) (Move.Choose worker branch) result (parts_of self.new) }
        ensures refusal { IsTrue (is_refusal result) → parts_of self.new ≡ parts_of self.old }
    {
        let ask = match self.asked(worker) {
            Ok(ask) => ask,
            Err(cause) => return Reply::OffPlan(cause),
        };
        let Ask::Choose { branches } = ask else {
            return Reply::OffPlan(Cause::NotAsked);
        };
        if branch >= u32::from(branches) {
            return Reply::OffPlan(Cause::NotAsked);
        }
        self.spend(
            worker,
            Action::Choose {
                branch: branch as u16,
            },
        );
        Reply::Did
    }
}
