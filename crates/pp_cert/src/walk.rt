//! The walk over a plan beside the notes of its certificate.

ghost use Rattle.std.specs.Prelude.{◌≡◌, ◌<◌, ◌+◌, ◌^◌, ◌++◌, [], ◌∷◌};
ghost use Rattle.pp_plan.specs.Tree.{fix, unfix, latch, unlatch, gather, scatter, choice, loop};
ghost use Rattle.pp_plan.specs.View.{statement_of, sequence_of, alternatives_of};

use crate::certificate::Certificate;
use crate::check_error::CheckError;
use crate::entries::{
    bound_at, is_above_latched, is_gathered, is_held_as, is_inserted, is_removed, is_same,
    is_scattered, noted_at,
};
use crate::note::{Entry, Held};
use crate::turns::{begins_turns, ends_as_begun, grows_by_turns};
use pp_plan::{Body, Branches, Mode, Stmt};
use pp_settings::Layout;

/// A walk over a plan under the layout of some settings, beside the notes of a certificate.
///
/// Each call is handed the place of the note before what it walks over, whose tests have passed, and answers the
/// next place, whose tests have passed too, or else the first fault.
#[derive(Clone, Copy)]
pub(crate) struct Walk<'a> {
    /// The settings' layout.
    pub(crate) layout: &'a Layout,
    /// The certificate.
    pub(crate) certificate: &'a Certificate,
    /// Where counting the pages of a bundle stops. `None`: bounds are told exactly, and so have to grow in a loop as its turns
    /// want it.
    pub(crate) stop: Option<u32>,
}

impl Walk<'_> {
    ghost use Rattle.pp_cert.specs.Walk.{Test, empty, same, after, slot_fixed, slot_unlatched, claims_of, note_at};
    ghost use Rattle.pp_cert.specs.Walk.{walked, note_fault, first_fault, unless_fault, note_tests, step_tests};
    ghost use Rattle.pp_cert.specs.Walk.{statement_tests, sequence_tests, later_tests, outcome, statement_end};
    ghost use Rattle.pp_cert.specs.Walk.{sequence_end, alternatives_end, turn_tests, loop_keeps, loop_grows, grow_tests};
    ghost use Rattle.pp_cert.specs.Walk.{passes};
    ghost use Rattle.pp_cert.specs.Notes.{one_more};

    /// The note at a place; the empty one where none is left.
    pub(crate) fn entries(&self, place: u32) -> &[Entry]
        ensures { result.now ≡ note_at (claims_of self.now.certificate.now) place }
    {
        match self.certificate.notes.get(place as usize) {
            Some(note) => note.entries(),
            None => &[],
        }
    }

    /// Tests the note at a place, where it is known whether it is the expected one.
    fn settle(&self, place: u32, is_expected: bool) -> Result<u32, CheckError>
        ensures { result ≡ unless_fault (note_fault (claims_of self.now.certificate.now) place is_expected) place }
    {
        let Some(note) = self.certificate.notes.get(place as usize) else {
            return Err(CheckError::NotesShort { place });
        };
        if !is_expected {
            return Err(CheckError::NoteDiffers { place });
        }
        if note.pins() > u128::from(self.certificate.peak) {
            return Err(CheckError::OverPeak { place });
        }
        Ok(place)
    }

    /// Tests the plan's first note, which is empty.
    pub(crate) fn begin(&self) -> Result<u32, CheckError>
        ensures { result ≡ walked self.now.layout.now self.now.certificate.now (note_tests 0 empty) 0 }
    {
        self.settle(0, is_same(self.entries(0), &[]))
    }

    /// Tests a note that is to be the same as an earlier one.
    fn keep(&self, place: u32, before: u32) -> Result<u32, CheckError>
        ensures { result
            ≡ walked self.now.layout.now self.now.certificate.now (note_tests place (same before)) place }
    {
        self.settle(place, is_same(self.entries(place), self.entries(before)))
    }

    /// The fault of a statement that wants the slot's page to be unlatched.
    fn unlatched_fault(&self, at: u32, slot: u8) -> Option<CheckError>
        ensures { result
            ≡ first_fault self.now.layout.now (claims_of self.now.certificate.now)
            (slot_fixed at slot ∷ slot_unlatched at slot ∷ []) }
    {
        match noted_at(self.entries(at), slot) {
            None => Some(CheckError::NotFixed { place: at }),
            Some(Held::Free) => None,
            Some(Held::S) | Some(Held::X) => Some(CheckError::StillLatched { place: at }),
        }
    }

    /// Walks over a fix.
    fn fix(&self, at: u32, slot: u8, region: u8) -> Result<u32, CheckError>
        requires { at + 1 < 2 ^ 32 }
        ensures { result
            ≡ walked self.now.layout.now self.now.certificate.now
            (step_tests at (fix slot region) ++ note_tests (at + 1) (after self.now.stop (fix slot region) at)) (at + 1) }
    {
        let before = self.entries(at);
        if noted_at(before, slot).is_some() || bound_at(before, slot) != 0 {
            return Err(CheckError::SlotInUse { place: at });
        }
        let entry = Entry::Slot {
            slot,
            region,
            held: Held::Free,
        };
        self.settle(at + 1, is_inserted(before, entry, self.entries(at + 1)))
    }

    /// Walks over an unfix.
    fn unfix(&self, at: u32, slot: u8) -> Result<u32, CheckError>
        requires { at + 1 < 2 ^ 32 }
        ensures { result
            ≡ walked self.now.layout.now self.now.certificate.now
            (step_tests at (unfix slot) ++ note_tests (at + 1) (after self.now.stop (unfix slot) at)) (at + 1) }
    {
        if let Some(fault) = self.unlatched_fault(at, slot) {
            return Err(fault);
        }
        let next = self.entries(at + 1);
        self.settle(at + 1, is_removed(self.entries(at), slot, next))
    }

    /// Walks over a latch.
    fn latch(&self, at: u32, slot: u8, mode: Mode) -> Result<u32, CheckError>
        requires { at + 1 < 2 ^ 32 }
        ensures { result
            ≡ walked self.now.layout.now self.now.certificate.now
            (step_tests at (latch slot mode) ++ note_tests (at + 1) (after self.now.stop (latch slot mode) at)) (at + 1) }
    {
        if let Some(fault) = self.unlatched_fault(at, slot) {
            return Err(fault);
        }
        let before = self.entries(at);
        if !is_above_latched(self.layout, before, slot) {
            return Err(CheckError::AgainstOrder { place: at });
        }
        let held = Held::from(mode);
        self.settle(at + 1, is_held_as(before, held, slot, self.entries(at + 1)))
    }

    /// Walks over an unlatch.
    fn unlatch(&self, at: u32, slot: u8) -> Result<u32, CheckError>
        requires { at + 1 < 2 ^ 32 }
        ensures { result
            ≡ walked self.now.layout.now self.now.certificate.now
            (step_tests at (unlatch slot) ++ note_tests (at + 1) (after self.now.stop (unlatch slot) at)) (at + 1) }
    {
        let before = self.entries(at);
        match noted_at(before, slot) {
            None => Err(CheckError::NotFixed { place: at }),
            Some(Held::Free) => Err(CheckError::NotLatched { place: at }),
            Some(Held::S) | Some(Held::X) => {
                let next = self.entries(at + 1);
                self.settle(at + 1, is_held_as(before, Held::Free, slot, next))
            }
        }
    }

    /// The bound with one page more, told exactly, or counted up to the stop where there is one.
    fn one_more(&self, bound: u32) -> u64
        ensures { result ≡ one_more self.now.stop bound }
    {
        let more = u64::from(bound) + 1;
        match self.stop {
            Some(stop) => more.min(u64::from(stop)),
            None => more,
        }
    }

    /// Walks over a gather.
    fn gather(&self, at: u32, slot: u8) -> Result<u32, CheckError>
        requires { at + 1 < 2 ^ 32 }
        ensures { result
            ≡ walked self.now.layout.now self.now.certificate.now
            (note_tests (at + 1) (after self.now.stop (gather slot 0) at)) (at + 1) }
    {
        let before = self.entries(at);
        let bound = self.one_more(bound_at(before, slot));
        self.settle(
            at + 1,
            is_gathered(before, slot, bound, self.entries(at + 1)),
        )
    }

    /// Walks over a scatter.
    fn scatter(&self, at: u32, slot: u8) -> Result<u32, CheckError>
        requires { at + 1 < 2 ^ 32 }
        ensures { result
            ≡ walked self.now.layout.now self.now.certificate.now
            (step_tests at (scatter slot) ++ note_tests (at + 1) (after self.now.stop (scatter slot) at)) (at + 1) }
    {
        let before = self.entries(at);
        if bound_at(before, slot) == 0 {
            return Err(CheckError::NotFixed { place: at });
        }
        self.settle(at + 1, is_scattered(before, slot, self.entries(at + 1)))
    }

    /// Walks over statements, from the note before the first to the one after the last.
    #[cycle(walk)]
    #[tactic(auto, using(crate::proofs::Rules::walks))]
    pub(crate) fn sequence(&self, first: u32, stmts: &[Stmt]) -> Result<u32, CheckError>
        requires { sequence_end first (sequence_of stmts.now) < 2 ^ 32 }
        ensures { result
            ≡ walked self.now.layout.now self.now.certificate.now (sequence_tests self.now.stop first (sequence_of stmts.now))
            (sequence_end first (sequence_of stmts.now)) }
    {
        let mut place = first;
        for stmt in stmts {
            place = self.statement(place, stmt)?;
        }
        Ok(place)
    }

    /// Walks over one statement and the note after it.
    #[cycle(walk)]
    #[tactic(auto, using(crate::proofs::Rules::walks))]
    fn statement(&self, at: u32, stmt: &Stmt) -> Result<u32, CheckError>
        requires { statement_end at (statement_of stmt.now) < 2 ^ 32 }
        ensures { result
            ≡ walked self.now.layout.now self.now.certificate.now
            (statement_tests self.now.stop at (statement_of stmt.now)
            ++ note_tests (statement_end at (statement_of stmt.now)) (outcome self.now.stop at (statement_of stmt.now)))
            (statement_end at (statement_of stmt.now)) }
    {
        match stmt {
            Stmt::Fix { slot, region } => self.fix(at, *slot, *region),
            Stmt::Unfix { slot } => self.unfix(at, *slot),
            Stmt::Latch { slot, mode } => self.latch(at, *slot, *mode),
            Stmt::Unlatch { slot } => self.unlatch(at, *slot),
            Stmt::Gather { slot, .. } => self.gather(at, *slot),
            Stmt::Scatter { slot } => self.scatter(at, *slot),
            Stmt::Loop { count, body } => self.turns(at, *count, body),
            Stmt::Choice { branches } => self.choice(at, branches),
        }
    }

    /// Walks over a body inside the statement at the place `before`.
    #[cycle(walk)]
    #[tactic(auto, using(crate::proofs::Rules::walks))]
    fn inside(&self, before: u32, first: u32, body: &Body) -> Result<u32, CheckError>
        requires { sequence_end first body.now < 2 ^ 32 }
        ensures { result
            ≡ walked self.now.layout.now self.now.certificate.now
            (note_tests first (same before) ++ sequence_tests self.now.stop first body.now) (sequence_end first body.now) }
    {
        self.keep(first, before)?;
        self.sequence(first, body.stmts())
    }

    /// Tests the first note of a loop's body, where the loop stands at the place `before`.
    fn begin_turns(&self, place: u32, before: u32, body: &Body) -> Result<u32, CheckError>
        ensures { result
            ≡ walked self.now.layout.now self.now.certificate.now (turn_tests place before body.now) place }
    {
        self.settle(
            place,
            begins_turns(body, self.entries(before), self.entries(place)),
        )
    }

    /// Whether the bounds at the end of a loop's body have grown as so many turns want it.
    fn grows(&self, end: u32, before: u32, first: u32, turns: u16, body: &Body) -> bool
        ensures { result
            ≡ passes self.now.layout.now (claims_of self.now.certificate.now)
            (loop_grows end before first turns body.now) }
    {
        grows_by_turns(
            turns,
            body,
            self.entries(before),
            self.entries(first),
            self.entries(end),
        )
    }

    /// The fault of the bounds at the end of a loop's body, where they are told and haven't grown as so many turns want it.
    fn growth_fault(
        &self,
        end: u32,
        before: u32,
        first: u32,
        turns: u16,
        body: &Body,
    ) -> Option<CheckError>
        ensures { result
            ≡ first_fault self.now.layout.now (claims_of self.now.certificate.now)
            (grow_tests self.now.stop end before first turns body.now) }
    {
        match self.stop {
            Some(_) => None,
            None if self.grows(end, before, first, turns, body) => None,
            None => Some(CheckError::LoopChanges { place: end }),
        }
    }

    /// The fault of the last note of the body of a loop at the place `before`, if it has one.
    fn end_fault(
        &self,
        end: u32,
        before: u32,
        first: u32,
        turns: u16,
        body: &Body,
    ) -> Option<CheckError>
        ensures { result
            ≡ first_fault self.now.layout.now (claims_of self.now.certificate.now)
            (loop_keeps end before body.now ∷ grow_tests self.now.stop end before first turns body.now) }
    {
        if !ends_as_begun(body, self.entries(before), self.entries(end)) {
            return Some(CheckError::LoopChanges { place: end });
        }
        self.growth_fault(end, before, first, turns, body)
    }

    /// Walks over the body of the loop at the place `before`.
    #[cycle(walk)]
    #[tactic(auto, using(crate::proofs::Rules::walks))]
    fn turn(&self, before: u32, first: u32, body: &Body) -> Result<u32, CheckError>
        requires { sequence_end first body.now < 2 ^ 32 }
        ensures { result
            ≡ walked self.now.layout.now self.now.certificate.now
            (turn_tests first before body.now ++ sequence_tests self.now.stop first body.now)
            (sequence_end first body.now) }
    {
        self.begin_turns(first, before, body)?;
        self.sequence(first, body.stmts())
    }

    /// Walks over a loop and the note after it.
    #[cycle(walk)]
    #[tactic(auto, using(crate::proofs::Rules::walks))]
    fn turns(&self, at: u32, count: u16, body: &Body) -> Result<u32, CheckError>
        requires { sequence_end (at + 1) body.now + 1 < 2 ^ 32 }
        ensures { result
            ≡ walked self.now.layout.now self.now.certificate.now
            (statement_tests self.now.stop at (loop count body.now)
            ++ note_tests (sequence_end (at + 1) body.now + 1) (same (sequence_end (at + 1) body.now)))
            (sequence_end (at + 1) body.now + 1) }
    {
        let end = self.turn(at, at + 1, body)?;
        match self.end_fault(end, at, at + 1, count, body) {
            Some(fault) => Err(fault),
            None => self.keep(end + 1, end),
        }
    }

    /// Walks over a choice and the note after it.
    #[cycle(walk)]
    #[tactic(auto, using(crate::proofs::Rules::walks))]
    fn choice(&self, at: u32, branches: &Branches) -> Result<u32, CheckError>
        requires { alternatives_end (at + 1) branches.now < 2 ^ 32 }
        ensures { result
            ≡ walked self.now.layout.now self.now.certificate.now
            (statement_tests self.now.stop at (choice branches.now)
            ++ note_tests (alternatives_end (at + 1) branches.now) (outcome self.now.stop at (choice branches.now)))
            (alternatives_end (at + 1) branches.now) }
    {
        let Some((body, later)) = branches.bodies().split_first() else {
            return self.keep(at + 1, at);
        };
        let first = self.inside(at, at + 1, body)?;
        let next = self.later(at, first, later)?;
        self.keep(next, first)
    }

    /// Walks over the second and later branches of the choice at the place `before`; the first ends at `first`.
    #[cycle(walk)]
    #[tactic(auto, using(crate::proofs::Rules::walks))]
    fn later(&self, before: u32, first: u32, bodies: &[Body]) -> Result<u32, CheckError>
        requires { alternatives_end (first + 1) (alternatives_of bodies.now) < 2 ^ 32 }
        ensures { result
            ≡ walked self.now.layout.now self.now.certificate.now
            (later_tests self.now.stop before first (first + 1) (alternatives_of bodies.now))
            (alternatives_end (first + 1) (alternatives_of bodies.now)) }
    {
        let mut next = first + 1;
        for body in bodies {
            let end = self.inside(before, next, body)?;
            if !is_same(self.entries(end), self.entries(first)) {
                return Err(CheckError::BranchDiffers { place: end });
            }
            next = end + 1;
        }
        Ok(next)
    }
}
