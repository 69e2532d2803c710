//! A function for each move: a caller that knows which move comes spares the choice among twelve.

ghost use Rattle.std.specs.Prelude.{◌≡◌, ◌+◌, ◌≤◌, IsTrue, Some, if◌then◌else◌};
ghost use Rattle.pp_cert.specs.declared.note.Held.TheVariants.{Free};
ghost use Rattle.pp_model.specs.Pool.{State};
ghost use Rattle.pp_model.specs.Moves.{is_refusal};
ghost use Rattle.pp_core.specs.StandsFor.{StandsFor, IsKept, Moves};
ghost use Rattle.pp_core.specs.Queries.{ask_of, ask_holding};
ghost use Rattle.pp_core.specs.Headline.{HeadlineHolds};

use crate::machine::Core;
use pp_cert::Held;
use pp_model::{Came, Move, Reply};
use pp_plan::{Ask, Mode};

// Each of these does its move as `Core::step` does, or refuses it.
impl Core {
    /// An idle worker takes the first plan that waits: [`Move::Take`].
    pub fn take(&mut self, worker: u32) -> Reply
        ensures moves { Moves self.old (Move.Take worker) result self.new }
        ensures refusal { IsTrue (is_refusal result) → self.new ≡ self.old }
        ensures kept { IsKept self.new }
        ensures headline { HeadlineHolds self.new }
        ensures budget { self.new.budget + (if is_refusal result then 0 else 1) ≤ self.old.budget }
    {
        self.table.take(worker)
    }

    /// A worker fixes a page into the slot that its plan names, or gathers it into the bundle: [`Move::Fix`].
    #[inline(always)]
    pub fn fix(&mut self, worker: u32, page: u32) -> Reply
        ensures moves { Moves self.old (Move.Fix worker page) result self.new }
        ensures refusal { IsTrue (is_refusal result) → self.new ≡ self.old }
        ensures kept { IsKept self.new }
        ensures headline { HeadlineHolds self.new }
        ensures budget { self.new.budget + (if is_refusal result then 0 else 1) ≤ self.old.budget }
    {
        self.table.fix(worker, page)
    }

    /// A worker fixes or gathers a page, as its plan asks: [`Move::Fix`]. Who has asked [`Core::ask`] spares another look at
    /// what the worker is at.
    #[inline(always)]
    pub fn fix_asked(&mut self, worker: u32, ask: Ask, page: u32) -> Reply
        requires { (s : State) → StandsFor self.old s → ask_of s worker ≡ Some ask }
        ensures moves { Moves self.old (Move.Fix worker page) result self.new }
        ensures refusal { IsTrue (is_refusal result) → self.new ≡ self.old }
        ensures kept { IsKept self.new }
        ensures headline { HeadlineHolds self.new }
        ensures budget { self.new.budget + (if is_refusal result then 0 else 1) ≤ self.old.budget }
    {
        self.table.fix_asked(worker, ask, page)
    }

    /// The device has written a worker's victim back, or has failed to: [`Move::WriteDone`].
    pub fn write_done(&mut self, worker: u32, ok: bool) -> Reply
        ensures moves { Moves self.old (Move.WriteDone worker ok) result self.new }
        ensures refusal { IsTrue (is_refusal result) → self.new ≡ self.old }
        ensures kept { IsKept self.new }
        ensures headline { HeadlineHolds self.new }
        ensures budget { self.new.budget + (if is_refusal result then 0 else 1) ≤ self.old.budget }
    {
        self.table.write_done(worker, ok)
    }

    /// The device has read a worker's page, or has failed to: [`Move::ReadDone`].
    #[inline(always)]
    pub fn read_done(&mut self, worker: u32, came: Came) -> Reply
        ensures moves { Moves self.old (Move.ReadDone worker came) result self.new }
        ensures refusal { IsTrue (is_refusal result) → self.new ≡ self.old }
        ensures kept { IsKept self.new }
        ensures headline { HeadlineHolds self.new }
        ensures budget { self.new.budget + (if is_refusal result then 0 else 1) ≤ self.old.budget }
    {
        self.table.read_done(worker, came)
    }

    /// A worker gives back the page of the slot that its plan names, or all pages of the bundle: [`Move::Unfix`].
    #[inline(always)]
    pub fn unfix(&mut self, worker: u32) -> Reply
        ensures moves { Moves self.old (Move.Unfix worker) result self.new }
        ensures refusal { IsTrue (is_refusal result) → self.new ≡ self.old }
        ensures kept { IsKept self.new }
        ensures headline { HeadlineHolds self.new }
        ensures budget { self.new.budget + (if is_refusal result then 0 else 1) ≤ self.old.budget }
    {
        self.table.unfix(worker)
    }

    /// A worker latches the page of the slot that its plan names: [`Move::Latch`].
    #[inline(always)]
    pub fn latch(&mut self, worker: u32) -> Reply
        ensures moves { Moves self.old (Move.Latch worker) result self.new }
        ensures refusal { IsTrue (is_refusal result) → self.new ≡ self.old }
        ensures kept { IsKept self.new }
        ensures headline { HeadlineHolds self.new }
        ensures budget { self.new.budget + (if is_refusal result then 0 else 1) ≤ self.old.budget }
    {
        self.table.latch(worker)
    }

    /// A worker takes the latch off the page of the slot that its plan names: [`Move::Unlatch`].
    #[inline(always)]
    pub fn unlatch(&mut self, worker: u32) -> Reply
        ensures moves { Moves self.old (Move.Unlatch worker) result self.new }
        ensures refusal { IsTrue (is_refusal result) → self.new ≡ self.old }
        ensures kept { IsKept self.new }
        ensures headline { HeadlineHolds self.new }
        ensures budget { self.new.budget + (if is_refusal result then 0 else 1) ≤ self.old.budget }
    {
        self.table.unlatch(worker)
    }

    /// A worker gives back this page of this slot, as its plan asks: [`Move::Unfix`]. Who has asked [`Core::ask_holding`]
    /// spares another look at what the slot holds.
    #[inline(always)]
    pub fn unfix_held(&mut self, worker: u32, slot: u8, page: u32) -> Reply
        requires { (s : State) → StandsFor self.old s → ask_holding s worker slot page Free ≡ Some (Ask.Unfix slot) }
        ensures moves { Moves self.old (Move.Unfix worker) result self.new }
        ensures refusal { IsTrue (is_refusal result) → self.new ≡ self.old }
        ensures kept { IsKept self.new }
        ensures headline { HeadlineHolds self.new }
        ensures budget { self.new.budget + (if is_refusal result then 0 else 1) ≤ self.old.budget }
    {
        self.table.unfix_held(worker, slot, page)
    }

    /// A worker latches this page of this slot in this mode, as its plan asks: [`Move::Latch`].
    #[inline(always)]
    pub fn latch_held(&mut self, worker: u32, slot: u8, page: u32, mode: Mode) -> Reply
        requires { (s : State) → StandsFor self.old s
            → ask_holding s worker slot page Free ≡ Some (Ask.Latch slot mode) }
        ensures moves { Moves self.old (Move.Latch worker) result self.new }
        ensures refusal { IsTrue (is_refusal result) → self.new ≡ self.old }
        ensures kept { IsKept self.new }
        ensures headline { HeadlineHolds self.new }
        ensures budget { self.new.budget + (if is_refusal result then 0 else 1) ≤ self.old.budget }
    {
        self.table.latch_held(worker, slot, page, mode)
    }

    /// A worker takes the latch, which is of this kind, off this page of this slot, as its plan asks: [`Move::Unlatch`].
    #[inline(always)]
    pub fn unlatch_held(&mut self, worker: u32, slot: u8, page: u32, held: Held) -> Reply
        requires { (s : State) → StandsFor self.old s → ask_holding s worker slot page held ≡ Some (Ask.Unlatch slot) }
        ensures moves { Moves self.old (Move.Unlatch worker) result self.new }
        ensures refusal { IsTrue (is_refusal result) → self.new ≡ self.old }
        ensures kept { IsKept self.new }
        ensures headline { HeadlineHolds self.new }
        ensures budget { self.new.budget + (if is_refusal result then 0 else 1) ≤ self.old.budget }
    {
        self.table.unlatch_held(worker, slot, page, held)
    }

    /// A worker goes on with this branch of a choice: [`Move::Choose`].
    pub fn choose(&mut self, worker: u32, branch: u32) -> Reply
        ensures moves { Moves self.old (Move.Choose worker branch) result self.new }
        ensures refusal { IsTrue (is_refusal result) → self.new ≡ self.old }
        ensures kept { IsKept self.new }
        ensures headline { HeadlineHolds self.new }
        ensures budget { self.new.budget + (if is_refusal result then 0 else 1) ≤ self.old.budget }
    {
        self.table.choose(worker, branch)
    }

    /// A worker that leaves its plan gives a slot back: latch and pin together, or all pins of a bundle. [`Move::Unwind`].
    pub fn unwind(&mut self, worker: u32, slot: u32) -> Reply
        ensures moves { Moves self.old (Move.Unwind worker slot) result self.new }
        ensures refusal { IsTrue (is_refusal result) → self.new ≡ self.old }
        ensures kept { IsKept self.new }
        ensures headline { HeadlineHolds self.new }
        ensures budget { self.new.budget + (if is_refusal result then 0 else 1) ≤ self.old.budget }
    {
        self.table.unwind(worker, slot)
    }

    /// A worker is done with its plan, or has left it: [`Move::Finish`].
    pub fn finish(&mut self, worker: u32) -> Reply
        ensures moves { Moves self.old (Move.Finish worker) result self.new }
        ensures refusal { IsTrue (is_refusal result) → self.new ≡ self.old }
        ensures kept { IsKept self.new }
        ensures headline { HeadlineHolds self.new }
        ensures budget { self.new.budget + (if is_refusal result then 0 else 1) ≤ self.old.budget }
    {
        self.table.finish(worker)
    }

    /// The flusher begins to write a changed page: [`Move::FlushBegin`].
    pub fn flush_begin(&mut self, page: u32) -> Reply
        ensures moves { Moves self.old (Move.FlushBegin page) result self.new }
        ensures refusal { IsTrue (is_refusal result) → self.new ≡ self.old }
        ensures kept { IsKept self.new }
        ensures headline { HeadlineHolds self.new }
        ensures budget { self.new.budget + (if is_refusal result then 0 else 1) ≤ self.old.budget }
    {
        self.table.flush_begin(page)
    }

    /// The device has written the flusher's page, or has failed to: [`Move::FlushDone`].
    pub fn flush_done(&mut self, ok: bool) -> Reply
        ensures moves { Moves self.old (Move.FlushDone ok) result self.new }
        ensures refusal { IsTrue (is_refusal result) → self.new ≡ self.old }
        ensures kept { IsKept self.new }
        ensures headline { HeadlineHolds self.new }
        ensures budget { self.new.budget + (if is_refusal result then 0 else 1) ≤ self.old.budget }
    {
        self.table.flush_done(ok)
    }
}
