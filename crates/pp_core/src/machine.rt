//! The core: a new one, plans that are submitted, moves, and what it tells of its state.

ghost use Rattle.std.specs.Prelude.{◌≡◌, ◌↔◌, ◌+◌, ◌≤◌, Some, IsSome, IfSome, IfOk, IfErr, OnOk, OnErr, IsTrue};
ghost use Rattle.std.specs.Prelude.{if◌then◌else◌};
ghost use Rattle.pp_frames.specs.Marks.{dirty_from};
ghost use Rattle.pp_model.specs.Pool.{State, opening, frame_of, known_mark, dirty_pages};
ghost use Rattle.pp_model.specs.Budget.{bound, running_peaks};
ghost use Rattle.pp_model.specs.Marks.{marks};
ghost use Rattle.pp_model.specs.Renewing.{renew_error};
ghost use Rattle.pp_model.specs.Moves.{is_refusal};
ghost use Rattle.pp_model.specs.Turns.{IsOpen, next_turn, IsUnderWay};
ghost use Rattle.pp_core.specs.StandsFor.{StandsFor, IsKept, Moves};
ghost use Rattle.pp_core.specs.Opening.{kept_of};
ghost use Rattle.std.specs.Prelude.{◌≢◌, true, is_none, [], slice_get};
ghost use Rattle.pp_model.specs.declared.refusals.SubmitError.TheVariants.{NotPrepared};
ghost use Rattle.pp_cert.specs.Accepted.{Acceptance};
ghost use Rattle.pp_settings.specs.declared.span.Span.TheVariants.{Bounded};
ghost use Rattle.pp_core.specs.Submits.{TakesIn, SubmitFails, TakesPrepared, PreparedFails, Prepares, PrepareFails};
ghost use Rattle.pp_core.specs.Renewals.{Renews};
ghost use Rattle.pp_core.specs.Runs.{MovesAll};
ghost use Rattle.pp_core.specs.Draining.{host_of, IsOpenIn, CanBeMade, DecidesIn, Drains, Rests};
ghost use Rattle.pp_core.specs.Queries.{is_idle, is_leaving, ask_of, held_of, ask_holding, gathered_of, errand_of, flushed_page, plan_count};
ghost use Rattle.pp_core.specs.Headline.{HeadlineHolds};

use crate::draining::Decide;
use crate::error::{CoreError, PrepareError};
use crate::table::Table;
use pp_arc::Directory;
use pp_cert::{Accepted, Held};
use pp_frames::Marks;
use pp_model::{Move, RenewError, Reply, SubmitError, Turn};
use pp_plan::Ask;
use pp_settings::{Settings, Span};
use std::alloc::Global;
use std::marker::Model;

/// A plan's number: how many plans were submitted before it, in this life.
#[derive(Clone, Copy, Debug, PartialEq, Eq)]
pub struct PlanId(u64);

impl Model for PlanId {
    ghost use Rattle.std.specs.Prelude.{ℕ};

    ghost Value = { ℕ };

    ghost view = { λ id. id.0 };

    ghost inverse = { λ n. record { 0 = n } };
}

impl PlanId {
    /// The number, from 0.
    pub fn number(self) -> u64
        ensures { result ≡ self }
    {
        self.0
    }
}

/// A plan that a core keeps, so that it can be submitted as often as wanted: its place among those that are kept.
///
/// It is of the core that gave it. Another core takes it for the plan that it keeps at the same place, if there is one.
#[derive(Clone, Copy, Debug, PartialEq, Eq)]
pub struct Prepared(u32);

impl Model for Prepared {
    ghost use Rattle.std.specs.Prelude.{ℕ};

    ghost Value = { ℕ };

    ghost view = { λ prepared. prepared.0 };

    ghost inverse = { λ n. record { 0 = n } };
}

impl Prepared {
    /// The place, from 0: how many plans were prepared before it.
    pub fn place(self) -> u32
        ensures { result ≡ self }
    {
        let Prepared(place) = self;
        place
    }
}

/// The core of a pool, as a machine over moves: it decides which move is possible, answers it, and keeps what follows.
/// It has no pages, devices or threads; whoever runs it does what the replies say.
///
/// What to do at a reply, for whoever runs it: at [`Reply::MustRead`] read the page into the frame, and say
/// [`Move::ReadDone`]. At [`Reply::MustWrite`] write the victim's bytes, which stand in that frame, with their
/// [`Core::mark`] as stamp, and say [`Move::WriteDone`]; if that is answered `MustRead`, read. At [`Reply::Unlatched`]
/// after X, put the new stamp into the page's head. At [`Reply::Flushing`] copy the bytes, write them with this stamp,
/// and say [`Move::FlushDone`]. At [`Reply::Failed`] say [`Move::Unwind`] for each slot that [`Core::held`] or
/// [`Core::gathered`] tells, then [`Move::Finish`]. At [`Reply::NotNow`] ask again after some other move. [`Reply::OffPlan`] is the caller's slip.
///
/// Contracts see it as the record `Parts`. Every core stands for a state of the model that can be reached
/// (`StandsFor`), and each call says what it answers and leads to from each state that the core stands for. Of all
/// these states the headline holds (`HeadlineHolds`): no worker can find all frames fixed at a fix that its plan asks,
/// none asks a latch against the order of the classes, the running peaks fit the frames, and while a plan waits or
/// isn't ended some actor's next move is possible ([`Core::next_possible`] names the actor).
///
/// Workers, plans, slots, pages and frames are numbered from 0; slots by their names in byte order. All its memory is
/// got by [`Core::new`]; no other call takes any for the core. There are no locks in it.
pub struct Core {
    pub(crate) table: Table,
}

// By hand, so that code that lets one go calls this, and doesn't let each field go anew.
impl Drop for Core {
    fn drop(self) {
        let Core { table: _ } = self;
    }
}

impl Model for Core {
    ghost use Rattle.pp_core.specs.Parts.{Parts, parts_of};
    ghost use Rattle.pp_core.specs.StandsFor.{IsKept};
    ghost use Rattle.pp_core.specs.Coding.{coded_parts};

    ghost Value = { Parts };

    ghost coded = { coded_parts };

    ghost view = { λ c. parts_of c.table };

    ghost invariant = { λ c. IsKept (parts_of c.table) };
}

impl Core {
    /// A core with these settings: every worker is idle, no plan is kept, and no page is cached. Its lives last as long as the
    /// settings say.
    ///
    /// In a bounded life plans are submitted, 256 of them at most ([`Core::submit`]). In an endless one plans are prepared, 4,096
    /// of them at most, and each is submitted as often as wanted ([`Core::prepare`], [`Core::submit_prepared`]); a plan that was
    /// ended leaves nothing behind. The flushes of the settings are those of a whole life, so once they have begun none begins
    /// until a renewal.
    ///
    /// It gets all the memory that the core ever needs: room for 256 or 4,096 plans, 4 bytes for each plan that may wait, room
    /// for the workers, for what is noted of each page number, and for as many pages of bundles as there are frames. Of the
    /// settings it keeps the layout, the workers, the flushes and the span.
    ///
    /// # Errors
    ///
    /// Only where that memory can't be had.
    pub fn new(alloc: Global, settings: &Settings) -> Result<Core, CoreError>
        ensures opens { IfOk result (λ core. StandsFor core (opening (kept_of settings.now))) }
        ensures none_kept { IfOk result (λ core. core.plans ≡ []) }
        ensures kept { IfOk result IsKept }
        ensures headline { IfOk result HeadlineHolds }
    {
        let table = Table::new(alloc, settings)?;
        Ok(Core { table })
    }

    /// How long a life may last.
    pub fn span(&self) -> Span
        ensures is { result ≡ self.now.span }
        ensures of { (s : State) → StandsFor self.now s → result ≡ s.settings.span }
    {
        self.table.span
    }

    /// Does nothing. It tells that the core stands for a state that can be reached, and that the headline holds of
    /// each state that it stands for.
    pub fn known(&self)
        ensures kept { IsKept self.now }
        ensures headline { HeadlineHolds self.now }
    {
        let _ = &self.table;
    }

    /// In a bounded life, takes a plan in, which waits behind the others, and answers its number.
    ///
    /// Plans start in the order of submission: one whose peak doesn't fit yet holds up all behind it. Plans that were
    /// ended still count among the 256, and keep their memory, until the core is renewed ([`Core::renew`]).
    ///
    /// # Errors
    ///
    /// The first of these that applies: [`SubmitError::NotPrepared`] where the life is endless, [`SubmitError::OtherSettings`]
    /// where the plan was accepted under another layout than the pool's, [`SubmitError::TooManyPlans`] where 256 plans were
    /// submitted in this life, [`SubmitError::JournalLimit`] where the costs of all plans of this life and twice the flushes
    /// would be more than 4,000,000. Then the plan comes back, and nothing has changed.
    pub fn submit(&mut self, accepted: Accepted) -> Result<PlanId, (Accepted, SubmitError)>
        ensures ok { IfOk result (λ id. TakesIn self.old accepted id self.new) }
        ensures error { IfErr result (λ e. SubmitFails self.old accepted e.1) }
        ensures back { IfErr result (λ e. e.0 ≡ accepted) }
        ensures unchanged { OnErr result (self.new ≡ self.old) }
        ensures kept { IsKept self.new }
        ensures headline { HeadlineHolds self.new }
    {
        let number = self.table.submit(accepted)?;
        Ok(PlanId(number))
    }

    /// Keeps the plan in an endless life, so that it can be submitted as often as wanted. It stays until the core is dropped.
    ///
    /// # Errors
    ///
    /// [`PrepareError::OtherSettings`] where the plan was accepted under another layout than the pool's, else
    /// [`PrepareError::TooManyPrepared`] where 4,096 plans are kept, or the life is bounded. Then the plan comes back, and nothing
    /// has changed.
    pub fn prepare(&mut self, accepted: Accepted) -> Result<Prepared, (Accepted, PrepareError)>
        ensures ok { IfOk result (λ prepared. Prepares self.old accepted prepared self.new) }
        ensures error { IfErr result (λ e. PrepareFails self.old accepted e.1) }
        ensures back { IfErr result (λ e. e.0 ≡ accepted) }
        ensures unchanged { OnErr result (self.new ≡ self.old) }
        ensures kept { IsKept self.new }
        ensures headline { HeadlineHolds self.new }
    {
        let place = self.table.prepare(accepted)?;
        Ok(Prepared(place))
    }

    /// In an endless life, takes a prepared plan in, which waits behind the others, and answers its number. It takes no memory.
    ///
    /// # Errors
    ///
    /// The first of these that applies: [`SubmitError::NotPrepared`] where the core keeps no such plan, or the life is bounded;
    /// [`SubmitError::OtherSettings`], which [`Core::prepare`] has told before; [`SubmitError::TooManyPlans`] where as many plans
    /// wait as may, so that it can be tried again once one was taken; and [`SubmitError::JournalLimit`] where the costs of all
    /// plans of this life and twice the flushes would be more than 2^61, so that only a renewal helps. Nothing has changed.
    pub fn submit_prepared(&mut self, prepared: Prepared) -> Result<PlanId, SubmitError>
        ensures ok { IfOk result (λ id. (a : Acceptance) × TakesPrepared self.old prepared id a self.new) }
        ensures error { IfErr result (PreparedFails self.old prepared) }
        ensures unchanged { OnErr result (self.new ≡ self.old) }
        ensures kept { IsKept self.new }
        ensures headline { HeadlineHolds self.new }
    {
        let number = self.table.submit_prepared(prepared.0)?;
        Ok(PlanId(number))
    }

    /// The prepared plan; None where the core keeps none at that place, or the life is bounded.
    pub fn prepared(&self, prepared: Prepared) -> Option<&Accepted>
        ensures some { IfSome result (λ accepted. (self.now.span ≢ Bounded)
            × (slice_get self.now.plans prepared ≡ Some accepted.now)) }
        ensures none { is_none result ≡ true → PreparedFails self.now prepared NotPrepared }
    {
        self.table.prepared(prepared.0)
    }

    /// Begins the next life of a core at rest. In a bounded life its plans go, so 256 may be submitted again; in an endless one
    /// the prepared plans stay. Plans are numbered from 0 again, and all flushes of its settings may begin again. All else
    /// stays as it is: what is cached, ARC's lists and target, which pages are newer than the device's, and every known mark.
    ///
    /// It takes no memory, copies nothing, and reads each page's mark one time at most. The journal of the next life
    /// begins in the state that the core stands for now.
    ///
    /// # Errors
    ///
    /// [`RenewError::NotAtRest`] where [`Core::next_possible`] names a turn: a plan waits, a worker isn't idle, or a flush is in
    /// flight. Else [`RenewError::MarkTooHigh`] where a known mark is 2^63 or more, with the least such page. Then nothing has
    /// changed.
    pub fn renew(&mut self) -> Result<(), RenewError>
        ensures ok { OnOk result (Renews self.old self.new) }
        ensures error { IfErr result (λ e. (s : State) → StandsFor self.old s → renew_error s ≡ Some e) }
        ensures unchanged { OnErr result (self.new ≡ self.old) }
        ensures kept { IsKept self.new }
        ensures headline { HeadlineHolds self.new }
    {
        self.table.renew()
    }

    /// Does the move and answers it; or refuses it, with the cause, and changes nothing.
    ///
    /// The answer and what follows are the model's. A move that isn't possible now is answered [`Reply::NotNow`], and
    /// one that may not be asked here [`Reply::OffPlan`], also where there is no such worker, page or slot. A move that
    /// is done lowers [`Core::budget`] by 1 at least. Each kind of move has a function of its own, as [`Core::fix`], which
    /// does the same.
    pub fn step(&mut self, asked: &Move) -> Reply
        ensures moves { Moves self.old asked.now result self.new }
        ensures refusal { IsTrue (is_refusal result) → self.new ≡ self.old }
        ensures kept { IsKept self.new }
        ensures headline { HeadlineHolds self.new }
        ensures budget { self.new.budget + (if is_refusal result then 0 else 1) ≤ self.old.budget }
    {
        match *asked {
            Move::Take { worker } => self.take(worker),
            Move::Fix { worker, page } => self.fix(worker, page),
            Move::WriteDone { worker, ok } => self.write_done(worker, ok),
            Move::ReadDone { worker, came } => self.read_done(worker, came),
            Move::Unfix { worker } => self.unfix(worker),
            Move::Latch { worker } => self.latch(worker),
            Move::Unlatch { worker } => self.unlatch(worker),
            Move::Choose { worker, branch } => self.choose(worker, branch),
            Move::Unwind { worker, slot } => self.unwind(worker, slot),
            Move::Finish { worker } => self.finish(worker),
            Move::FlushBegin { page } => self.flush_begin(page),
            Move::FlushDone { ok } => self.flush_done(ok),
        }
    }

    /// Does the moves in turn, each as [`Core::step`] does, and adds their replies to those that are there.
    ///
    /// Room for all replies is got first. A refused move doesn't end the run. Tests use it, and proofs: that a list of moves is
    /// answered as the model does is said here. A vault and what stands on it make one move at a time.
    ///
    /// # Errors
    ///
    /// Only where that room can't be had. Then no move is done.
    pub fn run(&mut self, moves: &[Move], replies: &mut Vec<Reply>) -> Result<(), CoreError>
        ensures moves { OnOk result (MovesAll self.old moves.now replies.old.items self.new replies.new.items) }
        ensures err { OnErr result ((self.new ≡ self.old) × (replies.new.items ≡ replies.old.items)) }
        ensures kept { IsKept self.new }
        ensures headline { HeadlineHolds self.new }
    {
        self.known();
        replies.reserve(moves.len())?;
        for asked in moves {
            let reply = self.step(asked);
            replies.push_reserved(reply);
        }
        Ok(())
    }

    // ---- who moves next

    /// Who moves next, the first of these that there is: the device, which answers the least worker with an errand out;
    /// the device, which answers the flusher; the least worker that leaves its plan, or runs it and isn't stopped by a
    /// latch; the least idle worker, where a plan waits.
    ///
    /// The moves of this turn are possible, whatever is decided in them: any answer of the device; any action that the
    /// worker's plan asks, with any page of the region and any branch, or `Finish` at its end; for a worker that leaves,
    /// `Unwind` of each slot that it holds, or `Finish` where it holds none; `Take`.
    ///
    /// None if and only if no plan waits, every worker is idle, and no flush is in flight. It looks at each worker at
    /// most once a kind, and at no page but those that the workers' plans ask to latch.
    pub fn next_possible(&self) -> Option<Turn>
        ensures turn { (s : State) → StandsFor self.now s → result ≡ next_turn s }
        ensures some { (s : State) → StandsFor self.now s → IsSome result ↔ IsUnderWay s }
        ensures open { IfSome result (λ turn. (s : State) → StandsFor self.now s → IsOpen s turn) }
    {
        self.table.next_turn()
    }

    /// Drives the pool to its end, and answers how many moves that took: it does a move of the turn that
    /// [`Core::next_possible`] names, as it is decided, until that is None. A worker that leaves its plan gives back its
    /// least slot that holds a page, or finishes where none does.
    ///
    /// Each of the moves is possible, whatever is decided, and there are at most as many as [`Core::budget`] tells at
    /// the start. In the end every plan was ended, exactly once, and no flush is in flight.
    ///
    /// Tests use it, and the promise of progress with a bound is proved of it. No part of a pool that runs calls it: its workers
    /// ask for their own moves.
    pub fn drain<D: Decide>(&mut self, decide: &mut D) -> u64
        ensures within { result + self.new.budget ≤ self.old.budget }
        ensures rest { Rests self.new }
        ensures moved { (s : State) → StandsFor self.old s
            → Drains (host_of D.picks D.chooses D.reads D.writes D.flushes) s decide.old self.new result decide.new }
        ensures plans { self.new.plans ≡ self.old.plans }
        ensures kept { IsKept self.new }
        ensures headline { HeadlineHolds self.new }
    {
        self.known();
        let mut count = 0;
        while let Some(turn) = self.next_possible() {
            let asked = self.decided(turn, decide);
            self.step(&asked);
            count += 1;
        }
        count
    }

    /// The move of an open turn, as it is decided.
    fn decided<D: Decide>(&self, turn: Turn, decide: &mut D) -> Move
        requires { IsOpenIn self.now turn }
        ensures possible { CanBeMade self.now result }
        ensures decided { DecidesIn (host_of D.picks D.chooses D.reads D.writes D.flushes) self.now turn decide.old result decide.new }
    {
        self.table.decided(turn, decide)
    }

    // ---- what the state has

    /// The bound on the moves that are left: each move that is done lowers it by 1 at least, and [`Core::submit`] and
    /// [`Core::submit_prepared`] raise it by the plan's cost. A new core has twice the flushes, and [`Core::renew`] sets it to that again.
    pub fn budget(&self) -> u64
        ensures bound { (s : State) → StandsFor self.now s → result ≡ bound s }
        ensures value { result ≡ self.now.budget }
    {
        self.table.budget
    }

    /// The sum of the peaks of the plans that run: at most the frames.
    pub fn running_peaks(&self) -> u64
        ensures value { (s : State) → StandsFor self.now s → result ≡ running_peaks s }
        ensures fits { result ≤ self.now.layout.frames }
    {
        self.table.running
    }

    /// How many plans were submitted in this life, those that were ended among them.
    pub fn plans(&self) -> u64
        ensures { (s : State) → StandsFor self.now s → result ≡ plan_count s }
    {
        self.table.plan_count()
    }

    /// Whether the worker is idle; false also where there is no such worker.
    pub fn is_idle(&self, worker: u32) -> bool
        ensures { (s : State) → StandsFor self.now s → result ≡ is_idle s worker }
    {
        self.table.is_idle(worker)
    }

    /// Whether the worker leaves its plan after a fix that failed.
    pub fn is_leaving(&self, worker: u32) -> bool
        ensures { (s : State) → StandsFor self.now s → result ≡ is_leaving s worker }
    {
        self.table.is_leaving(worker)
    }

    /// What the plan of a worker that acts asks next, [`Ask::End`] at its end. None where the worker doesn't act.
    pub fn ask(&self, worker: u32) -> Option<Ask>
        ensures { (s : State) → StandsFor self.now s → result ≡ ask_of s worker }
    {
        match self.table.asked(worker) {
            Ok(ask) => Some(ask),
            Err(_) => None,
        }
    }

    /// The page that the worker's slot holds, and how it is latched. None where it holds none now, where the slot is a
    /// bundle (see [`Core::gathered`]), where the page is still being loaded (see [`Core::errand`]), and where there is no
    /// such worker or slot.
    pub fn held(&self, worker: u32, slot: u32) -> Option<(u32, Held)>
        ensures { (s : State) → StandsFor self.now s → result ≡ held_of s worker slot }
    {
        self.table.held(worker, slot)
    }

    /// What the plan of a worker that acts asks next, where the worker's slot holds this page so: what [`Core::ask`] and
    /// [`Core::held`] tell, by one look. None where either isn't so.
    #[inline(always)]
    pub fn ask_holding(&self, worker: u32, slot: u32, page: u32, held: Held) -> Option<Ask>
        ensures { (s : State) → StandsFor self.now s → result ≡ ask_holding s worker slot page held }
    {
        self.table.ask_holding(worker, slot, page, held)
    }

    /// How many pins the worker's slot has as a bundle: one for each page that was gathered, again for one that was
    /// gathered twice. 0 of any other slot, and where there is no such worker or slot.
    pub fn gathered(&self, worker: u32, slot: u32) -> u32
        ensures { (s : State) → StandsFor self.now s → result ≡ gathered_of s worker slot }
    {
        self.known();
        self.table.gathered(worker, slot)
    }

    /// The errand that is out for the worker: the slot, the page that is loaded into it, and the victim while that is
    /// written back. None where no device works for the worker.
    pub fn errand(&self, worker: u32) -> Option<(u32, u32, Option<u32>)>
        ensures { (s : State) → StandsFor self.now s → result ≡ errand_of s worker }
    {
        self.table.errand(worker)
    }

    /// The page that is being flushed, if one is.
    pub fn flushing(&self) -> Option<u32>
        ensures { (s : State) → StandsFor self.now s → result ≡ flushed_page s }
    {
        self.table.flushed()
    }

    /// The frame of the page, if it has one, also while its bytes are still being read.
    pub fn frame_of(&self, page: u32) -> Option<u32>
        ensures { (s : State) → StandsFor self.now s → result ≡ frame_of s page }
    {
        self.table.marks.frame_of(page)
    }

    /// The mark of the page, if one is known.
    pub fn mark(&self, page: u32) -> Option<u64>
        ensures { (s : State) → StandsFor self.now s → result ≡ known_mark s page }
    {
        self.table.marks.stamp(page)
    }

    /// How many pages are newer than the device's. The number is kept: one look.
    pub fn dirty(&self) -> u32
        ensures { (s : State) → StandsFor self.now s → result ≡ dirty_pages s }
    {
        self.table.dirty()
    }

    /// ARC's directory: which pages are cached and which are remembered, in their order, and the target.
    pub fn directory(&self) -> &Directory
        ensures { (s : State) → StandsFor self.now s → result.now ≡ s.lists }
    {
        &self.table.directory
    }

    /// The marks of all pages: the frame, the pins and latches of each, whether it is newer than the device's, and its
    /// mark.
    pub fn marks(&self) -> &Marks
        ensures { (s : State) → StandsFor self.now s → result.now ≡ marks s }
    {
        &self.table.marks
    }

    /// The least page from this number on that lets a flush begin; where there is none, the least of all that do. Such
    /// a page is newer than the device's, has a frame, and isn't latched X: `FlushBegin` of it is refused only where a
    /// flush is in flight, or none is left.
    pub fn dirty_from(&self, number: u32) -> Option<u32>
        ensures { (s : State) → StandsFor self.now s → result ≡ dirty_from (marks s) number }
    {
        self.table.marks.dirty_from(number)
    }
}
