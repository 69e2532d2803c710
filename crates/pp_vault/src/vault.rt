//! The vault: its core's moves, with the images of the pages.

ghost use Rattle.std.specs.Prelude.{◌≡◌, ◌↔◌, true, Some, None, is_ok, IsSome, IfOk, IfErr, IfSome, OnOk, OnErr, length};
ghost use Rattle.std.specs.Prelude.{◌≤◌, []};
ghost use Rattle.pp_settings.specs.declared.span.Span.TheVariants.{Bounded};
ghost use Rattle.std.specs.Option.{is_some};
ghost use Rattle.pp_cert.specs.Accepted.{Acceptance};
ghost use Rattle.pp_core.specs.Submits.{PrepareFails, PreparedFails};
ghost use Rattle.pp_model.specs.Pool.{State, opening, dirty_pages};
ghost use Rattle.pp_model.specs.Moves.{reply_of};
ghost use Rattle.pp_model.specs.Budget.{bound};
ghost use Rattle.pp_model.specs.Renewing.{renew_error};
ghost use Rattle.pp_vault.specs.Submits.{TakesIn, TakesPrepared, SubmitFails, Prepares};
ghost use Rattle.pp_vault.specs.Renewals.{Renews};
ghost use Rattle.pp_model.specs.Turns.{next_turn, IsOpen, IsUnderWay};
ghost use Rattle.pp_core.specs.Opening.{kept_of};
ghost use Rattle.pp_core.specs.Queries.{is_idle, ask_of, errand_of};
ghost use Rattle.pp_vault.specs.Stages.{AllIdle};
ghost use Rattle.pp_vault.specs.Hands.{HandsFit};
ghost use Rattle.pp_vault.specs.Holding.{slot_by};
ghost use Rattle.pp_vault.specs.Leaves.{GivesBack, give_back_call};
ghost use Rattle.pp_vault.specs.StandsFor.{StandsFor};
ghost use Rattle.pp_vault.specs.Calls.{refusal_in};
ghost use Rattle.pp_vault.specs.Headline.{Holds};
ghost use Rattle.pp_vault.specs.Events.{Refuses, Does, Tells};
ghost use Rattle.pp_vault.specs.Fits.{is_gathered, IsEmpty, take_call, choose_call, finish_call, end_call, fix_slot, fix_call};
ghost use Rattle.pp_vault.specs.Fits.{unfix_call, scatter_call, latch_call, unlatch_call, put_back_call};
ghost use Rattle.pp_vault.specs.ImageMoves.{ImagesStay};
ghost use Rattle.pp_vault.specs.Tokens.{is_long, SessionFits, HoldsNothing, ErrandFits};
ghost use Rattle.pp_vault.specs.Flushes.{flush_call, next_call, CopiesOut, CopiesNext};
ghost use Rattle.pp_vault.specs.Fixes.{FixAnswers};
ghost use Rattle.pp_vault.specs.Looks.{may_see, may_look, look_error, Shows, ShowsBody};
ghost use Rattle.pp_vault.specs.Answers.{answer_call, AnswerComesTo};
ghost use Rattle.pp_cert.specs.declared.note.Held.TheVariants.{S};
ghost use Rattle.pp_plan.specs.declared.mode.Mode.TheVariants as mode;
ghost use Rattle.pp_vault.specs.Uses.{Unfixes, Scatters, LatchesShared, LatchesExclusive, UnlatchesShared, UnlatchesExclusive};
ghost use Rattle.pp_vault.specs.Reads.{may_read, may_end_read, Reads, EndsRead};

use crate::answering::Answered;
use crate::fixing::Fixed;
use crate::guards::{BundleGuard, Guard, PinGuard, ReadGuard, WriteGuard};
use crate::hands::Hands;
use crate::looking::LookError;
use crate::refusal::{Refusal, refusal_by};
use crate::stopped::Stopped;
use crate::store::Store;
use crate::tokens::{Chair, Errand, Leaver, Returned, Session};
use pp_core::{
    Accepted, Ask, Core, CoreError as VaultError, Move, PlanId, PrepareError, Prepared, RenewError,
    Reply, SubmitError, Turn,
};
use pp_settings::{Settings, Span};
use std::alloc::Global;
use std::marker::Model;

/// What a call of a vault did: the move of its core, and the core's reply.
pub type Done = (Move, Reply);

/// A pool's core with an image of a page for each frame.
pub struct Vault {
    store: Store,
}

// By hand, so that code that lets one go calls this, and doesn't let each field go anew.
impl Drop for Vault {
    fn drop(self) {
        let Vault { store: _ } = self;
    }
}

impl Model for Vault {
    ghost use Rattle.pp_vault.specs.Parts.{Parts, parts_of};
    ghost use Rattle.pp_vault.specs.StandsFor.{IsKept};
    ghost use Rattle.pp_vault.specs.Coding.{coded_parts};

    ghost Value = { Parts };

    ghost coded = { coded_parts };

    ghost view = { λ v. parts_of v.store };

    ghost invariant = { λ v. IsKept (parts_of v.store) };
}

impl Vault {
    /// A vault with these settings, in which nothing was done yet, and its hands, with the chair of each worker. Its lives last as
    /// long as the settings say.
    ///
    /// In a bounded life plans are submitted, 256 of them at most ([`Vault::submit`]). In an endless one plans are prepared, 4,096
    /// of them at most, and each is submitted as often as wanted ([`Vault::prepare`], [`Vault::submit_prepared`]);
    /// [`Core::prepared`] of [`Vault::core`] lends one.
    ///
    /// It gets all memory that the vault ever needs: the core's, and an image of a page for each frame and for the
    /// flusher.
    ///
    /// # Errors
    ///
    /// Only where that memory can't be had.
    pub fn new(alloc: Global, settings: &Settings) -> Result<(Vault, Hands), VaultError>
        ensures opens { IfOk result (λ made. StandsFor made.0 (opening (kept_of settings.now))) }
        ensures none_kept { IfOk result (λ made. made.0.core.plans ≡ []) }
        ensures idle { IfOk result (λ made. AllIdle settings.now.workers made.1.workers) }
        ensures no_flush { IfOk result (λ made. made.1.flushing ≡ None) }
        ensures fit { IfOk result (λ made. HandsFit made.0 made.1) }
        ensures page_bytes { IfOk result (λ made. made.0.page_bytes ≡ settings.now.page_bytes) }
        ensures holds { IfOk result (λ made. Holds made.0) }
    {
        let store = Store::new(alloc, settings)?;
        let hands = Hands::new(alloc, settings.workers())?;
        Ok((Vault { store }, hands))
    }

    /// Does nothing. It tells that the vault stands for a state that can be reached, and that the headline holds of
    /// each state that it stands for.
    pub fn known(&self)
        ensures holds { Holds self.now }
    {
        let _ = &self.store;
    }

    /// An idle worker takes the first plan that waits.
    ///
    /// # Errors
    ///
    /// [`Refusal::Stranger`] where the chair's worker isn't idle; else what the core refuses. The chair comes back.
    pub fn take(&mut self, chair: Chair) -> Result<(Session, Done), (Chair, Refusal)>
        ensures ok { IfOk result (λ _. Does self.old (take_call chair.worker) self.new) }
        ensures images { IfOk result (λ _. ImagesStay self.old self.new) }
        ensures session { IfOk result (λ now. SessionFits self.new chair.worker now.0) }
        ensures done { IfOk result (λ now. Tells self.old (take_call chair.worker) now.1) }
        ensures err { IfErr result (λ e. Refuses self.old (take_call chair.worker) e.1) }
        ensures back { IfErr result (λ e. e.0 ≡ chair) }
        ensures unchanged { OnErr result (self.new ≡ self.old) }
        ensures holds { Holds self.new }
    {
        self.store.take(chair)
    }

    /// A worker takes a branch of the choice that its plan asks, numbered from 0.
    ///
    /// # Errors
    ///
    /// [`Refusal::Stranger`] where the session's worker doesn't act; else what the core refuses. The session comes
    /// back.
    pub fn choose(
        &mut self,
        session: Session,
        branch: u32,
    ) -> Result<(Session, Done), (Session, Refusal)>
        ensures ok { IfOk result (λ _. Does self.old (choose_call session.worker branch) self.new) }
        ensures images { IfOk result (λ _. ImagesStay self.old self.new) }
        ensures session { IfOk result (λ now. SessionFits self.new session.worker now.0) }
        ensures done { IfOk result (λ now. Tells self.old (choose_call session.worker branch) now.1) }
        ensures err { IfErr result (λ e. Refuses self.old (choose_call session.worker branch) e.1) }
        ensures back { IfErr result (λ e. e.0 ≡ session) }
        ensures unchanged { OnErr result (self.new ≡ self.old) }
        ensures holds { Holds self.new }
    {
        self.store.choose(session, branch)
    }

    /// A worker is done with its plan, and idle again.
    ///
    /// # Errors
    ///
    /// [`Refusal::Stranger`] where the session's worker doesn't act; else what the core refuses. The session comes
    /// back.
    pub fn finish(&mut self, session: Session) -> Result<(Chair, Done), (Session, Refusal)>
        ensures ok { IfOk result (λ _. Does self.old (finish_call session.worker) self.new) }
        ensures images { IfOk result (λ _. ImagesStay self.old self.new) }
        ensures chair { IfOk result (λ now. now.0 ≡ record { worker = session.worker }) }
        ensures idle { IfOk result (λ _. (s : State) → StandsFor self.new s → is_idle s session.worker ≡ true) }
        ensures nothing_held { IfOk result (λ _. HoldsNothing self.old session.worker) }
        ensures done { IfOk result (λ now. Tells self.old (finish_call session.worker) now.1) }
        ensures err { IfErr result (λ e. Refuses self.old (finish_call session.worker) e.1) }
        ensures back { IfErr result (λ e. e.0 ≡ session) }
        ensures unchanged { OnErr result (self.new ≡ self.old) }
        ensures holds { Holds self.new }
    {
        self.store.finish(session)
    }

    /// A worker has left its plan, and is idle again.
    ///
    /// # Errors
    ///
    /// [`Refusal::Stranger`] where the worker doesn't leave its plan; else what the core refuses. The token comes back.
    pub fn end(&mut self, leaver: Leaver) -> Result<(Chair, Done), (Leaver, Refusal)>
        ensures ok { IfOk result (λ _. Does self.old (end_call leaver.worker) self.new) }
        ensures images { IfOk result (λ _. ImagesStay self.old self.new) }
        ensures chair { IfOk result (λ now. now.0 ≡ record { worker = leaver.worker }) }
        ensures idle { IfOk result (λ _. (s : State) → StandsFor self.new s → is_idle s leaver.worker ≡ true) }
        ensures nothing_held { IfOk result (λ _. HoldsNothing self.old leaver.worker) }
        ensures done { IfOk result (λ now. Tells self.old (end_call leaver.worker) now.1) }
        ensures err { IfErr result (λ e. Refuses self.old (end_call leaver.worker) e.1) }
        ensures back { IfErr result (λ e. e.0 ≡ leaver) }
        ensures unchanged { OnErr result (self.new ≡ self.old) }
        ensures holds { Holds self.new }
    {
        self.store.end(leaver)
    }

    /// The flusher begins to write a changed page. The page stays in its frame; the errand has a copy of its image.
    ///
    /// # Errors
    ///
    /// What the core refuses.
    pub fn flush(&mut self, page: u32) -> Result<(Errand, Done), Refusal>
        ensures ok { IfOk result (λ _. Does self.old (flush_call page) self.new) }
        ensures errand { IfOk result (λ now. ErrandFits self.new now.0) }
        ensures copied { IfOk result (λ now. CopiesOut self.old self.new page now.0) }
        ensures done { IfOk result (λ now. Tells self.old (flush_call page) now.1) }
        ensures err { IfErr result (λ why. Refuses self.old (flush_call page) why) }
        ensures unchanged { OnErr result (self.new ≡ self.old) }
        ensures holds { Holds self.new }
    {
        self.store.flush(page)
    }

    /// The flusher begins to write the least page from this number on that lets a flush begin; where there is none, the
    /// least of all that do.
    ///
    /// # Errors
    ///
    /// Where no page lets one begin, [`Refusal::NotNow`] while a flush is in flight, and else [`Refusal::OffPlan`].
    /// Where one does, what the core refuses.
    pub fn flush_next(&mut self, number: u32) -> Result<(Errand, Done), Refusal>
        ensures ok { IfOk result (λ _. Does self.old (next_call number) self.new) }
        ensures errand { IfOk result (λ now. ErrandFits self.new now.0) }
        ensures copied { IfOk result (λ now. CopiesNext self.old self.new number now.0) }
        ensures done { IfOk result (λ now. Tells self.old (next_call number) now.1) }
        ensures err { IfErr result (λ why. Refuses self.old (next_call number) why) }
        ensures unchanged { OnErr result (self.new ≡ self.old) }
        ensures holds { Holds self.new }
    {
        self.store.flush_next(number)
    }

    /// In a bounded life, takes a plan in, which waits behind the others, and answers its number.
    ///
    /// # Errors
    ///
    /// As the core's: the plan comes back, and nothing has changed.
    pub fn submit(&mut self, accepted: Accepted) -> Result<PlanId, (Accepted, SubmitError)>
        ensures ok { IfOk result (λ id. TakesIn self.old accepted id self.new) }
        ensures bounded { IfOk result (λ _. self.old.core.span ≡ Bounded) }
        ensures error { IfErr result (λ e. SubmitFails self.old accepted e.1) }
        ensures back { IfErr result (λ e. e.0 ≡ accepted) }
        ensures unchanged { OnErr result (self.new ≡ self.old) }
        ensures holds { Holds self.new }
    {
        self.store.submit(accepted)
    }

    /// Keeps a plan in an endless life, so that it can be submitted as often as wanted.
    ///
    /// # Errors
    ///
    /// As the core's: the plan comes back, and nothing has changed.
    pub fn prepare(&mut self, accepted: Accepted) -> Result<Prepared, (Accepted, PrepareError)>
        ensures ok { IfOk result (λ prepared. Prepares self.old accepted prepared self.new) }
        ensures error { IfErr result (λ e. PrepareFails self.old.core accepted e.1) }
        ensures back { IfErr result (λ e. e.0 ≡ accepted) }
        ensures unchanged { OnErr result (self.new ≡ self.old) }
        ensures holds { Holds self.new }
    {
        self.store.prepare(accepted)
    }

    /// In an endless life, takes a prepared plan in, which waits behind the others, and answers its number. It takes no memory.
    ///
    /// # Errors
    ///
    /// As the core's. Nothing has changed.
    pub fn submit_prepared(&mut self, prepared: Prepared) -> Result<PlanId, SubmitError>
        ensures ok { IfOk result (λ id. (a : Acceptance) × TakesPrepared self.old prepared id a self.new) }
        ensures error { IfErr result (PreparedFails self.old.core prepared) }
        ensures unchanged { OnErr result (self.new ≡ self.old) }
        ensures holds { Holds self.new }
    {
        self.store.submit_prepared(prepared)
    }

    /// How long a life may last.
    pub fn span(&self) -> Span
        ensures is { result ≡ self.now.core.span }
        ensures of { (s : State) → StandsFor self.now s → result ≡ s.settings.span }
    {
        self.store.core.span()
    }

    /// Begins the next life of a vault at rest, as the core does: the plans of a bounded life go, all flushes may begin again,
    /// and all else stays, prepared plans and each image in its frame. So pages stay cached, dirty and known, and the tokens
    /// of the old life, which are chairs, are those of the next. The next life's journal begins in the state that the vault
    /// stands for now.
    ///
    /// It takes no memory and copies nothing.
    ///
    /// # Errors
    ///
    /// As the core's: [`RenewError::NotAtRest`] while [`Vault::next_possible`] names a turn, else [`RenewError::MarkTooHigh`]. Then
    /// nothing has changed.
    pub fn renew(&mut self) -> Result<(), RenewError>
        ensures ok { OnOk result (Renews self.old self.new) }
        ensures error { IfErr result (λ e. (s : State) → StandsFor self.old s → renew_error s ≡ Some e) }
        ensures unchanged { OnErr result (self.new ≡ self.old) }
        ensures holds { Holds self.new }
    {
        self.store.renew()
    }

    /// Who moves next, as the core tells it: the device that answers a worker or the flusher, a worker in its plan or
    /// on its way out, or an idle worker where a plan waits. The moves of that turn are possible, whatever is decided
    /// in them.
    ///
    /// None if and only if no plan waits, every worker is idle, and no flush is in flight.
    pub fn next_possible(&self) -> Option<Turn>
        ensures turn { (s : State) → StandsFor self.now s → result ≡ next_turn s }
        ensures some { (s : State) → StandsFor self.now s → IsSome result ↔ IsUnderWay s }
        ensures open { IfSome result (λ turn. (s : State) → StandsFor self.now s → IsOpen s turn) }
    {
        self.store.core.next_possible()
    }

    /// The bound on the moves that are left: each call that is done lowers it by 1 at least, and [`Vault::submit`] and
    /// [`Vault::submit_prepared`] raise it by the plan's cost. [`Vault::renew`] sets it to twice the flushes.
    pub fn budget(&self) -> u64
        ensures bound { (s : State) → StandsFor self.now s → result ≡ bound s }
        ensures value { result ≡ self.now.core.budget }
    {
        self.store.core.budget()
    }

    /// How many pages are newer than the device's. The number is kept: one look.
    pub fn dirty(&self) -> u32
        ensures { (s : State) → StandsFor self.now s → result ≡ dirty_pages s }
    {
        self.store.core.dirty()
    }

    /// How many bytes a page has, which is how long a slice [`Vault::look`] wants.
    pub fn page_bytes(&self) -> usize
        ensures { result ≡ self.now.page_bytes }
    {
        self.store.page_bytes
    }

    /// The vault's core: ARC's directory, and the frame and the mark of each page, by its calls.
    pub fn core(&self) -> &Core
        ensures { result.now ≡ self.now.core }
    {
        &self.store.core
    }

    /// The refusal that the core would give to the move; none where the move is possible. Nothing changes.
    ///
    /// No tokens are asked for: a call of a possible move is still refused as [`Refusal::Stranger`] where its tokens don't
    /// fit. A fix that would need the frame of another page looks at each page.
    pub fn refusal(&self, asked: &Move) -> Option<Refusal>
        ensures { (s : State) → StandsFor self.now s → result ≡ refusal_in (reply_of s asked.now) }
    {
        refusal_by(&self.store.core, asked)
    }

    /// What the worker's plan asks next. None where the worker doesn't act in a plan.
    pub fn ask(&self, worker: u32) -> Option<Ask>
        ensures { (s : State) → StandsFor self.now s → result ≡ ask_of s worker }
    {
        self.store.core.ask(worker)
    }

    /// The errand that is out for the worker: the slot, the page that is loaded into it, and the victim that is written
    /// back before, where one is.
    pub fn errand(&self, worker: u32) -> Option<(u32, u32, Option<u32>)>
        ensures { (s : State) → StandsFor self.now s → result ≡ errand_of s worker }
    {
        self.store.core.errand(worker)
    }

    /// Whether the worker's slot is a bundle that holds a page.
    pub fn has_bundle(&self, worker: u32, slot: u32) -> bool
        ensures { (s : State) → StandsFor self.now s → result ≡ is_gathered s worker slot }
    {
        self.store.has_gathered(worker, slot)
    }

    /// Gives the vault up, with all tokens that are in its hands.
    pub fn scrap(self, hands: Hands) {
        let Vault { store: _store } = self;
        hands.scrap();
    }

    /// Gives the vault up in the midst of a run, also with what a worker has out of the hands.
    pub fn scrap_with(self, hands: Hands, stopped: Stopped) {
        self.scrap(hands);
        stopped.scrap();
    }

    /// A worker fixes a page into the slot that its plan names, or gathers it there where the plan asks that.
    ///
    /// Where the page is cached, the slot holds it, and no image moves. A gather gives the bundle's guard with the first
    /// page that the bundle holds; a further page joins those, and no guard comes. Where the page isn't cached, it gets a
    /// frame, and the image in that frame goes with an errand: to have the page read into it, or first to be written back,
    /// where it is of a victim that is newer than the device's.
    ///
    /// # Errors
    ///
    /// [`Refusal::Stranger`] where the session's worker doesn't act, or the session tells another slot than the plan; else
    /// what the core refuses. The session comes back, and nothing has changed.
    #[inline(always)]
    pub fn fix(&mut self, session: Session, page: u32) -> Result<(Fixed, Done), (Session, Refusal)>
        ensures ok { IfOk result (λ now. FixAnswers self.old session page now.0 self.new) }
        ensures done { IfOk result (λ now. Tells self.old (fix_call session.worker (fix_slot session.ask) page) now.1) }
        ensures err { IfErr result (λ e. Refuses self.old (fix_call session.worker (fix_slot session.ask) page) e.1) }
        ensures back { IfErr result (λ e. e.0 ≡ session) }
        ensures unchanged { OnErr result (self.new ≡ self.old) }
        ensures holds { Holds self.new }
    {
        self.store.fix(session, page)
    }

    /// The device has answered an errand: its image comes back, and goes into a frame, on with a read of the page, or
    /// to the flusher.
    ///
    /// # Errors
    ///
    /// [`Refusal::Stranger`] where the answer isn't of a duty of this state, or its image is of another length, or isn't
    /// the victim's that was to be written. What was made of the errand comes back, and nothing has changed.
    pub fn answer(&mut self, returned: Returned) -> Result<(Answered, Done), (Returned, Refusal)>
        ensures ok { IfOk result (λ now. AnswerComesTo self.old returned now.0 self.new) }
        ensures done { IfOk result (λ now. Tells self.old (answer_call self.old.page_bytes returned) now.1) }
        ensures err { IfErr result (λ e. Refuses self.old (answer_call self.old.page_bytes returned) e.1) }
        ensures back { IfErr result (λ e. e.0 ≡ returned) }
        ensures unchanged { OnErr result (self.new ≡ self.old) }
        ensures holds { Holds self.new }
    {
        self.store.answer(returned)
    }

    /// A worker gives back the page of a slot that isn't latched. The guard is spent.
    ///
    /// # Errors
    ///
    /// [`Refusal::Stranger`] where a token isn't one of this state, and [`Refusal::OffPlan`] where the plan asks
    /// something else. The tokens come back, and nothing changes.
    #[inline(always)]
    pub fn unfix(
        &mut self,
        session: Session,
        guard: PinGuard,
    ) -> Result<(Session, Done), (Session, PinGuard, Refusal)>
        ensures ok { IfOk result (λ now. Unfixes self.old session guard self.new now.0) }
        ensures empty { IfOk result (λ _. (s : State) → StandsFor self.new s
            → IsEmpty s session.worker guard.slot) }
        ensures done { IfOk result (λ now. Tells self.old
            (unfix_call session.worker guard.worker guard.slot guard.page) now.1) }
        ensures err { IfErr result (λ e. Refuses self.old
            (unfix_call session.worker guard.worker guard.slot guard.page) e.2) }
        ensures back { IfErr result (λ e. (e.0 ≡ session) × (e.1 ≡ guard)) }
        ensures unchanged { OnErr result (self.new ≡ self.old) }
        ensures holds { Holds self.new }
    {
        self.store.unfix(session, guard)
    }

    /// A worker gives back all pages of a bundle, in one event. The guard is spent.
    ///
    /// # Errors
    ///
    /// As in [`Vault::unfix`].
    pub fn scatter(
        &mut self,
        session: Session,
        guard: BundleGuard,
    ) -> Result<(Session, Done), (Session, BundleGuard, Refusal)>
        ensures ok { IfOk result (λ now. Scatters self.old session guard self.new now.0) }
        ensures empty { IfOk result (λ _. (s : State) → StandsFor self.new s
            → IsEmpty s session.worker guard.slot) }
        ensures done { IfOk result (λ now. Tells self.old
            (scatter_call session.worker guard.worker guard.slot) now.1) }
        ensures err { IfErr result (λ e. Refuses self.old
            (scatter_call session.worker guard.worker guard.slot) e.2) }
        ensures back { IfErr result (λ e. (e.0 ≡ session) × (e.1 ≡ guard)) }
        ensures unchanged { OnErr result (self.new ≡ self.old) }
        ensures holds { Holds self.new }
    {
        self.store.scatter(session, guard)
    }

    /// A worker latches the page of a slot S. Its image may be looked at then.
    ///
    /// # Errors
    ///
    /// [`Refusal::NotNow`] where the page is latched X, and else as in [`Vault::unfix`].
    #[inline(always)]
    pub fn latch_shared(
        &mut self,
        session: Session,
        guard: PinGuard,
    ) -> Result<(Session, ReadGuard, Done), (Session, PinGuard, Refusal)>
        ensures ok { IfOk result (λ now. LatchesShared self.old session guard self.new now.0 now.1) }
        ensures done { IfOk result (λ now. Tells self.old
            (latch_call mode.S session.worker guard.worker guard.slot guard.page) now.2) }
        ensures err { IfErr result (λ e. Refuses self.old
            (latch_call mode.S session.worker guard.worker guard.slot guard.page) e.2) }
        ensures back { IfErr result (λ e. (e.0 ≡ session) × (e.1 ≡ guard)) }
        ensures unchanged { OnErr result (self.new ≡ self.old) }
        ensures holds { Holds self.new }
    {
        self.store.latch_shared(session, guard)
    }

    /// A worker latches the page of a slot X. The page's image is in the guard from then on.
    ///
    /// # Errors
    ///
    /// [`Refusal::NotNow`] where the page is latched already, and else as in [`Vault::unfix`].
    pub fn latch_exclusive(
        &mut self,
        session: Session,
        guard: PinGuard,
    ) -> Result<(Session, WriteGuard, Done), (Session, PinGuard, Refusal)>
        ensures ok { IfOk result (λ now. LatchesExclusive self.old session guard self.new now.0 now.1) }
        ensures done { IfOk result (λ now. Tells self.old
            (latch_call mode.X session.worker guard.worker guard.slot guard.page) now.2) }
        ensures err { IfErr result (λ e. Refuses self.old
            (latch_call mode.X session.worker guard.worker guard.slot guard.page) e.2) }
        ensures back { IfErr result (λ e. (e.0 ≡ session) × (e.1 ≡ guard)) }
        ensures unchanged { OnErr result (self.new ≡ self.old) }
        ensures holds { Holds self.new }
    {
        self.store.latch_exclusive(session, guard)
    }

    /// Copies the image of a page that is latched S into the slice.
    ///
    /// # Errors
    ///
    /// [`LookError::Stranger`] where the guard isn't one of this state; else [`LookError::Length`] where the slice isn't as
    /// long as a page. Then the slice is as it was.
    pub fn look(&self, guard: &ReadGuard, bytes: &mut [u8]) -> Result<(), LookError>
        ensures ok { (s : State) → StandsFor self.now s
            → is_ok result ≡ may_look self.now.page_bytes guard.now (length bytes.old) s }
        ensures error { IfErr result (λ e. (s : State) → StandsFor self.now s
            → look_error self.now.page_bytes guard.now (length bytes.old) s ≡ Some e) }
        ensures shown { OnOk result (Shows self.now guard.now.page bytes.new) }
        ensures unchanged { OnErr result (bytes.new ≡ bytes.old) }
    {
        self.store.look(guard, bytes)
    }

    /// The body of the image of a page that is latched S: its bytes from byte 12 on, where they stand in the vault. None
    /// where the guard isn't one of this state.
    pub fn see(&self, guard: &ReadGuard) -> Option<&[u8]>
        ensures some { (s : State) → StandsFor self.now s → is_some result ≡ may_see guard.now s }
        ensures shown { IfSome result (λ body. ShowsBody self.now guard.now.page body.now) }
    {
        self.store.see(guard)
    }

    /// A worker takes its latch S off the page of a slot, which it still holds.
    ///
    /// # Errors
    ///
    /// As in [`Vault::unfix`].
    #[inline(always)]
    pub fn unlatch_shared(
        &mut self,
        session: Session,
        guard: ReadGuard,
    ) -> Result<(Session, PinGuard, Done), (Session, ReadGuard, Refusal)>
        ensures ok { IfOk result (λ now. UnlatchesShared self.old session guard self.new now.0 now.1) }
        ensures done { IfOk result (λ now. Tells self.old
            (unlatch_call S session.worker guard.worker guard.slot guard.page) now.2) }
        ensures err { IfErr result (λ e. Refuses self.old
            (unlatch_call S session.worker guard.worker guard.slot guard.page) e.2) }
        ensures back { IfErr result (λ e. (e.0 ≡ session) × (e.1 ≡ guard)) }
        ensures unchanged { OnErr result (self.new ≡ self.old) }
        ensures holds { Holds self.new }
    {
        self.store.unlatch_shared(session, guard)
    }

    /// A worker takes its latch X off the page of a slot, which it still holds. The page's image goes from the guard
    /// back into its frame: its body is as the worker left it, and its head has the page's mark, raised by one.
    ///
    /// # Errors
    ///
    /// As in [`Vault::unfix`]. A guard of a vault with longer or shorter pages is a stranger's too.
    pub fn unlatch_exclusive(
        &mut self,
        session: Session,
        guard: WriteGuard,
    ) -> Result<(Session, PinGuard, Done), (Session, WriteGuard, Refusal)>
        ensures ok { IfOk result (λ now. UnlatchesExclusive self.old session guard self.new now.0 now.1) }
        ensures done { IfOk result (λ now. Tells self.old
            (put_back_call (is_long self.old guard.image) session.worker guard.worker guard.slot guard.page) now.2) }
        ensures err { IfErr result (λ e. Refuses self.old
            (put_back_call (is_long self.old guard.image) session.worker guard.worker guard.slot guard.page) e.2) }
        ensures back { IfErr result (λ e. (e.0 ≡ session) × (e.1 ≡ guard)) }
        ensures unchanged { OnErr result (self.new ≡ self.old) }
        ensures holds { Holds self.new }
    {
        self.store.unlatch_exclusive(session, guard)
    }

    /// A worker that leaves its plan gives a slot back, latch and pin together, or all pages of a bundle. Where it has the
    /// page latched X, the guard's image goes back into its frame, as in [`Vault::unlatch_exclusive`].
    ///
    /// # Errors
    ///
    /// [`Refusal::Stranger`] where the worker doesn't leave its plan, or the guard isn't one of it. Then both tokens
    /// come back, and nothing has changed.
    pub fn give_back(
        &mut self,
        leaver: Leaver,
        guard: Guard,
    ) -> Result<(Leaver, Done), (Leaver, Guard, Refusal)>
        ensures ok { IfOk result (λ now. GivesBack self.old leaver guard self.new now.0) }
        ensures empty { IfOk result (λ _. (s : State) → StandsFor self.new s
            → IsEmpty s leaver.worker (slot_by guard)) }
        ensures done { IfOk result (λ now. Tells self.old (give_back_call self.old leaver guard) now.1) }
        ensures err { IfErr result (λ e. Refuses self.old (give_back_call self.old leaver guard) e.2) }
        ensures back { IfErr result (λ e. (e.0 ≡ leaver) × (e.1 ≡ guard)) }
        ensures unchanged { OnErr result (self.new ≡ self.old) }
        ensures holds { Holds self.new }
    {
        self.store.give_back(leaver, guard)
    }

    // ---- two moves at once

    /// A worker fixes a page that is cached into the slot that its plan names, and latches it S: [`Vault::fix`] and then
    /// [`Vault::latch_shared`], by one call, where both are possible at once. Each is a move of its own. It gives the page's
    /// frame, which the fix tells beside the mark; the latch tells the mark, which the guard has.
    ///
    /// # Errors
    ///
    /// The session comes back, and nothing has changed, exactly where the two can't be made so: the session isn't one of this
    /// state; the plan asks another slot, a gather, or something else behind the fix than the latch S of its slot; the page isn't
    /// the region's, or isn't cached, or is still on its way; or a writer has it. [`Vault::fix`] goes on from there.
    #[inline(always)]
    pub fn read(
        &mut self,
        session: Session,
        page: u32,
    ) -> Result<(Session, ReadGuard, u32), Session>
        ensures exact { (s : State) → StandsFor self.old s → is_ok result ≡ may_read session page s }
        ensures ok { IfOk result (λ now. Reads self.old session page self.new now.0 now.1 now.2) }
        ensures back { IfErr result (λ e. e ≡ session) }
        ensures unchanged { OnErr result (self.new ≡ self.old) }
        ensures holds { Holds self.new }
    {
        self.store.fix_and_share(session, page)
    }

    /// A worker takes its latch S off the page of a slot and gives the page back: [`Vault::unlatch_shared`] and then
    /// [`Vault::unfix`], by one call, where its plan asks both. Each is a move of its own. The guard is spent. It gives the mark
    /// that the unlatch tells; the unfix tells nothing.
    ///
    /// # Errors
    ///
    /// Both tokens come back, and nothing has changed, exactly where the two can't be made so: a token isn't one of this state, or
    /// the plan doesn't ask the unlatch of the slot and its unfix behind it.
    #[inline(always)]
    pub fn end_read(
        &mut self,
        session: Session,
        guard: ReadGuard,
    ) -> Result<(Session, u64), (Session, ReadGuard)>
        ensures exact { (s : State) → StandsFor self.old s → is_ok result ≡ may_end_read session guard s }
        ensures ok { IfOk result (λ now. EndsRead self.old session guard self.new now.0 now.1) }
        ensures empty { IfOk result (λ _. (s : State) → StandsFor self.new s
            → IsEmpty s session.worker guard.slot) }
        ensures back { IfErr result (λ e. (e.0 ≡ session) × (e.1 ≡ guard)) }
        ensures unchanged { OnErr result (self.new ≡ self.old) }
        ensures holds { Holds self.new }
    {
        self.store.unshare_and_unfix(session, guard)
    }
}
