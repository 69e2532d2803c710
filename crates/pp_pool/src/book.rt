//! A vault with its journal.

ghost use Rattle.std.specs.Prelude.{◌≡◌, ◌≤◌, ◌<◌, ◌+◌, ◌↔◌, ◌++◌, true, false, [], None, Some, IsSome, is_ok, IfOk, IfErr};
ghost use Rattle.std.specs.Prelude.{OnOk, OnErr, IfSome, length, option_map};
ghost use Rattle.std.specs.Option.{is_some};
ghost use Rattle.pp_settings.specs.Limits.{most_bounded_events};
ghost use Rattle.pp_settings.specs.declared.span.Span.TheVariants.{Bounded};
ghost use Rattle.pp_model.specs.declared.event.Event.TheVariants.{Step};
ghost use Rattle.pp_model.specs.Pool.{dirty_pages};
ghost use Rattle.pp_model.specs.Budget.{cost_of};
ghost use Rattle.pp_model.specs.Turns.{next_turn, IsUnderWay, IsOpen};
ghost use Rattle.pp_core.specs.Opening.{kept_of};
ghost use Rattle.pp_outset.specs.Outsets.{new_outset};
ghost use Rattle.pp_vault.specs.Hands.{HandsFit};
ghost use Rattle.pp_vault.specs.Stages.{AllIdle};
ghost use Rattle.pp_vault.specs.Looks.{may_see, may_look, look_error, Shows, ShowsBody};
ghost use Rattle.pp_pool.specs.Parts.{settings_of, plans_of, state_of};
ghost use Rattle.pp_pool.specs.Books.{greatest_cost, IsBook, HeadlineHolds, MarksAreTold};
ghost use Rattle.pp_pool.specs.Requests.{event_for, events_in};
ghost use Rattle.pp_pool.specs.Performing.{ComesTo};
ghost use Rattle.pp_pool.specs.Replies.{Replies};
ghost use Rattle.pp_pool.specs.Performs.{Performs};
ghost use Rattle.pp_pool.specs.Readings.{ReadsBy, EndsReadBy, read_events, end_events};
ghost use Rattle.pp_vault.specs.Reads.{may_read, may_end_read};
ghost use Rattle.pp_pool.specs.Submits.{TakesIn, IsCause, HadRoom, HasRoom, LacksRoom};
ghost use Rattle.pp_pool.specs.Renewals.{HasLifeRoom};
ghost use Rattle.pp_model.specs.Submitting.{submit_error};

use crate::asking::ask;
use crate::error::BookError;
use crate::request::Request;
use crate::response::Response;
use pp_journal::Journal;
use pp_model::{Event, Move, Reply, SubmitError, Turn};
use pp_outset::Outset;
use pp_settings::Settings;
use pp_vault::{Accepted, Done, Hands, LookError, PlanId, ReadGuard, Session, Vault, VaultError};
use std::alloc::Global;
use std::marker::Model;

/// A vault with the journal of all that was done with it.
///
/// Contracts see it as the record `Parts`. Of every book it holds (`IsBook`) that its journal is true, each event
/// possible at its point and answered as the model answers it; that its vault stands for the state that the journal
/// leads to from the opening state of its life; and that there is memory for every event that can still come. Of
/// that state the headline holds.
///
/// Its lives are bounded ([`Span::Bounded`](pp_settings::Span)), so its journal has all that was done in a life. A new book's life
/// begins in the opening state of the settings. [`Book::renew`] begins the next one, which opens with what the life before left
/// ([`Book::began`]).
pub struct Book {
    pub(crate) vault: Vault,
    workers: u32,
    pub(crate) journal: Journal,
    pub(crate) most: u64,
    pub(crate) flushes: u32,
    pub(crate) began: Outset,
}

// By hand, so that code that lets one go calls this, and doesn't let each field go anew.
impl Drop for Book {
    fn drop(self) {
        let Book {
            vault: _,
            workers: _,
            journal: _,
            most: _,
            flushes: _,
            began: _,
        } = self;
    }
}

impl Model for Book {
    ghost use Rattle.pp_pool.specs.Parts.{Parts, parts_with};
    ghost use Rattle.pp_pool.specs.Books.{IsBook};
    ghost use Rattle.pp_pool.specs.Coding.{coded_parts};

    ghost Value = { Parts };

    ghost coded = { coded_parts };

    ghost view = { λ b. parts_with b.vault b.workers b.journal b.most b.flushes b.began };

    ghost invariant = { λ b. IsBook (parts_with b.vault b.workers b.journal b.most b.flushes b.began) };
}

impl Book {
    /// A book with these settings, whose lives are bounded ([`Settings::see_bounded`]), in which nothing was done yet, and the
    /// hands of its vault.
    ///
    /// It gets all memory that the vault and the outsets of all lives ever need, and room in the journal for twice the flushes of
    /// the settings.
    ///
    /// # Errors
    ///
    /// Only where that memory can't be had.
    pub fn new(alloc: Global, settings: &Settings) -> Result<(Book, Hands), VaultError>
        requires { settings.now.span ≡ Bounded }
        ensures settings { IfOk result (λ made. settings_of made.0 ≡ kept_of settings.now) }
        ensures no_plan { IfOk result (λ made. plans_of made.0 ≡ []) }
        ensures nothing_done { IfOk result (λ made. made.0.journal ≡ []) }
        ensures outset { IfOk result (λ made. made.0.began ≡ new_outset (kept_of settings.now)) }
        ensures idle { IfOk result (λ made. AllIdle settings.now.workers made.1.workers) }
        ensures no_flush { IfOk result (λ made. made.1.flushing ≡ None) }
        ensures fit { IfOk result (λ made. HandsFit made.0.vault made.1) }
        ensures page_bytes { IfOk result (λ made. made.0.vault.page_bytes ≡ settings.now.page_bytes) }
        ensures room { IfOk result (λ made. HasLifeRoom made.0 made.0.capacity) }
        ensures kept { IfOk result (λ made. IsBook made.0) }
    {
        let began = Outset::new(alloc, settings)?;
        let (vault, hands) = Vault::new(alloc, settings)?;
        let room = vault.budget() as usize;
        match Journal::with_capacity(alloc, room) {
            Ok(journal) => {
                let book = Book {
                    vault,
                    workers: settings.workers(),
                    journal,
                    most: 0,
                    // Of a bounded life there are 100,000 at most.
                    flushes: settings.flushes() as u32,
                    began,
                };
                Ok((book, hands))
            }
            Err(_) => {
                vault.scrap(hands);
                Err(VaultError::OutOfMemory)
            }
        }
    }

    /// Does nothing. It tells what holds of every book, that the headline holds of its state, and what the journal tells of
    /// each page's mark.
    pub fn known(&self)
        ensures kept { IsBook self.now }
        ensures headline { HeadlineHolds self.now }
        ensures marks { MarksAreTold self.now }
    {
        self.vault.known();
    }

    /// Takes a plan in, which waits behind the others, answers its number and adds that to the journal.
    ///
    /// It gets room in the journal for the events that the plan can add, which are at most its cost, and for its own
    /// line, before the core is asked.
    ///
    /// # Errors
    ///
    /// [`BookError::OutOfMemory`] where that room can't be had, and else what the core refuses. The plan comes back,
    /// and nothing has changed but the journal's room.
    pub fn submit(&mut self, accepted: Accepted) -> Result<PlanId, (Accepted, BookError)>
        ensures ok { IfOk result (λ id. TakesIn self.old accepted id self.new) }
        ensures error { IfErr result (λ e. IsCause self.old accepted e.1) }
        ensures room { IfErr result (λ e. HadRoom self.new accepted e.1) }
        ensures back { IfErr result (λ e. e.0 ≡ accepted) }
        ensures unchanged { OnErr result (self.new ≡ record self.old { capacity = self.new.capacity }) }
        ensures grown { self.old.capacity ≤ self.new.capacity }
        ensures kept { IsBook self.new }
    {
        let cost = accepted.cost();
        if !self.make_room(cost) {
            return Err((accepted, BookError::OutOfMemory));
        }
        match self.add(accepted) {
            Ok(id) => Ok(id),
            Err((accepted, error)) => Err((accepted, BookError::Refused(error))),
        }
    }

    /// Gets room in the journal for the line and the events of a plan that costs so much, and tells whether there is.
    fn make_room(&mut self, cost: u64) -> bool
        requires { cost ≤ most_bounded_events }
        ensures room { result ≡ true → HasRoom self.new cost }
        ensures no_room { result ≡ false → LacksRoom self.old cost }
        ensures same { self.new ≡ record self.old { capacity = self.new.capacity } }
        ensures grown { self.old.capacity ≤ self.new.capacity }
        ensures kept { IsBook self.new }
    {
        self.journal.known();
        let room = self.vault.budget() + cost + 1;
        self.journal.reserve(room as usize).is_ok()
    }

    /// Takes a plan in for which the journal has room.
    fn add(&mut self, accepted: Accepted) -> Result<PlanId, (Accepted, SubmitError)>
        requires { HasRoom self.old (cost_of accepted) }
        ensures ok { IfOk result (λ id. TakesIn self.old accepted id self.new) }
        ensures error { IfErr result (λ e. submit_error (state_of self.old) accepted ≡ Some e.1) }
        ensures back { IfErr result (λ e. e.0 ≡ accepted) }
        ensures unchanged { OnErr result (self.new ≡ self.old) }
        ensures memory { self.new.capacity ≡ self.old.capacity }
        ensures kept { IsBook self.new }
    {
        let cost = accepted.cost();
        match self.vault.submit(accepted) {
            Ok(id) => {
                let plan = id.number();
                self.journal.push_reserved(Event::Submit { plan });
                self.most = self.most.max(cost);
                Ok(id)
            }
            Err(refused) => Err(refused),
        }
    }

    /// Makes the request's call of the vault: one event, which is added to the journal, or a refusal, which changes
    /// nothing.
    ///
    /// The event comes exactly where the tokens fit, the plan asks the slot and the mode of the guard, and the move is
    /// possible; its reply is the model's, in the state that the journal leads to. The answer is then the vault's. Else
    /// the request comes back with its tokens, and with the cause: [`pp_vault::Refusal::Stranger`] where a token
    /// doesn't fit. It takes no memory.
    #[inline(always)]
    pub fn perform(&mut self, request: Request) -> Response
        ensures event { result.event ≡ event_for self.old request }
        ensures journal { self.new.journal ≡ self.old.journal ++ events_in result.event }
        ensures answer { ComesTo self.old.vault request result.answer self.new.vault }
        ensures fits { Replies request result }
        ensures settings { settings_of self.new ≡ settings_of self.old }
        ensures plans { plans_of self.new ≡ plans_of self.old }
        ensures outset { self.new.began ≡ self.old.began }
        ensures memory { self.new.capacity ≡ self.old.capacity }
        ensures kept { IsBook self.new }
        ensures headline { HeadlineHolds self.new }
    {
        let (answer, done) = ask(&mut self.vault, request);
        let event = noted(done, &mut self.journal);
        Response { event, answer }
    }

    /// Performs [`Request::Fix`] of a page that is cached and then [`Request::LatchShared`], where both are possible at once: two
    /// events. Answers the tokens and the frame, which the first event tells. No request and no response are built for it.
    ///
    /// # Errors
    ///
    /// The session, exactly where [`Vault::read`] refuses it. Nothing has changed.
    #[inline(always)]
    pub fn read(
        &mut self,
        session: Session,
        page: u32,
    ) -> Result<(Session, ReadGuard, u32), Session>
        ensures exact { is_ok result ≡ may_read session page (state_of self.old) }
        ensures ok { IfOk result (λ now. ReadsBy Performs self.old session page self.new now.0 now.1 now.2) }
        ensures back { IfErr result (λ e. e ≡ session) }
        ensures unchanged { OnErr result (self.new ≡ self.old) }
        ensures kept { IsBook self.new }
        ensures headline { HeadlineHolds self.new }
    {
        let worker = session.worker();
        match self.vault.read(session, page) {
            Ok((session, guard, frame)) => {
                let mark = guard.mark();
                note_read(worker, page, frame, mark, &mut self.journal);
                Ok((session, guard, frame))
            }
            Err(session) => Err(session),
        }
    }

    /// Performs [`Request::UnlatchShared`] and then [`Request::Unfix`], where the plan asks both: two events. Answers the session
    /// and the mark, which the first event tells. The guard is spent.
    ///
    /// # Errors
    ///
    /// The tokens, exactly where [`Vault::end_read`] refuses them. Nothing has changed.
    #[inline(always)]
    pub fn end_read(
        &mut self,
        session: Session,
        guard: ReadGuard,
    ) -> Result<(Session, u64), (Session, ReadGuard)>
        ensures exact { is_ok result ≡ may_end_read session guard (state_of self.old) }
        ensures ok { IfOk result (λ now. EndsReadBy Performs self.old session guard self.new now.0 now.1) }
        ensures back { IfErr result (λ e. e ≡ (session, guard)) }
        ensures unchanged { OnErr result (self.new ≡ self.old) }
        ensures kept { IsBook self.new }
        ensures headline { HeadlineHolds self.new }
    {
        let worker = session.worker();
        match self.vault.end_read(session, guard) {
            Ok((session, mark)) => {
                note_end(worker, mark, &mut self.journal);
                Ok((session, mark))
            }
            Err((session, guard)) => Err((session, guard)),
        }
    }

    /// Who moves next; see [`Vault::next_possible`].
    ///
    /// None if and only if no plan waits, every worker is idle, and no flush is in flight.
    pub fn next_possible(&self) -> Option<Turn>
        ensures turn { result ≡ next_turn (state_of self.now) }
        ensures some { IsSome result ↔ IsUnderWay (state_of self.now) }
        ensures open { IfSome result (IsOpen (state_of self.now)) }
    {
        self.vault.next_possible()
    }

    /// How many pages are newer than the device's. The number is kept: one look.
    pub fn dirty(&self) -> u32
        ensures { result ≡ dirty_pages (state_of self.now) }
    {
        self.vault.dirty()
    }

    /// The greatest cost of all plans that were submitted, waiting, running or ended; 0 where there is none.
    ///
    /// From the taking of a plan to its end a worker has at most as many events. A worker that makes room for so many
    /// in its log before it takes a plan needs none until it is idle again.
    pub fn most(&self) -> u64
        ensures { result ≡ greatest_cost (plans_of self.now) }
    {
        self.most
    }

    /// What the book's life began with besides its settings: of a new book, an outset in which nothing was done yet.
    pub fn began(&self) -> &Outset
        ensures { result.now ≡ self.now.began }
    {
        &self.began
    }

    /// How many flushes may begin in one life, 100,000 at most.
    pub fn flushes(&self) -> u32
        ensures { result ≡ (settings_of self.now).flushes }
    {
        self.flushes
    }

    /// How many workers the pool has.
    pub fn workers(&self) -> u32
        ensures { result ≡ (settings_of self.now).workers }
    {
        self.workers
    }

    /// The vault, to be asked what it would refuse ([`Vault::refusal`]), and for what its queries tell.
    pub fn vault(&self) -> &Vault
        ensures { result.now ≡ self.now.vault }
    {
        &self.vault
    }

    /// Copies the image of a page that is latched S into the slice.
    ///
    /// # Errors
    ///
    /// As [`Vault::look`]'s: [`LookError::Stranger`] comes before [`LookError::Length`]. Then the slice is as it was.
    pub fn look(&self, guard: &ReadGuard, bytes: &mut [u8]) -> Result<(), LookError>
        ensures ok { is_ok result
            ≡ may_look self.now.vault.page_bytes guard.now (length bytes.old) (state_of self.now) }
        ensures error { IfErr result (λ e.
            look_error self.now.vault.page_bytes guard.now (length bytes.old) (state_of self.now) ≡ Some e) }
        ensures shown { OnOk result (Shows self.now.vault guard.now.page bytes.new) }
        ensures unchanged { OnErr result (bytes.new ≡ bytes.old) }
    {
        self.vault.look(guard, bytes)
    }

    /// The body of the image of a page that is latched S: its bytes from byte 12 on, where they stand in the vault.
    /// None where the guard isn't one of this state.
    pub fn see(&self, guard: &ReadGuard) -> Option<&[u8]>
        ensures some { is_some result ≡ may_see guard.now (state_of self.now) }
        ensures shown { IfSome result (λ body. ShowsBody self.now.vault guard.now.page body.now) }
    {
        self.vault.see(guard)
    }

    /// Gives the book up with the tokens of its vault, and gives the journal.
    pub fn close(self, hands: Hands) -> Journal
        ensures { result.items ≡ self.journal }
    {
        let Book {
            vault,
            workers: _,
            journal,
            most: _,
            flushes: _,
            began: _,
        } = self;
        vault.scrap(hands);
        journal
    }
}

/// Adds what the vault did to the journal, its move with the reply, where it did one.
#[inline(always)]
fn noted(done: Option<Done>, journal: &mut Journal) -> Option<Event>
    requires { IsSome done → length journal.old.items < journal.old.capacity }
    ensures event { result ≡ option_map (λ t. Step t.0 t.1) done }
    ensures journal { journal.new.items ≡ journal.old.items ++ events_in result }
    ensures memory { journal.new.capacity ≡ journal.old.capacity }
{
    let (did, reply) = done?;
    let event = Event::Step { did, reply };
    journal.push_reserved(event);
    Some(event)
}

/// Adds the two events of a reading that began: a fix that was a hit, and a latch S.
#[inline(always)]
pub(crate) fn note_read(worker: u32, page: u32, frame: u32, mark: u64, journal: &mut Journal)
    requires { length journal.old.items + 2 ≤ journal.old.capacity }
    ensures journal { journal.new.items ≡ journal.old.items ++ read_events worker page frame mark }
    ensures memory { journal.new.capacity ≡ journal.old.capacity }
{
    let (did, reply) = (Move::Fix { worker, page }, Reply::Hit { frame, mark });
    journal.push_reserved(Event::Step { did, reply });
    let (did, reply) = (Move::Latch { worker }, Reply::Latched { mark });
    journal.push_reserved(Event::Step { did, reply });
}

/// Adds the two events of a reading that ended: the unlatch, and the unfix.
#[inline(always)]
pub(crate) fn note_end(worker: u32, mark: u64, journal: &mut Journal)
    requires { length journal.old.items + 2 ≤ journal.old.capacity }
    ensures journal { journal.new.items ≡ journal.old.items ++ end_events worker mark }
    ensures memory { journal.new.capacity ≡ journal.old.capacity }
{
    let (did, reply) = (Move::Unlatch { worker }, Reply::Unlatched { mark });
    journal.push_reserved(Event::Step { did, reply });
    let (did, reply) = (Move::Unfix { worker }, Reply::Did);
    journal.push_reserved(Event::Step { did, reply });
}
