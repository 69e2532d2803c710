//! A vault with the present segment of its journal.

ghost use Rattle.std.specs.Prelude.{◌≡◌, ◌≢◌, ◌↔◌, [], None, not, is_ok, length};
ghost use Rattle.std.specs.Prelude.{IfOk, IfErr, OnOk, OnErr, IsSome, IfSome};
ghost use Rattle.pp_settings.specs.declared.span.Span.TheVariants.{Bounded};
ghost use Rattle.pp_cert.specs.Accepted.{Acceptance};
ghost use Rattle.pp_model.specs.Pool.{State, opening, dirty_pages};
ghost use Rattle.pp_model.specs.Budget.{bound};
ghost use Rattle.pp_model.specs.Turns.{next_turn, IsUnderWay, IsOpen};
ghost use Rattle.pp_core.specs.Opening.{kept_of};
ghost use Rattle.pp_core.specs.Submits.{PrepareFails};
ghost use Rattle.pp_vault.specs.Hands.{HandsFit};
ghost use Rattle.pp_vault.specs.Headline.{Holds};
ghost use Rattle.pp_vault.specs.Stages.{AllIdle};
ghost use Rattle.pp_vault.specs.StandsFor.{StandsFor};
ghost use Rattle.pp_pool.specs.Books.{greatest_cost};
ghost use Rattle.pp_ledger.specs.Segments.{empty_segment, is_full};
ghost use Rattle.pp_ledger.specs.Ledgers.{IsSegment, IsLedger};
ghost use Rattle.pp_ledger.specs.Calls.{Prepares, TakesPrepared, SubmitFails, Performs, can_go_on, going_on};

use crate::error::LedgerError;
use crate::segment::Segment;
use pp_core::{PrepareError, Prepared};
use pp_model::Turn;
use pp_pool::{Request, Response, ask};
use pp_settings::Settings;
use pp_vault::{Accepted, Hands, PlanId, Vault, VaultError};
use std::alloc::Global;
use std::marker::Model;
use std::mem;

/// A vault whose life is endless, with the segment of its journal that was noted since the last one was taken out.
///
/// Contracts see it as the record `Parts`. Of every ledger there are two states of the model (`IsSegment`): one
/// from which the segment's events are a true journal, and one to which they lead and for which the vault stands.
/// What a call does is said of all such states. So segments that are taken out one after the other are one true
/// journal of the life.
///
/// It isn't renewed: the flushes of its settings are for its whole life.
///
/// No call but [`Ledger::new`] takes memory. Where the segment is full, no event is added and nothing is done,
/// until its host takes it out ([`Ledger::take_segment`]).
pub struct Ledger {
    vault: Vault,
    segment: Segment,
    // The greatest cost of the prepared plans.
    most: u64,
}

// By hand, so that code that lets one go calls this, and doesn't let each field go anew.
impl Drop for Ledger {
    fn drop(self) {
        let Ledger {
            vault: _,
            segment: _,
            most: _,
        } = self;
    }
}

impl Model for Ledger {
    ghost use Rattle.pp_ledger.specs.Ledgers.{Parts};
    ghost use Rattle.pp_ledger.specs.Inside.{LedgerKeeps};
    ghost use Rattle.pp_ledger.specs.Coding.{coded_parts};

    ghost Value = { Parts };

    ghost coded = { coded_parts };

    ghost view = { λ l. record { vault = l.vault; segment = l.segment } };

    ghost invariant = { λ l. LedgerKeeps (record { vault = l.vault; segment = l.segment }) l.most };
}

impl Ledger {
    /// A ledger with these settings, whose life is endless ([`Settings::span`]), in which nothing was done yet, and the
    /// hands of its vault. Its first segment has number 0, and memory for so many events.
    ///
    /// With room for none it is full until another segment is put in its place ([`Ledger::take_segment`]). It gets all
    /// memory that the vault and this segment ever need.
    ///
    /// # Errors
    ///
    /// Only where that memory can't be had.
    pub fn new(
        alloc: Global,
        settings: &Settings,
        room: usize,
    ) -> Result<(Ledger, Hands), VaultError>
        requires { settings.now.span ≢ Bounded }
        ensures segment { IfOk result (λ made. made.0.segment ≡ empty_segment room) }
        ensures begins { IfOk result (λ made.
            IsSegment made.0 (opening (kept_of settings.now)) (opening (kept_of settings.now))) }
        ensures none_kept { IfOk result (λ made. made.0.vault.core.plans ≡ []) }
        ensures idle { IfOk result (λ made. AllIdle settings.now.workers made.1.workers) }
        ensures no_flush { IfOk result (λ made. made.1.flushing ≡ None) }
        ensures fit { IfOk result (λ made. HandsFit made.0.vault made.1) }
        ensures page_bytes { IfOk result (λ made. made.0.vault.page_bytes ≡ settings.now.page_bytes) }
        ensures holds { IfOk result (λ made. Holds made.0.vault) }
    {
        let (vault, tokens) = Vault::new(alloc, settings)?;
        match Segment::with_room(alloc, room) {
            Ok(segment) => {
                let ledger = Ledger {
                    vault,
                    segment,
                    most: 0,
                };
                Ok((ledger, tokens))
            }
            Err(_) => {
                vault.scrap(tokens);
                Err(VaultError::OutOfMemory)
            }
        }
    }

    /// Does nothing. It tells what holds of every ledger, and that the headline holds of each state that its vault
    /// stands for.
    pub fn known(&self)
        ensures kept { IsLedger self.now }
        ensures holds { Holds self.now.vault }
    {
        self.vault.known();
    }

    /// Keeps a plan, so that it can be submitted as often as wanted. That is no event. It takes no memory.
    ///
    /// # Errors
    ///
    /// As [`Vault::prepare`]'s. The plan comes back, and nothing has changed.
    pub fn prepare(&mut self, accepted: Accepted) -> Result<Prepared, (Accepted, PrepareError)>
        ensures ok { IfOk result (λ prepared. Prepares self.old accepted prepared self.new) }
        ensures error { IfErr result (λ e. PrepareFails self.old.vault.core accepted e.1) }
        ensures back { IfErr result (λ e. e.0 ≡ accepted) }
        ensures unchanged { OnErr result (self.new ≡ self.old) }
        ensures kept { IsLedger self.new }
        ensures holds { Holds self.new.vault }
    {
        let cost = accepted.cost();
        match self.vault.prepare(accepted) {
            Ok(prepared) => {
                self.most = self.most.max(cost);
                Ok(prepared)
            }
            Err(refused) => Err(refused),
        }
    }

    /// Takes a prepared plan in, which waits behind the others, and answers its number: one event. It takes no
    /// memory.
    ///
    /// # Errors
    ///
    /// [`LedgerError::SegmentFull`] where the segment is full, and else as [`Vault::submit_prepared`]'s:
    ///
    /// - `NotPrepared`: the ledger keeps no such plan.
    /// - `TooManyPlans`: as many plans wait as may; try again once one was taken.
    /// - `JournalLimit`: with this plan the life could come to more than 2^61 moves, by its plans' costs.
    ///
    /// Nothing has changed.
    pub fn submit(&mut self, prepared: Prepared) -> Result<PlanId, LedgerError>
        ensures ok { IfOk result (λ id. (a : Acceptance) × TakesPrepared self.old prepared id a self.new) }
        ensures error { IfErr result (SubmitFails self.old prepared) }
        ensures unchanged { OnErr result (self.new ≡ self.old) }
        ensures kept { IsLedger self.new }
        ensures holds { Holds self.new.vault }
    {
        if self.segment.is_full() {
            return Err(LedgerError::SegmentFull);
        }
        match self.vault.submit_prepared(prepared) {
            Ok(id) => {
                self.segment.note_submit(id.number(), prepared.place());
                Ok(id)
            }
            Err(error) => Err(LedgerError::Refused(error)),
        }
    }

    /// Makes the request's call of the vault: one event, which is added to the segment, or a refusal, which changes
    /// nothing. It takes no memory.
    ///
    /// The event comes exactly where the tokens fit, the plan asks the slot and the mode of the guard, and the move
    /// is possible; its reply is the model's. The answer is then the vault's. Else the answer has the request with
    /// its tokens, and the cause: [`pp_vault::Refusal::Stranger`] where a token doesn't fit.
    ///
    /// # Errors
    ///
    /// The request with its tokens, exactly where the segment is full, whatever is asked. Nothing was done.
    #[inline(always)]
    pub fn perform(&mut self, request: Request) -> Result<Response, Request>
        ensures exact { is_ok result ≡ not (is_full self.old.segment) }
        ensures ok { IfOk result (λ response. Performs self.old request response self.new) }
        ensures back { IfErr result (λ e. e ≡ request) }
        ensures unchanged { OnErr result (self.new ≡ self.old) }
        ensures kept { IsLedger self.new }
        ensures holds { Holds self.new.vault }
    {
        if self.segment.is_full() {
            return Err(request);
        }
        let (answer, done) = ask(&mut self.vault, request);
        let event = self.segment.note(done);
        Ok(Response { event, answer })
    }

    /// Takes the present segment out, and goes on in this one, which becomes the next. It takes no memory.
    ///
    /// Whatever is under way goes on: the next segment begins in the state to which the one before leads.
    ///
    /// # Errors
    ///
    /// The segment that was handed in, as it was, exactly where it isn't empty ([`Segment::clear`]) or has no memory
    /// for an event, or where 2^64 - 1 segments were taken out before. Nothing has changed.
    pub fn take_segment(&mut self, empty: Segment) -> Result<Segment, Segment>
        ensures exact { is_ok result ≡ can_go_on self.old empty }
        ensures segment { IfOk result (λ taken. taken ≡ self.old.segment) }
        ensures goes_on { OnOk result (self.new ≡ going_on self.old empty) }
        ensures chain { OnOk result ((o s : State) → IsSegment self.old o s → IsSegment self.new s s) }
        ensures back { IfErr result (λ e. e ≡ empty) }
        ensures unchanged { OnErr result (self.new ≡ self.old) }
        ensures kept { IsLedger self.new }
        ensures holds { Holds self.new.vault }
    {
        self.vault.known();
        let number = self.segment.number();
        if !empty.is_ready() || number == u64::MAX {
            return Err(empty);
        }
        let next = empty.numbered(number + 1, self.vault.core().plans());
        Ok(mem::replace(&mut self.segment, next))
    }

    /// Whether the present segment has no memory for one event more, so that it has to be taken out first.
    pub fn is_full(&self) -> bool
        ensures { result ≡ is_full self.now.segment }
    {
        self.segment.is_full()
    }

    /// How many events the present segment has.
    pub fn len(&self) -> usize
        ensures { result ≡ length self.now.segment.events }
    {
        self.segment.events().len()
    }

    /// How many events the present segment has memory for.
    pub fn capacity(&self) -> usize
        ensures { result ≡ self.now.segment.capacity }
    {
        self.segment.events().capacity()
    }

    /// The present segment, as it is so far.
    pub fn segment(&self) -> &Segment
        ensures { result.now ≡ self.now.segment }
    {
        &self.segment
    }

    /// The vault, by the calls that change nothing: the images of latched pages, and what its core tells.
    pub fn vault(&self) -> &Vault
        ensures { result.now ≡ self.now.vault }
    {
        &self.vault
    }

    /// Who moves next; see [`Vault::next_possible`]. It names a turn also where the segment is full.
    ///
    /// None if and only if no plan waits, every worker is idle, and no flush is in flight.
    pub fn next_possible(&self) -> Option<Turn>
        ensures turn { (s : State) → StandsFor self.now.vault s → result ≡ next_turn s }
        ensures some { (s : State) → StandsFor self.now.vault s → IsSome result ↔ IsUnderWay s }
        ensures open { IfSome result (λ turn. (s : State) → StandsFor self.now.vault s → IsOpen s turn) }
    {
        self.vault.next_possible()
    }

    /// The bound on the moves that are left; see [`Vault::budget`].
    pub fn budget(&self) -> u64
        ensures bound { (s : State) → StandsFor self.now.vault s → result ≡ bound s }
    {
        self.vault.budget()
    }

    /// The greatest cost of all prepared plans; 0 where there is none.
    ///
    /// From the taking of a plan to its end a worker has at most as many events as the plan costs.
    pub fn most(&self) -> u64
        ensures { result ≡ greatest_cost self.now.vault.core.plans }
    {
        self.most
    }

    /// How many pages are newer than the device's. The number is kept: one look.
    pub fn dirty(&self) -> u32
        ensures { (s : State) → StandsFor self.now.vault s → result ≡ dirty_pages s }
    {
        self.vault.dirty()
    }

    /// Gives the ledger up with the tokens of its vault, and gives the present segment.
    pub fn close(self, hands: Hands) -> Segment
        ensures { result ≡ self.segment }
    {
        let Ledger {
            vault,
            segment,
            most: _,
        } = self;
        vault.scrap(hands);
        segment
    }
}
