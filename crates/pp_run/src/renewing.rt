//! Renewing a pool whose run is over.

ghost use Rattle.std.specs.Prelude.{◌≡◌, ◌↔◌, true, Some, IfOk, IfErr};
ghost use Rattle.pp_model.specs.Renewing.{renewed};
ghost use Rattle.pp_model.specs.Lives.{IsLife};
ghost use Rattle.pp_outset.specs.Outsets.{outset_of};
ghost use Rattle.pp_pool.specs.Parts.{settings_of, plans_of, state_of};
ghost use Rattle.pp_pool.specs.Parts as parts;
ghost use Rattle.pp_pool.specs.Renewals.{HasLifeRoom};
ghost use Rattle.pp_vault.specs.Holding.{placed};
ghost use Rattle.pp_vault.specs.Stages.{idle_hand, is_free_for, put_for, stage_worker};
ghost use Rattle.pp_run.specs.Calling.{sought_behind};
ghost use Rattle.pp_run.specs.RunErrors.{unrenewed_by};
ghost use Rattle.pp_run.specs.Rested.{opening_of, AreIdle, KeptFor};

use crate::error::RunError;
use crate::life::Ended;
use crate::pool::Pool;
use crate::stalled::Stalled;
use pp_pool::{BookRenewError, Journal};
use pp_report::RunRecord;
use pp_vault::{Hand, Hands};

impl<D: Drop> Ended<D> {
    /// Renews the pool. What the run leaves, the pool, and the devices. The empty journal becomes that of the next life.
    ///
    /// # Errors
    ///
    /// [`RunError::Broken`] with the flusher's number where a token isn't in its place or not an idle worker's, or a mark has come
    /// to 2^63.
    pub(crate) fn renewed(
        self,
        empty: Journal,
    ) -> Result<(RunRecord, Pool, Vec<D>), (RunError, Stalled)>
        requires room { HasLifeRoom self.stalled.book empty.capacity }
        ensures events { IfOk result (λ r. r.0.events.items ≡ self.stalled.book.journal) }
        ensures plans { IfOk result (λ r. r.0.plans ≡ self.plans) }
        ensures dirty { IfOk result (λ r. r.0.dirty ≡ self.dirty) }
        ensures devices { IfOk result (λ r. r.2 ≡ self.devices) }
        ensures settings { IfOk result (λ r. r.1.settings ≡ settings_of self.stalled.book) }
        ensures page_bytes { IfOk result (λ r. r.1.page_bytes ≡ self.stalled.page_bytes) }
        ensures outset { IfOk result (λ r. r.1.began ≡ outset_of (state_of self.stalled.book)) }
        ensures from { IfOk result (λ r. r.1.from ≡ sought_behind self.stalled.from self.stalled.book.journal) }
        ensures next { IfOk result (λ r. opening_of r.1 ≡ renewed (state_of self.stalled.book)) }
        ensures life { IfOk result (λ r. IsLife (parts.opening_of self.stalled.book)
            (record { plans = plans_of self.stalled.book; journal = self.stalled.book.journal })) }
        ensures error { IfErr result (λ e. KeptFor self.stalled.book e.1.hands e.0) }
        ensures stalled { IfErr result (λ e. e.1.book ≡ self.stalled.book) }
        ensures pages { IfErr result (λ e. (e.1.layout ≡ self.stalled.layout)
            × (e.1.page_bytes ≡ self.stalled.page_bytes) × (e.1.from ≡ self.stalled.from)) }
    {
        let Ended {
            stalled,
            plans,
            dirty,
            devices,
        } = self;
        let (events, pool) = stalled.renewed(empty)?;
        let record = RunRecord {
            plans,
            events,
            dirty,
        };
        Ok((record, pool, devices))
    }
}

/// What a book that isn't renewed comes to, where the flusher has this number.
pub(crate) fn told(error: BookRenewError, flusher: u32) -> RunError
    ensures { result ≡ unrenewed_by flusher error }
{
    match error {
        BookRenewError::OutOfMemory => RunError::OutOfMemory,
        BookRenewError::Refused(_) => RunError::Broken(flusher),
    }
}

/// Whether each worker's hand is in its place and idle, and no flush is in hand.
pub(crate) fn are_idle(hands: &mut Hands, workers: u32) -> bool
    ensures idle { (result ≡ true) ↔ AreIdle workers hands.new }
    ensures same { hands.new.workers ≡ hands.old.workers }
    ensures flushing { hands.new.flushing ≡ hands.old.flushing }
{
    for worker in 0..workers {
        if !is_idle(hands, worker) {
            return false;
        }
    }
    hands.flushing.is_none()
}

/// Whether the worker's hand is in its place and idle.
fn is_idle(hands: &mut Hands, worker: u32) -> bool
    ensures idle { (result ≡ true) ↔ (placed hands.new.workers worker ≡ Some (idle_hand (record { worker = worker }))) }
    ensures same { hands.new.workers ≡ hands.old.workers }
    ensures flushing { hands.new.flushing ≡ hands.old.flushing }
{
    let Some(hand) = hands.part(worker) else {
        return false;
    };
    let is_idle = hand.is_idle();
    put_back(hands, hand);
    is_idle
}

/// Puts a hand into its worker's place, which is empty.
pub(crate) fn put_back(hands: &mut Hands, hand: Hand)
    requires { is_free_for hands.old.workers (stage_worker hand.stage) ≡ true }
    ensures places { hands.new.workers ≡ put_for hands.old.workers hand (stage_worker hand.stage) }
    ensures flushing { hands.new.flushing ≡ hands.old.flushing }
{
    match hands.join(hand) {
        Ok(()) => {}
        Err(_) => unreachable!(),
    }
}
