//! A site with a ledger, which hands full segments on.

ghost use Rattle.std.specs.Prelude.{◌≡◌, ◌≤◌, true, false, not, None, IfOk, IfErr, OnErr};
ghost use Rattle.pp_model.specs.declared.refusals.Delay.TheVariants.{NoRoom};
ghost use Rattle.pp_core.specs.Submits.{PrepareFails};
ghost use Rattle.pp_vault.specs.declared.refusal.Refusal.TheVariants.{NotNow};
ghost use Rattle.pp_pool.specs.declared.response.BookAnswer.TheVariants.{No};
ghost use Rattle.pp_ledger.specs.Segments.{is_ready};
ghost use Rattle.pp_ledger.specs.Calls.{Prepares};
ghost use Rattle.pp_ledger.specs.Sites.{IsSite, HandsOn, MakesRoom, Submits, RefusesSubmit, can_hand_on, is_stuck};

use crate::error::LedgerError;
use crate::ledger::Ledger;
use crate::segment::Segment;
use crate::showing::show;
use crate::sink::Sink;
use core::mem;
use pp_core::{PrepareError, Prepared};
use pp_model::Delay;
use pp_pool::{BookAnswer, Request, Response, Site};
use pp_vault::{Accepted, PlanId, ReadGuard, Refusal};
use std::marker::Model;

/// A site for one thread, by which workers and a flusher serve an endless pool. It has a ledger, and a sink that is
/// handed each segment when it is full.
///
/// Contracts see it as the record `SiteParts`: the ledger, the segment in which it goes on next, and the sink. Nothing
/// but this site takes a segment out of its ledger, so each one comes to the sink, or is the present one when the site
/// is parted.
///
///     let (ledger, mut hands) = Ledger::new(alloc, &settings, 65_536)?;
///     let spare = Segment::with_room(alloc, 65_536)?;
///     let mut site = LedgerSite::new(ledger, spare, files);        // `files` is a sink of yours
///     let search = site.prepare(search).map_err(|(_plan, error)| error)?;
///     let mut worker = Worker::new(alloc, site, device, hand, &settings);
///     while let Some(mut query) = next_query() {                   // yours
///         worker.site.submit(search)?;
///         loop {
///             match worker.turn(&mut query) {
///                 Turned::Done => {}
///                 Turned::Ended => break,                      // the query is done
///                 stopped => return Err(stopped.into()),       // yours: `Turned` says what each means
///             }
///         }
///         worker.log.clear();
///     }
///
/// **What it costs.** The site takes no memory: the two segments are all that it has. A worker has room for one page,
/// and a log, in which it notes each event once more, 16 bytes each. Before it takes a plan, it gets room there for as
/// many events as the dearest prepared plan costs ([`Ledger::most`]). Nothing reads that log here, so its host empties
/// it between two plans, as above; else it grows for as long as the worker turns. A flusher has no log.
///
/// A reading of a cached page is two requests, as in [`Site::read`]'s default.
#[derive(Drop)]
pub struct LedgerSite<S> {
    ledger: Ledger,
    spare: Segment,
    /// Who is handed the segments that are taken out.
    pub sink: S,
}

impl<S> Model for LedgerSite<S> {
    ghost use Rattle.pp_ledger.specs.Sites.{SiteParts, IsSite};
    ghost use Rattle.pp_ledger.specs.Coding.{coded_site};

    ghost Value = { SiteParts S };

    ghost coded = { coded_site S.code };

    ghost view = { λ x. record { ledger = x.ledger; spare = x.spare; sink = x.sink } };

    ghost invariant = { λ x. IsSite (record { ledger = x.ledger; spare = x.spare; sink = x.sink }) };
}

impl<S> LedgerSite<S> {
    /// A site with this ledger, a segment in which it goes on once its own is full, and a sink.
    ///
    /// [`Segment::is_ready`] and [`Ledger::capacity`] are tests of what is asked.
    pub fn new(ledger: Ledger, spare: Segment, sink: S) -> LedgerSite<S>
        requires ready { is_ready spare ≡ true }
        requires room { 1 ≤ ledger.segment.capacity }
        ensures { result ≡ record { ledger = ledger; spare = spare; sink = sink } }
    {
        LedgerSite {
            ledger,
            spare,
            sink,
        }
    }

    /// Does nothing. It tells what holds of every site: its ledger can go on in the spare segment by what that is, and the
    /// present one has memory for an event.
    pub fn known(&self)
        ensures { IsSite self.now }
    {
        let _ = &self.ledger;
    }

    /// The ledger, by the calls that change nothing.
    pub fn ledger(&self) -> &Ledger
        ensures { result.now ≡ self.now.ledger }
    {
        &self.ledger
    }

    /// Keeps a plan, so that it can be submitted as often as wanted; see [`Ledger::prepare`].
    ///
    /// # Errors
    ///
    /// As [`Ledger::prepare`]'s. The plan comes back, and nothing has changed.
    pub fn prepare(&mut self, accepted: Accepted) -> Result<Prepared, (Accepted, PrepareError)>
        ensures ok { IfOk result (λ prepared. Prepares self.old.ledger accepted prepared self.new.ledger) }
        ensures rest { self.new ≡ record self.old { ledger = self.new.ledger } }
        ensures error { IfErr result (λ e. PrepareFails self.old.ledger.vault.core accepted e.1) }
        ensures back { IfErr result (λ e. e.0 ≡ accepted) }
        ensures unchanged { OnErr result (self.new ≡ self.old) }
    {
        self.ledger.prepare(accepted)
    }

    /// Ends the site: its ledger, whose present segment the sink hasn't got, the segment in which it would have gone
    /// on, and the sink.
    pub fn into_parts(self) -> (Ledger, Segment, S)
        ensures { result ≡ (self.ledger, self.spare, self.sink) }
    {
        let LedgerSite {
            ledger,
            spare,
            sink,
        } = self;
        (ledger, spare, sink)
    }
}

impl<S: Sink> LedgerSite<S> {
    /// Takes a prepared plan in, as [`Ledger::submit`] does. A full segment is handed on before.
    ///
    /// # Errors
    ///
    /// - [`LedgerError::SegmentFull`] only where the segment is full and 2^64 - 1 were taken out before. Nothing has
    ///   changed.
    /// - [`LedgerError::Refused`] as [`Ledger::submit`]'s. Nothing has changed but that a full segment was handed on.
    pub fn submit(&mut self, prepared: Prepared) -> Result<PlanId, LedgerError>
        ensures ok { IfOk result (λ id. Submits S.keeps self.old prepared id self.new) }
        ensures error { IfErr result (λ e. RefusesSubmit S.keeps self.old prepared e self.new) }
    {
        if !self.make_room() {
            return Err(LedgerError::SegmentFull);
        }
        self.ledger.submit(prepared)
    }

    /// Takes the present segment out, full or not, and hands it to the sink. The ledger goes on in the spare one, and
    /// the sink gives the next spare one. Tells whether it did. It didn't, and nothing has changed, exactly where 2^64
    /// - 1 were taken out before.
    ///
    /// A host calls it to have all that was done until now written down. A full segment is handed on without it.
    #[inline(never)]
    pub fn hand_on(&mut self) -> bool
        ensures exact { result ≡ can_hand_on self.old }
        ensures handed { result ≡ true → HandsOn S.keeps self.old self.new }
        ensures unchanged { result ≡ false → self.new ≡ self.old }
    {
        mem::replace_with(self, (), |site, ()| site.handed_on())
    }

    fn handed_on(self) -> (LedgerSite<S>, bool)
        ensures exact { result.1 ≡ can_hand_on self }
        ensures handed { result.1 ≡ true → HandsOn S.keeps self result.0 }
        ensures unchanged { result.1 ≡ false → result.0 ≡ self }
    {
        let LedgerSite {
            mut ledger,
            spare,
            mut sink,
        } = self;
        match ledger.take_segment(spare) {
            Ok(full) => {
                let spare = sink.next(full);
                (LedgerSite::new(ledger, spare, sink), true)
            }
            Err(spare) => (LedgerSite::new(ledger, spare, sink), false),
        }
    }

    /// Sees that there is room for an event: a full segment is handed on. Tells whether there is.
    #[inline(always)]
    fn make_room(&mut self) -> bool
        ensures exact { result ≡ not (is_stuck self.old) }
        ensures made { result ≡ true → MakesRoom S.keeps self.old self.new }
        ensures unchanged { result ≡ false → self.new ≡ self.old }
    {
        !self.ledger.is_full() || self.hand_on()
    }
}

impl<S: Sink> Site for LedgerSite<S> {
    ghost use Rattle.pp_pool.specs.Books.{greatest_cost};
    ghost use Rattle.pp_ledger.specs.Sites.{Gives, ShowsPage};

    // A full segment is handed on, and then the ledger performs the request. Where no segment can be taken out any
    // more, the request isn't possible now.
    ghost gives = { λ x request response t. Gives S.keeps (is_stuck x) x request response t };

    ghost shows = { λ x guard before shown after. ShowsPage x.ledger.vault guard before shown after };

    // Only prepared plans are submitted.
    ghost tells = { λ x most. most ≡ greatest_cost x.ledger.vault.core.plans };

    #[inline(always)]
    fn perform(&mut self, request: Request) -> Response {
        if !self.make_room() {
            return declined(request);
        }
        match self.ledger.perform(request) {
            Ok(response) => response,
            Err(_) => unreachable!(),
        }
    }

    #[inline(always)]
    fn look(&mut self, guard: &ReadGuard, bytes: &mut [u8]) -> bool {
        show(self.ledger.vault(), guard, bytes)
    }

    fn most(&mut self) -> u64 {
        self.ledger.most()
    }
}

/// The request comes back. A worker and a flusher take that as [`Turned::NotNow`](pp_pool::Turned).
#[inline(never)]
fn declined(request: Request) -> Response
    ensures { result ≡ record { event = None; answer = No request (NotNow NoRoom) } }
{
    Response {
        event: None,
        answer: BookAnswer::No(request, Refusal::NotNow(Delay::NoRoom)),
    }
}
