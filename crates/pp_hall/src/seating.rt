//! The vault of a hall, and which of its chairs are out.

ghost use Rattle.std.specs.Prelude.{◌≡◌, ◌≢◌, ℕ, ◌≤◌, ◌&&◌, true, false, None, Some, IfOk, IfErr, IfSome, OnOk, OnErr};
ghost use Rattle.std.specs.Prelude.{◌<◌, ◌↔◌, replicate, slice_index_or, slice_get, is_ok, is_some, count_by, is_none};
ghost use Rattle.pp_frames.specs.Marks.{dirty_from};
ghost use Rattle.pp_settings.specs.declared.span.Span.TheVariants.{Bounded};
ghost use Rattle.pp_model.specs.Pool.{State, opening, dirty_pages};
ghost use Rattle.pp_core.specs.Opening.{kept_of};
ghost use Rattle.pp_core.specs.Submits.{PrepareFails};
ghost use Rattle.pp_core.specs.Queries.{is_idle, flushed_page};
ghost use Rattle.pp_vault.specs.Headline.{Holds};
ghost use Rattle.pp_vault.specs.Looks.{may_see, ShowsBody};
ghost use Rattle.pp_vault.specs.Reads.{may_read, may_end_read, Reads, EndsRead};
ghost use Rattle.pp_vault.specs.StandsFor.{StandsFor};
ghost use Rattle.pp_vault.specs.Stages.{AllIdle};
ghost use Rattle.pp_pool.specs.Performing.{is_no};
ghost use Rattle.pp_pool.specs.Replies.{Replies};
ghost use Rattle.pp_pool.specs.declared.response.BookAnswer.TheVariants.{No};
ghost use Rattle.pp_pool.specs.declared.request.Request.TheVariants as request;
ghost use Rattle.pp_ledger.specs.Sites.{ShowsPage};
ghost use Rattle.pp_hall.specs.Counting.{no_counts, raised};
ghost use Rattle.pp_hall.specs.Seatings.{room_of, first_home, first_out, pages_out, IsSeating, Prepares, Performs};
ghost use Rattle.pp_hall.specs.Seatings.{TakesPlan, CannotTake, out_with, come_home, may_take, is_wanted};
ghost use Rattle.pp_hall.specs.Closing.{IsDirtyPage};

use crate::counts::Counts;
use pp_core::{PrepareError, Prepared};
use pp_ledger::VaultSite;
use pp_model::Delay;
use pp_pool::{BookAnswer, Request, Response, Site};
use pp_settings::Settings;
use pp_vault::{Accepted, Chair, Hands, ReadGuard, Refusal, Session, Stopped, Vault};
use std::alloc::{AllocError, Global};
use std::marker::Model;

/// A vault with an endless life, in which no plan waits, and with which peaks its chairs are out. It counts what is
/// done.
///
/// A chair is a worker of the settings. It is home, or out with a peak, and then it runs plans of that peak at most.
#[derive(Drop)]
pub(crate) struct Seating {
    site: VaultSite,
    frames: u64,
    // At place w chair w.
    peaks: Vec<Option<u64>>,
    // The peaks of those that are out, together.
    out: u64,
    counts: Counts,
}

impl Model for Seating {
    ghost use Rattle.std.specs.Prelude.{◌≡◌};
    ghost use Rattle.pp_hall.specs.Seatings.{Parts};
    ghost use Rattle.pp_hall.specs.Coding.{coded_seating};

    ghost Value = { Parts };

    ghost coded = { coded_seating };

    ghost use Rattle.pp_hall.specs.Inside.{SeatingKeeps};

    ghost view = { λ x. record { vault = x.site.vault; frames = x.frames; peaks = x.peaks.items; counts = x.counts } };

    ghost invariant = { λ x. SeatingKeeps (record {
      vault = x.site.vault;
      frames = x.frames;
      peaks = x.peaks.items;
      counts = x.counts;
    }) x.out };
}

impl Seating {
    /// A vault with these settings, in which nothing was done yet, and its hands. Every chair is home.
    pub(crate) fn new(alloc: Global, settings: &Settings) -> Result<(Seating, Hands), AllocError>
        requires { settings.now.span ≢ Bounded }
        ensures opens { IfOk result (λ made. StandsFor made.0.vault (opening (kept_of settings.now))) }
        ensures page_bytes { IfOk result (λ made. made.0.vault.page_bytes ≡ settings.now.page_bytes) }
        ensures frames { IfOk result (λ made. made.0.frames ≡ settings.now.frames) }
        ensures peaks { IfOk result (λ made. made.0.peaks ≡ replicate settings.now.workers None) }
        ensures counts { IfOk result (λ made. made.0.counts ≡ no_counts) }
        ensures idle { IfOk result (λ made. AllIdle settings.now.workers made.1.workers) }
    {
        let peaks = vec![in alloc; None; settings.workers() as usize]?;
        let frames = u64::from(settings.frames());
        match Vault::new(alloc, settings) {
            Ok((vault, hands)) => {
                let seating = Seating {
                    site: VaultSite { vault, most: 1 },
                    frames,
                    peaks,
                    out: 0,
                    counts: Counts::none(),
                };
                Ok((seating, hands))
            }
            Err(_) => Err(AllocError),
        }
    }

    /// Does nothing. It tells what holds of each.
    pub(crate) fn known(&self)
        ensures seating { IsSeating self.now }
        ensures holds { Holds self.now.vault }
    {
        self.site.vault.known();
    }

    /// The vault, by the calls that change nothing.
    pub(crate) fn vault(&self) -> &Vault
        ensures { result.now ≡ self.now.vault }
    {
        &self.site.vault
    }

    /// How many frames there are.
    pub(crate) fn frames(&self) -> u64
        ensures { result ≡ self.now.frames }
    {
        self.frames
    }

    /// What was done.
    pub(crate) fn counts(&self) -> Counts
        ensures { result ≡ self.now.counts }
    {
        self.counts
    }

    /// The peaks of the chairs that are out, together.
    pub(crate) fn pages_out(&self) -> u64
        ensures is { result ≡ pages_out self.now.peaks }
        ensures within { result ≤ self.now.frames }
    {
        self.out
    }

    /// Gives it up, with all hands, and with what the flusher has in hand.
    pub(crate) fn scrap(self, hands: Hands, flush: Stopped) {
        let Seating {
            site: VaultSite { vault, most: _ },
            frames: _,
            peaks: _peaks,
            out: _,
            counts: _,
        } = self;
        vault.scrap_with(hands, flush);
    }

    // ---- chairs

    /// The first chair that is home.
    pub(crate) fn first_home(&self) -> Option<usize>
        ensures is { result ≡ first_home self.now.peaks }
        ensures there { IfSome result (λ chair. slice_get self.now.peaks chair ≡ Some None) }
    {
        self.peaks.iter().position(|peak| peak.is_none())
    }

    /// How many chairs are home.
    pub(crate) fn homes(&self) -> usize
        ensures { result ≡ count_by is_none self.now.peaks }
    {
        self.peaks.iter().filter(|peak| peak.is_none()).count()
    }

    /// The first chair that is out.
    fn first_out(&self) -> Option<usize>
        ensures { result ≡ first_out self.now.peaks }
    {
        self.peaks.iter().position(|peak| peak.is_some())
    }

    /// Whether no chair is out.
    pub(crate) fn is_all_home(&self) -> bool
        ensures { result ≡ is_none (first_out self.now.peaks) }
    {
        self.first_out().is_none()
    }

    /// How many frames are free for a plan that starts.
    pub(crate) fn room(&self) -> u64
        ensures { result ≡ room_of self.now }
    {
        match self.first_home() {
            Some(_) => self.frames - self.out,
            None => 0,
        }
    }

    /// The peak with which the chair is out, if it is.
    pub(crate) fn peak_of(&self, chair: u32) -> Option<u64>
        ensures { result ≡ slice_index_or self.now.peaks chair None }
    {
        if (chair as usize) < self.peaks.len() {
            self.peaks[chair as usize]
        } else {
            None
        }
    }

    /// The chair is out from now on, with this peak.
    pub(crate) fn send_out(&mut self, chair: usize, peak: u64)
        requires home { slice_get self.old.peaks chair ≡ Some None }
        requires room { peak ≤ room_of self.old }
        requires some { first_home self.old.peaks ≡ Some chair }
        ensures { self.new ≡ out_with self.old chair peak }
    {
        self.peaks[chair] = Some(peak);
        self.out += peak;
    }

    /// Whether the worker is idle.
    pub(crate) fn is_idle(&self, worker: u32) -> bool
        ensures { (s : State) → StandsFor self.now.vault s → result ≡ is_idle s worker }
    {
        self.site.vault.core().is_idle(worker)
    }

    /// The chair is home again, whose worker is idle.
    pub(crate) fn take_in(&mut self, chair: u32, peak: u64)
        requires out { slice_index_or self.old.peaks chair None ≡ Some peak }
        requires idle { (s : State) → StandsFor self.old.vault s → is_idle s chair ≡ true }
        ensures { self.new ≡ come_home self.old chair }
    {
        self.peaks[chair as usize] = None;
        self.out -= peak;
    }

    // ---- plans

    /// Keeps a plan, so that it can be taken as often as wanted.
    pub(crate) fn prepare(
        &mut self,
        accepted: Accepted,
    ) -> Result<Prepared, (Accepted, PrepareError)>
        ensures ok { IfOk result (λ prepared. Prepares self.old accepted prepared self.new) }
        ensures error { IfErr result (λ e. PrepareFails self.old.vault.core accepted e.1) }
        ensures back { IfErr result (λ e. e.0 ≡ accepted) }
        ensures unchanged { OnErr result (self.new ≡ self.old) }
    {
        self.site.vault.prepare(accepted)
    }

    /// Submits the prepared plan, which the chair takes: two events. The chair has to be out with the plan's peak at
    /// least, and idle.
    pub(crate) fn take(&mut self, chair: Chair, prepared: Prepared) -> Response
        ensures takes { is_no result.answer ≡ false → TakesPlan self.old chair prepared result self.new }
        ensures cannot { is_no result.answer ≡ true → CannotTake self.old chair prepared result.answer }
        ensures none { is_no result.answer ≡ true → result.event ≡ None }
        ensures fits { Replies (request.Take chair) result }
        ensures unchanged { is_no result.answer ≡ true → self.new ≡ self.old }
    {
        if !self.may_take(chair.worker(), prepared) {
            return refused(chair, Refusal::Stranger);
        }
        match self.site.vault.submit_prepared(prepared) {
            Ok(_id) => self.site.perform(Request::Take(chair)),
            Err(_error) => refused(chair, Refusal::NotNow(Delay::NothingWaiting)),
        }
    }

    /// Whether the prepared plan is one for the chair, which is idle.
    fn may_take(&self, chair: u32, prepared: Prepared) -> bool
        ensures { (s : State) → StandsFor self.now.vault s → result ≡ may_take self.now chair prepared s }
    {
        let Some(peak) = self.peak_of(chair) else {
            return false;
        };
        let core = self.site.vault.core();
        match core.prepared(prepared) {
            Some(accepted) => accepted.peak() <= peak && core.is_idle(chair),
            None => false,
        }
    }

    // ---- readings

    /// Fixes a page that is cached and latches it S, as [`Vault::read`] does.
    pub(crate) fn read(
        &mut self,
        session: Session,
        page: u32,
    ) -> Result<(Session, ReadGuard, u32), Session>
        ensures exact { (s : State) → StandsFor self.old.vault s → is_ok result ≡ may_read session page s }
        ensures ok { IfOk result (λ now. Reads self.old.vault session page self.new.vault now.0 now.1 now.2) }
        ensures rest { OnOk result (self.new ≡ record self.old {
          vault = self.new.vault;
          counts = record self.old.counts { hits = raised self.old.counts.hits };
        }) }
        ensures back { IfErr result (λ e. e ≡ session) }
        ensures unchanged { OnErr result (self.new ≡ self.old) }
    {
        match self.site.vault.read(session, page) {
            Ok(read) => {
                self.counts.count_hit();
                Ok(read)
            }
            Err(session) => Err(session),
        }
    }

    /// Takes a reader's latch off and gives the page back, as [`Vault::end_read`] does.
    pub(crate) fn end_read(
        &mut self,
        session: Session,
        guard: ReadGuard,
    ) -> Result<(Session, u64), (Session, ReadGuard)>
        ensures exact { (s : State) → StandsFor self.old.vault s → is_ok result ≡ may_end_read session guard s }
        ensures ok { IfOk result (λ now. EndsRead self.old.vault session guard self.new.vault now.0 now.1) }
        ensures rest { OnOk result (self.new ≡ record self.old { vault = self.new.vault }) }
        ensures back { IfErr result (λ e. (e.0 ≡ session) × (e.1 ≡ guard)) }
        ensures unchanged { OnErr result (self.new ≡ self.old) }
    {
        self.site.vault.end_read(session, guard)
    }

    /// How many bytes a page has.
    pub(crate) fn page_bytes(&self) -> usize
        ensures { result ≡ self.now.vault.page_bytes }
    {
        self.site.vault.page_bytes()
    }

    /// The body of the image of a page that is latched S, where it stands.
    pub(crate) fn see(&self, guard: &ReadGuard) -> Option<&[u8]>
        ensures some { (s : State) → StandsFor self.now.vault s → is_some result ≡ may_see guard.now s }
        ensures shown { IfSome result (λ body. ShowsBody self.now.vault guard.now.page body.now) }
    {
        self.site.vault.see(guard)
    }

    // ---- the flusher

    /// How many pages are newer than the device's.
    pub(crate) fn dirty(&self) -> u32
        ensures { (s : State) → StandsFor self.now.vault s → result ≡ dirty_pages s }
    {
        self.site.vault.core().dirty()
    }

    /// How many numbers pages have.
    pub(crate) fn pages(&self) -> u32
        ensures { (page mark : ℕ) → IsDirtyPage self.now.vault page mark → page < result }
    {
        self.known();
        self.site.vault.core().marks().pages()
    }

    /// The mark of the page, if that is newer than the device's.
    pub(crate) fn dirty_mark(&self, page: u32) -> Option<u64>
        ensures { (mark : ℕ) → (result ≡ Some mark) ↔ IsDirtyPage self.now.vault page mark }
    {
        self.known();
        let core = self.site.vault.core();
        if core.marks().is_dirty(page) {
            core.mark(page)
        } else {
            None
        }
    }

    /// The page that is being flushed.
    pub(crate) fn flushing(&self) -> Option<u32>
        ensures { (s : State) → StandsFor self.now.vault s → result ≡ flushed_page s }
    {
        self.site.vault.core().flushing()
    }

    /// Whether a flush is wanted: so many pages at least are newer than the device's, and one of them lets a flush
    /// begin.
    pub(crate) fn is_flush_wanted(&self, from: u32) -> bool
        ensures { (s : State) → StandsFor self.now.vault s → result ≡ is_wanted from s }
    {
        let core = self.site.vault.core();
        from <= core.dirty() && core.dirty_from(0).is_some()
    }
}

impl Site for Seating {
    ghost use Rattle.pp_ledger.specs.Sites.{ShowsPage};
    ghost use Rattle.pp_hall.specs.Seatings.{Performs};

    ghost gives = { λ x request response t. Performs x request response t };

    ghost shows = { λ x guard before shown after. ShowsPage x.vault guard before shown after };

    ghost tells = { λ x most. most ≡ 1 };

    #[inline(always)]
    fn perform(&mut self, request: Request) -> Response {
        let response = self.site.perform(request);
        self.counts.count(response.event);
        response
    }

    #[inline(always)]
    fn look(&mut self, guard: &ReadGuard, bytes: &mut [u8]) -> bool {
        self.site.look(guard, bytes)
    }

    fn most(&mut self) -> u64 {
        1
    }
}

/// The chair comes back.
fn refused(chair: Chair, refusal: Refusal) -> Response
    ensures { result ≡ record { event = None; answer = No (request.Take chair) refusal } }
{
    Response {
        event: None,
        answer: BookAnswer::No(Request::Take(chair), refusal),
    }
}
