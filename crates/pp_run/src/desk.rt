//! What the threads of a run share: its book, with the tokens that no thread has in hand.

ghost use Rattle.std.specs.Prelude.{◌≡◌, true, false, Some, IfSome, IfErr, length, take, drop};
ghost use Rattle.std.specs.Coded.{Coded-set, coded_list};
ghost use Rattle.std.specs.List.{list_all};
ghost use Rattle.pp_cert.specs.Accepted.{coded_acceptance};
ghost use Rattle.pp_device.specs.Image.{head_of};
ghost use Rattle.pp_outset.specs.Coding.{coded_outset};
ghost use Rattle.pp_vault.specs.Parts as vaults;
ghost use Rattle.pp_vault.specs.Stages.{stage_worker};
ghost use Rattle.pp_pool.specs.Parts.{settings_of, plans_of};
ghost use Rattle.pp_report.specs.Reports.{is_move};
ghost use Rattle.pp_run.specs.Runs.{submits, coded_events};

use pp_model::{Event, Reply};
use pp_pool::{Book, OwnSite, Request, Response, Site};
use pp_settings::Layout;
use pp_vault::{Flushing, Hand, Hands, ReadGuard, Session, Vault};
use std::marker::{Brand, PhantomData};
use std::sync::atomic::{AtomicU64, Ordering};

/// A book with the tokens that nobody has in hand.
///
/// Threads know the book that they share by these calls alone. Each desk says of what vault it tells, by `lends`.
pub trait Desk: Site {
    ghost lends: { Self → vaults.Parts };

    /// The vault of the book, to be asked who of those that wait may go.
    fn vault(&self) -> &Vault
        ensures { result.now ≡ lends self.now };

    /// What each worker wants of the settings: where the regions lie, and how many bytes a page has.
    fn pages(&self) -> (Layout, u32);

    /// Takes the worker's hand out, where it is there.
    fn part(&mut self, worker: u32) -> Option<Hand>
        ensures { IfSome result (λ hand. stage_worker hand.stage ≡ Some worker) };

    /// Puts a worker's hand back.
    ///
    /// # Errors
    ///
    /// The hand, where its place isn't empty.
    fn join(&mut self, hand: Hand) -> Result<(), Hand>
        ensures { IfErr result (λ back. back ≡ hand) };

    /// Puts the flush in hand back.
    ///
    /// # Errors
    ///
    /// The flush, where there is another.
    fn join_flush(&mut self, flushing: Flushing) -> Result<(), Flushing>
        ensures { IfErr result (λ back. back ≡ flushing) };
}

/// Whose journal a run's book has: of these settings, of these plans, which were all submitted, and of a life that began with
/// this outset; and how many bytes its pages have. Each run picks it.
pub(crate) trait Naming {
    ghost use Rattle.std.specs.Prelude.{ℕ, List};
    ghost use Rattle.pp_cert.specs.Accepted.{Acceptance};
    ghost use Rattle.pp_model.specs.Pool.{Settings};
    ghost use Rattle.pp_outset.specs.Outsets.{Outset};

    ghost settings: { Settings };

    ghost plans: { List Acceptance };

    ghost outset: { Outset };

    ghost page_bytes: { ℕ };
}

/// The book of a run, of these settings, plans, outset and bytes of a page, with its tokens. It counts the plans that end. Its journal begins with
/// the submits of all plans, and each event behind these is a move.
///
/// The compiler refuses code that lets it fall.
pub(crate) struct RunDesk<'a, N: Naming> {
    site: OwnSite,
    hands: Hands,
    pages: (Layout, u32),
    of: PhantomData<N>,
    finished: &'a AtomicU64,
    ghost settings: { settings_of site.book ≡ N.settings },
    ghost plans: { plans_of site.book ≡ N.plans } by { Coded-set (coded_list coded_acceptance) (plans_of site.book) N.plans },
    ghost outset: { site.book.began ≡ N.outset } by { Coded-set coded_outset site.book.began N.outset },
    ghost page_bytes: { site.book.vault.page_bytes ≡ N.page_bytes },
    ghost begun: { take (length N.plans) site.book.journal ≡ submits 0 (length N.plans) } by { Coded-set coded_events (take (length N.plans) site.book.journal) (submits 0 (length N.plans)) },
    ghost moving: { list_all is_move (drop (length N.plans) site.book.journal) ≡ true },
}

impl<'a, N: Naming> RunDesk<'a, N> {
    /// A book with the tokens of its vault, and where the plans that end are counted.
    pub(crate) fn new(
        book: Book,
        hands: Hands,
        pages: &(Layout, u32),
        finished: &'a AtomicU64,
    ) -> RunDesk<'a, N>
        requires settings { settings_of book ≡ N.settings }
        requires plans { plans_of book ≡ N.plans }
        requires outset { book.began ≡ N.outset }
        requires page_bytes { book.vault.page_bytes ≡ N.page_bytes }
        requires journal { book.journal ≡ submits 0 (length N.plans) }
    {
        RunDesk {
            site: OwnSite { book },
            hands,
            pages: *pages,
            of: PhantomData,
            finished,
        }
    }

    /// The book and the tokens.
    pub(crate) fn into_parts(self) -> (Book, Hands)
        ensures settings { settings_of result.0 ≡ N.settings }
        ensures plans { plans_of result.0 ≡ N.plans }
        ensures outset { result.0.began ≡ N.outset }
        ensures page_bytes { result.0.vault.page_bytes ≡ N.page_bytes }
        ensures submits { take (length N.plans) result.0.journal ≡ submits 0 (length N.plans) }
        ensures moves { list_all is_move (drop (length N.plans) result.0.journal) ≡ true }
    {
        let RunDesk {
            site: OwnSite { book },
            hands,
            pages: _,
            of: _,
            finished: _,
        } = self;
        (book, hands)
    }
}

impl<'a, N: Naming> Site for RunDesk<'a, N> {
    ghost use Rattle.pp_pool.specs.Performs.{Performs};
    ghost use Rattle.pp_pool.specs.Books.{greatest_cost};
    ghost use Rattle.pp_pool.specs.Fronts.{ShowsPage};

    ghost gives = { λ s request response t. Performs s.site.book request response t.site.book };

    ghost shows = { λ s guard before shown after. ShowsPage s.site.book guard before shown after };

    ghost tells = { λ s most. most ≡ greatest_cost N.plans };

    #[inline(always)]
    fn perform(&mut self, request: Request) -> Response {
        let response = self.site.perform(request);
        if ends_plan(response.event.as_ref()) {
            self.finished.fetch_add(1, Ordering::SeqCst);
        }
        response
    }

    #[inline(always)]
    fn look(&mut self, guard: &ReadGuard, bytes: &mut [u8]) -> bool {
        self.site.look(guard, bytes)
    }

    fn most(&mut self) -> u64 {
        self.site.most()
    }

    #[inline(always)]
    fn read(&mut self, session: Session, page: u32) -> Result<(Session, ReadGuard, u32), Session> {
        self.site.read(session, page)
    }

    #[inline(always)]
    fn end_read(
        &mut self,
        session: Session,
        guard: ReadGuard,
    ) -> Result<(Session, u64), (Session, ReadGuard)> {
        self.site.end_read(session, guard)
    }
}

impl<'a, N: Naming> Desk for RunDesk<'a, N> {
    ghost lends = { λ s. s.site.book.vault };

    #[inline(always)]
    fn vault(&self) -> &Vault {
        self.site.book.vault()
    }

    fn pages(&self) -> (Layout, u32) {
        self.pages
    }

    fn part(&mut self, worker: u32) -> Option<Hand> {
        self.hands.part(worker)
    }

    fn join(&mut self, hand: Hand) -> Result<(), Hand> {
        self.hands.join(hand)
    }

    fn join_flush(&mut self, flushing: Flushing) -> Result<(), Flushing> {
        if self.hands.flushing.is_some() {
            return Err(flushing);
        }
        match self.hands.flushing.replace(flushing) {
            None => Ok(()),
            Some(other) => Err(other),
        }
    }
}

/// Whether a plan ended by the event.
fn ends_plan(event: Option<&Event>) -> bool {
    matches!(
        event,
        Some(Event::Step {
            reply: Reply::Finished(_),
            ..
        })
    )
}

impl Naming for Brand {
    ghost use Rattle.std.specs.Prelude.{[]};
    ghost use Rattle.pp_run.specs.Runs.{no_settings};
    ghost use Rattle.pp_outset.specs.Outsets.{new_outset};

    ghost settings = { no_settings };

    ghost plans = { [] };

    ghost outset = { new_outset no_settings };

    ghost page_bytes = { 0 };
}
