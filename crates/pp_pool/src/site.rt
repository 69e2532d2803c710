//! Where workers and the flusher ask.

ghost use Rattle.std.specs.Prelude.{◌≡◌, ◌≤◌, ◌-◌, ◌&&◌, nat_le, ℕ, Bool, List, true, false, length, take, IfOk, IfErr, OnErr};
ghost use Rattle.pp_device.specs.Image.{head_of, body_of};
ghost use Rattle.pp_vault.specs.declared.guards.ReadGuard.{ReadGuard};
ghost use Rattle.pp_pool.specs.declared.request.Request.{Request};
ghost use Rattle.pp_pool.specs.declared.response.Response.{Response};
ghost use Rattle.pp_pool.specs.Replies.{Replies};
ghost use Rattle.pp_pool.specs.Readings.{ReadsBy, EndsReadBy};

use crate::book::Book;
use crate::request::Request;
use crate::response::Response;
use pp_device::image;
use pp_device::image::HEAD;
use pp_settings::limits::FEWEST_PAGE_BYTES;
use pp_vault::{ReadGuard, Session};

/// How many bytes of an image a work is shown at least: as many as every page has.
pub(crate) const SHORTEST: usize = FEWEST_PAGE_BYTES as usize;

/// Performs requests on a book: its own, or one that it shares with others.
///
/// Each site says what it gives by a relation of its own, `gives`: from the site as it was, with this request, this
/// response, and the site as it is then. Of every response a caller knows that it fits its request (`Replies`): there is
/// an event exactly where the answer is no refusal, it is of the request's move, the tokens are of the request's
/// worker, and what is refused comes back.
///
/// Two more relations say what it answers without an event: `shows`, whether it shows the page of this guard, with the
/// slice before and after, and `tells`, which number it takes for the greatest cost of a submitted plan.
pub trait Site {
    ghost gives: { Self → Request → Response → Self → Type 0 };

    ghost shows: { Self → ReadGuard → (before : List ℕ) → (shown : Bool) → (after : List ℕ) → Type 0 };

    ghost tells: { Self → (most : ℕ) → Type 0 };

    /// Performs the request, as [`Book::perform`] does. A shared site may wait before.
    fn perform(&mut self, request: Request) -> Response
        ensures given { gives self.old request result self.new }
        ensures fits { Replies request result };

    /// Fills the slice with the front of the image of a page that is latched S: the guard's page and mark, and then the body,
    /// as far as the slice goes. Tells whether it did. It did not, and the slice is as it was, where the guard isn't one of
    /// this state, or the slice has fewer than 64 bytes or more than a page.
    fn look(&mut self, guard: &ReadGuard, bytes: &mut [u8]) -> bool
        ensures given { shows self.old guard.now bytes.old result bytes.new }
        ensures shown { result ≡ true → (head_of bytes.new).0 ≡ guard.now.page }
        ensures long { result ≡ true → 64 ≤ length bytes.new }
        ensures unchanged { result ≡ false → bytes.new ≡ bytes.old }
        ensures same { self.new ≡ self.old };

    /// The greatest cost of a submitted plan, as [`Book::most`] tells it.
    fn most(&mut self) -> u64
        ensures given { tells self.old result }
        ensures same { self.new ≡ self.old };

    /// Tells that no call of this site comes next, but something that is the caller's own or takes time. A shared site that
    /// kept its lock for the caller's next call lets it go. A site that keeps nothing does nothing.
    fn let_go(&mut self)
        ensures same { self.new ≡ self.old }
    {}

    /// Fixes a page that is cached into the slot that the session's plan names, and latches it S, where both are possible at once:
    /// what [`Site::perform`] does for [`Request::Fix`] and then for [`Request::LatchShared`], without a request and a response.
    /// Answers the tokens and the page's frame, which the reply of the fix tells; the guard has the mark, which both replies tell.
    /// A site may leave this to `perform`.
    ///
    /// # Errors
    ///
    /// The session, where the two aren't possible at once, or are left to `perform`. Nothing has changed.
    fn read(&mut self, session: Session, _page: u32) -> Result<(Session, ReadGuard, u32), Session>
        ensures given { IfOk result (λ now. ReadsBy gives self.old session _page self.new now.0 now.1 now.2) }
        ensures back { IfErr result (λ e. e ≡ session) }
        ensures same { OnErr result (self.new ≡ self.old) }
    {
        Err(session)
    }

    /// Takes a reader's latch off and gives the page back so: what `perform` does for [`Request::UnlatchShared`] and then for
    /// [`Request::Unfix`]. Answers the session and the mark, which the reply of the unlatch tells.
    ///
    /// # Errors
    ///
    /// The tokens, where the plan doesn't ask both, or they are left to `perform`. Nothing has changed.
    fn end_read(
        &mut self,
        session: Session,
        guard: ReadGuard,
    ) -> Result<(Session, u64), (Session, ReadGuard)>
        ensures given { IfOk result (λ now. EndsReadBy gives self.old session guard self.new now.0 now.1) }
        ensures back { IfErr result (λ e. e ≡ (session, guard)) }
        ensures same { OnErr result (self.new ≡ self.old) }
    {
        Err((session, guard))
    }
}

/// Copies the front of the image that has this head and this body into the slice, as far as the slice goes, where that is
/// 64 bytes at least and no more than the image has. Tells whether it did; else the slice is as it was. With it a site of a
/// vault shows what [`Vault::see`](pp_vault::Vault::see) lends.
#[inline(always)]
pub fn copy_front(page: u32, mark: u64, body: &[u8], bytes: &mut [u8]) -> bool
    ensures result { result ≡ (nat_le 64 (length bytes.old) && nat_le (length bytes.old - HEAD) (length body.now)) }
    ensures head { result ≡ true → head_of bytes.new ≡ (page, mark) }
    ensures body { result ≡ true → body_of bytes.new ≡ take (length bytes.old - HEAD) body.now }
    ensures long { result ≡ true → 64 ≤ length bytes.new }
    ensures length { length bytes.new ≡ length bytes.old }
    ensures unchanged { result ≡ false → bytes.new ≡ bytes.old }
{
    if bytes.len() < SHORTEST || bytes.len() - HEAD > body.len() {
        return false;
    }
    let front = bytes.len() - HEAD;
    bytes[HEAD..].copy_from_slice(&body[..front]);
    image::make(bytes, page, mark);
    true
}

/// A site for one thread. It has a book of its own, and answers at once.
#[derive(Drop)]
pub struct OwnSite {
    pub book: Book,
}

impl Site for OwnSite {
    ghost use Rattle.pp_pool.specs.Performs.{Performs};
    ghost use Rattle.pp_pool.specs.Parts.{plans_of};
    ghost use Rattle.pp_pool.specs.Books.{greatest_cost};
    ghost use Rattle.pp_pool.specs.Fronts.{ShowsPage};

    // The book's event and its answer, from the state that its journal leads to.
    ghost gives = { λ s request response t. Performs s.book request response t.book };

    // The front of the page's image, exactly where the guard is one of that state and the slice has 64 bytes at least and no
    // more than a page has.
    ghost shows = { λ s guard before shown after. ShowsPage s.book guard before shown after };

    ghost tells = { λ s most. most ≡ greatest_cost (plans_of s.book) };

    #[inline(always)]
    fn perform(&mut self, request: Request) -> Response {
        self.book.perform(request)
    }

    #[tactic(auto, using(crate::proofs::Looking::no_page))]
    #[inline(always)]
    fn look(&mut self, guard: &ReadGuard, bytes: &mut [u8]) -> bool {
        self.book.known();
        match self.book.see(guard) {
            Some(body) => copy_front(guard.page(), guard.mark(), body, bytes),
            None => false,
        }
    }

    fn most(&mut self) -> u64 {
        self.book.most()
    }

    #[inline(always)]
    fn read(&mut self, session: Session, page: u32) -> Result<(Session, ReadGuard, u32), Session> {
        self.book.read(session, page)
    }

    #[inline(always)]
    fn end_read(
        &mut self,
        session: Session,
        guard: ReadGuard,
    ) -> Result<(Session, u64), (Session, ReadGuard)> {
        self.book.end_read(session, guard)
    }
}
