//! The site of one call, whose requests may come one after another under one hold of the lock.

ghost use Rattle.std.specs.Prelude.{◌≡◌, Some, None, false};
ghost use Rattle.pp_pool.specs.declared.request.Request.TheVariants.{Take};
ghost use Rattle.pp_pool.specs.Replies.{Replies};
ghost use Rattle.pp_buffer_pool.specs.Sites.{IsGiven, GivesTake, GivesCall, ShowsSome, sleeper_of};

use crate::plan::PreparedPlan;
use crate::pool::BufferPool;
use core::mem;
use pp_device::Device;
use pp_hall::{Hall, Post, Told};
use pp_model::{Event, Move};
use pp_pool::{BookAnswer, Request, Response, Site};
use pp_vault::{Chair, Delay, Prepared, ReadGuard, Refusal, Session};
use pp_wants::Want;
use std::marker::Model;
use std::sync::{MutexGuard, Wait};

/// What a work is shown.
#[derive(Clone, Copy, Debug, PartialEq, Eq)]
pub(crate) enum Shows {
    /// A page, while it is latched and the lock is free.
    Pages,
    /// The same to copy, for which the lock is kept: it is an [`OnCopies`](crate::OnCopies).
    Copies,
}

/// The site of one call of a pool: of a plan, which it takes once, or of a flush, which takes none.
///
/// It keeps the lock after a call, for the next one, until it is let go ([`Site::let_go`]). Before the plan is taken
/// and after it has ended it isn't let go, since no work is called then: so a start and a take, and an end and the way
/// home, are one hold. While it has the lock it takes no other, and calls neither a device nor a caller's work. Whom a hall has
/// told is woken when the lock is let go, and before the site sleeps itself.
///
/// Where the work only copies what it is shown ([`OnCopies`](crate::OnCopies)), the lock is kept while it does: a page is
/// fixed, latched, copied, unlatched and unfixed in one hold. But where two pages are shown one after the other, and the
/// work wasn't asked for a page between, it sees the first of them as it is shown the second. So then the site is let go.
///
/// A page that is cached is fixed and latched S by one call of the hall, and unlatched and unfixed by one
/// ([`Site::read`], [`Site::end_read`]). A request of a worker that has to wait for a page, a frame or a latch sleeps
/// on its chair's bell, for which the lock is let go, and is tried again when somebody rings.
///
/// Contracts see which plan it has still to take. What lies under the lock is in no contract: of what it gives they say
/// that a hall's vault can give it.
///
/// The compiler refuses code that lets it fall: [`ExecuteSite::end`] gives the lock back.
pub(crate) struct ExecuteSite<'a, D, R> {
    rt: &'a R,
    pool: &'a BufferPool<D>,
    // The plan that is still to be taken.
    plan: Option<Prepared>,
    // The most events that the plan makes.
    cost: u64,
    // Whether the plan has ended.
    is_over: bool,
    shows: Shows,
    // Whether the work was asked for a page since one was shown to it last, so that it has none still to see.
    is_caught_up: bool,
    // Whether a page was shown just now which the work copies.
    is_copying: bool,
    held: Option<MutexGuard<'a, Hall<D>>>,
    // Whom the hall has told since somebody was woken last.
    owed: Told,
}

impl<'a, D, R> Model for ExecuteSite<'a, D, R> {
    ghost use Rattle.std.specs.Prelude.{ℕ, Option};

    ghost Value = { Option ℕ };

    ghost view = { λ s. s.plan };
}

impl<'a, D: Device + Drop, R: Wait> ExecuteSite<'a, D, R> {
    /// The site of a call that has this plan to take, under a hold of the lock in which the hall has told these.
    pub(crate) fn over(
        rt: &'a R,
        pool: &'a BufferPool<D>,
        plan: PreparedPlan,
        shows: Shows,
        hall: MutexGuard<'a, Hall<D>>,
        told: Told,
    ) -> ExecuteSite<'a, D, R>
        ensures { result ≡ Some plan.prepared }
    {
        ExecuteSite {
            rt,
            pool,
            plan: Some(plan.prepared),
            cost: plan.cost,
            is_over: false,
            shows,
            is_caught_up: false,
            is_copying: false,
            held: Some(hall),
            owed: told,
        }
    }

    /// The site of a flush, under a hold of the lock.
    pub(crate) fn of_flush(
        rt: &'a R,
        pool: &'a BufferPool<D>,
        hall: MutexGuard<'a, Hall<D>>,
    ) -> ExecuteSite<'a, D, R>
        ensures { result ≡ None }
    {
        ExecuteSite {
            rt,
            pool,
            plan: None,
            cost: 0,
            is_over: false,
            shows: Shows::Pages,
            is_caught_up: false,
            is_copying: false,
            held: Some(hall),
            owed: Told::nobody(),
        }
    }

    /// Ends the call: its worker is brought home, the lock is given back, and all who were told are woken.
    pub(crate) fn end(self, post: Post<D>) {
        let rt = self.rt;
        let pool = self.pool;
        let (hall, owed) = self.into_hold();
        pool.park(rt, hall, post, owed);
    }

    /// The lock, as it is held or taken now, and who is to be woken.
    pub(crate) fn into_hold(self) -> (MutexGuard<'a, Hall<D>>, Told) {
        let ExecuteSite {
            rt,
            pool,
            plan: _,
            cost: _,
            is_over: _,
            shows: _,
            is_caught_up: _,
            is_copying: _,
            held,
            owed,
        } = self;
        match held {
            Some(hall) => (hall, owed),
            None => (pool.hold(rt), owed),
        }
    }

    /// The lock, out of its place: as it is held, or taken now.
    #[inline(always)]
    fn hold(&mut self) -> MutexGuard<'a, Hall<D>>
        ensures { self.new ≡ self.old }
    {
        match self.held.take() {
            Some(hall) => hall,
            None => self.pool.hold(self.rt),
        }
    }

    /// Notes that the hall has told these too.
    #[inline(always)]
    fn owe(&mut self, told: Told)
        ensures { self.new ≡ self.old }
    {
        mem::replace_with(&mut self.owed, told, |owed, told| (owed.and(told), ()));
    }

    /// Who is to be woken, and nobody from now on.
    #[inline(always)]
    fn owed(&mut self) -> Told
        ensures { self.new ≡ self.old }
    {
        mem::replace(&mut self.owed, Told::nobody())
    }

    /// Has the plan submitted and taken, in one step. Where there is none it is refused, as a book refuses that in
    /// which no plan waits.
    #[tactic(auto, using(crate::proofs::Taking::take_given))]
    fn take(&mut self, chair: Chair) -> Response
        ensures given { GivesTake self.old chair result }
        ensures fits { Replies (Take chair) result }
        ensures none { self.new ≡ None }
    {
        let Some(prepared) = self.plan.take() else {
            let refusal = Refusal::NotNow(Delay::NothingWaiting);
            return Response {
                event: None,
                answer: BookAnswer::No(Request::Take(chair), refusal),
            };
        };
        let mut hall = self.hold();
        hall.known();
        let (response, told) = hall.take(chair, prepared);
        self.owe(told);
        self.held = Some(hall);
        response
    }

    /// Performs a request, once it is possible.
    #[inline(always)]
    fn perform_later(&mut self, request: Request) -> Response
        ensures given { IsGiven request result }
        ensures plan { self.new ≡ self.old }
    {
        self.is_caught_up = self.is_caught_up || is_fix(&request);
        let hall = self.hold();
        let owed = self.owed();
        let (response, hall, owed) = self.pool.perform_under(self.rt, request, hall, owed);
        self.owe(owed);
        if ends_plan(response.event) {
            self.is_over = true;
        }
        self.held = Some(hall);
        response
    }
}

impl<'a, D: Device + Drop, R: Wait> Site for ExecuteSite<'a, D, R> {
    ghost use Rattle.pp_buffer_pool.specs.Sites.{GivesCall, ShowsSome};

    ghost gives = { λ s request response t. GivesCall s request response t };

    ghost shows = { λ s guard before shown after. ShowsSome guard before shown after };

    // The number is only for how many events there is to be memory.
    ghost tells = { λ s most. Unit {0} };

    #[tactic(auto, using(crate::proofs::Taking::other_given))]
    #[inline(always)]
    fn perform(&mut self, request: Request) -> Response {
        match request {
            Request::Take(chair) => self.take(chair),
            request => self.perform_later(request),
        }
    }

    #[inline(always)]
    fn look(&mut self, guard: &ReadGuard, bytes: &mut [u8]) -> bool {
        let mut hall = self.hold();
        hall.known();
        let is_shown = hall.look(guard, bytes);
        self.held = Some(hall);
        self.is_copying = is_shown && self.shows == Shows::Copies && self.is_caught_up;
        self.is_caught_up = false;
        is_shown
    }

    fn most(&mut self) -> u64 {
        self.cost
    }

    #[inline(always)]
    fn let_go(&mut self) {
        if self.plan.is_some() || self.is_over {
            return;
        }
        if self.is_copying {
            self.is_copying = false;
            return;
        }
        if let Some(hall) = self.held.take() {
            let owed = self.owed();
            self.pool.give_back(hall, owed);
        }
    }

    #[tactic(auto, using(crate::proofs::Reading::read_given))]
    #[inline(always)]
    fn read(&mut self, session: Session, page: u32) -> Result<(Session, ReadGuard, u32), Session> {
        let mut hall = self.hold();
        hall.known();
        match hall.read(session, page) {
            Ok((session, guard, frame, told)) => {
                self.owe(told);
                self.held = Some(hall);
                self.is_caught_up = true;
                Ok((session, guard, frame))
            }
            Err(session) => {
                self.held = Some(hall);
                Err(session)
            }
        }
    }

    #[tactic(auto, using(crate::proofs::Reading::end_given))]
    #[inline(always)]
    fn end_read(
        &mut self,
        session: Session,
        guard: ReadGuard,
    ) -> Result<(Session, u64), (Session, ReadGuard)> {
        let mut hall = self.hold();
        hall.known();
        match hall.end_read(session, guard) {
            Ok((session, mark, told)) => {
                self.owe(told);
                self.held = Some(hall);
                Ok((session, mark))
            }
            Err(tokens) => {
                self.held = Some(hall);
                Err(tokens)
            }
        }
    }
}

impl<D: Device + Drop> BufferPool<D> {
    /// Performs a request under a hold of the lock, which comes back, with whom the hall has told. What has to wait for
    /// a page, a frame or a latch sleeps meanwhile, for which the lock is let go; before, whoever was told is woken.
    #[tactic(auto, using(crate::proofs::Taking::performed))]
    pub(crate) fn perform_under<'p, R: Wait>(
        &'p self,
        rt: &R,
        request: Request,
        hall: MutexGuard<'p, Hall<D>>,
        owed: Told,
    ) -> (Response, MutexGuard<'p, Hall<D>>, Told)
        ensures { IsGiven request result.0 }
    {
        let mut request = request;
        let mut hall = hall;
        let mut owed = owed;
        for _ in rt.forever() {
            hall.known();
            let (Response { event, answer }, told) = hall.perform(request);
            let now = owed.and(told);
            match answer {
                BookAnswer::No(back, refusal) => match sleeper(&back, refusal) {
                    None => {
                        let answer = BookAnswer::No(back, refusal);
                        return (Response { event, answer }, hall, now);
                    }
                    Some(chair) => {
                        request = back;
                        self.bells.ring(now);
                        owed = Told::nobody();
                        hall = self.bells.sleep_at_chair(rt, hall, chair);
                    }
                },
                answer => return (Response { event, answer }, hall, now),
            }
        }
        unreachable!()
    }
}

/// The chair whose thread sleeps, where a request was refused so; none where nobody does. A hall notes the same ones as
/// asleep.
fn sleeper(request: &Request, refusal: Refusal) -> Option<u32>
    ensures { result ≡ sleeper_of request.now refusal }
{
    match refusal {
        Refusal::NotNow(_) => {}
        _ => return None,
    }
    Want::of(request)?;
    match request {
        Request::Fix(session, _) => Some(session.worker()),
        Request::Join(session, _) => Some(session.worker()),
        Request::LatchShared(session, _) => Some(session.worker()),
        Request::LatchExclusive(session, _) => Some(session.worker()),
        _ => None,
    }
}

/// Whether the request is of a page that the work has named for it.
fn is_fix(request: &Request) -> bool {
    matches!(request, Request::Fix(_, _) | Request::Join(_, _))
}

/// Whether the event is a plan's end.
fn ends_plan(event: Option<Event>) -> bool {
    matches!(
        event,
        Some(Event::Step {
            did: Move::Finish { .. },
            ..
        })
    )
}
