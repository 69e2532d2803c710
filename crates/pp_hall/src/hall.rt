//! The hall.

ghost use Rattle.std.specs.Prelude.{◌≡◌, ◌+◌, ◌<◌, ◌≤◌, ◌&&◌, not, true, false, None, Some, is_ok, is_some, is_none};
ghost use Rattle.std.specs.Prelude.{count_by, IfOk, IfErr, IfSome, OnOk, OnErr, vec_len, length, min, ◌^◌, ◌-◌};
ghost use Rattle.pp_core.specs.Submits.{PrepareFails};
ghost use Rattle.pp_model.specs.Pool.{State, dirty_pages};
ghost use Rattle.pp_device.specs.Image.{head_of};
ghost use Rattle.pp_vault.specs.Headline.{Holds};
ghost use Rattle.pp_vault.specs.Looks.{may_see, ShowsBody};
ghost use Rattle.pp_vault.specs.Reads.{may_read, may_end_read};
ghost use Rattle.pp_vault.specs.StandsFor.{StandsFor};
ghost use Rattle.pp_vault.specs.Stages.{stage_worker};
ghost use Rattle.pp_pool.specs.declared.request.Request.TheVariants as request;
ghost use Rattle.pp_pool.specs.Performing.{is_no};
ghost use Rattle.pp_pool.specs.Replies.{Replies};
ghost use Rattle.pp_ledger.specs.Sites.{ShowsPage};
ghost use Rattle.pp_hall.specs.declared.error.OpenError.TheVariants.{OutOfMemory};
ghost use Rattle.pp_hall.specs.Seatings.{NoPlanWaits, pages_out, is_wanted};
ghost use Rattle.pp_hall.specs.Halls.{IsHall};
ghost use Rattle.pp_hall.specs.Closing.{IsClean};
ghost use Rattle.pp_hall.specs.Calls.{Prepares, one_more, StartIs, Leaves, TakeIs, Performs, Rises, Reads, EndsRead};
ghost use Rattle.pp_hall.specs.Calls.{open_fault, OpenFails, IsFresh, EnterFails, is_out, Parks, with_flusher};
ghost use Rattle.pp_hall.specs.Calls.{with_flusher_asleep, Stops, StatsAre};

use crate::asker::asker;
use crate::counts::Stats;
use crate::error::{EnterError, OpenError};
use crate::policy::Policy;
use crate::posts::{Post, Posts};
use crate::seating::Seating;
use crate::told::Told;
use crate::waiters::Waiters;
use pp_admission::Ticket;
use pp_core::{PrepareError, Prepared};
use pp_device::Device;
use pp_pool::{Flusher, Request, Response, Site};
use pp_settings::Settings;
use pp_vault::{Accepted, Chair, ReadGuard, Session, Stage};
use pp_wants::Want;
use std::alloc::Global;
use std::marker::Model;

/// What one that wants to start is answered.
pub enum Started<D> {
    /// It starts: the worker of a chair that was home. It comes back by [`Hall::park`].
    Takes(Post<D>, Told),
    /// It may not start yet, and sleeps until it is told.
    Waits(Told),
    /// Nobody starts any more, and it has left the queue.
    Stopped(Told),
}

/// What is left of a hall that was closed.
#[derive(Drop)]
pub struct Closed<D> {
    /// The devices of the workers, in order, and the flusher's last.
    pub devices: Vec<D>,
    /// What was counted.
    pub stats: Stats,
}

/// A buffer pool that stands, without the lock under which it is shared.
///
/// It has a vault with an endless life ([`pp_vault::Vault`]), and a *chair* for each worker of its settings, 32 at
/// most. Home is a chair whose worker is parked here, idle, with its device. Who wants a plan run comes to the queue
/// ([`Hall::enter`]), and starts when it may ([`Hall::start`]): then it has the worker of a chair, makes its requests
/// ([`Hall::take`], [`Hall::perform`]), and brings it back ([`Hall::park`]). A chair that is out has room for plans of
/// the peak with which it started, and the peaks of those that are out come to at most the frames.
///
/// Contracts see it as the record `Parts`. Of every hall `IsHall` holds: no plan waits in its vault, the peaks fit, and
/// **no wake-up is lost**. A thread sleeps untold only while what it wants isn't possible, or while another that was
/// told of the same thing is on its way. Where a chair is home, the next that may start isn't asleep. The flusher
/// sleeps only while no flush is wanted. So each call answers whom it has told ([`Told`]), and they have to be woken.
///
/// That the state of its vault is reached, and the headline of it, is the vault's own fact ([`Hall::known`]).
///
/// No call but [`Hall::open`] takes memory; a plan that is prepared has its own. The compiler refuses code that lets a
/// hall fall: [`Hall::close`] gives it up, or [`Hall::abandon`], which writes nothing.
pub struct Hall<D> {
    pub(crate) seating: Seating,
    pub(crate) waiters: Waiters,
    pub(crate) posts: Posts<D>,
    pub(crate) policy: Policy,
}

impl<D> Model for Hall<D> {
    ghost use Rattle.pp_hall.specs.Halls.{Parts};
    ghost use Rattle.std.specs.Coded.{codes};
    ghost use Rattle.pp_hall.specs.Coding.{coded_seating};

    ghost Value = { Parts };

    ghost coded = { Prim.hlevel (codes, coded_seating) };

    ghost use Rattle.pp_hall.specs.Halls.{IsKept};

    ghost view = { λ h. record { seating = h.seating; waiters = h.waiters; posts = h.posts; policy = h.policy } };

    ghost invariant = { λ h. IsKept (record {
      seating = h.seating;
      waiters = h.waiters;
      posts = h.posts;
      policy = h.policy;
    }) };
}

impl<D: Device + Drop> Hall<D> {
    /// A hall with these settings, in which nothing was done yet: each chair is home, with a worker over one of the
    /// devices, and so is the flusher, over the last one. It gets all memory that the pool ever needs, but for what a
    /// worker gets when it takes its first plan, or a dearer one.
    ///
    /// # Errors
    ///
    /// The devices come back, with the first fault of the settings ([`OpenError::of`]), or else with
    /// [`OpenError::OutOfMemory`].
    pub fn open(
        alloc: Global,
        settings: &Settings,
        policy: Policy,
        devices: Vec<D>,
    ) -> Result<Hall<D>, (OpenError, Vec<D>)>
        ensures fresh { IfOk result (λ hall. IsFresh settings.now policy hall) }
        ensures fits { OnOk result (open_fault settings.now (vec_len devices) ≡ None) }
        ensures error { IfErr result (λ e. OpenFails settings.now (vec_len devices) e.0) }
        ensures back { IfErr result (λ e. e.1 ≡ devices) }
    {
        match OpenError::of(settings, devices.len()) {
            Some(error) => Err((error, devices)),
            None => opened(alloc, settings, policy, devices),
        }
    }

    /// Does nothing. It tells what holds of every hall, and that the headline holds of each state that its vault stands
    /// for.
    pub fn known(&self)
        ensures hall { IsHall self.now }
        ensures straight { NoPlanWaits self.now.seating.vault }
        ensures holds { Holds self.now.seating.vault }
    {
        self.seating.known();
        self.waiters.known();
    }

    /// How many frames there are.
    pub fn frames(&self) -> u64
        ensures { result ≡ self.now.seating.frames }
    {
        self.seating.frames()
    }

    /// Keeps a plan, so that it can be taken as often as wanted.
    ///
    /// # Errors
    ///
    /// As [`pp_vault::Vault::prepare`]'s. The plan comes back, and nothing has changed.
    pub fn prepare(
        &mut self,
        accepted: Accepted,
    ) -> Result<(Prepared, Told), (Accepted, PrepareError)>
        ensures ok { IfOk result (λ now. Prepares self.old accepted now.0 now.1 self.new) }
        ensures error { IfErr result (λ e. PrepareFails self.old.seating.vault.core accepted e.1) }
        ensures back { IfErr result (λ e. e.0 ≡ accepted) }
        ensures unchanged { OnErr result (self.new ≡ self.old) }
    {
        match self.seating.prepare(accepted) {
            Ok(prepared) => {
                let told = self.waiters.settle(&self.seating, self.policy.flush_from);
                Ok((prepared, told))
            }
            Err(refused) => Err(refused),
        }
    }

    // ---- who starts

    /// Lets one come to the queue, behind all others, who wants a plan run that holds so many pages at once. A peak of
    /// no page counts as one.
    ///
    /// # Errors
    ///
    /// Nothing has changed. [`EnterError::Stopped`] where nobody starts any more, else [`EnterError::TooLarge`] where
    /// there aren't so many frames, else [`EnterError::Full`] where as many wait as may.
    pub fn enter(&mut self, peak: u64) -> Result<Ticket, EnterError>
        ensures ticket { IfOk result (λ ticket. ticket ≡ self.old.waiters.queue.next) }
        ensures entered { OnOk result (self.new ≡ one_more self.old peak) }
        ensures error { IfErr result (EnterFails self.old peak) }
        ensures unchanged { OnErr result (self.new ≡ self.old) }
    {
        if self.waiters.is_stopped() {
            return Err(EnterError::Stopped);
        }
        if self.seating.frames() < peak {
            return Err(EnterError::TooLarge);
        }
        match self.waiters.enter(peak) {
            Ok(ticket) => Ok(ticket),
            Err(_) => Err(EnterError::Full),
        }
    }

    /// Lets the one with this ticket start, if it may: a chair is home, and it is the one that may start in the frames
    /// that are free (`next_in`). Then it has left the queue, and the chair is out with its peak. Else it sleeps, and
    /// wasn't told. But once nobody starts any more, it leaves the queue.
    pub fn start(&mut self, ticket: Ticket) -> Started<D>
        ensures { StartIs self.old ticket result self.new }
    {
        if self.waiters.is_stopped() {
            self.waiters.leave(ticket);
            return Started::Stopped(self.waiters.settle(&self.seating, self.policy.flush_from));
        }
        let Some(peak) = self.waiters.start(ticket, &self.seating) else {
            return Started::Waits(self.waiters.settle(&self.seating, self.policy.flush_from));
        };
        let Some(chair) = self.seating.first_home() else {
            unreachable!();
        };
        self.seating.send_out(chair, peak);
        let Some(post) = self.posts.take(chair) else {
            unreachable!();
        };
        let told = self.waiters.settle(&self.seating, self.policy.flush_from);
        Started::Takes(post, told)
    }

    /// The one with this ticket leaves the queue, wherever it stands.
    pub fn leave(&mut self, ticket: Ticket) -> Told
        ensures { Leaves self.old ticket result self.new }
    {
        self.waiters.leave(ticket);
        self.waiters.settle(&self.seating, self.policy.flush_from)
    }

    /// A worker comes home. Where it isn't idle, as after a slip of its host, it is kept, but its chair stays out.
    ///
    /// # Errors
    ///
    /// The worker, exactly where its chair isn't out of this hall. Nothing has changed.
    pub fn park(&mut self, post: Post<D>) -> Result<Told, Post<D>>
        ensures exact { is_ok result ≡ is_out self.old (stage_worker post.hand.stage) }
        ensures ok { IfOk result (λ told. Parks self.old post.hand.stage told self.new) }
        ensures back { IfErr result (λ e. e ≡ post) }
        ensures unchanged { OnErr result (self.new ≡ self.old) }
    {
        let Some(chair) = post.hand.worker() else {
            return Err(post);
        };
        let Some(peak) = self.seating.peak_of(chair) else {
            return Err(post);
        };
        let is_idle = matches!(&post.hand.stage, Stage::Idle(_)) && self.seating.is_idle(chair);
        match self.posts.put(chair, post) {
            Ok(()) => {}
            Err(post) => return Err(post),
        }
        if !is_idle {
            return Ok(self.waiters.settle(&self.seating, self.policy.flush_from));
        }
        self.seating.take_in(chair, peak);
        let told = self.waiters.settle(&self.seating, self.policy.flush_from);
        Ok(told)
    }

    // ---- what workers ask

    /// An idle worker takes the prepared plan: it is submitted and taken in one call, two events. The chair has to be
    /// out with the plan's peak at least. So it isn't refused for want of room, and no other plan waits before or
    /// after.
    ///
    /// The answer is a refusal, and nothing was done, where the plan isn't one for the chair
    /// ([`pp_vault::Refusal::Stranger`]), or the life may have no further plan
    /// ([`Delay::NothingWaiting`](pp_vault::Delay)).
    pub fn take(&mut self, chair: Chair, prepared: Prepared) -> (Response, Told)
        ensures is { TakeIs (is_no result.0.answer) self.old chair prepared result.0 result.1 self.new }
        ensures fits { Replies (request.Take chair) result.0 }
    {
        let response = self.seating.take(chair, prepared);
        let told = self.waiters.settle(&self.seating, self.policy.flush_from);
        (response, told)
    }

    /// Makes the request's call of the vault, as a [`pp_ledger::VaultSite`] does. Its worker doesn't sleep any more;
    /// but where a fix or a latch isn't possible now, it sleeps with that want, and its thread waits until it is told.
    /// Then it asks again.
    pub fn perform(&mut self, request: Request) -> (Response, Told)
        ensures is { Performs self.old request result.0 result.1 self.new }
        ensures fits { Replies request result.0 }
    {
        let (worker, want) = (asker(&request), Want::of(&request));
        let response = self.seating.perform(request);
        self.waiters.note(worker, want, &response.answer);
        let told = self.waiters.settle(&self.seating, self.policy.flush_from);
        (response, told)
    }

    /// A worker's thread doesn't sleep any more, and doesn't ask again now.
    pub fn rise(&mut self, worker: u32) -> Told
        ensures { Rises self.old worker result self.new }
    {
        self.waiters.rise(worker);
        self.waiters.settle(&self.seating, self.policy.flush_from)
    }

    /// Fixes a page that is cached and latches it S, where both are possible at once, as [`pp_vault::Vault::read`]
    /// does. Its worker doesn't sleep any more.
    ///
    /// # Errors
    ///
    /// The session, exactly where the vault gives it back. Nothing has changed. Then [`Hall::perform`] goes on.
    pub fn read(
        &mut self,
        session: Session,
        page: u32,
    ) -> Result<(Session, ReadGuard, u32, Told), Session>
        ensures exact { (s : State) → StandsFor self.old.seating.vault s → is_ok result ≡ may_read session page s }
        ensures ok { IfOk result (λ now. Reads self.old session page now.0 now.1 now.2 now.3 self.new) }
        ensures back { IfErr result (λ e. e ≡ session) }
        ensures unchanged { OnErr result (self.new ≡ self.old) }
    {
        let worker = session.worker();
        match self.seating.read(session, page) {
            Ok((session, guard, frame)) => {
                self.waiters.rise(worker);
                let told = self.waiters.settle(&self.seating, self.policy.flush_from);
                Ok((session, guard, frame, told))
            }
            Err(session) => Err(session),
        }
    }

    /// Takes a reader's latch off and gives the page back, where the plan asks both, as [`pp_vault::Vault::end_read`]
    /// does.
    ///
    /// # Errors
    ///
    /// The tokens, exactly where the vault gives them back. Nothing has changed. Then [`Hall::perform`] goes on.
    pub fn end_read(
        &mut self,
        session: Session,
        guard: ReadGuard,
    ) -> Result<(Session, u64, Told), (Session, ReadGuard)>
        ensures exact { (s : State) → StandsFor self.old.seating.vault s → is_ok result ≡ may_end_read session guard s }
        ensures ok { IfOk result (λ now. EndsRead self.old session guard now.0 now.1 now.2 self.new) }
        ensures back { IfErr result (λ e. (e.0 ≡ session) × (e.1 ≡ guard)) }
        ensures unchanged { OnErr result (self.new ≡ self.old) }
    {
        match self.seating.end_read(session, guard) {
            Ok((session, mark)) => {
                let told = self.waiters.settle(&self.seating, self.policy.flush_from);
                Ok((session, mark, told))
            }
            Err(tokens) => Err(tokens),
        }
    }

    /// Fills the slice with the front of the image of a page that is latched S, as a [`pp_ledger::VaultSite`] does.
    #[inline(always)]
    pub fn look(&mut self, guard: &ReadGuard, bytes: &mut [u8]) -> bool
        ensures shown { ShowsPage self.old.seating.vault guard.now bytes.old result bytes.new }
        ensures head { result ≡ true → (head_of bytes.new).0 ≡ guard.now.page }
        ensures long { result ≡ true → 64 ≤ length bytes.new }
        ensures bytes { result ≡ false → bytes.new ≡ bytes.old }
        ensures unchanged { self.new ≡ self.old }
    {
        self.seating.look(guard, bytes)
    }

    /// How many bytes a page has: 64 at least.
    pub fn page_bytes(&self) -> usize
        ensures { result ≡ self.now.seating.vault.page_bytes }
    {
        self.seating.page_bytes()
    }

    /// The body of the image of a page that is latched S: its bytes from byte 12 on, where they stand, as
    /// [`pp_vault::Vault::see`] lends them. None where the guard isn't one of this state.
    pub fn see(&self, guard: &ReadGuard) -> Option<&[u8]>
        ensures some { (s : State) → StandsFor self.now.seating.vault s → is_some result ≡ may_see guard.now s }
        ensures shown { IfSome result (λ body. ShowsBody self.now.seating.vault guard.now.page body.now) }
    {
        self.seating.see(guard)
    }

    // ---- the flusher

    /// Whether a flush is wanted: as many pages are newer than the device's as the policy says, and one of them lets a
    /// flush begin. It doesn't ask whether the settings' flushes are spent.
    pub fn is_flush_wanted(&self) -> bool
        ensures { (s : State) → StandsFor self.now.seating.vault s → result ≡ is_wanted self.now.policy.flush_from s }
    {
        self.seating.is_flush_wanted(self.policy.flush_from)
    }

    /// Whether the flusher goes on, once it was woken: more pages are newer than the device's than the policy leaves,
    /// and one of them lets a flush begin.
    pub fn goes_on(&self) -> bool
        ensures { (s : State) → StandsFor self.now.seating.vault s
            → result ≡ is_wanted (min (self.now.policy.flush_to + 1) (2 ^ 32 - 1)) s }
    {
        self.seating
            .is_flush_wanted(self.policy.flush_to.saturating_add(1))
    }

    /// Whether a page is newer than the device's and lets a flush begin. It doesn't ask whether the settings' flushes are
    /// spent.
    pub fn can_flush(&self) -> bool
        ensures { (s : State) → StandsFor self.now.seating.vault s → result ≡ is_wanted 0 s }
    {
        self.seating.is_flush_wanted(0)
    }

    /// Takes the flusher out, if it is home.
    pub fn take_flusher(&mut self) -> Option<Flusher<(), D>>
        ensures some { is_some result ≡ self.old.posts.is_flusher_home }
        ensures gone { self.new ≡ with_flusher self.old false }
    {
        self.posts.take_flusher()
    }

    /// The flusher comes home.
    ///
    /// # Errors
    ///
    /// The flusher, exactly where one is home. Nothing has changed.
    pub fn park_flusher(&mut self, flusher: Flusher<(), D>) -> Result<(), Flusher<(), D>>
        ensures exact { is_ok result ≡ not self.old.posts.is_flusher_home }
        ensures home { OnOk result (self.new ≡ with_flusher self.old true) }
        ensures back { IfErr result (λ e. e ≡ flusher) }
        ensures unchanged { OnErr result (self.new ≡ self.old) }
    {
        self.posts.put_flusher(flusher)
    }

    /// Notes that the flusher sleeps, until it is told. It doesn't where a flush is wanted, or nobody starts any more;
    /// tells whether it does.
    pub fn sleep_flusher(&mut self) -> bool
        ensures asleep { self.new ≡ with_flusher_asleep self.old result }
        ensures exact { (s : State) → StandsFor self.old.seating.vault s
            → result ≡ (not self.old.waiters.is_stopped && not (is_wanted self.old.policy.flush_from s)) }
    {
        self.waiters
            .sleep_flusher(&self.seating, self.policy.flush_from)
    }

    // ---- the whole

    /// Nobody starts any more, from now on. Everybody in the queue is told, and the flusher.
    pub fn stop(&mut self) -> Told
        ensures { Stops self.old result self.new }
    {
        self.waiters.stop()
    }

    /// Whether nobody starts any more.
    pub fn is_stopped(&self) -> bool
        ensures { result ≡ self.now.waiters.is_stopped }
    {
        self.waiters.is_stopped()
    }

    /// What was counted, and how things stand.
    pub fn stats(&self) -> Stats
        ensures { StatsAre self.now result }
    {
        stats_of(&self.seating, &self.waiters)
    }
}

/// A hall with these settings, which have none of the faults.
fn opened<D: Device + Drop>(
    alloc: Global,
    settings: &Settings,
    policy: Policy,
    devices: Vec<D>,
) -> Result<Hall<D>, (OpenError, Vec<D>)>
    requires { open_fault settings.now (vec_len devices) ≡ None }
    ensures fresh { IfOk result (λ hall. IsFresh settings.now policy hall) }
    ensures error { IfErr result (λ e. e.0 ≡ OutOfMemory) }
    ensures back { IfErr result (λ e. e.1 ≡ devices) }
{
    let workers = settings.workers();
    let waiters = match Waiters::new(alloc, policy.queue, policy.bypass, workers) {
        Ok(waiters) => waiters,
        Err(_) => return Err((OpenError::OutOfMemory, devices)),
    };
    let places = match Vec::with_capacity(alloc, workers as usize) {
        Ok(places) => places,
        Err(_) => return Err((OpenError::OutOfMemory, devices)),
    };
    match Seating::new(alloc, settings) {
        Ok((seating, hands)) => Ok(Hall {
            seating,
            waiters,
            posts: Posts::new(alloc, settings, places, hands, devices),
            policy,
        }),
        Err(_) => {
            places.destroy_empty();
            Err((OpenError::OutOfMemory, devices))
        }
    }
}

/// What was counted, and how things stand.
pub(crate) fn stats_of(seating: &Seating, waiters: &Waiters) -> Stats
    ensures counts { result.counts ≡ seating.now.counts }
    ensures dirty { (s : State) → StandsFor seating.now.vault s → result.dirty ≡ dirty_pages s }
    ensures running_peaks { result.running_peaks ≡ pages_out seating.now.peaks }
    ensures waiting { result.waiting ≡ length waiters.now.queue.waiting }
    ensures chairs { result.chairs ≡ count_by is_none seating.now.peaks }
    ensures clean { IsClean seating.now → result.dirty ≡ 0 }
{
    seating.known();
    Stats {
        counts: seating.counts(),
        dirty: seating.dirty(),
        running_peaks: seating.pages_out(),
        waiting: waiters.len(),
        chairs: seating.homes(),
    }
}
