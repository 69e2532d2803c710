//! The pool, which threads share by reference.

ghost use Rattle.std.specs.Prelude.{◌≡◌, ◌+◌, ◌*◌, ◌≤◌, None, IfOk, IfErr, OnOk, vec_len, length};
ghost use Rattle.pp_settings.specs.Limits.{step_events, plan_events};
ghost use Rattle.pp_hall.specs.Calls.{open_fault};
ghost use Rattle.pp_buffer_pool.specs.Halls.{StatsOfSome, DirtyInSome, RefusesSome, ClosesSome, KeepsSome, AbandonsSome};
ghost use Rattle.pp_buffer_pool.specs.Opening.{HasLastPage, OpenFails, ComeBack};

use crate::bells::Bells;
use crate::error::OpenError;
use crate::opening::looked_at;
use crate::plan::PreparedPlan;
use pp_cert::Accepted;
use pp_core::PrepareError;
use pp_device::Device;
use pp_hall::{CloseError, Closed, Hall, Policy, Post, Stats, Told};
use pp_settings::Settings;
use pp_wants::hold;
use std::alloc::Global;
use std::sync::{Mutex, MutexGuard, Wait};

/// A pool that stands: opened once, and used by any thread at any time, by reference.
///
/// All that it has lies under one lock, a [`Hall`]: the images of the pages with all that is known of them, the chairs
/// that nobody has taken, who waits to start, and who sleeps for what. Each call takes the lock for a short time. With
/// it held no call sleeps, calls a device or a caller's work, or takes memory but where that is said. Only the type of a
/// work may be asked then whether it wants to rework pages.
///
/// | Call | Waits for | Takes memory |
/// |---|---|---|
/// | [`BufferPool::open`] | the device | all that the pool ever needs, but for a chair's log and pages |
/// | [`BufferPool::prepare`] | the lock | none: the plan has its own |
/// | [`BufferPool::execute`] | the lock; its turn, with room and a chair; a page, a frame or a latch; the device and the work | with the lock held, for what its chair lacks: an image, room for the plan's events, and for pages that the work is lent |
/// | [`BufferPool::execute_on_copies`] | the same | the same |
/// | [`BufferPool::flush_once`] | the lock; the device | none |
/// | [`BufferPool::run_flusher`] | the lock; the device; that pages are changed, or that the pool is stopped; a flush of another thread | none |
/// | [`BufferPool::checkpoint`] | the lock; the device; a flush of another thread; pages that are held, for a while | two lists of one page more than there are frames, with no lock held |
/// | [`BufferPool::stop`], [`BufferPool::stats`], [`BufferPool::dirty_pages`] | the lock | none |
/// | [`BufferPool::close`] | the device | none |
/// | [`BufferPool::abandon`] | nothing | none |
///
/// **A work or a device must not call the pool.** While a plan runs its thread has a chair, frames and latches. A call
/// from inside it would wait for more of them, and if each chair's thread does so, all wait for ever. Nothing tests
/// this. Let one plan hold all that is wanted together.
///
/// Whenever the lock is free the hall's own promises hold: its state is one that plans can lead to, no worker finds all
/// frames fixed, those that run have room for all that they can ask, and no thread sleeps for what it could have,
/// unless somebody who was told of the same is on the way. No clause says that a thread is woken or served in time.
///
/// The compiler refuses code that lets a pool fall, since its changed pages are nowhere else. [`BufferPool::close`]
/// writes them and ends it, and [`BufferPool::abandon`] gives it up with them.
pub struct BufferPool<D> {
    pub(crate) hall: Mutex<Hall<D>>,
    pub(crate) bells: Bells,
}

impl<D: Device + Drop> BufferPool<D> {
    /// A pool with these settings, in which nothing was done. Of the devices one is each chair's, in their order, and
    /// the last is the flusher's: ends of one store, or of stores that show each the writings of all.
    ///
    /// A device that was made for other settings is refused, as far as the settings' last page shows: the flusher's end reads it,
    /// and the head of the image has to name it.
    ///
    /// # Errors
    ///
    /// The devices come back, with the first of these:
    ///
    /// - [`OpenError::Hall`]: the first fault of the settings ([`pp_hall::OpenError::of`]; a pool of which no page may
    ///   be flushed could not be closed), or no memory for the image of a page.
    /// - [`OpenError::OtherDevice`]: this page, the last, wasn't read, or its image names another.
    /// - [`OpenError::Hall`] with [`pp_hall::OpenError::OutOfMemory`]: no memory for the pool. Which of the two
    ///   it was isn't told.
    pub fn open(
        alloc: Global,
        settings: &Settings,
        policy: Policy,
        devices: Vec<D>,
    ) -> Result<BufferPool<D>, (OpenError, Vec<D>)>
        ensures fits { OnOk result (open_fault settings.now (vec_len devices) ≡ None) }
        ensures page { OnOk result (HasLastPage D.Device settings.now devices.items) }
        ensures error { IfErr result (λ e. OpenFails settings.now (vec_len devices) e.0) }
        ensures back { IfErr result (λ e. ComeBack D.Device settings.now e.0 devices e.1) }
    {
        if let Some(fault) = pp_hall::OpenError::of(settings, devices.len()) {
            return Err((OpenError::Hall(fault), devices));
        }
        let devices = looked_at(alloc, settings, devices)?;
        let Ok(bells) = Bells::new(alloc, settings.workers()) else {
            return Err((OpenError::Hall(pp_hall::OpenError::OutOfMemory), devices));
        };
        match Hall::open(alloc, settings, policy, devices) {
            Ok(hall) => Ok(BufferPool {
                hall: Mutex::new(hall),
                bells,
            }),
            Err((fault, devices)) => Err((OpenError::Hall(fault), devices)),
        }
    }

    /// Keeps a plan, so that it can be run as often as wanted. It is kept until the pool is closed, and 4,096 are kept
    /// at most: prepare kinds of work, and not each query.
    ///
    /// # Errors
    ///
    /// [`PrepareError::OtherSettings`] where the plan was accepted under another layout than the pool's, else
    /// [`PrepareError::TooManyPrepared`]. The plan comes back.
    #[tactic(auto, using(crate::proofs::Halls::refuses_some))]
    pub fn prepare<R: Wait>(
        &self,
        rt: &R,
        accepted: Accepted,
    ) -> Result<PreparedPlan, (Accepted, PrepareError)>
        ensures peak { IfOk result (λ plan. plan.peak ≡ accepted.peak) }
        ensures cost { IfOk result (λ plan. plan.cost ≡ step_events * accepted.steps + plan_events) }
        ensures error { IfErr result (λ e. RefusesSome accepted e.1) }
        ensures back { IfErr result (λ e. e.0 ≡ accepted) }
    {
        let peak = accepted.peak();
        let cost = accepted.cost();
        let mut hall = self.hold(rt);
        hall.known();
        match hall.prepare(accepted) {
            Ok((prepared, told)) => {
                self.give_back(hall, told);
                Ok(PreparedPlan {
                    prepared,
                    peak,
                    cost,
                })
            }
            Err(error) => Err(error),
        }
    }

    /// Lets no plan in from now on. Who waits to start is answered
    /// [`ExecuteError::Stopped`](crate::ExecuteError::Stopped), and the flusher's thread returns. Plans that have
    /// started run on to their end.
    pub fn stop<R: Wait>(&self, rt: &R) {
        let mut hall = self.hold(rt);
        let told = hall.stop();
        self.give_back(hall, told);
    }

    /// What was done since the pool was opened, and how it stands: all of one moment.
    #[tactic(auto, using(crate::proofs::Halls::stats_of_some))]
    pub fn stats<R: Wait>(&self, rt: &R) -> Stats
        ensures { StatsOfSome result }
    {
        let hall = self.hold(rt);
        hall.known();
        hall.stats()
    }

    /// Writes down pages that are newer than the device's, by rising numbers, each with its mark, as far as there are
    /// places, all of one moment. Tells how many it wrote down. For a log's checkpoint record; [`BufferPool::checkpoint`] has
    /// such pages on the medium.
    #[tactic(auto, using(crate::proofs::Halls::dirty_in_some))]
    pub fn dirty_pages<R: Wait>(&self, rt: &R, into: &mut [(u32, u64)]) -> usize
        ensures few { result ≤ length into.old }
        ensures dirty { DirtyInSome (length into.old) result into.new }
    {
        let hall = self.hold(rt);
        hall.known();
        hall.dirty_pages(into)
    }

    /// Ends the pool, once no thread has it any more: writes back all that is changed, with the flusher's end of the
    /// device, and gives all ends back, the flusher's last.
    ///
    /// # Errors
    ///
    /// The pool comes back with it, whole.
    ///
    /// - [`CloseError::Busy`]: a chair isn't home, since a call of `execute` was broken, or the flusher isn't. Nothing
    ///   was written.
    /// - [`CloseError::WriteFault`]: this page couldn't be written. It stays in its frame, changed, and it can be tried
    ///   again.
    /// - [`CloseError::FlushesSpent`]: no flush is left, though pages are changed.
    #[tactic(auto, using(crate::proofs::Halls::closes_some, crate::proofs::Halls::keeps_some))]
    pub fn close(self) -> Result<Closed<D>, (CloseError, BufferPool<D>)>
        ensures ok { IfOk result (λ closed. ClosesSome closed.stats (vec_len closed.devices)) }
        ensures error { IfErr result (λ e. KeepsSome e.0) }
    {
        let BufferPool { hall, bells } = self;
        let hall = hall.into_inner();
        hall.known();
        match hall.close() {
            Ok(closed) => Ok(closed),
            Err((error, hall)) => Err((
                error,
                BufferPool {
                    hall: Mutex::new(hall),
                    bells,
                },
            )),
        }
    }

    /// Gives the pool up as it is, once no thread has it any more, and writes nothing. The devices come back, the
    /// flusher's last, and the number tells how many pages are changed: what they had is lost.
    ///
    /// It is for a pool that [`BufferPool::close`] gives back again and again: no flush is left, the device fails for
    /// good, or a chair stays out since a call of `execute` was broken.
    #[tactic(auto, using(crate::proofs::Halls::abandons_some))]
    pub fn abandon(self) -> (Vec<D>, u32)
        ensures { AbandonsSome (vec_len result.0) result.1 }
    {
        let BufferPool {
            hall,
            bells: _bells,
        } = self;
        let hall = hall.into_inner();
        hall.known();
        hall.abandon()
    }

    /// Takes the lock.
    #[inline(always)]
    pub(crate) fn hold<'p, R: Wait>(&'p self, rt: &R) -> MutexGuard<'p, Hall<D>> {
        hold(rt, &self.hall)
    }

    /// Gives the lock back, and then wakes whom the hall has told.
    #[inline(always)]
    pub(crate) fn give_back(&self, hall: MutexGuard<'_, Hall<D>>, told: Told) {
        drop(hall);
        self.bells.ring(told);
    }

    /// Brings a worker home under a hold of the lock, gives the lock back, and wakes whom that and all before has told.
    ///
    /// Where the worker's chair isn't out it waits for ever: a token is spent only together with its vault, so a worker
    /// that has no place can't be let go. A hall gives a chair to one thread at a time, so this needs a worker of
    /// another pool. No test has met it, and no clause rules it out.
    pub(crate) fn park<'p, R: Wait>(
        &'p self,
        rt: &R,
        hall: MutexGuard<'p, Hall<D>>,
        post: Post<D>,
        owed: Told,
    ) {
        let mut hall = hall;
        let mut post = post;
        let mut owed = owed;
        for _ in rt.forever() {
            match hall.park(post) {
                Ok(told) => {
                    self.give_back(hall, owed.and(told));
                    return;
                }
                Err(back) => {
                    post = back;
                    self.bells.ring(owed);
                    owed = Told::nobody();
                    hall = self.bells.sleep_as_flusher(rt, hall);
                }
            }
        }
        unreachable!()
    }
}
