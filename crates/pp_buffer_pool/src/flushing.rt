//! Pages that are written back before somebody needs their frames.

ghost use Rattle.std.specs.Prelude.{◌≡◌};
ghost use Rattle.pp_buffer_pool.specs.Halls.{FlushTells};

use crate::pool::BufferPool;
use crate::site::ExecuteSite;
use pp_device::Device;
use pp_hall::Hall;
use pp_pool::{Flusher, Site, Turned};
use std::sync::{MutexGuard, Wait};

/// What came of a flush.
#[derive(Clone, Copy, Debug, PartialEq, Eq)]
pub enum Flush {
    /// A page was written. (It may be newer again than what was written.)
    Written,
    /// A page couldn't be written. It stays in its frame, changed, and the next flush is of a page behind it.
    WriteFault,
    /// No page that is changed can be flushed now.
    Nothing,
    /// No flush of the settings is left, though a page could be flushed.
    Spent,
    /// Another thread's flush is under way, which has the flusher.
    Busy,
    /// A slip, which no test has met.
    Broken,
}

/// What two turns of the flusher came to.
#[derive(Clone, Copy, Debug, PartialEq, Eq)]
pub(crate) enum Written {
    /// A page was written.
    Page,
    /// A page couldn't be written.
    Fault,
    /// No flush could begin.
    NotBegun,
    /// A slip.
    Broken,
}

/// Why a thread flushes no more.
#[derive(Clone, Copy, Debug, PartialEq, Eq)]
pub enum FlusherEnd {
    /// The pool is stopped.
    Stopped,
    /// A page couldn't be written. It stays in its frame, changed. Who calls again goes on behind it.
    WriteFault,
    /// No flush is left, though pages are changed. They are written where a plan wants their frames, and the pool can
    /// be given up by [`BufferPool::abandon`].
    Spent,
    /// A slip, which no test has met.
    Broken,
}

impl<D: Device + Drop> BufferPool<D> {
    /// Writes one page back that is changed, not latched X, and in its frame: the next behind that which was flushed
    /// last, by the pages' numbers. For engines with no thread to spare for [`BufferPool::run_flusher`].
    ///
    /// It takes the lock three times at most, and calls the device once at most, with no lock held. Where another thread waits to
    /// flush it yields for a while in the end.
    #[tactic(auto, using(crate::proofs::Halls::rests_some, crate::proofs::Halls::can_flush_some, crate::proofs::Halls::is_away_some))]
    pub fn flush_once<R: Wait>(&self, rt: &R) -> Flush
        ensures { FlushTells result }
    {
        let mut hall = self.hold(rt);
        hall.known();
        let can_flush = hall.can_flush();
        let Some(flusher) = hall.take_flusher() else {
            return Flush::Busy;
        };
        let (flusher, flush, hall) = self.flush(rt, flusher, hall);
        self.park_flusher(rt, hall, flusher);
        match flush {
            Written::Page => Flush::Written,
            Written::Fault => Flush::WriteFault,
            Written::NotBegun if can_flush => Flush::Spent,
            Written::NotBegun => Flush::Nothing,
            Written::Broken => Flush::Broken,
        }
    }

    /// Writes pages back on the calling thread until the pool is stopped ([`BufferPool::stop`]): it sleeps until as
    /// many are changed as [`Policy::flush_from`](crate::Policy) says, and then flushes until no more are than
    /// [`Policy::flush_to`](crate::Policy). It goes on behind the page that was flushed last, so no page is passed over
    /// for ever. Between two flushes it looks whether the pool is stopped.
    ///
    /// It has the flusher for one flush at a time, and sleeps without it. So other threads may flush besides
    /// ([`BufferPool::checkpoint`], [`BufferPool::flush_once`], or this call). While the flush of another is under way it waits.
    ///
    /// It returns where a page can't be written, since the pool has no clock to wait by: call it again, at once or
    /// later. And it returns where no flush of the settings is left ([`FlusherEnd::Spent`]).
    pub fn run_flusher<R: Wait>(&self, rt: &R) -> FlusherEnd {
        let hall = self.hold(rt);
        self.flush_on(rt, hall)
    }

    /// Flushes until the pool is stopped, a flush fails, or none is left.
    fn flush_on<'p, R: Wait>(&'p self, rt: &'p R, hall: MutexGuard<'p, Hall<D>>) -> FlusherEnd {
        let mut hall = hall;
        let mut is_on = false;
        for _ in rt.forever() {
            if hall.is_stopped() {
                return FlusherEnd::Stopped;
            }
            is_on = hall.is_flush_wanted() || (is_on && hall.goes_on());
            if is_on {
                match self.flush_next(rt, hall) {
                    Ok(held) => hall = held,
                    Err(end) => return end,
                }
            } else if hall.sleep_flusher() {
                hall = self.bells.sleep_as_flusher(rt, hall);
            }
        }
        unreachable!()
    }

    /// Flushes a page, and brings the flusher home. Where that is away it sleeps until it comes home, and doesn't flush. The lock
    /// comes back.
    fn flush_next<'p, R: Wait>(
        &'p self,
        rt: &'p R,
        hall: MutexGuard<'p, Hall<D>>,
    ) -> Result<MutexGuard<'p, Hall<D>>, FlusherEnd> {
        let mut hall = hall;
        let Some(flusher) = hall.take_flusher() else {
            return Ok(self.bells.await_flusher(rt, hall));
        };
        let (flusher, flush, hall) = self.flush(rt, flusher, hall);
        let hall = self.put_flusher(rt, hall, flusher);
        let hall = self.give_way(rt, hall);
        match flush {
            Written::Page => Ok(hall),
            Written::Fault => Err(FlusherEnd::WriteFault),
            // It was wanted, so in the same hold there was a page to flush, and no flush in flight.
            Written::NotBegun => Err(FlusherEnd::Spent),
            Written::Broken => Err(FlusherEnd::Broken),
        }
    }

    /// Lets those come first that wait for the flusher, which is home. Where there are such the lock is let go meanwhile.
    fn give_way<'p, R: Wait>(
        &'p self,
        rt: &R,
        hall: MutexGuard<'p, Hall<D>>,
    ) -> MutexGuard<'p, Hall<D>> {
        if !self.bells.is_awaited() {
            return hall;
        }
        drop(hall);
        self.bells.ring_home();
        self.hold(rt)
    }

    /// Takes the lock, and the flusher once that is home.
    pub(crate) fn hold_flusher<'p, R: Wait>(
        &'p self,
        rt: &R,
    ) -> (Flusher<(), D>, MutexGuard<'p, Hall<D>>) {
        let mut hall = self.hold(rt);
        for _ in rt.forever() {
            match hall.take_flusher() {
                Some(flusher) => return (flusher, hall),
                None => hall = self.bells.await_flusher(rt, hall),
            }
        }
        unreachable!()
    }

    /// One flush: it begins, the device is called, for which the lock is let go, and it ends. The lock comes back.
    pub(crate) fn flush<'p, R: Wait>(
        &'p self,
        rt: &'p R,
        flusher: Flusher<(), D>,
        hall: MutexGuard<'p, Hall<D>>,
    ) -> (Flusher<(), D>, Written, MutexGuard<'p, Hall<D>>) {
        let site = ExecuteSite::of_flush(rt, self, hall);
        let (_, mut flusher) = flusher.over_site(site);
        let flush = turns(&mut flusher);
        let (site, flusher) = flusher.over_site(());
        let (hall, owed) = site.into_hold();
        self.bells.ring(owed);
        (flusher, flush, hall)
    }

    /// Brings the flusher home, gives the lock back, and wakes those who wait for it. Where one is home it waits for ever, as
    /// [`BufferPool::park`] does.
    pub(crate) fn park_flusher<'p, R: Wait>(
        &'p self,
        rt: &R,
        hall: MutexGuard<'p, Hall<D>>,
        flusher: Flusher<(), D>,
    ) {
        let hall = self.put_flusher(rt, hall, flusher);
        drop(hall);
        self.bells.ring_home();
    }

    /// Brings the flusher home, under a hold of the lock that comes back. Who lets the lock go before it takes the flusher again
    /// has to wake those who wait for it.
    fn put_flusher<'p, R: Wait>(
        &'p self,
        rt: &R,
        hall: MutexGuard<'p, Hall<D>>,
        flusher: Flusher<(), D>,
    ) -> MutexGuard<'p, Hall<D>> {
        let mut hall = hall;
        let mut flusher = flusher;
        for _ in rt.forever() {
            match hall.park_flusher(flusher) {
                Ok(()) => return hall,
                Err(back) => {
                    flusher = back;
                    hall = self.bells.sleep_as_flusher(rt, hall);
                }
            }
        }
        unreachable!()
    }
}

/// Begins a flush, if none is in hand, and ends it.
fn turns<S: Site, D: Device>(flusher: &mut Flusher<S, D>) -> Written {
    if flusher.flushing.is_none() {
        match flusher.turn() {
            Turned::Done => {}
            Turned::Ended | Turned::NotNow => return Written::NotBegun,
            Turned::NoMemory | Turned::Broken => return Written::Broken,
        }
    }
    let failed = flusher.failed;
    match flusher.turn() {
        Turned::Done if flusher.failed == failed => Written::Page,
        Turned::Done => Written::Fault,
        _ => Written::Broken,
    }
}
