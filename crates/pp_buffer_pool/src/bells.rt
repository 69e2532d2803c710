//! What the threads of a pool sleep on.

use pp_admission::Ticket;
use pp_hall::{Hall, Told};
use std::alloc::{AllocError, Global};
use std::sync::atomic::{AtomicU64, Ordering};
use std::sync::{Condvar, MutexGuard, Wait};
use std::thread::yield_now;

/// How many bells there are for those who wait to start. Tickets in the queue mostly follow one another, so while no
/// more than so many wait each has a bell of its own. In a longer queue those share one whose tickets are so far apart:
/// a ring wakes one in 32 of them, and all but one for nothing.
const QUEUE_BELLS: u64 = 32;

/// How often a thread that brought the flusher home yields at most, so that one who waits for it comes first: for about as
/// long as a thread takes to wake. Else who flushes page after page would take it again each time before that.
const COURTESIES: u32 = 1_000;

/// The bells of a pool: conditions to sleep on. Each chair's thread has one of its own, so that a move wakes the few
/// that it helps. A bell that is rung for nothing does no harm: who wakes asks again.
#[derive(Drop)]
pub(crate) struct Bells {
    // At place w that of the thread which has chair w.
    chairs: Vec<Condvar>,
    // At place n those of the tickets whose numbers leave n.
    queue: Vec<Condvar>,
    flusher: Condvar,
    // How many threads wait for the flusher to come home. It changes under the lock alone.
    awaiting: AtomicU64,
}

impl Bells {
    /// The bells of a pool with so many chairs. Nobody sleeps.
    pub(crate) fn new(alloc: Global, chairs: u32) -> Result<Bells, AllocError> {
        Ok(Bells {
            chairs: new_bells(alloc, chairs as usize)?,
            queue: new_bells(alloc, QUEUE_BELLS as usize)?,
            flusher: Condvar::new(),
            awaiting: AtomicU64::new(0),
        })
    }

    /// Wakes whom a hall has told. It is called once the lock is let go, or before the thread sleeps itself.
    ///
    /// It is all that takes a [`Told`] apart here, and code that forgets one doesn't compile.
    #[inline(always)]
    pub(crate) fn ring(&self, told: Told) {
        let Told {
            workers,
            next,
            all,
            flusher,
        } = told;
        let chairs = workers.into_mask();
        if chairs != 0 || next.is_some() || all || flusher {
            self.ring_each(chairs, next, all, flusher);
        }
    }

    /// The same, where somebody was told.
    #[inline(never)]
    fn ring_each(&self, chairs: u32, next: Option<Ticket>, all: bool, flusher: bool) {
        if chairs != 0 {
            self.ring_chairs(chairs);
        }
        if let Some(ticket) = next {
            ring_at(&self.queue, queue_place(ticket));
        }
        if all {
            for bell in self.queue.iter() {
                bell.notify_all();
            }
        }
        if flusher {
            self.flusher.notify_all();
        }
    }

    /// Rings for each chair whose bit is set.
    fn ring_chairs(&self, chairs: u32) {
        for chair in 0..32u32 {
            if (chairs >> chair) & 1 == 1 {
                ring_at(&self.chairs, chair as usize);
            }
        }
    }

    /// Sleeps until somebody rings for this chair's thread. The lock is let go meanwhile.
    pub(crate) fn sleep_at_chair<'a, D, R: Wait>(
        &self,
        rt: &R,
        hall: MutexGuard<'a, Hall<D>>,
        chair: u32,
    ) -> MutexGuard<'a, Hall<D>> {
        sleep_at(rt, &self.chairs, hall, chair as usize)
    }

    /// Sleeps until somebody rings for this ticket, or for another that shares its bell. The lock is let go meanwhile.
    pub(crate) fn sleep_in_queue<'a, D, R: Wait>(
        &self,
        rt: &R,
        hall: MutexGuard<'a, Hall<D>>,
        ticket: Ticket,
    ) -> MutexGuard<'a, Hall<D>> {
        sleep_at(rt, &self.queue, hall, queue_place(ticket))
    }

    /// Sleeps until somebody rings for the flusher. The lock is let go meanwhile.
    pub(crate) fn sleep_as_flusher<'a, D, R: Wait>(
        &self,
        rt: &R,
        hall: MutexGuard<'a, Hall<D>>,
    ) -> MutexGuard<'a, Hall<D>> {
        self.flusher.wait(rt, hall)
    }

    /// Sleeps until the flusher comes home, or somebody rings for it. The lock is let go meanwhile. Who calls it has found the
    /// flusher away under this hold of the lock.
    pub(crate) fn await_flusher<'a, D, R: Wait>(
        &self,
        rt: &R,
        hall: MutexGuard<'a, Hall<D>>,
    ) -> MutexGuard<'a, Hall<D>> {
        self.awaiting.fetch_add(1, Ordering::SeqCst);
        let hall = self.flusher.wait(rt, hall);
        self.awaiting.fetch_sub(1, Ordering::SeqCst);
        hall
    }

    /// Wakes those who wait for the flusher, which has come home, and yields for a while so that one of them may take it. It is
    /// called once the lock is let go.
    pub(crate) fn ring_home(&self) {
        let waiting = self.awaiting.load(Ordering::SeqCst);
        if waiting == 0 {
            return;
        }
        self.flusher.notify_all();
        for _ in 0..COURTESIES {
            if self.awaiting.load(Ordering::SeqCst) < waiting {
                return;
            }
            yield_now();
        }
    }

    /// Whether somebody waits for the flusher to come home. Who has the lock is told exactly.
    pub(crate) fn is_awaited(&self) -> bool {
        self.awaiting.load(Ordering::SeqCst) != 0
    }
}

/// So many bells.
fn new_bells(alloc: Global, count: usize) -> Result<Vec<Condvar>, AllocError> {
    let mut bells = Vec::new(alloc);
    bells.reserve(count)?;
    for _ in 0..count {
        bells.push(Condvar::new())?;
    }
    Ok(bells)
}

/// The bell of the ticket.
fn queue_place(ticket: Ticket) -> usize {
    (ticket.number() % QUEUE_BELLS) as usize
}

/// Rings the bell at this place.
fn ring_at(bells: &Vec<Condvar>, place: usize) {
    match bells.get(place) {
        Some(bell) => bell.notify_all(),
        None => {}
    }
}

/// Sleeps on the bell at this place.
fn sleep_at<'a, D, R: Wait>(
    rt: &R,
    bells: &Vec<Condvar>,
    hall: MutexGuard<'a, Hall<D>>,
    place: usize,
) -> MutexGuard<'a, Hall<D>> {
    match bells.get(place) {
        Some(bell) => bell.wait(rt, hall),
        None => hall,
    }
}
