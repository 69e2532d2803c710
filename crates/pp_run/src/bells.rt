//! What the threads of a run sleep on.

use crate::desk::Desk;
use crate::locked::Locked;
use crate::owed::Told;
use pp_settings::limits::BELLS;
use pp_wants::bell_of;
use std::alloc::{AllocError, Global};
use std::sync::{Condvar, MutexGuard, Wait};

/// The bells of a run: conditions of its lock, to sleep on. There are 32 for the workers, so that a move wakes the
/// few that it helps; of more workers those share one whose numbers are 32 apart. A bell that is rung for nothing
/// does no harm: who wakes asks again.
#[derive(Drop)]
pub struct Bells {
    // At place b that of the workers whose bell is b.
    workers: Vec<Condvar>,
    // Of who waits for any move.
    moved: Condvar,
    // Of who waits for a page to be changed, or the run to be closing.
    changed: Condvar,
}

impl Bells {
    /// The bells of a run, on which nobody sleeps.
    ///
    /// # Errors
    ///
    /// Only where the memory can't be had.
    pub fn new(alloc: Global) -> Result<Bells, AllocError> {
        let mut workers = Vec::new(alloc);
        workers.reserve(BELLS as usize)?;
        for _ in 0..BELLS {
            workers.push(Condvar::new())?;
        }
        Ok(Bells {
            workers,
            moved: Condvar::new(),
            changed: Condvar::new(),
        })
    }

    /// Wakes whom a hold has told. It is called once the lock is let go, or before the thread sleeps itself.
    ///
    /// It is all that takes a [`Told`] apart, and code that forgets one doesn't compile.
    #[inline(always)]
    pub(crate) fn ring(&self, told: Told) {
        let Told {
            workers,
            moved,
            changed,
        } = told;
        let workers = workers.into_mask();
        if workers != 0 || moved || changed {
            self.ring_each(workers, moved, changed);
        }
    }

    /// The same, where somebody was told.
    #[inline(never)]
    fn ring_each(&self, workers: u32, moved: bool, changed: bool) {
        for bell in 0..BELLS {
            if (workers >> bell) & 1 == 1 {
                self.ring_at(bell);
            }
        }
        if moved {
            self.moved.notify_all();
        }
        if changed {
            self.changed.notify_all();
        }
    }

    /// Wakes everybody.
    pub(crate) fn ring_all(&self) {
        for bell in self.workers.iter() {
            bell.notify_all();
        }
        self.moved.notify_all();
        self.changed.notify_all();
    }

    /// Rings this bell of the workers'.
    fn ring_at(&self, bell: u32) {
        match self.workers.get(bell as usize) {
            Some(bell) => bell.notify_all(),
            None => {}
        }
    }

    /// Sleeps until somebody rings for this worker, or for another that shares its bell. The lock is let go meanwhile.
    pub(crate) fn sleep_as_worker<'a, B: Desk, R: Wait>(
        &self,
        rt: &R,
        locked: MutexGuard<'a, Locked<B>>,
        worker: u32,
    ) -> MutexGuard<'a, Locked<B>> {
        match self.workers.get(bell_of(worker) as usize) {
            Some(bell) => bell.wait(rt, locked),
            None => locked,
        }
    }

    /// Sleeps until a move was done. The lock is let go meanwhile.
    pub(crate) fn sleep_for_move<'a, B: Desk, R: Wait>(
        &self,
        rt: &R,
        locked: MutexGuard<'a, Locked<B>>,
    ) -> MutexGuard<'a, Locked<B>> {
        self.moved.wait(rt, locked)
    }

    /// Sleeps until a page can be flushed, or the run is closing. The lock is let go meanwhile.
    pub(crate) fn sleep_for_change<'a, B: Desk, R: Wait>(
        &self,
        rt: &R,
        locked: MutexGuard<'a, Locked<B>>,
    ) -> MutexGuard<'a, Locked<B>> {
        self.changed.wait(rt, locked)
    }
}
