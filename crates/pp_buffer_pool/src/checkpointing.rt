//! Checkpoints: all pages that are changed are brought to the medium.

ghost use Rattle.std.specs.Prelude.{◌≡◌, ◌+◌, true, false, Ok, IfOk, IfErr, OnOk};
ghost use Rattle.pp_buffer_pool.specs.Checkpoints.{is_of_sync};

use crate::error::CheckpointError;
use crate::flushing::Written;
use crate::pool::BufferPool;
use crate::remaining::Remaining;
use pp_device::Device;
use pp_durable::Durable;
use std::alloc::Global;
use std::sync::Wait;
use std::thread::yield_now;

/// After one more than so many passes in a row that no page was struck off by, the call ends. With the rests between them it has
/// tried for some ten milliseconds by then, longer than a work mostly has a page latched. Each of these passes goes over all page
/// numbers with the lock held, so they aren't to be many.
const IDLE_PASSES: u32 = 40;

/// How often the thread yields at most before the next pass: some half a millisecond.
const LONGEST_REST: u32 = 1_024;

impl<D: Device + Drop> BufferPool<D> {
    /// Has on the medium all pages that are changed when it is called, as they are then or newer. For an engine's checkpoint: once
    /// it answers `Ok`, a recovery doesn't need the records any more of changes whose latches X were given back before the call. A
    /// page that is latched X for its first change isn't changed yet.
    ///
    /// First it writes down which pages are changed. Then it flushes them one after another, by rising numbers, as
    /// [`BufferPool::flush_once`] does, with the lock let go while the device is called, and leaves where the flusher goes on. A page is
    /// done when a flush of it in its turn ended well, or when it was found unchanged after the list was made. One that
    /// can't be flushed now, since it is latched X or a worker writes it, comes again in the next pass. At last it calls
    /// [`Durable::sync`] once with no lock held, also where no page was changed: what others wrote before has to be on the medium
    /// too. A page that isn't on its list may be written besides, where a page of the list can't be.
    ///
    /// `end` is one more end of the device that the pool's ends are of, so that its sync covers what these have written; it is used
    /// for nothing else. Any thread may call it, also while another is in [`BufferPool::run_flusher`] or in another checkpoint: they
    /// take turns, a flush each. It takes the lock twice, three times for each flush, twice for a try that begins none, once each time that
    /// it waits for the flusher, and once for each pass in which pages stay left; and that hold, as the one in which the list is made,
    /// goes over all page numbers. It gets memory for two lists of one page more than there are frames.
    ///
    /// That all these pages are written no clause says, since they lie under the lock; tests do. The clauses are of `end`: with `Ok`
    /// it was asked for one sync, which was done, as was each before it.
    ///
    /// # Errors
    ///
    /// With each of them but [`CheckpointError::Sync`] the end wasn't called.
    ///
    /// - [`CheckpointError::OutOfMemory`]: nothing was done.
    /// - [`CheckpointError::WriteFault`]: this page couldn't be written; mostly it is one of the list. It stays changed, in its frame.
    /// - [`CheckpointError::Spent`]: no flush of the settings is left.
    /// - [`CheckpointError::Held`]: this page was latched X, or on its way to the device by a worker, each time that it was tried.
    ///   Others of the list are written. Call again.
    /// - [`CheckpointError::Sync`]: the pages are written, and may not be on the medium. It is final.
    /// - [`CheckpointError::Broken`]: a slip, which no test has met.
    pub fn checkpoint<R: Wait, E: Durable>(
        &self,
        rt: &R,
        alloc: Global,
        end: &mut E,
    ) -> Result<(), CheckpointError>
        ensures synced { IfOk result (λ done. E.sync_leaves end.old (Ok done) end.new) }
        ensures once { OnOk result (E.syncs end.new ≡ E.syncs end.old + 1) }
        ensures none_failed { OnOk result (E.failed_syncs end.new ≡ 0) }
        ensures untouched { IfErr result (λ error. is_of_sync error ≡ false → end.new ≡ end.old) }
        ensures fault { IfErr result (λ error. is_of_sync error ≡ true
            → (E.syncs end.new ≡ E.syncs end.old + 1) × (E.failed_syncs end.new ≡ E.failed_syncs end.old + 1)) }
        ensures calls { E.calls end.new ≡ E.calls end.old }
        ensures failures { E.failures end.new ≡ E.failures end.old }
    {
        self.write_changed(rt, alloc)?;
        match end.sync() {
            Ok(()) => Ok(()),
            Err(fault) => Err(CheckpointError::Sync(fault)),
        }
    }

    /// Sees all pages written that are changed when it is called.
    fn write_changed<R: Wait>(&self, rt: &R, alloc: Global) -> Result<(), CheckpointError>
        ensures { IfErr result (λ error. is_of_sync error ≡ false) }
    {
        let mut left = self.changed(rt, alloc)?;
        let mut idle = 0;
        for _ in rt.forever() {
            let Some(first) = left.first() else {
                return Ok(());
            };
            let before = left.len();
            self.flush_pass(rt, &mut left)?;
            self.strike_clean(rt, &mut left)?;
            if left.len() < before {
                idle = 0;
            } else if idle < IDLE_PASSES {
                idle += 1;
                rest(idle);
            } else {
                return Err(CheckpointError::Held(first));
            }
        }
        unreachable!()
    }

    /// The pages that are changed now. Memory is got before, with the lock let go.
    fn changed<R: Wait>(&self, rt: &R, alloc: Global) -> Result<Remaining, CheckpointError>
        ensures { IfErr result (λ error. is_of_sync error ≡ false) }
    {
        let frames = self.hold(rt).frames();
        let Ok(mut left) = Remaining::new(alloc, frames) else {
            return Err(CheckpointError::OutOfMemory);
        };
        let hall = self.hold(rt);
        if left.begin(&hall) {
            Ok(left)
        } else {
            Err(CheckpointError::Broken)
        }
    }

    /// Flushes those of the pages that can be flushed now, and strikes them off.
    fn flush_pass<R: Wait>(&self, rt: &R, left: &mut Remaining) -> Result<(), CheckpointError>
        ensures { IfErr result (λ error. is_of_sync error ≡ false) }
    {
        for _ in rt.forever() {
            let Some(next) = left.next() else {
                break;
            };
            match self.flush_from(rt, next)? {
                Some(page) if next <= page => left.note_written(page),
                // No page from `next` on can be flushed now.
                _ => break,
            }
        }
        left.end_pass();
        Ok(())
    }

    /// Flushes the first page from this one on that lets a flush begin, and tells which it was; none where there is none. Behind the
    /// last page comes page 0.
    fn flush_from<R: Wait>(&self, rt: &R, from: u32) -> Result<Option<u32>, CheckpointError>
        ensures { IfErr result (λ error. is_of_sync error ≡ false) }
    {
        let (mut flusher, hall) = self.hold_flusher(rt);
        if flusher.flushing.is_some() {
            // It would be ended now, and it isn't known of which page it is.
            self.park_flusher(rt, hall, flusher);
            return Err(CheckpointError::Broken);
        }
        let can_flush = hall.can_flush();
        let goes_on_at = flusher.from;
        flusher.from = from;
        let (mut flusher, flush, hall) = self.flush(rt, flusher, hall);
        let page = flusher.from.saturating_sub(1);
        flusher.from = goes_on_at;
        self.park_flusher(rt, hall, flusher);
        match flush {
            Written::Page => Ok(Some(page)),
            Written::Fault => Err(CheckpointError::WriteFault(page)),
            Written::NotBegun if can_flush => Err(CheckpointError::Spent),
            Written::NotBegun => Ok(None),
            Written::Broken => Err(CheckpointError::Broken),
        }
    }

    /// Strikes those of the pages off that aren't changed any more. Where none is left it doesn't look.
    fn strike_clean<R: Wait>(&self, rt: &R, left: &mut Remaining) -> Result<(), CheckpointError>
        ensures { IfErr result (λ error. is_of_sync error ≡ false) }
    {
        if left.len() == 0 {
            return Ok(());
        }
        let hall = self.hold(rt);
        let is_all = left.look(&hall);
        drop(hall);
        if !is_all {
            return Err(CheckpointError::Broken);
        }
        left.strike_clean();
        Ok(())
    }
}

/// Yields before the pass that follows so many idle ones: twice as often each time, up to [`LONGEST_REST`].
fn rest(idle: u32) {
    let mut times = 1u32;
    for _ in 0..idle {
        times = times.saturating_mul(2).min(LONGEST_REST);
    }
    for _ in 0..times {
        yield_now();
    }
}
