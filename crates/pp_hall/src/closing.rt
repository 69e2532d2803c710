//! The end of a hall, and its changed pages.

ghost use Rattle.std.specs.Prelude.{◌≡◌, ◌≢◌, ℕ, ◌<◌, ◌≤◌, None, Some, IfOk, IfErr, OnOk, length, slice_get, vec_len};
ghost use Rattle.pp_hall.specs.declared.error.CloseError.TheVariants.{Busy, FlushesSpent};
ghost use Rattle.pp_model.specs.Pool.{State, dirty_pages};
ghost use Rattle.pp_vault.specs.StandsFor.{StandsFor};
ghost use Rattle.pp_hall.specs.Posts.{devices_there};
ghost use Rattle.pp_hall.specs.Closing.{ComesBy, IsClean, IsClosed, IsBack, IsDirtyPage, IsListed};

use crate::error::CloseError;
use crate::hall::{Closed, Hall, stats_of};
use crate::posts::Posts;
use crate::seating::Seating;
use crate::told::Told;
use pp_device::Device;
use pp_pool::{Flusher, Turned};

impl<D: Device + Drop> Hall<D> {
    /// Gives the hall up, once every chair is home, and the flusher: all pages that are newer than the device's are
    /// flushed, and the devices come back. It takes no memory.
    ///
    /// # Errors
    ///
    /// The hall comes back, whole.
    ///
    /// - [`CloseError::Busy`]: a chair is out, or the flusher. Nothing was done.
    /// - [`CloseError::WriteFault`]: the device failed to write this page, which is still newer. It can be tried again.
    /// - [`CloseError::FlushesSpent`]: no flush can begin any more, though pages are newer than the device's.
    pub fn close(self) -> Result<Closed<D>, (CloseError, Hall<D>)>
        ensures ok { IfOk result (λ closed. IsClosed self closed.stats) }
        ensures devices { IfOk result (λ closed. vec_len closed.devices ≡ devices_there self.posts) }
        ensures err { IfErr result (λ e. IsBack self e.0 e.1) }
    {
        let Hall {
            seating,
            mut waiters,
            mut posts,
            policy,
        } = self;
        if !seating.is_all_home() {
            let hall = Hall {
                seating,
                waiters,
                posts,
                policy,
            };
            return Err((CloseError::Busy, hall));
        }
        let Some(flusher) = posts.take_flusher() else {
            let hall = Hall {
                seating,
                waiters,
                posts,
                policy,
            };
            return Err((CloseError::Busy, hall));
        };
        let (mut flusher, ()) = over(flusher, seating);
        let flushed = flush_all(&mut flusher);
        let (flusher, seating) = over(flusher, ());
        match posts.put_flusher(flusher) {
            Ok(()) => {}
            Err(_) => unreachable!(),
        }
        match flushed {
            Ok(()) => {
                let stats = stats_of(&seating, &waiters);
                let devices = given_up(seating, posts);
                Ok(Closed { devices, stats })
            }
            Err(error) => {
                // The hall is the caller's alone, and all are home: no thread sleeps that could be told.
                nobody_is_there(waiters.settle(&seating, policy.flush_from));
                let hall = Hall {
                    seating,
                    waiters,
                    posts,
                    policy,
                };
                Err((error, hall))
            }
        }
    }

    /// Gives the hall up as it is, and writes nothing. The devices come back of those that are home: the workers' in
    /// order, and the flusher's last. The number tells how many pages were newer than the device's: what they had is
    /// lost. It takes no memory.
    ///
    /// It is for a hall that [`Hall::close`] gives back again and again: the device fails for good, no flush is left,
    /// or a chair stays out. A worker that is out keeps its device and its tokens, and no hall takes them any more.
    pub fn abandon(self) -> (Vec<D>, u32)
        ensures dirty { (s : State) → StandsFor self.seating.vault s → result.1 ≡ dirty_pages s }
        ensures devices { vec_len result.0 ≡ devices_there self.posts }
    {
        let Hall {
            seating,
            waiters: _waiters,
            posts,
            policy: _,
        } = self;
        let dirty = seating.dirty();
        (given_up(seating, posts), dirty)
    }

    /// Writes the pages that are newer than the device's into the slice, each with its mark, as far as it goes: from
    /// page 0 on. Tells how many it wrote. It looks at every page.
    pub fn dirty_pages(&self, into: &mut [(u32, u64)]) -> usize
        ensures few { result ≤ length into.old }
        ensures each { (k page mark : ℕ) → k < result → slice_get into.new k ≡ Some (page, mark)
            → IsDirtyPage self.now.seating.vault page mark }
        ensures all { result < length into.old
            → (page mark : ℕ) → IsDirtyPage self.now.seating.vault page mark → IsListed result into.new page mark }
    {
        let seating = &self.seating;
        let mut count = 0;
        for page in 0..seating.pages() {
            if count == into.len() {
                return count;
            }
            if let Some(mark) = seating.dirty_mark(page) {
                into[count] = (page, mark);
                count += 1;
            }
        }
        count
    }
}

/// The devices of those that are home. All else is given up.
fn given_up<D: Device + Drop>(seating: Seating, posts: Posts<D>) -> Vec<D>
    ensures { vec_len result ≡ devices_there posts }
{
    let (devices, hands, flush) = posts.end();
    seating.scrap(hands, flush);
    devices
}

/// The same flusher over another site, and the site that it had.
fn over<S, T, D>(flusher: Flusher<S, D>, site: T) -> (Flusher<T, D>, S)
    ensures site { result.0.site ≡ site }
    ensures before { result.1 ≡ flusher.site }
    ensures flushing { result.0.flushing ≡ flusher.flushing }
{
    let Flusher {
        site: before,
        device,
        flushing,
        ended,
        failed,
        from,
    } = flusher;
    let flusher = Flusher {
        site,
        device,
        flushing,
        ended,
        failed,
        from,
    };
    (flusher, before)
}

/// Flushes until no page is newer than the device's. A flush that is in hand is ended first.
fn flush_all<D: Device>(flusher: &mut Flusher<Seating, D>) -> Result<(), CloseError>
    ensures clean { OnOk result (IsClean flusher.new.site) }
    ensures by { ComesBy flusher.old.site flusher.new.site }
    ensures spent { IfErr result (λ e. e ≡ FlushesSpent
        → (s : State) → StandsFor flusher.new.site.vault s → dirty_pages s ≢ 0) }
    ensures error { IfErr result (λ e. e ≢ Busy) }
{
    for _ in 0..u64::MAX {
        if flusher.flushing.is_none() && flusher.site.dirty() == 0 {
            return Ok(());
        }
        let (page, failed) = (flusher.site.flushing(), flusher.failed);
        match flusher.turn() {
            Turned::Done => {}
            _ => return Err(stuck(&flusher.site, page)),
        }
        if flusher.failed != failed {
            return Err(CloseError::WriteFault(page.unwrap_or(0)));
        }
    }
    Err(stuck(&flusher.site, None))
}

/// Why no flush goes on, where this page, if one, is being flushed.
fn stuck(seating: &Seating, page: Option<u32>) -> CloseError
    ensures spent { result ≡ FlushesSpent → (s : State) → StandsFor seating.now.vault s → dirty_pages s ≢ 0 }
    ensures error { result ≢ Busy }
{
    match page {
        None if seating.dirty() != 0 => CloseError::FlushesSpent,
        page => CloseError::WriteFault(page.unwrap_or(0)),
    }
}

/// Wakes nobody.
fn nobody_is_there(told: Told) {
    let Told {
        workers,
        next: _,
        all: _,
        flusher: _,
    } = told;
    workers.into_mask();
}
