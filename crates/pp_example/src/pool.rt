//! A pool with one worker, on one thread.

ghost use Rattle.std.specs.Prelude.{◌≡◌, true, None, Some};
ghost use Rattle.pp_vault.specs.Stages.{stage_worker, is_free_for};

use pp_cert::Accepted;
use pp_device::SoloDevice;
use pp_pool::{Book, BookError, Flusher, Journal, OwnSite, Turned, Work, Worker};
use pp_settings::Settings;
use pp_vault::{Flushing, Hand, Hands};
use std::alloc::Global;

/// A worker, which has the pool's book and the device of its pages, and the tokens that nobody has at hand.
///
/// The compiler refuses code that lets it fall: [`Pool::close`] spends it.
pub struct Pool {
    worker: Worker<OwnSite, SoloDevice>,
    hands: Hands,
    ghost first_worker: { stage_worker worker.hand.stage ≡ Some 0 },
    ghost its_place_is_free: { is_free_for hands.workers (Some 0) ≡ true },
    ghost no_flush: { hands.flushing ≡ None },
}

impl Pool {
    /// A pool that has read no page yet.
    ///
    /// # Errors
    ///
    /// Where the settings are of endless lives, which a book doesn't serve, and where memory runs out.
    pub fn new(alloc: Global, settings: &Settings, device: SoloDevice) -> anyhow::Result<Pool> {
        settings.see_bounded()?;
        let (book, mut hands) = Book::new(alloc, settings)?;
        let hand = match hands.part(0) {
            Some(hand) => hand,
            None => unreachable!(),
        };
        let worker = Worker::new(alloc, OwnSite { book }, device, hand, settings);
        Ok(Pool { worker, hands })
    }

    /// Submits the plan, and has the worker do it with this work. Answers how the last turn ended: `Ended` where the
    /// worker is idle again.
    ///
    /// # Errors
    ///
    /// Where the book doesn't take the plan in. Nothing has changed then.
    pub fn run<W: Work>(&mut self, plan: Accepted, work: &mut W) -> Result<Turned, BookError> {
        let cost = plan.cost();
        if let Err((_plan, error)) = self.worker.site.book.submit(plan) {
            return Err(error);
        }
        // A plan has at most as many events as it costs; after them there is nothing to do.
        for _ in 0..=cost {
            let turned = self.worker.turn(work);
            if turned != Turned::Done {
                return Ok(turned);
            }
        }
        Ok(Turned::Broken)
    }

    /// Has the flusher write changed pages, until there is none or the settings allow no flush more. Then gives the pool
    /// up, and gives its journal.
    pub fn close(self, settings: &Settings) -> Journal {
        let Pool { worker, hands } = self;
        let (site, device, hand, _log) = worker.end();
        let mut flusher = Flusher::new(site, device);
        // A flush takes two turns: one begins it, and one calls the device and ends it.
        for _ in 0..settings.flushes().saturating_mul(2) {
            if flusher.turn() != Turned::Done {
                break;
            }
        }
        let (site, _device, flushing, _ended, _failed) = flusher.end();
        let OwnSite { book } = site;
        book.close(together(hands, hand, flushing))
    }
}

/// The hands, with what the worker and the flusher have.
fn together(mut hands: Hands, hand: Hand, flushing: Option<Flushing>) -> Hands
    requires worker { stage_worker hand.stage ≡ Some 0 }
    requires place { is_free_for hands.workers (Some 0) ≡ true }
    requires no_flush { hands.flushing ≡ None }
{
    match hands.join(hand) {
        Ok(()) => {}
        Err(_) => unreachable!(),
    }
    let Hands {
        workers,
        flushing: no_flush,
    } = hands;
    match no_flush {
        None => Hands { workers, flushing },
        Some(_) => unreachable!(),
    }
}
