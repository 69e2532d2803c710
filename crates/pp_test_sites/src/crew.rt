//! A worker and a flusher, on one thread.

ghost use Rattle.std.specs.Prelude.{◌≡◌, true, None, Some};
ghost use Rattle.pp_pool.specs.Flushings.{IsFlush};
ghost use Rattle.pp_vault.specs.Stages.{stage_worker, is_free_for};

use crate::visits::Visits;
use core::mem;
use pp_device::SoloDevice;
use pp_pool::{Flusher, Site, Turned, Worker};
use pp_settings::Settings;
use pp_totals::Totals;
use pp_vault::Hands;
use std::alloc::Global;

/// How many turns the flusher takes at most: more than it wants for all frames.
const FLUSHER_TURNS: u32 = 16;

/// A worker with its site and its device, which the flusher has while it turns; and the tokens that nobody has at hand.
///
/// The compiler refuses code that lets it fall: [`Crew::end`] spends it.
pub struct Crew<S> {
    pub worker: Worker<S, SoloDevice>,
    hands: Hands,
    /// From which page on the next flush is sought.
    from: u32,
    /// How many turns were done, of the worker and of the flusher. Each is a move.
    pub moves: u64,
    /// What the worker's logs came to.
    pub totals: Totals,
    alloc: Global,
    ghost first_worker: { stage_worker worker.hand.stage ≡ Some 0 },
    ghost its_place_is_free: { is_free_for hands.workers (Some 0) ≡ true },
    ghost of_flush: { IsFlush hands.flushing },
}

impl<S: Site> Crew<S> {
    /// A worker and a flusher that have done nothing, with the tokens of a new pool.
    ///
    /// # Errors
    ///
    /// The site and the tokens, where the hand of worker 0 isn't among them.
    pub fn new(
        alloc: Global,
        site: S,
        device: SoloDevice,
        mut hands: Hands,
        settings: &Settings,
    ) -> Result<Crew<S>, (S, Hands)>
        requires no_flush { hands.flushing ≡ None }
    {
        let Some(hand) = hands.part(0) else {
            return Err((site, hands));
        };
        Ok(Crew {
            worker: Worker::new(alloc, site, device, hand, settings),
            hands,
            from: 0,
            moves: 0,
            totals: Totals::new(),
            alloc,
        })
    }

    /// The worker turns until a turn isn't done, but no more often than a plan of this cost wants. Then its log is
    /// counted and emptied.
    pub fn work(&mut self, cost: u64, visits: &mut Visits) {
        for _ in 0..=cost {
            if self.worker.turn(visits) != Turned::Done {
                break;
            }
            self.moves = self.moves.saturating_add(1);
        }
        let totals = Totals::of(&self.worker.log);
        self.totals = self.totals.saturating_add(totals);
        self.worker.log.clear();
    }

    /// The flusher turns until a turn isn't done.
    pub fn flush(&mut self) {
        mem::replace_with(self, (), |crew, ()| (crew.flushed(), ()))
    }

    fn flushed(self) -> Crew<S> {
        let Crew {
            worker,
            hands,
            from,
            mut moves,
            totals,
            alloc,
        } = self;
        let (layout, page_bytes) = (worker.layout, worker.page_bytes);
        let (site, device, hand, _log) = worker.end();
        let Hands { workers, flushing } = hands;
        let mut flusher = Flusher {
            site,
            device,
            flushing,
            ended: 0,
            failed: 0,
            from,
        };
        for _ in 0..FLUSHER_TURNS {
            if flusher.turn() != Turned::Done {
                break;
            }
            moves = moves.saturating_add(1);
        }
        let Flusher {
            site,
            device,
            flushing,
            ended: _,
            failed: _,
            from,
        } = flusher;
        Crew {
            worker: Worker::over(alloc, site, device, hand, layout, page_bytes),
            hands: Hands { workers, flushing },
            from,
            moves,
            totals,
            alloc,
        }
    }

    /// Gives all up but the site and the tokens.
    pub fn end(self) -> (S, Hands) {
        let Crew {
            worker,
            mut hands,
            from: _,
            moves: _,
            totals: _,
            alloc: _,
        } = self;
        let (site, _device, hand, _log) = worker.end();
        match hands.join(hand) {
            Ok(()) => (site, hands),
            Err(_) => unreachable!(),
        }
    }
}
