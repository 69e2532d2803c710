//! The turns of a worker and of the flusher, on one thread.

ghost use Rattle.std.specs.Prelude.{◌≡◌, true, None, Some};
ghost use Rattle.pp_vault.specs.Stages.{stage_worker, is_free_for};

use crate::answer::Answer;
use crate::tried::{Told, Tried};
use pp_device::SoloDevice;
use pp_pool::{Book, Flusher, OwnSite, Turned, Worker};
use pp_run_command::Rounds;
use pp_settings::Settings;
use pp_test_plain::accepted;
use pp_test_plain::samples::WRITE;
use pp_vault::{Flushing, Hand, Hands};
use std::alloc::Global;
use std::fmt;

/// How a turn ends. It is followed by another one until there is nothing to do.
#[derive(Drop)]
pub struct Turn {
    turned: Turned,
}

impl Told for Turn {
    fn is_last(&self) -> bool {
        self.turned == Turned::Ended
    }
}

impl fmt::Display for Turn {
    fn fmt<W: fmt::Write>(&self, f: &mut fmt::Formatter<W>) -> fmt::Result {
        write!(f, "{:?}", self.turned)
    }
}

/// A book with a plan, a worker for it, and the tokens that nobody has at hand.
pub struct Working {
    pub worker: Worker<OwnSite, SoloDevice>,
    work: Rounds,
    hands: Hands,
    /// Whether the plan was taken in.
    pub is_queued: bool,
    ghost first_worker: { stage_worker worker.hand.stage ≡ Some 0 },
    ghost its_place_is_free: { is_free_for hands.workers (Some 0) ≡ true },
    ghost no_flush: { hands.flushing ≡ None },
}

impl Tried for Working {
    type Told = Turn;

    fn stand(&self) -> Option<Answer> {
        Some(Answer::One("events", self.worker.log.len() as u64))
    }

    /// The first turn gets room for the plan's events.
    fn call(&mut self) -> Turn {
        Turn {
            turned: self.worker.turn(&mut self.work),
        }
    }
}

impl Working {
    /// A worker that has done nothing yet.
    pub fn new(alloc: Global, settings: &Settings) -> anyhow::Result<Working> {
        let plan = accepted(alloc, settings, WRITE)?;
        let device = SoloDevice::new(alloc, 24, 64)?;
        settings.see_bounded()?;
        let (mut book, mut hands) = Book::new(alloc, settings)?;
        let is_queued = book.submit(plan).is_ok();
        let hand = match hands.part(0) {
            Some(hand) => hand,
            None => unreachable!(),
        };
        let worker = Worker::new(alloc, OwnSite { book }, device, hand, settings);
        Ok(Working {
            worker,
            work: Rounds::new(0, 0),
            hands,
            is_queued,
        })
    }

    /// Ends the worker, and gives the book, the device, and all tokens.
    pub fn end(self) -> (Book, SoloDevice, Hands)
        ensures { result.2.flushing ≡ None }
    {
        let Working {
            worker,
            work: _,
            hands,
            is_queued: _,
        } = self;
        let (site, device, hand, _log) = worker.end();
        let OwnSite { book } = site;
        (book, device, joined(hands, hand))
    }
}

/// The hands, with the worker's.
fn joined(mut hands: Hands, hand: Hand) -> Hands
    requires worker { stage_worker hand.stage ≡ Some 0 }
    requires place { is_free_for hands.workers (Some 0) ≡ true }
    requires no_flush { hands.flushing ≡ None }
    ensures { result.flushing ≡ None }
{
    match hands.join(hand) {
        Ok(()) => hands,
        Err(_) => unreachable!(),
    }
}

/// A flusher.
pub struct Writing {
    pub flusher: Flusher<OwnSite, SoloDevice>,
}

impl Tried for Writing {
    type Told = Turn;

    fn call(&mut self) -> Turn {
        Turn {
            turned: self.flusher.turn(),
        }
    }
}

impl Writing {
    /// Ends the flusher, and gives the book and all tokens.
    pub fn end(self, hands: Hands) -> (Book, Hands)
        requires { hands.flushing ≡ None }
    {
        let Writing { flusher } = self;
        let (site, _device, flushing, _ended, _failed) = flusher.end();
        let OwnSite { book } = site;
        (book, with_flush(hands, flushing))
    }
}

/// The hands, with what the flusher has.
fn with_flush(hands: Hands, flushing: Option<Flushing>) -> Hands
    requires { hands.flushing ≡ None }
{
    let Hands {
        workers,
        flushing: none,
    } = hands;
    match none {
        None => Hands { workers, flushing },
        Some(_) => unreachable!(),
    }
}
