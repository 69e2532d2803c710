//! Why a thread stopped, and what it gives back.

ghost use Rattle.std.specs.Prelude.{◌≡◌, ◌↔◌, true};
ghost use Rattle.pp_run.specs.declared.stop.Stop.TheVariants.{Broken};
ghost use Rattle.pp_run.specs.Verdicts.{is_no_memory};

use pp_pool::Journal;

/// Why a worker or the flusher stopped.
#[derive(Clone, Copy, Debug, PartialEq, Eq)]
pub enum Stop {
    /// There was nothing more to do.
    Ended,
    /// Memory ran out before a plan was taken.
    NoMemory,
    /// A token didn't fit, or the plan asked something else: a slip. No test has met one, and no clause rules it out.
    Broken,
}

impl Stop {
    /// Whether a slip ended it.
    pub(crate) fn is_broken(self) -> bool
        ensures { (result ≡ true) ↔ (self ≡ Broken) }
    {
        matches!(self, Stop::Broken)
    }

    /// Whether want of memory ended it.
    pub(crate) fn is_no_memory(self) -> bool
        ensures { result ≡ is_no_memory self }
    {
        matches!(self, Stop::NoMemory)
    }
}

/// What a worker's thread gives back: its end of the device, and the events of its moves.
#[derive(Drop)]
pub struct Worked<D> {
    pub device: D,
    pub log: Journal,
    pub stop: Stop,
}

/// What the flusher's thread gives back: its end of the device, and its two counts.
#[derive(Drop)]
pub struct Flushed<D> {
    pub device: D,
    /// How many flushes were ended.
    pub ended: u64,
    /// How many of these had failed at the device.
    pub failed: u64,
    pub stop: Stop,
}
