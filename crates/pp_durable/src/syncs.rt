//! The syncs of a device.

ghost use Rattle.std.specs.Prelude.{◌≡◌, ◌<◌, ◌↔◌, IsTrue, IsErr};

use crate::fault::SyncFault;
use pp_device::Count;
use std::marker::Model;

/// How many syncs a device was asked for, how many of these failed, and whether one did.
///
/// The numbers are ghosts. Whether one failed is a byte, by which a device answers the next sync without asking the
/// medium again:
///
///     let answer = if self.syncs.has_failed() { Err(SyncFault) } else { self.ask_the_medium() };
///     self.syncs.count(answer);
///     answer
#[derive(Drop)]
pub struct Syncs {
    asked: Count,
    failed: Count,
    has_failed: bool,
}

impl Model for Syncs {
    ghost use Rattle.std.specs.Prelude.{◌≡◌, nat_lt};
    ghost use Rattle.pp_durable.specs.Syncing.{SyncCounts};

    ghost Value = { SyncCounts };

    ghost view = { λ s. record { asked = s.asked.number; failed = s.failed.number } };

    ghost invariant = { λ s. s.has_failed ≡ nat_lt 0 s.failed.number };
}

impl Syncs {
    ghost use Rattle.pp_durable.specs.Syncing.{no_syncs, counted_sync};

    /// None was asked yet.
    pub fn new() -> Syncs
        ensures { result ≡ no_syncs }
    {
        Syncs {
            asked: Count::new(),
            failed: Count::new(),
            has_failed: false,
        }
    }

    /// Whether one has failed, so that each further one fails.
    pub fn has_failed(&self) -> bool
        ensures { IsTrue result ↔ (0 < self.now.failed) }
    {
        self.has_failed
    }

    /// Counts one that was answered so.
    pub fn count(&mut self, answer: Result<(), SyncFault>)
        requires { 0 < self.old.failed → IsErr answer }
        ensures { self.new ≡ counted_sync self.old answer }
    {
        self.asked.raise();
        if answer.is_err() {
            self.failed.raise();
            self.has_failed = true;
        }
    }
}
