//! The end of a scene's device by which it is synced.

use crate::board::Board;
use crate::scene::{Faults, Thing};
use pp_device::{Count, Device, Fault};
use pp_durable::{Durable, SyncFault, Syncs};
use std::marker::Model;

/// An end that only syncs: what the other ends have written is stable then. It neither reads nor writes.
#[derive(Drop)]
pub struct Medium<'a> {
    board: &'a Board,
    calls: Count,
    failures: Count,
    syncs: Syncs,
}

impl<'a> Medium<'a> {
    /// An end of the scene's device.
    pub fn new(board: &'a Board) -> Medium<'a> {
        Medium {
            board,
            calls: Count::new(),
            failures: Count::new(),
            syncs: Syncs::new(),
        }
    }

    /// Asks the medium, once the sync was counted on the board.
    fn settle(&self) -> Result<(), SyncFault> {
        let number = self.board.number(Thing::Synced);
        let is_lost = match self.board.scene.faults {
            Faults::Syncs(first) => first <= number,
            _ => false,
        };
        if is_lost {
            return Err(SyncFault);
        }
        self.board.settle();
        Ok(())
    }
}

impl<'a> Device for Medium<'a> {
    ghost use Rattle.std.specs.Prelude.{◌≡◌};

    ghost calls = { λ d. d.calls.number };

    ghost failures = { λ d. d.failures.number };

    ghost read_gives = { λ d page old answer new e. e.syncs ≡ d.syncs };

    ghost write_leaves = { λ d page image answer e. e.syncs ≡ d.syncs };

    fn read(&mut self, _page: u32, _image: &mut [u8]) -> Result<(), Fault> {
        self.calls.raise();
        self.failures.raise();
        Err(Fault::Read)
    }

    fn write(&mut self, _page: u32, _image: &[u8]) -> Result<(), Fault> {
        self.calls.raise();
        self.failures.raise();
        Err(Fault::Write)
    }
}

impl<'a> Durable for Medium<'a> {
    ghost use Rattle.std.specs.Prelude.{◌≡◌};
    ghost use Rattle.std.proofs.Common.{ap};

    ghost syncs = { λ d. d.syncs.asked };

    ghost failed_syncs = { λ d. d.syncs.failed };

    ghost sync_leaves = { λ d answer e. Unit {0} };

    ghost may_leave = { λ d page image. Unit {0} };

    ghost read_keeps = { λ d e page slice given answer r. (ap (λ s. s.asked) r, ap (λ s. s.failed) r) };

    ghost write_keeps = { λ d e page image answer r. (ap (λ s. s.asked) r, ap (λ s. s.failed) r) };

    fn sync(&mut self) -> Result<(), SyncFault> {
        self.board.tell(Thing::Synced);
        let answer = if self.syncs.has_failed() {
            Err(SyncFault)
        } else {
            self.settle()
        };
        self.syncs.count(answer);
        answer
    }
}
