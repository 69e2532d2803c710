//! What a log does for the pages that stand behind it.

ghost use Rattle.std.specs.Prelude.{◌≡◌, ℕ, ◌≤◌, List, OnOk};
ghost use Rattle.pp_durable.specs.Syncing.{SyncAnswer};

use crate::fault::SyncFault;

/// An engine's log of what it changes, as a device needs it that writes no page before its records.
///
/// Records have numbers that rise, and each image has the number of the last record whose change is in it, where the
/// engine puts it: while it has the page latched X, it writes first the record, then the bytes, then the number. Number 0
/// is that of no record.
///
/// Contracts see up to which number the records are on the medium, as far as this value knows, `durable`, where an image
/// has its number, `number_in`, and what `force` can answer and leave, `force_leaves`. A log that several devices share
/// lies under a lock of its own, and each has a handle to it, which is a `Log` as well: what a handle knows only grows.
pub trait Log {
    ghost number_in: { List ℕ → ℕ };

    ghost durable: { Self → ℕ };

    ghost force_leaves: { Self → ℕ → SyncAnswer → Self → Type 0 };

    /// The number of the last record whose change is in the image.
    fn number_in(&self, image: &[u8]) -> u64
        ensures { result ≡ number_in image.now };

    /// Has all records up to this number on the medium.
    ///
    /// # Errors
    ///
    /// [`SyncFault`] where they may not be there.
    fn force(&mut self, number: u64) -> Result<(), SyncFault>
        ensures left { force_leaves self.old number result self.new }
        ensures done { OnOk result (number ≤ durable self.new) }
        ensures kept { durable self.old ≤ durable self.new };
}
