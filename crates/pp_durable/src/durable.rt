//! What a device does whose pages outlive a crash.

ghost use Rattle.std.specs.Prelude.{◌≡◌, ℕ, ◌+◌, ◌<◌, List, IsErr, OnOk, OnErr};
ghost use Rattle.pp_device.specs.Answers.{Answer};
ghost use Rattle.pp_durable.specs.Syncing.{SyncAnswer};

use crate::fault::SyncFault;
use pp_device::Device;

/// A device that can have all on the medium that was written to it.
///
/// Contracts see of it how many syncs were asked, `syncs`, and how many of these failed, `failed_syncs`. Both are ghost
/// members, so they have no upper end; a device holds a [`crate::Syncs`] for them. Two more say what a sync does:
/// `sync_leaves`, what it can answer and what it leaves of the device, and `may_leave`, which images of a page a crash
/// may leave now. A device in a test knows that exactly ([`crate::laws`]). Of a file no clause can: there `may_leave`
/// allows every image, and that a sync which was done is kept is the system's word.
///
/// A reading or a writing is no sync, and undoes none that failed (`read_keeps`, `write_keeps`).
pub trait Durable: Device {
    ghost syncs: { Self → ℕ };

    ghost failed_syncs: { Self → ℕ };

    ghost sync_leaves: { Self → SyncAnswer → Self → Type 0 };

    ghost may_leave: { Self → ℕ → List ℕ → Type 0 };

    /// Has on the medium all that was written before.
    ///
    /// # Errors
    ///
    /// [`SyncFault`] where it may not be there. Then each later sync fails too.
    fn sync(&mut self) -> Result<(), SyncFault>
        ensures left { sync_leaves self.old result self.new }
        ensures asked { syncs self.new ≡ syncs self.old + 1 }
        ensures ok { OnOk result (failed_syncs self.new ≡ failed_syncs self.old) }
        ensures err { OnErr result (failed_syncs self.new ≡ failed_syncs self.old + 1) }
        ensures stays_failed { 0 < failed_syncs self.old → IsErr result }
        ensures calls { Self.calls self.new ≡ Self.calls self.old }
        ensures failures { Self.failures self.new ≡ Self.failures self.old };

    ghost read_keeps: { (d e : Self) (page : ℕ) (slice given : List ℕ) (answer : Answer)
        → Self.read_gives d page slice answer given e → (syncs e ≡ syncs d) × (failed_syncs e ≡ failed_syncs d) };

    ghost write_keeps: { (d e : Self) (page : ℕ) (image : List ℕ) (answer : Answer)
        → Self.write_leaves d page image answer e → (syncs e ≡ syncs d) × (failed_syncs e ≡ failed_syncs d) };
}
