//! Laws of the definitions: what a check sum notices, which devices keep every byte, and what a crash leaves of them.

ghost use Rattle.std.specs.Prelude.{◌≡◌, codes};
ghost use Rattle.pp_durable.specs.Sum.{sum_of};
ghost use Rattle.pp_durable.specs.Noticed.{NoticesAByte};
ghost use Rattle.pp_durable.specs.Honest.{AheadIsHonest, CheckedIsHonest};
ghost use Rattle.pp_durable.specs.Crash.{AheadIsDurable, CheckedIsDurable};

use crate::durable::Durable;
use crate::log::Log;
use pp_device::Device;

/// The sum is the CRC-32C that others compute: of the nine digits it is the number by which they are compared. A page of
/// which one byte was changed is never taken for what it was.
pub fn sums_notice_a_changed_byte()
    ensures check { sum_of (codes "123456789") ≡ 0xE306_9283 }
    ensures changed { NoticesAByte }
{}

/// A device that keeps every byte does so behind a log: a page that was written is read as it was written.
pub fn ahead_devices_are_honest<D: Device, L: Log>()
    ensures { AheadIsHonest L.number_in L.durable L.force_leaves D.read_gives D.write_leaves }
{}

/// A device that keeps every byte does so with check sums, of which its caller sees nothing.
pub fn checked_devices_are_honest<D: Device>()
    ensures { CheckedIsHonest D.read_gives D.write_leaves }
{}

/// What a crash may leave of a device's pages, it may leave of them behind a log, and nothing else: after a sync that was
/// done, what was kept.
pub fn ahead_devices_are_durable<D: Durable, L: Log>()
    ensures { AheadIsDurable L.number_in L.durable L.force_leaves D.read_gives D.write_leaves D.sync_leaves D.may_leave }
{}

/// What a crash may leave of a device's pages, it may leave of them with check sums, and nothing else. A sum that doesn't
/// fit what it left then fails the reading.
pub fn checked_devices_are_durable<D: Durable>()
    ensures { CheckedIsDurable D.read_gives D.write_leaves D.sync_leaves D.may_leave }
{}
