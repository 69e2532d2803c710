//! A device that has the log on the medium before it writes a page.

ghost use Rattle.std.specs.Prelude.{◌≡◌, ◌≤◌, IfErr, length};

use crate::durable::Durable;
use crate::fault::SyncFault;
use crate::log::Log;
use pp_device::image::HEAD;
use pp_device::{Count, Device, Fault};
use std::marker::Model;

/// A device behind an engine's log.
///
/// No image was ever handed to the device whose records weren't on the medium, also not by a call that failed: the type
/// says so of every value, and [`WriteAhead::newest`] tells it. A page is written when the log is there up to the number
/// in its image. Where the log can't be forced, the device isn't called, and the writing fails; in a pool such a page
/// stays changed and in its frame.
#[derive(Drop)]
pub struct WriteAhead<D, L: Log> {
    device: D,
    log: L,
    /// The greatest number in an image that was handed to the device.
    newest: u64,
    calls: Count,
    failures: Count,
}

impl<D, L: Log> Model for WriteAhead<D, L> {
    ghost use Rattle.std.specs.Prelude.{◌≤◌};
    ghost use Rattle.pp_durable.specs.Ahead.{Ahead};

    ghost Value = { Ahead D L };

    ghost view = { λ w. record {
      device = w.device;
      log = w.log;
      newest = w.newest;
      calls = w.calls.number;
      failures = w.failures.number;
    } };

    ghost invariant = { λ w. w.newest ≤ L.durable w.log };
}

/// Hands the image to the device. Its records are on the medium.
fn hand_on<D: Device, L: Log>(device: &mut D, log: &L, page: u32, image: &[u8]) -> Result<(), Fault>
    requires head { HEAD ≤ length image.now }
    requires on_medium { L.number_in image.now ≤ L.durable log.now }
    ensures left { D.write_leaves device.old page image.now result device.new }
    ensures fault { IfErr result (λ fault. fault ≡ Fault.Write) }
{
    device.write(page, image)
}

impl<D, L: Log> WriteAhead<D, L> {
    ghost use Rattle.pp_durable.specs.Ahead.{new_ahead};

    /// The device behind the log. Nothing was handed to it yet.
    pub fn new(device: D, log: L) -> WriteAhead<D, L>
        ensures { result ≡ new_ahead device log }
    {
        WriteAhead {
            device,
            log,
            newest: 0,
            calls: Count::new(),
            failures: Count::new(),
        }
    }

    /// The greatest number in an image that was ever handed to the device by this value. The records are on the medium up
    /// to there.
    pub fn newest(&self) -> u64
        ensures exact { result ≡ self.now.newest }
        ensures ahead { result ≤ L.durable self.now.log }
    {
        self.newest
    }

    /// The log.
    pub fn log(&self) -> &L
        ensures { result.now ≡ self.now.log }
    {
        &self.log
    }

    /// The device and the log.
    pub fn into_parts(self) -> (D, L)
        ensures { result ≡ (self.device, self.log) }
    {
        let WriteAhead { device, log, .. } = self;
        (device, log)
    }
}

impl<D: Device, L: Log> Device for WriteAhead<D, L> {
    ghost use Rattle.pp_durable.specs.Ahead.{AheadReads, AheadWrites};

    ghost calls = { λ w. w.calls };

    ghost failures = { λ w. w.failures };

    ghost read_gives = { AheadReads D.read_gives };

    ghost write_leaves = { AheadWrites L.number_in L.durable L.force_leaves D.write_leaves };

    fn read(&mut self, page: u32, image: &mut [u8]) -> Result<(), Fault> {
        self.calls.raise();
        let answer = self.device.read(page, image);
        if answer.is_err() {
            self.failures.raise();
        }
        answer
    }

    fn write(&mut self, page: u32, image: &[u8]) -> Result<(), Fault> {
        self.calls.raise();
        let number = self.log.number_in(image);
        if self.log.force(number).is_err() {
            self.failures.raise();
            return Err(Fault::Write);
        }
        self.newest = self.newest.max(number);
        let answer = hand_on(&mut self.device, &self.log, page, image);
        if answer.is_err() {
            self.failures.raise();
        }
        answer
    }
}

impl<D: Durable, L: Log> Durable for WriteAhead<D, L> {
    ghost use Rattle.pp_durable.specs.Ahead.{AheadSyncs, reads-keep, writes-keep};

    ghost syncs = { λ w. D.syncs w.device };

    ghost failed_syncs = { λ w. D.failed_syncs w.device };

    ghost sync_leaves = { AheadSyncs D.sync_leaves };

    ghost may_leave = { λ w page image. D.may_leave w.device page image };

    ghost read_keeps = { reads-keep D.read_gives D.syncs D.failed_syncs D.read_keeps };

    ghost write_keeps = { writes-keep L.number_in L.durable L.force_leaves D.write_leaves D.syncs D.failed_syncs D.write_keeps };

    /// Has on the medium all that was written before. The log isn't asked: of what was written it is there already.
    fn sync(&mut self) -> Result<(), SyncFault> {
        self.device.sync()
    }
}
