//! A device that notices a torn or changed page.

ghost use Rattle.std.specs.Prelude.{◌≡◌, ◌+◌, ◌^◌, ◌<◌, ◌≤◌, IfErr, IfOk, length};
ghost use Rattle.pp_durable.specs.Checked.{ChecksInside, with_sum};

use crate::durable::Durable;
use crate::fault::SyncFault;
use crate::sum::sum_of;
use pp_device::image::HEAD;
use pp_device::{Count, Device, Fault};
use std::alloc::{AllocError, Global};
use std::marker::Model;

/// How many bytes the sum takes: CRC-32C has 32 bits.
pub const SUM: usize = 4;

/// A device that keeps with each page the check sum of its bytes.
///
/// The images of the device inside are four bytes longer than those that its caller reads and writes: the page's bytes,
/// and then their CRC-32C, big-endian. So a page of 4092 bytes takes 4096 on the medium. A writing puts the sum there. A
/// reading whose sum doesn't fit fails, and leaves the caller's slice as it was.
///
/// It notices a page of which a part was written, and bytes that changed where they lie. It doesn't notice that a writing
/// was lost as a whole: the page from before fits its sum as well. Nor does it know where a page belongs; the number in
/// its head tells that, which is under the sum.
#[derive(Drop)]
pub struct Checksummed<D> {
    device: D,
    /// As long as an image of the device inside. What it holds between two calls says nothing.
    buffer: Vec<u8>,
    calls: Count,
    failures: Count,
}

impl<D> Model for Checksummed<D> {
    ghost use Rattle.std.specs.Prelude.{◌-◌, ◌+◌, ◌≤◌, vec_len};
    ghost use Rattle.pp_durable.specs.Checked.{Checked};

    ghost Value = { Checked D };

    ghost view = { λ c. record {
      device = c.device;
      page_bytes = vec_len c.buffer - 4;
      calls = c.calls.number;
      failures = c.failures.number;
    } };

    ghost invariant = { λ c. 16 ≤ vec_len c.buffer };
}

/// Reads the page into the buffer, and copies its bytes into the slice where their sum fits.
fn read_checked<D: Device>(
    device: &mut D,
    buffer: &mut [u8],
    page: u32,
    image: &mut [u8],
) -> Result<(), Fault>
    requires room { length buffer.old ≡ length image.old + SUM }
    requires head { HEAD ≤ length image.old }
    ensures given { ChecksInside D.read_gives device.old page buffer.old image.old result image.new device.new }
    ensures fault { IfErr result (λ fault. fault ≡ Fault.Read) }
{
    device.read(page, buffer)?;
    let (bytes, sum) = buffer.split_at(image.len());
    if sum != sum_of(bytes).to_be_bytes().as_slice() {
        return Err(Fault::Read);
    }
    image.copy_from_slice(bytes);
    Ok(())
}

/// Copies the bytes and their sum into the buffer.
fn put_with_sum(buffer: &mut [u8], image: &[u8])
    requires { length buffer.old ≡ length image.now + SUM }
    ensures { buffer.new ≡ with_sum image.now }
{
    let (bytes, sum) = buffer.split_at_mut(image.len());
    bytes.copy_from_slice(image);
    sum.copy_from_slice(&sum_of(image).to_be_bytes());
}

impl<D> Checksummed<D> {
    ghost use Rattle.pp_durable.specs.Checked.{new_checked, is_as_long};

    /// The device behind check sums. The caller's pages have so many bytes, and those of the device inside four more.
    ///
    /// # Errors
    ///
    /// Memory may run out. Then the device comes back.
    pub fn new(
        alloc: Global,
        device: D,
        page_bytes: usize,
    ) -> Result<Checksummed<D>, (AllocError, D)>
        requires head { HEAD ≤ page_bytes }
        requires room { page_bytes + SUM < 2 ^ 64 }
        ensures ok { IfOk result (λ checked. checked ≡ new_checked device page_bytes) }
        ensures err { IfErr result (λ back. back.1 ≡ device) }
    {
        match Vec::from_elem(alloc, 0, page_bytes + SUM) {
            Ok(buffer) => Ok(Checksummed {
                device,
                buffer,
                calls: Count::new(),
                failures: Count::new(),
            }),
            Err(error) => Err((error, device)),
        }
    }

    /// The device inside.
    pub fn into_inner(self) -> D
        ensures { result ≡ self.device }
    {
        let Checksummed { device, .. } = self;
        device
    }

    /// Whether a slice of this length is as long as a page.
    fn serves(&self, len: usize) -> bool
        ensures { result ≡ is_as_long self.now len }
    {
        len == self.buffer.len() - SUM
    }
}

impl<D: Device> Device for Checksummed<D> {
    ghost use Rattle.pp_durable.specs.Checked.{CheckedReads, CheckedWrites};

    ghost calls = { λ c. c.calls };

    ghost failures = { λ c. c.failures };

    ghost read_gives = { CheckedReads D.read_gives };

    ghost write_leaves = { CheckedWrites D.write_leaves };

    fn read(&mut self, page: u32, image: &mut [u8]) -> Result<(), Fault> {
        let serves = self.serves(image.len());
        self.calls.raise();
        let answer = if serves {
            read_checked(&mut self.device, &mut self.buffer, page, image)
        } else {
            Err(Fault::Read)
        };
        if answer.is_err() {
            self.failures.raise();
        }
        answer
    }

    fn write(&mut self, page: u32, image: &[u8]) -> Result<(), Fault> {
        let serves = self.serves(image.len());
        self.calls.raise();
        let answer = if serves {
            put_with_sum(&mut self.buffer, image);
            self.device.write(page, &self.buffer)
        } else {
            Err(Fault::Write)
        };
        if answer.is_err() {
            self.failures.raise();
        }
        answer
    }
}

impl<D: Durable> Durable for Checksummed<D> {
    ghost use Rattle.pp_durable.specs.Checked.{CheckedSyncs, LeavesFront, reads-keep, writes-keep};

    ghost syncs = { λ c. D.syncs c.device };

    ghost failed_syncs = { λ c. D.failed_syncs c.device };

    ghost sync_leaves = { CheckedSyncs D.sync_leaves };

    ghost may_leave = { LeavesFront D.may_leave };

    ghost read_keeps = { reads-keep D.read_gives D.syncs D.failed_syncs D.read_keeps };

    ghost write_keeps = { writes-keep D.write_leaves D.syncs D.failed_syncs D.write_keeps };

    fn sync(&mut self) -> Result<(), SyncFault> {
        self.device.sync()
    }
}
