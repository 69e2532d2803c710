//! A device in memory, for one user.

ghost use Rattle.std.specs.Prelude.{◌≡◌, ℕ, ◌≤◌, IfOk, length, vec_len};
ghost use Rattle.pp_device.specs.Image.{blank_image};

use crate::count::Count;
use crate::device::Device;
use crate::fault::Fault;
use crate::image;
use crate::image::HEAD;
use std::alloc::{AllocError, Global};
use std::marker::Model;

/// A device that keeps its pages in memory.
///
/// Its calls fail only for a page that it does not have, and for a slice that is not as long as an image; then nothing
/// changes.
#[derive(Drop)]
pub struct SoloDevice {
    page_bytes: usize,
    images: Vec<Vec<u8>>,
    calls: Count,
    failures: Count,
}

impl Model for SoloDevice {
    ghost use Rattle.std.specs.Prelude.{◌≡◌, All, map, vec_len};
    ghost use Rattle.pp_device.specs.Disk.{Disk};

    ghost Value = { Disk };

    ghost view = { λ d. record {
      page_bytes = d.page_bytes;
      images = map (λ v. v.items) d.images.items;
      calls = d.calls.number;
      failures = d.failures.number;
    } };

    ghost invariant = { λ d. All (λ v. vec_len v ≡ d.page_bytes) d.images.items };
}

/// The image of a page to which nothing was written: the number of the page, the stamp 0, and zeros.
fn blank_image(alloc: Global, page: u32, page_bytes: usize) -> Result<Vec<u8>, AllocError>
    requires { HEAD ≤ page_bytes }
    ensures exact { IfOk result (λ image. image.items ≡ blank_image page_bytes page) }
    ensures len { IfOk result (λ image. vec_len image ≡ page_bytes) }
{
    let mut bytes = Vec::from_elem(alloc, 0, page_bytes)?;
    image::make(&mut bytes, page, 0);
    Ok(bytes)
}

impl SoloDevice {
    ghost use Rattle.pp_device.specs.Disk.{new_disk, is_served};

    /// A device of so many pages of `page_bytes` bytes, numbered from 0. Each one has its number in its head, the stamp
    /// 0, and a body of zeros.
    ///
    /// # Errors
    ///
    /// Memory may run out.
    pub fn new(alloc: Global, pages: u32, page_bytes: usize) -> Result<SoloDevice, AllocError>
        requires { HEAD ≤ page_bytes }
        ensures { IfOk result (λ device. device ≡ new_disk pages page_bytes) }
    {
        let mut images = Vec::with_capacity(alloc, pages as usize)?;
        for page in 0..pages {
            images.push(blank_image(alloc, page, page_bytes)?)?;
        }
        Ok(SoloDevice {
            page_bytes,
            images,
            calls: Count::new(),
            failures: Count::new(),
        })
    }

    /// Whether the device has the page, and a slice of this length is as long as an image.
    fn serves(&self, page: u32, len: usize) -> bool
        ensures { result ≡ is_served self.now page len }
    {
        (page as usize) < self.images.len() && len == self.page_bytes
    }
}

impl Device for SoloDevice {
    ghost use Rattle.pp_device.specs.Disk.{DiskReads, DiskWrites};

    ghost calls = { λ d. d.calls };

    ghost failures = { λ d. d.failures };

    ghost read_gives = { DiskReads };

    ghost write_leaves = { DiskWrites };

    fn read(&mut self, page: u32, image: &mut [u8]) -> Result<(), Fault> {
        let serves = self.serves(page, image.len());
        self.calls.raise();
        if !serves {
            self.failures.raise();
            return Err(Fault::Read);
        }
        image.copy_from_slice(&self.images[page as usize]);
        Ok(())
    }

    fn write(&mut self, page: u32, image: &[u8]) -> Result<(), Fault> {
        let serves = self.serves(page, image.len());
        self.calls.raise();
        if !serves {
            self.failures.raise();
            return Err(Fault::Write);
        }
        self.images[page as usize].copy_from_slice(image);
        Ok(())
    }
}
