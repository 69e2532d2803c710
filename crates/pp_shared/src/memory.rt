//! Pages in memory.

ghost use Rattle.std.specs.Prelude.{◌≡◌, ◌<◌, ◌≤◌, IfOk, length, vec_len};
ghost use Rattle.pp_device.specs.Image.{blank_image};

use pp_device::image;
use pp_device::image::HEAD;
use std::alloc::{AllocError, Global};
use std::sync::{RwLock, Wait};

/// The images of pages in memory, that of page p at place p, each under a lock of its own.
///
/// So a call waits for calls of the same page alone, and readings of a page don't wait for each other.
#[derive(Drop)]
pub struct Memory {
    page_bytes: usize,
    images: Vec<RwLock<Vec<u8>>>,
}

/// The image of a page to which nothing was written: the number of the page, the stamp 0, and zeros.
fn blank_image(alloc: Global, page: u32, page_bytes: usize) -> Result<Vec<u8>, AllocError>
    requires { HEAD ≤ page_bytes }
    ensures { IfOk result (λ image. image.items ≡ blank_image page_bytes page) }
{
    let mut bytes = Vec::from_elem(alloc, 0, page_bytes)?;
    image::make(&mut bytes, page, 0);
    Ok(bytes)
}

/// Copies one image over another.
///
/// All images of a device are of one length. No clause can say so of what lies under a lock, so it is tested here.
fn copy_image(to: &mut [u8], from: &[u8])
    ensures { length from.now ≡ length to.old → to.new ≡ from.now }
{
    if from.len() == to.len() {
        to.copy_from_slice(from);
    }
}

impl Memory {
    /// So many pages of `page_bytes` bytes, numbered from 0, each with its blank image.
    ///
    /// # Errors
    ///
    /// Memory may run out.
    pub fn new(alloc: Global, pages: u32, page_bytes: usize) -> Result<Memory, AllocError>
        requires { HEAD ≤ page_bytes }
        ensures pages { IfOk result (λ memory. vec_len memory.images ≡ pages) }
        ensures page_bytes { IfOk result (λ memory. memory.page_bytes ≡ page_bytes) }
    {
        let mut images = Vec::with_capacity(alloc, pages as usize)?;
        for page in 0..pages {
            images.push(RwLock::new(blank_image(alloc, page, page_bytes)?))?;
        }
        Ok(Memory { page_bytes, images })
    }

    /// How many pages there are.
    pub fn pages(&self) -> u64
        ensures { result ≡ vec_len self.now.images }
    {
        self.images.len() as u64
    }

    /// How many bytes an image has.
    pub fn page_bytes(&self) -> usize
        ensures { result ≡ self.now.page_bytes }
    {
        self.page_bytes
    }

    /// Copies the image of the page into the slice.
    pub fn read<R: Wait>(&self, rt: &R, page: u32, image: &mut [u8])
        requires { page < vec_len self.now.images }
    {
        let kept = self.images[page as usize].read(rt);
        copy_image(image, &kept);
    }

    /// Copies the slice into the image of the page.
    pub fn write<R: Wait>(&self, rt: &R, page: u32, image: &[u8])
        requires { page < vec_len self.now.images }
    {
        let mut kept = self.images[page as usize].write(rt);
        copy_image(&mut kept, image);
    }
}
