//! Where the pages of a shared device are.

ghost use Rattle.std.specs.Prelude.{◌≡◌, true, IsOk, IfErr, length};
ghost use Rattle.pp_shared.specs.Stores.{is_memory, pages_of, page_bytes_of};
ghost use Rattle.pp_shared.specs.End.{has_image};

use crate::file::PageFile;
use crate::memory::Memory;
use pp_device::Fault;
use pp_durable::SyncFault;
use std::sync::Wait;

/// Pages in memory or in a file.
#[derive(Drop)]
pub enum Store {
    Memory(Memory),
    File(PageFile),
}

impl Store {
    /// Whether the page is there, and a slice of this length is as long as an image.
    pub fn serves(&self, page: u32, len: usize) -> bool
        ensures { result ≡ has_image (pages_of self.now) (page_bytes_of self.now) page len }
    {
        let (pages, page_bytes) = match self {
            Store::Memory(memory) => (memory.pages(), memory.page_bytes()),
            Store::File(file) => (file.pages(), file.page_bytes()),
        };
        u64::from(page) < pages && len == page_bytes
    }

    /// Reads the image of the page into the slice.
    ///
    /// # Errors
    ///
    /// [`Fault::Read`] where a file doesn't give all of its bytes.
    pub fn read<R: Wait>(&self, rt: &R, page: u32, image: &mut [u8]) -> Result<(), Fault>
        requires { has_image (pages_of self.now) (page_bytes_of self.now) page (length image.old) ≡ true }
        ensures memory { is_memory self.now ≡ true → IsOk result }
        ensures fault { IfErr result (λ fault. fault ≡ Fault.Read) }
        ensures length { length image.new ≡ length image.old }
    {
        match self {
            Store::Memory(memory) => {
                memory.read(rt, page, image);
                Ok(())
            }
            Store::File(file) => file.read(page, image),
        }
    }

    /// Makes the slice the image of the page.
    ///
    /// # Errors
    ///
    /// [`Fault::Write`] where a file doesn't take all of its bytes.
    pub fn write<R: Wait>(&self, rt: &R, page: u32, image: &[u8]) -> Result<(), Fault>
        requires { has_image (pages_of self.now) (page_bytes_of self.now) page (length image.now) ≡ true }
        ensures memory { is_memory self.now ≡ true → IsOk result }
        ensures fault { IfErr result (λ fault. fault ≡ Fault.Write) }
    {
        match self {
            Store::Memory(memory) => {
                memory.write(rt, page, image);
                Ok(())
            }
            Store::File(file) => file.write(page, image),
        }
    }

    /// Has on the medium all that was written before. Memory is its own medium.
    ///
    /// # Errors
    ///
    /// [`SyncFault`] where a file's bytes may not be there.
    pub fn sync<R: Wait>(&self, rt: &R) -> Result<(), SyncFault>
        ensures { is_memory self.now ≡ true → IsOk result }
    {
        match self {
            Store::Memory(_) => Ok(()),
            Store::File(file) => file.sync(rt),
        }
    }
}
