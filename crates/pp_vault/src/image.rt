//! A page's image in memory.

ghost use Rattle.std.specs.Prelude.{◌≡◌, ◌≤◌, ◌+◌, ℕ, IfOk, IfErr, OnOk, OnErr, length};
ghost use Rattle.std.specs.Borrow.{sem};
ghost use Rattle.pp_vault.specs.Opening.{zeros};
ghost use Rattle.pp_device.specs.Image.{with_head, head_of, body_of};

use pp_device::{Device, Fault, image};
use std::alloc::{AllocError, Global};
use std::marker::Model;

/// The image of a page: its head of 12 bytes, which names the page and its stamp, and its body. It is moved, and copied
/// only where that is said.
#[derive(Debug, Drop)]
pub(crate) struct Image {
    bytes: Vec<u8>,
}

impl Model for Image {
    ghost use Rattle.std.specs.Prelude.{List, ℕ};

    ghost Value = { List ℕ };

    ghost view = { λ i. i.bytes.items };

    ghost use Rattle.std.specs.Prelude.{◌≤◌, length};

    ghost invariant = { λ i. 12 ≤ length i.bytes.items };
}

impl Image {
    ghost use Rattle.pp_vault.specs.Lending.{LendsBody};

    /// An image of so many zeros.
    pub(crate) fn new(alloc: Global, page_bytes: usize) -> Result<Image, AllocError>
        requires { 12 ≤ page_bytes }
        ensures { IfOk result (λ image. image ≡ zeros page_bytes) }
    {
        let bytes = vec![in alloc; 0; page_bytes]?;
        Ok(Image { bytes })
    }

    /// How many bytes there are.
    pub(crate) fn len(&self) -> usize
        ensures { result ≡ length self.now }
    {
        self.bytes.len()
    }

    /// The page number and the stamp that the head names.
    pub(crate) fn head(&self) -> (u32, u64)
        ensures { result ≡ head_of self.now }
    {
        image::head(&self.bytes)
    }

    /// Writes the head. The body stays.
    pub(crate) fn set_head(&mut self, page: u32, stamp: u64)
        ensures image { self.new ≡ with_head self.old page stamp }
        ensures head { head_of self.new ≡ (page, stamp) }
        ensures length { length self.new ≡ length self.old }
    {
        image::make(&mut self.bytes, page, stamp);
    }

    /// Copies all bytes of another image of the same length.
    pub(crate) fn copy_from(&mut self, other: &Image)
        requires { length self.old ≡ length other.now }
        ensures { self.new ≡ other.now }
    {
        self.bytes.copy_from_slice(&other.bytes);
    }

    /// The bytes after the head.
    pub(crate) fn body(&self) -> &[u8]
        ensures { result.now ≡ body_of self.now }
    {
        &self.bytes[image::HEAD..]
    }

    /// The bytes after the head, to be changed. What is left there is written back; the head stays.
    pub(crate) fn body_mut(&mut self) -> &mut [u8]
        ensures* writes_back { sem 𝓛 (LendsBody self.entry result) }
        ensures body { result.now ≡ body_of self.old }
    {
        self.bytes.slice_mut(image::HEAD..)
    }

    /// All bytes.
    pub(crate) fn bytes(&self) -> &[u8]
        ensures { result.now ≡ self.now }
    {
        &self.bytes
    }

    /// Has the device read the page into the image.
    pub(crate) fn read_from<D: Device>(&mut self, device: &mut D, page: u32) -> Result<(), Fault>
        ensures given { D.read_gives device.old page self.old result self.new device.new }
        ensures length { length self.new ≡ length self.old }
        ensures called { D.calls device.new ≡ D.calls device.old + 1 }
        ensures ok { OnOk result (D.failures device.new ≡ D.failures device.old) }
        ensures err { OnErr result (D.failures device.new ≡ D.failures device.old + 1) }
        ensures fault { IfErr result (λ fault. fault ≡ Fault.Read) }
    {
        device.read(page, &mut self.bytes)
    }

    /// Has the device write the image as the page's.
    pub(crate) fn write_to<D: Device>(&self, device: &mut D, page: u32) -> Result<(), Fault>
        ensures left { D.write_leaves device.old page self.now result device.new }
        ensures called { D.calls device.new ≡ D.calls device.old + 1 }
        ensures ok { OnOk result (D.failures device.new ≡ D.failures device.old) }
        ensures err { OnErr result (D.failures device.new ≡ D.failures device.old + 1) }
        ensures fault { IfErr result (λ fault. fault ≡ Fault.Write) }
    {
        device.write(page, &self.bytes)
    }
}
