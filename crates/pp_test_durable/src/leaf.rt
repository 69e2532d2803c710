//! A page of a device whose power may fail.

ghost use Rattle.std.specs.Prelude.{◌≡◌, ◌≤◌, IfOk, length, vec_len};
ghost use Rattle.pp_device.specs.Image.{blank_image};
ghost use Rattle.pp_durable.specs.Crash.{IsTorn};

use pp_device::image;
use pp_device::image::HEAD;
use std::alloc::{AllocError, Global};
use std::marker::Model;

/// What is on the medium of a page, and what a reading shows.
#[derive(Drop)]
pub struct Leaf {
    medium: Vec<u8>,
    shown: Vec<u8>,
    /// Whether it was written to since the two were the same, so that pages that are left alone cost nothing.
    is_written: bool,
}

impl Model for Leaf {
    ghost use Rattle.std.specs.Prelude.{◌≡◌, vec_len, false};
    ghost use Rattle.pp_test_durable.specs.Leaves.{Image};

    ghost Value = { Image };

    ghost view = { λ l. record { medium = l.medium.items; shown = l.shown.items } };

    ghost invariant = { λ l. (vec_len l.medium ≡ vec_len l.shown)
        × (l.is_written ≡ false → l.medium.items ≡ l.shown.items) };
}

/// The image of a page to which nothing was written.
fn blank(alloc: Global, page: u32, page_bytes: usize) -> Result<Vec<u8>, AllocError>
    requires { HEAD ≤ page_bytes }
    ensures exact { IfOk result (λ image. image.items ≡ blank_image page_bytes page) }
    ensures length { IfOk result (λ image. vec_len image ≡ page_bytes) }
{
    let mut bytes = Vec::from_elem(alloc, 0, page_bytes)?;
    image::make(&mut bytes, page, 0);
    Ok(bytes)
}

/// Lays the bytes of the new image from one place to another over the old.
fn tear(old: &mut [u8], new: &[u8], from: usize, to: usize)
    requires within { to ≤ length old.old }
    requires same_length { length old.old ≡ length new.now }
    ensures { IsTorn old.old new.now old.new }
{
    for place in from..to {
        old[place] = new[place];
    }
}

impl Leaf {
    ghost use Rattle.pp_test_durable.specs.Leaves.{blank_leaf, settled, IsCrashed};

    /// A page to which nothing was written.
    pub fn new(alloc: Global, page: u32, page_bytes: usize) -> Result<Leaf, AllocError>
        requires { HEAD ≤ page_bytes }
        ensures exact { IfOk result (λ leaf. leaf ≡ blank_leaf page_bytes page) }
        ensures length { IfOk result (λ leaf. length leaf.shown ≡ page_bytes) }
    {
        let medium = blank(alloc, page, page_bytes)?;
        let shown = blank(alloc, page, page_bytes)?;
        Ok(Leaf {
            medium,
            shown,
            is_written: false,
        })
    }

    /// Copies what is shown into the slice.
    pub fn read(&self, image: &mut [u8])
        requires { length image.old ≡ length self.now.shown }
        ensures { image.new ≡ self.now.shown }
    {
        image.copy_from_slice(&self.shown);
    }

    /// Has this shown from now on. What is on the medium stays.
    pub fn write(&mut self, image: &[u8])
        requires { length image.now ≡ length self.old.shown }
        ensures { self.new ≡ record self.old { shown = image.now } }
    {
        self.shown.copy_from_slice(image);
        self.is_written = true;
    }

    /// Has on the medium what is shown.
    pub fn settle(&mut self)
        ensures { self.new ≡ settled self.old }
    {
        if self.is_written {
            self.medium.copy_from_slice(&self.shown);
            self.is_written = false;
        }
    }

    /// What was shown got to the medium from one place to another, and then the power failed.
    pub fn crash(&mut self, from: usize, to: usize)
        requires { to ≤ length self.old.shown }
        ensures { IsCrashed self.old self.new }
    {
        if self.is_written {
            tear(&mut self.medium, &self.shown, from, to);
            self.shown.copy_from_slice(&self.medium);
            self.is_written = false;
        }
    }
}
