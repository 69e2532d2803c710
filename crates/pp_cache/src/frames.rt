//! The frames of a cache: which one has the page of a key, which are free, and which pages are pinned.

ghost use Rattle.std.specs.Prelude.{◌≡◌, ℕ, ◌+◌, ◌^◌, ◌<◌, ◌≤◌, Bool, true, length, None, Some, IsSome, IfSome, IsOk, IsErr};
ghost use Rattle.std.specs.Prelude.{if◌then◌else◌, unwrap_or};

use crate::Resident;
use std::alloc::{AllocError, Global};
use std::marker::Model;

/// The frames of a cache, as a map from keys to frames and pins.
///
/// It takes 12 bytes for each key that there is room for, and 4 for each frame.
#[derive(Drop)]
pub(crate) struct Frames {
    /// Where the page of each key is.
    pages: Vec<Option<Resident>>,
    /// All frames. Those from place `taken` on have no page.
    order: Vec<u32>,
    /// How many frames have a page.
    taken: u32,
    /// How many pages are pinned.
    pinned: u32,
}

impl Model for Frames {
    ghost use Rattle.pp_cache.specs.Frames.{FrameMap};

    ghost Value = { FrameMap };

    ghost use Rattle.pp_cache.specs.KeptInside.{parts_of};
    ghost use Rattle.pp_cache.specs.Kept.{frame_map, IsKept};

    ghost view = { λ f. frame_map (parts_of f) };

    ghost invariant = { λ f. IsKept (parts_of f) };
}

/// One for a page that counts, and none for another.
fn one_if(counts: bool) -> u32
    ensures { result ≡ (if counts then 1 else 0) }
{
    if counts { 1 } else { 0 }
}

impl Frames {
    ghost use Rattle.pp_cache.specs.Frames.{no_frames, page_of, frame_of, is_pinned, resident_count, pinned_count, with_page};
    ghost use Rattle.pp_cache.specs.Frames.{with_pinned, moved, with_keys, with_free_frame, IsFree, IsOneToOne};

    /// No frame, and room for no key. It takes no memory.
    pub(crate) fn new(alloc: Global) -> Frames
        ensures { result ≡ no_frames }
    {
        Frames {
            pages: Vec::new(alloc),
            order: Vec::new(alloc),
            taken: 0,
            pinned: 0,
        }
    }

    /// How many keys there is room for. They are numbered from 0.
    pub(crate) fn keys(&self) -> u32
        ensures value { result ≡ length self.now.pages }
        ensures fit { result + 4 ≤ 2 ^ 32 }
    {
        self.pages.len() as u32
    }

    /// Where the page of the key is, if it stands in a frame.
    #[inline(always)]
    pub(crate) fn page(&self, key: u32) -> Option<Resident>
        ensures value { result ≡ page_of self.now key }
        ensures below { IfSome result (λ _. key < length self.now.pages) }
        ensures one_to_one { IsOneToOne self.now }
    {
        if (key as usize) < self.pages.len() {
            self.pages[key as usize]
        } else {
            None
        }
    }

    /// Whether the page of the key is pinned.
    pub(crate) fn is_pinned(&self, key: u32) -> bool
        ensures { result ≡ is_pinned self.now key }
    {
        match self.page(key) {
            Some(page) => page.is_pinned,
            None => false,
        }
    }

    /// The frame that has the page of the key, and 0 where it stands in none.
    pub(crate) fn frame_or_zero(&self, key: u32) -> u32
        ensures { result ≡ unwrap_or (frame_of self.now key) 0 }
    {
        match self.page(key) {
            Some(page) => page.frame,
            None => 0,
        }
    }

    /// How many frames there are.
    pub(crate) fn frames(&self) -> u32
        ensures { result ≡ self.now.frames }
    {
        self.order.len() as u32
    }

    /// How many pages stand in frames.
    pub(crate) fn resident(&self) -> u32
        ensures { result ≡ resident_count self.now }
    {
        self.taken
    }

    /// How many pages are pinned.
    pub(crate) fn pinned(&self) -> u32
        ensures { result ≡ pinned_count self.now }
    {
        self.pinned
    }

    /// Makes room for so many keys.
    ///
    /// # Errors
    ///
    /// Only where the memory can't be had; then nothing has changed.
    pub(crate) fn grow(&mut self, keys: u32) -> Result<(), AllocError>
        requires more { length self.old.pages ≤ keys }
        requires fits { keys + 4 ≤ 2 ^ 32 }
        ensures grown { IsOk result → self.new ≡ with_keys self.old keys }
        ensures unchanged { IsErr result → self.new ≡ self.old }
    {
        self.pages.resize(keys as usize, None)
    }

    /// Makes one more frame where each one has a page.
    ///
    /// # Errors
    ///
    /// Only where the memory can't be had; then nothing has changed.
    pub(crate) fn make_free(&mut self) -> Result<(), AllocError>
        ensures made { IsOk result → self.new ≡ with_free_frame self.old }
        ensures room { IsOk result → resident_count self.new < self.new.frames }
        ensures succeeds { resident_count self.old < self.old.frames → IsOk result }
        ensures unchanged { IsErr result → self.new ≡ self.old }
    {
        if self.taken as usize == self.order.len() {
            self.order.push(self.taken)?;
        }
        Ok(())
    }

    /// Puts the page of a key that stands in no frame into a free one, and pins it.
    pub(crate) fn take(&mut self, key: u32) -> u32
        requires key { key < length self.old.pages }
        requires absent { page_of self.old key ≡ None }
        requires room { resident_count self.old < self.old.frames }
        ensures below { result < self.old.frames }
        ensures free { IsFree self.old result }
        ensures exact { self.new ≡ with_page self.old key (Some (record { frame = result; is_pinned = true })) }
        ensures one_to_one { IsOneToOne self.new }
    {
        let frame = self.order[self.taken as usize];
        self.pages[key as usize] = Some(Resident {
            frame,
            is_pinned: true,
        });
        self.taken += 1;
        self.pinned += 1;
        frame
    }

    /// Takes the page of the key out of its frame, if it stands in one.
    pub(crate) fn release(&mut self, key: u32)
        ensures exact { self.new ≡ with_page self.old key None }
        ensures one_to_one { IsOneToOne self.new }
    {
        if let Some(page) = self.page(key) {
            self.pages[key as usize] = None;
            self.taken -= 1;
            self.order[self.taken as usize] = page.frame;
            self.pinned -= one_if(page.is_pinned);
        }
    }

    /// Pins the page of the key, or unpins it, if it stands in a frame.
    #[inline(always)]
    pub(crate) fn set_pinned(&mut self, key: u32, is_pinned: bool)
        ensures exact { self.new ≡ with_pinned self.old key is_pinned }
        ensures one_to_one { IsOneToOne self.new }
    {
        if let Some(page) = self.page(key) {
            self.pages[key as usize] = Some(Resident {
                frame: page.frame,
                is_pinned,
            });
            self.pinned = self.pinned - one_if(page.is_pinned) + one_if(is_pinned);
        }
    }

    /// Gives the page of the key `from`, if it stands in a frame, the key `to`, whose own page stands in none.
    pub(crate) fn rename(&mut self, from: u32, to: u32)
        requires key { to < length self.old.pages }
        requires absent { page_of self.old to ≡ None }
        ensures exact { self.new ≡ moved self.old from to }
        ensures one_to_one { IsOneToOne self.new }
    {
        if let Some(page) = self.page(from) {
            self.pages[from as usize] = None;
            self.pages[to as usize] = Some(page);
        }
    }
}
