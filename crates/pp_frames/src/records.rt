//! What is kept of each page, and of each frame.

ghost use Rattle.std.specs.Prelude.{◌≡◌, ℕ, ◌<◌, false, IfOk, IfSome, IsSome, Some};

use crate::held::{self, Held};
use crate::home;
use crate::number_set::NumberSet;
use std::alloc::{AllocError, Global};
use std::marker::Model;

/// The marks of the pages: 12 bytes and two bits for each page, and 12 bytes for each frame.
///
/// Only a page in a frame has pins and latches, and no frame has two pages. So these stand by frame, and a frame
/// without a page has none.
#[derive(Drop)]
pub(crate) struct Records {
    /// The stamp of each page, where it is known.
    stamps: Vec<u64>,
    /// The pages whose stamp is known.
    known: NumberSet,
    /// The pages whose bytes are newer than the disk's.
    dirty: NumberSet,
    /// Of each page, one more than the frame that it is in, or 0 for none.
    homes: Vec<u32>,
    /// Of each frame, the pins and latches of the page in it.
    held: Vec<Held>,
    /// No stamp exceeds it.
    top: u64,
}

impl Model for Records {
    ghost use Rattle.pp_frames.specs.Marks.{PageMap};

    ghost Value = { PageMap };

    ghost use Rattle.pp_frames.specs.ArraysInside.{arrays_of};
    ghost use Rattle.pp_frames.specs.Arrays.{map_of, IsTidy};

    ghost view = { λ r. map_of (arrays_of r) };

    ghost invariant = { λ r. IsTidy (arrays_of r) };
}

impl Records {
    ghost use Rattle.pp_frames.specs.Marks.{Shared, IsFree, opening, page_count, marks_of, frame_of, pins_of};
    ghost use Rattle.pp_frames.specs.Marks.{latches_of};
    ghost use Rattle.pp_frames.specs.Marks.{is_dirty, is_flushable, stamp_of, with_marks, with_frame, with_dirty};
    ghost use Rattle.pp_frames.specs.Marks.{with_stamp, has_reached};
    ghost use Rattle.pp_frames.specs.Arrays.{latches_at};

    /// The records of a pool with this many frames and pages, in which nothing was done yet.
    pub(crate) fn new(alloc: Global, frames: u32, pages: u32) -> Result<Records, AllocError>
        ensures { IfOk result (λ records. records ≡ opening frames pages) }
    {
        Ok(Records {
            stamps: home::no_stamps(alloc, pages)?,
            known: NumberSet::new(alloc, pages)?,
            dirty: NumberSet::new(alloc, pages)?,
            homes: home::no_homes(alloc, pages)?,
            held: held::frames_at_rest(alloc, frames)?,
            top: 0,
        })
    }

    /// The frame that has the page, if one has it. A page past the last one is in none.
    #[inline(always)]
    pub(crate) fn frame(&self, page: u32) -> Option<u32>
        ensures { result ≡ frame_of self.now page }
    {
        if page < self.dirty.limit() {
            home::frame_at(self.homes[page as usize])
        } else {
            None
        }
    }

    /// The pins and latches of the page. A page in no frame has none.
    #[inline(always)]
    pub(crate) fn held(&self, page: u32) -> Held
        ensures pins { result.pins ≡ pins_of self.now page }
        ensures latches { latches_at result ≡ latches_of self.now page }
    {
        match self.frame(page) {
            Some(frame) => self.held[frame as usize],
            None => Held::not_at_all(),
        }
    }

    /// The pins and latches of a page in a frame.
    #[inline(always)]
    pub(crate) fn held_placed(&self, page: u32) -> Held
        requires { IsSome (frame_of self.now page) }
        ensures pins { result.pins ≡ pins_of self.now page }
        ensures latches { latches_at result ≡ latches_of self.now page }
    {
        let home = self.homes[page as usize];
        self.held[(home - 1) as usize]
    }

    /// Whether the page's bytes are newer than the disk's.
    pub(crate) fn is_dirty(&self, page: u32) -> bool
        ensures { result ≡ is_dirty self.now page }
    {
        self.dirty.contains(page)
    }

    /// The page's stamp, where it is known.
    pub(crate) fn stamp(&self, page: u32) -> Option<u64>
        ensures { result ≡ stamp_of self.now page }
    {
        if self.known.contains(page) {
            Some(self.stamps[page as usize])
        } else {
            None
        }
    }

    /// Whether the page itself lets a flush begin.
    pub(crate) fn is_flushable(&self, page: u32) -> bool
        ensures { result ≡ is_flushable (marks_of self.now page) }
    {
        self.is_dirty(page) && self.frame(page).is_some() && !self.held(page).has_writer
    }

    /// Whether a stamp may be this one or a later one: if not, none is.
    pub(crate) fn may_have_reached(&self, limit: u64) -> bool
        ensures { result ≡ false → (page : ℕ) → has_reached limit (stamp_of self.now page) ≡ false }
    {
        limit <= self.top
    }

    /// Gives a page in a frame these pins and latches.
    #[inline(always)]
    pub(crate) fn hold(&mut self, page: u32, to: Held)
        requires { IsSome (frame_of self.old page) }
        ensures { self.new
            ≡ with_marks self.old page (record (marks_of self.old page) { pins = to.pins; latches = latches_at to }) }
    {
        let home = self.homes[page as usize];
        self.held[(home - 1) as usize] = to;
    }

    /// Puts a page without pins and latches into a free frame, or into none.
    #[inline(always)]
    pub(crate) fn set_frame(&mut self, page: u32, frame: Option<u32>)
        requires page { page < page_count self.old }
        requires unpinned { pins_of self.old page ≡ 0 }
        requires unlatched { latches_of self.old page ≡ Shared 0 }
        requires free { IfSome frame (λ f. (f < self.old.frames) × IsFree self.old f) }
        ensures { self.new ≡ with_frame self.old page frame }
    {
        let home = &mut self.homes[page as usize];
        *home = home::home_for(frame);
    }

    /// Marks the page dirty, or clean.
    pub(crate) fn set_dirty(&mut self, page: u32, is: bool)
        requires { page < page_count self.old }
        ensures { self.new ≡ with_dirty self.old page is }
    {
        self.dirty.put(page, is);
    }

    /// Notes the page's stamp.
    pub(crate) fn set_stamp(&mut self, page: u32, stamp: u64)
        requires { page < page_count self.old }
        ensures { self.new ≡ with_stamp self.old page (Some stamp) }
    {
        let top = self.top.max(stamp);
        self.stamps[page as usize] = stamp;
        self.known.insert(page);
        self.top = top;
    }
}
