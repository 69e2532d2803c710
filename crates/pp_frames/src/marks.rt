//! The marks of all pages: which frame has a page, how it is pinned and latched, whether it is dirty, and its stamp.

ghost use Rattle.std.specs.Prelude.{true, false, ◌≡◌, ℕ, ◌+◌, ◌-◌, ◌^◌, ◌<◌, ◌≤◌, IsTrue, IfOk, IfSome, IsNone, ◌↔◌};
ghost use Rattle.std.specs.Prelude.{None, Some, IsSome, length, slice_set};
ghost use Rattle.pp_frames.specs.Kept.{put, bit};

use crate::held::Held;
use crate::mode::Mode;
use crate::number_set::NumberSet;
use crate::records::Records;
use std::alloc::{AllocError, Global};
use std::fmt;
use std::marker::Model;

/// What a pool notes of its pages, as a map from pages to frame, pins, latches, dirty mark and stamp.
///
/// All its memory is got by [`Marks::new`]: 12 bytes and three bits for each page number, and 12 bytes for each frame.
/// No other call takes any. A page is placed before it is pinned, and pinned
/// before it is latched.
#[derive(Drop)]
pub struct Marks {
    /// What is kept of each page and of each frame.
    records: Records,
    /// The pins of all pages together.
    pins: u32,
    /// How many pages are dirty.
    dirty: u32,
    /// The frames in which no page stands.
    free: NumberSet,
    /// The pages that let a flush begin.
    flushable: NumberSet,
}

impl Model for Marks {
    ghost use Rattle.pp_frames.specs.Marks.{PageMap};

    ghost Value = { PageMap };

    ghost use Rattle.pp_frames.specs.KeptInside.{parts_of};
    ghost use Rattle.pp_frames.specs.Kept.{IsKept};

    ghost view = { λ m. m.records };

    ghost invariant = { λ m. IsKept (parts_of m) };
}

/// Puts the number into the set or out of it, where that is a change.
fn keep(set: &mut NumberSet, number: u32, is: bool)
    requires { number < length set.old }
    ensures { set.new ≡ slice_set set.old number is }
{
    if set.contains(number) != is {
        set.put(number, is);
    }
}

/// How many there are, once one that counted or didn't does count or doesn't.
fn recount(count: u32, was: bool, is: bool) -> u32
    requires more { was ≡ false → count + 1 < 2 ^ 32 }
    requires less { was ≡ true → 0 < count }
    ensures { result + bit was ≡ count + bit is }
{
    if is {
        if was { count } else { count + 1 }
    } else if was {
        count - 1
    } else {
        count
    }
}

/// Notes that one frame has become free, and that another is taken.
fn exchange(free: &mut NumberSet, left: Option<u32>, taken: Option<u32>)
    requires left { IfSome left (λ frame. frame < length free.old) }
    requires taken { IfSome taken (λ frame. frame < length free.old) }
    ensures { free.new ≡ put (put free.old left true) taken false }
{
    if let Some(frame) = left {
        free.insert(frame);
    }
    if let Some(frame) = taken {
        free.remove(frame);
    }
}

impl Marks {
    ghost use Rattle.pp_frames.specs.Marks.{IsFree, IsFlushable, IsSound, opening, page_count, marks_of, frame_of};
    ghost use Rattle.pp_frames.specs.Marks.{pins_of, latches_of, latch_count, is_dirty, is_flushable, stamp_of};
    ghost use Rattle.pp_frames.specs.Marks.{with_marks, with_frame, with_pins, with_latches, with_dirty, with_stamp};
    ghost use Rattle.pp_frames.specs.Marks.{all_pins, all_dirty, is_compatible, with_latch, has_latch, without_latch};
    ghost use Rattle.pp_frames.specs.Marks.{least_free};
    ghost use Rattle.pp_frames.specs.Marks.{least_flushable, dirty_from, has_reached, first_stamped};
    ghost use Rattle.pp_frames.specs.Least.{IsLeast};
    ghost use Rattle.pp_frames.specs.Arrays.{latches_at};

    /// The marks of a pool with this many frames and pages, in which nothing was done yet.
    pub fn new(alloc: Global, frames: u32, pages: u32) -> Result<Marks, AllocError>
        ensures exact { IfOk result (λ marks. marks ≡ opening frames pages) }
        ensures sound { IfOk result IsSound }
    {
        Ok(Marks {
            records: Records::new(alloc, frames, pages)?,
            pins: 0,
            dirty: 0,
            free: NumberSet::full(alloc, frames)?,
            flushable: NumberSet::new(alloc, pages)?,
        })
    }

    /// How many frames the pool has; they are numbered from 0.
    pub fn frames(&self) -> u32
        ensures value { result ≡ self.now.frames }
        ensures sound { IsSound self.now }
    {
        self.free.limit()
    }

    /// How many pages there are; they are numbered from 0.
    pub fn pages(&self) -> u32
        ensures value { result ≡ page_count self.now }
        ensures sound { IsSound self.now }
    {
        self.flushable.limit()
    }

    // ---- what is kept of one page

    /// Gives a page in a frame these latches. It has the pins that it had.
    #[inline(always)]
    fn latch(&mut self, page: u32, to: Held)
        requires placed { IsSome (frame_of self.old page) }
        requires pins { to.pins ≡ pins_of self.old page }
        requires pinned { latch_count (latches_at to) ≤ to.pins }
        ensures exact { self.new ≡ with_latches self.old page (latches_at to) }
        ensures sound { IsSound self.new }
    {
        self.records.hold(page, to);
        keep(&mut self.flushable, page, self.records.is_flushable(page));
    }

    /// Puts a page without pins into a free frame, or into none.
    fn move_to(&mut self, page: u32, frame: Option<u32>)
        requires page { page < page_count self.old }
        requires unpinned { pins_of self.old page ≡ 0 }
        requires free { IfSome frame (λ f. (f < self.old.frames) × IsFree self.old f) }
        ensures exact { self.new ≡ with_frame self.old page frame }
        ensures sound { IsSound self.new }
    {
        let left = self.records.frame(page);
        self.records.set_frame(page, frame);
        exchange(&mut self.free, left, frame);
        keep(&mut self.flushable, page, self.records.is_flushable(page));
    }

    // ---- frames

    /// The frame that has the page, if one has it. A page past the last one is in none.
    pub fn frame_of(&self, page: u32) -> Option<u32>
        ensures value { result ≡ frame_of self.now page }
        ensures sound { IsSound self.now }
    {
        self.records.frame(page)
    }

    /// Whether no page stands in the frame.
    pub fn is_free(&self, frame: u32) -> bool
        requires frame { frame < self.now.frames }
        ensures free { IsTrue result ↔ IsFree self.now frame }
        ensures sound { IsSound self.now }
    {
        self.free.contains(frame)
    }

    /// The least frame in which no page stands, if there is one.
    pub fn least_free(&self) -> Option<u32>
        ensures exact { result ≡ least_free self.now }
        ensures none { IsNone result ↔ ((frame : ℕ) → frame < self.now.frames → ¬ (IsFree self.now frame)) }
        ensures least { IfSome result (IsLeast (λ frame. (frame < self.now.frames) × IsFree self.now frame)) }
        ensures sound { IsSound self.now }
    {
        self.free.least_from(0)
    }

    /// Puts a page without pins into a free frame, out of the one that it was in.
    pub fn place(&mut self, page: u32, frame: u32)
        requires page { page < page_count self.old }
        requires frame { frame < self.old.frames }
        requires free { IsFree self.old frame }
        requires unpinned { pins_of self.old page ≡ 0 }
        ensures exact { self.new ≡ with_frame self.old page (Some frame) }
        ensures sound { IsSound self.new }
    {
        self.move_to(page, Some(frame));
    }

    /// Takes a page without pins out of its frame, if it is in one. It stays as dirty as it is, and its stamp stays
    /// known.
    pub fn clear(&mut self, page: u32)
        requires unpinned { pins_of self.old page ≡ 0 }
        ensures exact { self.new ≡ with_frame self.old page None }
        ensures freed { (frame : ℕ) → frame_of self.old page ≡ Some frame → IsFree self.new frame }
        ensures sound { IsSound self.new }
    {
        if page < self.pages() {
            self.move_to(page, None);
        }
    }

    /// Gives the frame of a page to another page, and tells which it is: the first page stands in none then. Neither
    /// has pins.
    ///
    /// The frame is free at no time, so the set of the free frames stays as it is where the second page was in none.
    #[inline(always)]
    pub fn hand_on(&mut self, from: u32, to: u32) -> u32
        requires placed { IsSome (frame_of self.old from) }
        requires unpinned { pins_of self.old from ≡ 0 }
        requires page { to < page_count (with_frame self.old from None) }
        requires to_unpinned { pins_of (with_frame self.old from None) to ≡ 0 }
        ensures frame { frame_of self.old from ≡ Some result }
        ensures exact { self.new ≡ with_frame (with_frame self.old from None) to (frame_of self.old from) }
        ensures sound { IsSound self.new }
    {
        let frame = self.records.frame(from).unwrap_or(0);
        self.records.set_frame(from, None);
        let left = self.records.frame(to);
        self.records.set_frame(to, Some(frame));
        exchange(&mut self.free, left, None);
        keep(&mut self.flushable, from, false);
        keep(&mut self.flushable, to, self.records.is_flushable(to));
        frame
    }

    // ---- pins

    /// How many pins stand on the page. On a page past the last one there are none.
    pub fn pins(&self, page: u32) -> u32
        ensures value { result ≡ pins_of self.now page }
        ensures sound { IsSound self.now }
    {
        self.records.held(page).pins
    }

    /// How many pins stand on all pages together.
    pub fn all_pins(&self) -> u32
        ensures value { result ≡ all_pins self.now }
        ensures sound { IsSound self.now }
    {
        self.pins
    }

    /// Sets one more pin on a page that is in a frame. There are never more pins in all than frames. The sets stay as
    /// they are: no pin changes which frames are free, and which pages let a flush begin.
    pub fn pin(&mut self, page: u32)
        requires placed { IsSome (frame_of self.old page) }
        requires room { all_pins self.old < self.old.frames }
        ensures exact { self.new ≡ with_pins self.old page (pins_of self.old page + 1) }
        ensures sound { IsSound self.new }
    {
        let now = self.records.held_placed(page);
        let pins = now.pins + 1;
        self.records.hold(page, Held { pins, ..now });
        self.pins += 1;
    }

    /// Takes one pin off a page that has more pins than latches.
    pub fn unpin(&mut self, page: u32)
        requires spare_pin { latch_count (latches_of self.old page) < pins_of self.old page }
        ensures exact { self.new ≡ with_pins self.old page (pins_of self.old page - 1) }
        ensures sound { IsSound self.new }
    {
        let now = self.records.held_placed(page);
        let pins = now.pins - 1;
        self.records.hold(page, Held { pins, ..now });
        self.pins -= 1;
    }

    // ---- latches

    /// How many latches stand on the page, of readers or of the one writer.
    pub fn latches(&self, page: u32) -> u32
        ensures value { result ≡ latch_count (latches_of self.now page) }
        ensures sound { IsSound self.now }
    {
        self.records.held(page).latches()
    }

    /// Whether a latch of this mode stands on the page.
    pub fn is_latched(&self, page: u32, mode: Mode) -> bool
        ensures value { result ≡ has_latch mode (latches_of self.now page) }
        ensures sound { IsSound self.now }
    {
        self.records.held(page).has_latch(mode)
    }

    /// Whether a latch of this mode goes with those that stand on the page: S with S, X with none.
    pub fn can_grant(&self, page: u32, mode: Mode) -> bool
        ensures value { result ≡ is_compatible mode (latches_of self.now page) }
        ensures sound { IsSound self.now }
    {
        self.records.held(page).goes(mode)
    }

    /// One reader more latches the page, which has no writer. The sets stay as they are: readers keep no flush from
    /// beginning.
    #[inline(always)]
    fn share(&mut self, page: u32)
        requires goes { is_compatible Mode.S (latches_of self.old page) ≡ true }
        requires spare_pin { latch_count (latches_of self.old page) < pins_of self.old page }
        ensures exact { self.new ≡ with_latches self.old page (with_latch Mode.S (latches_of self.old page)) }
        ensures sound { IsSound self.new }
    {
        let now = self.records.held_placed(page);
        let readers = now.readers + 1;
        self.records.hold(page, Held { readers, ..now });
    }

    /// One reader's latch goes off the page.
    #[inline(always)]
    fn unshare(&mut self, page: u32)
        requires latched { IsTrue (has_latch Mode.S (latches_of self.old page)) }
        ensures exact { self.new ≡ with_latches self.old page (without_latch (latches_of self.old page)) }
        ensures sound { IsSound self.new }
    {
        let now = self.records.held_placed(page);
        let readers = now.readers - 1;
        self.records.hold(page, Held { readers, ..now });
    }

    /// Latches the page where this mode goes with the latches that stand on it. The page has fewer latches than pins.
    #[inline(always)]
    pub fn grant(&mut self, page: u32, mode: Mode) -> bool
        requires spare_pin { latch_count (latches_of self.old page) < pins_of self.old page }
        ensures answer { result ≡ is_compatible mode (latches_of self.old page) }
        ensures granted { IsTrue result
            → self.new ≡ with_latches self.old page (with_latch mode (latches_of self.old page)) }
        ensures refused { result ≡ false → self.new ≡ self.old }
        ensures sound { IsSound self.new }
    {
        let now = self.records.held_placed(page);
        if !now.goes(mode) {
            return false;
        }
        match mode {
            Mode::S => self.share(page),
            Mode::X => self.latch(page, now.with_writer()),
        }
        true
    }

    /// Releases one latch of a mode that stands on the page.
    #[inline(always)]
    pub fn release(&mut self, page: u32, mode: Mode)
        requires latched { IsTrue (has_latch mode (latches_of self.old page)) }
        ensures exact { self.new ≡ with_latches self.old page (without_latch (latches_of self.old page)) }
        ensures sound { IsSound self.new }
    {
        match mode {
            Mode::S => self.unshare(page),
            Mode::X => {
                let now = self.records.held_placed(page);
                self.latch(page, now.without_writer());
            }
        }
    }

    // ---- dirty marks and stamps

    /// Whether the page's bytes are newer than the disk's. A page past the last one is clean.
    pub fn is_dirty(&self, page: u32) -> bool
        ensures value { result ≡ is_dirty self.now page }
        ensures sound { IsSound self.now }
    {
        self.records.is_dirty(page)
    }

    /// How many pages are dirty.
    pub fn all_dirty(&self) -> u32
        ensures value { result ≡ all_dirty self.now }
        ensures sound { IsSound self.now }
    {
        self.dirty
    }

    /// Marks the page dirty, or clean.
    fn put_dirty(&mut self, page: u32, is: bool)
        requires page { page < page_count self.old }
        ensures exact { self.new ≡ with_dirty self.old page is }
        ensures sound { IsSound self.new }
    {
        self.dirty = recount(self.dirty, self.records.is_dirty(page), is);
        self.records.set_dirty(page, is);
        keep(&mut self.flushable, page, self.records.is_flushable(page));
    }

    /// Marks the page dirty.
    pub fn set_dirty(&mut self, page: u32)
        requires page { page < page_count self.old }
        ensures exact { self.new ≡ with_dirty self.old page true }
        ensures sound { IsSound self.new }
    {
        self.put_dirty(page, true);
    }

    /// Marks the page clean.
    pub fn set_clean(&mut self, page: u32)
        requires page { page < page_count self.old }
        ensures exact { self.new ≡ with_dirty self.old page false }
        ensures sound { IsSound self.new }
    {
        self.put_dirty(page, false);
    }

    /// The page's stamp, where it is known. That of a page past the last one is unknown.
    pub fn stamp(&self, page: u32) -> Option<u64>
        ensures value { result ≡ stamp_of self.now page }
        ensures sound { IsSound self.now }
    {
        self.records.stamp(page)
    }

    /// Notes the page's stamp.
    pub fn set_stamp(&mut self, page: u32, stamp: u64)
        requires page { page < page_count self.old }
        ensures exact { self.new ≡ with_stamp self.old page (Some stamp) }
        ensures sound { IsSound self.new }
    {
        self.records.set_stamp(page, stamp);
    }

    /// Whether the page's stamp is known, and is this one or a later one.
    fn has_reached(&self, page: u32, limit: u64) -> bool
        ensures { result ≡ has_reached limit (stamp_of self.now page) }
    {
        match self.stamp(page) {
            Some(stamp) => limit <= stamp,
            None => false,
        }
    }

    /// The least page whose stamp is known, and is this one or a later one. It looks at the pages only where there
    /// was a stamp as late as this.
    pub fn first_stamped(&self, limit: u64) -> Option<u32>
        ensures exact { result ≡ first_stamped self.now limit }
        ensures sound { IsSound self.now }
    {
        if !self.records.may_have_reached(limit) {
            return None;
        }
        let pages = self.pages();
        for page in 0..pages {
            if self.has_reached(page, limit) {
                return Some(page);
            }
        }
        None
    }

    /// The least page from this one on that lets a flush begin, if there is one.
    fn least_flushable(&self, from: u32) -> Option<u32>
        ensures value { result ≡ least_flushable self.now from }
        ensures sound { IsSound self.now }
    {
        self.flushable.least_from(from)
    }

    /// The least page number from this one on that is dirty, in a frame, and not latched X; where there is none from
    /// this one on, the least such page of all.
    pub fn dirty_from(&self, from: u32) -> Option<u32>
        ensures exact { result ≡ dirty_from self.now from }
        ensures none { IsNone result ↔ ((page : ℕ) → ¬ (IsFlushable self.now page)) }
        ensures least { IfSome result (λ page. from ≤ page → IsLeast (λ p. (from ≤ p) × IsFlushable self.now p) page) }
        ensures wrapped { IfSome result (λ page. page < from → IsLeast (IsFlushable self.now) page) }
        ensures none_onward { IfSome result (λ page. page < from → (p : ℕ) → from ≤ p → ¬ (IsFlushable self.now p)) }
        ensures sound { IsSound self.now }
    {
        self.least_flushable(from)
            .or_else(|| self.least_flushable(0))
    }
}

impl fmt::Debug for Marks {
    fn fmt<W: fmt::Write>(&self, f: &mut fmt::Formatter<W>) -> fmt::Result {
        f.debug_struct("Marks")
            .field("frames", &self.frames())
            .field("pages", &self.pages())
            .finish_non_exhaustive()
    }
}
