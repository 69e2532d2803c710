//! ARC's directory and the marks together: a tiny cache of one's own.

ghost use Rattle.std.specs.Prelude.{◌≡◌, ◌<◌, ◌-◌, ℕ, IsTrue, IfOk, IfSome};
ghost use Rattle.pp_arc.specs.Search.{KnowsBusy};
ghost use Rattle.pp_frames.specs.Marks.{frame_of, pins_of};
ghost use Rattle.pp_callers.specs.Cache.{is_pinned, AreOfOneCache};

use pp_arc::{Answer, Busy, Directory, Search};
use pp_frames::Marks;
use std::alloc::{AllocError, Global};

/// How many frames there are, and how many pages.
const FRAMES: u32 = 3;

const PAGES: u32 = 24;

/// The pages that are pinned: they may not leave the cache.
#[derive(Clone, Copy)]
struct Pinned<'a> {
    marks: &'a Marks,
}

impl Busy for Pinned<'_> {
    ghost busy = { λ pinned. is_pinned pinned.marks.now };

    fn is_busy(&self, page: u32) -> bool {
        self.marks.pins(page) > 0
    }
}

/// Which pages are cached, and in which frames they are and who uses them.
#[derive(Drop)]
pub struct Cache {
    directory: Directory,
    search: Search,
    marks: Marks,
}

impl Cache {
    /// A cache that has no page yet.
    pub fn new(alloc: Global) -> Result<Cache, AllocError>
        ensures sound { IfOk result (λ cache. AreOfOneCache cache.directory cache.marks) }
        ensures knows { IfOk result (λ cache. KnowsBusy cache.directory cache.search (is_pinned cache.marks)) }
    {
        Ok(Cache {
            directory: Directory::new(alloc, FRAMES, PAGES)?,
            search: Search::new(alloc, FRAMES, PAGES)?,
            marks: Marks::new(alloc, FRAMES, PAGES)?,
        })
    }

    /// Pins the page in a frame, and answers the frame; `None` where none can be had for it.
    pub fn fix(&mut self, page: u32) -> Option<u32>
        requires below { page < 24 }
        requires sound { AreOfOneCache self.old.directory self.old.marks }
        requires knows { KnowsBusy self.old.directory self.old.search (is_pinned self.old.marks) }
        ensures sound { AreOfOneCache self.new.directory self.new.marks }
        ensures knows { KnowsBusy self.new.directory self.new.search (is_pinned self.new.marks) }
        // The frame has the page, which is pinned.
        ensures fixed { IfSome result (λ frame.
            (frame_of self.new.marks page ≡ Some frame) × IsTrue (is_pinned self.new.marks page)) }
        // A page in use keeps its frame.
        ensures stays { (q : ℕ) → IsTrue (is_pinned self.old.marks q)
            → frame_of self.new.marks q ≡ frame_of self.old.marks q }
    {
        if self.marks.all_pins() == FRAMES {
            return None;
        }
        let pinned = Pinned { marks: &self.marks };
        match self.directory.request(page, &mut self.search, &pinned) {
            Answer::Hit => {}
            // A real cache reads the page here: into a free frame, or into the victim's.
            Answer::Free => {
                let frame = self.marks.least_free()?;
                self.marks.place(page, frame);
            }
            Answer::Evict(victim) => {
                let frame = self.marks.frame_of(victim)?;
                self.marks.clear(victim);
                self.marks.place(page, frame);
            }
            Answer::AllBusy => return None,
        }
        let frame = self.marks.frame_of(page)?;
        self.marks.pin(page);
        Some(frame)
    }

    /// Takes a pin off the page, if one stands on it.
    pub fn unfix(&mut self, page: u32)
        requires sound { AreOfOneCache self.old.directory self.old.marks }
        requires knows { KnowsBusy self.old.directory self.old.search (is_pinned self.old.marks) }
        ensures sound { AreOfOneCache self.new.directory self.new.marks }
        ensures knows { KnowsBusy self.new.directory self.new.search (is_pinned self.new.marks) }
        ensures pins { pins_of self.new.marks page ≡ pins_of self.old.marks page - 1 }
    {
        if self.marks.pins(page) > 0 {
            self.marks.unpin(page);
            self.directory.freed(page, &mut self.search);
        }
    }
}

/// What a fix of page 4 answers while three other pages are in use, and what it answers once page 1 is unfixed.
pub fn fourth_page(alloc: Global) -> Result<(Option<u32>, Option<u32>), AllocError> {
    let mut cache = Cache::new(alloc)?;
    cache.fix(1);
    cache.fix(2);
    cache.fix(3);
    let while_in_use = cache.fix(4);
    cache.unfix(1);
    Ok((while_in_use, cache.fix(4)))
}
