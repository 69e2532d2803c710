//! The pages that a checkpoint has still to see written.

use pp_device::Device;
use pp_hall::Hall;
use std::alloc::{AllocError, Global};

/// The pages that a checkpoint has still to see written, and room to look which pages are changed.
///
/// It is gone through in passes, by rising numbers. A page is struck off where a flush of it was done, or where a look found that
/// it isn't changed any more.
#[derive(Drop)]
pub(crate) struct Remaining {
    // The pages that are left, by rising numbers, each with its mark as it was found first, which nobody asks for.
    pages: Vec<(u32, u64)>,
    // In a pass: the page that comes next. Those that were passed over lie before the place `kept`.
    next: usize,
    kept: usize,
    // What was found at the last look: so many pages that are changed, by rising numbers.
    found: Vec<(u32, u64)>,
    count: usize,
}

impl Remaining {
    /// No page is left. There is room for one page more than there are frames, so a look that fills it is a slip.
    pub(crate) fn new(alloc: Global, frames: u64) -> Result<Remaining, AllocError> {
        let places = (frames as usize).saturating_add(1);
        Ok(Remaining {
            pages: vec![in alloc; (0, 0); places]?,
            next: 0,
            kept: 0,
            found: vec![in alloc; (0, 0); places]?,
            count: 0,
        })
    }

    /// All pages that are changed are left. False where there were more than frames, which is a slip.
    pub(crate) fn begin<D: Device + Drop>(&mut self, hall: &Hall<D>) -> bool {
        let count = hall.dirty_pages(self.pages.as_mut_slice());
        let is_all = count < self.pages.len();
        self.pages.truncate(count);
        is_all
    }

    /// How many pages are left.
    pub(crate) fn len(&self) -> usize {
        self.pages.len()
    }

    /// The first page that is left.
    pub(crate) fn first(&self) -> Option<u32> {
        page_at(self.pages.as_slice(), 0)
    }

    /// The page that comes next in the pass.
    pub(crate) fn next(&self) -> Option<u32> {
        page_at(self.pages.as_slice(), self.next)
    }

    /// Strikes this page off, if it is left, and passes over those below it.
    pub(crate) fn note_written(&mut self, page: u32) {
        for _ in self.next..self.pages.len() {
            match self.next() {
                Some(next) if next < page => self.pass_over(),
                Some(next) if next == page => {
                    self.next = self.next.saturating_add(1);
                    return;
                }
                _ => return,
            }
        }
    }

    /// Ends the pass. Those that come next are passed over.
    pub(crate) fn end_pass(&mut self) {
        for _ in self.next..self.pages.len() {
            self.pass_over();
        }
        self.pages.truncate(self.kept);
        self.next = 0;
        self.kept = 0;
    }

    /// Passes over the page that comes next, which stays left.
    fn pass_over(&mut self) {
        move_down(self.pages.as_mut_slice(), self.next, self.kept);
        self.next = self.next.saturating_add(1);
        self.kept = self.kept.saturating_add(1);
    }

    /// Looks which pages are changed. False where there were more than frames, which is a slip.
    pub(crate) fn look<D: Device + Drop>(&mut self, hall: &Hall<D>) -> bool {
        self.count = hall.dirty_pages(self.found.as_mut_slice());
        self.count < self.found.len()
    }

    /// Strikes those off that weren't found changed at the last look, which was made after the list.
    pub(crate) fn strike_clean(&mut self) {
        let mut place = 0;
        for _ in 0..self.pages.len() {
            let Some(page) = self.next() else {
                break;
            };
            place = place_from(self.found.as_slice(), place, self.count, page);
            if place < self.count && page_at(self.found.as_slice(), place) == Some(page) {
                self.pass_over();
            } else {
                self.next = self.next.saturating_add(1);
            }
        }
        self.end_pass();
    }
}

/// The page at this place.
fn page_at(pages: &[(u32, u64)], place: usize) -> Option<u32> {
    match pages.get(place) {
        Some((page, _mark)) => Some(*page),
        None => None,
    }
}

/// Copies what stands at one place to another.
fn move_down(pages: &mut [(u32, u64)], from: usize, to: usize) {
    if from < pages.len() && to < pages.len() {
        pages[to] = pages[from];
    }
}

/// The first place from this one on, below the end, at which a page stands that isn't less; the end where there is none.
fn place_from(pages: &[(u32, u64)], from: usize, end: usize, page: u32) -> usize {
    for place in from..end {
        match page_at(pages, place) {
            Some(there) if there < page => {}
            _ => return place,
        }
    }
    end
}
