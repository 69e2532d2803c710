//! The work of every run: it tells pages as its case says, changes a byte at both ends of a body, and looks whether it is handed
//! what the plans ask.

ghost use Rattle.std.specs.Prelude.{◌≡◌};

use crate::board::Board;
use crate::case::{Call, Picks, Step, Thing, Until};
use pp_device::image;
use pp_pool::Work;
use std::time::Clock;

/// The work of the worker with this number.
#[derive(Drop)]
pub struct Player<'a, R> {
    rt: R,
    board: &'a Board,
    number: u32,
    /// What the next number is made from that looks like chance.
    chance: u32,
    is_cast: bool,
    steps: &'static [Step],
    next: usize,
    /// The page that it told last.
    page: u32,
    reach: usize,
}

impl<'a, R: Clock> Player<'a, R> {
    /// A work that wasn't asked for a page yet.
    pub fn new(rt: R, board: &'a Board, number: u32, chance: u32) -> Player<'a, R> {
        Player {
            rt,
            board,
            number,
            chance,
            is_cast: false,
            steps: &[],
            next: 0,
            page: 0,
            reach: board.case.reach,
        }
    }

    /// The next number.
    fn number_by_chance(&mut self) -> u32 {
        self.chance = self
            .chance
            .wrapping_mul(1_664_525)
            .wrapping_add(1_013_904_223);
        self.chance >> 16
    }

    /// Begins, where it hasn't: it takes a part of this region.
    fn begin(&mut self, region: u8) {
        if self.is_cast {
            return;
        }
        self.is_cast = true;
        self.steps = self.board.steps(region);
        self.board.tell(Thing::Begun);
    }

    /// How far behind the first page of its region the next page is, once that may be told.
    fn behind(&mut self, region: u8) -> u32 {
        self.begin(region);
        match self.board.case.picks {
            Picks::Chance => self.number_by_chance(),
            Picks::Seats => {
                let all = u64::from(self.board.case.workers);
                self.board.wait(&self.rt, Until::Come(Thing::Begun, all));
                self.number
            }
            Picks::Parts => self.step(),
        }
    }

    /// The same by its part.
    fn step(&mut self) -> u32 {
        let Some(step) = self.steps.get(self.next) else {
            return 0;
        };
        self.next = self.next.saturating_add(1);
        self.board.wait(&self.rt, step.until);
        step.behind
    }

    /// Notes where it is asked for a page of another place than the region's, or before another plan than it should be.
    fn note_region(&self, region: u8, first: u32, count: u32) {
        let is_there = match self.board.case.areas.get(usize::from(region)) {
            Some(area) => area.first == first && area.count == count,
            None => false,
        };
        self.board.note(is_there);
        self.note_step();
    }

    /// Notes where more or fewer plans have ended than pages were changed.
    fn note_step(&self) {
        let changed = self.board.number(Thing::Changed);
        let is_so = self.board.number(Thing::Finished) == changed;
        self.board.note(is_so || !self.board.case.is_in_step);
    }

    /// Notes where a page is handed on that isn't its own.
    fn note_page(&self, page: u32) {
        self.board.note(is_own(self.board, self.number, page));
    }
}

impl<'a, R: Clock> Work for Player<'a, R> {
    ghost reach_gives = { λ work bytes. bytes ≡ work.reach };

    fn page(&mut self, region: u8, first: u32, count: u32) -> u32 {
        self.note_region(region, first, count);
        let page = first + self.behind(region) % count;
        self.page = page;
        self.board.tell(Thing::Asked);
        page
    }

    fn branch(&mut self, count: u16) -> u16 {
        self.board.note(count == 2 || count == 3);
        self.board.meet(&self.rt, Call::Branch, self.page);
        match self.board.case.picks {
            Picks::Chance => (self.number_by_chance() % u32::from(count)) as u16,
            _ => { if count == 3 { 2 } else { 0 } }
        }
    }

    fn reach(&self) -> usize {
        self.board.meet(&self.rt, Call::Reach, self.page);
        self.reach
    }

    fn change(&mut self, page: u32, body: &mut [u8]) {
        self.note_page(page);
        self.note_step();
        self.board.note(is_body(self.board, body));
        self.board.tell(Thing::Changed);
        let last = body.len() - 1;
        body[0] = body[0].wrapping_add(1);
        body[last] = body[last].wrapping_add(1);
        self.board.meet(&self.rt, Call::Change, page);
    }

    fn see(&mut self, page: u32, mark: u64, image: &[u8]) {
        self.note_page(page);
        self.board.note(is_front(self.board, image, page, mark));
        self.board.tell(Thing::Seen);
        self.board.meet(&self.rt, Call::See, page);
    }
}

/// Whether the page is the worker's own, where works tell only their own pages.
pub fn is_own(board: &Board, number: u32, page: u32) -> bool {
    match board.case.picks {
        Picks::Seats => page == number || page == number.wrapping_add(16),
        _ => true,
    }
}

/// Whether the body is as long as the case's pages have it.
fn is_body(board: &Board, body: &[u8]) -> bool {
    body.len() == board.case.page_bytes.saturating_sub(image::HEAD)
}

/// Whether these are as many bytes of the page as works reach for, 64 at least and no more than it has, and are so as a page with
/// this mark has them.
fn is_front(board: &Board, bytes: &[u8], page: u32, mark: u64) -> bool {
    let whole = board.case.page_bytes;
    let reach = board.case.reach.max(64).min(whole);
    if reach == whole {
        return tells(bytes, page, mark, whole);
    }
    bytes.len() == reach
        && bytes.len() > image::HEAD
        && image::head(bytes) == (page, mark)
        && u64::from(bytes[image::HEAD]) == mark % 256
        && bytes[bytes.len() - 1] == 0
}

/// Whether the image is a whole one of this page, has this mark, and has it at both ends of its body.
pub fn tells(image: &[u8], page: u32, mark: u64, page_bytes: usize) -> bool {
    if image.len() != page_bytes || image.len() <= image::HEAD {
        return false;
    }
    let last = image.len() - 1;
    let byte = mark % 256;
    image::head(image) == (page, mark)
        && u64::from(image[image::HEAD]) == byte
        && u64::from(image[last]) == byte
}
