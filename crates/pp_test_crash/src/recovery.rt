//! Recovery: what a crash left of both devices is brought to what the log says.

use crate::file::{BLOCKS, is_made};
use crate::image::{BLOCK, CHECKPOINT, FRONT, from_of, number_of, parts_of};
use crate::redo_log::Medium;
use pp_btree::regions::{PAGE_BYTES, PAGES};
use pp_device::{Device, image};
use std::process::Abort;

/// What a log has.
#[derive(Clone, Copy)]
struct Found {
    /// How many blocks its whole records have.
    blocks: u32,
    /// The last whole record; 0 of none.
    last: u64,
    /// The record that recovery begins with: the one that the last checkpoint names.
    from: u64,
}

impl Found {
    /// Takes the block of this place. Tells whether it is the next one of a record.
    fn take(&mut self, place: u32, block: &[u8; BLOCK]) -> bool {
        let (part, parts) = parts_of(block);
        let next = self.last.wrapping_add(1);
        let image = &block[FRONT..];
        if number_of(image) != next || place.wrapping_sub(self.blocks) != part {
            return false;
        }
        if part.wrapping_add(1) == parts {
            self.blocks = place.wrapping_add(1);
            self.last = next;
            if image::head(image).0 == CHECKPOINT {
                self.from = from_of(block);
            }
        }
        true
    }
}

/// Looks through the log, up to the first block that isn't whole or isn't the next one.
fn look_through(log: &mut Medium) -> Found {
    let mut block = [0; BLOCK];
    let mut found = Found {
        blocks: 0,
        last: 0,
        from: 1,
    };
    for place in 0..BLOCKS {
        if log.read(place, &mut block).is_err() || !found.take(place, &block) {
            break;
        }
    }
    found
}

/// Writes the block's image where the page can't be read or has an older one.
fn redo(rt: &impl Abort, pages: &mut Medium, block: &[u8; BLOCK]) {
    let image = &block[FRONT..];
    let page = image::head(image).0;
    let mut bytes = [0; PAGE_BYTES];
    let is_whole = page == CHECKPOINT || pages.read(page, &mut bytes).is_ok();
    if !is_whole || number_of(&bytes) < number_of(image) && page != CHECKPOINT {
        pages.write(page, image).expect(rt, "a page is written");
    }
}

/// Each page of the file can be read, and none is ahead of the log.
fn see_pages(rt: &impl Abort, pages: &mut Medium, last: u64) {
    let mut bytes = [0; PAGE_BYTES];
    for page in 0..PAGES {
        if is_made(page) {
            if pages.read(page, &mut bytes).is_err() {
                panic!(rt; "page {page} is torn");
            }
            assert!(rt;
                number_of(&bytes) <= last,
                "page {page} is ahead of the log"
            );
        }
    }
}

/// Does again what the log says, from the last checkpoint on, and sees that nothing else is amiss with the pages.
pub fn recover(rt: &impl Abort, log: &mut Medium, pages: &mut Medium) {
    let mut block = [0; BLOCK];
    let found = look_through(log);
    for place in 0..found.blocks {
        log.read(place, &mut block).expect(rt, "a block is read");
        if found.from <= number_of(&block[FRONT..]) {
            redo(rt, pages, &block);
        }
    }
    see_pages(rt, pages, found.last);
}
