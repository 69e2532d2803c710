//! Who decides where a core is driven to its end, and what it is asked.

ghost use Rattle.std.specs.Prelude.{◌<◌, ◌≤◌, ◌+◌};

use pp_core::{Came, Decide};
use std::fmt::Write;

/// Picks the last page of each region and the last branch. The device gives each page with stamp 0, but for the pages from
/// one number on, which it can't read, and writes each page but for those from another number on. Each question is kept.
#[derive(Drop)]
pub struct Host {
    pub unread: u32,
    pub unwritten: u32,
    /// The questions, each behind a comma, with the numbers that the host was told.
    pub asked: String,
}

impl Decide for Host {
    // Nothing is known but that an answer is within what was asked; the rows say what each is.
    ghost picks = { λ h region first count page i. (first ≤ page) × (page < first + count) };

    ghost chooses = { λ h count branch i. branch < count };

    ghost reads = { λ h page came i. Unit {0} };

    ghost writes = { λ h page ok i. Unit {0} };

    ghost flushes = { λ h page ok i. Unit {0} };

    fn page(&mut self, region: u8, first: u32, count: u32) -> u32 {
        let _ = write!(self.asked, ", page {region} {first} {count}");
        first + (count - 1)
    }

    fn branch(&mut self, count: u16) -> u16 {
        let _ = write!(self.asked, ", branch {count}");
        count - 1
    }

    fn came(&mut self, page: u32) -> Came {
        let _ = write!(self.asked, ", came {page}");
        if page < self.unread {
            Came::Image(page, 0)
        } else {
            Came::Fault
        }
    }

    fn wrote(&mut self, page: u32) -> bool {
        let _ = write!(self.asked, ", wrote {page}");
        page < self.unwritten
    }

    fn flushed(&mut self, page: u32) -> bool {
        let _ = write!(self.asked, ", flushed {page}");
        page < self.unwritten
    }
}
