//! A work that notes all that it is asked and handed.

ghost use Rattle.std.specs.Prelude.{◌≡◌};

use pp_device::image;
use pp_pool::Work;
use std::alloc::{AllocError, Global};

/// Adds a line of a word and numbers to the text. Where memory runs out the text is cleared, and the test fails.
pub fn note(text: &mut String, word: &str, numbers: &[u64]) {
    if noted(text, word, numbers).is_err() {
        text.clear();
    }
}

fn noted(text: &mut String, word: &str, numbers: &[u64]) -> Result<(), AllocError> {
    text.push_str(word)?;
    for number in numbers {
        write!(text, " {number}")?;
    }
    text.push('\n')
}

/// How a work tells pages and branches.
#[derive(Clone, Copy)]
pub enum Picks {
    First,
    Last,
    /// The first root, and leaf after leaf.
    Next,
    /// By numbers that look like chance.
    Chance,
}

/// A work that notes its calls. At each change it adds to each byte of a body its place, so that the bytes tell how often they
/// were changed.
#[derive(Drop)]
pub struct Noting {
    picks: Picks,
    reach: usize,
    next: u32,
    pub calls: String,
}

impl Noting {
    /// A work that wasn't called yet.
    pub fn new(alloc: Global, picks: Picks, reach: usize) -> Noting {
        Noting {
            picks,
            reach,
            next: 0,
            calls: String::new(alloc),
        }
    }

    /// The next number.
    fn number(&mut self) -> u32 {
        match self.picks {
            Picks::Chance => {
                self.next = self
                    .next
                    .wrapping_mul(1_664_525)
                    .wrapping_add(1_013_904_223);
                self.next >> 16
            }
            _ => {
                let number = self.next;
                self.next = self.next.wrapping_add(1);
                number
            }
        }
    }

    /// How far behind the first of its region the next page is.
    fn behind(&mut self, region: u8, count: u32) -> u32 {
        match self.picks {
            Picks::First => 0,
            Picks::Last => count.wrapping_sub(1),
            Picks::Next if region == 0 => 0,
            _ => self.number(),
        }
    }
}

impl Work for Noting {
    ghost reach_gives = { λ work bytes. bytes ≡ work.reach };

    fn page(&mut self, region: u8, first: u32, count: u32) -> u32 {
        note(
            &mut self.calls,
            "page",
            &[u64::from(region), u64::from(first), u64::from(count)],
        );
        first + self.behind(region, count) % count
    }

    fn branch(&mut self, count: u16) -> u16 {
        note(&mut self.calls, "branch", &[u64::from(count)]);
        match self.picks {
            Picks::First => 0,
            Picks::Last => count - 1,
            _ => (self.number() % u32::from(count)) as u16,
        }
    }

    fn reach(&self) -> usize {
        self.reach
    }

    fn change(&mut self, page: u32, body: &mut [u8]) {
        let last = u64::from(body[body.len() - 1]);
        note(
            &mut self.calls,
            "change",
            &[u64::from(page), body.len() as u64, last],
        );
        add_places(body);
    }

    fn see(&mut self, page: u32, mark: u64, bytes: &[u8]) {
        let (number, stamp) = image::head(bytes);
        let amiss = others(&bytes[image::HEAD..], mark);
        note(
            &mut self.calls,
            "see",
            &[
                u64::from(page),
                mark,
                u64::from(number),
                stamp,
                bytes.len() as u64,
                amiss,
            ],
        );
    }
}

/// Adds to each byte its place.
fn add_places(body: &mut [u8]) {
    let mut place = 0u8;
    for byte in body.iter_mut() {
        *byte = byte.wrapping_add(place);
        place = place.wrapping_add(1);
    }
}

/// How many bytes aren't what so many changes make of zeros.
fn others(body: &[u8], changes: u64) -> u64 {
    let mut others = 0u64;
    let mut want = 0u64;
    for byte in body {
        if u64::from(*byte) != want % 256 {
            others = others.saturating_add(1);
        }
        want = want.wrapping_add(changes);
    }
    others
}
