//! What the worker's plans do with pages here.

ghost use Rattle.std.specs.Prelude.{◌<◌};

use pp_pool::Work;

/// A work that takes the leaves one after the other, over and over, and of the roots the first. It counts what it is
/// shown and what it changes.
#[derive(Drop)]
pub struct Visits {
    /// How many leaves were asked for; it stays at 2^32 - 1.
    leaves: u32,
    /// How many pages it was shown.
    pub seen: u64,
    /// How many pages it changed.
    pub changed: u64,
}

impl Visits {
    /// No page was asked for yet.
    pub fn new() -> Visits {
        Visits {
            leaves: 0,
            seen: 0,
            changed: 0,
        }
    }

    /// The place of the next leaf, of so many.
    fn next_leaf(&mut self, count: u32) -> u32
        ensures { 0 < count → result < count }
    {
        let number = self.leaves;
        self.leaves = number.saturating_add(1);
        number.checked_rem(count).unwrap_or(0)
    }
}

impl Work for Visits {
    fn page(&mut self, region: u8, first: u32, count: u32) -> u32 {
        if region == 0 {
            return first;
        }
        first + self.next_leaf(count)
    }

    fn branch(&mut self, _count: u16) -> u16 {
        0
    }

    fn change(&mut self, _page: u32, body: &mut [u8]) {
        self.changed = self.changed.saturating_add(1);
        if let Some(byte) = body.get_mut(0) {
            *byte = byte.wrapping_add(1);
        }
    }

    fn see(&mut self, _page: u32, _mark: u64, _image: &[u8]) {
        self.seen = self.seen.saturating_add(1);
    }
}
