//! What decides where a core is drained.

use pp_core::{Came, Decide};
use pp_test_plain::Chance;

/// A host that decides by chance, and whose device fails and lies now and then.
#[derive(Drop)]
pub struct Host<'a> {
    pub chance: &'a mut Chance,
}

impl Decide for Host<'_> {
    ghost use Rattle.std.specs.Prelude.{◌<◌, ◌≤◌, ◌+◌};

    // Chance decides, so nothing is known but that an answer is within what was asked; and of the device nothing at all.
    ghost picks = { λ h region first count page i. (first ≤ page) × (page < first + count) };

    ghost chooses = { λ h count branch i. branch < count };

    ghost reads = { λ h page came i. Unit {0} };

    ghost writes = { λ h page ok i. Unit {0} };

    ghost flushes = { λ h page ok i. Unit {0} };

    fn page(&mut self, _region: u8, first: u32, count: u32) -> u32 {
        first + self.chance.below(count)
    }

    fn branch(&mut self, count: u16) -> u16 {
        self.chance.below(u32::from(count)) as u16
    }

    fn came(&mut self, page: u32) -> Came {
        let stamp = u64::from(self.chance.below(2));
        reading(page, stamp, self.chance)
    }

    fn wrote(&mut self, _page: u32) -> bool {
        self.chance.below(4) > 0
    }

    fn flushed(&mut self, _page: u32) -> bool {
        self.chance.below(4) > 0
    }
}

/// What the device gives of a page that it has with this stamp: mostly that, else a fault, another page, another stamp,
/// or one that is never given.
pub fn reading(page: u32, stamp: u64, chance: &mut Chance) -> Came {
    match chance.below(12) {
        0 => Came::Fault,
        1 => Came::Image(page ^ 1, stamp),
        2 => Came::Image(page, stamp ^ 1),
        3 => Came::Image(page, 1 << 62),
        _ => Came::Image(page, stamp),
    }
}
