//! What a worker's plans do with pages here.

use pp_pool::Work;
use pp_test_plain::Chance;

/// A work that asks for pages and takes branches by chance. It leaves pages as they are.
#[derive(Drop)]
pub(crate) struct Picks<'a> {
    pub chance: &'a mut Chance,
}

impl Work for Picks<'_> {
    fn page(&mut self, _region: u8, first: u32, count: u32) -> u32 {
        first + self.chance.below(count)
    }

    fn branch(&mut self, count: u16) -> u16 {
        self.chance.below(u32::from(count)) as u16
    }

    fn change(&mut self, _page: u32, _body: &mut [u8]) {}

    fn see(&mut self, _page: u32, _mark: u64, _image: &[u8]) {}
}
