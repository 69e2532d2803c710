//! The work of one step: it answers what the host has named.

ghost use Rattle.std.specs.Prelude.{◌≡◌};
ghost use Rattle.pp_steps.specs.Works.{naming};

use pp_pool::{End, Work};

/// A work that answers the one number that the host gave, and notes how its plan ends. It looks at no page and changes none.
#[derive(Drop)]
pub(crate) struct Named {
    pub(crate) argument: u32,
    pub(crate) end: Option<End>,
}

impl Named {
    /// The work of a step with this argument.
    pub(crate) fn new(argument: u32) -> Named
        ensures { result ≡ naming argument }
    {
        Named {
            argument,
            end: None,
        }
    }
}

impl Work for Named {
    ghost use Rattle.std.specs.Prelude.{◌≡◌, Some};
    ghost use Rattle.pp_steps.specs.Works.{named_page, named_branch};

    ghost page_gives = { λ w region first count page after. (page ≡ named_page w.argument first count) × (after ≡ w) };

    ghost branch_gives = { λ w count branch after. (branch ≡ named_branch w.argument count) × (after ≡ w) };

    ghost reach_gives = { λ w bytes. bytes ≡ 0 };

    ghost change_leaves = { λ w page before left after. (left ≡ before) × (after ≡ w) };

    ghost see_leaves = { λ w page mark image after. after ≡ w };

    ghost ended_leaves = { λ w end after. after ≡ record w { end = Some end } };

    fn page(&mut self, _region: u8, first: u32, count: u32) -> u32 {
        if first <= self.argument && self.argument < first + count {
            self.argument
        } else {
            first
        }
    }

    fn branch(&mut self, count: u16) -> u16 {
        if self.argument < u32::from(count) {
            self.argument as u16
        } else {
            0
        }
    }

    fn reach(&self) -> usize {
        0
    }

    fn change(&mut self, _page: u32, _body: &mut [u8]) {}

    fn see(&mut self, _page: u32, _mark: u64, _image: &[u8]) {}

    fn ended(&mut self, end: End) {
        self.end = Some(end);
    }
}
