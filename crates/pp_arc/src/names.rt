//! Four lists of pages by name, seen as these lists alone.

ghost use Rattle.std.specs.Prelude.{◌≡◌, ◌+◌, ◌^◌, ◌≤◌, IfOk};
ghost use Rattle.pp_arc.specs.FourLists.{empty_lists};

use crate::lists::Lists;
use crate::named::NamedLinks;
use crate::{Busy, List};
use std::alloc::{AllocError, Global};
use std::marker::Model;

/// Four lists of page numbers, with a record for each page that may stand in them at a time.
///
/// It takes 4 bytes for each page number, and 20 for each of these pages.
///
/// Contracts see it as the record `FourLists`, for a cache of as many pages as may stand in the lists at a time, whose
/// target is 0.
#[derive(Debug, Drop)]
pub struct Names {
    named: NamedLinks,
}

impl Model for Names {
    ghost use Rattle.pp_arc.specs.FourLists.{FourLists};

    ghost Value = { FourLists };

    ghost use Rattle.pp_arc.specs.Names.{lists_named};

    ghost view = { λ d. lists_named d.named };
}

impl Names {
    /// Four empty lists, for page numbers below `pages`. At most `nodes` pages stand in them at a time.
    pub(crate) fn new(alloc: Global, nodes: u32, pages: u32) -> Result<Self, AllocError>
        requires fits { nodes + 4 ≤ 2 ^ 32 }
        ensures empty { IfOk result (λ names. names ≡ empty_lists nodes pages) }
    {
        Ok(Names {
            named: NamedLinks::new(alloc, nodes, pages)?,
        })
    }
}

impl Lists for Names {
    ghost lists = { λ names. names };

    fn place(&self, page: u32) -> Option<List> {
        self.named.place(page)
    }

    fn place_below(&self, page: u32) -> Option<List> {
        self.named.place(page)
    }

    fn len(&self, list: List) -> usize {
        self.named.len(list)
    }

    fn front(&self, list: List) -> Option<u32> {
        self.named.front(list)
    }

    fn last(&self, list: List) -> Option<u32> {
        self.named.last(list)
    }

    fn after(&self, page: u32) -> Option<u32> {
        self.named.after(page)
    }

    fn before(&self, page: u32) -> Option<u32> {
        self.named.before(page)
    }

    fn last_not_busy<B: Busy>(&self, list: List, busy: &B) -> Option<u32> {
        self.named.last_not_busy(list, busy)
    }

    fn put_first(&mut self, list: List, page: u32) {
        self.named.put_first(list, page);
    }

    #[inline(always)]
    fn move_first(&mut self, list: List, page: u32) {
        self.named.move_first(list, page);
    }

    fn take_out(&mut self, page: u32) {
        self.named.take_out(page);
    }

    fn drop_last(&mut self, list: List) {
        self.named.drop_last(list);
    }
}
