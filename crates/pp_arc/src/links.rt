//! Four lists of page numbers in one table of linked records, one for each page number.

ghost use Rattle.std.specs.Prelude.{◌≡◌, ℕ, ◌+◌, ◌^◌, ◌<◌, ◌≤◌, IfOk, Some, None};
ghost use Rattle.pp_arc.specs.FourLists.{FourLists, empty_lists, place};
ghost use Rattle.pp_arc.specs.Figure.{forget};
ghost use Rattle.pp_arc.specs.Links.{code, page_at};

use crate::lists::Lists;
use crate::{Busy, List};
use std::alloc::{AllocError, Global};
use std::marker::Model;

/// What the table keeps of a page, or of the head of a list, in 12 bytes.
///
/// Each list is a ring: its head, its pages with the most recent first, and its head again. A page that
/// stands in no list has no list here, and its neighbours mean nothing.
#[derive(Clone, Copy, Debug)]
struct Record {
    list: Option<List>,
    before: u32,
    after: u32,
}

impl Record {
    /// The head of an empty list, which is its own neighbour.
    fn head(list: List, node: u32) -> Self
        ensures { result ≡ record { list = Some list; before = node; after = node } }
    {
        Record {
            list: Some(list),
            before: node,
            after: node,
        }
    }
}

/// The number of a list: its head stands so far behind the pages.
fn code_of(list: List) -> u32
    ensures code { result ≡ code list }
    ensures below { result < 4 }
{
    match list {
        List::T1 => 0,
        List::T2 => 1,
        List::B1 => 2,
        List::B2 => 3,
    }
}

/// Four lists of page numbers, with a record for each page number. There is always room in them.
///
/// It takes 12 bytes for each page number. Contracts see it as the record `FourLists`, for a cache of as many pages as there are
/// page numbers, whose target is 0.
#[derive(Debug, Drop)]
pub struct Links {
    pages: u32,
    /// One record for each page, and behind them one for each head.
    records: Vec<Record>,
    /// How many pages each list has.
    counts: [usize; 4],
}

impl Model for Links {
    ghost use Rattle.pp_arc.specs.FourLists.{FourLists};

    ghost Value = { FourLists };

    ghost use Rattle.pp_arc.specs.Table.{content_of, lists_in, IsSound};

    ghost view = { λ d. lists_in (content_of d) };

    ghost invariant = { λ d. IsSound (content_of d) };
}

impl Links {
    /// Four empty lists, for page numbers below `pages`.
    pub(crate) fn new(alloc: Global, pages: u32) -> Result<Self, AllocError>
        requires fits { pages + 4 ≤ 2 ^ 32 }
        ensures empty { IfOk result (λ links. links ≡ empty_lists pages pages) }
    {
        let blank = Record {
            list: None,
            before: 0,
            after: 0,
        };
        let mut records = vec![in alloc; blank; pages as usize + 4]?;
        records[pages as usize] = Record::head(List::T1, pages);
        records[pages as usize + 1] = Record::head(List::T2, pages + 1);
        records[pages as usize + 2] = Record::head(List::B1, pages + 2);
        records[pages as usize + 3] = Record::head(List::B2, pages + 3);
        Ok(Links {
            pages,
            records,
            counts: [0; 4],
        })
    }

    /// So many page numbers there are, and there is room for all of them.
    pub(crate) fn pages(&self) -> u32
        ensures pages { result ≡ self.now.pages }
        ensures room { self.now.c ≡ self.now.pages }
    {
        self.pages
    }

    /// The page of a node, if it isn't a head's.
    fn page_at(&self, node: u32) -> Option<u32>
        ensures { result ≡ page_at self.now.pages node }
    {
        if node < self.pages { Some(node) } else { None }
    }

    /// Takes a page of the table out of its list, if it stands in one.
    fn take_out_below(&mut self, page: u32)
        requires below { page < self.old.pages }
        ensures lists { self.new ≡ forget self.old page }
        ensures gone { place self.new page ≡ None }
    {
        let record = self.records[page as usize];
        if let Some(list) = record.list {
            self.records[record.before as usize].after = record.after;
            self.records[record.after as usize].before = record.before;
            self.records[page as usize].list = None;
            self.counts[code_of(list) as usize] -= 1;
        }
    }
}

impl Lists for Links {
    ghost lists = { λ links. links };

    fn place(&self, page: u32) -> Option<List> {
        if page < self.pages {
            self.place_below(page)
        } else {
            None
        }
    }

    fn place_below(&self, page: u32) -> Option<List> {
        self.records[page as usize].list
    }

    fn len(&self, list: List) -> usize {
        self.counts[code_of(list) as usize]
    }

    fn front(&self, list: List) -> Option<u32> {
        let head = self.pages + code_of(list);
        self.page_at(self.records[head as usize].after)
    }

    fn last(&self, list: List) -> Option<u32> {
        let head = self.pages + code_of(list);
        self.page_at(self.records[head as usize].before)
    }

    fn after(&self, page: u32) -> Option<u32> {
        let _list = self.place(page)?;
        self.page_at(self.records[page as usize].after)
    }

    fn before(&self, page: u32) -> Option<u32> {
        self.page_at(self.records[page as usize].before)
    }

    fn last_not_busy<B: Busy>(&self, list: List, busy: &B) -> Option<u32> {
        let code = code_of(list);
        let mut node = self.pages + code;
        for _ in 0..self.counts[code as usize] {
            node = self.records[node as usize].before;
            if !busy.is_busy(node) {
                return Some(node);
            }
        }
        None
    }

    fn put_first(&mut self, list: List, page: u32) {
        let code = code_of(list);
        let head = self.pages + code;
        let first = self.records[head as usize].after;
        self.records[page as usize] = Record {
            list: Some(list),
            before: head,
            after: first,
        };
        self.records[head as usize].after = page;
        self.records[first as usize].before = page;
        self.counts[code as usize] += 1;
    }

    fn move_first(&mut self, list: List, page: u32) {
        self.take_out_below(page);
        self.put_first(list, page);
    }

    fn take_out(&mut self, page: u32) {
        if page < self.pages {
            self.take_out_below(page);
        }
    }

    fn drop_last(&mut self, list: List) {
        let head = self.pages + code_of(list);
        let last = self.records[head as usize].before;
        self.take_out(last);
    }
}
