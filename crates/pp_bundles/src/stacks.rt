//! Stacks of pages in linked records, each record in one of the stacks.

ghost use Rattle.std.specs.Prelude.{◌≡◌, ◌≢◌, ◌<◌, [], ◌∷◌, length, replicate, slice_get, IfOk};
ghost use Rattle.pp_bundles.specs.Stacks.{stack_at, moved};
ghost use Rattle.pp_bundles.specs.Chains.{AreChained};

use crate::record::{Record, Top};
use std::alloc::{AllocError, Global};
use std::marker::Model;

/// Stacks of pages. Their records are a fixed number, and each one is always in one of the stacks.
///
/// Contracts see the list of the stacks, each of them as the list of its pages, the first on top.
#[derive(Drop)]
pub(crate) struct Stacks {
    records: Vec<Record>,
    tops: Vec<Top>,
}

impl Model for Stacks {
    ghost use Rattle.std.specs.Prelude.{List, ℕ};

    ghost Value = { List (List ℕ) };

    ghost use Rattle.pp_bundles.specs.Chains.{parts_of, stacks_in, IsKept};

    ghost view = { λ s. stacks_in (parts_of s) };

    ghost invariant = { λ s. IsKept (parts_of s) };
}

/// So many records, each of which leads to the next.
fn chained(alloc: Global, records: u32) -> Result<Vec<Record>, AllocError>
    ensures { IfOk result (λ chained. AreChained chained.items records) }
{
    let mut chained = vec![in alloc; Record { page: 0, next: 0 }; records as usize]?;
    for i in 0..records {
        chained[i as usize].next = i + 1;
    }
    Ok(chained)
}

impl Stacks {
    /// One stack that has so many records, with page 0 in each, and above it so many empty stacks.
    pub(crate) fn new(alloc: Global, records: u32, others: u32) -> Result<Stacks, AllocError>
        ensures { IfOk result (λ stacks. stacks ≡ replicate records 0 ∷ replicate others []) }
    {
        let chain = chained(alloc, records)?;
        let mut tops = vec![in alloc; Top { head: 0, count: 0 }; others as usize + 1]?;
        tops[0] = Top {
            head: 0,
            count: records,
        };
        Ok(Stacks {
            records: chain,
            tops,
        })
    }

    /// How many stacks there are.
    pub(crate) fn count(&self) -> usize
        ensures { result ≡ length self.now }
    {
        self.tops.len()
    }

    /// How many records a stack has. Past the last stack there are none.
    pub(crate) fn len(&self, stack: usize) -> u32
        ensures { result ≡ length (stack_at self.now stack) }
    {
        match self.tops.get(stack) {
            Some(top) => top.count,
            None => 0,
        }
    }

    /// The page on top of a stack, if it has one.
    pub(crate) fn first(&self, stack: usize) -> Option<u32>
        ensures { result ≡ slice_get (stack_at self.now stack) 0 }
    {
        let top = self.tops.get(stack)?;
        if top.count == 0 {
            return None;
        }
        Some(self.records[top.head as usize].page)
    }

    /// Moves the record on top of one stack to the top of another, and puts this page into it.
    pub(crate) fn move_record(&mut self, from: usize, to: usize, page: u32)
        requires apart { from ≢ to }
        requires from { from < length self.old }
        requires to { to < length self.old }
        requires some { 0 < length (stack_at self.old from) }
        ensures { self.new ≡ moved self.old from to page }
    {
        let source = self.tops[from];
        let target = self.tops[to];
        let record = self.records[source.head as usize];
        self.records[source.head as usize] = Record {
            page,
            next: target.head,
        };
        self.tops[from] = Top {
            head: record.next,
            count: source.count - 1,
        };
        self.tops[to] = Top {
            head: source.head,
            count: target.count + 1,
        };
    }
}
