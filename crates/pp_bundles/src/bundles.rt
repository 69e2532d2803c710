//! For each place a stack of pages.

ghost use Rattle.std.specs.Prelude.{◌≡◌, ◌≢◌, ◌<◌, ◌+◌, ◌↔◌, ℕ, [], ◌∷◌, length, slice_get};
ghost use Rattle.std.specs.Prelude.{IfOk, IfSome, IsNone, IsTrue};
ghost use Rattle.pp_bundles.specs.Bundles.{empty_stacks, place_count, pages_at, free_records, pushed, popped, IsSound};

use crate::stacks::Stacks;
use std::alloc::{AllocError, Global};
use std::marker::Model;

/// The stack of the records that are free: the first, so that it has one number however many places there are. The stack of
/// a place is one behind its number.
const FREE: usize = 0;

/// The pages of bundles: at each place a stack of pages, the one that was put there last on top.
///
/// Places are numbered from 0, and pages are any numbers; a page may stand at several places, and at one several times.
/// All memory is got by [`Bundles::new`]: 8 bytes for each page that there is room for, and 8 for each place. No other
/// call takes any.
#[derive(Drop)]
pub struct Bundles {
    stacks: Stacks,
}

impl Model for Bundles {
    ghost use Rattle.pp_bundles.specs.Bundles.{PageStacks};

    ghost Value = { PageStacks };

    ghost use Rattle.pp_bundles.specs.BundlesInside.{stacks_behind, HasFree};

    ghost view = { λ b. stacks_behind b.stacks };

    ghost invariant = { λ b. HasFree b.stacks };
}

/// The number of the stack that has a place's pages.
fn stack_of(place: u32) -> usize
    ensures { result ≡ place + 1 }
{
    place as usize + 1
}

impl Bundles {
    /// So many places without a page, and room for so many pages at all of them together.
    ///
    /// # Errors
    ///
    /// Only where memory can't be had.
    pub fn new(alloc: Global, places: u32, room: u32) -> Result<Bundles, AllocError>
        ensures exact { IfOk result (λ bundles. bundles ≡ empty_stacks places room) }
        ensures none { IfOk result (λ bundles. (place : ℕ) → pages_at bundles place ≡ []) }
        ensures free { IfOk result (λ bundles. free_records bundles ≡ room) }
        ensures sound { IfOk result IsSound }
    {
        Ok(Bundles {
            stacks: Stacks::new(alloc, room, places)?,
        })
    }

    /// How many places there are.
    pub fn places(&self) -> u32
        ensures places { result ≡ place_count self.now }
        ensures sound { IsSound self.now }
    {
        (self.stacks.count() - 1) as u32
    }

    /// How many records are free: so many pages more can be pushed.
    pub fn free(&self) -> u32
        ensures free { result ≡ free_records self.now }
        ensures sound { IsSound self.now }
    {
        self.stacks.len(FREE)
    }

    /// How many pages stand at the place. Past the last place there are none.
    pub fn count(&self, place: u32) -> u32
        ensures count { result ≡ length (pages_at self.now place) }
        ensures sound { IsSound self.now }
    {
        self.stacks.len(stack_of(place))
    }

    /// Whether no page stands at the place.
    pub fn is_empty(&self, place: u32) -> bool
        ensures empty { IsTrue result ↔ (pages_at self.now place ≡ []) }
        ensures sound { IsSound self.now }
    {
        self.count(place) == 0
    }

    /// Puts a page on top of those at the place. A record must be free ([`Bundles::free`]).
    pub fn push(&mut self, place: u32, page: u32)
        requires place { place < place_count self.old }
        requires free { 0 < free_records self.old }
        ensures exact { self.new ≡ pushed self.old place page }
        ensures here { pages_at self.new place ≡ page ∷ pages_at self.old place }
        ensures others { (k : ℕ) → k ≢ place → pages_at self.new k ≡ pages_at self.old k }
        ensures free { free_records self.new + 1 ≡ free_records self.old }
        ensures sound { IsSound self.new }
    {
        self.stacks.move_record(FREE, stack_of(place), page);
    }

    /// Takes the page that was put at the place last, if one stands there. Its record is free then.
    pub fn pop(&mut self, place: u32) -> Option<u32>
        ensures answer { result ≡ slice_get (pages_at self.old place) 0 }
        ensures exact { self.new ≡ popped self.old place }
        ensures none { IsNone result → self.new ≡ self.old }
        ensures here { IfSome result (λ page. pages_at self.old place ≡ page ∷ pages_at self.new place) }
        ensures others { (k : ℕ) → k ≢ place → pages_at self.new k ≡ pages_at self.old k }
        ensures free { IfSome result (λ _. free_records self.new ≡ free_records self.old + 1) }
        ensures sound { IsSound self.new }
    {
        let stack = stack_of(place);
        let page = self.stacks.first(stack)?;
        self.stacks.move_record(stack, FREE, page);
        Some(page)
    }
}
