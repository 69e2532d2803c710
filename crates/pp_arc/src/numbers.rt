//! The numbers of the pages that searches passed over.

ghost use Rattle.std.specs.Prelude.{◌≡◌, ℕ, ◌+◌, ◌^◌, ◌<◌, ◌≤◌, ◌⊎◌, IsTrue, IsFalse, IfOk, Some, None};
ghost use Rattle.std.specs.Prelude.{length, slice_index, slice_set};
ghost use Rattle.pp_arc.specs.Slots.{IsSlotted, numbers_of, freed_t1_of, freed_t2_of};

use crate::tournament::Tournament;
use std::alloc::{AllocError, Global};
use std::marker::Model;

/// The numbers that searches gave to the pages that they passed over, and which of these pages were freed.
///
/// A page has a slot exactly while it has a number. It takes 4 bytes for each page number, and 28 for each slot.
///
/// Contracts see it as the record `Slotted`, and what it tells of each page as `numbers_of`, `freed_t1_of` and `freed_t2_of`.
#[derive(Debug, Drop)]
pub(crate) struct Numbers {
    /// For each page its slot, or 0 where it has none.
    slots: Vec<u32>,
    /// For each slot its page. That of a free slot means nothing.
    pages: Vec<u32>,
    /// For each slot the number of its page. Slot 0, which no page gets, has number 0, and so have the free ones.
    numbers: Vec<u32>,
    /// The slots of the freed pages of `T1`, by the numbers of these pages.
    freed_t1: Tournament,
    /// The slots of the freed pages of `T2`, by the numbers of these pages.
    freed_t2: Tournament,
    /// A stack of the free slots.
    free: Vec<u32>,
    /// How many slots are free.
    spare: usize,
}

impl Model for Numbers {
    ghost use Rattle.pp_arc.specs.Slots.{Slotted};

    ghost Value = { Slotted };

    ghost use Rattle.pp_arc.specs.Slots.{slotted_of, IsSlotted};

    ghost view = { slotted_of };

    ghost invariant = { λ d. IsSlotted (slotted_of d) };
}

impl Numbers {
    /// No page below `pages` has a number. At most so many may have one at a time.
    pub(crate) fn new(alloc: Global, most: u32, pages: u32) -> Result<Self, AllocError>
        requires fits { most + 1 < 2 ^ 32 }
        ensures pages { IfOk result (λ numbers. length numbers.slots ≡ pages) }
        ensures blank { IfOk result (λ numbers. (x : ℕ) → slice_index numbers.slots x ≡ 0) }
        ensures slotted { IfOk result IsSlotted }
        ensures spare { IfOk result (λ numbers. numbers.spare ≡ most) }
    {
        let mut free = vec![in alloc; 0; most as usize]?;
        for slot in 0..most {
            free[slot as usize] = slot + 1;
        }
        Ok(Numbers {
            slots: vec![in alloc; 0; pages as usize]?,
            pages: vec![in alloc; 0; most as usize + 1]?,
            numbers: vec![in alloc; 0; most as usize + 1]?,
            freed_t1: Tournament::new(alloc, most + 1)?,
            freed_t2: Tournament::new(alloc, most + 1)?,
            free,
            spare: most as usize,
        })
    }

    /// The slot of the page, or 0 where it has none.
    fn slot(&self, page: u32) -> u32
        ensures slot { result ≡ slice_index self.now.slots page }
        ensures slotted { IsSlotted self.now }
    {
        self.slots.get(page as usize).copied().unwrap_or(0)
    }

    /// The number of the page of the slot.
    #[inline(always)]
    fn number_in(&self, slot: u32) -> u32
        ensures { result ≡ slice_index self.now.numbers slot }
    {
        self.numbers.get(slot as usize).copied().unwrap_or(0)
    }

    /// The number of the page, or 0 where it has none.
    #[inline(always)]
    pub(crate) fn number(&self, page: u32) -> u32
        ensures number { result ≡ slice_index (numbers_of self.now) page }
    {
        self.number_in(self.slot(page))
    }

    /// The page has this number from now on. Where it has no slot and none is free, nothing changes, and the result is
    /// false.
    pub(crate) fn set(&mut self, page: u32, number: u32) -> bool
        requires below { page < length self.old.slots }
        requires number { 0 < number }
        ensures set { IsTrue result → numbers_of self.new ≡ slice_set (numbers_of self.old) page number }
        ensures refused { IsFalse result → numbers_of self.new ≡ numbers_of self.old }
        ensures full { IsFalse result → (self.old.spare ≡ 0) × (slice_index self.old.slots page ≡ 0) }
        ensures freed { (freed_t1_of self.new ≡ freed_t1_of self.old) × (freed_t2_of self.new ≡ freed_t2_of self.old) }
    {
        let slot = self.slot(page);
        if slot > 0 {
            self.renumber(page, slot, number);
            return true;
        }
        self.put_in(page, number)
    }

    /// The page, which has this slot, has another number from now on.
    fn renumber(&mut self, page: u32, slot: u32, number: u32)
        requires slot { slot ≡ slice_index self.old.slots page }
        requires some { 0 < slot }
        requires number { 0 < number }
        ensures numbers { numbers_of self.new ≡ slice_set (numbers_of self.old) page number }
        ensures freed { (freed_t1_of self.new ≡ freed_t1_of self.old) × (freed_t2_of self.new ≡ freed_t2_of self.old) }
    {
        self.numbers[slot as usize] = number;
    }

    /// The page, which has no slot, gets one and this number. Where no slot is free nothing changes, and the result is false.
    fn put_in(&mut self, page: u32, number: u32) -> bool
        requires below { page < length self.old.slots }
        requires none { slice_index self.old.slots page ≡ 0 }
        requires number { 0 < number }
        ensures set { IsTrue result → numbers_of self.new ≡ slice_set (numbers_of self.old) page number }
        ensures refused { IsFalse result → numbers_of self.new ≡ numbers_of self.old }
        ensures full { IsFalse result → (self.old.spare ≡ 0) × (slice_index self.old.slots page ≡ 0) }
        ensures freed { (freed_t1_of self.new ≡ freed_t1_of self.old) × (freed_t2_of self.new ≡ freed_t2_of self.old) }
    {
        if self.spare == 0 {
            return false;
        }
        self.spare -= 1;
        let slot = self.free[self.spare];
        self.slots[page as usize] = slot;
        self.pages[slot as usize] = page;
        self.numbers[slot as usize] = number;
        true
    }

    /// The page has no number from now on, and isn't among the freed ones.
    pub(crate) fn clear(&mut self, page: u32)
        ensures numbers { numbers_of self.new ≡ slice_set (numbers_of self.old) page 0 }
        ensures freed_t1 { freed_t1_of self.new ≡ slice_set (freed_t1_of self.old) page 0 }
        ensures freed_t2 { freed_t2_of self.new ≡ slice_set (freed_t2_of self.old) page 0 }
    {
        let slot = self.slot(page);
        if slot > 0 {
            self.let_go(page, slot);
        }
    }

    /// The page gives its slot back.
    fn let_go(&mut self, page: u32, slot: u32)
        requires slot { slot ≡ slice_index self.old.slots page }
        requires some { 0 < slot }
        ensures numbers { numbers_of self.new ≡ slice_set (numbers_of self.old) page 0 }
        ensures freed_t1 { freed_t1_of self.new ≡ slice_set (freed_t1_of self.old) page 0 }
        ensures freed_t2 { freed_t2_of self.new ≡ slice_set (freed_t2_of self.old) page 0 }
    {
        self.slots[page as usize] = 0;
        self.numbers[slot as usize] = 0;
        self.freed_t1.set(slot, 0);
        self.freed_t2.set(slot, 0);
        self.free[self.spare] = slot;
        self.spare += 1;
    }

    /// The page, which has a number, is among the freed ones of `T1` with this one, or with 0 it isn't any more.
    pub(crate) fn set_freed_t1(&mut self, page: u32, number: u32)
        requires numbered { (number ≡ 0) ⊎ (0 < slice_index (numbers_of self.old) page) }
        ensures freed { freed_t1_of self.new ≡ slice_set (freed_t1_of self.old) page number }
        ensures rest { (numbers_of self.new ≡ numbers_of self.old) × (freed_t2_of self.new ≡ freed_t2_of self.old) }
    {
        let slot = self.slot(page);
        if slot > 0 {
            self.free_in_t1(page, slot, number);
        }
    }

    /// The same, by the slot of the page.
    fn free_in_t1(&mut self, page: u32, slot: u32, number: u32)
        requires slot { slot ≡ slice_index self.old.slots page }
        requires some { 0 < slot }
        ensures freed { freed_t1_of self.new ≡ slice_set (freed_t1_of self.old) page number }
        ensures rest { (numbers_of self.new ≡ numbers_of self.old) × (freed_t2_of self.new ≡ freed_t2_of self.old) }
    {
        // This changes nothing: with a look at a field, the proof may use what holds of all of them.
        let _ = &self.slots;
        self.freed_t1.set(slot, number);
    }

    /// The page, which has a number, is among the freed ones of `T2` with this one, or with 0 it isn't any more.
    pub(crate) fn set_freed_t2(&mut self, page: u32, number: u32)
        requires numbered { (number ≡ 0) ⊎ (0 < slice_index (numbers_of self.old) page) }
        ensures freed { freed_t2_of self.new ≡ slice_set (freed_t2_of self.old) page number }
        ensures rest { (numbers_of self.new ≡ numbers_of self.old) × (freed_t1_of self.new ≡ freed_t1_of self.old) }
    {
        let slot = self.slot(page);
        if slot > 0 {
            self.free_in_t2(page, slot, number);
        }
    }

    /// The same, by the slot of the page.
    fn free_in_t2(&mut self, page: u32, slot: u32, number: u32)
        requires slot { slot ≡ slice_index self.old.slots page }
        requires some { 0 < slot }
        ensures freed { freed_t2_of self.new ≡ slice_set (freed_t2_of self.old) page number }
        ensures rest { (numbers_of self.new ≡ numbers_of self.old) × (freed_t1_of self.new ≡ freed_t1_of self.old) }
    {
        // As in `free_in_t1`, for the proof.
        let _ = &self.slots;
        self.freed_t2.set(slot, number);
    }

    /// The page of the greatest number among the freed ones of `T1`.
    pub(crate) fn last_freed_t1(&self) -> Option<u32>
        ensures some { (page : ℕ) → result ≡ Some page → (0 < slice_index (freed_t1_of self.now) page)
            × ((y : ℕ) → slice_index (freed_t1_of self.now) y ≤ slice_index (freed_t1_of self.now) page) }
        ensures none { result ≡ None → (x : ℕ) → slice_index (freed_t1_of self.now) x ≡ 0 }
    {
        let slot = self.freed_t1.greatest()?;
        Some(self.pages[slot as usize])
    }

    /// The page of the greatest number among the freed ones of `T2`.
    pub(crate) fn last_freed_t2(&self) -> Option<u32>
        ensures some { (page : ℕ) → result ≡ Some page → (0 < slice_index (freed_t2_of self.now) page)
            × ((y : ℕ) → slice_index (freed_t2_of self.now) y ≤ slice_index (freed_t2_of self.now) page) }
        ensures none { result ≡ None → (x : ℕ) → slice_index (freed_t2_of self.now) x ≡ 0 }
    {
        let slot = self.freed_t2.greatest()?;
        Some(self.pages[slot as usize])
    }
}
