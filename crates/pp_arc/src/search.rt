//! Where the searches for a page that isn't busy stand.

ghost use Rattle.std.specs.Prelude.{◌≡◌, ◌≢◌, ℕ, ◌+◌, ◌<◌, ◌≤◌, ◌^◌, ◌⊎◌, Bool, IsTrue, IsFalse, IfOk, IfSome, Some, None};
ghost use Rattle.std.specs.Prelude.{length};
ghost use Rattle.pp_arc.specs.Pages.{last_not_busy, last_page};
ghost use Rattle.pp_arc.specs.FourLists.{FourLists, list_of, place, times_named};
ghost use Rattle.pp_arc.specs.Figure.{forget};
ghost use Rattle.pp_arc.specs.Search.{SearchMarks, KnowsBusy, NoneFreed, IsLastFreed, number_of, mark_of, freed_of};
ghost use Rattle.pp_arc.specs.Search.{without_number, with_mark, with_freed, passed};
ghost use Rattle.pp_arc.specs.declared.list.List.{List as ListName};

use crate::lists::Lists;
use crate::numbers::Numbers;
use crate::{Busy, List};
use std::alloc::{AllocError, Global};
use std::marker::Model;

/// Where the searches for a page that isn't busy stand, so that they need not walk over the same busy pages again.
///
/// Its owner keeps it beside a directory and its busy pages, hands it to each call that moves pages of the directory, and
/// tells [`Directory::freed`](crate::Directory::freed) of each page that stops being busy. Then `KnowsBusy` holds: a page that a
/// search passed over is busy, or it is known to have been freed.
///
/// A search takes the least recent of the freed pages, which two tournaments tell, one for `T1` and one for `T2`. Where there
/// is none it goes on from the mark, the page that the last search passed over, and moves the mark over the busy pages that it
/// meets. So each page is passed over once after it last came to the front of its list, or was freed. A freed page costs up to three
/// steps for each time that the size of the cache can be halved.
///
/// A search begins anew at the last page of its list in two cases. The numbers of the pages that were passed over fall
/// from `u32::MAX` on, and may be used up. Or more pages are busy than [`Search::new`] made room for: then each search
/// that comes to the first page without room walks over all busy pages from the end of the list.
#[derive(Debug, Drop)]
pub struct Search {
    t1: Option<u32>,
    t2: Option<u32>,
    /// How many pages have a number.
    passed: u32,
    /// The number that each page got as a search passed over it, from `u32::MAX` down, and which of these pages were freed.
    numbers: Numbers,
}

impl Model for Search {
    ghost use Rattle.pp_arc.specs.Search.{SearchMarks};

    ghost Value = { SearchMarks };

    ghost use Rattle.pp_arc.specs.Slots.{marks_of, numbers_of};

    ghost view = { λ s. marks_of s.t1 s.t2 s.numbers };

    ghost use Rattle.pp_arc.specs.Passed.{IsCounted};

    ghost invariant = { λ s. IsCounted s.passed (numbers_of s.numbers) };
}

impl Search {
    /// A search that has passed over no page, for a cache of `c` pages, of page numbers below `pages`.
    ///
    /// It takes 4 bytes for each page number, and 28 for each page that the cache holds. A larger cache gets the same victims from
    /// it; but once `c` busy pages were passed over, each search that meets another one walks over all of them.
    ///
    /// # Errors
    ///
    /// Only where that memory can't be had.
    pub fn new(alloc: Global, c: u32, pages: u32) -> Result<Self, AllocError>
        ensures knows { IfOk result (λ search. (s : FourLists) (busy : ℕ → Bool) → s.pages ≤ pages
            → KnowsBusy s search busy) }
    {
        Ok(Search {
            t1: None,
            t2: None,
            passed: 0,
            numbers: Numbers::new(alloc, c.min(pages).min(u32::MAX - 1), pages)?,
        })
    }

    /// The number of the page, if a search passed over it since it last came to the front of its list.
    #[inline(always)]
    fn number(&self, page: u32) -> u32
        ensures { result ≡ number_of self.now page }
    {
        self.numbers.number(page)
    }

    /// Whether no page has a number: then there is no mark, and no page was freed.
    #[inline(always)]
    fn is_blank(&self) -> bool
        ensures { IsTrue result → (x : ℕ) → number_of self.now x ≡ 0 }
    {
        self.passed == 0
    }

    /// The mark of `T1` or `T2`.
    #[inline(always)]
    fn mark(&self, list: List) -> Option<u32>
        ensures { result ≡ mark_of self.now list }
    {
        match list {
            List::T1 => self.t1,
            _ => self.t2,
        }
    }

    /// The mark of `T1` or `T2` is this one from now on.
    fn set_mark(&mut self, list: List, mark: Option<u32>)
        ensures { self.new ≡ with_mark self.old list mark }
    {
        match list {
            List::T1 => self.t1 = mark,
            _ => self.t2 = mark,
        }
    }

    /// The page of `T1` or `T2` was freed and has this number, or with 0 it isn't among the freed ones any more.
    fn set_freed(&mut self, list: List, page: u32, number: u32)
        requires { (number ≡ 0) ⊎ (0 < number_of self.old page) }
        ensures { self.new ≡ with_freed self.old list page number }
    {
        match list {
            List::T1 => self.numbers.set_freed_t1(page, number),
            _ => self.numbers.set_freed_t2(page, number),
        }
    }

    /// The least recent of the freed pages of `T1` or `T2`.
    fn last_freed(&self, list: List) -> Option<u32>
        ensures some { (page : ℕ) → result ≡ Some page → IsLastFreed self.now list page }
        ensures none { result ≡ None → NoneFreed self.now list }
    {
        match list {
            List::T1 => self.numbers.last_freed_t1(),
            _ => self.numbers.last_freed_t2(),
        }
    }

    /// The page stopped being busy.
    #[inline(always)]
    pub(crate) fn freed<L: Lists>(&mut self, links: &L, page: u32)
        requires once { (x : ℕ) → times_named (L.lists links.now) x ≤ 1 }
        ensures knows { (busy other : ℕ → Bool) → KnowsBusy (L.lists links.now) self.old busy
            → ((x : ℕ) → x ≢ page → IsTrue (busy x) → IsTrue (other x)) → KnowsBusy (L.lists links.now) self.new other }
    {
        if !self.is_blank() {
            self.freed_among_passed(links, page);
        }
    }

    /// The same, where a search passed over some pages.
    #[inline(never)]
    fn freed_among_passed<L: Lists>(&mut self, links: &L, page: u32)
        requires once { (x : ℕ) → times_named (L.lists links.now) x ≤ 1 }
        ensures knows { (busy other : ℕ → Bool) → KnowsBusy (L.lists links.now) self.old busy
            → ((x : ℕ) → x ≢ page → IsTrue (busy x) → IsTrue (other x)) → KnowsBusy (L.lists links.now) self.new other }
    {
        let number = self.number(page);
        if number > 0 {
            self.put_among_freed(links, page, number);
        }
    }

    /// A page that was passed over stopped being busy: it is among the freed pages of its list.
    fn put_among_freed<L: Lists>(&mut self, links: &L, page: u32, number: u32)
        requires once { (x : ℕ) → times_named (L.lists links.now) x ≤ 1 }
        requires number { number ≡ number_of self.old page }
        requires passed { 0 < number }
        ensures knows { (busy other : ℕ → Bool) → KnowsBusy (L.lists links.now) self.old busy
            → ((x : ℕ) → x ≢ page → IsTrue (busy x) → IsTrue (other x)) → KnowsBusy (L.lists links.now) self.new other }
    {
        if let Some(list) = links.place(page) {
            self.set_freed(list, page, number);
        }
    }

    /// The page is about to leave its list. It has no number from now on.
    #[inline(always)]
    pub(crate) fn leave<L: Lists>(&mut self, links: &L, page: u32)
        requires once { (x : ℕ) → times_named (L.lists links.now) x ≤ 1 }
        ensures knows { (busy other : ℕ → Bool) → KnowsBusy (L.lists links.now) self.old busy
            → ((x : ℕ) → x ≢ page → IsTrue (busy x) → IsTrue (other x))
            → KnowsBusy (forget (L.lists links.now) page) self.new other }
    {
        if !self.is_blank() {
            self.leave_among_passed(links, page);
        }
    }

    /// The same, where a search passed over some pages.
    #[inline(never)]
    fn leave_among_passed<L: Lists>(&mut self, links: &L, page: u32)
        requires once { (x : ℕ) → times_named (L.lists links.now) x ≤ 1 }
        ensures knows { (busy other : ℕ → Bool) → KnowsBusy (L.lists links.now) self.old busy
            → ((x : ℕ) → x ≢ page → IsTrue (busy x) → IsTrue (other x))
            → KnowsBusy (forget (L.lists links.now) page) self.new other }
    {
        if self.number(page) > 0 {
            self.step_off(links, page);
        }
    }

    /// A page that was passed over is about to leave its list.
    fn step_off<L: Lists>(&mut self, links: &L, page: u32)
        requires once { (x : ℕ) → times_named (L.lists links.now) x ≤ 1 }
        ensures knows { (busy other : ℕ → Bool) → KnowsBusy (L.lists links.now) self.old busy
            → ((x : ℕ) → x ≢ page → IsTrue (busy x) → IsTrue (other x))
            → KnowsBusy (forget (L.lists links.now) page) self.new other }
    {
        self.step_off_t1(links, page);
        self.step_off_t2(links, page);
        self.clear(page);
    }

    /// Where the page is the mark of `T1`, the next less recent page becomes the mark: a search passed over that one too.
    fn step_off_t1<L: Lists>(&mut self, links: &L, page: u32)
        requires once { (x : ℕ) → times_named (L.lists links.now) x ≤ 1 }
        ensures knows { (busy : ℕ → Bool) → KnowsBusy (L.lists links.now) self.old busy
            → KnowsBusy (L.lists links.now) self.new busy }
        ensures mark { self.new.t1 ≢ Some page }
        ensures rest { self.new ≡ record self.old { t1 = self.new.t1 } }
    {
        if self.t1 == Some(page) {
            self.t1 = links.after(page);
        }
    }

    /// Where the page is the mark of `T2`, the next less recent page becomes the mark: a search passed over that one too.
    fn step_off_t2<L: Lists>(&mut self, links: &L, page: u32)
        requires once { (x : ℕ) → times_named (L.lists links.now) x ≤ 1 }
        ensures knows { (busy : ℕ → Bool) → KnowsBusy (L.lists links.now) self.old busy
            → KnowsBusy (L.lists links.now) self.new busy }
        ensures mark { self.new.t2 ≢ Some page }
        ensures rest { self.new ≡ record self.old { t2 = self.new.t2 } }
    {
        if self.t2 == Some(page) {
            self.t2 = links.after(page);
        }
    }

    /// The page has no number from now on, and isn't among the freed ones.
    #[inline(always)]
    pub(crate) fn clear(&mut self, page: u32)
        ensures { self.new ≡ without_number self.old page }
    {
        if !self.is_blank() {
            self.clear_among_passed(page);
        }
    }

    /// The same, where a search passed over some pages.
    #[inline(never)]
    fn clear_among_passed(&mut self, page: u32)
        ensures { self.new ≡ without_number self.old page }
    {
        if self.number(page) > 0 {
            self.passed -= 1;
            self.numbers.clear(page);
        }
    }

    /// The last page of `T1` or `T2` that isn't busy. No mark is at that page.
    #[inline(always)]
    pub(crate) fn last_not_busy<L: Lists, B: Busy>(
        &mut self,
        links: &L,
        list: List,
        busy: &B,
    ) -> Option<u32>
        requires cached { (list ≡ ListName.T1) ⊎ (list ≡ ListName.T2) }
        requires once { (x : ℕ) → times_named (L.lists links.now) x ≤ 1 }
        requires below { (x : ℕ) → 0 < times_named (L.lists links.now) x → x < (L.lists links.now).pages }
        requires knows { KnowsBusy (L.lists links.now) self.old (B.busy busy.now) }
        ensures last { result ≡ last_not_busy (list_of (L.lists links.now) list) (B.busy busy.now) }
        ensures knows { KnowsBusy (L.lists links.now) self.new (B.busy busy.now) }
        ensures marks { IfSome result (λ page. (self.new.t1 ≢ Some page) × (self.new.t2 ≢ Some page)) }
    {
        if self.is_blank() {
            self.last_of_all(links, list, busy)
        } else {
            self.last_among_passed(links, list, busy)
        }
    }

    /// The same, where a search passed over some pages: a freed page, or one from the mark on.
    #[inline(never)]
    fn last_among_passed<L: Lists, B: Busy>(
        &mut self,
        links: &L,
        list: List,
        busy: &B,
    ) -> Option<u32>
        requires cached { (list ≡ ListName.T1) ⊎ (list ≡ ListName.T2) }
        requires once { (x : ℕ) → times_named (L.lists links.now) x ≤ 1 }
        requires below { (x : ℕ) → 0 < times_named (L.lists links.now) x → x < (L.lists links.now).pages }
        requires knows { KnowsBusy (L.lists links.now) self.old (B.busy busy.now) }
        ensures last { result ≡ last_not_busy (list_of (L.lists links.now) list) (B.busy busy.now) }
        ensures knows { KnowsBusy (L.lists links.now) self.new (B.busy busy.now) }
        ensures marks { IfSome result (λ page. (self.new.t1 ≢ Some page) × (self.new.t2 ≢ Some page)) }
    {
        if let Some(page) = self.last_freed_not_busy(list, busy) {
            self.step_off_t1(links, page);
            self.step_off_t2(links, page);
            return Some(page);
        }
        self.last_from_mark(links, list, busy)
    }

    /// The least recent freed page of `T1` or `T2` that isn't busy. Those that are busy again, and less recent than it, aren't among
    /// the freed ones any more.
    fn last_freed_not_busy<B: Busy>(&mut self, list: List, busy: &B) -> Option<u32>
        ensures knows { (s : FourLists) → KnowsBusy s self.old (B.busy busy.now) → KnowsBusy s self.new (B.busy busy.now) }
        ensures not_busy { IfSome result (λ page. IsFalse (B.busy busy.now page)) }
        ensures some { (page : ℕ) → result ≡ Some page → IsLastFreed self.new list page }
        ensures none { result ≡ None → NoneFreed self.new list }
    {
        while let Some(page) = self.last_freed(list) {
            if !busy.is_busy(page) {
                return Some(page);
            }
            self.set_freed(list, page, 0);
        }
        None
    }

    /// The last page of `T1` or `T2` that isn't busy, where no page of it was freed.
    fn last_from_mark<L: Lists, B: Busy>(&mut self, links: &L, list: List, busy: &B) -> Option<u32>
        requires cached { (list ≡ ListName.T1) ⊎ (list ≡ ListName.T2) }
        requires once { (x : ℕ) → times_named (L.lists links.now) x ≤ 1 }
        requires below { (x : ℕ) → 0 < times_named (L.lists links.now) x → x < (L.lists links.now).pages }
        requires knows { KnowsBusy (L.lists links.now) self.old (B.busy busy.now) }
        requires none_freed { NoneFreed self.old list }
        ensures last { result ≡ last_not_busy (list_of (L.lists links.now) list) (B.busy busy.now) }
        ensures knows { KnowsBusy (L.lists links.now) self.new (B.busy busy.now) }
        ensures marks { IfSome result (λ page. (self.new.t1 ≢ Some page) × (self.new.t2 ≢ Some page)) }
    {
        match self.mark(list) {
            Some(mark) => self.last_before(links, list, mark, busy),
            None => self.last_of_all(links, list, busy),
        }
    }

    /// The same, from the last page of the list on.
    #[inline(always)]
    fn last_of_all<L: Lists, B: Busy>(&mut self, links: &L, list: List, busy: &B) -> Option<u32>
        requires cached { (list ≡ ListName.T1) ⊎ (list ≡ ListName.T2) }
        requires once { (x : ℕ) → times_named (L.lists links.now) x ≤ 1 }
        requires below { (x : ℕ) → 0 < times_named (L.lists links.now) x → x < (L.lists links.now).pages }
        requires knows { KnowsBusy (L.lists links.now) self.old (B.busy busy.now) }
        requires no_mark { mark_of self.old list ≡ None }
        requires none_freed { NoneFreed self.old list }
        ensures last { result ≡ last_not_busy (list_of (L.lists links.now) list) (B.busy busy.now) }
        ensures knows { KnowsBusy (L.lists links.now) self.new (B.busy busy.now) }
        ensures mark { IfSome result (λ page. mark_of self.new list ≢ Some page) }
    {
        let last = links.last(list)?;
        if !busy.is_busy(last) {
            return Some(last);
        }
        self.last_before_last(links, list, last, busy)
    }

    /// The same, by a walk from the last page of the list on, where there is no number for a page. No mark stays.
    fn last_without_mark<L: Lists, B: Busy>(
        &mut self,
        links: &L,
        list: List,
        busy: &B,
    ) -> Option<u32>
        requires knows { KnowsBusy (L.lists links.now) self.old (B.busy busy.now) }
        ensures last { result ≡ last_not_busy (list_of (L.lists links.now) list) (B.busy busy.now) }
        ensures knows { KnowsBusy (L.lists links.now) self.new (B.busy busy.now) }
        ensures mark { IfSome result (λ page. mark_of self.new list ≢ Some page) }
    {
        self.set_mark(list, None);
        links.last_not_busy(list, busy)
    }

    /// The same, where the last page is busy: the search passes over it.
    #[inline(never)]
    fn last_before_last<L: Lists, B: Busy>(
        &mut self,
        links: &L,
        list: List,
        last: u32,
        busy: &B,
    ) -> Option<u32>
        requires cached { (list ≡ ListName.T1) ⊎ (list ≡ ListName.T2) }
        requires once { (x : ℕ) → times_named (L.lists links.now) x ≤ 1 }
        requires below { (x : ℕ) → 0 < times_named (L.lists links.now) x → x < (L.lists links.now).pages }
        requires knows { KnowsBusy (L.lists links.now) self.old (B.busy busy.now) }
        requires none_freed { NoneFreed self.old list }
        requires last { last_page (list_of (L.lists links.now) list) ≡ Some last }
        requires busy { IsTrue (B.busy busy.now last) }
        ensures last { result ≡ last_not_busy (list_of (L.lists links.now) list) (B.busy busy.now) }
        ensures knows { KnowsBusy (L.lists links.now) self.new (B.busy busy.now) }
        ensures mark { IfSome result (λ page. mark_of self.new list ≢ Some page) }
    {
        if self.pass(list, last, u32::MAX) {
            self.last_before(links, list, last, busy)
        } else {
            self.last_without_mark(links, list, busy)
        }
    }

    /// The same, from the page before the mark on. The mark moves over each one that is passed over.
    #[inline(never)]
    fn last_before<L: Lists, B: Busy>(
        &mut self,
        links: &L,
        list: List,
        start: u32,
        busy: &B,
    ) -> Option<u32>
        requires cached { (list ≡ ListName.T1) ⊎ (list ≡ ListName.T2) }
        requires once { (x : ℕ) → times_named (L.lists links.now) x ≤ 1 }
        requires below { (x : ℕ) → 0 < times_named (L.lists links.now) x → x < (L.lists links.now).pages }
        requires knows { KnowsBusy (L.lists links.now) self.old (B.busy busy.now) }
        requires mark { mark_of self.old list ≡ Some start }
        requires none_freed { NoneFreed self.old list }
        ensures last { result ≡ last_not_busy (list_of (L.lists links.now) list) (B.busy busy.now) }
        ensures knows { KnowsBusy (L.lists links.now) self.new (B.busy busy.now) }
        ensures mark { IfSome result (λ page. mark_of self.new list ≢ Some page) }
    {
        let mut mark = start;
        while let Some(page) = links.before(mark) {
            if !busy.is_busy(page) {
                return Some(page);
            }
            let number = self.number(mark);
            if number <= 1 {
                // The numbers are used up: this search walks from the end, and the next one gives numbers anew.
                return self.last_without_mark(links, list, busy);
            }
            if !self.pass(list, page, number - 1) {
                return self.last_without_mark(links, list, busy);
            }
            mark = page;
        }
        None
    }

    /// A search passes over the page: it gets this number, and the mark stands at it. Where there is no room for its number nothing
    /// changes, and the result is false.
    fn pass(&mut self, list: List, page: u32, number: u32) -> bool
        requires below { page < length self.old.numbers }
        requires number { 0 < number }
        ensures exact { IsTrue result → self.new ≡ passed self.old list page number }
        ensures refused { IsFalse result → self.new ≡ self.old }
        ensures low { number_of self.old page < 2 ^ 32 }
    {
        let old = self.number(page);
        if !self.numbers.set(page, number) {
            return false;
        }
        if old == 0 {
            self.passed += 1;
        }
        self.set_mark(list, Some(page));
        true
    }
}
