//! ARC's directory: the request, a page forgotten, and a victim brought back.

ghost use Rattle.std.specs.Prelude.{◌≡◌, ◌≢◌, ℕ, ◌+◌, ◌*◌, ◌^◌, ◌<◌, ◌≤◌, ◌⊎◌, ◌↔◌, ◌==◌, if◌then◌else◌, is_none, Bool};
ghost use Rattle.std.specs.Prelude.{true, false, List, [], ◌∷◌, length, Option, Some, None, IsTrue, IsFalse, IfOk, IfSome};
ghost use Rattle.std.specs.Prelude.{slice_get};
ghost use Rattle.std.specs.Prelude.{IsNone};
ghost use Rattle.std.specs.Option.{option_or};
ghost use Rattle.pp_arc.specs.declared.list.List.{List as ListName};
ghost use Rattle.pp_arc.specs.Pages.{times_in, contains, last_page, last_not_busy};
ghost use Rattle.pp_arc.specs.FourLists.{empty_lists, list_of, cached_count, recent_count, total_count, times_named};
ghost use Rattle.pp_arc.specs.FourLists.{is_cached, place, after};
ghost use Rattle.pp_arc.specs.Bounds.{IsWithinBounds};
ghost use Rattle.pp_arc.specs.Laws.{AllCachedAreBusy, CachesInstead, CachesWithout, CachesAgain, CachesRenamed};
ghost use Rattle.pp_arc.specs.Figure.{forget, with_front_of_t1, with_front_of_t2, with_remembered, raised_target};
ghost use Rattle.pp_arc.specs.Figure.{lowered_target, victim, replacement, after_replace, replace_in_t1, room_for_new};
ghost use Rattle.pp_arc.specs.Figure.{without_last_of_b1, without_last_of_b2, is_all_busy, request, bring_back};
ghost use Rattle.pp_arc.specs.Search.{KnowsBusy, FoundIn, without_victim};
ghost use Rattle.pp_arc.specs.Sizes.{dropped_name, given_up, after_giving_up, renamed, resized, with_names, moved_into};

use crate::lists::{Lists, cut, move_into, rename};
use crate::{Answer, Busy, Links, List, Names, Search};
use std::alloc::{AllocError, Global};
use std::marker::Model;

/// ARC's directory: which pages are cached, which are only remembered, and in which order.
///
/// Contracts see it as the record `FourLists`: the four lists, the most recent page first, and the target.
/// It holds page numbers alone; where the pages themselves lie is the caller's affair.
///
/// All its memory is got as it is made. The bounds `IsWithinBounds` hold at all times, and each
/// call tells them.
///
/// But for [`Directory::resize`] and [`Directory::move_into`], each call looks at a fixed number of records, and at
/// those of the busy pages that a search passes over. Where a page that was passed over is freed or leaves its place,
/// it looks at some more for each halving of the size of the cache. A busy page is passed over once after it last came
/// to the front of its list, or was named by [`Directory::freed`]; [`Search`] says when a search begins anew.
#[derive(Debug, Drop)]
pub struct Directory<L: Lists = Names> {
    c: u32,
    target: u32,
    links: L,
}

impl<L: Lists> Model for Directory<L> {
    ghost use Rattle.pp_arc.specs.FourLists.{FourLists};

    ghost Value = { FourLists };

    ghost use Rattle.pp_arc.specs.Fields.{lists_with, IsSound};

    ghost view = { λ d. lists_with (L.lists d.links) d.c d.target };

    ghost invariant = { λ d. IsSound (L.lists d.links) d.c d.target };
}

/// How many nodes a directory has: two for each page of the cache, and no more than there are page numbers.
fn nodes_for(c: u32, pages: u32) -> u32
    ensures room { (2 * c ≤ result) ⊎ (pages ≤ result) }
    ensures most { result ≤ pages }
{
    if c <= pages / 2 { 2 * c } else { pages }
}

/// The first names of `B1` and then of `B2` stay, so many as the bounds of a cache of `c` pages leave.
fn keep_first<L: Lists>(links: &mut L, c: u32)
    requires cached { cached_count (L.lists links.old) ≤ c }
    ensures lists { L.lists links.new ≡ with_names (L.lists links.old) c }
{
    let size = c as usize;
    let t1 = links.len(List::T1);
    let cached = t1 + links.len(List::T2);
    cut(links, List::B1, size - t1);
    let named = cached + links.len(List::B1);
    cut(links, List::B2, 2 * size - named);
}

impl Directory<Names> {
    /// A directory for a cache of `c` pages, of page numbers below `pages`. Nothing is cached yet.
    ///
    /// It takes 4 bytes for each page number, 40 for each page that the cache holds, and 48 more.
    ///
    /// # Errors
    ///
    /// Only where that memory can't be had.
    pub fn new(alloc: Global, c: u32, pages: u32) -> Result<Self, AllocError>
        requires holds_a_page { 1 ≤ c }
        requires fits { pages + 4 ≤ 2 ^ 32 }
        ensures empty { IfOk result (λ directory. directory ≡ empty_lists c pages) }
        ensures bounds { IfOk result IsWithinBounds }
    {
        Ok(Directory {
            c,
            target: 0,
            links: Names::new(alloc, nodes_for(c, pages), pages)?,
        })
    }

    /// Makes the cache one of `c` pages, which are fewer: so many are cached at most.
    ///
    /// The target falls to `c` at most, and `B1` and then `B2` lose their last names until the bounds hold. A larger
    /// cache wants a larger directory, into which this one can move ([`Directory::move_into`]).
    pub fn resize(&mut self, c: u32)
        requires holds_a_page { 1 ≤ c }
        requires fewer { c ≤ self.old.c }
        requires cached { cached_count self.old ≤ c }
        ensures lists { self.new ≡ resized self.old c }
        ensures bounds { IsWithinBounds self.new }
    {
        keep_first(&mut self.links, c);
        self.target = self.target.min(c);
        self.c = c;
    }
}

impl Directory<Links> {
    /// A directory that [`resize`](Directory::<Links>::resize) may make larger: it has a record for each page number.
    ///
    /// It takes 12 bytes for each page number, whatever `c` is, and 48 bytes more.
    ///
    /// # Errors
    ///
    /// Only where that memory can't be had.
    pub fn growing(alloc: Global, c: u32, pages: u32) -> Result<Self, AllocError>
        requires holds_a_page { 1 ≤ c }
        requires fits { pages + 4 ≤ 2 ^ 32 }
        ensures empty { IfOk result (λ directory. directory ≡ empty_lists c pages) }
        ensures bounds { IfOk result IsWithinBounds }
    {
        Ok(Directory {
            c,
            target: 0,
            links: Links::new(alloc, pages)?,
        })
    }

    /// Makes the cache one of `c` pages: so many are cached at most.
    ///
    /// The target falls to `c` at most, and `B1` and then `B2` lose their last names until the bounds hold. More room
    /// keeps all.
    pub fn resize(&mut self, c: u32)
        requires holds_a_page { 1 ≤ c }
        requires cached { cached_count self.old ≤ c }
        ensures lists { self.new ≡ resized self.old c }
        ensures bounds { IsWithinBounds self.new }
    {
        // Only for the proof: by its clause `room` there is a record for each page number, so any size fits.
        let _pages = self.links.pages();
        keep_first(&mut self.links, c);
        self.target = c.min(self.target);
        self.c = c;
    }
}

impl<L: Lists> Directory<L> {
    /// How many pages the cache holds at most.
    pub fn size(&self) -> u32
        ensures size { result ≡ self.now.c }
        ensures bounds { IsWithinBounds self.now }
    {
        self.c
    }

    /// The size that `T1` should have, from 0 to `c`.
    pub fn target(&self) -> u32
        ensures target { result ≡ self.now.target }
        ensures bounds { IsWithinBounds self.now }
    {
        self.target
    }

    /// How many pages the list has.
    pub fn len(&self, list: List) -> usize
        ensures len { result ≡ length (list_of self.now list) }
        ensures bounds { IsWithinBounds self.now }
    {
        self.links.len(list)
    }

    /// The most recent page of the list, if it has one.
    pub fn front(&self, list: List) -> Option<u32>
        ensures front { result ≡ slice_get (list_of self.now list) 0 }
        ensures bounds { IsWithinBounds self.now }
    {
        self.links.front(list)
    }

    /// The last page of the list, which is its least recent, if it has one.
    pub fn last(&self, list: List) -> Option<u32>
        ensures last { result ≡ last_page (list_of self.now list) }
        ensures stands { (page : ℕ) → result ≡ Some page → IsTrue (contains (list_of self.now list) page) }
        ensures empty { result ≡ None → length (list_of self.now list) ≡ 0 }
        ensures bounds { IsWithinBounds self.now }
    {
        self.links.last(list)
    }

    /// The next less recent page of the list in which this page stands.
    ///
    /// None for the last page of a list, and for a page that stands nowhere.
    pub fn after(&self, page: u32) -> Option<u32>
        ensures after { result ≡ after self.now page }
        ensures bounds { IsWithinBounds self.now }
    {
        self.links.after(page)
    }

    /// The list in which the page stands, if it stands in one.
    pub fn place(&self, page: u32) -> Option<List>
        ensures place { result ≡ place self.now page }
        ensures cached { IsTrue (is_cached self.now page) ↔ ((result ≡ Some List.T1) ⊎ (result ≡ Some List.T2)) }
        ensures bounds { IsWithinBounds self.now }
    {
        self.links.place(page)
    }

    /// Asks for a page while the pages of `busy` may not leave the cache.
    ///
    /// The page is cached afterwards, but where the answer is [`Answer::AllBusy`]: then the lists and the target are as before.
    pub fn request<B: Busy>(&mut self, page: u32, search: &mut Search, busy: &B) -> Answer
        requires below { page < self.old.pages }
        requires knows { KnowsBusy self.old search.old (B.busy busy.now) }

        // ARC's figure
        ensures answer { result ≡ (request self.old page (B.busy busy.now)).0 }
        ensures lists { self.new ≡ (request self.old page (B.busy busy.now)).1 }
        ensures bounds { IsWithinBounds self.new }
        ensures fixed { (self.new.c ≡ self.old.c) × (self.new.pages ≡ self.old.pages) }
        ensures knows { KnowsBusy self.new search.new (B.busy busy.now) }

        // which answer comes when
        ensures hit { (result ≡ Answer.Hit) ↔ IsTrue (is_cached self.old page) }
        ensures free { (result ≡ Answer.Free)
            ↔ (IsFalse (is_cached self.old page) × (cached_count self.old < self.old.c)) }
        ensures all_busy { (result ≡ Answer.AllBusy)
            ↔ (IsFalse (is_cached self.old page) × (cached_count self.old ≡ self.old.c)
            × AllCachedAreBusy self.old (B.busy busy.now)) }

        // what it does
        ensures unchanged { result ≡ Answer.AllBusy → self.new ≡ self.old }
        ensures victim_was_cached { (v : ℕ) → result ≡ Answer.Evict v → IsTrue (is_cached self.old v) }
        ensures victim_is_not_busy { (v : ℕ) → result ≡ Answer.Evict v → IsFalse (B.busy busy.now v) }
        ensures front { result ≢ Answer.AllBusy
            → slice_get (if is_none (place self.old page) then self.new.t1 else self.new.t2) 0 ≡ Some page }
        ensures cache { result ≢ Answer.AllBusy → CachesInstead self.old self.new page result }
    {
        self.request_by_place(page, search, busy)
    }

    /// Asks for a page if it is cached, and tells whether it is.
    ///
    /// Where it is, this is [`Directory::request`], whatever pages are busy; else nothing has changed.
    #[inline(always)]
    pub fn touch(&mut self, page: u32, search: &mut Search) -> bool
        requires below { page < self.old.pages }
        ensures cached { result ≡ is_cached self.old page }
        ensures requests { IsTrue result → (busy : ℕ → Bool) → request self.old page busy ≡ (Answer.Hit, self.new) }
        ensures unchanged { IsFalse result → (self.new ≡ self.old) × (search.new ≡ search.old) }
        ensures bounds { IsWithinBounds self.new }
        ensures knows { (busy : ℕ → Bool) → KnowsBusy self.old search.old busy → KnowsBusy self.new search.new busy }
    {
        match self.place_below(page) {
            Some(List::T1) | Some(List::T2) => {
                self.hit(page, search);
                true
            }
            _ => false,
        }
    }

    /// The request of a cached page.
    #[inline(always)]
    fn hit(&mut self, page: u32, search: &mut Search) -> Answer
        requires below { page < self.old.pages }
        requires cached { IsTrue (is_cached self.old page) }
        ensures answer { result ≡ Answer.Hit }
        ensures lists { self.new ≡ with_front_of_t2 self.old page }
        ensures bounds { IsWithinBounds self.new }
        ensures knows { (busy : ℕ → Bool) → KnowsBusy self.old search.old busy → KnowsBusy self.new search.new busy }
    {
        search.leave(&self.links, page);
        self.move_to_t2(page);
        Answer::Hit
    }

    /// The request, by the list in which the page stands.
    fn request_by_place<B: Busy>(&mut self, page: u32, search: &mut Search, busy: &B) -> Answer
        requires below { page < self.old.pages }
        requires knows { KnowsBusy self.old search.old (B.busy busy.now) }
        ensures answer { result ≡ (request self.old page (B.busy busy.now)).0 }
        ensures lists { self.new ≡ (request self.old page (B.busy busy.now)).1 }
        ensures bounds { IsWithinBounds self.new }
        ensures were_bounds { IsWithinBounds self.old }
        ensures knows { KnowsBusy self.new search.new (B.busy busy.now) }
    {
        match self.place_below(page) {
            Some(List::T1) | Some(List::T2) => self.hit(page, search),
            Some(List::B1) => {
                self.request_remembered(page, self.raised_target(), false, search, busy)
            }
            Some(List::B2) => {
                self.request_remembered(page, self.lowered_target(), true, search, busy)
            }
            None => self.request_new(page, search, busy),
        }
    }

    /// The list in which a page below `pages` stands, if it stands in one.
    fn place_below(&self, page: u32) -> Option<List>
        requires { page < self.now.pages }
        ensures place { result ≡ place self.now page }
        ensures cached { IsTrue (is_cached self.now page) ↔ ((result ≡ Some List.T1) ⊎ (result ≡ Some List.T2)) }
        ensures bounds { IsWithinBounds self.now }
    {
        self.links.place_below(page)
    }

    /// The remembered name that the request for this page drops, if it drops one.
    ///
    /// Where the answer to the request is [`Answer::AllBusy`], it drops none. A victim that leaves a `T1` that is all
    /// of the cache is remembered nowhere: the answer names it.
    pub fn dropped_name(&self, page: u32) -> Option<u32>
        ensures dropped { result ≡ dropped_name self.now page }
        ensures bounds { IsWithinBounds self.now }
    {
        if self.place(page).is_some() {
            return None;
        }
        let c = self.c as usize;
        let t1 = self.links.len(List::T1);
        let recent = t1 + self.links.len(List::B1);
        let named = recent + self.links.len(List::T2) + self.links.len(List::B2);
        if recent == c {
            self.links.last(List::B1)
        } else if named == 2 * c {
            self.links.last(List::B2)
        } else {
            None
        }
    }

    /// Gives up one cached page, though no page comes in: the one that REPLACE would take leaves the cache, and its
    /// name is remembered. None where each cached page is busy; then the lists and the target are as before.
    pub fn give_up<B: Busy>(&mut self, search: &mut Search, busy: &B) -> Option<u32>
        requires knows { KnowsBusy self.old search.old (B.busy busy.now) }
        ensures victim { result ≡ given_up self.old (B.busy busy.now) }
        ensures all_busy { IsNone result ↔ AllCachedAreBusy self.old (B.busy busy.now) }
        ensures lists { self.new ≡ after_giving_up self.old result }
        ensures was_cached { IfSome result (λ v. IsTrue (is_cached self.old v)) }
        ensures is_not_busy { IfSome result (λ v. IsFalse (B.busy busy.now v)) }
        ensures fewer { IfSome result (λ _. cached_count self.new + 1 ≡ cached_count self.old) }
        ensures cache { IfSome result (λ v. CachesWithout self.old self.new v) }
        ensures bounds { IsWithinBounds self.new }
        ensures knows { KnowsBusy self.new search.new (B.busy busy.now) }
    {
        let page = self.page_to_give_up(search, busy)?;
        search.clear(page);
        self.demote(page);
        Some(page)
    }

    /// The page that leaves where the cache gives up one. No list changes yet.
    fn page_to_give_up<B: Busy>(&self, search: &mut Search, busy: &B) -> Option<u32>
        requires knows { KnowsBusy self.now search.old (B.busy busy.now) }
        ensures victim { result ≡ given_up self.now (B.busy busy.now) }
        ensures all_busy { IsNone result ↔ AllCachedAreBusy self.now (B.busy busy.now) }
        ensures is_cached { IfSome result (λ v. IsTrue (is_cached self.now v)) }
        ensures is_not_busy { IfSome result (λ v. IsFalse (B.busy busy.now v)) }
        ensures bounds { IsWithinBounds self.now }
        ensures knows { KnowsBusy self.now search.new (B.busy busy.now) }
        ensures marks { IfSome result (λ v. (search.new.t1 ≢ Some v) × (search.new.t2 ≢ Some v)) }
    {
        self.victim(self.target, false, search, busy)
    }

    /// Gives the page of the name `old` the name `new`: it stays in its list, and stands at its front.
    ///
    /// What had the name `new` is forgotten. Where `old` stands nowhere, nothing else changes.
    pub fn rename(&mut self, old: u32, new: u32, search: &mut Search)
        requires below { new < self.old.pages }
        ensures lists { self.new ≡ renamed self.old old new }
        ensures cache { CachesRenamed self.old self.new old new }
        ensures bounds { IsWithinBounds self.new }
        ensures knows { (busy other : ℕ → Bool) → KnowsBusy self.old search.old busy
            → ((x : ℕ) → x ≢ old → x ≢ new → IsTrue (busy x) → IsTrue (other x)) → KnowsBusy self.new search.new other }
    {
        rename(&mut self.links, old, new, search);
    }

    /// Moves the lists into a larger directory, which is empty. This takes no memory: whoever made that one got it.
    ///
    /// The cache may hold as many pages as the larger directory was made for. The lists and the target stay.
    pub fn move_into(&mut self, larger: Directory<L>)
        requires more { self.old.pages ≤ larger.pages }
        requires larger { self.old.c ≤ larger.c }
        requires empty { larger ≡ empty_lists larger.c larger.pages }
        ensures lists { self.new ≡ moved_into self.old larger }
        ensures bounds { IsWithinBounds self.new }
    {
        let Directory {
            c: size,
            target: _,
            links,
        } = larger;
        move_into(&mut self.links, links);
        self.c = size;
    }

    /// Takes the page out of its list. A page that stands nowhere changes nothing.
    pub fn forget(&mut self, page: u32, search: &mut Search)
        ensures lists { self.new ≡ forget self.old page }
        ensures bounds { IsWithinBounds self.new }
        ensures knows { (busy other : ℕ → Bool) → KnowsBusy self.old search.old busy
            → ((x : ℕ) → x ≢ page → IsTrue (busy x) → IsTrue (other x)) → KnowsBusy self.new search.new other }
        ensures gone { place self.new page ≡ None }
        ensures cache { CachesWithout self.old self.new page }
        ensures room { IsTrue (is_cached self.old page)
            → (cached_count self.new < self.new.c) × (total_count self.new < 2 * self.new.c) }
        ensures fewer { IsTrue (is_cached self.old page) → cached_count self.new + 1 ≡ cached_count self.old }
    {
        search.leave(&self.links, page);
        self.take_out(page);
    }

    /// The page leaves its list, and has no number.
    fn take_out(&mut self, page: u32)
        ensures lists { self.new ≡ forget self.old page }
        ensures bounds { IsWithinBounds self.new }
        ensures were_bounds { IsWithinBounds self.old }
    {
        self.links.take_out(page);
    }

    /// Brings a victim back that could not be written back, so that the page was never read in its place.
    ///
    /// The page is remembered nowhere, and the victim is cached again, at the front of `T2`, wherever it
    /// stood before. The target stays.
    pub fn bring_back(&mut self, page: u32, victim: u32, search: &mut Search)
        requires cached { IsTrue (is_cached self.old page) }
        requires gone { IsFalse (is_cached self.old victim) }
        requires below { victim < self.old.pages }
        ensures lists { self.new ≡ bring_back self.old page victim }
        ensures bounds { IsWithinBounds self.new }
        ensures front { slice_get self.new.t2 0 ≡ Some victim }
        ensures gone { place self.new page ≡ None }
        ensures cache { CachesAgain self.old self.new page victim }
        ensures knows { (busy other : ℕ → Bool) → KnowsBusy self.old search.old busy
            → ((x : ℕ) → x ≢ page → x ≢ victim → IsTrue (busy x) → IsTrue (other x))
            → KnowsBusy self.new search.new other }
    {
        self.forget(page, search);
        self.move_to_t2(victim);
    }

    /// The page stopped being busy.
    ///
    /// Each cached page for which this happens has to be named. One that isn't is left out of searches until it moves: another page
    /// than ARC's may leave, or the answer be [`Answer::AllBusy`] while one is free. A busy page never leaves for it. A page that is
    /// still busy may be named too.
    #[inline(always)]
    pub fn freed(&self, page: u32, search: &mut Search)
        ensures knows { (busy other : ℕ → Bool) → KnowsBusy self.now search.old busy
            → ((x : ℕ) → x ≢ page → IsTrue (busy x) → IsTrue (other x)) → KnowsBusy self.now search.new other }
        ensures bounds { IsWithinBounds self.now }
    {
        search.freed(&self.links, page);
    }

    /// The request for a page of `B1` or `B2`, with the target as the request moves it.
    fn request_remembered<B: Busy>(
        &mut self,
        page: u32,
        target: u32,
        in_b2: bool,
        search: &mut Search,
        busy: &B,
    ) -> Answer
        requires below { page < self.old.pages }
        requires knows { KnowsBusy self.old search.old (B.busy busy.now) }
        requires aimed { target ≤ self.old.c }
        requires remembered { 1 ≤ times_in self.old.b1 page + times_in self.old.b2 page }
        ensures answer { result ≡ replacement (record self.old { target = target }) in_b2 (B.busy busy.now) }
        ensures lists { self.new
            ≡ (if is_all_busy result then self.old
            else with_front_of_t2 (after_replace (record self.old { target = target }) result) page) }
        ensures bounds { IsWithinBounds self.new }
        ensures knows { KnowsBusy self.new search.new (B.busy busy.now) }
    {
        let answer = self.replacement(target, in_b2, search, busy);
        if let Answer::AllBusy = answer {
            return answer;
        }
        self.target = target;
        self.replace(answer, search);
        self.move_to_t2(page);
        answer
    }

    /// The request for a page that stands in no list.
    fn request_new<B: Busy>(&mut self, page: u32, search: &mut Search, busy: &B) -> Answer
        requires below { page < self.old.pages }
        requires knows { KnowsBusy self.old search.old (B.busy busy.now) }
        requires absent { times_named self.old page ≡ 0 }
        ensures answer { result ≡ (room_for_new self.old (B.busy busy.now)).0 }
        ensures lists { self.new
            ≡ (if is_all_busy result then self.old
            else with_front_of_t1 (room_for_new self.old (B.busy busy.now)).1 page) }
        ensures bounds { IsWithinBounds self.new }
        ensures knows { KnowsBusy self.new search.new (B.busy busy.now) }
    {
        if self.links.len(List::T1) == self.c as usize {
            return self.request_in_t1(page, search, busy);
        }
        let answer = self.replacement(self.target, false, search, busy);
        if let Answer::AllBusy = answer {
            return answer;
        }
        self.drop_a_name();
        self.replace(answer, search);
        self.put_in_t1(page);
        answer
    }

    /// The request for a page that stands in no list, where `T1` is all of the cache.
    fn request_in_t1<B: Busy>(&mut self, page: u32, search: &mut Search, busy: &B) -> Answer
        requires below { page < self.old.pages }
        requires knows { KnowsBusy self.old search.old (B.busy busy.now) }
        requires absent { times_named self.old page ≡ 0 }
        requires full { length self.old.t1 ≡ self.old.c }
        ensures answer { result ≡ (replace_in_t1 self.old (B.busy busy.now)).0 }
        ensures lists { self.new
            ≡ (if is_all_busy result then self.old
            else with_front_of_t1 (replace_in_t1 self.old (B.busy busy.now)).1 page) }
        ensures bounds { IsWithinBounds self.new }
        ensures knows { KnowsBusy self.new search.new (B.busy busy.now) }
    {
        match self.last_not_busy(List::T1, search, busy) {
            Some(victim) => {
                search.clear(victim);
                self.take_out(victim);
                self.put_in_t1(page);
                Answer::Evict(victim)
            }
            None => Answer::AllBusy,
        }
    }

    /// Before a page that stands in no list comes in, one name is dropped where the lists are full.
    fn drop_a_name(&mut self)
        requires { length self.old.t1 < self.old.c }
        ensures lists { self.new
            ≡ (if recent_count self.old == self.old.c then without_last_of_b1 self.old
            else (if total_count self.old == 2 * self.old.c then without_last_of_b2 self.old
            else self.old)) }
        ensures recent_room { recent_count self.new < self.new.c }
        ensures total_room { total_count self.new < 2 * self.new.c }
        ensures fewer { (x : ℕ) → times_named self.new x ≤ times_named self.old x }
        ensures same_cache { (self.new.t1 ≡ self.old.t1) × (self.new.t2 ≡ self.old.t2) }
        ensures fixed { (self.new.c ≡ self.old.c) × (self.new.pages ≡ self.old.pages) }
        ensures bounds { IsWithinBounds self.new }
    {
        let c = self.c as usize;
        let recent = self.links.len(List::T1) + self.links.len(List::B1);
        let total = recent + self.links.len(List::T2) + self.links.len(List::B2);
        if recent == c {
            self.links.drop_last(List::B1);
        } else if total == 2 * c {
            self.links.drop_last(List::B2);
        }
    }

    /// What REPLACE answers with this target. No list changes yet.
    fn replacement<B: Busy>(
        &self,
        target: u32,
        in_b2: bool,
        search: &mut Search,
        busy: &B,
    ) -> Answer
        requires knows { KnowsBusy self.now search.old (B.busy busy.now) }
        ensures answer { result ≡ replacement (record self.now { target = target }) in_b2 (B.busy busy.now) }
        ensures free { result ≡ Answer.Free → cached_count self.now < self.now.c }
        ensures victim_is_cached { (v : ℕ) → result ≡ Answer.Evict v → IsTrue (is_cached self.now v) }
        ensures no_hit { result ≢ Answer.Hit }
        ensures bounds { IsWithinBounds self.now }
        ensures found { FoundIn self.now search.new (B.busy busy.now) result }
    {
        let c = self.c as usize;
        if self.links.len(List::T1) + self.links.len(List::T2) != c {
            return Answer::Free;
        }
        match self.victim(target, in_b2, search, busy) {
            Some(victim) => Answer::Evict(victim),
            None => Answer::AllBusy,
        }
    }

    /// The page that would leave the cache by REPLACE with this target.
    fn victim<B: Busy>(
        &self,
        target: u32,
        in_b2: bool,
        search: &mut Search,
        busy: &B,
    ) -> Option<u32>
        requires knows { KnowsBusy self.now search.old (B.busy busy.now) }
        ensures victim { result ≡ victim (record self.now { target = target }) in_b2 (B.busy busy.now) }
        ensures knows { KnowsBusy self.now search.new (B.busy busy.now) }
        ensures marks { IfSome result (λ v. (search.new.t1 ≢ Some v) × (search.new.t2 ≢ Some v)) }
    {
        let len = self.links.len(List::T1);
        let target = target as usize;
        if len > 0 && (len > target || (in_b2 && len == target)) {
            self.last_of_either(List::T1, List::T2, search, busy)
        } else {
            self.last_of_either(List::T2, List::T1, search, busy)
        }
    }

    /// The last page of the first list that isn't busy, else that of the second.
    #[inline(always)]
    fn last_of_either<B: Busy>(
        &self,
        first: List,
        second: List,
        search: &mut Search,
        busy: &B,
    ) -> Option<u32>
        requires first { (first ≡ ListName.T1) ⊎ (first ≡ ListName.T2) }
        requires second { (second ≡ ListName.T1) ⊎ (second ≡ ListName.T2) }
        requires knows { KnowsBusy self.now search.old (B.busy busy.now) }
        ensures value { result ≡ option_or (last_not_busy (list_of self.now first) (B.busy busy.now))
            (last_not_busy (list_of self.now second) (B.busy busy.now)) }
        ensures knows { KnowsBusy self.now search.new (B.busy busy.now) }
        ensures marks { IfSome result (λ v. (search.new.t1 ≢ Some v) × (search.new.t2 ≢ Some v)) }
    {
        match self.last_not_busy(first, search, busy) {
            Some(page) => Some(page),
            None => self.last_not_busy(second, search, busy),
        }
    }

    /// The last page of `T1` or `T2` that isn't busy. No mark is at that page.
    #[inline(always)]
    fn last_not_busy<B: Busy>(&self, list: List, search: &mut Search, busy: &B) -> Option<u32>
        requires cached { (list ≡ ListName.T1) ⊎ (list ≡ ListName.T2) }
        requires knows { KnowsBusy self.now search.old (B.busy busy.now) }
        ensures last { result ≡ last_not_busy (list_of self.now list) (B.busy busy.now) }
        ensures knows { KnowsBusy self.now search.new (B.busy busy.now) }
        ensures bounds { IsWithinBounds self.now }
        ensures marks { IfSome result (λ v. (search.new.t1 ≢ Some v) × (search.new.t2 ≢ Some v)) }
    {
        search.last_not_busy(&self.links, list, busy)
    }

    /// Carries out what REPLACE answered.
    fn replace(&mut self, answer: Answer, search: &mut Search)
        requires { (v : ℕ) → answer ≡ Answer.Evict v → IsTrue (is_cached self.old v) }
        ensures lists { self.new ≡ after_replace self.old answer }
        ensures numbers { search.new ≡ without_victim search.old answer }
    {
        if let Answer::Evict(victim) = answer {
            search.clear(victim);
            self.demote(victim);
        }
    }

    /// The page leaves the cache, and its name is remembered.
    fn demote(&mut self, page: u32)
        requires { IsTrue (is_cached self.old page) }
        ensures { self.new ≡ with_remembered self.old page }
    {
        if self.is_in_t1(page) {
            self.links.move_first(List::B1, page);
        } else {
            self.links.move_first(List::B2, page);
        }
    }

    /// Whether a page below `pages` stands in `T1`.
    fn is_in_t1(&self, page: u32) -> bool
        requires { page < self.now.pages }
        ensures { result ≡ contains self.now.t1 page }
    {
        matches!(self.links.place_below(page), Some(List::T1))
    }

    /// The page leaves its list, if it stands in one, and goes to the front of `T2`.
    fn move_to_t2(&mut self, page: u32)
        requires below { page < self.old.pages }
        requires cached_room { cached_count (forget self.old page) < self.old.c }
        requires total_room { total_count (forget self.old page) < 2 * self.old.c }
        ensures lists { self.new ≡ with_front_of_t2 self.old page }
        ensures bounds { IsWithinBounds self.new }
    {
        self.links.move_first(List::T2, page);
    }

    /// The page, which stands in no list, goes to the front of `T1`.
    fn put_in_t1(&mut self, page: u32)
        requires below { page < self.old.pages }
        requires absent { times_named self.old page ≡ 0 }
        requires cached_room { cached_count self.old < self.old.c }
        requires recent_room { recent_count self.old < self.old.c }
        requires total_room { total_count self.old < 2 * self.old.c }
        ensures lists { self.new ≡ with_front_of_t1 self.old page }
        ensures bounds { IsWithinBounds self.new }
    {
        self.links.put_first(List::T1, page);
    }

    /// The target that a request for a page of `B1` wants.
    fn raised_target(&self) -> u32
        requires { 0 < length self.now.b1 }
        ensures target { result ≡ raised_target self.now }
        ensures aimed { result ≤ self.now.c }
    {
        let c = self.c as usize;
        let (b1, b2) = (self.links.len(List::B1), self.links.len(List::B2));
        let step = if b2 <= b1 { 1 } else { b2 / b1 };
        (self.target as usize + step).min(c) as u32
    }

    /// The target that a request for a page of `B2` wants.
    fn lowered_target(&self) -> u32
        requires { 0 < length self.now.b2 }
        ensures target { result ≡ lowered_target self.now }
        ensures aimed { result ≤ self.now.c }
    {
        let (b1, b2) = (self.links.len(List::B1), self.links.len(List::B2));
        let step = if b1 <= b2 { 1 } else { b1 / b2 };
        (self.target as usize).saturating_sub(step) as u32
    }
}
