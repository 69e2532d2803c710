//! ARC's four lists, whoever keeps them.

ghost use Rattle.std.specs.Prelude.{◌≡◌, ◌≢◌, ℕ, ◌+◌, ◌^◌, ◌<◌, ◌≤◌, ◌⊎◌, Bool, IsTrue, IfSome, IsSome, Some, None};
ghost use Rattle.std.specs.Prelude.{length, slice_get, ◌++◌, []};
ghost use Rattle.pp_arc.specs.declared.list.List.{List as ListName};
ghost use Rattle.pp_arc.specs.Pages.{last_not_busy, last_page};
ghost use Rattle.pp_arc.specs.FourLists.{FourLists, list_of, place, after, times_named, total_count};
ghost use Rattle.pp_arc.specs.Figure.{forget};
ghost use Rattle.pp_arc.specs.Links.{with_front, without_last_of, with_list, with_first, with_lists_of};
ghost use Rattle.pp_arc.specs.Links.{SomeAhead, NoneAhead, FitsInto};
ghost use Rattle.pp_arc.specs.Search.{KnowsBusy};
ghost use Rattle.pp_arc.specs.Sizes.{renamed};

use crate::{Busy, List, Search};

/// Four lists of page numbers, each page in one of them at most. No page is searched for.
///
/// Contracts see them as the record `FourLists`, for a cache of as many pages as there is room for, whose target is 0. Where
/// there is room for as many as there are page numbers, no page has to leave for another.
pub trait Lists: Drop {
    ghost lists: { Self → FourLists };

    /// The list in which the page stands, if it stands in one.
    fn place(&self, page: u32) -> Option<List>
        ensures place { result ≡ place (lists self.now) page }
        ensures below { IfSome result (λ _. page < (lists self.now).pages) };

    /// The list in which a page below `pages` stands, if it stands in one.
    fn place_below(&self, page: u32) -> Option<List>
        requires { page < (lists self.now).pages }
        ensures { result ≡ place (lists self.now) page };

    /// How many pages the list has.
    fn len(&self, list: List) -> usize
        ensures { result ≡ length (list_of (lists self.now) list) };

    /// The most recent page of the list, if it has one.
    fn front(&self, list: List) -> Option<u32>
        ensures { result ≡ slice_get (list_of (lists self.now) list) 0 };

    /// The last page of the list, if it has one.
    fn last(&self, list: List) -> Option<u32>
        ensures { result ≡ last_page (list_of (lists self.now) list) };

    /// The next less recent page of the list in which this page stands.
    fn after(&self, page: u32) -> Option<u32>
        ensures { result ≡ after (lists self.now) page };

    /// The next more recent page of the list in which this page stands.
    fn before(&self, page: u32) -> Option<u32>
        requires { IsSome (place (lists self.now) page) }
        ensures some { SomeAhead (lists self.now) page result }
        ensures none { NoneAhead (lists self.now) page result };

    /// The last page of the list that isn't busy.
    fn last_not_busy<B: Busy>(&self, list: List, busy: &B) -> Option<u32>
        ensures { result ≡ last_not_busy (list_of (lists self.now) list) (B.busy busy.now) };

    /// Puts a page that stands in no list at the front of the list.
    fn put_first(&mut self, list: List, page: u32)
        requires below { page < (lists self.old).pages }
        requires absent { place (lists self.old) page ≡ None }
        requires short { length (list_of (lists self.old) list) < 2 ^ 63 }
        requires room { (total_count (lists self.old) < (lists self.old).c) ⊎ ((lists self.old).pages ≤ (lists self.old).c) }
        ensures lists { lists self.new ≡ with_front (lists self.old) list page };

    /// Takes the page out of its list, if it stands in one, and puts it at the front of the list.
    fn move_first(&mut self, list: List, page: u32)
        requires below { page < (lists self.old).pages }
        requires short { length (list_of (lists self.old) list) < 2 ^ 63 }
        requires room { (total_count (forget (lists self.old) page) < (lists self.old).c)
            ⊎ ((lists self.old).pages ≤ (lists self.old).c) }
        ensures lists { lists self.new ≡ with_front (forget (lists self.old) page) list page };

    /// Takes the page out of its list, if it stands in one.
    fn take_out(&mut self, page: u32)
        ensures lists { lists self.new ≡ forget (lists self.old) page }
        ensures gone { place (lists self.new) page ≡ None };

    /// Takes the last page of the list out of it, if there is one.
    fn drop_last(&mut self, list: List)
        ensures lists { lists self.new ≡ without_last_of (lists self.old) list };
}

/// Takes the last pages of the list out of it until it has so many at most.
pub(crate) fn cut<L: Lists>(links: &mut L, list: List, most: usize)
    ensures { L.lists links.new ≡ with_first (L.lists links.old) list most }
{
    for _ in most..links.len(list) {
        links.drop_last(list);
    }
}

/// Gives what stands under the name `old` the name `new`, and puts it at the front of its list.
pub(crate) fn rename<L: Lists>(links: &mut L, old: u32, new: u32, search: &mut Search)
    requires below { new < (L.lists links.old).pages }
    requires once { (x : ℕ) → times_named (L.lists links.old) x ≤ 1 }
    requires short { total_count (L.lists links.old) < 2 ^ 63 }
    requires room { (total_count (L.lists links.old) ≤ (L.lists links.old).c)
        ⊎ ((L.lists links.old).pages ≤ (L.lists links.old).c) }
    ensures lists { L.lists links.new ≡ renamed (L.lists links.old) old new }
    ensures knows { (busy other : ℕ → Bool) → KnowsBusy (L.lists links.old) search.old busy
        → ((x : ℕ) → x ≢ old → x ≢ new → IsTrue (busy x) → IsTrue (other x))
        → KnowsBusy (L.lists links.new) search.new other }
{
    let list = links.place(old);
    search.leave(links, old);
    links.take_out(old);
    search.leave(links, new);
    links.take_out(new);
    if let Some(list) = list {
        links.put_first(list, new);
    }
}

/// Moves the pages of the list into other lists, in front of the same list there.
fn pour<L: Lists>(list: List, from: &mut L, to: &mut L)
    requires fits { FitsInto (L.lists from.old) (L.lists to.old) }
    ensures left { L.lists from.new ≡ with_list (L.lists from.old) list [] }
    ensures lists { L.lists to.new
        ≡ with_list (L.lists to.old) list (list_of (L.lists from.old) list ++ list_of (L.lists to.old) list) }
    ensures fits { FitsInto (L.lists from.new) (L.lists to.new) }
{
    while let Some(page) = from.last(list) {
        from.drop_last(list);
        to.put_first(list, page);
    }
}

/// Moves the lists into larger ones, which are empty.
pub(crate) fn move_into<L: Lists>(links: &mut L, mut larger: L)
    requires empty { (list : ListName) → list_of (L.lists larger) list ≡ [] }
    requires fits { FitsInto (L.lists links.old) (L.lists larger) }
    ensures lists { L.lists links.new ≡ with_lists_of (L.lists larger) (L.lists links.old) }
{
    pour(List::T1, links, &mut larger);
    pour(List::T2, links, &mut larger);
    pour(List::B1, links, &mut larger);
    pour(List::B2, links, &mut larger);
    *links = larger;
}
