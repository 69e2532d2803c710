//! Four lists of pages by name: a page has a node of the links only while it stands in a list.

ghost use Rattle.std.specs.Prelude.{◌≡◌, ℕ, ◌+◌, ◌^◌, ◌<◌, ◌≤◌, ◌⊎◌, IfOk, IfSome, Some, None};
ghost use Rattle.std.specs.Prelude.{slice_get, slice_index, option_map, length, IsSome};
ghost use Rattle.pp_arc.specs.Pages.{last_not_busy, last_page};
ghost use Rattle.pp_arc.specs.FourLists.{empty_lists, list_of, place, after, times_named, total_count};
ghost use Rattle.pp_arc.specs.Figure.{forget};
ghost use Rattle.pp_arc.specs.Links.{with_front, without_last_of, SomeAhead, NoneAhead};
ghost use Rattle.pp_arc.specs.Names.{lists_named, HasNode, IsNaming};

use crate::links::Links;
use crate::lists::Lists;
use crate::{Busy, List};
use std::alloc::{AllocError, Global};
use std::marker::Model;

/// The nodes of busy pages.
#[derive(Drop)]
struct BusyNodes<'a, B: Busy> {
    pages: &'a [u32],
    busy: &'a B,
}

impl<B: Busy> Busy for BusyNodes<'_, B> {
    ghost use Rattle.std.specs.Prelude.{slice_index};

    ghost busy = { λ b node. B.busy b.busy.now (slice_index b.pages.now node) };

    fn is_busy(&self, node: u32) -> bool {
        let page = self.pages.get(node as usize).copied().unwrap_or(0);
        self.busy.is_busy(page)
    }
}

/// Four lists of page numbers, each page in one of them at most. No page is searched for.
///
/// The lists are linked by nodes, of which there are fewer than pages: a page gets one as it comes into a list, and
/// gives it back as it leaves. It takes 4 bytes for each page number, and 20 for each node.
///
/// Contracts see it as the record `Naming`, and its lists of pages as `lists_named`.
#[derive(Debug, Drop)]
pub(crate) struct NamedLinks {
    /// For each page one more than its node, or 0 where it has none.
    names: Vec<u32>,
    /// For each node its page. That of a free node means nothing.
    pages: Vec<u32>,
    /// A stack of the free nodes.
    free: Vec<u32>,
    /// How many nodes are free.
    spare: usize,
    links: Links,
}

impl Model for NamedLinks {
    ghost use Rattle.pp_arc.specs.Names.{Naming};

    ghost Value = { Naming };

    ghost use Rattle.pp_arc.specs.Names.{naming_of, IsNaming};

    ghost view = { naming_of };

    ghost invariant = { λ d. IsNaming (naming_of d) };
}

impl NamedLinks {
    /// Four empty lists, for page numbers below `pages`, with so many nodes: at most so many pages stand in them.
    pub(crate) fn new(alloc: Global, nodes: u32, pages: u32) -> Result<Self, AllocError>
        requires fits { nodes + 4 ≤ 2 ^ 32 }
        ensures empty { IfOk result (λ named. lists_named named ≡ empty_lists nodes pages) }
    {
        let mut free = vec![in alloc; 0; nodes as usize]?;
        for node in 0..nodes {
            free[node as usize] = node;
        }
        Ok(NamedLinks {
            names: vec![in alloc; 0; pages as usize]?,
            pages: vec![in alloc; 0; nodes as usize]?,
            free,
            spare: nodes as usize,
            links: Links::new(alloc, nodes)?,
        })
    }

    /// One more than the node of the page, or 0 where it has none.
    fn name(&self, page: u32) -> u32
        ensures name { result ≡ slice_index self.now.names page }
        ensures naming { IsNaming self.now }
    {
        self.names.get(page as usize).copied().unwrap_or(0)
    }

    /// The node of the page, if it has one.
    fn node(&self, page: u32) -> Option<u32>
        ensures some { (node : ℕ) → result ≡ Some node → HasNode self.now page node }
        ensures none { result ≡ None → times_named (lists_named self.now) page ≡ 0 }
        ensures naming { IsNaming self.now }
    {
        let name = self.name(page);
        if name > 0 { Some(name - 1) } else { None }
    }

    /// The page of the node.
    fn page(&self, node: u32) -> u32
        ensures { result ≡ slice_index self.now.pages node }
    {
        self.pages.get(node as usize).copied().unwrap_or(0)
    }

    /// The list in which the page stands, if it stands in one.
    pub(crate) fn place(&self, page: u32) -> Option<List>
        ensures place { result ≡ place (lists_named self.now) page }
        ensures below { IfSome result (λ _. page < length self.now.names) }
    {
        match self.node(page) {
            Some(node) => self.links.place(node),
            None => None,
        }
    }

    /// How many pages the list has.
    pub(crate) fn len(&self, list: List) -> usize
        ensures { result ≡ length (list_of (lists_named self.now) list) }
    {
        self.links.len(list)
    }

    /// The most recent page of the list, if it has one.
    pub(crate) fn front(&self, list: List) -> Option<u32>
        ensures { result ≡ slice_get (list_of (lists_named self.now) list) 0 }
    {
        let node = self.links.front(list)?;
        Some(self.page(node))
    }

    /// The last page of the list, if it has one.
    pub(crate) fn last(&self, list: List) -> Option<u32>
        ensures { result ≡ last_page (list_of (lists_named self.now) list) }
    {
        let node = self.links.last(list)?;
        Some(self.page(node))
    }

    /// The next less recent page of the list in which this page stands.
    pub(crate) fn after(&self, page: u32) -> Option<u32>
        ensures { result ≡ after (lists_named self.now) page }
    {
        match self.node(page) {
            Some(node) => self.page_after(node),
            None => None,
        }
    }

    /// The page of the node that stands next after this one.
    fn page_after(&self, node: u32) -> Option<u32>
        ensures { result ≡ option_map (λ n. slice_index self.now.pages n) (after self.now.links node) }
    {
        let next = self.links.after(node)?;
        Some(self.page(next))
    }

    /// The next more recent page of the list in which this page stands.
    pub(crate) fn before(&self, page: u32) -> Option<u32>
        requires { IsSome (place (lists_named self.now) page) }
        ensures some { SomeAhead (lists_named self.now) page result }
        ensures none { NoneAhead (lists_named self.now) page result }
    {
        match self.node(page) {
            Some(node) => self.page_before(node),
            None => None,
        }
    }

    /// The page of the node that stands next before this one.
    fn page_before(&self, node: u32) -> Option<u32>
        requires stands { 1 ≤ times_named self.now.links node }
        ensures some { SomeAhead (lists_named self.now) (slice_index self.now.pages node) result }
        ensures none { NoneAhead (lists_named self.now) (slice_index self.now.pages node) result }
    {
        let ahead = self.links.before(node)?;
        Some(self.page(ahead))
    }

    /// The last page of the list that isn't busy.
    pub(crate) fn last_not_busy<B: Busy>(&self, list: List, busy: &B) -> Option<u32>
        ensures { result ≡ last_not_busy (list_of (lists_named self.now) list) (B.busy busy.now) }
    {
        let nodes = BusyNodes {
            pages: &self.pages,
            busy,
        };
        let node = self.links.last_not_busy(list, &nodes)?;
        Some(self.page(node))
    }

    /// Puts a page that stands in no list at the front of the list. It gets a node.
    pub(crate) fn put_first(&mut self, list: List, page: u32)
        requires below { page < length self.old.names }
        requires absent { place (lists_named self.old) page ≡ None }
        requires room { (total_count (lists_named self.old) < length self.old.pages)
            ⊎ (length self.old.names ≤ length self.old.pages) }
        ensures lists { lists_named self.new ≡ with_front (lists_named self.old) list page }
        ensures nodes { length self.new.pages ≡ length self.old.pages }
    {
        self.spare -= 1;
        let node = self.free[self.spare];
        self.names[page as usize] = node + 1;
        self.pages[node as usize] = page;
        self.links.put_first(list, node);
    }

    /// Takes the page out of its list, if it stands in one, and puts it at the front of the list.
    #[inline(always)]
    pub(crate) fn move_first(&mut self, list: List, page: u32)
        requires below { page < length self.old.names }
        requires room { (total_count (forget (lists_named self.old) page) < length self.old.pages)
            ⊎ (length self.old.names ≤ length self.old.pages) }
        ensures lists { lists_named self.new ≡ with_front (forget (lists_named self.old) page) list page }
        ensures nodes { length self.new.pages ≡ length self.old.pages }
    {
        match self.node(page) {
            Some(node) => self.move_node(list, node),
            None => self.put_first(list, page),
        }
    }

    /// The page of the node goes to the front of the list, with its node.
    #[inline(always)]
    fn move_node(&mut self, list: List, node: u32)
        requires stands { 1 ≤ times_named self.old.links node }
        ensures lists { lists_named self.new ≡ with_front
            (forget (lists_named self.old) (slice_index self.old.pages node)) list (slice_index self.old.pages node) }
        ensures links { self.new.links ≡ with_front (forget self.old.links node) list node }
        ensures pages { self.new.pages ≡ self.old.pages }
        ensures names { self.new.names ≡ self.old.names }
    {
        self.links.move_first(list, node);
    }

    /// Takes the page out of its list, if it stands in one.
    pub(crate) fn take_out(&mut self, page: u32)
        ensures lists { lists_named self.new ≡ forget (lists_named self.old) page }
        ensures gone { place (lists_named self.new) page ≡ None }
        ensures nodes { length self.new.pages ≡ length self.old.pages }
    {
        if let Some(node) = self.node(page) {
            self.let_go(page, node);
        }
    }

    /// The page leaves its list, and its node is free.
    fn let_go(&mut self, page: u32, node: u32)
        requires node { HasNode self.old page node }
        ensures lists { lists_named self.new ≡ forget (lists_named self.old) page }
        ensures links { self.new.links ≡ forget self.old.links node }
        ensures pages { self.new.pages ≡ self.old.pages }
    {
        self.names[page as usize] = 0;
        self.free[self.spare] = node;
        self.spare += 1;
        self.links.take_out(node);
    }

    /// Takes the last page of the list out of it, if there is one.
    pub(crate) fn drop_last(&mut self, list: List)
        ensures lists { lists_named self.new ≡ without_last_of (lists_named self.old) list }
        ensures nodes { length self.new.pages ≡ length self.old.pages }
    {
        if let Some(node) = self.links.last(list) {
            self.let_go(self.page(node), node);
        }
    }
}
