//! The way of a plan down the tree: which page it fixes next, and which branch it takes.

ghost use Rattle.std.specs.Prelude.{◌<◌, ◌≤◌, ◌+◌};

use crate::plans::Job;
use crate::regions::{FIRST_OF_NODES, LEVELS, REGIONS, ROOT, even_of, region_of};
use crate::{node, space};

/// How many levels there are below the root.
const BELOW: usize = LEVELS as usize;

/// How many regions nodes below the root lie in.
const GROUPS: usize = 6;

/// The way of a plan down the tree.
#[derive(Drop)]
pub struct Path {
    /// The key whose leaf it leads to.
    key: u64,
    /// The page of the node that comes next; none where it isn't known.
    next: Option<u32>,
    /// How high the root stands.
    height: u64,
    /// Whether the plan's branch for that height was taken.
    is_chosen: bool,
    /// The pages of the nodes that it has come to, by their levels.
    nodes: [u32; BELOW],
    /// The first page of each region of nodes that is free, as the map says.
    free: [Option<u32>; GROUPS],
}

impl Path {
    /// The way to the leaf of this key. It begins at the root.
    pub fn to(key: u64) -> Path {
        Path {
            key,
            next: Some(ROOT),
            height: 0,
            is_chosen: false,
            nodes: [0; BELOW],
            free: [None; GROUPS],
        }
    }

    /// How high the root stands.
    pub fn height(&self) -> u64 {
        self.height
    }

    /// The page to fix in this region: the node that comes next, where it is of the region, and else the page there that is free.
    pub fn page(&self, region: u8, first: u32, count: u32) -> u32
        requires some { 1 ≤ count }
        requires ends { first + count ≤ 4294967292 }
        ensures from { first ≤ result }
        ensures below { result < first + count }
    {
        let wanted = match self.next {
            Some(page) if region_of(page) == region => Some(page),
            _ => self.free_in(region),
        };
        match wanted {
            Some(page) if first <= page && page - first < count => page,
            _ => first,
        }
    }

    /// The branch to take: first the one for the root's height, and then by the region of the node that comes next: of the even one,
    /// of the odd one, or where no node comes.
    pub fn branch(&mut self, count: u16) -> u16
        requires { 1 ≤ count }
        ensures { result < count }
    {
        let branch = if self.is_chosen {
            self.by_region()
        } else {
            self.by_height()
        };
        self.is_chosen = true;
        branch.min(count - 1)
    }

    /// The number of the branch for the height of the root.
    fn by_height(&self) -> u16 {
        match self.height {
            0 | 1 => 0,
            2 => 1,
            _ => 2,
        }
    }

    /// The number of the branch for the region of the node that comes next.
    fn by_region(&self) -> u16 {
        match self.next {
            Some(page) => u16::from(region_of(page) % 2),
            None => 2,
        }
    }

    /// Whether this page is the node that comes next.
    pub fn is_next(&self, page: u32) -> bool {
        self.next == Some(page)
    }

    /// Sees the root: how high it stands, and which child comes next.
    pub fn see_root(&mut self, body: &[u8]) {
        self.height = node::height(body);
        self.see_inner(body);
    }

    /// Sees which child of a node comes next.
    pub fn see_inner(&mut self, body: &[u8]) {
        self.next = node::child(body, self.key);
    }

    /// Sees which leaf follows a leaf, and that comes next.
    pub fn see_leaf(&mut self, body: &[u8]) {
        self.next = node::next(body);
    }

    /// No node comes next.
    pub fn end(&mut self) {
        self.next = None;
    }

    /// Whether no node comes next.
    pub fn is_at_end(&self) -> bool {
        self.next.is_none()
    }

    /// Sees in the map which pages are free.
    pub fn see_map(&mut self, body: &[u8]) {
        for group in 0..GROUPS {
            let number = group + usize::from(FIRST_OF_NODES);
            self.free[group] = match REGIONS.get(number) {
                Some(region) => space::first_free(body, group, region.count).map(|behind| region
                    .first
                    .saturating_add(behind)),
                None => None,
            };
        }
    }

    /// Comes to the node of this page, which a split may want, and sees which child comes next.
    pub fn pass(&mut self, page: u32, body: &[u8]) {
        let level = node::height(body);
        if let Some(place) = self.nodes.get_mut(level as usize) {
            *place = page;
        }
        if level > 0 {
            self.see_inner(body);
        }
    }

    /// The slot of the way's node of this level, and that of the page beside it. A region's slot has the region's number.
    pub fn slots(&self, level: u64) -> (u8, u8) {
        let even = even_of(level);
        let odd = even.saturating_add(1);
        match self.nodes.get(level as usize) {
            Some(page) if region_of(*page) == odd => (odd, even),
            _ => (even, odd),
        }
    }

    /// The slot of the page that a plan fixes last which changes several pages together.
    pub fn last_slot(&self, job: Job) -> Option<u8> {
        match job {
            Job::Split => Some(even_of(0).saturating_add(1)),
            Job::Grow => Some(even_of(self.height).saturating_add(1)),
            _ => None,
        }
    }

    /// The first page of this region that is free, if nodes lie in it.
    pub fn free_in(&self, region: u8) -> Option<u32> {
        if region < FIRST_OF_NODES {
            return None;
        }
        match self.free.get(usize::from(region - FIRST_OF_NODES)) {
            Some(free) => *free,
            None => None,
        }
    }
}
