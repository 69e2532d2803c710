//! What is done with the pages of a whole way, which are lent together: splits from the leaf up, and the growth of the root.

use crate::node::Entry;
use crate::path::Path;
use crate::regions::{FIRST_OF_NODES, LEVELS, MAP, REGIONS, ROOT, even_of, region_of};
use crate::{node, space};
use pp_pool::{Held, Loan};

/// The slot of the map.
const MAP_SLOT: u8 = MAP as u8;

/// The slot of the root.
const ROOT_SLOT: u8 = ROOT as u8;

/// What came of it.
#[derive(Clone, Copy, Debug, PartialEq, Eq)]
pub enum Outcome {
    /// The entry is there.
    Added,
    /// All nodes of the way are full, and the root too: that has to grow before. Nothing was changed.
    RootIsFull,
    /// The root has grown, or needn't any more.
    Grown,
    /// A page is wanted, and none is free; or the root can't grow. Nothing was changed.
    NoSpace,
}

/// Adds the entry to the leaf of the way, and splits the nodes that are full for that.
pub fn add<L: Loan>(path: &Path, held: &mut Held<L>, new: Entry) -> Outcome {
    let full = full_levels(path, held);
    if full > path.height() {
        return Outcome::RootIsFull;
    }
    for level in 0..full {
        if beside(path, held, level).is_none() {
            return Outcome::NoSpace;
        }
    }
    let mut carried = new;
    for level in 0..full {
        match split(path, held, level, carried) {
            Some(above) => carried = above,
            None => return Outcome::NoSpace,
        }
    }
    let slot = if full == path.height() {
        ROOT_SLOT
    } else {
        path.slots(full).0
    };
    let is_added = match held.body(slot) {
        Some(body) => node::insert(body, carried),
        None => false,
    };
    if is_added {
        Outcome::Added
    } else {
        Outcome::NoSpace
    }
}

/// How many levels from the leaf up have a node that is full; one more than there are where the root is full too.
fn full_levels<L: Loan>(path: &Path, held: &mut Held<L>) -> u64 {
    let mut full = 0u64;
    for level in 0..path.height().min(LEVELS) {
        if !is_full(held, path.slots(level).0) {
            return full;
        }
        full = full.saturating_add(1);
    }
    if is_full(held, ROOT_SLOT) {
        full.saturating_add(1)
    } else {
        full
    }
}

/// Whether the node in this slot is full.
fn is_full<L: Loan>(held: &mut Held<L>, slot: u8) -> bool {
    match held.body(slot) {
        Some(body) => node::is_full(body),
        None => false,
    }
}

/// The page beside the way's node of this level, if it is one that was free.
fn beside<L: Loan>(path: &Path, held: &Held<L>, level: u64) -> Option<u32> {
    let (_, slot) = path.slots(level);
    match (path.free_in(slot), held.page(slot)) {
        (Some(free), Some(page)) if free == page => Some(page),
        _ => None,
    }
}

/// Splits the way's node of this level, and adds the entry to the half that it belongs to. Answers the entry that the node above
/// gets.
fn split<L: Loan>(path: &Path, held: &mut Held<L>, level: u64, new: Entry) -> Option<Entry> {
    let page = beside(path, held, level)?;
    let (old, beside) = path.slots(level);
    let key = held.two(old, beside, |body, other| {
        node::split_for(body, other, page, new)
    })?;
    take(held, page);
    Some(Entry {
        key,
        value: u64::from(page),
    })
}

/// Notes in the map that a page is taken.
fn take<L: Loan>(held: &mut Held<L>, page: u32) {
    let region = region_of(page);
    if region < FIRST_OF_NODES {
        return;
    }
    let group = usize::from(region - FIRST_OF_NODES);
    if let (Some(map), Some(region)) = (held.body(MAP_SLOT), REGIONS.get(usize::from(region))) {
        space::take(map, group, page.saturating_sub(region.first));
    }
}

/// Gives the root two children with its entries, where it is full still.
pub fn grow<L: Loan>(path: &Path, held: &mut Held<L>) -> Outcome {
    if !is_full(held, ROOT_SLOT) {
        return Outcome::Grown;
    }
    let (even, odd) = (
        even_of(path.height()),
        even_of(path.height()).saturating_add(1),
    );
    let pages = (path.free_in(even), path.free_in(odd));
    let (Some(left), Some(right)) = pages else {
        return Outcome::NoSpace;
    };
    if path.height() >= LEVELS || held.page(even) != Some(left) || held.page(odd) != Some(right) {
        return Outcome::NoSpace;
    }
    let height = path.height();
    let low = held.two(
        ROOT_SLOT,
        even,
        |root, left| node::lower_half(root, left, height),
    );
    let high = held.two(
        ROOT_SLOT,
        odd,
        |root, right| node::upper_half(root, right, height),
    );
    if let (Some(low), Some(high), Some(root)) = (low, high, held.body(ROOT_SLOT)) {
        node::make(root, height.saturating_add(1));
        node::push(root, child(low, left));
        node::push(root, child(high, right));
    }
    take(held, left);
    take(held, right);
    Outcome::Grown
}

/// The entry for a child of this page, whose least key this is.
fn child(key: u64, page: u32) -> Entry {
    Entry {
        key,
        value: u64::from(page),
    }
}
