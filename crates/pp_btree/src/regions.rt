//! The regions of the tree's pages.
//!
//! A split wants the old node and the new one latched X at once, and no two pages of one class can be. So each level has two
//! regions, an even one and an odd one: the new node of an even one is odd, and the other way round.

use pp_settings::Settings;
use std::alloc::Global;

/// The page of the map of free pages.
pub const MAP: u32 = 0;

/// The page of the root.
pub const ROOT: u32 = 1;

/// The first leaf of a new tree.
pub const FIRST_LEAF: u32 = 256;

/// How many pages there are.
pub const PAGES: u32 = 1_792;

/// How many bytes a page has.
pub const PAGE_BYTES: usize = 4_096;

/// How many plans run at once: there is a chair for each thread.
pub const CHAIRS: usize = 4;

/// The most levels below the root.
pub const LEVELS: u64 = 3;

/// The first region that nodes below the root lie in. The map of free pages counts its groups from this one on.
pub const FIRST_OF_NODES: u8 = 2;

/// The region of a page. Its class is its number and one.
#[derive(Clone, Copy)]
pub struct Region {
    /// The name by which a plan names it.
    pub name: &'static str,
    /// Its first page.
    pub first: u32,
    /// How many pages it has.
    pub count: u32,
}

/// The regions by rising classes: the map, the root, and the levels from the top down, of each the even pages and the odd ones.
pub static REGIONS: [Region; 8] = [
    Region {
        name: "map",
        first: 0,
        count: 1,
    },
    Region {
        name: "root",
        first: 1,
        count: 1,
    },
    Region {
        name: "upper_even",
        first: 2,
        count: 14,
    },
    Region {
        name: "upper_odd",
        first: 16,
        count: 16,
    },
    Region {
        name: "inner_even",
        first: 32,
        count: 96,
    },
    Region {
        name: "inner_odd",
        first: 128,
        count: 128,
    },
    Region {
        name: "leaf_even",
        first: 256,
        count: 768,
    },
    Region {
        name: "leaf_odd",
        first: 1_024,
        count: 768,
    },
];

/// The number of the even region of a level; the leaves are level 0. That of the odd one follows it.
pub fn even_of(level: u64) -> u8 {
    match level {
        0 => 6,
        1 => 4,
        _ => 2,
    }
}

/// The number of the region that a page is of; 0 where it is of none.
pub fn region_of(page: u32) -> u8 {
    let mut number = 0u8;
    for region in REGIONS.iter() {
        if region.first <= page && page - region.first < region.count {
            return number;
        }
        number = number.saturating_add(1);
    }
    0
}

/// The settings of a pool for the tree with so many frames, whose life is endless.
///
/// # Errors
///
/// Where no pool has so many frames, and where memory runs out.
pub fn settings_of(alloc: Global, frames: u32) -> anyhow::Result<Settings> {
    let mut text = String::new(alloc);
    write!(
        text,
        "version = 2\nframes = {frames}\npage_bytes = {PAGE_BYTES}\nworkers = {CHAIRS}\n"
    )?;
    text.push_str("waiting = 1\nflushes = 1000000000\n")?;
    let mut class = 1u32;
    for region in REGIONS.iter() {
        let (name, first, count) = (region.name, region.first, region.count);
        write!(
            text,
            "[[region]]\nname = \"{name}\"\nfirst = {first}\ncount = {count}\nclass = {class}\n"
        )?;
        class = class.saturating_add(1);
    }
    Ok(Settings::from_text(alloc, &text)?)
}
