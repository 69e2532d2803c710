//! The file of a new tree, whose leaves are full.

ghost use Rattle.std.specs.Prelude.{◌≤◌};

use crate::image::BLOCK;
use crate::queries::{LEAVES, old_entry};
use crate::redo_log::Medium;
use pp_btree::node::{Entry, LEAF_MOST};
use pp_btree::regions::{FIRST_LEAF, MAP, PAGE_BYTES, PAGES, REGIONS, ROOT};
use pp_btree::{node, space};
use pp_device::image::HEAD;
use pp_device::{Device, image};
use pp_durable::{Checksummed, Durable, SUM};
use pp_test_durable::Crashing;
use std::alloc::Global;
use std::process::Abort;

/// How many blocks the log has room for.
pub const BLOCKS: u32 = 128;

/// How many pages of each region are written as the file is made: more than the tree ever takes. The others have no sum, and
/// can't be read.
const MADE: u32 = 20;

/// Where the body of a leaf names the next one.
const NEXT: usize = 16;

/// The device behind check sums, whose pages have so many bytes.
pub fn over<D: Drop>(rt: &impl Abort, alloc: Global, device: D, bytes: usize) -> Checksummed<D>
    requires head { HEAD ≤ bytes }
    requires room { bytes ≤ BLOCK }
{
    match Checksummed::new(alloc, device, bytes) {
        Ok(device) => device,
        Err(_) => panic!(rt; "memory"),
    }
}

/// A log with no record, whose device's power lasts for so many calls.
pub fn new_log(rt: &impl Abort, alloc: Global, power: u64) -> Medium {
    let device = Crashing::new(alloc, BLOCKS, BLOCK + SUM, power).expect(rt, "memory");
    over(rt, alloc, device, BLOCK)
}

/// The pages that the file of a new tree has: the first ones of each region, and the last of all, which a pool reads as it is
/// opened.
pub fn is_made(page: u32) -> bool {
    for region in REGIONS.iter() {
        if region.first <= page && page - region.first < region.count.min(MADE) {
            return true;
        }
    }
    page == PAGES - 1
}

/// The file of a new tree. All of it is on the medium, and its power lasts for so many calls from now on.
pub fn new_file(rt: &impl Abort, alloc: Global, power: u64) -> Crashing {
    let device = Crashing::new(alloc, PAGES, PAGE_BYTES + SUM, u64::MAX).expect(rt, "memory");
    let mut device = over(rt, alloc, device, PAGE_BYTES);
    for page in 0..PAGES {
        if is_made(page) {
            let mut bytes = [0; PAGE_BYTES];
            image::make(&mut bytes, page, 0);
            make_body(&mut bytes[HEAD..], page);
            device.write(page, &bytes).expect(rt, "a page");
        }
    }
    device.sync().expect(rt, "a sync");
    let mut device = device.into_inner();
    device.set_power(power);
    device
}

/// Makes the body what a new tree has in this page.
fn make_body(body: &mut [u8], page: u32) {
    match page {
        MAP => {
            for leaf in 0..LEAVES as u32 {
                // The even leaves are the map's group 4.
                space::take(body, 4, leaf);
            }
        }
        ROOT => make_root(body),
        _ if FIRST_LEAF <= page && u64::from(page - FIRST_LEAF) < LEAVES => {
            make_leaf(body, u64::from(page - FIRST_LEAF));
        }
        _ => {}
    }
}

/// Makes the body a root over all leaves.
fn make_root(body: &mut [u8]) {
    node::make(body, 1);
    for leaf in 0..LEAVES {
        node::push(
            body,
            Entry {
                key: old_entry(leaf * LEAF_MOST as u64).key,
                value: u64::from(FIRST_LEAF) + leaf,
            },
        );
    }
}

/// Makes the body a full leaf, which names the next one.
fn make_leaf(body: &mut [u8], leaf: u64) {
    node::make(body, 0);
    let first = leaf.wrapping_mul(LEAF_MOST as u64);
    for number in 0..LEAF_MOST as u64 {
        node::push(body, old_entry(first.wrapping_add(number)));
    }
    let next = u64::from(FIRST_LEAF).wrapping_add(leaf).wrapping_add(1);
    if leaf.wrapping_add(1) < LEAVES && body.len() >= NEXT + 8 {
        body[NEXT..NEXT + 8].copy_from_slice(&next.to_be_bytes());
    }
}
