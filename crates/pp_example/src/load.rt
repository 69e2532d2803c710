//! Writes an index to a device, before a pool has it.

ghost use Rattle.std.specs.Prelude.{◌≤◌, length};

use crate::node;
use crate::node::Entry;
use crate::setup::{INNER, LEAVES, PAGE_BYTES, ROOT};
use pp_device::image::HEAD;
use pp_device::{Device, image};
use std::alloc::Global;

/// How many entries a new node gets, so that a place is left in it.
const FULL: usize = 4;

/// The entries of the example: each tenth key has its number's square as its value.
pub fn squares(alloc: Global) -> anyhow::Result<Vec<Entry>> {
    let mut entries = Vec::new(alloc);
    for number in 0..64 {
        entries.push(Entry {
            key: 10 * number,
            value: number * number,
        })?;
    }
    Ok(entries)
}

/// Writes an index of three levels with these entries, which stand by rising keys and are at most 64: the leaves, then
/// the nodes above them, then the root. Every page gets the stamp 0.
pub fn write<D: Device>(alloc: Global, device: &mut D, entries: &[Entry]) -> anyhow::Result<()> {
    let leaves = write_level(alloc, device, 0, entries, LEAVES)?;
    let inner = write_level(alloc, device, 1, &leaves, INNER)?;
    let _root = write_level(alloc, device, 2, &inner, ROOT)?;
    Ok(())
}

/// Writes the nodes of one level, on pages from this one on. Answers the entries of the level above: the least key of
/// each node, and its page.
fn write_level<D: Device>(
    alloc: Global,
    device: &mut D,
    height: u32,
    entries: &[Entry],
    first: u32,
) -> anyhow::Result<Vec<Entry>> {
    let mut above = Vec::new(alloc);
    let mut page = first;
    for few in entries.chunks(FULL) {
        if let Some(least) = few.first() {
            write_node(device, page, height, few)?;
            above.push(Entry {
                key: least.key,
                value: page,
            })?;
        }
        page = page.wrapping_add(1);
    }
    Ok(above)
}

/// Writes a node with these entries to the page.
fn write_node<D: Device>(
    device: &mut D,
    page: u32,
    height: u32,
    entries: &[Entry],
) -> anyhow::Result<()>
    requires { length entries.now ≤ 5 }
{
    let mut bytes = [0; PAGE_BYTES];
    image::make(&mut bytes, page, 0);
    node::fill(&mut bytes[HEAD..], height, entries);
    device.write(page, &bytes)?;
    Ok(())
}
