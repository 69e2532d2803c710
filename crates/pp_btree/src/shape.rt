//! Looks at a whole tree on its device: whether it is well-formed, and what it has.

ghost use Rattle.std.specs.Prelude.{◌≡◌, ◌≤◌, length, true};

use crate::node::Entry;
use crate::regions::{FIRST_OF_NODES, LEVELS, MAP, PAGE_BYTES, REGIONS, ROOT};
use crate::{node, space};
use pp_device::Device;
use pp_device::image::HEAD;
use std::alloc::{AllocError, Global};
use std::collections::BTreeMap;

/// A tree on its device.
#[derive(Drop)]
pub struct Shape {
    /// How high the root stands.
    pub height: u64,
    /// How many nodes there are, the root too.
    pub nodes: u64,
    /// How many things are amiss. Each is a page that can't be read, a node of another height than its place has, or
    /// keys that don't rise or that its parent doesn't tell of. Or it is a leaf that names another one as the next, or
    /// a map that counts more or fewer nodes.
    pub amiss: u64,
    /// The entries of the leaves in their order.
    pub entries: Vec<Entry>,
    /// The leaf that the one before names as the next; none behind the last one and before the first.
    next: Option<u32>,
}

/// A node that is to be looked at, and the keys that it may have: from the low one on, and below the high one, if there is one.
#[derive(Clone, Copy)]
struct Place {
    page: u32,
    low: u64,
    high: Option<u64>,
}

impl Place {
    /// Whether the node may have this key.
    fn allows(&self, key: u64) -> bool {
        let is_below = match self.high {
            Some(high) => key < high,
            None => true,
        };
        self.low <= key && is_below
    }
}

impl Shape {
    /// Nothing was looked at.
    fn new(alloc: Global) -> Shape {
        Shape {
            height: 0,
            nodes: 0,
            amiss: 0,
            entries: Vec::new(alloc),
            next: None,
        }
    }

    /// Notes where something isn't so.
    fn note(&mut self, is_right: bool) {
        if !is_right {
            self.amiss = self.amiss.saturating_add(1);
        }
    }

    /// Whether all is well-formed, and the leaves have what the map has.
    pub fn is_like(&self, map: &BTreeMap<u64, u64>) -> bool {
        self.amiss == 0 && self.has_all_of(map)
    }

    /// Whether the leaves have what the map has, in its order.
    fn has_all_of(&self, map: &BTreeMap<u64, u64>) -> bool {
        let mut position = 0usize;
        for (key, value) in map.iter() {
            let entry = Entry {
                key: *key,
                value: *value,
            };
            if self.entries.get(position) != Some(&entry) {
                return false;
            }
            position = position.saturating_add(1);
        }
        position == self.entries.len()
    }

    /// Looks at the nodes of a level, in their order. Answers the places of their children.
    fn look_at_level<D: Device>(
        &mut self,
        alloc: Global,
        device: &mut D,
        level: &[Place],
        height: u64,
        bytes: &mut [u8],
    ) -> Result<Vec<Place>, AllocError> {
        let mut below = Vec::new(alloc);
        for place in level {
            let is_read = read(device, place.page, bytes);
            self.note(is_read);
            if is_read {
                let body = &bytes[HEAD..];
                self.look_at_node(*place, height, body);
                if height == 0 {
                    self.look_at_leaf(*place, body)?;
                } else {
                    add_children(*place, body, &mut below)?;
                }
            }
        }
        Ok(below)
    }

    /// Looks at the head of a node, and at its keys.
    fn look_at_node(&mut self, place: Place, height: u64, body: &[u8]) {
        self.nodes = self.nodes.saturating_add(1);
        self.note(node::height(body) == height);
        let mut before = None;
        for position in 0..node::count(body) {
            let key = node::entry_at(body, position).key;
            self.note(place.allows(key) && before < Some(key));
            before = Some(key);
        }
    }

    /// Takes down what a leaf has, and sees that it is the one that the leaf before names as the next.
    fn look_at_leaf(&mut self, place: Place, body: &[u8]) -> Result<(), AllocError> {
        let (is_first, next) = (place.low == 0, self.next);
        self.note(is_first || next == Some(place.page));
        self.next = node::next(body);
        for position in 0..node::count(body) {
            self.entries.push(node::entry_at(body, position))?;
        }
        Ok(())
    }
}

/// Adds the places of a node's children.
fn add_children(place: Place, body: &[u8], below: &mut Vec<Place>) -> Result<(), AllocError> {
    let count = node::count(body);
    for position in 0..count {
        let entry = node::entry_at(body, position);
        let high = if position + 1 < count {
            Some(node::entry_at(body, position + 1).key)
        } else {
            place.high
        };
        below.push(Place {
            page: u32::try_from(entry.value).unwrap_or(MAP),
            low: entry.key,
            high,
        })?;
    }
    Ok(())
}

/// Reads a page. Tells whether it was read, and has the head of a page.
fn read<D: Device>(device: &mut D, page: u32, bytes: &mut [u8]) -> bool
    ensures { result ≡ true → 12 ≤ length bytes.new }
{
    bytes.len() >= HEAD && device.read(page, bytes).is_ok()
}

/// How many pages the map says are taken.
fn taken(body: &[u8]) -> u64 {
    let mut taken = 0u64;
    let mut group = 0usize;
    for region in REGIONS[usize::from(FIRST_OF_NODES)..].iter() {
        taken = taken.saturating_add(space::taken(body, group, region.count));
        group = group.saturating_add(1);
    }
    taken
}

/// Looks at the tree.
pub fn shape_of<D: Device>(alloc: Global, device: &mut D) -> Result<Shape, AllocError> {
    let mut bytes = vec![in alloc; 0u8; PAGE_BYTES]?;
    let mut shape = Shape::new(alloc);
    let bytes = bytes.as_mut_slice();
    let is_read = read(device, ROOT, bytes);
    shape.note(is_read);
    if is_read {
        shape.height = node::height(&bytes[HEAD..]).min(LEVELS);
    }
    let root = Place {
        page: ROOT,
        low: 0,
        high: None,
    };
    let mut level = vec![in alloc; root]?;
    for height in (0..=shape.height).rev() {
        level = shape.look_at_level(alloc, device, &level, height, bytes)?;
    }
    let (next, nodes) = (shape.next, shape.nodes);
    shape.note(next.is_none());
    let is_read = read(device, MAP, bytes);
    shape.note(is_read);
    if is_read {
        let taken = taken(&bytes[HEAD..]);
        shape.note(taken.saturating_add(1) == nodes);
    }
    Ok(shape)
}
