//! What is asked of the tree, and what a plain map has after it.
//!
//! Each key is asked for by one thread alone, so that it is told in which order.

use pp_btree::Query;
use pp_btree::node::{Entry, LEAF_MOST};
use std::alloc::{AllocError, Global};
use std::collections::BTreeMap;

/// How many leaves the tree has in the beginning, all of them full.
pub const LEAVES: u64 = 17;

/// How many queries are asked in all.
pub const QUERIES: u32 = 12;

/// How many keys the tree has in the beginning.
pub const KEYS: u64 = LEAVES * LEAF_MOST as u64;

/// Who asks, and for which keys: so many threads, and one of them.
#[derive(Clone, Copy)]
pub struct Clerk {
    pub threads: usize,
    pub thread: usize,
}

/// The key with this number, which the tree has in the beginning: no two are the same, and they rise.
pub fn old_key(number: u64) -> u64 {
    number.wrapping_mul(8).wrapping_add(number % 4)
}

/// The entry with this number, which the tree has in the beginning.
pub fn old_entry(number: u64) -> Entry {
    Entry {
        key: old_key(number),
        value: number.wrapping_mul(3),
    }
}

impl Clerk {
    /// Whether the key is asked for by this thread.
    pub fn has(&self, key: u64) -> bool {
        self.threads <= 1 || key % 4 == self.thread as u64
    }

    /// How many queries the thread asks.
    pub fn queries(&self) -> u32 {
        if self.threads <= 1 {
            QUERIES
        } else {
            QUERIES / 4
        }
    }

    /// The thread's query with this number. The same keys come again and again.
    pub fn query(&self, number: u32) -> Query {
        let number = u64::from(number);
        let (pick, lane) = if self.threads <= 1 {
            (number % 11, number % 11 % 4)
        } else {
            (number % 3, self.thread as u64 % 4)
        };
        let leaf = (pick * 7 + lane * 5) % LEAVES;
        let old = old_key((leaf * LEAF_MOST as u64 / 4 + 1) * 4 + lane);
        let new = old.wrapping_add(4);
        let value = number.wrapping_add(1_000);
        match number % 5 {
            0 | 3 => Query::Insert { key: new, value },
            1 => Query::Update { key: old, value },
            2 => Query::Delete { key: old },
            _ => Query::Delete { key: new },
        }
    }

    /// What a plain map has of the thread's keys after so many of its queries.
    pub fn map_after(&self, alloc: Global, count: u32) -> Result<BTreeMap<u64, u64>, AllocError> {
        let mut map = BTreeMap::new(alloc);
        for number in 0..KEYS {
            let entry = old_entry(number);
            if self.has(entry.key) {
                map.insert(entry.key, entry.value)?;
            }
        }
        for number in 0..count {
            apply(self.query(number), &mut map)?;
        }
        Ok(map)
    }
}

/// Does the query on the plain map.
fn apply(query: Query, map: &mut BTreeMap<u64, u64>) -> Result<(), AllocError> {
    match query {
        Query::Insert { key, value } => {
            map.insert(key, value)?;
        }
        Query::Update { key, value } => {
            if let Some(place) = map.get_mut(&key) {
                *place = value;
            }
        }
        Query::Delete { key } => {
            map.remove(&key);
        }
        _ => {}
    }
    Ok(())
}
