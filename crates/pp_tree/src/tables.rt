//! The two tables of the join, and the same join by a plain loop.

use crate::hash_join::{BUCKETS, LINES, Pairs};
use pp_btree::node;
use pp_btree::node::Entry;
use pp_btree::regions::PAGE_BYTES;
use pp_device::image::HEAD;
use pp_device::{Device, image};

/// The smaller table has the keys below this that aren't multiples of 5.
const KEYS: u64 = 1_000;

/// How many rows a page of the larger table has.
const ROWS: u64 = 100;

/// The value of a key of the smaller table, if it has it.
fn order_of(key: u64) -> Option<u64> {
    if key < KEYS && key % 5 != 0 {
        Some(key % 13)
    } else {
        None
    }
}

/// The row of the larger table with this number. Several have the same key.
fn line_of(number: u64) -> Entry {
    Entry {
        key: number.wrapping_mul(7) % 1_500,
        value: number % 11,
    }
}

/// Writes both tables: the buckets of the smaller one, and behind them the pages of the larger one.
///
/// # Errors
///
/// Where the device fails.
pub fn write<D: Device>(device: &mut D) -> anyhow::Result<()> {
    for bucket in 0..BUCKETS {
        write_bucket(device, bucket)?;
    }
    for page in 0..LINES {
        write_lines(device, page)?;
    }
    Ok(())
}

/// Writes a bucket of the smaller table.
fn write_bucket<D: Device>(device: &mut D, bucket: u32) -> anyhow::Result<()> {
    let mut bytes = [0; PAGE_BYTES];
    image::make(&mut bytes, bucket, 0);
    node::make(&mut bytes[HEAD..], 0);
    for key in 0..KEYS {
        if key % u64::from(BUCKETS) == u64::from(bucket) {
            if let Some(value) = order_of(key) {
                node::push(&mut bytes[HEAD..], Entry { key, value });
            }
        }
    }
    Ok(device.write(bucket, &bytes)?)
}

/// Writes a page of the larger table.
fn write_lines<D: Device>(device: &mut D, page: u32) -> anyhow::Result<()> {
    let number = page.saturating_add(BUCKETS);
    let first = u64::from(page) * ROWS;
    let mut bytes = [0; PAGE_BYTES];
    image::make(&mut bytes, number, 0);
    node::make(&mut bytes[HEAD..], 0);
    for row in 0..ROWS {
        node::push(&mut bytes[HEAD..], line_of(first + row));
    }
    Ok(device.write(number, &bytes)?)
}

/// What the join comes to by a plain loop.
pub fn joined() -> Pairs {
    let mut pairs = Pairs::NONE;
    for number in 0..u64::from(LINES) * ROWS {
        let line = line_of(number);
        if let Some(value) = order_of(line.key) {
            pairs.add(value, line.value);
        }
    }
    pairs
}
