//! A node of the tree, in the body of a page.
//!
//! | Bytes of the body | What stands there |
//! |---|---|
//! | 0 to 7 | the height: 0 of a leaf, and one more for each level above |
//! | 8 to 15 | how many entries there are |
//! | 16 to 23 | of a leaf the page of the next one; 0 of the last |
//! | 24 on | the entries, of 16 bytes each: a key, and its value or the page of a child |
//!
//! Every number has eight bytes, big-endian. Entries stand by rising keys, and no two have the same. A child has the keys from that
//! of its entry on, up to that of the next entry.

ghost use Rattle.std.specs.Prelude.{◌≡◌, ◌<◌, ◌≤◌, ◌+◌, ◌*◌, length};

/// Where the height stands.
const HEIGHT: usize = 0;

/// Where it stands how many entries there are.
const COUNT: usize = 8;

/// Where the next leaf stands.
const NEXT: usize = 16;

/// Where the entries begin.
const ENTRIES: usize = 24;

/// How many bytes an entry has.
const ENTRY: usize = 16;

/// The most entries of a leaf: so many have room in a page of 4,096 bytes.
pub const LEAF_MOST: usize = 253;

/// The most entries of a node above: few, so that a tree of some hundred leaves has all its levels.
const INNER_MOST: usize = 20;

/// How many times an interval of entries is halved at most.
const HALVINGS: u32 = 9;

/// An entry of a node.
#[derive(Clone, Copy, Debug, PartialEq, Eq)]
pub struct Entry {
    /// In a leaf the key, in another node the least that the child may have.
    pub key: u64,
    /// In a leaf the value of the key, in another node the page of the child.
    pub value: u64,
}

/// The number in the eight bytes from this one on; 0 where the body ends before.
fn number(body: &[u8], at: usize) -> u64 {
    if at > body.len() || body.len() - at < 8 {
        return 0;
    }
    let mut bytes = [0; 8];
    bytes.copy_from_slice(&body[at..at + 8]);
    u64::from_be_bytes(bytes)
}

/// Writes the number to the eight bytes from this one on, unless the body ends before.
fn put(body: &mut [u8], at: usize, number: u64) {
    if at > body.len() || body.len() - at < 8 {
        return;
    }
    body[at..at + 8].copy_from_slice(&number.to_be_bytes());
}

/// Where the entry of this number begins.
fn place(number: usize) -> usize
    requires { number ≤ 253 }
    ensures { result ≡ 24 + 16 * number }
{
    ENTRIES + ENTRY * number
}

/// How high the node stands: 0 of a leaf.
pub fn height(body: &[u8]) -> u64 {
    number(body, HEIGHT)
}

/// The page of the next leaf, if there is one.
pub fn next(body: &[u8]) -> Option<u32> {
    match u32::try_from(number(body, NEXT)) {
        Ok(0) => None,
        Ok(page) => Some(page),
        Err(_) => None,
    }
}

/// The most entries that a node of this height has.
fn most(height: u64) -> usize
    ensures { result ≤ 253 }
{
    if height == 0 { LEAF_MOST } else { INNER_MOST }
}

/// How many entries the node has.
pub fn count(body: &[u8]) -> usize
    ensures { result ≤ 253 }
{
    match usize::try_from(number(body, COUNT)) {
        Ok(count) => count.min(LEAF_MOST),
        Err(_) => LEAF_MOST,
    }
}

/// Whether no further entry has room.
pub fn is_full(body: &[u8]) -> bool {
    count(body) >= most(height(body))
}

/// The entry at this position, counted from 0.
pub fn entry_at(body: &[u8], position: usize) -> Entry {
    let at = place(position.min(LEAF_MOST));
    Entry {
        key: number(body, at),
        value: number(body, at + 8),
    }
}

/// How many entries have a key that isn't above this one.
fn rank(body: &[u8], key: u64) -> usize
    ensures { result ≤ 253 }
{
    let mut low = 0usize;
    let mut high = count(body);
    for _ in 0..HALVINGS {
        if low >= high {
            break;
        }
        let middle = low + (high - low) / 2;
        if entry_at(body, middle).key <= key {
            low = middle + 1;
        } else {
            high = middle;
        }
    }
    low.min(LEAF_MOST)
}

/// The page of the child that has the key. None where the node has no entry.
pub fn child(body: &[u8], key: u64) -> Option<u32> {
    if count(body) == 0 {
        return None;
    }
    let before = rank(body, key).saturating_sub(1);
    u32::try_from(entry_at(body, before).value).ok()
}

/// The number of the entry that has the key.
fn position(body: &[u8], key: u64) -> Option<usize> {
    let rank = rank(body, key);
    if rank > 0 && entry_at(body, rank - 1).key == key {
        return Some(rank - 1);
    }
    None
}

/// The value of the key in a leaf.
pub fn find(body: &[u8], key: u64) -> Option<u64> {
    let position = position(body, key)?;
    Some(entry_at(body, position).value)
}

/// Gives a key that is there another value. Tells whether it is there.
pub fn set(body: &mut [u8], new: Entry) -> bool {
    match position(body, new.key) {
        Some(position) => {
            put_entry(body, position, new);
            true
        }
        None => false,
    }
}

/// Adds an entry, or gives its key another value where that is there. Tells whether the node has it now: not where it is full.
pub fn insert(body: &mut [u8], new: Entry) -> bool {
    if set(body, new) {
        return true;
    }
    let (rank, count) = (rank(body, new.key), count(body));
    if count >= most(height(body)) || rank > count || place(count + 1) > body.len() {
        return false;
    }
    body.copy_within(place(rank)..place(count), place(rank + 1));
    put_entry(body, rank, new);
    put(body, COUNT, count as u64 + 1);
    true
}

/// Takes the entry of a key out. Tells whether it was there.
pub fn remove(body: &mut [u8], key: u64) -> bool {
    let count = count(body);
    match position(body, key) {
        Some(position) if position < count && place(count) <= body.len() => {
            body.copy_within(place(position + 1)..place(count), place(position));
            put(body, COUNT, count as u64 - 1);
            true
        }
        _ => false,
    }
}

/// Writes an entry.
fn put_entry(body: &mut [u8], number: usize, new: Entry) {
    let at = place(number.min(LEAF_MOST));
    put(body, at, new.key);
    put(body, at + 8, new.value);
}

/// Makes the body a node of this height with no entry.
pub fn make(body: &mut [u8], height: u64) {
    put(body, HEIGHT, height);
    put(body, COUNT, 0);
    put(body, NEXT, 0);
}

/// Adds an entry behind the others, where there is room for it.
pub fn push(body: &mut [u8], new: Entry) {
    let count = count(body);
    put_entry(body, count, new);
    put(body, COUNT, (count as u64).saturating_add(1));
}

/// Makes the other body a node of the same height, and moves the upper half of the entries there. A leaf's next one is the other
/// from then on, whose page this is. Then the entry is added to the half that it belongs to. Answers the least key of the other.
pub fn split_for(body: &mut [u8], other: &mut [u8], page: u32, new: Entry) -> u64 {
    let (height, next) = (height(body), number(body, NEXT));
    let key = upper_half(body, other, height);
    put(body, COUNT, (count(body) / 2) as u64);
    if height == 0 {
        put(other, NEXT, next);
        put(body, NEXT, u64::from(page));
    }
    if new.key >= key {
        insert(other, new);
    } else {
        insert(body, new);
    }
    key
}

/// Makes the other body a node of this height with the lower half of the entries. Answers the least key of these.
pub fn lower_half(body: &[u8], other: &mut [u8], height: u64) -> u64 {
    copy(body, 0, count(body) / 2, other, height);
    entry_at(other, 0).key
}

/// The same with the upper half.
pub fn upper_half(body: &[u8], other: &mut [u8], height: u64) -> u64 {
    let count = count(body);
    copy(body, count / 2, count, other, height);
    entry_at(other, 0).key
}

/// Makes the other body a node of this height with the entries at these positions.
fn copy(body: &[u8], from: usize, to: usize, other: &mut [u8], height: u64) {
    make(other, height);
    for position in from..to {
        push(other, entry_at(body, position));
    }
}
