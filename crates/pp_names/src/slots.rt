//! The slots of a table of keys: open addressing with linear probing.
//!
//! The slots go round: behind the last one comes the first. A name stands in a slot at or behind the home of its key, and no
//! slot on the way from the one to the other is empty (Knuth, The Art of Computer Programming, volume 3, section 6.4,
//! algorithms L and R). There are more than two slots for each name, so a search ends at an empty one.

ghost use Rattle.std.specs.Prelude.{◌≡◌, ◌≢◌, ℕ, ◌+◌, ◌*◌, ◌^◌, ◌<◌, ◌≤◌, List, length, slice_set, Option, Some, None};
ghost use Rattle.pp_names.specs.Slots.{none, at, home_of, next_of, distance_of, IsTable};

/// What stands in an empty slot, and in the place of the key of a name that has none: the greatest number of 32 bits, which
/// neither a name nor a key is.
pub(crate) const NONE: u32 = 4_294_967_295;

/// An odd number near 2^32 divided by the golden ratio: its products scatter keys that lie close together.
const MULTIPLIER: u32 = 2_654_435_769;

/// Where the search for a key begins where there are so many names.
fn home(key: u32, names: usize) -> usize
    requires fits { names < 2 ^ 32 }
    ensures value { result ≡ home_of names key }
    ensures low { result ≤ 2 * names }
{
    let mixed = u64::from(key.wrapping_mul(MULTIPLIER));
    (mixed * names as u64 >> 31) as usize
}

/// The next of so many slots: behind the last one comes the first.
fn next(place: usize, slots: usize) -> usize
    requires within { place < slots }
    ensures value { result ≡ next_of slots place }
{
    if place + 1 < slots { place + 1 } else { 0 }
}

/// How many steps lead from one of so many slots to another.
fn distance(from: usize, to: usize, slots: usize) -> usize
    requires from { from < slots }
    requires to { to < slots }
    ensures value { result ≡ distance_of slots from to }
{
    if to < from {
        slots - from + to
    } else {
        to - from
    }
}

/// The name that has this key, if one has it.
pub(crate) fn find(slots: &[u32], keys: &[u32], key: u32) -> Option<u32>
    requires table { IsTable keys.now slots.now }
    ensures some { (name : ℕ) → result ≡ Some name → (at keys.now name ≡ key) × (key ≢ none) }
    ensures none { result ≡ None → (name : ℕ) → key ≢ none → at keys.now name ≢ key }
{
    let mut place = home(key, keys.len());
    while slots[place] != NONE {
        let name = slots[place];
        if keys[name as usize] == key {
            return Some(name);
        }
        place = next(place, slots.len());
    }
    None
}

/// Puts a name, which gets this key, into the first empty slot from the key's home on.
pub(crate) fn put(slots: &mut [u32], keys: &[u32], name: u32, key: u32)
    requires table { IsTable keys.now slots.old }
    requires name { name < length keys.now }
    requires unused { at keys.now name ≡ none }
    requires key { key < none }
    ensures table { IsTable (slice_set keys.now name key) slots.new }
{
    let mut place = home(key, keys.len());
    while slots[place] != NONE {
        place = next(place, slots.len());
    }
    slots[place] = name;
}

/// The slot in which a name stands.
fn slot_of(slots: &[u32], keys: &[u32], name: u32) -> usize
    requires table { IsTable keys.now slots.now }
    requires used { at keys.now name ≢ none }
    ensures { at slots.now result ≡ name }
{
    let mut place = home(keys[name as usize], keys.len());
    while slots[place] != name {
        place = next(place, slots.len());
    }
    place
}

/// Takes a name, which loses its key, out of its slot, and closes the gap: names behind it move back where their homes
/// allow it.
pub(crate) fn take_out(slots: &mut [u32], keys: &[u32], name: u32)
    requires table { IsTable keys.now slots.old }
    requires used { at keys.now name ≢ none }
    ensures table { IsTable (slice_set keys.now name none) slots.new }
{
    let hole = slot_of(slots, keys, name);
    close(slots, keys, hole);
}

/// Empties a slot, and closes the gap.
fn close(slots: &mut [u32], keys: &[u32], start: usize)
    requires table { IsTable keys.now slots.old }
    requires full { at slots.old start ≢ none }
    ensures table { IsTable (slice_set keys.now (at slots.old start) none) slots.new }
{
    let mut hole = start;
    let mut place = next(start, slots.len());
    while slots[place] != NONE {
        let name = slots[place];
        let first = home(keys[name as usize], keys.len());
        if distance(hole, place, slots.len()) <= distance(first, place, slots.len()) {
            slots[hole] = name;
            hole = place;
        }
        place = next(place, slots.len());
    }
    slots[hole] = NONE;
}
