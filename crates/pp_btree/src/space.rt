//! The map of free pages, in the body of a page: a bit for each page of each region that nodes lie in, set where the page is taken.

ghost use Rattle.std.specs.Prelude.{◌<◌, length, IfSome};

/// How many bytes the bits of a region take.
const BYTES: usize = 128;

/// How many regions the map has.
const GROUPS: usize = 6;

/// The first page of the group that isn't taken, counted from the group's first, of so many.
pub fn first_free(body: &[u8], group: usize, pages: u32) -> Option<u32> {
    for number in 0..pages {
        if !is_taken(body, group, number) {
            return Some(number);
        }
    }
    None
}

/// How many pages of the group are taken, of so many.
pub fn taken(body: &[u8], group: usize, pages: u32) -> u64 {
    let mut taken = 0u64;
    for number in 0..pages {
        if is_taken(body, group, number) {
            taken = taken.saturating_add(1);
        }
    }
    taken
}

/// Takes a page of the group.
pub fn take(body: &mut [u8], group: usize, number: u32) {
    if let Some(at) = byte_of(body, group, number) {
        body[at] |= bit_of(number);
    }
}

/// Whether the page of the group is taken, or has no bit.
fn is_taken(body: &[u8], group: usize, number: u32) -> bool {
    match byte_of(body, group, number) {
        Some(at) => body[at] & bit_of(number) != 0,
        None => true,
    }
}

/// The place of the byte that has a page's bit.
fn byte_of(body: &[u8], group: usize, number: u32) -> Option<usize>
    ensures { IfSome result (λ at. at < length body.now) }
{
    let within = (number / 8) as usize;
    if group >= GROUPS || within >= BYTES {
        return None;
    }
    let at = group * BYTES + within;
    if at < body.len() { Some(at) } else { None }
}

/// A page's bit in its byte.
fn bit_of(number: u32) -> u8 {
    1 << (number % 8)
}
