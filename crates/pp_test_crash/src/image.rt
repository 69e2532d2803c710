//! Where the images of the tree's pages, and the blocks of its log, have their numbers.
//!
//! A node has room for 253 entries, and the map of free pages is shorter. So the last twelve bytes of each body are free,
//! and the first eight of these have the number of the last record.

ghost use Rattle.std.specs.Prelude.{◌≡◌, ◌+◌, ◌≤◌, length};
ghost use Rattle.pp_test_crash.specs.Numbers.{number_at, number_of};

use pp_btree::regions::PAGE_BYTES;
use pp_device::image;
use pp_device::image::HEAD;

/// How many bytes the body of a page has.
pub const BODY: usize = PAGE_BYTES - HEAD;

/// How many bytes stand before the image in a block of the log: which part of its record it is, and of how many.
pub const FRONT: usize = 8;

/// How many bytes a block of the log has.
pub const BLOCK: usize = FRONT + PAGE_BYTES;

/// The page that the record of a checkpoint names, which is none.
pub const CHECKPOINT: u32 = u32::MAX;

/// The number in the eight bytes from this one on, big-endian.
#[tactic(auto, unfolding(crate::specs::Numbers::number_at))]
fn number_at(bytes: &[u8], at: usize) -> u64
    requires { at + 8 ≤ length bytes.now }
    ensures { result ≡ number_at bytes.now at }
{
    let mut number = [0; 8];
    number.copy_from_slice(&bytes[at..at + 8]);
    u64::from_be_bytes(number)
}

/// The number of the last record whose change is in the image; 0 where the image is shorter.
pub fn number_of(image: &[u8]) -> u64
    ensures { result ≡ number_of image.now }
{
    if image.len() < 4092 {
        return 0;
    }
    number_at(image, 4084)
}

/// Puts the number of the last record into a body.
pub fn stamp(body: &mut [u8], number: u64) {
    if body.len() == BODY {
        body[4072..4080].copy_from_slice(&number.to_be_bytes());
    }
}

/// The block that is this part, of so many, of a record: the page with this body.
pub fn block_of(part: u32, parts: u32, page: u32, body: &[u8]) -> [u8; BLOCK] {
    let mut block = [0; BLOCK];
    block[..4].copy_from_slice(&part.to_be_bytes());
    block[4..FRONT].copy_from_slice(&parts.to_be_bytes());
    image::make(&mut block[FRONT..], page, 0);
    if body.len() == BODY {
        block[FRONT + HEAD..].copy_from_slice(body);
    }
    block
}

/// Which part the block is, and of how many.
pub fn parts_of(block: &[u8; BLOCK]) -> (u32, u32) {
    (
        u32::from_be_bytes([block[0], block[1], block[2], block[3]]),
        u32::from_be_bytes([block[4], block[5], block[6], block[7]]),
    )
}

/// The record that recovery begins with, as the block of a checkpoint says.
pub fn from_of(block: &[u8; BLOCK]) -> u64 {
    number_at(block, FRONT + HEAD)
}
