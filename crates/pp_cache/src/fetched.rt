//! What a cache answers to a fetch.

use crate::Left;

/// What a cache answers to a fetch.
#[derive(Clone, Copy, Debug, PartialEq, Eq)]
pub enum Fetched {
    /// The page is pinned in this frame, which has its bytes.
    Hit(u32),
    /// The page is pinned in this frame, which has no bytes of it yet. Another page may have left for it.
    New(u32, Option<Left>),
    /// The page is in no frame, and may not be brought in. Nothing has changed.
    Nothing,
    /// The page is in no frame, and the memory for it can't be had, or its key is too great. No page has changed.
    NoRoom,
}
