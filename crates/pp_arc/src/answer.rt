//! What a directory answers to a request.

/// What a directory answers to the request for a page.
#[derive(Clone, Copy, Debug, PartialEq, Eq)]
pub enum Answer {
    /// The page is cached already.
    Hit,
    /// The page is cached from now on, and a frame was free for it.
    Free,
    /// The page is cached from now on, in the place of this victim.
    Evict(u32),
    /// A victim is wanted, and each cached page is busy. Nothing has changed.
    AllBusy,
}
