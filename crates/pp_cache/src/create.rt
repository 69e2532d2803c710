//! Whether a fetch may bring a page in.

/// Whether a fetch may bring a page in that isn't there.
#[derive(Clone, Copy, Debug, PartialEq, Eq)]
pub enum Create {
    /// It may not.
    Never,
    /// It may, unless the cache is crowded: unless as many pages are pinned as nine of ten of its size, rounded down. A
    /// cache of one page always is.
    IfRoom,
    /// It may. Where each cached page is pinned, the page gets a frame beyond the size of the cache.
    Always,
}
