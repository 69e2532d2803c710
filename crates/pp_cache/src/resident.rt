//! Where a page is.

/// Where a page is that stands in a frame.
#[derive(Clone, Copy, Debug, PartialEq, Eq)]
pub struct Resident {
    /// The frame's number.
    pub frame: u32,
    /// Whether the page may not leave it.
    pub is_pinned: bool,
}
