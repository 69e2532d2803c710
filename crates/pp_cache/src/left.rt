//! Who left.

/// The page that left for another one.
///
/// Its bytes stay in its frame until the host writes there. So a host that has changed them can still write them back.
#[derive(Clone, Copy, Debug, PartialEq, Eq)]
pub struct Left {
    /// The page's key.
    pub key: u32,
    /// The frame that it had.
    pub frame: u32,
}
