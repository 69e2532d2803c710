//! What a cache has, as C sees it.

/// How much a cache has.
#[repr(C)]
#[derive(Clone, Copy, Debug, PartialEq, Eq)]
pub struct Counts {
    /// How many pages that nobody has pinned it holds at most.
    pub size: u32,
    /// How many pages stand in frames.
    pub pages: u32,
    /// How many of them are pinned.
    pub pinned: u32,
    /// How many frames there are: their numbers are below this one.
    pub frames: u32,
    /// For how many keys there is room, at 72 bytes for each: those of pages in frames, and of pages that are remembered.
    pub names: u32,
    /// How many keys there are of such pages.
    pub used: u32,
}
