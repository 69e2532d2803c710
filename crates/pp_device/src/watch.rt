//! Whoever is told how far the writing of a device is.

/// Whoever is told how far the writing of a device is.
pub trait Watch {
    /// So many of all pages are written.
    fn written(&mut self, pages: u32, all: u32);
}

/// Nobody, who is told nothing.
#[derive(Clone, Copy, Debug)]
pub struct Nobody;

impl Watch for Nobody {
    fn written(&mut self, _pages: u32, _all: u32) {}
}
