//! Where regions lie, as a plain value.

ghost use Rattle.std.specs.Prelude.{◌≡◌, ◌≤◌, ◌<◌, ◌-◌, ℕ, length, Some, IfSome, slice_get};
ghost use Rattle.pp_settings.specs.Limits.{most_frames};
ghost use Rattle.pp_settings.specs.Layout.{region_of, class_of, page_count, HasPage, TellsClass, IsLayout};

use crate::extent::Extent;
use crate::extents::Extents;
use std::marker::Model;

/// The frames of a pool, and where the regions of its pages lie. It is plain data, and copied where it is wanted.
///
/// There are 1 to 16,777,216 frames and 1 to 64 regions. No two regions share a page. Page numbers are below
/// 4,294,967,292, and classes below 64. A region's number is its place in the settings' text, from 0.
#[derive(Clone, Copy, Debug, PartialEq, Eq)]
pub struct Layout {
    frames: u32,
    extents: Extents,
}

impl Model for Layout {
    ghost use Rattle.pp_settings.specs.Layout.{Geometry, IsLayout};

    ghost Value = { Geometry };

    ghost view = { λ l. record { frames = l.frames; extents = l.extents } };

    ghost invariant = { λ l. IsLayout (record { frames = l.frames; extents = l.extents }) };

    ghost inverse = { λ g. record { frames = g.frames; extents = g.extents } };
}

impl Layout {
    /// How many frames the pool has.
    pub fn frames(&self) -> u32
        ensures is { result ≡ self.now.frames }
        ensures within { (1 ≤ result) × (result ≤ most_frames) }
    {
        self.frames
    }

    /// The regions by number.
    pub fn extents(&self) -> &[Extent]
        ensures are { result.now ≡ self.now.extents }
        // What holds of every layout.
        ensures facts { IsLayout self.now }
    {
        self.extents.as_slice()
    }

    /// The layout of these frames and regions.
    pub(crate) fn new(frames: u32, extents: Extents) -> Layout
        requires { IsLayout (record { frames = frames; extents = extents }) }
        ensures { result ≡ record { frames = frames; extents = extents } }
    {
        Layout { frames, extents }
    }

    /// One more than the greatest page number of any region.
    pub fn pages(&self) -> u32
        ensures is { result ≡ page_count self.now }
        // Each page of a region is below the number, and some region ends with the page before it.
        ensures above { (r page : ℕ) → HasPage self.now r page → page < result }
        ensures last { (r : ℕ) × HasPage self.now r (result - 1) }
        ensures most { result ≤ 4294967292 }
    {
        let mut pages = 0;
        for extent in self.extents() {
            pages = pages.max(extent.first + extent.count);
        }
        pages
    }

    /// Where among the regions the page's one stands.
    fn region_position(&self, page: u32) -> Option<usize>
        ensures is { result ≡ region_of self.now page }
        ensures below { IfSome result (λ place. place < length self.now.extents) }
        ensures facts { IsLayout self.now }
    {
        self.extents().iter().position(|extent| extent.has(page))
    }

    /// The region that has the page, if one has it.
    pub fn region_of(&self, page: u32) -> Option<u8>
        ensures is { result ≡ region_of self.now page }
        ensures below { IfSome result (λ r. r < length self.now.extents) }
        // The region named has the page, and no other region has it.
        ensures has { IfSome result (λ r. HasPage self.now r page) }
        ensures only { (r : ℕ) → HasPage self.now r page → result ≡ Some r }
    {
        let place = self.region_position(page)?;
        Some(place as u8)
    }

    /// The class of the region that has the page, if one has it.
    pub fn class_of(&self, page: u32) -> Option<u8>
        ensures is { result ≡ class_of self.now page }
        // A class named is that of the one region that has the page. None is named if and only if no region has it.
        ensures tells { TellsClass self.now page result }
        ensures most { IfSome result (λ class. class ≤ 63) }
    {
        let extent = self.extents().iter().find(|extent| extent.has(page))?;
        Some(extent.class)
    }

    /// The region with the number, if there is one.
    pub fn extent(&self, region: u8) -> Option<Extent>
        ensures { result ≡ slice_get self.now.extents region }
    {
        self.extents().get(usize::from(region)).copied()
    }
}
