//! The keys of a settings text, and where a key stands.

ghost use Rattle.std.specs.Prelude.{◌≡◌, Some};

use pp_text::About;
use std::fmt;

/// A key of the document itself.
#[derive(Clone, Copy, Debug, PartialEq, Eq)]
pub enum TopKey {
    /// The version of the text. No refusal names it.
    Version,
    /// How many frames the pool has.
    Frames,
    /// How many bytes a page has.
    PageBytes,
    /// How many workers run plans.
    Workers,
    /// How many submitted plans may wait at a time.
    Waiting,
    /// How many flushes one life may begin.
    Flushes,
    /// The array of regions.
    Region,
}

impl TopKey {
    ghost use Rattle.pp_settings.specs.Keys.{top_key};

    /// The key as the text writes it.
    pub fn name(self) -> &'static str
        ensures { result.now ≡ top_key self }
    {
        match self {
            TopKey::Version => "version",
            TopKey::Frames => "frames",
            TopKey::PageBytes => "page_bytes",
            TopKey::Workers => "workers",
            TopKey::Waiting => "waiting",
            TopKey::Flushes => "flushes",
            TopKey::Region => "region",
        }
    }
}

/// A key of a region's table.
#[derive(Clone, Copy, Debug, PartialEq, Eq)]
pub enum RegionKey {
    /// The region's name.
    Name,
    /// Its least page number.
    First,
    /// How many pages it has.
    Count,
    /// The class of its pages' latches.
    Class,
}

impl RegionKey {
    ghost use Rattle.pp_settings.specs.Keys.{region_key};

    /// The key as the text writes it.
    pub fn name(self) -> &'static str
        ensures { result.now ≡ region_key self }
    {
        match self {
            RegionKey::Name => "name",
            RegionKey::First => "first",
            RegionKey::Count => "count",
            RegionKey::Class => "class",
        }
    }
}

/// Where a key stands: in the document itself, or in the table of the region with this number, counted from 0.
#[derive(Clone, Copy, Debug, PartialEq, Eq)]
pub enum Spot {
    /// A key of the document.
    Top(TopKey),
    /// A key of a region.
    InRegion(u8, RegionKey),
}

impl Spot {
    ghost use Rattle.pp_text.specs.Views.{matter_of};
    ghost use Rattle.pp_settings.specs.Keys.{key_of};
    ghost use Rattle.pp_settings.specs.Refusals.{spot_matter};

    /// The key as the text writes it.
    pub fn key(self) -> &'static str
        ensures { result.now ≡ key_of self }
    {
        match self {
            Spot::Top(key) => key.name(),
            Spot::InRegion(_, key) => key.name(),
        }
    }

    /// The spot, as what a refusal is about.
    pub(crate) fn about(self) -> About
        ensures { matter_of result ≡ spot_matter self }
    {
        match self {
            Spot::Top(key) => About::Key(key.name()),
            Spot::InRegion(region, key) => About::RegionKey(region, key.name()),
        }
    }
}

/// Writes the key, with `region I ` before a key of region `I`.
impl fmt::Display for Spot {
    ghost use Rattle.pp_settings.specs.Refusals.{spot_text};

    ghost output = { λ spot. Some (spot_text spot) };

    fn fmt<W: fmt::Write>(&self, f: &mut fmt::Formatter<W>) -> fmt::Result {
        match *self {
            Spot::Top(key) => f.write_str(key.name()),
            Spot::InRegion(region, key) => {
                write!(f, "region {region} ")?;
                f.write_str(key.name())
            }
        }
    }
}
