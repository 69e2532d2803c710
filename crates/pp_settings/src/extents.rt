//! The extents of a layout, in places that are copied with it.

ghost use Rattle.std.specs.Prelude.{◌≡◌, ◌<◌, ◌≤◌, ◌++◌, [], ◌∷◌, length};

use crate::extent::Extent;
use crate::limits::MOST_REGIONS;
use std::marker::Model;

/// Fills a place that no region uses.
const UNUSED: Extent = Extent {
    first: 0,
    count: 0,
    class: 0,
};

/// At most 64 extents, in the order of their regions: a value that is copied, and takes no memory.
#[derive(Clone, Copy, Debug, PartialEq, Eq)]
pub(crate) struct Extents {
    used: u8,
    places: [Extent; MOST_REGIONS],
}

impl Model for Extents {
    ghost use Rattle.std.specs.Prelude.{List};
    ghost use Rattle.pp_settings.specs.declared.extent.Extent.{Extent};

    ghost Value = { List Extent };

    ghost use Rattle.pp_settings.specs.Places.{in_use, AreFilled, places_of, places_of-in_use};

    ghost view = { in_use };

    ghost invariant = { AreFilled };

    ghost inverse = { places_of };

    ghost inverse_ok = { places_of-in_use };
}

impl Extents {
    /// No extent.
    pub(crate) fn new() -> Extents
        ensures { result ≡ [] }
    {
        Extents {
            used: 0,
            places: [UNUSED; MOST_REGIONS],
        }
    }

    /// The extents by number.
    pub(crate) fn as_slice(&self) -> &[Extent]
        ensures are { result.now ≡ self.now }
        ensures most { length self.now ≤ 64 }
    {
        &self.places[..usize::from(self.used)]
    }

    /// Adds the extent of one region more.
    pub(crate) fn push(&mut self, extent: Extent)
        requires { length self.old < 64 }
        ensures { self.new ≡ self.old ++ extent ∷ [] }
    {
        self.places[usize::from(self.used)] = extent;
        self.used += 1;
    }
}
