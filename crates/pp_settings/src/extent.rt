//! Where a region lies.

ghost use Rattle.std.specs.Prelude.{◌≡◌};

/// The pages of a region, `first` to `first + count - 1`, and the class of their latches.
#[derive(Clone, Copy, Debug, PartialEq, Eq)]
pub struct Extent {
    /// The least page number.
    pub first: u32,
    /// How many pages.
    pub count: u32,
    /// The class: latches are taken in rising classes.
    pub class: u8,
}

impl Extent {
    ghost use Rattle.pp_settings.specs.Layout.{has_page, shares_page};

    /// Whether the page is one of the region's.
    pub fn has(&self, page: u32) -> bool
        ensures { result ≡ has_page page self.now }
    {
        self.first <= page && u64::from(page) < u64::from(self.first) + u64::from(self.count)
    }

    /// Whether some page is in both.
    pub(crate) fn shares_page(&self, other: &Extent) -> bool
        ensures { result ≡ shares_page self.now other.now }
    {
        u64::from(self.first) < u64::from(other.first) + u64::from(other.count)
            && u64::from(other.first) < u64::from(self.first) + u64::from(self.count)
    }
}
