//! A plan that a pool keeps.

ghost use Rattle.std.specs.Prelude.{◌≡◌};

use pp_vault::Prepared;

/// A plan that a pool keeps, so that it can be run as often as wanted, also by several threads at once.
///
/// It is of the pool that prepared it. Another pool takes it for the plan that it keeps at the same place, if there is
/// one.
#[derive(Clone, Copy, Debug, PartialEq, Eq)]
pub struct PreparedPlan {
    pub(crate) prepared: Prepared,
    // The most pages that it holds at once, and the most events that it makes.
    pub(crate) peak: u64,
    pub(crate) cost: u64,
}

impl PreparedPlan {
    /// The most pages that the plan holds at once: so many frames are kept for it while it runs.
    pub fn peak(&self) -> u64
        ensures { result ≡ self.now.peak }
    {
        self.peak
    }

    /// The most events that the plan makes. A thread gets memory for so many before it takes the plan.
    pub fn cost(&self) -> u64
        ensures { result ≡ self.now.cost }
    {
        self.cost
    }
}
