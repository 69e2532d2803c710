//! Plans that are kept.

use pp_vault::Prepared;

/// A plan that is kept, so that it can be run as often as wanted.
#[derive(Clone, Copy, Debug, PartialEq, Eq)]
pub struct KeptPlan {
    pub(crate) prepared: Prepared,
    /// The most pages that it holds at once.
    pub peak: u64,
    /// The most events that it makes.
    pub cost: u64,
}
