//! What a run leaves.

use pp_journal::Journal;

/// What was done in a run: the journal of the pool, and what is left of it.
#[derive(Drop)]
pub struct RunRecord {
    /// How many plans were run.
    pub plans: u16,
    /// All events, the first of them first. They are a true journal of the run's settings and plans.
    pub events: Journal,
    /// How many pages are newer than the device's at the end.
    pub dirty: u32,
}
