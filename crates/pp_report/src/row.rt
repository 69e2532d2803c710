//! What a report tells of a plan.

ghost use Rattle.std.specs.Prelude.{Some};

use pp_model::Ending;
use std::fmt;

/// A plan that was taken and ended.
#[derive(Clone, Copy)]
pub(crate) struct Row {
    /// The plan's number.
    pub plan: u64,
    /// The worker that took it.
    pub worker: u32,
    /// How many actions it did.
    pub steps: usize,
    /// How many of its fixes were of pages that were cached.
    pub hits: usize,
    /// How many of its fixes had their page loaded.
    pub loads: usize,
    /// How it ended.
    pub ending: Ending,
}

impl fmt::Display for Row {
    ghost use Rattle.pp_report.specs.Reports.{row_words};

    ghost output = { λ row. Some (row_words row) };

    fn fmt<W: fmt::Write>(&self, f: &mut fmt::Formatter<W>) -> fmt::Result {
        write!(
            f,
            "{:>5}{:>7}{:>9}{:>9}{:>9}  {}",
            self.plan, self.worker, self.steps, self.hits, self.loads, self.ending
        )
    }
}
