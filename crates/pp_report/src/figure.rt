//! The figures of a report.

ghost use Rattle.std.specs.Prelude.{◌≡◌};
ghost use Rattle.pp_report.specs.Reports.{counts, figure_name, figure_of};

use crate::record::RunRecord;
use pp_model::{Came, Event, Failure, Move, Reply};

/// What is told of a whole run.
#[derive(Clone, Copy)]
pub enum Figure {
    /// The moves.
    Moves,
    /// The fixes of pages that were cached.
    Hits,
    /// The fixes whose page was read.
    Loads,
    /// The readings that failed.
    ReadFaults,
    /// The readings that gave another page or stamp.
    Misreads,
    /// The victims that were written back.
    WriteBacks,
    /// The writings that failed.
    WriteFaults,
    /// The flushes that went well.
    Flushes,
    /// The pages that are newer than the device's in the end.
    Dirty,
}

/// The figures of a report, in their order.
pub const FIGURES: [Figure; 9] = [
    Figure::Moves,
    Figure::Hits,
    Figure::Loads,
    Figure::ReadFaults,
    Figure::Misreads,
    Figure::WriteBacks,
    Figure::WriteFaults,
    Figure::Flushes,
    Figure::Dirty,
];

impl Figure {
    /// The name of the figure in a report.
    pub fn name(self) -> &'static str
        ensures { result.now ≡ figure_name self }
    {
        match self {
            Figure::Moves => "moves",
            Figure::Hits => "hits",
            Figure::Loads => "loads",
            Figure::ReadFaults => "readfaults",
            Figure::Misreads => "misreads",
            Figure::WriteBacks => "writebacks",
            Figure::WriteFaults => "writefaults",
            Figure::Flushes => "flushes",
            Figure::Dirty => "dirty",
        }
    }

    /// Whether the event counts for the figure. None counts for the dirty pages, which are counted at the end.
    pub fn counts(self, event: Event) -> bool
        ensures { result ≡ counts self event }
    {
        let Event::Step { did, reply } = event else {
            return false;
        };
        match self {
            Figure::Moves => true,
            Figure::Hits => matches!(reply, Reply::Hit { .. }),
            Figure::Loads => matches!(reply, Reply::Loaded { .. }),
            Figure::ReadFaults => matches!(
                did,
                Move::ReadDone {
                    came: Came::Fault,
                    ..
                }
            ),
            Figure::Misreads => matches!(reply, Reply::Failed(Failure::Misread)),
            Figure::WriteBacks => matches!(did, Move::WriteDone { ok: true, .. }),
            Figure::WriteFaults => matches!(
                did,
                Move::WriteDone { ok: false, .. } | Move::FlushDone { ok: false }
            ),
            Figure::Flushes => matches!(did, Move::FlushDone { ok: true }),
            Figure::Dirty => false,
        }
    }

    /// What the figure comes to.
    pub(crate) fn of(self, run: &RunRecord) -> usize
        ensures { result ≡ figure_of run.now self }
    {
        if let Figure::Dirty = self {
            return run.dirty as usize;
        }
        let mut number = 0;
        let events = &run.events;
        for place in 0..events.len() {
            number += usize::from(self.counts(events.event(place)));
        }
        number
    }
}
