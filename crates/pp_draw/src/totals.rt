//! The figures of a report, as they are counted event by event.

ghost use Rattle.std.specs.Prelude.{◌≡◌, ◌+◌, ◌<◌, ◌^◌, if◌then◌else◌};
ghost use Rattle.pp_report.specs.declared.figure.Figure.{Figure};
ghost use Rattle.pp_report.specs.Reports.{counts};
ghost use Rattle.pp_draw.specs.Counted.{total_of};

use pp_model::Event;
use pp_report::Figure;

/// What is counted for each figure of a report but the dirty pages, for which no event counts.
#[derive(Clone, Copy)]
pub struct Totals {
    pub moves: u64,
    pub hits: u64,
    pub loads: u64,
    pub read_faults: u64,
    pub misreads: u64,
    pub write_backs: u64,
    pub write_faults: u64,
    pub flushes: u64,
}

impl Totals {
    /// Of no events.
    pub(crate) fn none() -> Totals
        ensures { (f : Figure) → total_of result f ≡ 0 }
    {
        Totals {
            moves: 0,
            hits: 0,
            loads: 0,
            read_faults: 0,
            misreads: 0,
            write_backs: 0,
            write_faults: 0,
            flushes: 0,
        }
    }

    /// What is counted for the figure; 0 for the dirty pages.
    pub fn of(self, figure: Figure) -> u64
        ensures { result ≡ total_of self figure }
    {
        match figure {
            Figure::Moves => self.moves,
            Figure::Hits => self.hits,
            Figure::Loads => self.loads,
            Figure::ReadFaults => self.read_faults,
            Figure::Misreads => self.misreads,
            Figure::WriteBacks => self.write_backs,
            Figure::WriteFaults => self.write_faults,
            Figure::Flushes => self.flushes,
            Figure::Dirty => 0,
        }
    }

    /// Of one event more.
    pub(crate) fn with(self, event: Event) -> Totals
        requires { (f : Figure) → total_of self f + 1 < 2 ^ 64 }
        ensures { (f : Figure) → total_of result f ≡ total_of self f + (if counts f event then 1 else 0) }
    {
        Totals {
            moves: more(self.moves, Figure::Moves.counts(event)),
            hits: more(self.hits, Figure::Hits.counts(event)),
            loads: more(self.loads, Figure::Loads.counts(event)),
            read_faults: more(self.read_faults, Figure::ReadFaults.counts(event)),
            misreads: more(self.misreads, Figure::Misreads.counts(event)),
            write_backs: more(self.write_backs, Figure::WriteBacks.counts(event)),
            write_faults: more(self.write_faults, Figure::WriteFaults.counts(event)),
            flushes: more(self.flushes, Figure::Flushes.counts(event)),
        }
    }
}

/// One more, where the event counts.
fn more(count: u64, counts: bool) -> u64
    requires { count + 1 < 2 ^ 64 }
    ensures { result ≡ count + (if counts then 1 else 0) }
{
    count + u64::from(counts)
}
