//! What the events of a journal come to.

ghost use Rattle.std.specs.Prelude.{◌≡◌, ◌∷◌, [], Some};
ghost use Rattle.pp_totals.specs.Counting.{is_submit, is_take, is_done, is_gone, totals_of, none_counted, capped_sum};

use pp_journal::Journal;
use pp_model::{Ending, Event, Reply};
use pp_report::Figure;
use std::fmt;

/// What the events of a journal come to: of a whole life, or of any part of it, as a segment.
///
/// An endless life has no report, since nothing lists all its plans, and no memory holds its journal. Its host adds
/// the totals of each segment to those before it:
///
/// ```text
/// totals = totals.saturating_add(Totals::of(segment.events()));
/// ```
///
/// Then at any time each plan that was submitted was taken or waits, and each that was taken was done, is gone or is
/// with a worker; see [`plans_are_accounted`](crate::laws::plans_are_accounted).
///
/// It is printed in 12 lines, each ended by a line feed, in the columns of a report's figures.
#[derive(Clone, Copy, Debug, Default, PartialEq, Eq)]
pub struct Totals {
    /// The plans that were submitted.
    pub submitted: u64,
    /// The plans that a worker took.
    pub taken: u64,
    /// The plans that a worker did to their end.
    pub done: u64,
    /// The plans that a worker left before their end, after a fix that failed.
    pub gone: u64,
    /// The moves: all events but the submits.
    pub moves: u64,
    /// The fixes of pages that were cached.
    pub hits: u64,
    /// The fixes whose page was read.
    pub loads: u64,
    /// The readings that failed.
    pub read_faults: u64,
    /// The readings that gave another page or stamp.
    pub misreads: u64,
    /// The victims that were written back.
    pub write_backs: u64,
    /// The writings that failed.
    pub write_faults: u64,
    /// The flushes that went well.
    pub flushes: u64,
}

/// Whether a plan was submitted.
fn is_submit(event: Event) -> bool
    ensures { result ≡ is_submit event }
{
    matches!(event, Event::Submit { .. })
}

/// Whether a plan was taken.
fn is_take(event: Event) -> bool
    ensures { result ≡ is_take event }
{
    matches!(
        event,
        Event::Step {
            reply: Reply::Taken { .. },
            ..
        }
    )
}

/// Whether a plan was done to its end.
fn is_done(event: Event) -> bool
    ensures { result ≡ is_done event }
{
    matches!(
        event,
        Event::Step {
            reply: Reply::Finished(Ending::Done),
            ..
        }
    )
}

/// Whether a plan was left before its end.
fn is_gone(event: Event) -> bool
    ensures { result ≡ is_gone event }
{
    matches!(
        event,
        Event::Step {
            reply: Reply::Finished(Ending::Gone),
            ..
        }
    )
}

impl Totals {
    /// The totals of no events: each is 0.
    pub fn new() -> Totals
        ensures { result ≡ none_counted }
    {
        Totals {
            submitted: 0,
            taken: 0,
            done: 0,
            gone: 0,
            moves: 0,
            hits: 0,
            loads: 0,
            read_faults: 0,
            misreads: 0,
            write_backs: 0,
            write_faults: 0,
            flushes: 0,
        }
    }

    /// The totals of these events. It goes over them once.
    pub fn of(events: &Journal) -> Totals
        ensures { result ≡ totals_of events.now.items }
    {
        events.known();
        let mut totals = Totals::new();
        for place in 0..events.len() {
            let event = events.event(place);
            totals = totals.saturating_add(Totals::of_event(event));
        }
        totals
    }

    /// The sums of two totals. A sum of 2^64 or more is told as 2^64 - 1.
    ///
    /// Segments of a life never come to that: a life has at most 2^62 events, and of fewer than 2^64 events the
    /// sums are the totals ([`totals_add_up`](crate::laws::totals_add_up), [`lives_are_short`](crate::laws::lives_are_short)).
    pub fn saturating_add(self, other: Totals) -> Totals
        ensures { result ≡ capped_sum self other }
    {
        Totals {
            submitted: self.submitted.saturating_add(other.submitted),
            taken: self.taken.saturating_add(other.taken),
            done: self.done.saturating_add(other.done),
            gone: self.gone.saturating_add(other.gone),
            moves: self.moves.saturating_add(other.moves),
            hits: self.hits.saturating_add(other.hits),
            loads: self.loads.saturating_add(other.loads),
            read_faults: self.read_faults.saturating_add(other.read_faults),
            misreads: self.misreads.saturating_add(other.misreads),
            write_backs: self.write_backs.saturating_add(other.write_backs),
            write_faults: self.write_faults.saturating_add(other.write_faults),
            flushes: self.flushes.saturating_add(other.flushes),
        }
    }

    /// The totals of one event.
    fn of_event(event: Event) -> Totals
        ensures { result ≡ totals_of (event ∷ []) }
    {
        Totals {
            submitted: u64::from(is_submit(event)),
            taken: u64::from(is_take(event)),
            done: u64::from(is_done(event)),
            gone: u64::from(is_gone(event)),
            moves: u64::from(Figure::Moves.counts(event)),
            hits: u64::from(Figure::Hits.counts(event)),
            loads: u64::from(Figure::Loads.counts(event)),
            read_faults: u64::from(Figure::ReadFaults.counts(event)),
            misreads: u64::from(Figure::Misreads.counts(event)),
            write_backs: u64::from(Figure::WriteBacks.counts(event)),
            write_faults: u64::from(Figure::WriteFaults.counts(event)),
            flushes: u64::from(Figure::Flushes.counts(event)),
        }
    }
}

impl fmt::Display for Totals {
    ghost use Rattle.pp_totals.specs.Counting.{totals_text};

    ghost output = { λ totals. Some (totals_text totals) };

    fn fmt<W: fmt::Write>(&self, f: &mut fmt::Formatter<W>) -> fmt::Result {
        write!(
            f,
            "submitted   {:>9}\n\
             taken       {:>9}\n\
             done        {:>9}\n\
             gone        {:>9}\n",
            self.submitted, self.taken, self.done, self.gone
        )?;
        write!(
            f,
            "moves       {:>9}\n\
             hits        {:>9}\n\
             loads       {:>9}\n\
             readfaults  {:>9}\n",
            self.moves, self.hits, self.loads, self.read_faults
        )?;
        write!(
            f,
            "misreads    {:>9}\n\
             writebacks  {:>9}\n\
             writefaults {:>9}\n\
             flushes     {:>9}\n",
            self.misreads, self.write_backs, self.write_faults, self.flushes
        )
    }
}
