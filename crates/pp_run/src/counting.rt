//! What a journal tells of flushes.

ghost use Rattle.std.specs.Prelude.{◌≡◌, ◌+◌, ◌^◌, ◌<◌, ◌≤◌, Some};
ghost use Rattle.pp_pool.specs.Flushings.{from_after as from_then};
ghost use Rattle.pp_run.specs.Calling.{ended_flushes_in, failed_flushes_in, begun_flushes_in, sought_behind};
ghost use Rattle.pp_run.specs.Calling.{at_event, ended_flushes_of, failed_flushes_of, begun_flushes_of};

use pp_model::{Event, Move};
use pp_pool::Journal;

/// How many flushes some events tell of.
#[derive(Clone, Copy, Debug, PartialEq, Eq)]
pub(crate) struct FlushCounts {
    /// How many were begun.
    pub begun: usize,
    /// How many were ended.
    pub ended: usize,
    /// How many of these had failed.
    pub failed: usize,
}

/// What these events tell of flushes.
pub(crate) fn flush_counts(events: &Journal) -> FlushCounts
    ensures begun { result.begun ≡ begun_flushes_in events.now.items }
    ensures ended { result.ended ≡ ended_flushes_in events.now.items }
    ensures failed { result.failed ≡ failed_flushes_in events.now.items }
{
    let mut counts = FlushCounts {
        begun: 0,
        ended: 0,
        failed: 0,
    };
    for place in 0..events.len() {
        let event = events.event(place);
        counts = counted(counts, event);
    }
    counts
}

/// The numbers with what one event more tells.
fn counted(counts: FlushCounts, event: Event) -> FlushCounts
    requires { (counts.begun + 1 < 2 ^ 64) × (counts.ended + 1 < 2 ^ 64) × (counts.failed + 1 < 2 ^ 64) }
    ensures begun { result.begun ≡ counts.begun + at_event begun_flushes_of event }
    ensures ended { result.ended ≡ counts.ended + at_event ended_flushes_of event }
    ensures failed { result.failed ≡ counts.failed + at_event failed_flushes_of event }
    ensures one { (result.begun ≤ counts.begun + 1) × (result.ended ≤ counts.ended + 1) × (result.failed ≤ counts.failed + 1) }
{
    let mut counts = counts;
    match event {
        Event::Step {
            did: Move::FlushBegin { .. },
            ..
        } => counts.begun += 1,
        Event::Step {
            did: Move::FlushDone { ok },
            ..
        } => {
            counts.ended += 1;
            if !ok {
                counts.failed += 1;
            }
        }
        _ => {}
    }
    counts
}

/// The page number from which the next flush is sought behind these events, where it was sought from this one before them.
pub(crate) fn sought_from(events: &Journal, from: u32) -> u32
    ensures { result ≡ sought_behind from events.now.items }
{
    let mut sought = from;
    for place in 0..events.len() {
        let event = events.event(place);
        sought = from_after(sought, event);
    }
    sought
}

/// Where the next flush is sought behind this event.
fn from_after(from: u32, event: Event) -> u32
    ensures { result ≡ from_then from (Some event) }
{
    match event {
        Event::Step {
            did: Move::FlushBegin { page },
            ..
        } => page.saturating_add(1),
        _ => from,
    }
}
