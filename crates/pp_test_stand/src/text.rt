//! The text of a segment that was taken out.

ghost use Rattle.std.specs.Prelude.{◌≡◌, count_by};
ghost use Rattle.pp_segments.specs.Segments.{is_submit};

use pp_ledger::Segment;
use pp_pool::{Event, Journal};
use pp_segments::segment_text;
use std::alloc::Global;

/// The text of the segment.
///
/// # Errors
///
/// Where it doesn't name as many prepared plans as it has submits, or memory runs out.
pub fn text_of(alloc: Global, segment: &Segment) -> anyhow::Result<String> {
    let (events, prepared) = (segment.events(), segment.prepared());
    let submits = submits(events);
    if submits != prepared.len() {
        anyhow::bail!("{submits} submits and {} places", prepared.len());
    }
    let (number, before) = (segment.number(), segment.plans_before());
    Ok(segment_text(alloc, number, before, events, prepared)?)
}

/// How many of the events are submits.
fn submits(events: &Journal) -> usize
    ensures { result ≡ count_by is_submit events.now.items }
{
    events.iter().filter(|event| is_submit(event)).count()
}

/// Whether the event is that a plan was taken in.
fn is_submit(event: &Event) -> bool
    ensures { result ≡ is_submit event.now }
{
    matches!(event, Event::Submit { .. })
}
