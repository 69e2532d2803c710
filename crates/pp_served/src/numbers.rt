//! How large the numbers of segments are. The functions do nothing: their contracts are what is known.

ghost use Rattle.std.specs.Prelude.{◌<◌, ◌^◌};
ghost use Rattle.std.specs.List.{AllByRecursion};
ghost use Rattle.pp_report.specs.Lines.{HasNumbers};
ghost use Rattle.pp_served.specs.Texts.{IsPlace, HasAllNumbers};

use pp_journal::Journal;
use pp_ledger::Segment;
use pp_model::Event;

/// The numbers of an event have as many bits as their types.
fn has_numbers(_event: Event)
    ensures { HasNumbers _event }
{}

/// The same of all events of a journal.
fn have_numbers(events: &Journal)
    ensures { AllByRecursion HasNumbers events.now.items }
{
    for place in 0..events.len() {
        has_numbers(events.event(place));
    }
}

/// A place has 32 bits.
fn is_place(_place: u32)
    ensures { IsPlace _place }
{}

/// The same of all these places.
fn are_places(places: &[u32])
    ensures { AllByRecursion IsPlace places.now }
{
    for place in 0..places.len() {
        is_place(places[place]);
    }
}

/// Numbers of segments and of plans have 64 bits.
fn is_wide(_number: u64)
    ensures { _number < 2 ^ 64 }
{}

/// The numbers of a segment have as many bits as their types.
pub(crate) fn has_all_numbers(segment: &Segment)
    ensures { HasAllNumbers segment.now }
{
    is_wide(segment.number());
    is_wide(segment.plans_before());
    are_places(segment.prepared());
    have_numbers(segment.events());
}
