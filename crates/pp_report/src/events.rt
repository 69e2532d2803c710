//! Whose move an event is, and how large its numbers are.

ghost use Rattle.std.specs.Prelude.{◌≡◌, map};
ghost use Rattle.std.specs.List.{AllByRecursion};
ghost use Rattle.pp_model.specs.WorkerParts.{worker_of, names_worker};
ghost use Rattle.pp_report.specs.Lines.{HasNumbers};

use pp_journal::Journal;
use pp_model::{Event, Move};

/// The worker that the move names, if any.
pub fn worker_of(did: Move) -> Option<u32>
    ensures { result ≡ worker_of did }
{
    match did {
        Move::Take { worker }
        | Move::Fix { worker, .. }
        | Move::WriteDone { worker, .. }
        | Move::ReadDone { worker, .. }
        | Move::Unfix { worker }
        | Move::Latch { worker }
        | Move::Unlatch { worker }
        | Move::Choose { worker, .. }
        | Move::Unwind { worker, .. }
        | Move::Finish { worker } => Some(worker),
        Move::FlushBegin { .. } | Move::FlushDone { .. } => None,
    }
}

/// Whether the event is a move of this worker.
pub fn names_worker(worker: u32, event: Event) -> bool
    ensures { result ≡ names_worker worker event }
{
    match event {
        Event::Submit { .. } => false,
        Event::Step { did, .. } => worker_of(did) == Some(worker),
    }
}

/// The numbers of an event have as many bits as their types. It does nothing: its contract is what is known.
fn has_numbers(_event: Event)
    ensures { HasNumbers _event }
{}

/// The same of all events of a journal.
pub(crate) fn have_numbers(events: &Journal)
    ensures { AllByRecursion HasNumbers events.now.items }
{
    for place in 0..events.len() {
        has_numbers(events.event(place));
    }
}

/// The same of all events of these journals.
pub(crate) fn each_has_numbers(journals: &[Journal])
    ensures { AllByRecursion (AllByRecursion HasNumbers) (map (λ events. events.items) journals.now) }
{
    for events in journals {
        have_numbers(events);
    }
}
