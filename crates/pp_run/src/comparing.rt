//! Whether the logs of workers are their parts of a journal, which is gone over once for all of them.

ghost use Rattle.std.specs.Prelude.{◌≡◌, ◌↔◌, ◌+◌, ◌^◌, ◌<◌, ℕ, List, true, Some, slice_get, slice_index_or, length};
ghost use Rattle.pp_model.specs.declared.event.Event.{Event};
ghost use Rattle.pp_model.specs.WorkerParts.{part_of, names_worker};
ghost use Rattle.pp_run.specs.Agreeing.{Agrees, AllAgree};

use crate::stop::Worked;
use pp_pool::Journal;
use pp_report::names_worker;
use pp_settings::limits::FIRST_WORKERS;

/// How many logs are compared in one pass: as many as a pool of version 1 has workers. Each has a count in an array; the
/// logs of more workers are gone over one by one.
const TOGETHER: usize = FIRST_WORKERS as usize;

/// How many events of each of the first logs are those of its worker's part; `None` of a log that isn't that part.
pub(crate) type Agreement = [Option<usize>; TOGETHER];

/// How far the logs agree with their workers' parts of these events.
pub(crate) fn agreement<D>(worked: &[Worked<D>], events: &Journal) -> Agreement
    ensures { AllAgree result worked.now events.now.items (length events.now.items) }
{
    let mut counts = [Some(0); TOGETHER];
    for place in 0..events.len() {
        compare(&mut counts, worked, events, place);
    }
    counts
}

/// Compares one more event, which stands at this place, with the log of its worker.
#[inline(always)]
fn compare<D>(counts: &mut Agreement, worked: &[Worked<D>], events: &Journal, place: usize)
    requires { place < length events.now.items }
    ensures { AllAgree counts.old worked.now events.now.items place
        → AllAgree counts.new worked.now events.now.items (place + 1) }
{
    let Some(worker) = events.worker(place) else {
        return;
    };
    let worker = worker as usize;
    if worker < TOGETHER && worker < worked.len() {
        counts[worker] = after(counts[worker], &worked[worker].log, events, place);
    }
}

/// How far the log agrees with its worker's part after one more event of that part, which stands at this place.
#[inline(always)]
fn after(count: Option<usize>, log: &Journal, events: &Journal, place: usize) -> Option<usize>
    ensures { (worker : ℕ) (event : Event) → slice_get events.now.items place ≡ Some event
        → names_worker worker event ≡ true → Agrees count log.now.items worker events.now.items place
        → Agrees result log.now.items worker events.now.items (place + 1) }
{
    match count {
        Some(next) if stands_at(log, next, events, place) => Some(next + 1),
        _ => None,
    }
}

/// Whether the log is the worker's part of these events. That of a worker beyond those that are compared together is
/// compared alone.
pub(crate) fn is_part(counts: &Agreement, log: &Journal, events: &Journal, worker: u32) -> bool
    requires { (c : _) → worker < length counts.now
        → Agrees (slice_index_or counts.now worker c) log.now.items worker events.now.items (length events.now.items) }
    ensures { (result ≡ true) ↔ (log.now.items ≡ part_of worker events.now.items) }
{
    match counts.get(worker as usize) {
        Some(count) => *count == Some(log.len()),
        None => is_part_alone(log, events, worker),
    }
}

/// Whether the log has the events that name the worker, in their order, and nothing else.
fn is_part_alone(log: &Journal, events: &Journal, worker: u32) -> bool
    ensures { (result ≡ true) ↔ (log.now.items ≡ part_of worker events.now.items) }
{
    let mut next = 0;
    for place in 0..events.len() {
        let event = events.event(place);
        if names_worker(worker, event) {
            if !stands_at(log, next, events, place) {
                return false;
            }
            next += 1;
        }
    }
    next == log.len()
}

/// Whether the event at a place of the journal stands at this place of the log.
#[inline(always)]
fn stands_at(log: &Journal, at: usize, events: &Journal, place: usize) -> bool
    ensures same { (event : Event) → slice_get events.now.items place ≡ Some event
        → (result ≡ true) ↔ (slice_get log.now.items at ≡ Some event) }
    ensures counted { result ≡ true → at + 1 < 2 ^ 64 }
{
    log.known();
    log.is_same(at, events, place)
}
