//! The turns of workers at plans.

ghost use Rattle.std.specs.Prelude.{◌≡◌, ℕ, ◌<◌, None, IfOk, EachIndex, length, drop, map, slice_index_or};
ghost use Rattle.std.specs.Prelude.{option_and_then};
ghost use Rattle.std.specs.List.{range_with_len};
ghost use Rattle.std.specs.Option.{option_or};
ghost use Rattle.pp_report.specs.Reports.{is_step, is_turn_end, taker, ending_in, row_after, row_of};

use crate::events::names_worker;
use crate::figure::Figure;
use crate::row::Row;
use pp_journal::Journal;
use pp_model::{Ending, Event, Move, Reply};
use std::alloc::{AllocError, Global};

/// Whether an action of a plan was done.
fn is_step(event: Event) -> bool
    ensures { result ≡ is_step event }
{
    let is_use = matches!(
        event,
        Event::Step {
            did: Move::Unfix { .. }
                | Move::Latch { .. }
                | Move::Unlatch { .. }
                | Move::Choose { .. },
            ..
        }
    );
    is_use || Figure::Hits.counts(event) || Figure::Loads.counts(event)
}

/// Whether a worker is done with what it did before.
fn is_turn_end(event: Event) -> bool
    ensures { result ≡ is_turn_end event }
{
    matches!(
        event,
        Event::Step {
            did: Move::Take { .. } | Move::Finish { .. },
            ..
        }
    )
}

/// How a finish ends the plan.
fn ending_in(event: Event) -> Option<Ending>
    ensures { result ≡ ending_in event }
{
    match event {
        Event::Step {
            did: Move::Finish { .. },
            reply: Reply::Finished(ending),
        } => Some(ending),
        _ => None,
    }
}

/// The row of the plan that the worker takes before the events from this place on, if its turn ends.
fn row_after(plan: u64, worker: u32, events: &Journal, from: usize) -> Option<Row>
    ensures { result ≡ row_after plan worker (drop from events.now.items) }
{
    let (mut steps, mut hits, mut loads) = (0, 0, 0);
    for place in from..events.len() {
        let event = events.event(place);
        if !names_worker(worker, event) {
            continue;
        }
        if is_turn_end(event) {
            let ending = ending_in(event)?;
            return Some(Row {
                plan,
                worker,
                steps,
                hits,
                loads,
                ending,
            });
        }
        steps += usize::from(is_step(event));
        hits += usize::from(Figure::Hits.counts(event));
        loads += usize::from(Figure::Loads.counts(event));
    }
    None
}

/// Where the event is the take of a plan that has no row yet, puts the plan's row in its place. The events after it are those
/// from this place on.
fn note(rows: &mut [Option<Row>], event: Event, events: &Journal, after: usize)
    ensures same_len { length rows.new ≡ length rows.old }
    ensures noted { EachIndex rows.old (λ k. slice_index_or rows.new k None
        ≡ option_or (slice_index_or rows.old k None)
        (option_and_then (λ worker. row_after k worker (drop after events.now.items)) (taker k event))) }
{
    let Event::Step {
        did: Move::Take { worker },
        reply: Reply::Taken { plan },
    } = event
    else {
        return;
    };
    let place = plan as usize;
    if place < rows.len() && rows[place].is_none() {
        rows[place] = row_after(plan, worker, events, after);
    }
}

/// What is told of each plan below this number, in their order.
pub(crate) fn rows(
    alloc: Global,
    plans: u16,
    events: &Journal,
) -> Result<Vec<Option<Row>>, AllocError>
    ensures { IfOk result (λ rows. rows.items ≡ map (λ k. row_of k events.now.items) (range_with_len 0 plans)) }
{
    let mut rows = vec![in alloc; None; usize::from(plans)]?;
    for place in 0..events.len() {
        note(&mut rows, events.event(place), events, place + 1);
    }
    Ok(rows)
}
