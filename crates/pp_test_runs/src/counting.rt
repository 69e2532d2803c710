//! How many of a thing there are after a run.

use crate::board::Board;
use crate::case::Thing;
use pp_model::{Ending, Event, Move, Reply};
use pp_report::Journal;
use pp_run::RunRecord;

/// How many of the thing the run has told, or its record has.
pub fn number_of(board: &Board, record: &RunRecord, thing: Thing) -> u64 {
    match thing {
        Thing::Events => record.events.len() as u64,
        Thing::Dirty => u64::from(record.dirty),
        Thing::Loads
        | Thing::Hits
        | Thing::Done
        | Thing::Gone
        | Thing::GoneElsewhere
        | Thing::Strays => count(&record.events, thing),
        _ => board.number(thing),
    }
}

/// How many events tell of the thing.
pub fn count(events: &Journal, thing: Thing) -> u64 {
    let mut count = 0u64;
    for event in events {
        if is_of(&event, thing) {
            count = count.saturating_add(1);
        }
    }
    count
}

/// Whether the event tells of the thing.
fn is_of(event: &Event, thing: Thing) -> bool {
    match event {
        Event::Step { did, reply } => is_step_of(did, reply, thing),
        _ => false,
    }
}

fn is_step_of(did: &Move, reply: &Reply, thing: Thing) -> bool {
    match thing {
        Thing::Loads => matches!(reply, Reply::Loaded { .. }),
        Thing::Hits => matches!(reply, Reply::Hit { .. }),
        Thing::Done => matches!(reply, Reply::Finished(Ending::Done)),
        Thing::Gone => matches!(reply, Reply::Finished(Ending::Gone)),
        Thing::GoneElsewhere => {
            matches!(reply, Reply::Finished(Ending::Gone))
                && !matches!(did, Move::Finish { worker: 0 })
        }
        Thing::Strays => strays(did),
        _ => false,
    }
}

/// Whether the move is a fix of another page than its worker's own.
fn strays(did: &Move) -> bool {
    match did {
        Move::Fix { worker, page } => *page != *worker && *page != worker.wrapping_add(16),
        _ => false,
    }
}
