//! A run of moves of the core, and its journal.

use crate::common::same;
use pp_core::Core;
use pp_model::Came::Image;
use pp_model::Move::{Finish, Fix, ReadDone, Take, Unfix};
use pp_model::{Event, Move, Reply};
use pp_report::journal_text;
use pp_settings::Settings;
use pp_test_plain::accepted;
use pp_test_plain::samples::{SETTINGS, TOUCH, TOUCHED};
use std::alloc::{AllocError, Global};
use std::process::Abort;
use std::test::Fail;

/// The plan from its begin to its end.
static MOVES: [Move; 5] = [
    Take { worker: 0 },
    Fix { worker: 0, page: 1 },
    ReadDone {
        worker: 0,
        came: Image(1, 0),
    },
    Unfix { worker: 0 },
    Finish { worker: 0 },
];

/// The number that the core gives the plan, and its replies to the moves.
fn run(rt: &impl Abort, alloc: Global) -> Result<(u64, Vec<Reply>), Fail> {
    let settings = Settings::from_text(alloc, SETTINGS)?;
    let plan = accepted(alloc, &settings, TOUCH)?;
    let mut core = Core::new(alloc, &settings)?;
    let Ok(id) = core.submit(plan) else {
        panic!(rt; "not taken in")
    };
    let mut replies = Vec::new(alloc);
    core.run(&MOVES, &mut replies)?;
    Ok((id.number(), replies))
}

/// The submit of the plan, and each move with its reply.
fn events_of(alloc: Global, plan: u64, replies: &[Reply]) -> Result<Vec<Event>, AllocError> {
    let mut events = Vec::new(alloc);
    events.push(Event::Submit { plan })?;
    for (did, reply) in MOVES.iter().zip(replies.iter()) {
        events.push(Event::Step {
            did: *did,
            reply: *reply,
        })?;
    }
    Ok(events)
}

#[test]
fn a_run_of_moves_has_its_journal(rt: HostRuntime) -> Result<(), Fail> {
    let (plan, replies) = run(&rt, rt.alloc())?;
    let events = events_of(rt.alloc(), plan, &replies)?;
    let text = journal_text(rt.alloc(), &events)?;
    same(&rt, text.as_str(), TOUCHED);
    Ok(())
}
