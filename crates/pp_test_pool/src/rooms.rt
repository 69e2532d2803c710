//! A worker whose log is taken out while an errand is in hand.

use crate::noting::{Noting, Picks, note};
use crate::stand::{
    Stand, close, disk_of, hand_of, note_turn, plan_of, push_text, put_back, same_text,
    settings_of, stand_of, submits, text_of,
};
use pp_pool::{Journal, OwnSite, Turned, Worker};
use pp_settings::Settings;
use pp_test_plain::samples::{SETTINGS, WRITE};
use pp_vault::Stage;
use std::alloc::Global;
use std::mem;
use std::process::Abort;
use std::test::*;

/// What came of a plan where the log was taken out while an errand was in hand.
#[derive(Drop)]
struct WithoutLog {
    /// How the turns ended.
    turns: String,
    /// How many events the turn added that found the log empty.
    added: usize,
    /// Whether an errand was in hand before, and the worker acted in its plan then.
    is_answered: bool,
    /// What was logged before and after, and the journal.
    before: Journal,
    after: Journal,
    journal: Journal,
}

/// Takes so many turns.
fn turn(
    worker: &mut Worker<OwnSite, crate::stand::Disk>,
    work: &mut Noting,
    count: u32,
    turns: &mut String,
) {
    for _turn in 0..count {
        let turned = worker.turn(work);
        note_turn(turns, turned);
    }
}

/// The worker takes its plan and asks a fix; then its log is taken out, and it makes six turns.
fn log_taken(rt: &impl Abort, alloc: Global, settings: &Settings, stand: Stand) -> WithoutLog {
    let Stand {
        book,
        mut hands,
        device,
    } = stand;
    let hand = hand_of(rt, &mut hands, 0);
    let mut work = Noting::new(alloc, Picks::First, usize::MAX);
    let mut turns = String::new(alloc);
    let mut worker = Worker::new(alloc, OwnSite { book }, device, hand, settings);
    turn(&mut worker, &mut work, 2, &mut turns);
    let is_out = matches!(&worker.hand.stage, Stage::Out(_));
    let before = mem::replace(&mut worker.log, Journal::new(alloc));
    turn(&mut worker, &mut work, 1, &mut turns);
    let added = worker.log.len();
    let is_answered = is_out && matches!(&worker.hand.stage, Stage::In(_));
    turn(&mut worker, &mut work, 5, &mut turns);
    let (OwnSite { book }, device, hand, after) = worker.end();
    put_back(rt, &mut hands, hand);
    let journal = close(Stand {
        book,
        hands,
        device,
    });
    WithoutLog {
        turns,
        added,
        is_answered,
        before,
        after,
        journal,
    }
}

/// An errand in hand is sent though the log has no room. Its event is in the log where there is memory for it; where there
/// is none, which an allocation that is refused shows, the turn is broken, and the event is in the journal alone.
#[test]
fn an_errand_is_sent_though_the_log_was_taken_out(rt: HostRuntime) {
    let alloc: Global = rt.alloc();
    let settings = settings_of(&rt, alloc, SETTINGS);
    let device = disk_of(&rt, alloc, 24, 64, 0);
    let mut stand = stand_of(&rt, alloc, &settings, device);
    let plan = plan_of(&rt, alloc, &settings, WRITE);
    submits(&rt, &mut stand.book, plan, 0);
    let came = log_taken(&rt, alloc, &settings, stand);
    if !came.is_answered {
        panic!(rt; "the errand was not sent");
    }
    let (turns, lost) = if came.added == 0 {
        ("ddbdddde", "came 0 16 0 = loaded 0\n")
    } else {
        ("ddddddde", "")
    };
    same_text(&rt, "the turns", &came.turns, turns);
    let mut want = String::new(alloc);
    push_text(&rt, &mut want, "submit 0 = queued\n");
    push_text(&rt, &mut want, &text_of(&rt, alloc, &came.before));
    push_text(&rt, &mut want, lost);
    push_text(&rt, &mut want, &text_of(&rt, alloc, &came.after));
    same_text(
        &rt,
        "the journal",
        &text_of(&rt, alloc, &came.journal),
        &want,
    );
    if came.before.len() != 2 {
        panic!(rt; "{} events before", came.before.len());
    }
}
