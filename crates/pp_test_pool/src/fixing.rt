//! A reading in two calls: of a page that isn't cached, of one that is on its way, and of one that is cached.

use crate::stand::{
    Disk, Stand, close, disk_of, hand_of, plan_of, put_back, same_text, settings_of, stand_of,
    submits, text_of,
};
use pp_pool::{Book, BookAnswer, Request, Response};
use pp_test_plain::samples::{READ, SETTINGS};
use pp_vault::{Errand, Guard, Guards, Hand, Hands, PinGuard, Session, Stage};
use std::alloc::Global;
use std::process::Abort;
use std::test::*;

/// What the book notes.
const FIXED: &str = "submit 0 = queued
submit 1 = queued
take 1 = taken 0
take 0 = taken 1
fix 1 17 = mustread 0
came 1 17 0 = loaded 0
fix 0 17 = hit 0 0
latch 0 = latched 0
unlatch 0 = unlatched 0
unfix 0 = did
";

/// What a request comes to.
fn answer(book: &mut Book, request: Request) -> BookAnswer {
    let Response { event: _, answer } = book.perform(request);
    answer
}

/// The worker takes the first plan that waits.
fn takes(rt: &impl Abort, stand: &mut Stand, worker: u32) -> (Session, Guards) {
    let Hand { stage, guards } = hand_of(rt, &mut stand.hands, worker);
    let chair = match stage {
        Stage::Idle(chair) => chair,
        _ => panic!(rt; "not idle"),
    };
    match answer(&mut stand.book, Request::Take(chair)) {
        BookAnswer::Acts(session) => (session, guards),
        _ => panic!(rt; "no plan"),
    }
}

/// The page isn't cached, and gets frame 0.
fn misses(rt: &impl Abort, book: &mut Book, session: Session) -> Errand {
    let session = is_refused(rt, book, session);
    match answer(book, Request::Fix(session, 17)) {
        BookAnswer::Away(errand) => errand,
        _ => panic!(rt; "no errand"),
    }
}

/// The session comes back.
fn is_refused(rt: &impl Abort, book: &mut Book, session: Session) -> Session {
    match book.read(session, 17) {
        Ok(_) => panic!(rt; "read"),
        Err(back) => back,
    }
}

/// The page is in frame 0, with mark 0, and is read and given back.
fn hits(rt: &impl Abort, book: &mut Book, session: Session) -> Session {
    let (session, guard) = match book.read(session, 17) {
        Ok((session, guard, frame)) => {
            if (guard.page(), guard.mark(), frame) != (17, 0, 0) {
                panic!(rt;
                    "page {}, mark {}, frame {frame}",
                    guard.page(),
                    guard.mark()
                );
            }
            (session, guard)
        }
        Err(_) => panic!(rt; "refused"),
    };
    match book.end_read(session, guard) {
        Ok((session, mark)) => {
            if mark != 0 {
                panic!(rt; "mark {mark}");
            }
            session
        }
        Err(_) => panic!(rt; "still read"),
    }
}

/// The device reads the errand's page.
fn reads(
    rt: &impl Abort,
    book: &mut Book,
    errand: Errand,
    device: &mut Disk,
) -> (Session, PinGuard) {
    match answer(book, Request::Answer(errand.carry_out(device))) {
        BookAnswer::Pinned(session, guard) => (session, guard),
        _ => panic!(rt; "not read"),
    }
}

/// The worker's tokens go back.
fn gives_back(rt: &impl Abort, hands: &mut Hands, session: Session, guards: Guards) {
    let stage = Stage::In(session);
    put_back(rt, hands, Hand { stage, guards });
}

/// Puts a page's guard to the others.
fn puts(rt: &impl Abort, guards: &mut Guards, guard: PinGuard) {
    match guards.put(Guard::Pin(guard)) {
        Ok(()) => {}
        Err(_) => panic!(rt; "the slot has a guard"),
    }
}

/// A reading is refused of a page that isn't cached, and of one that is on its way, and nothing is noted then. One that is cached
/// is fixed and latched, and unlatched and unfixed.
#[test]
fn a_reading_is_refused_and_hits(rt: HostRuntime) {
    let alloc: Global = rt.alloc();
    let settings = settings_of(&rt, alloc, SETTINGS);
    let device = disk_of(&rt, alloc, 24, 64, 0);
    let mut stand = stand_of(&rt, alloc, &settings, device);
    for number in 0..2 {
        let plan = plan_of(&rt, alloc, &settings, READ);
        submits(&rt, &mut stand.book, plan, number);
    }
    let (second, mut places) = takes(&rt, &mut stand, 1);
    let (first, guards) = takes(&rt, &mut stand, 0);
    let errand = misses(&rt, &mut stand.book, second);
    let first = is_refused(&rt, &mut stand.book, first);
    let (second, guard) = reads(&rt, &mut stand.book, errand, &mut stand.device);
    puts(&rt, &mut places, guard);
    let first = hits(&rt, &mut stand.book, first);
    gives_back(&rt, &mut stand.hands, first, guards);
    gives_back(&rt, &mut stand.hands, second, places);
    same_text(
        &rt,
        "the journal",
        &text_of(&rt, alloc, &close(stand)),
        FIXED,
    );
}
