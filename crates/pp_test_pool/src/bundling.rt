//! A bundle by requests: pages that open it and join it, the tokens that come of that, and what is refused.

use crate::stand::{
    Disk, Stand, close, disk_of, hand_of, plan_of, put_back, same_text, settings_of, stand_of,
    submits, text_of,
};
use pp_pool::{Book, BookAnswer, Request, Response};
use pp_test_plain::samples::REGIONS;
use pp_vault::{
    BundleGuard, Chair, Errand, Guard, Guards, Hand, PinGuard, Refusal, Returned, Session, Stage,
};
use std::alloc::Global;
use std::process::Abort;
use std::test::*;

/// Gathers two leaves beside a root that it fixes between, gives them back, and then the root.
const GATHERS: &str =
    "{\"body\":[{\"gather\":\"g\",\"region\":\"leaf\"},{\"fix\":\"a\",\"region\":\"root\"},\
{\"gather\":\"g\",\"region\":\"leaf\"},{\"scatter\":\"g\"},{\"unfix\":\"a\"}],\"version\":2}";

/// What the book notes of it: a gather is a fix, and a scatter an unfix of all pages.
const GATHERED: &str = "submit 0 = queued
take 1 = taken 0
fix 1 16 = mustread 0
came 1 16 0 = loaded 0
fix 1 2 = mustread 1
came 1 2 0 = loaded 0
fix 1 17 = mustread 2
came 1 17 0 = loaded 0
unfix 1 = did
unfix 1 = did
finish 1 = done
";

/// How each request was refused, in their order.
const REFUSED: &str = "join = offplan stranger
answer join = offplan stranger
scatter = offplan notasked
join = offplan stranger
answer join = offplan stranger
scatter = offplan notasked
";

/// What comes of a request to a book.
fn answer(book: &mut Book, request: Request) -> BookAnswer {
    let Response { event: _, answer } = book.perform(request);
    answer
}

/// Notes how a request was refused. Where memory runs out the text is cleared, and the test fails.
fn note_refusal(told: &mut String, what: &str, refusal: Refusal) {
    if write!(told, "{what} = {refusal}\n").is_err() {
        told.clear();
    }
}

/// The plan is taken.
fn takes(rt: &impl Abort, book: &mut Book, chair: Chair) -> Session {
    match answer(book, Request::Take(chair)) {
        BookAnswer::Acts(session) => session,
        _ => panic!(rt; "no plan"),
    }
}

/// A page is asked for that isn't cached.
fn misses(rt: &impl Abort, book: &mut Book, request: Request) -> Errand {
    match answer(book, request) {
        BookAnswer::Away(errand) => errand,
        _ => panic!(rt; "no errand"),
    }
}

/// No page joins: the session comes back.
fn joins_nothing(
    rt: &impl Abort,
    book: &mut Book,
    session: Session,
    page: u32,
    told: &mut String,
) -> Session {
    match answer(book, Request::Join(session, page)) {
        BookAnswer::No(Request::Join(back, same), refusal) => {
            if same != page {
                panic!(rt; "page {same} comes back");
            }
            note_refusal(told, "join", refusal);
            back
        }
        _ => panic!(rt; "a page joins"),
    }
}

/// What the device brought joins nothing: it comes back.
fn brings_nothing(
    rt: &impl Abort,
    book: &mut Book,
    returned: Returned,
    told: &mut String,
) -> Returned {
    match answer(book, Request::AnswerJoin(returned)) {
        BookAnswer::No(request, refusal) => {
            note_refusal(told, "answer join", refusal);
            brought_back(rt, request)
        }
        _ => panic!(rt; "a page joins"),
    }
}

/// What the device brought, out of the request that comes back.
fn brought_back(rt: &impl Abort, request: Request) -> Returned {
    match request {
        Request::AnswerJoin(back) => back,
        _ => panic!(rt; "another request comes back"),
    }
}

/// The bundle isn't given back: the tokens come back.
fn scatters_nothing(
    rt: &impl Abort,
    book: &mut Book,
    session: Session,
    guard: BundleGuard,
    told: &mut String,
) -> (Session, BundleGuard) {
    match answer(book, Request::Scatter(session, guard)) {
        BookAnswer::No(Request::Scatter(back, bundle), refusal) => {
            note_refusal(told, "scatter", refusal);
            (back, bundle)
        }
        _ => panic!(rt; "given back"),
    }
}

/// The first leaf opens the bundle. Nothing joins it before, and it isn't given back then.
fn opens(
    rt: &impl Abort,
    book: &mut Book,
    device: &mut Disk,
    session: Session,
    told: &mut String,
) -> (Session, BundleGuard) {
    let session = joins_nothing(rt, book, session, 16, told);
    let errand = misses(rt, book, Request::Fix(session, 16));
    let returned = brings_nothing(rt, book, errand.carry_out(device), told);
    match answer(book, Request::Answer(returned)) {
        BookAnswer::Opened(session, guard) => scatters_nothing(rt, book, session, guard, told),
        _ => panic!(rt; "no bundle"),
    }
}

/// The root is fixed beside the bundle, which it doesn't join.
fn fixes(
    rt: &impl Abort,
    book: &mut Book,
    device: &mut Disk,
    session: Session,
    told: &mut String,
) -> (Session, PinGuard) {
    let session = joins_nothing(rt, book, session, 2, told);
    let errand = misses(rt, book, Request::Fix(session, 2));
    let returned = brings_nothing(rt, book, errand.carry_out(device), told);
    match answer(book, Request::Answer(returned)) {
        BookAnswer::Pinned(session, guard) => (session, guard),
        _ => panic!(rt; "not fixed"),
    }
}

/// The second leaf joins the bundle, of which no guard comes.
fn joins(rt: &impl Abort, book: &mut Book, device: &mut Disk, session: Session) -> Session {
    let errand = misses(rt, book, Request::Join(session, 17));
    match answer(book, Request::AnswerJoin(errand.carry_out(device))) {
        BookAnswer::Joined(session) => session,
        _ => panic!(rt; "the page joins nothing"),
    }
}

/// The bundle is given back, then the root, and the plan is done.
fn ends(
    rt: &impl Abort,
    book: &mut Book,
    session: Session,
    bundle: BundleGuard,
    pin: PinGuard,
) -> Chair {
    let session = match answer(book, Request::Scatter(session, bundle)) {
        BookAnswer::Acts(session) => session,
        _ => panic!(rt; "not given back"),
    };
    let session = match answer(book, Request::Unfix(session, pin)) {
        BookAnswer::Acts(session) => session,
        _ => panic!(rt; "still fixed"),
    };
    match answer(book, Request::Finish(session)) {
        BookAnswer::Idle(chair) => chair,
        _ => panic!(rt; "not done"),
    }
}

/// The chair of worker 1, and the places of its guards.
fn chair_of(rt: &impl Abort, stand: &mut Stand) -> (Chair, Guards) {
    let Hand { stage, guards } = hand_of(rt, &mut stand.hands, 1);
    match stage {
        Stage::Idle(chair) => (chair, guards),
        _ => panic!(rt; "not idle"),
    }
}

/// Four frames, so that the plan's pages have room beside one that is another's.
fn settings_text(rt: &impl Abort, alloc: Global) -> String {
    format!(in alloc; "frames = 4\npage_bytes = 64\nworkers = 2\nflushes = 0\n{REGIONS}").expect(
        rt, "memory",
    )
}

/// Pages open a bundle and join it, the bundle is given back at once, and what doesn't fit is refused with its tokens.
#[test]
fn a_bundle_is_opened_joined_and_given_back(rt: HostRuntime) {
    let alloc: Global = rt.alloc();
    let settings = settings_of(&rt, alloc, &settings_text(&rt, alloc));
    let device = disk_of(&rt, alloc, 24, 64, 0);
    let mut stand = stand_of(&rt, alloc, &settings, device);
    let plan = plan_of(&rt, alloc, &settings, GATHERS);
    submits(&rt, &mut stand.book, plan, 0);
    let (chair, guards) = chair_of(&rt, &mut stand);
    let mut told = String::new(alloc);
    let (book, device) = (&mut stand.book, &mut stand.device);
    let session = takes(&rt, book, chair);
    let (session, bundle) = opens(&rt, book, device, session, &mut told);
    let (session, pin) = fixes(&rt, book, device, session, &mut told);
    let (session, bundle) = scatters_nothing(&rt, book, session, bundle, &mut told);
    let session = joins(&rt, book, device, session);
    let chair = ends(&rt, book, session, bundle, pin);
    let stage = Stage::Idle(chair);
    put_back(&rt, &mut stand.hands, Hand { stage, guards });
    same_text(&rt, "the refusals", &told, REFUSED);
    let journal = text_of(&rt, alloc, &close(stand));
    same_text(&rt, "the journal", &journal, GATHERED);
}
