//! A book in several lives: what it gives at the end of one, and what the next begins with.

ghost use Rattle.std.specs.Prelude.{◌≡◌};
ghost use Rattle.pp_settings.specs.declared.span.Span.TheVariants.{Bounded};

use crate::noting::note;
use crate::rows::{FLUSHED, WRITTEN};
use crate::stand::{
    Stand, close, disk_of, does, plan_of, push_text, same_text, settings_of, stand_of, submits,
    text_of,
};
use pp_arc::List;
use pp_cert::Accepted;
use pp_pool::{Book, BookAnswer, BookRenewError, Journal, Request, Response};
use pp_report::audit;
use pp_settings::Settings;
use pp_test_plain::samples;
use pp_test_plain::samples::{NOTHING, READ, SETTINGS, TOUCH, WRITE};
use pp_vault::{Errand, RenewError, Returned};
use std::alloc::Global;
use std::process::Abort;
use std::test::*;

/// What the worker does in a life that finds page 16 where the life before left it.
const WRITTEN_AGAIN: &str = "take 0 = taken 0
fix 0 16 = hit 0 1
latch 0 = latched 1
unlatch 0 = unlatched 2
unfix 0 = did
finish 0 = done
";

/// The line of a plan that is taken in.
const SUBMITTED: &str = "submit 0 = queued\n";

/// What stands for a number that isn't there.
const NONE: u64 = 999;

/// A stand over a device of the sample settings' pages.
fn new_stand(rt: &impl Abort, alloc: Global, settings: &Settings) -> Stand
    requires { settings.now.span ≡ Bounded }
{
    let device = disk_of(rt, alloc, 24, 64, 0);
    stand_of(rt, alloc, settings, device)
}

/// Notes what the book's life began with: of page 16 the frame, whether it is dirty, and the mark; how many pages are in T1, and
/// which is the first; and the target. Then how many pages are dirty, and the greatest cost.
fn note_began(book: &Book, text: &mut String) {
    let began = book.began();
    let recent = began.pages(List::T1);
    let first = match recent.first() {
        Some(page) => u64::from(*page),
        None => NONE,
    };
    let numbers = [
        began.frame_of(16).map_or(NONE, u64::from),
        u64::from(began.is_dirty(16)),
        began.mark(16).unwrap_or(NONE),
        recent.len() as u64,
        first,
        u64::from(began.target()),
        u64::from(book.dirty()),
        book.most(),
    ];
    note(text, "began", &numbers);
}

/// The plan of this text is submitted as the first of a life, and done. The log is added to the text.
fn life(
    rt: &impl Abort,
    alloc: Global,
    settings: &Settings,
    stand: Stand,
    plan: &str,
    text: &mut String,
) -> Stand {
    let mut stand = stand;
    submits(rt, &mut stand.book, plan_of(rt, alloc, settings, plan), 0);
    let (stand, log) = does(rt, alloc, settings, stand);
    push_text(rt, text, &log);
    stand
}

/// Renews the book with this journal, and gives the journal of the life that is over.
fn renewed(rt: &impl Abort, book: &mut Book, empty: Journal) -> Journal {
    match book.renew(empty) {
        Ok(journal) => journal,
        Err((_back, error)) => panic!(rt; "not renewed: {error}"),
    }
}

/// Renews the book, and adds the journal of the life that is over to the text.
fn renews(rt: &impl Abort, alloc: Global, book: &mut Book, text: &mut String) {
    let journal = renewed(rt, book, Journal::new(alloc));
    push_text(rt, text, &text_of(rt, alloc, &journal));
}

/// The book isn't at rest, so the journal comes back without what stood in it.
fn refuses(rt: &impl Abort, book: &mut Book, given: Journal) {
    match book.renew(given) {
        Ok(_) => panic!(rt; "renewed"),
        Err((back, error)) => {
            let is_it = error == BookRenewError::Refused(RenewError::NotAtRest) && back.is_empty();
            if !is_it {
                panic!(rt; "{} events come back: {error}", back.len());
            }
        }
    }
}

/// Whether the text is audited as the journal of a new pool with this plan.
fn is_audited(alloc: Global, settings: &Settings, plans: Vec<Accepted>, journal: &str) -> bool
    requires { settings.now.span ≡ Bounded }
{
    audit(alloc, settings, plans, journal.as_bytes()).is_ok()
}

/// The texts, one behind the other.
fn together(rt: &impl Abort, alloc: Global, parts: &[&str]) -> String {
    let mut text = String::new(alloc);
    for part in parts {
        push_text(rt, &mut text, part);
    }
    text
}

/// A page that the first life wrote is a hit in the second: it is as dirty as it was, has its mark, and no device is called
/// for it. The first life's journal comes back whole, and is audited. That of the second is no journal of a new pool, where
/// nothing can be a hit.
#[test]
fn a_written_page_is_a_hit_in_the_next_life(rt: HostRuntime) {
    let alloc: Global = rt.alloc();
    let settings = settings_of(&rt, alloc, SETTINGS);
    let mut text = String::new(alloc);
    let stand = new_stand(&rt, alloc, &settings);
    note_began(&stand.book, &mut text);
    let mut stand = life(&rt, alloc, &settings, stand, WRITE, &mut text);
    renews(&rt, alloc, &mut stand.book, &mut text);
    note_began(&stand.book, &mut text);
    let stand = life(&rt, alloc, &settings, stand, WRITE, &mut text);
    let next = text_of(&rt, alloc, &close(stand));
    let want = [
        "began 999 0 999 0 999 0 0 0\n",
        WRITTEN,
        samples::WRITTEN,
        "began 0 1 1 1 16 0 1 0\n",
        WRITTEN_AGAIN,
    ];
    same_text(&rt, "two lives", &text, &together(&rt, alloc, &want));
    let again = together(&rt, alloc, &[SUBMITTED, WRITTEN_AGAIN]);
    same_text(&rt, "the second journal", &next, &again);
}

/// A book at which a plan waits isn't renewed.
#[test]
fn a_book_with_a_plan_is_not_renewed(rt: HostRuntime) {
    let alloc: Global = rt.alloc();
    let settings = settings_of(&rt, alloc, SETTINGS);
    let mut stand = new_stand(&rt, alloc, &settings);
    let plan = plan_of(&rt, alloc, &settings, WRITE);
    submits(&rt, &mut stand.book, plan, 0);
    refuses(&rt, &mut stand.book, Journal::new(alloc));
    let journal = text_of(&rt, alloc, &close(stand));
    same_text(&rt, "the journal", &journal, SUBMITTED);
}

/// The journal of the first life is audited. That of the second is no journal of a new pool, where nothing can be a hit.
#[test]
fn the_first_journal_is_a_new_pools(rt: HostRuntime) {
    let alloc: Global = rt.alloc();
    let settings = settings_of(&rt, alloc, SETTINGS);
    let (mut first, mut unused) = (String::new(alloc), String::new(alloc));
    let stand = new_stand(&rt, alloc, &settings);
    let mut stand = life(&rt, alloc, &settings, stand, WRITE, &mut unused);
    renews(&rt, alloc, &mut stand.book, &mut first);
    let stand = life(&rt, alloc, &settings, stand, WRITE, &mut unused);
    let second = text_of(&rt, alloc, &close(stand));
    for (journal, want) in [(&first, true), (&second, false)] {
        let mut plans = Vec::new(alloc);
        let plan = plan_of(&rt, alloc, &settings, WRITE);
        plans.push(plan).expect(&rt, "memory");
        if is_audited(alloc, &settings, plans, journal) != want {
            panic!(rt; "audited otherwise: {journal}");
        }
    }
}

/// Begins the flush of page 16.
fn begun(rt: &impl Abort, book: &mut Book) -> Errand {
    let Response { event: _, answer } = book.perform(Request::Flush(16));
    match answer {
        BookAnswer::Away(errand) => errand,
        _ => panic!(rt; "no flush begins"),
    }
}

/// Ends a flush, and tells whether the page is clean.
fn flushed(rt: &impl Abort, book: &mut Book, returned: Returned) -> bool {
    let Response { event: _, answer } = book.perform(Request::Answer(returned));
    match answer {
        BookAnswer::Flushed(is_clean) => is_clean,
        _ => panic!(rt; "the flush isn't over"),
    }
}

/// A flush in flight is awaited. The page is clean then, and so it is in the next life.
#[test]
fn a_flush_is_awaited(rt: HostRuntime) {
    let alloc: Global = rt.alloc();
    let settings = settings_of(&rt, alloc, SETTINGS);
    let mut text = String::new(alloc);
    let stand = new_stand(&rt, alloc, &settings);
    let mut stand = life(&rt, alloc, &settings, stand, WRITE, &mut text);
    let errand = begun(&rt, &mut stand.book);
    refuses(&rt, &mut stand.book, Journal::new(alloc));
    let returned = errand.carry_out(&mut stand.device);
    if !flushed(&rt, &mut stand.book, returned) {
        panic!(rt; "the flush isn't clean");
    }
    renews(&rt, alloc, &mut stand.book, &mut text);
    note_began(&stand.book, &mut text);
    let next = text_of(&rt, alloc, &close(stand));
    push_text(&rt, &mut text, &next);
    let want = [
        WRITTEN,
        samples::WRITTEN,
        FLUSHED,
        "began 0 0 1 1 16 0 0 0\n",
    ];
    same_text(&rt, "a flush", &text, &together(&rt, alloc, &want));
}

/// 256 plans are all that one life takes, and the next takes as many. Two journals serve in turn.
#[test]
fn each_life_takes_as_many_plans(rt: HostRuntime) {
    let alloc: Global = rt.alloc();
    let settings = settings_of(&rt, alloc, SETTINGS);
    let mut stand = new_stand(&rt, alloc, &settings);
    let mut spare = Journal::new(alloc);
    for _life in 0..2 {
        for number in 0..256 {
            let plan = plan_of(&rt, alloc, &settings, NOTHING);
            submits(&rt, &mut stand.book, plan, number);
        }
        let plan = plan_of(&rt, alloc, &settings, NOTHING);
        if stand.book.submit(plan).is_ok() {
            panic!(rt; "a life took 257 plans");
        }
        let (worked, log) = does(&rt, alloc, &settings, stand);
        stand = worked;
        spare = renewed(&rt, &mut stand.book, spare);
        if log.lines().count() != 512 || spare.len() != 768 {
            panic!(rt; "{} events", spare.len());
        }
    }
    if !close(stand).is_empty() {
        panic!(rt; "a new life has events");
    }
}

/// Settings of one frame and one worker, and else the sample ones.
const ONE_FRAME: &str = "frames = 1
page_bytes = 64
workers = 1
flushes = 4

[[region]]
name = \"root\"
first = 0
count = 4
class = 1

[[region]]
name = \"leaf\"
first = 16
count = 8
class = 2
";

/// What the worker does where page 16 was written in the life before, left the cache, and is read with an older stamp.
const MISREAD: &str = "take 0 = taken 0
fix 0 16 = mustread 0
came 0 16 0 = failed misread
finish 0 = gone
";

/// A mark outlives the life, also of a page that isn't cached: what another device has there is a stale page.
#[test]
fn a_stale_page_is_found_in_the_next_life(rt: HostRuntime) {
    let alloc: Global = rt.alloc();
    let settings = settings_of(&rt, alloc, ONE_FRAME);
    let (mut text, mut unused) = (String::new(alloc), String::new(alloc));
    let mut stand = new_stand(&rt, alloc, &settings);
    submits(
        &rt,
        &mut stand.book,
        plan_of(&rt, alloc, &settings, WRITE),
        0,
    );
    submits(
        &rt,
        &mut stand.book,
        plan_of(&rt, alloc, &settings, TOUCH),
        1,
    );
    let (mut stand, _log) = does(&rt, alloc, &settings, stand);
    renews(&rt, alloc, &mut stand.book, &mut unused);
    note_began(&stand.book, &mut text);
    stand.device = disk_of(&rt, alloc, 24, 64, 0);
    let stand = life(&rt, alloc, &settings, stand, READ, &mut text);
    let _next = close(stand);
    let want = together(&rt, alloc, &["began 999 0 1 1 0 0 0 0\n", MISREAD]);
    same_text(&rt, "another device", &text, &want);
}
