//! What one worker does with plans, and the flusher after it.

ghost use Rattle.std.specs.Prelude.{◌≡◌};
ghost use Rattle.pp_settings.specs.declared.span.Span.TheVariants.{Bounded};

use crate::noting::{Noting, Picks};
use crate::site::Habit;
use crate::stand::{
    Shift, Stand, Worked, close, disk_of, does, flushes, plan_of, push_text, same_text,
    settings_of, stand_of, submits, text_of, works,
};
use pp_cert::Accepted;
use pp_pool::Turned;
use pp_settings::Settings;
use pp_test_plain::samples;
use pp_test_plain::samples::{READ, REGIONS, SETTINGS, WRITE};
use std::alloc::Global;
use std::process::Abort;
use std::test::*;

/// Its slots have other numbers than its regions: slot 0 is of region 1, slot 1 of region 2, and slot 2 of region 0. It has
/// choices of three branches and of two.
const CROSSED: &str =
    "{\"body\":[{\"fix\":\"a\",\"region\":\"inner\"},{\"fix\":\"b\",\"region\":\"leaf\"},\
{\"latch\":\"b\",\"mode\":\"X\"},{\"unlatch\":\"b\"},{\"latch\":\"b\",\"mode\":\"S\"},{\"unlatch\":\"b\"},\
{\"fix\":\"c\",\"region\":\"root\"},{\"latch\":\"c\",\"mode\":\"X\"},\
{\"choice\":[[],[],[{\"latch\":\"a\",\"mode\":\"X\"},{\"unlatch\":\"a\"}]]},{\"unlatch\":\"c\"},\
{\"choice\":[[],[{\"latch\":\"a\",\"mode\":\"S\"},{\"unlatch\":\"a\"}]]},\
{\"unfix\":\"c\"},{\"unfix\":\"b\"},{\"unfix\":\"a\"}],\"version\":1}";

/// Holds a root latched X, and writes five leaves one after the other.
const FIVE: &str =
    "{\"body\":[{\"fix\":\"a\",\"region\":\"root\"},{\"latch\":\"a\",\"mode\":\"X\"},\
{\"body\":[{\"fix\":\"b\",\"region\":\"leaf\"},{\"latch\":\"b\",\"mode\":\"X\"},{\"unlatch\":\"b\"},{\"unfix\":\"b\"}],\
\"loop\":5},{\"unlatch\":\"a\"},{\"unfix\":\"a\"}],\"version\":1}";

/// Gathers two leaves and gives them back.
const GATHER: &str =
    "{\"body\":[{\"gather\":\"g\",\"region\":\"leaf\"},{\"gather\":\"g\",\"region\":\"leaf\"},\
{\"scatter\":\"g\"}],\"version\":2}";

/// Holds a root, a bundle of two leaves and a leaf, in slots 0 to 2, and fixes one leaf more.
const HOLD: &str =
    "{\"body\":[{\"fix\":\"a\",\"region\":\"root\"},{\"gather\":\"b\",\"region\":\"leaf\"},\
{\"gather\":\"b\",\"region\":\"leaf\"},{\"fix\":\"c\",\"region\":\"leaf\"},{\"latch\":\"c\",\"mode\":\"X\"},\
{\"fix\":\"d\",\"region\":\"leaf\"},{\"unlatch\":\"c\"},{\"unfix\":\"d\"},{\"unfix\":\"c\"},{\"scatter\":\"b\"},\
{\"unfix\":\"a\"}],\"version\":2}";

/// Three regions, none of which begins at page 0.
const THREE: &str = "
[[region]]
name = \"root\"
first = 3
count = 5
class = 1

[[region]]
name = \"inner\"
first = 20
count = 7
class = 2

[[region]]
name = \"leaf\"
first = 40
count = 9
class = 3
";

/// One region.
const ALONE: &str = "
[[region]]
name = \"leaf\"
first = 16
count = 8
class = 2
";

/// What the worker does that writes page 16, which isn't cached.
pub const WRITTEN: &str = "take 0 = taken 0
fix 0 16 = mustread 0
came 0 16 0 = loaded 0
latch 0 = latched 0
unlatch 0 = unlatched 1
unfix 0 = did
finish 0 = done
";

/// What the flusher does then.
pub const FLUSHED: &str = "flush 16 = flushing 1
flushed ok = clean
";

/// What the worker does that reads page 16, which isn't cached.
const SEEN: &str = "take 0 = taken 0
fix 0 16 = mustread 0
came 0 16 0 = loaded 0
latch 0 = latched 0
unlatch 0 = unlatched 0
unfix 0 = did
finish 0 = done
";

/// What the worker does that gathers two leaves, neither of which is cached.
const GATHERED: &str = "take 0 = taken 0
fix 0 16 = mustread 0
came 0 16 0 = loaded 0
fix 0 17 = mustread 1
came 0 17 0 = loaded 0
unfix 0 = did
finish 0 = done
";

/// What the worker does that gathers one leaf twice, which isn't cached before.
const GATHERED_TWICE: &str = "take 0 = taken 0
fix 0 16 = mustread 0
came 0 16 0 = loaded 0
fix 0 16 = hit 0 0
unfix 0 = did
finish 0 = done
";

/// What the worker does whose last leaf isn't read: each slot is given back, the least first.
const LEFT: &str = "take 0 = taken 0
fix 0 0 = mustread 0
came 0 0 0 = loaded 0
fix 0 16 = mustread 1
came 0 16 0 = loaded 0
fix 0 17 = mustread 2
came 0 17 0 = loaded 0
fix 0 18 = mustread 3
came 0 18 0 = loaded 0
latch 0 = latched 0
fix 0 19 = mustread 4
came 0 fault = failed read
unwind 0 0 = did
unwind 0 1 = did
unwind 0 2 = unlatched 1
finish 0 = gone
";

/// One worker's plans, and what comes of them.
#[derive(Drop)]
struct Row {
    name: &'static str,
    frames: u32,
    page_bytes: usize,
    flushes: u32,
    regions: &'static str,
    plans: &'static [&'static str],
    habit: Habit,
    picks: Picks,
    reach: usize,
    /// The number of the device's call that fails; 0 for none.
    fails: u32,
    /// What the work is called for.
    calls: &'static str,
    /// How the turns end.
    turns: &'static str,
    /// How the flusher's turns end that follow, how many flushes are ended, and how many of these failed.
    flusher: &'static str,
    /// What the worker notes; nothing where that isn't compared.
    log: &'static str,
    /// What the flusher adds to the journal.
    flushed: &'static str,
}

const WRITES: Row = Row {
    name: "a_turn_does_its_work",
    frames: 3,
    page_bytes: 64,
    flushes: 4,
    regions: REGIONS,
    plans: &[WRITE],
    habit: Habit::Honest,
    picks: Picks::First,
    reach: usize::MAX,
    fails: 0,
    calls: "page 1 16 8\nchange 16 52 0\n",
    turns: "ddddddde",
    flusher: "dde 1 0\n",
    log: WRITTEN,
    flushed: FLUSHED,
};

const READS: Row = Row {
    name: "a_reader_sees_its_page",
    plans: &[READ],
    calls: "page 1 16 8\nsee 16 0 16 0 64 0\n",
    flusher: "eee 0 0\n",
    log: SEEN,
    flushed: "",
    ..WRITES
};

/// A work is asked for what the plan's regions and choices have, and handed whole pages of every size.
const NAMES: Row = Row {
    name: "a_work_gets_what_its_plan_names",
    frames: 4,
    page_bytes: 100,
    flushes: 0,
    regions: THREE,
    plans: &[CROSSED],
    picks: Picks::Last,
    calls: "page 1 20 7
page 2 40 9
change 48 88 0
see 48 1 48 1 100 0
page 0 3 5
change 7 88 0
branch 3
change 26 88 0
branch 2
see 26 1 26 1 100 0
",
    turns: "ddddddddddddddddddddddde",
    flusher: "eee 0 0\n",
    log: "",
    flushed: "",
    ..WRITES
};

/// A work is shown 64 bytes at least, and never more than a page has.
const REACHES: Row = Row {
    name: "a_work_sees_as_far_as_it_reaches",
    page_bytes: 256,
    flushes: 0,
    regions: ALONE,
    plans: &[WRITE, READ],
    reach: 0,
    calls: "page 0 16 8\nchange 16 244 0\npage 0 16 8\nsee 16 1 16 1 64 0\n",
    turns: "ddddddddddddde",
    flusher: "eee 0 0\n",
    log: "",
    flushed: "",
    ..WRITES
};

static ROWS: &[Row] = &[
    // A plan that writes takes seven turns, and the eighth finds nothing waiting. The page is flushed then.
    WRITES,
    // A reader sees the page once, with its mark and its whole image; nothing is to be flushed then.
    READS,
    NAMES,
    Row {
        page_bytes: 4_096,
        calls: "page 1 20 7
page 2 40 9
change 48 4084 0
see 48 1 48 1 4096 0
page 0 3 5
change 7 4084 0
branch 3
change 26 4084 0
branch 2
see 26 1 26 1 4096 0
",
        ..NAMES
    },
    Row {
        page_bytes: 65_536,
        calls: "page 1 20 7
page 2 40 9
change 48 65524 0
see 48 1 48 1 65536 0
page 0 3 5
change 7 65524 0
branch 3
change 26 65524 0
branch 2
see 26 1 26 1 65536 0
",
        ..NAMES
    },
    REACHES,
    Row {
        reach: 64,
        calls: "page 0 16 8\nchange 16 244 0\npage 0 16 8\nsee 16 1 16 1 64 0\n",
        ..REACHES
    },
    Row {
        reach: 65,
        calls: "page 0 16 8\nchange 16 244 0\npage 0 16 8\nsee 16 1 16 1 65 0\n",
        ..REACHES
    },
    Row {
        reach: 100,
        calls: "page 0 16 8\nchange 16 244 0\npage 0 16 8\nsee 16 1 16 1 100 0\n",
        ..REACHES
    },
    Row {
        reach: 256,
        calls: "page 0 16 8\nchange 16 244 0\npage 0 16 8\nsee 16 1 16 1 256 0\n",
        ..REACHES
    },
    Row {
        reach: usize::MAX,
        calls: "page 0 16 8\nchange 16 244 0\npage 0 16 8\nsee 16 1 16 1 256 0\n",
        ..REACHES
    },
    // A bundle is opened by its first page, and joined by the second, whether that is read or cached. All go back at once.
    Row {
        name: "a_bundle_is_gathered_and_given_back",
        plans: &[GATHER],
        picks: Picks::Next,
        calls: "page 1 16 8\npage 1 16 8\n",
        turns: "ddddddde",
        log: GATHERED,
        ..READS
    },
    Row {
        name: "a_page_is_gathered_twice",
        plans: &[GATHER],
        calls: "page 1 16 8\npage 1 16 8\n",
        turns: "dddddde",
        log: GATHERED_TWICE,
        ..READS
    },
    // The turn of a latch S is broken exactly where the page isn't shown with its mark; the work sees nothing then, and the
    // next turns go on.
    Row {
        name: "a_page_that_is_not_shown_breaks_its_turn",
        habit: Habit::Refuses,
        calls: "page 1 16 8\n",
        turns: "dddbddde",
        ..READS
    },
    Row {
        name: "a_page_with_another_mark_breaks_its_turn",
        habit: Habit::MarksAnew,
        calls: "page 1 16 8\n",
        turns: "dddbddde",
        ..READS
    },
    // A worker that is refused room has asked nothing and still has its chair; once there is room it does the plan.
    Row {
        name: "a_worker_without_room_stops_with_its_chair",
        habit: Habit::Boasts,
        calls: "idle 1\npage 1 16 8\nchange 16 52 0\n",
        turns: "nddddddde",
        ..WRITES
    },
];

/// The settings of a row.
fn settings_in(rt: &impl Abort, alloc: Global, row: &Row) -> Settings
    ensures { result.span ≡ Bounded }
{
    let text = format!(in alloc;
        "frames = {}\npage_bytes = {}\nworkers = 2\nflushes = {}\n{}",
        row.frames, row.page_bytes, row.flushes, row.regions
    )
    .expect(rt, "memory");
    settings_of(rt, alloc, &text)
}

/// A book in which the plans of a row wait, over a device that fails at its call.
fn filled(
    rt: &impl Abort,
    alloc: Global,
    settings: &Settings,
    row: &Row,
    fails: u32,
) -> (Stand, String)
    requires { settings.now.span ≡ Bounded }
{
    let device = disk_of(rt, alloc, 49, row.page_bytes, fails);
    let mut stand = stand_of(rt, alloc, settings, device);
    let mut submitted = String::new(alloc);
    let mut number = 0u64;
    for text in row.plans {
        let plan = plan_of(rt, alloc, settings, text);
        submits(rt, &mut stand.book, plan, number);
        let line = format!(in alloc; "submit {number} = queued\n").expect(rt, "memory");
        push_text(rt, &mut submitted, &line);
        number = number.saturating_add(1);
    }
    (stand, submitted)
}

/// Does the plans of a row, compares what is noted, and gives the log. The journal has the submits before the worker's log, and
/// the flusher's lines behind.
fn done(rt: &impl Abort, alloc: Global, row: &Row, fails: u32) -> String {
    let settings = settings_in(rt, alloc, row);
    let (stand, mut want) = filled(rt, alloc, &settings, row, fails);
    let mut work = Noting::new(alloc, row.picks, row.reach);
    let mut turns = String::new(alloc);
    let shift = Shift {
        worker: 0,
        habit: row.habit,
        most: 40,
    };
    let Worked { stand, last, log } = works(
        rt, alloc, &settings, stand, shift, &mut work, &mut turns,
    );
    let mut flusher = String::new(alloc);
    let stand = flushes(rt, stand, &mut flusher);
    let log = text_of(rt, alloc, &log);
    push_text(rt, &mut want, &log);
    push_text(rt, &mut want, row.flushed);
    let journal = text_of(rt, alloc, &close(stand));
    same_text(rt, row.name, &journal, &want);
    if last != Turned::Ended {
        panic!(rt; "{}: the worker isn't idle", row.name);
    }
    if fails == 0 {
        same_text(rt, row.name, &work.calls, row.calls);
        same_text(rt, row.name, &turns, row.turns);
        same_text(rt, row.name, &flusher, row.flusher);
    }
    log
}

/// Each row comes to what stands there.
#[test]
fn a_turn_does_its_work(rt: HostRuntime) {
    for row in ROWS {
        let log = done(&rt, rt.alloc(), row, 0);
        if row.log != "" {
            same_text(&rt, row.name, &log, row.log);
        }
    }
}

/// A plan over a device of which one call fails.
const FAILS: Row = Row {
    name: "a_failed_call_ends_its_plan",
    flushes: 0,
    plans: &[FIVE],
    picks: Picks::Next,
    flushed: "",
    ..WRITES
};

/// How the log tells that call number 1, 2 and so on of the device failed. Three pages are read into the three frames; then each
/// further leaf has an older one written back before. There is no tenth call.
static FAILURES: [&str; 10] = [
    "came 0 fault = failed read",
    "came 0 fault = failed read",
    "came 0 fault = failed read",
    "wrote 0 bad = failed write",
    "came 0 fault = failed read",
    "wrote 0 bad = failed write",
    "came 0 fault = failed read",
    "wrote 0 bad = failed write",
    "came 0 fault = failed read",
    "",
];

/// The first line that tells of a failure; nothing where none does.
fn failure_in(log: &str) -> &str {
    for line in log.lines() {
        if line.ends_with("failed read")
            || line.ends_with("failed write")
            || line.ends_with("failed misread")
        {
            return line;
        }
    }
    ""
}

/// Wherever the device fails, the worker gives back what it holds, leaves its plan, and is idle again.
#[test]
fn a_failed_call_ends_its_plan(rt: HostRuntime) {
    let mut call = 0u32;
    for failure in FAILURES.iter() {
        call = call.saturating_add(1);
        let log = done(&rt, rt.alloc(), &FAILS, call);
        same_text(&rt, "the failure", failure_in(&log), failure);
        let ending = if *failure == "" {
            "finish 0 = done\n"
        } else {
            "finish 0 = gone\n"
        };
        if !log.ends_with(ending) {
            panic!(rt; "call {call}: another ending: {log}");
        }
    }
}

/// A plan that holds pages in three slots, a bundle's and one latched X among them, as a fix for the fourth fails.
const LEAVES: Row = Row {
    name: "who_leaves_gives_the_least_slot_back_first",
    frames: 6,
    plans: &[HOLD],
    ..FAILS
};

/// A worker that leaves its plan gives the least slot back first, whatever it holds there.
#[test]
fn who_leaves_gives_the_least_slot_back_first(rt: HostRuntime) {
    let log = done(&rt, rt.alloc(), &LEAVES, 5);
    same_text(&rt, LEAVES.name, &log, LEFT);
}

/// Settings of one frame, and else the sample ones.
const ONE_FRAME: &str = "frames = 1
page_bytes = 64
workers = 2
flushes = 4

[[region]]
name = \"root\"
first = 0
count = 4
class = 1

[[region]]
name = \"leaf\"
first = 16
count = 8
class = 2
";

/// The plan comes back from a book of settings that have one frame. Nothing is noted there.
fn refused(rt: &impl Abort, alloc: Global, plan: Accepted) -> Accepted {
    let settings = settings_of(rt, alloc, ONE_FRAME);
    let device = disk_of(rt, alloc, 24, 64, 0);
    let mut stand = stand_of(rt, alloc, &settings, device);
    let answer = stand.book.submit(plan);
    let journal = close(stand);
    if !journal.is_empty() {
        panic!(rt; "something is noted");
    }
    match answer {
        Ok(_) => panic!(rt; "taken in"),
        Err((back, error)) => {
            if error.number() != 53 {
                panic!(rt; "refused as {error}");
            }
            back
        }
    }
}

/// A plan that one book refuses comes back whole: another book takes it in, and a worker does it.
#[test]
fn a_refused_plan_is_done_later(rt: HostRuntime) {
    let settings = settings_of(&rt, rt.alloc(), SETTINGS);
    let plan = plan_of(&rt, rt.alloc(), &settings, WRITE);
    let back = refused(&rt, rt.alloc(), plan);
    let device = disk_of(&rt, rt.alloc(), 24, 64, 0);
    let mut stand = stand_of(&rt, rt.alloc(), &settings, device);
    submits(&rt, &mut stand.book, back, 0);
    let (stand, log) = does(&rt, rt.alloc(), &settings, stand);
    same_text(&rt, "the log", &log, WRITTEN);
    let journal = text_of(&rt, rt.alloc(), &close(stand));
    same_text(&rt, "the journal", &journal, samples::WRITTEN);
}
