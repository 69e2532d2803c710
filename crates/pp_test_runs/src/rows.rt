//! Worked rows of runs.

use crate::board::Board;
use crate::case::{ANY, Area, Call, Case, Cue, Faults, Part, Picks, SAMPLE, Step, Thing, Until};
use crate::counting::count;
use crate::running::{ends_well, passes};
use pp_device::image;
use pp_report::{packed_journal_text, report};
use pp_shared::SharedDevice;
use pp_test_plain::samples::{READ, TOUCH, WRITE, WRITTEN};
use std::alloc::Global;
use std::process::Abort;
use std::test::*;
use std::{env, fs};

/// Compares two texts. Where they differ, the test fails and tells both.
fn same_text(rt: &impl Abort, got: &str, want: &str) {
    if got != want {
        panic!(rt; "got {got:?}, wanted {want:?}");
    }
}

/// One worker writes a leaf, and nothing flushes it.
static WRITES: Case = Case {
    name: "a_run_ends_well",
    workers: 1,
    flushes: 0,
    plans: &[WRITE],
    counts: &[(Thing::Dirty, 1), (Thing::Changed, 1)],
    ..SAMPLE
};

/// One worker, no flush: eight events, a hundred times the same, and the page stays newer than the device's.
#[test]
fn a_run_ends_well(rt: HostRuntime) {
    for _again in 0..100 {
        let record = passes(&rt, &WRITES);
        let journal = packed_journal_text(rt.alloc(), &record.events).expect(&rt, "memory");
        same_text(&rt, &journal, WRITTEN);
    }
}

/// Two workers write and read a leaf by turns.
static TURNS: Case = Case {
    name: "a_turn_does_its_work",
    plans: &[WRITE, READ, WRITE, READ, WRITE, READ],
    counts: &[
        (Thing::Dirty, 0),
        (Thing::Changed, 3),
        (Thing::Seen, 3),
        (Thing::Done, 6),
    ],
    ..SAMPLE
};

/// Two workers write and read a leaf by turns: no change is lost, and each reader sees the mark and the bytes of it.
#[test]
fn a_turn_does_its_work(rt: HostRuntime) {
    passes(&rt, &TURNS);
}

/// One worker writes a leaf, and the flusher writes it back.
static FLUSHED: Case = Case {
    name: "a_run_uses_its_devices",
    workers: 1,
    plans: &[WRITE],
    counts: &[(Thing::Dirty, 0), (Thing::Changed, 1), (Thing::Flushed, 1)],
    ..SAMPLE
};

/// The page that was changed is on the device afterwards, with its stamp and the change.
#[test]
fn a_run_uses_its_devices(rt: HostRuntime) {
    passes(&rt, &FLUSHED);
}

/// All pages, one behind the other: as a new device has them, but one that was changed once.
pub fn pages(rt: &impl Abort, alloc: Global, changed: u32) -> Vec<u8> {
    let mut bytes = Vec::new(alloc);
    for page in 0..24 {
        let mut one = [0; 64];
        if changed == page {
            image::make(&mut one, page, 1);
            one[image::HEAD] = 1;
            one[63] = 1;
        } else {
            image::make(&mut one, page, 0);
        }
        bytes.extend_from_slice(&one).expect(rt, "memory");
    }
    bytes
}

/// The same over a file: it has the changed page, and its other bytes are as before.
#[test]
fn a_run_writes_its_file(rt: HostRuntime) -> Result<(), Fail> {
    let temporary = env::temp_dir(&rt)?;
    let place = temporary.as_path().display();
    let process = std::process::id(rt.process());
    let path = format!(in rt.alloc(); "{place}/pp_run_{process}")?;
    let new = pages(&rt, rt.alloc(), ANY);
    fs::write(&rt, path.as_str(), new.as_slice())?;
    let ends = SharedDevice::over_file(rt, rt.alloc(), &path, 64, 2)?;
    ends_well(&rt, &Board::new(&FLUSHED), ends);
    let got = fs::read(&rt, path.as_str())?;
    fs::remove_file(&rt, path.as_str())?;
    let want = pages(&rt, rt.alloc(), 16);
    assert!(rt; got.as_slice() == want.as_slice(), "other bytes");
    Ok(())
}

/// Each reading waits until the other one has begun.
static OVERLAP: Case = Case {
    name: "workers_really_overlap",
    plans: &[TOUCH, TOUCH],
    parts: &[
        Part {
            region: 0,
            steps: &[Step {
                behind: 1,
                until: Until::Nothing,
            }],
        },
        Part {
            region: 0,
            steps: &[Step {
                behind: 2,
                until: Until::Nothing,
            }],
        },
    ],
    cues: &[Cue {
        at: Call::Read,
        page: ANY,
        until: Until::Come(Thing::Read, 2),
    }],
    counts: &[(Thing::Dirty, 0), (Thing::Loads, 2), (Thing::Done, 2)],
    ..SAMPLE
};

/// Two workers each read a page of their own, and each reading waits for the other: both plans are done.
#[test]
fn workers_really_overlap(rt: HostRuntime) {
    passes(&rt, &OVERLAP);
}

/// As many workers, frames and pages as there can be.
static LARGE: Case = Case {
    name: "memory_is_there",
    frames: 4096,
    workers: 32,
    pages: 65_536,
    regions: "
[[region]]
name = \"root\"
first = 0
count = 65536
class = 1
",
    areas: &[Area {
        first: 0,
        count: 65_536,
    }],
    plans: &[TOUCH],
    rounds: 256,
    counts: &[
        (Thing::Dirty, 0),
        (Thing::Events, 1_281),
        (Thing::Loads, 1),
        (Thing::Done, 256),
    ],
    ..SAMPLE
};

/// There is memory for all workers, plans, frames and pages that there can be: one page is read once, for 256 plans.
#[test]
fn memory_is_there(rt: HostRuntime) {
    passes(&rt, &LARGE);
}

/// Reads a leaf, writes it, and takes one of two ways.
const ASK: &str = "{\"body\":[{\"fix\":\"a\",\"region\":\"leaf\"},{\"latch\":\"a\",\"mode\":\"S\"},\
{\"unlatch\":\"a\"},{\"latch\":\"a\",\"mode\":\"X\"},{\"unlatch\":\"a\"},{\"choice\":[[],[]]},\
{\"unfix\":\"a\"}],\"version\":1}";

/// Two leaves and a root, in slots that are numbered in another order than the regions, and a choice of three branches.
const CROSSED: &str =
    "{\"body\":[{\"fix\":\"b\",\"region\":\"leaf\"},{\"fix\":\"a\",\"region\":\"root\"},\
{\"latch\":\"a\",\"mode\":\"S\"},{\"latch\":\"b\",\"mode\":\"X\"},{\"unlatch\":\"b\"},{\"unlatch\":\"a\"},\
{\"choice\":[[],[],[{\"latch\":\"b\",\"mode\":\"S\"},{\"unlatch\":\"b\"}]]},\
{\"unfix\":\"b\"},{\"unfix\":\"a\"}],\"version\":1}";

/// Reads the root that is the worker's own, and takes the first of two branches.
const OTHER: &str =
    "{\"body\":[{\"choice\":[[{\"fix\":\"a\",\"region\":\"root\"},{\"latch\":\"a\",\"mode\":\"S\"},\
{\"unlatch\":\"a\"},{\"unfix\":\"a\"}],[]]}],\"version\":1}";

/// Gathers two leaves and gives them back.
const GATHER: &str =
    "{\"body\":[{\"gather\":\"g\",\"region\":\"leaf\"},{\"gather\":\"g\",\"region\":\"leaf\"},\
{\"scatter\":\"g\"}],\"version\":2}";

/// Writes a leaf, and reads two.
const WRITE_AND_READ: &str =
    "{\"body\":[{\"fix\":\"a\",\"region\":\"leaf\"},{\"latch\":\"a\",\"mode\":\"X\"},\
{\"unlatch\":\"a\"},{\"unfix\":\"a\"},{\"body\":[{\"fix\":\"a\",\"region\":\"leaf\"},\
{\"latch\":\"a\",\"mode\":\"S\"},{\"unlatch\":\"a\"},{\"unfix\":\"a\"}],\"loop\":2}],\"version\":1}";

/// The first page is told at once.
pub const AT_ONCE: Step = Step {
    behind: 0,
    until: Until::Nothing,
};

/// A page is told once one plan more has ended.
const PLAN_MORE: Step = Step {
    behind: 0,
    until: Until::PlanMore,
};

/// A plan that ends waits before for a call that waits for that.
pub const IN_TURN: Step = Step {
    behind: 0,
    until: Until::CallMore,
};

/// Other rows of runs.
static ROWS: &[Case] = &[
    // Two workers touch one page three times: it is read once, and nothing is left to flush.
    Case {
        name: "two_workers_touch_a_page",
        plans: &[TOUCH, TOUCH, TOUCH],
        counts: &[
            (Thing::Dirty, 0),
            (Thing::Events, 16),
            (Thing::Loads, 1),
            (Thing::Hits, 2),
            (Thing::Done, 3),
        ],
        ..SAMPLE
    },
    // The flusher finds nothing to flush while a worker reads, and waits. It is woken when the workers are joined.
    Case {
        name: "closing_wakes_the_flusher",
        workers: 1,
        plans: &[TOUCH],
        cues: &[Cue {
            at: Call::Read,
            page: ANY,
            until: Until::Nothing,
        }],
        counts: &[(Thing::Dirty, 0), (Thing::Events, 6)],
        ..SAMPLE
    },
    // Four workers share three plans that change one page by turns: two wait for its latch, and one stops at once, without an
    // event. Each is woken in the end.
    Case {
        name: "workers_that_wait_for_a_latch_are_woken",
        workers: 4,
        plans: &[WRITE, WRITE, WRITE],
        cues: &[Cue {
            at: Call::Change,
            page: ANY,
            until: Until::Nothing,
        }],
        counts: &[(Thing::Dirty, 0), (Thing::Changed, 3), (Thing::Done, 3)],
        ..SAMPLE
    },
    // One worker's work waits in the first call of each kind until the other has done one plan more, for which that needs the
    // lock several times.
    Case {
        name: "no_work_is_called_under_the_lock",
        plans: &[ASK, TOUCH, TOUCH, TOUCH, TOUCH, TOUCH],
        reach: 64,
        parts: &[
            Part {
                region: 1,
                steps: &[
                    Step {
                        behind: 0,
                        until: Until::PlanMore,
                    },
                    IN_TURN,
                    IN_TURN,
                    IN_TURN,
                    IN_TURN,
                    IN_TURN,
                ],
            },
            Part {
                region: 0,
                steps: &[IN_TURN, IN_TURN, IN_TURN, IN_TURN, IN_TURN],
            },
        ],
        cues: &[
            Cue {
                at: Call::Reach,
                page: 16,
                until: Until::PlanMore,
            },
            Cue {
                at: Call::See,
                page: 16,
                until: Until::PlanMore,
            },
            Cue {
                at: Call::Change,
                page: 16,
                until: Until::PlanMore,
            },
            Cue {
                at: Call::Branch,
                page: 16,
                until: Until::PlanMore,
            },
        ],
        counts: &[(Thing::Waited, 5), (Thing::Done, 6)],
        ..SAMPLE
    },
    // The same where the page is cached: as it is named behind another move, as it is seen, and as the next one is named.
    Case {
        name: "no_work_is_called_under_the_lock_at_a_hit",
        plans: &[WRITE_AND_READ, TOUCH, TOUCH, TOUCH],
        parts: &[
            Part {
                region: 1,
                steps: &[AT_ONCE, PLAN_MORE, PLAN_MORE],
            },
            Part {
                region: 0,
                steps: &[IN_TURN, IN_TURN, IN_TURN],
            },
        ],
        cues: &[Cue {
            at: Call::See,
            page: 16,
            until: Until::PlanMore,
        }],
        counts: &[
            (Thing::Waited, 3),
            (Thing::Changed, 1),
            (Thing::Seen, 2),
            (Thing::Done, 4),
        ],
        ..SAMPLE
    },
    // The same where a page to gather is told, the first of a bundle and a further one.
    Case {
        name: "no_page_to_gather_is_told_under_the_lock",
        plans: &[GATHER, TOUCH, TOUCH],
        parts: &[
            Part {
                region: 1,
                steps: &[PLAN_MORE, PLAN_MORE],
            },
            Part {
                region: 0,
                steps: &[IN_TURN, IN_TURN],
            },
        ],
        counts: &[(Thing::Waited, 2), (Thing::Done, 3)],
        ..SAMPLE
    },
    // Works see 100 bytes of 256, those of the front.
    Case {
        name: "works_see_as_far_as_they_reach",
        page_bytes: 256,
        flushes: 8,
        reach: 100,
        plans: &[WRITE, READ, READ, WRITE, READ],
        counts: &[(Thing::Dirty, 0), (Thing::Changed, 2), (Thing::Seen, 3)],
        ..SAMPLE
    },
    Case {
        name: "works_see_64_bytes_of_256",
        page_bytes: 256,
        flushes: 8,
        reach: 64,
        plans: &[READ, WRITE, READ],
        counts: &[(Thing::Dirty, 0), (Thing::Changed, 1), (Thing::Seen, 2)],
        ..SAMPLE
    },
    // Two workers share four plans, and each of these is counted once.
    Case {
        name: "each_plan_is_counted",
        plans: &[WRITE, READ, TOUCH, WRITE],
        counts: &[(Thing::Finished, 4), (Thing::Changed, 2), (Thing::Seen, 1)],
        ..SAMPLE
    },
    // One worker does four plans. In the middle of each, as many are counted as have ended before it.
    Case {
        name: "plans_are_counted_as_they_end",
        workers: 1,
        flushes: 0,
        plans: &[WRITE, WRITE, WRITE, WRITE],
        is_in_step: true,
        counts: &[(Thing::Asked, 4), (Thing::Changed, 4), (Thing::Finished, 4)],
        ..SAMPLE
    },
    // Three workers at once: each fixes the pages that its own work names, reads them by its own end, and hands its work these
    // pages and no others, over different plans.
    Case {
        name: "each_worker_has_its_own_work_and_device",
        workers: 3,
        flushes: 0,
        plans: &[OTHER, OTHER, OTHER, CROSSED, OTHER],
        picks: Picks::Seats,
        counts: &[(Thing::Begun, 3), (Thing::Strays, 0), (Thing::Done, 5)],
        ..SAMPLE
    },
    // Two workers write a leaf three times, read it three times, and leave it on the device with its last byte.
    Case {
        name: "pages_of_100_bytes",
        page_bytes: 100,
        flushes: 8,
        plans: &[WRITE, READ, WRITE, READ, WRITE, READ],
        counts: &[(Thing::Dirty, 0), (Thing::Changed, 3), (Thing::Seen, 3)],
        ..SAMPLE
    },
    Case {
        name: "pages_of_4096_bytes",
        page_bytes: 4_096,
        flushes: 8,
        plans: &[WRITE, READ, WRITE, READ, WRITE, READ],
        counts: &[(Thing::Dirty, 0), (Thing::Changed, 3), (Thing::Seen, 3)],
        ..SAMPLE
    },
    Case {
        name: "pages_of_65536_bytes",
        page_bytes: 65_536,
        flushes: 8,
        plans: &[WRITE, READ, WRITE, READ, WRITE, READ],
        counts: &[(Thing::Dirty, 0), (Thing::Changed, 3), (Thing::Seen, 3)],
        ..SAMPLE
    },
];

/// Each comes to what is counted in it.
#[test]
fn each_row_ends_well(rt: HostRuntime) {
    for case in ROWS {
        passes(&rt, case);
    }
}

/// The figures of a run whose only flush fails.
const UNFLUSHED: &str = "moves               9
hits                0
loads               1
readfaults          0
misreads            0
writebacks          0
writefaults         1
flushes             0
dirty               1
";

/// One worker writes a leaf, and the only flush fails.
static FAILS: Case = Case {
    name: "a_run_ends_whose_only_flush_fails",
    workers: 1,
    flushes: 1,
    plans: &[WRITE],
    faults: Faults::First(1),
    counts: &[(Thing::Dirty, 1), (Thing::Flushed, 1)],
    ..SAMPLE
};

/// A run ends well whose only flush fails: the report says so, and the page stays newer than the device's.
#[test]
fn a_run_ends_whose_only_flush_fails(rt: HostRuntime) {
    let record = passes(&rt, &FAILS);
    let text = report(rt.alloc(), &record).expect(&rt, "memory");
    if !text.ends_with(UNFLUSHED) {
        panic!(rt; "another report: {text}");
    }
}

/// The page behind the first root.
const SECOND: Step = Step {
    behind: 1,
    until: Until::Nothing,
};

const SECOND_ROOT: Part = Part {
    region: 0,
    steps: &[SECOND, SECOND],
};

/// Two workers want the same page, and the first one's end fails at its first call.
static FAILS_FIRST: Case = Case {
    name: "who_waits_for_a_page_that_fails_reads_it",
    flushes: 0,
    plans: &[TOUCH, TOUCH],
    parts: &[SECOND_ROOT, SECOND_ROOT],
    faults: Faults::First(0),
    counts: &[(Thing::Dirty, 0), (Thing::GoneElsewhere, 0)],
    ..SAMPLE
};

/// Two workers want the same page, and the first one's end fails at its first call. Whoever is first to read it, the run
/// ends well, 200 times: at most one plan can't go on, and that is the first worker's.
#[test]
fn who_waits_for_a_page_that_fails_reads_it(rt: HostRuntime) {
    for _again in 0..200 {
        let record = passes(&rt, &FAILS_FIRST);
        if count(&record.events, Thing::Gone) > 1 {
            panic!(rt; "both plans are gone");
        }
    }
}
