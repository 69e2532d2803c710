//! The line of each kind of event, with each form of its reply.

use crate::common::same;
use pp_model::Came::{Fault, Image};
use pp_model::Ending::{Done, Gone};
use pp_model::Failure::{Misread, ReadFault, WriteFault};
use pp_model::Move::{
    Choose, Finish, Fix, FlushBegin, FlushDone, Latch, ReadDone, Take, Unfix, Unlatch, Unwind,
    WriteDone,
};
use pp_model::Reply::{
    Did, Failed, Finished, Flushed, Flushing, Hit, Latched, Loaded, MustRead, MustWrite, Taken,
    Unlatched,
};
use pp_model::{Event, Move, Reply};
use pp_report::journal_text;
use std::alloc::Global;
use std::process::Abort;
use std::test::Fail;

/// The moves with each form of their replies, and their lines. Each number is another one, so that none stands in another's
/// place.
static LINES: [(Move, Reply, &str); 21] = [
    (Take { worker: 1 }, Taken { plan: 2 }, "take 1 = taken 2"),
    (
        Fix {
            worker: 3,
            page: 16,
        },
        Hit { frame: 4, mark: 5 },
        "fix 3 16 = hit 4 5",
    ),
    (
        Fix {
            worker: 6,
            page: 17,
        },
        MustRead { frame: 8 },
        "fix 6 17 = mustread 8",
    ),
    (
        Fix {
            worker: 9,
            page: 18,
        },
        MustWrite {
            frame: 10,
            victim: 65535,
        },
        "fix 9 18 = mustwrite 10 65535",
    ),
    (
        WriteDone {
            worker: 11,
            ok: true,
        },
        MustRead { frame: 12 },
        "wrote 11 ok = mustread 12",
    ),
    (
        WriteDone {
            worker: 13,
            ok: false,
        },
        Failed(WriteFault),
        "wrote 13 bad = failed write",
    ),
    (
        ReadDone {
            worker: 14,
            came: Image(19, 20),
        },
        Loaded { mark: 21 },
        "came 14 19 20 = loaded 21",
    ),
    (
        ReadDone {
            worker: 15,
            came: Image(22, u64::MAX),
        },
        Failed(Misread),
        "came 15 22 18446744073709551615 = failed misread",
    ),
    (
        ReadDone {
            worker: 31,
            came: Fault,
        },
        Failed(ReadFault),
        "came 31 fault = failed read",
    ),
    (Unfix { worker: 23 }, Did, "unfix 23 = did"),
    (
        Latch { worker: 24 },
        Latched { mark: 25 },
        "latch 24 = latched 25",
    ),
    (
        Unlatch { worker: 26 },
        Unlatched { mark: 27 },
        "unlatch 26 = unlatched 27",
    ),
    (
        Choose {
            worker: 28,
            branch: 15,
        },
        Did,
        "choose 28 15 = did",
    ),
    (
        Unwind {
            worker: 29,
            slot: 30,
        },
        Did,
        "unwind 29 30 = did",
    ),
    (
        Unwind {
            worker: 0,
            slot: 31,
        },
        Unlatched {
            mark: 4611686018427387905,
        },
        "unwind 0 31 = unlatched 4611686018427387905",
    ),
    (Finish { worker: 2 }, Finished(Done), "finish 2 = done"),
    (
        Finish { worker: u32::MAX },
        Finished(Gone),
        "finish 4294967295 = gone",
    ),
    (
        FlushBegin { page: 33 },
        Flushing { mark: 34 },
        "flush 33 = flushing 34",
    ),
    (
        FlushDone { ok: true },
        Flushed { clean: true },
        "flushed ok = clean",
    ),
    (
        FlushDone { ok: true },
        Flushed { clean: false },
        "flushed ok = dirty",
    ),
    (
        FlushDone { ok: false },
        Flushed { clean: false },
        "flushed bad = dirty",
    ),
];

/// The journal of this event alone is this line.
fn is_told(rt: &impl Abort, alloc: Global, event: Event, line: &str) -> Result<(), Fail> {
    let got = journal_text(alloc, &[event])?;
    same(rt, got.strip_suffix("\n").unwrap_or(""), line);
    Ok(())
}

/// Each move with its reply is told so.
fn are_told(rt: &impl Abort, alloc: Global, rows: &[(Move, Reply, &str)]) -> Result<(), Fail> {
    for row in rows {
        let (did, reply, line) = *row;
        is_told(rt, alloc, Event::Step { did, reply }, line)?;
    }
    Ok(())
}

#[test]
fn each_kind_of_event_has_its_line(rt: HostRuntime) -> Result<(), Fail> {
    is_told(
        &rt,
        rt.alloc(),
        Event::Submit { plan: 7 },
        "submit 7 = queued",
    )?;
    are_told(&rt, rt.alloc(), &LINES)
}
