//! Journals with their reports, worked out by hand.

use crate::common::{is_printed, same};
use pp_model::Event;
use pp_report::{Asked, Journal, Line, RunRecord, Told, report};
use pp_test_plain::samples::WRITTEN;
use pp_totals::Totals;
use std::alloc::Global;
use std::process::Abort;
use std::test::*;

/// The event of a line, where what it asks and what it tells go together.
fn event_of(line: Line) -> Option<Event> {
    match (line.asked, line.told) {
        (Asked::Submit { plan }, Told::Queued) => Some(Event::Submit { plan }),
        (Asked::Do(did), Told::Answer(reply)) => Some(Event::Step { did, reply }),
        _ => None,
    }
}

/// The events of these lines.
fn events_of(rt: &impl Abort, alloc: Global, journal: &str) -> Result<Vec<Event>, Fail> {
    let mut events = Vec::new(alloc);
    for line in journal.lines() {
        match Line::from_text(line).and_then(event_of) {
            Some(event) => events.push(event)?,
            None => panic!(rt; "no event: {line}"),
        }
    }
    Ok(events)
}

/// A run of so many plans with this journal, that leaves so many pages newer than the device's, has this report.
fn reports(
    rt: &impl Abort,
    alloc: Global,
    plans: u16,
    dirty: u32,
    journal: &str,
    want: &str,
) -> Result<(), Fail> {
    let events = Journal::from_events(alloc, &events_of(rt, alloc, journal)?)?;
    let got = report(
        alloc,
        &RunRecord {
            plans,
            events,
            dirty,
        },
    )?;
    same(rt, got.as_str(), want);
    Ok(())
}

/// The report of [`WRITTEN`]: one worker writes a leaf, and nothing is flushed.
const WRITTEN_REPORT: &str = " plan worker    steps     hits    loads  outcome
    0      0        4        0        1  done
moves               7
hits                0
loads               1
readfaults          0
misreads            0
writebacks          0
writefaults         0
flushes             0
dirty               1
";

#[test]
fn one_plan_is_done(rt: HostRuntime) -> Result<(), Fail> {
    reports(&rt, rt.alloc(), 1, 1, WRITTEN, WRITTEN_REPORT)
}

/// Worker 1 writes a leaf that worker 0 reads, the first of its two flushes fails, and then the device fails a reading.
const MIXED: &str = "submit 0 = queued
submit 1 = queued
submit 2 = queued
take 1 = taken 0
take 0 = taken 1
fix 1 16 = mustread 0
came 1 16 0 = loaded 0
fix 0 16 = hit 0 0
latch 1 = latched 0
unlatch 1 = unlatched 1
flush 16 = flushing 1
latch 0 = latched 1
flushed bad = dirty
unlatch 0 = unlatched 1
flush 16 = flushing 1
flushed ok = clean
unfix 0 = did
finish 0 = done
unfix 1 = did
finish 1 = done
take 0 = taken 2
fix 0 1 = mustread 1
came 0 fault = failed read
finish 0 = gone
";

const MIXED_REPORT: &str = " plan worker    steps     hits    loads  outcome
    0      1        4        0        1  done
    1      0        4        1        0  done
    2      0        0        0        0  gone
moves              21
hits                1
loads               1
readfaults          1
misreads            0
writebacks          0
writefaults         1
flushes             1
dirty               0
";

#[test]
fn three_plans_of_two_workers_and_one_is_gone(rt: HostRuntime) -> Result<(), Fail> {
    reports(&rt, rt.alloc(), 3, 0, MIXED, MIXED_REPORT)
}

/// The totals of these lines.
fn totals_of(rt: &impl Abort, alloc: Global, journal: &str) -> Result<Totals, Fail> {
    let events = Journal::from_events(alloc, &events_of(rt, alloc, journal)?)?;
    Ok(Totals::of(&events))
}

/// The totals of [`MIXED`] and [`WRITTEN`] together.
const BOTH_TOTALS: &str = "submitted           4
taken               4
done                3
gone                1
moves              28
hits                1
loads               2
readfaults          1
misreads            0
writebacks          0
writefaults         1
flushes             1
";

#[test]
fn totals_add_up(rt: HostRuntime) -> Result<(), Fail> {
    let alloc = rt.alloc();
    let mixed = totals_of(&rt, alloc, MIXED)?;
    let written = totals_of(&rt, alloc, WRITTEN)?;
    is_printed(&rt, alloc, mixed.saturating_add(written), BOTH_TOTALS)?;
    same(&rt, mixed.saturating_add(Totals::default()), mixed);
    same(&rt, totals_of(&rt, alloc, "")?, Totals::new());
    let mut full = Totals::new();
    full.moves = u64::MAX;
    same(&rt, full.saturating_add(written).moves, u64::MAX);
    same(&rt, full.saturating_add(written).loads, 1);
    Ok(())
}
