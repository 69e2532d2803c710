//! An engine with a log and three pages, whose power fails at each of its calls in turn.

ghost use Rattle.std.specs.Prelude.{◌^◌, ◌<◌, ◌≤◌};

use crate::crashing::Crashing;
use crate::page_log::{Handle, PageLog, record_at};
use crate::record::{BYTES, Record};
use pp_device::{Device, Fault};
use pp_durable::{Checksummed, Durable, SUM, WriteAhead};
use std::alloc::Global;
use std::process::Abort;
use std::sync::{Arc, Mutex, Wait};

/// How many pages the engine has.
const PAGES: u32 = 3;

/// How many changes it makes.
const CHANGES: u32 = 14;

/// How many calls of a device are cut off, each in a run of its own. A run makes fewer.
const CALLS: u64 = 40;

/// How many crashes follow each cut.
const CRASHES: u64 = 5;

/// The pages' device, and the log's.
type Medium = Checksummed<Crashing>;

/// A device of so many pages, whose power lasts for so many calls.
fn medium(rt: &impl Abort, alloc: Global, pages: u32, power: u64) -> Medium {
    let device = Crashing::new(alloc, pages, BYTES + SUM, power).expect(rt, "memory");
    over(rt, alloc, device)
}

/// The device behind check sums.
fn over(rt: &impl Abort, alloc: Global, device: Crashing) -> Medium {
    match Checksummed::new(alloc, device, BYTES) {
        Ok(device) => device,
        Err(_) => panic!(rt; "memory"),
    }
}

/// Which page change number n is of, and what it makes of it.
fn change(number: u32) -> (u32, u64)
    requires { number ≤ CHANGES }
    ensures { result.0 < PAGES }
{
    (number * 5 % 7 % PAGES, u64::from(number) * 11 + 3)
}

/// A page as the engine has it.
const NEW: Record = Record {
    number: 0,
    page: 0,
    value: 0,
};

/// The engine: makes its changes, ends a query behind some, and writes and syncs pages behind others. Tells the number of
/// the last record that it answered as durable. It ends where a call fails.
fn work<R: Wait, D: Device + Durable>(
    rt: &R,
    log: &Arc<Mutex<PageLog<Medium>>>,
    store: &mut D,
) -> u64 {
    let mut pages = [NEW; 3];
    let mut answered = 0;
    for number in 1..CHANGES + 1 {
        let (page, value) = change(number);
        let Some(record) = log.lock(rt).append(page, value) else {
            return answered;
        };
        pages[page as usize] = record;
        if number % 3 == 2 {
            if log.lock(rt).force(record.number).is_err() {
                return answered;
            }
            answered = record.number;
        }
        if number % 2 == 1 {
            let victim = number / 2 % PAGES;
            if write_back(store, victim, pages[victim as usize]).is_err() {
                return answered;
            }
        }
        if number % 5 == 4 && store.sync().is_err() {
            return answered;
        }
    }
    answered
}

/// Writes a page back.
fn write_back<D: Device>(store: &mut D, page: u32, last: Record) -> Result<(), Fault> {
    store.write(page, &last.to_image(page))
}

/// How many records the log's device has, from number 1 on without a gap. Each is the change that was made.
fn records(rt: &impl Abort, log: &mut Medium) -> u64 {
    let mut count = 0;
    for number in 1..CHANGES + 1 {
        let Some(record) = record_at(log, number) else {
            return count;
        };
        assert_eq!(rt; (record.page, record.value), change(number));
        count = u64::from(number);
    }
    count
}

/// The last change of the page among so many.
fn last_of(page: u32, count: u64) -> Record {
    let mut last = NEW;
    for number in 1..CHANGES + 1 {
        let (of, value) = change(number);
        if of == page && u64::from(number) <= count {
            last = Record {
                number: u64::from(number),
                page,
                value,
            };
        }
    }
    last
}

/// A page as the device has it: `NEW` where it was never written or is torn.
fn page_at(pages: &mut Medium, page: u32) -> Record {
    let mut bytes = [0; BYTES];
    match pages.read(page, &mut bytes) {
        Ok(()) => Record::of_image(&bytes),
        Err(_) => NEW,
    }
}

/// The page after the log's records behind its own were done again.
fn replayed(rt: &impl Abort, log: &mut Medium, page: u32, from: Record, count: u64) -> Record {
    let mut last = from;
    for number in 1..CHANGES + 1 {
        if u64::from(number) <= from.number || count < u64::from(number) {
            continue;
        }
        match record_at(log, number) {
            Some(record) if record.page == page => last = record,
            Some(_) => {}
            None => panic!(rt; "record {number} is gone"),
        }
    }
    last
}

/// What a crash left is enough: each record that was answered is there, no page is ahead of the log, and the log's replay
/// makes of each page what the changes made of it.
fn recovers(rt: &impl Abort, mut log: Medium, mut pages: Medium, answered: u64) {
    let count = records(rt, &mut log);
    assert!(rt;
        answered <= count,
        "{answered} were answered, and {count} are there"
    );
    for page in 0..PAGES {
        let found = page_at(&mut pages, page);
        assert!(rt; found.number <= count, "page {page} is ahead of the log");
        assert_eq!(rt; found, last_of(page, found.number));
        let now = replayed(rt, &mut log, page, found, count);
        assert_eq!(rt; now, last_of(page, count));
    }
}

/// One run: the log's power lasts for so many calls, and the pages' for so many. Then both crash, by chance.
fn run<R: Abort + Wait>(rt: &R, alloc: Global, powers: (u64, u64), seed: u64) -> u64
where
    R: Copy,
    requires { seed < 2 ^ 32 }
{
    let log = PageLog::new(medium(rt, alloc, CHANGES + 1, powers.0));
    let log = Arc::new(alloc, Mutex::new(log)).expect(rt, "memory");
    let other = Arc::try_clone(&log).expect(rt, "memory");
    let mut store = WriteAhead::new(medium(rt, alloc, PAGES, powers.1), Handle::new(*rt, other));
    let answered = work(rt, &log, &mut store);
    let (pages, handle) = store.into_parts();
    drop(handle);
    let Some(log) = Arc::into_inner(log) else {
        panic!(rt; "the log is shared");
    };
    let log = log.into_inner().into_device();
    let log = over(rt, alloc, log.into_inner().crash(seed));
    let pages = over(rt, alloc, pages.into_inner().crash(seed + 1));
    recovers(rt, log, pages, answered);
    answered
}

#[test]
fn each_call_is_cut_off_in_turn(rt: HostRuntime) {
    let alloc = rt.alloc();
    for seed in 0..CRASHES {
        for power in 0..CALLS {
            let _ = run(&rt, alloc, (power, u64::MAX), seed * 100 + power);
            let _ = run(&rt, alloc, (u64::MAX, power), seed * 100 + power);
        }
    }
}

#[test]
fn a_run_that_nothing_cuts_off_answers_all(rt: HostRuntime) {
    assert_eq!(rt; run(&rt, rt.alloc(), (CALLS, CALLS), 0), 14);
}
