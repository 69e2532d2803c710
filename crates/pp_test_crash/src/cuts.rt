//! Runs whose power is cut off, and what their recovery has to bring back.

ghost use Rattle.std.specs.Prelude.{◌≤◌, ◌<◌};

use crate::file::{new_file, new_log, over};
use crate::image::BLOCK;
use crate::queries::Clerk;
use crate::recovery::recover;
use crate::redo_log::{Handle, Medium, RedoLog};
use crate::serving::{Reached, serve_all};
use pp_btree::regions::{CHAIRS, PAGE_BYTES, settings_of};
use pp_btree::{Plans, Shape, shape_of};
use pp_buffer_pool::{BufferPool, Policy};
use pp_durable::{Checksummed, WriteAhead};
use pp_test_durable::{Crashing, CrashingEnd};
use std::alloc::Global;
use std::collections::BTreeMap;
use std::process::Abort;
use std::sync::{Arc, Mutex, Wait};
use std::thread::Threads;

/// How many frames the pool has: as few as its plans allow, so that pages are evicted all the time.
const FRAMES: u32 = 8;

/// How many calls of a device are cut off at most, each in a run of its own. A run of one thread makes fewer.
const CALLS: u64 = 1_000;

/// Between two calls that are cut off in runs of four threads, which differ anyway by how the threads meet.
const STEP: u64 = 9;

/// Who waits to start, and when a flusher would begin: there is none.
const POLICY: Policy = Policy {
    queue: 16,
    bypass: 8,
    flush_from: 2,
    flush_to: 1,
};

/// A run: so many threads, and the call at which the power of a device fails.
#[derive(Clone, Copy)]
struct Cut {
    threads: usize,
    /// Whether it is the log's device, and not the pages'.
    is_logs: bool,
    call: u64,
}

/// An end of the pages' device for a pool: log before pages, and sums.
type End<R> = WriteAhead<Checksummed<CrashingEnd<R>>, Handle<R>>;

/// The ends of a pool, one for each chair and the flusher's, and one for checkpoints.
fn ends_of<R: Abort + Wait + Drop>(
    rt: &R,
    alloc: Global,
    pages: Crashing,
    log: &Arc<Mutex<RedoLog>>,
) -> (Vec<End<R>>, CrashingEnd<R>)
where
    R: Copy,
{
    let mut ends = CrashingEnd::ends_of(*rt, alloc, pages, CHAIRS + 2).expect(rt, "ends");
    let last = ends.pop().expect(rt, "an end");
    let mut devices = Vec::new(alloc);
    for end in ends {
        let handle = Handle::new(*rt, Arc::try_clone(log).expect(rt, "memory"));
        let device = WriteAhead::new(over(rt, alloc, end, PAGE_BYTES), handle);
        devices.push(device).expect(rt, "memory");
    }
    (devices, last)
}

/// Opens a pool over the ends, has the threads ask their queries, and gives the pool up: what it hasn't written is lost. No
/// thread reached anything where no pool is opened.
fn served<R: Abort + Threads + Wait + Sync + Send + Drop>(
    rt: &R,
    alloc: Global,
    devices: Vec<End<R>>,
    log: &Mutex<RedoLog>,
    end: &Mutex<CrashingEnd<R>>,
    threads: usize,
) -> Vec<Reached> {
    let settings = settings_of(alloc, FRAMES).expect(rt, "settings");
    let pool = match BufferPool::open(alloc, &settings, POLICY, devices) {
        Ok(pool) => pool,
        Err(_) => return Vec::new(alloc),
    };
    let plans = Plans::prepare(rt, alloc, &settings, &pool).expect(rt, "plans");
    let reached = serve_all(rt, alloc, &pool, &plans, log, end, threads);
    let _left = pool.abandon();
    reached.expect(rt, "memory")
}

/// Whether a tree has of the thread's keys exactly what the map has.
fn has_all_of(shape: &Shape, clerk: Clerk, map: &BTreeMap<u64, u64>) -> bool {
    let mut count = 0usize;
    for entry in shape.entries.iter() {
        if clerk.has(entry.key) {
            if map.get(&entry.key) != Some(&entry.value) {
                return false;
            }
            count = count.saturating_add(1);
        }
    }
    count == map.len()
}

/// The tree has of the thread's keys what its queries made of them, up to the one that was answered last, or to one that was asked
/// behind it.
fn survives(rt: &impl Abort, alloc: Global, shape: &Shape, clerk: Clerk, reached: Reached) {
    for count in reached.answered..=reached.asked {
        let map = clerk.map_after(alloc, count).expect(rt, "memory");
        if has_all_of(shape, clerk, &map) {
            return;
        }
    }
    let (thread, answered) = (clerk.thread, reached.answered);
    panic!(rt;
        "thread {thread}: {answered} queries were answered, and their changes aren't all there"
    );
}

/// Both devices crash, by chance. What they have after that is recovered and seen. Tells how high the root stands.
fn crash(
    rt: &impl Abort,
    alloc: Global,
    pages: Crashing,
    log: Medium,
    cut: Cut,
    ends: &[Reached],
) -> u64 {
    let log = log.into_inner().crash(cut.call);
    let mut log = over(rt, alloc, log, BLOCK);
    let pages = pages.crash(cut.call.wrapping_add(1));
    let mut pages = over(rt, alloc, pages, PAGE_BYTES);
    recover(rt, &mut log, &mut pages);
    let shape = shape_of(alloc, &mut pages).expect(rt, "memory");
    let amiss = shape.amiss;
    assert!(rt; amiss == 0, "{amiss} things of the tree are amiss");
    for thread in 0..cut.threads {
        let clerk = Clerk {
            threads: cut.threads,
            thread,
        };
        let reached = match ends.get(thread) {
            Some(reached) => *reached,
            None => Reached::NOTHING,
        };
        survives(rt, alloc, &shape, clerk, reached);
    }
    shape.height
}

/// One run, which a crash ends. Tells how high the root stands, where all was answered before.
fn run<R: Abort + Threads + Wait + Sync + Send + Drop>(
    rt: &R,
    alloc: Global,
    cut: Cut,
) -> Option<u64>
where
    R: Copy,
{
    let (of_log, of_pages) = if cut.is_logs {
        (cut.call, u64::MAX)
    } else {
        (u64::MAX, cut.call)
    };
    let log = RedoLog::new(new_log(rt, alloc, of_log));
    let log = Arc::new(alloc, Mutex::new(log)).expect(rt, "memory");
    let (devices, end) = ends_of(rt, alloc, new_file(rt, alloc, of_pages), &log);
    let end = Mutex::new(end);
    let ends = served(rt, alloc, devices, &log, &end, cut.threads);
    let pages = end.into_inner().into_device().expect(rt, "the pages");
    let log = Arc::into_inner(log).expect(rt, "the log").into_inner();
    let height = crash(rt, alloc, pages, log.into_device(), cut, &ends);
    if ends.len() == cut.threads && ends.iter().all(|it| it.is_whole) {
        Some(height)
    } else {
        None
    }
}

/// Each call of a device is cut off in a run of one thread, until a run isn't cut off any more.
fn cut_in_turn<R: Abort + Threads + Wait + Sync + Send + Drop>(rt: &R, alloc: Global, is_logs: bool)
where
    R: Copy,
{
    for call in 1..CALLS {
        let cut = Cut {
            threads: 1,
            is_logs,
            call,
        };
        if run(rt, alloc, cut).is_some() {
            return;
        }
    }
    panic!(rt; "each run was cut off");
}

#[test]
fn each_call_of_the_pages_is_cut_off_in_turn(rt: HostRuntime) {
    cut_in_turn(&rt, rt.alloc(), false);
}

#[test]
fn each_call_of_the_log_is_cut_off_in_turn(rt: HostRuntime) {
    cut_in_turn(&rt, rt.alloc(), true);
}

#[test]
fn calls_of_four_threads_are_cut_off(rt: HostRuntime) {
    for number in 1..10 {
        for is_logs in [false, true] {
            let cut = Cut {
                threads: CHAIRS,
                is_logs,
                call: number * STEP,
            };
            let _height = run(&rt, rt.alloc(), cut);
        }
    }
}

#[test]
fn a_run_that_nothing_cuts_off_answers_all(rt: HostRuntime) {
    let mut cut = Cut {
        threads: 1,
        is_logs: false,
        call: u64::MAX,
    };
    // The root is full after three splits, and grows before the fourth.
    assert_eq!(rt; run(&rt, rt.alloc(), cut), Some(2));
    cut.threads = CHAIRS;
    assert!(rt; run(&rt, rt.alloc(), cut).is_some());
}
