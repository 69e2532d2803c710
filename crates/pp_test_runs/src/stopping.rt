//! A thread that stops wakes all that wait, also where it stops without an event; and what comes of want of room for its log.

ghost use Rattle.std.specs.Prelude.{◌≡◌, ◌^◌, ◌<◌, vec_len};
ghost use Rattle.pp_settings.specs.declared.span.Span.TheVariants.{Bounded};

use crate::board::Board;
use crate::case::{ANY, Call, Case, Cue, SAMPLE, Thing, Until};
use crate::counting::count;
use crate::desk::{Closed, Habit, Odd, Told};
use crate::running::{ends_of, plans_of, players, refused, same, settings_of, told, watch};
use pp_cert::Accepted;
use pp_device::Device;
use pp_pool::{Book, Work};
use pp_run::{
    Bells, Desk, Flushed, Locked, LockedSite, RunError, Stop, ThreadRoom, Worked, judge, run_all,
};
use pp_settings::Settings;
use pp_test_plain::samples::{READ, TOUCH, WRITE};
use pp_wants::Sleepers;
use std::alloc::Global;
use std::process::Abort;
use std::sync::atomic::{AtomicBool, Ordering};
use std::sync::{Mutex, Wait};
use std::test::*;
use std::thread;
use std::thread::Threads;
use std::time::Clock;

/// What the threads of the workers and the flusher give back.
type Ends<D> = (Vec<Worked<D>>, Flushed<D>);

/// A book in which the plans wait, on a desk with this habit.
fn desk_of(
    rt: &impl Abort,
    alloc: Global,
    settings: &Settings,
    plans: Vec<Accepted>,
    row: &'static Row,
) -> Odd
    requires { settings.now.span ≡ Bounded }
{
    let Ok((mut book, hands)) = Book::new(alloc, settings) else {
        panic!(rt; "no memory")
    };
    for plan in plans {
        let is_taken_in = book.submit(plan).is_ok();
        assert!(rt; is_taken_in, "not taken in");
    }
    Odd::new(book, hands, settings, row.habit, row.told, row.refusals)
}

/// Runs the threads over the desk, and is watched.
fn threads_over<
    B: Desk + Send,
    D: Device + Drop + Send,
    W: Work + Drop + Send,
    R: Abort + Threads + Wait + Clock + AllocGlobal + Copy + Drop + Sync + Send,
>(
    rt: &R,
    lock: &Mutex<Locked<B>>,
    devices: Vec<D>,
    last: D,
    works: Vec<W>,
) -> Result<Ends<D>, RunError> {
    let alloc = rt.alloc();
    assert!(rt; devices.len() < 64 && works.len() == devices.len());
    let bells = Bells::new(alloc)?;
    let over = AtomicBool::new(false);
    let (_watched, ran) = thread::join(
        rt,
        || watch(rt, "a desk", &over),
        || -> Result<Ends<D>, RunError>
            requires few { vec_len devices < 2 ^ 32 }
            requires works { vec_len works ≡ vec_len devices }
        {
            let site = LockedSite {
                rt,
                lock,
                bells: &bells,
            };
            let room = ThreadRoom::new(alloc, devices.len())?;
            let ran = run_all(site, alloc, room, devices, last, 0, works);
            over.store(true, Ordering::SeqCst);
            ran
        },
    );
    ran
}

/// How many workers stopped so.
fn stopped<D>(worked: &[Worked<D>], stop: Stop) -> u64 {
    let mut count = 0u64;
    for end in worked {
        if end.stop == stop {
            count = count.saturating_add(1);
        }
    }
    count
}

/// What is told of the run.
fn judged<D: Drop>(
    rt: &impl Abort,
    alloc: Global,
    ends: Ends<D>,
    closed: &Closed,
) -> Result<(), RunError> {
    let (worked, flushed) = ends;
    assert!(rt; worked.len() == 2, "not two workers");
    judge(alloc, worked, &flushed, &closed.events, closed.left).map(|_back| ())
}

/// How the threads stopped, and what is told of the run.
#[derive(Drop)]
struct Stops {
    ended: u64,
    starved: u64,
    flusher: Stop,
    judged: Result<(), RunError>,
}

fn stops_of<D: Drop>(rt: &impl Abort, alloc: Global, ends: Ends<D>, closed: &Closed) -> Stops {
    let ended = stopped(ends.0.as_slice(), Stop::Ended);
    let starved = stopped(ends.0.as_slice(), Stop::NoMemory);
    let flusher = ends.1.stop;
    Stops {
        ended,
        starved,
        flusher,
        judged: judged(rt, alloc, ends, closed),
    }
}

/// What came of the desk and the threads is as the row says.
fn is_right(rt: &impl Abort, row: &Row, stops: &Stops, closed: &Closed) {
    let name = row.name;
    same(
        rt,
        name,
        "workers with nothing to do",
        stops.ended,
        row.ended,
    );
    same(
        rt,
        name,
        "workers without memory",
        stops.starved,
        row.starved,
    );
    assert!(rt;
        stops.flusher == row.flusher,
        "{name}: the flusher stopped otherwise"
    );
    assert!(rt; closed.is_back == row.is_back, "{name}: what comes back");
    assert!(rt; closed.is_flushing == row.is_flushing, "{name}: a flush");
    same(
        rt,
        name,
        "plans that are done",
        count(&closed.events, Thing::Done),
        row.done,
    );
    assert!(rt;
        closed.vain <= row.vain,
        "{name}: refused for now: {}",
        closed.vain
    );
    if let Some(events) = row.events {
        same(rt, name, "events", closed.events.len() as u64, events);
    }
    assert!(rt; stops.judged == row.judged, "{name}: {:?}", stops.judged);
}

/// Runs two workers and the flusher over a desk with this habit.
fn run_desk<R: Abort + Threads + Wait + Clock + AllocGlobal + Copy + Drop + Sync + Send>(
    rt: &R,
    row: &'static Row,
) {
    let alloc = rt.alloc();
    let board = Board::new(&row.case);
    let settings = settings_of(rt, alloc, &row.case);
    let plans = plans_of(rt, alloc, &settings, &row.case);
    let mut devices = told(rt, &board, ends_of(rt, &row.case));
    let works = players(rt, &board, 0);
    let Some(last) = devices.pop() else {
        panic!(rt; "no end")
    };
    let sleepers = Sleepers::new(alloc, row.case.workers).expect(rt, "memory");
    let desk = desk_of(rt, alloc, &settings, plans, row);
    let lock = Mutex::new(Locked::new(desk, sleepers));
    let ends = threads_over(rt, &lock, devices, last, works);
    let closed = lock.into_inner().into_desk().close(rt, &row.case);
    match ends {
        Ok(ends) => {
            let stops = stops_of(rt, alloc, ends, &closed);
            is_right(rt, row, &stops, &closed);
        }
        Err(error) => refused(rt, row.name, error),
    }
}

/// A run over a desk, and what comes of it.
#[derive(Drop)]
struct Row {
    name: &'static str,
    case: Case,
    habit: Habit,
    told: Told,
    /// How many workers are refused room.
    refusals: u64,
    /// How many workers had nothing more to do, and how many had no memory.
    ended: u64,
    starved: u64,
    flusher: Stop,
    is_back: bool,
    is_flushing: bool,
    done: u64,
    /// How many events there are, where that is always the same.
    events: Option<u64>,
    /// How often a request may have been refused for now.
    vain: u64,
    /// What is told of the run.
    judged: Result<(), RunError>,
}

const SLOW_READ: Cue = Cue {
    at: Call::Read,
    page: ANY,
    until: Until::Nothing,
};

const SLOW_FLUSH: Cue = Cue {
    at: Call::Flush,
    page: ANY,
    until: Until::Nothing,
};

/// Keeps a root, and reads a leaf eight times.
const LONG: &str =
    "{\"body\":[{\"fix\":\"b\",\"region\":\"root\"},{\"body\":[{\"fix\":\"a\",\"region\":\"leaf\"},\
{\"latch\":\"a\",\"mode\":\"S\"},{\"unlatch\":\"a\"},{\"unfix\":\"a\"}],\"loop\":8},{\"unfix\":\"b\"}],\"version\":1}";

/// Each time a page is seen.
const SLOW_LOOK: Cue = Cue {
    at: Call::See,
    page: ANY,
    until: Until::Nothing,
};

/// A slow plan that has all frames, and another one.
const FULL: Case = Case {
    name: "a slow plan that has all frames",
    frames: 2,
    plans: &[LONG, TOUCH],
    cues: &[SLOW_READ, SLOW_LOOK],
    ..SAMPLE
};

/// No plan.
const IDLE: Case = Case {
    name: "no plan",
    ..SAMPLE
};

/// One plan on a slow device.
const ONE: Case = Case {
    name: "one plan",
    plans: &[WRITE],
    cues: &[SLOW_READ, SLOW_FLUSH],
    ..SAMPLE
};

/// Three plans.
const THREE: Case = Case {
    name: "three plans",
    plans: &[WRITE, READ, WRITE],
    ..SAMPLE
};

/// One worker waits. The other finds no plan, and its hand that comes back wakes the first.
const HAND: Row = Row {
    name: "a_hand_that_is_put_back_wakes_who_waits",
    case: IDLE,
    habit: Habit::Hand,
    told: Told::Move,
    refusals: 0,
    ended: 2,
    starved: 0,
    flusher: Stop::Ended,
    is_back: true,
    is_flushing: false,
    done: 0,
    events: Some(0),
    vain: u64::MAX,
    judged: Ok(()),
};

/// The flusher has written the page of the only plan, and is told that it hasn't, so it stops. One worker waits meanwhile,
/// and the flush that is put back wakes it.
const FLUSH: Row = Row {
    name: "a_flush_that_is_put_back_wakes_who_waits",
    case: ONE,
    habit: Habit::Flush,
    flusher: Stop::Broken,
    is_flushing: true,
    done: 1,
    events: Some(9),
    judged: Err(RunError::Broken(2)),
    ..HAND
};

/// All rows.
static ROWS: &[Row] = &[
    HAND,
    Row {
        told: Told::Page,
        ..HAND
    },
    FLUSH,
    Row {
        told: Told::Page,
        ..FLUSH
    },
    // A worker that is refused room stops, its chair comes back, and the other one does all plans.
    Row {
        name: "a_worker_without_room_leaves_the_plans_to_the_other",
        case: THREE,
        habit: Habit::Room,
        told: Told::Move,
        refusals: 1,
        ended: 1,
        starved: 1,
        flusher: Stop::Ended,
        is_back: false,
        is_flushing: false,
        done: 3,
        events: None,
        vain: u64::MAX,
        judged: Ok(()),
    },
    // Where every worker is refused room the plans are left, and that is what is told of the run.
    Row {
        name: "a_run_without_room_wants_memory",
        case: THREE,
        habit: Habit::Room,
        told: Told::Move,
        refusals: 2,
        ended: 0,
        starved: 2,
        flusher: Stop::Ended,
        is_back: false,
        is_flushing: false,
        done: 0,
        events: Some(3),
        vain: u64::MAX,
        judged: Err(RunError::OutOfMemory),
    },
    // One worker waits for room while the other's plan makes its moves, each of which gives the lock back. It is told once, as that
    // plan has ended: it asks twice, and both ask again as the last plan is taken, and where none waits.
    Row {
        name: "who_waits_for_room_is_woken_by_no_other_move",
        case: FULL,
        habit: Habit::None,
        told: Told::Move,
        refusals: 0,
        ended: 2,
        starved: 0,
        flusher: Stop::Ended,
        is_back: false,
        is_flushing: false,
        done: 2,
        events: None,
        vain: 8,
        judged: Ok(()),
    },
];

/// Each comes to what stands there.
#[test]
fn each_desk_is_closed_well(rt: HostRuntime) {
    for row in ROWS {
        run_desk(&rt, row);
    }
}
