//! A pool that is kept from run to run.

ghost use Rattle.std.specs.Prelude.{◌≡◌, ◌+◌, vec_len};
ghost use Rattle.pp_settings.specs.declared.span.Span.TheVariants.{Bounded};

use crate::board::Board;
use crate::case::{Area, Case, Part, Picks, SAMPLE, Step, Thing, Until};
use crate::player::Player;
use crate::running::{add_plans, ends_of, plans_of, players, same, settings_of, stamp, stamps};
use crate::stress::{DESCENT, KEEPING};
use pp_cert::Accepted;
use pp_device::Device;
use pp_model::{Event, Move, Reply, SubmitError};
use pp_pool::Work;
use pp_report::{Journal, RENEWAL_LINE, audit_lives, packed_journal_text};
use pp_run::{Pool, RunError, RunRecord, Unbegun, Unrun};
use pp_settings::Settings;
use pp_shared::SharedDevice;
use pp_test_plain::accepted;
use pp_test_plain::samples::{GAPS, NOTHING, WRITE};
use std::alloc::Global;
use std::process::Abort;
use std::sync::Wait;
use std::sync::atomic::{AtomicU64, Ordering};
use std::test::*;
use std::thread::Threads;
use std::time::Clock;

/// A run over the pool that has to end well.
fn pool_run<D: Device + Drop + Send, W: Work + Drop + Send, R: Abort + Threads + Wait + Sync>(
    rt: &R,
    alloc: Global,
    pool: Pool,
    plans: Vec<Accepted>,
    devices: Vec<D>,
    works: Vec<W>,
) -> (RunRecord, Pool, Vec<D>)
    requires ends { vec_len devices ≡ pool.settings.workers + 1 }
    requires works { vec_len works ≡ pool.settings.workers }
{
    let finished = AtomicU64::new(0);
    match pool.run(rt, alloc, plans, devices, works, &finished) {
        Ok(ran) => {
            assert!(rt; finished.load(Ordering::SeqCst) == u64::from(ran.0.plans));
            ran
        }
        Err((error, _left)) => panic!(rt; "no run: {error}"),
    }
}

/// The same. The numbers of devices and works are tested first.
fn run_well<D: Device + Drop + Send, W: Work + Drop + Send, R: Abort + Threads + Wait + Sync>(
    rt: &R,
    alloc: Global,
    pool: Pool,
    plans: Vec<Accepted>,
    devices: Vec<D>,
    works: Vec<W>,
) -> (RunRecord, Pool, Vec<D>) {
    let workers = pool.workers() as usize;
    assert!(rt; workers < 64);
    assert!(rt; devices.len() == workers + 1);
    assert!(rt; works.len() == workers);
    pool_run(rt, alloc, pool, plans, devices, works)
}

/// Goes through so many lives of one pool, and gives their journals, an end of the device, and how many pages are dirty.
fn live_on<R: AllocGlobal + Abort + Threads + Wait + Clock + Copy + Drop + Sync + Send>(
    rt: &R,
    board: &Board,
    lives: u32,
) -> (Vec<Journal>, SharedDevice<R>, u32) {
    let alloc = rt.alloc();
    let case = board.case;
    let settings = settings_of(rt, alloc, case);
    let mut journals = Vec::new(alloc);
    let mut devices = ends_of(rt, case);
    let mut pool = opened(rt, alloc, &settings);
    for life in 0..lives {
        let plans = plans_of(rt, alloc, &settings, case);
        let works = players(rt, board, life);
        let (record, kept, back) = run_well(rt, alloc, pool, plans, devices, works);
        same(
            rt,
            case.name,
            "plans",
            u64::from(record.plans),
            case.plans.len() as u64,
        );
        journals.push(record.events).expect(rt, "memory");
        pool = kept;
        devices = back;
    }
    let dirty = pool.close();
    match devices.pop() {
        Some(end) => (journals, end, dirty),
        None => panic!(rt; "no end came back"),
    }
}

/// A new pool.
fn opened(rt: &impl Abort, alloc: Global, settings: &Settings) -> Pool
    requires { settings.now.span ≡ Bounded }
{
    match Pool::open(alloc, settings) {
        Ok(pool) => pool,
        Err(_) => panic!(rt; "no memory"),
    }
}

/// How many lines of the journals of lives are audited, where they are those of these settings and plans.
fn audited(alloc: Global, settings: &Settings, plans: Vec<Accepted>, journals: &str) -> Option<u64>
    requires { settings.now.span ≡ Bounded }
{
    match audit_lives(alloc, settings, plans, journals.as_bytes()) {
        Ok(audited) => Some(audited.lines),
        Err(_) => None,
    }
}

/// The journals of the first lives are audited in one text: so many, one behind the other.
fn are_audited(rt: &impl Abort, alloc: Global, case: &Case, journals: &[Journal], count: usize) {
    let settings = settings_of(rt, alloc, case);
    let mut plans = Vec::new(alloc);
    let mut text = String::new(alloc);
    let mut lines = 0u64;
    for (life, events) in journals.iter().take(count).enumerate() {
        if life > 0 {
            push_text(rt, &mut text, RENEWAL_LINE);
            push_text(rt, &mut text, "\n");
            lines = lines.saturating_add(1);
        }
        let journal = packed_journal_text(alloc, events).expect(rt, "memory");
        push_text(rt, &mut text, &journal);
        lines = lines.saturating_add(events.len() as u64);
        add_plans(rt, alloc, &settings, case, &mut plans);
    }
    let got = audited(alloc, &settings, plans, &text).unwrap_or(0);
    same(rt, case.name, "audited lines", got, lines);
}

/// Adds to a text.
fn push_text(rt: &impl Abort, text: &mut String, more: &str) {
    text.push_str(more).expect(rt, "memory");
}

/// Whether the events have a hit of page 16 with this mark, and no reading.
fn is_hit(events: &Journal, of_mark: u64) -> bool {
    let mut is_hit = false;
    for event in events {
        if let Event::Step { did, reply } = event {
            if let (Move::Fix { page: 16, .. }, Reply::Hit { mark, .. }) = (did, reply) {
                is_hit = is_hit || mark == of_mark;
            }
            if matches!(did, Move::ReadDone { .. }) {
                return false;
            }
        }
    }
    is_hit
}

/// One worker writes a leaf in each life, and the flusher has flushes in each.
static WARM: Case = Case {
    name: "a_run_finds_the_page_of_the_run_before",
    workers: 1,
    flushes: 2,
    plans: &[WRITE],
    ..SAMPLE
};

/// The second run over a pool finds the page that the first one wrote, and no device reads it again. The pool is clean in the
/// end, since the flusher had flushes in each life.
#[test]
fn a_run_finds_the_page_of_the_run_before(rt: HostRuntime) {
    let board = Board::new(&WARM);
    let (journals, _end, dirty) = live_on(&rt, &board, 2);
    match journals.as_slice() {
        [cold, warm] => {
            if is_hit(cold, 0) || !is_hit(warm, 1) {
                panic!(rt; "the first run is warm, or the second cold");
            }
        }
        _ => panic!(rt; "not two lives"),
    }
    same(&rt, "in the end", "dirty", u64::from(dirty), 0);
}

/// How many lives the long test has.
const LIVES: u32 = 100;

/// Seven frames, eight workers, 300 flushes in each life, and other regions than the samples'.
static LONG: Case = Case {
    name: "a_hundred_lives_are_one_history",
    frames: 7,
    workers: 8,
    flushes: 300,
    page_bytes: 320,
    pages: 10,
    regions: GAPS,
    areas: &[Area { first: 1, count: 3 }, Area { first: 5, count: 5 }],
    plans: &[
        DESCENT, KEEPING, KEEPING, DESCENT, DESCENT, DESCENT, KEEPING, DESCENT,
    ],
    picks: Picks::Chance,
    ..SAMPLE
};

/// Eight workers go through a hundred lives of one pool. The journal of each is audited with all before it, some of them on the
/// way; no image that a work sees is stale, and no change of any life is lost.
#[test]
fn a_hundred_lives_are_one_history(rt: HostRuntime) {
    let board = Board::new(&LONG);
    let (journals, mut device, dirty) = live_on(&rt, &board, LIVES);
    for count in [1, 7, LIVES as usize] {
        are_audited(&rt, rt.alloc(), &LONG, &journals, count);
    }
    let there = stamps(&rt, &LONG, &mut device);
    same(&rt, "in the end", "dirty", u64::from(dirty), 0);
    same(&rt, "all works", "amiss", board.number(Thing::Amiss), 0);
    same(
        &rt,
        "the device",
        "changes",
        there,
        board.number(Thing::Changed),
    );
    if board.number(Thing::Seen) == 0 {
        panic!(rt; "no image was seen");
    }
}

/// One worker, one flush in each life, and two leaves: the first is changed again once it is being flushed.
static SCARCE: Case = Case {
    name: "the_flusher_goes_on_in_the_next_run",
    workers: 1,
    flushes: 1,
    plans: &[WRITE, WRITE, WRITE],
    parts: &[Part {
        region: 1,
        steps: &[
            Step {
                behind: 0,
                until: Until::Nothing,
            },
            Step {
                behind: 1,
                until: Until::Come(Thing::Flushed, 1),
            },
        ],
    }],
    ..SAMPLE
};

/// The flusher goes on where it was in the run before. With one flush in each of two runs, of which both change the first leaf, each
/// of two leaves is written back once.
#[test]
fn the_flusher_goes_on_in_the_next_run(rt: HostRuntime) {
    let board = Board::new(&SCARCE);
    let (_journals, mut end, dirty) = live_on(&rt, &board, 2);
    let mut bytes = [0u8; 64];
    for page in [16, 17] {
        let there = stamp(&rt, &mut end, page, bytes.as_mut_slice());
        same(&rt, SCARCE.name, "the stamp on the device", there, 1);
    }
    same(&rt, SCARCE.name, "dirty", u64::from(dirty), 1);
    same(&rt, SCARCE.name, "amiss", board.number(Thing::Amiss), 0);
}

/// A run that isn't begun: what comes back of what was handed over. The test fails where it is another error, or was begun.
fn comes_back<D: Device + Drop + Send, W: Work + Drop + Send, R: Abort + Threads + Wait + Sync>(
    rt: &R,
    alloc: Global,
    lot: Unbegun<D, W>,
    want: RunError,
) -> Unbegun<D, W> {
    let Unbegun {
        pool,
        plans,
        devices,
        works,
    } = lot;
    let workers = pool.workers() as usize;
    assert!(rt; workers < 64);
    assert!(rt; devices.len() == workers + 1);
    assert!(rt; works.len() == workers);
    match not_run(rt, alloc, pool, plans, devices, works) {
        (error, Unrun::Unbegun(back)) => {
            assert!(rt; error == want, "{error}");
            back
        }
        (error, Unrun::Stalled(_stalled)) => panic!(rt; "begun: {error}"),
    }
}

/// A run over the pool that has to be refused.
fn not_run<D: Device + Drop + Send, W: Work + Drop + Send, R: Abort + Threads + Wait + Sync>(
    rt: &R,
    alloc: Global,
    pool: Pool,
    plans: Vec<Accepted>,
    devices: Vec<D>,
    works: Vec<W>,
) -> (RunError, Unrun<D, W>)
    requires ends { vec_len devices ≡ pool.settings.workers + 1 }
    requires works { vec_len works ≡ pool.settings.workers }
{
    let finished = AtomicU64::new(0);
    match pool.run(rt, alloc, plans, devices, works, &finished) {
        Ok(_ran) => panic!(rt; "run"),
        Err(not) => not,
    }
}

/// One worker writes a leaf, and nothing flushes it.
static KEPT: Case = Case {
    name: "a_run_that_is_not_begun_leaves_the_pool",
    workers: 1,
    flushes: 0,
    plans: &[WRITE],
    ..SAMPLE
};

/// Settings with a frame more.
static OTHERS: Case = Case {
    name: "other settings",
    frames: 4,
    workers: 1,
    flushes: 0,
    ..SAMPLE
};

/// So many plans that do nothing, and behind them one that is accepted for these settings.
fn plans_before(
    rt: &impl Abort,
    alloc: Global,
    own: &Settings,
    count: u32,
    last: &Settings,
) -> Vec<Accepted> {
    let mut plans = Vec::new(alloc);
    for place in 0..count.saturating_add(1) {
        let settings = if place == count { last } else { own };
        match accepted(alloc, settings, NOTHING) {
            Ok(plan) => plans.push(plan).expect(rt, "memory"),
            Err(_) => panic!(rt; "no memory, or not accepted"),
        }
    }
    plans
}

/// The plans are refused with this error, and all that was handed over comes back as it was.
fn refused_with<'a, R: AllocGlobal + Abort + Threads + Wait + Clock + Copy + Drop + Sync + Send>(
    rt: &R,
    lot: Unbegun<SharedDevice<R>, Player<'a, R>>,
    plans: Vec<Accepted>,
    want: RunError,
) -> Unbegun<SharedDevice<R>, Player<'a, R>> {
    let count = plans.len() as u64;
    let Unbegun {
        pool,
        plans: _,
        devices,
        works,
    } = lot;
    let dirty = pool.dirty();
    let frame = pool.began().frame_of(16);
    let lot = Unbegun {
        pool,
        plans,
        devices,
        works,
    };
    let back = comes_back(rt, rt.alloc(), lot, want);
    same(rt, KEPT.name, "plans", back.plans.len() as u64, count);
    same(rt, KEPT.name, "ends", back.devices.len() as u64, 2);
    same(rt, KEPT.name, "works", back.works.len() as u64, 1);
    same(
        rt,
        KEPT.name,
        "dirty",
        u64::from(back.pool.dirty()),
        u64::from(dirty),
    );
    assert!(rt; back.pool.began().frame_of(16) == frame, "another frame");
    back
}

/// Whatever plan of a run is refused, the first or a later one, nothing was done: the pool comes back as it was, with the plans, the
/// devices and the works. The next run finds the page that the run before wrote, and the journals of both are audited together.
#[test]
fn a_run_that_is_not_begun_leaves_the_pool(rt: HostRuntime) {
    let alloc = rt.alloc();
    let board = Board::new(&KEPT);
    let (own, other) = (
        settings_of(&rt, alloc, &KEPT),
        settings_of(&rt, alloc, &OTHERS),
    );
    let (plans, works) = (plans_of(&rt, alloc, &own, &KEPT), players(&rt, &board, 0));
    let pool = opened(&rt, alloc, &own);
    let (cold, pool, devices) = run_well(&rt, alloc, pool, plans, ends_of(&rt, &KEPT), works);
    let mut lot = Unbegun {
        pool,
        plans: Vec::new(alloc),
        devices,
        works: players(&rt, &board, 1),
    };
    for (count, last, want) in [
        (0, &other, SubmitError::OtherSettings),
        (3, &other, SubmitError::OtherSettings),
        (256, &own, SubmitError::TooManyPlans),
    ] {
        let plans = plans_before(&rt, alloc, &own, count, last);
        lot = refused_with(&rt, lot, plans, RunError::Refused(want));
    }
    let Unbegun {
        pool,
        plans: _,
        devices,
        works,
    } = lot;
    let plans = plans_of(&rt, alloc, &own, &KEPT);
    let (warm, pool, _devices) = run_well(&rt, alloc, pool, plans, devices, works);
    assert!(rt; is_hit(&warm.events, 1), "the page isn't there");
    let mut journals = Vec::new(alloc);
    journals.push(cold.events).expect(&rt, "memory");
    journals.push(warm.events).expect(&rt, "memory");
    are_audited(&rt, alloc, &KEPT, &journals, 2);
    same(&rt, KEPT.name, "dirty", u64::from(pool.close()), 1);
}
