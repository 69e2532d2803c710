//! Runs a case on threads, and looks at all that it leaves.

ghost use Rattle.std.specs.Prelude.{◌≡◌, ◌+◌, vec_len};
ghost use Rattle.pp_settings.specs.declared.span.Span.TheVariants.{Bounded};

use crate::board::Board;
use crate::case::{Case, Faults, Thing};
use crate::counting::number_of;
use crate::lent::Lent;
use crate::player::{Player, tells};
use crate::told::Told;
use pp_cert::Accepted;
use pp_device::{Device, Failing, Trouble, image};
use pp_pool::Work;
use pp_report::{Journal, audit, packed_journal_text};
use pp_run::{RunError, RunRecord, run_once};
use pp_settings::Settings;
use pp_shared::SharedDevice;
use pp_test_plain::accepted;
use std::alloc::Global;
use std::process::Abort;
use std::sync::Wait;
use std::sync::atomic::{AtomicBool, AtomicU64, Ordering};
use std::test::*;
use std::thread;
use std::thread::Threads;
use std::time::{Clock, Duration};

/// The test fails where the two numbers differ, and tells both.
pub fn same(rt: &impl Abort, name: &str, what: &str, got: u64, want: u64) {
    if got != want {
        panic!(rt; "{name}: {what}: got {got}, wanted {want}");
    }
}

/// The settings of a case, in which lives are bounded.
pub fn settings_of(rt: &impl Abort, alloc: Global, case: &Case) -> Settings
    ensures { result.span ≡ Bounded }
{
    let text = format!(in alloc;
        "frames = {}\npage_bytes = {}\nworkers = {}\nflushes = {}\n{}",
        case.frames, case.page_bytes, case.workers, case.flushes, case.regions
    )
    .expect(rt, "memory");
    let Ok(settings) = Settings::from_text(alloc, &text) else {
        panic!(rt; "{}: no settings", case.name)
    };
    let Ok(()) = settings.see_bounded() else {
        panic!(rt; "{}: endless lives", case.name)
    };
    settings
}

/// Adds the plans of a case, accepted.
pub fn add_plans(
    rt: &impl Abort,
    alloc: Global,
    settings: &Settings,
    case: &Case,
    plans: &mut Vec<Accepted>,
) {
    for _round in 0..case.rounds {
        for text in case.plans {
            match accepted(alloc, settings, text) {
                Ok(plan) => plans.push(plan).expect(rt, "memory"),
                Err(_) => panic!(rt; "{}: no memory, or not accepted: {text}", case.name),
            }
        }
    }
}

/// The plans of a case, accepted.
pub fn plans_of(rt: &impl Abort, alloc: Global, settings: &Settings, case: &Case) -> Vec<Accepted> {
    let mut plans = Vec::new(alloc);
    add_plans(rt, alloc, settings, case, &mut plans);
    plans
}

/// How many plans a case has.
fn plans_in(case: &Case) -> u64 {
    case.rounds.saturating_mul(case.plans.len() as u64)
}

/// A work for each worker. No two works of all lives begin with the same number.
pub fn players<'a, R: AllocGlobal + Abort + Clock + Copy + Drop>(
    rt: &R,
    board: &'a Board,
    life: u32,
) -> Vec<Player<'a, R>> {
    let workers = board.case.workers;
    let mut works = Vec::new(rt.alloc());
    for number in 0..workers {
        let chance = life.wrapping_mul(workers).wrapping_add(number);
        works
            .push(Player::new(*rt, board, number, chance))
            .expect(rt, "memory");
    }
    works
}

/// What goes amiss at the end with this number.
fn troubles(rt: &impl Abort, alloc: Global, case: &Case, number: u32) -> Vec<(u32, Trouble)> {
    let mut troubles = Vec::new(alloc);
    match case.faults {
        Faults::First(end) if end == number => {
            troubles.push((1, Trouble::Fail)).expect(rt, "memory");
        }
        Faults::Tenths => {
            for tenth in 1..200u32 {
                troubles
                    .push((tenth * 10, Trouble::Fail))
                    .expect(rt, "memory");
                troubles
                    .push((tenth * 10 + 5, Trouble::Lie(9999, 0)))
                    .expect(rt, "memory");
            }
        }
        _ => {}
    }
    troubles
}

/// The ends, told and troubled as the case says.
pub fn told<'a, R: AllocGlobal + Abort + Wait + Copy + Drop>(
    rt: &R,
    board: &'a Board,
    ends: Vec<SharedDevice<R>>,
) -> Vec<Told<'a, R>> {
    let alloc = rt.alloc();
    let mut devices = Vec::new(alloc);
    let mut number = 0u32;
    for end in ends {
        let device = Failing::new(end, troubles(rt, alloc, board.case, number));
        devices
            .push(Told::new(*rt, board, number, device))
            .expect(rt, "memory");
        number = number.saturating_add(1);
    }
    devices
}

/// An end of the same pages in memory for each worker, and one for the flusher.
pub fn ends_of<R: AllocGlobal + Abort + Wait + Copy + Drop>(
    rt: &R,
    case: &Case,
) -> Vec<SharedDevice<R>> {
    let bytes = case.page_bytes.max(image::HEAD);
    let ends = (case.workers as usize).saturating_add(1);
    SharedDevice::over_memory(*rt, rt.alloc(), case.pages, bytes, ends).expect(rt, "memory")
}

/// How many hundredths of a second a run may take: a third of the minute that a test has, so that a hang is told as one.
const PATIENCE: u32 = 2_000;

/// Waits until it is over. The test fails where that takes too long.
pub fn watch<R: Abort + Clock>(rt: &R, name: &str, over: &AtomicBool) {
    for _moment in 0..PATIENCE {
        if over.load(Ordering::SeqCst) {
            return;
        }
        let _slept = thread::sleep(rt, Duration::from_millis(10));
    }
    panic!(rt; "{name}: the run hangs");
}

/// Runs plans over devices, and is watched. The numbers of devices and works are tested first.
fn run_over<
    D: Device + Drop + Send,
    W: Work + Drop + Send,
    R: AllocGlobal + Abort + Threads + Wait + Clock + Sync,
>(
    rt: &R,
    name: &str,
    settings: &Settings,
    plans: Vec<Accepted>,
    devices: Vec<D>,
    works: Vec<W>,
    finished: &AtomicU64,
) -> Result<(RunRecord, Vec<D>), RunError>
    requires { settings.now.span ≡ Bounded }
{
    let alloc = rt.alloc();
    let workers = settings.workers() as usize;
    assert!(rt; workers < 64);
    assert!(rt; devices.len() == workers + 1);
    assert!(rt; works.len() == workers);
    let over = AtomicBool::new(false);
    let (_watched, ran) = thread::join(
        rt,
        || watch(rt, name, &over),
        || -> Result<(RunRecord, Vec<D>), RunError>
            requires bounded { settings.now.span ≡ Bounded }
            requires ends { vec_len devices ≡ settings.now.workers + 1 }
            requires works { vec_len works ≡ settings.now.workers }
        {
            let ran = run_once(rt, alloc, settings, plans, devices, works, finished);
            over.store(true, Ordering::SeqCst);
            ran
        },
    );
    ran
}

/// The test fails, since a run is refused.
pub fn refused<T>(rt: &impl Abort, name: &str, error: RunError) -> T {
    panic!(rt; "{name}: refused: {error}");
}

/// The last end. The others stand before it, in their order.
fn last_end<'a, R: Abort + Wait + Drop>(rt: &R, devices: Vec<Told<'a, R>>) -> SharedDevice<R> {
    let mut devices = devices;
    let mut place = 0u64;
    for device in devices.iter() {
        same(rt, "the ends", "number", u64::from(device.number), place);
        place = place.saturating_add(1);
    }
    match devices.pop() {
        Some(end) => end.into_end(),
        None => panic!(rt; "no end came back"),
    }
}

/// What the works of a run know of.
#[derive(Clone, Copy)]
enum Know {
    /// Of pages alone.
    Pages,
    /// Of their plans too, and they are lent pages.
    Plans,
}

/// A work for each worker, that is told of its plans and is lent pages.
fn lent<'a, R: AllocGlobal + Abort + Clock + Copy + Drop>(
    rt: &R,
    board: &'a Board,
) -> Vec<Lent<'a, R>> {
    let mut works = Vec::new(rt.alloc());
    for player in players(rt, board, 0) {
        works
            .push(Lent::new(*rt, board, player))
            .expect(rt, "memory");
    }
    works
}

/// Runs the plans of a case over these ends with works that know of so much, and gives the last end back.
fn run_case<R: AllocGlobal + Abort + Threads + Wait + Clock + Copy + Drop + Sync + Send>(
    rt: &R,
    board: &Board,
    ends: Vec<SharedDevice<R>>,
    know: Know,
) -> (RunRecord, SharedDevice<R>) {
    let alloc = rt.alloc();
    let settings = settings_of(rt, alloc, board.case);
    let plans = plans_of(rt, alloc, &settings, board.case);
    let devices = told(rt, board, ends);
    let (name, finished) = (board.case.name, board.counter());
    let ran = match know {
        Know::Pages => {
            let works = players(rt, board, 0);
            run_over(rt, name, &settings, plans, devices, works, finished)
        }
        Know::Plans => {
            let works = lent(rt, board);
            run_over(rt, name, &settings, plans, devices, works, finished)
        }
    };
    match ran {
        Ok((record, devices)) => (record, last_end(rt, devices)),
        Err(error) => refused(rt, name, error),
    }
}

/// How many lines of a journal are audited, where it is one of these settings and plans.
fn audited(alloc: Global, settings: &Settings, plans: Vec<Accepted>, journal: &str) -> Option<u64>
    requires { settings.now.span ≡ Bounded }
{
    match audit(alloc, settings, plans, journal.as_bytes()) {
        Ok(audited) => Some(audited.lines),
        Err(_) => None,
    }
}

/// The journal is audited: each event is possible at its point, with the reply that is told, and nothing is left.
fn is_audited(rt: &impl Abort, alloc: Global, case: &Case, events: &Journal) {
    let settings = settings_of(rt, alloc, case);
    let plans = plans_of(rt, alloc, &settings, case);
    let journal = packed_journal_text(alloc, events).expect(rt, "memory");
    let lines = audited(alloc, &settings, plans, &journal).unwrap_or(0);
    same(rt, case.name, "audited lines", lines, events.len() as u64);
}

/// What was counted is as the case says; all plans have ended; nobody waited in vain, and nothing was handed on amiss.
fn has_counts(rt: &impl Abort, board: &Board, record: &RunRecord) {
    let case = board.case;
    let name = case.name;
    let plans = plans_in(case);
    same(rt, name, "plans", u64::from(record.plans), plans);
    same(rt, name, "waits in vain", board.number(Thing::InVain), 0);
    same(rt, name, "things amiss", board.number(Thing::Amiss), 0);
    same(
        rt,
        name,
        "plans that ended",
        board.number(Thing::Finished),
        plans,
    );
    for counted in case.counts {
        let (thing, want) = *counted;
        same(rt, name, "count", number_of(board, record, thing), want);
    }
}

/// Reads the page into the slice, and gives its stamp, which the bytes at both ends of its body tell too.
pub fn stamp<R: Abort + Wait>(
    rt: &R,
    device: &mut SharedDevice<R>,
    page: u32,
    bytes: &mut [u8],
) -> u64 {
    if bytes.len() < image::HEAD {
        panic!(rt; "pages are too short");
    }
    if device.read(page, bytes).is_err() {
        panic!(rt; "page {page} was not read");
    }
    let (_page, stamp) = image::head(bytes);
    if !tells(bytes, page, stamp, bytes.len()) {
        panic!(rt; "page {page} has other bytes");
    }
    stamp
}

/// The stamps of all pages of the device, added up.
pub fn stamps<R: AllocGlobal + Abort + Wait>(
    rt: &R,
    case: &Case,
    device: &mut SharedDevice<R>,
) -> u64 {
    let mut bytes = vec![in rt.alloc(); 0u8; case.page_bytes].expect(rt, "memory");
    let mut sum = 0u64;
    for page in 0..case.pages {
        sum = sum.saturating_add(stamp(rt, device, page, bytes.as_mut_slice()));
    }
    sum
}

/// Runs the case over these ends with works that know of so much. The record is as the case says, its journal is true, and the device
/// has all changes, but for those of pages that are newer.
fn ends_well_with<R: AllocGlobal + Abort + Threads + Wait + Clock + Copy + Drop + Sync + Send>(
    rt: &R,
    board: &Board,
    ends: Vec<SharedDevice<R>>,
    know: Know,
) -> RunRecord {
    let case = board.case;
    let (record, mut end) = run_case(rt, board, ends, know);
    has_counts(rt, board, &record);
    is_audited(rt, rt.alloc(), case, &record.events);
    let (there, changed) = (stamps(rt, case, &mut end), board.number(Thing::Changed));
    if record.dirty == 0 {
        same(rt, case.name, "changes on the device", there, changed);
    } else if there >= changed {
        panic!(rt; "{}: a dirty page is on the device", case.name);
    }
    record
}

/// The same with works that know of pages alone.
pub fn ends_well<R: AllocGlobal + Abort + Threads + Wait + Clock + Copy + Drop + Sync + Send>(
    rt: &R,
    board: &Board,
    ends: Vec<SharedDevice<R>>,
) -> RunRecord {
    ends_well_with(rt, board, ends, Know::Pages)
}

/// The same over memory, with works that are told of their plans and are lent pages.
pub fn passes_lent<R: AllocGlobal + Abort + Threads + Wait + Clock + Copy + Drop + Sync + Send>(
    rt: &R,
    case: &'static Case,
) {
    ends_well_with(rt, &Board::new(case), ends_of(rt, case), Know::Plans);
}

/// The same over memory, with works that know of pages alone.
pub fn passes<R: AllocGlobal + Abort + Threads + Wait + Clock + Copy + Drop + Sync + Send>(
    rt: &R,
    case: &'static Case,
) -> RunRecord {
    let board = Board::new(case);
    let ends = ends_of(rt, case);
    ends_well(rt, &board, ends)
}
