//! Readings of pages that are cached, one after another: each is begun by one call of the site, and ended by one.

ghost use Rattle.std.specs.Prelude.{◌≡◌, ◌+◌, ◌<◌, ◌≤◌, true, length};
ghost use Rattle.pp_plan.specs.declared.action.Ask.TheVariants as plan_ask;
ghost use Rattle.pp_plan.specs.declared.mode.Mode.TheVariants as modes;
ghost use Rattle.pp_vault.specs.declared.stage.Stage.TheVariants as stages;
ghost use Rattle.pp_pool.specs.declared.request.Request.TheVariants as request;
ghost use Rattle.pp_pool.specs.declared.turned.Turned.TheVariants.{Done};
ghost use Rattle.pp_pool.specs.Turns.{Consults, IsStep, IsReach, Prepares};
ghost use Rattle.pp_pool.specs.ShortTurns.{TurnsAtOnce, TurnsIfAny};

use crate::asked::{page_for, put};
use crate::book::{note_end, note_read};
use crate::request::Request;
use crate::site::Site;
use crate::turned::Turned;
use crate::work::Work;
use crate::worker::{made, see, taken_back};
use core::mem;
use pp_journal::Journal;
use pp_plan::{Ask, Mode};
use pp_settings::Layout;
use pp_vault::{Guard, Guards, ReadGuard, Session, Stage};

/// How many events a reading adds at most: a fix, a latch, an unlatch and an unfix.
const EVENTS: usize = 4;

/// Makes turns one after another as long as the plan reads pages: a page that is cached is fixed and latched S by one call of the
/// site, and unlatched and unfixed by one. What isn't possible so is made by a request; then it goes on where that was done and
/// the plan acts, as with the latch of a page that a device has read. Tells how the last turn ended; none where it made no turn:
/// the plan asks something else, or the log has no room for a reading's events.
pub(crate) fn read_on<S: Site, W: Work>(
    stage: &mut Stage,
    guards: &mut Guards,
    layout: &Layout,
    site: &mut S,
    log: &mut Journal,
    seen: &mut Vec<u8>,
    reach: &mut Option<usize>,
    work: &mut W,
) -> Option<Turned>
    requires { IsReach W.Work reach.old work.old }
    ensures turns { TurnsIfAny S.Site W.Work layout.now (length seen.old.items)
        (record { stage = stage.old; places = guards.old; site = site.old; log = log.old; work = work.old }) result
        (record { stage = stage.new; places = guards.new; site = site.new; log = log.new; work = work.new }) }
    ensures memory { log.new.capacity ≡ log.old.capacity }
    ensures seen { length seen.new.items ≡ length seen.old.items }
    ensures reach { IsReach W.Work reach.new work.new }
{
    if !is_reading(stage) {
        return None;
    }
    let around = (guards, site, log, seen, reach, work);
    let (turned, around) = mem::replace_with(stage, around, |stage, around| {
        let (guards, site, log, seen, reach, work) = around;
        let (stage, turned) = read_from(stage, guards, layout, site, log, seen, reach, work);
        (stage, (turned, (guards, site, log, seen, reach, work)))
    });
    let (guards, site, log, seen, reach, work) = around;
    taken_back(guards);
    taken_back(site);
    taken_back(log);
    taken_back(seen);
    taken_back(reach);
    taken_back(work);
    turned
}

/// Whether the worker acts in its plan, and that asks a move of a reading.
fn is_reading(stage: &Stage) -> bool {
    match stage {
        Stage::In(session) => {
            matches!(
                session.ask(),
                Ask::Fix { .. } | Ask::Latch { mode: Mode::S, .. } | Ask::Unlatch { .. }
            )
        }
        _ => false,
    }
}

/// The same with a stage that is handed on.
fn read_from<S: Site, W: Work>(
    stage: Stage,
    guards: &mut Guards,
    layout: &Layout,
    site: &mut S,
    log: &mut Journal,
    seen: &mut Vec<u8>,
    reach: &mut Option<usize>,
    work: &mut W,
) -> (Stage, Option<Turned>)
    requires { IsReach W.Work reach.old work.old }
    ensures turns { TurnsIfAny S.Site W.Work layout.now (length seen.old.items)
        (record { stage = stage; places = guards.old; site = site.old; log = log.old; work = work.old }) result.1
        (record { stage = result.0; places = guards.new; site = site.new; log = log.new; work = work.new }) }
    ensures memory { log.new.capacity ≡ log.old.capacity }
    ensures seen { length seen.new.items ≡ length seen.old.items }
    ensures reach { IsReach W.Work reach.new work.new }
{
    match stage {
        Stage::In(session) => read_many(session, guards, layout, site, log, seen, reach, work),
        stage => (stage, None),
    }
}

/// The same with a session.
fn read_many<S: Site, W: Work>(
    session: Session,
    guards: &mut Guards,
    layout: &Layout,
    site: &mut S,
    log: &mut Journal,
    seen: &mut Vec<u8>,
    reach: &mut Option<usize>,
    work: &mut W,
) -> (Stage, Option<Turned>)
    requires { IsReach W.Work reach.old work.old }
    ensures turns { TurnsIfAny S.Site W.Work layout.now (length seen.old.items)
        (record { stage = stages.In session; places = guards.old; site = site.old; log = log.old; work = work.old }) result.1
        (record { stage = result.0; places = guards.new; site = site.new; log = log.new; work = work.new }) }
    ensures memory { log.new.capacity ≡ log.old.capacity }
    ensures seen { length seen.new.items ≡ length seen.old.items }
    ensures reach { IsReach W.Work reach.new work.new }
{
    let mut session = session;
    let mut turned = None;
    for _ in 0..u64::MAX {
        let (stage, ended) = go_on(session, guards, layout, site, log, seen, reach, work);
        match ended {
            Some(now) => {
                if !is_done(now) {
                    return (stage, ended);
                }
                turned = ended;
            }
            None => return (stage, turned),
        }
        match stage {
            Stage::In(now) => session = now,
            stage => return (stage, turned),
        }
    }
    (Stage::In(session), turned)
}

/// Whether a turn that ends so is done.
fn is_done(turned: Turned) -> bool
    ensures { result ≡ true → turned ≡ Done }
{
    match turned {
        Turned::Done => true,
        _ => false,
    }
}

/// Reads a page, or goes on with one that has been fixed or read. Tells how the last turn ended; none where nothing has changed.
#[inline(always)]
fn go_on<S: Site, W: Work>(
    session: Session,
    guards: &mut Guards,
    layout: &Layout,
    site: &mut S,
    log: &mut Journal,
    seen: &mut Vec<u8>,
    reach: &mut Option<usize>,
    work: &mut W,
) -> (Stage, Option<Turned>)
    requires { IsReach W.Work reach.old work.old }
    ensures turns { TurnsIfAny S.Site W.Work layout.now (length seen.old.items)
        (record { stage = stages.In session; places = guards.old; site = site.old; log = log.old; work = work.old }) result.1
        (record { stage = result.0; places = guards.new; site = site.new; log = log.new; work = work.new }) }
    ensures memory { log.new.capacity ≡ log.old.capacity }
    ensures seen { length seen.new.items ≡ length seen.old.items }
    ensures reach { IsReach W.Work reach.new work.new }
{
    if !has_room(log) {
        return (Stage::In(session), None);
    }
    match session.ask() {
        Ask::Fix { slot, region } => {
            site.let_go();
            let Some(page) = page_for(&session, guards, slot, region, layout, work) else {
                return (Stage::In(session), None);
            };
            *reach = Some(work.reach());
            let (stage, turned) = read(session, page, guards, site, log, seen, reach, work);
            (stage, Some(turned))
        }
        Ask::Latch {
            slot,
            mode: Mode::S,
        } => latch(session, slot, guards, site, log, seen, reach, work),
        Ask::Unlatch { slot } => end(session, slot, guards, site, log, work),
        _ => (Stage::In(session), None),
    }
}

/// Whether the log has room for the events of a reading.
fn has_room(log: &Journal) -> bool
    ensures { result ≡ true → length log.now.items + 4 ≤ log.now.capacity }
{
    log.capacity().saturating_sub(log.len()) >= EVENTS
}

/// Latches the page of a slot S that is fixed, as one is that a device has read, by a request.
// Not inlined, so that a page that is cached needs no room for it.
#[inline(never)]
fn latch<S: Site, W: Work>(
    session: Session,
    slot: u8,
    guards: &mut Guards,
    site: &mut S,
    log: &mut Journal,
    seen: &mut Vec<u8>,
    reach: &mut Option<usize>,
    work: &mut W,
) -> (Stage, Option<Turned>)
    requires asks { session.ask ≡ plan_ask.Latch slot modes.S }
    requires room { length log.old.items < log.old.capacity }
    requires reach { IsReach W.Work reach.old work.old }
    ensures turns { (layout : _) → TurnsIfAny S.Site W.Work layout (length seen.old.items)
        (record { stage = stages.In session; places = guards.old; site = site.old; log = log.old; work = work.old }) result.1
        (record { stage = result.0; places = guards.new; site = site.new; log = log.new; work = work.new }) }
    ensures memory { log.new.capacity ≡ log.old.capacity }
    ensures seen { length seen.new.items ≡ length seen.old.items }
    ensures reach { IsReach W.Work reach.new work.new }
{
    match guards.take(u32::from(slot)) {
        Some(Guard::Pin(guard)) => {
            let request = Request::LatchShared(session, guard);
            let (stage, turned) = made(request, guards, site, log, seen, reach, work);
            (stage, Some(turned))
        }
        Some(guard) => {
            put(guards, guard);
            (Stage::In(session), None)
        }
        None => (Stage::In(session), None),
    }
}

/// Ends the reading of the page of a slot, where both moves are possible at once.
// Not inlined, since it is made only behind a page that a device has read: another reading ends where it was begun.
#[inline(never)]
fn end<S: Site, W: Work>(
    session: Session,
    slot: u8,
    guards: &mut Guards,
    site: &mut S,
    log: &mut Journal,
    work: &W,
) -> (Stage, Option<Turned>)
    requires asks { session.ask ≡ plan_ask.Unlatch slot }
    requires room { length log.old.items + 2 ≤ log.old.capacity }
    ensures turns { (layout : _) (room : _) → TurnsIfAny S.Site W.Work layout room
        (record { stage = stages.In session; places = guards.old; site = site.old; log = log.old; work = work.now }) result.1
        (record { stage = result.0; places = guards.new; site = site.new; log = log.new; work = work.now }) }
    ensures memory { log.new.capacity ≡ log.old.capacity }
{
    let worker = session.worker();
    match guards.take(u32::from(slot)) {
        Some(Guard::Read(guard)) => match site.end_read(session, guard) {
            Ok((session, mark)) => {
                note_end(worker, mark, log);
                (Stage::In(session), Some(Turned::Done))
            }
            Err((session, guard)) => {
                put(guards, Guard::Read(guard));
                (Stage::In(session), None)
            }
        },
        Some(guard) => {
            put(guards, guard);
            (Stage::In(session), None)
        }
        None => (Stage::In(session), None),
    }
}

/// Reads this page, which the work has named. Its guard comes into its place only where it is kept.
#[inline(always)]
fn read<S: Site, W: Work>(
    session: Session,
    page: u32,
    guards: &mut Guards,
    site: &mut S,
    log: &mut Journal,
    seen: &mut Vec<u8>,
    reach: &mut Option<usize>,
    work: &mut W,
) -> (Stage, Turned)
    requires room { length log.old.items + 4 ≤ log.old.capacity }
    requires prepares { Prepares guards.old (request.Fix session page) guards.old }
    requires reach { IsReach W.Work reach.old work.old }
    ensures turns { (layout : _) (before : _) → IsStep layout session (request.Fix session page)
        → Consults W.Work layout before (request.Fix session page) work.old
        → TurnsAtOnce S.Site W.Work layout (length seen.old.items)
        (record { stage = stages.In session; places = guards.old; site = site.old; log = log.old; work = before }) result.1
        (record { stage = result.0; places = guards.new; site = site.new; log = log.new; work = work.new }) }
    ensures memory { log.new.capacity ≡ log.old.capacity }
    ensures seen { length seen.new.items ≡ length seen.old.items }
    ensures reach { IsReach W.Work reach.new work.new }
{
    let worker = session.worker();
    let (session, guard) = match site.read(session, page) {
        Ok((session, guard, frame)) => {
            note_read(worker, page, frame, guard.mark(), log);
            (session, guard)
        }
        Err(session) => {
            let request = Request::Fix(session, page);
            return made(request, guards, site, log, seen, reach, work);
        }
    };
    let turned = see(site, &guard, seen, reach, work);
    if !ends_behind(turned, &session, &guard) {
        put(guards, Guard::Read(guard));
        return (Stage::In(session), turned);
    }
    match site.end_read(session, guard) {
        Ok((session, mark)) => {
            note_end(worker, mark, log);
            (Stage::In(session), Turned::Done)
        }
        Err((session, guard)) => {
            put(guards, Guard::Read(guard));
            (Stage::In(session), Turned::Done)
        }
    }
}

/// Whether the page was shown, and the plan asks the unlatch of the guard's slot behind it.
fn ends_behind(turned: Turned, session: &Session, guard: &ReadGuard) -> bool
    ensures shown { result ≡ true → turned ≡ Done }
    ensures asks { result ≡ true → session.now.ask ≡ plan_ask.Unlatch guard.now.slot }
{
    match turned {
        Turned::Done => asks_unlatch(session, guard),
        _ => false,
    }
}

/// Whether the plan asks the unlatch of the guard's slot.
fn asks_unlatch(session: &Session, guard: &ReadGuard) -> bool
    ensures { result ≡ true → session.now.ask ≡ plan_ask.Unlatch guard.now.slot }
{
    match session.ask() {
        Ask::Unlatch { slot } => u32::from(slot) == guard.slot(),
        _ => false,
    }
}
