//! What a worker asks next.

ghost use Rattle.std.specs.Prelude.{◌≡◌, ◌<◌, ℕ, List, Option, true, false, None, Some, IfOk, IfErr, IfSome, IfNone, OnErr, nat_lt, slice_set};
ghost use Rattle.pp_settings.specs.Limits.{most_slots};
ghost use Rattle.pp_plan.specs.declared.action.Ask.TheVariants as plan_ask;
ghost use Rattle.pp_pool.specs.declared.request.Request.TheVariants as request;
ghost use Rattle.pp_vault.specs.Duties.{duty_slot};
ghost use Rattle.pp_vault.specs.Holding.{slot_by, placed, is_free};
ghost use Rattle.pp_vault.specs.declared.guards.Guard.{Guard};
ghost use Rattle.pp_vault.specs.declared.guards.Guard.TheVariants as guard_kinds;
ghost use Rattle.pp_settings.specs.Layout.{Geometry};
ghost use Rattle.pp_pool.specs.Turns.{Asks, Consults, IsStep, IsWayOut, IsTold, Prepares, AsksSlot, IsWorkers};
ghost use Rattle.pp_pool.specs.Replies.{slot_for};
ghost use Rattle.pp_pool.specs.Turns.{guard_asked, places_without, suits, is_suited, can_step, can_ask_at};
ghost use Rattle.pp_pool.specs.Turns.{has_place as page_may_come};

use crate::held::SLOTS;
use crate::request::Request;
use crate::work::{Kind, Work};
use pp_device::Device;
use pp_plan::{Ask, Mode};
use pp_settings::Layout;
use pp_vault::{Guard, Guards, Leaver, PinGuard, Returned, Session, Stage};

/// The request that a worker of this stage makes, whose guard is taken out of its place; or the stage, where it makes none.
/// With an errand in hand the device is called.
#[tactic(auto, using(crate::proofs::Flushed::failed_by, crate::proofs::Turning::way_consults))]
pub(crate) fn next<D: Device, W: Work>(
    stage: Stage,
    guards: &mut Guards,
    layout: &Layout,
    device: &mut D,
    work: &mut W,
) -> Result<Request, Stage>
    ensures asks { IfOk result (λ asked. Asks D.read_gives D.write_leaves D.calls D.failures layout.now stage
        device.old asked device.new) }
    ensures consults { IfOk result (λ asked. Consults W.Work layout.now work.old asked work.new) }
    ensures prepares { IfOk result (λ asked. Prepares guards.old asked guards.new) }
    ensures err { OnErr result (can_ask_at layout.now guards.old stage ≡ false) }
    ensures back { IfErr result (λ e. e ≡ stage) }
    ensures guards { OnErr result (guards.new ≡ guards.old) }
    ensures device { OnErr result (device.new ≡ device.old) }
    ensures work { OnErr result (work.new ≡ work.old) }
{
    match stage {
        Stage::Idle(chair) => Ok(Request::Take(chair)),
        Stage::In(session) => match in_plan(session, guards, layout, work) {
            Ok(request) => Ok(request),
            Err(session) => Err(Stage::In(session)),
        },
        Stage::Out(errand) => {
            if !has_place(guards, errand.slot()) {
                return Err(Stage::Out(errand));
            }
            Ok(told(errand.carry_out(device), guards))
        }
        Stage::Back(returned) => {
            if !has_place(guards, returned.slot()) {
                return Err(Stage::Back(returned));
            }
            Ok(told(returned, guards))
        }
        Stage::Leaving(leaver) => Ok(on_the_way_out(leaver, guards)),
    }
}

/// Whether there is a slot, and a page may come for it: its place is free, or has a bundle's guard.
fn has_place(guards: &Guards, slot: Option<u32>) -> bool
    ensures { result ≡ page_may_come guards.now slot }
{
    match slot {
        Some(slot) => guards.is_free(slot) || guards.has_bundle(slot),
        None => false,
    }
}

/// What came of a device is sent: for a page that joins a bundle, where the bundle's guard is there.
#[tactic(auto, using(crate::proofs::Placing::answer_prepared, crate::proofs::Placing::join_prepared))]
fn told(returned: Returned, guards: &Guards) -> Request
    requires { page_may_come guards.now (duty_slot returned.duty) ≡ true }
    ensures told { IsTold returned result }
    ensures prepares { Prepares guards.now result guards.now }
{
    match returned.slot() {
        Some(slot) if guards.has_bundle(slot) => Request::AnswerJoin(returned),
        _ => Request::Answer(returned),
    }
}

/// What a worker asks in its plan.
fn in_plan<W: Work>(
    session: Session,
    guards: &mut Guards,
    layout: &Layout,
    work: &mut W,
) -> Result<Request, Session>
    ensures step { IfOk result (λ asked. IsStep layout.now session asked) }
    ensures consults { IfOk result (λ asked. Consults W.Work layout.now work.old asked work.new) }
    ensures prepares { IfOk result (λ asked. Prepares guards.old asked guards.new) }
    ensures err { OnErr result (can_step layout.now guards.old session.ask ≡ false) }
    ensures back { IfErr result (λ e. e ≡ session) }
    ensures guards { OnErr result (guards.new ≡ guards.old) }
    ensures work { OnErr result (work.new ≡ work.old) }
{
    match session.ask() {
        Ask::Fix { slot, region } => fix(session, guards, slot, region, layout, work),
        Ask::Gather { slot, region } => gather(session, guards, slot, region, layout, work),
        Ask::Choose { branches } => choose(session, branches, work),
        Ask::End => Ok(Request::Finish(session)),
        Ask::Unfix { slot } => with_slot(session, guards, slot),
        Ask::Latch { slot, .. } => with_slot(session, guards, slot),
        Ask::Unlatch { slot } => with_slot(session, guards, slot),
        Ask::Scatter { slot } => with_slot(session, guards, slot),
    }
}

/// A fix of a page of the region, where the place of its slot is free.
fn fix<W: Work>(
    session: Session,
    guards: &Guards,
    slot: u8,
    region: u8,
    layout: &Layout,
    work: &mut W,
) -> Result<Request, Session>
    requires { session.ask ≡ plan_ask.Fix slot region }
    ensures step { IfOk result (λ asked. IsStep layout.now session asked) }
    ensures consults { IfOk result (λ asked. Consults W.Work layout.now work.old asked work.new) }
    ensures prepares { IfOk result (λ asked. Prepares guards.now asked guards.now) }
    ensures err { OnErr result (can_step layout.now guards.now (plan_ask.Fix slot region) ≡ false) }
    ensures back { IfErr result (λ e. e ≡ session) }
    ensures work { OnErr result (work.new ≡ work.old) }
{
    match page_for(&session, guards, slot, region, layout, work) {
        Some(page) => Ok(Request::Fix(session, page)),
        None => Err(session),
    }
}

/// The page that the work names for a fix, where there is the region, and the place of the slot is free.
#[tactic(auto, using(crate::proofs::Placing::fix_step, crate::proofs::Turning::fix_consults, crate::proofs::Placing::fix_prepared))]
pub(crate) fn page_for<W: Work>(
    session: &Session,
    guards: &Guards,
    slot: u8,
    region: u8,
    layout: &Layout,
    work: &mut W,
) -> Option<u32>
    requires { session.now.ask ≡ plan_ask.Fix slot region }
    ensures step { IfSome result (λ page. IsStep layout.now session.now (request.Fix session.now page)) }
    ensures consults { IfSome result (λ page. Consults W.Work layout.now work.old (request.Fix session.now page) work.new) }
    ensures prepares { IfSome result (λ page. Prepares guards.now (request.Fix session.now page) guards.now) }
    ensures none { IfNone result (can_step layout.now guards.now (plan_ask.Fix slot region) ≡ false) }
    ensures work { IfNone result (work.new ≡ work.old) }
{
    let _extents = layout.extents();
    match layout.extent(region) {
        Some(extent) if guards.is_free(u32::from(slot)) => {
            let page = work.page_into(slot, Kind::Fix, region, extent.first, extent.count);
            Some(page)
        }
        _ => None,
    }
}

/// A gather of a page of the region: it opens a bundle where the place of its slot is free, and joins the one whose guard is
/// there.
#[tactic(auto, using(crate::proofs::Placing::gather_step, crate::proofs::Placing::join_step, crate::proofs::Turning::gather_consults, crate::proofs::Turning::join_consults, crate::proofs::Placing::opening_prepared, crate::proofs::Placing::joining_prepared))]
fn gather<W: Work>(
    session: Session,
    guards: &Guards,
    slot: u8,
    region: u8,
    layout: &Layout,
    work: &mut W,
) -> Result<Request, Session>
    requires { session.ask ≡ plan_ask.Gather slot region }
    ensures step { IfOk result (λ asked. IsStep layout.now session asked) }
    ensures consults { IfOk result (λ asked. Consults W.Work layout.now work.old asked work.new) }
    ensures prepares { IfOk result (λ asked. Prepares guards.now asked guards.now) }
    ensures err { OnErr result (can_step layout.now guards.now (plan_ask.Gather slot region) ≡ false) }
    ensures back { IfErr result (λ e. e ≡ session) }
    ensures work { OnErr result (work.new ≡ work.old) }
{
    let _extents = layout.extents();
    let place = u32::from(slot);
    match layout.extent(region) {
        Some(extent) if guards.is_free(place) => {
            let first = work.page_into(slot, Kind::Gather, region, extent.first, extent.count);
            Ok(Request::Fix(session, first))
        }
        Some(extent) if guards.has_bundle(place) => {
            let further = work.page_into(slot, Kind::Gather, region, extent.first, extent.count);
            Ok(Request::Join(session, further))
        }
        _ => Err(session),
    }
}

/// A branch of the choice, where it has one.
fn choose<W: Work>(session: Session, branches: u16, work: &mut W) -> Result<Request, Session>
    requires { session.ask ≡ plan_ask.Choose branches }
    ensures step { IfOk result (λ asked. (layout : Geometry) → IsStep layout session asked) }
    ensures consults { IfOk result (λ asked. (layout : Geometry) → Consults W.Work layout work.old asked work.new) }
    ensures prepares { IfOk result (λ asked. (guards : List (Option Guard)) → Prepares guards asked guards) }
    ensures err { OnErr result (nat_lt 0 branches ≡ false) }
    ensures back { IfErr result (λ e. e ≡ session) }
    ensures work { OnErr result (work.new ≡ work.old) }
{
    if branches == 0 {
        return Err(session);
    }
    let branch = u32::from(work.branch(branches));
    Ok(Request::Choose(session, branch))
}

/// What the plan asks of this slot, where it has a guard.
// Inlined, since else the guard goes through memory at each of its calls: a tenth of the instructions of a hit.
#[tactic(auto, using(crate::proofs::Placing::back_same))]
#[inline(always)]
fn with_slot(session: Session, guards: &mut Guards, slot: u8) -> Result<Request, Session>
    requires { AsksSlot slot session.ask }
    ensures step { IfOk result (λ asked. (layout : Geometry) → IsStep layout session asked) }
    ensures prepares { IfOk result (λ asked. Prepares guards.old asked guards.new) }
    ensures err { OnErr result (is_suited session.ask (placed guards.old slot) ≡ false) }
    ensures back { IfErr result (λ e. e ≡ session) }
    ensures guards { OnErr result (guards.new ≡ guards.old) }
{
    match guards.take(u32::from(slot)) {
        Some(guard) => match with_guard(session, guard) {
            Ok(request) => Ok(request),
            Err((session, guard)) => {
                put(guards, guard);
                Err(session)
            }
        },
        None => Err(session),
    }
}

/// What the plan asks of the guard of a slot.
fn with_guard(session: Session, guard: Guard) -> Result<Request, (Session, Guard)>
    requires { AsksSlot (slot_by guard) session.ask }
    ensures step { IfOk result (λ asked. (layout : Geometry) → IsStep layout session asked) }
    ensures guard { IfOk result (λ asked. guard_asked asked ≡ Some guard) }
    ensures slot { IfOk result (λ asked. slot_for asked ≡ Some (slot_by guard)) }
    ensures worker { IfOk result (λ asked. IsWorkers asked) }
    ensures err { OnErr result (suits session.ask guard ≡ false) }
    ensures back { IfErr result (λ e. e ≡ (session, guard)) }
{
    match guard {
        Guard::Pin(pin) => with_pin(session, pin),
        Guard::Read(read) => match session.ask() {
            Ask::Unlatch { .. } => Ok(Request::UnlatchShared(session, read)),
            _ => Err((session, Guard::Read(read))),
        },
        Guard::Write(write) => match session.ask() {
            Ask::Unlatch { .. } => Ok(Request::UnlatchExclusive(session, write)),
            _ => Err((session, Guard::Write(write))),
        },
        Guard::Bundle(bundle) => match session.ask() {
            Ask::Scatter { .. } => Ok(Request::Scatter(session, bundle)),
            _ => Err((session, Guard::Bundle(bundle))),
        },
    }
}

/// What the plan asks of a slot that isn't latched.
fn with_pin(session: Session, guard: PinGuard) -> Result<Request, (Session, Guard)>
    requires { AsksSlot guard.slot session.ask }
    ensures step { IfOk result (λ asked. (layout : Geometry) → IsStep layout session asked) }
    ensures guard { IfOk result (λ asked. guard_asked asked ≡ Some (guard_kinds.Pin guard)) }
    ensures slot { IfOk result (λ asked. slot_for asked ≡ Some guard.slot) }
    ensures worker { IfOk result (λ asked. IsWorkers asked) }
    ensures err { OnErr result (suits session.ask (guard_kinds.Pin guard) ≡ false) }
    ensures back { IfErr result (λ e. e ≡ (session, guard_kinds.Pin guard)) }
{
    match session.ask() {
        Ask::Unfix { .. } => Ok(Request::Unfix(session, guard)),
        Ask::Latch { mode, .. } => match mode {
            Mode::S => Ok(Request::LatchShared(session, guard)),
            Mode::X => Ok(Request::LatchExclusive(session, guard)),
        },
        _ => Err((session, Guard::Pin(guard))),
    }
}

/// A worker that leaves its plan gives its least slot back, and is idle again where it holds none.
#[tactic(auto, using(crate::proofs::Placing::not_free))]
fn on_the_way_out(leaver: Leaver, guards: &mut Guards) -> Request
    ensures out { IsWayOut leaver result }
    ensures prepares { Prepares guards.old result guards.new }
{
    if guards.is_empty() {
        return Request::End(leaver);
    }
    match take_first(guards) {
        Some(guard) => Request::GiveBack(leaver, guard),
        None => unreachable!(),
    }
}

/// Takes the guard of the least slot out that has one.
#[tactic(auto, using(crate::proofs::Placing::taken_free, crate::proofs::Placing::own_there))]
fn take_first(guards: &mut Guards) -> Option<Guard>
    ensures taken { guards.new ≡ places_without guards.old result }
    ensures own { IfSome result (λ guard. placed guards.old (slot_by guard) ≡ Some guard) }
    ensures free { IfSome result (λ guard. is_free guards.new (slot_by guard) ≡ true) }
    ensures least { IfSome result (λ guard. (slot : ℕ) → slot < slot_by guard → placed guards.old slot ≡ None) }
    ensures none { IfNone result ((slot : ℕ) → slot < most_slots → placed guards.old slot ≡ None) }
{
    for slot in 0..SLOTS {
        if let Some(guard) = guards.take(slot) {
            return Some(guard);
        }
    }
    None
}

/// Puts a guard into its place, which is free.
pub(crate) fn put(guards: &mut Guards, guard: Guard)
    requires { is_free guards.old (slot_by guard) ≡ true }
    ensures { guards.new ≡ slice_set guards.old (slot_by guard) (Some guard) }
{
    match guards.put(guard) {
        Ok(()) => {}
        Err(_) => unreachable!(),
    }
}
