//! Fix, unfix, latch, unlatch and unwind: cues of a worker that move the guards of its slots. A fix is a gather where the
//! plan asks one, and an unfix a scatter.

ghost use Rattle.std.specs.Prelude.{◌≡◌, true, false, Some, IfSome, IfOk, IfErr, OnErr, slice_set};
ghost use Rattle.pp_model.specs.Pool.{State};
ghost use Rattle.pp_vault.specs.Holding.{slot_by, is_free};
ghost use Rattle.pp_vault.specs.Stages.{stage_worker};
ghost use Rattle.pp_vault.specs.StandsFor.{StandsFor, IsKept};
ghost use Rattle.pp_vault.specs.Fits.{latch_call};
ghost use Rattle.pp_vault.specs.Events.{Refuses};
ghost use Rattle.pp_vault.specs.HandLaws.{FitsIn};
ghost use Rattle.pp_vault.specs.declared.guards.Guard.TheVariants.{Pin};
ghost use Rattle.pp_vault.specs.declared.stage.Stage.TheVariants.{In};
ghost use Rattle.pp_script.specs.declared.cue.Cue.TheVariants as cue;
ghost use Rattle.pp_play.specs.Plays.{ComesTo};
ghost use Rattle.pp_play.specs.Calling.{is_back};
ghost use Rattle.pp_play.specs.Doing.{slot_wanted, has_room, FixHasPlace, IsDone, HandPlays};
ghost use Rattle.pp_play.specs.Guarding.{hand_of, PlaysHand, FixLacksPlace, unlatch_with, ChangesGuard};
ghost use Rattle.pp_play.specs.Guarding.{uses_slot, slot_asked, put_left};
ghost use Rattle.pp_play.specs.Moving.{MovesHand, LatchesWith, UnlatchesWith, UsesGuard, RefusesGuard};

use crate::line::{Line, did, off_plan};
use pp_plan::Mode;
use pp_script::Cue;
use pp_vault::laws::hands_still_fit;
use pp_vault::{
    Ask, Cause, Done, Fixed, Guard, Guards, Hand, PinGuard, Refusal, Session, Stage, Vault,
};

/// Whether a page may come into the slot of the worker: nothing is in its place, or the slot is a bundle, and the guard of
/// one is there.
pub(crate) fn has_room(vault: &Vault, guards: &Guards, worker: u32, slot: u32) -> bool
    ensures { (s : State) → StandsFor vault.now s → result ≡ has_room s worker guards.now slot }
{
    guards.is_free(slot) || (guards.has_bundle(slot) && vault.has_bundle(worker, slot))
}

/// The slot into which a plan asks a page, by a fix or by a gather.
fn slot_wanted(ask: Ask) -> Option<u32>
    ensures { result ≡ slot_wanted ask }
{
    match ask {
        Ask::Fix { slot, .. } | Ask::Gather { slot, .. } => Some(u32::from(slot)),
        _ => None,
    }
}

/// Whether the page that the worker's plan asks to fix or to gather would find room in its slot.
fn fix_has_place(vault: &Vault, guards: &Guards, worker: u32) -> bool
    ensures free { result ≡ true → FixHasPlace vault.now worker guards.now }
    ensures taken { result ≡ false → FixLacksPlace vault.now worker guards.now }
{
    match vault.ask(worker) {
        Some(ask) => match slot_wanted(ask) {
            Some(slot) => has_room(vault, guards, worker, slot),
            None => true,
        },
        None => true,
    }
}

/// Puts a guard into its place, which is free.
pub(crate) fn put(guards: &mut Guards, guard: Guard)
    requires { is_free guards.old (slot_by guard) ≡ true }
    ensures { guards.new ≡ slice_set guards.old (slot_by guard) (Some guard) }
{
    match guards.put(guard) {
        Ok(()) => {}
        Err(_) => unreachable!(),
    }
}

/// A worker fixes or gathers a page into the slot that its plan names.
pub(crate) fn fix(vault: &mut Vault, hand: Hand, worker: u32, page: u32) -> (Hand, Line)
    requires { stage_worker hand.stage ≡ Some worker }
    ensures of { stage_worker result.0.stage ≡ Some worker }
    ensures comes { ComesTo vault.old (cue.Fix worker page) result.1 vault.new }
    ensures plays { FitsIn vault.old worker hand
        → HandPlays vault.old worker hand (cue.Fix worker page) result.1 vault.new result.0 }
    ensures moves { MovesHand vault.old hand result.1 vault.new result.0 }
    ensures forth { is_back hand.stage ≡ false → is_back result.0.stage ≡ false }
{
    vault.known();
    let cue = Cue::Fix { worker, page };
    let Hand { stage, mut guards } = hand;
    match stage {
        Stage::In(session) => {
            if !fix_has_place(vault, &guards, worker) {
                let stage = Stage::In(session);
                return (
                    Hand { stage, guards },
                    Line::Refused(cue, Refusal::Stranger),
                );
            }
            let (stage, line) = fix_in(vault, session, &mut guards, worker, page);
            (Hand { stage, guards }, line)
        }
        stage => (Hand { stage, guards }, off_plan(cue, Cause::NotActing)),
    }
}

/// The fix or the gather of a worker that acts; the slot has room for the page. The hand gets the guard of a bundle with the
/// first page that the bundle holds, and with a further one it stays.
fn fix_in(
    vault: &mut Vault,
    session: Session,
    guards: &mut Guards,
    worker: u32,
    page: u32,
) -> (Stage, Line)
    requires kept { IsKept vault.old }
    requires of { session.worker ≡ worker }
    requires place { FixHasPlace vault.old worker guards.old }
    ensures of { stage_worker result.0 ≡ Some worker }
    ensures comes { ComesTo vault.old (cue.Fix worker page) result.1 vault.new }
    ensures plays { PlaysHand vault.old worker (hand_of (In session) guards.old) (cue.Fix worker page) result.1
        vault.new (hand_of result.0 guards.new) }
    ensures moves { MovesHand vault.old (hand_of (In session) guards.old) result.1 vault.new
        (hand_of result.0 guards.new) }
    ensures forth { is_back result.0 ≡ false }
{
    hands_still_fit();
    match vault.fix(session, page) {
        Ok((fixed, done)) => {
            let line = did(done);
            match fixed {
                Fixed::Got(session, guard) => {
                    put(guards, Guard::Pin(guard));
                    (Stage::In(session), line)
                }
                Fixed::Opened(session, guard) => {
                    put(guards, Guard::Bundle(guard));
                    (Stage::In(session), line)
                }
                Fixed::Joined(session) => (Stage::In(session), line),
                Fixed::Away(errand) => (Stage::Out(errand), line),
            }
        }
        Err((session, refusal)) => {
            (
                Stage::In(session),
                Line::Refused(Cue::Fix { worker, page }, refusal),
            )
        }
    }
}

/// A worker uses the slot that its plan names: it gives the page back, or all pages of the bundle; it latches the page, in the
/// mode that the plan names; or it takes the latch off.
pub(crate) fn use_slot(vault: &mut Vault, hand: Hand, cue: Cue, worker: u32) -> (Hand, Line)
    requires of { stage_worker hand.stage ≡ Some worker }
    requires uses { uses_slot cue ≡ Some worker }
    ensures of { stage_worker result.0.stage ≡ Some worker }
    ensures comes { ComesTo vault.old cue result.1 vault.new }
    ensures plays { FitsIn vault.old worker hand → HandPlays vault.old worker hand cue result.1 vault.new result.0 }
    ensures moves { MovesHand vault.old hand result.1 vault.new result.0 }
    ensures forth { is_back hand.stage ≡ false → is_back result.0.stage ≡ false }
{
    vault.known();
    let Hand { stage, mut guards } = hand;
    match stage {
        Stage::In(session) => {
            let (stage, line) = use_asked(vault, session, &mut guards, cue, worker);
            (Hand { stage, guards }, line)
        }
        stage => (Hand { stage, guards }, off_plan(cue, Cause::NotActing)),
    }
}

/// The worker acts: where its plan asks what the cue does, that is done with the guard of the slot.
fn use_asked(
    vault: &mut Vault,
    session: Session,
    guards: &mut Guards,
    cue: Cue,
    worker: u32,
) -> (Stage, Line)
    requires kept { IsKept vault.old }
    requires of { session.worker ≡ worker }
    requires uses { uses_slot cue ≡ Some worker }
    ensures of { stage_worker result.0 ≡ Some worker }
    ensures comes { ComesTo vault.old cue result.1 vault.new }
    ensures plays { PlaysHand vault.old worker (hand_of (In session) guards.old) cue result.1 vault.new
        (hand_of result.0 guards.new) }
    ensures moves { MovesHand vault.old (hand_of (In session) guards.old) result.1 vault.new
        (hand_of result.0 guards.new) }
    ensures forth { is_back result.0 ≡ false }
{
    match slot_asked(cue, session.ask()) {
        Some(slot) => match guards.take(slot) {
            Some(guard) => match used(vault, session, guard, cue) {
                Ok((session, guard, done)) => {
                    put_left(guards, guard);
                    (Stage::In(session), did(done))
                }
                Err((session, guard, refusal)) => {
                    put(guards, guard);
                    (Stage::In(session), Line::Refused(cue, refusal))
                }
            },
            None => (Stage::In(session), Line::Refused(cue, Refusal::Stranger)),
        },
        None => (Stage::In(session), off_plan(cue, Cause::NotAsked)),
    }
}

/// The slot of which the plan asks what the cue does.
fn slot_asked(cue: Cue, ask: Ask) -> Option<u32>
    ensures { result ≡ slot_asked cue ask }
{
    match cue {
        Cue::Unfix { .. } => match ask {
            Ask::Unfix { slot } | Ask::Scatter { slot } => Some(u32::from(slot)),
            _ => None,
        },
        Cue::Latch { .. } => match ask {
            Ask::Latch { slot, .. } => Some(u32::from(slot)),
            _ => None,
        },
        Cue::Unlatch { .. } => match ask {
            Ask::Unlatch { slot } => Some(u32::from(slot)),
            _ => None,
        },
        _ => None,
    }
}

/// Puts a guard, if there is one, into its place, which is free.
fn put_left(guards: &mut Guards, guard: Option<Guard>)
    requires { IfSome guard (λ g. is_free guards.old (slot_by g) ≡ true) }
    ensures { guards.new ≡ put_left guards.old guard }
{
    match guard {
        Some(guard) => put(guards, guard),
        None => {}
    }
}

/// The call of the vault that the plan asks, for this guard of the slot. One of another kind is a stranger's.
fn used(
    vault: &mut Vault,
    session: Session,
    guard: Guard,
    cue: Cue,
) -> Result<(Session, Option<Guard>, Done), (Session, Guard, Refusal)>
    requires kept { IsKept vault.old }
    requires uses { uses_slot cue ≡ Some session.worker }
    requires asks { slot_asked cue session.ask ≡ Some (slot_by guard) }
    ensures ok { IfOk result (λ now. UsesGuard vault.old session guard cue now.2 vault.new now.0 now.1) }
    ensures err { IfErr result (λ e. RefusesGuard vault.old session guard cue e.2) }
    ensures back { IfErr result (λ e. (e.0 ≡ session) × (e.1 ≡ guard)) }
    ensures unchanged { OnErr result (vault.new ≡ vault.old) }
{
    hands_still_fit();
    match session.ask() {
        Ask::Unfix { .. } => match guard {
            Guard::Pin(guard) => match vault.unfix(session, guard) {
                Ok((session, done)) => Ok((session, None, done)),
                Err((session, guard, refusal)) => Err((session, Guard::Pin(guard), refusal)),
            },
            other => Err((session, other, Refusal::Stranger)),
        },
        Ask::Scatter { .. } => match guard {
            Guard::Bundle(guard) => match vault.scatter(session, guard) {
                Ok((session, done)) => Ok((session, None, done)),
                Err((session, guard, refusal)) => Err((session, Guard::Bundle(guard), refusal)),
            },
            other => Err((session, other, Refusal::Stranger)),
        },
        Ask::Latch { mode, .. } => match guard {
            Guard::Pin(guard) => match latched(vault, session, guard, mode) {
                Ok((session, guard, done)) => Ok((session, Some(guard), done)),
                Err((session, guard, refusal)) => Err((session, Guard::Pin(guard), refusal)),
            },
            other => Err((session, other, Refusal::Stranger)),
        },
        Ask::Unlatch { .. } => match unlatched(vault, session, guard) {
            Ok((session, guard, done)) => Ok((session, Some(Guard::Pin(guard)), done)),
            Err(kept) => Err(kept),
        },
        _ => unreachable!(),
    }
}

/// The call of the vault for this mode.
fn latched(
    vault: &mut Vault,
    session: Session,
    guard: PinGuard,
    mode: Mode,
) -> Result<(Session, Guard, Done), (Session, PinGuard, Refusal)>
    requires { IsKept vault.old }
    ensures of { IfOk result (λ now. now.0.worker ≡ session.worker) }
    ensures slot { IfOk result (λ now. slot_by now.1 ≡ guard.slot) }
    ensures done { IfOk result (λ now. IsDone vault.old (cue.Latch session.worker) now.2 vault.new) }
    ensures changes { IfOk result (λ now. ChangesGuard vault.old
        (latch_call mode session.worker guard.worker guard.slot guard.page) session.worker guard.slot vault.new
        now.0 now.1) }
    ensures uses { IfOk result (λ now. LatchesWith vault.old session guard now.2 vault.new now.0 now.1) }
    ensures err { IfErr result (λ e. Refuses vault.old
        (latch_call mode session.worker guard.worker guard.slot guard.page) e.2) }
    ensures back { IfErr result (λ e. (e.0 ≡ session) × (e.1 ≡ guard)) }
    ensures unchanged { OnErr result (vault.new ≡ vault.old) }
{
    match mode {
        Mode::S => match vault.latch_shared(session, guard) {
            Ok((session, guard, done)) => Ok((session, Guard::Read(guard), done)),
            Err(kept) => Err(kept),
        },
        Mode::X => match vault.latch_exclusive(session, guard) {
            Ok((session, guard, done)) => Ok((session, Guard::Write(guard), done)),
            Err(kept) => Err(kept),
        },
    }
}

/// The call of the vault for this guard. One that isn't of a latch is a stranger's.
fn unlatched(
    vault: &mut Vault,
    session: Session,
    guard: Guard,
) -> Result<(Session, PinGuard, Done), (Session, Guard, Refusal)>
    requires { IsKept vault.old }
    ensures of { IfOk result (λ now. now.0.worker ≡ session.worker) }
    ensures slot { IfOk result (λ now. now.1.slot ≡ slot_by guard) }
    ensures done { IfOk result (λ now. IsDone vault.old (cue.Unlatch session.worker) now.2 vault.new) }
    ensures changes { IfOk result (λ now. ChangesGuard vault.old (unlatch_with vault.old session guard) session.worker
        (slot_by guard) vault.new now.0 (Pin now.1)) }
    ensures uses { IfOk result (λ now. UnlatchesWith vault.old session guard now.2 vault.new now.0 now.1) }
    ensures err { IfErr result (λ e. Refuses vault.old (unlatch_with vault.old session guard) e.2) }
    ensures back { IfErr result (λ e. (e.0 ≡ session) × (e.1 ≡ guard)) }
    ensures unchanged { OnErr result (vault.new ≡ vault.old) }
{
    match guard {
        Guard::Read(guard) => match vault.unlatch_shared(session, guard) {
            Ok(now) => Ok(now),
            Err((session, guard, refusal)) => Err((session, Guard::Read(guard), refusal)),
        },
        Guard::Write(guard) => match vault.unlatch_exclusive(session, guard) {
            Ok(now) => Ok(now),
            Err((session, guard, refusal)) => Err((session, Guard::Write(guard), refusal)),
        },
        guard => Err((session, guard, Refusal::Stranger)),
    }
}

/// A worker that leaves its plan gives a slot back: latch and pin together, and a bundle whole.
pub(crate) fn unwind(vault: &mut Vault, hand: Hand, worker: u32, slot: u32) -> (Hand, Line)
    requires { stage_worker hand.stage ≡ Some worker }
    ensures of { stage_worker result.0.stage ≡ Some worker }
    ensures comes { ComesTo vault.old (cue.Unwind worker slot) result.1 vault.new }
    ensures plays { FitsIn vault.old worker hand
        → HandPlays vault.old worker hand (cue.Unwind worker slot) result.1 vault.new result.0 }
    ensures moves { MovesHand vault.old hand result.1 vault.new result.0 }
    ensures forth { is_back hand.stage ≡ false → is_back result.0.stage ≡ false }
{
    vault.known();
    hands_still_fit();
    let cue = Cue::Unwind { worker, slot };
    let Hand { stage, mut guards } = hand;
    match stage {
        Stage::Leaving(leaver) => match guards.take(slot) {
            Some(guard) => match vault.give_back(leaver, guard) {
                Ok((leaver, done)) => (
                    Hand {
                        stage: Stage::Leaving(leaver),
                        guards,
                    },
                    did(done),
                ),
                Err((leaver, guard, refusal)) => {
                    put(&mut guards, guard);
                    (
                        Hand {
                            stage: Stage::Leaving(leaver),
                            guards,
                        },
                        Line::Refused(cue, refusal),
                    )
                }
            },
            None => (
                Hand {
                    stage: Stage::Leaving(leaver),
                    guards,
                },
                off_plan(cue, Cause::NotHeld),
            ),
        },
        stage => (Hand { stage, guards }, off_plan(cue, Cause::NotLeaving)),
    }
}
