//! Errands: what a device is asked for a worker or for the flusher, and its answer.

ghost use Rattle.std.specs.Prelude.{◌≡◌, true, false, None, Some};
ghost use Rattle.pp_vault.specs.Stages.{stage_worker};
ghost use Rattle.pp_vault.specs.Duties.{duty_worker};
ghost use Rattle.pp_vault.specs.StandsFor.{IsKept};
ghost use Rattle.pp_vault.specs.Hands.{HandsFit};
ghost use Rattle.pp_vault.specs.HandLaws.{FitsIn};
ghost use Rattle.pp_script.specs.declared.cue.Cue.TheVariants as cue;
ghost use Rattle.pp_play.specs.Plays.{ComesTo};
ghost use Rattle.pp_play.specs.Exact.{Plays};
ghost use Rattle.pp_play.specs.AnyHands.{IsStrangers, IsHandLine, IsHandsLine};
ghost use Rattle.pp_play.specs.Calling.{tells_answer, is_back, NoneBack, IsCalled};
ghost use Rattle.pp_play.specs.Doing.{ErrandHasPlace, HandPlays};
ghost use Rattle.pp_play.specs.Following.{errand_at};
ghost use Rattle.pp_play.specs.Moving.{MovesHand, TellsAnswer, DoesWith, EndsFlush, KeepsAll, PlaysFromAll};

use crate::guards::{has_room, put};
use crate::line::{Line, did, off_plan};
use pp_contents::laws::contents_are_kept;
use pp_script::Cue;
use pp_vault::{
    Answered, Cause, Delay, Device, Flushing, Guard, Guards, Hand, Hands, Refusal, Returned, Stage,
    Vault, laws,
};

/// Whether the page of the worker's errand would find room in its slot.
fn errand_has_place(vault: &Vault, guards: &Guards, worker: u32) -> bool
    ensures free { result ≡ true → ErrandHasPlace vault.now worker guards.now }
    ensures taken { result ≡ false → IsKept vault.now → ¬ ErrandHasPlace vault.now worker guards.now }
{
    match vault.errand(worker) {
        Some((slot, _, _)) => has_room(vault, guards, worker, slot),
        None => true,
    }
}

/// The device carries the worker's errand out, where it wasn't yet, and the answer goes to the vault.
pub(crate) fn work<D: Device>(
    vault: &mut Vault,
    hand: Hand,
    device: &mut D,
    worker: u32,
) -> (Hand, Line)
    requires { stage_worker hand.stage ≡ Some worker }
    ensures of { stage_worker result.0.stage ≡ Some worker }
    ensures comes { ComesTo vault.old (cue.Device worker) result.1 vault.new }
    ensures own { IsHandLine vault.old (Some hand) (Some result.0) (cue.Device worker) result.1 }
    ensures plays { FitsIn vault.old worker hand
        → HandPlays vault.old worker hand (cue.Device worker) result.1 vault.new result.0 }
    ensures called { FitsIn vault.old worker hand → is_back hand.stage ≡ false
        → IsCalled D.calls (tells_answer result.1) device.old device.new }
    ensures does { FitsIn vault.old worker hand → is_back hand.stage ≡ false
        → DoesWith D.read_gives D.write_leaves (errand_at hand.stage) vault.old hand device.old result.1 vault.new
        result.0 device.new }
    ensures forth { FitsIn vault.old worker hand → is_back hand.stage ≡ false → is_back result.0.stage ≡ false }
{
    vault.known();
    let cue = Cue::Device { worker };
    let Hand { stage, mut guards } = hand;
    let has_place = errand_has_place(vault, &guards, worker);
    match stage {
        Stage::Out(errand) => {
            if !has_place {
                let stage = Stage::Out(errand);
                return (
                    Hand { stage, guards },
                    Line::Refused(cue, Refusal::Stranger),
                );
            }
            let returned = errand.carry_out(device);
            let (stage, line) = answer(vault, returned, &mut guards, worker);
            (Hand { stage, guards }, line)
        }
        Stage::Back(returned) => {
            if !has_place {
                let stage = Stage::Back(returned);
                return (
                    Hand { stage, guards },
                    Line::Refused(cue, Refusal::Stranger),
                );
            }
            let (stage, line) = answer(vault, returned, &mut guards, worker);
            (Hand { stage, guards }, line)
        }
        stage => (Hand { stage, guards }, off_plan(cue, Cause::NoErrand)),
    }
}

/// The answer to an errand of a worker; its slot has room for the page. An errand that is out is taken, whatever came of
/// it, so that one that is refused is a stranger's.
fn answer(vault: &mut Vault, returned: Returned, guards: &mut Guards, worker: u32) -> (Stage, Line)
    requires kept { IsKept vault.old }
    requires of { duty_worker returned.duty ≡ Some worker }
    requires place { ErrandHasPlace vault.old worker guards.old }
    ensures of { stage_worker result.0 ≡ Some worker }
    ensures comes { ComesTo vault.old (cue.Device worker) result.1 vault.new }
    ensures strangers { IsStrangers result.1 }
    ensures plays { FitsIn vault.old worker (record { stage = Stage.Back returned; guards = guards.old })
        → HandPlays vault.old worker (record { stage = Stage.Back returned; guards = guards.old })
        (cue.Device worker) result.1 vault.new (record { stage = result.0; guards = guards.new }) }
    ensures moves { MovesHand vault.old (record { stage = Stage.Back returned; guards = guards.old }) result.1
        vault.new (record { stage = result.0; guards = guards.new }) }
    ensures tells { TellsAnswer returned result.1 }
    ensures answered { FitsIn vault.old worker (record { stage = Stage.Back returned; guards = guards.old })
        → (tells_answer result.1 ≡ true) × (is_back result.0 ≡ false) }
{
    laws::hands_still_fit();
    match vault.answer(returned) {
        Ok((answered, done)) => {
            let line = did(done);
            match answered {
                Answered::Got(session, guard) => {
                    put(guards, Guard::Pin(guard));
                    (Stage::In(session), line)
                }
                Answered::Opened(session, guard) => {
                    put(guards, Guard::Bundle(guard));
                    (Stage::In(session), line)
                }
                Answered::Joined(session) => (Stage::In(session), line),
                Answered::Away(errand) => (Stage::Out(errand), line),
                Answered::Lost(leaver) => (Stage::Leaving(leaver), line),
                Answered::Flushed(_) => unreachable!(),
            }
        }
        Err((returned, _)) => {
            (
                Stage::Back(returned),
                Line::Refused(Cue::Device { worker }, Refusal::Stranger),
            )
        }
    }
}

/// Puts what the flusher has at hand into its place, which is free.
fn put_flushing(hands: &mut Hands, flushing: Flushing)
    requires { hands.old.flushing ≡ None }
    ensures { hands.new ≡ record hands.old { flushing = Some flushing } }
{
    match hands.flushing.replace(flushing) {
        None => {}
        Some(_) => unreachable!(),
    }
}

/// The flusher begins to write a changed page.
pub(crate) fn flush(vault: &mut Vault, hands: &mut Hands, page: u32) -> Line
    ensures comes { ComesTo vault.old (cue.Flush page) result vault.new }
    ensures plays { HandsFit vault.old hands.old
        → Plays vault.old hands.old (cue.Flush page) result vault.new hands.new }
    ensures contents { KeepsAll vault.old hands.old (cue.Flush page) result vault.new hands.new }
    ensures none_back { NoneBack hands.old → NoneBack hands.new }
{
    vault.known();
    laws::hands_still_fit();
    contents_are_kept();
    let cue = Cue::Flush { page };
    if hands.flushing.is_some() {
        return Line::Refused(cue, Refusal::NotNow(Delay::FlushBusy));
    }
    match vault.flush(page) {
        Ok((errand, done)) => {
            put_flushing(hands, Flushing::Out(errand));
            did(done)
        }
        Err(refusal) => Line::Refused(cue, refusal),
    }
}

/// The device carries the flush out, where it wasn't yet, and the answer goes to the vault.
///
/// An errand of a worker that was put into the flusher's place stays there: it is a stranger.
pub(crate) fn flush_work<D: Device>(vault: &mut Vault, hands: &mut Hands, device: &mut D) -> Line
    ensures comes { ComesTo vault.old cue.FlushDevice result vault.new }
    ensures own { IsHandsLine vault.old hands.old hands.new cue.FlushDevice result }
    ensures plays { HandsFit vault.old hands.old
        → Plays vault.old hands.old cue.FlushDevice result vault.new hands.new }
    ensures called { HandsFit vault.old hands.old → NoneBack hands.old
        → IsCalled D.calls (tells_answer result) device.old device.new }
    ensures none_back { HandsFit vault.old hands.old → NoneBack hands.old → NoneBack hands.new }
    ensures over { PlaysFromAll D.read_gives D.write_leaves vault.old hands.old device.old cue.FlushDevice result
        vault.new hands.new device.new }
{
    vault.known();
    contents_are_kept();
    match hands.flushing.take() {
        None => off_plan(Cue::FlushDevice, Cause::NoErrand),
        Some(Flushing::Out(errand)) => {
            if errand.worker().is_some() {
                put_flushing(hands, Flushing::Out(errand));
                return Line::Refused(Cue::FlushDevice, Refusal::Stranger);
            }
            flushed(vault, hands, errand.carry_out(device))
        }
        Some(Flushing::Back(returned)) => {
            if returned.worker().is_some() {
                put_flushing(hands, Flushing::Back(returned));
                return Line::Refused(Cue::FlushDevice, Refusal::Stranger);
            }
            flushed(vault, hands, returned)
        }
    }
}

/// The answer to a flush. One that is in flight is taken, so that one that is refused is a stranger's.
fn flushed(vault: &mut Vault, hands: &mut Hands, returned: Returned) -> Line
    requires kept { IsKept vault.old }
    requires flush { duty_worker returned.duty ≡ None }
    requires free { hands.old.flushing ≡ None }
    ensures comes { ComesTo vault.old cue.FlushDevice result vault.new }
    ensures strangers { IsStrangers result }
    ensures plays { HandsFit vault.old (record hands.old { flushing = Some (Flushing.Back returned) })
        → Plays vault.old (record hands.old { flushing = Some (Flushing.Back returned) }) cue.FlushDevice result
        vault.new hands.new }
    ensures ends { EndsFlush vault.old returned hands.old result vault.new hands.new }
    ensures answered { HandsFit vault.old (record hands.old { flushing = Some (Flushing.Back returned) })
        → (tells_answer result ≡ true) × (hands.new ≡ hands.old) }
{
    laws::hands_still_fit();
    match vault.answer(returned) {
        Ok((answered, done)) => match answered {
            Answered::Flushed(_) => did(done),
            _ => unreachable!(),
        },
        Err((returned, _)) => {
            put_flushing(hands, Flushing::Back(returned));
            Line::Refused(Cue::FlushDevice, Refusal::Stranger)
        }
    }
}
