//! A script of cues, one after the other.

ghost use Rattle.std.specs.Prelude.{◌≡◌, ◌+◌, false, Some, None, length, OnOk, OnErr, take, drop};
ghost use Rattle.pp_vault.specs.StandsFor.{IsKept};
ghost use Rattle.pp_vault.specs.Parts.{Parts};
ghost use Rattle.pp_model.specs.Pool.{State};
ghost use Rattle.pp_vault.specs.Stages.{stage_worker};
ghost use Rattle.pp_play.specs.Plays.{Tells, ComesTo, AllComeTo};
ghost use Rattle.pp_play.specs.Exact.{Plays, PlaysFrom};
ghost use Rattle.pp_play.specs.AnyHands.{AnswersFrom, IsLineWith, IsHandLine, IsHandsLine};
ghost use Rattle.pp_vault.specs.StandsFor.{StandsFor};
ghost use Rattle.pp_play.specs.Calling.{tells_answer, is_back, answers, NoneBack, IsCalled};
ghost use Rattle.pp_play.specs.Moving.{tells_move};
ghost use Rattle.pp_play.specs.Following.{PlaysOverDevice};
ghost use Rattle.pp_play.specs.Honest.{IsHonestPlay};
ghost use Rattle.pp_play.specs.Moving.{hand_errand, DoesWith, PlaysFromAll};
ghost use Rattle.pp_play.specs.Doing.{cue_worker, HandPlays, IsLineWithout};
ghost use Rattle.pp_vault.specs.Hands.{HandsFit};
ghost use Rattle.pp_vault.specs.HandLaws.{FitsIn};
ghost use Rattle.pp_vault.specs.Headline.{HeadlineHolds};

use crate::line::{Line, off_plan};
use crate::refusing::told;
use crate::{bytes, devices, guards, workers};
use pp_contents::laws;
use pp_script::Cue;
use pp_text::{About, Refusal};
use pp_vault::{Cause, Device, Hand, Hands, Vault};
use std::alloc::AllocError;

/// Why a script isn't played.
#[derive(Clone, Copy, Debug, PartialEq, Eq, thiserror::Error)]
pub enum PlayError {
    /// Memory ran out before the first cue.
    #[error("out of memory")]
    OutOfMemory,
}

impl PlayError {
    ghost use Rattle.pp_text.specs.Refusals.{out_of_memory};
    ghost use Rattle.pp_text.specs.Views.{row_of_refusal};

    /// What a program prints: `19 OutOfMemory`.
    pub fn refusal(self) -> Refusal
        ensures { row_of_refusal result ≡ out_of_memory }
    {
        match self {
            PlayError::OutOfMemory => Refusal::new(19, "OutOfMemory", About::Nothing),
        }
    }

    /// The number of the refusal: 19.
    pub fn number(self) -> u8
        ensures { result ≡ out_of_memory.number }
    {
        self.refusal().number
    }

    /// The name of the refusal, as it is printed.
    pub fn name(self) -> &'static str
        ensures { result.now ≡ out_of_memory.name }
    {
        self.refusal().name
    }
}

impl From<AllocError> for PlayError {
    fn from(_: AllocError) -> PlayError {
        PlayError::OutOfMemory
    }
}

/// Plays the cues in turn, each with the tokens that are in the hands, and adds their lines to those that are there. A
/// cue that is refused doesn't end the script.
///
/// A cue whose tokens aren't in the hands, or don't fit the vault, gets the refusal that the core gives to its move; or
/// `offplan stranger` where that move is possible. A cue of a device is refused with `offplan noerrand` where no errand
/// is in the hands, and as a stranger's where the vault doesn't take the one that is there.
///
/// Where the hands fit the vault, a cue that is refused changes nothing, and the device is called once for each of its
/// answers that a line tells, but for one that was in the hands already. An errand of another vault may be carried out
/// before its answer is refused: then the device was called, and the answer stays in the hands.
///
/// Where a worker's plan asks a gather, a fix plays it, and where it asks a scatter, an unfix does. A bundle's pages aren't
/// latched through it, so a byte of a bundle is neither written nor looked at.
///
/// Room for all lines is got first.
///
/// # Errors
///
/// Only where that room can't be had. Then nothing is played.
pub fn play<D: Device>(
    vault: &mut Vault,
    hands: &mut Hands,
    device: &mut D,
    cues: &[Cue],
    lines: &mut Vec<Line>,
) -> Result<(), PlayError>
    ensures plays { OnOk result (AllComeTo vault.old cues.now lines.old.items lines.new.items vault.new) }
    ensures exact { OnOk result
        (AnswersFrom vault.old hands.old cues.now lines.old.items lines.new.items vault.new hands.new) }
    ensures fitting { OnOk result (HandsFit vault.old hands.old
        → PlaysFrom vault.old hands.old cues.now lines.old.items lines.new.items vault.new hands.new) }
    ensures fit { HandsFit vault.old hands.old → HandsFit vault.new hands.new }
    ensures calls { OnOk result (HandsFit vault.old hands.old → NoneBack hands.old → D.calls device.new
        ≡ D.calls device.old + answers (drop (length lines.old.items) lines.new.items)) }
    ensures none_back { HandsFit vault.old hands.old → NoneBack hands.old → NoneBack hands.new }
    ensures follows { OnOk result (PlaysOverDevice D.read_gives D.write_leaves vault.old hands.old device.old cues.now
        lines.old.items lines.new.items vault.new hands.new device.new) }
    ensures honest { OnOk result (IsHonestPlay D.read_gives D.write_leaves vault.old hands.old device.old cues.now
        lines.old.items lines.new.items vault.new hands.new device.new) }
    ensures length { OnOk result (length lines.new.items ≡ length lines.old.items + length cues.now) }
    ensures behind { take (length lines.old.items) lines.new.items ≡ lines.old.items }
    ensures err { OnErr result ((vault.new ≡ vault.old) × (hands.new ≡ hands.old) × (device.new ≡ device.old)
        × (lines.new.items ≡ lines.old.items)) }
    ensures kept { IsKept vault.new }
    ensures headline { HeadlineHolds vault.new }
{
    vault.known();
    laws::contents_are_kept();
    laws::honest_devices_tell_what_they_keep::<D>();
    lines.reserve(cues.len())?;
    for cue in cues {
        let line = play_one(vault, hands, device, *cue);
        lines.push_reserved(line);
    }
    vault.known();
    Ok(())
}

/// Plays one cue.
fn play_one<D: Device>(vault: &mut Vault, hands: &mut Hands, device: &mut D, cue: Cue) -> Line
    ensures comes { ComesTo vault.old cue result vault.new }
    ensures exact { (s : State) → StandsFor vault.old s → IsLineWith vault.old s hands.old hands.new cue result }
    ensures plays { HandsFit vault.old hands.old → Plays vault.old hands.old cue result vault.new hands.new }
    ensures called { HandsFit vault.old hands.old → NoneBack hands.old
        → IsCalled D.calls (tells_answer result) device.old device.new }
    ensures none_back { HandsFit vault.old hands.old → NoneBack hands.old → NoneBack hands.new }
    ensures over { PlaysFromAll D.read_gives D.write_leaves vault.old hands.old device.old cue result vault.new hands.new
        device.new }
{
    vault.known();
    let line = by_tokens(vault, hands, device, cue);
    told(vault, cue, line)
}

/// Plays one cue with the tokens that are in the hands. A line that says that it isn't done says why by these tokens.
fn by_tokens<D: Device>(vault: &mut Vault, hands: &mut Hands, device: &mut D, cue: Cue) -> Line
    ensures comes { ComesTo vault.old cue result vault.new }
    ensures own { IsHandsLine vault.old hands.old hands.new cue result }
    ensures plays { HandsFit vault.old hands.old → Plays vault.old hands.old cue result vault.new hands.new }
    ensures called { HandsFit vault.old hands.old → NoneBack hands.old
        → IsCalled D.calls (tells_answer result) device.old device.new }
    ensures none_back { HandsFit vault.old hands.old → NoneBack hands.old → NoneBack hands.new }
    ensures over { PlaysFromAll D.read_gives D.write_leaves vault.old hands.old device.old cue result vault.new hands.new
        device.new }
{
    vault.known();
    laws::contents_are_kept();
    match cue {
        Cue::Flush { page } => devices::flush(vault, hands, page),
        Cue::FlushDevice => devices::flush_work(vault, hands, device),
        Cue::Take { worker }
        | Cue::Fix { worker, .. }
        | Cue::Device { worker }
        | Cue::Unfix { worker }
        | Cue::Latch { worker }
        | Cue::Unlatch { worker }
        | Cue::Choose { worker, .. }
        | Cue::Unwind { worker, .. }
        | Cue::Finish { worker }
        | Cue::Write { worker, .. }
        | Cue::Look { worker, .. } => by_worker(vault, hands, device, cue, worker),
    }
}

/// Plays a cue of a worker, with the tokens in its hand.
fn by_worker<D: Device>(
    vault: &mut Vault,
    hands: &mut Hands,
    device: &mut D,
    cue: Cue,
    worker: u32,
) -> Line
    requires { cue_worker cue ≡ Some worker }
    ensures comes { ComesTo vault.old cue result vault.new }
    ensures own { IsHandsLine vault.old hands.old hands.new cue result }
    ensures plays { HandsFit vault.old hands.old → Plays vault.old hands.old cue result vault.new hands.new }
    ensures called { HandsFit vault.old hands.old → NoneBack hands.old
        → IsCalled D.calls (tells_answer result) device.old device.new }
    ensures none_back { HandsFit vault.old hands.old → NoneBack hands.old → NoneBack hands.new }
    ensures over { PlaysFromAll D.read_gives D.write_leaves vault.old hands.old device.old cue result vault.new hands.new
        device.new }
{
    vault.known();
    laws::contents_are_kept();
    let Some(hand) = hands.part(worker) else {
        return without_hand(cue);
    };
    let (hand, line) = with_hand(vault, hand, device, cue, worker);
    match hands.join(hand) {
        Ok(()) => line,
        Err(_) => unreachable!(),
    }
}

/// The line of a worker's cue where there is no hand of that worker.
fn without_hand(cue: Cue) -> Line
    ensures tells { (s : State) → Tells s cue result s }
    ensures exact { IsLineWithout cue result }
    ensures own { (v : Parts) → IsHandLine v None None cue result }
    ensures quiet { tells_answer result ≡ false }
    ensures undone { tells_move result ≡ false }
{
    match cue {
        Cue::Device { .. } => off_plan(cue, Cause::NoErrand),
        Cue::Write { .. } | Cue::Look { .. } => Line::NoLatch,
        _ => off_plan(cue, Cause::NoWorker),
    }
}

/// Plays a cue of the worker that this hand is of.
fn with_hand<D: Device>(
    vault: &mut Vault,
    hand: Hand,
    device: &mut D,
    cue: Cue,
    worker: u32,
) -> (Hand, Line)
    requires cue { cue_worker cue ≡ Some worker }
    requires hand { stage_worker hand.stage ≡ Some worker }
    requires kept { IsKept vault.old }
    ensures of { stage_worker result.0.stage ≡ Some worker }
    ensures comes { ComesTo vault.old cue result.1 vault.new }
    ensures own { IsHandLine vault.old (Some hand) (Some result.0) cue result.1 }
    ensures plays { FitsIn vault.old worker hand
        → HandPlays vault.old worker hand cue result.1 vault.new result.0 }
    ensures called { FitsIn vault.old worker hand → is_back hand.stage ≡ false
        → IsCalled D.calls (tells_answer result.1) device.old device.new }
    ensures forth { FitsIn vault.old worker hand → is_back hand.stage ≡ false → is_back result.0.stage ≡ false }
    ensures does { FitsIn vault.old worker hand → is_back hand.stage ≡ false
        → DoesWith D.read_gives D.write_leaves (hand_errand hand cue) vault.old hand device.old result.1 vault.new
        result.0 device.new }
{
    match cue {
        Cue::Take { .. } => workers::act(vault, hand, cue, worker),
        Cue::Fix { page, .. } => guards::fix(vault, hand, worker, page),
        Cue::Device { .. } => devices::work(vault, hand, device, worker),
        Cue::Unfix { .. } => guards::use_slot(vault, hand, cue, worker),
        Cue::Latch { .. } => guards::use_slot(vault, hand, cue, worker),
        Cue::Unlatch { .. } => guards::use_slot(vault, hand, cue, worker),
        Cue::Choose { .. } => workers::act(vault, hand, cue, worker),
        Cue::Unwind { slot, .. } => guards::unwind(vault, hand, worker, slot),
        Cue::Finish { .. } => workers::act(vault, hand, cue, worker),
        Cue::Write { slot, byte, .. } => bytes::write(hand, slot, byte),
        Cue::Look { slot, .. } => bytes::look(vault, hand, slot),
        Cue::Flush { .. } | Cue::FlushDevice => unreachable!(),
    }
}
