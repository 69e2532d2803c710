//! A vault alone: one worker fixes a page, latches it X, and gives everything back; and once more in the vault's next life.

ghost use Rattle.std.specs.Prelude.{◌≡◌, true};
ghost use Rattle.pp_vault.specs.Headline.{Holds};
ghost use Rattle.pp_vault.specs.Stages.{is_idle_hand};

use pp_annotate::annotate;
use pp_cert::{Accepted, check};
use pp_device::SoloDevice;
use pp_plan::Plan;
use pp_settings::Settings;
use pp_vault::{
    Answered, Chair, Errand, Fixed, Guard, Hand, Hands, PinGuard, Session, Stage, Stopped, Vault,
};
use std::alloc::Global;

pub(crate) const SETTINGS: &str = "frames = 1
page_bytes = 64
workers = 1
flushes = 0
[[region]]
name = \"all\"
first = 0
count = 4
class = 0
";

/// A page is fixed, latched X, unlatched and unfixed.
const PLAN: &str = "{\"body\":[{\"fix\":\"a\",\"region\":\"all\"},{\"latch\":\"a\",\"mode\":\"X\"},\
    {\"unlatch\":\"a\"},{\"unfix\":\"a\"}],\"version\":1}";

/// How many pages are newer than the device's once a worker has latched page 2 for writing; `None` where a call was
/// refused.
pub fn changed_pages(alloc: Global) -> anyhow::Result<Option<u32>> {
    let settings = Settings::from_text(alloc, SETTINGS)?;
    let accepted = accepted(alloc, &settings)?;
    let mut device = SoloDevice::new(alloc, 4, 64)?;
    let (mut vault, mut hands) = Vault::new(alloc, &settings)?;
    let Some(hand) = hands.part(0) else {
        vault.scrap(hands);
        return Ok(None);
    };
    let stopped = run(&mut vault, &mut device, chair_of(hand), accepted);
    Ok(changed(vault, hands, stopped))
}

/// How many pages are newer than the device's after two lives of a vault, in each of which a worker has latched page 2 for
/// writing; `None` where a call was refused.
///
/// The first life reads the page. In the second one it is still cached, so a device without pages serves as well.
pub fn changed_pages_in_two_lives(alloc: Global) -> anyhow::Result<Option<u32>> {
    let settings = Settings::from_text(alloc, SETTINGS)?;
    let (first, second) = (accepted(alloc, &settings)?, accepted(alloc, &settings)?);
    let mut device = SoloDevice::new(alloc, 4, 64)?;
    let mut nothing = SoloDevice::new(alloc, 0, 64)?;
    let (mut vault, mut hands) = Vault::new(alloc, &settings)?;
    let Some(hand) = hands.part(0) else {
        vault.scrap(hands);
        return Ok(None);
    };
    let stopped = run(&mut vault, &mut device, chair_of(hand), first);
    let stopped = run_again(&mut vault, &mut nothing, stopped, second);
    Ok(changed(vault, hands, stopped))
}

/// The chair of an idle worker's hand.
fn chair_of(hand: Hand) -> Chair
    requires { is_idle_hand hand ≡ true }
{
    match hand.chair() {
        Ok(chair) => chair,
        Err(_) => unreachable!(),
    }
}

/// Gives the vault up. Answers how many pages were newer than the device's, where the worker had done its plan.
fn changed(vault: Vault, hands: Hands, stopped: Stopped) -> Option<u32> {
    let changed = match &stopped.stage {
        Some(Stage::Idle(_)) => Some(vault.dirty()),
        _ => None,
    };
    vault.scrap_with(hands, stopped);
    changed
}

/// A worker that has done its plan does another one in the vault's next life; one that hasn't stays where it is.
fn run_again(
    vault: &mut Vault,
    device: &mut SoloDevice,
    stopped: Stopped,
    accepted: Accepted,
) -> Stopped {
    let Stopped { stage, guard } = stopped;
    match (stage, guard) {
        (Some(Stage::Idle(chair)), None) => run_in_next_life(vault, device, chair, accepted),
        (stage, guard) => Stopped { stage, guard },
    }
}

/// The vault is renewed, and the same worker does the plan in its next life.
fn run_in_next_life(
    vault: &mut Vault,
    device: &mut SoloDevice,
    chair: Chair,
    accepted: Accepted,
) -> Stopped
    ensures holds { Holds vault.new }
{
    if vault.renew().is_err() {
        return Stopped::at(Stage::Idle(chair));
    }
    run(vault, device, chair, accepted)
}

/// The plan, with a certificate that the checker takes.
pub(crate) fn accepted(alloc: Global, settings: &Settings) -> anyhow::Result<Accepted> {
    let plan = Plan::from_text(alloc, settings, PLAN)?;
    let certificate = annotate(alloc, settings, &plan)?;
    match check(settings, plan, &certificate) {
        Ok(accepted) => Ok(accepted),
        Err((_plan, error)) => Err(anyhow::Error::from(error)),
    }
}

/// A worker does the plan with page 2. It has its chair again in the end, unless a call is refused.
///
/// Whatever was refused, and whatever the device did: nobody is stuck in the vault that is left.
fn run(vault: &mut Vault, device: &mut SoloDevice, chair: Chair, accepted: Accepted) -> Stopped
    ensures holds { Holds vault.new }
{
    if vault.submit(accepted).is_err() {
        return Stopped::at(Stage::Idle(chair));
    }
    let session = match vault.take(chair) {
        Ok((session, _done)) => session,
        Err((chair, _refusal)) => return Stopped::at(Stage::Idle(chair)),
    };
    let fixed = match vault.fix(session, 2) {
        Ok((fixed, _done)) => fixed,
        Err((session, _refusal)) => return Stopped::at(Stage::In(session)),
    };
    let (session, guard) = match fixed {
        Fixed::Got(session, guard) => (session, guard),
        // The plan gathers nothing. Of one that did, this worker would stop with the bundle in its hand.
        Fixed::Opened(session, guard) => return Stopped::holding(
            Stage::In(session),
            Guard::Bundle(guard),
        ),
        Fixed::Joined(session) => return Stopped::at(Stage::In(session)),
        Fixed::Away(errand) => match load(vault, device, errand) {
            Ok(loaded) => loaded,
            Err(out) => return out,
        },
    };
    let session = match write(vault, session, guard) {
        Ok(session) => session,
        Err(out) => return out,
    };
    match vault.finish(session) {
        Ok((chair, _done)) => Stopped::at(Stage::Idle(chair)),
        Err((session, _refusal)) => Stopped::at(Stage::In(session)),
    }
}

/// The device reads a page: the call is made outside the vault.
fn load(
    vault: &mut Vault,
    device: &mut SoloDevice,
    errand: Errand,
) -> Result<(Session, PinGuard), Stopped>
    ensures holds { Holds vault.new }
{
    let answered = match vault.answer(errand.carry_out(device)) {
        Ok((answered, _done)) => answered,
        Err((returned, _refusal)) => return Err(Stopped::at(Stage::Back(returned))),
    };
    match answered {
        Answered::Got(session, guard) => Ok((session, guard)),
        Answered::Opened(session, guard) => Err(Stopped::holding(
            Stage::In(session),
            Guard::Bundle(guard),
        )),
        Answered::Joined(session) => Err(Stopped::at(Stage::In(session))),
        Answered::Away(errand) => Err(Stopped::at(Stage::Out(errand))),
        Answered::Lost(leaver) => Err(Stopped::at(Stage::Leaving(leaver))),
        Answered::Flushed(_) => Err(Stopped::with_nothing()),
    }
}

/// The page is latched X and unlatched, and then given back.
fn write(vault: &mut Vault, session: Session, guard: PinGuard) -> Result<Session, Stopped>
    ensures holds { Holds vault.new }
{
    let (session, guard) = match vault.latch_exclusive(session, guard) {
        Ok((session, guard, _done)) => (session, guard),
        Err((session, guard, _refusal)) => return Err(Stopped::holding(
            Stage::In(session),
            Guard::Pin(guard),
        )),
    };
    let (session, guard) = match vault.unlatch_exclusive(session, guard) {
        Ok((session, guard, _done)) => (session, guard),
        Err((session, guard, _refusal)) => return Err(Stopped::holding(
            Stage::In(session),
            Guard::Write(guard),
        )),
    };
    match vault.unfix(session, guard) {
        Ok((session, _done)) => Ok(session),
        Err((session, guard, _refusal)) => Err(Stopped::holding(
            Stage::In(session),
            Guard::Pin(guard),
        )),
    }
}
