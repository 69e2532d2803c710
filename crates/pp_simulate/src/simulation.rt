//! Playing a script over a new pool.

ghost use Rattle.std.specs.Prelude.{◌≡◌, [], IfOk, IfErr, OnOk, string_bytes};
ghost use Rattle.pp_model.specs.Pool.{State, opening};
ghost use Rattle.pp_core.specs.Opening.{kept_of};
ghost use Rattle.pp_vault.specs.Hands.{HandsFit};
ghost use Rattle.pp_vault.specs.StandsFor.{IsKept, StandsFor};
ghost use Rattle.pp_vault.specs.Submits.{TakesIn};
ghost use Rattle.pp_vault.specs.declared.hands.Hands as hands;
ghost use Rattle.pp_simulate.specs.Simulating.{Simulates, IsSimulateError, Keeps, TakesAll, TakeFails};

use crate::error::SimulateError;
use crate::printing::transcript;
use pp_cert::Accepted;
use pp_contents::laws::contents_are_kept;
use pp_device::{Failing, SoloDevice};
use pp_play::play;
use pp_script::Script;
use pp_settings::{Settings, Span};
use pp_vault::laws::hands_still_fit;
use pp_vault::{Hands, PlanId, PrepareError, SubmitError, Vault};
use std::alloc::Global;

/// Submits the plans to a new pool, plays the script over it and a device in memory with the script's troubles, and gives
/// the lines, each ended by a line feed: `submit 0 = queued` for each plan with its number, then one for each cue, then
/// `next TURN budget N`. Cues that are refused have lines too.
///
/// In a bounded life the plans are submitted. In an endless one each plan is prepared and then submitted once, before
/// the next; the lines are the same.
///
/// # Errors
///
/// Where the pool does not take a plan in, nothing is played. For the first such plan the errors come in this order:
///
/// - `Submit(OtherSettings)`: the plan was accepted under another layout.
/// - `TooManyPrepared`: the life is endless, and 4,096 plans were taken in before.
/// - `Submit` with any other refusal of the plan.
///
/// `OutOfMemory` may come at any time.
pub fn simulate(
    alloc: Global,
    settings: &Settings,
    plans: Vec<Accepted>,
    script: Script,
) -> Result<String, SimulateError>
    // The plans are all taken in, each cue comes to its own line over a formatted device behind the script's troubles, and
    // the last line is of the state then.
    ensures ok { IfOk result (λ text. Simulates settings.now plans.items script (string_bytes text)) }
    // A refusal is that of the first plan that isn't taken in, or says that the pool keeps no more of them.
    ensures err { IfErr result (IsSimulateError (opening (kept_of settings.now)) plans.items) }
{
    let (mut vault, mut hands) = Vault::new(alloc, settings)?;
    let played = play_in(alloc, settings, plans, script, &mut vault, &mut hands);
    vault.scrap(hands);
    played
}

/// The same in this vault with these hands, in which nothing was done yet.
fn play_in(
    alloc: Global,
    settings: &Settings,
    plans: Vec<Accepted>,
    script: Script,
    vault: &mut Vault,
    hands: &mut Hands,
) -> Result<String, SimulateError>
    requires opens { StandsFor vault.old (opening (kept_of settings.now)) }
    requires none_kept { vault.old.core.plans ≡ [] }
    requires fit { HandsFit vault.old hands.old }
    requires length { vault.old.page_bytes ≡ settings.now.page_bytes }
    ensures ok { IfOk result (λ text. Simulates settings.now plans.items script (string_bytes text)) }
    ensures err { IfErr result (IsSimulateError (opening (kept_of settings.now)) plans.items) }
{
    contents_are_kept();
    let count = plans.len();
    take_all_in(vault, plans)?;
    let (cues, troubles) = script.into_parts();
    let memory = SoloDevice::new(alloc, settings.pages(), settings.page_bytes() as usize)?;
    let mut device = Failing::new(memory, troubles);
    let mut lines = Vec::new(alloc);
    play(vault, hands, &mut device, &cues, &mut lines)?;
    Ok(transcript(alloc, count, &cues, &lines, vault)?)
}

/// Takes the plans into a vault that keeps none yet, in their order, up to the first that isn't taken in.
fn take_all_in(vault: &mut Vault, plans: Vec<Accepted>) -> Result<(), SimulateError>
    requires { vault.old.core.plans ≡ [] }
    ensures ok { OnOk result ((s : State) → StandsFor vault.old s → TakesAll s plans.items vault.new) }
    ensures err { IfErr result (λ error. (s : State) → StandsFor vault.old s → IsSimulateError s plans.items error) }
    ensures fit { OnOk result ((h : hands.Hands) → HandsFit vault.old h → HandsFit vault.new h) }
    ensures length { OnOk result (vault.new.page_bytes ≡ vault.old.page_bytes) }
{
    vault.known();
    hands_still_fit();
    let mut waiting = plans;
    waiting.reverse();
    while let Some(plan) = waiting.pop() {
        take_in(vault, plan)?;
    }
    Ok(())
}

/// Takes a plan in, as the vault's life wants it, and answers its number: in a bounded life it is submitted, and in an
/// endless one it is prepared and then submitted.
fn take_in(vault: &mut Vault, plan: Accepted) -> Result<PlanId, SimulateError>
    ensures ok { IfOk result (λ id. TakesIn vault.old plan id vault.new) }
    ensures keeps { OnOk result (Keeps vault.old plan vault.new) }
    ensures known { OnOk result (IsKept vault.new) }
    ensures error { IfErr result (TakeFails vault.old plan) }
{
    match vault.span() {
        Span::Bounded => match vault.submit(plan) {
            Ok(id) => Ok(id),
            Err((_plan, error)) => Err(SimulateError::Submit(error)),
        },
        Span::Endless { .. } => match vault.prepare(plan) {
            Ok(prepared) => Ok(vault.submit_prepared(prepared)?),
            Err((_plan, PrepareError::OtherSettings)) => {
                Err(SimulateError::Submit(SubmitError::OtherSettings))
            }
            Err((_plan, PrepareError::TooManyPrepared)) => Err(SimulateError::TooManyPrepared),
        },
    }
}
