//! The calls that play a script.

use crate::answer::Answer;
use crate::printing::twice;
use crate::samples::{SCRIPT, settings_of};
use crate::tried::Tried;
use pp_device::SoloDevice;
use pp_play::{Line, play};
use pp_script::{Cue, Script};
use pp_settings::Settings;
use pp_simulate::simulate;
use pp_test_plain::samples::WRITE;
use pp_test_plain::{accepted, all_accepted};
use pp_vault::{Accepted, Hands, Vault};
use std::alloc::Global;

/// Does the case of this call and this row.
pub fn case<R: AllocGlobal + Print>(rt: &R, call: &str, row: &str) -> anyhow::Result<()> {
    let settings = settings_of(rt.alloc(), row)?;
    match call {
        "play" => plays(rt, &settings),
        "simulate" => simulates(rt, settings),
        _ => anyhow::bail!("there is no such call"),
    }
}

/// A vault with its tokens and a device, and the lines that a script's cues come to.
struct Playing {
    vault: Vault,
    hands: Hands,
    device: SoloDevice,
    cues: Vec<Cue>,
    lines: Vec<Line>,
}

impl Tried for Playing {
    type Told = Answer;

    fn stand(&self) -> Option<Answer> {
        Some(self.told())
    }

    fn call(&mut self) -> Answer {
        let played = play(
            &mut self.vault,
            &mut self.hands,
            &mut self.device,
            &self.cues,
            &mut self.lines,
        );
        match played {
            Ok(()) => self.told(),
            Err(error) => Answer::Failed(anyhow::Error::from(error)),
        }
    }
}

impl Playing {
    fn told(&self) -> Answer {
        Answer::Two(
            "budget",
            self.vault.budget(),
            "lines",
            self.lines.len() as u64,
        )
    }
}

/// A script is played over a vault that has taken its plan in.
fn plays<R: AllocGlobal + Print>(rt: &R, settings: &Settings) -> anyhow::Result<()> {
    let plan = accepted(rt.alloc(), settings, WRITE)?;
    let (cues, _troubles) = Script::from_text(rt.alloc(), SCRIPT)?.into_parts();
    let device = SoloDevice::new(rt.alloc(), 24, 64)?;
    let (mut vault, hands) = Vault::new(rt.alloc(), settings)?;
    let queued = vault.submit(plan).is_ok();
    let mut playing = Playing {
        vault,
        hands,
        device,
        cues,
        lines: Vec::new(rt.alloc()),
    };
    let done = twice(rt, &mut playing);
    let Playing {
        vault,
        hands,
        device: _device,
        cues: _cues,
        lines,
    } = playing;
    vault.scrap(hands);
    done?;
    println!(rt; "queued {queued}, lines {lines:?}")?;
    Ok(())
}

/// What a script is played with, for each round its own.
#[derive(Drop)]
struct Lot {
    plans: Vec<Accepted>,
    script: Script,
}

/// A script that is played with plans.
#[derive(Drop)]
struct Simulating {
    alloc: Global,
    settings: Settings,
    lots: Vec<Lot>,
}

impl Tried for Simulating {
    type Told = Answer;

    fn call(&mut self) -> Answer {
        match self.lots.pop() {
            Some(Lot { plans, script }) => simulated(self.alloc, &self.settings, plans, script),
            None => Answer::Nothing,
        }
    }
}

fn simulated(alloc: Global, settings: &Settings, plans: Vec<Accepted>, script: Script) -> Answer {
    match simulate(alloc, settings, plans, script) {
        Ok(text) => Answer::Text(text),
        Err(error) => Answer::Refused(error.refusal()),
    }
}

fn simulates<R: AllocGlobal + Print>(rt: &R, settings: Settings) -> anyhow::Result<()> {
    let mut lots = Vec::new(rt.alloc());
    for _round in 0..2 {
        let plans = all_accepted(rt.alloc(), &settings, &[WRITE, WRITE])?;
        let script = Script::from_text(rt.alloc(), SCRIPT)?;
        lots.push(Lot { plans, script })?;
    }
    twice(
        rt,
        &mut Simulating {
            alloc: rt.alloc(),
            settings,
            lots,
        },
    )
}
