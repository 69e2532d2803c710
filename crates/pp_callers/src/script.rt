//! A script over a device in memory: what one worker writes is what the next one looks at.

ghost use Rattle.std.specs.Prelude.{OnOk};
ghost use Rattle.pp_callers.specs.Bytes.{KeepsEveryByte};

use crate::vault::{SETTINGS, accepted};
use pp_cert::Accepted;
use pp_contents::laws::contents_are_kept;
use pp_device::SoloDevice;
use pp_device::laws::solo_devices_are_honest;
use pp_play::{Cue, Line, PlayError, play};
use pp_settings::Settings;
use pp_vault::{Hands, Vault};
use std::alloc::Global;

/// Page 2 gets the byte 7, is written back for page 3, and is read and looked at again. Each time the plan is the same.
const CUES: [Cue; 25] = [
    Cue::Take { worker: 0 },
    Cue::Fix { worker: 0, page: 2 },
    Cue::Device { worker: 0 },
    Cue::Latch { worker: 0 },
    Cue::Write {
        worker: 0,
        slot: 0,
        byte: 7,
    },
    Cue::Unlatch { worker: 0 },
    Cue::Unfix { worker: 0 },
    Cue::Finish { worker: 0 },
    Cue::Take { worker: 0 },
    Cue::Fix { worker: 0, page: 3 },
    Cue::Device { worker: 0 },
    Cue::Device { worker: 0 },
    Cue::Latch { worker: 0 },
    Cue::Unlatch { worker: 0 },
    Cue::Unfix { worker: 0 },
    Cue::Finish { worker: 0 },
    Cue::Take { worker: 0 },
    Cue::Fix { worker: 0, page: 2 },
    Cue::Device { worker: 0 },
    Cue::Device { worker: 0 },
    Cue::Latch { worker: 0 },
    Cue::Look { worker: 0, slot: 0 },
    Cue::Unlatch { worker: 0 },
    Cue::Unfix { worker: 0 },
    Cue::Finish { worker: 0 },
];

/// The byte that is looked at in the end; `None` where none is.
pub fn byte_read_again(alloc: Global) -> anyhow::Result<Option<u8>> {
    let settings = Settings::from_text(alloc, SETTINGS)?;
    let plans = three_plans(alloc, &settings)?;
    let device = SoloDevice::new(alloc, 4, 64)?;
    let (vault, hands) = Vault::new(alloc, &settings)?;
    let lines = played(alloc, vault, hands, device, plans)?;
    Ok(looked_at(&lines))
}

/// The same plan three times.
fn three_plans(alloc: Global, settings: &Settings) -> anyhow::Result<Vec<Accepted>> {
    let mut plans = Vec::new(alloc);
    for _ in 0..3 {
        plans.push(accepted(alloc, settings)?)?;
    }
    Ok(plans)
}

/// What the cues come to in a vault with these plans, which is given up then.
fn played(
    alloc: Global,
    mut vault: Vault,
    mut hands: Hands,
    mut device: SoloDevice,
    plans: Vec<Accepted>,
) -> Result<Vec<Line>, PlayError> {
    for plan in plans {
        let _ = vault.submit(plan);
    }
    let mut lines = Vec::new(alloc);
    let played = play_in_memory(&mut vault, &mut hands, &mut device, &CUES, &mut lines);
    vault.scrap(hands);
    played?;
    Ok(lines)
}

/// The first byte that the lines tell of.
fn looked_at(lines: &[Line]) -> Option<u8> {
    for line in lines {
        if let Line::Looked(byte) = *line {
            return Some(byte);
        }
    }
    None
}

/// Plays the cues over the device.
///
/// Whatever the device has, whatever is read, written back or flushed meanwhile: a write that is done sets the first byte of
/// the content of its slot's page, and nothing else changes a content.
fn play_in_memory(
    vault: &mut Vault,
    hands: &mut Hands,
    device: &mut SoloDevice,
    cues: &[Cue],
    lines: &mut Vec<Line>,
) -> Result<(), PlayError>
    ensures bytes { OnOk result (KeepsEveryByte vault.old hands.old device.old cues.now lines.old.items lines.new.items
        vault.new hands.new device.new) }
{
    contents_are_kept();
    solo_devices_are_honest();
    play(vault, hands, device, cues, lines)
}
