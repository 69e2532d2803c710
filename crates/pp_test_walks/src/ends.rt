//! Cores that are driven to their end, with decisions that look like chance: by `drain`, and by moves of the turns that they
//! name.

use crate::host::{Host, reading};
use pp_core::{Ask, Core, Move, Reply, Turn};
use pp_settings::Settings;
use pp_test_plain::samples::{DESCENT, SCAN};
use pp_test_plain::{Chance, accepted};
use std::alloc::Global;

/// How many plans each core has: four for each worker, so that workers take new ones while others are in theirs.
const PLANS: u32 = 12;

/// Three pages, two of them latched as the third is fixed.
const SPLIT: &str =
    "{\"body\":[{\"fix\":\"a\",\"region\":\"root\"},{\"latch\":\"a\",\"mode\":\"X\"},\
{\"fix\":\"b\",\"region\":\"leaf\"},{\"latch\":\"b\",\"mode\":\"X\"},{\"fix\":\"c\",\"region\":\"leaf\"},\
{\"unlatch\":\"b\"},{\"unfix\":\"b\"},{\"unfix\":\"c\"},{\"unlatch\":\"a\"},{\"unfix\":\"a\"}],\"version\":1}";

/// A root is written, and then two leaves are held at once, or none.
const EITHER: &str =
    "{\"body\":[{\"fix\":\"a\",\"region\":\"root\"},{\"latch\":\"a\",\"mode\":\"X\"},{\"unlatch\":\"a\"},\
{\"unfix\":\"a\"},{\"choice\":[[],[{\"fix\":\"b\",\"region\":\"leaf\"},{\"fix\":\"c\",\"region\":\"leaf\"},\
{\"unfix\":\"b\"},{\"unfix\":\"c\"}]]}],\"version\":1}";

/// Plans wait in the core from now on.
fn fill(
    alloc: Global,
    settings: &Settings,
    core: &mut Core,
    chance: &mut Chance,
) -> anyhow::Result<()> {
    for _ in 0..PLANS {
        let text = match chance.below(4) {
            0 => DESCENT,
            1 => SCAN,
            2 => SPLIT,
            _ => EITHER,
        };
        if core.submit(accepted(alloc, settings, text)?).is_err() {
            anyhow::bail!("a plan isn't taken in");
        }
    }
    Ok(())
}

/// Drives a new core to its end, by `drain` or by a move of each turn, and says whether it ends as it should.
pub fn drive(
    alloc: Global,
    settings: &Settings,
    chance: &mut Chance,
    by_drain: bool,
) -> anyhow::Result<bool> {
    let mut core = Core::new(alloc, settings)?;
    fill(alloc, settings, &mut core, chance)?;
    Ok(if by_drain {
        drain_to_the_end(&mut core, chance)
    } else {
        step_to_the_end(&mut core, chance) == Some(PLANS)
    })
}

/// The device's answer to the worker's errand.
fn answer(core: &Core, worker: u32, chance: &mut Chance) -> Option<Move> {
    let (_slot, page, victim) = core.errand(worker)?;
    Some(match victim {
        Some(_) => Move::WriteDone {
            worker,
            ok: chance.below(4) > 0,
        },
        None => {
            let stamp = core.mark(page).unwrap_or(0);
            Move::ReadDone {
                worker,
                came: reading(page, stamp, chance),
            }
        }
    })
}

/// A move that gives some slot back which the worker holds, or its last one.
fn leave(core: &Core, worker: u32, chance: &mut Chance) -> Move {
    let from = chance.below(32);
    for slot in (from..32).chain(0..from) {
        if core.held(worker, slot).is_some() {
            return Move::Unwind { worker, slot };
        }
    }
    Move::Finish { worker }
}

/// What the worker does.
fn act(core: &Core, worker: u32, chance: &mut Chance) -> Move {
    match core.ask(worker) {
        Some(Ask::Fix { region: 0, .. }) => Move::Fix {
            worker,
            page: chance.below(3).saturating_add(1),
        },
        Some(Ask::Fix { .. } | Ask::Gather { .. }) => Move::Fix {
            worker,
            page: chance.below(5).saturating_add(5),
        },
        Some(Ask::Unfix { .. } | Ask::Scatter { .. }) => Move::Unfix { worker },
        Some(Ask::Latch { .. }) => Move::Latch { worker },
        Some(Ask::Unlatch { .. }) => Move::Unlatch { worker },
        Some(Ask::Choose { branches }) => Move::Choose {
            worker,
            branch: chance.below(u32::from(branches)),
        },
        Some(Ask::End) => Move::Finish { worker },
        None => leave(core, worker, chance),
    }
}

/// A move of the turn; none where the core names the device and no errand is out.
fn move_of(core: &Core, turn: Turn, chance: &mut Chance) -> Option<Move> {
    match turn {
        Turn::Device(worker) => answer(core, worker, chance),
        Turn::FlushDevice => Some(Move::FlushDone {
            ok: chance.below(4) > 0,
        }),
        Turn::Act(worker) => Some(act(core, worker, chance)),
        Turn::Take(worker) => Some(Move::Take { worker }),
    }
}

/// Begins a flush now and then, where a page is dirty. It says whether one began.
fn flushes(core: &mut Core, chance: &mut Chance) -> bool {
    if chance.below(8) > 0 {
        return false;
    }
    match core.dirty_from(chance.below(10)) {
        Some(page) => matches!(
            core.step(&Move::FlushBegin { page }),
            Reply::Flushing { .. }
        ),
        None => false,
    }
}

/// Makes a move of the turn that comes next until none does, and says how many plans were finished; none where a move is
/// refused, or more are made than the core said.
fn step_to_the_end(core: &mut Core, chance: &mut Chance) -> Option<u32> {
    let most = core.budget();
    let mut made: u64 = 0;
    let mut finished: u32 = 0;
    for _ in 0..most {
        let Some(turn) = core.next_possible() else {
            break;
        };
        let asked = move_of(core, turn, chance)?;
        match core.step(&asked) {
            Reply::NotNow(_) | Reply::OffPlan(_) => return None,
            Reply::Finished(_) => finished = finished.saturating_add(1),
            _ => {}
        }
        let flushes = u64::from(flushes(core, chance));
        made = made.saturating_add(1).saturating_add(flushes);
    }
    let is_ended = core.next_possible().is_none() && made <= most;
    if is_ended { Some(finished) } else { None }
}

/// Drains the core, and says whether it came to its end with no more moves than it said.
fn drain_to_the_end(core: &mut Core, chance: &mut Chance) -> bool {
    let most = core.budget();
    let made = core.drain(&mut Host { chance });
    made <= most && core.next_possible().is_none()
}
