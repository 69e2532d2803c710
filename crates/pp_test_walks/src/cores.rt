//! Moves that look like chance on cores of three frames, three workers and eight pages. Each reply is compared with that of the
//! plain pool, and then what each slot holds. Both are renewed again and again, after a few plans or all 256 of a life, and now
//! and then another core is made. Cores whose lives don't end are walked elsewhere (`endless`), by the same moves.

use crate::common::{Tally, same};
use crate::ends::drive;
use crate::host::reading;
use crate::kinds::{self, Bundle, kind, way};
use crate::picking::pick;
use crate::plain::{Plain, Stage};
use crate::plans::{PLANS, Sample};
use crate::turns::move_of;
use crate::words::Word;
use pp_core::{Came, Core, Move, RenewError, Reply, SubmitError};
use pp_script::Cue;
use pp_settings::Settings;
use pp_test_plain::samples::GAPS;
use pp_test_plain::{Chance, accepted};
use std::alloc::Global;
use std::fmt::Write;

/// How many moves are made: each kind of reply and refusal comes ten times or more.
const MOVES: u32 = 20_000;

/// How many cores are driven to their end: a hundred in each of the two ways.
const CORES: u32 = 200;

/// The kinds of a tally behind those of replies: ways of using a bundle, and then renewals that are refused and that are done.
pub const BUNDLES: usize = kinds::KINDS;

pub const RENEWALS: usize = kinds::KINDS + kinds::WAYS;

pub const ALL: usize = kinds::KINDS + kinds::WAYS + 2;

/// Three frames, three workers, and eight pages, with so many flushes.
fn eight_pages(alloc: Global, flushes: u32) -> anyhow::Result<Settings> {
    let text = format!(in alloc;
        "frames = 3\npage_bytes = 64\nworkers = 3\nflushes = {flushes}\n{GAPS}"
    )?;
    Ok(Settings::from_text(alloc, &text)?)
}

/// A core and the plain pool, and how many plans this life has.
pub struct Pools {
    pub core: Core,
    pub plain: Plain<'static>,
    pub plans: u64,
}

impl Drop for Pools {
    fn drop(self) {
        let Pools {
            core: _,
            plain: _,
            plans: _,
        } = self;
    }
}

/// How many plans the next life has: a few, or as many as a life takes.
fn plans_of_a_life(chance: &mut Chance) -> u64 {
    if chance.below(48) == 0 {
        256
    } else {
        u64::from(chance.below(6))
    }
}

/// A plan: each as likely as any other but for the bundle of three leaves, which comes more often.
fn sample_of(chance: &mut Chance) -> &'static Sample {
    PLANS.get(chance.below(16) as usize).unwrap_or(&PLANS[7])
}

// ---- the calls of the core, without what is known of it then

/// The number of the plan, or none where there are too many of this life.
fn submit(
    alloc: Global,
    settings: &Settings,
    core: &mut Core,
    text: &str,
) -> anyhow::Result<Option<u64>> {
    let accepted = accepted(alloc, settings, text)?;
    match core.submit(accepted) {
        Ok(id) => Ok(Some(id.number())),
        Err((_plan, SubmitError::TooManyPlans)) => Ok(None),
        Err((_plan, error)) => Err(anyhow::Error::from(error)),
    }
}

fn renew(core: &mut Core) -> Result<(), RenewError> {
    core.renew()
}

fn step(core: &mut Core, asked: Move) -> Reply {
    core.step(&asked)
}

/// What the device answers the worker's errand, or a worker that has none: mostly what is right.
fn answer(plain: &Plain, worker: u32, chance: &mut Chance) -> Move {
    let ok = chance.below(4) > 0;
    let small = u64::from(chance.below(9));
    match plain.stage(worker) {
        Some(Stage::Writing { .. }) => Move::WriteDone { worker, ok },
        Some(Stage::Reading { page, .. }) => {
            let stamp = plain.mark(page).unwrap_or(small);
            let came = reading(page, stamp, chance);
            Move::ReadDone { worker, came }
        }
        _ if ok => {
            let came = Came::Image(chance.below(11), small);
            Move::ReadDone { worker, came }
        }
        _ => Move::WriteDone { worker, ok },
    }
}

/// The move that the cue asks, or the device's for it. A core keeps no bytes to write and to look at.
fn move_for(plain: &Plain, cue: Cue, chance: &mut Chance) -> Option<Move> {
    match cue {
        Cue::Device { worker } => Some(answer(plain, worker, chance)),
        Cue::FlushDevice => Some(Move::FlushDone {
            ok: chance.below(4) > 0,
        }),
        _ => move_of(cue),
    }
}

/// The worker and the slot whose bundle the move is about, if it is about one.
fn slot_for(plain: &Plain, asked: Move) -> Option<(u32, u32)> {
    match asked {
        Move::Unwind { worker, slot } => Some((worker, slot)),
        Move::Fix { worker, .. }
        | Move::WriteDone { worker, .. }
        | Move::ReadDone { worker, .. }
        | Move::Unfix { worker } => match plain.word(worker)? {
            Word::Gather(slot, _) | Word::Scatter(slot) => Some((worker, slot)),
            _ => None,
        },
        _ => None,
    }
}

/// The bundle that the move is about, if it is about one.
fn bundle_for(plain: &Plain, asked: Move) -> Option<Bundle> {
    let (worker, slot) = slot_for(plain, asked)?;
    let has_page = match asked {
        Move::Fix { page, .. } => plain.has_pin(worker, slot, page),
        _ => false,
    };
    let pins = plain.gathered(worker, slot);
    Some(Bundle { pins, has_page })
}

/// Counts the way in which a bundle is used, if it is one of the ways.
fn count_way(tally: &mut Tally, way: usize) {
    if way < kinds::WAYS {
        tally.add(BUNDLES + way);
    }
}

impl Pools {
    /// New pools.
    fn new(alloc: Global, settings: &Settings, chance: &mut Chance) -> anyhow::Result<Pools> {
        let plain = Plain::new(alloc, settings)?;
        let core = Core::new(alloc, settings)?;
        let plans = plans_of_a_life(chance);
        Ok(Pools { core, plain, plans })
    }

    /// Whether all plans of this life are over, and so is the flush.
    pub fn is_used_up(&self) -> bool {
        self.plain.submitted() >= self.plans && self.plain.is_at_rest()
    }

    /// Renews both, where a life is over, or chance wants it; and says whether others are to be made in their place.
    fn live(&mut self, chance: &mut Chance, tally: &mut Tally) -> anyhow::Result<bool> {
        if self.is_used_up() {
            if chance.below(64) == 0 {
                return Ok(true);
            }
            self.renew(tally)?;
            self.plans = plans_of_a_life(chance);
        } else if !self.plain.is_at_rest() && chance.below(16) == 0 {
            self.renew(tally)?;
        }
        Ok(false)
    }

    /// Renews both, and sees that they answer the same.
    pub fn renew(&mut self, tally: &mut Tally) -> anyhow::Result<()> {
        let is_done = self.plain.renew();
        let want = if is_done {
            Ok(())
        } else {
            Err(RenewError::NotAtRest)
        };
        tally.add(if is_done { RENEWALS + 1 } else { RENEWALS });
        same("a renewal", renew(&mut self.core), want)
    }

    /// Submits a plan to both, where few wait.
    fn fill(
        &mut self,
        alloc: Global,
        settings: &Settings,
        chance: &mut Chance,
    ) -> anyhow::Result<()> {
        if self.plain.submitted() >= self.plans || self.plain.waiting() >= 4 {
            return Ok(());
        }
        let sample = sample_of(chance);
        let got = submit(alloc, settings, &mut self.core, sample.text)?;
        let want = self.plain.submit(sample.plan)?;
        same("a submit", got, want)
    }

    /// Makes a move on both, if chance picks one.
    pub fn step(&mut self, chance: &mut Chance, tally: &mut Tally) -> anyhow::Result<u32> {
        let cue = pick(chance, &self.plain);
        let Some(asked) = move_for(&self.plain, cue, chance) else {
            return Ok(0);
        };
        let bundle = bundle_for(&self.plain, asked);
        let want = self.plain.step(asked)?;
        let got = step(&mut self.core, asked);
        tally.add(kind(got));
        if let Some(bundle) = bundle {
            count_way(tally, way(asked, got, bundle));
        }
        same("a move", (asked, got), (asked, want))?;
        Ok(1)
    }

    /// Makes moves in life after life.
    fn walk(
        &mut self,
        alloc: Global,
        settings: &Settings,
        chance: &mut Chance,
        tally: &mut Tally,
        made: &mut u32,
    ) -> anyhow::Result<()> {
        for _ in 0..4 * MOVES {
            if *made >= MOVES || self.live(chance, tally)? {
                break;
            }
            self.fill(alloc, settings, chance)?;
            *made = made.saturating_add(self.step(chance, tally)?);
            self.see_slots()?;
        }
        Ok(())
    }

    /// Sees that each slot has what it has plainly, also where there is no such worker or slot.
    fn see_slots(&self) -> anyhow::Result<()> {
        for worker in 0..4 {
            for slot in 0..5 {
                let got = (
                    self.core.held(worker, slot),
                    self.core.gathered(worker, slot),
                );
                let want = (
                    self.plain.held(worker, slot),
                    self.plain.gathered(worker, slot),
                );
                same("what a slot holds, and its pins", got, want)?;
            }
        }
        Ok(())
    }
}

/// Makes all moves, in life after life, on one pool after another, and tells how many they are.
fn walk(alloc: Global, settings: &Settings, tally: &mut Tally) -> anyhow::Result<u32> {
    let mut chance = Chance::new();
    let mut made: u32 = 0;
    for _ in 0..MOVES {
        if made >= MOVES {
            break;
        }
        walk_on_new(alloc, settings, &mut chance, tally, &mut made)?;
    }
    Ok(made)
}

/// Makes moves on new pools, until others are to be made in their place, or all moves are made.
fn walk_on_new(
    alloc: Global,
    settings: &Settings,
    chance: &mut Chance,
    tally: &mut Tally,
    made: &mut u32,
) -> anyhow::Result<()> {
    let mut pools = Pools::new(alloc, settings, chance)?;
    pools.walk(alloc, settings, chance, tally, made)
}

/// Drives the cores to their end.
fn drive_all(alloc: Global, settings: &Settings) -> anyhow::Result<()> {
    let mut chance = Chance::new();
    for number in 0..CORES {
        if !drive(alloc, settings, &mut chance, number % 2 == 0)? {
            anyhow::bail!("core {number} doesn't end as it should");
        }
    }
    Ok(())
}

/// Makes all moves, and tells what came.
fn moves(alloc: Global, settings: &Settings) -> anyhow::Result<String> {
    let mut tally = Tally::new(alloc, ALL)?;
    let made = walk(alloc, settings, &mut tally)?;
    let kinds = tally.often(0, BUNDLES, 10);
    let ways = tally.often(BUNDLES, RENEWALS, 10);
    let renewals = tally.often(RENEWALS, ALL, 100);
    Ok(format!(in alloc;
        "{made} moves, all replies agree\n\
        each of {kinds} kinds of replies and refusals came ten times or more\n\
        each of {ways} ways of using a bundle came ten times or more\n\
        each of {renewals} answers to a renewal came a hundred times or more"
    )?)
}

/// Makes all moves, drives cores to their end, and tells what came.
pub fn walked(alloc: Global) -> anyhow::Result<String> {
    let mut told = moves(alloc, &eight_pages(alloc, 40)?)?;
    drive_all(alloc, &eight_pages(alloc, 60)?)?;
    write!(
        told,
        "\n{CORES} cores of twelve plans each end within their bounds, with every plan finished"
    )?;
    Ok(told)
}
