//! Fifty pools live twenty lives each. Their settings, plans and cues look like chance, and so do the calls that fail or lie.
//! Renewals are asked for at the end of each life and before it, and each leaves what the plain pool keeps. The lives of every
//! third pool could last as long as wanted, and its plans are prepared once for all of them.

use crate::lives_counts::Counts;
use crate::picking::pick;
use crate::plain::Stage;
use crate::pools::{PLANS, pool_of};
use crate::scenario::Scenario;
use crate::stand::Stand;
use pp_script::Cue;
use pp_test_plain::Chance;
use std::alloc::Global;

/// How many pools there are.
const POOLS: u32 = 50;

/// How many lives a pool has.
const LIVES: u32 = 20;

/// How many cues look like chance in a life at most. After them its plans are played to their ends.
const CUES: u32 = 80;

/// Lives all lives of the pool, and then reads each page in one more, from a device without trouble. Tells how many lives
/// were over before that.
fn live_all(
    alloc: Global,
    scenario: &Scenario,
    chance: &mut Chance,
    counts: &mut Counts,
) -> anyhow::Result<u32> {
    let mut stand = Stand::new(alloc, scenario, None)?;
    counts.begin();
    let lived = live(&mut stand, scenario, chance, counts);
    let mut stand = stand.mended();
    let read = if lived.is_ok() {
        stand.read_all(scenario)
    } else {
        Ok(())
    };
    let ended = stand.end();
    let lives = lived?;
    read?;
    ended?;
    Ok(lives)
}

fn live<'a>(
    stand: &mut Stand<'a>,
    scenario: &'a Scenario,
    chance: &mut Chance,
    counts: &mut Counts,
) -> anyhow::Result<u32> {
    stand.keep_all(scenario)?;
    let mut lives: u32 = 0;
    for _ in 0..LIVES {
        walk(stand, scenario, chance, counts)?;
        stand.play_to_the_end()?;
        stand.renew(counts)?;
        lives = lives.saturating_add(1);
    }
    Ok(lives)
}

/// The stage of the worker for which the device is to work by this cue.
fn stage_for(stand: &Stand, cue: Cue) -> Option<Stage> {
    match cue {
        Cue::Device { worker } => stand.store.plain.stage(worker),
        _ => None,
    }
}

/// Makes the moves of a life, submits its plans between them, and asks for renewals that are too early.
fn walk<'a>(
    stand: &mut Stand<'a>,
    scenario: &'a Scenario,
    chance: &mut Chance,
    counts: &mut Counts,
) -> anyhow::Result<()> {
    let plans = u64::from(chance.below(7));
    for _ in 0..CUES {
        let is_submitted = stand.store.plain.submitted() >= plans;
        if !is_submitted && chance.below(3) == 0 {
            let plan = chance.below(PLANS);
            stand.submit(scenario, plan as usize)?;
        }
        if stand.store.plain.is_at_rest() {
            if is_submitted && chance.below(6) == 0 {
                return Ok(());
            }
        } else if chance.below(12) == 0 {
            stand.renew(counts)?;
        }
        let cue = pick(chance, &stand.store.plain);
        let stage = stage_for(stand, cue);
        let line = stand.step(cue)?;
        counts.count(line, stage, &stand.store);
    }
    Ok(())
}

/// Lives the lives of all pools, and tells how many they are.
fn live_lives(alloc: Global, counts: &mut Counts) -> anyhow::Result<u32> {
    let mut chance = Chance::new();
    let mut lives: u32 = 0;
    for number in 0..POOLS {
        let pool = pool_of(alloc, &mut chance, number)?;
        match live_all(alloc, &pool, &mut chance, counts) {
            Ok(more) => lives = lives.saturating_add(more),
            Err(error) => anyhow::bail!("pool {number}, {lives} lives behind it: {error}"),
        }
    }
    Ok(lives)
}

/// Lives all lives, and tells what came.
pub fn lived(alloc: Global) -> anyhow::Result<String> {
    let mut counts = Counts::new(alloc)?;
    let lives = live_lives(alloc, &mut counts)?;
    let kinds = counts.often(10);
    Ok(format!(in alloc;
        "{lives} lives of {POOLS} pools: all lines agree, and each begins with what the one before left\n\
        each of {kinds} things came ten times or more"
    )?)
}
