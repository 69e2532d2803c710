//! Pools are walked by chance, and all that they do is audited.

use crate::common::{place_of, same};
use crate::pools::{POOLS, Pool};
use crate::seen::{Seen, told};
use pp_ledger::{LedgerError, Segment};
use pp_settings::Settings;
use pp_test_plain::{Chance, all_accepted};
use pp_test_stand::Stand;
use pp_vault::SubmitError;
use std::alloc::Global;

/// How many events a pool has at least.
const EVENTS: u64 = 20_000;

/// How often plans are submitted and refused, and segments are full and taken out earlier, at least.
const LEAST: u64 = 1_000;

/// How many steps a walk may take: far more than it does.
const STEPS: u32 = 1_000_000;

/// For how many events segments have room.
const ROOMS: [usize; 5] = [1, 2, 3, 7, 64];

/// What stands in lines: each move, and each reply with each way in which it fails.
const WORDS: [&str; 33] = [
    "submit ",
    "take ",
    "fix ",
    "came ",
    "wrote ",
    "unfix ",
    "latch ",
    "unlatch ",
    "choose ",
    "unwind ",
    "finish ",
    "flush ",
    "flushed ok",
    "flushed bad",
    " fault = ",
    " = queued",
    " = taken ",
    " = hit ",
    " = mustread ",
    " = mustwrite ",
    " = failed read",
    " = failed write",
    " = failed misread",
    " = loaded ",
    " = did",
    " = latched ",
    " = unlatched ",
    " = done",
    " = gone",
    " = flushing ",
    " = clean",
    " = dirty",
    "segment ",
];

/// For how many events the next segment has room.
fn room(chance: &mut Chance) -> usize {
    let place = place_of(ROOMS.len(), chance);
    ROOMS.get(place).copied().unwrap_or(1)
}

/// A worker takes a turn, or the flusher.
fn turn(stand: &mut Stand, pool: &Pool, chance: &mut Chance) {
    let worker = chance.below(pool.workers.saturating_add(1));
    let _turned = if worker == pool.workers {
        stand.flush()
    } else {
        stand.work(worker, 1, chance)
    };
}

/// Submits a plan, where as many don't wait as may.
fn submit(
    stand: &mut Stand,
    pool: &Pool,
    seen: &mut Seen,
    chance: &mut Chance,
) -> anyhow::Result<()> {
    let place = place_of(pool.plans.len(), chance);
    match stand.submit(place) {
        Ok(number) => {
            same("a plan's number", number, seen.plans)?;
            seen.plans = seen.plans.saturating_add(1);
            Ok(())
        }
        Err(LedgerError::Refused(SubmitError::TooManyPlans)) => {
            seen.too_many = seen.too_many.saturating_add(1);
            Ok(())
        }
        Err(error) => Err(anyhow::Error::from(error)),
    }
}

/// In what the ledger goes on: a new segment, or as often the one that was taken out last, emptied.
fn empty_one(
    alloc: Global,
    spare: Option<Segment>,
    chance: &mut Chance,
) -> anyhow::Result<Segment> {
    match spare {
        Some(segment) if chance.below(2) == 0 => {
            let mut empty = segment;
            empty.clear();
            let told = (empty.number(), empty.plans_before(), empty.events().len());
            same("an emptied segment", told, (0, 0, 0))?;
            Ok(empty)
        }
        _ => Ok(Segment::with_room(alloc, room(chance))?),
    }
}

/// Takes the segment out and audits it.
fn take(
    alloc: Global,
    stand: &mut Stand,
    seen: &mut Seen,
    chance: &mut Chance,
) -> anyhow::Result<()> {
    let empty = empty_one(alloc, seen.spare.take(), chance)?;
    let Ok(segment) = stand.ledger.take_segment(empty) else {
        anyhow::bail!("the ledger doesn't go on in an empty segment");
    };
    seen.pass(alloc, &segment)?;
    seen.spare = Some(segment);
    seen.see(&stand.ledger)
}

/// The segment is full: a submit, a turn and a flush are refused, and nothing changes.
fn see_full(stand: &mut Stand, pool: &Pool, chance: &mut Chance) -> anyhow::Result<()> {
    let (events, want) = (stand.ledger.len(), told(stand.ledger.vault().core()));
    let place = place_of(pool.plans.len(), chance);
    same(
        "a submit",
        stand.submit(place),
        Err(LedgerError::SegmentFull),
    )?;
    turn(stand, pool, chance);
    let _turned = stand.flush();
    same("what is full", told(stand.ledger.vault().core()), want)?;
    same("how many events it has", stand.ledger.len(), events)
}

/// Takes the segment out where it is full, or now and then before.
fn take_if_wanted(
    alloc: Global,
    stand: &mut Stand,
    pool: &Pool,
    seen: &mut Seen,
    chance: &mut Chance,
) -> anyhow::Result<()> {
    if stand.ledger.is_full() {
        see_full(stand, pool, chance)?;
        seen.full = seen.full.saturating_add(1);
        take(alloc, stand, seen, chance)
    } else if chance.below(24) == 0 {
        seen.early = seen.early.saturating_add(1);
        take(alloc, stand, seen, chance)
    } else {
        Ok(())
    }
}

/// Makes moves and submits until there are so many events, and then moves until nothing is left to do.
pub fn walk(
    alloc: Global,
    stand: &mut Stand,
    pool: &Pool,
    events: u64,
    seen: &mut Seen,
    chance: &mut Chance,
) -> anyhow::Result<()> {
    for _ in 0..STEPS {
        let is_late = seen.events >= events;
        if is_late && stand.ledger.next_possible().is_none() {
            return Ok(());
        }
        take_if_wanted(alloc, stand, pool, seen, chance)?;
        if !is_late && chance.below(5) == 0 {
            submit(stand, pool, seen, chance)?;
        } else {
            turn(stand, pool, chance);
        }
    }
    anyhow::bail!("{} events in {STEPS} steps", seen.events)
}

/// Walks the pool for so many events, and gives what was seen.
pub fn walk_whole(
    alloc: Global,
    settings: &Settings,
    pool: &Pool,
    events: u64,
) -> anyhow::Result<Seen> {
    let mut chance = Chance::new();
    let plans = all_accepted(alloc, settings, pool.plans)?;
    let mut seen = Seen::new(alloc, settings, plans)?;
    let first = room(&mut chance);
    let mut stand = pool.stand(alloc, settings, &mut chance, first)?;
    let walked = walk(alloc, &mut stand, pool, events, &mut seen, &mut chance);
    let last = stand.end();
    walked?;
    seen.pass(alloc, &last)?;
    Ok(seen)
}

/// Sees that plans were submitted, submits refused, and segments taken out in either way, each often enough.
fn see_counts(seen: &Seen) -> anyhow::Result<()> {
    for count in [seen.plans, seen.too_many, seen.full, seen.early] {
        if count < LEAST {
            anyhow::bail!("{count} times, and not {LEAST}");
        }
    }
    Ok(())
}

/// Marks the words that stand in what was seen.
fn find(seen: &Seen, found: &mut [bool]) {
    for (word, is_found) in WORDS.iter().zip(found.iter_mut()) {
        *is_found = *is_found || seen.has(word);
    }
}

/// Sees that each word was found.
fn see_words(found: &[bool]) -> anyhow::Result<()> {
    for (word, is_found) in WORDS.iter().zip(found.iter()) {
        if !*is_found {
            anyhow::bail!("no line has {word}");
        }
    }
    Ok(())
}

/// Walks the pool, and has all that it did audited once more.
fn walk_pool(alloc: Global, pool: &Pool) -> anyhow::Result<Seen> {
    let settings = pool.settings(alloc)?;
    let seen = walk_whole(alloc, &settings, pool, EVENTS)?;
    let plans = all_accepted(alloc, &settings, pool.plans)?;
    seen.see_all(alloc, &settings, plans)?;
    see_counts(&seen)?;
    Ok(seen)
}

/// Walks all pools, and tells what came.
pub fn walked(alloc: Global) -> anyhow::Result<String> {
    let mut found = [false; WORDS.len()];
    for pool in &POOLS {
        let seen = walk_pool(alloc, pool)?;
        find(&seen, &mut found);
    }
    see_words(&found)?;
    Ok(format!(in alloc;
        "{} pools of {EVENTS} events or more: each segment is audited as it is taken out, and all together\n\
        each pool takes in {LEAST} plans or more, and refuses {LEAST} or more while too many wait\n\
        each has {LEAST} full segments or more, and {LEAST} or more that are taken out earlier\n\
        each of {} words stands in a line",
        POOLS.len(),
        WORDS.len()
    )?)
}
