//! Moves that look like chance on a core whose lives don't end, of five frames, eight workers and twelve pages. Three plans are
//! prepared once and submitted again and again, as long as few wait or one too many. Each reply is compared with that of the
//! plain pool. A quarter of the submits are made in short lives, and all others in one.
//!
//! Then as many plans are prepared as a core keeps, and they are submitted by chance.

use crate::common::{Tally, same};
use crate::cores::{ALL, BUNDLES, Pools, RENEWALS};
use crate::kept::see_kept;
use crate::plain::{MOST_KEPT, Plain};
use crate::plans::{PLANS, Sample};
use pp_core::{Accepted, Core, PrepareError, Prepared, SubmitError};
use pp_settings::Settings;
use pp_test_plain::samples::REGIONS;
use pp_test_plain::{Chance, accepted};
use std::alloc::Global;

/// How many submits are made where nobody says: each kind of reply and refusal comes ten times or more.
pub const SUBMITS: u64 = 10_000;

/// How many plans may wait.
const WAITING: u32 = 5;

/// How many plans may wait in any core.
const MOST_WAITING: u32 = 1_048_576;

/// How many plans are prepared first.
const PREPARED: usize = 3;

/// How many moves a submit may take: far more than it does.
const MOVES: u64 = 1_000;

/// The kinds of a tally behind those of the walk on cores: submits that are refused since as many plans wait as may, and those
/// of plans that aren't kept.
const TOO_MANY: usize = ALL;

const NOT_PREPARED: usize = ALL + 1;

const KINDS: usize = ALL + 2;

/// Five frames, eight workers, and four roots and eight leaves, with so many flushes, in lives that don't end, in which so many
/// plans may wait.
fn eight_workers(alloc: Global, flushes: u32, waiting: u32) -> anyhow::Result<Settings> {
    let text = format!(in alloc;
        "version = 2\nframes = 5\npage_bytes = 512\nworkers = 8\nwaiting = {waiting}\nflushes = {flushes}\n{REGIONS}"
    )?;
    Ok(Settings::from_text(alloc, &text)?)
}

/// The sample that is kept at this place: from a root to a leaf, two leaves one after another, or a bundle of three.
fn sample_at(place: usize) -> &'static Sample {
    match place % 3 {
        0 => &PLANS[0],
        1 => &PLANS[4],
        _ => &PLANS[7],
    }
}

/// The plan of the sample at this place, accepted.
fn plan_at(alloc: Global, settings: &Settings, place: usize) -> anyhow::Result<Accepted> {
    accepted(alloc, settings, sample_at(place).text)
}

// ---- the calls of the core, without what is known of it then

/// A core whose lives don't end.
fn endless_core(alloc: Global, settings: &Settings) -> anyhow::Result<Core> {
    Ok(Core::new(alloc, settings)?)
}

/// The core keeps the plan from now on; or none, where it keeps as many as it does.
fn prepare(core: &mut Core, plan: Accepted) -> anyhow::Result<Option<Prepared>> {
    match core.prepare(plan) {
        Ok(prepared) => Ok(Some(prepared)),
        Err((_plan, PrepareError::TooManyPrepared)) => Ok(None),
        Err((_plan, error)) => Err(anyhow::Error::from(error)),
    }
}

/// The number of the plan, or why it isn't taken in.
fn submit(core: &mut Core, prepared: Prepared) -> Result<u64, SubmitError> {
    Ok(core.submit_prepared(prepared)?.number())
}

/// The peak of the plan, if the core keeps it.
fn peak_of(core: &Core, prepared: Prepared) -> Option<u64> {
    Some(core.prepared(prepared)?.peak())
}

/// What another core names the plan that it keeps behind three others.
fn stranger(alloc: Global, settings: &Settings) -> anyhow::Result<Prepared> {
    let mut core = endless_core(alloc, settings)?;
    let mut last = None;
    for place in 0..=PREPARED {
        last = prepare(&mut core, plan_at(alloc, settings, place)?)?;
    }
    match last {
        Some(prepared) => Ok(prepared),
        None => anyhow::bail!("a plan isn't kept"),
    }
}

/// Submits a plan to a core in which as many may wait as in any, until it is refused. It says how many wait then.
fn most_wait(alloc: Global) -> anyhow::Result<u64> {
    let settings = eight_workers(alloc, 0, MOST_WAITING)?;
    let mut core = endless_core(alloc, &settings)?;
    let Some(prepared) = prepare(&mut core, plan_at(alloc, &settings, 0)?)? else {
        anyhow::bail!("a plan isn't kept");
    };
    for number in 0..=u64::from(MOST_WAITING) {
        match submit(&mut core, prepared) {
            Err(SubmitError::TooManyPlans) => return Ok(number),
            got => same("a submit", got, Ok(number))?,
        }
    }
    anyhow::bail!("too many plans wait")
}

/// Has as many plans wait as may, and tells how many these are.
pub fn waited(alloc: Global) -> anyhow::Result<String> {
    let most = most_wait(alloc)?;
    Ok(format!(in alloc; "{most} plans wait in one core, and no more")?)
}

/// The pools, what the core names the plans that it keeps, and another core's name for a plan of its own.
struct Walk {
    pools: Pools,
    kept: Vec<Prepared>,
    stranger: Prepared,
    /// How many submits are to be made, and how many were.
    wanted: u64,
    made: u64,
}

impl Drop for Walk {
    fn drop(self) {
        let Walk {
            pools: _,
            kept: _,
            stranger: _,
            wanted: _,
            made: _,
        } = self;
    }
}

impl Walk {
    /// New pools, in which no plan is kept.
    fn new(alloc: Global, settings: &Settings, wanted: u64) -> anyhow::Result<Walk> {
        let stranger = stranger(alloc, settings)?;
        let plain = Plain::new(alloc, settings)?;
        let core = endless_core(alloc, settings)?;
        let plans = 0;
        Ok(Walk {
            pools: Pools { core, plain, plans },
            kept: Vec::new(alloc),
            stranger,
            wanted,
            made: 0,
        })
    }

    // ---- plans

    /// Both keep one plan more, if they can. It says whether they do.
    fn keep(&mut self, alloc: Global, settings: &Settings) -> anyhow::Result<bool> {
        let place = self.kept.len();
        let got = prepare(&mut self.pools.core, plan_at(alloc, settings, place)?)?;
        let want = self.pools.plain.prepare(sample_at(place).plan)?;
        same(
            "whether a plan is kept",
            (place, got.is_some()),
            (place, want),
        )?;
        if let Some(prepared) = got {
            self.kept.push(prepared)?;
        }
        Ok(want)
    }

    /// Both keep three plans.
    fn keep_few(&mut self, alloc: Global, settings: &Settings) -> anyhow::Result<()> {
        for _ in 0..PREPARED {
            let _ = self.keep(alloc, settings)?;
        }
        Ok(())
    }

    /// Both keep as many plans as they can. It says how many these are.
    fn keep_most(&mut self, alloc: Global, settings: &Settings) -> anyhow::Result<usize> {
        for _ in 0..=MOST_KEPT {
            if !self.keep(alloc, settings)? {
                break;
            }
        }
        Ok(self.kept.len())
    }

    /// Sees that the core keeps each plan.
    fn see_plans(&self) -> anyhow::Result<()> {
        let mut place: usize = 0;
        for prepared in &self.kept {
            let got = peak_of(&self.pools.core, *prepared);
            let want = Some(u64::from(sample_at(place).plan.peak));
            same(
                "the peak of a plan that is kept",
                (place, got),
                (place, want),
            )?;
            place = place.saturating_add(1);
        }
        Ok(())
    }

    // ---- submits

    /// The place of a plan that is kept, and what the core names it; or now and then one that isn't, where few are.
    fn pick(&self, chance: &mut Chance) -> (usize, Prepared) {
        let few = self.kept.len().min(MOST_KEPT) as u32;
        let place = chance.below(few) as usize;
        match self.kept.get(place) {
            Some(prepared) if self.kept.len() > PREPARED || chance.below(64) > 0 => {
                (place, *prepared)
            }
            _ => (PREPARED, self.stranger),
        }
    }

    /// Submits a plan to both.
    fn submit(&mut self, chance: &mut Chance, tally: &mut Tally) -> anyhow::Result<()> {
        let (place, prepared) = self.pick(chance);
        let got = submit(&mut self.pools.core, prepared);
        let want = self.pools.plain.submit_kept(place)?;
        match want {
            Ok(_) => self.made = self.made.saturating_add(1),
            Err(SubmitError::NotPrepared) => tally.add(NOT_PREPARED),
            Err(_) => tally.add(TOO_MANY),
        }
        same("a submit", (place, got), (place, want))
    }

    /// Now and then submits some plans, and maybe one more than may wait, until all of this life are submitted.
    fn submit_some(&mut self, chance: &mut Chance, tally: &mut Tally) -> anyhow::Result<()> {
        if chance.below(8) > 0 {
            return Ok(());
        }
        for _ in 0..chance.below(7) {
            if self.made < self.wanted && self.pools.plain.submitted() < self.pools.plans {
                self.submit(chance, tally)?;
            }
        }
        Ok(())
    }

    // ---- lives

    /// How many plans the next life has: a few, or more than a life takes that ends, and then all that are left.
    fn plans_of_a_life(&self, chance: &mut Chance) -> u64 {
        if self.made >= self.wanted / 4 {
            u64::MAX
        } else if chance.below(16) == 0 {
            300
        } else {
            u64::from(chance.below(6))
        }
    }

    /// Renews both where a life is over, and now and then where it isn't.
    fn live(&mut self, chance: &mut Chance, tally: &mut Tally) -> anyhow::Result<()> {
        if self.pools.is_used_up() {
            self.pools.renew(tally)?;
            self.pools.plans = self.plans_of_a_life(chance);
            self.see_plans()
        } else if !self.pools.plain.is_at_rest() && chance.below(64) == 0 {
            self.pools.renew(tally)
        } else {
            Ok(())
        }
    }

    /// Whether all submits were made, and nothing is left to do.
    fn is_over(&self) -> bool {
        self.made >= self.wanted && self.pools.plain.is_at_rest()
    }

    /// Sees that both have as many plans, and whose turn is next.
    fn see(&self) -> anyhow::Result<()> {
        let (core, plain) = (&self.pools.core, &self.pools.plain);
        let got = (core.plans(), core.next_possible());
        let want = (plain.submitted(), plain.turn());
        same(
            "how many plans there are, and whose turn is next",
            got,
            want,
        )
    }

    /// Sees that both keep the same.
    fn see_all(&self, alloc: Global) -> anyhow::Result<()> {
        self.see_plans()?;
        let (core, plain) = (&self.pools.core, &self.pools.plain);
        see_kept(alloc, core, plain)
    }

    /// Renews both where all is over, and sees that they keep the same.
    fn end(&mut self, alloc: Global, tally: &mut Tally) -> anyhow::Result<()> {
        self.pools.renew(tally)?;
        self.see_all(alloc)
    }

    /// Makes moves and submits in life after life, until all submits were made and nothing is left to do.
    fn walk(
        &mut self,
        alloc: Global,
        chance: &mut Chance,
        tally: &mut Tally,
    ) -> anyhow::Result<()> {
        for _ in 0..=self.wanted.saturating_mul(MOVES) {
            if self.is_over() {
                return self.end(alloc, tally);
            }
            self.live(chance, tally)?;
            self.submit_some(chance, tally)?;
            let _ = self.pools.step(chance, tally)?;
            self.see()?;
        }
        anyhow::bail!("{} submits of {} were made", self.made, self.wanted)
    }

    /// Makes all submits of three plans, and then as many as plans are kept of all that can be. It says how many these are.
    fn walk_all(
        &mut self,
        alloc: Global,
        settings: &Settings,
        tally: &mut Tally,
    ) -> anyhow::Result<usize> {
        let mut chance = Chance::new();
        self.keep_few(alloc, settings)?;
        self.walk(alloc, &mut chance, tally)?;
        let most = self.keep_most(alloc, settings)?;
        self.wanted = self.wanted.saturating_add(most as u64);
        self.walk(alloc, &mut chance, tally)?;
        Ok(most)
    }
}

/// So many flushes that a life begins them all.
fn flushes_of(submits: u64) -> u32 {
    (submits / 8).min(100_000) as u32
}

/// Makes so many submits of three plans, and then some of as many plans as a core keeps, and tells what came.
pub fn walked(alloc: Global, submits: u64) -> anyhow::Result<String> {
    let settings = eight_workers(alloc, flushes_of(submits), WAITING)?;
    let mut tally = Tally::new(alloc, KINDS)?;
    let mut walk = Walk::new(alloc, &settings, submits)?;
    let most = walk.walk_all(alloc, &settings, &mut tally)?;
    told(alloc, submits, most, &tally)
}

/// What came of so many submits of three plans, and of as many as are kept at most.
fn told(alloc: Global, submits: u64, most: usize, tally: &Tally) -> anyhow::Result<String> {
    let kinds = tally.often(0, BUNDLES, 10);
    let renewals = tally.often(RENEWALS, ALL, 10);
    let refusals = tally.often(TOO_MANY, KINDS, 10);
    Ok(format!(in alloc;
        "{submits} submits of {PREPARED} prepared plans and {most} of {most}, all replies agree\n\
        each of {kinds} kinds of replies and refusals came ten times or more\n\
        each of {renewals} answers to a renewal and {refusals} refusals of a submit came ten times or more"
    )?)
}
