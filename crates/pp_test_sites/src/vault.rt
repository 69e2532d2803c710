//! The same pool by a site with a vault, whose journal nobody keeps.

use crate::crew::Crew;
use crate::plans::{ROUND, ROUNDS, device, plans, settings};
use crate::visits::Visits;
use pp_cert::Accepted;
use pp_ledger::VaultSite;
use pp_settings::Settings;
use pp_vault::{Prepared, Vault};
use std::alloc::Global;

/// Has the site keep the plans, and tells it the greatest of their costs.
fn prepare(
    alloc: Global,
    site: &mut VaultSite,
    plans: Vec<Accepted>,
) -> anyhow::Result<Vec<Prepared>> {
    let mut prepared = Vec::new(alloc);
    for plan in plans {
        site.most = site.most.max(plan.cost());
        match site.vault.prepare(plan) {
            Ok(place) => prepared.push(place)?,
            Err((_plan, error)) => anyhow::bail!("a plan isn't prepared: {error}"),
        }
    }
    Ok(prepared)
}

/// Submits the plan that is prepared at this place, and has the worker do it. Tells whether it was taken in.
fn run(
    crew: &mut Crew<VaultSite>,
    prepared: &[Prepared],
    place: usize,
    visits: &mut Visits,
) -> bool {
    let Some(plan) = prepared.get(place) else {
        return false;
    };
    let is_submitted = crew.worker.site.vault.submit_prepared(*plan).is_ok();
    let most = crew.worker.site.most;
    crew.work(most, visits);
    is_submitted
}

/// Prepares the plans and runs all rounds. Tells how many plans were taken in.
fn run_all(
    alloc: Global,
    crew: &mut Crew<VaultSite>,
    plans: Vec<Accepted>,
    visits: &mut Visits,
) -> anyhow::Result<u64> {
    let prepared = prepare(alloc, &mut crew.worker.site, plans)?;
    let mut submits: u64 = 0;
    for _ in 0..ROUNDS {
        for place in &ROUND {
            let is_submitted = run(crew, &prepared, *place, visits);
            submits = submits.saturating_add(u64::from(is_submitted));
        }
        crew.flush();
    }
    Ok(submits)
}

/// The pool, in which nothing was done yet.
fn crew_of(alloc: Global, settings: &Settings) -> anyhow::Result<Crew<VaultSite>> {
    let device = device(alloc, settings)?;
    let (vault, hands) = Vault::new(alloc, settings)?;
    let site = VaultSite { vault, most: 0 };
    match Crew::new(alloc, site, device, hands, settings) {
        Ok(crew) => Ok(crew),
        Err((site, hands)) => {
            site.vault.scrap(hands);
            anyhow::bail!("there is no worker")
        }
    }
}

/// Serves the pool, and tells what came.
///
/// # Errors
///
/// Only where memory runs out.
pub fn served(alloc: Global) -> anyhow::Result<String> {
    let settings = settings(alloc)?;
    let plans = plans(alloc, &settings)?;
    let mut crew = crew_of(alloc, &settings)?;
    let mut visits = Visits::new();
    let submits = run_all(alloc, &mut crew, plans, &mut visits);
    let (moves, done) = (crew.moves, crew.totals.done);
    let (site, hands) = crew.end();
    site.vault.scrap(hands);
    let submits = submits?;
    Ok(format!(in alloc;
        "a vault: {submits} submits, {moves} moves, and {done} plans that were done\n\
        the work saw {} pages and changed {}",
        visits.seen, visits.changed
    )?)
}
