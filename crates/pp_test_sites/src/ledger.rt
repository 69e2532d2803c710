//! The pool by a site with a ledger, whose segments come to a sink.

use crate::crew::Crew;
use crate::plans::{ROUND, ROUNDS, device, plans, settings};
use crate::texts::Texts;
use crate::visits::Visits;
use pp_cert::Accepted;
use pp_ledger::{Ledger, LedgerSite, Segment};
use pp_segments::SegmentAuditor;
use pp_settings::Settings;
use pp_vault::Prepared;
use std::alloc::Global;

/// For how many events a segment has room.
const EVENTS: usize = 64;

/// Has the site keep the plans.
fn prepare(
    alloc: Global,
    site: &mut LedgerSite<Texts>,
    plans: Vec<Accepted>,
) -> anyhow::Result<Vec<Prepared>> {
    let mut prepared = Vec::new(alloc);
    for plan in plans {
        match site.prepare(plan) {
            Ok(place) => prepared.push(place)?,
            Err((_plan, error)) => anyhow::bail!("a plan isn't prepared: {error}"),
        }
    }
    Ok(prepared)
}

/// Submits the plan that is prepared at this place, and has the worker do it. Tells whether it was taken in.
fn run(
    crew: &mut Crew<LedgerSite<Texts>>,
    prepared: &[Prepared],
    place: usize,
    visits: &mut Visits,
) -> bool {
    let Some(plan) = prepared.get(place) else {
        return false;
    };
    let is_submitted = crew.worker.site.submit(*plan).is_ok();
    let most = crew.worker.site.ledger().most();
    crew.work(most, visits);
    is_submitted
}

/// Prepares the plans and runs all rounds. Tells how many plans were taken in.
fn run_all(
    alloc: Global,
    crew: &mut Crew<LedgerSite<Texts>>,
    plans: Vec<Accepted>,
    visits: &mut Visits,
) -> anyhow::Result<u64> {
    let prepared = prepare(alloc, &mut crew.worker.site, plans)?;
    let mut submits: u64 = 0;
    for _ in 0..ROUNDS {
        for place in &ROUND {
            let is_submitted = run(crew, &prepared, *place, visits);
            submits = submits.saturating_add(u64::from(is_submitted));
        }
        crew.flush();
    }
    Ok(submits)
}

/// What was done, in lines.
fn told(
    alloc: Global,
    texts: &Texts,
    visits: &Visits,
    submits: u64,
    moves: u64,
) -> anyhow::Result<String> {
    Ok(format!(in alloc;
        "a ledger: {} segments, {} of them full, with {} lines of {submits} submits and {moves} moves\n\
        the work saw {} pages and changed {}\n\
        each segment is audited: {}; nothing is left to do: {}\n\
        {}",
        texts.auditor.segments(),
        texts.handed,
        texts.auditor.lines(),
        visits.seen,
        visits.changed,
        texts.is_well,
        texts.auditor.is_over(),
        texts.totals
    )?)
}

/// The pool, in which nothing was done yet.
fn crew_of(alloc: Global, settings: &Settings) -> anyhow::Result<Crew<LedgerSite<Texts>>> {
    if settings.see_bounded().is_ok() {
        anyhow::bail!("the life of the settings is bounded");
    }
    let auditor = SegmentAuditor::new(alloc, settings, plans(alloc, settings)?)?;
    let device = device(alloc, settings)?;
    let spare = Segment::with_room(alloc, EVENTS)?;
    let (ledger, hands) = Ledger::new(alloc, settings, EVENTS)?;
    let site = LedgerSite::new(ledger, spare, Texts::new(alloc, auditor));
    match Crew::new(alloc, site, device, hands, settings) {
        Ok(crew) => Ok(crew),
        Err((site, hands)) => {
            let (ledger, _spare, _texts) = site.into_parts();
            let _segment = ledger.close(hands);
            anyhow::bail!("there is no worker")
        }
    }
}

/// Serves the pool, and tells what came.
///
/// # Errors
///
/// Only where memory runs out.
pub fn served(alloc: Global) -> anyhow::Result<String> {
    let settings = settings(alloc)?;
    let plans = plans(alloc, &settings)?;
    let mut crew = crew_of(alloc, &settings)?;
    let mut visits = Visits::new();
    let submits = run_all(alloc, &mut crew, plans, &mut visits);
    let moves = crew.moves;
    let (site, hands) = crew.end();
    let (ledger, _spare, mut texts) = site.into_parts();
    let last = ledger.close(hands);
    texts.keep(&last);
    told(alloc, &texts, &visits, submits?, moves)
}
