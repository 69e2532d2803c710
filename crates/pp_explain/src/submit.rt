//! Plans that a pool doesn't take in.

use crate::plans::certificate_of;
use crate::source::Source;
use pp_locate::Said;
use pp_model::SubmitError;
use pp_settings::limits::{
    MOST_BOUNDED_EVENTS, MOST_ENDLESS_EVENTS, MOST_PLANS, MOST_PREPARED, PLAN_EVENTS, STEP_EVENTS,
};
use pp_settings::{Settings, Span};
use std::alloc::{AllocError, Global};

/// The number of the plan that a new pool with these settings doesn't take in, where it takes them in by their order, and
/// what is said of it. Nothing where it is none of these that it refuses.
pub(crate) fn submit_said(
    alloc: Global,
    settings: &Settings,
    plans: &[Source<'_>],
    error: SubmitError,
) -> Result<Option<(usize, Said)>, AllocError> {
    match error {
        SubmitError::OtherSettings | SubmitError::NotPrepared => Ok(None),
        SubmitError::TooManyPlans => Ok(Some(one_too_many(alloc, settings.span())?)),
        SubmitError::JournalLimit => too_long(alloc, settings, plans),
    }
}

/// The number of the plan that a new pool doesn't keep beside the earlier ones, where its life has no end, and what is said of it.
pub(crate) fn unkept_said(alloc: Global) -> Result<(usize, Said), AllocError> {
    let text = format!(in alloc;
        "it is plan {MOST_PREPARED}, counted from 0: in an endless life a pool keeps at most {MOST_PREPARED} plans"
    )?;
    Ok((MOST_PREPARED, Said::of(text)))
}

/// The number of the plan that is one too many for a new pool whose life lasts so long, and what is said of it.
fn one_too_many(alloc: Global, span: Span) -> Result<(usize, Said), AllocError> {
    match span {
        Span::Bounded => {
            let text = format!(in alloc;
                "it is plan {MOST_PLANS}, counted from 0: a pool takes in at most {MOST_PLANS} plans"
            )?;
            Ok((MOST_PLANS, Said::of(text)))
        }
        Span::Endless { waiting } => {
            let text = format!(in alloc;
                "it is plan {waiting}, counted from 0: waiting is {waiting}, so at most {waiting} plans wait at a time, \
                and all wait before the script begins"
            )?;
            Ok((waiting as usize, Said::of(text)))
        }
    }
}

/// How many events a life has at most that lasts so long.
fn most_events(span: Span) -> u64 {
    match span {
        Span::Bounded => MOST_BOUNDED_EVENTS,
        Span::Endless { .. } => MOST_ENDLESS_EVENTS,
    }
}

/// The plan whose cost leads past the end of the journal.
fn too_long(
    alloc: Global,
    settings: &Settings,
    plans: &[Source<'_>],
) -> Result<Option<(usize, Said)>, AllocError> {
    let (flushes, most) = (settings.flushes() * 2, most_events(settings.span()));
    let mut before = 0u64;
    for (number, plan) in plans.iter().enumerate() {
        let Some(cost) = cost_in(alloc, settings, plan.bytes)? else {
            return Ok(None);
        };
        if before.saturating_add(cost).saturating_add(flushes) > most {
            let text = format!(in alloc;
                "plan {number}, counted from 0, costs {cost}, those before it {before}, and the flushes {flushes}: \
                a pool takes in at most {most} in all"
            )?;
            return Ok(Some((number, Said::of(text))));
        }
        before = before.saturating_add(cost);
    }
    Ok(None)
}

/// The cost of the plan that the bytes spell, if it has a certificate.
fn cost_in(alloc: Global, settings: &Settings, bytes: &[u8]) -> Result<Option<u64>, AllocError> {
    match certificate_of(alloc, settings, bytes)? {
        Some(certificate) => Ok(Some(cost_of(certificate.steps))),
        None => Ok(None),
    }
}

/// The cost of a plan of so many steps.
fn cost_of(steps: u64) -> u64 {
    steps
        .saturating_mul(STEP_EVENTS)
        .saturating_add(PLAN_EVENTS)
}
