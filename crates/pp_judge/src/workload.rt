//! What a pool is run with, from the bytes of files: settings, and plans that were accepted under them.

ghost use Rattle.std.specs.Prelude.{◌≡◌, IfOk, map};
ghost use Rattle.pp_settings.specs.declared.span.Span.TheVariants.{Bounded};
ghost use Rattle.pp_text.specs.Steps.{Gives};
ghost use Rattle.pp_judge.specs.Judgement.{accepted_in, accepted_all, workload_in};
ghost use Rattle.pp_judge.specs.Steps.{is_want_of_memory, same};

use crate::error::JudgeError;
use crate::judgement::{bounded_in, plan_in};
use pp_annotate::annotate;
use pp_cert::Accepted;
use pp_settings::Settings;
use std::alloc::Global;

/// The settings of a pool whose lives are bounded, and the plans for it.
#[derive(Drop)]
pub struct Workload {
    /// The settings.
    pub settings: Settings,
    /// The plans in their order, each accepted with its least certificate.
    pub plans: Vec<Accepted>,
}

impl Workload {
    /// Reads the settings and the plans, in this order, makes each plan's certificate and checks it before the next plan.
    ///
    /// # Errors
    ///
    /// The first refusal in that order. Settings of an endless life are [`JudgeError::OtherLife`], before any plan.
    /// A file whose bytes are not UTF-8 is refused in its turn, as one that is no TOML or no JSON.
    pub fn read(alloc: Global, settings: &[u8], plans: &[Vec<u8>]) -> Result<Workload, JudgeError>
        // Exactly what the definition gives of these bytes, unless memory ran out.
        ensures exact { Gives is_want_of_memory (λ w. (w.settings, w.plans.items)) result
            (workload_in settings.now (map (λ plan. plan.items) plans.now)) }
        // What serves bounded lives alone serves it.
        ensures bounded { IfOk result (λ w. w.settings.span ≡ Bounded) }
    {
        let settings = bounded_in(alloc, settings)?;
        let plans = accepted_all(alloc, &settings, plans)?;
        Ok(Workload { settings, plans })
    }
}

/// The plans that the bytes spell under the settings, each accepted with its least certificate before the next is read.
pub fn accepted_all(
    alloc: Global,
    settings: &Settings,
    files: &[Vec<u8>],
) -> Result<Vec<Accepted>, JudgeError>
    ensures { Gives is_want_of_memory (λ plans. plans.items) result
        (accepted_all settings.now (map (λ plan. plan.items) files.now)) }
{
    let mut plans = Vec::new(alloc);
    for bytes in files {
        plans.push(accepted_in(alloc, settings, bytes)?)?;
    }
    Ok(plans)
}

/// The plan that the bytes spell under the settings, accepted with its least certificate.
fn accepted_in(alloc: Global, settings: &Settings, bytes: &[u8]) -> Result<Accepted, JudgeError>
    ensures { Gives is_want_of_memory same result (accepted_in settings.now bytes.now) }
{
    let plan = plan_in(alloc, settings, bytes)?;
    let certificate = annotate(alloc, settings, &plan)?;
    match pp_cert::check(settings, plan, &certificate) {
        Ok(accepted) => Ok(accepted),
        Err((_, error)) => Err(JudgeError::Check(error)),
    }
}
