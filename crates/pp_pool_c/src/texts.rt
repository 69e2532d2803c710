//! Settings, plans and certificates, from the bytes that C hands in.

ghost use Rattle.std.specs.Prelude.{◌≡◌, IfOk};
ghost use Rattle.pp_settings.specs.Settings.{geometry_of};
ghost use Rattle.pp_settings.specs.Spelling.{IsText};
ghost use Rattle.pp_plan.specs.Spelling.{IsText as IsPlanText};
ghost use Rattle.pp_cert.specs.Accepted.{IsAccepted};
ghost use Rattle.pp_cert.specs.Claims.{claims_of};
ghost use Rattle.pp_text.specs.Steps.{Gives};
ghost use Rattle.pp_pool_c.specs.Texts.{is_memory, same, settings_in, plan_in, claims_in, certified_in, alone_in};

use crate::refusal::Refusal;
use pp_annotate::annotate;
use pp_cert::{Accepted, Certificate, check};
use pp_plan::Plan;
use pp_settings::Settings;
use std::alloc::Global;
use std::str;

/// The settings that the bytes spell.
pub(crate) fn settings_in(alloc: Global, bytes: &[u8]) -> Result<Settings, Refusal>
    ensures gives { Gives is_memory same result (settings_in bytes.now) }
    ensures spelled { IfOk result (IsText bytes.now) }
{
    let Ok(text) = str::from_utf8(bytes) else {
        return Err(Refusal::NotText);
    };
    Ok(Settings::from_text(alloc, text)?)
}

/// The plan that the bytes spell under the settings.
fn plan_in(alloc: Global, settings: &Settings, bytes: &[u8]) -> Result<Plan, Refusal>
    ensures gives { Gives is_memory same result (plan_in settings.now bytes.now) }
    ensures spelled { IfOk result (IsPlanText settings.now bytes.now) }
    ensures layout { IfOk result (λ plan. plan.layout ≡ geometry_of settings.now) }
{
    let Ok(text) = str::from_utf8(bytes) else {
        return Err(Refusal::NotText);
    };
    Ok(Plan::from_text(alloc, settings, text)?)
}

/// The certificate that the bytes spell under the settings and the plan.
fn claims_in(
    alloc: Global,
    settings: &Settings,
    plan: &Plan,
    bytes: &[u8],
) -> Result<Certificate, Refusal>
    ensures { Gives is_memory claims_of result (claims_in settings.now plan.now bytes.now) }
{
    let Ok(text) = str::from_utf8(bytes) else {
        return Err(Refusal::NotText);
    };
    Ok(Certificate::from_text(alloc, settings, plan, text)?)
}

/// The plan of a text, accepted with the certificate of another one.
pub(crate) fn certified_in(
    alloc: Global,
    settings: &Settings,
    plan: &[u8],
    certificate: &[u8],
) -> Result<Accepted, Refusal>
    ensures gives { Gives is_memory same result (certified_in settings.now plan.now certificate.now) }
    ensures spelled { IfOk result (λ accepted. IsPlanText settings.now plan.now accepted.plan) }
    ensures layout { IfOk result (λ accepted. accepted.plan.layout ≡ geometry_of settings.now) }
    ensures facts { IfOk result IsAccepted }
{
    let plan = plan_in(alloc, settings, plan)?;
    let certificate = claims_in(alloc, settings, &plan, certificate)?;
    match check(settings, plan, &certificate) {
        Ok(accepted) => Ok(accepted),
        Err((_, error)) => Err(Refusal::Check(error)),
    }
}

/// The plan of a text, accepted with its least certificate.
pub(crate) fn alone_in(alloc: Global, settings: &Settings, plan: &[u8]) -> Result<Accepted, Refusal>
    ensures gives { Gives is_memory same result (alone_in settings.now plan.now) }
    ensures spelled { IfOk result (λ accepted. IsPlanText settings.now plan.now accepted.plan) }
    ensures layout { IfOk result (λ accepted. accepted.plan.layout ≡ geometry_of settings.now) }
    ensures facts { IfOk result IsAccepted }
{
    let plan = plan_in(alloc, settings, plan)?;
    let certificate = annotate(alloc, settings, &plan)?;
    match check(settings, plan, &certificate) {
        Ok(accepted) => Ok(accepted),
        Err((_, error)) => Err(Refusal::Check(error)),
    }
}
