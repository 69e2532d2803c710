//! Reading, checking and making certificates, from the bytes of files.

ghost use Rattle.std.specs.Prelude.{◌≡◌, IfOk, IsOk, string_bytes};
ghost use Rattle.pp_settings.specs.declared.span.Span.TheVariants.{Bounded};
ghost use Rattle.pp_cert.specs.Claims.{claims_of};
ghost use Rattle.pp_judge.specs.Judgement.{settings_in, bounded_in, endless_in, plan_in, claims_in, sources_in, judgement, certification};
ghost use Rattle.pp_text.specs.Steps.{Gives};
ghost use Rattle.pp_judge.specs.Steps.{is_want_of_memory, same};

use crate::contents::{AnnotateFiles, CheckFiles};
use crate::error::JudgeError;
use pp_annotate::annotate;
use pp_cert::{Accepted, CertError, Certificate};
use pp_plan::{Plan, PlanError};
use pp_segments::SegmentError;
use pp_settings::{OtherLife, Settings, SettingsError};
use std::alloc::Global;
use std::str;

/// Settings, and a plan that was read under them.
#[derive(Debug, Drop)]
pub struct Sources {
    /// The settings.
    pub settings: Settings,
    /// The plan.
    pub plan: Plan,
}

/// Reads the settings, the plan and the certificate, in this order, and checks the certificate.
///
/// # Errors
///
/// The first refusal in that order. A file whose bytes are not UTF-8 is refused in its turn, as one that is no
/// TOML or no JSON.
pub fn judge(alloc: Global, files: CheckFiles<'_>) -> Result<Accepted, JudgeError>
    // What is answered is the judgement on the three files, unless memory ran out.
    ensures { Gives is_want_of_memory same result
        (judgement files.entry.settings.now files.entry.plan.now files.entry.certificate.now) }
{
    let Sources { settings, plan } = sources_in(alloc, files.settings, files.plan)?;
    let certificate = certificate_in(alloc, &settings, &plan, files.certificate)?;
    match pp_cert::check(&settings, plan, &certificate) {
        Ok(accepted) => Ok(accepted),
        Err((_, error)) => Err(JudgeError::Check(error)),
    }
}

/// Reads the settings and the plan, in this order, makes the least certificate of the plan, and gives its text.
///
/// # Errors
///
/// The first refusal in that order. A file whose bytes are not UTF-8 is refused in its turn, as one that is no
/// TOML or no JSON.
pub fn certify(alloc: Global, files: AnnotateFiles<'_>) -> Result<String, JudgeError>
    // What is answered is the text of the certificate that is made of the two files, unless memory ran out.
    ensures exact { Gives is_want_of_memory string_bytes result
        (certification files.entry.settings.now files.entry.plan.now) }
    // The judgement on these files and the text that is made accepts the plan.
    ensures accepted { IfOk result (λ text.
        IsOk (judgement files.entry.settings.now files.entry.plan.now (string_bytes text))) }
{
    let Sources { settings, plan } = sources_in(alloc, files.settings, files.plan)?;
    let certificate = annotate(alloc, &settings, &plan)?;
    Ok(certificate.to_text(alloc, &settings, &plan)?)
}

/// The settings and the plan under them, read in this order.
fn sources_in(alloc: Global, settings: &[u8], plan: &[u8]) -> Result<Sources, JudgeError>
    ensures { Gives is_want_of_memory same result (sources_in settings.now plan.now) }
{
    let settings = settings_in(alloc, settings)?;
    let plan = plan_in(alloc, &settings, plan)?;
    Ok(Sources { settings, plan })
}

/// The settings that the bytes spell.
pub fn settings_in(alloc: Global, bytes: &[u8]) -> Result<Settings, JudgeError>
    ensures { Gives is_want_of_memory same result (settings_in bytes.now) }
{
    let Ok(text) = str::from_utf8(bytes) else {
        return Err(JudgeError::Settings(SettingsError::NotToml));
    };
    Ok(Settings::from_text(alloc, text)?)
}

/// The settings that the bytes spell, whose lives are bounded.
pub fn bounded_in(alloc: Global, bytes: &[u8]) -> Result<Settings, JudgeError>
    ensures exact { Gives is_want_of_memory same result (bounded_in bytes.now) }
    ensures bounded { IfOk result (λ settings. settings.span ≡ Bounded) }
{
    let settings = settings_in(alloc, bytes)?;
    settings.see_bounded()?;
    Ok(settings)
}

/// The settings that the bytes spell, whose life is endless.
pub fn endless_in(alloc: Global, bytes: &[u8]) -> Result<Settings, JudgeError>
    ensures { Gives is_want_of_memory same result (endless_in bytes.now) }
{
    let settings = settings_in(alloc, bytes)?;
    match settings.see_bounded() {
        Ok(()) => Err(JudgeError::Segments(SegmentError::OtherLife)),
        Err(OtherLife) => Ok(settings),
    }
}

/// The plan that the bytes spell under the settings.
pub fn plan_in(alloc: Global, settings: &Settings, bytes: &[u8]) -> Result<Plan, JudgeError>
    ensures { Gives is_want_of_memory same result (plan_in settings.now bytes.now) }
{
    let Ok(text) = str::from_utf8(bytes) else {
        return Err(JudgeError::Plan(PlanError::NotJson));
    };
    Ok(Plan::from_text(alloc, settings, text)?)
}

/// The certificate that the bytes spell under the settings and the plan.
fn certificate_in(
    alloc: Global,
    settings: &Settings,
    plan: &Plan,
    bytes: &[u8],
) -> Result<Certificate, JudgeError>
    ensures { Gives is_want_of_memory claims_of result (claims_in settings.now plan.now bytes.now) }
{
    let Ok(text) = str::from_utf8(bytes) else {
        return Err(JudgeError::Certificate(CertError::NotJson));
    };
    Ok(Certificate::from_text(alloc, settings, plan, text)?)
}
