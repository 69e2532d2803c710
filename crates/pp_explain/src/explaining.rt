//! Explaining a refusal of a command's files.

ghost use Rattle.std.specs.Prelude.{IfOk, IfSome};
ghost use Rattle.pp_explain.specs.Paragraphs.{IsAbout, paths_of};

use crate::check::{check_said, is_of_plan};
use crate::fault::fault_said;
use crate::journal::journal_said;
use crate::paragraph::paragraph;
use crate::plans::refused_plan;
use crate::reading::{plan_in, settings_in};
use crate::segments::{SegmentFault, bounded_life_said, segments_said};
use crate::source::Source;
use crate::stop::{Stop, stop_said};
use crate::submit::{submit_said, unkept_said};
use pp_annotate::AnnotateError;
use pp_cert::{CertError, CheckError};
use pp_explain_text::{certificate_said, other_life_said, plan_said, script_said, settings_said};
use pp_locate::Said;
use pp_model::SubmitError;
use pp_plan::PlanError;
use pp_report::AuditError;
use pp_script::ScriptError;
use pp_settings::{Settings, SettingsError};
use std::alloc::{AllocError, Global};

/// The files of a command.
#[derive(Clone, Copy)]
pub struct Sources<'a> {
    /// The settings.
    pub settings: Source<'a>,
    /// The certificate, the script, the journal or a file of segments, where the command reads one.
    pub other: Option<Source<'a>>,
    /// The plans, in their order.
    pub plans: &'a [Source<'a>],
}

/// Why the files of a command are refused.
#[derive(Clone, Copy)]
pub enum Refused<'a> {
    /// The settings' file gives no settings.
    Settings(SettingsError),
    /// The settings are of endless lives, which the command doesn't serve.
    OtherLife,
    /// The settings are of a bounded life, and the command audits segments.
    BoundedLife,
    /// The script's file gives no script.
    Script(ScriptError),
    /// A plan's file gives no plan.
    Plan(PlanError),
    /// The certificate's file gives no certificate.
    Certificate(CertError),
    /// The certificate is not one of the plan.
    Check(CheckError),
    /// A plan has no certificate.
    Annotate(AnnotateError),
    /// A new pool doesn't take a plan in.
    Submit(SubmitError),
    /// A new pool whose life has no end doesn't keep a plan beside the earlier ones.
    TooManyPrepared,
    /// The journal is not a true one of the plans.
    Audit(AuditError),
    /// A file of segments is refused, and `other` is that file.
    Segments(SegmentFault<'a>),
    /// The run gives no record.
    Stop(Stop),
}

/// What the refusal means: where in which file, what stands there, and the rule. Nothing where the files don't show it.
///
/// # Errors
///
/// Only where memory runs out.
pub fn explain(
    alloc: Global,
    files: Sources<'_>,
    refused: Refused<'_>,
) -> Result<Option<Vec<u8>>, AllocError>
    // A paragraph about one of the files.
    ensures { IfOk result (λ told. IfSome told (λ text. IsAbout (paths_of files.entry) text.items)) }
{
    match finding_of(alloc, files, refused)? {
        Some(Finding { which, said }) => told(alloc, files, which, &said),
        None => Ok(None),
    }
}

/// One of the files.
#[derive(Clone, Copy)]
pub(crate) enum Which {
    Settings,
    Other,
    /// The plan of this number.
    Plan(usize),
}

/// What is said, and of which file.
#[derive(Drop)]
pub(crate) struct Finding {
    pub(crate) which: Which,
    pub(crate) said: Said,
}

impl Finding {
    pub(crate) fn of(which: Which, said: Said) -> Option<Finding> {
        Some(Finding { which, said })
    }
}

/// The paragraph of what is said of one of the files, where there is such a file.
#[tactic(auto, using(crate::proofs::About::abouts))]
pub(crate) fn told(
    alloc: Global,
    files: Sources<'_>,
    which: Which,
    said: &Said,
) -> Result<Option<Vec<u8>>, AllocError>
    ensures { IfOk result (λ told. IfSome told (λ text. IsAbout (paths_of files.entry) text.items)) }
{
    match which {
        Which::Settings => Ok(Some(paragraph(alloc, files.settings.path, said)?)),
        Which::Other => match files.other {
            Some(other) => Ok(Some(paragraph(alloc, other.path, said)?)),
            None => Ok(None),
        },
        Which::Plan(number) if number < files.plans.len() => {
            let plan = files.plans[number];
            Ok(Some(paragraph(alloc, plan.path, said)?))
        }
        Which::Plan(_) => Ok(None),
    }
}

/// What is said of the refusal, and of which file.
fn finding_of(
    alloc: Global,
    files: Sources<'_>,
    refused: Refused<'_>,
) -> Result<Option<Finding>, AllocError> {
    let other = match files.other {
        Some(other) => other.bytes,
        None => &[],
    };
    Ok(match refused {
        Refused::Settings(error) => Finding::of(
            Which::Settings,
            settings_said(alloc, files.settings.bytes, error)?,
        ),
        Refused::OtherLife => Finding::of(
            Which::Settings,
            other_life_said(alloc, files.settings.bytes)?,
        ),
        Refused::BoundedLife => Finding::of(Which::Settings, bounded_life_said(alloc)?),
        Refused::Script(error) => Finding::of(Which::Other, script_said(alloc, other, error)?),
        refused => match settings_in(alloc, files.settings.bytes)? {
            Some(settings) => finding_under(alloc, &settings, files.plans, other, refused)?,
            None => None,
        },
    })
}

/// The same of a refusal that comes where the settings are read.
fn finding_under(
    alloc: Global,
    settings: &Settings,
    plans: &[Source<'_>],
    other: &[u8],
    refused: Refused<'_>,
) -> Result<Option<Finding>, AllocError> {
    match refused {
        Refused::Stop(stop) => {
            let said = stop_said(alloc, settings, stop)?;
            Ok(Finding::of(Which::Settings, said))
        }
        Refused::Submit(error) => Ok(match submit_said(alloc, settings, plans, error)? {
            Some((number, said)) => Finding::of(Which::Plan(number), said),
            None => None,
        }),
        Refused::TooManyPrepared => {
            let (number, said) = unkept_said(alloc)?;
            Ok(Finding::of(Which::Plan(number), said))
        }
        Refused::Plan(_) | Refused::Annotate(_) => {
            finding_among(alloc, settings, plans, refused)
        }
        Refused::Certificate(_) | Refused::Check(_) => match plans.first() {
            Some(plan) => finding_beside(alloc, settings, plan.bytes, other, refused),
            None => Ok(None),
        },
        Refused::Audit(error) => {
            let said = journal_said(alloc, settings, plans, other, error)?;
            Ok(Finding::of(Which::Other, said))
        }
        Refused::Segments(fault) => {
            let said = segments_said(alloc, settings, plans.len(), other, fault)?;
            Ok(Finding::of(Which::Other, said))
        }
        Refused::Settings(_) | Refused::OtherLife | Refused::BoundedLife | Refused::Script(_) => {
            Ok(None)
        }
    }
}

/// The same of a plan among several.
fn finding_among(
    alloc: Global,
    settings: &Settings,
    plans: &[Source<'_>],
    refused: Refused<'_>,
) -> Result<Option<Finding>, AllocError> {
    let Some(number) = refused_plan(alloc, settings, plans)? else {
        return Ok(None);
    };
    let Some(plan) = plans.get(number) else {
        return Ok(None);
    };
    let said = match refused {
        Refused::Plan(error) => plan_said(alloc, settings, plan.bytes, error)?,
        Refused::Annotate(AnnotateError::Fault(error)) => {
            fault_said(alloc, settings, plan.bytes, error)?
        }
        _ => return Ok(None),
    };
    Ok(Finding::of(Which::Plan(number), said))
}

/// The same of a certificate beside its plan.
fn finding_beside(
    alloc: Global,
    settings: &Settings,
    plan: &[u8],
    certificate: &[u8],
    refused: Refused<'_>,
) -> Result<Option<Finding>, AllocError> {
    match refused {
        Refused::Check(error) => {
            if is_of_plan(alloc, settings, plan, error)? {
                let said = fault_said(alloc, settings, plan, error)?;
                return Ok(Finding::of(Which::Plan(0), said));
            }
            let said = check_said(alloc, settings, plan, certificate, error)?;
            Ok(Finding::of(Which::Other, said))
        }
        Refused::Certificate(error) => match plan_in(alloc, settings, plan)? {
            Some(plan) => {
                let said = certificate_said(alloc, settings, &plan, certificate, error)?;
                Ok(Finding::of(Which::Other, said))
            }
            None => Ok(None),
        },
        _ => Ok(None),
    }
}
