//! The plan that is refused among several.

use crate::reading::plan_in;
use crate::source::Source;
use pp_annotate::{AnnotateError, annotate};
use pp_cert::{Certificate, CheckError};
use pp_settings::Settings;
use std::alloc::{AllocError, Global};

/// The number of the first of the plans whose text is refused under these settings, or that has no certificate.
pub(crate) fn refused_plan(
    alloc: Global,
    settings: &Settings,
    plans: &[Source<'_>],
) -> Result<Option<usize>, AllocError> {
    for (number, plan) in plans.iter().enumerate() {
        if certificate_of(alloc, settings, plan.bytes)?.is_none() {
            return Ok(Some(number));
        }
    }
    Ok(None)
}

/// The least certificate of the plan that the bytes spell, if it has one.
pub(crate) fn certificate_of(
    alloc: Global,
    settings: &Settings,
    bytes: &[u8],
) -> Result<Option<Certificate>, AllocError> {
    let Some(plan) = plan_in(alloc, settings, bytes)? else {
        return Ok(None);
    };
    match annotate(alloc, settings, &plan) {
        Ok(certificate) => Ok(Some(certificate)),
        Err(AnnotateError::Fault(_)) => Ok(None),
        Err(AnnotateError::OutOfMemory) => Err(AllocError),
    }
}

/// Why the plan that the bytes spell has no certificate, if it has none.
pub(crate) fn fault_of(
    alloc: Global,
    settings: &Settings,
    bytes: &[u8],
) -> Result<Option<CheckError>, AllocError> {
    let Some(plan) = plan_in(alloc, settings, bytes)? else {
        return Ok(None);
    };
    match annotate(alloc, settings, &plan) {
        Ok(_) => Ok(None),
        Err(AnnotateError::Fault(fault)) => Ok(Some(fault)),
        Err(AnnotateError::OutOfMemory) => Err(AllocError),
    }
}
