//! The settings, the plans and the certificates that files spell.

use pp_cert::{CertError, Certificate};
use pp_locate::text_of;
use pp_plan::{Plan, PlanError};
use pp_settings::{Settings, SettingsError};
use std::alloc::{AllocError, Global};

/// The settings that the bytes spell, if they spell any.
pub(crate) fn settings_in(alloc: Global, bytes: &[u8]) -> Result<Option<Settings>, AllocError> {
    let Ok(text) = text_of(bytes) else {
        return Ok(None);
    };
    match Settings::from_text(alloc, text) {
        Ok(settings) => Ok(Some(settings)),
        Err(SettingsError::OutOfMemory) => Err(AllocError),
        Err(_) => Ok(None),
    }
}

/// The plan that the bytes spell under the settings, if they spell one.
pub(crate) fn plan_in(
    alloc: Global,
    settings: &Settings,
    bytes: &[u8],
) -> Result<Option<Plan>, AllocError> {
    let Ok(text) = text_of(bytes) else {
        return Ok(None);
    };
    match Plan::from_text(alloc, settings, text) {
        Ok(plan) => Ok(Some(plan)),
        Err(PlanError::OutOfMemory) => Err(AllocError),
        Err(_) => Ok(None),
    }
}

/// The certificate that the text spells for the plan, if it spells one.
pub(crate) fn certificate_in(
    alloc: Global,
    settings: &Settings,
    plan: &Plan,
    text: &str,
) -> Result<Option<Certificate>, AllocError> {
    match Certificate::from_text(alloc, settings, plan, text) {
        Ok(certificate) => Ok(Some(certificate)),
        Err(CertError::OutOfMemory) => Err(AllocError),
        Err(_) => Ok(None),
    }
}
