//! Plans whose certificates are accepted.

use pp_annotate::annotate;
use pp_cert::{Accepted, check};
use pp_plan::Plan;
use pp_settings::Settings;
use std::alloc::Global;

/// The plan of this text, accepted with the certificate that is made for it.
///
/// # Errors
///
/// Where the text is no plan under the settings, none of its certificates is accepted, or memory runs out.
pub fn accepted(alloc: Global, settings: &Settings, text: &str) -> anyhow::Result<Accepted> {
    let plan = Plan::from_text(alloc, settings, text)?;
    let certificate = annotate(alloc, settings, &plan)?;
    match check(settings, plan, &certificate) {
        Ok(accepted) => Ok(accepted),
        Err((_plan, error)) => Err(anyhow::Error::from(error)),
    }
}

/// The plans of these texts, each accepted so.
///
/// # Errors
///
/// As [`accepted`]'s, of the first text that has one.
pub fn all_accepted(
    alloc: Global,
    settings: &Settings,
    texts: &[&str],
) -> anyhow::Result<Vec<Accepted>> {
    let mut plans = Vec::new(alloc);
    for text in texts {
        plans.push(accepted(alloc, settings, text)?)?;
    }
    Ok(plans)
}
