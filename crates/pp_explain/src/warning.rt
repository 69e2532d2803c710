//! Warnings of keys that stand twice.

ghost use Rattle.std.specs.Prelude.{IfOk, IfSome};
ghost use Rattle.pp_explain.specs.Paragraphs.{IsAbout, paths_of};

use crate::explaining::{Finding, Sources, Which, told};
use pp_locate::{Said, Spot, repeat_in, shown, spot_at, text_of};
use std::alloc::{AllocError, Global};

/// A warning of the first key that stands twice in an object of one of the plans, or else of the certificate: the last one
/// counts. Nothing where there is none. A file that is no JSON has none.
///
/// # Errors
///
/// Only where memory runs out.
pub fn repeated(alloc: Global, files: Sources<'_>) -> Result<Option<Vec<u8>>, AllocError>
    // A paragraph about one of the files.
    ensures { IfOk result (λ told. IfSome told (λ text. IsAbout (paths_of files.entry) text.items)) }
{
    match first_repeat(alloc, files)? {
        Some(Finding { which, said }) => told(alloc, files, which, &said),
        None => Ok(None),
    }
}

/// What is said of the first key that stands twice in the plans, or else in the other file.
fn first_repeat(alloc: Global, files: Sources<'_>) -> Result<Option<Finding>, AllocError> {
    for (number, plan) in files.plans.iter().enumerate() {
        if let Some(said) = repeat_said(alloc, plan.bytes)? {
            return Ok(Finding::of(Which::Plan(number), said));
        }
    }
    let Some(other) = files.other else {
        return Ok(None);
    };
    match repeat_said(alloc, other.bytes)? {
        Some(said) => Ok(Finding::of(Which::Other, said)),
        None => Ok(None),
    }
}

/// What is said of the first key that stands twice in an object of the text, where the bytes are one.
fn repeat_said(alloc: Global, bytes: &[u8]) -> Result<Option<Said>, AllocError> {
    let Ok(text) = text_of(bytes) else {
        return Ok(None);
    };
    let Some(repeat) = repeat_in(alloc, text)? else {
        return Ok(None);
    };
    let Spot { line, column } = spot_at(text.as_bytes(), repeat.first);
    let key = shown(alloc, text.get(repeat.second..).unwrap_or(""))?;
    Ok(Some(Said {
        spot: Some(spot_at(text.as_bytes(), repeat.second)),
        text: format!(in alloc;
            "warning: the key {key} stands in this object at {line}:{column} too, and the last one counts"
        )?,
    }))
}
