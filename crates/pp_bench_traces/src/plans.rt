//! The plan that a worker follows, and the settings of its pool.

ghost use Rattle.std.specs.Prelude.{◌≡◌, IfOk};
ghost use Rattle.pp_settings.specs.declared.span.Span.TheVariants.{Bounded};

use crate::error::PlanError;
use pp_annotate::annotate;
use pp_cert::{Accepted, check};
use pp_plan::Plan;
use pp_settings::Settings;
use std::alloc::{AllocError, Global};

/// The most operations of one plan: each is four steps, and a plan has at most 1,000,000.
pub const MOST_OPS: u64 = 250_000;

/// How many frames the pools have.
pub const FRAMES: u32 = 4096;

/// How large a pool is.
#[derive(Clone, Copy, Debug, PartialEq, Eq)]
pub struct Size {
    /// How many frames it has.
    pub frames: u32,
    /// How many page numbers it has, from 0 on.
    pub pages: u32,
    /// How many bytes a page has.
    pub page_bytes: u32,
}

/// A large pool, beside the others of this crate.
pub const LARGE: Size = Size {
    frames: 65_536,
    pages: 1 << 20,
    page_bytes: 512,
};

/// The most turns that a loop has.
const LONGEST: u64 = 65_535;

/// A page is fixed, latched S, unlatched and unfixed.
const OPERATION: &str =
    "{\"fix\":\"a\",\"region\":\"all\"},{\"latch\":\"a\",\"mode\":\"S\"},{\"unlatch\":\"a\"},{\"unfix\":\"a\"}";

/// A page more is held.
const GATHER: &str = "{\"gather\":\"held\",\"region\":\"all\"}";

/// All pages that are held are given back.
const SCATTER: &str = "{\"scatter\":\"held\"}";

/// 4,096 frames, a region of all page numbers of version 1, pages of 4,096 bytes, no flush, and so many workers. Lives are bounded.
///
/// # Errors
///
/// [`PlanError::Refused`] where these aren't 1 to 32 workers. Memory may run out.
pub fn settings(alloc: Global, workers: u32) -> Result<Settings, PlanError>
    ensures { IfOk result (λ settings. settings.span ≡ Bounded) }
{
    let text = format!(in alloc;
        "frames = {FRAMES}
page_bytes = 4096
workers = {workers}
flushes = 0
[[region]]
name = \"all\"
first = 0
count = 65536
class = 0
"
    )?;
    let settings = Settings::from_text(alloc, text.as_str()).map_err(|_| PlanError::Refused)?;
    match settings.see_bounded() {
        Ok(()) => Ok(settings),
        Err(_) => Err(PlanError::Refused),
    }
}

/// Settings of version 2 for a pool of this size: one region of all its pages, no flush, and one worker. Its lives are bounded.
///
/// # Errors
///
/// [`PlanError::Refused`] where no pool has this size: frames are 1 to 2^24, page numbers 1 to 2^32 - 4, and bytes 512 to 2^20, in
/// steps as the settings' text has them. Memory may run out.
pub fn settings_of(alloc: Global, size: Size) -> Result<Settings, PlanError> {
    let Size {
        frames,
        pages,
        page_bytes,
    } = size;
    let text = format!(in alloc;
        "version = 2
frames = {frames}
page_bytes = {page_bytes}
workers = 1
waiting = 0
flushes = 0
[[region]]
name = \"all\"
first = 0
count = {pages}
class = 0
"
    )?;
    Settings::from_text(alloc, text.as_str()).map_err(|_| PlanError::Refused)
}

/// A plan of so many operations, with a certificate that the checker takes. An operation is a fix, a latch S, an unlatch
/// and an unfix.
///
/// # Errors
///
/// [`PlanError::Refused`] where these are more than [`MOST_OPS`]. Memory may run out.
pub fn accepted(alloc: Global, settings: &Settings, ops: u64) -> Result<Accepted, PlanError> {
    accepted_while_held(alloc, settings, 0, ops)
}

/// The same while so many pages are held: a bundle gathers them first, and is scattered in the end.
///
/// # Errors
///
/// [`PlanError::Refused`] where no frame is left for the operations, or where these are more than [`MOST_OPS`] with the pages
/// that are held. Memory may run out.
pub fn accepted_while_held(
    alloc: Global,
    settings: &Settings,
    held: u32,
    ops: u64,
) -> Result<Accepted, PlanError> {
    let operations = operations_text(alloc, ops)?;
    let text = if held > 0 {
        format!(in alloc;
            "{{\"body\":[{{\"body\":[{GATHER}],\"loop\":{held}}},{operations},{SCATTER}],\"version\":2}}"
        )?
    } else {
        format!(in alloc; "{{\"body\":[{operations}],\"version\":1}}")?
    };
    let plan = Plan::from_text(alloc, settings, text.as_str()).map_err(|_| PlanError::Refused)?;
    let certificate = annotate(alloc, settings, &plan).map_err(|_| PlanError::Refused)?;
    check(settings, plan, &certificate).map_err(|_| PlanError::Refused)
}

/// The text of so many operations in a plan: loops, one after another, as long as a loop can be.
fn operations_text(alloc: Global, ops: u64) -> Result<String, AllocError> {
    let mut body = String::new(alloc);
    for number in 0..=MOST_OPS / LONGEST {
        let left = ops.saturating_sub(number * LONGEST);
        if left > 0 {
            let turns = left.min(LONGEST);
            let comma = if number > 0 { "," } else { "" };
            let text = format!(in alloc; "{comma}{{\"body\":[{OPERATION}],\"loop\":{turns}}}")?;
            body.push_str(text.as_str())?;
        }
    }
    Ok(body)
}
