//! Refusals of segments.

use crate::journal::{CARRIAGE_RETURN, differs_text, line_of, not_possible_text};
use crate::turns::Pool;
use pp_locate::{Said, line_at, line_text};
use pp_model::Turn;
use pp_report::{Asked, AuditError, Line, RENEWAL_LINE, line_in};
use pp_segments::{SegmentAuditor, SegmentError};
use pp_settings::{Settings, Span};
use std::alloc::{AllocError, Global};

/// What is said of settings whose life is bounded.
const BOUNDED_LIFE: &str =
    "the life of these settings is bounded, and segments are of an endless life: \
    with version = 2 and waiting above 0 it is endless";

/// The refusal of a file of segments, by the audit that found it.
#[derive(Clone, Copy)]
pub struct SegmentFault<'a> {
    /// Why the file is refused.
    pub error: SegmentError,
    /// The audit, which goes no further.
    pub auditor: &'a SegmentAuditor,
    /// How many lines the files before this one have.
    pub lines_before: u64,
}

/// What is said of settings of a bounded life.
pub(crate) fn bounded_life_said(alloc: Global) -> Result<Said, AllocError> {
    Ok(Said::of(String::from_str(alloc, BOUNDED_LIFE)?))
}

/// What is said of the bytes of a file of segments that is refused so, with these settings and so many prepared plans.
pub(crate) fn segments_said(
    alloc: Global,
    settings: &Settings,
    plans: usize,
    bytes: &[u8],
    fault: SegmentFault<'_>,
) -> Result<Said, AllocError> {
    let stopped = Stopped {
        pool: Pool {
            settings,
            core: fault.auditor.core(),
            plan: None,
        },
        segments: fault.auditor.segments(),
        plans,
    };
    let Some(number) = line_of_segments(fault.error) else {
        return Ok(Said::of(stopped.unfinished_text(alloc)?));
    };
    let number = number.saturating_sub(fault.lines_before);
    let line = line_at(bytes, number);
    let what = stopped.line_text(alloc, line, fault.error)?;
    let line = line_text(alloc, line)?;
    Ok(Said::of_line(number, format!(in alloc; "{line}{what}")?))
}

/// The line that the refusal names, counted through all files.
fn line_of_segments(error: SegmentError) -> Option<u64> {
    match error {
        SegmentError::Audit(error) => line_of(error),
        SegmentError::OtherSegment(number) | SegmentError::NotPrepared(number) => Some(number),
        SegmentError::OtherLife | SegmentError::Prepare(_) => None,
    }
}

/// Why a line is none of a segment.
fn no_line_text(line: &[u8]) -> &'static str {
    if line == RENEWAL_LINE.as_bytes() {
        return " begins the next life of a pool, and segments are of one life";
    }
    match line.last() {
        None => ": an empty line is no line of a segment",
        Some(b'\r') => CARRIAGE_RETURN,
        Some(_) if is_plain_submit(line) =>
            " names no prepared plan: in a segment the PLAN's number stands behind the plan's, \
            as in `submit 7 0 = queued`",
        Some(_) =>
            " is no line of a segment: `segment N = K`, `submit K P = queued`, or MOVE = REPLY \
            as in `fix 0 16 = mustread 1`",
    }
}

/// Whether the line is a submit as a journal of a bounded life has it.
fn is_plain_submit(line: &[u8]) -> bool {
    matches!(
        line_in(line),
        Some(Line {
            asked: Asked::Submit { .. },
            ..
        })
    )
}

/// Where an audit of segments has stopped.
#[derive(Clone, Copy)]
struct Stopped<'a, 'b> {
    pool: Pool<'a, 'b>,
    /// How many heads were passed.
    segments: u64,
    /// How many plans are prepared.
    plans: usize,
}

impl Stopped<'_, '_> {
    /// What is said of the line that is refused, behind its text.
    fn line_text(
        &self,
        alloc: Global,
        line: &[u8],
        error: SegmentError,
    ) -> Result<String, AllocError> {
        match error {
            SegmentError::Audit(AuditError::NotPossible(_, asked, next)) => {
                let why = self.why_text(alloc, asked, next.turn)?;
                not_possible_text(alloc, asked, why.as_str())
            }
            SegmentError::Audit(AuditError::ReplyDiffers(_, told, due)) => {
                differs_text(alloc, told, due)
            }
            SegmentError::OtherSegment(_) => self.head_text(alloc),
            SegmentError::NotPrepared(_) => {
                let plans = self.plans;
                format!(in alloc;
                    " names a prepared plan that there isn't: plans that were named: {plans}, and they are \
                    numbered from 0"
                )
            }
            _ => String::from_str(alloc, no_line_text(line)),
        }
    }

    /// Which head is due.
    fn head_text(&self, alloc: Global) -> Result<String, AllocError> {
        let (segments, plans) = (self.segments, self.pool.core.plans());
        format!(in alloc;
            " isn't the head that is due there, `segment {segments} = {plans}`: a head tells the segment's number, \
            from 0, and how many plans were submitted before it"
        )
    }

    /// Why what is asked isn't possible, and whose move is next.
    fn why_text(
        &self,
        alloc: Global,
        asked: Asked,
        turn: Option<Turn>,
    ) -> Result<String, AllocError> {
        let why = match asked {
            Asked::Submit { plan } => self.submit_text(alloc, plan)?,
            Asked::Do(did) => self.pool.move_text(alloc, did)?,
        };
        let next = self.pool.turn_text(alloc, turn)?;
        format!(in alloc; "{why}; {next}")
    }

    /// Why the plan isn't submitted there.
    fn submit_text(&self, alloc: Global, plan: u64) -> Result<String, AllocError> {
        let due = self.pool.core.plans();
        if plan != due {
            return format!(in alloc; "the next plan to submit is {due}");
        }
        match self.pool.settings.span() {
            Span::Endless { waiting } => format!(in alloc;
                "the pool takes no plan in: waiting is {waiting}, so at most {waiting} plans wait at a time"
            ),
            Span::Bounded => String::from_str(alloc, "the pool takes no more plans in"),
        }
    }

    /// What is left to do at the end.
    fn unfinished_text(&self, alloc: Global) -> Result<String, AllocError> {
        let turn = self.pool.core.next_possible();
        let left = self.left_text(alloc, turn)?;
        let next = self.pool.turn_text(alloc, turn)?;
        format!(in alloc; "all lines are true, and at the end {left}; {next}")
    }

    /// The plan that waits or isn't ended, or the flush that is in flight, where this turn is next.
    fn left_text(&self, alloc: Global, turn: Option<Turn>) -> Result<String, AllocError> {
        match turn {
            Some(Turn::Act(worker) | Turn::Device(worker)) => {
                format!(in alloc; "the plan of worker {worker} isn't ended")
            }
            Some(Turn::Take(_)) => String::from_str(alloc, "a plan waits"),
            Some(Turn::FlushDevice) | None => {
                let page = self.pool.core.flushing().unwrap_or(0);
                format!(in alloc; "page {page} is being flushed")
            }
        }
    }
}
