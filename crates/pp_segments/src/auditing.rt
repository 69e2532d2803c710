//! Auditing segments.

ghost use Rattle.std.specs.Prelude.{ℕ, Ok, IfOk, IfErr, map};
ghost use Rattle.pp_text.specs.Steps.{Gives};
ghost use Rattle.pp_segments.specs.Audits.{counts, IsAuditedSegments, TellsFault};
ghost use Rattle.pp_segments.specs.Auditing.{auditing};
ghost use Rattle.pp_segments.specs.Refusals.{is_segment_memory};

use crate::auditor::SegmentAuditor;
use crate::error::SegmentError;
use pp_cert::Accepted;
use pp_report::AuditError;
use pp_settings::Settings;
use std::alloc::Global;

/// Segments that were audited.
#[derive(Clone, Copy, Debug, PartialEq, Eq)]
pub struct AuditedSegments {
    /// How many lines they have, or 2^64 - 1 where they have more.
    pub lines: u64,
    /// How many segments there are, or 2^64 - 1 where there are more.
    pub segments: u64,
}

/// Whether the texts, one behind the other, are the segments of a true journal of an endless pool with these prepared
/// plans, from its beginning on. If `ended`, nothing may be left to do at the end: no plan waits or is with a worker,
/// and no flush is in flight.
///
/// It goes line by line and keeps none: beside the texts it wants the memory of a core. Lines are counted from 1
/// through all texts. The last line feed of a text may be missing. [`SegmentAuditor`] does the same with a text at a
/// time.
///
/// The first line, if there is one, is a head. No lines at all are right too: those of a pool whose journal has no
/// segment yet, and the answer is 0 lines in 0 segments. It is so with no texts and with empty ones.
///
/// # Errors
///
/// First those of [`SegmentAuditor::new`]: `OtherLife` (8), or of the prepared plans `OtherSettings` (53) and
/// `TooManyPrepared` (57). Then line by line the first of [`SegmentAuditor::pass_segment`], and at
/// the end, if `ended`, `Unfinished` (94).
pub fn audit_segments(
    alloc: Global,
    settings: &Settings,
    prepared: Vec<Accepted>,
    texts: &[&[u8]],
    ended: bool,
) -> Result<AuditedSegments, SegmentError>
    // What is accepted is the segments of a true journal, with so many lines.
    ensures found { IfOk result (λ audited. IsAuditedSegments settings.now prepared.items ended
        (map (λ text. text.now) texts.now) audited.lines audited.segments) }
    // Each such journal is accepted, unless memory runs out.
    ensures only { (lines segments : ℕ)
        → IsAuditedSegments settings.now prepared.items ended (map (λ text. text.now) texts.now) lines segments
        → Gives is_segment_memory counts result (Ok (lines, segments)) }
    // A refusal tells the first fault, unless memory ran out.
    ensures first { IfErr result (TellsFault settings.now prepared.items ended (map (λ text. text.now) texts.now)) }
    // The same as a function of the texts.
    ensures exact { Gives is_segment_memory counts result
        (auditing settings.now prepared.items ended (map (λ text. text.now) texts.now)) }
{
    verdict(alloc, settings, prepared, texts, ended)
}

/// How many lines and segments there are, or the first fault.
fn verdict(
    alloc: Global,
    settings: &Settings,
    prepared: Vec<Accepted>,
    texts: &[&[u8]],
    ended: bool,
) -> Result<AuditedSegments, SegmentError>
    ensures { Gives is_segment_memory counts result
        (auditing settings.now prepared.items ended (map (λ text. text.now) texts.now)) }
{
    let mut auditor = SegmentAuditor::new(alloc, settings, prepared)?;
    for text in texts {
        auditor.pass_segment(text)?;
    }
    if ended && !auditor.is_over() {
        return Err(SegmentError::Audit(AuditError::Unfinished));
    }
    Ok(AuditedSegments {
        lines: auditor.lines(),
        segments: auditor.segments(),
    })
}
