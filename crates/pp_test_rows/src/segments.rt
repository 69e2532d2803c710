//! The paragraphs that explain why segments are refused.

use crate::explained::refused_as;
use crate::row::Row;
use pp_explain::{Refused, SegmentFault, Source, Sources, explain};
use pp_judge::{JudgeError, pass_segments, segment_auditor};
use pp_report::AuditError;
use pp_segments::{SegmentAuditor, SegmentError};
use std::alloc::{AllocError, Global};

/// The paragraph that explains why the row is refused, whose files these are.
pub fn segments_paragraph(
    alloc: Global,
    row: &Row<'_>,
    sources: &[Source<'_>],
) -> Result<Option<Vec<u8>>, AllocError> {
    let [settings, ..] = sources else {
        return Ok(None);
    };
    let files = Sources {
        settings: *settings,
        other: None,
        plans: sources.get(1..row.before).unwrap_or(&[]),
    };
    let plans = row.texts.get(1..row.before).unwrap_or(&[]);
    match segment_auditor(alloc, settings.bytes, plans) {
        Ok(auditor) => {
            let segments = sources.get(row.before..).unwrap_or(&[]);
            fault_paragraph(alloc, files, auditor, segments)
        }
        Err(refusal) => match refused_as(refusal) {
            Some(refused) => explain(alloc, files, refused),
            None => Ok(None),
        },
    }
}

/// The paragraph where the audit stops at a line of one of these files of segments, or else behind the last.
fn fault_paragraph(
    alloc: Global,
    files: Sources<'_>,
    auditor: SegmentAuditor,
    segments: &[Source<'_>],
) -> Result<Option<Vec<u8>>, AllocError> {
    let mut auditor = auditor;
    let (mut other, mut lines_before) = (None, 0);
    let mut error = SegmentError::Audit(AuditError::Unfinished);
    for file in segments {
        other = Some(*file);
        lines_before = auditor.lines();
        if let Err(JudgeError::Segments(fault)) = pass_segments(&mut auditor, file.bytes) {
            error = fault;
            break;
        }
    }
    let fault = SegmentFault {
        error,
        auditor: &auditor,
        lines_before,
    };
    explain(alloc, Sources { other, ..files }, Refused::Segments(fault))
}
