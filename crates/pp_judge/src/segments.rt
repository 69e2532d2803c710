//! Auditing the segments of an endless pool's journal, from the bytes of files.

ghost use Rattle.std.specs.Prelude.{◌≡◌, ◌++◌, ◌∷◌, [], ℕ, Bool, List, Err, IfOk, IfErr, OnOk, map};
ghost use Rattle.pp_text.specs.Steps.{Gives, Refuses};
ghost use Rattle.pp_segments.specs.Audits.{counts};
ghost use Rattle.pp_judge.specs.Answers.{ComesTo, segments_answer};
ghost use Rattle.pp_judge.specs.Judgement.{prepared_in, segments_audited_in};
ghost use Rattle.pp_judge.specs.Passed.{HasPassed};
ghost use Rattle.pp_judge.specs.Steps.{is_want_of_memory};

use crate::error::JudgeError;
use crate::exit::Exit;
use crate::judgement::endless_in;
use crate::workload::accepted_all;
use pp_report::AuditError;
use pp_segments::{AuditedSegments, SegmentAuditor, SegmentError};
use std::alloc::Global;

/// The bytes of the files of `audit --segments`, and whether `--ended` is given.
#[derive(Clone, Copy, Debug)]
pub struct SegmentsFiles<'a> {
    /// The bytes of the settings.
    pub settings: &'a [u8],
    /// The bytes of the prepared plans, in their order.
    pub plans: &'a [Vec<u8>],
    /// The bytes of the files of segments, in their order.
    pub files: &'a [Vec<u8>],
    /// Whether nothing may be left to do at the end.
    pub ended: bool,
}

/// Reads the settings and the plans, in this order, makes each plan's certificate and checks it before the next plan,
/// and says whether the files, one behind the other, are the segments of a true journal with these prepared plans.
///
/// # Errors
///
/// Those of [`segment_auditor`]. Then file by file the first fault; lines are counted from 1 through all files. At the
/// end, if `ended`, that something is left to do.
pub fn audit_segments(
    alloc: Global,
    files: SegmentsFiles<'_>,
) -> Result<AuditedSegments, JudgeError>
    // What is answered is the verdict on the files, unless memory ran out.
    ensures { Gives is_want_of_memory counts result (segments_audited_in files.entry.ended files.entry.settings.now
        (map (λ plan. plan.items) files.entry.plans.now) (map (λ file. file.items) files.entry.files.now)) }
{
    let mut auditor = segment_auditor(alloc, files.settings, files.plans)?;
    for text in files.files {
        pass_segments(&mut auditor, text)?;
    }
    audited_segments(&auditor, files.ended)
}

/// The settings of an endless pool and its prepared plans, read in this order: the auditor of its segments, which has
/// passed no file yet.
///
/// # Errors
///
/// The first refusal in that order. Settings of a bounded life are [`SegmentError::OtherLife`], before any plan. A plan
/// that a pool doesn't keep beside the earlier ones is [`SegmentError::Prepare`], behind all else of the plans.
pub fn segment_auditor(
    alloc: Global,
    settings: &[u8],
    plans: &[Vec<u8>],
) -> Result<SegmentAuditor, JudgeError>
    ensures begins { IfOk result (HasPassed settings.now (map (λ plan. plan.items) plans.now) []) }
    // What is refused here is refused of every audit with these settings and plans, unless memory ran out.
    ensures error { IfErr result (λ e. (ended : Bool) (files : List (List ℕ)) → Refuses (is_want_of_memory e) e
        (segments_audited_in ended settings.now (map (λ plan. plan.items) plans.now) files)) }
{
    let settings = endless_in(alloc, settings)?;
    let plans = accepted_all(alloc, &settings, plans)?;
    let auditor = SegmentAuditor::new(alloc, &settings, plans)?;
    Ok(auditor)
}

/// Passes the lines of a file of segments, which follows those that were passed before.
///
/// # Errors
///
/// The first fault of the file, whatever the files behind it have.
pub fn pass_segments(auditor: &mut SegmentAuditor, text: &[u8]) -> Result<(), JudgeError>
    ensures passed { OnOk result ((settings : List ℕ) (plans files : List (List ℕ))
        → HasPassed settings plans files auditor.old
        → HasPassed settings plans (files ++ text.now ∷ []) auditor.new) }
    ensures error { IfErr result (λ e. (settings : List ℕ) (plans files : List (List ℕ))
        → HasPassed settings plans files auditor.old
        → (ended : Bool) (more : List (List ℕ))
        → segments_audited_in ended settings plans (files ++ text.now ∷ more) ≡ Err e) }
{
    match auditor.pass_segment(text) {
        Ok(_) => Ok(()),
        Err(error) => Err(JudgeError::Segments(error)),
    }
}

/// What files come to that the auditor has all passed.
pub fn segments_exit<'a>(auditor: &SegmentAuditor, ended: bool) -> Exit<'a>
    ensures { (settings : List ℕ) (plans files : List (List ℕ)) → HasPassed settings plans files auditor.now
        → ComesTo (segments_answer ended settings plans files) result }
{
    match audited_segments(auditor, ended) {
        Ok(audited) => Exit::AuditedSegments(audited),
        Err(refusal) => Exit::from(refusal),
    }
}

/// How many lines and segments were passed, where no file is left. If `ended`, an end that leaves something to do is
/// refused.
fn audited_segments(auditor: &SegmentAuditor, ended: bool) -> Result<AuditedSegments, JudgeError>
    ensures { (settings : List ℕ) (plans files : List (List ℕ)) → HasPassed settings plans files auditor.now
        → Gives is_want_of_memory counts result (segments_audited_in ended settings plans files) }
{
    if ended && !auditor.is_over() {
        return Err(JudgeError::Segments(SegmentError::Audit(AuditError::Unfinished)));
    }
    Ok(AuditedSegments {
        lines: auditor.lines(),
        segments: auditor.segments(),
    })
}
