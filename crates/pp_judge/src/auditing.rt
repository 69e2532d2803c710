//! Auditing a journal, from the bytes of files.

ghost use Rattle.std.specs.Prelude.{map};
ghost use Rattle.pp_text.specs.Steps.{Gives};
ghost use Rattle.pp_judge.specs.Judgement.{audited_in, lives_audited_in, workload_in};
ghost use Rattle.pp_judge.specs.Steps.{is_want_of_memory};

use crate::contents::AuditFiles;
use crate::error::JudgeError;
use crate::workload::Workload;
use pp_report::Audited;
use std::alloc::Global;

/// Reads the settings and the plans, in this order, makes each plan's certificate and checks it before the next plan, and
/// says whether the journal is a true one of these plans, to their end.
///
/// # Errors
///
/// The first refusal in that order. Settings of an endless life are [`JudgeError::OtherLife`], before any plan.
/// Then the first fault of the journal. A line of it that is not UTF-8 is no line of a journal.
pub fn audit(alloc: Global, files: AuditFiles<'_>) -> Result<Audited, JudgeError>
    // What is answered is the verdict on the journal, unless memory ran out.
    ensures { Gives is_want_of_memory (λ audited. audited.lines) result
        (audited_in files.entry.settings.now files.entry.journal.now (map (λ plan. plan.items) files.entry.plans.now)) }
{
    let Workload { settings, plans } = Workload::read(alloc, files.settings, files.plans)?;
    Ok(pp_report::audit(alloc, &settings, plans, files.journal)?)
}

/// Reads the settings and the plans as [`audit`] does, and says whether the text is the true journals of a pool's lives, to
/// their end. Between two journals stands the line `renew = renewed`. The plans are those of the first life, then those of
/// the second, and so on.
///
/// # Errors
///
/// The first refusal in that order, as [`audit`] has it; then the first fault of the text.
pub fn audit_lives(alloc: Global, files: AuditFiles<'_>) -> Result<Audited, JudgeError>
    // What is answered is the verdict on the journals, unless memory ran out.
    ensures { Gives is_want_of_memory (λ audited. audited.lines) result
        (lives_audited_in files.entry.settings.now files.entry.journal.now
        (map (λ plan. plan.items) files.entry.plans.now)) }
{
    let work = Workload::read(alloc, files.settings, files.plans)?;
    let Workload { settings, plans } = work;
    Ok(pp_report::audit_lives(alloc, &settings, plans, files.journal)?)
}
