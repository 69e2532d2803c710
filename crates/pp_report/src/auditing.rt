//! Auditing a journal.

ghost use Rattle.std.specs.Prelude.{◌≡◌, ℕ, Ok, Err, IfOk, IfErr};
ghost use Rattle.pp_settings.specs.declared.span.Span.TheVariants.{Bounded};
ghost use Rattle.pp_text.specs.Steps.{Gives};
ghost use Rattle.pp_report.specs.Audits.{IsAudited, TellsFault};
ghost use Rattle.pp_report.specs.Auditing.{auditing};
ghost use Rattle.pp_report.specs.Refusals.{is_audit_memory};

use crate::auditor::Auditor;
use crate::error::AuditError;
use pp_cert::Accepted;
use pp_settings::Settings;
use std::alloc::Global;

/// A journal that was audited.
#[derive(Clone, Copy, Debug, PartialEq, Eq)]
pub struct Audited {
    /// How many lines it has.
    pub lines: u64,
}

/// Whether the text is a true journal of these plans under the settings, at whose end each of them is submitted and
/// ended and no flush is in flight. A life must be bounded under the settings ([`Settings::see_bounded`]).
///
/// It goes line by line and keeps none: beside the text it wants the memory of a core. The last line feed may be
/// missing. The n-th `submit` is of the n-th plan.
///
/// # Errors
///
/// The first of these, line by line from 1: `NotALine`; `NotPossible` where the move isn't possible at its point, or
/// the submit isn't of the next plan or is refused; `ReplyDiffers`. At the end `Unfinished`. `OutOfMemory` before all
/// these.
pub fn audit(
    alloc: Global,
    settings: &Settings,
    plans: Vec<Accepted>,
    journal: &[u8],
) -> Result<Audited, AuditError>
    requires { settings.now.span ≡ Bounded }
    // What is accepted is a true journal of these plans, to their end, with so many lines.
    ensures found { IfOk result (λ audited. IsAudited settings.now plans.items journal.now audited.lines) }
    // Each such journal is accepted, unless memory runs out.
    ensures only { (n : ℕ) → IsAudited settings.now plans.items journal.now n
        → Gives is_audit_memory (λ audited. audited.lines) result (Ok n) }
    // A refusal tells the first fault, unless memory ran out.
    ensures first { IfErr result (TellsFault settings.now plans.items journal.now) }
    // The same as a function of the text.
    ensures exact { Gives is_audit_memory (λ audited. audited.lines) result
        (auditing settings.now plans.items journal.now) }
{
    verdict(alloc, settings, plans, journal)
}

/// The number of lines, or the first fault.
fn verdict(
    alloc: Global,
    settings: &Settings,
    plans: Vec<Accepted>,
    journal: &[u8],
) -> Result<Audited, AuditError>
    requires { settings.now.span ≡ Bounded }
    ensures { Gives is_audit_memory (λ audited. audited.lines) result
        (auditing settings.now plans.items journal.now) }
{
    let mut auditor = Auditor::new(alloc, settings, plans)?;
    let lines = auditor.pass_all(journal)?;
    Ok(Audited { lines })
}
