//! Auditing the journals of a pool's lives.

ghost use Rattle.std.specs.Prelude.{◌≡◌, ℕ, Ok, All, IfOk, IfErr};
ghost use Rattle.pp_settings.specs.declared.span.Span.TheVariants.{Bounded};
ghost use Rattle.pp_text.specs.Steps.{Gives};
ghost use Rattle.pp_cert.specs.Accepted.{IsAccepted};
ghost use Rattle.pp_report.specs.AuditingLives.{auditing_lives};
ghost use Rattle.pp_report.specs.Lives.{IsAuditedLives, TellsFaultOfLives};
ghost use Rattle.pp_report.specs.Refusals.{is_audit_memory};

use crate::auditing::Audited;
use crate::auditor::Auditor;
use crate::error::AuditError;
use pp_cert::Accepted;
use pp_settings::Settings;
use std::alloc::Global;

/// Whether the text is the true journals of a pool's lives under the settings: of each life its journal, and between two
/// lives the line [`RENEWAL_LINE`](crate::RENEWAL_LINE). At each such line the pool could be renewed. The plans are those of
/// the first life, then those of the second, and so on; at the end each of them is submitted and ended, and no flush is in
/// flight. A life must be bounded under the settings ([`Settings::see_bounded`]).
///
/// Everything is replayed from the settings, and nothing is believed that a text says of an earlier life: pages that it
/// cached, marks, ARC's lists. As [`audit`](crate::audit) does, it goes line by line and wants the memory of a core. Lines
/// are counted through all lives, from 1, those between lives among them. In each life submits count from 0.
///
/// # Errors
///
/// The first of these, line by line: those of [`audit`](crate::audit); and `NotRenewed` where the line between two lives
/// stands and the pool can't be renewed, since it isn't at rest or a mark is 2^63 or more. At the end `Unfinished`.
/// `OutOfMemory` before all these.
pub fn audit_lives(
    alloc: Global,
    settings: &Settings,
    plans: Vec<Accepted>,
    journals: &[u8],
) -> Result<Audited, AuditError>
    requires { settings.now.span ≡ Bounded }
    // What is accepted is the journals of whole lives with these plans, with so many lines.
    ensures found { IfOk result (λ audited. IsAuditedLives settings.now plans.items journals.now audited.lines) }
    // Each such text is accepted, unless memory runs out.
    ensures only { (n : ℕ) → IsAuditedLives settings.now plans.items journals.now n
        → Gives is_audit_memory (λ audited. audited.lines) result (Ok n) }
    // A refusal tells the first fault, unless memory ran out.
    ensures first { IfErr result (TellsFaultOfLives settings.now plans.items journals.now) }
    // The same as a function of the text.
    ensures exact { Gives is_audit_memory (λ audited. audited.lines) result
        (auditing_lives settings.now plans.items journals.now) }
{
    are_accepted(plans.as_slice());
    verdict(alloc, settings, plans, journals)
}

/// The number of lines, or the first fault.
fn verdict(
    alloc: Global,
    settings: &Settings,
    plans: Vec<Accepted>,
    journals: &[u8],
) -> Result<Audited, AuditError>
    requires { settings.now.span ≡ Bounded }
    ensures { Gives is_audit_memory (λ audited. audited.lines) result
        (auditing_lives settings.now plans.items journals.now) }
{
    let mut auditor = Auditor::new(alloc, settings, plans)?;
    let lines = auditor.pass_lives(journals)?;
    Ok(Audited { lines })
}

/// The plan was accepted by the checker. It does nothing: its contract is what is known.
fn is_accepted(plan: &Accepted)
    ensures { IsAccepted plan.now }
{
    let _ = plan.plan();
}

/// The same of all these plans.
fn are_accepted(plans: &[Accepted])
    ensures { All IsAccepted plans.now }
{
    for plan in plans {
        is_accepted(plan);
    }
}
