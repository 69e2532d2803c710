//! Refusals of a journal.

use crate::replay::Played;
use crate::source::Source;
use crate::turns::Pool;
use pp_core::Core;
use pp_locate::{Said, line_at, line_text};
use pp_model::Turn;
use pp_plan::Plan;
use pp_report::{Asked, AuditError, RENEWAL_LINE, Told, worker_of};
use pp_settings::Settings;
use std::alloc::{AllocError, Global};

/// What is said of a line that ends with a carriage return.
pub(crate) const CARRIAGE_RETURN: &str =
    ": a carriage return stands at its end, and a line ends with a line feed alone";

/// What is said of the bytes of a journal of these plans that is refused so.
pub(crate) fn journal_said(
    alloc: Global,
    settings: &Settings,
    plans: &[Source<'_>],
    bytes: &[u8],
    error: AuditError,
) -> Result<Said, AllocError> {
    let Some(number) = line_of(error) else {
        let played = Played {
            settings,
            plans,
            journal: bytes,
            number: u64::MAX,
        };
        return Ok(Said::of(played.unfinished_text(alloc)?));
    };
    let played = Played {
        settings,
        plans,
        journal: bytes,
        number,
    };
    let what = played.line_text(alloc, error)?;
    let line = line_text(alloc, line_at(bytes, number))?;
    Ok(Said::of_line(number, format!(in alloc; "{line}{what}")?))
}

/// The line that the refusal names.
pub(crate) fn line_of(error: AuditError) -> Option<u64> {
    match error {
        AuditError::NotALine(number)
        | AuditError::NotPossible(number, _, _)
        | AuditError::ReplyDiffers(number, _, _)
        | AuditError::NotRenewed(number, _, _) => Some(number),
        AuditError::Unfinished | AuditError::OutOfMemory => None,
    }
}

/// Why a line is none of a journal.
fn no_line_text(line: &[u8]) -> &'static str {
    if line == RENEWAL_LINE.as_bytes() {
        return " begins the next life of a pool: `audit --lives` takes the journals of several lives, and else a text has one";
    }
    match line.last() {
        None => ": an empty line is no line of a journal",
        Some(b'\r') => CARRIAGE_RETURN,
        Some(_) => " is no line of a journal, MOVE = REPLY as in `fix 0 16 = mustread 1`",
    }
}

/// That what is asked isn't possible, for this reason.
pub(crate) fn not_possible_text(
    alloc: Global,
    asked: Asked,
    why: &str,
) -> Result<String, AllocError> {
    format!(in alloc; ": `{asked}` isn't possible there: {why}")
}

/// That something else is told than the pool tells.
pub(crate) fn differs_text(alloc: Global, told: Told, due: Told) -> Result<String, AllocError> {
    format!(in alloc; ": it tells `{told}`, and the pool tells `{due}`")
}

impl Played<'_> {
    /// What is said of the line that is refused, behind its text.
    fn line_text(&self, alloc: Global, error: AuditError) -> Result<String, AllocError> {
        match error {
            AuditError::NotPossible(_, asked, next) => {
                let why = self.why_text(alloc, asked, next.turn)?;
                not_possible_text(alloc, asked, why.as_str())
            }
            AuditError::ReplyDiffers(_, told, due) => differs_text(alloc, told, due),
            AuditError::NotRenewed(_, why, next) => {
                let next = self.next_text(alloc, next.turn)?;
                format!(in alloc; ": the pool can't be renewed there, since {why}; {next}")
            }
            _ => {
                let line = line_at(self.journal, self.number);
                String::from_str(alloc, no_line_text(line))
            }
        }
    }

    /// Whose move is next.
    fn next_text(&self, alloc: Global, turn: Option<Turn>) -> Result<String, AllocError> {
        match self.auditor(alloc)? {
            Some(auditor) => self.turn_text(alloc, auditor.core(), turn),
            None => Ok(String::new(alloc)),
        }
    }

    /// Why what is asked isn't possible, and whose move is next.
    fn why_text(
        &self,
        alloc: Global,
        asked: Asked,
        turn: Option<Turn>,
    ) -> Result<String, AllocError> {
        match self.auditor(alloc)? {
            Some(auditor) => self.why_there(alloc, auditor.core(), asked, turn),
            None => Ok(String::new(alloc)),
        }
    }

    /// The same, in the pool that the journal comes to.
    fn why_there(
        &self,
        alloc: Global,
        core: &Core,
        asked: Asked,
        turn: Option<Turn>,
    ) -> Result<String, AllocError> {
        let why = match asked {
            Asked::Submit { plan } => self.submit_text(alloc, plan)?,
            Asked::Do(did) => {
                let plan = self.plan_at(alloc, worker_of(did))?;
                self.pool(core, &plan).move_text(alloc, did)?
            }
        };
        let next = self.turn_text(alloc, core, turn)?;
        format!(in alloc; "{why}; {next}")
    }

    /// Why the plan isn't submitted there.
    fn submit_text(&self, alloc: Global, plan: u64) -> Result<String, AllocError> {
        let named = self.plans.len();
        let submits = self.submits();
        let before = self.counted(None);
        if before.plans() >= named {
            return format!(in alloc;
                "plans that the journal submits: {submits}, plans that were named: {named}"
            );
        }
        let due = before.of_life();
        if plan as usize != due {
            return format!(in alloc; "the next plan to submit is {due}");
        }
        String::from_str(alloc, "the pool takes no more plans in")
    }

    /// Whose move is next in the pool, in the words of a journal.
    fn turn_text(
        &self,
        alloc: Global,
        core: &Core,
        turn: Option<Turn>,
    ) -> Result<String, AllocError> {
        let worker = match turn {
            Some(Turn::Act(worker)) => Some(worker),
            _ => None,
        };
        let plan = self.plan_at(alloc, worker)?;
        self.pool(core, &plan).turn_text(alloc, turn)
    }

    /// The plan of the worker, if one was taken.
    fn plan_at(&self, alloc: Global, worker: Option<u32>) -> Result<Option<Plan>, AllocError> {
        match worker {
            Some(worker) => self.plan_of(alloc, worker),
            None => Ok(None),
        }
    }

    /// The pool, and the plan of the worker that is spoken of.
    fn pool<'b>(&self, core: &'b Core, plan: &'b Option<Plan>) -> Pool<'_, 'b> {
        Pool {
            settings: self.settings,
            core,
            plan: plan.as_ref(),
        }
    }

    /// What is left to do at the end.
    fn unfinished_text(&self, alloc: Global) -> Result<String, AllocError> {
        let left = match self.auditor(alloc)? {
            Some(auditor) => self.left_text(alloc, auditor.core())?,
            None => String::from_str(
                alloc,
                "a plan is not submitted or not ended, or a flush is in flight",
            )?,
        };
        format!(in alloc; "all lines are true, and at the end {left}")
    }

    /// The plan that isn't submitted or ended, or the flush that is in flight.
    fn left_text(&self, alloc: Global, core: &Core) -> Result<String, AllocError> {
        let named = self.plans.len();
        let counted = self.counted(None);
        let submits = counted.plans();
        if submits < named {
            return format!(in alloc;
                "plan {submits}, counted from 0, isn't submitted; plans that the journal submits: {submits}, plans that were named: {named}"
            );
        }
        let turn = core.next_possible();
        let next = self.turn_text(alloc, core, turn)?;
        let plan = match turn {
            Some(Turn::Device(worker) | Turn::Act(worker)) => self.number_of(worker),
            Some(Turn::Take(_)) => Some(counted.waiting()),
            Some(Turn::FlushDevice) | None => None,
        };
        match plan {
            Some(plan) => format!(in alloc; "plan {plan}, counted from 0, isn't ended; {next}"),
            None => {
                let page = core.flushing().unwrap_or(0);
                format!(in alloc; "page {page} is being flushed; {next}")
            }
        }
    }
}
