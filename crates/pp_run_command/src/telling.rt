//! What is told of a run: its journal and its report.

ghost use Rattle.std.specs.Prelude.{◌≡◌, IfOk, OnOk, string_bytes};
ghost use Rattle.std.specs.Io.KnownBytes.{Appends};
ghost use Rattle.pp_report.specs.Reports.{report_text};
ghost use Rattle.pp_run.specs.RunErrors.{run_error_row};
ghost use Rattle.pp_run_command.specs.Endings.{is_trouble, stopped_line, went_well};

use pp_judge::RunReport;
use pp_model::{Ending, Event, Move, Reply};
use pp_report::{Journal, RunRecord, report};
use pp_run::RunError;
use std::alloc::{AllocError, Global};
use std::io;
use std::io::Write;

/// What is told of the run.
///
/// # Errors
///
/// Only where memory runs out.
pub fn told(alloc: Global, done: &RunRecord) -> Result<RunReport, AllocError>
    ensures text { IfOk result (λ told. string_bytes told.text ≡ report_text done.now) }
    // A run went well where every plan was done and every flush was written.
    ensures is_well { IfOk result (λ told. told.is_well ≡ went_well done.now.events.items) }
{
    Ok(RunReport {
        text: report(alloc, done)?,
        is_well: went_well(&done.events),
    })
}

/// The line that says why a run gives no report, as in `refused 82 Broken worker 0`.
///
/// # Errors
///
/// Only where memory runs out.
pub fn stopped_line(alloc: Global, error: RunError) -> Result<String, AllocError>
    ensures { IfOk result (λ text. string_bytes text ≡ stopped_line (run_error_row error)) }
{
    let refusal = error.refusal();
    Ok(format!(in alloc; "refused {refusal}\n")?)
}

/// Whether no plan was left and no flush failed.
fn went_well(events: &Journal) -> bool
    ensures { result ≡ went_well events.now.items }
{
    for place in 0..events.len() {
        if is_trouble(events.event(place)) {
            return false;
        }
    }
    true
}

/// Whether a plan was left, or a flush failed.
fn is_trouble(event: Event) -> bool
    ensures { result ≡ is_trouble event }
{
    matches!(
        event,
        Event::Step {
            reply: Reply::Finished(Ending::Gone),
            ..
        } | Event::Step {
            did: Move::FlushDone { ok: false },
            ..
        }
    )
}

/// Writes the text of a journal, which [`pp_report::packed_journal_text`] gives, so that memory for it can be had before there is
/// a file.
///
/// # Errors
///
/// What the writer tells; it may have a part of the text then.
pub fn write_journal<W: Write>(file: &mut W, text: &str) -> io::Result<()>
    // The writer takes exactly the text.
    ensures { OnOk result (Appends (W.contents file.old) (W.contents file.new) text.now) }
{
    file.write_all(text.as_bytes())?;
    file.flush()
}
