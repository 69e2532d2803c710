//! The report of a run.

ghost use Rattle.std.specs.Prelude.{◌≡◌, ◌++◌, IfOk, OnOk, string_bytes, codes, flat_map};
ghost use Rattle.pp_report.specs.Complete.{TellsEachPlan};
ghost use Rattle.pp_report.specs.Reports.{row_line, figure_words, figure_lines, report_text};

use crate::figure::{FIGURES, Figure};
use crate::record::RunRecord;
use crate::row::Row;
use crate::turns::rows;
use std::alloc::{AllocError, Global};

/// The report of a run: the names of the columns; a line for each plan that a worker took and finished, in the order of
/// their numbers, with the worker, the actions that were done, the hits and the loads among them, and how it ended; and
/// nine figures of the whole run. Each line is ended by a line feed.
///
/// Where the events are the true journal of a life of so many plans, to their end, each plan has a line (`plans`).
///
/// It goes over the events once for each figure, once for the takes, and at most once for each worker.
///
/// # Errors
///
/// Only where memory runs out.
pub fn report(alloc: Global, run: &RunRecord) -> Result<String, AllocError>
    ensures text { IfOk result (λ text. string_bytes text ≡ report_text run.now) }
    ensures plans { IfOk result (λ text. TellsEachPlan run.now (string_bytes text)) }
{
    let rows = rows(alloc, run.plans, &run.events)?;
    let mut text = String::from_str(alloc, " plan worker    steps     hits    loads  outcome\n")?;
    push_rows(alloc, &mut text, rows.as_slice())?;
    push_figures(alloc, &mut text, run, &FIGURES)?;
    Ok(text)
}

/// Adds the plans' lines.
fn push_rows(alloc: Global, text: &mut String, rows: &[Option<Row>]) -> Result<(), AllocError>
    ensures { OnOk result (string_bytes text.new ≡ string_bytes text.old ++ flat_map row_line rows.now) }
{
    for row in rows {
        push_row(alloc, text, *row)?;
    }
    Ok(())
}

/// Adds the line of a plan, if it has one.
fn push_row(alloc: Global, text: &mut String, row: Option<Row>) -> Result<(), AllocError>
    ensures { OnOk result (string_bytes text.new ≡ string_bytes text.old ++ row_line row) }
{
    if let Some(row) = row {
        let line = format!(in alloc; "{row}\n")?;
        text.push_str(line.as_str())?;
    }
    Ok(())
}

/// Adds the lines of the figures.
fn push_figures(
    alloc: Global,
    text: &mut String,
    run: &RunRecord,
    figures: &[Figure],
) -> Result<(), AllocError>
    ensures { OnOk result (string_bytes text.new ≡ string_bytes text.old ++ figure_lines run.now figures.now) }
{
    for figure in figures {
        push_figure(alloc, text, *figure, figure.of(run))?;
    }
    Ok(())
}

/// Adds the line of a figure.
fn push_figure(
    alloc: Global,
    text: &mut String,
    figure: Figure,
    number: usize,
) -> Result<(), AllocError>
    ensures { OnOk result (string_bytes text.new
        ≡ string_bytes text.old ++ (figure_words figure number ++ codes "\n")) }
{
    let line = format!(in alloc; "{:<12}{number:>9}\n", figure.name())?;
    text.push_str(line.as_str())?;
    Ok(())
}
