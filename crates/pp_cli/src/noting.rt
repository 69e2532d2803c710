//! What standard error has behind the report of a run.

ghost use Rattle.std.specs.Prelude.{◌≡◌, IfOk, option_map, string_bytes};
ghost use Rattle.pp_cli.specs.Notes.{begins_flush, begun_flushes, counted, dirty_line, missed_line, pages_were, ratio_line, run_note, seen_fault, unkept_line};

use pp_judge::FileFault;
use pp_model::{Event, Move};
use pp_report::{Figure, Journal, RunRecord};
use std::alloc::{AllocError, Global};

/// What is told of a run beside its report.
#[derive(Clone, Copy, Debug, PartialEq, Eq)]
pub struct Aside<'a> {
    /// How many choices were made by the seed, where others were given.
    pub missed: Option<u64>,
    /// Why the journal isn't kept, where it isn't.
    pub unkept: Option<FileFault<'a>>,
}

/// What standard error has behind the report: why the journal isn't kept, how many fixes found their page in memory, how
/// many pages are newer than the device, and how many choices weren't made as they were given. A line each.
///
/// # Errors
///
/// Only where memory runs out.
pub fn run_note(alloc: Global, run: &RunRecord, aside: Aside<'_>) -> Result<String, AllocError>
    ensures { IfOk result (λ text. string_bytes text
        ≡ run_note run.now aside.entry.missed (option_map seen_fault aside.entry.unkept)) }
{
    let unkept = unkept_line(alloc, aside.unkept)?;
    let hits = count_of(&run.events, Figure::Hits);
    let loads = count_of(&run.events, Figure::Loads);
    let ratio = ratio_line(alloc, hits as u64, loads as u64)?;
    let begun = begun_flushes(&run.events);
    let dirty = dirty_line(alloc, run.dirty, begun as u64)?;
    let missed = missed_line(alloc, aside.missed)?;
    Ok(format!(in alloc; "{unkept}{ratio}{dirty}{missed}")?)
}

/// Why the journal isn't kept.
fn unkept_line(alloc: Global, unkept: Option<FileFault<'_>>) -> Result<String, AllocError>
    ensures { IfOk result (λ text. string_bytes text ≡ unkept_line (option_map seen_fault unkept.entry)) }
{
    match unkept {
        Some(fault) => Ok(format!(in alloc; "fault writing {fault}\n")?),
        None => Ok(String::new(alloc)),
    }
}

/// How many fixes found their page in memory, and how many in a hundred that are, rounded down; nothing where there was no
/// fix.
fn ratio_line(alloc: Global, hits: u64, loads: u64) -> Result<String, AllocError>
    ensures { IfOk result (λ text. string_bytes text ≡ ratio_line hits loads) }
{
    let hits = u128::from(hits);
    let fixes = hits + u128::from(loads);
    if fixes == 0 {
        return Ok(String::new(alloc));
    }
    let percent = hits * 100 / fixes;
    Ok(format!(in alloc; "hits {hits} of {fixes} fixes: {percent} %\n")?)
}

/// How many pages are newer than the device, which is so only where as many flushes were begun as the settings allow.
fn dirty_line(alloc: Global, dirty: u32, begun: u64) -> Result<String, AllocError>
    ensures { IfOk result (λ text. string_bytes text ≡ dirty_line dirty begun) }
{
    if dirty == 0 {
        return Ok(String::new(alloc));
    }
    let pages = pages_were(dirty);
    Ok(format!(in alloc;
        "{dirty} {pages} changed and not written: flushes = {begun} were used up\n"
    )?)
}

/// `page was` for one, `pages were` for more.
fn pages_were(number: u32) -> &'static str
    ensures { result.now ≡ pages_were number }
{
    if number == 1 {
        "page was"
    } else {
        "pages were"
    }
}

/// How many choices were made by the seed although others were given.
fn missed_line(alloc: Global, missed: Option<u64>) -> Result<String, AllocError>
    ensures { IfOk result (λ text. string_bytes text ≡ missed_line missed) }
{
    let Some(missed) = missed else {
        return Ok(String::new(alloc));
    };
    if missed == 0 {
        return Ok(String::new(alloc));
    }
    Ok(format!(in alloc;
        "choices made by the seed, since no number that may be chosen is given for them: {missed}\n"
    )?)
}

/// How many of the events count for the figure.
fn count_of(events: &Journal, figure: Figure) -> usize
    ensures { result ≡ counted figure events.now.items }
{
    let mut number = 0;
    for place in 0..events.len() {
        number += usize::from(figure.counts(events.event(place)));
    }
    number
}

/// How many flushes were begun.
fn begun_flushes(events: &Journal) -> usize
    ensures { result ≡ begun_flushes events.now.items }
{
    let mut number = 0;
    for place in 0..events.len() {
        number += usize::from(begins_flush(events.event(place)));
    }
    number
}

/// Whether the event is the beginning of a flush.
fn begins_flush(event: Event) -> bool
    ensures { result ≡ begins_flush event }
{
    matches!(
        event,
        Event::Step {
            did: Move::FlushBegin { .. },
            ..
        }
    )
}
