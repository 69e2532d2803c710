//! The text of the choices that the workers of a run are to make.

ghost use Rattle.std.specs.Prelude.{◌≡◌, IfErr, IfOk, string_bytes, vec_len};
ghost use Rattle.pp_judge.specs.Answers.{seen};
ghost use Rattle.pp_cli.specs.Traces.{IsMistraced, trace_line};

use pp_judge::Exit;
use pp_shown::ShownPath;
use std::alloc::{AllocError, AllocFailed, Global};
use std::str;

/// Why a text gives no choices.
#[derive(Clone, Copy, Debug, PartialEq, Eq)]
enum TraceError {
    /// The line with this number, from 1, is no `WORKER NUMBER` of one of the workers.
    Line(usize),
    /// Memory ran out.
    OutOfMemory,
}

impl From<AllocError> for TraceError {
    fn from(_refused: AllocError) -> TraceError {
        TraceError::OutOfMemory
    }
}

impl<T: Drop> From<AllocFailed<T>> for TraceError {
    fn from(_refused: AllocFailed<T>) -> TraceError {
        TraceError::OutOfMemory
    }
}

/// The numbers that each of so many workers takes, by the workers' numbers, as the text of the file at the path has them. A
/// text that isn't such a one is a mistake in the words.
pub fn trace_in<'a>(
    alloc: Global,
    path: &'a str,
    text: &[u8],
    workers: u32,
) -> Result<Vec<Vec<u32>>, Exit<'a>>
    ensures { IfErr result (λ exit. IsMistraced path.entry.now (seen exit)) }
{
    let line = match numbers_in(alloc, text, workers) {
        Ok(trace) => return Ok(trace),
        Err(TraceError::Line(line)) => line,
        Err(TraceError::OutOfMemory) => return Err(Exit::OutOfMemory),
    };
    match trace_line(alloc, path, line, workers) {
        Ok(text) => Err(Exit::Misused(text)),
        Err(AllocError) => Err(Exit::OutOfMemory),
    }
}

/// The line that complains of a line of the text.
fn trace_line(alloc: Global, path: &str, line: usize, workers: u32) -> Result<String, AllocError>
    ensures { IfOk result (λ text. string_bytes text ≡ trace_line path.now line workers) }
{
    let path = ShownPath(path);
    Ok(format!(in alloc;
        "error: {path}: line {line} isn't WORKER NUMBER, with a worker below {workers} and a number below 4294967296\n"
    )?)
}

/// The numbers of each worker.
fn numbers_in(alloc: Global, text: &[u8], workers: u32) -> Result<Vec<Vec<u32>>, TraceError> {
    let Ok(text) = str::from_utf8(text) else {
        return Err(TraceError::Line(1));
    };
    let mut numbers = Vec::with_capacity(alloc, workers as usize)?;
    for _worker in 0..workers {
        numbers.push(Vec::new(alloc))?;
    }
    let text = text.strip_suffix('\n').unwrap_or(text);
    if text.is_empty() {
        return Ok(numbers);
    }
    let mut place: usize = 0;
    for line in text.split('\n') {
        place = place.saturating_add(1);
        let Some((worker, number)) = choice_in(line) else {
            return Err(TraceError::Line(place));
        };
        match numbers.get_mut(worker as usize) {
            Some(own) => own.push(number)?,
            None => return Err(TraceError::Line(place)),
        }
    }
    Ok(numbers)
}

/// The worker and the number of a line.
fn choice_in(line: &str) -> Option<(u32, u32)> {
    let (worker, number) = line.split_once(' ')?;
    Some((number_in(worker)?, number_in(number)?))
}

/// A number in decimal, without a sign and without zeros before it.
fn number_in(text: &str) -> Option<u32> {
    if text.starts_with('+') || (text.len() > 1 && text.starts_with('0')) {
        return None;
    }
    text.parse().ok()
}
