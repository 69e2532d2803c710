//! The refusal of a row, and what explains it.

use crate::answer::answer_to;
use crate::row::{Question, Row};
use crate::segments::segments_paragraph;
use pp_core::PrepareError;
use pp_explain::{Refused, Source, Sources, Stop, explain, repeated};
use pp_judge::{Exit, JudgeError};
use pp_segments::SegmentError;
use pp_simulate::SimulateError;
use pp_text::small_number;
use std::alloc::{AllocError, Global};
use std::str;

/// The line of the row's refusal, where it is a command, and the paragraph that explains it.
pub fn explained(alloc: Global, row: &Row<'_>) -> Exit<'static> {
    let Ok(sources) = row.sources(alloc) else {
        return Exit::OutOfMemory;
    };
    if row.has_segments() {
        let exit = answer_to(alloc, row);
        return with_paragraph(alloc, &exit, segments_paragraph(alloc, row, &sources));
    }
    match files_of(row.question, &sources) {
        Some(files) => explained_of(alloc, row, files),
        None => Exit::Wordless,
    }
}

/// The same of these files.
fn explained_of(alloc: Global, row: &Row<'_>, files: Sources<'_>) -> Exit<'static> {
    let exit = answer_to(alloc, row);
    let paragraph = match refused(row, &exit) {
        Some(refused) => explain(alloc, files, refused),
        None => repeated(alloc, files),
    };
    with_paragraph(alloc, &exit, paragraph)
}

/// The exit, and behind it the paragraph.
fn with_paragraph(
    alloc: Global,
    exit: &Exit<'_>,
    paragraph: Result<Option<Vec<u8>>, AllocError>,
) -> Exit<'static> {
    let Ok(paragraph) = paragraph else {
        return Exit::OutOfMemory;
    };
    let text = text_of(&paragraph);
    match format!(in alloc; "{exit}{text}") {
        Ok(text) => Exit::Shown(text),
        Err(AllocError) => Exit::OutOfMemory,
    }
}

/// The paragraph's text.
fn text_of(paragraph: &Option<Vec<u8>>) -> &str {
    match paragraph {
        Some(bytes) => str::from_utf8(bytes).unwrap_or("no text\n"),
        None => "no key stands twice\n",
    }
}

/// The files by what they are.
fn files_of<'a>(question: Question, sources: &'a [Source<'a>]) -> Option<Sources<'a>> {
    match (question, sources) {
        (Question::Check, [settings, plans @ .., certificate]) => Some(Sources {
            settings: *settings,
            other: Some(*certificate),
            plans,
        }),
        (Question::Annotate, [settings, plans @ ..])
        | (Question::Mismatch | Question::Broken | Question::NoThread, [settings, plans @ .., _]) =>
            Some(Sources {
                settings: *settings,
                other: None,
                plans,
            }),
        (Question::Repeated, [.., plan]) => Some(Sources {
            settings: *plan,
            other: Some(*plan),
            plans: &[],
        }),
        (_, [settings, other, plans @ ..]) => Some(Sources {
            settings: *settings,
            other: Some(*other),
            plans,
        }),
        _ => None,
    }
}

/// Why the row is refused, or how its run stops.
fn refused(row: &Row<'_>, exit: &Exit<'_>) -> Option<Refused<'static>> {
    match (row.question, exit) {
        (Question::Mismatch, _) => Some(Refused::Stop(Stop::Mismatch(worker(row)?))),
        (Question::Broken, _) => Some(Refused::Stop(Stop::Broken(worker(row)?))),
        (Question::NoThread, _) => Some(Refused::Stop(Stop::NoThread(worker(row)?))),
        (_, Exit::Refused(refusal)) => refused_as(*refusal),
        _ => None,
    }
}

/// The worker whose number the row's last text is.
fn worker(row: &Row<'_>) -> Option<u32> {
    match str::from_utf8(row.texts.last()?) {
        Ok(text) => small_number(text),
        Err(_) => None,
    }
}

/// The refusal, as it is explained. One in a file of segments is explained with its audit at hand.
pub fn refused_as(refusal: JudgeError) -> Option<Refused<'static>> {
    match refusal {
        JudgeError::Settings(error) => Some(Refused::Settings(error)),
        JudgeError::OtherLife => Some(Refused::OtherLife),
        JudgeError::Script(error) => Some(Refused::Script(error)),
        JudgeError::Plan(error) => Some(Refused::Plan(error)),
        JudgeError::Certificate(error) => Some(Refused::Certificate(error)),
        JudgeError::Check(error) => Some(Refused::Check(error)),
        JudgeError::Annotate(error) => Some(Refused::Annotate(error)),
        JudgeError::Simulate(SimulateError::Submit(error)) => Some(Refused::Submit(error)),
        JudgeError::Simulate(SimulateError::TooManyPrepared) => Some(Refused::TooManyPrepared),
        JudgeError::Simulate(SimulateError::OutOfMemory) => None,
        JudgeError::Audit(error) => Some(Refused::Audit(error)),
        JudgeError::Segments(error) => begun_as(error),
    }
}

/// Why an audit of segments doesn't begin.
fn begun_as(error: SegmentError) -> Option<Refused<'static>> {
    match error {
        SegmentError::OtherLife => Some(Refused::BoundedLife),
        SegmentError::Prepare(PrepareError::TooManyPrepared) => Some(Refused::TooManyPrepared),
        _ => None,
    }
}
