//! The answers to questions, each as the program would end with it.

use crate::row::{Question, Row};
use pp_device::{Nobody, format_onto};
use pp_judge::{DeviceSize, Exit, JudgeError, device_size, exit_of};
use pp_plan::{Plan, PlanError};
use pp_report::Line;
use pp_script::{Script, ScriptError};
use pp_settings::{Settings, SettingsError, Span};
use std::alloc::{AllocError, Global};
use std::{io, str};

/// The answer to the row.
pub fn answer_to(alloc: Global, row: &Row<'_>) -> Exit<'static> {
    match row.contents() {
        Some(contents) => exit_of(alloc, contents),
        None => text_answer(alloc, row.question, &row.texts),
    }
}

/// The answer to a question that is no command of the program. What is asked of a run that stops has none.
fn text_answer(alloc: Global, question: Question, texts: &[Vec<u8>]) -> Exit<'static> {
    match (question, texts) {
        (Question::Settings, [settings]) => settings_answer(alloc, settings),
        (Question::Plan, [settings, plan]) => plan_answer(alloc, settings, plan),
        (Question::Script, [script]) => script_answer(alloc, script),
        (Question::Format, [settings]) => format_answer(alloc, settings),
        (Question::Mismatch | Question::Broken | Question::NoThread | Question::Repeated, _) =>
            Exit::Kept,
        _ => Exit::Wordless,
    }
}

/// The verdict on the row's journal, of a refusal with its words for people.
pub fn verdict_on(alloc: Global, row: &Row<'_>) -> Exit<'static> {
    match answer_to(alloc, row) {
        Exit::Refused(JudgeError::Audit(error)) => {
            let refusal = error.refusal();
            made(format!(in alloc; "refused {refusal} ({error})"))
        }
        exit => exit,
    }
}

/// Whether the text is a line of a journal.
pub fn is_a_line(alloc: Global, text: &str) -> Exit<'static> {
    let read = match Line::from_text(text) {
        Some(_) => "a line",
        None => "no line",
    };
    made(String::from_str(alloc, read))
}

/// The figures of the settings, or the refusal.
fn settings_answer(alloc: Global, bytes: &[u8]) -> Exit<'static> {
    match settings_in(alloc, bytes) {
        Ok(settings) => made(figures(alloc, &settings)),
        Err(error) => Exit::from(JudgeError::Settings(error)),
    }
}

/// The settings of the bytes.
fn settings_in(alloc: Global, bytes: &[u8]) -> Result<Settings, SettingsError> {
    match str::from_utf8(bytes) {
        Ok(text) => Settings::from_text(alloc, text),
        Err(_) => Err(SettingsError::NotToml),
    }
}

/// The figures of the settings. How many plans may wait stands in those of an endless life alone.
fn figures(alloc: Global, settings: &Settings) -> Result<String, AllocError> {
    let (frames, page_bytes) = (settings.frames(), settings.page_bytes());
    let (workers, flushes) = (settings.workers(), settings.flushes());
    let (regions, pages) = (settings.layout().extents().len(), settings.pages());
    let waiting = match settings.span() {
        Span::Bounded => String::new(alloc),
        Span::Endless { waiting } => format!(in alloc; " waiting {waiting}")?,
    };
    format!(in alloc;
        "settings frames {frames} page_bytes {page_bytes} workers {workers}{waiting} flushes {flushes} \
        regions {regions} pages {pages}"
    )
}

/// The answer of this text, without a line feed.
pub fn made(text: Result<String, AllocError>) -> Exit<'static> {
    match text {
        Ok(text) => Exit::Made(text),
        Err(AllocError) => Exit::OutOfMemory,
    }
}

/// The plan as it is written back, or the refusal.
fn plan_answer(alloc: Global, settings: &[u8], plan: &[u8]) -> Exit<'static> {
    match settings_in(alloc, settings) {
        Ok(settings) => match plan_text(alloc, &settings, plan) {
            Ok(text) => Exit::Made(text),
            Err(error) => Exit::from(JudgeError::Plan(error)),
        },
        Err(error) => Exit::from(JudgeError::Settings(error)),
    }
}

/// The plan of the bytes, as it is written back.
fn plan_text(alloc: Global, settings: &Settings, bytes: &[u8]) -> Result<String, PlanError> {
    let Ok(text) = str::from_utf8(bytes) else {
        return Err(PlanError::NotJson);
    };
    let plan = Plan::from_text(alloc, settings, text)?;
    plan.to_text(alloc, settings)
}

/// How many cues and troubles the script has, or the refusal.
fn script_answer(alloc: Global, bytes: &[u8]) -> Exit<'static> {
    match script_in(alloc, bytes) {
        Ok(script) => {
            let (cues, troubles) = script.into_parts();
            made(format!(in alloc; "script cues {} troubles {}", cues.len(), troubles.len()))
        }
        Err(error) => Exit::from(JudgeError::Script(error)),
    }
}

/// The script of the bytes.
fn script_in(alloc: Global, bytes: &[u8]) -> Result<Script, ScriptError> {
    match str::from_utf8(bytes) {
        Ok(text) => Script::from_text(alloc, text),
        Err(_) => Err(ScriptError::NotACue(1)),
    }
}

/// What is told of a device that is written anew, and behind it how long its file is and how its last page begins; or
/// the refusal of the settings.
fn format_answer(alloc: Global, settings: &[u8]) -> Exit<'static> {
    match device_size(alloc, settings) {
        Ok(size) => match device_file(alloc, size) {
            Ok(file) => made(file_text(alloc, size, &file)),
            Err(_) => Exit::OutOfMemory,
        },
        Err(refusal) => Exit::from(refusal),
    }
}

/// The file of a device of this size that is written anew.
fn device_file(alloc: Global, size: DeviceSize) -> io::Result<Vec<u8>> {
    let image = Vec::from_elem(alloc, 0, size.page_bytes.max(64) as usize)?;
    let mut file = Vec::new(alloc);
    format_onto(&mut file, image, size.pages, &mut Nobody)?;
    Ok(file)
}

/// What is told of it, how long the file is, and how its last page begins.
fn file_text(alloc: Global, size: DeviceSize, file: &[u8]) -> Result<String, AllocError> {
    let (told, bytes) = (Exit::Formatted(size.pages), file.len());
    let mut text = format!(in alloc; "{told}  {bytes} bytes, the last page begins")?;
    let last = bytes.saturating_sub(size.page_bytes as usize);
    for byte in file.iter().skip(last).take(16) {
        write!(text, " {byte:02x}")?;
    }
    Ok(text)
}
