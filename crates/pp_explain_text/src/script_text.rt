//! Refusals of a script.

ghost use Rattle.std.specs.Prelude.{◌≡◌, IfOk, IfSome, IsSome};

use pp_locate::{Said, line_at, line_text, nearest, no_text, text_of};
use pp_script::ScriptError;
use std::alloc::{AllocError, Global};

/// The first words of the lines of a script.
const WORDS: [&str; 15] = [
    "take",
    "fix",
    "device",
    "unfix",
    "latch",
    "unlatch",
    "choose",
    "unwind",
    "finish",
    "flush",
    "flushdevice",
    "write",
    "look",
    "fail",
    "lie",
];

/// How the lines are spelled that begin with them.
const FORMS: [&str; 15] = [
    "take W",
    "fix W PAGE",
    "device W",
    "unfix W",
    "latch W",
    "unlatch W",
    "choose W I",
    "unwind W SLOT",
    "finish W",
    "flush PAGE",
    "flushdevice",
    "write W SLOT BYTE",
    "look W SLOT",
    "fail N",
    "lie N PAGE STAMP",
];

/// What is said of the bytes of a script that is refused so.
pub fn script_said(alloc: Global, bytes: &[u8], error: ScriptError) -> Result<Said, AllocError> {
    if let Err(spot) = text_of(bytes) {
        return no_text(alloc, spot, "script");
    }
    match error {
        ScriptError::NotACue(number) => line_said(alloc, bytes, number),
        ScriptError::OutOfMemory => Err(AllocError),
    }
}

/// What is said of the line with this number.
fn line_said(alloc: Global, bytes: &[u8], number: u64) -> Result<Said, AllocError>
    ensures there { IfOk result (λ said. IsSome said.spot) }
    ensures line { IfOk result (λ said. IfSome said.spot (λ spot. spot.line ≡ number)) }
{
    let line = line_at(bytes, number);
    let shown = line_text(alloc, line)?;
    let rule = rule_of(alloc, line)?;
    let what = format!(in alloc; "{shown} is no line of a script{rule}")?;
    Ok(Said::of_line(number, what))
}

/// The form of the line that this one is nearest to, or what lines there are.
fn rule_of(alloc: Global, line: &[u8]) -> Result<String, AllocError> {
    let text = text_of(line).unwrap_or("");
    if text.ends_with("\r") {
        return String::from_str(
            alloc,
            ": a carriage return stands at its end, and a line ends with a line feed alone",
        );
    }
    match nearest(alloc, first_word(text), &WORDS)? {
        Some(known) => nearest_text(alloc, known),
        None => String::from_str(
            alloc,
            ": it begins with none of the words of a cue or a trouble",
        ),
    }
}

/// What stands before the first space.
fn first_word(text: &str) -> &str {
    match text.split_once(" ") {
        Some((word, _)) => word,
        None => text,
    }
}

/// The form of the lines that begin with this word.
fn nearest_text(alloc: Global, known: &str) -> Result<String, AllocError> {
    let form = form_of(known);
    let count = match known {
        "fail" | "lie" => "; N counts from 1",
        _ => "",
    };
    format!(in alloc;
        ": nearest is `{form}`, with one space between words and none at the ends{count}"
    )
}

/// How a line that begins with the word is spelled.
fn form_of(word: &str) -> &'static str {
    for (known, form) in WORDS.iter().zip(FORMS.iter()) {
        if *known == word {
            return form;
        }
    }
    ""
}
