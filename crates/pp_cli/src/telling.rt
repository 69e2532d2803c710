//! Telling an exit where it belongs, on standard output or standard error.

ghost use Rattle.std.specs.Prelude.{◌≡◌, IfSome, IsTrue, OnOk, option_map, true, false};
ghost use Rattle.std.specs.Io.KnownBytes.{Appends};
ghost use Rattle.pp_judge.specs.Answers.{is_output_of, seen};
ghost use Rattle.pp_judge.specs.Lines.{text_of};
ghost use Rattle.pp_cli.specs.Telling.{IsBehind, IsTold, has_more_of};

use crate::fault::unwritten;
use crate::writing::put;
use pp_judge::Exit;
use std::fmt::Display;
use std::io;
use std::io::{ErrorKind, Write};

/// How a run ends, once that is told.
#[derive(Debug, Drop)]
pub struct Told<'a> {
    /// The exit, or the fault that kept standard output from taking its text. Its status is the program's.
    pub exit: Exit<'a>,
    /// Whether all of its text is written.
    pub is_whole: bool,
}

/// Says what the exit has to say where it belongs, and behind it what more there is on standard error.
/// Where standard output doesn't take its text, standard error says so, and nothing more; where nobody reads standard output
/// any more, it says nothing.
pub fn tell<'a, O: Write, E: Write>(
    exit: Exit<'a>,
    note: Option<&[u8]>,
    out: &mut O,
    err: &mut E,
) -> Told<'a>
    // An output has exactly its text more on standard output, and nothing more on standard error but a front of what
    // comes behind it; a complaint leaves standard output as it was; only an output gives way to a fault of writing.
    ensures told { IsTold O.contents E.contents (option_map (λ text. text.now) note.entry) (seen exit.entry)
        (seen result.exit) out.old out.new err.old err.new }
    // A complaint that is whole has exactly its text more on standard error.
    ensures whole { is_output_of (seen result.exit) ≡ false → IsTrue result.is_whole
        → Appends (E.contents err.old) (E.contents err.new) (text_of (seen result.exit)) }
    // An output that is whole has exactly what comes behind it more on standard error.
    ensures explained { has_more_of (seen result.exit) ≡ true → IsTrue result.is_whole
        → IfSome note.entry (λ text. Appends (E.contents err.old) (E.contents err.new) text.now) }
{
    if !exit.is_output() {
        return complain(exit, err);
    }
    match say(out, &exit) {
        Ok(()) => {
            let is_whole = explain(&exit, note, err);
            Told { exit, is_whole }
        }
        Err(error) => {
            let exit = unwritten("-", &error);
            if error.kind() == ErrorKind::BrokenPipe {
                return Told {
                    exit,
                    is_whole: false,
                };
            }
            complain(exit, err)
        }
    }
}

/// Writes what comes behind an output to standard error. Whether that took all of it; what it doesn't take is lost.
fn explain<E: Write>(exit: &Exit<'_>, note: Option<&[u8]>, err: &mut E) -> bool
    ensures behind { IsBehind E.contents (has_more_of (seen exit.now)) (option_map (λ text. text.now) note.entry)
        err.old err.new }
    ensures whole { IsTrue result → has_more_of (seen exit.now) ≡ true
        → IfSome note.entry (λ text. Appends (E.contents err.old) (E.contents err.new) text.now) }
{
    match note {
        Some(text) if has_more(exit) => put(err, text),
        _ => true,
    }
}

/// Whether standard error may have more behind the exit: it is what some texts come to.
fn has_more(exit: &Exit<'_>) -> bool
    ensures { result ≡ has_more_of (seen exit.now) }
{
    matches!(
        exit,
        Exit::Done(_)
            | Exit::Made(_)
            | Exit::Simulated(_)
            | Exit::Ran(_)
            | Exit::Stopped(_)
            | Exit::Audited(_)
            | Exit::AuditedSegments(_)
            | Exit::Drawn(_)
            | Exit::Refused(_)
            | Exit::Kept
    )
}

/// Says the exit on standard error. What that doesn't take is lost.
fn complain<'a, E: Write>(exit: Exit<'a>, err: &mut E) -> Told<'a>
    ensures same { result.exit ≡ exit.entry }
    ensures whole { IsTrue result.is_whole
        → Appends (E.contents err.old) (E.contents err.new) (text_of (seen exit.entry)) }
{
    let is_whole = say(err, &exit).is_ok();
    Told { exit, is_whole }
}

/// Writes the value's text, and sees that it leaves the writer's buffer.
fn say<W: Write, D: Display>(to: &mut W, value: &D) -> io::Result<()>
    // All that the value prints is added to what the writer holds.
    ensures { OnOk result (IfSome (D.output value.now) (Appends (W.contents to.old) (W.contents to.new))) }
{
    write!(to, "{value}")?;
    to.flush()
}
