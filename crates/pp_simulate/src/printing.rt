//! The text of what was played.

ghost use Rattle.std.specs.Prelude.{◌≡◌, ◌++◌, Some, OnOk, IfOk, IfSome, length, string_bytes, codes};
ghost use Rattle.pp_model.specs.Pool.{State};
ghost use Rattle.pp_vault.specs.StandsFor.{StandsFor};
ghost use Rattle.pp_simulate.specs.Lines.{queued_text, queued_lines, cue_lines, next_text, next_line, transcript};

use pp_play::{Line, Printed};
use pp_script::Cue;
use pp_vault::{Turn, Vault};
use std::alloc::{AllocError, Global};
use std::fmt;
use std::fmt::Display;

/// That the plan of this number waits behind the others, as in `submit 0 = queued`.
#[derive(Clone, Copy, Debug)]
struct Queued {
    number: usize,
}

impl fmt::Display for Queued {
    ghost output = { λ queued. Some (queued_text queued.number) };

    fn fmt<W: fmt::Write>(&self, f: &mut fmt::Formatter<W>) -> fmt::Result {
        write!(f, "submit {} = queued", self.number)
    }
}

/// Whose move is next, and how many moves are left at most, as in `next act 1 budget 53`.
#[derive(Clone, Copy, Debug)]
struct Next {
    turn: Option<Turn>,
    budget: u64,
}

impl fmt::Display for Next {
    ghost output = { λ next. Some (next_text next.turn next.budget) };

    fn fmt<W: fmt::Write>(&self, f: &mut fmt::Formatter<W>) -> fmt::Result {
        match self.turn {
            Some(turn) => write!(f, "next {turn} budget {}", self.budget),
            None => write!(f, "next none budget {}", self.budget),
        }
    }
}

/// The text of a pool to which so many plans were submitted, and that then came to these lines, one a cue.
pub(crate) fn transcript(
    alloc: Global,
    plans: usize,
    cues: &[Cue],
    lines: &[Line],
    vault: &Vault,
) -> Result<String, AllocError>
    requires { length lines.now ≡ length cues.now }
    ensures { IfOk result (λ text. (s : State) → StandsFor vault.now s
        → string_bytes text ≡ transcript plans cues.now lines.now s) }
{
    let mut text = String::new(alloc);
    push_queued(alloc, &mut text, plans)?;
    push_cues(alloc, &mut text, cues, lines)?;
    push_next(alloc, &mut text, vault)?;
    Ok(text)
}

/// Adds a line for each of so many plans, that it was submitted.
fn push_queued(alloc: Global, text: &mut String, plans: usize) -> Result<(), AllocError>
    ensures { OnOk result (string_bytes text.new ≡ string_bytes text.old ++ queued_lines 0 plans) }
{
    for number in 0..plans {
        push_line(alloc, text, &Queued { number })?;
    }
    Ok(())
}

/// Adds a line for each cue.
fn push_cues(
    alloc: Global,
    text: &mut String,
    cues: &[Cue],
    lines: &[Line],
) -> Result<(), AllocError>
    requires { length lines.now ≡ length cues.now }
    ensures { OnOk result (string_bytes text.new ≡ string_bytes text.old ++ cue_lines cues.now lines.now) }
{
    for number in 0..cues.len() {
        let printed = Printed {
            cue: cues[number],
            line: lines[number],
        };
        push_line(alloc, text, &printed)?;
    }
    Ok(())
}

/// Adds the line that says whose move is next, and how many moves are left at most.
fn push_next(alloc: Global, text: &mut String, vault: &Vault) -> Result<(), AllocError>
    ensures { OnOk result ((s : State) → StandsFor vault.now s
        → string_bytes text.new ≡ string_bytes text.old ++ next_line s) }
{
    let next = Next {
        turn: vault.next_possible(),
        budget: vault.budget(),
    };
    push_line(alloc, text, &next)?;
    Ok(())
}

/// Adds what the value prints, ended by a line feed.
fn push_line<D: Display>(alloc: Global, text: &mut String, value: &D) -> Result<(), AllocError>
    ensures { OnOk result (IfSome (D.output value.now)
        (λ said. string_bytes text.new ≡ string_bytes text.old ++ (said ++ codes "\n"))) }
{
    let line = format!(in alloc; "{value}\n")?;
    text.push_str(line.as_str())?;
    Ok(())
}
