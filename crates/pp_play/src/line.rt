//! What a cue comes to, and how it is printed.

ghost use Rattle.std.specs.Prelude.{◌≡◌, Some};
ghost use Rattle.pp_vault.specs.declared.refusal.Refusal.TheVariants.{OffPlan};

use pp_model::Event;
use pp_report::Line as JournalLine;
use pp_script::Cue;
use pp_vault::{Cause, Done, Move, Refusal, Reply};
use std::fmt;

/// What a cue comes to.
#[derive(Clone, Copy, Debug, PartialEq, Eq)]
pub enum Line {
    /// It is done: the move, and the reply. It is printed as a journal has it.
    Did(Move, Reply),
    /// It is refused. Where the hands fit the vault, nothing has changed.
    Refused(Cue, Refusal),
    /// The byte is written.
    Wrote,
    /// The byte that was looked at.
    Looked(u8),
    /// The worker doesn't have the latch on its slot that is wanted here.
    NoLatch,
}

/// A cue with its line, as in `fix 0 16 = mustread 1`.
#[derive(Clone, Copy, Debug, PartialEq, Eq)]
pub struct Printed {
    pub cue: Cue,
    pub line: Line,
}

impl fmt::Display for Printed {
    ghost use Rattle.pp_play.specs.Words.{printed_words};

    ghost output = { λ p. Some (printed_words p.cue p.line) };

    fn fmt<W: fmt::Write>(&self, f: &mut fmt::Formatter<W>) -> fmt::Result {
        match self.line {
            Line::Did(did, reply) => write!(f, "{}", JournalLine::of(Event::Step { did, reply })),
            Line::Refused(cue, refusal) => write!(f, "{cue} = {refusal}"),
            Line::Wrote => write!(f, "{} = ok", self.cue),
            Line::Looked(byte) => write!(f, "{} = {byte}", self.cue),
            Line::NoLatch => write!(f, "{} = offplan nolatch", self.cue),
        }
    }
}

/// The line of a call of the vault that is done.
pub(crate) fn did(done: Done) -> Line
    ensures { result ≡ Line.Did done.0 done.1 }
{
    let (asked, reply) = done;
    Line::Did(asked, reply)
}

/// The line of a cue that may not be asked here.
pub(crate) fn off_plan(cue: Cue, cause: Cause) -> Line
    ensures { result ≡ Line.Refused cue (OffPlan cause) }
{
    Line::Refused(cue, Refusal::OffPlan(cause))
}
