//! Lines of a journal: what was asked of the pool, and what it told.

ghost use Rattle.std.specs.Prelude.{◌≡◌, Some, IfSome};

use crate::reading::{asked_in, line_in, told_in};
use pp_model::{Event, Move, Reply};
use std::fmt;

/// What was asked.
#[derive(Clone, Copy, Debug, PartialEq, Eq)]
pub enum Asked {
    /// That the plan of this number is taken in. Plans are numbered from 0, in the order in which they are submitted.
    Submit { plan: u64 },
    /// A move.
    Do(Move),
}

impl fmt::Display for Asked {
    ghost use Rattle.pp_report.specs.Lines.{asked_words};

    ghost output = { λ asked. Some (asked_words asked) };

    fn fmt<W: fmt::Write>(&self, f: &mut fmt::Formatter<W>) -> fmt::Result {
        match self {
            Asked::Submit { plan } => write!(f, "submit {plan}"),
            Asked::Do(did) => write!(f, "{did}"),
        }
    }
}

impl Asked {
    ghost use Rattle.pp_report.specs.declared.line.Asked.{Asked};
    ghost use Rattle.pp_report.specs.Lines.{SaysAsked};
    ghost use Rattle.pp_report.specs.Reading.{asked_in};

    /// Reads what stands in a line before its equals sign, as in `fix 0 16`.
    ///
    /// None where the text isn't exactly the words of something asked: other words, and numbers out of their ranges or
    /// with leading zeros.
    pub fn from_text(text: &str) -> Option<Asked>
        // What is read is spelled so.
        ensures found { IfSome result (SaysAsked text.now) }
        // What is spelled so is read.
        ensures only { (asked : Asked) → SaysAsked text.now asked → result ≡ Some asked }
        // The same as a function of the text.
        ensures exact { result ≡ asked_in text.now }
    {
        asked_in(text)
    }
}

/// What was told.
#[derive(Clone, Copy, Debug, PartialEq, Eq)]
pub enum Told {
    /// The plan waits behind the others.
    Queued,
    /// The reply to a move.
    Answer(Reply),
}

impl fmt::Display for Told {
    ghost use Rattle.pp_report.specs.Lines.{told_words};

    ghost output = { λ told. Some (told_words told) };

    fn fmt<W: fmt::Write>(&self, f: &mut fmt::Formatter<W>) -> fmt::Result {
        match self {
            Told::Queued => f.write_str("queued"),
            Told::Answer(reply) => write!(f, "{reply}"),
        }
    }
}

impl Told {
    ghost use Rattle.pp_report.specs.declared.line.Told.{Told};
    ghost use Rattle.pp_report.specs.Lines.{SaysTold};
    ghost use Rattle.pp_report.specs.Reading.{told_in};

    /// Reads what stands in a line behind its equals sign, as in `mustread 1`.
    ///
    /// None where the text isn't exactly the words of something told: other words, numbers out of their ranges or with
    /// leading zeros, and refusals.
    pub fn from_text(text: &str) -> Option<Told>
        // What is read is spelled so.
        ensures found { IfSome result (SaysTold text.now) }
        // What is spelled so is read.
        ensures only { (told : Told) → SaysTold text.now told → result ≡ Some told }
        // The same as a function of the text.
        ensures exact { result ≡ told_in text.now }
    {
        told_in(text)
    }
}

/// A line of a journal, as in `fix 0 16 = mustread 1`. The two sides need not go together.
#[derive(Clone, Copy, Debug, PartialEq, Eq)]
pub struct Line {
    pub asked: Asked,
    pub told: Told,
}

impl fmt::Display for Line {
    ghost use Rattle.pp_report.specs.Lines.{line_words};

    ghost output = { λ line. Some (line_words line) };

    fn fmt<W: fmt::Write>(&self, f: &mut fmt::Formatter<W>) -> fmt::Result {
        write!(f, "{} = {}", self.asked, self.told)
    }
}

impl Line {
    ghost use Rattle.pp_report.specs.declared.line.Line.{Line};
    ghost use Rattle.pp_report.specs.Lines.{line_of, Says};
    ghost use Rattle.pp_report.specs.Reading.{line_in};

    /// Reads a line, without its line feed.
    ///
    /// None where the text isn't exactly the words of something asked, an equals sign and something told: other words,
    /// numbers out of their ranges or with leading zeros, and refusals are no line. Whether the two go together isn't
    /// asked.
    pub fn from_text(text: &str) -> Option<Line>
        // What is read is spelled so.
        ensures found { IfSome result (Says text.now) }
        // What is spelled so is read.
        ensures only { (line : Line) → Says text.now line → result ≡ Some line }
        // The same as a function of the text.
        ensures exact { result ≡ line_in text.now }
    {
        line_in(text)
    }

    /// The line of an event.
    pub fn of(event: Event) -> Line
        ensures { result ≡ line_of event }
    {
        match event {
            Event::Submit { plan } => Line {
                asked: Asked::Submit { plan },
                told: Told::Queued,
            },
            Event::Step { did, reply } => Line {
                asked: Asked::Do(did),
                told: Told::Answer(reply),
            },
        }
    }
}
