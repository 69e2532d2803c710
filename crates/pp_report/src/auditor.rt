//! What an audit keeps: a core, and the plans that no line has submitted yet.

ghost use Rattle.std.specs.Prelude.{◌≡◌, ◌∷◌, ◌<◌, ℕ, Option, None, IfOk, IfErr, length};
ghost use Rattle.pp_settings.specs.declared.span.Span.TheVariants.{Bounded};
ghost use Rattle.pp_core.specs.StandsFor.{StandsFor};
ghost use Rattle.pp_report.specs.declared.line.Asked.TheVariants as asked;
ghost use Rattle.pp_report.specs.declared.line.Line.{Line};
ghost use Rattle.pp_report.specs.Journals.{journal_lines};
ghost use Rattle.pp_report.specs.Reading.{line_in};
ghost use Rattle.pp_report.specs.Sameness.{same_told};
ghost use Rattle.pp_report.specs.Auditing.{Progress, outset, told_reply, pass, pass_text, is_over, auditing_from};
ghost use Rattle.std.specs.Str.{bytes_eq};
ghost use Rattle.pp_report.specs.AuditingLives.{renewal_line, pass_renewal, pass_in_lives, lives_from};
ghost use Rattle.pp_report.specs.Auditors.{IsAt, Asks, Passes, StopsAt, progress_behind, progress_at};

use crate::error::{AuditError, Next};
use crate::line::{Asked, Line, Told};
use pp_cert::Accepted;
use pp_core::{Core, CoreError};
use pp_model::{Move, Reply};
use pp_settings::Settings;
use std::alloc::Global;

/// The line between the journals of two lives of a pool, without its line feed. It is no line of a journal.
pub const RENEWAL_LINE: &str = "renew = renewed";

/// An audit that is under way: a core to which the lines so far were done, and the plans that no line has submitted yet. The
/// core's life is bounded.
///
/// It is for whoever watches an audit line by line; [`audit`](crate::audit) is the whole of it.
#[derive(Drop)]
pub struct Auditor {
    core: Core,
    waiting: Vec<Accepted>,
}

impl Auditor {
    /// An audit of a journal of these plans, of which no line was passed yet, under settings by which a life is bounded
    /// ([`Settings::see_bounded`]).
    ///
    /// # Errors
    ///
    /// Only where memory runs out.
    pub fn new(
        alloc: Global,
        settings: &Settings,
        plans: Vec<Accepted>,
    ) -> Result<Auditor, CoreError>
        requires { settings.now.span ≡ Bounded }
        ensures { IfOk result (λ made. IsAt made (outset settings.now plans.items)) }
    {
        let core = Core::new(alloc, settings)?;
        let mut waiting = plans;
        waiting.reverse();
        Ok(Auditor { core, waiting })
    }

    /// Submits the next plan, if it has this number. One that is refused waits on.
    fn submit(&mut self, number: u64) -> Option<Told>
        ensures { Asks self.old self.new (asked.Submit number) result }
    {
        if number != self.core.plans() {
            return None;
        }
        let next = self.waiting.pop()?;
        match self.core.submit(next) {
            Ok(_) => Some(Told::Queued),
            Err((plan, _)) => {
                self.waiting.push_reserved(plan);
                None
            }
        }
    }

    /// Does the move.
    fn step(&mut self, did: Move) -> Option<Told>
        ensures { Asks self.old self.new (asked.Do did) result }
    {
        told(self.core.step(&did))
    }

    /// Does what is asked, where it is possible, and tells what the pool tells.
    fn ask(&mut self, asked: Asked) -> Option<Told>
        ensures { Asks self.old self.new asked result }
    {
        match asked {
            Asked::Submit { plan } => self.submit(plan),
            Asked::Do(did) => self.step(did),
        }
    }

    /// Does what the line asks, and compares what is told.
    fn pass(&mut self, number: u64, line: Line) -> Result<(), AuditError>
        ensures passes { (p : Progress) → IsAt self.old p → Passes self.new (pass p number line) result }
        ensures stops { (p : Progress) → IsAt self.old p
            → IfErr result (λ e. IsAt self.new (progress_behind p line.asked e)) }
    {
        let Some(due) = self.ask(line.asked) else {
            let next = Next {
                turn: self.core.next_possible(),
            };
            return Err(AuditError::NotPossible(number, line.asked, next));
        };
        if !is_same(line.told, due) {
            return Err(AuditError::ReplyDiffers(number, line.told, due));
        }
        Ok(())
    }

    /// Passes a line, the one with this number from 1, by its text without a line feed.
    ///
    /// # Errors
    ///
    /// `NotALine`, `NotPossible` or `ReplyDiffers` with this number, the first that applies. At `ReplyDiffers` what the line asks was
    /// done, and else nothing (`stops`).
    pub fn pass_text(&mut self, number: u64, text: &[u8]) -> Result<(), AuditError>
        ensures passes { (p : Progress) → IsAt self.old p → Passes self.new (pass_text p number text.now) result }
        ensures stops { StopsAt self.old self.new text.now result }
    {
        let line = line_in(text).ok_or(AuditError::NotALine(number))?;
        self.pass(number, line)
    }

    /// Begins the next life, if the core can be renewed.
    fn renew(&mut self, number: u64) -> Result<(), AuditError>
        ensures passes { (p : Progress) → IsAt self.old p → Passes self.new (pass_renewal p number) result }
        ensures stops { (p : Progress) → IsAt self.old p
            → IfErr result (λ e. (found : Option Line) → IsAt self.new (progress_at p found e)) }
    {
        match self.core.renew() {
            Ok(()) => Ok(()),
            Err(why) => {
                let next = Next {
                    turn: self.core.next_possible(),
                };
                Err(AuditError::NotRenewed(number, why, next))
            }
        }
    }

    /// Passes a line of a text of lives, as [`Auditor::pass_text`] does. At [`RENEWAL_LINE`] the core is renewed, and the
    /// plans that no line has submitted yet go into the next life.
    ///
    /// # Errors
    ///
    /// `NotRenewed` with this number at that line, where nothing was done; else those of [`Auditor::pass_text`].
    pub fn pass_in_lives(&mut self, number: u64, text: &[u8]) -> Result<(), AuditError>
        ensures passes { (p : Progress) → IsAt self.old p → Passes self.new (pass_in_lives p number text.now) result }
        ensures stops { StopsAt self.old self.new text.now result }
    {
        if is_renewal(text) {
            return self.renew(number);
        }
        self.pass_text(number, text)
    }

    /// The core after the lines that were passed.
    pub fn core(&self) -> &Core
        ensures { (p : Progress) → IsAt self.now p → StandsFor result.now p.state }
    {
        &self.core
    }

    /// Whether every plan was submitted, and nothing more is possible.
    pub fn is_over(&self) -> bool
        ensures { (p : Progress) → IsAt self.now p → result ≡ is_over p }
    {
        self.waiting.is_empty() && self.core.next_possible().is_none()
    }

    /// Passes the lines of the journal, and answers how many there are.
    pub(crate) fn pass_all(&mut self, journal: &[u8]) -> Result<u64, AuditError>
        ensures { (p : Progress) → IsAt self.old p → result ≡ auditing_from p 0 (journal_lines journal.now) }
    {
        let mut lines = 0;
        let mut left = journal;
        while !left.is_empty() {
            let (line, rest) = first_line(left);
            lines += 1;
            self.pass_text(lines, line)?;
            left = rest;
        }
        if !self.is_over() {
            return Err(AuditError::Unfinished);
        }
        Ok(lines)
    }

    /// Passes the lines of a text of lives, and answers how many there are.
    pub(crate) fn pass_lives(&mut self, journals: &[u8]) -> Result<u64, AuditError>
        ensures { (p : Progress) → IsAt self.old p → result ≡ lives_from p 0 (journal_lines journals.now) }
    {
        let mut lines = 0;
        let mut rest = journals;
        while !rest.is_empty() {
            let (line, behind) = first_line(rest);
            lines += 1;
            self.pass_in_lives(lines, line)?;
            rest = behind;
        }
        if !self.is_over() {
            return Err(AuditError::Unfinished);
        }
        Ok(lines)
    }
}

/// Whether it is the line between two lives.
fn is_renewal(line: &[u8]) -> bool
    ensures { result ≡ bytes_eq line.now renewal_line }
{
    line == RENEWAL_LINE.as_bytes()
}

/// What a reply tells, if it isn't a refusal.
fn told(reply: Reply) -> Option<Told>
    ensures { result ≡ told_reply reply }
{
    match reply {
        Reply::NotNow(_) | Reply::OffPlan(_) => None,
        reply => Some(Told::Answer(reply)),
    }
}

/// Whether two lines tell the same.
fn is_same(left: Told, right: Told) -> bool
    ensures { result ≡ same_told left right }
{
    left == right
}

/// What the line says, if it is one of a journal. One that isn't UTF-8 is none.
pub fn line_in(line: &[u8]) -> Option<Line>
    ensures { result ≡ line_in line.now }
{
    let Ok(text) = str::from_utf8(line) else {
        return None;
    };
    Line::from_text(text)
}

/// The first line of a text that isn't empty, without its line feed, and the text behind it.
pub fn first_line(text: &[u8]) -> (&[u8], &[u8])
    requires { 0 < length text.now }
    ensures lines { journal_lines text.now ≡ result.0.now ∷ journal_lines result.1.now }
    ensures shorter { length result.1.now < length text.now }
{
    match text.iter().position(|byte| *byte == b'\n') {
        Some(end) => (&text[..end], &text[end + 1..]),
        None => (text, &text[text.len()..]),
    }
}
