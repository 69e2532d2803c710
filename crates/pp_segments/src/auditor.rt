//! What an audit of segments keeps: a core, and no line.

ghost use Rattle.std.specs.Prelude.{◌≡◌, IfOk, IfErr, OnOk, Err, None, List, slice_get, option_map};
ghost use Rattle.pp_cert.specs.Accepted.{Acceptance};
ghost use Rattle.pp_core.specs.StandsFor.{StandsFor};
ghost use Rattle.pp_text.specs.Steps.{Refuses};
ghost use Rattle.pp_report.specs.Journals.{journal_lines};
ghost use Rattle.pp_report.specs.Auditing.{told_reply};
ghost use Rattle.pp_report.specs.Sameness.{same_told};
ghost use Rattle.pp_segments.specs.Reading.{line_in};
ghost use Rattle.pp_segments.specs.Refusals.{is_segment_memory};
ghost use Rattle.pp_segments.specs.Auditing.{Progress, told_count, begin_fault, no_fault, outset, next_line};
ghost use Rattle.pp_segments.specs.Auditing.{not_possible};
ghost use Rattle.pp_segments.specs.Auditing.{pass_head, pass_plan, pass_submit, pass_step, in_segment, pass, pass_text};
ghost use Rattle.pp_segments.specs.Auditing.{pass_lines, is_over};
ghost use Rattle.pp_segments.specs.Auditors.{IsAt, HasStopped, Passes, PassesAll};

use crate::error::SegmentError;
use crate::line::SegmentLine;
use pp_cert::Accepted;
use pp_core::{Core, Prepared};
use pp_model::{Move, Reply};
use pp_report::{Asked, AuditError, Next, Told, first_line};
use pp_settings::Settings;
use std::alloc::Global;

/// An audit of segments that is under way: a core to which the lines so far were done. It keeps no line, so a pool's
/// journal can be audited beside it, segment by segment, for as long as the pool lasts.
///
/// Once a fault was found, [`SegmentAuditor::pass_segment`] answers it at each call. Of what the other calls answer
/// then, the clauses say nothing.
#[derive(Drop)]
pub struct SegmentAuditor {
    core: Core,
    /// The places of the prepared plans.
    places: Vec<Prepared>,
    /// How many lines were passed; it stays at 2^64 - 1.
    lines: u64,
    /// The number of the next segment; None behind the one with number 2^64 - 1.
    next: Option<u64>,
    /// The first fault, if there was one. Nothing is passed behind it.
    fault: Option<SegmentError>,
}

impl SegmentAuditor {
    /// An audit of the segments of an endless pool with these prepared plans, of which no line was passed yet. The
    /// plans are numbered from 0.
    ///
    /// It gets all the memory that the audit ever needs.
    ///
    /// # Errors
    ///
    /// `OtherLife` (8) where the life of the settings is bounded. Then the first of the plans that can't be prepared:
    /// `OtherSettings` (53) where it was accepted under another layout, else `TooManyPrepared` (57) where 4,096 stand
    /// before it. `OutOfMemory` (19) at any time.
    pub fn new(
        alloc: Global,
        settings: &Settings,
        prepared: Vec<Accepted>,
    ) -> Result<SegmentAuditor, SegmentError>
        ensures begins { IfOk result (λ made. IsAt prepared.items made (outset settings.now)) }
        ensures can { OnOk result (begin_fault settings.now prepared.items ≡ None) }
        ensures error { IfErr result (λ e. Refuses (is_segment_memory e) e
            (no_fault (begin_fault settings.now prepared.items))) }
    {
        if settings.see_bounded().is_ok() {
            return Err(SegmentError::OtherLife);
        }
        let mut core = Core::new(alloc, settings)?;
        let mut places = Vec::new(alloc);
        for plan in prepared {
            match core.prepare(plan) {
                Ok(place) => places.push(place)?,
                Err(refused) => return Err(SegmentError::Prepare(refused.1)),
            }
        }
        Ok(SegmentAuditor {
            core,
            places,
            lines: 0,
            next: Some(0),
            fault: None,
        })
    }

    /// The number of the next line.
    fn next_line(&self) -> u64
        ensures { (prepared : List Acceptance) (p : Progress) → IsAt prepared self.now p → result ≡ next_line p }
    {
        self.lines.saturating_add(1)
    }

    /// That this can't be asked now.
    fn not_possible(&self, asked: Asked) -> SegmentError
        ensures { (prepared : List Acceptance) (p : Progress) → IsAt prepared self.now p
            → result ≡ not_possible p asked }
    {
        let next = Next {
            turn: self.core.next_possible(),
        };
        SegmentError::Audit(AuditError::NotPossible(self.next_line(), asked, next))
    }

    /// Passes a head.
    fn pass_head(&mut self, segment: u64, plans_before: u64) -> Result<(), SegmentError>
        ensures { (prepared : List Acceptance) (p : Progress) → IsAt prepared self.old p
            → Passes prepared self.new (pass_head p segment plans_before) result }
    {
        if self.next != Some(segment) || plans_before != self.core.plans() {
            return Err(SegmentError::OtherSegment(self.next_line()));
        }
        self.lines = self.next_line();
        self.next = segment.checked_add(1);
        Ok(())
    }

    /// Submits the prepared plan of this name, the next one of the pool.
    fn submit(&mut self, plan: u64, place: Prepared) -> Result<(), SegmentError>
        ensures { (prepared : List Acceptance) (p : Progress) (a : Acceptance) → IsAt prepared self.old p
            → slice_get prepared place ≡ Some a → Passes prepared self.new (pass_plan p plan a) result }
    {
        match self.core.submit_prepared(place) {
            Ok(_) => {
                self.lines = self.next_line();
                Ok(())
            }
            Err(_) => Err(self.not_possible(Asked::Submit { plan })),
        }
    }

    /// The prepared plan of this name.
    fn place_of(&self, name: u32) -> Option<Prepared>
        ensures { (prepared : List Acceptance) (p : Progress) → IsAt prepared self.now p
            → result ≡ option_map (λ a. name) (slice_get prepared name) }
    {
        let place = self.places.get(name as usize)?;
        Some(*place)
    }

    /// Passes a submit.
    fn pass_submit(&mut self, plan: u64, name: u32) -> Result<(), SegmentError>
        ensures { (prepared : List Acceptance) (p : Progress) → IsAt prepared self.old p
            → Passes prepared self.new (pass_submit prepared p plan name) result }
    {
        if plan != self.core.plans() {
            return Err(self.not_possible(Asked::Submit { plan }));
        }
        match self.place_of(name) {
            Some(place) => self.submit(plan, place),
            None => Err(SegmentError::NotPrepared(self.next_line())),
        }
    }

    /// Passes a move.
    fn pass_step(&mut self, did: Move, told: Told) -> Result<(), SegmentError>
        ensures { (prepared : List Acceptance) (p : Progress) → IsAt prepared self.old p
            → Passes prepared self.new (pass_step p did told) result }
    {
        let Some(due) = due(self.core.step(&did)) else {
            return Err(self.not_possible(Asked::Do(did)));
        };
        if !is_same(told, due) {
            let differs = AuditError::ReplyDiffers(self.next_line(), told, due);
            return Err(SegmentError::Audit(differs));
        }
        self.lines = self.next_line();
        Ok(())
    }

    /// Sees that a head was passed.
    fn see_segment(&self) -> Result<(), SegmentError>
        ensures { (prepared : List Acceptance) (p : Progress) → IsAt prepared self.now p → result ≡ in_segment p }
    {
        if self.next == Some(0) {
            return Err(SegmentError::OtherSegment(self.next_line()));
        }
        Ok(())
    }

    /// Passes a line.
    fn pass(&mut self, line: SegmentLine) -> Result<(), SegmentError>
        ensures { (prepared : List Acceptance) (p : Progress) → IsAt prepared self.old p
            → Passes prepared self.new (pass prepared p line) result }
    {
        match line {
            SegmentLine::Head {
                segment,
                plans_before,
            } => self.pass_head(segment, plans_before),
            SegmentLine::Submit { plan, prepared } => {
                self.see_segment()?;
                self.pass_submit(plan, prepared)
            }
            SegmentLine::Step { did, told } => {
                self.see_segment()?;
                self.pass_step(did, told)
            }
        }
    }

    /// Passes a line by its text, without a line feed.
    fn pass_text(&mut self, text: &[u8]) -> Result<(), SegmentError>
        ensures { (prepared : List Acceptance) (p : Progress) → IsAt prepared self.old p
            → Passes prepared self.new (pass_text prepared p text.now) result }
    {
        match line_in(text) {
            Some(line) => self.pass(line),
            None => Err(SegmentError::Audit(AuditError::NotALine(self.next_line()))),
        }
    }

    /// Passes the lines of a text, or as many as there are before its first fault.
    fn pass_all(&mut self, text: &[u8]) -> Result<(), SegmentError>
        ensures { (prepared : List Acceptance) (p : Progress) → IsAt prepared self.old p
            → Passes prepared self.new (pass_lines prepared p (journal_lines text.now)) result }
    {
        let mut left = text;
        while !left.is_empty() {
            let (line, rest) = first_line(left);
            self.pass_text(line)?;
            left = rest;
        }
        Ok(())
    }

    /// Passes the lines of a segment, of a part of one, or of several, and answers how many lines were passed so far,
    /// this text's among them.
    ///
    /// The text follows those that were passed before. It ends behind a line, whose line feed may be missing. The
    /// first line of all is a head.
    ///
    /// # Errors
    ///
    /// Line by line the first of these, with the line's number: `NotALine` (91). Of a head, and of any other line
    /// before the first head, `OtherSegment` (96). Of a submit `NotPossible` (92) where its number isn't that of the
    /// next plan, `NotPrepared` (97) where there is no prepared plan of that number, and `NotPossible` where the pool
    /// doesn't take it in. Of a move `NotPossible`, and `ReplyDiffers` (93).
    ///
    /// Nothing more is audited then: each later call has the same error, whatever its text.
    pub fn pass_segment(&mut self, text: &[u8]) -> Result<u64, SegmentError>
        // Where no fault was found yet, the lines are passed, or the first fault is told.
        ensures passes { (prepared : List Acceptance) (p : Progress) → IsAt prepared self.old p
            → PassesAll prepared self.new (pass_lines prepared p (journal_lines text.now)) result }
        // A fault that is told is kept.
        ensures stops { IfErr result (HasStopped self.new) }
        // It is told again at each call, and kept.
        ensures again { (fault : SegmentError) → HasStopped self.old fault
            → (result ≡ Err fault) × HasStopped self.new fault }
    {
        if let Some(fault) = self.fault {
            return Err(fault);
        }
        if let Err(fault) = self.pass_all(text) {
            self.fault = Some(fault);
            return Err(fault);
        }
        Ok(self.lines)
    }

    /// How many lines were passed, or 2^64 - 1 where there were more. Behind a fault these are the lines before it; no
    /// clause says so.
    pub fn lines(&self) -> u64
        ensures { (prepared : List Acceptance) (p : Progress) → IsAt prepared self.now p → result ≡ told_count p.lines }
    {
        self.lines
    }

    /// How many heads were passed, or 2^64 - 1 where there were more. Behind a fault these are the heads before it; no
    /// clause says so.
    pub fn segments(&self) -> u64
        ensures { (prepared : List Acceptance) (p : Progress) → IsAt prepared self.now p
            → result ≡ told_count p.segments }
    {
        self.next.unwrap_or(u64::MAX)
    }

    /// The core after the lines that were passed. Behind a fault it is the core after the lines before it, and where
    /// that fault is `ReplyDiffers`, the move of its line was done too; no clause says so.
    pub fn core(&self) -> &Core
        ensures { (prepared : List Acceptance) (p : Progress) → IsAt prepared self.now p
            → StandsFor result.now p.state }
    {
        &self.core
    }

    /// Whether nothing is left to do: no plan waits or is with a worker, and no flush is in flight. Behind a fault it
    /// is asked of the core as that stands; no clause says so.
    pub fn is_over(&self) -> bool
        ensures { (prepared : List Acceptance) (p : Progress) → IsAt prepared self.now p → result ≡ is_over p }
    {
        self.core.next_possible().is_none()
    }
}

/// What a reply tells, if it isn't a refusal.
fn due(reply: Reply) -> Option<Told>
    ensures { result ≡ told_reply reply }
{
    match reply {
        Reply::NotNow(_) | Reply::OffPlan(_) => None,
        reply => Some(Told::Answer(reply)),
    }
}

/// Whether two lines tell the same.
fn is_same(left: Told, right: Told) -> bool
    ensures { result ≡ same_told left right }
{
    left == right
}

/// What the line says, if it is one of a segment. One that isn't UTF-8 is none.
fn line_in(line: &[u8]) -> Option<SegmentLine>
    ensures { result ≡ line_in line.now }
{
    let Ok(text) = str::from_utf8(line) else {
        return None;
    };
    SegmentLine::from_text(text)
}
