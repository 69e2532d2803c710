//! What was seen of a walk: the texts of the segments that were taken out, an audit of them that is under way, and
//! counts.

use crate::common::same;
use pp_cert::Accepted;
use pp_core::{Core, Turn};
use pp_ledger::{Ledger, Segment};
use pp_segments::{AuditedSegments, SegmentAuditor, audit_segments};
use pp_settings::Settings;
use pp_test_stand::text_of;
use std::alloc::Global;

/// The texts of the segments that were taken out, and what was counted.
pub struct Seen {
    auditor: SegmentAuditor,
    pub texts: Vec<String>,
    /// The segment that was taken out last.
    pub spare: Option<Segment>,
    /// How many lines the texts have.
    lines: u64,
    /// How many events were noted.
    pub events: u64,
    /// How many plans were submitted.
    pub plans: u64,
    /// How many submits were refused since as many plans waited as may.
    pub too_many: u64,
    /// How many segments were full, and how many were taken out earlier.
    pub full: u64,
    pub early: u64,
}

impl Drop for Seen {
    fn drop(self) {
        let Seen {
            auditor: _,
            texts: _,
            spare: _,
            lines: _,
            events: _,
            plans: _,
            too_many: _,
            full: _,
            early: _,
        } = self;
    }
}

/// What a ledger tells of itself: who is next, what is left at most, how many plans were submitted, and how many pages
/// are changed.
pub fn told(core: &Core) -> (Option<Turn>, u64, u64, u32) {
    (
        core.next_possible(),
        core.budget(),
        core.plans(),
        core.dirty(),
    )
}

impl Seen {
    /// Nothing was seen yet of a pool with these settings, which keeps these plans.
    pub fn new(alloc: Global, settings: &Settings, plans: Vec<Accepted>) -> anyhow::Result<Seen> {
        Ok(Seen {
            auditor: SegmentAuditor::new(alloc, settings, plans)?,
            texts: Vec::new(alloc),
            spare: None,
            lines: 0,
            events: 0,
            plans: 0,
            too_many: 0,
            full: 0,
            early: 0,
        })
    }

    /// Audits the text of a segment, and keeps it.
    pub fn pass(&mut self, alloc: Global, segment: &Segment) -> anyhow::Result<()> {
        let text = text_of(alloc, segment)?;
        let events = segment.events().len() as u64;
        let lines = self.auditor.pass_segment(text.as_bytes())?;
        self.lines = self.lines.saturating_add(events).saturating_add(1);
        self.events = self.events.saturating_add(events);
        same("the lines that were passed", lines, self.lines)?;
        self.texts.push(text)?;
        let segments = self.texts.len() as u64;
        same("segments", self.auditor.segments(), segments)?;
        same(
            "the number of the next",
            segment.number(),
            segments.saturating_sub(1),
        )
    }

    /// Sees that the audit has come to what the ledger has come to, whose present segment is empty.
    pub fn see(&self, ledger: &Ledger) -> anyhow::Result<()> {
        let got = told(self.auditor.core());
        same(
            "what the audit has come to",
            got,
            told(ledger.vault().core()),
        )
    }

    /// Audits all texts together, at whose end nothing is left to do.
    pub fn see_all(
        &self,
        alloc: Global,
        settings: &Settings,
        plans: Vec<Accepted>,
    ) -> anyhow::Result<()> {
        same("whether nothing is left", self.auditor.is_over(), true)?;
        let mut texts = Vec::new(alloc);
        for text in &self.texts {
            texts.push(text.as_bytes())?;
        }
        let got = audit_segments(alloc, settings, plans, &texts, true)?;
        let want = AuditedSegments {
            lines: self.lines,
            segments: self.texts.len() as u64,
        };
        same("all texts together", got, want)
    }

    /// Whether a word stands in one of the texts.
    pub fn has(&self, word: &str) -> bool {
        self.texts.iter().any(|text| text.contains(word))
    }
}
