//! A sink that writes each segment as text, and has the text audited at once.

use pp_ledger::{Segment, Sink};
use pp_segments::SegmentAuditor;
use pp_served::text_of;
use pp_totals::Totals;
use std::alloc::Global;

/// A sink, and what it has come to.
#[derive(Drop)]
pub struct Texts {
    alloc: Global,
    /// The audit, to which each text is handed.
    pub auditor: SegmentAuditor,
    /// The totals of the segments so far.
    pub totals: Totals,
    /// How many segments it was handed.
    pub handed: u64,
    /// Whether each of them was written and audited: memory was there, and the audit found no fault.
    pub is_well: bool,
}

impl Texts {
    /// A sink that was handed nothing yet, and has the texts audited by this audit.
    pub fn new(alloc: Global, auditor: SegmentAuditor) -> Texts {
        Texts {
            alloc,
            auditor,
            totals: Totals::new(),
            handed: 0,
            is_well: true,
        }
    }

    /// Counts the events of the segment, and has its text audited.
    pub fn keep(&mut self, segment: &Segment) {
        self.totals = self.totals.saturating_add(Totals::of(segment.events()));
        let is_audited = self.audit(segment);
        self.is_well = self.is_well && is_audited;
    }

    /// Has the segment's text audited. Tells whether it was.
    fn audit(&mut self, segment: &Segment) -> bool {
        match text_of(self.alloc, segment) {
            Ok(text) => self.auditor.pass_segment(text.as_bytes()).is_ok(),
            Err(_) => false,
        }
    }
}

impl Sink for Texts {
    // No more than what is so of each sink.
    ghost keeps = { λ before full next after. Unit {0} };

    fn next(&mut self, full: Segment) -> Segment {
        self.handed = self.handed.saturating_add(1);
        self.keep(&full);
        let mut next = full;
        next.clear();
        next
    }
}
