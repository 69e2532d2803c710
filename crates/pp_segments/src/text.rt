//! The text of a segment.

ghost use Rattle.std.specs.Prelude.{◌≡◌, ◌++◌, IfOk, OnOk, string_bytes, codes};
ghost use Rattle.pp_segments.specs.declared.line.SegmentLine.{SegmentLine};
ghost use Rattle.pp_segments.specs.Lines.{line_words};
ghost use Rattle.pp_segments.specs.Segments.{IsNamed, segment_words};

use crate::line::SegmentLine;
use pp_journal::Journal;
use pp_model::Event;
use pp_report::Told;
use std::alloc::{AllocError, Global};

/// The text of the segment that has this number, from 0, and before which so many plans were submitted: its head, and
/// a line for each event of its journal, in order, each ended by a line feed. `prepared` has of each submit in it the
/// number of the prepared plan, in order: as many as there are submits.
///
/// # Errors
///
/// Only where memory runs out.
pub fn segment_text(
    alloc: Global,
    segment: u64,
    plans_before: u64,
    journal: &Journal,
    prepared: &[u32],
) -> Result<String, AllocError>
    requires { IsNamed (record { events = journal.now.items; prepared = prepared.now }) }
    ensures { IfOk result (λ text. string_bytes text
        ≡ segment_words segment plans_before (record { events = journal.now.items; prepared = prepared.now })) }
{
    let mut text = String::new(alloc);
    let head = SegmentLine::Head {
        segment,
        plans_before,
    };
    push_line(alloc, &mut text, head)?;
    let mut next = 0;
    for place in 0..journal.len() {
        match journal.event(place) {
            Event::Submit { plan } => {
                let prepared = prepared[next];
                push_line(alloc, &mut text, SegmentLine::Submit { plan, prepared })?;
                next += 1;
            }
            Event::Step { did, reply } => {
                let told = Told::Answer(reply);
                push_line(alloc, &mut text, SegmentLine::Step { did, told })?;
            }
        }
    }
    Ok(text)
}

/// Adds the line, and a line feed.
fn push_line(alloc: Global, text: &mut String, line: SegmentLine) -> Result<(), AllocError>
    ensures { OnOk result (string_bytes text.new ≡ string_bytes text.old ++ (line_words line ++ codes "\n")) }
{
    let words = format!(in alloc; "{line}\n")?;
    text.push_str(words.as_str())?;
    Ok(())
}
