//! The text of a journal.

ghost use Rattle.std.specs.Prelude.{◌≡◌, ◌++◌, IfOk, OnOk, string_bytes};
ghost use Rattle.pp_report.specs.Lines.{event_words, journal_words};

use crate::line::Line;
use pp_journal::Journal;
use pp_model::Event;
use std::alloc::{AllocError, Global};

/// The journal's text: a line for each event, in their order, each ended by a line feed.
///
/// # Errors
///
/// Only where memory runs out.
pub fn journal_text(alloc: Global, events: &[Event]) -> Result<String, AllocError>
    ensures { IfOk result (λ text. string_bytes text ≡ journal_words events.now) }
{
    let mut text = String::new(alloc);
    for event in events {
        push_event(alloc, &mut text, *event)?;
    }
    Ok(text)
}

/// The text of a journal that is packed: the same as [`journal_text`]'s of its events.
///
/// # Errors
///
/// Only where memory runs out.
pub fn packed_journal_text(alloc: Global, journal: &Journal) -> Result<String, AllocError>
    ensures { IfOk result (λ text. string_bytes text ≡ journal_words journal.now.items) }
{
    let mut text = String::new(alloc);
    for place in 0..journal.len() {
        push_event(alloc, &mut text, journal.event(place))?;
    }
    Ok(text)
}

/// Adds the event's line.
fn push_event(alloc: Global, text: &mut String, event: Event) -> Result<(), AllocError>
    ensures { OnOk result (string_bytes text.new ≡ string_bytes text.old ++ event_words event) }
{
    let line = format!(in alloc; "{}\n", Line::of(event))?;
    text.push_str(line.as_str())?;
    Ok(())
}
