//! The text of a segment that was taken out of a ledger.

ghost use Rattle.std.specs.Prelude.{◌≡◌, IfOk, string_bytes};
ghost use Rattle.pp_served.specs.Texts.{text_words};

use pp_ledger::Segment;
use pp_segments::segment_text;
use std::alloc::{AllocError, Global};

/// The text of a segment: its head, with its number and how many plans were submitted before it, and a line for each
/// event, in order. A submit's line names the prepared plan by its place among those of the ledger.
///
/// # Errors
///
/// Only where memory runs out.
pub fn text_of(alloc: Global, segment: &Segment) -> Result<String, AllocError>
    ensures { IfOk result (λ text. string_bytes text ≡ text_words segment.now) }
{
    segment.known();
    segment_text(
        alloc,
        segment.number(),
        segment.plans_before(),
        segment.events(),
        segment.prepared(),
    )
}
