//! Lines of a text.

ghost use Rattle.std.specs.Prelude.{◌≡◌, option_map, slice_get};
ghost use Rattle.pp_locate.specs.Places.{line_of, lines};

use crate::text::text_of;
use crate::values::quoted;
use std::alloc::{AllocError, Global};

/// The line with this number, from 1, without its line feed; empty where there is none.
pub fn line_at(text: &[u8], number: u64) -> &[u8]
    ensures { result.now ≡ line_of number text.entry.now }
{
    match nth_line(text, number.saturating_sub(1) as usize) {
        Some(line) => line,
        None => &[],
    }
}

/// The line of this number, from 0.
fn nth_line(text: &[u8], index: usize) -> Option<&[u8]>
    ensures { option_map (λ line. line.now) result ≡ slice_get (lines text.entry.now) index }
{
    text.split(|byte| *byte == b'\n').nth(index)
}

/// The line in quotes, or the front of that.
pub fn line_text(alloc: Global, line: &[u8]) -> Result<String, AllocError> {
    match text_of(line) {
        Ok(text) => quoted(alloc, text),
        Err(_) => String::from_str(alloc, "a line that is no UTF-8"),
    }
}
