//! Texts in UTF-8.

ghost use Rattle.std.specs.Prelude.{◌≡◌, IfOk};

use crate::place::{Spot, spot_at};
use std::str;

/// The text of the bytes, or where they are first no UTF-8.
pub fn text_of(bytes: &[u8]) -> Result<&str, Spot>
    ensures { IfOk result (λ text. text.now ≡ bytes.entry.now) }
{
    match str::from_utf8(bytes) {
        Ok(text) => Ok(text),
        Err(error) => Err(spot_at(bytes, error.valid_up_to())),
    }
}
