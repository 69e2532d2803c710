//! The form of slot names.

ghost use Rattle.std.specs.Prelude.{◌≡◌};
ghost use Rattle.pp_plan.specs.Names.{is_slot_name};

use crate::limits::LONGEST_NAME;
use pp_text::is_name;

/// A slot name: 1 to 16 of a-z, 0-9 and `_`, a letter first.
pub(crate) fn is_slot_name(text: &str) -> bool
    ensures { result ≡ is_slot_name text.now }
{
    is_name(LONGEST_NAME, text)
}
