//! A text of several lines as it is shown.

ghost use Rattle.std.specs.Fmt.{WritesOnOk};
ghost use Rattle.std.specs.Prelude.{Some};
ghost use Rattle.pp_shown.specs.Shown.{shown_in_lines, shown_lines};

use crate::character::ShownChar;
use std::fmt;

/// A text of lines, which is shown character by character as [`ShownChar`] says, but for its line feeds, which stay.
#[derive(Clone, Copy, Debug, PartialEq, Eq)]
pub struct ShownLines<'a>(pub &'a str);

impl fmt::Display for ShownLines<'_> {
    ghost output = { λ text. Some (shown_lines text.0.now) };

    fn fmt<W: fmt::Write>(&self, f: &mut fmt::Formatter<W>) -> fmt::Result {
        write_lines(self.0, f)
    }
}

/// Writes the text as it is shown.
fn write_lines<W: fmt::Write>(text: &str, f: &mut fmt::Formatter<W>) -> fmt::Result
    ensures { WritesOnOk W.write_str_gives f.old result (shown_lines text.now) f.new }
{
    for character in text.chars() {
        let character = InLines(character);
        write!(f, "{character}")?;
    }
    Ok(())
}

/// A character of such a text.
#[derive(Clone, Copy)]
struct InLines(char);

impl fmt::Display for InLines {
    ghost output = { λ character. Some (shown_in_lines character.0) };

    fn fmt<W: fmt::Write>(&self, f: &mut fmt::Formatter<W>) -> fmt::Result {
        if self.0 == '\n' {
            return f.write_str("\n");
        }
        let character = ShownChar(self.0);
        write!(f, "{character}")
    }
}
