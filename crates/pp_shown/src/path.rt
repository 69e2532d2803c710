//! A path as it is shown.

ghost use Rattle.std.specs.Fmt.{WritesOnOk};
ghost use Rattle.std.specs.Prelude.{Some};
ghost use Rattle.pp_shown.specs.Shown.{shown_path};

use crate::character::ShownChar;
use std::fmt;

/// How many characters are shown at most: no path that Linux takes has as many (`PATH_MAX`).
const MOST_SHOWN: usize = 4096;

/// A path, which is shown character by character as [`ShownChar`] says. Two dots stand for what is behind the 4,096th one.
#[derive(Clone, Copy, Debug, PartialEq, Eq)]
pub struct ShownPath<'a>(pub &'a str);

impl fmt::Display for ShownPath<'_> {
    ghost output = { λ path. Some (shown_path path.0.now) };

    fn fmt<W: fmt::Write>(&self, f: &mut fmt::Formatter<W>) -> fmt::Result {
        write_path(self.0, f)
    }
}

/// Writes the path as it is shown.
fn write_path<W: fmt::Write>(path: &str, f: &mut fmt::Formatter<W>) -> fmt::Result
    ensures { WritesOnOk W.write_str_gives f.old result (shown_path path.now) f.new }
{
    let mut count = 0;
    for character in path.chars() {
        if count == MOST_SHOWN {
            return f.write_str("..");
        }
        count += 1;
        let character = ShownChar(character);
        write!(f, "{character}")?;
    }
    Ok(())
}
