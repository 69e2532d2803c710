//! A character as it is shown.

ghost use Rattle.std.specs.Prelude.{◌≡◌, Some};
ghost use Rattle.pp_shown.specs.Shown.{escaped, is_bidi_or_line_end, is_control, is_printable, is_unseen, shown_char};

use std::fmt;

/// A character, which is shown as it is where it is printable. Else it is shown as `\n`, `\r`, `\t`, or as `\u{202e}` with its
/// number in hexadecimal.
///
/// Not printable are the characters of Unicode's general categories Cc (controls), Zl and Zp (ends of lines), the bidirectional
/// controls (Unicode Standard Annex 9), the default-ignorable ones, U+FFF9 to U+FFFB, and the format controls of Egyptian
/// hieroglyphs, U+13430 to U+1343F. All others are printable, also blanks, marks that combine with the letter before them, and
/// letters that are written from right to left.
#[derive(Clone, Copy, Debug, PartialEq, Eq)]
pub struct ShownChar(pub char);

impl fmt::Display for ShownChar {
    ghost output = { λ character. Some (shown_char character.0) };

    fn fmt<W: fmt::Write>(&self, f: &mut fmt::Formatter<W>) -> fmt::Result {
        if is_printable(self.0) {
            return f.write_char(self.0);
        }
        let escaped = Escaped(self.0);
        write!(f, "{escaped}")
    }
}

/// A character as it is shown where it isn't printable.
#[derive(Clone, Copy)]
struct Escaped(char);

impl fmt::Display for Escaped {
    ghost output = { λ character. Some (escaped character.0) };

    fn fmt<W: fmt::Write>(&self, f: &mut fmt::Formatter<W>) -> fmt::Result {
        let character = self.0;
        if character == '\n' {
            return f.write_str("\\n");
        }
        if character == '\r' {
            return f.write_str("\\r");
        }
        if character == '\t' {
            return f.write_str("\\t");
        }
        let number = character as u32;
        write!(f, "\\u{{{number:x}}}")
    }
}

/// Whether the character is shown as it is.
fn is_printable(character: char) -> bool
    ensures { result ≡ is_printable character }
{
    let number = character as u32;
    !(is_control(number) || is_bidi_or_line_end(number) || is_unseen(number))
}

/// Whether it is a control character.
fn is_control(number: u32) -> bool
    ensures { result ≡ is_control number }
{
    matches!(number, 0..=0x1f | 0x7f..=0x9f)
}

/// Whether it is a character that ends a line, or is there to turn the direction of writing.
fn is_bidi_or_line_end(number: u32) -> bool
    ensures { result ≡ is_bidi_or_line_end number }
{
    matches!(number, 0x61c | 0x200e..=0x200f | 0x2028..=0x202e | 0x2066..=0x2069)
}

/// Whether it is another character that is there to be unseen.
fn is_unseen(number: u32) -> bool
    ensures { result ≡ is_unseen number }
{
    matches!(
        number,
        0xad | 0x34f
            | 0x115f..=0x1160
            | 0x17b4..=0x17b5
            | 0x180b..=0x180f
            | 0x200b..=0x200d
            | 0x2060..=0x2065
            | 0x206a..=0x206f
            | 0x3164
            | 0xfe00..=0xfe0f
            | 0xfeff
            | 0xffa0
            | 0xfff0..=0xfffb
            | 0x13430..=0x1343f
            | 0x1bca0..=0x1bca3
            | 0x1d173..=0x1d17a
            | 0xe0000..=0xe0fff
    )
}
