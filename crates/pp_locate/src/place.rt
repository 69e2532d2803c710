//! Places in a text.

ghost use Rattle.std.specs.Prelude.{◌≡◌, count_by, length, take};
ghost use Rattle.pp_locate.specs.Places.{begins_character, column_behind, line_behind, lines};

use crate::lines::line_at;

/// A place in a text.
#[derive(Clone, Copy)]
pub struct Spot {
    /// The line, from 1.
    pub line: usize,
    /// The character of the line, from 1.
    pub column: usize,
}

/// The place behind so many bytes of the text.
pub fn spot_at(text: &[u8], offset: usize) -> Spot
    ensures line { result.line ≡ line_behind (take offset text.now) }
    ensures column { result.column ≡ column_behind (take offset text.now) }
{
    let before = beginning(text, offset);
    let line = line_count(before);
    let column = characters(line_at(before, line as u64)) + 1;
    Spot { line, column }
}

/// The first bytes of the text, so many or all.
#[tactic(auto, using(std::proofs::lemmas::Grind::common_steps))]
fn beginning(text: &[u8], count: usize) -> &[u8]
    ensures { result.now ≡ take count text.entry.now }
{
    if count < text.len() {
        &text[..count]
    } else {
        text
    }
}

/// How many lines the text has.
fn line_count(text: &[u8]) -> usize
    ensures { result ≡ length (lines text.now) }
{
    text.split(|byte| *byte == b'\n').count()
}

/// How many characters begin in the text.
fn characters(text: &[u8]) -> usize
    ensures { result ≡ count_by begins_character text.now }
{
    text.iter().filter(|byte| begins_character(**byte)).count()
}

/// Whether a character begins at the byte.
fn begins_character(byte: u8) -> bool
    ensures { result ≡ begins_character byte }
{
    byte & 0xc0 != 0x80
}
