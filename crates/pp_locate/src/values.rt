//! Values and texts as an explanation shows them.

ghost use Rattle.std.specs.Prelude.{◌≡◌, ◌≤◌, ◌+◌, IfOk, length, string_bytes};

use pp_shown::ShownChar;
use std::alloc::{AllocError, Global};

/// How many bytes of a text are shown: a line on a terminal, or two. With more, a long text would hide what is said of it.
const SHOWN: usize = 100;

/// The text, or its front with two dots behind.
pub fn front(alloc: Global, text: &str) -> Result<String, AllocError>
    ensures whole { length text.now ≤ SHOWN → IfOk result (λ shown. string_bytes shown ≡ text.now) }
    ensures short { IfOk result (λ shown. length (string_bytes shown) ≤ SHOWN + 2) }
{
    if text.len() <= SHOWN {
        return String::from_str(alloc, text);
    }
    let mut front = String::from_str(alloc, beginning(text))?;
    front.push_str("..")?;
    Ok(front)
}

/// The longest beginning of at most as many bytes as are shown.
fn beginning(text: &str) -> &str
    ensures { length result.now ≤ SHOWN }
{
    for less in 0..4 {
        if let Some(front) = text.get(..SHOWN - less) {
            return front;
        }
    }
    ""
}

/// The text in quotes, or the front of that. What isn't printable is escaped.
pub fn quoted(alloc: Global, text: &str) -> Result<String, AllocError>
    ensures { IfOk result (λ shown. length (string_bytes shown) ≤ SHOWN + 2) }
{
    let mut shown = String::from_str(alloc, "\"")?;
    for character in text.chars() {
        if shown.len() > SHOWN {
            return front(alloc, shown.as_str());
        }
        if matches!(character, '"' | '\\') {
            shown.push('\\')?;
        }
        let character = ShownChar(character);
        write!(shown, "{character}")?;
    }
    shown.push('"')?;
    front(alloc, shown.as_str())
}

/// What a character is in the text of a JSON value.
#[derive(Clone, Copy)]
enum Part {
    /// One that is shown.
    Sign,
    /// White space between two of them.
    Space,
    /// The first one behind the value.
    End,
}

/// A walk over the text of a JSON value.
#[derive(Clone, Copy)]
struct Walk {
    /// In how many lists and objects it stands.
    depth: usize,
    /// Whether it stands in a text.
    in_text: bool,
    /// Whether a backslash stands before.
    is_escaped: bool,
}

impl Walk {
    /// Passes the character.
    fn pass(&mut self, character: char) -> Part {
        if self.in_text {
            self.pass_in_text(character);
            return Part::Sign;
        }
        match character {
            ' ' | '\t' | '\n' | '\r' => Part::Space,
            ',' | ':' | '}' | ']' if self.depth == 0 => Part::End,
            '{' | '[' => {
                self.depth = self.depth.saturating_add(1);
                Part::Sign
            }
            '}' | ']' => {
                self.depth = self.depth.saturating_sub(1);
                Part::Sign
            }
            _ => {
                self.in_text = character == '"';
                Part::Sign
            }
        }
    }

    /// The same in a text.
    fn pass_in_text(&mut self, character: char) {
        self.in_text = self.is_escaped || character != '"';
        self.is_escaped = !self.is_escaped && character == '\\';
    }
}

/// The JSON value with which the text begins, as it stands there but for white space, or the front of that. What isn't
/// printable is escaped.
pub fn shown(alloc: Global, text: &str) -> Result<String, AllocError>
    ensures { IfOk result (λ shown. length (string_bytes shown) ≤ SHOWN + 2) }
{
    let mut shown = String::new(alloc);
    let mut walk = Walk {
        depth: 0,
        in_text: false,
        is_escaped: false,
    };
    for character in text.chars() {
        if shown.len() > SHOWN {
            return front(alloc, shown.as_str());
        }
        match walk.pass(character) {
            Part::Sign => {
                let character = ShownChar(character);
                write!(shown, "{character}")?;
            }
            Part::Space => {}
            Part::End => return front(alloc, shown.as_str()),
        }
    }
    front(alloc, shown.as_str())
}
