//! Where a text is no JSON, and why.

use json::is_number;
use serde_json::Value;
use std::alloc::{AllocError, Global};

/// Why a text is no JSON.
#[derive(Clone, Copy)]
pub struct Malformed {
    /// How many bytes stand before what is at fault.
    pub offset: usize,
    /// What is at fault.
    pub what: &'static str,
}

/// What is said of a word, and of a number, that is none.
const NO_WORD: &str =
    "the word is none of JSON: values without quotes are numbers, true, false and null";

const NO_NUMBER: &str =
    "the number isn't spelled as in JSON: no plus, no zero in front, digits around a point";

/// What ends a word: white space, a bracket, a comma, a colon, a quote or a comment.
const WORD_ENDS: &[u8] = b" \t\n\r{}[],:\"/#";

/// In how many lists and objects a value may stand: as many as serde_json reads.
const DEEPEST: usize = 127;

/// What comes next in a JSON text.
#[derive(Clone, Copy, PartialEq, Eq)]
enum Wants {
    /// A value.
    Value,
    /// A value, or the end of the list that just began.
    ItemOrEnd,
    /// A value behind a comma.
    Item,
    /// A key, or the end of the object that just began.
    KeyOrEnd,
    /// A key behind a comma.
    Key,
    Colon,
    CommaOrEnd,
    /// White space alone.
    Nothing,
}

/// What four digits of an escape name.
#[derive(Clone, Copy)]
enum Half {
    /// A character.
    Whole,
    /// The first half of a pair, or the second.
    First,
    Second,
    /// They are no digits.
    None,
}

/// A walk over a text, up to where it is first no JSON.
#[derive(Drop)]
struct Walk<'t> {
    text: &'t str,
    /// How many bytes were passed.
    at: usize,
    /// How many bytes stand before the end of what was passed last, and before the last comma.
    behind: usize,
    comma: usize,
    wants: Wants,
    /// The brackets that are to come for those that are open.
    open: Vec<u8>,
}

/// Where and why the text is no JSON. Of a text that is JSON it is the end.
pub fn malformed_in(alloc: Global, text: &str) -> Result<Malformed, AllocError> {
    if text.starts_with("\u{feff}") {
        return Ok(Malformed {
            offset: 0,
            what: "it begins with a byte order mark, and is to begin without one",
        });
    }
    let mut walk = Walk {
        text,
        at: 0,
        behind: 0,
        comma: 0,
        wants: Wants::Value,
        open: Vec::new(alloc),
    };
    for _ in 0..text.len().saturating_add(1) {
        if let Some(found) = walk.pass(alloc)? {
            return Ok(found);
        }
    }
    Ok(walk.early())
}

impl Walk<'_> {
    /// The byte behind so many others; 0 where there is none.
    fn byte(&self, at: usize) -> u8 {
        match self.text.as_bytes().get(at) {
            Some(byte) => *byte,
            None => 0,
        }
    }

    /// The byte where the walk stands; 0 at the end.
    fn here(&self) -> u8 {
        match self.text.as_bytes().get(self.at) {
            Some(byte) => *byte,
            None => 0,
        }
    }

    /// Passes white space and what comes behind it. The fault, if that is one.
    fn pass(&mut self, alloc: Global) -> Result<Option<Malformed>, AllocError> {
        self.pass_space();
        if self.at >= self.text.len() {
            return Ok(Some(self.early()));
        }
        match self.here() {
            b'{' => self.begin(b'}', Wants::KeyOrEnd),
            b'[' => self.begin(b']', Wants::ItemOrEnd),
            b'}' | b']' => Ok(self.end()),
            b',' => Ok(self.pass_comma()),
            b':' => Ok(self.pass_colon()),
            b'"' => Ok(self.pass_text()),
            b'/' | b'#' => Ok(self.wrong("a comment stands here, and JSON has none")),
            b'\'' => Ok(self.wrong("texts stand in double quotes")),
            _ => self.pass_word(alloc),
        }
    }

    /// Passes white space.
    fn pass_space(&mut self) {
        for at in self.at..self.text.len() {
            if !matches!(self.byte(at), b' ' | b'\t' | b'\n' | b'\r') {
                self.at = at;
                return;
            }
        }
        self.at = self.text.len();
    }

    /// Passes so many bytes, behind which this comes.
    fn step(&mut self, count: usize, wants: Wants) -> Option<Malformed> {
        self.at = self.at.saturating_add(count);
        self.behind = self.at;
        self.wants = wants;
        None
    }

    /// What comes behind a value.
    fn behind_value(&self) -> Wants {
        if self.open.is_empty() {
            Wants::Nothing
        } else {
            Wants::CommaOrEnd
        }
    }

    /// What stands here is wrong.
    fn wrong(&self, what: &'static str) -> Option<Malformed> {
        Some(Malformed {
            offset: self.at,
            what,
        })
    }

    /// The text ends too early, behind what was passed last.
    fn early(&self) -> Malformed {
        Malformed {
            offset: self.behind,
            what: "it ends too early",
        }
    }

    /// Something else is to stand here. What is left out before a line that begins with a text, a list or an object is left
    /// out at the end of the line before.
    fn due(&self) -> Option<Malformed> {
        let what = match self.wants {
            Wants::Value | Wants::Item => "a value is to stand here",
            Wants::ItemOrEnd => "a value or ] is to stand here",
            Wants::Key => "a key in double quotes is to stand here",
            Wants::KeyOrEnd => "a key in double quotes or } is to stand here",
            Wants::Colon => "a colon is to stand here, between a key and its value",
            Wants::CommaOrEnd => "a comma or the end of the list or object is to stand here",
            Wants::Nothing => return self.wrong("it goes on behind its end"),
        };
        let between = self.text.get(self.behind..self.at).unwrap_or("");
        let is_left_out = matches!(self.wants, Wants::Colon | Wants::CommaOrEnd)
            && matches!(self.here(), b'"' | b'{' | b'[');
        let offset = if is_left_out && between.contains("\n") {
            self.behind
        } else {
            self.at
        };
        Some(Malformed { offset, what })
    }

    /// Whether a value may stand here.
    fn wants_value(&self) -> bool {
        matches!(self.wants, Wants::Value | Wants::ItemOrEnd | Wants::Item)
    }

    /// Passes the bracket with which a list or an object begins that ends with this one.
    fn begin(&mut self, last: u8, wants: Wants) -> Result<Option<Malformed>, AllocError> {
        if !self.wants_value() {
            return Ok(self.due());
        }
        if self.open.len() >= DEEPEST {
            return Ok(self.wrong("more than 127 lists and objects stand in each other here"));
        }
        self.open.push(last)?;
        Ok(self.step(1, wants))
    }

    /// Whether what was begun last ends with this bracket.
    fn is_in(&self, last: u8) -> bool {
        match self.open.last() {
            Some(bracket) => *bracket == last,
            None => false,
        }
    }

    /// Passes the bracket with which a list or an object ends.
    fn end(&mut self) -> Option<Malformed> {
        let bracket = self.here();
        if !self.is_in(bracket) {
            return self.wrong("this bracket ends nothing that is open");
        }
        match self.wants {
            Wants::Item | Wants::Key => Some(Malformed {
                offset: self.comma,
                what: "a comma stands behind the last one of a list or object",
            }),
            Wants::ItemOrEnd | Wants::KeyOrEnd | Wants::CommaOrEnd => {
                self.open.pop();
                let wants = self.behind_value();
                self.step(1, wants)
            }
            _ => self.due(),
        }
    }

    /// Passes a comma.
    fn pass_comma(&mut self) -> Option<Malformed> {
        if self.wants != Wants::CommaOrEnd {
            return self.wrong("a comma stands here with nothing before it");
        }
        self.comma = self.at;
        let wants = if self.is_in(b'}') {
            Wants::Key
        } else {
            Wants::Item
        };
        self.step(1, wants)
    }

    /// Passes a colon.
    fn pass_colon(&mut self) -> Option<Malformed> {
        if self.wants != Wants::Colon {
            return self.due();
        }
        self.step(1, Wants::Value)
    }

    /// Passes a text, a key or a value.
    fn pass_text(&mut self) -> Option<Malformed> {
        let wants = match self.wants {
            Wants::Key | Wants::KeyOrEnd => Wants::Colon,
            _ if self.wants_value() => self.behind_value(),
            _ => return self.due(),
        };
        let mut is_escaped = false;
        for at in self.at.saturating_add(1)..self.text.len() {
            let byte = self.byte(at);
            if byte < 0x20 {
                let what =
                    "a text goes on to here, and a control character or the end of a line stands in none";
                return Some(Malformed { offset: at, what });
            }
            if is_escaped && !self.is_escape(at) {
                let what = "this escape is none of JSON";
                return Some(Malformed {
                    offset: at.saturating_sub(1),
                    what,
                });
            }
            if byte == b'"' && !is_escaped {
                return self.step(at.saturating_sub(self.at).saturating_add(1), wants);
            }
            is_escaped = byte == b'\\' && !is_escaped;
        }
        self.wrong("the text that begins here doesn't end")
    }

    /// Whether an escape goes on so behind its backslash, with both halves of a pair where it is one.
    fn is_escape(&self, at: usize) -> bool {
        if self.byte(at) != b'u' {
            return matches!(
                self.byte(at),
                b'"' | b'\\' | b'/' | b'b' | b'f' | b'n' | b'r' | b't'
            );
        }
        match self.half(at) {
            Half::None => false,
            Half::Whole => true,
            Half::First => matches!(self.half_behind(at), Half::Second),
            Half::Second => matches!(self.half(at.saturating_sub(6)), Half::First),
        }
    }

    /// What the escape behind the next backslash is, where there is one at once.
    fn half_behind(&self, at: usize) -> Half {
        if self.byte(at.saturating_add(5)) != b'\\' {
            return Half::None;
        }
        self.half(at.saturating_add(6))
    }

    /// What the escape is that goes on with u here.
    fn half(&self, at: usize) -> Half {
        let digits = self.text.get(at..at.saturating_add(5)).unwrap_or("");
        let is_spelled = digits.len() == 5 && digits.starts_with("u");
        if !is_spelled || !digits.bytes().skip(1).all(|byte| byte.is_ascii_hexdigit()) {
            return Half::None;
        }
        match (
            self.byte(at.saturating_add(1)),
            self.byte(at.saturating_add(2)),
        ) {
            (b'd' | b'D', b'8' | b'9' | b'a' | b'b' | b'A' | b'B') => Half::First,
            (b'd' | b'D', b'c'..=b'f' | b'C'..=b'F') => Half::Second,
            _ => Half::Whole,
        }
    }

    /// Passes a number, or a word that is a value.
    fn pass_word(&mut self, alloc: Global) -> Result<Option<Malformed>, AllocError> {
        if !self.wants_value() {
            return Ok(self.due());
        }
        let text = self.text;
        let word = word_from(text, self.at);
        let wants = self.behind_value();
        if matches!(word, "true" | "false" | "null") {
            return Ok(self.step(word.len(), wants));
        }
        if !matches!(self.here(), b'0'..=b'9' | b'-' | b'+' | b'.') {
            return Ok(self.wrong(NO_WORD));
        }
        if !is_number(word) {
            return Ok(self.wrong(NO_NUMBER));
        }
        match Value::from_str(alloc, word) {
            Ok(_) => Ok(self.step(word.len(), wants)),
            Err(error) if error.is_memory() => Err(AllocError),
            Err(_) => Ok(self.wrong("the number is out of range")),
        }
    }
}

/// What stands from here on up to one of the bytes that end a word.
fn word_from(text: &str, at: usize) -> &str {
    let rest = text.get(at..).unwrap_or("");
    match rest.bytes().position(|byte| WORD_ENDS.contains(&byte)) {
        Some(end) => rest.get(..end).unwrap_or(""),
        None => rest,
    }
}
