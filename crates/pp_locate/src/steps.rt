//! Ways from a JSON value to a value in it.

use crate::values::quoted;
use json::{MAX_DEPTH, Reader, Scratch, Token};
use pp_text::is_name;
use serde_json::Value;
use std::alloc::{AllocError, Global};

/// One step from a JSON value to a value in it.
#[derive(Clone, Copy)]
pub enum Step<'a> {
    /// To the value at this key.
    Key(&'a str),
    /// To this key itself.
    Name(&'a str),
    /// To the item of this number, from 0.
    Item(usize),
}

/// How many bytes a key has at most that is written without quotes: as many as a region's name. No key that a text may have
/// is longer.
const PLAIN: usize = 32;

/// The steps as a text, as in `body[2].body[0]`.
pub fn steps_text(alloc: Global, steps: &[Step<'_>]) -> Result<String, AllocError> {
    let mut text = String::new(alloc);
    for step in steps {
        match *step {
            Step::Key(key) | Step::Name(key) => push_key(alloc, &mut text, key)?,
            Step::Item(item) => write!(text, "[{item}]")?,
        }
    }
    Ok(text)
}

/// Adds the step to the value at the key.
fn push_key(alloc: Global, text: &mut String, key: &str) -> Result<(), AllocError> {
    if !is_name(PLAIN, key) {
        let key = quoted(alloc, key)?;
        return write!(text, "[{key}]");
    }
    if !text.is_empty() {
        text.push('.')?;
    }
    text.push_str(key)
}

/// The value that the steps lead to, if they lead to one.
pub fn value_at<'v>(value: &'v Value, steps: &[Step<'_>]) -> Option<&'v Value> {
    let mut found = value;
    for step in steps {
        found = match *step {
            Step::Key(key) | Step::Name(key) => found.get(key)?,
            Step::Item(item) => found.get(item)?,
        };
    }
    Some(found)
}

/// How many bytes of the JSON text stand before the value or the key that the steps lead to, if they lead to one. Of a key
/// that stands twice the last one counts.
pub fn offset_of(
    alloc: Global,
    text: &str,
    steps: &[Step<'_>],
) -> Result<Option<usize>, AllocError> {
    let mut scratch = Scratch::new(alloc);
    let mut offset = 0usize;
    for step in steps {
        let Some(rest) = text.get(offset..) else {
            return Ok(None);
        };
        let Some(further) = offset_in(rest, &mut scratch, *step)? else {
            return Ok(None);
        };
        offset = offset.saturating_add(further);
    }
    Ok(Some(offset))
}

/// The same for one step, in a text that begins with the value.
fn offset_in(
    text: &str,
    scratch: &mut Scratch,
    step: Step<'_>,
) -> Result<Option<usize>, AllocError> {
    let mut reader = Reader::new(text, scratch)?;
    Ok(match step {
        Step::Key(key) => member_at(&mut reader, text.len(), key).map(|(_, value)| value),
        Step::Name(key) => member_at(&mut reader, text.len(), key).map(|(name, _)| name),
        Step::Item(item) => item_offset(&mut reader, item),
    })
}

/// Where the key stands, and the value at it, in an object of at most so many members.
fn member_at(reader: &mut Reader<'_>, most: usize, key: &str) -> Option<(usize, usize)> {
    let Some(Token::BeginObject) = reader.next() else {
        return None;
    };
    let mut found = None;
    for _ in 0..most {
        let name = reader.offset();
        let Ok(Some(next)) = reader.next_key() else {
            return found;
        };
        if next == key {
            found = Some((name, reader.offset()));
        }
        reader.skip_value(MAX_DEPTH).ok()?;
    }
    found
}

/// Where the item of this number stands in a list.
fn item_offset(reader: &mut Reader<'_>, item: usize) -> Option<usize> {
    let Some(Token::BeginArray) = reader.next() else {
        return None;
    };
    for _ in 0..item {
        reader.skip_value(MAX_DEPTH).ok()?;
    }
    Some(reader.offset())
}
