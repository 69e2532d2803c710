//! Keys that stand twice in an object.

use json::{Reader, Scratch, Token};
use std::alloc::{AllocError, Global};
use std::collections::BTreeMap;

/// A key that stands twice in one object of a JSON text.
#[derive(Clone, Copy)]
pub struct Repeat {
    /// How many bytes of the text stand before it first.
    pub first: usize,
    /// How many stand before it the second time.
    pub second: usize,
}

/// The first key of the text that stands in its object before, where the text is JSON.
pub fn repeat_in(alloc: Global, text: &str) -> Result<Option<Repeat>, AllocError> {
    let mut scratch = Scratch::new(alloc);
    let mut reader = Reader::new(text, &mut scratch)?;
    let mut open = Vec::new(alloc);
    for _ in 0..text.len().saturating_add(1) {
        let second = reader.offset();
        let Some(token) = reader.next() else {
            return Ok(None);
        };
        if let Some(first) = earlier(alloc, &mut open, token, second)? {
            return Ok(Some(Repeat { first, second }));
        }
    }
    Ok(None)
}

/// Notes the token, which stands at this offset, in the objects that are open, with the offset of each of their keys. Where
/// it is a key that its object has already, the offset of that.
fn earlier<'t>(
    alloc: Global,
    open: &mut Vec<BTreeMap<&'t str, usize>>,
    token: Token<'t>,
    offset: usize,
) -> Result<Option<usize>, AllocError> {
    match token {
        Token::BeginObject => open.push(BTreeMap::new(alloc))?,
        Token::EndObject => drop(open.pop()),
        Token::Key(key) => {
            if let Some(keys) = open.last_mut() {
                return Ok(keys.insert(key, offset)?);
            }
        }
        _ => {}
    }
    Ok(None)
}
