//! What is said of a text, and where in it.

ghost use Rattle.std.specs.Prelude.{◌≡◌, ◌≤◌, IfOk, IfSome, IsSome, None, Some, length, string_bytes};

use crate::malformed::{Malformed, malformed_in};
use crate::place::{Spot, spot_at};
use crate::steps::{Step, offset_of};
use crate::values::shown;
use serde_json::Value;
use std::alloc::{AllocError, Global};

/// What is said of a text.
#[derive(Drop)]
pub struct Said {
    /// Where in the text, if that is known.
    pub spot: Option<Spot>,
    /// What is said.
    pub text: String,
}

impl Said {
    /// The text, of no place that is known.
    pub fn of(text: String) -> Said
        ensures { result.spot ≡ None }
    {
        Said { spot: None, text }
    }

    /// The text, of the line with this number.
    pub fn of_line(number: u64, text: String) -> Said
        ensures there { IsSome result.spot }
        ensures line { IfSome result.spot (λ spot. spot.line ≡ number) }
    {
        Said {
            spot: Some(Spot {
                line: number as usize,
                column: 1,
            }),
            text,
        }
    }
}

/// The value that the text is, or why it is none.
pub fn value_of(alloc: Global, text: &str) -> Result<Result<Value, Said>, AllocError> {
    match Value::from_str(alloc, text) {
        Ok(value) => Ok(Ok(value)),
        Err(error) if error.is_memory() => Err(AllocError),
        Err(_) => Ok(Err(no_json(alloc, text)?)),
    }
}

/// What is said of a text that is no JSON.
fn no_json(alloc: Global, text: &str) -> Result<Said, AllocError> {
    let Malformed { offset, what } = malformed_in(alloc, text)?;
    Ok(Said {
        spot: Some(spot_at(text.as_bytes(), offset)),
        text: format!(in alloc; "the text is no JSON: {what}")?,
    })
}

/// What is said of a text that is no UTF-8.
pub fn no_text(alloc: Global, spot: Spot, language: &str) -> Result<Said, AllocError>
    ensures { IfOk result (λ said. said.spot ≡ Some spot) }
{
    Ok(Said {
        spot: Some(spot),
        text: format!(in alloc; "the text is no {language}: the byte here is no UTF-8")?,
    })
}

/// This, said of what the steps lead to.
pub fn said_at(
    alloc: Global,
    text: &str,
    steps: &[Step<'_>],
    what: String,
) -> Result<Said, AllocError> {
    let offset = offset_of(alloc, text, steps)?;
    Ok(Said {
        spot: offset.map(|offset| spot_at(text.as_bytes(), offset)),
        text: what,
    })
}

/// The value that the steps lead to, as it stands in the text but for white space, or the front of that; nothing where
/// they lead to none.
pub fn shown_at(alloc: Global, text: &str, steps: &[Step<'_>]) -> Result<String, AllocError>
    ensures { IfOk result (λ shown. length (string_bytes shown) ≤ 102) }
{
    match offset_of(alloc, text, steps)? {
        Some(offset) => shown(alloc, text.get(offset..).unwrap_or("")),
        None => Ok(String::new(alloc)),
    }
}
